//! Externals.

ghost use Rattle.std.specs.Prelude.{◌≡◌, true, false};
ghost use Rattle.serde_json.specs.View.{view};
ghost use Rattle.ordered_tests.specs.Checks.{first_fault};
ghost use Rattle.asm_shapes.specs.Signatures.{buffer_tests};
ghost use Rattle.asm_shapes.specs.Units.{external_name};
ghost use Rattle.json_tree.specs.Answers.{Gives};
ghost use Rattle.json_tree.specs.Reading.{or_null, word_of};
ghost use Rattle.dump_reader.specs.UnitTree.{widths, results, arguments, well_buffered, signature, external};

use crate::buffer::buffers;
use crate::profile::{Dump, WithBuffers, WithoutBuffers};
use crate::shape::misshapen_at;
use asm_shapes::{valid_arguments, valid_buffers};
use asm_syntax::unit::{Buffer, External, Sig, Width, WidthList};
use json_tree::array::list_by;
use json_tree::fault::{Cause, ReadError};
use json_tree::taken::{ReadsNamed, Taken, new_name_field};
use json_tree::text::word_of;
use json_tree::tree::{Reads, at_key, field_by, object};
use serde_json::Value;
use std::alloc::Global;

/// Of the items of an array that have an index.
pub const MOST_INDEXED: u32 = 0xffff_ffff;

static WIDTHS: [(&str, Width); 2] = [("w", Width::Word), ("l", Width::Long)];

static RESULTS: [(&str, Option<Width>); 3] = [
    ("none", None),
    ("w", Some(Width::Word)),
    ("l", Some(Width::Long)),
];

impl Reads<Width> for Dump {
    ghost reads = { word_of widths };

    fn read(alloc: Global, tree: &Value) -> Result<Width, ReadError> {
        word_of(alloc, tree, &WIDTHS)
    }
}

/// The width of a result, if there is one.
impl Reads<Option<Width>> for Dump {
    ghost reads = { word_of results };

    fn read(alloc: Global, tree: &Value) -> Result<Option<Width>, ReadError> {
        word_of(alloc, tree, &RESULTS)
    }
}

/// The arguments of a signature, as many as pass in registers.
#[tactic(auto, unfolding(crate::specs::UnitTree::arguments))]
impl Reads<WidthList> for Dump {
    ghost reads = { arguments };

    fn read(alloc: Global, tree: &Value) -> Result<WidthList, ReadError> {
        let args = list_by::<Dump, Width>(alloc, tree, MOST_INDEXED)?;
        match valid_arguments(args.items()) {
            Ok(()) => Ok(args),
            Err(error) => Err(ReadError::here(alloc, Cause::Shape(error))),
        }
    }
}

/// A faulty buffer is refused at its place, when all are read.
fn well_buffered(alloc: Global, args: &[Width], buffers: &[Buffer]) -> Result<(), ReadError>
    ensures { Gives result (well_buffered (first_fault (buffer_tests args.now buffers.now))) }
{
    match valid_buffers(args, buffers) {
        Ok(()) => Ok(()),
        Err(error) => at_key(alloc, "buffers", misshapen_at(alloc, error)),
    }
}

#[tactic(auto, unfolding(crate::specs::UnitTree::signature))]
fn signature(alloc: Global, tree: &Value, buffered: bool) -> Result<Sig, ReadError>
    ensures { Gives result (signature buffered (view tree.now)) }
{
    object(alloc, tree)?;
    let args = field_by::<Dump, WidthList>(alloc, tree, "args")?;
    let result = field_by::<Dump, Option<Width>>(alloc, tree, "result")?;
    let buffers = buffers(alloc, tree, buffered)?;
    well_buffered(alloc, args.items(), buffers.items())?;
    Ok(Sig {
        args,
        result,
        buffers,
    })
}

/// Null for an object that is never called.
#[tactic(auto, unfolding(json_tree::specs::Reading::or_null))]
fn optional(alloc: Global, tree: &Value, buffered: bool) -> Result<Option<Sig>, ReadError>
    ensures { Gives result (or_null (signature buffered) (view tree.now)) }
{
    if tree.is_null() {
        return Ok(None);
    }
    let sig = signature(alloc, tree, buffered)?;
    Ok(Some(sig))
}

impl Reads<Option<Sig>> for WithoutBuffers {
    ghost reads = { or_null (signature false) };

    fn read(alloc: Global, tree: &Value) -> Result<Option<Sig>, ReadError> {
        optional(alloc, tree, false)
    }
}

impl Reads<Option<Sig>> for WithBuffers {
    ghost reads = { or_null (signature true) };

    fn read(alloc: Global, tree: &Value) -> Result<Option<Sig>, ReadError> {
        optional(alloc, tree, true)
    }
}

#[tactic(auto, unfolding(crate::specs::UnitTree::external))]
impl ReadsNamed<External> for WithoutBuffers {
    ghost name_of = { external_name };

    ghost reads = { external false };

    fn read(alloc: Global, taken: &mut Taken, tree: &Value) -> Result<External, ReadError> {
        object(alloc, tree)?;
        let name = new_name_field(alloc, taken, tree, "name")?;
        let sig = field_by::<WithoutBuffers, Option<Sig>>(alloc, tree, "sig")?;
        Ok(External { name, sig })
    }
}

#[tactic(auto, unfolding(crate::specs::UnitTree::external))]
impl ReadsNamed<External> for WithBuffers {
    ghost name_of = { external_name };

    ghost reads = { external true };

    fn read(alloc: Global, taken: &mut Taken, tree: &Value) -> Result<External, ReadError> {
        object(alloc, tree)?;
        let name = new_name_field(alloc, taken, tree, "name")?;
        let sig = field_by::<WithBuffers, Option<Sig>>(alloc, tree, "sig")?;
        Ok(External { name, sig })
    }
}
