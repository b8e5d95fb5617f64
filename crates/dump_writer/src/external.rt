//! Trees of externals, in the versions without and with buffers.

ghost use Rattle.std.specs.Prelude.{◌≡◌, true, false, IfOk, codes};
ghost use Rattle.serde_json.specs.View.{view};
ghost use Rattle.dump_reader.specs.Versions.{has_buffers};
ghost use Rattle.dump_writer.specs.Rows.{row_items};
ghost use Rattle.dump_model.specs.Trees.{list_data};
ghost use Rattle.dump_model.specs.UnitTree.{
  buffer_data,
  buffer_items,
  buffer_word,
  external_data,
  optional_data,
  result_word,
  sig_data,
  size_data,
  width_data,
  width_word,
};

use crate::tree::{Row, ToTree, Writes, list_value, list_value_by};
use asm_syntax::unit::{Buffer, External, Sig, Size, Width};
use serde_json::{Value, json};
use std::alloc::{AllocError, Global};

fn width_word(width: Width) -> &'static str
    ensures { result.now ≡ width_word width }
{
    match width {
        Width::Word => "w",
        Width::Long => "l",
    }
}

fn result_word(returned: Option<Width>) -> &'static str
    ensures { result.now ≡ result_word returned }
{
    match returned {
        Some(width) => width_word(width),
        None => "none",
    }
}

impl ToTree for Width {
    ghost data_of = { width_data };

    fn to_tree(&self, alloc: Global) -> Result<Value, AllocError> {
        Value::try_from_str(alloc, width_word(*self))
    }
}

fn buffer_word(fills: bool) -> &'static str
    ensures { result.now ≡ buffer_word fills }
{
    if fills { "out" } else { "in" }
}

fn size_value(alloc: Global, size: Size) -> Result<Value, AllocError>
    ensures { IfOk result (λ value. view value ≡ size_data size) }
{
    match size {
        Size::Fixed(n) => Ok(Value::from(n)),
        Size::Arg(place) => {
            let mut row = Row::new(alloc, "arg")?;
            row.unsigned(u32::from(place))?;
            Ok(row.finish())
        }
    }
}

impl ToTree for Buffer {
    ghost data_of = { buffer_data };

    fn to_tree(&self, alloc: Global) -> Result<Value, AllocError> {
        let mut row = Row::new(alloc, buffer_word(self.fills))?;
        row.unsigned(u32::from(self.arg))?;
        row.put(size_value(alloc, self.size)?)?;
        Ok(row.finish())
    }
}

fn without_buffers(alloc: Global, sig: &Sig) -> Result<Value, AllocError>
    ensures { IfOk result (λ value. view value ≡ sig_data false sig.now) }
{
    let args = list_value(alloc, sig.args.items())?;
    json!(in alloc; {"args": args, "result": result_word(sig.result)})
}

fn with_buffers(alloc: Global, sig: &Sig) -> Result<Value, AllocError>
    ensures { IfOk result (λ value. view value ≡ sig_data true sig.now) }
{
    let args = list_value(alloc, sig.args.items())?;
    let buffers = list_value(alloc, sig.buffers.items())?;
    json!(in alloc; {"args": args, "result": result_word(sig.result), "buffers": buffers})
}

fn optional_value(alloc: Global, sig: &Option<Sig>, buffered: bool) -> Result<Value, AllocError>
    ensures { IfOk result (λ value. view value ≡ optional_data buffered sig.now) }
{
    match sig {
        Some(sig) => {
            if buffered {
                with_buffers(alloc, sig)
            } else {
                without_buffers(alloc, sig)
            }
        }
        None => Ok(Value::Null),
    }
}

fn external_value(alloc: Global, e: &External, buffered: bool) -> Result<Value, AllocError>
    ensures { IfOk result (λ value. view value ≡ external_data buffered e.now) }
{
    let sig = optional_value(alloc, &e.sig, buffered)?;
    json!(in alloc; {"name": e.name.text(), "sig": sig})
}

/// Version 1.
struct WithoutBuffers;

impl Writes<External> for WithoutBuffers {
    ghost data_of = { external_data false };

    fn to_tree(alloc: Global, e: &External) -> Result<Value, AllocError> {
        external_value(alloc, e, false)
    }
}

/// Version 2.
struct WithBuffers;

impl Writes<External> for WithBuffers {
    ghost data_of = { external_data true };

    fn to_tree(alloc: Global, e: &External) -> Result<Value, AllocError> {
        external_value(alloc, e, true)
    }
}

/// The array of externals, as a version has them.
pub fn externals_value(
    alloc: Global,
    externals: &[External],
    version: u32,
) -> Result<Value, AllocError>
    ensures { IfOk result (λ value.
        view value ≡ list_data (external_data (has_buffers version)) externals.now) }
{
    if version >= 2 {
        list_value_by::<WithBuffers, External>(alloc, externals)
    } else {
        list_value_by::<WithoutBuffers, External>(alloc, externals)
    }
}
