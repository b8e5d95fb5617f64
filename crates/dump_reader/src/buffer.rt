//! Buffers of signatures.

ghost use Rattle.std.specs.Prelude.{◌≡◌};
ghost use Rattle.serde_json.specs.View.{view};
ghost use Rattle.json_tree.specs.Answers.{Gives};
ghost use Rattle.dump_reader.specs.UnitTree.{argument_size, fixed_size, buffer_size, buffer, buffers};

use crate::profile::Dump;
use crate::words::chosen_word;
use asm_syntax::listed::Listed;
use asm_syntax::unit::{Buffer, BufferList, Size};
use json_tree::array::{counted, items, list_field_by, nth_by};
use json_tree::fault::ReadError;
use json_tree::number::{natural, natural_at};
use json_tree::tree::Reads;
use limits::{MOST_BUFFER_BYTES, MOST_BUFFERS};
use serde_json::Value;
use std::alloc::Global;

/// Whether the external fills the buffer.
static BUFFER_WORDS: [(&str, bool); 2] = [("in", false), ("out", true)];

static SIZE_WORDS: [(&str, ()); 1] = [("arg", ())];

/// The word of an argument.
#[tactic(auto, unfolding(crate::specs::UnitTree::argument_size))]
fn argument_size(alloc: Global, tree: &Value) -> Result<Size, ReadError>
    ensures { Gives result (argument_size (view tree.now)) }
{
    let values = items(alloc, tree)?;
    chosen_word(alloc, values, &SIZE_WORDS)?;
    counted(alloc, values, 2)?;
    Ok(Size::Arg(natural_at(alloc, values, 1, 255)? as u8))
}

#[tactic(auto, unfolding(crate::specs::UnitTree::fixed_size))]
fn fixed_size(alloc: Global, tree: &Value) -> Result<Size, ReadError>
    ensures { Gives result (fixed_size (view tree.now)) }
{
    Ok(Size::Fixed(natural(alloc, tree, MOST_BUFFER_BYTES)?))
}

#[tactic(auto, unfolding(crate::specs::UnitTree::buffer_size))]
impl Reads<Size> for Dump {
    ghost reads = { buffer_size };

    fn read(alloc: Global, tree: &Value) -> Result<Size, ReadError> {
        if tree.is_array() {
            argument_size(alloc, tree)
        } else {
            fixed_size(alloc, tree)
        }
    }
}

#[tactic(auto, unfolding(crate::specs::UnitTree::buffer))]
impl Reads<Buffer> for Dump {
    ghost reads = { buffer };

    fn read(alloc: Global, tree: &Value) -> Result<Buffer, ReadError> {
        let values = items(alloc, tree)?;
        let fills = chosen_word(alloc, values, &BUFFER_WORDS)?;
        counted(alloc, values, 3)?;
        let arg = natural_at(alloc, values, 1, 255)? as u8;
        let size = nth_by::<Dump, Size>(alloc, values, 2)?;
        Ok(Buffer { fills, arg, size })
    }
}

/// The buffers of a signature, in a version that has them.
#[tactic(auto, unfolding(crate::specs::UnitTree::buffers))]
pub fn buffers(alloc: Global, tree: &Value, buffered: bool) -> Result<BufferList, ReadError>
    ensures { Gives result (buffers buffered (view tree.now)) }
{
    if buffered {
        list_field_by::<Dump, Buffer>(alloc, tree, "buffers", MOST_BUFFERS)
    } else {
        Ok(Listed::new(alloc))
    }
}
