//! Units and replies from the bytes of a file.

ghost use Rattle.std.specs.Prelude.{◌≡◌, IfOk, IsTrue};
ghost use Rattle.ordered_tests.specs.Answers.{Answers};
ghost use Rattle.asm_shapes.specs.Units.{unit_fits};
ghost use Rattle.serde_json.specs.Data.{Data};
ghost use Rattle.serde_json.specs.View.{view};
ghost use Rattle.json_tree.specs.Causes.{FailsBy};
ghost use Rattle.json_tree.specs.Profile.{tree_of};
ghost use Rattle.dump_reader.specs.Causes.{is_dump_cause};
ghost use Rattle.dump_reader.specs.DumpFile.{told, placed, file_of, unit_file, replies_file};

use crate::error::{DumpError, error_of};
use crate::profile::Dump;
use asm_syntax::unit::{Replies, Unit};
use json_tree::fault::ReadError;
use json_tree::profile::{NoTree, tree_of};
use json_tree::tree::Reads;
use serde_json::Value;
use std::alloc::Global;

fn read_tree<P: Reads<T>, T: Drop>(alloc: Global, tree: &Value) -> Result<T, DumpError>
    requires { FailsBy is_dump_cause (P.reads (view tree.now)) }
    ensures { Answers told result (placed (P.reads (view tree.now))) }
{
    match P::read(alloc, tree) {
        Ok(value) => Ok(value),
        Err(ReadError::Memory) => Err(DumpError::Memory),
        Err(ReadError::Fault(fault)) => Err(error_of(fault)),
    }
}

fn read_file<P: Reads<T>, T: Drop>(alloc: Global, text: &[u8]) -> Result<T, DumpError>
    requires { (d : Data) → FailsBy is_dump_cause (P.reads d) }
    ensures { Answers told result (file_of P.reads (tree_of text.now)) }
{
    match tree_of(alloc, text) {
        Ok(tree) => read_tree::<P, T>(alloc, &tree),
        Err(NoTree::NotJson) => Err(DumpError::NotJson),
        Err(NoTree::Memory) => Err(DumpError::Memory),
    }
}

/// The unit that a text is, by the profile of units in versions 1 and 2: an object with the keys `valex`, `version`, `unit`,
/// `functions`, `variables` and `externals`, which are tested in this order; other keys are passed over. In version 2 a signature
/// has the key `buffers`.
#[tactic(auto, using(crate::proofs::Fits::units_fit, crate::proofs::Fits::unit_causes))]
pub fn read_unit(alloc: Global, text: &[u8]) -> Result<Unit, DumpError>
    ensures read { Answers told result (unit_file text.now) }
    ensures fits { IfOk result (λ unit. IsTrue (unit_fits unit)) }
{
    read_file::<Dump, Unit>(alloc, text)
}

/// The replies that a text is, by the profile of replies in versions 1 and 2: an object with the keys `valex`, `version` and `replies`.
/// A reply is a word for r3, or an array of two words for r3 and r4; in version 2 also an object with `r3`, `r4` and `fills`.
#[tactic(auto, using(crate::proofs::ReplyCauses::reply_causes))]
pub fn read_replies(alloc: Global, text: &[u8]) -> Result<Replies, DumpError>
    ensures { Answers told result (replies_file text.now) }
{
    read_file::<Dump, Replies>(alloc, text)
}
