//! Words that choose, and words of which some are refused.

ghost use Rattle.std.specs.Prelude.{◌≡◌, ◌<◌, length, map, OnOk};
ghost use Rattle.serde_json.specs.View.{view};
ghost use Rattle.json_tree.specs.Answers.{Gives};
ghost use Rattle.json_tree.specs.Arrays.{chosen};
ghost use Rattle.json_tree.specs.Reading.{word_of};
ghost use Rattle.json_tree.specs.Tables.{row};
ghost use Rattle.dump_reader.specs.Words.{allowed_word};

use json_tree::fault::{Cause, ReadError};
use json_tree::text::word_of;
use json_tree::tree::at_index;
use serde_json::Value;
use std::alloc::Global;

/// A text of a table, in which a refused word stands with nothing.
#[tactic(auto, unfolding(crate::specs::Words::allowed_word))]
pub fn allowed_word<T: Copy>(
    alloc: Global,
    tree: &Value,
    table: &[(&str, Option<T>)],
) -> Result<T, ReadError>
    ensures { Gives result (allowed_word (map row table.now) (view tree.now)) }
{
    match word_of(alloc, tree, table)? {
        Some(meaning) => Ok(meaning),
        None => Err(ReadError::here(alloc, Cause::Refused)),
    }
}

/// What the first item chooses, a text of a table. An empty array is out of range.
#[tactic(auto, unfolding(json_tree::specs::Arrays::chosen, json_tree::specs::Arrays::nth), using(json_tree::proofs::Items::array_tools))]
pub fn chosen_word<T: Copy>(
    alloc: Global,
    values: &[Value],
    table: &[(&str, T)],
) -> Result<T, ReadError>
    ensures gives { Gives result (chosen (word_of (map row table.now)) (map view values.now)) }
    ensures some { OnOk result (0 < length values.now) }
{
    if values.is_empty() {
        return Err(ReadError::here(alloc, Cause::OutOfRange));
    }
    at_index(alloc, 0, word_of(alloc, &values[0], table))
}
