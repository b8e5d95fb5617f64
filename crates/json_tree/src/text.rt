//! Texts, and words of a table.

ghost use Rattle.std.specs.Prelude.{◌≡◌, IsTrue, map, option_map};
ghost use Rattle.serde_json.specs.View.{view};
ghost use Rattle.asm_syntax.specs.Names.{is_name};
ghost use Rattle.json_tree.specs.Answers.{Gives, GivesAs};
ghost use Rattle.json_tree.specs.Reading.{text, stated, field, if_there, look_up, word_of};
ghost use Rattle.json_tree.specs.Tables.{row};

use crate::fault::{Cause, ReadError};
use crate::tree::{at_key, member};
use serde_json::Value;
use std::alloc::Global;

pub fn text(alloc: Global, tree: &Value) -> Result<&str, ReadError>
    ensures { GivesAs (λ t. t.now) result (text (view tree.now)) }
{
    tree.as_str()
        .ok_or(ReadError::here(alloc, Cause::WrongKind))
}

/// The one text that may stand there.
#[tactic(auto, unfolding(crate::specs::Reading::stated))]
fn stated(alloc: Global, tree: &Value, word: &str) -> Result<(), ReadError>
    ensures { Gives result (stated word.now (view tree.now)) }
{
    if text(alloc, tree)? == word {
        Ok(())
    } else {
        Err(ReadError::here(alloc, Cause::UnknownWord))
    }
}

/// The member at a key that is one text alone.
#[tactic(auto, unfolding(crate::specs::Reading::field))]
pub fn stated_field(alloc: Global, tree: &Value, key: &str, word: &str) -> Result<(), ReadError>
    requires { IsTrue (is_name key.now) }
    ensures { Gives result (field key.now (stated word.now) (view tree.now)) }
{
    let read = member(alloc, tree, key).and_then(|value| stated(alloc, value, word));
    at_key(alloc, key, read)
}

/// What the first row with this text has.
fn look_up<T: Copy>(table: &[(&str, T)], text: &str) -> Option<T>
    ensures { result ≡ look_up (map row table.now) text.now }
{
    for (word, meaning) in table {
        if text == *word {
            return Some(*meaning);
        }
    }
    None
}

/// A text of a table.
#[tactic(auto, unfolding(crate::specs::Reading::word_of))]
pub fn word_of<T: Copy>(alloc: Global, tree: &Value, table: &[(&str, T)]) -> Result<T, ReadError>
    ensures { Gives result (word_of (map row table.now) (view tree.now)) }
{
    look_up(table, text(alloc, tree)?).ok_or(ReadError::here(alloc, Cause::UnknownWord))
}
