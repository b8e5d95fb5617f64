//! Initialised data.

ghost use Rattle.std.specs.Prelude.{◌≡◌, map};
ghost use Rattle.serde_json.specs.View.{view};
ghost use Rattle.json_tree.specs.Answers.{Gives};
ghost use Rattle.dump_reader.specs.Words.{allowed_word};
ghost use Rattle.dump_reader.specs.Digits.{digits};
ghost use Rattle.dump_reader.specs.UnitTree.{init_words, int8, int16, int32, bytes, space, addr, init_operands, init, contents};

use crate::profile::Dump;
use crate::words::allowed_word;
use asm_syntax::listed::Listed;
use asm_syntax::unit::{ByteList, Init, InitList, variable_size};
use hex::FromHexError;
use json_tree::array::{chosen_by, counted, items, list_by, nth, nth_by};
use json_tree::fault::{Cause, ReadError};
use json_tree::number::{Word, natural_at, wrapped_at};
use json_tree::text::text;
use json_tree::tree::Reads;
use limits::{MOST_INIT_ITEMS, MOST_VARIABLE_BYTES};
use serde_json::Value;
use std::alloc::Global;

/// What the first word of an item selects.
#[derive(Clone, Copy, Debug, PartialEq, Eq, Drop)]
pub enum InitForm {
    Int8,
    Int16,
    Int32,
    Bytes,
    Space,
    Addr,
}

/// The words of items. Floating-point and 64-bit data, which no unit may have, stand with no form.
static INIT_WORDS: [(&str, Option<InitForm>); 9] = [
    ("i8", Some(InitForm::Int8)),
    ("i16", Some(InitForm::Int16)),
    ("i32", Some(InitForm::Int32)),
    ("bytes", Some(InitForm::Bytes)),
    ("space", Some(InitForm::Space)),
    ("addr", Some(InitForm::Addr)),
    ("f32", None),
    ("f64", None),
    ("i64", None),
];

impl Reads<InitForm> for Dump {
    ghost reads = { allowed_word init_words };

    fn read(alloc: Global, tree: &Value) -> Result<InitForm, ReadError> {
        allowed_word(alloc, tree, &INIT_WORDS)
    }
}

/// Bytes as hexadecimal digits of both cases, two for each.
#[tactic(auto, unfolding(crate::specs::Digits::digits))]
impl Reads<ByteList> for Dump {
    ghost reads = { digits };

    fn read(alloc: Global, tree: &Value) -> Result<ByteList, ReadError> {
        match hex::decode(alloc, text(alloc, tree)?.as_bytes()) {
            Ok(bytes) => Ok(Listed::from_vec(bytes)),
            Err(FromHexError::OutOfMemory) => Err(ReadError::Memory),
            Err(_) => Err(ReadError::here(alloc, Cause::OutOfRange)),
        }
    }
}

#[tactic(auto, unfolding(crate::specs::UnitTree::int8))]
fn int8(alloc: Global, values: &[Value]) -> Result<Init, ReadError>
    ensures { Gives result (int8 (map view values.now)) }
{
    counted(alloc, values, 2)?;
    let n = wrapped_at(alloc, values, 1, 1 << 8)?;
    Ok(Init::Int8(n as u8))
}

#[tactic(auto, unfolding(crate::specs::UnitTree::int16))]
fn int16(alloc: Global, values: &[Value]) -> Result<Init, ReadError>
    ensures { Gives result (int16 (map view values.now)) }
{
    counted(alloc, values, 2)?;
    let n = wrapped_at(alloc, values, 1, 1 << 16)?;
    Ok(Init::Int16(n as u16))
}

#[tactic(auto, unfolding(crate::specs::UnitTree::int32))]
fn int32(alloc: Global, values: &[Value]) -> Result<Init, ReadError>
    ensures { Gives result (int32 (map view values.now)) }
{
    counted(alloc, values, 2)?;
    let n: Word = nth(alloc, values, 1)?;
    Ok(Init::Int32(n.value()))
}

#[tactic(auto, unfolding(crate::specs::UnitTree::bytes))]
fn bytes(alloc: Global, values: &[Value]) -> Result<Init, ReadError>
    ensures { Gives result (bytes (map view values.now)) }
{
    counted(alloc, values, 2)?;
    let bytes = nth_by::<Dump, ByteList>(alloc, values, 1)?;
    Ok(Init::Bytes(bytes))
}

#[tactic(auto, unfolding(crate::specs::UnitTree::space))]
fn space(alloc: Global, values: &[Value]) -> Result<Init, ReadError>
    ensures { Gives result (space (map view values.now)) }
{
    counted(alloc, values, 2)?;
    let n = natural_at(alloc, values, 1, MOST_VARIABLE_BYTES)?;
    Ok(Init::Space(n))
}

#[tactic(auto, unfolding(crate::specs::UnitTree::addr))]
fn addr(alloc: Global, values: &[Value]) -> Result<Init, ReadError>
    ensures { Gives result (addr (map view values.now)) }
{
    counted(alloc, values, 3)?;
    let symbol = nth(alloc, values, 1)?;
    let offset = nth(alloc, values, 2)?;
    Ok(Init::Addr(symbol, offset))
}

#[tactic(auto, unfolding(crate::specs::UnitTree::init_operands))]
fn init_operands(alloc: Global, form: InitForm, values: &[Value]) -> Result<Init, ReadError>
    ensures { Gives result (init_operands form (map view values.now)) }
{
    match form {
        InitForm::Int8 => int8(alloc, values),
        InitForm::Int16 => int16(alloc, values),
        InitForm::Int32 => int32(alloc, values),
        InitForm::Bytes => bytes(alloc, values),
        InitForm::Space => space(alloc, values),
        InitForm::Addr => addr(alloc, values),
    }
}

#[tactic(auto, unfolding(crate::specs::UnitTree::init))]
impl Reads<Init> for Dump {
    ghost reads = { init };

    fn read(alloc: Global, tree: &Value) -> Result<Init, ReadError> {
        let values = items(alloc, tree)?;
        let form = chosen_by::<Dump, InitForm>(alloc, values)?;
        init_operands(alloc, form, values)
    }
}

/// The items of a variable, whose bytes are counted after them.
#[tactic(auto, unfolding(crate::specs::UnitTree::contents))]
impl Reads<InitList> for Dump {
    ghost reads = { contents };

    fn read(alloc: Global, tree: &Value) -> Result<InitList, ReadError> {
        let contents = list_by::<Dump, Init>(alloc, tree, MOST_INIT_ITEMS)?;
        if variable_size(contents.items()).is_none() {
            return Err(ReadError::here(alloc, Cause::Limit(MOST_VARIABLE_BYTES)));
        }
        Ok(contents)
    }
}
