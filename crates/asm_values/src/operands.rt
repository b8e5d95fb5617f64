//! Operations on values.

ghost use Rattle.std.specs.Prelude.{◌≡◌};
ghost use Rattle.asm_values.specs.Operands.{
  address_of,
  address_results,
  compare_args,
  difference_args,
  ha_on,
  kind_at,
  lo_on,
  only,
  sda_on,
  sum_args,
  symbol_value,
  value_in,
  value_results,
  word_in,
  word_values,
};

use asm_mem::blocks::Blocks;
use asm_mem::value::{Val, sum_of};
use effect_model::{Op, Results};
use effect_ops::operations::results;
use link_model::key::KeyKind;

/// What an operand stands for: a value, or a part of a symbol's address, by its key and an offset.
#[derive(Clone, Copy, Drop)]
pub enum OperandValue {
    Known(Val),
    /// `@l`.
    Lo(u32, i32),
    /// `@ha`, in the place of the high half.
    Ha(u32, i32),
    /// `@sda21`.
    Sda(u32, i32),
    /// A part of an address in an instruction that does not take it.
    Undefined,
}

/// The values that an operation gives.
#[derive(Clone, Copy, Drop)]
pub struct ValueResults {
    pub first: Val,
    pub second: Val,
    pub third: Val,
}

fn kind_at(kinds: &[KeyKind], key: u32) -> KeyKind
    ensures { result ≡ kind_at kinds.now key }
{
    let key = key as usize;
    if key < kinds.len() {
        kinds[key]
    } else {
        KeyKind::External(0)
    }
}

fn address_of(key: u32, kind: KeyKind, o: u32) -> Val
    ensures { result ≡ address_of key kind o }
{
    match kind {
        KeyKind::Variable(v) => Val::Ptr(v, o),
        KeyKind::Function(f) => { if o == 0 { Val::Code(f, 0) } else { Val::Undef } }
        KeyKind::External(_) => Val::Ext(key, o),
    }
}

/// The value of a symbol at an offset, with an added word. `kinds` says of each key what it is.
pub fn symbol_value(kinds: &[KeyKind], key: u32, offset: i32, added: u32) -> Val
    ensures { result ≡ symbol_value kinds.now key offset added }
{
    address_of(
        key,
        kind_at(kinds, key),
        offset.cast_unsigned().wrapping_add(added),
    )
}

fn lo_on(kinds: &[KeyKind], u: Val, key: u32, p: i32) -> Val
    ensures { result ≡ lo_on kinds.now u key p }
{
    match u {
        Val::Ha(k, o, n) => {
            if k == key && o.cast_unsigned() == p.cast_unsigned() {
                symbol_value(kinds, key, o, n)
            } else {
                Val::Undef
            }
        }
        _ => Val::Undef,
    }
}

fn ha_on(u: Val, key: u32, o: i32) -> Val
    ensures { result ≡ ha_on u key o }
{
    match u {
        Val::Int(n) => Val::Ha(key, o, n),
        _ => Val::Undef,
    }
}

fn sda_on(kinds: &[KeyKind], u: Val, key: u32, o: i32) -> Val
    ensures { result ≡ sda_on kinds.now u key o }
{
    match u {
        Val::Int(n) => {
            if n == 0 {
                symbol_value(kinds, key, o, 0)
            } else {
                Val::Undef
            }
        }
        _ => Val::Undef,
    }
}

/// The sum of two operands, as of the two parts of an address.
pub fn sum_args(kinds: &[KeyKind], x: OperandValue, y: OperandValue) -> Val
    ensures { result ≡ sum_args kinds.now x y }
{
    match x {
        OperandValue::Known(u) => match y {
            OperandValue::Known(v) => sum_of(u, v),
            OperandValue::Lo(key, o) => lo_on(kinds, u, key, o),
            OperandValue::Ha(key, o) => ha_on(u, key, o),
            OperandValue::Sda(key, o) => sda_on(kinds, u, key, o),
            OperandValue::Undefined => Val::Undef,
        },
        _ => Val::Undef,
    }
}

fn value_in(x: OperandValue) -> Val
    ensures { result ≡ value_in x }
{
    match x {
        OperandValue::Known(v) => v,
        _ => Val::Undef,
    }
}

/// The word that an operand stands for, where it is one.
pub fn word_in(x: OperandValue) -> Option<u32>
    ensures { result ≡ word_in x }
{
    match x {
        OperandValue::Known(Val::Int(n)) => Some(n),
        _ => None,
    }
}

fn word_values(r: Results) -> ValueResults
    ensures { result ≡ word_values r }
{
    ValueResults {
        first: Val::Int(r.first),
        second: Val::Int(r.second),
        third: Val::Int(r.third),
    }
}

fn only(v: Val) -> ValueResults
    ensures { result ≡ only v }
{
    ValueResults {
        first: v,
        second: Val::Undef,
        third: Val::Undef,
    }
}

fn difference_args(blocks: &Blocks, x: OperandValue, y: OperandValue) -> Val
    ensures { result ≡ difference_args blocks.now.live x y }
{
    match x {
        OperandValue::Known(u) => match y {
            OperandValue::Known(v) => blocks.difference(u, v),
            _ => Val::Undef,
        },
        _ => Val::Undef,
    }
}

fn compare_args(blocks: &Blocks, x: OperandValue, y: OperandValue) -> ValueResults
    ensures { result ≡ compare_args blocks.now.live x y }
{
    match x {
        OperandValue::Known(u) => match y {
            OperandValue::Known(v) => {
                let (first, second, third) = blocks.compare(u, v);
                ValueResults {
                    first,
                    second,
                    third,
                }
            }
            _ => only(Val::Undef),
        },
        _ => only(Val::Undef),
    }
}

fn address_results(
    kinds: &[KeyKind],
    blocks: &Blocks,
    op: Op,
    x: OperandValue,
    y: OperandValue,
) -> ValueResults
    ensures { result ≡ address_results kinds.now blocks.now.live op x y }
{
    match op {
        Op::Sum => only(sum_args(kinds, x, y)),
        Op::Difference => only(difference_args(blocks, x, y)),
        Op::Copy => only(value_in(x)),
        Op::ComparisonUnsigned => compare_args(blocks, x, y),
        _ => only(Val::Undef),
    }
}

/// What an operation gives: words where all operands are words, and else by the rules of addresses.
#[tactic(auto, unfolding(crate::specs::Operands::value_results))]
pub fn value_results(
    kinds: &[KeyKind],
    blocks: &Blocks,
    op: Op,
    x: OperandValue,
    y: OperandValue,
    z: OperandValue,
) -> ValueResults
    ensures { result ≡ value_results kinds.now blocks.now.live op x y z }
{
    match (word_in(x), word_in(y), word_in(z)) {
        (Some(a), Some(b), Some(c)) => word_values(results(op, a, b, c)),
        _ => address_results(kinds, blocks, op, x, y),
    }
}
