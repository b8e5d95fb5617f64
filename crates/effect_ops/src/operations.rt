// What each operation gives. Power ISA 2.07, Book I, "Fixed-Point Facility".
ghost use Rattle.std.specs.Prelude.{◌≡◌, ◌+◌, ◌<◌, ◌≤◌, ◌^◌, ◌/◌};
ghost use Rattle.effect_model.specs.Meaning.{
  one,
  two,
  three,
  carrying,
  quotient,
  quotient_unsigned,
  shifted_left,
  shifted_signed,
  loses_ones,
  inserted,
  results,
  stops,
};

use effect_model::{Op, Results};
use word_ops::words::{
    clz, is_less_signed, mask, mulh_s, mulh_u, power_of_two, rotl, sext8, sext16, sum_of_three,
};

fn one(n: u32) -> Results
    ensures { result ≡ one n }
{
    two(n, 0)
}

fn two(n: u32, m: u32) -> Results
    ensures { result ≡ two n m }
{
    Results {
        first: n,
        second: m,
        third: 0,
    }
}

fn three(a: bool, b: bool, c: bool) -> Results
    ensures { result ≡ three a b c }
{
    Results {
        first: u32::from(a),
        second: u32::from(b),
        third: u32::from(c),
    }
}

fn carrying(x: u32, y: u32, z: u32) -> Results
    ensures { result ≡ carrying (x + y + z) }
{
    let (sum, carry) = sum_of_three(x, y, z);
    two(sum, carry)
}

fn quotient(a: u32, b: u32) -> u32
    ensures { result ≡ quotient a b }
{
    if b == 0 {
        0
    } else {
        a.cast_signed()
            .wrapping_div(b.cast_signed())
            .cast_unsigned()
    }
}

fn quotient_unsigned(a: u32, b: u32) -> u32
    ensures { result ≡ quotient_unsigned a b }
{
    if b == 0 { 0 } else { a / b }
}

fn shifted_left(a: u32, n: u32) -> u32
    requires { n < 64 }
    ensures { result ≡ shifted_left a n }
{
    ((u64::from(a) << n) & 0xffff_ffff) as u32
}

fn shifted_right(a: u32, n: u32) -> u32
    requires { n < 64 }
    ensures { result ≡ a / 2 ^ n }
{
    (u64::from(a) >> n) as u32
}

#[tactic(auto, using(crate::proofs::ShiftLaws::signs_fit))]
fn shifted_signed(a: u32, n: u32) -> u32
    requires { n ≤ 32 }
    ensures { result ≡ shifted_signed a n }
{
    let high = u64::from(a) >> n;
    if a >= 0x8000_0000 {
        (high + (0x1_0000_0000 - power_of_two(32 - n))) as u32
    } else {
        high as u32
    }
}

fn loses_ones(a: u32, n: u32) -> bool
    requires { n ≤ 32 }
    ensures { result ≡ loses_ones a n }
{
    a >= 0x8000_0000 && u64::from(a) % power_of_two(n) != 0
}

fn inserted(a: u32, b: u32, m: u32) -> u32
    ensures { result ≡ inserted a b m }
{
    (a & m) | (b & !m)
}

/// What the operation gives for three words.
#[tactic(auto, unfolding(effect_model::specs::Meaning::results))]
pub fn results(op: Op, x: u32, y: u32, z: u32) -> Results
    ensures { result ≡ results op x y z }
{
    match op {
        Op::Sum => one(x.wrapping_add(y)),
        Op::Difference => one(y.wrapping_sub(x)),
        Op::CarryingSum => carrying(x, y, z),
        Op::CarryingDifference => carrying(!x, y, z),
        Op::LowProduct => one(x.wrapping_mul(y)),
        Op::HighProduct => one(mulh_s(x, y)),
        Op::HighProductUnsigned => one(mulh_u(x, y)),
        Op::Quotient => one(quotient(x, y)),
        Op::QuotientUnsigned => one(quotient_unsigned(x, y)),
        Op::And => one(x & y),
        Op::AndNot => one(x & !y),
        Op::Or => one(x | y),
        Op::OrNot => one(x | !y),
        Op::Xor => one(x ^ y),
        Op::Nor => one(!(x | y)),
        Op::Nand => one(!(x & y)),
        Op::Equivalence => one(!(x ^ y)),
        Op::ShiftLeft => one(shifted_left(x, y % 64)),
        Op::ShiftRight => one(shifted_right(x, y % 64)),
        Op::ShiftRightSigned => {
            let n = (y % 64).min(32);
            two(shifted_signed(x, n), u32::from(loses_ones(x, n)))
        }
        Op::Rotation(sh, mb, me) => {
            one(rotl(x, u32::from(sh)) & mask(u32::from(mb), u32::from(me)))
        }
        Op::Insertion(sh, mb, me) => {
            let m = mask(u32::from(mb), u32::from(me));
            one(inserted(rotl(x, u32::from(sh)), y, m))
        }
        Op::LeadingZeros => one(clz(x)),
        Op::SignedHalf => one(sext16(x)),
        Op::SignedByte => one(sext8(x)),
        Op::Comparison => three(is_less_signed(x, y), is_less_signed(y, x), x == y),
        Op::ComparisonUnsigned => three(x < y, y < x, x == y),
        Op::BitEquivalence => one((x ^ y) ^ 1),
        Op::Copy => one(x),
    }
}

/// Whether the division has no result: by 0, or of the least signed word by -1.
pub fn stops(op: Op, x: u32, y: u32) -> bool
    ensures { result ≡ stops op x y }
{
    match op {
        Op::Quotient => y == 0 || x == 0x8000_0000 && y == 0xffff_ffff,
        Op::QuotientUnsigned => y == 0,
        _ => false,
    }
}
