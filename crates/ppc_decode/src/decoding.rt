// The instruction of a word: proposed by the word's fields, and confirmed by its encoding.
ghost use Rattle.std.specs.Prelude.{◌≡◌, ◌<◌, ◌^◌, ℕ, IsTrue, IfSome, Some, None, length};
ghost use Rattle.ppc_decode.specs.declared.machine.Machine.{Machine};
ghost use Rattle.ppc_decode.specs.Word.{fits, word_of, Encodes, WordsDiffer};
ghost use Rattle.ppc_decode.specs.Decoding.{
  place_in,
  log_place,
  last_11,
  rare_31,
  by_31,
  by_19,
  by_18,
  rare_opcode,
  by_opcode,
  proposed,
  decoded,
  DecodesExactly,
};

use crate::displacement::{signed_16, signed_26};
use crate::encoding::{encode, is_word};
use crate::machine::Machine;
use crate::table;

fn position_of(row: &[u16], opcode: u32) -> Option<usize>
    ensures { result ≡ place_in row.now opcode }
{
    row.iter().position(|n| u32::from(*n) == opcode)
}

fn place(row: &[u16], opcode: u32) -> Option<u8>
    requires { length row.now < 256 }
    ensures { result ≡ place_in row.now opcode }
{
    match position_of(row, opcode) {
        Some(k) => Some(k as u8),
        None => None,
    }
}

fn log_place(low: u32) -> Option<u8>
    ensures { result ≡ log_place low }
{
    if low % 2 == 1 {
        Some(table::AND_DOT)
    } else {
        place(&table::LOG, low / 2)
    }
}

fn last_11(word: u32) -> u32
    ensures value { result ≡ last_11 word }
    ensures range { result < 2 ^ 11 }
{
    word & 0x7ff
}

fn rare_31(x: u8, y: u8, z: u8, low: u32) -> Option<Machine>
    ensures { result ≡ rare_31 x y z low }
{
    if low == last_11(table::TRAP) {
        Some(Machine::Trap)
    } else if low == last_11(table::BAR[0]) {
        Some(Machine::Bar(0))
    } else if low == last_11(table::BAR[1]) {
        Some(Machine::Bar(1))
    } else if low / 2 == u32::from(table::SRAWI) {
        Some(Machine::Srawi(y, x, z))
    } else if low / 2 == u32::from(table::STWUX) {
        Some(Machine::Stwux(x, y, z))
    } else if low / 2 == u32::from(table::MFCR) {
        Some(Machine::Mfcr(x))
    } else if low / 2 == u32::from(table::MOVE[0]) {
        Some(Machine::Move(if y == 9 { 1 } else { 0 }, x))
    } else if low / 2 == u32::from(table::MOVE[2]) {
        Some(Machine::Move(if y == 9 { 3 } else { 2 }, x))
    } else {
        None
    }
}

fn by_31(x: u8, y: u8, z: u8, low: u32) -> Option<Machine>
    ensures { result ≡ by_31 x y z low }
{
    if let Some(k) = place(&table::ALU, low / 2) {
        return Some(Machine::Alu(k, x, y, z));
    }
    if let Some(k) = place(&table::ALU2, low / 2) {
        return Some(Machine::Alu2(k, x, y));
    }
    if let Some(k) = place(&table::LOG2, low / 2) {
        return Some(Machine::Log2(k, y, x));
    }
    if let Some(k) = place(&table::LOAD_X, low / 2) {
        return Some(Machine::LoadX(k, x, y, z));
    }
    if let Some(k) = place(&table::STORE_X, low / 2) {
        return Some(Machine::StoreX(k, x, y, z));
    }
    if let Some(k) = place(&table::CMP, low / 2) {
        return Some(Machine::Cmp(k, x / 4, y, z));
    }
    if let Some(k) = log_place(low) {
        return Some(Machine::Log(k, y, x, z));
    }
    rare_31(x, y, z, low)
}

fn by_19(x: u8, y: u8, z: u8, low: u32) -> Option<Machine>
    ensures { result ≡ by_19 x y z low }
{
    if let Some(k) = place(&table::CR_BIT, low / 2) {
        return Some(Machine::CrBit(k, x, y, z));
    }
    if low == last_11(table::BLR) {
        Some(Machine::Blr)
    } else if low == last_11(table::BCTR) {
        Some(Machine::Bctr)
    } else if low == last_11(table::BCTRL) {
        Some(Machine::Bctrl)
    } else if low == last_11(table::BAR[2]) {
        Some(Machine::Bar(2))
    } else {
        None
    }
}

fn by_18(x: u8, y: u8, low: u32) -> Option<Machine>
    requires x { x < 32 }
    requires y { y < 32 }
    requires low { low < 2 ^ 16 }
    ensures { result ≡ by_18 x y low }
{
    let high = (u32::from(x) << 21) + (u32::from(y) << 16);
    if low % 2 == 1 {
        Some(Machine::Bl(signed_26(high + (low - 1))))
    } else {
        Some(Machine::B(signed_26(high + low)))
    }
}

fn rare_opcode(opcode: u32, x: u8, y: u8, low: u32) -> Option<Machine>
    requires x { x < 32 }
    requires y { y < 32 }
    requires low { low < 2 ^ 16 }
    ensures { result ≡ rare_opcode opcode x y low }
{
    if opcode == u32::from(table::STWU) {
        Some(Machine::Stwu(x, signed_16(low), y))
    } else if opcode == u32::from(table::BRANCH_CONDITIONAL) {
        Some(Machine::Bc(x, y, signed_16(low)))
    } else if opcode == u32::from(table::BRANCH) {
        by_18(x, y, low)
    } else if opcode == 31 {
        by_31(x, y, (low >> 11) as u8, last_11(low))
    } else if opcode == 19 {
        by_19(x, y, (low >> 11) as u8, last_11(low))
    } else {
        None
    }
}

fn by_opcode(opcode: u32, x: u8, y: u8, low: u32) -> Option<Machine>
    requires x { x < 32 }
    requires y { y < 32 }
    requires low { low < 2 ^ 16 }
    ensures { result ≡ by_opcode opcode x y low }
{
    if let Some(k) = place(&table::ALU_IMM, opcode) {
        return Some(Machine::AluImm(k, x, y, signed_16(low)));
    }
    if let Some(k) = place(&table::LOG_IMM, opcode) {
        return Some(Machine::LogImm(k, y, x, low as i32));
    }
    if let Some(k) = place(&table::LOAD, opcode) {
        return Some(Machine::Load(k, x, signed_16(low), y));
    }
    if let Some(k) = place(&table::STORE, opcode) {
        return Some(Machine::Store(k, x, signed_16(low), y));
    }
    if let Some(k) = place(&table::ROT, opcode) {
        let sh = (low >> 11) as u8;
        let mb = ((low >> 6) & 31) as u8;
        let me = ((low >> 1) & 31) as u8;
        return Some(Machine::Rot(k, y, x, sh, mb, me));
    }
    if let Some(k) = place(&table::CMP_IMM, opcode) {
        let n = if k == 0 { signed_16(low) } else { low as i32 };
        return Some(Machine::CmpImm(k, x / 4, y, n));
    }
    rare_opcode(opcode, x, y, low)
}

#[tactic(auto, unfolding(crate::specs::Decoding::proposed))]
fn proposed(word: u32) -> Option<Machine>
    ensures { result ≡ proposed word }
{
    let x = ((word >> 21) & 31) as u8;
    let y = ((word >> 16) & 31) as u8;
    by_opcode(word >> 26, x, y, word & 0xffff)
}

/// What a word proposes, where that has this word.
#[tactic(auto, unfolding(crate::specs::Decoding::decoded))]
fn confirmed(word: u32) -> Option<Machine>
    ensures { result ≡ decoded word }
{
    let proposed = proposed(word)?;
    if is_word(word, &proposed) {
        Some(proposed)
    } else {
        None
    }
}

/// The instruction of a word; None exactly where no instruction with its fields in range has that word.
pub fn decode(word: u32) -> Option<Machine>
    ensures value { result ≡ decoded word }
    ensures found { IfSome result (Encodes word) }
    ensures only { (i : Machine) → Encodes word i → result ≡ Some i }
    ensures law { DecodesExactly }
{
    confirmed(word)
}

/// An instruction is found again in its word, and no word belongs to two instructions whose fields are in range.
pub fn decode_encoded(m: &Machine) -> Option<Machine>
    requires { IsTrue (fits m.now) }
    ensures found { result ≡ Some m.now }
    ensures apart { WordsDiffer }
{
    decode(encode(m))
}
