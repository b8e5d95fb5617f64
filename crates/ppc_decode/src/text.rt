// The text of an instruction.
ghost use Rattle.std.specs.Prelude.{◌≡◌, IsTrue, IfOk, string_bytes};
ghost use Rattle.ppc_decode.specs.Word.{fits};
ghost use Rattle.ppc_decode.specs.Operands.{operand_list, line};
ghost use Rattle.ppc_decode.specs.Text.{target, mnemonic_of, has_mnemonic_of, operands_of, text_of};

use crate::decoding::decode;
use crate::machine::Machine;
use crate::operand::Operand::{Number, Signed, Target};
use crate::operand::Operands::{Five, One, Three, Two, Zero};
use crate::operand::{Operand, Operands};
use crate::table;
use std::alloc::{AllocError, Global};

/// The spelling of an instruction.
pub fn mnemonic(m: &Machine) -> &'static str
    requires { IsTrue (fits m.now) }
    ensures { result.now ≡ mnemonic_of m.now }
{
    match m {
        Machine::AluImm(k, ..) => table::ALU_IMM_NAMES[usize::from(*k)],
        Machine::LogImm(k, ..) => table::LOG_IMM_NAMES[usize::from(*k)],
        Machine::Alu(k, ..) => table::ALU_NAMES[usize::from(*k)],
        Machine::Alu2(k, ..) => table::ALU2_NAMES[usize::from(*k)],
        Machine::Log(k, ..) => table::LOG_NAMES[usize::from(*k)],
        Machine::Log2(k, ..) => table::LOG2_NAMES[usize::from(*k)],
        Machine::Srawi(..) => "srawi",
        Machine::Rot(k, ..) => table::ROT_NAMES[usize::from(*k)],
        Machine::Load(k, ..) => table::LOAD_NAMES[usize::from(*k)],
        Machine::Store(k, ..) => table::STORE_NAMES[usize::from(*k)],
        Machine::LoadX(k, ..) => table::LOAD_X_NAMES[usize::from(*k)],
        Machine::StoreX(k, ..) => table::STORE_X_NAMES[usize::from(*k)],
        Machine::Cmp(k, ..) => table::CMP_NAMES[usize::from(*k)],
        Machine::CmpImm(k, ..) => table::CMP_IMM_NAMES[usize::from(*k)],
        Machine::CrBit(k, ..) => table::CR_BIT_NAMES[usize::from(*k)],
        Machine::Move(k, _) => table::MOVE_NAMES[usize::from(*k)],
        Machine::Bar(k) => table::BAR_NAMES[usize::from(*k)],
        Machine::Stwu(..) => "stwu",
        Machine::Stwux(..) => "stwux",
        Machine::Mfcr(_) => "mfcr",
        Machine::B(_) => "b",
        Machine::Bl(_) => "bl",
        Machine::Bc(bo, ..) => if *bo == 16 { "bdnz" } else { "bc" },
        Machine::Blr => "blr",
        Machine::Bctr => "bctr",
        Machine::Bctrl => "bctrl",
        Machine::Trap => "trap",
    }
}

/// Whether a word is an instruction with the spelling of this one; false where this one's fields are out of range.
pub fn has_mnemonic_of(m: &Machine, word: u32) -> bool
    ensures { result ≡ has_mnemonic_of m.now word }
{
    if !m.fits() {
        return false;
    }
    match decode(word) {
        Some(found) => mnemonic(&found) == mnemonic(m),
        None => false,
    }
}

fn target(at: u32, displacement: i32) -> Operand
    ensures { result ≡ target at displacement }
{
    Target(at.wrapping_add(displacement.cast_unsigned()))
}

fn operands(m: &Machine, at: u32) -> Operands
    ensures { operand_list result ≡ operands_of m.now at }
{
    match m {
        Machine::AluImm(_, x, y, z) | Machine::LogImm(_, x, y, z) | Machine::CmpImm(_, x, y, z) => {
            Three(Number(*x), Number(*y), Signed(*z))
        }
        Machine::Alu(_, x, y, z)
        | Machine::Log(_, x, y, z)
        | Machine::LoadX(_, x, y, z)
        | Machine::StoreX(_, x, y, z)
        | Machine::Cmp(_, x, y, z)
        | Machine::CrBit(_, x, y, z)
        | Machine::Srawi(x, y, z)
        | Machine::Stwux(x, y, z) => Three(Number(*x), Number(*y), Number(*z)),
        Machine::Load(_, x, y, z) | Machine::Store(_, x, y, z) | Machine::Stwu(x, y, z) => {
            Three(Number(*x), Signed(*y), Number(*z))
        }
        Machine::Rot(_, v, w, x, y, z) => {
            Five(Number(*v), Number(*w), Number(*x), Number(*y), Number(*z))
        }
        Machine::Alu2(_, x, y) | Machine::Log2(_, x, y) => Two(Number(*x), Number(*y)),
        Machine::Move(_, x) | Machine::Mfcr(x) => One(Number(*x)),
        Machine::B(n) | Machine::Bl(n) => One(target(at, *n)),
        Machine::Bc(16, _, n) => One(target(at, *n)),
        Machine::Bc(bo, bi, n) => Three(Number(*bo), Number(*bi), target(at, *n)),
        Machine::Bar(_) | Machine::Blr | Machine::Bctr | Machine::Bctrl | Machine::Trap => Zero,
    }
}

/// The line that shows an instruction at an address: the mnemonic, then a space and the operands, where there are any,
/// with commas between them. A branch shows the address that it leads to.
pub fn text(alloc: Global, m: &Machine, at: u32) -> Result<String, AllocError>
    requires { IsTrue (fits m.now) }
    ensures { IfOk result (λ t. string_bytes t ≡ text_of m.now at) }
{
    line(alloc, mnemonic(m), &operands(m, at))
}

fn line(alloc: Global, name: &str, operands: &Operands) -> Result<String, AllocError>
    ensures { IfOk result (λ t. string_bytes t ≡ line name.now (operand_list operands.now)) }
{
    match operands {
        Zero => format!(in alloc; "{name}"),
        _ => format!(in alloc; "{name} {operands}"),
    }
}
