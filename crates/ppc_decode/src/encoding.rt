// The word of an instruction.
ghost use Rattle.std.specs.Prelude.{◌≡◌, ◌<◌, ◌^◌, IsTrue};
ghost use Rattle.isa_model.specs.Forms.{d_form, x_form, m_form, xfx_form, i_form, extended, low_bits};
ghost use Rattle.ppc_decode.specs.Word.{fits, word_of, is_word, word_or_zero};

use crate::machine::Machine;
use crate::table;

#[tactic(auto, unfolding(isa_model::specs::Forms::d_form))]
fn d_form(opcode: u16, x: u8, y: u8, low: u32) -> u32
    requires opcode { opcode < 64 }
    requires x { x < 32 }
    requires y { y < 32 }
    requires low { low < 2 ^ 16 }
    ensures { result ≡ d_form opcode x y low }
{
    (u32::from(opcode) << 26) + (u32::from(x) << 21) + (u32::from(y) << 16) + low
}

#[tactic(auto, unfolding(isa_model::specs::Forms::x_form))]
fn x_form(opcode: u16, x: u8, y: u8, z: u8, low: u32) -> u32
    requires opcode { opcode < 64 }
    requires x { x < 32 }
    requires y { y < 32 }
    requires z { z < 32 }
    requires low { low < 2 ^ 11 }
    ensures { result ≡ x_form opcode x y z low }
{
    (u32::from(opcode) << 26)
        + (u32::from(x) << 21)
        + (u32::from(y) << 16)
        + (u32::from(z) << 11)
        + low
}

fn extended(opcode: u16, last: u8) -> u32
    requires opcode { opcode < 2 ^ 10 }
    requires last { last < 2 }
    ensures value { result ≡ extended opcode last }
    ensures range { result < 2 ^ 11 }
{
    2 * u32::from(opcode) + u32::from(last)
}

fn m_form(opcode: u16, x: u8, y: u8, sh: u8, mb: u8, me: u8) -> u32
    requires opcode { opcode < 64 }
    requires x { x < 32 }
    requires y { y < 32 }
    requires sh { sh < 32 }
    requires mb { mb < 32 }
    requires me { me < 32 }
    ensures { result ≡ m_form opcode x y sh mb me }
{
    x_form(opcode, x, y, sh, 64 * u32::from(mb) + 2 * u32::from(me))
}

/// An X- or XO-form behind the primary opcode 31.
fn by_31(x: u8, y: u8, z: u8, opcode: u16, last: u8) -> u32
    requires x { x < 32 }
    requires y { y < 32 }
    requires z { z < 32 }
    requires opcode { opcode < 2 ^ 10 }
    requires last { last < 2 }
    ensures { result ≡ x_form 31 x y z (extended opcode last) }
{
    x_form(31, x, y, z, extended(opcode, last))
}

fn xfx_form(x: u8, spr: u8, opcode: u16) -> u32
    requires x { x < 32 }
    requires opcode { opcode < 2 ^ 10 }
    ensures { result ≡ xfx_form x spr opcode }
{
    x_form(31, x, spr % 32, spr / 32, extended(opcode, 0))
}

#[tactic(auto, unfolding(isa_model::specs::Forms::i_form))]
fn i_form(opcode: u16, displacement: u32, lk: u32) -> u32
    requires opcode { opcode < 63 }
    requires displacement { displacement < 2 ^ 26 }
    requires lk { lk < 2 }
    ensures { result ≡ i_form opcode displacement lk }
{
    (u32::from(opcode) << 26) + displacement + lk
}

fn low_16(z: i32) -> u32
    ensures value { result ≡ low_bits 16 z }
    ensures range { result < 2 ^ 16 }
{
    z.cast_unsigned() & 0xffff
}

fn low_26(z: i32) -> u32
    ensures value { result ≡ low_bits 26 z }
    ensures range { result < 2 ^ 26 }
{
    z.cast_unsigned() & 0x03ff_ffff
}

/// The word of an instruction. Power ISA 2.07, Book I, "Instruction Formats".
pub fn encode(m: &Machine) -> u32
    requires { IsTrue (fits m.now) }
    ensures { result ≡ word_of m.now }
{
    match m {
        Machine::AluImm(k, d, a, c) => d_form(table::ALU_IMM[usize::from(*k)], *d, *a, low_16(*c)),
        Machine::LogImm(k, a, s, n) => d_form(table::LOG_IMM[usize::from(*k)], *s, *a, low_16(*n)),
        Machine::Alu(k, d, a, b) => by_31(*d, *a, *b, table::ALU[usize::from(*k)], 0),
        Machine::Alu2(k, d, a) => by_31(*d, *a, 0, table::ALU2[usize::from(*k)], 0),
        Machine::Log(k, a, s, b) => {
            let k = usize::from(*k);
            by_31(*s, *a, *b, table::LOG[k], table::LOG_RECORD_BITS[k])
        }
        Machine::Log2(k, a, s) => by_31(*s, *a, 0, table::LOG2[usize::from(*k)], 0),
        Machine::Srawi(a, s, n) => by_31(*s, *a, *n, table::SRAWI, 0),
        Machine::Rot(k, a, s, sh, mb, me) => {
            m_form(table::ROT[usize::from(*k)], *s, *a, *sh, *mb, *me)
        }
        Machine::Load(k, d, c, a) => d_form(table::LOAD[usize::from(*k)], *d, *a, low_16(*c)),
        Machine::Store(k, s, c, a) => d_form(table::STORE[usize::from(*k)], *s, *a, low_16(*c)),
        Machine::LoadX(k, d, a, b) => by_31(*d, *a, *b, table::LOAD_X[usize::from(*k)], 0),
        Machine::StoreX(k, s, a, b) => by_31(*s, *a, *b, table::STORE_X[usize::from(*k)], 0),
        Machine::Cmp(k, f, a, b) => by_31(4 * *f, *a, *b, table::CMP[usize::from(*k)], 0),
        Machine::CmpImm(k, f, a, n) => {
            d_form(table::CMP_IMM[usize::from(*k)], 4 * *f, *a, low_16(*n))
        }
        Machine::CrBit(k, t, a, b) => {
            x_form(19, *t, *a, *b, extended(table::CR_BIT[usize::from(*k)], 0))
        }
        Machine::Move(k, r) => {
            let k = usize::from(*k);
            xfx_form(*r, table::MOVE_REGISTERS[k], table::MOVE[k])
        }
        Machine::Bar(k) => table::BAR[usize::from(*k)],
        Machine::Stwu(s, c, a) => d_form(table::STWU, *s, *a, low_16(*c)),
        Machine::Stwux(s, a, b) => by_31(*s, *a, *b, table::STWUX, 0),
        Machine::Mfcr(r) => by_31(*r, 0, 0, table::MFCR, 0),
        Machine::B(n) => i_form(table::BRANCH, low_26(*n), 0),
        Machine::Bl(n) => i_form(table::BRANCH, low_26(*n), 1),
        Machine::Bc(bo, bi, n) => d_form(table::BRANCH_CONDITIONAL, *bo, *bi, low_16(*n)),
        Machine::Blr => table::BLR,
        Machine::Bctr => table::BCTR,
        Machine::Bctrl => table::BCTRL,
        Machine::Trap => table::TRAP,
    }
}

/// Whether the word is this instruction, with its fields in range.
pub fn is_word(word: u32, m: &Machine) -> bool
    ensures { result ≡ is_word word m.now }
{
    m.fits() && word == encode(m)
}

/// The word of an instruction; 0 for one whose fields are out of range.
#[tactic(auto, unfolding(crate::specs::Word::word_or_zero))]
pub fn word_or_zero(m: &Machine) -> u32
    ensures { result ≡ word_or_zero m.now }
{
    if m.fits() { encode(m) } else { 0 }
}
