// The instructions, and which of them have a word.
ghost use Rattle.std.specs.Prelude.{◌≡◌};
ghost use Rattle.isa_model.specs.Operands.{
  is_register,
  is_bit_number,
  is_cr_field,
  is_s16,
  is_u16,
  is_displacement,
  is_branch_option,
};
ghost use Rattle.ppc_decode.specs.Word.{fits, is_place};

use crate::table;

/// A 32-bit integer instruction of the Power ISA 2.07, Book I, in classes of one form and one kind of operands.
///
/// From `AluImm` to `Bar`, `Srawi` excepted, the first field is the place of the mnemonic in its class, counted from 0.
/// The other fields are the operands in the order of assembly language.
#[derive(Clone, Copy, Debug, PartialEq, Eq, Drop)]
pub enum Machine {
    /// mulli, subfic, addic, addi, addis: RT, RA, SI.
    AluImm(u8, u8, u8, i32),
    /// ori, oris, xori, xoris, andi., andis.: RA, RS, UI.
    LogImm(u8, u8, u8, i32),
    /// subfc, addc, mulhwu, subf, mulhw, subfe, adde, mullw, add, divwu, divw: RT, RA, RB.
    Alu(u8, u8, u8, u8),
    /// neg, subfze, addze: RT, RA.
    Alu2(u8, u8, u8),
    /// slw, and, andc, nor, eqv, xor, orc, or, nand, srw, sraw, and.: RA, RS, RB.
    Log(u8, u8, u8, u8),
    /// cntlzw, extsh, extsb: RA, RS.
    Log2(u8, u8, u8),
    /// srawi: RA, RS, SH.
    Srawi(u8, u8, u8),
    /// rlwimi, rlwinm: RA, RS, SH, MB, ME.
    Rot(u8, u8, u8, u8, u8, u8),
    /// lwz, lbz, lhz, lha: RT, D, RA.
    Load(u8, u8, i32, u8),
    /// stw, stb, sth: RS, D, RA.
    Store(u8, u8, i32, u8),
    /// lwzx, lbzx, lhzx, lhax, lwbrx, lhbrx: RT, RA, RB.
    LoadX(u8, u8, u8, u8),
    /// stwx, stbx, sthx, stwbrx, sthbrx: RS, RA, RB.
    StoreX(u8, u8, u8, u8),
    /// cmpw, cmplw: BF, RA, RB.
    Cmp(u8, u8, u8, u8),
    /// cmpwi with SI, cmplwi with UI: BF, RA, and the immediate.
    CmpImm(u8, u8, u8, i32),
    /// crxor, creqv, cror: BT, BA, BB.
    CrBit(u8, u8, u8, u8),
    /// mflr, mfctr, mtlr, mtctr: RT or RS.
    Move(u8, u8),
    /// sync, eieio, isync.
    Bar(u8),
    /// stwu: RS, D, RA.
    Stwu(u8, i32, u8),
    /// stwux: RS, RA, RB.
    Stwux(u8, u8, u8),
    /// mfcr: RT.
    Mfcr(u8),
    /// b: the displacement.
    B(i32),
    /// bl: the displacement.
    Bl(i32),
    /// bc, and bdnz with BO 16: BO, BI, the displacement.
    Bc(u8, u8, i32),
    /// Branch to LR.
    Blr,
    /// Branch to CTR.
    Bctr,
    /// Branch to CTR and set LR.
    Bctrl,
    /// `tw 31,0,0`.
    Trap,
}

fn is_place(k: u8, row: &[u16]) -> bool
    ensures { result ≡ is_place k row.now }
{
    usize::from(k) < row.len()
}

fn is_register(n: u8) -> bool
    ensures { result ≡ is_register n }
{
    n < 32
}

fn is_bit_number(n: u8) -> bool
    ensures { result ≡ is_bit_number n }
{
    n < 32
}

fn is_cr_field(n: u8) -> bool
    ensures { result ≡ is_cr_field n }
{
    n < 8
}

fn is_s16(z: i32) -> bool
    ensures { result ≡ is_s16 z }
{
    -32768 <= z && z <= 32767
}

fn is_u16(z: i32) -> bool
    ensures { result ≡ is_u16 z }
{
    0 <= z && z <= 65535
}

fn is_displacement_16(z: i32) -> bool
    ensures { result ≡ is_displacement 16 z }
{
    is_s16(z) && z.unsigned_abs() % 4 == 0
}

fn is_displacement_26(z: i32) -> bool
    ensures { result ≡ is_displacement 26 z }
{
    -33554432 <= z && z <= 33554431 && z.unsigned_abs() % 4 == 0
}

fn is_branch_option(bo: u8, bi: u8) -> bool
    ensures { result ≡ is_branch_option bo bi }
{
    bo == 4 || bo == 12 || (bo == 16 && bi == 0)
}

impl Machine {
    /// Whether each field is in its range: a place of its class, a register or a bit below 32, a field of CR
    /// below 8, an immediate of 16 bits, and a displacement that is a multiple of 4 of 16 or 26 bits. BO is 4
    /// or 12, or 16 with BI 0.
    pub fn fits(&self) -> bool
        ensures { result ≡ fits self.now }
    {
        match self {
            Machine::AluImm(k, d, a, c) => {
                is_place(*k, &table::ALU_IMM) && is_register(*d) && is_register(*a) && is_s16(*c)
            }
            Machine::LogImm(k, a, s, n) => {
                is_place(*k, &table::LOG_IMM) && is_register(*a) && is_register(*s) && is_u16(*n)
            }
            Machine::Alu(k, d, a, b) => {
                is_place(*k, &table::ALU) && is_register(*d) && is_register(*a) && is_register(*b)
            }
            Machine::Alu2(k, d, a) => {
                is_place(*k, &table::ALU2) && is_register(*d) && is_register(*a)
            }
            Machine::Log(k, a, s, b) => {
                is_place(*k, &table::LOG) && is_register(*a) && is_register(*s) && is_register(*b)
            }
            Machine::Log2(k, a, s) => {
                is_place(*k, &table::LOG2) && is_register(*a) && is_register(*s)
            }
            Machine::Srawi(a, s, n) => is_register(*a) && is_register(*s) && is_bit_number(*n),
            Machine::Rot(k, a, s, sh, mb, me) => {
                is_place(*k, &table::ROT)
                    && is_register(*a)
                    && is_register(*s)
                    && is_bit_number(*sh)
                    && is_bit_number(*mb)
                    && is_bit_number(*me)
            }
            Machine::Load(k, d, c, a) => {
                is_place(*k, &table::LOAD) && is_register(*d) && is_s16(*c) && is_register(*a)
            }
            Machine::Store(k, s, c, a) => {
                is_place(*k, &table::STORE) && is_register(*s) && is_s16(*c) && is_register(*a)
            }
            Machine::LoadX(k, d, a, b) => {
                is_place(*k, &table::LOAD_X)
                    && is_register(*d)
                    && is_register(*a)
                    && is_register(*b)
            }
            Machine::StoreX(k, s, a, b) => {
                is_place(*k, &table::STORE_X)
                    && is_register(*s)
                    && is_register(*a)
                    && is_register(*b)
            }
            Machine::Cmp(k, f, a, b) => {
                is_place(*k, &table::CMP) && is_cr_field(*f) && is_register(*a) && is_register(*b)
            }
            Machine::CmpImm(k, f, a, n) => {
                is_place(*k, &table::CMP_IMM)
                    && is_cr_field(*f)
                    && is_register(*a)
                    && if *k == 0 { is_s16(*n) } else { is_u16(*n) }
            }
            Machine::CrBit(k, t, a, b) => {
                is_place(*k, &table::CR_BIT)
                    && is_bit_number(*t)
                    && is_bit_number(*a)
                    && is_bit_number(*b)
            }
            Machine::Move(k, r) => is_place(*k, &table::MOVE) && is_register(*r),
            Machine::Bar(k) => usize::from(*k) < table::BAR.len(),
            Machine::Stwu(s, c, a) => is_register(*s) && is_s16(*c) && is_register(*a),
            Machine::Stwux(s, a, b) => is_register(*s) && is_register(*a) && is_register(*b),
            Machine::Mfcr(r) => is_register(*r),
            Machine::B(n) | Machine::Bl(n) => is_displacement_26(*n),
            Machine::Bc(bo, bi, n) => {
                is_branch_option(*bo, *bi) && is_bit_number(*bi) && is_displacement_16(*n)
            }
            Machine::Blr | Machine::Bctr | Machine::Bctrl | Machine::Trap => true,
        }
    }
}
