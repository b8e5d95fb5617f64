//! Trees of instructions.

ghost use Rattle.std.specs.Prelude.{◌≡◌, [], ◌∷◌, IfOk};
ghost use Rattle.serde_json.specs.View.{view};
ghost use Rattle.dump_model.specs.Trees.{unsigned_data, signed_data};
ghost use Rattle.dump_writer.specs.Rows.{row_items};
ghost use Rattle.dump_model.specs.InstructionTree.{
  const_data,
  instr_data,
  instr_items,
  jump_items,
  label_items,
  bare_items,
  symbol_items,
  table_items,
  mnemonic,
  one_item,
  part_data,
  plain_items,
  three_items,
  two_items,
};

use crate::spelling::spelling;
use crate::tree::{Row, ToTree, list_value};
use asm_syntax::instr::{Const, Instr, Jump, Plain};
use asm_syntax::name::Name;
use asm_syntax::reg::Reg;
use mnemonics::{Form, JumpForm, PseudoForm};
use serde_json::Value;
use std::alloc::{AllocError, Global};

fn part_value(alloc: Global, word: &str, symbol: &Name, offset: i32) -> Result<Value, AllocError>
    ensures { IfOk result (λ value. view value ≡ part_data word.now symbol.now offset) }
{
    let mut row = Row::new(alloc, word)?;
    row.text(alloc, symbol.text())?;
    row.signed(offset)?;
    Ok(row.finish())
}

fn const_value(alloc: Global, c: &Const) -> Result<Value, AllocError>
    ensures { IfOk result (λ value. view value ≡ const_data c.now) }
{
    match c {
        Const::Int(n) => Ok(Value::from(*n)),
        Const::Lo(symbol, offset) => part_value(alloc, "lo", symbol, *offset),
        Const::Ha(symbol, offset) => part_value(alloc, "ha", symbol, *offset),
        Const::Sda(symbol, offset) => part_value(alloc, "sda", symbol, *offset),
    }
}

fn number(r: Reg) -> u32
    ensures { result ≡ r }
{
    u32::from(r.number())
}

/// The array of a mnemonic alone.
fn bare(alloc: Global, form: Form) -> Result<Row, AllocError>
    ensures { IfOk result (λ row. row_items row ≡ mnemonic form ∷ []) }
{
    Row::new(alloc, spelling(form))
}

fn with_one(alloc: Global, form: Form, x: u32) -> Result<Row, AllocError>
    ensures { IfOk result (λ row. row_items row ≡ one_item form x) }
{
    let mut row = bare(alloc, form)?;
    row.unsigned(x)?;
    Ok(row)
}

fn with_two(alloc: Global, form: Form, x: u32, y: u32) -> Result<Row, AllocError>
    ensures { IfOk result (λ row. row_items row ≡ two_items form x y) }
{
    let mut row = with_one(alloc, form, x)?;
    row.unsigned(y)?;
    Ok(row)
}

fn with_three(alloc: Global, form: Form, x: u32, y: u32, z: u32) -> Result<Row, AllocError>
    ensures { IfOk result (λ row. row_items row ≡ three_items form x y z) }
{
    let mut row = with_two(alloc, form, x, y)?;
    row.unsigned(z)?;
    Ok(row)
}

fn with_registers(alloc: Global, form: Form, x: Reg, y: Reg, z: Reg) -> Result<Row, AllocError>
    ensures { IfOk result (λ row. row_items row ≡ three_items form x y z) }
{
    with_three(alloc, form, number(x), number(y), number(z))
}

/// The array of an instruction whose constant comes last.
fn with_constant(alloc: Global, form: Form, d: Reg, a: Reg, c: &Const) -> Result<Row, AllocError>
    ensures { IfOk result (λ row. row_items row
        ≡ mnemonic form ∷ unsigned_data d ∷ unsigned_data a ∷ const_data c.now ∷ []) }
{
    let mut row = with_two(alloc, form, number(d), number(a))?;
    row.put(const_value(alloc, c)?)?;
    Ok(row)
}

/// The array of a load or a store, whose base register comes behind its displacement.
fn with_base(alloc: Global, form: Form, r: Reg, c: &Const, a: Reg) -> Result<Row, AllocError>
    ensures { IfOk result (λ row. row_items row
        ≡ mnemonic form ∷ unsigned_data r ∷ const_data c.now ∷ unsigned_data a ∷ []) }
{
    let mut row = with_one(alloc, form, number(r))?;
    row.put(const_value(alloc, c)?)?;
    row.unsigned(number(a))?;
    Ok(row)
}

fn with_signed(alloc: Global, form: Form, f: u8, a: Reg, n: i32) -> Result<Row, AllocError>
    ensures { IfOk result (λ row. row_items row
        ≡ mnemonic form ∷ unsigned_data f ∷ unsigned_data a ∷ signed_data n ∷ []) }
{
    let mut row = with_two(alloc, form, u32::from(f), number(a))?;
    row.signed(n)?;
    Ok(row)
}

/// The array of a rotation: two registers, the number of the shift, and the two ends of the mask.
fn with_mask(
    alloc: Global,
    form: Form,
    a: Reg,
    s: Reg,
    mask: (u8, u8, u8),
) -> Result<Row, AllocError>
    ensures { IfOk result (λ row. row_items row
        ≡ mnemonic form ∷ unsigned_data a ∷ unsigned_data s ∷ unsigned_data mask.0 ∷ unsigned_data mask.1 ∷ unsigned_data mask.2 ∷ []) }
{
    let (shift, begin, end) = mask;
    let mut row = with_three(alloc, form, number(a), number(s), u32::from(shift))?;
    row.unsigned(u32::from(begin))?;
    row.unsigned(u32::from(end))?;
    Ok(row)
}

fn to_symbol(alloc: Global, form: JumpForm, symbol: &Name) -> Result<Row, AllocError>
    ensures { IfOk result (λ row. row_items row ≡ symbol_items form symbol.now) }
{
    let mut row = bare(alloc, Form::Jump(form))?;
    row.text(alloc, symbol.text())?;
    Ok(row)
}

fn jump_row(alloc: Global, jump: &Jump) -> Result<Row, AllocError>
    ensures { IfOk result (λ row. row_items row ≡ jump_items jump.now) }
{
    match jump {
        Jump::B(label) => with_one(alloc, Form::Jump(JumpForm::B), *label),
        Jump::Bs(symbol) => to_symbol(alloc, JumpForm::Bs, symbol),
        Jump::Bl(symbol) => to_symbol(alloc, JumpForm::Bl, symbol),
        Jump::Bdnz(label) => with_one(alloc, Form::Jump(JumpForm::Bdnz), *label),
        Jump::Blr => bare(alloc, Form::Jump(JumpForm::Blr)),
        Jump::Bctr => bare(alloc, Form::Jump(JumpForm::Bctr)),
        Jump::Bctrl => bare(alloc, Form::Jump(JumpForm::Bctrl)),
        Jump::Trap => bare(alloc, Form::Jump(JumpForm::Trap)),
    }
}

fn plain_row(alloc: Global, plain: &Plain) -> Result<Row, AllocError>
    ensures { IfOk result (λ row. row_items row ≡ plain_items plain.now) }
{
    match plain {
        Plain::AluImm(op, d, a, c) => with_constant(alloc, Form::AluImm(*op), *d, *a, c),
        Plain::LogImm(op, a, s, n) => {
            with_three(
                alloc,
                Form::LogImm(*op),
                number(*a),
                number(*s),
                u32::from(*n),
            )
        }
        Plain::Alu(op, d, a, b) => with_registers(alloc, Form::Alu(*op), *d, *a, *b),
        Plain::Alu2(op, d, a) => with_two(alloc, Form::Alu2(*op), number(*d), number(*a)),
        Plain::Log(op, a, s, b) => with_registers(alloc, Form::Log(*op), *a, *s, *b),
        Plain::Log2(op, a, s) => with_two(alloc, Form::Log2(*op), number(*a), number(*s)),
        Plain::Srawi(a, s, n) => {
            with_three(alloc, Form::Srawi, number(*a), number(*s), u32::from(*n))
        }
        Plain::Rot(op, a, s, sh, mb, me) => {
            with_mask(alloc, Form::Rot(*op), *a, *s, (*sh, *mb, *me))
        }
        Plain::Load(op, d, c, a) => with_base(alloc, Form::Load(*op), *d, c, *a),
        Plain::LoadX(op, d, a, b) => with_registers(alloc, Form::LoadX(*op), *d, *a, *b),
        Plain::Store(op, s, c, a) => with_base(alloc, Form::Store(*op), *s, c, *a),
        Plain::StoreX(op, s, a, b) => with_registers(alloc, Form::StoreX(*op), *s, *a, *b),
        Plain::Cmp(op, f, a, b) => {
            with_three(alloc, Form::Cmp(*op), u32::from(*f), number(*a), number(*b))
        }
        Plain::CmpImm(op, f, a, n) => with_signed(alloc, Form::CmpImm(*op), *f, *a, *n),
        Plain::CrBit(op, t, a, b) => {
            with_three(
                alloc,
                Form::CrBit(*op),
                u32::from(*t),
                u32::from(*a),
                u32::from(*b),
            )
        }
        Plain::Move(op, r) => with_one(alloc, Form::Move(*op), number(*r)),
        Plain::Bar(op) => bare(alloc, Form::Bar(*op)),
        Plain::Jump(jump) => jump_row(alloc, jump),
    }
}

fn table_row(alloc: Global, r: Reg, labels: &[u32]) -> Result<Row, AllocError>
    ensures { IfOk result (λ row. row_items row
        ≡ table_items r labels.now) }
{
    let mut row = with_one(alloc, Form::Pseudo(PseudoForm::Btbl), number(r))?;
    row.put(list_value(alloc, labels)?)?;
    Ok(row)
}

fn instr_row(alloc: Global, instr: &Instr) -> Result<Row, AllocError>
    ensures { IfOk result (λ row. row_items row ≡ instr_items instr.now) }
{
    match instr {
        Instr::Plain(plain) => plain_row(alloc, plain),
        Instr::AllocFrame(n) => with_one(alloc, Form::Pseudo(PseudoForm::AllocFrame), *n),
        Instr::FreeFrame(n) => with_one(alloc, Form::Pseudo(PseudoForm::FreeFrame), *n),
        Instr::Imm(r, n) => with_two(alloc, Form::Pseudo(PseudoForm::Imm), number(*r), *n),
        Instr::Bt(bit, label) => {
            with_two(alloc, Form::Pseudo(PseudoForm::Bt), u32::from(*bit), *label)
        }
        Instr::Bf(bit, label) => {
            with_two(alloc, Form::Pseudo(PseudoForm::Bf), u32::from(*bit), *label)
        }
        Instr::Btbl(r, labels) => table_row(alloc, *r, labels.items()),
        Instr::MfcrBit(r, bit) => {
            with_two(
                alloc,
                Form::Pseudo(PseudoForm::MfcrBit),
                number(*r),
                u32::from(*bit),
            )
        }
        Instr::Label(label) => with_one(alloc, Form::Pseudo(PseudoForm::Label), *label),
        Instr::Cfi => bare(alloc, Form::Pseudo(PseudoForm::Cfi)),
        Instr::Annot => bare(alloc, Form::Pseudo(PseudoForm::Annot)),
    }
}

impl ToTree for Instr {
    ghost data_of = { instr_data };

    fn to_tree(&self, alloc: Global) -> Result<Value, AllocError> {
        let row = instr_row(alloc, self)?;
        Ok(row.finish())
    }
}
