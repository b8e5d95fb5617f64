// The rows of the instruction table: what the mnemonic at each place of a class does.
ghost use Rattle.std.specs.Prelude.{◌≡◌, ℕ, ◌<◌, slice_index_or};
ghost use Rattle.effect_model.specs.Rows.{
  plain,
  shifted,
  base,
  register,
  simple,
  carried,
  effect,
  moved,
  compared,
  summary,
  recorded,
  copy_row,
  alu_imm_rows,
  alu_imm,
  log_imm_ops,
  log_imm,
  alu_rows,
  alu2_rows,
  log_rows,
  log2_rows,
  cmp_ops,
  cr_bit_rows,
  form_at,
  load_forms,
  store_forms,
  load_x_forms,
  store_x_forms,
  alu,
  alu2,
  log,
  log2,
  srawi,
  rot,
  load,
  store,
  load_x,
  store_x,
  stwu,
  stwux,
  cmp,
  cr_bit,
  move,
};
ghost use Rattle.effect_model.specs.declared.Op.TheVariants.{Copy};

use effect_model::{Action, Constant, Effect, Effects, Form, Op, Operand, Place, Row};

/// The place of the dotted `and` in its class.
const AND_DOT: u8 = 11;

// ---- operands

/// A constant as it is.
fn plain(c: Constant) -> Operand
    ensures { result ≡ plain c }
{
    match c {
        Constant::Int(n) => Operand::Number(n.cast_unsigned()),
        Constant::Lo(key, offset) => Operand::Lo(key, offset),
        Constant::Ha(_, _) => Operand::Undefined,
        Constant::Sda(key, offset) => Operand::Sda(key, offset),
    }
}

/// A constant in the place of the high half.
fn shifted(c: Constant) -> Operand
    ensures { result ≡ shifted c }
{
    match c {
        Constant::Int(n) => Operand::Number(n.cast_unsigned().wrapping_mul(0x1_0000)),
        Constant::Ha(key, offset) => Operand::Ha(key, offset),
        Constant::Lo(_, _) | Constant::Sda(_, _) => Operand::Undefined,
    }
}

/// (RA|0): the number zero where the field is 0.
fn base(a: u8) -> Operand
    ensures { result ≡ base a }
{
    if a == 0 {
        Operand::Number(0)
    } else {
        register(a)
    }
}

fn register(a: u8) -> Operand
    ensures { result ≡ register a }
{
    Operand::At(Place::Gpr(a))
}

// ---- forms of effects

fn simple(op: Op) -> Row
    ensures { result ≡ simple op }
{
    Row {
        op,
        z: Operand::Number(0),
        second: Place::Unused,
    }
}

fn carried(op: Op, z: Operand) -> Row
    ensures { result ≡ carried op z }
{
    Row {
        op,
        z,
        second: Place::Ca,
    }
}

fn effect(r: Row, x: Operand, y: Operand, to: Place) -> Effect
    ensures { result ≡ effect r x y to }
{
    Effect {
        op: r.op,
        x,
        y,
        z: r.z,
        first: to,
        second: r.second,
        third: Place::Unused,
    }
}

pub fn moved(x: Operand, to: Place) -> Effect
    ensures { result ≡ moved x to }
{
    effect(simple(Op::Copy), x, Operand::Number(0), to)
}

fn compared(op: Op, x: Operand, y: Operand, f: u8) -> Effect
    requires { f < 8 }
    ensures { result ≡ compared op x y f }
{
    Effect {
        op,
        x,
        y,
        z: Operand::Number(0),
        first: Place::Bit(4 * f),
        second: Place::Bit(4 * f + 1),
        third: Place::Bit(4 * f + 2),
    }
}

fn summary(f: u8) -> Effect
    requires { f < 8 }
    ensures { result ≡ summary f }
{
    moved(Operand::At(Place::So), Place::Bit(4 * f + 3))
}

fn recorded(e: Effect, to: Place) -> Effects
    ensures { result ≡ recorded e to }
{
    Effects::Three(
        e,
        compared(Op::Comparison, Operand::At(to), Operand::Number(0), 0),
        summary(0),
    )
}

// ---- the rows

fn alu_imm_row(k: u8) -> Row
    ensures { result ≡ slice_index_or alu_imm_rows k copy_row }
{
    match k {
        0 => simple(Op::LowProduct),
        1 => carried(Op::CarryingDifference, Operand::Number(1)),
        2 => carried(Op::CarryingSum, Operand::Number(0)),
        3 | 4 => simple(Op::Sum),
        _ => simple(Op::Copy),
    }
}

fn log_imm_op(k: u8) -> Op
    ensures { result ≡ slice_index_or log_imm_ops k Copy }
{
    match k {
        0 | 1 => Op::Or,
        2 | 3 => Op::Xor,
        4 | 5 => Op::And,
        _ => Op::Copy,
    }
}

fn alu_row(k: u8) -> Row
    ensures { result ≡ slice_index_or alu_rows k copy_row }
{
    match k {
        0 => carried(Op::CarryingDifference, Operand::Number(1)),
        1 => carried(Op::CarryingSum, Operand::Number(0)),
        2 => simple(Op::HighProductUnsigned),
        3 => simple(Op::Difference),
        4 => simple(Op::HighProduct),
        5 => carried(Op::CarryingDifference, Operand::At(Place::Ca)),
        6 => carried(Op::CarryingSum, Operand::At(Place::Ca)),
        7 => simple(Op::LowProduct),
        8 => simple(Op::Sum),
        9 => simple(Op::QuotientUnsigned),
        10 => simple(Op::Quotient),
        _ => simple(Op::Copy),
    }
}

fn alu2_row(k: u8) -> Row
    ensures { result ≡ slice_index_or alu2_rows k copy_row }
{
    match k {
        0 => simple(Op::Difference),
        1 => carried(Op::CarryingDifference, Operand::At(Place::Ca)),
        2 => carried(Op::CarryingSum, Operand::At(Place::Ca)),
        _ => simple(Op::Copy),
    }
}

fn log_row(k: u8) -> Row
    ensures { result ≡ slice_index_or log_rows k copy_row }
{
    match k {
        0 => simple(Op::ShiftLeft),
        1 => simple(Op::And),
        2 => simple(Op::AndNot),
        3 => simple(Op::Nor),
        4 => simple(Op::Equivalence),
        5 => simple(Op::Xor),
        6 => simple(Op::OrNot),
        7 => simple(Op::Or),
        8 => simple(Op::Nand),
        9 => simple(Op::ShiftRight),
        10 => carried(Op::ShiftRightSigned, Operand::Number(0)),
        11 => simple(Op::And),
        _ => simple(Op::Copy),
    }
}

fn log2_row(k: u8) -> Row
    ensures { result ≡ slice_index_or log2_rows k copy_row }
{
    match k {
        0 => simple(Op::LeadingZeros),
        1 => simple(Op::SignedHalf),
        2 => simple(Op::SignedByte),
        _ => simple(Op::Copy),
    }
}

fn cmp_op(k: u8) -> Op
    ensures { result ≡ slice_index_or cmp_ops k Copy }
{
    match k {
        0 => Op::Comparison,
        1 => Op::ComparisonUnsigned,
        _ => Op::Copy,
    }
}

fn cr_bit_row(k: u8) -> Row
    ensures { result ≡ slice_index_or cr_bit_rows k copy_row }
{
    match k {
        0 => simple(Op::Xor),
        1 => simple(Op::BitEquivalence),
        2 => simple(Op::Or),
        _ => simple(Op::Copy),
    }
}

fn load_form(k: u8) -> Form
    ensures { result ≡ form_at load_forms k }
{
    match k {
        1 => Form::Byte,
        2 => Form::Half,
        3 => Form::SignedHalf,
        _ => Form::Word,
    }
}

fn store_form(k: u8) -> Form
    ensures { result ≡ form_at store_forms k }
{
    match k {
        1 => Form::Byte,
        2 => Form::Half,
        _ => Form::Word,
    }
}

fn load_x_form(k: u8) -> Form
    ensures { result ≡ form_at load_x_forms k }
{
    match k {
        1 => Form::Byte,
        2 => Form::Half,
        3 => Form::SignedHalf,
        4 => Form::ReversedWord,
        5 => Form::ReversedHalf,
        _ => Form::Word,
    }
}

fn store_x_form(k: u8) -> Form
    ensures { result ≡ form_at store_x_forms k }
{
    match k {
        1 => Form::Byte,
        2 => Form::Half,
        3 => Form::ReversedWord,
        4 => Form::ReversedHalf,
        _ => Form::Word,
    }
}

// ---- the classes

pub fn alu_imm(k: u8, d: u8, a: u8, c: Constant) -> Action
    ensures { result ≡ alu_imm k d a c }
{
    let r = alu_imm_row(k);
    let to = Place::Gpr(d);
    match k {
        3 => Action::Work(Effects::One(effect(r, base(a), plain(c), to))),
        4 => Action::Work(Effects::One(effect(r, base(a), shifted(c), to))),
        _ => Action::Work(Effects::One(effect(r, register(a), plain(c), to))),
    }
}

pub fn log_imm(k: u8, a: u8, s: u8, n: u32) -> Action
    ensures { result ≡ log_imm k a s n }
{
    let m = if k % 2 == 1 {
        n.wrapping_mul(0x1_0000)
    } else {
        n
    };
    let e = effect(
        simple(log_imm_op(k)),
        register(s),
        Operand::Number(m),
        Place::Gpr(a),
    );
    if k < 4 {
        Action::Work(Effects::One(e))
    } else {
        Action::Work(recorded(e, Place::Gpr(a)))
    }
}

pub fn alu(k: u8, d: u8, a: u8, b: u8) -> Action
    ensures { result ≡ alu k d a b }
{
    let e = effect(alu_row(k), register(a), register(b), Place::Gpr(d));
    if k < 9 {
        Action::Work(Effects::One(e))
    } else {
        Action::Divide(e)
    }
}

pub fn alu2(k: u8, d: u8, a: u8) -> Action
    ensures { result ≡ alu2 k d a }
{
    let e = effect(alu2_row(k), register(a), Operand::Number(0), Place::Gpr(d));
    Action::Work(Effects::One(e))
}

pub fn log(k: u8, a: u8, s: u8, b: u8) -> Action
    ensures { result ≡ log k a s b }
{
    let e = effect(log_row(k), register(s), register(b), Place::Gpr(a));
    if k == AND_DOT {
        Action::Work(recorded(e, Place::Gpr(a)))
    } else {
        Action::Work(Effects::One(e))
    }
}

pub fn log2(k: u8, a: u8, s: u8) -> Action
    ensures { result ≡ log2 k a s }
{
    let e = effect(log2_row(k), register(s), Operand::Number(0), Place::Gpr(a));
    Action::Work(Effects::One(e))
}

pub fn srawi(a: u8, s: u8, n: u8) -> Action
    ensures { result ≡ srawi a s n }
{
    let e = effect(
        carried(Op::ShiftRightSigned, Operand::Number(0)),
        register(s),
        Operand::Number(u32::from(n)),
        Place::Gpr(a),
    );
    Action::Work(Effects::One(e))
}

pub fn rot(k: u8, a: u8, s: u8, sh: u8, mb: u8, me: u8) -> Action
    ensures { result ≡ rot k a s sh mb me }
{
    let to = Place::Gpr(a);
    let e = if k == 0 {
        effect(
            simple(Op::Insertion(sh, mb, me)),
            register(s),
            register(a),
            to,
        )
    } else {
        effect(
            simple(Op::Rotation(sh, mb, me)),
            register(s),
            Operand::Number(0),
            to,
        )
    };
    Action::Work(Effects::One(e))
}

pub fn load(k: u8, d: u8, c: Constant, a: u8) -> Action
    ensures { result ≡ load k d c a }
{
    Action::Load(load_form(k), base(a), plain(c), Place::Gpr(d))
}

pub fn store(k: u8, s: u8, c: Constant, a: u8) -> Action
    ensures { result ≡ store k s c a }
{
    Action::Store(
        store_form(k),
        Place::Gpr(s),
        base(a),
        plain(c),
        Place::Unused,
    )
}

pub fn load_x(k: u8, d: u8, a: u8, b: u8) -> Action
    ensures { result ≡ load_x k d a b }
{
    Action::Load(load_x_form(k), base(a), register(b), Place::Gpr(d))
}

pub fn store_x(k: u8, s: u8, a: u8, b: u8) -> Action
    ensures { result ≡ store_x k s a b }
{
    Action::Store(
        store_x_form(k),
        Place::Gpr(s),
        base(a),
        register(b),
        Place::Unused,
    )
}

pub fn stwu(s: u8, c: Constant, a: u8) -> Action
    ensures { result ≡ stwu s c a }
{
    Action::Store(Form::Word, Place::Gpr(s), base(a), plain(c), Place::Gpr(a))
}

pub fn stwux(s: u8, a: u8, b: u8) -> Action
    ensures { result ≡ stwux s a b }
{
    Action::Store(
        Form::Word,
        Place::Gpr(s),
        base(a),
        register(b),
        Place::Gpr(a),
    )
}

pub fn cmp(k: u8, f: u8, a: u8, y: Operand) -> Action
    requires { f < 8 }
    ensures { result ≡ cmp k f a y }
{
    let e = compared(cmp_op(k), register(a), y, f);
    Action::Work(Effects::Two(e, summary(f)))
}

pub fn cr_bit(k: u8, t: u8, a: u8, b: u8) -> Action
    ensures { result ≡ cr_bit k t a b }
{
    let e = effect(
        cr_bit_row(k),
        Operand::At(Place::Bit(a)),
        Operand::At(Place::Bit(b)),
        Place::Bit(t),
    );
    Action::Work(Effects::One(e))
}

pub fn move_to_or_from(k: u8, r: u8) -> Action
    ensures { result ≡ move k r }
{
    let e = match k {
        0 => moved(Operand::At(Place::Lr), Place::Gpr(r)),
        1 => moved(Operand::At(Place::Ctr), Place::Gpr(r)),
        2 => moved(register(r), Place::Lr),
        _ => moved(register(r), Place::Ctr),
    };
    Action::Work(Effects::One(e))
}
