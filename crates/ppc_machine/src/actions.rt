// What a machine instruction does, by its row.
ghost use Rattle.std.specs.Prelude.{◌≡◌, IsTrue};
ghost use Rattle.ppc_decode.specs.Word.{fits};
ghost use Rattle.ppc_machine.specs.Actions.{action_of};

use effect_model::{Action, Constant, Effects, Operand, Place};
use effect_ops::rows;
use ppc_decode::machine::Machine;

/// The row of the instruction.
pub fn action(m: &Machine) -> Action
    requires { IsTrue (fits m.now) }
    ensures { result ≡ action_of m.now }
{
    match *m {
        Machine::AluImm(k, d, a, c) => rows::alu_imm(k, d, a, Constant::Int(c)),
        Machine::LogImm(k, a, s, n) => rows::log_imm(k, a, s, n.cast_unsigned()),
        Machine::Alu(k, d, a, b) => rows::alu(k, d, a, b),
        Machine::Alu2(k, d, a) => rows::alu2(k, d, a),
        Machine::Log(k, a, s, b) => rows::log(k, a, s, b),
        Machine::Log2(k, a, s) => rows::log2(k, a, s),
        Machine::Srawi(a, s, n) => rows::srawi(a, s, n),
        Machine::Rot(k, a, s, sh, mb, me) => rows::rot(k, a, s, sh, mb, me),
        Machine::Load(k, d, c, a) => rows::load(k, d, Constant::Int(c), a),
        Machine::Store(k, s, c, a) => rows::store(k, s, Constant::Int(c), a),
        Machine::LoadX(k, d, a, b) => rows::load_x(k, d, a, b),
        Machine::StoreX(k, s, a, b) => rows::store_x(k, s, a, b),
        Machine::Cmp(k, f, a, b) => rows::cmp(k, f, a, Operand::At(Place::Gpr(b))),
        Machine::CmpImm(k, f, a, n) => rows::cmp(k, f, a, Operand::Number(n.cast_unsigned())),
        Machine::CrBit(k, t, a, b) => rows::cr_bit(k, t, a, b),
        Machine::Move(k, r) => rows::move_to_or_from(k, r),
        Machine::Bar(_) => Action::Work(Effects::Nothing),
        Machine::Stwu(s, c, a) => rows::stwu(s, Constant::Int(c), a),
        Machine::Stwux(s, a, b) => rows::stwux(s, a, b),
        Machine::Mfcr(r) => Action::MoveFromCr(Place::Gpr(r)),
        Machine::B(_)
        | Machine::Bl(_)
        | Machine::Bc(_, _, _)
        | Machine::Blr
        | Machine::Bctr
        | Machine::Bctrl
        | Machine::Trap => Action::Jump,
    }
}
