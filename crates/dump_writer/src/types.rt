//! What types say of a unit. A definition sees plain numbers and lists, so the law of writing and reading asks for the ranges that the
//! types ensure. These functions walk through a unit and test nothing.

ghost use Rattle.std.specs.Prelude.{◌≡◌, Bool, IsTrue};
ghost use Rattle.std.specs.List.{list_all};
ghost use Rattle.isa_model.specs.Operands.{is_register};
ghost use Rattle.asm_syntax.specs.Names.{is_name};
ghost use Rattle.dump_model.specs.Types.{
  are_registers,
  is_address,
  is_byte,
  is_i32,
  is_typed_buffer,
  is_typed_const,
  is_typed_external,
  is_typed_function,
  is_typed_init,
  is_typed_instr,
  is_typed_jump,
  is_typed_plain,
  is_typed_sig,
  is_typed_size,
  is_typed_unit,
  is_typed_variable,
  is_u16,
  is_u32,
};

use asm_syntax::instr::{Const, Function, Instr, Jump, Plain};
use asm_syntax::name::Name;
use asm_syntax::reg::Reg;
use asm_syntax::unit::{Buffer, External, Init, Sig, Size, Unit, Variable};

/// A type whose values are in the range that its definition `is_typed` states.
pub trait Typed {
    ghost is_typed: { Self → Bool };

    fn types(&self)
        ensures { IsTrue (is_typed self.now) };
}

fn types_of_list<T: Typed>(items: &[T])
    ensures { IsTrue (list_all T.is_typed items.now) }
{
    for item in items {
        item.types();
    }
}

impl Typed for u8 {
    ghost is_typed = { is_byte };

    fn types(&self) {
        let _value = *self;
    }
}

impl Typed for u16 {
    ghost is_typed = { is_u16 };

    fn types(&self) {
        let _value = *self;
    }
}

impl Typed for u32 {
    ghost is_typed = { is_u32 };

    fn types(&self) {
        let _value = *self;
    }
}

impl Typed for i32 {
    ghost is_typed = { is_i32 };

    fn types(&self) {
        let _value = *self;
    }
}

impl Typed for Reg {
    ghost is_typed = { is_register };

    fn types(&self) {
        self.number();
    }
}

impl Typed for Name {
    ghost is_typed = { is_name };

    fn types(&self) {
        self.bytes();
    }
}

fn types_of_registers(x: Reg, y: Reg)
    ensures { IsTrue (are_registers x y) }
{
    x.types();
    y.types();
}

fn types_of_address(symbol: &Name, offset: i32)
    ensures { IsTrue (is_address symbol.now offset) }
{
    symbol.types();
    offset.types();
}

impl Typed for Const {
    ghost is_typed = { is_typed_const };

    fn types(&self) {
        match self {
            Const::Int(n) => n.types(),
            Const::Lo(symbol, offset) | Const::Ha(symbol, offset) | Const::Sda(symbol, offset) => {
                types_of_address(symbol, *offset);
            }
        }
    }
}

impl Typed for Jump {
    ghost is_typed = { is_typed_jump };

    fn types(&self) {
        match self {
            Jump::B(label) | Jump::Bdnz(label) => label.types(),
            Jump::Bs(symbol) | Jump::Bl(symbol) => symbol.types(),
            Jump::Blr | Jump::Bctr | Jump::Bctrl | Jump::Trap => (),
        }
    }
}

impl Typed for Plain {
    ghost is_typed = { is_typed_plain };

    fn types(&self) {
        match self {
            Plain::AluImm(_, x, y, c) | Plain::Load(_, x, c, y) | Plain::Store(_, x, c, y) => {
                types_of_registers(*x, *y);
                c.types();
            }
            Plain::Alu(_, x, y, z)
            | Plain::Log(_, x, y, z)
            | Plain::LoadX(_, x, y, z)
            | Plain::StoreX(_, x, y, z) => {
                types_of_registers(*x, *y);
                z.types();
            }
            Plain::LogImm(_, x, y, n) => {
                types_of_registers(*x, *y);
                n.types();
            }
            Plain::Alu2(_, x, y)
            | Plain::Log2(_, x, y)
            | Plain::Srawi(x, y, _)
            | Plain::Rot(_, x, y, _, _, _)
            | Plain::Cmp(_, _, x, y) => types_of_registers(*x, *y),
            Plain::CmpImm(_, _, x, _) | Plain::Move(_, x) => x.types(),
            Plain::CrBit(_, _, _, _) | Plain::Bar(_) => (),
            Plain::Jump(jump) => jump.types(),
        }
    }
}

impl Typed for Instr {
    ghost is_typed = { is_typed_instr };

    fn types(&self) {
        match self {
            Instr::Plain(plain) => plain.types(),
            Instr::AllocFrame(n) | Instr::FreeFrame(n) => n.types(),
            Instr::Imm(r, n) => {
                r.types();
                n.types();
            }
            Instr::Bt(_, label) | Instr::Bf(_, label) | Instr::Label(label) => label.types(),
            Instr::Btbl(r, labels) => {
                r.types();
                types_of_list(labels.items());
            }
            Instr::MfcrBit(r, _) => r.types(),
            Instr::Cfi | Instr::Annot => (),
        }
    }
}

impl Typed for Function {
    ghost is_typed = { is_typed_function };

    fn types(&self) {
        self.name.types();
        types_of_list(self.code.items());
    }
}

impl Typed for Init {
    ghost is_typed = { is_typed_init };

    fn types(&self) {
        match self {
            Init::Int8(n) => n.types(),
            Init::Int16(n) => n.types(),
            Init::Int32(n) => n.types(),
            Init::Bytes(bytes) => types_of_list(bytes.items()),
            Init::Space(_) => (),
            Init::Addr(symbol, offset) => types_of_address(symbol, *offset),
        }
    }
}

impl Typed for Variable {
    ghost is_typed = { is_typed_variable };

    fn types(&self) {
        self.name.types();
        types_of_list(self.init.items());
    }
}

impl Typed for Size {
    ghost is_typed = { is_typed_size };

    fn types(&self) {
        match self {
            Size::Fixed(n) => n.types(),
            Size::Arg(place) => place.types(),
        }
    }
}

impl Typed for Buffer {
    ghost is_typed = { is_typed_buffer };

    fn types(&self) {
        self.arg.types();
        self.size.types();
    }
}

impl Typed for Option<Sig> {
    ghost is_typed = { is_typed_sig };

    fn types(&self) {
        match self {
            Some(sig) => types_of_list(sig.buffers.items()),
            None => (),
        }
    }
}

impl Typed for External {
    ghost is_typed = { is_typed_external };

    fn types(&self) {
        self.name.types();
        self.sig.types();
    }
}

impl Typed for Unit {
    ghost is_typed = { is_typed_unit };

    fn types(&self) {
        self.name.types();
        types_of_list(self.functions.items());
        types_of_list(self.variables.items());
        types_of_list(self.externals.items());
    }
}
