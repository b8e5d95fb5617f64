// Operands in print.
ghost use Rattle.std.specs.Prelude.{Some};
ghost use Rattle.ppc_decode.specs.Operands.{operand_text, operands_text, operand_list};

use std::fmt;
use word_ops::hexadecimal::Hexadecimal;

/// An operand as assembly language shows it.
#[derive(Clone, Copy, Debug, PartialEq, Eq, Drop)]
pub enum Operand {
    /// A register, a field, a bit or a number without a sign, in decimal.
    Number(u8),
    /// An immediate, in decimal.
    Signed(i32),
    /// The address that a branch leads to, in eight hexadecimal digits.
    Target(u32),
}

impl fmt::Display for Operand {
    ghost output = { λ x. Some (operand_text x) };

    fn fmt<W: fmt::Write>(&self, f: &mut fmt::Formatter<W>) -> fmt::Result {
        match self {
            Operand::Number(n) => write!(f, "{n}"),
            Operand::Signed(z) => write!(f, "{z}"),
            Operand::Target(address) => write!(f, "{}", Hexadecimal(*address)),
        }
    }
}

/// The operands of an instruction, at most five.
#[derive(Clone, Copy, Debug, PartialEq, Eq, Drop)]
pub enum Operands {
    Zero,
    One(Operand),
    Two(Operand, Operand),
    Three(Operand, Operand, Operand),
    Five(Operand, Operand, Operand, Operand, Operand),
}

impl fmt::Display for Operands {
    ghost output = { λ list. Some (operands_text (operand_list list)) };

    fn fmt<W: fmt::Write>(&self, f: &mut fmt::Formatter<W>) -> fmt::Result {
        match self {
            Operands::Zero => Ok(()),
            Operands::One(x) => write!(f, "{x}"),
            Operands::Two(x, y) => write!(f, "{x},{y}"),
            Operands::Three(x, y, z) => write!(f, "{x},{y},{z}"),
            Operands::Five(v, w, x, y, z) => write!(f, "{v},{w},{x},{y},{z}"),
        }
    }
}
