//! Fields of a word. Power ISA 2.07, "Instruction Formats".

ghost use Rattle.std.specs.Prelude.{◌≡◌, ◌<◌, ◌/◌, ◌%◌, ◌^◌};
ghost use Rattle.code_model.specs.Fields.{base_field, half_field, address_plus};
ghost use Rattle.code_model.specs.Forms.{is_bc, is_addi};

use asm_syntax::operations::AluImmOp;
use ppc_decode::displacement::signed_16;
use ppc_decode::encoding::is_word;
use ppc_decode::machine::Machine;

/// RA, the base register.
pub fn base_field(word: u32) -> u8
    ensures value { result ≡ base_field word }
    ensures range { result < 32 }
{
    ((word >> 16) % 32) as u8
}

/// SI or D, the low half with its sign.
pub fn half_field(word: u32) -> i32
    ensures { result ≡ half_field word }
{
    signed_16(word & 0xffff)
}

fn target_field(word: u32) -> u8
    ensures { result ≡ word / 2 ^ 21 % 32 }
{
    ((word >> 21) % 32) as u8
}

/// An address and an offset or a displacement, as a word.
pub fn address_plus(a: u32, n: i32) -> u32
    ensures { result ≡ address_plus a n }
{
    a.wrapping_add(n.cast_unsigned())
}

/// Whether the word is a branch on a bit of CR with this BO.
pub fn is_bc(bo: u8, word: u32) -> bool
    ensures { result ≡ is_bc bo word }
{
    is_word(word, &Machine::Bc(bo, base_field(word), half_field(word)))
}

pub fn is_addi(word: u32) -> bool
    ensures { result ≡ is_addi word }
{
    let place = AluImmOp::Addi.place();
    is_word(
        word,
        &Machine::AluImm(
            place,
            target_field(word),
            base_field(word),
            half_field(word),
        ),
    )
}
