//! The registers of arguments (PowerPC EABI, "Parameter Passing").

ghost use Rattle.std.specs.Prelude.{◌≡◌, ◌+◌, ◌≤◌, ◌++◌, true, length, slice_get};
ghost use Rattle.std.specs.List.{list_all};
ghost use Rattle.std.specs.Option.{option_copied};
ghost use Rattle.asm_syntax.specs.Sizes.{width_words};
ghost use Rattle.asm_shapes.specs.Signatures.{argument_registers, is_argument_register, registers_from};
ghost use Rattle.call_bytes.specs.Calls.{registers_of_arguments};

use arrayvec::ArrayVec;
use asm_shapes::first_register;
use asm_syntax::unit::Width;
use std::marker::Model;

/// The registers of a signature's arguments, by number.
#[derive(Drop)]
pub struct Arguments {
    words: ArrayVec<u8, 8>,
    firsts: ArrayVec<u8, 8>,
}

impl Model for Arguments {
    ghost use Rattle.call_bytes.specs.Calls.{ArgumentRegisters};

    ghost Value = { ArgumentRegisters };

    ghost view = { λ a. record { words = a.words.items; firsts = a.firsts.items } };
}

/// Adds the registers of an argument.
fn push_words(words: &mut ArrayVec<u8, 8>, first: u8, width: Width)
    requires room { length words.old.items + width_words width ≤ 8 }
    requires range { first ≤ 10 }
    ensures { words.new.items ≡ words.old.items ++ registers_from first width }
{
    words.push(first);
    if width == Width::Long {
        words.push(first + 1);
    }
}

impl Arguments {
    /// Of arguments that pass in registers, as those of a valid signature do.
    pub fn new(args: &[Width]) -> Arguments
        requires { list_all is_argument_register (argument_registers args.now) ≡ true }
        ensures { result ≡ registers_of_arguments args.now }
    {
        let mut next = 3;
        let mut words = ArrayVec::new();
        let mut firsts = ArrayVec::new();
        for width in args {
            let first = first_register(next, *width);
            firsts.push(first);
            push_words(&mut words, first, *width);
            next = first + width.words();
        }
        Arguments { words, firsts }
    }

    /// The registers of all words, in their order; a long's high word comes first.
    pub fn words(&self) -> &[u8]
        ensures value { result.now ≡ self.now.words }
        ensures few { length result.now ≤ 8 }
    {
        self.words.as_slice()
    }

    /// The first register of the argument with this place, from 0.
    pub fn first(&self, place: u8) -> Option<u8>
        ensures { result ≡ slice_get self.now.firsts place }
    {
        self.firsts.as_slice().get(usize::from(place)).copied()
    }
}
