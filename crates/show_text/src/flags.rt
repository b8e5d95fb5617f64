//! The flags of a segment in print. System V gABI, "Program Header", p_flags.

ghost use Rattle.std.specs.Prelude.{◌≡◌, Some};
ghost use Rattle.show_text.specs.Show.{flags_text, letter_if};

use std::fmt;

/// The flags of a program header, shown as three letters.
#[derive(Clone, Copy, Debug, PartialEq, Eq, Drop)]
pub struct Flags(pub u32);

fn letter_if(set: bool, letter: &'static str) -> &'static str
    ensures { result.now ≡ letter_if set letter.now }
{
    if set { letter } else { "-" }
}

impl fmt::Display for Flags {
    ghost output = { λ flags. Some (flags_text flags.0) };

    fn fmt<W: fmt::Write>(&self, f: &mut fmt::Formatter<W>) -> fmt::Result {
        let read = letter_if(self.0 / 4 % 2 == 1, "r");
        let write = letter_if(self.0 / 2 % 2 == 1, "w");
        let execute = letter_if(self.0 % 2 == 1, "x");
        write!(f, "{read}{write}{execute}")
    }
}
