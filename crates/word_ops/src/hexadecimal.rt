// Words in print.
ghost use Rattle.std.specs.Prelude.{◌≡◌, ◌<◌, [], ◌∷◌, Some};
ghost use Rattle.isa_model.specs.Word.{hex_digit, word_digits};

use std::fmt;

/// A word that displays as its eight lower-case hexadecimal digits.
#[derive(Clone, Copy, Debug, PartialEq, Eq, Drop)]
pub struct Hexadecimal(pub u32);

const DIGITS: [&str; 16] = [
    "0", "1", "2", "3", "4", "5", "6", "7", "8", "9", "a", "b", "c", "d", "e", "f",
];

fn digit(d: u32) -> &'static str
    requires { d < 16 }
    ensures { result.now ≡ hex_digit d ∷ [] }
{
    DIGITS[d as usize]
}

impl fmt::Display for Hexadecimal {
    ghost output = { λ w. Some (word_digits w.0) };

    #[tactic(auto, unfolding(isa_model::specs::Word::word_digits))]
    fn fmt<W: fmt::Write>(&self, f: &mut fmt::Formatter<W>) -> fmt::Result {
        let w = self.0;
        write!(
            f,
            "{}{}{}{}{}{}{}{}",
            digit((w >> 28) & 15),
            digit((w >> 24) & 15),
            digit((w >> 20) & 15),
            digit((w >> 16) & 15),
            digit((w >> 12) & 15),
            digit((w >> 8) & 15),
            digit((w >> 4) & 15),
            digit(w & 15)
        )
    }
}
