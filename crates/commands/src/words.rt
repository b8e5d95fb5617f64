//! The words of a command line.

ghost use Rattle.std.specs.Prelude.{◌≡◌, map, string_bytes};
ghost use Rattle.commands.specs.Words.{word_at, is_operand};

/// The word at a place, counted from 0, and no byte past the last word.
#[tactic(auto, using(crate::proofs::WordLemmas::word_within, crate::proofs::WordLemmas::word_past))]
pub fn word(words: &[String], place: usize) -> &str
    ensures { result.now ≡ word_at (map string_bytes words.now) place }
{
    match words.get(place) {
        Some(word) => word.as_str(),
        None => "",
    }
}

/// Whether a word may stand after a command's name.
pub fn is_operand(word: &str) -> bool
    ensures { result ≡ is_operand word.now }
{
    match word.as_bytes() {
        [] => false,
        [first, ..] => *first != b'-',
    }
}
