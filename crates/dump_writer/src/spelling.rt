//! The spellings of instructions.

ghost use Rattle.std.specs.Prelude.{◌≡◌};
ghost use Rattle.dump_model.specs.Spellings.{spelling};

use mnemonics::{Form, mnemonics};

/// The mnemonic that selects a form, from the table of mnemonics.
pub fn spelling(form: Form) -> &'static str
    ensures { result.now ≡ spelling form }
{
    for (word, selected) in mnemonics() {
        if *selected == Some(form) {
            return word;
        }
    }
    unreachable!()
}
