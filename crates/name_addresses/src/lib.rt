//! What a checker reads of a linked program: its keys, what names mean, and the addresses of symbols.
#![tactic(auto)]

pub mod keys;

ghost use Rattle.std.specs.Prelude.{◌≡◌, ℕ, List};

use asm_syntax::name::Name;

/// What gives each name that a unit uses the address of its symbol.
pub trait NameAddresses {
    ghost address: { Self → List ℕ → ℕ };

    /// The address of the name's symbol.
    fn address_of(&self, name: &Name) -> u32
        ensures { result ≡ address self.now name.now };
}
