//! The addresses of the symbols that names mean in a unit.

ghost use Rattle.std.specs.Prelude.{◌≡◌, ℕ, List};

use asm_syntax::name::Name;
use name_addresses::NameAddresses;
use name_addresses::keys::KeyedProgram;

/// A unit of a program whose keys have these addresses.
#[derive(Drop)]
pub struct UnitAddresses<'a, P: KeyedProgram> {
    pub program: &'a P,
    pub unit: u32,
    pub addresses: &'a [u32],
}

impl<'a, P: KeyedProgram> NameAddresses for UnitAddresses<'a, P> {
    ghost use Rattle.std.specs.Option.{option_map_or};
    ghost use Rattle.link_model.specs.Program.{resolve};
    ghost use Rattle.link_model.specs.Binding.{key_address};

    ghost address = { λ s n. option_map_or (key_address s.addresses.now) (resolve (P.program s.program.now).units s.unit n) 0 };

    fn address_of(&self, name: &Name) -> u32 {
        match self.program.resolve(self.unit, name) {
            Some(key) => self.addresses.get(key as usize).copied().unwrap_or(0),
            None => 0,
        }
    }
}
