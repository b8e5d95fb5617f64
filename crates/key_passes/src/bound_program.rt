//! What the passes over keys read.

ghost use Rattle.std.specs.Prelude.{◌≡◌};
ghost use Rattle.link_model.specs.Binding.{key_address};

use elf_view::LoadedSegments;
use layout_file::layout::Layout;
use name_addresses::keys::KeyedProgram;

/// An image, a layout, and a program whose keys have these addresses, by their numbers.
#[derive(Drop)]
pub struct BoundProgram<'a, 'v, P: KeyedProgram> {
    pub segments: &'a LoadedSegments<'v>,
    pub layout: &'a Layout,
    pub program: &'a P,
    pub addresses: &'a [u32],
}

impl<'a, 'v, P: KeyedProgram> BoundProgram<'a, 'v, P> {
    /// The address of a key; 0 where it has none.
    pub(crate) fn address(&self, k: u32) -> u32
        ensures { result ≡ key_address self.now.addresses.now k }
    {
        self.addresses.get(k as usize).copied().unwrap_or(0)
    }
}
