// The numbers of an image's symbols, by name and then by number.
ghost use Rattle.std.specs.Prelude.{◌≡◌, ◌<◌, ◌≤◌, ◌+◌, ◌-◌, ◌*◌, ◌^◌, ℕ, length, IfOk, IfNone, slice_get, slice_index, Some, bytes_eq};
ghost use Rattle.std.specs.Prelude.{false, option_map};
ghost use Rattle.std.specs.List.{list_any, range_with_len};
ghost use Rattle.std.specs.List.Sorted.{IsPermutation, IsSortedBy};
ghost use Rattle.std.specs.Cmp.Lexicographic.{slice_cmp};
ghost use Rattle.std.specs.Ordering.{nat_cmp};
ghost use Rattle.image_model.specs.declared.symbol.TheConstants.{NAME_START_BYTES};
ghost use Rattle.image_model.specs.Names.{fields_of, name_start_at};
ghost use Rattle.symbol_index.specs.Order.{IsIndex, order, comes_before};
ghost use Rattle.symbol_index.specs.Index.{first_place, has_name, in_order};

use crate::steps::Steps;
use elf_view::{ElfView, SymbolFields};
use std::alloc::{AllocError, Global};
use std::cmp::Ordering;
use std::marker::{Brand, Model};
use std::sync::ledger::{Blank, Ledger};

/// The symbols of an image in the order of the first 256 bytes of their names, then of their numbers. No name is copied, and
/// a comparison reads at most 256 bytes of a name. It takes 4 bytes a symbol.
#[derive(Drop)]
pub struct SymIndex<'a> {
    view: ElfView<'a>,
    places: Vec<u32>,
}

impl<'a> Model for SymIndex<'a> {
    ghost use Rattle.symbol_index.specs.Index.{Index};
    ghost use Rattle.symbol_index.specs.Order.{IsIndex};

    ghost Value = { Index };

    ghost view = { λ x. record { symbols = x.view.symbols; places = x.places.items } };

    ghost invariant = { λ x. IsIndex x.view.symbols x.places.items };
}

/// The numbers below n.
fn numbers(alloc: Global, n: u32) -> Result<Vec<u32>, AllocError>
    ensures { IfOk result (λ v. v.items ≡ range_with_len 0 n) }
{
    (0..n).collect(alloc)
}

fn compare(view: &ElfView, i: u32, j: u32) -> Ordering
    ensures { result ≡ order view.now.symbols i j }
{
    view.compare_names(i, j).then(i.cmp(&j))
}

/// Takes no memory.
fn sort_places(view: &ElfView, places: &mut [u32])
    ensures each { IsPermutation places.old places.new }
    ensures ordered { IsSortedBy (comes_before view.now.symbols) places.new }
{
    places.sort_unstable_by(|i, j| compare(view, *i, *j));
}

impl<'a> SymIndex<'a> {
    pub fn build(alloc: Global, view: &ElfView<'a>) -> Result<SymIndex<'a>, AllocError>
        ensures symbols { IfOk result (λ x. x.symbols ≡ view.now.symbols) }
        ensures index { IfOk result (λ x. IsIndex x.symbols x.places) }
    {
        let mut places = numbers(alloc, view.symbols())?;
        sort_places(view, &mut places);
        let view = view.copy();
        Ok(SymIndex { view, places })
    }

    /// How many places there are: one for each symbol.
    pub fn places(&self) -> u32
        ensures count { result ≡ length self.now.places }
        ensures symbols { result ≡ length self.now.symbols }
        ensures few { result < 2097152 }
        ensures index { IsIndex self.now.symbols self.now.places }
    {
        let _places = &self.places;
        self.view.symbols()
    }

    /// The number of the symbol at a place.
    pub fn number(&self, place: u32) -> u32
        requires { place < length self.now.places }
        ensures { slice_get self.now.places place ≡ Some result }
    {
        self.places[place as usize]
    }

    /// How the start of the name at a place stands to a name. It is one step.
    fn compare_at<L: Ledger>(&self, place: u32, name: &[u8], steps: &mut Steps<L>) -> Ordering
        requires { place < length self.now.places }
        ensures answer { result ≡ slice_cmp nat_cmp (name_start_at self.now.symbols (slice_index self.now.places place)) name.now }
        ensures cost { steps.new ≡ steps.old + 1 }
    {
        steps.tick();
        self.view.name_start(self.places[place as usize]).cmp(name)
    }

    /// The first place in the index whose symbol has this name. A step is one comparison. A name of a unit has at most 255 bytes.
    pub fn find<L: Ledger>(&self, name: &[u8], steps: &mut Steps<L>) -> Option<u32>
        requires { length name.now < NAME_START_BYTES }
        ensures place { result ≡ first_place self.now name.now }
        ensures none { IfNone result (list_any (λ s. bytes_eq s.name name.now) self.now.symbols ≡ false) }
        ensures cost { 2 ^ (steps.new - steps.old) ≤ 2 * length self.now.places + 1 }
    {
        let mut low = 0;
        let mut high = self.places();
        let mut hit = false;
        while low < high {
            let middle = low + (high - low) / 2;
            match self.compare_at(middle, name, steps) {
                Ordering::Less => low = middle + 1,
                Ordering::Equal => {
                    hit = true;
                    high = middle;
                }
                Ordering::Greater => {
                    hit = false;
                    high = middle;
                }
            }
        }
        if hit { Some(low) } else { None }
    }

    /// `find` with a count of its own.
    fn find_from<L: Ledger>(&self, name: &[u8], blank: Blank) -> Option<u32>
        requires short { length name.now < NAME_START_BYTES }
        requires name { blank.name ≡ L.name }
        requires parts { blank.parts ≡ L.parts }
        requires some { 0 < blank.parts }
        ensures place { result ≡ first_place self.now name.now }
    {
        let mut steps = Steps::<L>::new(blank);
        self.find(name, &mut steps)
    }

    /// `find` where no one counts steps.
    pub fn place_of(&self, name: &[u8]) -> Option<u32>
        requires { length name.now < NAME_START_BYTES }
        ensures place { result ≡ first_place self.now name.now }
    {
        self.find_from::<Brand>(name, Blank::new(1))
    }

    /// The symbol at a place, without its name.
    pub fn fields(&self, place: u32) -> SymbolFields
        requires { place < length self.now.places }
        ensures { option_map fields_of (slice_get (in_order self.now) place) ≡ Some result }
    {
        self.view.symbol_fields(self.places[place as usize])
    }

    /// Whether the symbol at a place has this name.
    pub fn has_name(&self, place: u32, name: &[u8]) -> bool
        requires place { place < length self.now.places }
        requires short { length name.now < NAME_START_BYTES }
        ensures { option_map (has_name name.now) (slice_get (in_order self.now) place) ≡ Some result }
    {
        self.view.name_start(self.places[place as usize]) == name
    }
}
