// The view of an image: all that it loads, and its symbols.
ghost use Rattle.std.specs.Prelude.{◌≡◌, ◌≤◌, ◌<◌, ◌+◌, ◌^◌, ℕ, length, slice_get, Some, None, OnOk, IfOk, IfErr, IfSome, option_map};
ghost use Rattle.std.specs.Cmp.Lexicographic.{slice_cmp};
ghost use Rattle.std.specs.Ordering.{nat_cmp};
ghost use Rattle.ordered_tests.specs.Checks.{first_fault, fault_of};
ghost use Rattle.image_model.specs.Image.{image_of};
ghost use Rattle.image_model.specs.Loaded.{segment_of, byte_at, word_at, flags_at, held_bytes, HasRange};
ghost use Rattle.image_model.specs.Names.{fields_of, name_start_at};
ghost use Rattle.image_model.specs.Errors.{offset_of};
ghost use Rattle.image_model.specs.SectionHeader.{symtab};
ghost use Rattle.image_model.specs.Segments.{IsLoadable};
ghost use Rattle.image_model.specs.Tests.{elf_tests, IsElf, IsImage};
ghost use Rattle.elf_view.specs.Facts.{IsReadable};
ghost use Rattle.elf_view.specs.Lent.{IsPartOfSegment, IsPartOfTexts, IsPartOfRange};
ghost use Rattle.elf_view.specs.Views.{segment_seen, symbol_seen};

use crate::bytes;
use crate::file_header::check_header;
use crate::program_header::check_segments;
use crate::section_header::{section_header, sh_link, sh_offset, sh_size};
use crate::segment::{self, SegView};
use crate::symbol::{SymView, compare_starts, fields_at, name_start, symbol_at};
use crate::symbol_table::check_symbols;
use image_model::error::ElfError;
use image_model::symbol::SymbolFields;
use std::cmp::Ordering;
use std::marker::Model;
use word_ops::range::Range;

/// An executable, seen as what it holds. The bytes of the file are borrowed.
#[derive(Drop)]
pub struct ElfView<'a> {
    bytes: &'a [u8],
    symbols_at: usize,
    symbol_count: u32,
    texts: &'a [u8],
}

impl<'a> Model for ElfView<'a> {
    ghost use Rattle.image_model.specs.Image.{Image, image_of};
    ghost use Rattle.elf_view.specs.Facts.{IsView};

    ghost Value = { Image };

    ghost view = { λ v. image_of v.bytes.now };

    ghost invariant = { λ v. IsView v.bytes.now v.symbols_at v.symbol_count v.texts.now };
}

/// The tests of an image, and the place of its symbol table's header.
#[tactic(auto, using(crate::proofs::Facts::symbols_decide))]
fn check(image: &[u8]) -> Result<usize, ElfError>
    ensures tests { fault_of result ≡ first_fault (elf_tests image.now) }
    ensures placed { IfErr result (λ e. offset_of e ≤ length image.now) }
    ensures found { IfOk result (λ at. at ≡ symtab image.now) }
    ensures lies { IfOk result (λ at. at + 40 ≤ length image.now) }
    ensures readable { OnOk result (IsReadable image.now) }
{
    check_header(image)?;
    check_segments(image)?;
    check_symbols(image)
}

/// The view of bytes that pass. `table` is the place of the symbol table's header.
fn view_of<'a>(image: &'a [u8], table: usize) -> ElfView<'a>
    requires readable { IsReadable image.now }
    requires table { table ≡ symtab image.now }
    requires lies { table + 40 ≤ length image.now }
    ensures { IsElf image.now result }
{
    let texts = section_header(image, sh_link(image, table) as usize);
    ElfView {
        bytes: image,
        symbols_at: sh_offset(image, table) as usize,
        symbol_count: sh_size(image, table) / 16,
        texts: bytes::part(
            image,
            sh_offset(image, texts) as usize,
            sh_size(image, texts) as usize,
        ),
    }
}

impl<'a> ElfView<'a> {
    /// Takes no memory. The first test that fails gives the error, with its offset.
    pub fn read(image: &'a [u8]) -> Result<ElfView<'a>, ElfError>
        ensures tests { fault_of result ≡ first_fault (elf_tests image.now) }
        ensures image { IfOk result (λ v. IsElf image.now v) }
        ensures placed { IfErr result (λ e. offset_of e ≤ length image.now) }
    {
        let table = check(image)?;
        Ok(view_of(image, table))
    }

    /// The same view. A struct with a lifetime and a model cannot be `Copy`.
    pub fn copy(&self) -> ElfView<'a>
        ensures { result ≡ self.now }
    {
        ElfView {
            bytes: self.bytes,
            symbols_at: self.symbols_at,
            symbol_count: self.symbol_count,
            texts: self.texts,
        }
    }

    /// The entry address, e_entry.
    #[tactic(auto, unfolding(image_model::specs::Image::image_of))]
    pub fn entry(&self) -> u32
        ensures { result ≡ self.now.entry }
    {
        bytes::word_at(self.bytes, 24)
    }

    /// How many segments are loaded: those of type PT_LOAD with a byte in memory.
    #[tactic(auto, unfolding(image_model::specs::Image::image_of))]
    pub fn segments(&self) -> u32
        ensures count { result ≡ length self.now.segments }
        ensures executable { IsImage self.now }
        ensures loadable { IsLoadable self.now }
    {
        segment::segment_count(self.bytes)
    }

    /// Loaded segment `i`, in the order of the program headers. Its bytes are lent from the file.
    #[tactic(auto, unfolding(image_model::specs::Image::image_of))]
    pub fn segment(&self, i: u32) -> SegView<'a>
        requires { i < length self.now.segments }
        ensures shown { slice_get self.now.segments i ≡ Some (segment_seen result) }
        ensures lent { IsPartOfSegment self.now i result.bytes.now }
        ensures range { HasRange (segment_seen result) }
    {
        segment::segment(self.bytes, i)
    }

    /// How many symbols there are, the null symbol included.
    #[tactic(auto, using(crate::proofs::Symbols::symbol_total), unfolding(image_model::specs::Image::image_of))]
    pub fn symbols(&self) -> u32
        ensures count { result ≡ length self.now.symbols }
        ensures few { result < 2097152 }
    {
        self.symbol_count
    }

    /// Symbol `i` of the symbol table. Its name is lent from the file, and may be as long as the file: what reads many
    /// symbols takes `symbol_fields` and `name_start`.
    #[tactic(auto, using(crate::proofs::Symbols::symbol_total, crate::proofs::Symbols::symbol_get), unfolding(image_model::specs::Image::image_of))]
    pub fn symbol(&self, i: u32) -> SymView<'a>
        requires { i < length self.now.symbols }
        ensures shown { slice_get self.now.symbols i ≡ Some (symbol_seen result) }
        ensures lent { IsPartOfTexts self.now i result.name.now }
    {
        symbol_at(self.bytes, self.texts, self.symbols_at + 16 * i as usize)
    }

    /// Symbol `i` without its name.
    #[tactic(auto, using(crate::proofs::Symbols::symbol_total, crate::proofs::Symbols::symbol_get), unfolding(image_model::specs::Image::image_of))]
    pub fn symbol_fields(&self, i: u32) -> SymbolFields
        requires { i < length self.now.symbols }
        ensures { option_map fields_of (slice_get self.now.symbols i) ≡ Some result }
    {
        fields_at(self.bytes, self.symbols_at + 16 * i as usize)
    }

    /// The first 256 bytes of the name of symbol `i`, lent from the file. No end of the name is sought past them. Past the
    /// last symbol there are none.
    #[tactic(auto, unfolding(image_model::specs::Image::image_of))]
    pub fn name_start(&self, i: u32) -> &'a [u8]
        ensures shown { result.now ≡ name_start_at self.now.symbols i }
        ensures lent { i < length self.now.symbols → IsPartOfTexts self.now i result.now }
    {
        if i < self.symbol_count {
            name_start(self.bytes, self.texts, self.symbols_at + 16 * i as usize)
        } else {
            &[]
        }
    }

    /// How the starts of the names of two symbols compare. Two names that stand at one place of the string table are equal
    /// at once.
    #[tactic(auto, unfolding(image_model::specs::Image::image_of))]
    pub fn compare_names(&self, i: u32, j: u32) -> Ordering
        ensures { result ≡ slice_cmp nat_cmp (name_start_at self.now.symbols i) (name_start_at self.now.symbols j) }
    {
        if i < self.symbol_count && j < self.symbol_count {
            let one = self.symbols_at + 16 * i as usize;
            let other = self.symbols_at + 16 * j as usize;
            return compare_starts(self.bytes, self.texts, one, other);
        }
        self.name_start(i).cmp(self.name_start(j))
    }

    #[tactic(auto, unfolding(image_model::specs::Image::image_of))]
    fn segment_of(&self, a: u64) -> Option<SegView<'a>>
        ensures found { option_map segment_seen result ≡ segment_of self.now a }
        ensures inside { IfSome result (λ s. (s.vaddr ≤ a) × (a < s.vaddr + s.memsz)) }
        ensures range { IfSome result (λ s. HasRange (segment_seen s)) }
        ensures loadable { IsLoadable self.now }
    {
        segment::segment_of(self.bytes, a)
    }

    fn byte_from(&self, a: u64) -> Option<u8>
        ensures loaded { result ≡ byte_at self.now a }
        ensures below { IfSome result (λ _. a < 2 ^ 32) }
    {
        let s = self.segment_of(a)?;
        Some(s.byte((a - u64::from(s.vaddr)) as u32))
    }

    /// The loaded byte, zero fill included.
    pub fn byte_at(&self, a: u32) -> Option<u8>
        ensures { result ≡ byte_at self.now a }
    {
        self.byte_from(u64::from(a))
    }

    /// The word where no segment has all four bytes.
    fn word_across(&self, a: u32) -> Option<u32>
        ensures loaded { result ≡ word_at self.now a }
        ensures below { IfSome result (λ _. a + 4 ≤ 2 ^ 32) }
    {
        let a = u64::from(a);
        let bytes = [
            self.byte_from(a)?,
            self.byte_from(a + 1)?,
            self.byte_from(a + 2)?,
            self.byte_from(a + 3)?,
        ];
        Some(u32::from_be_bytes(bytes))
    }

    /// The big-endian word of the four loaded bytes from `a` on.
    pub fn word_at(&self, a: u32) -> Option<u32>
        ensures loaded { result ≡ word_at self.now a }
        ensures below { IfSome result (λ _. a + 4 ≤ 2 ^ 32) }
    {
        let s = self.segment_of(u64::from(a))?;
        if s.has_word(a) {
            Some(s.word(a - s.vaddr))
        } else {
            self.word_across(a)
        }
    }

    /// The flags of the segment that holds `a`.
    pub fn flags_at(&self, a: u32) -> Option<u32>
        ensures { result ≡ flags_at self.now a }
    {
        let s = self.segment_of(u64::from(a))?;
        Some(s.flags)
    }

    #[tactic(auto, unfolding(image_model::specs::Image::image_of))]
    fn held(&self, r: &Range) -> Option<&'a [u8]>
        ensures { option_map (λ b. b.now) result ≡ held_bytes self.now r.now.lo r.now.hi }
    {
        let s = segment::holder_of(self.bytes, r.lo, r.hi)?;
        let start = (r.lo - u64::from(s.vaddr)) as usize;
        Some(&s.bytes[start..start + (r.hi - r.lo) as usize])
    }

    /// The bytes of the file at the addresses of a range, where one segment has them all in the file. For a range with no
    /// address they are none, and its end has to be in such a part or at the end of one.
    pub fn bytes(&self, r: &Range) -> Option<&'a [u8]>
        ensures shown { option_map (λ b. b.now) result ≡ held_bytes self.now r.now.lo r.now.hi }
        ensures lent { IfSome result (λ b. IsPartOfRange self.now r.now.lo r.now.hi b.now) }
    {
        self.held(r)
    }
}
