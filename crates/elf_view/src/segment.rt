// The segments that are loaded, in the order of their headers. System V gABI, "Program Header", "Program Loading".
ghost use Rattle.std.specs.Prelude.{◌≡◌, ◌≤◌, ◌<◌, ◌+◌, ◌*◌, ◌-◌, ℕ, length, slice_get, ◌∷◌, Some, IsTrue, ◌↔◌, IfNone, IfSome};
ghost use Rattle.std.specs.Prelude.{option_map, find};
ghost use Rattle.image_model.specs.FileHeader.{e_phnum};
ghost use Rattle.image_model.specs.Image.{segments_of};
ghost use Rattle.image_model.specs.Loaded.{covers, segment_byte, segment_word, holds_range, HasRange};
ghost use Rattle.elf_view.specs.Facts.{IsReadable};
ghost use Rattle.elf_view.specs.Left.{segments_from};
ghost use Rattle.elf_view.specs.Views.{segment_seen};

use crate::bytes::{part, word_at};
use crate::file_header::e_phnum;
use crate::program_header::{
    is_load, p_filesz, p_flags, p_memsz, p_offset, p_vaddr, program_header,
};

/// A segment that is loaded. `bytes` are those that the file holds of it, lent from the file; the others are zero.
#[derive(Clone, Copy, Debug)]
pub struct SegView<'a> {
    pub vaddr: u32,
    pub memsz: u32,
    pub flags: u32,
    pub bytes: &'a [u8],
}

impl<'a> SegView<'a> {
    /// Whether an address is in the segment.
    pub fn covers(&self, a: u64) -> bool
        ensures { result ≡ covers a (segment_seen self.now) }
    {
        let start = u64::from(self.vaddr);
        start <= a && a < start + u64::from(self.memsz)
    }

    /// Whether the addresses from `lo` on that are below `hi` lie in the part that the file holds.
    fn holds(&self, lo: u64, hi: u64) -> bool
        requires { length self.now.bytes.now < 4294967296 }
        ensures { result ≡ holds_range lo hi (segment_seen self.now) }
    {
        let start = u64::from(self.vaddr);
        start <= lo && hi <= start + self.bytes.len() as u64
    }

    /// Whether the four bytes from an address on, of which the segment has the first, are all in it.
    pub fn has_word(&self, a: u32) -> bool
        ensures { IsTrue result ↔ (a + 4 ≤ self.now.vaddr + self.now.memsz) }
    {
        u64::from(a) + 4 <= u64::from(self.vaddr) + u64::from(self.memsz)
    }

    fn byte_from(&self, i: u64) -> u8
        ensures { result ≡ segment_byte (segment_seen self.now) i }
    {
        if i < self.bytes.len() as u64 {
            self.bytes[i as usize]
        } else {
            0
        }
    }

    /// The byte at a place in the segment, zero fill included.
    pub fn byte(&self, i: u32) -> u8
        ensures { result ≡ segment_byte (segment_seen self.now) i }
    {
        self.byte_from(u64::from(i))
    }

    /// The big-endian word of the four bytes from a place in the segment on, zero fill included.
    #[tactic(auto, unfolding(image_model::specs::Bytes::word, image_model::specs::Bytes::half))]
    pub fn word(&self, i: u32) -> u32
        ensures { result ≡ segment_word (segment_seen self.now) i }
    {
        if i as usize + 4 <= self.bytes.len() {
            return word_at(self.bytes, i as usize);
        }
        let i = u64::from(i);
        u32::from_be_bytes([
            self.byte_from(i),
            self.byte_from(i + 1),
            self.byte_from(i + 2),
            self.byte_from(i + 3),
        ])
    }
}

/// The segment of program header `i`, where it is loaded.
#[tactic(auto, using(crate::proofs::Segments::segments_pass, crate::proofs::Segments::segments_find, crate::proofs::Segments::held_lies, crate::proofs::Segments::range_holds))]
fn loaded(b: &[u8], i: usize) -> Option<SegView>
    requires readable { IsReadable b.now }
    requires within { i < e_phnum b.now }
    ensures none { IfNone result (segments_from b.now i ≡ segments_from b.now (i + 1)) }
    ensures some { IfSome result (λ s. segments_from b.now i ≡ segment_seen s ∷ segments_from b.now (i + 1)) }
    ensures range { IfSome result (λ s. HasRange (segment_seen s)) }
{
    let at = program_header(b, i);
    if !is_load(b, at) || p_memsz(b, at) == 0 {
        return None;
    }
    Some(SegView {
        vaddr: p_vaddr(b, at),
        memsz: p_memsz(b, at),
        flags: p_flags(b, at),
        bytes: part(b, p_offset(b, at) as usize, p_filesz(b, at) as usize),
    })
}

/// How many segments there are.
#[tactic(auto, using(crate::proofs::Segments::segments_start, crate::proofs::Segments::segments_end))]
pub fn segment_count(b: &[u8]) -> u32
    requires { IsReadable b.now }
    ensures { result ≡ length (segments_of b.now) }
{
    let mut n = 0;
    for i in 0..e_phnum(b) {
        if loaded(b, i).is_some() {
            n += 1;
        }
    }
    n
}

/// Segment `k`.
#[tactic(auto, using(crate::proofs::Segments::segments_start, crate::proofs::Segments::segments_end))]
pub fn segment(b: &[u8], k: u32) -> SegView
    requires readable { IsReadable b.now }
    requires within { k < length (segments_of b.now) }
    ensures shown { slice_get (segments_of b.now) k ≡ Some (segment_seen result) }
    ensures range { HasRange (segment_seen result) }
{
    let mut left = k;
    for i in 0..e_phnum(b) {
        if let Some(s) = loaded(b, i) {
            if left == 0 {
                return s;
            }
            left -= 1;
        }
    }
    unreachable!()
}

/// The segment that holds an address.
#[tactic(auto, using(crate::proofs::Segments::segments_start, crate::proofs::Segments::segments_end))]
pub fn segment_of(b: &[u8], a: u64) -> Option<SegView>
    requires { IsReadable b.now }
    ensures first { option_map segment_seen result ≡ find (covers a) (segments_of b.now) }
    ensures inside { IfSome result (λ s. (s.vaddr ≤ a) × (a < s.vaddr + s.memsz)) }
    ensures range { IfSome result (λ s. HasRange (segment_seen s)) }
{
    for i in 0..e_phnum(b) {
        if let Some(s) = loaded(b, i) {
            if s.covers(a) {
                return Some(s);
            }
        }
    }
    None
}

/// The segment of which the file holds the addresses from `lo` on that are below `hi`.
#[tactic(auto, using(crate::proofs::Segments::segments_start, crate::proofs::Segments::segments_end))]
pub fn holder_of(b: &[u8], lo: u64, hi: u64) -> Option<SegView>
    requires { IsReadable b.now }
    ensures first { option_map segment_seen result ≡ find (holds_range lo hi) (segments_of b.now) }
    ensures inside { IfSome result (λ s. (s.vaddr ≤ lo) × (hi ≤ s.vaddr + length s.bytes.now)) }
{
    for i in 0..e_phnum(b) {
        if let Some(s) = loaded(b, i) {
            if s.holds(lo, hi) {
                return Some(s);
            }
        }
    }
    None
}
