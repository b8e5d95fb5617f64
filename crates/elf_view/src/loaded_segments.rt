//! The segments of an image, read once and sorted by their addresses.
ghost use Rattle.std.specs.Prelude.{◌≡◌, ◌≤◌, ◌<◌, ◌+◌, All, IfNone, IfOk, IfSome, IsPermutation, length, map, option_map, slice_get};
ghost use Rattle.std.specs.List.Sorted.{IsNonDecreasingBy, IsPartitionPoint};
ghost use Rattle.image_model.specs.Image.{Segment};
ghost use Rattle.image_model.specs.Loaded.{covers, segment_of, byte_at, word_at, flags_at, HasRange};
ghost use Rattle.image_model.specs.Segments.{IsLoadable};
ghost use Rattle.elf_view.specs.ByAddress.{AreByAddress, IsNumbered, begin, numbered_seen};
ghost use Rattle.elf_view.specs.Views.{segment_seen};

use crate::segment::SegView;
use crate::view::ElfView;
use std::alloc::{AllocError, Global};
use std::marker::Model;

/// A loaded segment and its number, in the order of the program headers.
#[derive(Clone, Copy, Debug)]
pub struct NumberedSegment<'a> {
    pub segment: SegView<'a>,
    pub number: u32,
}

/// An image whose loaded segments have been read, and are found by an address in the logarithm of their number.
#[derive(Drop)]
pub struct LoadedSegments<'a> {
    view: ElfView<'a>,
    segments: Vec<NumberedSegment<'a>>,
}

impl<'a> Model for LoadedSegments<'a> {
    ghost use Rattle.image_model.specs.Image.{Image};
    ghost use Rattle.elf_view.specs.ByAddress.{AreSorted};

    ghost Value = { Image };

    ghost view = { λ s. s.view };

    ghost invariant = { λ s. AreSorted s.view s.segments.items };
}

/// All segments, in the order of their headers.
fn all_segments<'a>(
    alloc: Global,
    view: &ElfView<'a>,
) -> Result<Vec<NumberedSegment<'a>>, AllocError>
    ensures all { IfOk result (λ list. map numbered_seen list.items ≡ view.now.segments) }
    ensures numbers { IfOk result (λ list. All (IsNumbered view.now.segments) list.items) }
    ensures loadable { IsLoadable view.now }
{
    let mut list = Vec::new(alloc);
    for number in 0..view.segments() {
        let segment = view.segment(number);
        list.push(NumberedSegment { segment, number })?;
    }
    Ok(list)
}

fn sort(segments: &mut [NumberedSegment])
    ensures all { IsPermutation segments.old segments.new }
    ensures sorted { IsNonDecreasingBy begin segments.new }
{
    segments.sort_unstable_by_key(|s| s.segment.vaddr);
}

/// How many segments, of those sorted by their addresses, begin at an address or before it.
fn started(segments: &[NumberedSegment], a: u64) -> usize
    requires { IsNonDecreasingBy begin segments.now }
    ensures bound { result ≤ length segments.now }
    ensures point { IsPartitionPoint (λ (s : Segment). s.vaddr ≤ a) (λ (s : Segment). a < s.vaddr) (map numbered_seen segments.now) result }
{
    segments.partition_point(|s| u64::from(s.segment.vaddr) <= a)
}

impl<'a> LoadedSegments<'a> {
    pub fn read(alloc: Global, view: &ElfView<'a>) -> Result<LoadedSegments<'a>, AllocError>
        ensures { IfOk result (λ s. s ≡ view.now) }
    {
        let mut segments = all_segments(alloc, view)?;
        sort(&mut segments);
        Ok(LoadedSegments {
            view: view.copy(),
            segments,
        })
    }

    /// The image that was read.
    pub fn view(&self) -> ElfView<'a>
        ensures { result ≡ self.now }
    {
        self.view.copy()
    }

    /// The segments, sorted by their addresses.
    pub fn by_address(&self) -> &[NumberedSegment<'a>]
        ensures sorted { AreByAddress self.now (map numbered_seen result.now) }
        ensures numbers { All (IsNumbered self.now.segments) result.now }
    {
        &self.segments
    }

    fn numbered_holder(&self, a: u64) -> Option<NumberedSegment<'a>>
        ensures found { option_map numbered_seen result ≡ segment_of self.now a }
        ensures inside { IfSome result (λ s. (s.segment.vaddr ≤ a) × (a < s.segment.vaddr + s.segment.memsz)) }
        ensures range { IfSome result (λ s. HasRange (numbered_seen s)) }
        ensures number { IfSome result (IsNumbered self.now.segments) }
        ensures loadable { IsLoadable self.now }
    {
        let n = started(&self.segments, a);
        if n == 0 {
            return None;
        }
        let s = self.segments[n - 1];
        if s.segment.covers(a) { Some(s) } else { None }
    }

    /// The segment that holds an address.
    pub fn holder(&self, a: u64) -> Option<SegView<'a>>
        ensures found { option_map segment_seen result ≡ segment_of self.now a }
        ensures inside { IfSome result (λ s. (s.vaddr ≤ a) × (a < s.vaddr + s.memsz)) }
        ensures range { IfSome result (λ s. HasRange (segment_seen s)) }
        ensures loadable { IsLoadable self.now }
    {
        match self.numbered_holder(a) {
            Some(s) => Some(s.segment),
            None => None,
        }
    }

    /// The number of the segment that holds an address, in the order of the program headers.
    pub fn number_of(&self, a: u64) -> Option<u32>
        ensures held { IfSome result (λ i. slice_get self.now.segments i ≡ segment_of self.now a) }
        ensures within { IfSome result (λ i. i < length self.now.segments) }
        ensures none { IfNone result (segment_of self.now a ≡ None) }
        ensures loadable { IsLoadable self.now }
    {
        match self.numbered_holder(a) {
            Some(s) => Some(s.number),
            None => None,
        }
    }

    /// The loaded byte, zero fill included.
    pub fn byte_at(&self, a: u64) -> Option<u8>
        ensures { result ≡ byte_at self.now a }
    {
        let s = self.holder(a)?;
        Some(s.byte((a - u64::from(s.vaddr)) as u32))
    }

    /// The word where no segment has all four bytes.
    fn word_across(&self, a: u32) -> Option<u32>
        ensures { result ≡ word_at self.now a }
    {
        let a = u64::from(a);
        let bytes = [
            self.byte_at(a)?,
            self.byte_at(a + 1)?,
            self.byte_at(a + 2)?,
            self.byte_at(a + 3)?,
        ];
        Some(u32::from_be_bytes(bytes))
    }

    /// The big-endian word of the four loaded bytes from `a` on.
    pub fn word_at(&self, a: u64) -> Option<u32>
        ensures { result ≡ word_at self.now a }
    {
        let s = self.holder(a)?;
        let a = a as u32;
        if s.has_word(a) {
            Some(s.word(a - s.vaddr))
        } else {
            self.word_across(a)
        }
    }

    /// The flags of the segment that holds `a`.
    pub fn flags_at(&self, a: u64) -> Option<u32>
        ensures { result ≡ flags_at self.now a }
    {
        let s = self.holder(a)?;
        Some(s.flags)
    }
}
