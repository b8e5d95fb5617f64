//! The kind of the addresses from one on.

ghost use Rattle.std.specs.Prelude.{◌≡◌, ◌<◌, ◌≤◌, ◌+◌, ◌-◌, ◌^◌, ◌%◌, ◌==◌, ◌&&◌, List, false, true, nat_le, Some, None};
ghost use Rattle.elf_view.specs.Views.{segment_seen};
ghost use Rattle.image_model.specs.Loaded.{segment_of, segment_byte, HasRange};
ghost use Rattle.image_model.specs.Segments.{IsLoadable};
ghost use Rattle.word_ops.specs.Ranges.{extent, is_inside};
ghost use Rattle.word_ops.specs.Seen.{extent_of};
ghost use Rattle.code_model.specs.Areas.{is_code_kind, is_in_one_area};
ghost use Rattle.link_model.specs.Kinds.{is_in_area};
ghost use Rattle.coverage.specs.Stretches.{HoldsForeign, HoldsArea, HoldsClaim, ReachesPast};
ghost use Rattle.link_model.specs.Claims.{Claim};
ghost use Rattle.coverage.specs.Kinds.{AreZero, EndsWithin, IsStretch, is_nop_at};

use crate::stretches::{AreaStretch, Here, is_code};
use elf_view::{LoadedSegments, SegView};
use layout_file::area::Area;
use layout_file::layout::Layout;

/// The word of `nop`, which is `ori 0,0,0`. Power ISA, "Fixed-Point Logical Instructions".
const NOP_WORD: u32 = 0x6000_0000;

/// What a loaded address is: in the claim at a place, in a foreign range, padding, or none of these.
#[derive(Clone, Copy, Debug, PartialEq, Eq)]
pub enum Kind {
    Claimed(usize),
    Foreign,
    Padding,
    Stray,
}

/// The kind of the addresses up to an end.
#[derive(Clone, Copy, Debug)]
pub struct Stretch {
    pub kind: Kind,
    pub end: u64,
}

/// The end of the zero bytes from an address of a segment on, at most `end`.
fn zeros_end(segment: &SegView, a: u64, end: u64) -> u64
    requires low { segment.now.vaddr ≤ a }
    requires some { a < end }
    requires within { end ≤ segment.now.vaddr + segment.now.memsz }
    ensures low { a ≤ result }
    ensures high { result ≤ end }
    ensures zeros { AreZero (segment_seen segment.now) a result }
    ensures next { result ≡ a → segment_byte (segment_seen segment.now) (a - segment.now.vaddr) ≡ 0 → ⊥ }
{
    let start = u64::from(segment.vaddr);
    let held_end = (start + segment.bytes.len() as u64).min(end);
    for b in a..held_end {
        if segment.bytes[(b - start) as usize] != 0 {
            return b;
        }
    }
    end
}

/// Whether an area is one of code and has the four bytes from an address on.
fn has_word(area: &Area, a: u64) -> bool
    requires { a < 2 ^ 32 }
    ensures { result ≡ (is_code_kind area.now.kind && is_inside (extent a (a + 4)) (extent_of area.now.range)) }
{
    is_code(area.kind) && area.range.lo <= a && a + 4 <= area.range.hi
}

/// Whether one area of code has the four bytes from an address on.
fn is_in_code(layout: &Layout, area: &AreaStretch, a: u64) -> bool
    requires holds { HoldsArea layout.now a area.now }
    requires small { a < 2 ^ 32 }
    ensures { result ≡ is_in_one_area layout.now is_code_kind (extent a (a + 4)) }
{
    if area.is_in_code && a + 4 <= area.end {
        return true;
    }
    for i in 0..layout.areas() {
        if has_word(&layout.area(i), a) {
            return true;
        }
    }
    false
}

fn is_nop(image: &LoadedSegments, a: u64) -> bool
    ensures { result ≡ is_nop_at image.now a }
{
    match image.word_at(a) {
        Some(word) => word == NOP_WORD,
        None => false,
    }
}

/// Whether an aligned nop in one area of code begins at an address, and no byte of it is claimed.
fn is_free_nop(image: &LoadedSegments, layout: &Layout, here: &Here, a: u64) -> bool
    requires area { HoldsArea layout.now a here.now.area }
    requires small { a < 2 ^ 32 }
    ensures { result ≡ ((a % 4 == 0)
        && (is_nop_at image.now a && is_in_one_area layout.now is_code_kind (extent a (a + 4)) && nat_le (a + 4) here.now.claim.end)) }
{
    a % 4 == 0 && is_nop(image, a) && is_in_code(layout, &here.area, a) && a + 4 <= here.claim.end
}

/// The end of the zero bytes in areas from an address on, which is the address where there are none.
fn zero_padding_end(layout: &Layout, here: &Here, segment: &SegView, a: u64, end: u64) -> u64
    requires area { HoldsArea layout.now a here.now.area }
    requires low { segment.now.vaddr ≤ a }
    requires some { a < end }
    requires within { end ≤ segment.now.vaddr + segment.now.memsz }
    requires area_end { end ≤ here.now.area.end }
    ensures low { a ≤ result }
    ensures high { result ≤ end }
    ensures zeros { AreZero (segment_seen segment.now) a result }
    ensures area { a < result → here.now.area.is_in_area ≡ true }
    ensures next { result ≡ a
        → ((segment_byte (segment_seen segment.now) (a - segment.now.vaddr) == 0) && is_in_area layout.now a) ≡ false }
{
    if here.area.is_in_area {
        return zeros_end(segment, a, end);
    }
    a
}

/// The kind of the addresses from one on, below `end`, that no claim and no foreign range holds.
fn unclaimed_stretch(
    image: &LoadedSegments,
    layout: &Layout,
    here: &Here,
    segment: &SegView,
    a: u64,
    end: u64,
) -> Stretch
    requires loadable { IsLoadable image.now }
    requires segment { segment_of image.now a ≡ Some (segment_seen segment.now) }
    requires low { segment.now.vaddr ≤ a }
    requires foreign { HoldsForeign layout.now a here.now.foreign }
    requires area { HoldsArea layout.now a here.now.area }
    requires unclaimed { here.now.claim.holder ≡ None }
    requires native { here.now.foreign.is_foreign ≡ false }
    requires ends { EndsWithin a end (segment_seen segment.now) here.now }
    ensures kinds { (cs : List Claim) → HoldsClaim cs a here.now.claim → IsStretch image.now layout.now cs a result }
    ensures some { a < result.end }
    ensures within { result.end ≤ 2 ^ 32 }
{
    let zeros = zero_padding_end(layout, here, segment, a, end);
    if a < zeros {
        return Stretch {
            kind: Kind::Padding,
            end: zeros,
        };
    }
    if is_free_nop(image, layout, here, a) {
        return Stretch {
            kind: Kind::Padding,
            end: a + 1,
        };
    }
    Stretch {
        kind: Kind::Stray,
        end: a + 1,
    }
}

/// The end of what is known from an address on.
fn known_end(here: &Here, segment: &SegView, a: u64) -> u64
    requires inside { a < segment.now.vaddr + segment.now.memsz }
    requires range { HasRange (segment_seen segment.now) }
    requires reaches { ReachesPast a here.now }
    ensures { EndsWithin a result (segment_seen segment.now) here.now }
{
    (u64::from(segment.vaddr) + u64::from(segment.memsz))
        .min(here.claim.end)
        .min(here.foreign.end)
        .min(here.area.end)
}

/// The kind of the addresses from one on, of which a segment has the first.
pub fn stretch_from(
    image: &LoadedSegments,
    layout: &Layout,
    here: &Here,
    segment: &SegView,
    a: u64,
) -> Stretch
    requires loadable { IsLoadable image.now }
    requires segment { segment_of image.now a ≡ Some (segment_seen segment.now) }
    requires inside { (segment.now.vaddr ≤ a) × (a < segment.now.vaddr + segment.now.memsz) }
    requires range { HasRange (segment_seen segment.now) }
    requires foreign { HoldsForeign layout.now a here.now.foreign }
    requires area { HoldsArea layout.now a here.now.area }
    requires reaches { ReachesPast a here.now }
    ensures kinds { (cs : List Claim) → HoldsClaim cs a here.now.claim → IsStretch image.now layout.now cs a result }
    ensures some { a < result.end }
    ensures within { result.end ≤ 2 ^ 32 }
{
    let end = known_end(here, segment, a);
    if let Some(j) = here.claim.holder {
        return Stretch {
            kind: Kind::Claimed(j),
            end,
        };
    }
    if here.foreign.is_foreign {
        return Stretch {
            kind: Kind::Foreign,
            end,
        };
    }
    unclaimed_stretch(image, layout, here, segment, a, end)
}
