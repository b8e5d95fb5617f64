//! Addresses from one on up to an end, over which an answer stays the same.

ghost use Rattle.std.specs.Prelude.{◌≡◌, ◌<◌, ◌≤◌, ◌^◌, List, length, map, None};
ghost use Rattle.image_model.specs.Loaded.{segment_of};
ghost use Rattle.word_ops.specs.Ranges.{holds};
ghost use Rattle.word_ops.specs.Seen.{extent_of};
ghost use Rattle.layout_model.specs.Layouts.{Layout};
ghost use Rattle.code_model.specs.Areas.{is_code_kind};
ghost use Rattle.coverage.specs.declared.claims.Kept.{Kept};
ghost use Rattle.coverage.specs.Orders.{kept_seen};
ghost use Rattle.coverage.specs.Stretches.{is_past, Rise, ArePast, StandsAt, HoldsForeign, HoldsArea, HoldsClaim, HoldsHere, ReachesPast};
ghost use Rattle.coverage.specs.Stretches.{NoneLoaded};

use crate::claims::Kept;
use elf_view::{LoadedSegments, NumberedSegment};
use layout_file::layout::Layout;
use layout_model::kind::AreaKind;
use word_ops::range::Range;

/// The end of all addresses.
const ALL: u64 = 0x1_0000_0000;

/// The claim that holds each address up to the end, or that none does.
#[derive(Clone, Copy, Debug)]
pub struct ClaimStretch {
    pub holder: Option<usize>,
    pub end: u64,
}

/// Whether the addresses up to the end are in foreign ranges.
#[derive(Clone, Copy, Debug)]
pub struct ForeignStretch {
    pub is_foreign: bool,
    pub end: u64,
}

/// Whether the addresses up to the end are in areas. `is_in_code`: one area of code has them all.
#[derive(Clone, Copy, Debug)]
pub struct AreaStretch {
    pub is_in_area: bool,
    pub is_in_code: bool,
    pub end: u64,
}

/// What holds from an address on, and how many claims end before it.
#[derive(Clone, Copy, Debug)]
pub struct Here {
    pub passed: usize,
    pub claim: ClaimStretch,
    pub foreign: ForeignStretch,
    pub area: AreaStretch,
}

/// Whether a range has an address.
fn is_in(range: &Range, a: u64) -> bool
    ensures { result ≡ holds a (extent_of range.now) }
{
    range.lo <= a && a < range.hi
}

/// The lower of an end and the begin of a range, where the range begins behind an address.
fn end_before(end: u64, lo: u64, a: u64) -> u64
    ensures some { a < end → a < result }
    ensures most { result ≤ end }
    ensures before { a < lo → result ≤ lo }
{
    if a < lo { end.min(lo) } else { end }
}

pub fn is_code(kind: AreaKind) -> bool
    ensures { result ≡ is_code_kind kind }
{
    match kind {
        AreaKind::Code => true,
        _ => false,
    }
}

fn foreign_from(layout: &Layout, a: u64) -> ForeignStretch
    requires { a < 2 ^ 32 }
    ensures holds { HoldsForeign layout.now a result }
    ensures some { a < result.end }
{
    let mut end = ALL;
    for i in 0..layout.foreign() {
        let range = layout.foreign_range(i);
        if is_in(&range, a) {
            return ForeignStretch {
                is_foreign: true,
                end: range.hi,
            };
        }
        end = end_before(end, range.lo, a);
    }
    ForeignStretch {
        is_foreign: false,
        end,
    }
}

fn area_from(layout: &Layout, a: u64) -> AreaStretch
    requires { a < 2 ^ 32 }
    ensures holds { HoldsArea layout.now a result }
    ensures some { a < result.end }
{
    let mut end = ALL;
    for i in 0..layout.areas() {
        let area = layout.area(i);
        if is_in(&area.range, a) {
            return AreaStretch {
                is_in_area: true,
                is_in_code: is_code(area.kind),
                end: area.range.hi,
            };
        }
        end = end_before(end, area.range.lo, a);
    }
    AreaStretch {
        is_in_area: false,
        is_in_code: false,
        end,
    }
}

/// Whether no address from one on is in a range.
fn is_past(range: &Range, a: u64) -> bool
    ensures { result ≡ is_past a (extent_of range.now) }
{
    range.hi <= a || range.hi <= range.lo
}

/// The place of the first claim, from one on, that has an address from `a` on.
fn passed_at(kept: &[Kept], passed: usize, a: u64) -> usize
    requires within { passed ≤ length kept.now }
    requires passed { ArePast kept.now passed a }
    ensures within { result ≤ length kept.now }
    ensures passed { ArePast kept.now result a }
    ensures stands { StandsAt kept.now result a }
{
    let mut j = passed;
    while j < kept.len() && is_past(&kept[j].claim.range, a) {
        j += 1;
    }
    j
}

/// The claim that holds the addresses from `a` on, where the claim at `passed` is the first that has one of these.
fn claim_after(kept: &[Kept], passed: usize, a: u64) -> ClaimStretch
    requires rise { Rise kept.now }
    requires within { passed ≤ length kept.now }
    requires passed { ArePast kept.now passed a }
    requires stands { StandsAt kept.now passed a }
    requires small { a < 2 ^ 32 }
    ensures holds { HoldsClaim (map kept_seen kept.now) a result }
    ensures some { a < result.end }
{
    if passed >= kept.len() {
        return ClaimStretch {
            holder: None,
            end: ALL,
        };
    }
    let range = kept[passed].claim.range;
    if a < range.lo {
        return ClaimStretch {
            holder: None,
            end: range.lo,
        };
    }
    ClaimStretch {
        holder: Some(passed),
        end: range.hi,
    }
}

/// What is known at the first address: nothing yet.
pub fn nothing_yet() -> Here
    ensures { (l : Layout) (ks : List Kept) → HoldsHere l ks 0 result }
{
    Here {
        passed: 0,
        claim: ClaimStretch {
            holder: None,
            end: 0,
        },
        foreign: ForeignStretch {
            is_foreign: false,
            end: 0,
        },
        area: AreaStretch {
            is_in_area: false,
            is_in_code: false,
            end: 0,
        },
    }
}

/// What holds from an address on, where `last` is what was known at one before it.
pub fn here_at(kept: &[Kept], layout: &Layout, last: &Here, a: u64) -> Here
    requires rise { Rise kept.now }
    requires last { HoldsHere layout.now kept.now a last.now }
    requires small { a < 2 ^ 32 }
    ensures holds { HoldsHere layout.now kept.now a result }
    ensures reaches { ReachesPast a result }
{
    let mut here = *last;
    if here.claim.end <= a {
        here.passed = passed_at(kept, here.passed, a);
        here.claim = claim_after(kept, here.passed, a);
    }
    if here.foreign.end <= a {
        here.foreign = foreign_from(layout, a);
    }
    if here.area.end <= a {
        here.area = area_from(layout, a);
    }
    here
}

/// The first loaded address behind one that is not loaded, or the end of all addresses.
pub fn loaded_after(image: &LoadedSegments, a: u64) -> u64
    requires none { segment_of image.now a ≡ None }
    requires small { a < 2 ^ 32 }
    ensures none { NoneLoaded image.now a result }
    ensures more { a < result }
    ensures most { result ≤ 2 ^ 32 }
{
    let mut end = ALL;
    for s in image.by_address() {
        end = end_before(end, u64::from(s.segment.vaddr), a);
    }
    end
}
