//! Claims in the order of their addresses.

ghost use Rattle.std.specs.Prelude.{◌≡◌, ◌<◌, ◌≤◌, ◌↔◌, ◌++◌, [], ◌∷◌, List, All, IfNone, IfSome, IsNone, None, false, true, IsPermutation};
ghost use Rattle.std.specs.Prelude.{OnErr, OnOk, Some, length, map, if◌then◌else◌, nat_lt, option_map, slice_get};
ghost use Rattle.std.specs.List.Sorted.{IsNonDecreasingBy};
ghost use Rattle.word_ops.specs.Ranges.{extent, meets};
ghost use Rattle.word_ops.specs.Seen.{extent_of};
ghost use Rattle.link_model.specs.Claims as claims;
ghost use Rattle.link_model.specs.Claims.{Apart, claim};
ghost use Rattle.link_model.specs.Overlaps.{in_order, no_claim, overlap_checks, overlap_fault, overlap_pass};
ghost use Rattle.ordered_tests.specs.Checks.{first_fault};
ghost use Rattle.coverage.specs.Orders.{claim_before, claim_seen, kept_seen, rank, meet_from, meeting_fault, failing_place, ArePlaced};

use link_model::owner::Owner;
use std::alloc::{AllocError, Global};
use std::marker::Model;
use word_ops::range::Range;

/// A range of addresses and what it belongs to.
#[derive(Debug, Drop)]
pub struct Claim {
    pub range: Range,
    pub owner: Owner,
}

/// A claim and its place before the claims are sorted.
#[derive(Debug, Drop)]
pub struct Kept {
    pub(crate) claim: Claim,
    pub(crate) place: u32,
}

/// A claim that meets the last one before it that has addresses, and that one.
#[derive(Clone, Copy, Debug)]
pub struct Meeting<'a> {
    pub before: &'a Claim,
    pub claim: &'a Claim,
}

/// Claims in the order in which they were added, or in that of their addresses.
#[derive(Debug, Drop)]
pub struct Claims {
    kept: Vec<Kept>,
}

impl Model for Claims {
    ghost use Rattle.std.specs.Prelude.{List, ◌<◌, ◌^◌, length, map};
    ghost use Rattle.link_model.specs.Claims as claims;
    ghost use Rattle.coverage.specs.Orders.{kept_seen};

    ghost Value = { List claims.Claim };

    ghost view = { λ c. map kept_seen c.kept.items };

    ghost invariant = { λ c. length c.kept.items < 2 ^ 32 };
}

/// Notes the place of each claim.
fn number(kept: &mut [Kept])
    requires { length kept.old < 4294967296 }
    ensures same { map kept_seen kept.new ≡ map kept_seen kept.old }
    ensures placed { ArePlaced kept.new (length kept.new) }
{
    for i in 0..kept.len() {
        kept[i].place = i as u32;
    }
}

fn rank(kept: &Kept) -> u128
    ensures { result ≡ rank kept.now }
{
    let range = kept.claim.range;
    let place = kept.place;
    (u128::from(range.lo) * 8_589_934_592 + u128::from(range.hi)) * 4_294_967_296
        + u128::from(place)
}

/// Sorts by lo, then by hi, then by the place.
fn sort(kept: &mut [Kept])
    ensures all { IsPermutation kept.old kept.new }
    ensures sorted { IsNonDecreasingBy rank kept.new }
{
    kept.sort_unstable_by_key(|k| rank(k));
}

/// Whether some address is in both of two ranges.
fn do_meet(lo: u64, hi: u64, range: &Range) -> bool
    ensures { result ≡ meets (extent lo hi) (extent_of range.now) }
{
    lo.max(range.lo) < hi.min(range.hi)
}

/// The end of a range that has addresses, or that of the last one that has.
fn last_end(range: &Range, end: u64, last: u64) -> u64
    ensures { result ≡ (if nat_lt range.now.lo range.now.hi then end else last) }
{
    if range.lo < range.hi { end } else { last }
}

/// The first place whose claim meets the last one before it that has addresses.
fn first_meeting_place(kept: &[Kept]) -> Option<usize>
    ensures { result ≡ meet_from (extent 0 0) (map kept_seen kept.now) }
{
    let mut lo = 0;
    let mut hi = 0;
    for (j, k) in kept.iter().enumerate() {
        let range = &k.claim.range;
        if do_meet(lo, hi, range) {
            return Some(j);
        }
        lo = last_end(range, range.lo, lo);
        hi = last_end(range, range.hi, hi);
    }
    None
}

/// A claim and the one at a place, where there is one, if they meet.
fn meeting_with<'a>(
    kept: &'a [Kept],
    before: Option<usize>,
    claim: &'a Claim,
) -> Option<Meeting<'a>>
    requires { IfSome before (λ i. i < length kept.now) }
    ensures none { IfNone result (meets (claim_before kept.now before).range (extent_of claim.now.range) ≡ false) }
    ensures some { IfSome result (λ _. meets (claim_before kept.now before).range (extent_of claim.now.range) ≡ true) }
    ensures fault { IfSome result (λ m. meeting_fault m ≡ overlap_fault (claim_before kept.now before) (claim_seen claim.now)) }
    ensures addresses { IfSome result (λ m. m.claim.now.range.lo < m.claim.now.range.hi) }
{
    let before = &kept[before?].claim;
    if before.range.meets(&claim.range) {
        Some(Meeting { before, claim })
    } else {
        None
    }
}

/// The place of a claim that has addresses, or that of the last one before it that has.
fn last_place(claim: &Claim, place: usize, before: Option<usize>) -> Option<usize>
    ensures { result ≡ (if nat_lt claim.now.range.lo claim.now.range.hi then Some place else before) }
{
    if claim.range.lo < claim.range.hi {
        Some(place)
    } else {
        before
    }
}

/// The first claim that meets the last one before it that has addresses.
#[tactic(auto, using(crate::proofs::Meetings::meets_none, crate::proofs::Meetings::meets_one, crate::proofs::Meetings::meets_ended))]
fn lowest_meeting(kept: &[Kept]) -> Option<Meeting>
    ensures fault { first_fault (overlap_checks no_claim (map kept_seen kept.now)) ≡ option_map meeting_fault result }
    ensures addresses { IfSome result (λ m. m.claim.now.range.lo < m.claim.now.range.hi) }
{
    let mut before: Option<usize> = None;
    for (j, k) in kept.iter().enumerate() {
        if let Some(meeting) = meeting_with(kept, before, &k.claim) {
            return Some(meeting);
        }
        before = last_place(&k.claim, j, before);
    }
    None
}

/// Sorts claims, and answers the first place that meets.
fn settle_all(kept: &mut [Kept]) -> Option<usize>
    requires { length kept.old < 4294967296 }
    ensures order { map kept_seen kept.new ≡ in_order (map kept_seen kept.old) }
    ensures settled { in_order (map kept_seen kept.new) ≡ map kept_seen kept.new }
    ensures place { result ≡ failing_place (overlap_pass (map kept_seen kept.old)) }
    ensures apart { IsNone result ↔ Apart (map kept_seen kept.old) }
{
    number(kept);
    sort(kept);
    first_meeting_place(kept)
}

impl Claims {
    /// No claims. It takes no memory before the first is added.
    pub fn new(alloc: Global) -> Claims
        ensures { result ≡ [] }
    {
        Claims {
            kept: Vec::new(alloc),
        }
    }

    /// Adds a claim. Where there is no memory, or there are 2^32 - 1 claims, the owner is dropped.
    pub fn add(&mut self, range: Range, owner: Owner) -> Result<(), AllocError>
        ensures ok { OnOk result (self.new ≡ self.old ++ claim (extent_of range) owner ∷ []) }
        ensures err { OnErr result (self.new ≡ self.old) }
    {
        if self.kept.len() >= 0xffff_ffff {
            return Err(AllocError);
        }
        let claim = Claim { range, owner };
        self.kept.push(Kept { claim, place: 0 })?;
        Ok(())
    }

    /// Sorts the claims by lo, then by hi, then by the order in which they were added, and answers the first place whose claim meets
    /// the last one before it that has addresses.
    pub fn settle(&mut self) -> Option<usize>
        ensures order { self.new ≡ in_order self.old }
        ensures settled { in_order self.new ≡ self.new }
        ensures place { result ≡ failing_place (overlap_pass self.old) }
        ensures apart { IsNone result ↔ Apart self.old }
    {
        settle_all(&mut self.kept)
    }

    /// Of settled claims, the first that meets the last one before it that has addresses.
    pub fn meeting(&self) -> Option<Meeting>
        ensures fault { (cs : List claims.Claim) → self.now ≡ in_order cs
            → first_fault (overlap_pass cs) ≡ option_map meeting_fault result }
        ensures addresses { IfSome result (λ m. m.claim.now.range.lo < m.claim.now.range.hi) }
    {
        lowest_meeting(self.kept())
    }

    /// The claims with their places.
    pub(crate) fn kept(&self) -> &[Kept]
        ensures seen { map kept_seen result.now ≡ self.now }
        ensures few { length result.now < 4294967296 }
    {
        &self.kept
    }

    /// How many claims there are.
    pub fn count(&self) -> usize
        ensures { result ≡ length self.now }
    {
        self.kept.len()
    }

    pub fn claim(&self, j: usize) -> &Claim
        requires { j < length self.now }
        ensures { slice_get self.now j ≡ Some (claim_seen result.now) }
    {
        &self.kept[j].claim
    }
}
