// Ranges of addresses.
ghost use Rattle.std.specs.Prelude.{◌≡◌, ◌↔◌, ◌^◌, ◌<◌, ◌≤◌, ℕ, IsTrue, IsNone, IfSome};

/// The addresses from `lo` up to `hi`, which is not one of them. `hi` may be 2^32.
#[derive(Clone, Copy, Debug, PartialEq, Eq, Drop)]
pub struct Range {
    pub lo: u64,
    pub hi: u64,
    pub ghost ordered: { lo ≤ hi },
    pub ghost within: { hi ≤ 2 ^ 32 },
}

impl Range {
    ghost use Rattle.word_ops.specs.Ranges.{extent, holds, meets, is_inside, AreEnds, HaveCommon};
    ghost use Rattle.word_ops.specs.Seen.{extent_of};

    /// None where the ends are in the wrong order or pass 2^32.
    pub fn new(lo: u64, hi: u64) -> Option<Range>
        ensures made { IfSome result (λ r. extent_of r ≡ extent lo hi) }
        ensures refused { IsNone result ↔ ¬ AreEnds lo hi }
    {
        if lo <= hi && hi <= 0x1_0000_0000 {
            Some(Range { lo, hi })
        } else {
            None
        }
    }

    /// Whether an address is in the range.
    pub fn contains(&self, a: u32) -> bool
        ensures { result ≡ holds a (extent_of self.now) }
    {
        let a = u64::from(a);
        self.lo <= a && a < self.hi
    }

    /// Whether some address is in both ranges.
    #[tactic(auto, using(crate::proofs::RangeLaws::meets_by_address))]
    pub fn meets(&self, other: &Range) -> bool
        ensures value { result ≡ meets (extent_of self.now) (extent_of other.now) }
        ensures addresses { IsTrue result ↔ HaveCommon (extent_of self.now) (extent_of other.now) }
    {
        self.lo.max(other.lo) < self.hi.min(other.hi)
    }

    /// Whether the range lies between the ends of another.
    pub fn is_inside(&self, area: &Range) -> bool
        ensures { result ≡ is_inside (extent_of self.now) (extent_of area.now) }
    {
        area.lo <= self.lo && self.hi <= area.hi
    }
}
