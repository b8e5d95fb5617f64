//! The loaded addresses below one, by their kinds.

ghost use Rattle.std.specs.Prelude.{◌≡◌, ◌<◌, ◌≤◌, ◌^◌, OnOk, [], map, if◌then◌else◌};
ghost use Rattle.link_model.specs.Account.{goes_on, last_run, same_kind};
ghost use Rattle.word_ops.specs.Seen.{extent_of};
ghost use Rattle.coverage.specs.Kinds.{kind_seen};
ghost use Rattle.coverage.specs.Tallies.{run_seen, tally_seen, with_run, with_stretch, IsCounted};

use crate::kinds::{Kind, Stretch};
use std::alloc::{AllocError, Global};
use word_ops::range::Range;

/// A longest run of neighbouring addresses of one kind.
#[derive(Clone, Copy, Debug)]
pub struct Run {
    pub range: Range,
    pub kind: Kind,
}

/// The runs in the order of their addresses, and how many addresses there are.
#[derive(Debug, Drop)]
pub struct Tally {
    pub runs: Vec<Run>,
    pub padding: u64,
    pub foreign: u64,
    pub loaded: u64,
}

fn is_same(kind: Kind, other: Kind) -> bool
    ensures { result ≡ same_kind (kind_seen kind) (kind_seen other) }
{
    match (kind, other) {
        (Kind::Claimed(i), Kind::Claimed(j)) => i == j,
        (Kind::Foreign, Kind::Foreign) => true,
        (Kind::Padding, Kind::Padding) => true,
        (Kind::Stray, Kind::Stray) => true,
        _ => false,
    }
}

/// Whether the last run ends at an address and has a kind.
fn goes_on(runs: &[Run], a: u64, kind: Kind) -> bool
    ensures { result ≡ goes_on (map run_seen runs.now) a (kind_seen kind) }
{
    if runs.is_empty() {
        return false;
    }
    let last = &runs[runs.len() - 1];
    last.range.hi == a && is_same(last.kind, kind)
}

/// The range of the last run, or an empty one.
fn last_range(runs: &[Run]) -> Range
    ensures { extent_of result ≡ (last_run (map run_seen runs.now)).range }
{
    if runs.is_empty() {
        return Range { lo: 0, hi: 0 };
    }
    runs[runs.len() - 1].range
}

/// Adds the addresses of a range to the last run, where this goes on, or as a new one.
#[tactic(auto, using(crate::proofs::Runs::ends_at))]
fn add_run(runs: &mut Vec<Run>, range: Range, kind: Kind) -> Result<(), AllocError>
    ensures { OnOk result (map run_seen runs.new.items ≡ with_run (map run_seen runs.old.items) range.lo range.hi (kind_seen kind)) }
{
    if goes_on(runs, range.lo, kind) {
        let place = runs.len() - 1;
        let last = last_range(runs);
        runs[place] = Run {
            range: Range {
                lo: last.lo,
                hi: range.hi,
            },
            kind,
        };
        return Ok(());
    }
    runs.push(Run { range, kind })?;
    Ok(())
}

fn bytes_if(yes: bool, bytes: u64) -> u64
    ensures value { result ≡ (if yes then bytes else 0) }
    ensures most { result ≤ bytes }
{
    if yes { bytes } else { 0 }
}

impl Tally {
    pub fn new(alloc: Global) -> Tally
        ensures seen { tally_seen result ≡ record { runs = []; padding = 0; foreign = 0; loaded = 0 } }
        ensures counted { IsCounted result 0 }
    {
        Tally {
            runs: Vec::new(alloc),
            padding: 0,
            foreign: 0,
            loaded: 0,
        }
    }

    /// Adds the addresses from one on up to an end.
    pub fn add(&mut self, a: u64, stretch: Stretch) -> Result<(), AllocError>
        requires some { a < stretch.end }
        requires within { stretch.end ≤ 2 ^ 32 }
        requires counted { IsCounted self.old a }
        ensures seen { OnOk result (tally_seen self.new ≡ with_stretch (tally_seen self.old) a stretch.end (kind_seen stretch.kind)) }
        ensures counted { OnOk result (IsCounted self.new stretch.end) }
    {
        let range = Range {
            lo: a,
            hi: stretch.end,
        };
        add_run(&mut self.runs, range, stretch.kind)?;
        let bytes = stretch.end - a;
        self.padding += bytes_if(is_same(stretch.kind, Kind::Padding), bytes);
        self.foreign += bytes_if(is_same(stretch.kind, Kind::Foreign), bytes);
        self.loaded += bytes;
        Ok(())
    }
}
