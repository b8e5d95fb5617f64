//! The account of all loaded addresses.

ghost use Rattle.std.specs.Prelude.{◌≡◌, ◌<◌, ◌≤◌, List, IfOk, IfErr, OnOk, length, map};
ghost use Rattle.image_model.specs.Segments.{IsLoadable};
ghost use Rattle.link_model.specs.Claims as claims;
ghost use Rattle.link_model.specs.Claims.{Apart};
ghost use Rattle.link_model.specs.Overlaps.{in_order};
ghost use Rattle.link_model.specs.Kinds.{NoneStray};
ghost use Rattle.link_model.specs.Account.{account, bytes_of, count_of, kind_owner, span_of};
ghost use Rattle.coverage.specs.Orders.{claim_seen, kept_seen};
ghost use Rattle.coverage.specs.Stretches.{Rise};
ghost use Rattle.coverage.specs.Kinds.{kind_seen};
ghost use Rattle.coverage.specs.Tallies.{run_seen};
ghost use Rattle.coverage.specs.Sweeps.{IsCause};
ghost use Rattle.coverage.specs.Accounts.{account_seen, is_part, part_bytes, part_claims};

use crate::claims::{Claim, Claims, Kept};
use crate::kinds::Kind;
use crate::sweep::{CoverFault, tally_all};
use crate::tally::Run;
use asm_syntax::listed::Listed;
use elf_view::LoadedSegments;
use layout_file::layout::Layout;
use link_model::owner::Owner;
use std::alloc::{AllocError, Global};

/// How many functions, tables and variables there are, those of size 0 too, and how many bytes each have; the loaded bytes by their
/// kinds; and the longest runs of neighbouring addresses of one owner, in the order of their addresses. `account` leaves `externals` at 0.
#[derive(Debug, Drop)]
pub struct Account {
    pub functions: usize,
    pub function_bytes: u64,
    pub tables: usize,
    pub table_bytes: u64,
    pub variables: usize,
    pub variable_bytes: u64,
    pub externals: u32,
    pub padding: u64,
    pub foreign: u64,
    pub loaded: u64,
    pub spans: Listed<Claim>,
}

/// The owners that are counted.
#[derive(Clone, Copy, Debug)]
pub enum Part {
    Functions,
    Tables,
    Variables,
}

/// How many claims there are, and how many bytes they have.
#[derive(Clone, Copy, Debug)]
pub struct Counted {
    pub claims: usize,
    pub bytes: u64,
}

fn is_part(part: Part, owner: &Owner) -> bool
    ensures { result ≡ is_part part owner.now }
{
    match (part, owner) {
        (Part::Functions, Owner::Function(..)) => true,
        (Part::Tables, Owner::Table(..)) => true,
        (Part::Variables, Owner::Variable(..)) => true,
        _ => false,
    }
}

/// What one claim adds to a part.
fn share(claim: &Claim, part: Part) -> Counted
    ensures claims { result.claims ≡ part_claims part (claim_seen claim.now) }
    ensures bytes { result.bytes ≡ part_bytes part (claim_seen claim.now) }
    ensures few { result.claims ≤ 1 }
    ensures most { result.bytes ≤ 4294967296 }
{
    if is_part(part, &claim.owner) {
        return Counted {
            claims: 1,
            bytes: claim.range.hi - claim.range.lo,
        };
    }
    Counted {
        claims: 0,
        bytes: 0,
    }
}

/// The claims of one part.
fn claims_of(kept: &[Kept], part: Part) -> Counted
    requires { length kept.now < 4294967296 }
    ensures claims { result.claims ≡ count_of (is_part part) (map kept_seen kept.now) }
    ensures bytes { result.bytes ≡ bytes_of (is_part part) (map kept_seen kept.now) }
{
    let mut claims = 0;
    let mut bytes = 0;
    for k in kept {
        let one = share(&k.claim, part);
        claims += one.claims;
        bytes += one.bytes;
    }
    Counted { claims, bytes }
}

/// The owner of the addresses of a kind.
fn owner_of(alloc: Global, kept: &[Kept], kind: Kind) -> Result<Owner, AllocError>
    ensures { IfOk result (λ o. o ≡ kind_owner (map kept_seen kept.now) (kind_seen kind)) }
{
    match kind {
        Kind::Claimed(j) => {
            if j < kept.len() {
                kept[j].claim.owner.copy(alloc)
            } else {
                Ok(Owner::Padding)
            }
        }
        Kind::Foreign => Ok(Owner::Foreign),
        Kind::Padding => Ok(Owner::Padding),
        Kind::Stray => Ok(Owner::Padding),
    }
}

/// The runs with their owners.
fn spans(alloc: Global, kept: &[Kept], runs: &[Run]) -> Result<Vec<Claim>, AllocError>
    ensures { IfOk result (λ spans. map claim_seen spans.items ≡ map (span_of (map kept_seen kept.now)) (map run_seen runs.now)) }
{
    let mut spans = Vec::new(alloc);
    for run in runs {
        let owner = owner_of(alloc, kept, run.kind)?;
        spans.push(Claim {
            range: run.range,
            owner,
        })?;
    }
    Ok(spans)
}

#[tactic(auto, unfolding(link_model::specs::Account::account, link_model::specs::Account::account_of))]
fn account_of(
    alloc: Global,
    kept: &[Kept],
    image: &LoadedSegments,
    layout: &Layout,
) -> Result<Account, CoverFault>
    requires rise { Rise kept.now }
    requires few { length kept.now < 4294967296 }
    ensures loadable { IsLoadable image.now }
    ensures account { IfOk result (λ t. account_seen t ≡ account image.now layout.now (map kept_seen kept.now) 0) }
    ensures covered { OnOk result (NoneStray image.now layout.now (map kept_seen kept.now)) }
    ensures stray { IfErr result (IsCause image.now layout.now (map kept_seen kept.now)) }
{
    let tally = tally_all(alloc, kept, layout, image)?;
    let spans = match spans(alloc, kept, &tally.runs) {
        Ok(spans) => Listed::from_vec(spans),
        Err(_) => return Err(CoverFault::Memory),
    };
    let functions = claims_of(kept, Part::Functions);
    let tables = claims_of(kept, Part::Tables);
    let variables = claims_of(kept, Part::Variables);
    Ok(Account {
        functions: functions.claims,
        function_bytes: functions.bytes,
        tables: tables.claims,
        table_bytes: tables.bytes,
        variables: variables.claims,
        variable_bytes: variables.bytes,
        externals: 0,
        padding: tally.padding,
        foreign: tally.foreign,
        loaded: tally.loaded,
        spans,
    })
}

impl Claims {
    /// Of settled claims: what each loaded address belongs to, or the lowest that belongs to nothing.
    pub fn account(
        &self,
        alloc: Global,
        image: &LoadedSegments,
        layout: &Layout,
    ) -> Result<Account, CoverFault>
        requires settled { in_order self.now ≡ self.now }
        ensures loadable { IsLoadable image.now }
        ensures account { (cs : List claims.Claim) → self.now ≡ in_order cs → Apart cs
            → IfOk result (λ t. account_seen t ≡ account image.now layout.now cs 0) }
        ensures covered { (cs : List claims.Claim) → self.now ≡ in_order cs → OnOk result (NoneStray image.now layout.now cs) }
        ensures stray { (cs : List claims.Claim) → self.now ≡ in_order cs → IfErr result (IsCause image.now layout.now cs) }
    {
        account_of(alloc, self.kept(), image, layout)
    }
}
