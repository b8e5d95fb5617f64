//! Claims that meet.

ghost use Rattle.std.specs.Prelude.{◌≡◌, ◌<◌, ◌^◌, IfOk, OnOk};
ghost use Rattle.ordered_tests.specs.Checks.{first_fault};
ghost use Rattle.link_model.specs.Claims.{Apart};
ghost use Rattle.link_model.specs.Overlaps.{in_order, overlap_fault, overlap_pass};
ghost use Rattle.coverage.specs.Orders.{claim_seen};
ghost use Rattle.key_passes.specs.Answers.{Decides};

use crate::owners::owner_names;
use asm_syntax::rule::Rule;
use coverage::claims::{Claims, Meeting};
use key_passes::fault::CheckFault;
use link_model::fault::Fault;
use std::alloc::{AllocError, Global};

/// The fault of two claims that meet, in what the later one's owner tells.
fn meeting_fault(alloc: Global, meeting: &Meeting) -> Result<Fault, AllocError>
    requires { meeting.now.claim.now.range.lo < 2 ^ 32 }
    ensures { IfOk result (λ f. f ≡ overlap_fault (claim_seen meeting.now.before.now) (claim_seen meeting.now.claim.now)) }
{
    let (unit, name) = owner_names(alloc, &meeting.claim.owner)?;
    let other = meeting.before.owner.copy(alloc)?;
    Ok(Fault {
        rule: Rule::Overlap,
        unit,
        name,
        offset: meeting.claim.range.lo as u32,
        item: 0,
        wanted: 0,
        found: 0,
        other: Some(other),
    })
}

/// Sorts the claims; that no two of them meet.
pub fn overlap_pass(alloc: Global, claims: &mut Claims) -> Result<(), CheckFault>
    ensures places { Decides (first_fault (overlap_pass claims.old)) result }
    ensures order { claims.new ≡ in_order claims.old }
    ensures settled { in_order claims.new ≡ claims.new }
    ensures apart { OnOk result (Apart claims.old) }
{
    claims.settle();
    match claims.meeting() {
        Some(meeting) => {
            let fault = meeting_fault(alloc, &meeting)?;
            Err(CheckFault::No(fault))
        }
        None => Ok(()),
    }
}
