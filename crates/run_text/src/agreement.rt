//! Whether the trace of an image is one that the trace of its assembly allows.

ghost use Rattle.std.specs.Prelude.{◌≡◌};
ghost use Rattle.run_text.specs.Agreement.{agrees, common_events, is_same, same_seen};

use machine_runs::trace::{Outcome, Seen, Trace};

fn same_seen(a: &Seen, b: &Seen) -> bool
    ensures { result ≡ same_seen a.now b.now }
{
    a == b
}

/// How many events two traces have in common before the first that differs.
pub fn common_events(a: &[Seen], b: &[Seen]) -> usize
    ensures { result ≡ common_events a.now b.now }
{
    let both = a.len().min(b.len());
    for i in 0..both {
        if !same_seen(&a[i], &b[i]) {
            return i;
        }
    }
    both
}

/// Whether an image may end so where the assembly ends so, `all` telling whether the image has no further event. Where the assembly goes
/// on or is undefined, nothing is said of what comes after.
fn agrees(asm: Outcome, all: bool, image: Outcome) -> bool
    ensures { result ≡ agrees asm all image }
{
    match asm {
        Outcome::Ended(word) => match image {
            Outcome::Ended(found) => all && word == found,
            _ => false,
        },
        Outcome::Starved => match image {
            Outcome::Starved => all,
            _ => false,
        },
        Outcome::Going | Outcome::Undefined(_) | Outcome::Stack | Outcome::Full => true,
        Outcome::Faulted(_) => false,
    }
}

/// Whether the image does what its assembly does.
pub fn is_same(asm: &Trace, image: &Trace) -> bool
    ensures { result ≡ is_same asm.now image.now }
{
    let ours = asm.events.items();
    let theirs = image.events.items();
    let common = common_events(ours, theirs);
    let all = common == theirs.len();
    common == ours.len() && agrees(asm.outcome, all, image.outcome)
}
