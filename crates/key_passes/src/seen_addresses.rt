//! Sets of addresses.

ghost use Rattle.std.specs.Prelude.{◌≡◌, ◌||◌, ◌==◌, ℕ, OnOk};
ghost use Rattle.std.specs.Ordering.{nat_cmp};
ghost use Rattle.std.specs.BTreeSet.{contains};

use std::alloc::AllocError;
use std::collections::BTreeSet;

pub fn has(seen: &BTreeSet<u32>, a: u32) -> bool
    ensures { result ≡ contains nat_cmp seen.now a }
{
    seen.contains(&a)
}

pub fn add(seen: &mut BTreeSet<u32>, a: u32) -> Result<(), AllocError>
    ensures { OnOk result ((b : ℕ) → contains nat_cmp seen.new b ≡ (a == b || contains nat_cmp seen.old b)) }
{
    seen.insert(a)?;
    Ok(())
}
