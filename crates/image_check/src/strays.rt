//! Loaded addresses that belong to nothing.

ghost use Rattle.std.specs.Prelude.{◌≡◌, List, IfOk};
ghost use Rattle.ordered_tests.specs.Checks.{first_fault};
ghost use Rattle.image_model.specs.Segments.{IsLoadable};
ghost use Rattle.link_model.specs.Claims as model;
ghost use Rattle.link_model.specs.Account.{account};
ghost use Rattle.link_model.specs.Overlaps.{in_order};
ghost use Rattle.link_model.specs.Passes.{stray_pass};
ghost use Rattle.coverage.specs.Accounts.{account_seen};
ghost use Rattle.asm_syntax.specs.declared.rule.Rule.TheVariants as rules;
ghost use Rattle.code_model.specs.WordChecks.{spot};
ghost use Rattle.key_passes.specs.Answers.{Decides};

use asm_syntax::rule::Rule;
use code_model::spot::Spot;
use coverage::account::Account;
use coverage::claims::Claims;
use coverage::sweep::CoverFault;
use elf_view::LoadedSegments;
use key_passes::fault::{CheckFault, fault_nowhere};
use layout_file::layout::Layout;
use link_laws::laws::lowest_stray_is_first;
use std::alloc::Global;

fn stray_spot(a: u32, byte: u8) -> Spot
    ensures { result ≡ spot rules.Stray a 0 0 byte }
{
    Spot {
        rule: Rule::Stray,
        offset: a,
        item: 0,
        wanted: 0,
        found: u32::from(byte),
    }
}

/// The account of all loaded addresses by claims that are sorted, with no external keys; that none is stray.
pub fn stray_pass(
    alloc: Global,
    claims: &Claims,
    segments: &LoadedSegments,
    layout: &Layout,
) -> Result<Account, CheckFault>
    requires settled { in_order claims.now ≡ claims.now }
    ensures places { (cs : List model.Claim) → claims.now ≡ in_order cs
        → Decides (first_fault (stray_pass segments.now layout.now cs)) result }
    ensures account { (cs : List model.Claim) → claims.now ≡ in_order cs → model.Apart cs →
        IfOk result (λ a. account_seen a ≡ account segments.now layout.now cs 0) }
{
    lowest_stray_is_first();
    match claims.account(alloc, segments, layout) {
        Ok(account) => Ok(account),
        Err(CoverFault::Stray(a, byte)) => Err(fault_nowhere(alloc, stray_spot(a, byte))),
        Err(CoverFault::Memory) => Err(CheckFault::Memory),
    }
}
