//! Ranges as a layout keeps them, and their tests.

ghost use Rattle.std.specs.Prelude.{◌≡◌, ◌+◌, ◌≤◌, ◌<◌, ◌^◌, OnOk};
ghost use Rattle.serde_json.specs.View.{view};
ghost use Rattle.word_ops.specs.Ranges.{extent, holds};
ghost use Rattle.word_ops.specs.Seen.{extent_of};
ghost use Rattle.ordered_tests.specs.Steps.{all_pass};
ghost use Rattle.json_tree.specs.Answers.{Gives, GivesAs};
ghost use Rattle.layout_model.specs.Facts.{IsRange};
ghost use Rattle.layout_file.specs.LayoutTree.{ends, range, stack, stop};
ghost use Rattle.layout_file.specs.RangeTests.{range_tests, stack_tests, stop_tests};

use json_tree::address::Address;
use json_tree::array::{nth, tuple};
use json_tree::fault::{Cause, ReadError};
use json_tree::tree::Tree;
use limits::{LEAST_STACK_BYTES, MOST_RANGE_END, MOST_STACK_BYTES};
use serde_json::Value;
use std::alloc::Global;
use std::marker::Model;
use word_ops::range::Range;

/// The addresses from lo up to hi.
#[derive(Debug, Drop)]
pub struct Span {
    lo: u32,
    hi: u32,
}

impl Model for Span {
    ghost use Rattle.word_ops.specs.Ranges.{Extent, extent};
    ghost use Rattle.layout_model.specs.Facts.{IsRange};

    ghost Value = { Extent };

    ghost view = { λ span. extent span.lo span.hi };

    ghost invariant = { λ span. IsRange (extent span.lo span.hi) };
}

impl Span {
    pub fn range(&self) -> Range
        ensures value { extent_of result ≡ self.now }
        ensures range { IsRange self.now }
    {
        Range {
            lo: u64::from(self.lo),
            hi: u64::from(self.hi),
        }
    }

    pub fn holds(&self, a: u32) -> bool
        ensures { result ≡ holds a self.now }
    {
        self.lo <= a && a < self.hi
    }
}

/// The range of the stack.
#[derive(Debug, Drop)]
pub struct Stack {
    pub span: Span,
}

impl Model for Stack {
    ghost use Rattle.word_ops.specs.Ranges.{Extent};

    ghost Value = { Extent };

    ghost view = { λ stack. stack.span };
}

/// The stop point, from which four bytes are a range.
#[derive(Debug, Drop)]
pub struct Stop {
    pub address: u32,
}

impl Model for Stop {
    ghost use Rattle.std.specs.Prelude.{ℕ};

    ghost Value = { ℕ };

    ghost view = { λ stop. stop.address };
}

#[tactic(auto, unfolding(crate::specs::LayoutTree::ends))]
fn ends(alloc: Global, tree: &Value) -> Result<(u32, u32), ReadError>
    ensures { GivesAs (λ pair. extent pair.0 pair.1) result (ends (view tree.now)) }
{
    let values = tuple(alloc, tree, 2)?;
    let lo: Address = nth(alloc, values, 0)?;
    let hi: Address = nth(alloc, values, 1)?;
    Ok((lo.value(), hi.value()))
}

fn range_passes(alloc: Global, lo: u64, hi: u64) -> Result<(), ReadError>
    ensures gives { Gives result (all_pass (range_tests (extent lo hi))) }
    ensures range { OnOk result (IsRange (extent lo hi)) }
{
    if 1 <= lo && lo < hi && hi <= u64::from(MOST_RANGE_END) {
        Ok(())
    } else {
        Err(ReadError::here(alloc, Cause::RangeOrder))
    }
}

fn stack_passes(alloc: Global, lo: u32, hi: u32) -> Result<(), ReadError>
    ensures gives { Gives result (all_pass (stack_tests (extent lo hi))) }
    ensures range { OnOk result (IsRange (extent lo hi)) }
{
    range_passes(alloc, u64::from(lo), u64::from(hi))?;
    let size = hi - lo;
    if size < LEAST_STACK_BYTES {
        Err(ReadError::here(alloc, Cause::RangeOrder))
    } else if MOST_STACK_BYTES < size {
        Err(ReadError::here(alloc, Cause::Limit(MOST_STACK_BYTES)))
    } else if hi % 16 != 0 {
        Err(ReadError::here(alloc, Cause::Unaligned))
    } else {
        Ok(())
    }
}

fn stop_passes(alloc: Global, stop: u32) -> Result<(), ReadError>
    ensures { Gives result (all_pass (stop_tests stop)) }
{
    range_passes(alloc, u64::from(stop), u64::from(stop) + 4)?;
    if stop % 4 == 0 {
        Ok(())
    } else {
        Err(ReadError::here(alloc, Cause::Unaligned))
    }
}

#[tactic(auto, unfolding(crate::specs::LayoutTree::range))]
impl Tree for Span {
    ghost reads = { range };

    fn read(alloc: Global, tree: &Value) -> Result<Span, ReadError> {
        let (lo, hi) = ends(alloc, tree)?;
        range_passes(alloc, u64::from(lo), u64::from(hi))?;
        Ok(Span { lo, hi })
    }
}

#[tactic(auto, unfolding(crate::specs::LayoutTree::stack))]
impl Tree for Stack {
    ghost reads = { stack };

    fn read(alloc: Global, tree: &Value) -> Result<Stack, ReadError> {
        let (lo, hi) = ends(alloc, tree)?;
        stack_passes(alloc, lo, hi)?;
        Ok(Stack {
            span: Span { lo, hi },
        })
    }
}

#[tactic(auto, unfolding(crate::specs::LayoutTree::stop))]
impl Tree for Stop {
    ghost reads = { stop };

    fn read(alloc: Global, tree: &Value) -> Result<Stop, ReadError> {
        let address: Address = Tree::read(alloc, tree)?;
        let address = address.value();
        stop_passes(alloc, address)?;
        Ok(Stop { address })
    }
}
