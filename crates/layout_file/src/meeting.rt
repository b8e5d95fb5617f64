//! Ranges that meet.

ghost use Rattle.std.specs.Prelude.{◌<◌, ◌≤◌, ◌^◌, map, length};
ghost use Rattle.word_ops.specs.Seen.{extent_of};
ghost use Rattle.ordered_tests.specs.Steps.{all_pass};
ghost use Rattle.layout_file.specs.LayoutFile.{earlier_tests, apart_tests};
ghost use Rattle.layout_file.specs.Errors.{Answers};

use crate::error::LayoutError;
use word_ops::range::Range;

/// Whether a range meets none that stands before it.
fn meets_none_before(ranges: &[Range], later: usize) -> Result<(), LayoutError>
    requires there { later < length ranges.now }
    requires few { length ranges.now ≤ 2 ^ 32 }
    ensures { Answers result (all_pass (earlier_tests (map extent_of ranges.now) later)) }
{
    for earlier in 0..later {
        if ranges[earlier].meets(&ranges[later]) {
            return Err(LayoutError::RangeMeets(earlier as u32, later as u32));
        }
    }
    Ok(())
}

/// Whether no two ranges meet.
pub fn are_apart(ranges: &[Range]) -> Result<(), LayoutError>
    requires { length ranges.now ≤ 2 ^ 32 }
    ensures { Answers result (all_pass (apart_tests (map extent_of ranges.now))) }
{
    for later in 0..ranges.len() {
        meets_none_before(ranges, later)?;
    }
    Ok(())
}
