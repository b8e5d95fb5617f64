//! Words one after the other.

ghost use Rattle.std.specs.Prelude.{◌≡◌, ◌+◌, ◌*◌, ◌≤◌, ◌<◌, ◌^◌, length};
ghost use Rattle.ordered_tests.specs.Checks.{first_fault};
ghost use Rattle.code_model.specs.WordChecks.{shapes_checks};

use code_model::gap::Shape;
use code_model::spot::Spot;
use layout_file::layout::Layout;
use sda_match::word::word_fault;

/// The first fault of words from an address on, each judged by its shape.
pub fn words_fault(
    layout: &Layout,
    offset: u32,
    at: u32,
    shapes: &[Shape],
    words: &[u32],
) -> Option<Spot>
    requires offset { offset + 4 * length words.now < 2 ^ 32 }
    requires at { at + 4 * length words.now < 2 ^ 32 }
    requires few { length words.now ≤ 5 }
    requires same { length shapes.now ≡ length words.now }
    ensures { result ≡ first_fault (shapes_checks layout.now offset at shapes.now words.now) }
{
    for i in 0..words.len() {
        let n = 4 * i as u32;
        if let Some(spot) = word_fault(layout, offset + n, at + n, &shapes[i], words[i]) {
            return Some(spot);
        }
    }
    None
}
