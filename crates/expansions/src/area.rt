//! Where code and tables may stand.

ghost use Rattle.std.specs.Prelude.{◌≡◌, ◌≤◌, ◌<◌, ◌&&◌, ◌^◌, IsTrue};
ghost use Rattle.word_ops.specs.Ranges.{extent, is_inside};
ghost use Rattle.word_ops.specs.Seen.{extent_of};
ghost use Rattle.code_model.specs.Areas.{is_in_one_area};
ghost use Rattle.expansions.specs.Parts.{is_kind_of};

use layout_file::area::Area;
use layout_file::layout::Layout;
use layout_model::kind::AreaKind;

/// What a function has in an image.
#[derive(Clone, Copy, Debug, PartialEq, Eq, Drop)]
pub enum Part {
    Code,
    Table,
}

/// Whether a part may stand in areas of a kind.
fn is_kind_of(part: Part, kind: AreaKind) -> bool
    ensures { result ≡ is_kind_of part kind }
{
    match kind {
        AreaKind::Code => true,
        AreaKind::Fixed => part == Part::Table,
        _ => false,
    }
}

fn takes(area: &Area, part: Part, lo: u64, hi: u64) -> bool
    ensures value { result ≡ (is_kind_of part area.now.kind && is_inside (extent lo hi) (extent_of area.now.range)) }
    ensures end { IsTrue result → hi ≤ area.now.range.hi }
{
    is_kind_of(part, area.kind) && area.range.lo <= lo && hi <= area.range.hi
}

/// Whether one area in which a part may stand has the addresses from `lo` up to `hi`. No area reaches the last addresses.
pub fn is_in_one_area(layout: &Layout, part: Part, lo: u64, hi: u64) -> bool
    ensures value { result ≡ is_in_one_area layout.now (is_kind_of part) (extent lo hi) }
    ensures end { IsTrue result → hi < 2 ^ 32 }
{
    for i in 0..layout.areas() {
        let area = layout.area(i);
        if takes(&area, part, lo, hi) {
            return true;
        }
    }
    false
}
