//! Where a variable stands.

ghost use Rattle.std.specs.Prelude.{◌≡◌, ◌&&◌};
ghost use Rattle.std.specs.List.{list_all};
ghost use Rattle.ordered_tests.specs.Checks.{from_to};
ghost use Rattle.word_ops.specs.Ranges.{is_inside};
ghost use Rattle.word_ops.specs.Seen.{extent_of};
ghost use Rattle.code_model.specs.Addresses.{is_writable_at};
ghost use Rattle.code_model.specs.Areas.{is_data_kind, is_in_one_area};

use elf_view::LoadedSegments;
use image_model::flags::is_writable;
use layout_file::area::Area;
use layout_file::layout::Layout;
use layout_model::kind::AreaKind;
use word_ops::range::Range;

fn is_data_kind(writable: bool, kind: AreaKind) -> bool
    ensures { result ≡ is_data_kind writable kind }
{
    match kind {
        AreaKind::Writable | AreaKind::Sda13 | AreaKind::Sda0 => true,
        AreaKind::Fixed | AreaKind::Sda2 => !writable,
        AreaKind::Code => false,
    }
}

fn has_all(area: &Area, writable: bool, range: &Range) -> bool
    ensures { result ≡ (is_data_kind writable area.now.kind && is_inside (extent_of range.now) (extent_of area.now.range)) }
{
    is_data_kind(writable, area.kind) && range.is_inside(&area.range)
}

/// Whether one area in which a variable may stand has the whole range.
pub fn is_in_data_area(layout: &Layout, writable: bool, range: &Range) -> bool
    ensures { result ≡ is_in_one_area layout.now (is_data_kind writable) (extent_of range.now) }
{
    for i in 0..layout.areas() {
        if has_all(&layout.area(i), writable, range) {
            return true;
        }
    }
    false
}

/// Whether each address of the range is in a segment with PF_W.
pub fn is_writable_range(segments: &LoadedSegments, range: &Range) -> bool
    ensures { result ≡ list_all (is_writable_at segments.now) (from_to range.now.lo range.now.hi) }
{
    let mut a = range.lo;
    while a < range.hi {
        let Some(segment) = segments.holder(a) else {
            return false;
        };
        if !is_writable(segment.flags) {
            return false;
        }
        a = u64::from(segment.vaddr) + u64::from(segment.memsz);
    }
    true
}
