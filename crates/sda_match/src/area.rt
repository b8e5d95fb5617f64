//! The areas that a register reaches. PowerPC EABI, "Small Data Areas".

ghost use Rattle.std.specs.Prelude.{◌≡◌, ◌&&◌};
ghost use Rattle.std.specs.Option.{option_map_or};
ghost use Rattle.word_ops.specs.Ranges.{holds};
ghost use Rattle.word_ops.specs.Seen.{extent_of};
ghost use Rattle.code_model.specs.SmallData.{area_register, is_register_of, is_in_small_data, register_at, no_register};

use layout_file::area::Area;
use layout_file::layout::Layout;
use layout_model::kind::AreaKind;

fn area_register(kind: AreaKind) -> Option<u8>
    ensures { result ≡ area_register kind }
{
    match kind {
        AreaKind::Sda13 => Some(13),
        AreaKind::Sda2 => Some(2),
        AreaKind::Sda0 => Some(0),
        _ => None,
    }
}

fn is_reached(area: &Area, r: u8, a: u32) -> bool
    ensures { result ≡ (is_register_of r area.now.kind && holds a (extent_of area.now.range)) }
{
    match area_register(area.kind) {
        Some(own) => own == r && area.range.contains(a),
        None => false,
    }
}

/// Whether an area of the register's kind holds the address.
pub fn is_in_small_data(layout: &Layout, r: u8, a: u32) -> bool
    ensures { result ≡ is_in_small_data layout.now r a }
{
    for i in 0..layout.areas() {
        if is_reached(&layout.area(i), r, a) {
            return true;
        }
    }
    false
}

fn register_number(kind: AreaKind) -> u32
    ensures { result ≡ option_map_or (λ r. r) (area_register kind) no_register }
{
    match area_register(kind) {
        Some(r) => u32::from(r),
        None => 0xffff_ffff,
    }
}

/// The register of the area that holds an address; ffffffff where no register reaches it.
pub fn register_at(layout: &Layout, a: u32) -> u32
    ensures { result ≡ register_at layout.now a }
{
    for i in 0..layout.areas() {
        let area = layout.area(i);
        if area.range.contains(a) {
            return register_number(area.kind);
        }
    }
    0xffff_ffff
}
