//! Where small data is reached from. PowerPC EABI, "Small Data Areas".

ghost use Rattle.std.specs.Prelude.{◌≡◌};
ghost use Rattle.code_model.specs.SmallData.{small_data_base, small_data_address, reaches};

use layout_file::layout::Layout;
use word_ops::words::sext16;

/// The base that a register stands for.
pub fn small_data_base(layout: &Layout, r: u8) -> Option<u32>
    ensures { result ≡ small_data_base layout.now r }
{
    match r {
        13 => Some(layout.r13()),
        2 => Some(layout.r2()),
        0 => Some(0),
        _ => None,
    }
}

/// The address that a register and a half lead to, where the register has a base.
pub fn small_data_address(layout: &Layout, r: u8, half: u32) -> Option<u32>
    ensures { result ≡ small_data_address layout.now r half }
{
    match small_data_base(layout, r) {
        Some(base) => Some(base.wrapping_add(sext16(half))),
        None => None,
    }
}

/// Whether a register and a half lead to an address.
pub fn reaches(layout: &Layout, r: u8, half: u32, a: u32) -> bool
    ensures { result ≡ reaches layout.now r half a }
{
    match small_data_address(layout, r, half) {
        Some(reached) => reached == a,
        None => false,
    }
}
