//! All loaded addresses in their order, by their kinds.

ghost use Rattle.std.specs.Prelude.{◌≡◌, ◌<◌, ◌≤◌, ◌+◌, ◌^◌, IfOk, IfErr, OnOk, map, Some};
ghost use Rattle.elf_view.specs.Views.{segment_seen};
ghost use Rattle.image_model.specs.Loaded.{segment_of, HasRange};
ghost use Rattle.image_model.specs.Segments.{IsLoadable};
ghost use Rattle.link_model.specs.Account.{same_kind, tally_below};
ghost use Rattle.link_model.specs.Kinds.{NoneStray, Stray};
ghost use Rattle.coverage.specs.Kinds.{kind_seen};
ghost use Rattle.coverage.specs.Orders.{kept_seen};
ghost use Rattle.coverage.specs.Stretches.{Rise};
ghost use Rattle.coverage.specs.Tallies.{tally_seen};
ghost use Rattle.coverage.specs.Sweeps.{IsCause, Swept};

use crate::claims::Kept;
use crate::kinds::{Kind, stretch_from};
use crate::stretches::{Here, here_at, loaded_after, nothing_yet};
use crate::tally::Tally;
use elf_view::{LoadedSegments, SegView};
use layout_file::layout::Layout;
use std::alloc::Global;

/// Why there is no account.
#[derive(Clone, Copy, Debug, PartialEq, Eq)]
pub enum CoverFault {
    /// The lowest loaded address that is not claimed, foreign or padding, and its byte.
    Stray(u32, u8),
    Memory,
}

fn is_stray(kind: Kind) -> bool
    ensures { result ≡ same_kind (kind_seen kind) Stray }
{
    match kind {
        Kind::Stray => true,
        _ => false,
    }
}

/// Adds the addresses from one in a segment on that have its kind, and answers the address behind them.
fn add_stretch(
    kept: &[Kept],
    layout: &Layout,
    image: &LoadedSegments,
    segment: &SegView,
    a: u64,
    here: &mut Here,
    tally: &mut Tally,
) -> Result<u64, CoverFault>
    requires rise { Rise kept.now }
    requires loadable { IsLoadable image.now }
    requires segment { segment_of image.now a ≡ Some (segment_seen segment.now) }
    requires inside { (segment.now.vaddr ≤ a) × (a < segment.now.vaddr + segment.now.memsz) }
    requires range { HasRange (segment_seen segment.now) }
    requires swept { Swept image.now layout.now kept.now tally.old here.old a }
    ensures ok { IfOk result (λ end. Swept image.now layout.now kept.now tally.new here.new end) }
    ensures more { IfOk result (λ end. a < end) }
    ensures most { IfOk result (λ end. end ≤ 2 ^ 32) }
    ensures err { IfErr result (IsCause image.now layout.now (map kept_seen kept.now)) }
{
    *here = here_at(kept, layout, here, a);
    let stretch = stretch_from(image, layout, here, segment, a);
    if is_stray(stretch.kind) {
        let byte = segment.byte((a - u64::from(segment.vaddr)) as u32);
        return Err(CoverFault::Stray(a as u32, byte));
    }
    match tally.add(a, stretch) {
        Ok(()) => Ok(stretch.end),
        Err(_) => Err(CoverFault::Memory),
    }
}

/// Adds the addresses from one on that have its kind or are not loaded, and answers the address behind them.
fn add_from(
    kept: &[Kept],
    layout: &Layout,
    image: &LoadedSegments,
    a: u64,
    here: &mut Here,
    tally: &mut Tally,
) -> Result<u64, CoverFault>
    requires rise { Rise kept.now }
    requires small { a < 2 ^ 32 }
    requires swept { Swept image.now layout.now kept.now tally.old here.old a }
    ensures loadable { IsLoadable image.now }
    ensures ok { IfOk result (λ end. Swept image.now layout.now kept.now tally.new here.new end) }
    ensures more { IfOk result (λ end. a < end) }
    ensures most { IfOk result (λ end. end ≤ 2 ^ 32) }
    ensures err { IfErr result (IsCause image.now layout.now (map kept_seen kept.now)) }
{
    match image.holder(a) {
        Some(segment) => add_stretch(kept, layout, image, &segment, a, here, tally),
        None => Ok(loaded_after(image, a)),
    }
}

/// The loaded addresses by their kinds, or the lowest stray one.
pub fn tally_all(
    alloc: Global,
    kept: &[Kept],
    layout: &Layout,
    image: &LoadedSegments,
) -> Result<Tally, CoverFault>
    requires { Rise kept.now }
    ensures loadable { IsLoadable image.now }
    ensures tally { IfOk result (λ t. tally_seen t ≡ tally_below image.now layout.now (map kept_seen kept.now) (2 ^ 32)) }
    ensures covered { OnOk result (NoneStray image.now layout.now (map kept_seen kept.now)) }
    ensures err { IfErr result (IsCause image.now layout.now (map kept_seen kept.now)) }
{
    let mut tally = Tally::new(alloc);
    let mut here = nothing_yet();
    let mut a: u64 = 0;
    while a < 0x1_0000_0000 {
        a = add_from(kept, layout, image, a, &mut here, &mut tally)?;
    }
    Ok(tally)
}
