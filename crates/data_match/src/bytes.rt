//! The first byte of a variable that differs from what is loaded, or is not loaded.

ghost use Rattle.std.specs.Prelude.{◌≡◌, ◌≤◌, ◌<◌, ◌+◌, ◌-◌, ◌^◌, [], ◌∷◌, drop, length, option_map, replicate, IfNone, IfSome, Some, min};
ghost use Rattle.std.specs.List.{flat_map};
ghost use Rattle.asm_syntax.specs.Sizes.{init_size, variable_size};
ghost use Rattle.elf_view.specs.Views.{segment_seen};
ghost use Rattle.image_model.specs.Loaded.{segment_byte};
ghost use Rattle.code_model.specs.Variables.{init_bytes};
ghost use Rattle.limits.specs.declared.TheConstants.{MOST_VARIABLE_BYTES};
ghost use Rattle.data_match.specs.Faults.{spot_of};
ghost use Rattle.data_match.specs.Stretches.{bytes_fault, HasAll};

use crate::fault::DataFault;
use asm_syntax::unit::Init;
use elf_view::{LoadedSegments, SegView};
use name_addresses::NameAddresses;
use reloc_match::fields::address_plus;

/// The byte at an address that a segment has.
fn byte_in(segment: &SegView, a: u64) -> u8
    requires low { segment.now.vaddr ≤ a }
    requires high { a < segment.now.vaddr + segment.now.memsz }
    requires range { segment.now.vaddr + segment.now.memsz ≤ 2 ^ 32 }
    ensures { result ≡ segment_byte (segment_seen segment.now) (a - segment.now.vaddr) }
{
    segment.byte((a - u64::from(segment.vaddr)) as u32)
}

/// How many of `most` addresses from `at` on the segment has.
fn run_in(segment: &SegView, at: u64, most: u32) -> u32
    requires low { segment.now.vaddr ≤ at }
    requires high { at < segment.now.vaddr + segment.now.memsz }
    requires some { 0 < most }
    ensures some { 0 < result }
    ensures most { result ≤ most }
    ensures within { at + result ≤ segment.now.vaddr + segment.now.memsz }
{
    let left = u64::from(segment.vaddr) + u64::from(segment.memsz) - at;
    u64::from(most).min(left) as u32
}

/// The first fault of the bytes from `from` up to `to`, which the segment has.
fn piece_fault(
    segments: &LoadedSegments,
    segment: &SegView,
    a: u32,
    offset: u32,
    bytes: &[u8],
    from: u32,
    to: u32,
) -> Option<DataFault>
    requires order { from ≤ to }
    requires within { to ≤ length bytes.now }
    requires fits { offset + length bytes.now < 2 ^ 32 }
    requires has { HasAll segments.now (segment_seen segment.now) (a + offset + from) (a + offset + to) }
    requires range { segment.now.vaddr + segment.now.memsz ≤ 2 ^ 32 }
    ensures none { IfNone result
        (bytes_fault segments.now a (offset + from) (drop from bytes.now) ≡ bytes_fault segments.now a (offset + to) (drop to bytes.now)) }
    ensures some { IfSome result (λ f. bytes_fault segments.now a (offset + from) (drop from bytes.now) ≡ Some (spot_of a f)) }
{
    for i in from..to {
        let wanted = bytes[i as usize];
        let found = byte_in(segment, u64::from(a) + u64::from(offset) + u64::from(i));
        if found != wanted {
            return Some(DataFault::Bytes(offset + i, wanted, Some(found)));
        }
    }
    None
}

/// The first fault of bytes that stand at an offset of the variable at `a`.
pub fn held_fault(segments: &LoadedSegments, a: u32, offset: u32, bytes: &[u8]) -> Option<DataFault>
    requires fits { offset + length bytes.now < 2 ^ 32 }
    requires start { a + offset ≤ 2 ^ 32 }
    ensures end { IfNone result (a + offset + length bytes.now ≤ 2 ^ 32) }
    ensures first { option_map (spot_of a) result ≡ bytes_fault segments.now a offset bytes.now }
{
    let n = bytes.len() as u32;
    let mut i = 0;
    while i < n {
        let at = u64::from(a) + u64::from(offset) + u64::from(i);
        let Some(segment) = segments.holder(at) else {
            return Some(DataFault::Bytes(offset + i, bytes[i as usize], None));
        };
        let end = i + run_in(&segment, at, n - i);
        if let Some(fault) = piece_fault(segments, &segment, a, offset, bytes, i, end) {
            return Some(fault);
        }
        i = end;
    }
    None
}

/// How many of the `n` addresses from `at` on, which the segment has, are before its zero fill.
fn held_run(segment: &SegView, at: u64, n: u32) -> u32
    requires { segment.now.vaddr ≤ at }
    ensures most { result ≤ n }
    ensures rest { result < n → segment.now.vaddr + length segment.now.bytes.now ≤ at + result }
{
    let held = u64::from(segment.vaddr) + segment.bytes.len() as u64;
    if held <= at {
        return 0;
    }
    u64::from(n).min(held - at) as u32
}

/// The first fault of the zeros from `from` up to `to` of `n`, which the segment has.
fn zero_piece_fault(
    segments: &LoadedSegments,
    segment: &SegView,
    a: u32,
    offset: u32,
    n: u32,
    from: u32,
    to: u32,
) -> Option<DataFault>
    requires order { from ≤ to }
    requires within { to ≤ n }
    requires fits { offset + n < 2 ^ 32 }
    requires has { HasAll segments.now (segment_seen segment.now) (a + offset + from) (a + offset + to) }
    requires range { segment.now.vaddr + segment.now.memsz ≤ 2 ^ 32 }
    ensures none { IfNone result
        (bytes_fault segments.now a (offset + from) (replicate (n - from) 0) ≡ bytes_fault segments.now a (offset + to)
        (replicate (n - to) 0)) }
    ensures some { IfSome result (λ f. bytes_fault segments.now a (offset + from) (replicate (n - from) 0) ≡ Some (spot_of a f)) }
{
    let start = u64::from(a) + u64::from(offset) + u64::from(from);
    let held_end = from + held_run(segment, start, to - from);
    for i in from..held_end {
        let found = byte_in(segment, u64::from(a) + u64::from(offset) + u64::from(i));
        if found != 0 {
            return Some(DataFault::Bytes(offset + i, 0, Some(found)));
        }
    }
    None
}

/// The first fault of `n` zeros.
pub fn zeros_fault(segments: &LoadedSegments, a: u32, offset: u32, n: u32) -> Option<DataFault>
    requires fits { offset + n < 2 ^ 32 }
    requires start { a + offset ≤ 2 ^ 32 }
    ensures end { IfNone result (a + offset + n ≤ 2 ^ 32) }
    ensures first { option_map (spot_of a) result ≡ bytes_fault segments.now a offset (replicate n 0) }
{
    let mut i = 0;
    while i < n {
        let at = u64::from(a) + u64::from(offset) + u64::from(i);
        let Some(segment) = segments.holder(at) else {
            return Some(DataFault::Bytes(offset + i, 0, None));
        };
        let end = i + run_in(&segment, at, n - i);
        if let Some(fault) = zero_piece_fault(segments, &segment, a, offset, n, i, end) {
            return Some(fault);
        }
        i = end;
    }
    None
}

/// The first fault of an item.
fn item_fault<F: NameAddresses>(
    segments: &LoadedSegments,
    names: &F,
    a: u32,
    offset: u32,
    item: &Init,
) -> Option<DataFault>
    requires fits { offset + init_size item.now < 2 ^ 32 }
    requires start { a + offset ≤ 2 ^ 32 }
    ensures end { IfNone result (a + offset + init_size item.now ≤ 2 ^ 32) }
    ensures first { option_map (spot_of a) result ≡ bytes_fault segments.now a offset (init_bytes (F.address names.now) item.now) }
{
    match item {
        Init::Int8(n) => held_fault(segments, a, offset, &[*n]),
        Init::Int16(n) => held_fault(segments, a, offset, &n.to_be_bytes()),
        Init::Int32(n) => held_fault(segments, a, offset, &n.to_be_bytes()),
        Init::Bytes(bytes) => held_fault(segments, a, offset, bytes.items()),
        Init::Space(n) => zeros_fault(segments, a, offset, *n),
        Init::Addr(name, n) => {
            let word = address_plus(names.address_of(name), *n);
            held_fault(segments, a, offset, &word.to_be_bytes())
        }
    }
}

/// The first fault of all items.
pub fn items_fault<F: NameAddresses>(
    segments: &LoadedSegments,
    names: &F,
    a: u32,
    init: &[Init],
) -> Option<DataFault>
    requires { variable_size init.now ≤ MOST_VARIABLE_BYTES }
    ensures end { IfNone result (a + variable_size init.now ≤ 2 ^ 32) }
    ensures first { option_map (spot_of a) result ≡ bytes_fault segments.now a 0 (flat_map (init_bytes (F.address names.now)) init.now) }
{
    let mut offset = 0;
    for item in init {
        if let Some(fault) = item_fault(segments, names, a, offset, item) {
            return Some(fault);
        }
        offset += item.size() as u32;
    }
    None
}
