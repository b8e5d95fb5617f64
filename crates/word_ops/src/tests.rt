// Values worked from the formulas of the Power ISA and the EABI with other means.
ghost use Rattle.std.specs.Prelude.{◌≡◌};

use crate::hexadecimal::Hexadecimal;
use crate::range::Range;
use crate::steps::Steps;
use crate::words::{
    carry_add, clz, ha, hi, is_less_signed, lo, mask, mulh_s, mulh_u, power_of_two, rotl, sext8,
    sext16, sext26, sum_of_three,
};
use std::marker::Brand;
use std::sync::ledger::{Blank, Ledger};

/// An address, its adjusted high half, its high half, its low half, and that half sign-extended.
static HALVES: [(u32, u32, u32, u32, u32); 7] = [
    (0x0000_8000, 1, 0, 0x8000, 0xffff_8000),
    (0x1234_8765, 0x1235, 0x1234, 0x8765, 0xffff_8765),
    (0xffff_7fff, 0xffff, 0xffff, 0x7fff, 0x0000_7fff),
    (0xffff_8000, 0, 0xffff, 0x8000, 0xffff_8000),
    (0x01ff_ffff, 0x200, 0x1ff, 0xffff, 0xffff_ffff),
    (0x0200_0000, 0x200, 0x200, 0, 0),
    (0, 0, 0, 0, 0),
];

/// A word, its low 26 bits sign-extended, and the number of its leading zeros.
static BITS: [(u32, u32, u32); 7] = [
    (0x0000_8000, 0x0000_8000, 16),
    (0x1234_8765, 0xfe34_8765, 3),
    (0xffff_7fff, 0xffff_7fff, 0),
    (0xffff_8000, 0xffff_8000, 0),
    (0x01ff_ffff, 0x01ff_ffff, 7),
    (0x0200_0000, 0xfe00_0000, 6),
    (0, 0, 32),
];

/// Two words, and the high words of their products with and without a sign.
static PRODUCTS: [(u32, u32, u32, u32); 4] = [
    (0xffff_ffff, 0xffff_ffff, 0, 0xffff_fffe),
    (0x8000_0000, 0x8000_0000, 0x4000_0000, 0x4000_0000),
    (3, 0xffff_fffe, 0xffff_ffff, 2),
    (0x1234_5678, 0x9abc_def0, 0xf8cc_93d6, 0x0b00_ea4e),
];

/// The ends of a mask, and the mask.
static MASKS: [(u32, u32, u32); 10] = [
    (0, 29, 0xffff_fffc),
    (31, 0, 0x8000_0001),
    (24, 7, 0xff00_00ff),
    (5, 4, 0xffff_ffff),
    (0, 32, 0xffff_ffff),
    (3, 0xffff_ffff, 0x1fff_ffff),
    (32, 40, 0),
    (40, 3, 0xf000_0000),
    (32, 31, 0xffff_ffff),
    (0xffff_ffff, 0xffff_ffff, 0),
];

/// A word, a number of places, and the word rotated by it.
static ROTATIONS: [(u32, u32, u32); 3] = [
    (0x1234_5678, 8, 0x3456_7812),
    (0x8000_0001, 31, 0xc000_0000),
    (0x1234_5678, 36, 0x2345_6781),
];

/// Three words, and their sum with its carry.
static SUMS: [(u32, u32, u32, (u32, u32)); 3] = [
    (0xffff_ffff, 0xffff_ffff, 0xffff_ffff, (0xffff_fffd, 2)),
    (0xffff_ffff, 0, 1, (0, 1)),
    (1, 2, 3, (6, 0)),
];

// The tables are handed out as slices of which no more is known, so that the proofs of the tests do not read them.

fn halves() -> &'static [(u32, u32, u32, u32, u32)] {
    &HALVES
}

fn bits() -> &'static [(u32, u32, u32)] {
    &BITS
}

fn products() -> &'static [(u32, u32, u32, u32)] {
    &PRODUCTS
}

fn masks() -> &'static [(u32, u32, u32)] {
    &MASKS
}

fn rotations() -> &'static [(u32, u32, u32)] {
    &ROTATIONS
}

fn sums() -> &'static [(u32, u32, u32, (u32, u32))] {
    &SUMS
}

#[test]
fn halves_have_these_values(rt: HostRuntime) {
    for &(a, adjusted, high, low, extended) in halves() {
        assert_eq!(rt; (ha(a), hi(a), lo(a)), (adjusted, high, low), "{a}");
        assert_eq!(rt; sext16(a), extended, "sext16 {a}");
    }
    for &(a, extended, zeros) in bits() {
        assert_eq!(rt; sext26(a), extended, "sext26 {a}");
        assert_eq!(rt; clz(a), zeros, "clz {a}");
    }
}

#[test]
fn products_and_masks_have_these_values(rt: HostRuntime) {
    for &(a, b, signed, unsigned) in products() {
        assert_eq!(rt; mulh_s(a, b), signed, "mulh_s {a} {b}");
        assert_eq!(rt; mulh_u(a, b), unsigned, "mulh_u {a} {b}");
    }
    for &(first, last, ones) in masks() {
        assert_eq!(rt; mask(first, last), ones, "mask {first} {last}");
    }
    for &(a, n, rotated) in rotations() {
        assert_eq!(rt; rotl(a, n), rotated, "rotl {a} {n}");
    }
}

#[test]
fn sums_and_signs_have_these_values(rt: HostRuntime) {
    for &(x, y, z, sum) in sums() {
        assert_eq!(rt; sum_of_three(x, y, z), sum);
    }
    assert_eq!(rt; sext8(0x1234_5680), 0xffff_ff80);
    assert_eq!(rt; sext8(0xffff_ff7f), 0x7f);
    assert!(rt; is_less_signed(0x8000_0000, 0x7fff_ffff));
    assert!(rt; is_less_signed(0xffff_ffff, 0) && !is_less_signed(0, 0xffff_ffff));
    assert_eq!(rt; (power_of_two(0), power_of_two(32)), (1, 0x1_0000_0000));
    assert_eq!(rt; carry_add(0xffff_ffff, 0, true), (0, true));
    assert_eq!(rt;
        carry_add(0x7fff_ffff, 0x8000_0000, false),
        (0xffff_ffff, false)
    );
}

/// Two ranges; whether they meet, and whether the first lies inside the second.
static RANGES: [((u64, u64), (u64, u64), bool, bool); 10] = [
    ((0x10, 0x20), (0x1f, 0x30), true, false),
    ((0x10, 0x20), (0x20, 0x30), false, false),
    ((0x18, 0x20), (0x10, 0x20), true, true),
    ((0x10, 0x20), (0x18, 0x20), true, false),
    ((0x10, 0x10), (0x10, 0x20), false, true),
    ((0x18, 0x18), (0x10, 0x20), false, true),
    ((0x10, 0x20), (0x18, 0x18), false, false),
    (
        (0, 0x1_0000_0000),
        (0xffff_ffff, 0x1_0000_0000),
        true,
        false,
    ),
    (
        (0xffff_ff00, 0xffff_fff0),
        (0xffff_fff0, 0x1_0000_0000),
        false,
        false,
    ),
    (
        (0x1_0000_0000, 0x1_0000_0000),
        (0, 0x1_0000_0000),
        false,
        true,
    ),
];

fn ranges() -> &'static [((u64, u64), (u64, u64), bool, bool)] {
    &RANGES
}

#[test]
fn ranges_meet_and_lie_inside(rt: HostRuntime) {
    for &((lo, hi), (from, to), meet, inside) in ranges() {
        let (Some(range), Some(area)) = (Range::new(lo, hi), Range::new(from, to)) else {
            assert!(rt; false, "{lo} {hi} {from} {to}");
            return;
        };
        assert_eq!(rt; range.meets(&area), meet, "{lo} {hi} {from} {to}");
        assert_eq!(rt; area.meets(&range), meet, "{lo} {hi} {from} {to}");
        assert_eq!(rt; range.is_inside(&area), inside, "{lo} {hi} {from} {to}");
    }
}

/// The ends of a range, an address, and whether it is one of the range.
static ADDRESSES: [(u64, u64, u32, bool); 6] = [
    (0x10, 0xffff_fff0, 0x10, true),
    (0x10, 0xffff_fff0, 0xffff_ffef, true),
    (0x10, 0xffff_fff0, 0xffff_fff0, false),
    (0x10, 0xffff_fff0, 0xf, false),
    (0x10, 0x10, 0x10, false),
    (0xffff_fff0, 0x1_0000_0000, 0xffff_ffff, true),
];

fn addresses() -> &'static [(u64, u64, u32, bool)] {
    &ADDRESSES
}

#[test]
fn ranges_hold_addresses_and_words_print(rt: HostRuntime) -> Result<(), std::test::Fail> {
    for &(lo, hi, a, held) in addresses() {
        match Range::new(lo, hi) {
            Some(range) => assert_eq!(rt; range.contains(a), held, "{lo} {hi} {a}"),
            None => assert!(rt; false, "{lo} {hi}"),
        }
    }
    assert_eq!(rt; Range::new(0, 0x1_0000_0001), None);
    assert_eq!(rt; Range::new(5, 4), None);
    let shown = format!(in rt.alloc(); "{}", Hexadecimal(0x0a01_f008))?;
    assert_eq!(rt; shown.as_str(), "0a01f008");
    Ok(())
}

fn steps_of_two<L: Ledger>(blank: Blank)
    requires name { blank.name ≡ L.name }
    requires parts { blank.parts ≡ L.parts }
    requires one { blank.parts ≡ 1 }
{
    let mut steps: Steps<L> = Steps::new(blank);
    steps.tick();
    steps.tick();
}

#[test]
fn steps_are_made_from_a_blank() {
    steps_of_two::<Brand>(Blank::new(1));
}
