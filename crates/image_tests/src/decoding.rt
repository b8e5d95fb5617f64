// Words of GNU as for the lines that stand beside them, placed at 10010008, and words of no instruction in use.
use ppc_decode::decoding::{decode, decode_encoded};
use ppc_decode::displacement::{
    displacement_16_between, displacement_16_in, displacement_26_between, displacement_26_in,
};
use ppc_decode::encoding::{encode, is_word, word_or_zero};
use ppc_decode::machine::Machine;
use ppc_decode::text::{has_mnemonic_of, text};
use std::test::Fail;

static LINES: [(u32, &str); 91] = [
    (0x1fe1_8000, "mulli 31,1,-32768"),
    (0x2064_7fff, "subfic 3,4,32767"),
    (0x30a0_ffff, "addic 5,0,-1"),
    (0x3860_0007, "addi 3,0,7"),
    (0x3d9f_1234, "addis 12,31,4660"),
    (0x6000_0000, "ori 0,0,0"),
    (0x643f_ffff, "oris 31,1,65535"),
    (0x6841_8000, "xori 1,2,32768"),
    (0x6c83_0001, "xoris 3,4,1"),
    (0x70c5_00ff, "andi. 5,6,255"),
    (0x7507_f000, "andis. 7,8,61440"),
    (0x7c22_1810, "subfc 1,2,3"),
    (0x7c85_3014, "addc 4,5,6"),
    (0x7ce8_4816, "mulhwu 7,8,9"),
    (0x7d4b_6050, "subf 10,11,12"),
    (0x7dae_7896, "mulhw 13,14,15"),
    (0x7e11_9110, "subfe 16,17,18"),
    (0x7e74_a914, "adde 19,20,21"),
    (0x7ed7_c1d6, "mullw 22,23,24"),
    (0x7f3a_da14, "add 25,26,27"),
    (0x7f9d_f396, "divwu 28,29,30"),
    (0x7fe0_0bd6, "divw 31,0,1"),
    (0x7c7f_00d0, "neg 3,31"),
    (0x7c85_0190, "subfze 4,5"),
    (0x7fe6_0194, "addze 31,6"),
    (0x7c41_1830, "slw 1,2,3"),
    (0x7ca4_3038, "and 4,5,6"),
    (0x7d07_4878, "andc 7,8,9"),
    (0x7d6a_60f8, "nor 10,11,12"),
    (0x7dcd_7a38, "eqv 13,14,15"),
    (0x7e30_9278, "xor 16,17,18"),
    (0x7e93_ab38, "orc 19,20,21"),
    (0x7ef6_c378, "or 22,23,24"),
    (0x7f59_dbb8, "nand 25,26,27"),
    (0x7fbc_f430, "srw 28,29,30"),
    (0x7c1f_0e30, "sraw 31,0,1"),
    (0x7c62_f839, "and. 2,3,31"),
    (0x7fe3_0034, "cntlzw 3,31"),
    (0x7ca4_0734, "extsh 4,5"),
    (0x7cdf_0774, "extsb 31,6"),
    (0x7c83_fe70, "srawi 3,4,31"),
    (0x5083_f83c, "rlwimi 3,4,31,0,30"),
    (0x54bf_103a, "rlwinm 31,5,2,0,29"),
    (0x8064_8000, "lwz 3,-32768,4"),
    (0x88bf_7fff, "lbz 5,32767,31"),
    (0xa3e1_0008, "lhz 31,8,1"),
    (0xa8e0_fffe, "lha 7,-2,0"),
    (0x9001_0008, "stw 0,8,1"),
    (0x9be2_ffff, "stb 31,-1,2"),
    (0xb07f_0004, "sth 3,4,31"),
    (0x7c64_282e, "lwzx 3,4,5"),
    (0x7cc7_40ae, "lbzx 6,7,8"),
    (0x7d2a_5a2e, "lhzx 9,10,11"),
    (0x7d8d_72ae, "lhax 12,13,14"),
    (0x7df0_8c2c, "lwbrx 15,16,17"),
    (0x7fe0_9e2c, "lhbrx 31,0,19"),
    (0x7c64_292e, "stwx 3,4,5"),
    (0x7cc7_41ae, "stbx 6,7,8"),
    (0x7d2a_5b2e, "sthx 9,10,11"),
    (0x7d8d_752c, "stwbrx 12,13,14"),
    (0x7fe0_8f2c, "sthbrx 31,0,17"),
    (0x7f83_f800, "cmpw 7,3,31"),
    (0x7c9f_2040, "cmplw 1,31,4"),
    (0x2f83_8000, "cmpwi 7,3,-32768"),
    (0x289f_ffff, "cmplwi 1,31,65535"),
    (0x4cdf_0182, "crxor 6,31,0"),
    (0x4fe6_2a42, "creqv 31,6,5"),
    (0x4c01_fb82, "cror 0,1,31"),
    (0x7fe8_02a6, "mflr 31"),
    (0x7c89_02a6, "mfctr 4"),
    (0x7c08_03a6, "mtlr 0"),
    (0x7d89_03a6, "mtctr 12"),
    (0x7c00_04ac, "sync"),
    (0x7c00_06ac, "eieio"),
    (0x4c00_012c, "isync"),
    (0x9421_fff0, "stwu 1,-16,1"),
    (0x7c21_616e, "stwux 1,1,12"),
    (0x7fe0_0026, "mfcr 31"),
    (0x49ff_fffc, "b 12010004"),
    (0x4a00_0001, "bl 0e010008"),
    (0x419f_7ffc, "bc 12,31,10018004"),
    (0x4082_8000, "bc 4,2,10008008"),
    (0x4200_fff8, "bdnz 10010000"),
    (0x4e80_0020, "blr"),
    (0x4e80_0420, "bctr"),
    (0x4e80_0421, "bctrl"),
    (0x7fe0_0008, "trap"),
    (0x7c00_0378, "or 0,0,0"),
    (0x7c00_0039, "and. 0,0,0"),
    (0x4182_0008, "bc 12,2,10010010"),
    (0x4800_fff9, "bl 10020000"),
];

/// The dotted `or`, BO 13, bdnz with a condition and with a bit, an absolute branch, the 64-bit comparison, and reserved bits or
/// other forms: `rlwinm.`, `blrl`, the XER as a special register, `addo`, `neg` with RB, another trap, a condition with LK.
static OTHERS: [u32; 15] = [
    0x7c00_0379,
    0x41a2_0008,
    0x4102_0008,
    0x4201_0008,
    0x4800_0002,
    0x2c23_0000,
    0x2c43_0000,
    0x54bf_103b,
    0x4e80_0021,
    0x7fe1_02a6,
    0x7f3a_de14,
    0x7c7f_08d0,
    0x7c80_0008,
    0x4182_0009,
    0xffff_ffff,
];

// The tables are handed out as slices of which no more is known, so that the proofs of the tests do not read them.

fn lines() -> &'static [(u32, &'static str)] {
    &LINES
}

fn others() -> &'static [u32] {
    &OTHERS
}

fn branches() -> &'static [(u32, u32, u32)] {
    &BRANCHES
}

fn conditional_branches() -> &'static [(u32, u32, u32)] {
    &CONDITIONAL_BRANCHES
}

#[test]
fn words_decode_and_print(rt: HostRuntime) -> Result<(), Fail> {
    for (word, line) in lines() {
        let word = *word;
        match decode(word) {
            Some(m) => {
                assert_eq!(rt; text(rt.alloc(), &m, 0x1001_0008)?.as_str(), *line);
                assert_eq!(rt; encode(&m), word);
                assert_eq!(rt; decode_encoded(&m), Some(m));
                assert_eq!(rt; word_or_zero(&m), word);
                assert!(rt; is_word(word, &m) && !is_word(word ^ 1, &m));
                assert!(rt; has_mnemonic_of(&m, word));
            }
            None => assert!(rt; false, "{word}"),
        }
    }
    for word in others() {
        assert_eq!(rt; decode(*word), None, "{word}");
    }
    Ok(())
}

/// Words of GNU as for a branch at the first address to the second.
static BRANCHES: [(u32, u32, u32); 6] = [
    (0x49ff_fffc, 0x1001_0008, 0x1201_0004),
    (0x4a00_0001, 0x1001_0008, 0x0e01_0008),
    (0x4800_fff9, 0x1001_0008, 0x1002_0000),
    (0x4bff_fffc, 0, 0xffff_fffc),
    (0x4800_0004, 0xffff_fffc, 0),
    (0x4800_0000, 0x1001_0008, 0x1001_0008),
];

/// The same of conditional branches.
static CONDITIONAL_BRANCHES: [(u32, u32, u32); 4] = [
    (0x419f_7ffc, 0x1001_0008, 0x1001_8004),
    (0x4082_8000, 0x1001_0008, 0x1000_8008),
    (0x4200_fff8, 0x1001_0008, 0x1001_0000),
    (0x4182_0008, 0xffff_fffc, 4),
];

#[test]
fn displacements_are_those_of_words(rt: HostRuntime) {
    for &(word, at, target) in branches() {
        assert_eq!(rt;
            displacement_26_in(word),
            displacement_26_between(at, target),
            "{word}"
        );
    }
    for &(word, at, target) in conditional_branches() {
        assert_eq!(rt;
            displacement_16_in(word),
            displacement_16_between(at, target),
            "{word}"
        );
    }
    assert_eq!(rt; displacement_26_in(0x4bff_fffd), -4);
    assert_eq!(rt; displacement_16_in(0x4182_0008), 8);
    // Targets one place out of reach, and one that is no multiple of 4.
    assert_eq!(rt; displacement_26_between(0, 0x0200_0000), -0x0200_0000);
    assert_eq!(rt; displacement_16_between(0x8004, 0), 0x7ffc);
    assert_eq!(rt; displacement_16_between(0x1000, 0x100b), 8);
}

static OUT_OF_RANGE: [Machine; 10] = [
    Machine::Alu(11, 0, 0, 0),
    Machine::Alu(8, 32, 0, 0),
    Machine::AluImm(3, 1, 2, 32768),
    Machine::LogImm(0, 1, 2, -1),
    Machine::Cmp(0, 8, 1, 2),
    Machine::CmpImm(1, 0, 1, -1),
    Machine::B(2),
    Machine::Bc(16, 1, 8),
    Machine::Bc(13, 2, 8),
    Machine::Bar(3),
];

fn out_of_range() -> &'static [Machine] {
    &OUT_OF_RANGE
}

#[test]
fn instructions_out_of_range_have_no_word(rt: HostRuntime) {
    for m in out_of_range() {
        assert!(rt; !m.fits() && !is_word(0x7c00_0214, m));
        assert_eq!(rt; word_or_zero(m), 0);
        assert!(rt; !has_mnemonic_of(m, 0x7c00_0214));
    }
    let addi = Machine::AluImm(3, 3, 0, 7);
    assert!(rt; has_mnemonic_of(&addi, 0x38a0_0001) && !has_mnemonic_of(&addi, 0x3d9f_1234));
    assert!(rt;
        !has_mnemonic_of(&addi, 0) && !has_mnemonic_of(&Machine::Bc(12, 2, 8), 0x4200_fff8)
    );
}
