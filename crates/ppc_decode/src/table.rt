// The rows of the table of instructions: opcodes and mnemonics by their places in a class.

/// Primary opcodes.
pub(crate) const ALU_IMM: [u16; 5] = [7, 8, 12, 14, 15];

pub(crate) const LOG_IMM: [u16; 6] = [24, 25, 26, 27, 28, 29];

pub(crate) const ROT: [u16; 2] = [20, 21];

pub(crate) const LOAD: [u16; 4] = [32, 34, 40, 42];

pub(crate) const STORE: [u16; 3] = [36, 38, 44];

pub(crate) const CMP_IMM: [u16; 2] = [11, 10];

pub(crate) const STWU: u16 = 37;

pub(crate) const BRANCH: u16 = 18;

pub(crate) const BRANCH_CONDITIONAL: u16 = 16;

/// Extended opcodes behind the primary opcode 31.
pub(crate) const ALU: [u16; 11] = [8, 10, 11, 40, 75, 136, 138, 235, 266, 459, 491];

pub(crate) const ALU2: [u16; 3] = [104, 200, 202];

pub(crate) const LOG2: [u16; 3] = [26, 922, 954];

pub(crate) const LOAD_X: [u16; 6] = [23, 87, 279, 343, 534, 790];

pub(crate) const STORE_X: [u16; 5] = [151, 215, 407, 662, 918];

pub(crate) const CMP: [u16; 2] = [0, 32];

pub(crate) const LOG: [u16; 12] = [24, 28, 60, 124, 284, 316, 412, 444, 476, 536, 792, 28];

/// The record bits of `LOG`: the last is `and.`.
pub(crate) const LOG_RECORD_BITS: [u8; 12] = [0, 0, 0, 0, 0, 0, 0, 0, 0, 0, 0, 1];

/// The place of `and.` in `LOG`.
pub(crate) const AND_DOT: u8 = 11;

pub(crate) const SRAWI: u16 = 824;

pub(crate) const STWUX: u16 = 183;

pub(crate) const MFCR: u16 = 19;

pub(crate) const MOVE: [u16; 4] = [339, 339, 467, 467];

/// The special registers of `MOVE`: LR is 8, CTR is 9.
pub(crate) const MOVE_REGISTERS: [u8; 4] = [8, 9, 8, 9];

/// Extended opcodes behind the primary opcode 19.
pub(crate) const CR_BIT: [u16; 3] = [193, 289, 449];

/// Whole words.
pub(crate) const BAR: [u32; 3] = [0x7c00_04ac, 0x7c00_06ac, 0x4c00_012c];

pub(crate) const BLR: u32 = 0x4e80_0020;

pub(crate) const BCTR: u32 = 0x4e80_0420;

pub(crate) const BCTRL: u32 = 0x4e80_0421;

pub(crate) const TRAP: u32 = 0x7fe0_0008;

/// Mnemonics.
pub(crate) const ALU_IMM_NAMES: [&str; 5] = ["mulli", "subfic", "addic", "addi", "addis"];

pub(crate) const LOG_IMM_NAMES: [&str; 6] = ["ori", "oris", "xori", "xoris", "andi.", "andis."];

pub(crate) const ALU_NAMES: [&str; 11] = [
    "subfc", "addc", "mulhwu", "subf", "mulhw", "subfe", "adde", "mullw", "add", "divwu", "divw",
];

pub(crate) const ALU2_NAMES: [&str; 3] = ["neg", "subfze", "addze"];

pub(crate) const LOG_NAMES: [&str; 12] = [
    "slw", "and", "andc", "nor", "eqv", "xor", "orc", "or", "nand", "srw", "sraw", "and.",
];

pub(crate) const LOG2_NAMES: [&str; 3] = ["cntlzw", "extsh", "extsb"];

pub(crate) const ROT_NAMES: [&str; 2] = ["rlwimi", "rlwinm"];

pub(crate) const LOAD_NAMES: [&str; 4] = ["lwz", "lbz", "lhz", "lha"];

pub(crate) const STORE_NAMES: [&str; 3] = ["stw", "stb", "sth"];

pub(crate) const LOAD_X_NAMES: [&str; 6] = ["lwzx", "lbzx", "lhzx", "lhax", "lwbrx", "lhbrx"];

pub(crate) const STORE_X_NAMES: [&str; 5] = ["stwx", "stbx", "sthx", "stwbrx", "sthbrx"];

pub(crate) const CMP_NAMES: [&str; 2] = ["cmpw", "cmplw"];

pub(crate) const CMP_IMM_NAMES: [&str; 2] = ["cmpwi", "cmplwi"];

pub(crate) const CR_BIT_NAMES: [&str; 3] = ["crxor", "creqv", "cror"];

pub(crate) const MOVE_NAMES: [&str; 4] = ["mflr", "mfctr", "mtlr", "mtctr"];

pub(crate) const BAR_NAMES: [&str; 3] = ["sync", "eieio", "isync"];
