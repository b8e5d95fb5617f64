//! What is shown of images.

use elf_view::ElfView;
use show_text::show_text;
use std::alloc::{AllocError, Global};
use std::process::Abort;
use std::test::Fail;

/// One segment of two words at 10010000, and two symbols.
static IMAGE: [u8; 252] = [
    0x7f, 0x45, 0x4c, 0x46, 1, 2, 1, 0, 0, 0, 0, 0, 0, 0, 0, 0, 0, 2, 0, 0x14, 0, 0, 0, 1, 0x10, 1,
    0, 0, 0, 0, 0, 0x34, 0, 0, 0, 0x84, 0, 0, 0, 0, 0, 0x34, 0, 0x20, 0, 1, 0, 0x28, 0, 3, 0, 0, 0,
    0, 0, 1, 0, 0, 0, 0x54, 0x10, 1, 0, 0, 0x10, 1, 0, 0, 0, 0, 0, 8, 0, 0, 0, 8, 0, 0, 0, 5, 0, 0,
    0, 4, 0x38, 0x60, 0, 7, 0x4e, 0x80, 0, 0x20, 0, 0x6d, 0x61, 0x69, 0x6e, 0, 0, 0, 0, 0, 0, 0, 0,
    0, 0, 0, 0, 0, 0, 0, 0, 0, 0, 0, 0, 0, 0, 1, 0x10, 1, 0, 0, 0, 0, 0, 8, 0x12, 0, 0xff, 0xf1, 0,
    0, 0, 0, 0, 0, 0, 0, 0, 0, 0, 0, 0, 0, 0, 0, 0, 0, 0, 0, 0, 0, 0, 0, 0, 0, 0, 0, 0, 0, 0, 0, 0,
    0, 0, 0, 0, 0, 0, 0, 0, 0, 0, 0, 0, 0, 0, 2, 0, 0, 0, 0, 0, 0, 0, 0, 0, 0, 0, 0x64, 0, 0, 0,
    0x20, 0, 0, 0, 2, 0, 0, 0, 1, 0, 0, 0, 4, 0, 0, 0, 0x10, 0, 0, 0, 0, 0, 0, 0, 3, 0, 0, 0, 0, 0,
    0, 0, 0, 0, 0, 0, 0x5c, 0, 0, 0, 6, 0, 0, 0, 0, 0, 0, 0, 0, 0, 0, 0, 1, 0, 0, 0, 0,
];

/// Five segments whose addresses do not rise.
static SCATTERED: [u8; 595] = [
    0x7f, 0x45, 0x4c, 0x46, 1, 2, 1, 0, 0, 0, 0, 0, 0, 0, 0, 0, 0, 2, 0, 0x14, 0, 0, 0, 1, 0xfe,
    0xa, 0, 4, 0, 0, 0, 0x34, 0, 0, 1, 0xdb, 0, 0, 0x80, 0, 0, 0x34, 0, 0x20, 0, 7, 0, 0x28, 0, 3,
    0, 1, 0, 0, 0, 1, 0, 0, 1, 0x96, 0xfe, 0xa, 0, 0, 0xf6, 0x23, 0x6b, 0xf2, 0, 0, 0, 0x10, 0, 0,
    0, 0x10, 0, 0, 0, 5, 0, 0, 0, 4, 0, 0, 0, 1, 0, 0, 1, 0x18, 0xfe, 0xd, 0, 0x20, 0x34, 0x6c,
    0x6e, 0x2b, 0, 0, 0, 1, 0, 0, 0, 1, 0, 0, 0, 2, 0, 0, 0, 4, 0, 0, 0, 1, 0, 0, 1, 0xa6, 0, 0,
    0xf, 0xe0, 0xb0, 0xcd, 0xe9, 0x17, 0, 0, 0, 0x35, 0, 0, 0, 0x38, 0, 0, 0, 2, 0, 0, 0, 4, 0, 0,
    0, 1, 0, 0, 1, 0x17, 0xfe, 0x1f, 0, 0, 0xe4, 0xcc, 0x41, 0x32, 0, 0, 0, 1, 0, 0, 0, 4, 0, 0, 0,
    6, 0, 0, 0, 4, 0, 0, 0, 1, 0, 0, 0, 0, 0xfe, 0xb, 0, 0, 5, 0x85, 0xa0, 0x1c, 0, 0, 0, 0, 0, 0,
    0, 1, 0, 0, 0, 0, 0, 0, 0, 4, 0x64, 0x74, 0xe5, 0x51, 0xff, 0xff, 0xff, 0xf0, 0, 0, 0, 0, 0, 0,
    0, 0, 0xff, 0xff, 0xff, 0xff, 0, 0, 0, 0, 0, 0, 0, 7, 0, 0, 0, 0, 0x64, 0x74, 0xe5, 0x51, 0xff,
    0xff, 0xff, 0xf0, 0, 0, 0, 0, 0, 0, 0, 0, 0xff, 0xff, 0xff, 0xff, 0, 0, 0, 0, 0, 0, 0, 7, 0, 0,
    0, 0, 0x8f, 0x5d, 0xc7, 0, 0, 0, 0, 0, 0, 0, 0, 0, 0, 0, 0, 0, 0, 0, 0, 0, 0, 0, 0, 0, 1, 0, 0,
    0x10, 0, 0, 0, 0, 4, 0x11, 1, 0, 1, 0, 0, 0, 6, 0xfe, 0xe, 0, 8, 0, 0, 0, 0, 0x12, 0, 0xff,
    0xf1, 0, 0, 0, 0xb, 0xfe, 0xe, 0, 0x1c, 0, 0, 0, 0, 0x22, 2, 0xff, 0xf1, 0, 0, 0, 0x10, 0xfe,
    0xe, 0, 0x14, 0, 0, 0, 0, 0x20, 3, 0xff, 0xf1, 0, 0, 0, 0x15, 0xfe, 0xd, 0, 0x20, 0, 0, 0, 4,
    0x11, 1, 0, 2, 0x40, 0x43, 0, 0, 0x76, 0x30, 0x5f, 0x30, 0, 0x65, 0x78, 0x74, 0x30, 0, 0x65,
    0x78, 0x74, 0x32, 0, 0x65, 0x78, 0x74, 0x31, 0, 0x63, 0x6f, 0x6d, 0x30, 0, 0, 0, 0, 0, 0x40,
    0x8e, 0, 4, 0x7d, 0x9e, 0xc8, 0, 0x60, 0, 0, 0, 0xae, 0x91, 0x69, 0x6e, 0x47, 0xc3, 0x92, 0x57,
    0x1d, 0xe0, 0xe1, 0x26, 0x93, 0x58, 0x66, 0xbb, 0x1e, 0xd5, 0xb9, 0x8a, 0x50, 0x88, 0x22, 0x26,
    0x20, 0xff, 0xde, 0xc9, 1, 0x34, 0xc5, 3, 0x5d, 0x15, 0x7d, 0xd4, 0xfe, 0xe, 0, 8, 0, 0, 0x10,
    0, 0x80, 0, 0, 0, 0, 0, 0, 0, 0, 0, 0, 0, 0, 0, 0, 0, 0, 0, 0, 0, 0, 0, 0, 0, 0, 0, 0, 0, 0, 0,
    0, 0, 0, 0, 0, 0, 0, 0, 0, 0, 0, 0, 0, 0, 0, 0, 0, 0, 0, 0, 0, 0, 0, 0, 0, 0, 3, 0, 0, 0, 0, 0,
    0, 0, 0, 0, 0, 1, 0x7c, 0, 0, 0, 0x1a, 0, 0, 0, 0, 0, 0, 0, 0, 0, 0, 0, 1, 0, 0, 0, 0, 0, 0, 0,
    0, 0, 0, 0, 2, 0, 0, 0, 0, 0, 1, 0, 0, 0, 0, 1, 0x19, 0, 0, 0, 0x60, 0, 0, 0, 1, 0, 0, 0, 1, 0,
    0, 0, 4, 0, 0, 0, 0x10,
];

/// Eight segments; code goes on from one into another in the middle of a word.
static CODE: [u8; 934] = [
    0x7f, 0x45, 0x4c, 0x46, 1, 2, 1, 0, 0, 0, 0, 0, 0, 0, 0, 0, 0, 2, 0, 0x14, 0, 0, 0, 1, 0x10, 5,
    0, 0x6c, 0, 0, 0, 0x34, 0, 0, 3, 6, 0, 0, 0, 0, 0, 0x34, 0, 0x20, 0, 9, 0, 0x28, 0, 4, 0, 2, 0,
    0, 0, 1, 0, 0, 2, 1, 0x10, 5, 0, 0x36, 6, 0x96, 0xf5, 0x61, 0, 0, 0, 0xc, 0, 0, 0, 0xc, 0, 0,
    0, 1, 0, 0, 0, 4, 0, 0, 0, 1, 0, 0, 2, 0xe, 0x10, 5, 0, 0x20, 0xac, 0xf7, 0xaf, 0x15, 0, 0, 0,
    0x16, 0, 0, 0, 0x16, 0, 0, 0, 1, 0, 0, 0, 4, 0, 0, 0, 1, 0, 0, 3, 0, 0x10, 2, 1, 0x19, 0xb,
    0x21, 0xbb, 0xba, 0, 0, 0, 6, 0, 0, 0, 6, 0, 0, 0, 7, 0, 0, 0, 4, 0, 0, 0, 1, 0, 0, 1, 0x7c,
    0x10, 2, 1, 0, 0x9b, 0x77, 0x40, 0x54, 0, 0, 0, 0x19, 0, 0, 0, 0x19, 0, 0, 0, 7, 0, 0, 0, 4, 0,
    0, 0, 1, 0, 0, 1, 0x54, 0x10, 0x1a, 0, 0, 0x38, 0x7b, 0xe8, 0xb8, 0, 0, 0, 0x1d, 0, 0, 0, 0x1d,
    0, 0, 0, 2, 0, 0, 0, 4, 0, 0, 0, 1, 0, 0, 1, 0x95, 0x10, 5, 0, 0x42, 0x46, 0x16, 0xe7, 0x3d, 0,
    0, 0, 0x36, 0, 0, 0, 0x36, 0, 0, 0, 1, 0, 0, 0, 4, 0, 0, 0, 1, 0, 0, 2, 0xf6, 0x10, 2, 1, 0x1f,
    0x6e, 0xf8, 0xb4, 0x34, 0, 0, 0, 9, 0, 0, 0, 9, 0, 0, 0, 7, 0, 0, 0, 4, 0, 0, 0, 1, 0, 0, 1,
    0x71, 0, 0, 0x10, 0, 0x7f, 0x90, 0x92, 0x5c, 0, 0, 0, 0xb, 0, 0, 0, 0xb, 0, 0, 0, 7, 0, 0, 0,
    4, 0x64, 0x74, 0xe5, 0x51, 0xff, 0xff, 0xff, 0xf0, 0, 0, 0, 0, 0, 0, 0, 0, 0xff, 0xff, 0xff,
    0xff, 0, 0, 0, 0, 0, 0, 0, 7, 0, 0, 0, 0, 0, 0, 0, 0, 0, 0, 0, 0, 0, 0, 0, 0, 0, 0, 0, 0, 0, 0,
    0, 0, 0, 0, 0, 0, 0, 0, 0, 0, 0, 0x10, 5, 0, 0x68, 0x38, 0xb, 0xfe, 0xca, 0x63, 0xbc, 0x6c, 0,
    0, 0, 0, 0, 0, 0, 0, 0, 0, 0, 0, 0, 0, 0, 0, 0, 0, 0, 0, 0xff, 0xff, 0xff, 0xff, 0x10, 0xff,
    0xff, 0x80, 0x21, 0, 0, 0x1e, 0x3d, 0, 0, 0x3d, 0x80, 0xff, 0xff, 0x61, 0x8c, 0, 0, 0x7c, 0x21,
    0x61, 0x6e, 0x7e, 0x48, 2, 0xa6, 0x64, 0x66, 0xb0, 0x98, 0x4e, 0x49, 3, 0x82, 0x51, 0xa7, 0x58,
    0x34, 0xb2, 0x47, 0x7f, 0xff, 0x3e, 0xe0, 0x10, 0x1a, 0x7f, 0x43, 0xb3, 0xd6, 0x4c, 0, 1, 0x2c,
    0xd6, 0xf0, 0xf4, 0, 0x63, 0x61, 0x66, 0xc3, 0xa9, 0, 0x5f, 0x5f, 0x73, 0x74, 0x72, 0x69, 0x6e,
    0x67, 0x6c, 0x69, 0x74, 0x5f, 0x32, 0, 0x66, 0x31, 0x5f, 0x30, 0, 0x76, 0x30, 0x5f, 0x31, 0,
    0x6d, 0x61, 0x69, 0x6e, 0, 0x74, 0x6d, 0x70, 0, 0x7a, 0x7a, 0, 0x65, 0x78, 0x74, 0x30, 0, 0xf,
    0x2a, 0x62, 0xff, 0xf1, 0x61, 0x8c, 0xe5, 0x18, 0x7c, 0x21, 0x61, 0x6e, 0x98, 0x8a, 0xb6, 0, 0,
    0, 0, 0x60, 0, 0, 0, 0x7f, 0x3b, 0x1b, 0x78, 0x7c, 0xc0, 0x76, 0x70, 0x3f, 0x40, 0x7f, 0xff,
    0x3d, 0x80, 0xc5, 0, 0, 0, 0, 0, 0, 0, 0, 0, 0, 0, 0, 0, 0, 0, 0, 0, 0, 0, 1, 0x66, 0x97, 0x93,
    0x23, 0, 0, 0, 0, 0x10, 3, 0, 1, 0, 0, 0, 7, 0x10, 0x1a, 0, 0x18, 0, 0, 0, 4, 1, 1, 0, 2, 0, 0,
    0, 0x15, 0xac, 5, 0x9a, 0x97, 0, 0, 0, 0, 0x10, 0, 0xff, 0xf2, 0, 0, 0, 0x1a, 0x10, 2, 1, 0x14,
    0, 0, 0, 0, 0x11, 1, 0, 1, 0, 0, 0, 0x1f, 0x10, 5, 0, 0x6c, 0, 0, 0, 0, 0x10, 3, 0, 1, 0, 0, 0,
    0x15, 0x10, 5, 0, 0x28, 0, 0, 0, 0, 0x10, 2, 0, 1, 0, 0, 0, 0x24, 0x10, 5, 0, 0x68, 0, 0, 0, 0,
    2, 1, 0, 0x4d, 0, 0, 0, 0x28, 0x76, 0xba, 0x8c, 0xd5, 0, 0, 0, 0, 0x10, 0, 0, 1, 0, 0, 0, 0x2b,
    0x10, 0x1f, 1, 0x10, 0, 0, 0, 0, 0x10, 1, 0xff, 0xf1, 0, 0, 0, 0x1f, 0x10, 5, 0, 0x6c, 0, 0, 0,
    0, 0x20, 2, 0, 0x4d, 0, 0, 0, 0x24, 0x79, 0xea, 5, 0xb9, 0, 0, 0, 0, 0xa0, 0, 0, 1, 0, 0, 0,
    0x15, 0x10, 5, 0, 0x28, 0, 0, 0, 4, 0x22, 0, 0, 1, 0x3a, 0, 0, 0, 0, 0, 0, 0, 0, 0, 0x78, 0x1b,
    0, 0x18, 0, 0, 0, 0, 0, 0, 0, 0, 0, 0, 0, 0, 0, 0, 0, 0, 0, 0, 0, 0, 0, 0, 0, 0, 0, 0, 0, 0, 0,
    0, 0, 0, 0, 0, 0, 0, 0, 0, 0, 0, 0, 0, 0, 0, 0, 0, 0x2e, 0, 0, 0, 7, 0, 0, 0, 0, 0, 0, 0, 0,
    0x80, 0, 0xcb, 0x60, 0, 0, 0, 5, 0, 0, 0, 9, 0, 0, 0, 9, 0, 0, 0, 1, 0, 0, 0, 7, 0, 0, 0, 0, 0,
    0, 0, 3, 0, 0, 0, 0, 0, 0, 0, 0, 0, 0, 1, 0xce, 0, 0, 0, 0x30, 0, 0, 0, 0, 0, 0, 0, 0, 0, 0, 0,
    1, 0, 0, 0, 0, 0, 0, 0, 0, 0, 0, 0, 2, 0, 0, 0, 0, 0, 0, 0, 0, 0, 0, 2, 0x25, 0, 0, 0, 0xd0, 0,
    0, 0, 2, 0, 0, 0, 1, 0, 0, 0, 4, 0, 0, 0, 0x10,
];

fn image() -> &'static [u8] {
    &IMAGE
}

/// The image with another byte at a place.
fn image_with(alloc: Global, place: usize, byte: u8) -> Result<Vec<u8>, AllocError> {
    let mut bytes = image().to_vec(alloc)?;
    if let Some(old) = bytes.get_mut(place) {
        *old = byte;
    }
    Ok(bytes)
}

/// The image with another second word of code.
fn image_with_word(alloc: Global, word: u32) -> Result<Vec<u8>, AllocError> {
    let mut bytes = image().to_vec(alloc)?;
    for (i, byte) in word.to_be_bytes().iter().enumerate() {
        if let Some(old) = bytes.get_mut(88 + i) {
            *old = *byte;
        }
    }
    Ok(bytes)
}

fn assert_shown(
    rt: &impl Abort,
    alloc: Global,
    bytes: &[u8],
    address: u32,
    count: u32,
    wanted: &str,
) -> Result<(), Fail> {
    let view = ElfView::read(bytes).ok().ok_or("an image")?;
    let text = show_text(alloc, &view, address, count)?;
    assert_eq!(rt; text.as_str(), wanted);
    Ok(())
}

#[test]
fn shows_words(rt: HostRuntime) -> Result<(), Fail> {
    let head = "entry 10010000\nsegment 10010000 8 8 r-x\nsymbols 2\n";
    let table = [
        (
            0x1001_0000,
            3,
            "10010000 38600007 addi 3,0,7\n10010004 4e800020 blr\n10010008 none\n",
        ),
        (
            0x1000_fffc,
            2,
            "1000fffc none\n10010000 38600007 addi 3,0,7\n",
        ),
        (0xffff_fff8, 4, "fffffff8 none\nfffffffc none\n"),
        (0xffff_fffc, 65_536, "fffffffc none\n"),
        (0x1001_0000, 0, ""),
    ];
    for (address, count, words) in table {
        let wanted = format!(in rt.alloc(); "{head}{words}")?;
        assert_shown(&rt, rt.alloc(), image(), address, count, &wanted)?;
    }
    Ok(())
}

/// A segment's flags stand in the word at 76. System V gABI, "Program Header".
#[test]
fn shows_flags(rt: HostRuntime) -> Result<(), Fail> {
    let table = [
        (79, 0, "---"),
        (79, 1, "--x"),
        (79, 2, "-w-"),
        (79, 3, "-wx"),
        (79, 4, "r--"),
        (79, 5, "r-x"),
        (79, 6, "rw-"),
        (79, 7, "rwx"),
        (79, 0xfa, "-w-"),
        (76, 0xf0, "r-x"),
    ];
    for (place, byte, flags) in table {
        let bytes = image_with(rt.alloc(), place, byte)?;
        let wanted = format!(in rt.alloc();
            "entry 10010000\nsegment 10010000 8 8 {flags}\nsymbols 2\n"
        )?;
        assert_shown(&rt, rt.alloc(), &bytes, 0x1001_0000, 0, &wanted)?;
    }
    Ok(())
}

/// The second word stands at 10010004.
#[test]
fn shows_instructions(rt: HostRuntime) -> Result<(), Fail> {
    let table = [
        (0x6000_0000, "ori 0,0,0"),
        (0x2400_6038, "?"),
        (0x7c00_0379, "?"),
        (0x7c00_0039, "and. 0,0,0"),
        (0x7c64_2a14, "add 3,4,5"),
        (0x8001_0008, "lwz 0,8,1"),
        (0x9421_fff0, "stwu 1,-16,1"),
        (0x7c21_616e, "stwux 1,1,12"),
        (0x4182_0008, "bc 12,2,1001000c"),
        (0x41a2_0008, "?"),
        (0x4200_fffc, "bdnz 10010000"),
        (0x4800_0000, "b 10010004"),
        (0x4800_0002, "?"),
        (0x4a00_0000, "b 0e010004"),
        (0x4800_fff9, "bl 1001fffc"),
        (0x7fe0_0008, "trap"),
        (0x4c00_012c, "isync"),
    ];
    for (word, instruction) in table {
        let bytes = image_with_word(rt.alloc(), word)?;
        let wanted = format!(in rt.alloc();
            "entry 10010000\nsegment 10010000 8 8 r-x\nsymbols 2\n10010004 {word:08x} {instruction}\n"
        )?;
        assert_shown(&rt, rt.alloc(), &bytes, 0x1001_0004, 1, &wanted)?;
    }
    Ok(())
}

fn scattered() -> &'static [u8] {
    &SCATTERED
}

fn code() -> &'static [u8] {
    &CODE
}

/// The texts are those of an implementation that was written apart.
#[test]
fn shows_segments_in_the_order_of_their_headers(rt: HostRuntime) -> Result<(), Fail> {
    let table = [
        (
            scattered(),
            0xfe1efff8,
            4,
            "entry fe0a0004\nsegment fe0a0000 16 16 r-x\nsegment fe0d0020 1 1 -w-\nsegment 00000fe0 53 56 -w-\nsegment fe1f0000 1 4 rw-\nsegment fe0b0000 0 1 ---\nsymbols 6\nfe1efff8 none\nfe1efffc none\nfe1f0000 00000000 ?\nfe1f0004 none\n",
        ),
        (
            scattered(),
            0xfe1efff8,
            0,
            "entry fe0a0004\nsegment fe0a0000 16 16 r-x\nsegment fe0d0020 1 1 -w-\nsegment 00000fe0 53 56 -w-\nsegment fe1f0000 1 4 rw-\nsegment fe0b0000 0 1 ---\nsymbols 6\n",
        ),
        (
            code(),
            0x10050034,
            20,
            "entry 1005006c\nsegment 10050036 12 12 --x\nsegment 10050020 22 22 --x\nsegment 10020119 6 6 rwx\nsegment 10020100 25 25 rwx\nsegment 101a0000 29 29 -w-\nsegment 10050042 54 54 --x\nsegment 1002011f 9 9 rwx\nsegment 00001000 11 11 rwx\nsymbols 13\n10050034 3d80fff1 addis 12,0,-15\n10050038 618ce518 ori 12,12,58648\n1005003c 7c21616e stwux 1,1,12\n10050040 988affff stb 4,-1,10\n10050044 80210000 lwz 1,0,1\n10050048 1e3d0000 mulli 17,29,0\n1005004c 3d80ffff addis 12,0,-1\n10050050 618c0000 ori 12,12,0\n10050054 7c21616e stwux 1,1,12\n10050058 7e4802a6 mflr 18\n1005005c 6466b098 oris 6,3,45208\n10050060 4e490382 cror 18,9,0\n10050064 51a75834 rlwimi 7,13,11,0,26\n10050068 b2477fff sth 18,32767,7\n1005006c 3ee0101a addis 23,0,4122\n10050070 7f43b3d6 divw 26,3,22\n10050074 4c00012c isync\n10050078 none\n1005007c none\n10050080 none\n",
        ),
    ];
    for (bytes, address, count, wanted) in table {
        assert_shown(&rt, rt.alloc(), bytes, address, count, wanted)?;
    }
    Ok(())
}
