//! Expected values stand by the rules of the machine: a word is four bytes, the highest first, another value four parts, and
//! a byte more or less than a whole value gives none.

use asm_mem::blocks::Blocks;
use asm_mem::value::{Val, sum_of};
use std::alloc::{AllocError, Global};
use std::test::Fail;

/// A store of so many bytes, in order or reversed.
#[derive(Clone, Copy, Debug, Drop)]
enum Store {
    Nothing,
    Byte,
    Half,
    Word,
    ReversedHalf,
    ReversedWord,
}

fn is_stored(blocks: &mut Blocks, form: Store, at: Val, v: Val) -> bool {
    match form {
        Store::Nothing => true,
        Store::Byte => blocks.store(1, at, v),
        Store::Half => blocks.store(2, at, v),
        Store::Word => blocks.store(4, at, v),
        Store::ReversedHalf => blocks.store_reversed(2, at, v),
        Store::ReversedWord => blocks.store_reversed(4, at, v),
    }
}

/// The byte, the half and the word at a place, and the reversed half and word.
fn loads(blocks: &Blocks, at: Val) -> [Option<Val>; 5] {
    [
        blocks.load(1, at),
        blocks.load(2, at),
        blocks.load(4, at),
        blocks.load_reversed(2, at),
        blocks.load_reversed(4, at),
    ]
}

/// What these loads give.
#[derive(Clone, Copy, Drop)]
enum Seen {
    /// A word each: of the byte, the half and the word, and of the reversed half and word.
    Words(u32, u32, u32, u32, u32),
    /// Of the byte, the half and the reversed half.
    Halves(u32, u32, u32),
    Byte(u32),
    /// A value at the whole width alone.
    Whole(Val),
    Unknown,
}

fn wanted(seen: Seen) -> [Option<Val>; 5] {
    let no = Val::Undef;
    let (byte, half, word, reversed_half, reversed) = match seen {
        Seen::Words(a, b, c, d, e) => (
            Val::Int(a),
            Val::Int(b),
            Val::Int(c),
            Val::Int(d),
            Val::Int(e),
        ),
        Seen::Halves(a, b, c) => (Val::Int(a), Val::Int(b), no, Val::Int(c), no),
        Seen::Byte(a) => (Val::Int(a), no, no, no, no),
        Seen::Whole(v) => (no, no, v, no, no),
        Seen::Unknown => (no, no, no, no, no),
    };
    [
        Some(byte),
        Some(half),
        Some(word),
        Some(reversed_half),
        Some(reversed),
    ]
}

const WORD: Val = Val::Int(0x1234_5678);

const POINTER: Val = Val::Ptr(0, 8);

const HIGH: Val = Val::Ha(3, -4, 16);

/// What is stored at 4, what is stored over it, and what is loaded from there.
static STORED: [(Store, Val, Store, Val, Seen); 20] = [
    (Store::Nothing, WORD, Store::Nothing, WORD, Seen::Unknown),
    (
        Store::Word,
        WORD,
        Store::Nothing,
        WORD,
        Seen::Words(0x12, 0x1234, 0x1234_5678, 0x3412, 0x7856_3412),
    ),
    (
        Store::ReversedWord,
        WORD,
        Store::Nothing,
        WORD,
        Seen::Words(0x78, 0x7856, 0x7856_3412, 0x5678, 0x1234_5678),
    ),
    (
        Store::Half,
        WORD,
        Store::Nothing,
        WORD,
        Seen::Halves(0x56, 0x5678, 0x7856),
    ),
    (
        Store::ReversedHalf,
        WORD,
        Store::Nothing,
        WORD,
        Seen::Halves(0x78, 0x7856, 0x5678),
    ),
    (Store::Byte, WORD, Store::Nothing, WORD, Seen::Byte(0x78)),
    (
        Store::Word,
        POINTER,
        Store::Nothing,
        WORD,
        Seen::Whole(POINTER),
    ),
    (
        Store::Word,
        Val::Code(7, 0),
        Store::Nothing,
        WORD,
        Seen::Whole(Val::Code(7, 0)),
    ),
    (
        Store::Word,
        Val::Ext(2, 4),
        Store::Nothing,
        WORD,
        Seen::Whole(Val::Ext(2, 4)),
    ),
    (
        Store::Word,
        Val::Stop,
        Store::Nothing,
        WORD,
        Seen::Whole(Val::Stop),
    ),
    (Store::Word, HIGH, Store::Nothing, WORD, Seen::Whole(HIGH)),
    (Store::Word, WORD, Store::Word, Val::Undef, Seen::Unknown),
    (
        Store::Word,
        WORD,
        Store::Word,
        POINTER,
        Seen::Whole(POINTER),
    ),
    (Store::Word, WORD, Store::Half, POINTER, Seen::Unknown),
    (
        Store::Word,
        WORD,
        Store::ReversedWord,
        POINTER,
        Seen::Unknown,
    ),
    (
        Store::Word,
        WORD,
        Store::ReversedHalf,
        POINTER,
        Seen::Unknown,
    ),
    (
        Store::Word,
        WORD,
        Store::Byte,
        Val::Int(0xff),
        Seen::Words(0xff, 0xff34, 0xff34_5678, 0x34ff, 0x7856_34ff),
    ),
    (
        Store::Word,
        POINTER,
        Store::Byte,
        Val::Int(0x105),
        Seen::Byte(5),
    ),
    (
        Store::Word,
        POINTER,
        Store::Half,
        WORD,
        Seen::Halves(0x56, 0x5678, 0x7856),
    ),
    (Store::Word, POINTER, Store::Word, HIGH, Seen::Whole(HIGH)),
];

fn stored() -> &'static [(Store, Val, Store, Val, Seen)] {
    &STORED
}

#[test]
fn loads_of_what_was_stored(rt: HostRuntime) -> Result<(), Fail> {
    for (first, u, second, v, seen) in stored() {
        let mut blocks = Blocks::new(rt.alloc());
        let at = Val::Ptr(blocks.alloc_block(12, true)?, 4);
        assert!(rt;
            is_stored(&mut blocks, *first, at, *u) && is_stored(&mut blocks, *second, at, *v)
        );
        assert_eq!(rt; loads(&blocks, at), wanted(*seen), "{first:?} {second:?}");
    }
    Ok(())
}

/// Block 0 with 12 cells that are writable, 1 with 8 that are not, and 2 that was freed. All cells of the first two are bytes.
fn three_blocks(alloc: Global) -> Result<Blocks, AllocError> {
    let mut blocks = Blocks::new(alloc);
    blocks.alloc_block(12, true)?;
    blocks.alloc_block(8, false)?;
    blocks.alloc_block(16, true)?;
    blocks.free_top();
    for o in 0..12 {
        blocks.set_byte(0, o, Some(1));
        blocks.set_byte(1, o, Some(1));
    }
    Ok(blocks)
}

/// Whether a byte, a half and a word may be loaded, and whether the block may be stored to.
static PLACES: [(Val, bool, bool, bool, bool); 17] = [
    (Val::Ptr(0, 0), true, true, true, true),
    (Val::Ptr(0, 1), true, false, false, true),
    (Val::Ptr(0, 2), true, true, false, true),
    (Val::Ptr(0, 8), true, true, true, true),
    (Val::Ptr(0, 10), true, true, false, true),
    (Val::Ptr(0, 12), false, false, false, true),
    (Val::Ptr(0, 0xffff_fffc), false, false, false, true),
    (Val::Ptr(1, 4), true, true, true, false),
    (Val::Ptr(1, 8), false, false, false, false),
    (Val::Ptr(2, 0), false, false, false, true),
    (Val::Ptr(3, 0), false, false, false, true),
    (Val::Int(0), false, false, false, true),
    (Val::Undef, false, false, false, true),
    (Val::Code(0, 0), false, false, false, true),
    (Val::Ext(0, 0), false, false, false, true),
    (Val::Stop, false, false, false, true),
    (Val::Ha(0, 0, 0), false, false, false, true),
];

fn places() -> &'static [(Val, bool, bool, bool, bool)] {
    &PLACES
}

#[test]
fn accesses_that_are_undefined(rt: HostRuntime) -> Result<(), Fail> {
    let mut blocks = three_blocks(rt.alloc())?;
    for (at, byte, half, word, writable) in places() {
        let found = loads(&blocks, *at);
        let some = [
            found[0].is_some(),
            found[1].is_some(),
            found[2].is_some(),
            found[3].is_some(),
            found[4].is_some(),
        ];
        assert_eq!(rt; some, [*byte, *half, *word, *half, *word], "{at:?}");
        assert_eq!(rt;
            is_stored(&mut blocks, Store::Byte, *at, Val::Int(1)),
            *byte && *writable,
            "{at:?}"
        );
        assert_eq!(rt;
            is_stored(&mut blocks, Store::ReversedHalf, *at, Val::Int(257)),
            *half && *writable,
            "{at:?}"
        );
        assert_eq!(rt;
            is_stored(&mut blocks, Store::Word, *at, Val::Int(0x0101_0101)),
            *word && *writable,
            "{at:?}"
        );
    }
    Ok(())
}

fn comparison(answer: u8) -> (Val, Val, Val) {
    match answer {
        b'<' => (Val::Int(1), Val::Int(0), Val::Int(0)),
        b'>' => (Val::Int(0), Val::Int(1), Val::Int(0)),
        b'=' => (Val::Int(0), Val::Int(0), Val::Int(1)),
        b'#' => (Val::Undef, Val::Undef, Val::Int(0)),
        _ => (Val::Undef, Val::Undef, Val::Undef),
    }
}

/// A value, and its comparison with each value of this table: less, greater, equal, not equal (#), or not known.
static COMPARED: [(Val, &str); 18] = [
    (Val::Undef, ".................."),
    (Val::Int(0), ".=<<<<.<<.<<.<<..."),
    (Val::Int(1), ".>=<.............."),
    (Val::Int(0xffff_ffff), ".>>=.............."),
    (Val::Ptr(0, 0), ".>..=<.#.........."),
    (Val::Ptr(0, 12), ".>..>=............"),
    (Val::Ptr(0, 13), ".................."),
    (Val::Ptr(1, 0), ".>..#..=<........."),
    (Val::Ptr(1, 8), ".>.....>=........."),
    (Val::Ptr(2, 0), ".................."),
    (Val::Code(0, 0), ".>........=#......"),
    (Val::Code(1, 0), ".>........#=......"),
    (Val::Code(0, 1), ".................."),
    (Val::Ext(3, 0), ".>...........=...."),
    (Val::Ext(4, 0), ".>............=..."),
    (Val::Ext(3, 4), ".................."),
    (Val::Stop, ".................."),
    (Val::Ha(3, 0, 0), ".................."),
];

fn compared() -> &'static [(Val, &'static str)] {
    &COMPARED
}

#[test]
fn comparisons_of_all_pairs(rt: HostRuntime) -> Result<(), Fail> {
    let blocks = three_blocks(rt.alloc())?;
    for (u, answers) in compared() {
        for ((v, _), answer) in compared().iter().zip(answers.as_bytes()) {
            assert_eq!(rt; blocks.compare(*u, *v), comparison(*answer), "{u:?} {v:?}");
        }
    }
    Ok(())
}

/// Two values, their sum in either order, and the second less the first.
static SUMS: [(Val, Val, Val, Val); 15] = [
    (
        Val::Int(3),
        Val::Int(0xffff_ffff),
        Val::Int(2),
        Val::Int(0xffff_fffc),
    ),
    (
        Val::Int(4),
        Val::Ptr(2, 3),
        Val::Ptr(2, 7),
        Val::Ptr(2, 0xffff_ffff),
    ),
    (Val::Int(4), Val::Ext(1, 8), Val::Ext(1, 12), Val::Ext(1, 4)),
    (
        Val::Int(4),
        Val::Ha(1, -4, 8),
        Val::Ha(1, -4, 12),
        Val::Undef,
    ),
    (Val::Int(0), Val::Code(1, 0), Val::Code(1, 0), Val::Undef),
    (Val::Int(4), Val::Code(1, 0), Val::Undef, Val::Undef),
    (Val::Int(0), Val::Stop, Val::Stop, Val::Undef),
    (Val::Int(4), Val::Stop, Val::Undef, Val::Undef),
    (Val::Int(0), Val::Undef, Val::Undef, Val::Undef),
    (
        Val::Ptr(0, 12),
        Val::Ptr(0, 4),
        Val::Undef,
        Val::Int(0xffff_fff8),
    ),
    (Val::Ptr(0, 4), Val::Ptr(0, 99), Val::Undef, Val::Int(95)),
    (Val::Ptr(0, 4), Val::Ptr(1, 4), Val::Undef, Val::Undef),
    (Val::Ptr(2, 4), Val::Ptr(2, 4), Val::Undef, Val::Undef),
    (Val::Ext(1, 4), Val::Ext(1, 4), Val::Undef, Val::Undef),
    (Val::Ptr(0, 4), Val::Int(4), Val::Ptr(0, 8), Val::Undef),
];

fn sums() -> &'static [(Val, Val, Val, Val)] {
    &SUMS
}

#[test]
fn sums_and_differences(rt: HostRuntime) -> Result<(), Fail> {
    let blocks = three_blocks(rt.alloc())?;
    for (u, v, sum, difference) in sums() {
        assert_eq!(rt; sum_of(*u, *v), *sum, "{u:?} {v:?}");
        assert_eq!(rt; sum_of(*v, *u), *sum, "{v:?} {u:?}");
        assert_eq!(rt; blocks.difference(*u, *v), *difference, "{u:?} {v:?}");
    }
    Ok(())
}

/// Whether the newest live block is this one, and the live blocks have so many cells.
fn are_standing(blocks: &Blocks, newest: u32, cells: u64) -> bool {
    blocks.newest(0) == Some(newest) && blocks.cells() == cells
}

/// Whether the bytes at these offsets of a block are known to be these, or are none.
fn are_bytes(blocks: &Blocks, block: u32, rows: &[(u64, Option<u8>)]) -> bool {
    rows.iter()
        .all(|(offset, byte)| blocks.byte_at(block, *offset) == *byte)
}

#[test]
fn blocks_are_made_and_freed(rt: HostRuntime) -> Result<(), Fail> {
    let mut blocks = three_blocks(rt.alloc())?;
    assert_eq!(rt; blocks.made(), 3);
    assert!(rt; are_standing(&blocks, 1, 20));
    assert_eq!(rt; blocks.room(2), None);
    assert_eq!(rt; blocks.alloc_block(7, true)?, 3);
    assert!(rt; are_standing(&blocks, 3, 27));
    assert_eq!(rt; blocks.room(3), Some((7, true)));
    assert_eq!(rt; blocks.newest(1), Some(1));
    assert_eq!(rt; blocks.newest(3), None);
    assert_eq!(rt; blocks.cells_from(1), Some(20));
    assert_eq!(rt; blocks.cells_from(2), None);
    blocks.free_top();
    assert!(rt; !blocks.is_live(3) && blocks.is_live(1));
    assert!(rt; are_standing(&blocks, 1, 20));
    assert_eq!(rt; blocks.room(3), None);
    Ok(())
}

#[test]
fn bytes_are_written_and_forgotten(rt: HostRuntime) -> Result<(), Fail> {
    let mut blocks = three_blocks(rt.alloc())?;
    assert_eq!(rt; blocks.made(), 3);
    assert_eq!(rt; blocks.alloc_block(10, false)?, 3);
    blocks.write(3, 0, Val::Stop);
    blocks.write(3, 4, Val::Int(0x0102_0304));
    blocks.write(3, 8, Val::Int(0x0506_0708));
    assert_eq!(rt; blocks.load(4, Val::Ptr(3, 0)), Some(Val::Stop));
    assert!(rt; are_bytes(&blocks, 3, &[(7, Some(4)), (9, Some(6)), (10, None)]));
    blocks.forget();
    assert!(rt; are_bytes(&blocks, 3, &[(3, None), (7, None), (8, Some(5))]));
    assert_eq!(rt; blocks.load(4, Val::Ptr(3, 0)), Some(Val::Stop));
    blocks.set_empty(0, 2);
    assert!(rt;
        are_bytes(
            &blocks,
            0,
            &[(1, Some(1)), (2, None), (5, None), (6, Some(1))]
        )
    );
    assert!(rt; are_bytes(&blocks, 1, &[(2, Some(1))]));
    Ok(())
}
