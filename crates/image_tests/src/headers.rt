// A small executable, cut off at each length and with changed fields. The fields are those of the gABI's tables.
use byteorder::{BigEndian, ByteOrder};
use elf_view::{ElfError, ElfView, LoadedSegments};
use std::alloc::{AllocError, Global};
use std::cmp::Ordering;
use std::test::Fail;
use word_ops::range::Range;

// One segment of two words, the symbol `main` at their start, and the sections of the symbols and their names.
const SIZE: usize = 252;

const WORDS: [u32; 63] = [
    0x7f45_4c46,
    0x0102_0100,
    0x0000_0000,
    0x0000_0000,
    0x0002_0014,
    0x0000_0001,
    0x1001_0000,
    0x0000_0034,
    0x0000_0084,
    0x0000_0000,
    0x0034_0020,
    0x0001_0028,
    0x0003_0000,
    0x0000_0001,
    0x0000_0054,
    0x1001_0000,
    0x1001_0000,
    0x0000_0008,
    0x0000_0008,
    0x0000_0005,
    0x0000_0004,
    0x3860_0007,
    0x4e80_0020,
    0x006d_6169,
    0x6e00_0000,
    0x0000_0000,
    0x0000_0000,
    0x0000_0000,
    0x0000_0000,
    0x0000_0001,
    0x1001_0000,
    0x0000_0008,
    0x1200_fff1,
    0x0000_0000,
    0x0000_0000,
    0x0000_0000,
    0x0000_0000,
    0x0000_0000,
    0x0000_0000,
    0x0000_0000,
    0x0000_0000,
    0x0000_0000,
    0x0000_0000,
    0x0000_0000,
    0x0000_0002,
    0x0000_0000,
    0x0000_0000,
    0x0000_0064,
    0x0000_0020,
    0x0000_0002,
    0x0000_0001,
    0x0000_0004,
    0x0000_0010,
    0x0000_0000,
    0x0000_0003,
    0x0000_0000,
    0x0000_0000,
    0x0000_005c,
    0x0000_0006,
    0x0000_0000,
    0x0000_0000,
    0x0000_0001,
    0x0000_0000,
];

// Word `i` of the file, with the words at some places changed. Behind the file the program header stands again.
fn word_of(i: usize, changes: &[(usize, u32)]) -> u32 {
    for (at, word) in changes {
        if *at / 4 == i {
            return *word;
        }
    }
    if i < WORDS.len() {
        WORDS[i]
    } else {
        WORDS[13 + (i - WORDS.len()) % 8]
    }
}

fn fill(file: &mut [u8], changes: &[(usize, u32)]) {
    for i in 0..file.len() / 4 {
        BigEndian::write_u32(&mut file[4 * i..], word_of(i, changes));
    }
}

#[test]
fn reads_no_cut_file(rt: HostRuntime) {
    let mut file = [0; SIZE];
    fill(&mut file, &[]);
    for n in 0..SIZE {
        let error = match n {
            0..=51 => ElfError::Short(n as u32),
            52..=83 => ElfError::Short(28),
            _ => ElfError::Short(32),
        };
        assert_eq!(rt; ElfView::read(&file[..n]).err(), Some(error), "at {n}");
    }
}

#[test]
fn reads_no_changed_header(rt: HostRuntime) {
    let rows = [
        (0, 0x7e45_4c46, ElfError::Ident(0)),
        (0, 0x7f46_4c46, ElfError::Ident(1)),
        (0, 0x7f45_4d46, ElfError::Ident(2)),
        (0, 0x7f45_4c47, ElfError::Ident(3)),
        (4, 0x0202_0100, ElfError::Ident(4)),
        (4, 0x0101_0100, ElfError::Ident(5)),
        (4, 0x0102_0200, ElfError::Ident(6)),
        (16, 0x0003_0014, ElfError::Kind(16)),
        (16, 0x0002_0015, ElfError::Machine(18)),
        (40, 0x0035_0020, ElfError::EntrySize(40)),
        (44, 0x0101_0028, ElfError::Limit(44, 256)),
        (40, 0x0034_0021, ElfError::EntrySize(42)),
        (44, 0x0001_0029, ElfError::EntrySize(46)),
        (28, 0xffff_ffff, ElfError::Short(28)),
        (52, 2, ElfError::Dynamic(52)),
        (52, 3, ElfError::Dynamic(52)),
        (68, 9, ElfError::SegRange(52)),
        (60, 0xffff_fffc, ElfError::SegRange(52)),
        (56, 0xffff_fffc, ElfError::SegRange(52)),
        (72, 0x0400_0001, ElfError::Limit(52, 67_108_864)),
        (176, 3, ElfError::NoSymtab(32)),
        (216, 2, ElfError::TwoSymtabs(212)),
        (208, 17, ElfError::EntrySize(208)),
        (196, 3, ElfError::SymRange(172)),
        (196, 1, ElfError::SymRange(172)),
        (192, 33, ElfError::SymRange(172)),
        (188, 240, ElfError::SymRange(172)),
        (216, 1, ElfError::SymRange(172)),
        (228, 247, ElfError::SymRange(172)),
        (232, 5, ElfError::NameEnd(212)),
        (116, 6, ElfError::NameEnd(116)),
    ];
    for (at, word, error) in rows {
        let mut file = [0; SIZE];
        fill(&mut file, &[(at, word)]);
        assert_eq!(rt;
            ElfView::read(&file).err(),
            Some(error),
            "word {word} at {at}"
        );
    }
}

// The word at an address, read in both ways.
fn words(alloc: Global, view: &ElfView, a: u32) -> Result<(Option<u32>, Option<u32>), AllocError> {
    let loaded = LoadedSegments::read(alloc, view)?;
    Ok((view.word_at(a), loaded.word_at(u64::from(a))))
}

// Two copies of the program header stand behind the file, at 252 and 284. The fields of the second are changed.
#[test]
fn reads_two_segments(rt: HostRuntime) -> Result<(), Fail> {
    let rows = [
        // A note, and a segment without a byte in memory.
        (284, 4, 284, 4, 1, 0x1001_0004, Some(0x4e80_0020)),
        (300, 0, 304, 0, 1, 0x1001_0004, Some(0x4e80_0020)),
        // One that begins at the end of the first, and one that ends at its begin.
        (292, 0x1001_0008, 300, 8, 2, 0x1001_0006, Some(0x0020_3860)),
        (292, 0x1000_fff8, 300, 8, 2, 0x1000_fffe, Some(0x0020_3860)),
        // One that ends at 2^32.
        (292, 0xffff_fff8, 300, 8, 2, 0xffff_fffc, Some(0x4e80_0020)),
        (292, 0xffff_fff8, 300, 8, 2, 0xffff_fffd, None),
        // One of 4 bytes that are zero past the third.
        (292, 0x1001_8000, 300, 3, 2, 0x1001_8000, Some(0x3860_0000)),
        (292, 0x1001_8000, 300, 3, 2, 0x1001_8002, Some(0)),
        (292, 0x1001_8000, 300, 3, 2, 0x1001_8005, None),
    ];
    for (at, word, other, size, count, a, found) in rows {
        let mut file = [0; SIZE + 64];
        fill(
            &mut file,
            &[(28, 252), (44, 0x0002_0028), (at, word), (other, size)],
        );
        let view = ElfView::read(&file).ok().ok_or("refused")?;
        assert_eq!(rt; view.segments(), count, "{word} at {at}");
        let both = words(rt.alloc(), &view, a)?;
        assert_eq!(rt; both, (found, found), "word at {a}");
    }
    Ok(())
}

#[test]
fn reads_no_two_segments(rt: HostRuntime) {
    let rows = [
        (284, 1, ElfError::SegOverlap(284)),
        (292, 0x1001_0007, ElfError::SegOverlap(284)),
        (292, 0x1000_fff9, ElfError::SegOverlap(284)),
        (284, 2, ElfError::Dynamic(284)),
        (300, 9, ElfError::SegRange(284)),
        // All that is loaded is tested before whether segments meet.
        (304, 0x03ff_fff8, ElfError::SegOverlap(284)),
        (304, 0x03ff_fff9, ElfError::Limit(284, 67_108_864)),
    ];
    for (at, word, error) in rows {
        let mut file = [0; SIZE + 64];
        fill(&mut file, &[(28, 252), (44, 0x0002_0028), (at, word)]);
        assert_eq!(rt;
            ElfView::read(&file).err(),
            Some(error),
            "word {word} at {at}"
        );
    }
}

#[test]
fn reads_no_long_file(rt: HostRuntime) -> Result<(), Fail> {
    let file = vec![in rt.alloc(); 0; 33_554_433]?;
    assert_eq!(rt;
        ElfView::read(&file).err(),
        Some(ElfError::Limit(0, 33_554_432))
    );
    Ok(())
}

// The string table is behind the file: 599 letters and a zero byte. The null symbol's name begins at its first byte.
#[test]
fn starts_of_names(rt: HostRuntime) -> Result<(), Fail> {
    let rows = [
        (0, 256, Ordering::Equal),
        (1, 256, Ordering::Equal),
        (344, 255, Ordering::Greater),
        (598, 1, Ordering::Greater),
        (599, 0, Ordering::Greater),
    ];
    for (name, length, order) in rows {
        let mut file = [b'a'; SIZE + 600];
        fill(&mut file[..SIZE], &[(116, name), (228, 252), (232, 600)]);
        file[SIZE + 599] = 0;
        let view = ElfView::read(&file).ok().ok_or("refused")?;
        assert_eq!(rt; view.name_start(0).len(), 256);
        assert_eq!(rt; view.name_start(1).len(), length, "at {name}");
        assert_eq!(rt; view.compare_names(0, 1), order, "at {name}");
        assert_eq!(rt; view.name_start(2).len(), 0);
        if 1 < view.symbols() {
            let fields = view.symbol_fields(1);
            assert_eq!(rt; (fields.value, fields.size), (0x1001_0000, 8));
            assert_eq!(rt; (fields.binding, fields.kind, fields.shndx), (1, 2, 0xfff1));
        }
    }
    Ok(())
}

fn smallest() -> [u8; SIZE] {
    let mut file = [0; SIZE];
    fill(&mut file, &[]);
    file
}

#[test]
fn reads_a_segment(rt: HostRuntime) -> Result<(), Fail> {
    let file = smallest();
    let view = ElfView::read(&file).ok().ok_or("refused")?;
    assert_eq!(rt; view.entry(), 0x1001_0000);
    assert_eq!(rt; view.segments(), 1);
    if 0 < view.segments() {
        let segment = view.segment(0);
        assert_eq!(rt; segment.vaddr, 0x1001_0000);
        assert_eq!(rt; segment.memsz, 8);
        assert_eq!(rt; segment.flags, 5);
        assert_eq!(rt;
            segment.bytes,
            [0x38, 0x60, 0, 7, 0x4e, 0x80, 0, 0x20].as_slice()
        );
    }
    Ok(())
}

#[test]
fn reads_a_symbol(rt: HostRuntime) -> Result<(), Fail> {
    let file = smallest();
    let view = ElfView::read(&file).ok().ok_or("refused")?;
    assert_eq!(rt; view.symbols(), 2);
    if 1 < view.symbols() {
        let symbol = view.symbol(1);
        assert_eq!(rt; symbol.name, b"main".as_slice());
        assert_eq!(rt; symbol.value, 0x1001_0000);
        assert_eq!(rt; symbol.size, 8);
        assert_eq!(rt; symbol.shndx, 0xfff1);
        assert_eq!(rt; symbol.binding, 1);
        assert_eq!(rt; symbol.kind, 2);
    }
    Ok(())
}

#[test]
fn reads_bytes_and_words(rt: HostRuntime) -> Result<(), Fail> {
    let file = smallest();
    let view = ElfView::read(&file).ok().ok_or("refused")?;
    assert_eq!(rt; view.byte_at(0x1001_0003), Some(7));
    assert_eq!(rt; view.byte_at(0x1001_0008), None);
    assert_eq!(rt; view.word_at(0x1001_0004), Some(0x4e80_0020));
    assert_eq!(rt; view.word_at(0x1001_0005), None);
    assert_eq!(rt; view.flags_at(0x1001_0007), Some(5));
    let range = Range::new(0x1001_0003, 0x1001_0005).ok_or("a range")?;
    assert!(rt;
        matches!(view.bytes(&range), Some([7, 0x4e])),
        "loaded bytes"
    );
    Ok(())
}

// The file holds no byte of the segment, at an offset past its end.
#[test]
fn reads_a_segment_of_zeros(rt: HostRuntime) {
    let mut file = [0; SIZE];
    fill(&mut file, &[(68, 0), (56, 0xffff_fffc)]);
    let Ok(view) = ElfView::read(&file) else {
        assert!(rt; false, "refused");
        return;
    };
    if 0 < view.segments() {
        assert_eq!(rt; view.segment(0).bytes.len(), 0);
    }
    for a in 0x1001_0000..0x1001_0008 {
        assert_eq!(rt; view.byte_at(a), Some(0), "at {a}");
    }
}
