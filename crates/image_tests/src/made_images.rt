//! An image of two segments and two symbols, against the bytes that another program writes and readelf reads. Layouts, by hand.
use std::test::Fail;
use test_images::layouts::layout_of;
use test_images::lines::image_of;

static TEXT: &str = "entry 10010000
segment 10010000 5 8 38600007 4e800020
segment 10018000 6 8 0a0b 0c

symbol 10010000 12 fff1 main
symbol 10018001 11 2 x
";

static DIGITS: [&str; 6] = [
    "7f454c4601020100000000000000000000020014000000011001000000000034000000b7000000000034002000020028000300000000000100000074",
    "100100001001000000000008000000080000000500000004000000010000007c10018000100180000000000300000008000000060000000438600007",
    "4e8000200a0b0c000000000000000000000000000000000000000110010000000000001200fff100000006100180010000000011000002006d61696e",
    "007800000000000000000000000000000000000000000000000000000000000000000000000000000000000000000000000002000000000000000000",
    "00007f000000300000000200000001000000040000001000000000000000030000000000000000000000af0000000800000000000000000000000100",
    "000000",
];

static FAULTY: [&str; 8] = [
    "",
    "entry x\n",
    "segment 10010000 5 8 00",
    "entry 10010000\nsegment 10010000 5",
    "entry 10010000\nsegment 10010000 5 8 0",
    "entry 10010000\nsymbol 10010000 12 fff1",
    "entry 10010000\nsymbol 10010000 100 fff1 main",
    "entry 10010000\nsection 1",
];

#[test]
fn makes_the_image_of_lines(rt: HostRuntime) -> Result<(), Fail> {
    let alloc = rt.alloc();
    let mut bytes = Vec::new(alloc);
    for digits in &DIGITS {
        let some = hex::decode(alloc, *digits).ok().ok_or("digits")?;
        bytes.extend_from_slice(&some)?;
    }
    let file = image_of(alloc, TEXT).ok_or("an image")?;
    assert_eq!(rt; file.as_slice(), bytes.as_slice());
    for text in &FAULTY {
        assert!(rt; image_of(alloc, *text).is_none(), "{text}");
    }
    Ok(())
}

static LAYOUTS: [(&str, &str); 2] = [
    (
        "",
        r#"{"valex":"layout","version":1,"entry":"main","stop":"0x10000000","stack":["0x20000000","0x20010000"],"r13":"0x10038000","r2":"0x10048000","areas":[],"foreign":[],"pins":[]}"#,
    ),
    (
        "stack 20000000 20000010
bases 1 2
area code 10010000 10011000

area sda13 10038000 10038008
foreign 10020000 10020100
foreign 10030000 10030008
pin a.c h 10018000
pin - g 10018004",
        r#"{"valex":"layout","version":1,"entry":"main","stop":"0x10000000","stack":["0x20000000","0x20000010"],"r13":"0x1","r2":"0x2","areas":[{"name":"code","range":["0x10010000","0x10011000"],"kind":"code"},{"name":"sda13","range":["0x10038000","0x10038008"],"kind":"sda13"}],"foreign":[["0x10020000","0x10020100"],["0x10030000","0x10030008"]],"pins":[{"unit":"a.c","name":"h","address":"0x10018000"},{"unit":null,"name":"g","address":"0x10018004"}]}"#,
    ),
];

static NO_LAYOUTS: [&str; 6] = [
    "area",
    "area code 10010000",
    "foreign 10020000",
    "pin a.c h",
    "bases 1",
    "segment 10010000 5 8",
];

#[test]
fn makes_the_layout_of_lines(rt: HostRuntime) -> Result<(), Fail> {
    let alloc = rt.alloc();
    for (lines, want) in &LAYOUTS {
        let text = layout_of(alloc, *lines).ok_or("a layout")?;
        assert_eq!(rt; text.as_str(), *want);
    }
    for lines in &NO_LAYOUTS {
        assert!(rt; layout_of(alloc, *lines).is_none(), "{lines}");
    }
    Ok(())
}
