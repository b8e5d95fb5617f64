//! Layouts, images, units and replies that are refused, as changes of those that `run` accepts.

/// A text with another text in place of a part, and what is printed of it.
type Changed = (&'static str, &'static str, &'static str);

static LAYOUTS: [Changed; 19] = [
    (
        r#"{"valex""#,
        r#""valex""#,
        "refused layout.json layout 1 not-json .\n",
    ),
    (
        r#""r13":"0x10038000","#,
        "",
        "refused layout.json layout 2 missing r13\n",
    ),
    (
        r#""version":1"#,
        r#""version":1.0"#,
        "refused layout.json layout 3 wrong-kind version\n",
    ),
    (
        r#""pins":[]"#,
        r#""pins":{}"#,
        "refused layout.json layout 3 wrong-kind pins\n",
    ),
    (
        r#""entry":"main""#,
        r#""entry":"""#,
        "refused layout.json layout 4 out-of-range entry\n",
    ),
    (
        r#""r2":"0x10048000""#,
        r#""r2":4294967296"#,
        "refused layout.json layout 4 out-of-range r2\n",
    ),
    (
        r#""kind":"code""#,
        r#""kind":"text""#,
        "refused layout.json layout 5 unknown-word areas/0/kind\n",
    ),
    (
        r#""valex":"layout""#,
        r#""valex":"unit""#,
        "refused layout.json layout 5 unknown-word valex\n",
    ),
    (
        r#""version":1"#,
        r#""version":2"#,
        "refused layout.json layout 6 version version\n",
    ),
    (
        r#"["0x10010000","0x10011000"]"#,
        r#"["0x10011000","0x10010000"]"#,
        "refused layout.json layout 7 range-order areas/0/range\n",
    ),
    (
        r#""stop":"0x10000000""#,
        r#""stop":0"#,
        "refused layout.json layout 7 range-order stop\n",
    ),
    (
        r#""0x20010000""#,
        r#""0x2000000f""#,
        "refused layout.json layout 7 range-order stack\n",
    ),
    (
        r#""foreign":[]"#,
        r#""foreign":[["0x10010800","0x10012000"]]"#,
        "refused layout.json layout 8 range-meets 1 2\n",
    ),
    (
        r#""foreign":[]"#,
        r#""foreign":[[1,2],["0x10010800","0x10012000"]]"#,
        "refused layout.json layout 8 range-meets 1 3\n",
    ),
    (
        r#""stop":"0x10000000""#,
        r#""stop":"0x10010ffc""#,
        "refused layout.json layout 8 range-meets 1 2\n",
    ),
    (
        r#""0x20010000""#,
        r#""0x20010008""#,
        "refused layout.json layout 9 unaligned stack\n",
    ),
    (
        r#""stop":"0x10000000""#,
        r#""stop":"0x10000002""#,
        "refused layout.json layout 9 unaligned stop\n",
    ),
    (
        r#""0x20010000""#,
        r#""0x21000010""#,
        "refused layout.json layout 11 limit stack 16777216\n",
    ),
    (
        r#""pins":[]"#,
        r#""pins":[{"unit":null,"name":"g","address":0},{"unit":null,"name":"g","address":4}]"#,
        "refused layout.json layout 4 out-of-range pins/1/name\n",
    ),
];

static UNITS: [Changed; 16] = [
    (
        r#"{"valex""#,
        r#"{{"valex""#,
        "refused a.json dump 1 not-json .\n",
    ),
    (
        r#","externals":[]"#,
        "",
        "refused a.json dump 2 missing externals\n",
    ),
    (
        r#""unit":"a.c""#,
        r#""unit":3"#,
        "refused a.json dump 3 wrong-kind unit\n",
    ),
    (
        r#"["addi",3,0,7]"#,
        r#"["addi",3,0,32768]"#,
        "refused a.json dump 4 out-of-range functions/0/code/0/3\n",
    ),
    (
        r#"["addi",3,0,7]"#,
        r#"["addj",3,0,7]"#,
        "refused a.json dump 5 unknown-word functions/0/code/0/0\n",
    ),
    (
        r#""version":1"#,
        r#""version":3"#,
        "refused a.json dump 6 version version\n",
    ),
    (
        r#"["addi",3,0,7]"#,
        r#"["addi",1,0,7]"#,
        "refused a.json dump 7 shape functions/0/code/0 1\n",
    ),
    (
        r#"["addi",3,0,7]"#,
        r#"["b",1]"#,
        "refused a.json dump 7 shape functions/0/code/0 2\n",
    ),
    (
        r#"["addi",3,0,7]"#,
        r#"["label",1],["label",1]"#,
        "refused a.json dump 7 shape functions/0/code/1 3\n",
    ),
    (
        r#"["addi",3,0,7]"#,
        r#"["allocframe",12]"#,
        "refused a.json dump 7 shape functions/0/code/0 4\n",
    ),
    (
        r#"["addi",3,0,7],["blr"]"#,
        r#"["label",1]"#,
        "refused a.json dump 7 shape functions/0 5\n",
    ),
    (
        r#"["addi",3,0,7]"#,
        r#"["lwz",3,["sda","main",0],4]"#,
        "refused a.json dump 7 shape functions/0/code/0 6\n",
    ),
    (
        r#""externals":[]"#,
        r#""externals":[{"name":"f","sig":{"args":["l","l","l","l","w"],"result":"none"}}]"#,
        "refused a.json dump 7 shape externals/0/sig/args 7\n",
    ),
    (
        r#""externals":[]"#,
        r#""externals":[{"name":"main","sig":null}]"#,
        "refused a.json dump 4 out-of-range externals/0/name\n",
    ),
    (
        r#"["addi",3,0,7]"#,
        r#"["fadd",1,2,3]"#,
        "refused a.json dump 8 refused functions/0/code/0/0\n",
    ),
    (
        r#""variables":[]"#,
        r#""variables":[{"name":"x","static":true,"writable":true,"align":1,"init":[["space",16777216],["i8",0]]}]"#,
        "refused a.json dump 9 limit variables/0/init 16777216\n",
    ),
];

static REPLIES: [Changed; 11] = [
    (
        r#"{"valex""#,
        r#""valex""#,
        "refused replies.json replies 1 not-json .\n",
    ),
    (
        r#""version":2,"#,
        r#""#,
        "refused replies.json replies 2 missing version\n",
    ),
    (
        r#""r4":0,"#,
        r#""#,
        "refused replies.json replies 2 missing replies/2/r4\n",
    ),
    (
        r#"[7,"#,
        r#"[-1.5,"#,
        "refused replies.json replies 3 wrong-kind replies/0\n",
    ),
    (
        r#""version":2"#,
        r#""version":1"#,
        "refused replies.json replies 3 wrong-kind replies/2\n",
    ),
    (
        r#"[7,"#,
        r#"[4294967296,"#,
        "refused replies.json replies 4 out-of-range replies/0\n",
    ),
    (
        r#"[0,1]"#,
        r#"[0]"#,
        "refused replies.json replies 4 out-of-range replies/1\n",
    ),
    (
        r#""00""#,
        r#""0""#,
        "refused replies.json replies 4 out-of-range replies/2/fills/0\n",
    ),
    (
        r#""replies","#,
        r#""unit","#,
        "refused replies.json replies 5 unknown-word valex\n",
    ),
    (
        r#""version":2"#,
        r#""version":3"#,
        "refused replies.json replies 6 version version\n",
    ),
    (
        r#"["00"]"#,
        r#"["","","","","","","","",""]"#,
        "refused replies.json replies 9 limit replies/2/fills 8\n",
    ),
];

/// The place of bytes in the image, others for them, and what is printed.
static IMAGES: [(usize, &[u8], &str); 22] = [
    (32, &[0xff], "refused image.elf elf 1 short 32\n"),
    (28, &[0xff], "refused image.elf elf 1 short 28\n"),
    (4, &[0x02], "refused image.elf elf 2 ident 4\n"),
    (0, &[0x7e], "refused image.elf elf 2 ident 0\n"),
    (17, &[0x03], "refused image.elf elf 3 kind 16\n"),
    (19, &[0x15], "refused image.elf elf 4 machine 18\n"),
    (41, &[0x35], "refused image.elf elf 5 entry-size 40\n"),
    (43, &[0x21], "refused image.elf elf 5 entry-size 42\n"),
    (47, &[0x29], "refused image.elf elf 5 entry-size 46\n"),
    (55, &[0x02], "refused image.elf elf 6 dynamic 52\n"),
    (55, &[0x03], "refused image.elf elf 6 dynamic 52\n"),
    (71, &[0x09], "refused image.elf elf 7 seg-range 52\n"),
    (
        60,
        &[0xff, 0xff, 0xff, 0xfc],
        "refused image.elf elf 7 seg-range 52\n",
    ),
    (177, &[0x03], "refused image.elf elf 9 no-symtab 32\n"),
    (217, &[0x02], "refused image.elf elf 10 two-symtabs 210\n"),
    (209, &[0x11], "refused image.elf elf 5 entry-size 206\n"),
    (197, &[0x03], "refused image.elf elf 11 sym-range 170\n"),
    (193, &[0x21], "refused image.elf elf 11 sym-range 170\n"),
    (233, &[0x05], "refused image.elf elf 12 name-end 210\n"),
    (111, &[0x06], "refused image.elf elf 12 name-end 108\n"),
    (44, &[0x01], "refused image.elf elf 13 limit 44 256\n"),
    (
        72,
        &[0x04, 0x00, 0x00, 0x01],
        "refused image.elf elf 13 limit 52 67108864\n",
    ),
];

pub fn layouts() -> &'static [Changed] {
    &LAYOUTS
}

pub fn units() -> &'static [Changed] {
    &UNITS
}

pub fn replies() -> &'static [Changed] {
    &REPLIES
}

pub fn images() -> &'static [(usize, &'static [u8], &'static str)] {
    &IMAGES
}
