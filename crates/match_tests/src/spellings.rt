// Every spelling of every pseudo-instruction, and words that differ from it. The right words are those of GNU as.
ghost use Rattle.std.specs.Prelude.{◌≡◌};
ghost use Rattle.code_model.specs.Spelling.{first_word};

use crate::test_lines::{instruction, layout, told};
use asm_syntax::instr::Instr;
use expansions::matching::{match_instr, table_place};
use layout_file::layout::Layout;
use reloc_match::matching::length;
use std::alloc::{AllocError, Global};
use std::process::Abort;
use std::test::Fail;

/// Where the words stand.
const AT: u32 = 0x1001_0010;

// An instruction, the address of what it names, its words, and what is told: `yes`, or the rule, the offset, the item, and the words
// that are wanted and found. For branches these are the addresses.
static ROWS: &str = "
allocframe 16 | 10010020 | 9421fff0 | yes
allocframe 16 | 10010020 | 9421fff8 | field 0 0 9421fff0 9421fff8
allocframe 16 | 10010020 | 9441fff0 | field 0 0 9421fff0 9441fff0
allocframe 16 | 10010020 | 9422fff0 | field 0 0 9421fff0 9422fff0
allocframe 16 | 10010020 | 9021fff0 | opcode 0 0 9421fff0 9021fff0
allocframe 32760 | 10010020 | 94218008 | yes
allocframe 32768 | 10010020 | 94218000 | yes
allocframe 32768 | 10010020 | 94217ff8 | field 0 0 94218000 94217ff8
allocframe 32776 | 10010020 | 3d80ffff 618c7ff8 7c21616e | yes
allocframe 32776 | 10010020 | 3d80fffe 618c7ff8 7c21616e | field 0 0 3d80ffff 3d80fffe
allocframe 32776 | 10010020 | 3d60ffff 618c7ff8 7c21616e | field 0 0 3d80ffff 3d60ffff
allocframe 32776 | 10010020 | 3980ffff 618c7ff8 7c21616e | opcode 0 0 3d80ffff 3980ffff
allocframe 32776 | 10010020 | 3d80ffff 618c8000 7c21616e | field 4 0 618c7ff8 618c8000
allocframe 32776 | 10010020 | 3d80ffff 618d7ff8 7c21616e | field 4 0 618c7ff8 618d7ff8
allocframe 32776 | 10010020 | 3d80ffff 658c7ff8 7c21616e | opcode 4 0 618c7ff8 658c7ff8
allocframe 32776 | 10010020 | 3d80ffff 618c7ff8 7c21696e | field 8 0 7c21616e 7c21696e
allocframe 32776 | 10010020 | 3d80ffff 618c7ff8 7c21612e | opcode 8 0 7c21616e 7c21612e
allocframe 32776 | 10010020 | 3d80fffe 618c8000 7c21612e | field 0 0 3d80ffff 3d80fffe
allocframe 65536 | 10010020 | 3d80ffff 618c0000 7c21616e | yes
allocframe 1048576 | 10010020 | 3d80fff0 618c0000 7c21616e | yes
allocframe 1048576 | 10010020 | 3d80ffef 618c0000 7c21616e | field 0 0 3d80fff0 3d80ffef
freeframe 16 | 10010020 | 80210000 | yes
freeframe 16 | 10010020 | 38210010 | yes
freeframe 16 | 10010020 | 38210018 | field 0 0 38210010 38210018
freeframe 16 | 10010020 | 38200010 | field 0 0 38210010 38200010
freeframe 16 | 10010020 | 38410010 | field 0 0 38210010 38410010
freeframe 16 | 10010020 | 3c210010 | opcode 0 0 80210000 3c210010
freeframe 16 | 10010020 | 80210004 | field 0 0 80210000 80210004
freeframe 16 | 10010020 | 80220000 | field 0 0 80210000 80220000
freeframe 16 | 10010020 | 84210000 | opcode 0 0 80210000 84210000
freeframe 32760 | 10010020 | 38217ff8 | yes
freeframe 32760 | 10010020 | 80210000 | yes
freeframe 32760 | 10010020 | 38217ff0 | field 0 0 38217ff8 38217ff0
freeframe 32768 | 10010020 | 80210000 | yes
freeframe 32768 | 10010020 | 38218000 | opcode 0 0 80210000 38218000
freeframe 1048576 | 10010020 | 80210000 | yes
freeframe 1048576 | 10010020 | 38210000 | opcode 0 0 80210000 38210000
imm 3 0 | 10010020 | 38600000 | yes
imm 3 0x7fff | 10010020 | 38607fff | yes
imm 3 0x7fff | 10010020 | 38607ffe | field 0 0 38607fff 38607ffe
imm 3 0x8000 | 10010020 | 3c600000 60638000 | yes
imm 3 0x8000 | 10010020 | 3c600001 60638000 | field 0 0 3c600000 3c600001
imm 3 0xffff8000 | 10010020 | 38608000 | yes
imm 3 0xffff8000 | 10010020 | 38600000 | field 0 0 38608000 38600000
imm 3 0xffff7fff | 10010020 | 3c60ffff 60637fff | yes
imm 3 0xffff7fff | 10010020 | 3c60fffe 60637fff | field 0 0 3c60ffff 3c60fffe
imm 3 0xffffffff | 10010020 | 3860ffff | yes
imm 3 0xffffffff | 10010020 | 3863ffff | field 0 0 3860ffff 3863ffff
imm 3 0xffffffff | 10010020 | 3880ffff | field 0 0 3860ffff 3880ffff
imm 3 0xffffffff | 10010020 | 3c60ffff | opcode 0 0 3860ffff 3c60ffff
imm 3 0x10000 | 10010020 | 3c600001 | yes
imm 3 0x10000 | 10010020 | 3c630001 | field 0 0 3c600001 3c630001
imm 3 0x10000 | 10010020 | 38600001 | opcode 0 0 3c600001 38600001
imm 3 0x80000000 | 10010020 | 3c608000 | yes
imm 3 0x80000000 | 10010020 | 3c600000 | field 0 0 3c608000 3c600000
imm 3 0x12345678 | 10010020 | 3c601234 60635678 | yes
imm 3 0x12345678 | 10010020 | 3c801234 60635678 | field 0 0 3c601234 3c801234
imm 3 0x12345678 | 10010020 | 38601234 60635678 | opcode 0 0 3c601234 38601234
imm 3 0x12345678 | 10010020 | 3c601234 60635679 | field 4 0 60635678 60635679
imm 3 0x12345678 | 10010020 | 3c601234 60835678 | field 4 0 60635678 60835678
imm 3 0x12345678 | 10010020 | 3c601234 60645678 | field 4 0 60635678 60645678
imm 3 0x12345678 | 10010020 | 3c601234 38635678 | opcode 4 0 60635678 38635678
imm 31 0x89abcdef | 10010020 | 3fe089ab 63ffcdef | yes
imm 0 0x10001 | 10010020 | 3c000001 60000001 | yes
bt 2 1 | 10010020 | 41820010 | yes
bt 2 1 | 10010020 | 41820014 | branch 0 0 10010020 10010024
bt 2 1 | 10010020 | 41860010 | field 0 0 41820010 41860010
bt 2 1 | 10010020 | 42000010 | opcode 0 0 41820010 42000010
bt 2 1 | 10010020 | 48000010 | opcode 0 0 41820010 48000010
bt 2 1 | 10010020 | 41820012 | opcode 0 0 41820010 41820012
bt 2 1 | 10010020 | 4082000a | opcode 0 0 41820010 4082000a
bt 2 1 | 10010020 | 40820008 4800000c | yes
bt 2 1 | 10010020 | 4082000c 4800000c | field 0 0 40820008 4082000c
bt 2 1 | 10010020 | 40820010 4800000c | field 0 0 40820008 40820010
bt 2 1 | 10010020 | 40860008 4800000c | field 0 0 40820008 40860008
bt 2 1 | 10010020 | 40820008 48000010 | branch 4 0 10010020 10010024
bt 2 1 | 10010020 | 40820008 4800000d | opcode 4 0 4800000c 4800000d
bt 2 1 | 10010020 | 40820008 4182000c | opcode 4 0 4800000c 4182000c
bt 2 1 | 10010000 | 4182fff0 | yes
bt 2 1 | 10010000 | 40820008 4bffffec | yes
bt 2 1 | 10010000 | 40820008 4bfffff0 | branch 4 0 10010000 10010004
bt 2 1 | 1001800c | 41827ffc | yes
bt 2 1 | 10008010 | 41828000 | yes
bt 2 1 | 10018010 | 41828000 | branch 0 0 10018010 10008010
bt 2 1 | 10018010 | 40820008 48007ffc | yes
bt 2 1 | 12010010 | 40820008 49fffffc | yes
bt 2 1 | 0e010014 | 40820008 4a000000 | yes
bt 2 1 | 12010014 | 40820008 4a000000 | branch 4 0 12010014 0e010014
bt 0 1 | 10010020 | 41800010 | yes
bt 0 1 | 10010020 | 40800008 4800000c | yes
bt 31 1 | 10010020 | 419f0010 | yes
bt 31 1 | 10010020 | 409f0008 4800000c | yes
bf 2 1 | 10010020 | 40820010 | yes
bf 2 1 | 10010020 | 40820018 | branch 0 0 10010020 10010028
bf 2 1 | 10010020 | 40800010 | field 0 0 40820010 40800010
bf 2 1 | 10010020 | 42000010 | opcode 0 0 40820010 42000010
bf 2 1 | 10010020 | 41820008 4800000c | yes
bf 2 1 | 10010020 | 41820010 4800000c | field 0 0 41820008 41820010
bf 2 1 | 10010020 | 41800008 4800000c | field 0 0 41820008 41800008
bf 2 1 | 10010020 | 41820008 48000008 | branch 4 0 10010020 1001001c
bf 2 1 | 10010020 | 41820008 60000000 | opcode 4 0 4800000c 60000000
bf 31 1 | 10010000 | 409ffff0 | yes
bf 31 1 | 10010000 | 419f0008 4bffffec | yes
btbl 3 1 2 | 10010020 | 546c103a 3d8c1001 818c0030 7d8903a6 4e800420 | yes
btbl 3 1 2 | 10010020 | 546c103a 3d8cffff 818c8000 7d8903a6 4e800420 | yes
btbl 3 1 2 | 10010020 | 548c103a 3d8c1001 818c0030 7d8903a6 4e800420 | field 0 0 546c103a 548c103a
btbl 3 1 2 | 10010020 | 546b103a 3d8c1001 818c0030 7d8903a6 4e800420 | field 0 0 546c103a 546b103a
btbl 3 1 2 | 10010020 | 546c103c 3d8c1001 818c0030 7d8903a6 4e800420 | field 0 0 546c103a 546c103c
btbl 3 1 2 | 10010020 | 546c103b 3d8c1001 818c0030 7d8903a6 4e800420 | opcode 0 0 546c103a 546c103b
btbl 3 1 2 | 10010020 | 546c103a 3d8b1001 818c0030 7d8903a6 4e800420 | field 4 0 3d8c1001 3d8b1001
btbl 3 1 2 | 10010020 | 546c103a 398c1001 818c0030 7d8903a6 4e800420 | opcode 4 0 3d8c0000 398c1001
btbl 3 1 2 | 10010020 | 546c103a 3d8c1001 816c0030 7d8903a6 4e800420 | field 8 0 818c0030 816c0030
btbl 3 1 2 | 10010020 | 546c103a 3d8c1001 858c0030 7d8903a6 4e800420 | opcode 8 0 818c0000 858c0030
btbl 3 1 2 | 10010020 | 546c103a 3d8c1001 818c0030 7d6903a6 4e800420 | field 12 0 7d8903a6 7d6903a6
btbl 3 1 2 | 10010020 | 546c103a 3d8c1001 818c0030 7d8803a6 4e800420 | opcode 12 0 7d8903a6 7d8803a6
btbl 3 1 2 | 10010020 | 546c103a 3d8c1001 818c0030 7d8903a6 4e800421 | opcode 16 0 4e800420 4e800421
btbl 31 1 2 | 10010020 | 57ec103a 3d8c0000 818cffff 7d8903a6 4e800420 | yes
mfcrbit 3 2 | 10010020 | 7c600026 54631ffe | yes
mfcrbit 3 2 | 10010020 | 7c800026 54631ffe | field 0 0 7c600026 7c800026
mfcrbit 3 2 | 10010020 | 7c6803a6 54631ffe | opcode 0 0 7c600026 7c6803a6
mfcrbit 3 2 | 10010020 | 7c600026 546317fe | field 4 0 54631ffe 546317fe
mfcrbit 3 2 | 10010020 | 7c600026 54831ffe | field 4 0 54631ffe 54831ffe
mfcrbit 3 2 | 10010020 | 7c600026 54631fff | opcode 4 0 54631ffe 54631fff
mfcrbit 3 2 | 10010020 | 7c600026 50631ffe | opcode 4 0 54631ffe 50631ffe
mfcrbit 3 0 | 10010020 | 7c600026 54630ffe | yes
mfcrbit 3 30 | 10010020 | 7c600026 5463fffe | yes
mfcrbit 3 31 | 10010020 | 7c600026 546307fe | yes
mfcrbit 3 31 | 10010020 | 7c600026 5463fffe | field 4 0 546307fe 5463fffe
mfcrbit 31 7 | 10010020 | 7fe00026 57ff47fe | yes
label 1 | 10010020 | | yes
cfi | 10010020 | | yes
annot | 10010020 | | yes
b 1 | 10010020 | 48000010 | yes
b 1 | 10010020 | 48000014 | branch 0 0 10010020 10010024
bl | 10010000 | 4bfffff1 | yes
bl | 10010000 | 4bfffff0 | opcode 0 0 4bfffff1 4bfffff0
blr | 10010020 | 4e800020 | yes
blr | 10010020 | 4e800420 | opcode 0 0 4e800020 4e800420
";

fn rows() -> &'static str {
    ROWS
}

fn hexadecimal(text: &str) -> Option<u32> {
    u32::from_str_radix(text.trim(), 16).ok()
}

fn words_of(alloc: Global, text: &str) -> Option<Vec<u32>> {
    let mut words = Vec::new(alloc);
    for word in text.split_whitespace() {
        words.push(hexadecimal(word)?).ok()?;
    }
    Some(words)
}

fn first_word(words: &[u32]) -> u32
    ensures { result ≡ first_word words.now }
{
    match words {
        [] => 0,
        [first, ..] => *first,
    }
}

/// What is told of an instruction that has as many words.
fn told_of(
    alloc: Global,
    layout: &Layout,
    instr: &Instr,
    target: u32,
    words: &[u32],
) -> Option<String> {
    if words.len() > 5 || words.len() != length(instr, first_word(words)) as usize {
        return None;
    }
    match match_instr(instr, words, AT, target, layout) {
        Ok(()) => String::from_str(alloc, "yes").ok(),
        Err(spot) => told(alloc, &spot).ok(),
    }
}

/// What is told of a row but for its last part.
fn answer(alloc: Global, layout: &Layout, row: &str) -> Option<String> {
    let mut parts = row.split('|');
    let text = parts.next()?;
    let target = hexadecimal(parts.next()?)?;
    let words = words_of(alloc, parts.next()?)?;
    let instr = instruction(alloc, text)?;
    told_of(alloc, layout, &instr, target, &words)
}

fn assert_answer(
    rt: &impl Abort,
    alloc: Global,
    layout: &Layout,
    row: &str,
    want: &str,
) -> Result<(), Fail> {
    let answer = answer(alloc, layout, row).ok_or("a row")?;
    assert_eq!(rt; answer.as_str(), want, "{row}");
    Ok(())
}

#[test]
fn words_of_instructions(rt: HostRuntime) -> Result<(), Fail> {
    let alloc = rt.alloc();
    let layout = layout(alloc).ok_or("a layout")?;
    let mut count: u32 = 0;
    for row in rows().split('\n') {
        if let Some((_, want)) = row.rsplit_once('|') {
            assert_answer(&rt, alloc, &layout, row, want.trim())?;
            count = count.wrapping_add(1);
        }
    }
    assert_eq!(rt; count, 138);
    Ok(())
}

#[test]
fn places_of_tables(rt: HostRuntime) {
    let rows = [
        (0x3d8c_1001, 0x818c_0030, 0x1001_0030),
        (0x3d8c_1002, 0x818c_8000, 0x1001_8000),
        (0x3d8c_0000, 0x818c_ffff, 0xffff_ffff),
        (0x3d8c_ffff, 0x818c_7fff, 0xffff_7fff),
        (0x3d8c_8000, 0x818c_8000, 0x7fff_8000),
    ];
    for (second, third, place) in rows {
        let words = [0x546c_103a, second, third, 0x7d89_03a6, 0x4e80_0420];
        assert_eq!(rt; table_place(&words), place);
    }
}
