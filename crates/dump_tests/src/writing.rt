// Texts of the profile of units in its canonical form: all keys in ascending order, no space, unsigned numbers for data and `imm`,
// signed ones for constants and offsets, lower-case digits.
use asm_syntax::instr::{Const, Function, Instr, Jump, Plain};
use asm_syntax::listed::Listed;
use asm_syntax::name::Name;
use asm_syntax::operations::AluImmOp;
use asm_syntax::reg::Reg;
use asm_syntax::unit::{External, Unit};
use dump_reader::read_unit;
use dump_writer::{unit_value, unit_value_2, valid_unit, write_unit, write_unit_2};
use std::alloc::Global;
use std::test::Fail;

const SMALLEST: &str =
    "{\"externals\":[],\"functions\":[{\"code\":[[\"addi\",3,0,7],[\"blr\"]],\"name\":\"main\",\"static\":false}],\"unit\":\"a.c\",\"valex\":\"unit\",\"variables\":[],\"version\":1}";

/// The function of the smallest unit, which returns 7.
fn main_function(alloc: Global) -> Result<Function, Fail> {
    let r3 = Reg::new(3).ok_or("r3")?;
    let r0 = Reg::new(0).ok_or("r0")?;
    let addi = Instr::Plain(Plain::AluImm(AluImmOp::Addi, r3, r0, Const::Int(7)));
    let code = vec![in alloc; addi, Instr::Plain(Plain::Jump(Jump::Blr))]?;
    Ok(Function {
        name: Name::from_bytes(alloc, b"main")?,
        is_static: false,
        code: Listed::from_vec(code),
    })
}

fn smallest(alloc: Global) -> Result<Unit, Fail> {
    let name = Name::from_bytes(alloc, b"a.c")?;
    let mut functions = Listed::new(alloc);
    functions.push(main_function(alloc)?)?;
    Ok(Unit {
        name,
        functions,
        variables: Listed::new(alloc),
        externals: Listed::new(alloc),
    })
}

/// Whether a unit is valid, and is written as a text, as its tree is.
fn is_written(alloc: Global, unit: &Unit, want: &str) -> Result<bool, Fail> {
    if !valid_unit(unit) {
        return Ok(false);
    }
    let bytes = write_unit(alloc, unit)?;
    let tree = unit_value(alloc, unit)?.to_string(alloc)?;
    Ok(bytes.as_slice() == want.as_bytes() && tree.as_str() == want)
}

fn is_written_in_version_2(alloc: Global, unit: &Unit, want: &str) -> Result<bool, Fail> {
    if !valid_unit(unit) {
        return Ok(false);
    }
    let bytes = write_unit_2(alloc, unit)?;
    let tree = unit_value_2(alloc, unit)?.to_string(alloc)?;
    Ok(bytes.as_slice() == want.as_bytes() && tree.as_str() == want)
}

#[test]
fn the_smallest_unit(rt: HostRuntime) -> Result<(), Fail> {
    let alloc = rt.alloc();
    let unit = smallest(alloc)?;
    let newest = SMALLEST.replace(alloc, "\"version\":1", "\"version\":2")?;
    let old = is_written(alloc, &unit, SMALLEST)?;
    let new = is_written_in_version_2(alloc, &unit, newest.as_str())?;
    assert_eq!(rt; (old, new), (true, true));
    Ok(())
}

fn is_valid_beside(alloc: Global, external: &str) -> Result<bool, Fail> {
    let name = Name::from_bytes(alloc, external.as_bytes())?;
    let mut unit = smallest(alloc)?;
    unit.externals.push(External { name, sig: None })?;
    Ok(valid_unit(&unit))
}

#[test]
fn names_of_a_valid_unit(rt: HostRuntime) -> Result<(), Fail> {
    let other = is_valid_beside(rt.alloc(), "other")?;
    let main = is_valid_beside(rt.alloc(), "main")?;
    assert_eq!(rt; (other, main), (true, false));
    Ok(())
}

/// The operands of a class, and its spellings.
static CLASSES: [(&str, &str); 27] = [
    ("3,4,-32768", "mulli subfic addic"),
    ("3,4,[\"lo\",\"v\",-4]", "addi"),
    ("3,4,[\"ha\",\"v\",-2147483648]", "addis"),
    ("3,4,65535", "ori oris xori xoris andi. andis."),
    (
        "3,4,5",
        "subfc addc mulhwu subf mulhw subfe adde mullw add divwu divw",
    ),
    ("3,4", "neg subfze addze"),
    (
        "3,4,5",
        "slw and andc nor eqv xor orc or nand srw sraw and.",
    ),
    ("3,4", "cntlzw extsh extsb"),
    ("3,4,31", "srawi"),
    ("3,4,5,6,7", "rlwimi rlwinm"),
    ("3,[\"sda\",\"v\",2147483647],0", "lwz lbz lhz lha"),
    ("3,[\"lo\",\"v\",0],5", "stw stb sth"),
    ("3,4,5", "lwzx lbzx lhzx lhax lwbrx lhbrx"),
    ("3,4,5", "stwx stbx sthx stwbrx sthbrx"),
    ("7,4,5", "cmpw cmplw"),
    ("7,4,-1", "cmpwi"),
    ("7,4,65535", "cmplwi"),
    ("1,2,31", "crxor creqv cror"),
    ("3", "mflr mfctr mtlr mtctr"),
    ("", "sync eieio isync blr bctr bctrl trap cfi annot"),
    ("1", "b bdnz label"),
    ("\"f\"", "bs bl"),
    ("16", "allocframe freeframe"),
    ("3,4294967295", "imm"),
    ("31,1", "bt bf"),
    ("3,[1,1]", "btbl"),
    ("3,31", "mfcrbit"),
];

fn classes() -> &'static [(&'static str, &'static str)] {
    &CLASSES
}

/// A unit in a version with one function, one variable and these externals.
#[derive(Clone, Copy)]
struct Form<'a> {
    version: u32,
    code: &'a str,
    init: &'a str,
    externals: &'a str,
}

fn text_of(alloc: Global, form: &Form) -> Result<String, Fail> {
    Ok(format!(in alloc;
        "{{\"externals\":[{}],\"functions\":[{{\"code\":[{}],\"name\":\"f\",\"static\":true}}],\"unit\":\"a.c\",\"valex\":\"unit\",\"variables\":[{{\"align\":16,\"init\":[{}],\"name\":\"v\",\"static\":false,\"writable\":true}}],\"version\":{}}}",
        form.externals, form.code, form.init, form.version
    )?)
}

/// What is written for the unit that a text is, in its oldest version or in the newest. No unit that is read needs the test.
fn rewritten(alloc: Global, text: &str, newest: bool) -> Result<Vec<u8>, Fail> {
    match read_unit(alloc, text.as_bytes()) {
        Ok(unit) if newest => Ok(write_unit_2(alloc, &unit)?),
        Ok(unit) => Ok(write_unit(alloc, &unit)?),
        Err(_) => Err(Fail::from("a unit")),
    }
}

/// Whether a text is written as another.
fn is_rewritten(alloc: Global, text: &str, want: &str, newest: bool) -> Result<bool, Fail> {
    let found = rewritten(alloc, text, newest)?;
    Ok(found.as_slice() == want.as_bytes())
}

/// Whether an instruction is written as it is read.
fn is_kept(alloc: Global, mnemonic: &str, operands: &str) -> Result<bool, Fail> {
    let comma = if operands.is_empty() { "" } else { "," };
    let label = if mnemonic == "label" { 2 } else { 1 };
    let code = format!(in alloc;
        "[\"{mnemonic}\"{comma}{operands}],[\"label\",{label}],[\"blr\"]"
    )?;
    let form = Form {
        version: 1,
        code: code.as_str(),
        init: "",
        externals: "",
    };
    let text = text_of(alloc, &form)?;
    is_rewritten(alloc, text.as_str(), text.as_str(), false)
}

/// The spellings among these that are written as they are read.
fn kept_of(alloc: Global, mnemonics: &str, operands: &str) -> Result<String, Fail> {
    let mut kept = String::new(alloc);
    for mnemonic in mnemonics.split(' ') {
        if is_kept(alloc, mnemonic, operands)? {
            kept.push_str(" ")?;
            kept.push_str(mnemonic)?;
        }
    }
    Ok(kept)
}

fn count_of_spellings() -> usize {
    let mut count: usize = 0;
    for (_, mnemonics) in classes() {
        count = count.wrapping_add(mnemonics.split(' ').count());
    }
    count
}

#[test]
fn each_spelling_is_kept(rt: HostRuntime) -> Result<(), Fail> {
    for (operands, mnemonics) in classes() {
        let kept = kept_of(rt.alloc(), mnemonics, operands)?;
        assert_eq!(rt; kept.as_str().trim_start(), *mnemonics);
    }
    assert_eq!(rt; count_of_spellings(), 93);
    Ok(())
}

const INIT: &str =
    "[\"i8\",255],[\"i16\",65535],[\"i32\",4294967295],[\"bytes\",\"00ff\"],[\"space\",16777000],[\"addr\",\"f\",-1]";

const EXTERNALS: &str =
    "{\"name\":\"e\",\"sig\":{\"args\":[\"w\",\"l\"],\"result\":\"l\"}},{\"name\":\"w\",\"sig\":{\"args\":[],\"result\":\"w\"}},{\"name\":\"n\",\"sig\":{\"args\":[\"l\"],\"result\":\"none\"}},{\"name\":\"x\",\"sig\":null}";

/// Version 2: without buffers, and with each form of a buffer.
const PLAIN: &str =
    "{\"name\":\"e\",\"sig\":{\"args\":[\"w\"],\"buffers\":[],\"result\":\"none\"}},{\"name\":\"x\",\"sig\":null}";

const BUFFERS: &str =
    "{\"name\":\"e\",\"sig\":{\"args\":[\"w\",\"l\",\"w\"],\"buffers\":[[\"in\",0,0],[\"out\",2,65536],[\"in\",2,[\"arg\",0]],[\"out\",0,[\"arg\",2]],[\"in\",0,1],[\"in\",0,2],[\"in\",0,3],[\"in\",0,4]],\"result\":\"w\"}},{\"name\":\"x\",\"sig\":{\"args\":[],\"buffers\":[],\"result\":\"none\"}}";

/// Units, and what is written for each.
static FORMS: [(Form<'static>, Form<'static>); 4] = [
    (
        Form {
            version: 1,
            code: "[\"blr\"]",
            init: INIT,
            externals: EXTERNALS,
        },
        Form {
            version: 1,
            code: "[\"blr\"]",
            init: INIT,
            externals: EXTERNALS,
        },
    ),
    // numbers that are read modulo their size, digits of both cases, and marks with further items
    (
        Form {
            version: 1,
            code: "[\"imm\",3,-1],[\"cfi\",\"x\",1.5],[\"annot\",[]]",
            init: "[\"i8\",-128],[\"i16\",-1],[\"i32\",-2147483648],[\"bytes\",\"AbCd\"]",
            externals: "",
        },
        Form {
            version: 1,
            code: "[\"imm\",3,4294967295],[\"cfi\"],[\"annot\"]",
            init: "[\"i8\",128],[\"i16\",65535],[\"i32\",2147483648],[\"bytes\",\"abcd\"]",
            externals: "",
        },
    ),
    (
        Form {
            version: 2,
            code: "[\"blr\"]",
            init: "",
            externals: BUFFERS,
        },
        Form {
            version: 2,
            code: "[\"blr\"]",
            init: "",
            externals: BUFFERS,
        },
    ),
    // version 2 without a buffer is written in version 1
    (
        Form {
            version: 2,
            code: "[\"blr\"]",
            init: "",
            externals: PLAIN,
        },
        Form {
            version: 1,
            code: "[\"blr\"]",
            init: "",
            externals: "{\"name\":\"e\",\"sig\":{\"args\":[\"w\"],\"result\":\"none\"}},{\"name\":\"x\",\"sig\":null}",
        },
    ),
];

fn forms() -> &'static [(Form<'static>, Form<'static>)] {
    &FORMS
}

/// Units that the newest version keeps.
static NEWEST: [Form<'static>; 2] = [
    Form {
        version: 2,
        code: "[\"blr\"]",
        init: INIT,
        externals: PLAIN,
    },
    Form {
        version: 2,
        code: "[\"blr\"]",
        init: INIT,
        externals: BUFFERS,
    },
];

fn newest() -> &'static [Form<'static>] {
    &NEWEST
}

/// Whether a unit is written in a form, and that form as itself.
fn are_written(alloc: Global, form: &Form, want: &Form) -> Result<(bool, bool), Fail> {
    let text = text_of(alloc, form)?;
    let want = text_of(alloc, want)?;
    Ok((
        is_rewritten(alloc, text.as_str(), want.as_str(), false)?,
        is_rewritten(alloc, want.as_str(), want.as_str(), false)?,
    ))
}

fn is_kept_in_version_2(alloc: Global, form: &Form) -> Result<bool, Fail> {
    let text = text_of(alloc, form)?;
    is_rewritten(alloc, text.as_str(), text.as_str(), true)
}

#[test]
fn data_and_externals(rt: HostRuntime) -> Result<(), Fail> {
    for (form, want) in forms() {
        assert_eq!(rt;
            are_written(rt.alloc(), form, want)?,
            (true, true),
            "{} {}",
            form.init,
            form.externals
        );
    }
    Ok(())
}

#[test]
fn data_and_externals_in_version_2(rt: HostRuntime) -> Result<(), Fail> {
    for form in newest() {
        assert_eq!(rt;
            is_kept_in_version_2(rt.alloc(), form)?,
            true,
            "{}",
            form.externals
        );
    }
    Ok(())
}
