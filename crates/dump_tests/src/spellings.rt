//! Each spelling of the profile of dumps beside the form that it selects, as `{:?}` shows it, and the spellings that are refused.

use mnemonics::{Form, mnemonics};
use std::test::Fail;

static FORMS: [(&str, &str); 93] = [
    ("mulli", "AluImm(Mulli)"),
    ("subfic", "AluImm(Subfic)"),
    ("addic", "AluImm(Addic)"),
    ("addi", "AluImm(Addi)"),
    ("addis", "AluImm(Addis)"),
    ("ori", "LogImm(Ori)"),
    ("oris", "LogImm(Oris)"),
    ("xori", "LogImm(Xori)"),
    ("xoris", "LogImm(Xoris)"),
    ("andi.", "LogImm(AndiDot)"),
    ("andis.", "LogImm(AndisDot)"),
    ("subfc", "Alu(Subfc)"),
    ("addc", "Alu(Addc)"),
    ("mulhwu", "Alu(Mulhwu)"),
    ("subf", "Alu(Subf)"),
    ("mulhw", "Alu(Mulhw)"),
    ("subfe", "Alu(Subfe)"),
    ("adde", "Alu(Adde)"),
    ("mullw", "Alu(Mullw)"),
    ("add", "Alu(Add)"),
    ("divwu", "Alu(Divwu)"),
    ("divw", "Alu(Divw)"),
    ("neg", "Alu2(Neg)"),
    ("subfze", "Alu2(Subfze)"),
    ("addze", "Alu2(Addze)"),
    ("slw", "Log(Slw)"),
    ("and", "Log(And)"),
    ("andc", "Log(Andc)"),
    ("nor", "Log(Nor)"),
    ("eqv", "Log(Eqv)"),
    ("xor", "Log(Xor)"),
    ("orc", "Log(Orc)"),
    ("or", "Log(Or)"),
    ("nand", "Log(Nand)"),
    ("srw", "Log(Srw)"),
    ("sraw", "Log(Sraw)"),
    ("and.", "Log(AndDot)"),
    ("cntlzw", "Log2(Cntlzw)"),
    ("extsh", "Log2(Extsh)"),
    ("extsb", "Log2(Extsb)"),
    ("srawi", "Srawi"),
    ("rlwimi", "Rot(Rlwimi)"),
    ("rlwinm", "Rot(Rlwinm)"),
    ("lwz", "Load(Lwz)"),
    ("lbz", "Load(Lbz)"),
    ("lhz", "Load(Lhz)"),
    ("lha", "Load(Lha)"),
    ("stw", "Store(Stw)"),
    ("stb", "Store(Stb)"),
    ("sth", "Store(Sth)"),
    ("lwzx", "LoadX(Lwzx)"),
    ("lbzx", "LoadX(Lbzx)"),
    ("lhzx", "LoadX(Lhzx)"),
    ("lhax", "LoadX(Lhax)"),
    ("lwbrx", "LoadX(Lwbrx)"),
    ("lhbrx", "LoadX(Lhbrx)"),
    ("stwx", "StoreX(Stwx)"),
    ("stbx", "StoreX(Stbx)"),
    ("sthx", "StoreX(Sthx)"),
    ("stwbrx", "StoreX(Stwbrx)"),
    ("sthbrx", "StoreX(Sthbrx)"),
    ("cmpw", "Cmp(Cmpw)"),
    ("cmplw", "Cmp(Cmplw)"),
    ("cmpwi", "CmpImm(Cmpwi)"),
    ("cmplwi", "CmpImm(Cmplwi)"),
    ("crxor", "CrBit(Crxor)"),
    ("creqv", "CrBit(Creqv)"),
    ("cror", "CrBit(Cror)"),
    ("mflr", "Move(Mflr)"),
    ("mfctr", "Move(Mfctr)"),
    ("mtlr", "Move(Mtlr)"),
    ("mtctr", "Move(Mtctr)"),
    ("sync", "Bar(Sync)"),
    ("eieio", "Bar(Eieio)"),
    ("isync", "Bar(Isync)"),
    ("b", "Jump(B)"),
    ("bs", "Jump(Bs)"),
    ("bl", "Jump(Bl)"),
    ("bdnz", "Jump(Bdnz)"),
    ("blr", "Jump(Blr)"),
    ("bctr", "Jump(Bctr)"),
    ("bctrl", "Jump(Bctrl)"),
    ("trap", "Jump(Trap)"),
    ("allocframe", "Pseudo(AllocFrame)"),
    ("freeframe", "Pseudo(FreeFrame)"),
    ("imm", "Pseudo(Imm)"),
    ("bt", "Pseudo(Bt)"),
    ("bf", "Pseudo(Bf)"),
    ("btbl", "Pseudo(Btbl)"),
    ("mfcrbit", "Pseudo(MfcrBit)"),
    ("label", "Pseudo(Label)"),
    ("cfi", "Pseudo(Cfi)"),
    ("annot", "Pseudo(Annot)"),
];

static REFUSED: [&str; 39] = [
    "fabs", "fadd", "fadds", "fcmpu", "fctiwz", "fdiv", "fdivs", "fmadd", "fmr", "fmsub", "fmul",
    "fmuls", "fneg", "frsp", "fsub", "fsubs", "lfd", "lfdx", "lfs", "lfsx", "stfd", "stfdx",
    "stfs", "stfsx", "cmpd", "cmpld", "divd", "divdu", "extsw", "ld", "ldx", "mulld", "rldicl",
    "rldicr", "sld", "srad", "srd", "std", "stdx",
];

/// The spellings beside their forms, of which no more is known than that they are a slice: so the test's proof does not read them.
fn forms() -> &'static [(&'static str, &'static str)] {
    &FORMS
}

fn refused() -> &'static [&'static str] {
    &REFUSED
}

fn form_of(spelling: &str) -> Option<Option<Form>> {
    for (word, form) in mnemonics() {
        if *word == spelling {
            return Some(*form);
        }
    }
    None
}

#[test]
fn spellings_select_these_forms(rt: HostRuntime) -> Result<(), Fail> {
    assert_eq!(rt; mnemonics().len(), forms().len() + refused().len());
    for (spelling, shown) in forms() {
        match form_of(spelling) {
            Some(Some(form)) => {
                assert_eq!(rt;
                    format!(in rt.alloc(); "{form:?}")?.as_str(),
                    *shown,
                    "{spelling}"
                );
            }
            _ => assert!(rt; false, "{spelling}"),
        }
    }
    for spelling in refused() {
        assert_eq!(rt; form_of(spelling), Some(None), "{spelling}");
    }
    Ok(())
}
