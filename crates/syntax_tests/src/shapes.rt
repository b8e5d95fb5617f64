use asm_shapes::{function_fault, unit_fits, valid_function};
use asm_syntax::instr::{Function, Instr, Jump, Plain};
use asm_syntax::listed::Listed;
use asm_syntax::name::Name;
use asm_syntax::operations::MoveOp;
use asm_syntax::reg::Reg;
use asm_syntax::shape::ShapeError;
use asm_syntax::unit::{External, Unit};
use limits::{MOST_EXTERNALS, MOST_INSTRUCTIONS};
use std::alloc::Global;
use std::test::Fail;

const BLR: Instr = Instr::Plain(Plain::Jump(Jump::Blr));

fn function(alloc: Global, code: Vec<Instr>) -> Result<Function, Fail> {
    Ok(Function {
        name: Name::from_bytes(alloc, b"f")?,
        is_static: false,
        code: Listed::from_vec(code),
    })
}

#[test]
fn each_fault_of_a_function(rt: HostRuntime) -> Result<(), Fail> {
    let alloc = rt.alloc();
    let r2 = Reg::new(2).ok_or("r2")?;
    let table = [
        (vec![in alloc; BLR]?, Ok(())),
        (
            vec![in alloc; Instr::Label(1), Instr::Cfi, Instr::Label(1)]?,
            Err(ShapeError::Empty(0)),
        ),
        (
            vec![in alloc; BLR, Instr::Plain(Plain::Move(MoveOp::Mflr, r2))]?,
            Err(ShapeError::WritesReserved(1)),
        ),
        (
            vec![in alloc; BLR, Instr::Bt(32, 1)]?,
            Err(ShapeError::NoLabel(1)),
        ),
        (
            vec![in alloc; Instr::Label(1), BLR, Instr::Label(1)]?,
            Err(ShapeError::TwoLabels(2)),
        ),
        (
            vec![in alloc; Instr::AllocFrame(24), Instr::FreeFrame(20)]?,
            Err(ShapeError::BadFrame(1)),
        ),
        (
            vec![in alloc; Instr::Bf(32, 1), Instr::Label(1), Instr::Label(1)]?,
            Err(ShapeError::BadRange(0)),
        ),
    ];
    for (code, want) in table {
        let f = function(alloc, code)?;
        assert_eq!(rt; valid_function(&f), want);
        assert_eq!(rt; function_fault(alloc, &f)?, want.err());
    }
    Ok(())
}

/// So many labels, each named once in each of so many tables.
fn tables_of_labels(alloc: Global, labels: u32, tables: u32) -> Result<Function, Fail> {
    let r3 = Reg::new(3).ok_or("r3")?;
    let mut code = Vec::new(alloc);
    for label in 0..labels {
        code.push(Instr::Label(label))?;
    }
    for _ in 0..tables {
        let mut named = Vec::new(alloc);
        for label in 0..labels {
            named.push(label)?;
        }
        code.push(Instr::Btbl(r3, Listed::from_vec(named)))?;
    }
    function(alloc, code)
}

/// A search through the code for each of these four million labels would not end in a test's time.
#[test]
fn labels_of_a_long_function(rt: HostRuntime) -> Result<(), Fail> {
    let alloc = rt.alloc();
    let f = tables_of_labels(alloc, MOST_INSTRUCTIONS - 64, 64)?;
    assert_eq!(rt; function_fault(alloc, &f)?, None);
    Ok(())
}

fn externals(alloc: Global, count: u32) -> Result<Vec<External>, Fail> {
    let mut all = Vec::new(alloc);
    for i in 0..count {
        let name = format!(in alloc; "e{i}")?;
        let name = Name::from_bytes(alloc, name.as_bytes())?;
        all.push(External { name, sig: None })?;
    }
    Ok(all)
}

#[test]
fn externals_of_a_unit(rt: HostRuntime) -> Result<(), Fail> {
    let alloc = rt.alloc();
    for (count, want) in [(2, true), (MOST_EXTERNALS + 1, false)] {
        let u = Unit {
            name: Name::from_bytes(alloc, b"u")?,
            functions: Listed::new(alloc),
            variables: Listed::new(alloc),
            externals: Listed::from_vec(externals(alloc, count)?),
        };
        assert_eq!(rt; unit_fits(&u), want);
    }
    Ok(())
}
