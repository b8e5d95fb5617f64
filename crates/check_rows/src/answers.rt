//! What `check` answers of a program in lines of text.

ghost use Rattle.std.specs.Prelude.{◌≡◌, ◌≤◌, IfOk, IfSome, length, true};
ghost use Rattle.std.specs.List.{list_all};
ghost use Rattle.asm_shapes.specs.Units.{unit_fits};

use crate::program::ProgramLines;
use crate::telling::{told_account, told_fault};
use asm_shapes::unit_fits;
use asm_syntax::unit::Unit;
use dump_reader::read_unit;
use elf_view::ElfView;
use image_check::binding::bound;
use image_check::checking::check;
use key_passes::fault::CheckFault;
use layout_file::layout::Layout;
use layout_file::read_layout;
use limits::MOST_UNITS;
use linked_program::program::Program;
use std::alloc::{AllocError, Global};

fn read_units(alloc: Global, texts: &[String]) -> Option<Vec<Unit>> {
    let mut units = Vec::new(alloc);
    for text in texts {
        units.push(read_unit(alloc, text.as_bytes()).ok()?).ok()?;
    }
    Some(units)
}

fn all_fit(units: &[Unit]) -> bool
    ensures { result ≡ list_all unit_fits units.now }
{
    units.iter().all(|unit| unit_fits(unit))
}

/// What `bound` answers: `bound` where each key has an address and the externals are where they may be.
fn bound_answer(
    alloc: Global,
    view: &ElfView,
    layout: &Layout,
    program: &Program,
) -> Option<String> {
    match bound(alloc, view, layout, program) {
        Ok(_) => String::from_str(alloc, "bound").ok(),
        Err(CheckFault::No(fault)) => told_fault(alloc, &fault).ok(),
        Err(CheckFault::Memory) => None,
    }
}

fn check_answer(
    alloc: Global,
    view: &ElfView,
    layout: &Layout,
    program: &Program,
) -> Option<String> {
    match check(alloc, view, layout, program) {
        Ok(account) => told_account(alloc, &account).ok(),
        Err(CheckFault::No(fault)) => told_fault(alloc, &fault).ok(),
        Err(CheckFault::Memory) => None,
    }
}

/// What is told of the whole, and in a second line what of the keys.
fn told_check(alloc: Global, view: &ElfView, layout: &Layout, program: &Program) -> Option<String> {
    let whole = check_answer(alloc, view, layout, program)?;
    let keys = bound_answer(alloc, view, layout, program)?;
    format!(in alloc; "{whole}\nkeys: {keys}").ok()
}

/// Where the units do not link, `link` and the error's number.
fn told_units(alloc: Global, view: &ElfView, layout: &Layout, units: &[Unit]) -> Option<String> {
    if units.len() > MOST_UNITS as usize || !all_fit(units) {
        return None;
    }
    match Program::link(alloc, units, layout.entry()) {
        Ok(linked) => told_check(alloc, view, layout, &linked),
        Err(error) => format!(in alloc; "link {}", error.number()).ok(),
    }
}

fn layout_of(alloc: Global, program: &ProgramLines) -> Option<Layout> {
    let text = program.layout(alloc).ok()?;
    read_layout(alloc, text.as_bytes()).ok()
}

fn units_of(alloc: Global, program: &ProgramLines) -> Option<Vec<Unit>> {
    let texts = program.units(alloc).ok()?;
    read_units(alloc, &texts)
}

/// None for texts that are not read, and for want of memory.
fn told_program(alloc: Global, program: &ProgramLines) -> Option<String> {
    let layout = layout_of(alloc, program)?;
    let units = units_of(alloc, program)?;
    let image = program.image(alloc)?;
    let view = ElfView::read(&image).ok()?;
    told_units(alloc, &view, &layout, &units)
}

/// The title, and what is told.
pub fn told(alloc: Global, lines: &[String]) -> Result<String, AllocError> {
    let Some(program) = ProgramLines::read(alloc, lines) else {
        return String::from_str(alloc, "lines of another form");
    };
    match told_program(alloc, &program) {
        Some(text) => format!(in alloc; "{}: {text}", program.title),
        None => format!(in alloc; "{}: no answer", program.title),
    }
}
