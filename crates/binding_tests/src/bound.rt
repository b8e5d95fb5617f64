//! What is printed of a case.

ghost use Rattle.std.specs.Prelude.{◌≤◌, ◌≡◌, length, true};
ghost use Rattle.std.specs.List.{list_all};
ghost use Rattle.limits.specs.declared.TheConstants.{MOST_UNITS};
ghost use Rattle.asm_shapes.specs.Units.{unit_fits};

use asm_syntax::unit::Unit;
use elf_view::ElfView;
use layout_file::layout::Layout;
use layout_file::read_layout;
use link_model::link_error::BindFault;
use linked_program::program::Program;
use std::alloc::{AllocError, Global};
use symbol_bind::bind::{Binding, bind};
use test_images::lines::image_of;
use test_units::lines::{units_of, value};

/// The layout with an entry and pins, without areas. None where it is no layout.
pub fn layout(alloc: Global, entry: &str, pins: &str) -> Option<Layout> {
    let text = format!(in alloc;
        "{{\"valex\":\"layout\",\"version\":1,\"entry\":\"{entry}\",\"stop\":\"0x0ff00000\",\"stack\":[\"0x20000000\",\"0x20010000\"],\"r13\":\"0x10038000\",\"r2\":\"0x10048000\",\"areas\":[],\"foreign\":[],\"pins\":[{pins}]}}"
    ).ok()?;
    read_layout(alloc, text.as_bytes()).ok()
}

/// The file of the lines of segments and symbols.
fn image(alloc: Global, lines: &[String]) -> Result<Option<Vec<u8>>, AllocError> {
    let mut text = String::from_str(alloc, "entry 10010000\n")?;
    for line in lines {
        if line.as_str().starts_with("segment ") || line.as_str().starts_with("symbol ") {
            text.push_str(line.as_str())?;
            text.push_str("\n")?;
        }
    }
    Ok(image_of(alloc, text.as_str()))
}

/// The binding of units to the symbols of a file. None where the units do not link, or the file is no image.
pub fn binding(
    alloc: Global,
    units: &[Unit],
    layout: &Layout,
    file: &[u8],
) -> Option<Result<Binding, BindFault>>
    requires few { length units.now ≤ MOST_UNITS }
    requires fit { list_all unit_fits units.now ≡ true }
{
    let program = Program::link(alloc, units, layout.entry()).ok()?;
    let view = ElfView::read(file).ok()?;
    Some(bind(alloc, &view, layout, &program))
}

fn addresses(alloc: Global, binding: &Binding) -> Result<String, AllocError> {
    let mut text = String::new(alloc);
    for address in binding.addresses() {
        text.push_str(format!(in alloc; " {address:08x}")?.as_str())?;
    }
    Ok(text)
}

fn fault(alloc: Global, fault: BindFault) -> Result<String, AllocError> {
    let number = fault.number();
    match fault {
        BindFault::NoSymbol(key) | BindFault::NoneFits(key) => {
            format!(in alloc; " fault {number} key {key}")
        }
        BindFault::SeveralFit(key, count) => {
            format!(in alloc; " fault {number} key {key} {count} fit")
        }
        BindFault::Memory => format!(in alloc; " fault {number}"),
    }
}

fn linked(alloc: Global, lines: &[String], units: &[Unit]) -> Result<String, AllocError>
    requires few { length units.now ≤ MOST_UNITS }
    requires fit { list_all unit_fits units.now ≡ true }
{
    let Some(layout) = layout(alloc, "main", value(lines, "pins")) else {
        return String::from_str(alloc, " no layout");
    };
    let Some(file) = image(alloc, lines)? else {
        return String::from_str(alloc, " no file");
    };
    match binding(alloc, units, &layout, &file) {
        Some(Ok(binding)) => addresses(alloc, &binding),
        Some(Err(error)) => fault(alloc, error),
        None => String::from_str(alloc, " no program or no image"),
    }
}

/// The title, and what is told.
pub fn told(alloc: Global, lines: &[String]) -> Result<String, AllocError> {
    let text = match units_of(alloc, lines) {
        Ok(units) => linked(alloc, lines, &units)?,
        Err(error) => format!(in alloc; " {error:?}")?,
    };
    format!(in alloc; "{}:{text}", value(lines, "case"))
}
