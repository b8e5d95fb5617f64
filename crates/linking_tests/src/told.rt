//! What is printed of a case.

ghost use Rattle.std.specs.Prelude.{◌≤◌, ◌≡◌, length, true};
ghost use Rattle.std.specs.List.{list_all};
ghost use Rattle.limits.specs.declared.TheConstants.{MOST_UNITS};
ghost use Rattle.asm_shapes.specs.Units.{unit_fits};

use asm_syntax::name::Name;
use asm_syntax::unit::Unit;
use link_model::key::KeyKind;
use link_model::link_error::LinkError;
use linked_program::program::Program;
use std::alloc::{AllocError, Global};
use test_units::lines::{units_of, value};

/// What a program tells of a key by its kind and its number in it.
#[derive(Clone, Copy)]
struct ByNumber<'u> {
    key: u32,
    word: &'static str,
    name: &'u Name,
    alignment: u8,
}

fn key_by_number<'u>(p: &Program<'u>, kind: KeyKind) -> Option<ByNumber<'u>> {
    match kind {
        KeyKind::Function(n) if n < p.functions() => Some(ByNumber {
            key: p.key_of(KeyKind::Function(n)),
            word: "function",
            name: &p.function(n).name,
            alignment: 1,
        }),
        KeyKind::Variable(n) if n < p.variables() => Some(ByNumber {
            key: p.key_of(KeyKind::Variable(n)),
            word: "variable",
            name: &p.variable(n).name,
            alignment: p.align_of(n),
        }),
        KeyKind::External(n) if n < p.externals() => Some(ByNumber {
            key: p.key_of(KeyKind::External(n)),
            word: "external",
            name: &p.external(n).name,
            alignment: 1,
        }),
        _ => None,
    }
}

fn number(kind: KeyKind) -> u32 {
    match kind {
        KeyKind::Function(n) | KeyKind::Variable(n) | KeyKind::External(n) => n,
    }
}

/// The lines of the keys. What is told by the number must be what is told by the key.
fn keys(alloc: Global, p: &Program) -> Result<String, AllocError> {
    let mut text = String::new(alloc);
    for k in 0..p.keys() {
        let kind = p.kind(k);
        let unit = p.unit_name(p.unit_of(k)).text();
        let name = p.declaration(k).name().text();
        let line = match key_by_number(p, kind) {
            Some(found)
                if found.key == k
                    && found.alignment == p.alignment(k)
                    && found.name.text() == name => {
                let align = if found.alignment == 1 {
                    None
                } else {
                    Some(found.alignment)
                };
                key_line(alloc, found.word, number(kind), unit, name, align)?
            }
            _ => format!(in alloc; "\nanother key by its number than {k}")?,
        };
        text.push_str(line.as_str())?;
    }
    Ok(text)
}

fn key_line(
    alloc: Global,
    word: &str,
    number: u32,
    unit: &str,
    name: &str,
    align: Option<u8>,
) -> Result<String, AllocError> {
    match align {
        Some(align) => format!(in alloc; "\n{word} {number} {unit} {name} {align}"),
        None => format!(in alloc; "\n{word} {number} {unit} {name}"),
    }
}

/// The line of a name that is looked up.
fn meaning(alloc: Global, p: &Program, unit: &str, name: &str) -> Result<String, AllocError> {
    let Ok(number) = u32::from_str_radix(unit, 10) else {
        return String::from_str(alloc, "\nno number");
    };
    let Ok(bytes) = Name::from_bytes(alloc, name.as_bytes()) else {
        return String::from_str(alloc, "\nno name");
    };
    match p.resolve(number, &bytes) {
        Some(key) => format!(in alloc; "\n{name} in {unit} is {key}"),
        None => format!(in alloc; "\n{name} in {unit} is nothing"),
    }
}

fn meanings(alloc: Global, p: &Program, lines: &[String]) -> Result<String, AllocError> {
    let mut text = String::new(alloc);
    for line in lines {
        if let Some(rest) = line.as_str().strip_prefix("meaning ") {
            if let Some((unit, name)) = rest.split_once(' ') {
                text.push_str(meaning(alloc, p, unit, name)?.as_str())?;
            }
        }
    }
    Ok(text)
}

fn program(alloc: Global, p: &Program, lines: &[String]) -> Result<String, AllocError> {
    let keys = keys(alloc, p)?;
    let meanings = meanings(alloc, p, lines)?;
    format!(in alloc;
        "{} {} {} {} entry {}{keys}{meanings}",
        p.units(),
        p.functions(),
        p.variables(),
        p.externals(),
        p.entry_key()
    )
}

fn fault(alloc: Global, error: &LinkError) -> Result<String, AllocError> {
    let number = error.number();
    match error {
        LinkError::UnitTwice(u) => format!(in alloc; "fault {number} {u}"),
        LinkError::DefinedTwice(u, name)
        | LinkError::Undeclared(u, name)
        | LinkError::SigDiffers(u, name)
        | LinkError::TooBig(u, name) => format!(in alloc; "fault {number} {u} {}", name.text()),
        LinkError::NoEntry | LinkError::Memory => format!(in alloc; "fault {number}"),
    }
}

fn linked(alloc: Global, lines: &[String], units: &[Unit]) -> Result<String, AllocError>
    requires few { length units.now ≤ MOST_UNITS }
    requires fit { list_all unit_fits units.now ≡ true }
{
    let Ok(entry) = Name::from_bytes(alloc, value(lines, "entry").as_bytes()) else {
        return String::from_str(alloc, "no name");
    };
    match &Program::link(alloc, units, &entry) {
        Ok(p) => program(alloc, p, lines),
        Err(error) => fault(alloc, error),
    }
}

/// The title, and what is told.
pub fn told(alloc: Global, lines: &[String]) -> Result<String, AllocError> {
    let text = match units_of(alloc, lines) {
        Ok(units) => linked(alloc, lines, &units)?,
        Err(error) => format!(in alloc; "{error:?}")?,
    };
    format!(in alloc; "{}: {text}", value(lines, "case"))
}
