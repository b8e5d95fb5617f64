//! Units from lines: `unit NAME`, and what it has in further lines.
//! ```text
//! unit a.c
//! function main ["bl","f"],["blr"]
//! static-function f ["blr"]
//! data x 4 ["space",4]
//! constant y 1 ["i8",1]
//! object stdin
//! external write ["w","w"] none ["in",0,["arg",1]]
//! ```
//! `data` may be written and `constant` may not, and both have their alignment and then their items; before each stands `static-` where
//! it is static. An external has its arguments, its result and its buffers, and `object` is one without a signature.

ghost use Rattle.std.specs.Prelude.{◌≤◌, ◌≡◌, IfOk, length, true};
ghost use Rattle.std.specs.List.{list_all};
ghost use Rattle.limits.specs.declared.TheConstants.{MOST_UNITS};
ghost use Rattle.asm_shapes.specs.Units.{unit_fits};

use crate::rows::Dump;
use asm_syntax::unit::Unit;
use dump_reader::{DumpError, read_unit};
use limits::MOST_UNITS;
use std::alloc::{AllocError, Global};

/// Why lines are no units.
#[derive(Debug, Drop)]
pub enum LinesError {
    Memory,
    Dump(DumpError),
    /// More units than a program may have.
    Limit,
}

/// The dumps that lines make. Lines that are no declarations are passed over.
pub fn dumps(alloc: Global, lines: &[String]) -> Result<Vec<String>, AllocError> {
    let mut open: Vec<Dump> = Vec::new(alloc);
    for line in lines {
        match line.as_str().strip_prefix("unit ") {
            Some(name) => open.push(Dump::new(alloc, name)?)?,
            None => {
                if let Some(dump) = open.last_mut() {
                    dump.add(alloc, line.as_str())?;
                }
            }
        }
    }
    let mut dumps = Vec::new(alloc);
    for dump in &open {
        dumps.push(dump.text(alloc)?)?;
    }
    Ok(dumps)
}

/// The units of dumps.
pub fn read_all(alloc: Global, dumps: &[String]) -> Result<Vec<Unit>, LinesError>
    ensures few { IfOk result (λ units. length units.items ≤ MOST_UNITS) }
    ensures fit { IfOk result (λ units. list_all unit_fits units.items ≡ true) }
{
    let mut units = Vec::new(alloc);
    for text in dumps {
        match read_unit(alloc, text.as_bytes()) {
            Ok(unit) => match units.push(unit) {
                Ok(()) => {}
                Err(_) => return Err(LinesError::Memory),
            },
            Err(error) => return Err(LinesError::Dump(error)),
        }
    }
    if units.len() > MOST_UNITS as usize {
        return Err(LinesError::Limit);
    }
    Ok(units)
}

/// The units of lines.
pub fn units_of(alloc: Global, lines: &[String]) -> Result<Vec<Unit>, LinesError>
    ensures few { IfOk result (λ units. length units.items ≤ MOST_UNITS) }
    ensures fit { IfOk result (λ units. list_all unit_fits units.items ≡ true) }
{
    match dumps(alloc, lines) {
        Ok(dumps) => read_all(alloc, &dumps),
        Err(_) => Err(LinesError::Memory),
    }
}

/// What stands behind a word and a space in the first line that begins so, or the empty text.
pub fn value<'a>(lines: &'a [String], word: &str) -> &'a str {
    for line in lines {
        if let Some((front, back)) = line.as_str().split_once(' ') {
            if front == word {
                return back;
            }
        }
    }
    ""
}
