//! A case, and what is printed of it.

ghost use Rattle.std.specs.Prelude.{◌≤◌, ◌≡◌, length, true};
ghost use Rattle.std.specs.List.{list_all};
ghost use Rattle.limits.specs.declared.TheConstants.{MOST_UNITS};
ghost use Rattle.asm_shapes.specs.Units.{unit_fits};

use crate::run::{Run, trace};
use asm_machine::executable::executable;
use asm_machine::machine::{AsmCpu, Home};
use asm_syntax::name::Name;
use asm_syntax::unit::{Reply, Unit};
use call_bytes::bytes::CallBytes;
use dump_reader::read_replies;
use linked_program::program::Program;
use std::alloc::{AllocError, Global};
use test_units::lines::{units_of, value};

const SHARED_REPLIES: &str = "11,[17,34],0,0";

const SHARED_STEPS: u32 = 100;

/// A title, what is linked, and how it is run.
#[derive(Drop)]
pub struct Case {
    title: String,
    lines: Vec<String>,
    replies: String,
    steps: u32,
    is_shared: bool,
}

fn number(text: &str) -> u32 {
    u32::from_str_radix(text, 10).unwrap_or(0)
}

fn copy_lines(alloc: Global, lines: &[String], copy: &mut Vec<String>) -> Result<(), AllocError> {
    for line in lines {
        copy.push(String::from_str(alloc, line.as_str())?)?;
    }
    Ok(())
}

impl Case {
    fn of_code(alloc: Global, code: &str, shared: &[String]) -> Result<Case, AllocError> {
        let mut lines = Vec::new(alloc);
        lines.push(String::from_str(alloc, "unit a.c")?)?;
        lines.push(format!(in alloc; "function main {code}")?)?;
        copy_lines(alloc, shared, &mut lines)?;
        Ok(Case {
            title: String::from_str(alloc, code)?,
            lines,
            replies: String::from_str(alloc, SHARED_REPLIES)?,
            steps: SHARED_STEPS,
            is_shared: true,
        })
    }

    /// The case of its lines.
    pub fn of(alloc: Global, lines: &[String], shared: &[String]) -> Result<Case, AllocError> {
        let code = value(lines, "code");
        if !code.is_empty() {
            return Case::of_code(alloc, code, shared);
        }
        let mut own = Vec::new(alloc);
        copy_lines(alloc, lines, &mut own)?;
        Ok(Case {
            title: String::from_str(alloc, value(lines, "case"))?,
            lines: own,
            replies: String::from_str(alloc, value(lines, "replies"))?,
            steps: number(value(lines, "steps")),
            is_shared: false,
        })
    }
}

fn home(alloc: Global, cpu: &AsmCpu, block: u32) -> Result<String, AllocError> {
    match cpu.home(block) {
        Some(Home::Variable(v)) => format!(in alloc; "\nhome {block}: variable {v}"),
        Some(Home::Frame(bytes)) => format!(in alloc; "\nhome {block}: frame {bytes}"),
        None => format!(in alloc; "\nhome {block}: none"),
    }
}

/// The frames, and the blocks that a case looks up.
fn frames(alloc: Global, case: &Case, cpu: &AsmCpu) -> Result<String, AllocError> {
    if case.is_shared {
        return Ok(String::new(alloc));
    }
    let mut text = format!(in alloc; "\nframes {} deepest {}", cpu.made(), cpu.deepest())?;
    for line in &case.lines {
        if let Some(block) = line.as_str().strip_prefix("home ") {
            text.push_str(home(alloc, cpu, number(block))?.as_str())?;
        }
    }
    Ok(text)
}

fn run(
    alloc: Global,
    case: &Case,
    p: &Program,
    replies: &[Reply],
    bytes: &mut CallBytes,
) -> Result<String, AllocError> {
    let program = executable(alloc, p)?;
    let cpu = AsmCpu::start(alloc, p, &program, p.entry_key())?;
    let mut run = Run { program, cpu };
    let calls = trace(alloc, &mut run, replies, case.steps, bytes)?;
    let frames = frames(alloc, case, &run.cpu)?;
    format!(in alloc; "{calls}{frames}")
}

fn linked(
    alloc: Global,
    case: &Case,
    units: &[Unit],
    bytes: &mut CallBytes,
) -> Result<String, AllocError>
    requires few { length units.now ≤ MOST_UNITS }
    requires fit { list_all unit_fits units.now ≡ true }
{
    let text = format!(in alloc;
        "{{\"valex\":\"replies\",\"version\":2,\"replies\":[{}]}}",
        case.replies
    )?;
    let Ok(replies) = read_replies(alloc, text.as_bytes()) else {
        return String::from_str(alloc, "no replies");
    };
    let Ok(main) = Name::from_bytes(alloc, b"main") else {
        return String::from_str(alloc, "no name");
    };
    match Program::link(alloc, units, &main) {
        Ok(p) => run(alloc, case, &p, replies.items(), bytes),
        Err(error) => format!(in alloc; "{error:?}"),
    }
}

/// The title, and what is told.
pub fn told(alloc: Global, case: &Case, bytes: &mut CallBytes) -> Result<String, AllocError> {
    let text = match units_of(alloc, &case.lines) {
        Ok(units) => linked(alloc, case, &units, bytes)?,
        Err(error) => format!(in alloc; "{error:?}")?,
    };
    format!(in alloc; "{}: {text}", case.title)
}
