//! What the contents of a command's files decide.

ghost use Rattle.std.specs.Prelude.{◌≡◌, ◌≤◌, IfOk, length};
ghost use Rattle.limits.specs.declared.TheConstants.{MOST_UNITS};
ghost use Rattle.command_verdicts.specs.Conclusions.{Checks, Shows, Upgrades, refused_place};
ghost use Rattle.simulation.specs.Judged as judged;

use asm_syntax::listed::Listed;
use dump_reader::{DumpError, read_unit};
use dump_writer::write_unit_2;
use elf_view::ElfView;
use judge_model::refusal::Refusal;
use limits::MOST_DUMP_BYTES;
use report_text::verdict::Verdict;
use show_text::show_text;
use simulation::judge::{JudgeError, judge};
use std::alloc::{AllocError, Global};

/// The place of the first file among the words.
const FIRST: usize = 1;

/// The place among the words of the file that a refusal is of.
fn refused_place(refusal: &Refusal) -> usize
    ensures { result ≡ refused_place refusal.now }
{
    match refusal {
        Refusal::Layout(_) | Refusal::Entry(_) => 1,
        Refusal::Image(_) => 2,
        Refusal::Unit(unit, _) | Refusal::Link(unit, _, _) => *unit as usize + 3,
        Refusal::Replies(_) => 0,
    }
}

/// How an image stands to a layout and units.
pub fn checked(
    alloc: Global,
    layout: &[u8],
    image: &[u8],
    units: &[Vec<u8>],
) -> Result<Verdict, AllocError>
    requires { length units.now ≤ MOST_UNITS }
    ensures { IfOk result (Checks layout.now image.now (judged.contents units.now)) }
{
    match judge(alloc, image, layout, units) {
        Ok(account) => Ok(Verdict::Yes(account)),
        Err(JudgeError::No(fault)) => Ok(Verdict::No(fault)),
        Err(JudgeError::Refused(refusal)) => {
            Ok(Verdict::Refused(refused_place(&refusal), refusal))
        }
        Err(JudgeError::Memory) => Err(AllocError),
    }
}

/// So many words of an image from an address on.
pub fn shown(alloc: Global, image: &[u8], address: u32, count: u32) -> Result<Verdict, AllocError>
    ensures { IfOk result (Shows address count image.now) }
{
    match ElfView::read(image) {
        Ok(view) => {
            let text = show_text(alloc, &view, address, count)?;
            Ok(Verdict::Done(Listed::from_vec(text.into_bytes())))
        }
        Err(error) => Ok(Verdict::Refused(FIRST, Refusal::Image(error))),
    }
}

/// A unit's dump in the newest version, on one line.
pub fn upgraded(alloc: Global, dump: &[u8]) -> Result<Verdict, AllocError>
    ensures { IfOk result (Upgrades dump.now) }
{
    let unit = match read_unit(alloc, dump) {
        Ok(unit) => unit,
        Err(DumpError::Memory) => return Err(AllocError),
        Err(error) => return Ok(Verdict::Refused(FIRST, Refusal::Unit(0, error))),
    };
    let mut text = write_unit_2(alloc, &unit)?;
    text.push(b'\n')?;
    if text.len() > MOST_DUMP_BYTES as usize {
        return Ok(Verdict::TooLong(FIRST, MOST_DUMP_BYTES));
    }
    Ok(Verdict::Done(Listed::from_vec(text)))
}
