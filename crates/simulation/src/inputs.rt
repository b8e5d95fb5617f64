//! What bytes say: a layout, an image, and units that link.

ghost use Rattle.std.specs.Prelude.{◌≡◌, ◌≤◌, ◌<◌, IfOk, Some, None, true, length};
ghost use Rattle.std.specs.List.{list_all};
ghost use Rattle.limits.specs.declared.TheConstants.{MOST_UNITS};
ghost use Rattle.asm_shapes.specs.Units.{unit_fits};
ghost use Rattle.dump_reader.specs.DumpFile.{unit_file};
ghost use Rattle.link_model.specs.Numbers.{unit_name};
ghost use Rattle.link_model.specs.Program.{Program as Linked};
ghost use Rattle.asm_program.specs.Faults as faults;
ghost use Rattle.judge_model.specs.Refused.{Refused, OfUnit, link_told};
ghost use Rattle.judge_model.specs.Judge.{or_refused, layout_in, image_in, units_in, link_refused, linked};
ghost use Rattle.link_model.specs.declared.link_error.LinkError.{LinkError};
ghost use Rattle.simulation.specs.declared.judge.JudgeError.TheVariants as errors;
ghost use Rattle.simulation.specs.Judged.{contents, Gives, Refuses};
ghost use Rattle.simulation.specs.Units.{NamesUnit};

use crate::judge::JudgeError;
use asm_syntax::name::Name;
use asm_syntax::unit::Unit;
use dump_reader::{DumpError, read_unit};
use elf_view::ElfView;
use judge_model::refusal::Refusal;
use layout_file::error::LayoutError;
use layout_file::layout::Layout;
use layout_file::read_layout as layout_of;
use link_model::link_error::LinkError;
use linked_program::program::Program;
use std::alloc::Global;

#[tactic(auto, unfolding(judge_model::specs::Judge::layout_in))]
pub fn read_layout(alloc: Global, bytes: &[u8]) -> Result<Layout, JudgeError>
    ensures { Gives (λ l. l) result (layout_in bytes.now) }
{
    match layout_of(alloc, bytes) {
        Ok(layout) => Ok(layout),
        Err(LayoutError::Memory) => Err(JudgeError::Memory),
        Err(error) => Err(JudgeError::Refused(Refusal::Layout(error))),
    }
}

#[tactic(auto, unfolding(judge_model::specs::Judge::image_in))]
pub fn read_image(bytes: &[u8]) -> Result<ElfView, JudgeError>
    ensures { Gives (λ v. v) result (image_in bytes.now) }
{
    match ElfView::read(bytes) {
        Ok(view) => Ok(view),
        Err(error) => Err(JudgeError::Refused(Refusal::Image(error))),
    }
}

/// The unit with a number.
#[tactic(auto, unfolding(judge_model::specs::Judge::units_in))]
fn read_one(alloc: Global, u: u32, bytes: &[u8]) -> Result<Unit, JudgeError>
    ensures read { Gives (λ unit. unit) result (or_refused (OfUnit u) (unit_file bytes.now)) }
    ensures fits { IfOk result (λ unit. unit_fits unit ≡ true) }
{
    match read_unit(alloc, bytes) {
        Ok(unit) => Ok(unit),
        Err(DumpError::Memory) => Err(JudgeError::Memory),
        Err(error) => Err(JudgeError::Refused(Refusal::Unit(u, error))),
    }
}

/// The units in their order.
pub fn read_units(alloc: Global, files: &[Vec<u8>]) -> Result<Vec<Unit>, JudgeError>
    requires { length files.now ≤ MOST_UNITS }
    ensures read { Gives (λ units. units.items) result (units_in 0 (contents files.now)) }
    ensures count { IfOk result (λ units. length units.items ≡ length files.now) }
    ensures fit { IfOk result (λ units. list_all unit_fits units.items ≡ true) }
{
    let mut units = Vec::new(alloc);
    for (u, bytes) in files.iter().enumerate() {
        let unit = match read_one(alloc, u as u32, bytes) {
            Ok(unit) => unit,
            Err(error) => return Err(error),
        };
        match units.push(unit) {
            Ok(()) => {}
            Err(_) => return Err(JudgeError::Memory),
        }
    }
    Ok(units)
}

/// The refusal of units of which one is at fault, with its name.
fn unit_refused(alloc: Global, units: &[Unit], u: u32, error: LinkError) -> JudgeError
    requires { u < length units.now }
    ensures { (x : Refused) → link_told u (unit_name units.now u) error ≡ Some x → Refuses x result }
{
    match units[u as usize].name.copy(alloc) {
        Ok(name) => JudgeError::Refused(Refusal::Link(u, name, error)),
        Err(_) => JudgeError::Memory,
    }
}

/// The refusal of units that do not link.
fn refusal_of(alloc: Global, units: &[Unit], entry: &Name, error: LinkError) -> JudgeError
    requires { NamesUnit (length units.now) error }
    ensures told { (x : LinkError) → faults.told error ≡ Some x → Refuses (link_refused units.now entry.now x) result }
    ensures memory { faults.told error ≡ None → result ≡ errors.Memory }
{
    match error {
        LinkError::UnitTwice(u) => unit_refused(alloc, units, u, LinkError::UnitTwice(u)),
        LinkError::DefinedTwice(u, name) => {
            unit_refused(alloc, units, u, LinkError::DefinedTwice(u, name))
        }
        LinkError::Undeclared(u, name) => {
            unit_refused(alloc, units, u, LinkError::Undeclared(u, name))
        }
        LinkError::SigDiffers(u, name) => {
            unit_refused(alloc, units, u, LinkError::SigDiffers(u, name))
        }
        LinkError::TooBig(u, name) => unit_refused(alloc, units, u, LinkError::TooBig(u, name)),
        LinkError::NoEntry => match entry.copy(alloc) {
            Ok(name) => JudgeError::Refused(Refusal::Entry(name)),
            Err(_) => JudgeError::Memory,
        },
        LinkError::Memory => JudgeError::Memory,
    }
}

/// The program that units make with an entry.
#[tactic(auto, using(crate::proofs::UnitNumbers::names_unit), unfolding(judge_model::specs::Judge::linked))]
pub fn linked<'u>(alloc: Global, units: &'u [Unit], entry: &Name) -> Result<Program<'u>, JudgeError>
    requires few { length units.now ≤ MOST_UNITS }
    requires fit { list_all unit_fits units.now ≡ true }
    ensures linked { Gives (λ (p : Linked). tt) result (linked units.now entry.now) }
    ensures program { IfOk result (λ p. p ≡ record { units = units.now; entry = entry.now }) }
{
    match Program::link(alloc, units, entry) {
        Ok(program) => Ok(program),
        Err(error) => Err(refusal_of(alloc, units, entry, error)),
    }
}
