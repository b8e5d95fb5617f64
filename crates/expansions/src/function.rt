//! Whole functions: where they stand, the words of each instruction, and their tables.

ghost use Rattle.std.specs.Prelude.{◌≡◌, ◌≤◌, ◌<◌, ◌-◌, ◌^◌, ℕ, true, length, map, slice_get, Some, None, IfOk, IfErr, OnOk, ◌++◌};
ghost use Rattle.std.specs.List.{list_all};
ghost use Rattle.limits.specs.declared.TheConstants.{MOST_INSTRUCTIONS};
ghost use Rattle.ordered_tests.specs.Checks.{first_fault, fault_of};
ghost use Rattle.asm_syntax.specs.declared.instr.Instr.{Instr};
ghost use Rattle.asm_shapes.specs.Units.{table_fits};
ghost use Rattle.code_model.specs.Addresses.{instr_address, address_after, code_end, label_address};
ghost use Rattle.code_model.specs.FunctionChecks.{jump_checks, instr_checks, code_checks, function_checks};
ghost use Rattle.link_model.specs.declared.owner.Owner.{Owner};
ghost use Rattle.link_model.specs.Claims.{jump_claims, table_claims};
ghost use Rattle.expansions.specs.Tables.{table_claim, found_claims};
ghost use Rattle.expansions.specs.Faults.{IsPlaced, Tells};

use crate::addresses::StandingCode;
use crate::image_words::ImageWords;
use crate::instr::instr_fault;
use crate::names::target;
use crate::place::place_fault;
use crate::table::{Table, TableList, match_table, table_address};
use asm_shapes::IndexedCode;
use asm_syntax::instr::Instr;
use code_model::spot::Spot;
use elf_view::LoadedSegments;
use layout_file::layout::Layout;
use name_addresses::NameAddresses;
use std::alloc::{AllocError, Global};
use word_ops::range::Range;

/// The addresses of a function and of its tables.
#[derive(Debug, Drop)]
pub struct Placed {
    pub range: Range,
    pub tables: TableList,
}

/// Why no answer is given that a function stands.
#[derive(Clone, Copy, Debug, PartialEq, Eq, Drop)]
pub enum CodeFault {
    /// The first place that fails.
    No(Spot),
    Memory,
}

impl From<AllocError> for CodeFault {
    ghost use Rattle.expansions.specs.declared.function.CodeFault.TheVariants.{Memory};

    ghost from_gives = { λ _ fault. fault ≡ Memory };

    fn from(_: AllocError) -> CodeFault {
        CodeFault::Memory
    }
}

/// The table of an instruction at an address, if it has one.
fn match_jump(
    standing: &StandingCode,
    layout: &Layout,
    offset: u32,
    a: u64,
    instr: &Instr,
) -> Result<Option<Table>, Spot>
    requires a { a < 2 ^ 32 }
    requires few { table_fits instr.now ≡ true }
    requires end { code_end standing.now.words standing.now.base standing.now.code.now < 2 ^ 32 }
    ensures first { fault_of result ≡ first_fault (jump_checks standing.now.words layout.now
        (label_address standing.now.words standing.now.base standing.now.code.now) offset a instr.now) }
    ensures claims { IfOk result (λ table. (owner_at : ℕ → Owner) (base : ℕ) → offset ≡ a - base →
        found_claims owner_at table ≡ jump_claims standing.now.words owner_at base a instr.now) }
{
    match instr {
        Instr::Btbl(_, labels) => {
            let t = table_address(&standing.words, a);
            match match_table(standing, layout, offset, t, labels.items()) {
                Ok(range) => Ok(Some(Table { offset, range })),
                Err(spot) => Err(spot),
            }
        }
        _ => Ok(None),
    }
}

/// Instruction `i` of the code: its words, and then its table, if it has one.
fn match_instruction<N: NameAddresses>(
    standing: &StandingCode,
    layout: &Layout,
    names: &N,
    i: usize,
    instr: &Instr,
) -> Result<Option<Table>, Spot>
    requires here { slice_get standing.now.code.now i ≡ Some instr.now }
    requires few { table_fits instr.now ≡ true }
    requires end { code_end standing.now.words standing.now.base standing.now.code.now < 2 ^ 32 }
    ensures first { let a = instr_address standing.now.words standing.now.base standing.now.code.now i in
        fault_of result ≡ first_fault (instr_checks standing.now.words layout.now (N.address names.now)
        (label_address standing.now.words standing.now.base standing.now.code.now) (a - standing.now.base) a instr.now) }
    ensures claims { let a = instr_address standing.now.words standing.now.base standing.now.code.now i in
        IfOk result (λ table. (owner_at : ℕ → Owner) →
        found_claims owner_at table ≡ jump_claims standing.now.words owner_at standing.now.base a instr.now) }
{
    let (a, n) = standing.place(i, instr);
    let offset = (a - standing.base as u64) as u32;
    let to = target(names, standing, instr) as u32;
    let words = standing.words.five_words(a);
    match instr_fault(layout, offset, a as u32, instr, to, &words[..n]) {
        Some(spot) => Err(spot),
        None => match_jump(standing, layout, offset, a, instr),
    }
}

fn push_found(tables: &mut TableList, found: Option<Table>) -> Result<(), AllocError>
    ensures { OnOk result ((owner_at : ℕ → Owner) →
        map (table_claim owner_at) tables.new ≡ map (table_claim owner_at) tables.old ++ found_claims owner_at found) }
{
    match found {
        Some(table) => tables.push(table),
        None => Ok(()),
    }
}

/// All instructions in their order, and the tables that they have.
fn match_code<N: NameAddresses>(
    alloc: Global,
    standing: &StandingCode,
    layout: &Layout,
    names: &N,
) -> Result<TableList, CodeFault>
    requires tables { list_all table_fits standing.now.code.now ≡ true }
    requires end { code_end standing.now.words standing.now.base standing.now.code.now < 2 ^ 32 }
    ensures passes { IfOk result (λ _. first_fault (code_checks standing.now.words layout.now (N.address names.now)
        (label_address standing.now.words standing.now.base standing.now.code.now) standing.now.base standing.now.base
        standing.now.code.now) ≡ None) }
    ensures claims { IfOk result (λ tables. (owner_at : ℕ → Owner) →
        map (table_claim owner_at) tables ≡ table_claims standing.now.words owner_at standing.now.base standing.now.base
        standing.now.code.now) }
    ensures fails { IfErr result (Tells (first_fault (code_checks standing.now.words layout.now (N.address names.now)
        (label_address standing.now.words standing.now.base standing.now.code.now) standing.now.base standing.now.base
        standing.now.code.now))) }
{
    let mut tables = TableList::new(alloc);
    for (i, instr) in standing.code.code().iter().enumerate() {
        match match_instruction(standing, layout, names, i, instr) {
            Ok(found) => push_found(&mut tables, found)?,
            Err(spot) => return Err(CodeFault::No(spot)),
        }
    }
    Ok(tables)
}

/// The place, the words and the tables of a code that begins at an address.
fn match_standing<N: NameAddresses>(
    alloc: Global,
    standing: &StandingCode,
    layout: &Layout,
    names: &N,
) -> Result<Placed, CodeFault>
    requires { list_all table_fits standing.now.code.now ≡ true }
    ensures passes { IfOk result (λ _. first_fault (function_checks standing.now.words layout.now (N.address names.now)
        standing.now.base standing.now.code.now) ≡ None) }
    ensures placed { IfOk result (IsPlaced standing.now.words standing.now.base standing.now.code.now) }
    ensures fails { IfErr result (Tells (first_fault (function_checks standing.now.words layout.now (N.address names.now)
        standing.now.base standing.now.code.now))) }
{
    let end = standing.end();
    if let Some(spot) = place_fault(standing.words.segments(), layout, standing.base, end) {
        return Err(CodeFault::No(spot));
    }
    match match_code(alloc, standing, layout, names) {
        Ok(tables) => {
            let range = Range {
                lo: u64::from(standing.base),
                hi: end,
            };
            Ok(Placed { range, tables })
        }
        Err(fault) => Err(fault),
    }
}

/// Whether a function stands at `base`: its place, each instruction's words, and the tables of its jumps. The time is near linear
/// in the instructions and in the labels of the tables.
pub fn match_function<N: NameAddresses>(
    alloc: Global,
    segments: &LoadedSegments,
    layout: &Layout,
    names: &N,
    base: u32,
    code: &IndexedCode,
) -> Result<Placed, CodeFault>
    requires few { length code.now ≤ MOST_INSTRUCTIONS }
    requires tables { list_all table_fits code.now ≡ true }
    ensures passes { IfOk result (λ _. first_fault (function_checks segments.now layout.now (N.address names.now) base code.now) ≡ None) }
    ensures placed { IfOk result (IsPlaced segments.now base code.now) }
    ensures fails { IfErr result (Tells (first_fault (function_checks segments.now layout.now (N.address names.now) base code.now))) }
{
    let words = ImageWords::near(segments, u64::from(base));
    let standing = StandingCode::new(alloc, words, base, code)?;
    match_standing(alloc, &standing, layout, names)
}
