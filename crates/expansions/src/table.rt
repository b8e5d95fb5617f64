//! The tables of jumps.

ghost use Rattle.std.specs.Prelude.{◌≡◌, ◌≤◌, ◌<◌, ◌+◌, ◌*◌, ◌^◌, ◌-◌, ℕ, length, IsTrue, IfOk};
ghost use Rattle.limits.specs.declared.TheConstants.{MOST_LABELS};
ghost use Rattle.ordered_tests.specs.Checks.{first_fault, fault_of};
ghost use Rattle.isa_model.specs.Word.{lo, joined};
ghost use Rattle.word_ops.specs.Ranges.{extent};
ghost use Rattle.word_ops.specs.Seen.{extent_of};
ghost use Rattle.code_model.specs.Addresses.{label_address, code_end};
ghost use Rattle.code_model.specs.Code.{table_address, table_range};
ghost use Rattle.code_model.specs.FunctionChecks.{table_word_checks, is_table_place, table_checks};

use crate::addresses::StandingCode;
use crate::area::{Part, is_in_one_area};
use crate::image_words::ImageWords;
use asm_syntax::listed::Listed;
use asm_syntax::rule::Rule;
use code_model::spot::Spot;
use layout_file::layout::Layout;
use reloc_match::word::fault;
use word_ops::range::Range;
use word_ops::words::{lo, sext16};

/// The table of a jump: how far the jump stands from the function's address, and the addresses of the table.
#[derive(Clone, Copy, Debug, PartialEq, Eq, Drop)]
pub struct Table {
    pub offset: u32,
    pub range: Range,
}

/// Tables in the order of their jumps.
pub type TableList = Listed<Table>;

/// The address that the second and the third word of a jump by a table lead to.
pub fn address_of_halves(second: u32, third: u32) -> u32
    ensures { result ≡ joined (lo second) third }
{
    (lo(second) << 16).wrapping_add(sext16(third))
}

/// The address of the table of a jump at an address.
pub fn table_address(words: &ImageWords, a: u64) -> u32
    requires { a < 2 ^ 40 }
    ensures { result ≡ table_address words.now a }
{
    address_of_halves(words.word_or_zero(a + 4), words.word_or_zero(a + 8))
}

fn is_table_place(words: &ImageWords, layout: &Layout, t: u32, n: usize) -> bool
    requires { n ≤ MOST_LABELS }
    ensures value { result ≡ is_table_place words.now layout.now t n }
    ensures end { IsTrue result → t + 4 * n < 2 ^ 32 }
{
    let start = u64::from(t);
    let n = n as u64;
    t % 4 == 0
        && words.are_loaded(start, n)
        && is_in_one_area(layout, Part::Table, start, start + 4 * n)
}

/// The first word of a table that is not the address of its label.
#[tactic(auto, using(crate::proofs::Tables::words_more))]
fn words_fault(standing: &StandingCode, offset: u32, t: u32, labels: &[u32]) -> Option<Spot>
    requires few { length labels.now ≤ MOST_LABELS }
    requires end { code_end standing.now.words standing.now.base standing.now.code.now < 2 ^ 32 }
    ensures { result ≡ first_fault (table_word_checks standing.now.words
        (label_address standing.now.words standing.now.base standing.now.code.now) offset t 0 labels.now) }
{
    for (j, label) in labels.iter().enumerate() {
        let wanted = standing.label(*label);
        let found = standing.words.word_or_zero(u64::from(t) + 4 * (j as u64));
        if u64::from(found) != wanted {
            return fault(Rule::TableWord, offset, j as u32, wanted as u32, found);
        }
    }
    None
}

/// The range of the table at `t` of a jump that stands so far from the function's address.
#[tactic(auto, unfolding(code_model::specs::FunctionChecks::table_checks))]
pub fn match_table(
    standing: &StandingCode,
    layout: &Layout,
    offset: u32,
    t: u32,
    labels: &[u32],
) -> Result<Range, Spot>
    requires few { length labels.now ≤ MOST_LABELS }
    requires end { code_end standing.now.words standing.now.base standing.now.code.now < 2 ^ 32 }
    ensures first { fault_of result ≡ first_fault (table_checks standing.now.words layout.now
        (label_address standing.now.words standing.now.base standing.now.code.now) offset t labels.now) }
    ensures range { IfOk result (λ r. extent_of r ≡ extent t (t + 4 * length labels.now)) }
{
    if !is_table_place(&standing.words, layout, t, labels.len()) {
        return Err(Spot {
            rule: Rule::TablePlace,
            offset,
            item: 0,
            wanted: 0,
            found: t,
        });
    }
    match words_fault(standing, offset, t, labels) {
        Some(spot) => Err(spot),
        None => {
            let lo = u64::from(t);
            let hi = lo + 4 * (labels.len() as u64);
            Ok(Range { lo, hi })
        }
    }
}
