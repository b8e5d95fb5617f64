//! The report of a match, and that of the first place that fails.

ghost use Rattle.std.specs.Prelude.{◌≡◌, ◌++◌, IfOk, OnOk, string_bytes};
ghost use Rattle.isa_model.specs.Word.{word_digits};
ghost use Rattle.text_model.specs.Lines.{address_digits, line, lines};
ghost use Rattle.coverage.specs.Accounts.{account_seen};
ghost use Rattle.coverage.specs.Orders.{claim_seen};
ghost use Rattle.report_text.specs.Reports.{amount_lines, count_lines, counted, defined_lines, fault_text, found_lines, other_lines};
ghost use Rattle.report_text.specs.Reports.{place_lines, report_text, span_text};

use crate::owner::push_owner;
use coverage::account::Account;
use coverage::claims::Claim;
use link_model::fault::Fault;
use link_model::owner::Owner;
use std::alloc::{AllocError, Global};
use std::fmt::Write;
use word_ops::hexadecimal::Hexadecimal;

fn push_counted(out: &mut String, name: &str, count: usize, bytes: u64) -> Result<(), AllocError>
    ensures { OnOk result (string_bytes out.new ≡ string_bytes out.old ++ line (counted name.now count bytes)) }
{
    write!(out, "{name} {count} bytes {bytes}\n")
}

fn push_amounts(out: &mut String, account: &Account) -> Result<(), AllocError>
    ensures { OnOk result (string_bytes out.new ≡ string_bytes out.old ++ lines (amount_lines (account_seen account.now))) }
{
    let externals = account.externals;
    let padding = account.padding;
    let foreign = account.foreign;
    let loaded = account.loaded;
    write!(
        out,
        "externals {externals}\npadding {padding}\nforeign {foreign}\nloaded {loaded}\n"
    )
}

fn push_defined(out: &mut String, account: &Account) -> Result<(), AllocError>
    ensures { OnOk result (string_bytes out.new ≡ string_bytes out.old ++ lines (defined_lines (account_seen account.now))) }
{
    push_counted(out, "functions", account.functions, account.function_bytes)?;
    push_counted(out, "tables", account.tables, account.table_bytes)?;
    push_counted(out, "variables", account.variables, account.variable_bytes)
}

fn push_counts(out: &mut String, account: &Account) -> Result<(), AllocError>
    ensures { OnOk result (string_bytes out.new ≡ string_bytes out.old ++ lines (count_lines (account_seen account.now))) }
{
    out.push_str("yes\n")?;
    push_defined(out, account)?;
    push_amounts(out, account)
}

/// The low 32 bits.
fn address(a: u64) -> Hexadecimal
    ensures { word_digits result.0 ≡ address_digits a }
{
    Hexadecimal((a & 0xffff_ffff) as u32)
}

fn push_span(out: &mut String, span: &Claim) -> Result<(), AllocError>
    ensures { OnOk result (string_bytes out.new ≡ string_bytes out.old ++ span_text (claim_seen span.now)) }
{
    let lo = address(span.range.lo);
    let hi = address(span.range.hi);
    write!(out, "{lo} {hi} ")?;
    push_owner(out, &span.owner)
}

/// The counts of an account, and then its spans.
pub fn report_text(alloc: Global, account: &Account) -> Result<String, AllocError>
    ensures { IfOk result (λ t. string_bytes t ≡ report_text (account_seen account.now)) }
{
    let mut out = String::new(alloc);
    push_counts(&mut out, account)?;
    for span in account.spans.items() {
        push_span(&mut out, span)?;
    }
    Ok(out)
}

fn push_found(out: &mut String, fault: &Fault) -> Result<(), AllocError>
    ensures { OnOk result (string_bytes out.new ≡ string_bytes out.old ++ lines (found_lines fault.now)) }
{
    let item = fault.item;
    let wanted = Hexadecimal(fault.wanted);
    let found = Hexadecimal(fault.found);
    write!(out, "item {item}\nwanted {wanted}\nfound {found}\n")
}

fn push_place(out: &mut String, fault: &Fault) -> Result<(), AllocError>
    ensures { OnOk result (string_bytes out.new ≡ string_bytes out.old ++ lines (place_lines fault.now)) }
{
    let number = fault.rule.number();
    let rule = fault.rule.name();
    let unit = fault.unit.text();
    let name = fault.name.text();
    let offset = Hexadecimal(fault.offset);
    write!(
        out,
        "no\nrule {number} {rule}\nplace {unit} {name} {offset}\n"
    )
}

fn push_other(out: &mut String, other: &Option<Owner>) -> Result<(), AllocError>
    ensures { OnOk result (string_bytes out.new ≡ string_bytes out.old ++ lines (other_lines other.now)) }
{
    match other {
        Some(owner) => {
            out.push_str("with ")?;
            push_owner(out, owner)
        }
        None => Ok(()),
    }
}

/// The first place that fails.
pub fn fault_text(alloc: Global, fault: &Fault) -> Result<String, AllocError>
    ensures { IfOk result (λ t. string_bytes t ≡ fault_text fault.now) }
{
    let mut out = String::new(alloc);
    push_place(&mut out, fault)?;
    push_found(&mut out, fault)?;
    push_other(&mut out, &fault.other)?;
    Ok(out)
}
