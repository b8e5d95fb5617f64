//! Answers as lines of text.

use coverage::account::Account;
use coverage::claims::Claim;
use link_model::fault::Fault;
use link_model::owner::Owner;
use std::alloc::{AllocError, Global};

fn told_owner(alloc: Global, owner: &Owner) -> Result<String, AllocError> {
    match owner {
        Owner::Function(unit, name) => {
            format!(in alloc; "function {} {}", unit.text(), name.text())
        }
        Owner::Table(unit, name, offset) => {
            format!(in alloc; "table {} {} {offset:x}", unit.text(), name.text())
        }
        Owner::Variable(unit, name) => {
            format!(in alloc; "variable {} {}", unit.text(), name.text())
        }
        Owner::Padding => String::from_str(alloc, "padding"),
        Owner::Foreign => String::from_str(alloc, "foreign"),
    }
}

/// `no RULE UNIT NAME OFFSET ITEM WANTED FOUND`, and for two claims that meet `with OWNER`. Numbers are hexadecimal.
pub fn told_fault(alloc: Global, fault: &Fault) -> Result<String, AllocError> {
    let mut text = format!(in alloc;
        "no {} {} {} {:x} {:x} {:x} {:x}",
        fault.rule.name(),
        fault.unit.text(),
        fault.name.text(),
        fault.offset,
        fault.item,
        fault.wanted,
        fault.found
    )?;
    if let Some(owner) = &fault.other {
        let other = told_owner(alloc, owner)?;
        text.push_str(" with ")?;
        text.push_str(&other)?;
    }
    Ok(text)
}

fn told_span(alloc: Global, span: &Claim) -> Result<String, AllocError> {
    let owner = told_owner(alloc, &span.owner)?;
    format!(in alloc; ", {:08x} {:08x} {owner}", span.range.lo, span.range.hi)
}

/// `yes`, the counts in decimal in the order of the account's fields, and the spans.
pub fn told_account(alloc: Global, a: &Account) -> Result<String, AllocError> {
    let mut text = format!(in alloc;
        "yes {} {} {} {} {} {} {} {} {} {}",
        a.functions,
        a.function_bytes,
        a.tables,
        a.table_bytes,
        a.variables,
        a.variable_bytes,
        a.externals,
        a.padding,
        a.foreign,
        a.loaded
    )?;
    for span in a.spans.items() {
        let one = told_span(alloc, span)?;
        text.push_str(&one)?;
    }
    Ok(text)
}
