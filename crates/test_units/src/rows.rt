//! Lines that declare what a unit has, and the dump that they make.

use std::alloc::{AllocError, Global};

/// A declaration of a unit. Code, items, widths and buffers are texts of JSON: what stands between the brackets of a dump's arrays.
#[derive(Clone, Copy, Drop)]
enum Row<'a> {
    /// A function: its name, whether it is static, and its instructions.
    Function(&'a str, bool, &'a str),
    /// A variable: its name, whether it is static and whether it may be written, and its alignment and its items.
    Variable(&'a str, bool, bool, &'a str),
    /// An external without a signature.
    Object(&'a str),
    /// An external: its name, and the widths of its arguments, its result and its buffers.
    External(&'a str, &'a str),
}

/// What stands before a space and behind it.
fn halves(text: &str) -> (&str, &str) {
    match text.split_once(' ') {
        Some((front, back)) => (front, back),
        None => (text, ""),
    }
}

fn function(alloc: Global, name: &str, is_static: bool, code: &str) -> Result<String, AllocError> {
    format!(in alloc; "{{\"name\":\"{name}\",\"static\":{is_static},\"code\":[{code}]}}")
}

fn variable(
    alloc: Global,
    name: &str,
    is_static: bool,
    writable: bool,
    rest: &str,
) -> Result<String, AllocError> {
    let (align, items) = halves(rest);
    format!(in alloc;
        "{{\"name\":\"{name}\",\"static\":{is_static},\"writable\":{writable},\"align\":{align},\"init\":[{items}]}}"
    )
}

/// The arguments are a list in brackets, since they may be none.
fn external(alloc: Global, name: &str, rest: &str) -> Result<String, AllocError> {
    let (args, rest) = halves(rest);
    let (gives, buffers) = halves(rest);
    format!(in alloc;
        "{{\"name\":\"{name}\",\"sig\":{{\"args\":{args},\"result\":\"{gives}\",\"buffers\":[{buffers}]}}}}"
    )
}

impl<'a> Row<'a> {
    /// None where the line is no declaration.
    fn of(line: &'a str) -> Option<Row<'a>> {
        let (word, rest) = halves(line);
        let (name, rest) = halves(rest);
        match word {
            "function" => Some(Row::Function(name, false, rest)),
            "static-function" => Some(Row::Function(name, true, rest)),
            "data" => Some(Row::Variable(name, false, true, rest)),
            "static-data" => Some(Row::Variable(name, true, true, rest)),
            "constant" => Some(Row::Variable(name, false, false, rest)),
            "static-constant" => Some(Row::Variable(name, true, false, rest)),
            "object" => Some(Row::Object(name)),
            "external" => Some(Row::External(name, rest)),
            _ => None,
        }
    }

    fn text(&self, alloc: Global) -> Result<String, AllocError> {
        match self {
            Row::Function(name, is_static, code) => function(alloc, name, *is_static, code),
            Row::Variable(name, is_static, writable, rest) => {
                variable(alloc, name, *is_static, *writable, rest)
            }
            Row::Object(name) => format!(in alloc; "{{\"name\":\"{name}\",\"sig\":null}}"),
            Row::External(name, rest) => external(alloc, name, rest),
        }
    }
}

/// The arrays of a unit's dump, as texts.
#[derive(Drop)]
pub struct Dump {
    name: String,
    functions: String,
    variables: String,
    externals: String,
}

/// Adds an item, behind a comma where it is not the first.
fn add_item(array: &mut String, item: &str) -> Result<(), AllocError> {
    if !array.is_empty() {
        array.push_str(",")?;
    }
    array.push_str(item)
}

impl Dump {
    pub fn new(alloc: Global, name: &str) -> Result<Dump, AllocError> {
        Ok(Dump {
            name: String::from_str(alloc, name)?,
            functions: String::new(alloc),
            variables: String::new(alloc),
            externals: String::new(alloc),
        })
    }

    /// Adds what a line declares. Another line is passed over.
    pub fn add(&mut self, alloc: Global, line: &str) -> Result<(), AllocError> {
        let Some(row) = Row::of(line) else {
            return Ok(());
        };
        let text = row.text(alloc)?;
        match row {
            Row::Function(_, _, _) => add_item(&mut self.functions, text.as_str()),
            Row::Variable(_, _, _, _) => add_item(&mut self.variables, text.as_str()),
            Row::Object(_) | Row::External(_, _) => add_item(&mut self.externals, text.as_str()),
        }
    }

    /// By version 2 of the profile of units.
    pub fn text(&self, alloc: Global) -> Result<String, AllocError> {
        format!(in alloc;
            "{{\"valex\":\"unit\",\"version\":2,\"unit\":\"{}\",\"functions\":[{}],\"variables\":[{}],\"externals\":[{}]}}",
            self.name, self.functions, self.variables, self.externals
        )
    }
}
