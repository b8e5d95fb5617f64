//! What a range belongs to, in print.

ghost use Rattle.std.specs.Prelude.{◌≡◌, ◌++◌, OnOk, string_bytes};
ghost use Rattle.text_model.specs.Lines.{line};
ghost use Rattle.report_text.specs.Places.{owner_words};

use link_model::owner::Owner;
use std::alloc::AllocError;
use std::fmt::Write;
use word_ops::hexadecimal::Hexadecimal;

/// Puts the words of an owner behind a text, and ends the line.
pub fn push_owner(out: &mut String, owner: &Owner) -> Result<(), AllocError>
    ensures { OnOk result (string_bytes out.new ≡ string_bytes out.old ++ line (owner_words owner.now)) }
{
    match owner {
        Owner::Function(unit, name) => {
            let unit = unit.text();
            let name = name.text();
            write!(out, "function {unit} {name}\n")
        }
        Owner::Table(unit, name, offset) => {
            let unit = unit.text();
            let name = name.text();
            let offset = Hexadecimal(*offset);
            write!(out, "table {unit} {name} {offset}\n")
        }
        Owner::Variable(unit, name) => {
            let unit = unit.text();
            let name = name.text();
            write!(out, "variable {unit} {name}\n")
        }
        Owner::Padding => out.push_str("padding\n"),
        Owner::Foreign => out.push_str("foreign\n"),
    }
}
