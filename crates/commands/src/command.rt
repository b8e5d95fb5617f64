//! A command as a value.

ghost use Rattle.std.specs.Prelude.{◌≡◌, map, string_bytes};
ghost use Rattle.std.specs.List.{list_all};
ghost use Rattle.commands.specs.Words.{is_operand};
ghost use Rattle.commands.specs.Commands.{check_of, command_of, named, run_of, show_of, tested, upgrade_of};

use crate::number::{address_of, decimal_of};
use crate::words::is_operand;
use limits::{MOST_SHOWN_WORDS, MOST_STEPS, MOST_UNITS};

/// A command that words are. The files that it reads are named by the words.
#[derive(Clone, Copy, Debug, PartialEq, Eq, Drop)]
pub enum Command {
    /// `check LAYOUT IMAGE UNIT...`, with so many units.
    Check(u32),
    /// `run LAYOUT IMAGE REPLIES STEPS UNIT...`, with the steps and so many units.
    Run(u32, u32),
    /// `show IMAGE ADDRESS COUNT`, with the address and the count.
    Show(u32, u32),
    /// `upgrade UNIT`.
    Upgrade,
}

fn check_of(operands: &[String]) -> Option<Command>
    ensures { result ≡ check_of (map string_bytes operands.now) }
{
    match operands {
        [_, _, units @ ..] if 1 <= units.len() && units.len() <= MOST_UNITS as usize => {
            Some(Command::Check(units.len() as u32))
        }
        _ => None,
    }
}

fn run_of(operands: &[String]) -> Option<Command>
    ensures { result ≡ run_of (map string_bytes operands.now) }
{
    match operands {
        [_, _, _, steps, units @ ..] if 1 <= units.len() && units.len() <= MOST_UNITS as usize => {
            let steps = decimal_of(MOST_STEPS, steps.as_bytes())?;
            Some(Command::Run(steps, units.len() as u32))
        }
        _ => None,
    }
}

fn show_of(operands: &[String]) -> Option<Command>
    ensures { result ≡ show_of (map string_bytes operands.now) }
{
    match operands {
        [_, address, count] => {
            let address = address_of(address.as_bytes())?;
            let count = decimal_of(MOST_SHOWN_WORDS, count.as_bytes())?;
            Some(Command::Show(address, count))
        }
        _ => None,
    }
}

fn upgrade_of(operands: &[String]) -> Option<Command>
    ensures { result ≡ upgrade_of (map string_bytes operands.now) }
{
    match operands {
        [_] => Some(Command::Upgrade),
        _ => None,
    }
}

#[tactic(auto, unfolding(crate::specs::Commands::named))]
fn named(name: &str, operands: &[String]) -> Option<Command>
    ensures { result ≡ named name.now (map string_bytes operands.now) }
{
    if name == "check" {
        check_of(operands)
    } else if name == "run" {
        run_of(operands)
    } else if name == "show" {
        show_of(operands)
    } else if name == "upgrade" {
        upgrade_of(operands)
    } else {
        None
    }
}

fn are_operands(words: &[String]) -> bool
    ensures { result ≡ list_all (λ word. is_operand (string_bytes word)) words.now }
{
    words.iter().all(|word| is_operand(word.as_str()))
}

fn tested(name: &str, operands: &[String]) -> Option<Command>
    ensures { result ≡ tested name.now (map string_bytes operands.now) }
{
    if are_operands(operands) {
        named(name, operands)
    } else {
        None
    }
}

/// The command that words are; None where they are no command's.
pub fn command_of(words: &[String]) -> Option<Command>
    ensures { result ≡ command_of (map string_bytes words.now) }
{
    match words {
        [name, operands @ ..] => tested(name.as_str(), operands),
        [] => None,
    }
}
