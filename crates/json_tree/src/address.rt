//! Addresses in a tree.

ghost use Rattle.std.specs.Prelude.{◌≡◌, ◌≤◌, ◌<◌, ◌^◌, IsTrue, length};
ghost use Rattle.std.specs.List.{list_all};
ghost use Rattle.json_tree.specs.Answers.{Gives};
ghost use Rattle.json_tree.specs.Addresses.{address, address_text, hex_digit, hex_number, is_hex_digit};

use crate::fault::{Cause, ReadError};
use crate::tree::Tree;
use serde_json::Value;
use std::alloc::Global;
use std::marker::Model;

/// An address of 32 bits, which a tree has as an integer or as a text of hexadecimal digits.
#[derive(Debug, Drop)]
pub struct Address {
    value: u32,
}

impl Model for Address {
    ghost use Rattle.std.specs.Prelude.{ℕ};

    ghost Value = { ℕ };

    ghost view = { λ address. address.value };
}

impl Address {
    pub fn value(&self) -> u32
        ensures { result ≡ self.now }
    {
        self.value
    }
}

fn is_hex_digit(byte: u8) -> bool
    ensures { result ≡ is_hex_digit byte }
{
    matches!(byte, b'0'..=b'9' | b'A'..=b'F' | b'a'..=b'f')
}

fn all_hex_digits(digits: &[u8]) -> bool
    ensures { result ≡ list_all is_hex_digit digits.now }
{
    digits.iter().all(|byte| is_hex_digit(*byte))
}

fn hex_digit(byte: u8) -> u8
    requires { IsTrue (is_hex_digit byte) }
    ensures value { result ≡ hex_digit byte }
    ensures bound { result < 16 }
{
    if byte <= b'9' {
        byte - b'0'
    } else if byte <= b'F' {
        byte - b'A' + 10
    } else {
        byte - b'a' + 10
    }
}

fn hex_number(digits: &[u8]) -> u32
    requires few { length digits.now ≤ 8 }
    requires hex { IsTrue (list_all is_hex_digit digits.now) }
    ensures { result ≡ hex_number digits.now }
{
    let mut value = 0u32;
    for byte in digits {
        value = value * 16 + u32::from(hex_digit(*byte));
    }
    value
}

fn of_text(alloc: Global, text: &str) -> Result<Address, ReadError>
    ensures { Gives result (address_text text.now) }
{
    match text.as_bytes() {
        [b'0', b'x', digits @ ..]
            if 1 <= digits.len() && digits.len() <= 8 && all_hex_digits(digits) => {
            Ok(Address {
                value: hex_number(digits),
            })
        }
        _ => Err(ReadError::here(alloc, Cause::OutOfRange)),
    }
}

#[tactic(auto, unfolding(crate::specs::Addresses::address))]
impl Tree for Address {
    ghost reads = { address };

    fn read(alloc: Global, tree: &Value) -> Result<Address, ReadError> {
        match tree.as_str() {
            Some(text) => of_text(alloc, text),
            None => {
                let value: u32 = Tree::read(alloc, tree)?;
                Ok(Address { value })
            }
        }
    }
}
