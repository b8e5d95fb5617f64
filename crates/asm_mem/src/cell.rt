//! Cells, and the values that they stand for together.

ghost use Rattle.std.specs.Prelude.{◌≡◌, ◌<◌};
ghost use Rattle.asm_mem.specs.Cells.{bytes_word, byte_in, byte_word, four_bytes, half_word, joined, low_byte};

use crate::value::Val;

/// A byte of memory: of a word, of another value, or of none.
#[derive(Clone, Copy, Drop)]
pub enum Cell {
    Nothing,
    Byte(u8),
    /// A byte of a value by its place, 0 the highest.
    Part(Val, u8),
}

fn bytes_word(a: u8, b: u8, c: u8, d: u8) -> Val
    ensures { result ≡ bytes_word a b c d }
{
    Val::Int(u32::from_be_bytes([a, b, c, d]))
}

/// The word of four bytes, the highest first.
pub(crate) fn four_bytes(a: Cell, b: Cell, c: Cell, d: Cell) -> Val
    ensures { result ≡ four_bytes a b c d }
{
    match (a, b, c, d) {
        (Cell::Byte(a), Cell::Byte(b), Cell::Byte(c), Cell::Byte(d)) => bytes_word(a, b, c, d),
        _ => Val::Undef,
    }
}

/// The value of four cells: a word of bytes, or the value whose parts they are.
pub(crate) fn joined(a: Cell, b: Cell, c: Cell, d: Cell) -> Val
    ensures { result ≡ joined a b c d }
{
    match (a, b, c, d) {
        (Cell::Byte(a), Cell::Byte(b), Cell::Byte(c), Cell::Byte(d)) => bytes_word(a, b, c, d),
        (Cell::Part(u, 0), Cell::Part(v, 1), Cell::Part(w, 2), Cell::Part(x, 3)) => {
            if u == v && u == w && u == x {
                u
            } else {
                Val::Undef
            }
        }
        _ => Val::Undef,
    }
}

/// The word of two bytes, the highest first.
pub(crate) fn half_word(a: Cell, b: Cell) -> Val
    ensures { result ≡ half_word a b }
{
    match (a, b) {
        (Cell::Byte(x), Cell::Byte(y)) => Val::Int(u32::from(x) * 256 + u32::from(y)),
        _ => Val::Undef,
    }
}

/// The word of a byte.
pub(crate) fn byte_word(a: Cell) -> Val
    ensures { result ≡ byte_word a }
{
    match a {
        Cell::Byte(x) => Val::Int(u32::from(x)),
        _ => Val::Undef,
    }
}

/// The byte of a word that counts so many, and of another value none.
pub(crate) fn low_byte(v: Val, m: u32) -> Option<u8>
    requires { 0 < m }
    ensures { result ≡ low_byte v m }
{
    match v {
        Val::Int(n) => Some((n / m % 256) as u8),
        _ => None,
    }
}

impl Cell {
    /// The byte in it, where there is one.
    pub(crate) fn byte(&self) -> Option<u8>
        ensures { result ≡ byte_in self.now }
    {
        match self {
            Cell::Byte(x) => Some(*x),
            _ => None,
        }
    }
}
