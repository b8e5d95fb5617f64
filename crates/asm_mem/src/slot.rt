//! Four cells in 20 bytes: an aligned store of 4 bytes replaces a slot, and a narrower one makes single cells bytes, so
//! a slot has parts of one value at most.

ghost use Rattle.std.specs.Prelude.{◌≡◌};
ghost use Rattle.asm_mem.specs.Slots.{byte_content, content_cell, empty_slot, kind_value, slot_cell, slot_filled, slot_of, slot_set};

use crate::cell::Cell;
use crate::value::Val;

/// Which value that is no word.
#[derive(Clone, Copy, Drop)]
pub enum Kind {
    Undef,
    Ptr,
    Code,
    Ext,
    Stop,
    Ha,
}

/// What is in one of the four cells.
#[derive(Clone, Copy, Drop)]
pub enum Content {
    Nothing,
    Byte(u8),
    /// A byte of the slot's value, at its place.
    Part(Kind),
}

/// Four cells, and the numbers of the one value whose parts may stand there.
#[derive(Clone, Copy, Drop)]
pub struct Slot {
    a: Content,
    b: Content,
    c: Content,
    d: Content,
    first: u32,
    offset: i32,
    last: u32,
}

const _: () = prove!(size_of::<Slot>() == 20);

fn kind_value(kind: Kind, first: u32, offset: i32, last: u32) -> Val
    ensures { result ≡ kind_value kind first offset last }
{
    match kind {
        Kind::Undef => Val::Undef,
        Kind::Ptr => Val::Ptr(first, last),
        Kind::Code => Val::Code(first, last),
        Kind::Ext => Val::Ext(first, last),
        Kind::Stop => Val::Stop,
        Kind::Ha => Val::Ha(first, offset, last),
    }
}

impl Content {
    pub fn of_byte(b: Option<u8>) -> Content
        ensures { result ≡ byte_content b }
    {
        match b {
            Some(x) => Content::Byte(x),
            None => Content::Nothing,
        }
    }
}

impl Slot {
    pub fn empty() -> Slot
        ensures { result ≡ empty_slot }
    {
        Slot {
            a: Content::Nothing,
            b: Content::Nothing,
            c: Content::Nothing,
            d: Content::Nothing,
            first: 0,
            offset: 0,
            last: 0,
        }
    }

    fn content_cell(&self, content: Content, j: u8) -> Cell
        ensures { result ≡ content_cell self.now content j }
    {
        match content {
            Content::Nothing => Cell::Nothing,
            Content::Byte(x) => Cell::Byte(x),
            Content::Part(kind) => {
                Cell::Part(kind_value(kind, self.first, self.offset, self.last), j)
            }
        }
    }

    pub fn cell(&self, j: u8) -> Cell
        ensures { result ≡ slot_cell self.now j }
    {
        match j {
            0 => self.content_cell(self.a, 0),
            1 => self.content_cell(self.b, 1),
            2 => self.content_cell(self.c, 2),
            _ => self.content_cell(self.d, 3),
        }
    }

    pub fn set(&mut self, j: u8, content: Content)
        ensures { self.new ≡ slot_set self.old j content }
    {
        match j {
            0 => self.a = content,
            1 => self.b = content,
            2 => self.c = content,
            _ => self.d = content,
        }
    }

    fn filled(kind: Kind, first: u32, offset: i32, last: u32) -> Slot
        ensures { result ≡ slot_filled kind first offset last }
    {
        Slot {
            a: Content::Part(kind),
            b: Content::Part(kind),
            c: Content::Part(kind),
            d: Content::Part(kind),
            first,
            offset,
            last,
        }
    }

    /// The four cells of a value.
    pub fn of_value(v: Val) -> Slot
        ensures { result ≡ slot_of v }
    {
        match v {
            Val::Int(n) => Slot {
                a: Content::Byte((n / 16777216 % 256) as u8),
                b: Content::Byte((n / 65536 % 256) as u8),
                c: Content::Byte((n / 256 % 256) as u8),
                d: Content::Byte((n % 256) as u8),
                first: 0,
                offset: 0,
                last: 0,
            },
            Val::Undef => Slot::filled(Kind::Undef, 0, 0, 0),
            Val::Ptr(b, o) => Slot::filled(Kind::Ptr, b, 0, o),
            Val::Code(f, i) => Slot::filled(Kind::Code, f, 0, i),
            Val::Ext(k, o) => Slot::filled(Kind::Ext, k, 0, o),
            Val::Stop => Slot::filled(Kind::Stop, 0, 0, 0),
            Val::Ha(k, o, n) => Slot::filled(Kind::Ha, k, o, n),
        }
    }
}
