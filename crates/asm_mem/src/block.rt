//! One block.

ghost use Rattle.std.specs.Prelude.{◌≡◌, ◌<◌, ◌%◌, ◌^◌, ℕ, length, IfOk, IsTrue, ◌&&◌};
ghost use Rattle.asm_mem.specs.Edits.{IsPlaced, edited};
ghost use Rattle.asm_mem.specs.Blocks.{cell, is_width, may_read, new_block, read_block, read_reversed, reversed_at, set_cell, set_cells};
ghost use Rattle.asm_mem.specs.Blocks.{value_at, write_block, write_reversed};
ghost use Rattle.asm_mem.specs.Cells.{byte_cell, byte_in, empty_word};

use crate::cell::{Cell, byte_word, four_bytes, half_word, joined, low_byte};
use crate::slot::{Content, Slot};
use crate::value::Val;
use std::alloc::{AllocError, Global};
use std::marker::Model;

/// A number, whether it can be stored to, and so many cells.
#[derive(Drop)]
pub struct Block {
    number: u32,
    writable: bool,
    size: u32,
    slots: Vec<Slot>,
}

impl Model for Block {
    ghost use Rattle.std.specs.Prelude.{take, length, ◌*◌, ◌≤◌};
    ghost use Rattle.asm_mem.specs.Blocks.{Live};
    ghost use Rattle.asm_mem.specs.Slots.{flat};

    ghost Value = { Live };

    ghost view = { λ k. record { number = k.number; writable = k.writable; cells = take k.size (flat k.slots.items) } };

    ghost invariant = { λ k. k.size ≤ 4 * length k.slots.items };
}

/// A change of a block's cells.
#[derive(Clone, Copy, Drop)]
pub enum Edit {
    /// A value is stored with a width at an offset.
    Write(u8, u32, Val),
    /// The same with the lowest byte first.
    WriteReversed(u8, u32, Val),
    /// A cell becomes a byte, or nothing.
    Set(u64, Option<u8>),
    /// Four cells become empty.
    Empty(u32),
}

impl Block {
    /// A block of empty cells.
    #[tactic(auto, using(crate::proofs::Flat::flat_empty))]
    pub fn new(alloc: Global, number: u32, size: u32, writable: bool) -> Result<Block, AllocError>
        ensures { IfOk result (λ k. k ≡ new_block number size writable) }
    {
        let mut slots = Vec::new(alloc);
        slots.resize((size as usize).div_ceil(4), Slot::empty())?;
        Ok(Block {
            number,
            writable,
            size,
            slots,
        })
    }

    pub fn number(&self) -> u32
        ensures { result ≡ self.now.number }
    {
        self.number
    }

    pub fn writable(&self) -> bool
        ensures { result ≡ self.now.writable }
    {
        self.writable
    }

    #[tactic(auto, using(crate::proofs::Flat::flat_length))]
    pub fn size(&self) -> u32
        ensures { result ≡ length self.now.cells }
    {
        self.size
    }

    #[tactic(auto, using(crate::proofs::Flat::cell_at, crate::proofs::Flat::flat_length))]
    pub fn cell(&self, o: usize) -> Cell
        ensures { result ≡ cell self.now o }
    {
        if o < self.size as usize {
            self.slots[o / 4].cell((o % 4) as u8)
        } else {
            Cell::Nothing
        }
    }

    /// The byte in a cell, where there is one.
    pub fn byte(&self, o: usize) -> Option<u8>
        ensures { result ≡ byte_in (cell self.now o) }
    {
        self.cell(o).byte()
    }

    /// Whether an access of so many bytes at an offset is aligned and inside.
    #[tactic(auto, using(crate::proofs::Flat::flat_length))]
    pub fn may_read(&self, width: u8, o: u32) -> bool
        requires { IsTrue (is_width width) }
        ensures { result ≡ may_read self.now width o }
    {
        o % u32::from(width) == 0 && o as usize + usize::from(width) <= self.size as usize
    }

    fn value_at(&self, width: u8, o: usize) -> Val
        requires { o < 2 ^ 32 }
        ensures { result ≡ value_at self.now width o }
    {
        if width == 4 {
            joined(
                self.cell(o),
                self.cell(o + 1),
                self.cell(o + 2),
                self.cell(o + 3),
            )
        } else if width == 2 {
            half_word(self.cell(o), self.cell(o + 1))
        } else {
            byte_word(self.cell(o))
        }
    }

    fn reversed_at(&self, width: u8, o: usize) -> Val
        requires { o < 2 ^ 32 }
        ensures { result ≡ reversed_at self.now width o }
    {
        if width == 4 {
            four_bytes(
                self.cell(o + 3),
                self.cell(o + 2),
                self.cell(o + 1),
                self.cell(o),
            )
        } else if width == 2 {
            half_word(self.cell(o + 1), self.cell(o))
        } else {
            byte_word(self.cell(o))
        }
    }

    pub fn read(&self, width: u8, o: u32) -> Option<Val>
        requires { IsTrue (is_width width) }
        ensures { result ≡ read_block self.now width o }
    {
        if self.may_read(width, o) {
            Some(self.value_at(width, o as usize))
        } else {
            None
        }
    }

    pub fn read_reversed(&self, width: u8, o: u32) -> Option<Val>
        requires { IsTrue (is_width width) }
        ensures { result ≡ read_reversed self.now width o }
    {
        if self.may_read(width, o) {
            Some(self.reversed_at(width, o as usize))
        } else {
            None
        }
    }

    /// Sets a cell to a byte, or to nothing; past the end nothing changes.
    #[tactic(auto, using(crate::proofs::Flat::set_at, crate::proofs::Flat::set_past, crate::proofs::Flat::flat_length))]
    fn set_byte(&mut self, o: usize, b: Option<u8>)
        ensures { self.new ≡ set_cell self.old o (byte_cell b) }
    {
        if o < self.size as usize {
            let s = &mut self.slots[o / 4];
            s.set((o % 4) as u8, Content::of_byte(b));
        }
    }

    /// Sets four cells to the parts of a value.
    #[tactic(auto, using(crate::proofs::Flat::put_at, crate::proofs::Flat::put_past, crate::proofs::Flat::flat_length))]
    fn set_value(&mut self, o: usize, v: Val)
        requires range { o < 2 ^ 32 }
        requires place { o % 4 ≡ 0 }
        ensures { self.new ≡ write_block self.old 4 o v }
    {
        if o < self.size as usize {
            self.slots[o / 4] = Slot::of_value(v);
        }
    }

    fn write(&mut self, width: u8, o: u32, v: Val)
        requires width { IsTrue (is_width width) }
        requires place { o % width ≡ 0 }
        ensures { self.new ≡ write_block self.old width o v }
    {
        let o = o as usize;
        if width == 4 {
            self.set_value(o, v);
        } else if width == 2 {
            self.set_byte(o, low_byte(v, 256));
            self.set_byte(o + 1, low_byte(v, 1));
        } else {
            self.set_byte(o, low_byte(v, 1));
        }
    }

    fn write_reversed(&mut self, width: u8, o: u32, v: Val)
        ensures { self.new ≡ write_reversed self.old width o v }
    {
        let o = o as usize;
        self.set_byte(o, low_byte(v, 1));
        if width == 4 {
            self.set_byte(o + 1, low_byte(v, 256));
            self.set_byte(o + 2, low_byte(v, 65536));
            self.set_byte(o + 3, low_byte(v, 16777216));
        } else if width == 2 {
            self.set_byte(o + 1, low_byte(v, 256));
        }
    }

    fn set_empty(&mut self, o: u32)
        ensures { self.new ≡ set_cells self.old o empty_word }
    {
        let o = o as usize;
        self.set_byte(o, None);
        self.set_byte(o + 1, None);
        self.set_byte(o + 2, None);
        self.set_byte(o + 3, None);
    }

    pub fn edit(&mut self, e: Edit)
        requires { IsPlaced e }
        ensures { self.new ≡ edited e self.old }
    {
        match e {
            Edit::Write(width, o, v) => self.write(width, o, v),
            Edit::WriteReversed(width, o, v) => self.write_reversed(width, o, v),
            Edit::Set(o, b) => self.set_byte(o as usize, b),
            Edit::Empty(o) => self.set_empty(o),
        }
    }
}
