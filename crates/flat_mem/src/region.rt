//! A stretch of mapped addresses.
ghost use Rattle.std.specs.Prelude.{◌≡◌, ◌≤◌, ◌+◌, ◌-◌, ◌^◌, ℕ, List, length, true, false};
ghost use Rattle.image_model.specs.Image.{Segment};
ghost use Rattle.image_model.specs.Loaded.{covers, segment_byte, is_writable};
ghost use Rattle.flat_mem.specs.Memory.{written};

use image_model::flags::is_writable;
use std::alloc::Global;
use std::marker::Model;

/// A segment or the stack. The bytes of one that cannot be stored to are lent from the file.
#[derive(Drop)]
pub struct Region<'a> {
    from: u32,
    size: u32,
    flags: u32,
    lent: &'a [u8],
    owned: Vec<u8>,
}

impl<'a> Model for Region<'a> {
    ghost use Rattle.std.specs.Prelude.{if◌then◌else◌};
    ghost use Rattle.image_model.specs.Image.{Segment};
    ghost use Rattle.image_model.specs.Loaded.{is_writable};
    ghost use Rattle.flat_mem.specs.Built.{IsRegion};

    ghost Value = { Segment };

    ghost view = { λ r. record {
      vaddr = r.from;
      held = if is_writable r.flags then r.owned.items else r.lent.now;
      memsz = r.size;
      flags = r.flags;
    } };

    ghost invariant = { λ r. IsRegion r.from r.size r.flags r.lent.now r.owned.items };
}

impl<'a> Region<'a> {
    /// A segment that cannot be stored to.
    pub fn lend(alloc: Global, from: u32, size: u32, flags: u32, bytes: &'a [u8]) -> Region<'a>
        requires below { from + size ≤ 2 ^ 32 }
        requires held { length bytes.now ≤ size }
        requires closed { is_writable flags ≡ false }
        ensures { result ≡ record { vaddr = from; held = bytes.now; memsz = size; flags = flags } }
    {
        Region {
            from,
            size,
            flags,
            lent: bytes,
            owned: Vec::new(alloc),
        }
    }

    /// A segment that can be stored to, or the stack.
    pub fn own(from: u32, size: u32, flags: u32, bytes: Vec<u8>) -> Region<'a>
        requires below { from + size ≤ 2 ^ 32 }
        requires whole { length bytes.items ≡ size }
        requires open { is_writable flags ≡ true }
        ensures { result ≡ record { vaddr = from; held = bytes.items; memsz = size; flags = flags } }
    {
        Region {
            from,
            size,
            flags,
            lent: &[],
            owned: bytes,
        }
    }

    pub fn flags(&self) -> u32
        ensures { result ≡ self.now.flags }
    {
        self.flags
    }

    pub fn covers(&self, a: u32) -> bool
        ensures { result ≡ covers a self.now }
    {
        self.from <= a && a - self.from < self.size
    }

    /// The byte at an address.
    pub fn byte(&self, a: u32) -> u8
        ensures { result ≡ segment_byte self.now (a - self.now.vaddr) }
    {
        let i = a.saturating_sub(self.from) as usize;
        if is_writable(self.flags) {
            if i < self.owned.len() {
                self.owned[i]
            } else {
                0
            }
        } else {
            if i < self.lent.len() { self.lent[i] } else { 0 }
        }
    }

    /// Sets the byte at an address, where the region can be stored to.
    pub fn set(&mut self, a: u32, byte: u8)
        requires { covers a self.old ≡ true }
        ensures { self.new ≡ written self.old a byte }
    {
        if is_writable(self.flags) {
            let i = (a - self.from) as usize;
            self.owned[i] = byte;
        }
    }
}
