//! Flat memory, and its loads, stores and fetches.
ghost use Rattle.std.specs.Prelude.{◌≡◌, ◌≤◌, ◌<◌, ◌+◌, ◌-◌, ◌^◌, ℕ, List, [], ◌∷◌, length, map, find, option_map, IfOk, Ok, Err};
ghost use Rattle.image_model.specs.Image.{Segment};
ghost use Rattle.image_model.specs.Loaded.{covers, HasRange};
ghost use Rattle.image_model.specs.Segments.{IsLoadable};
ghost use Rattle.elf_view.specs.Views.{segment_seen};
ghost use Rattle.effect_model.specs.Forms.{width};
ghost use Rattle.effect_model.specs.declared.Form.TheVariants.{ReversedWord, ReversedHalf};
ghost use Rattle.flat_mem.specs.Memory.{byte_in, flags_in, byte_of, is_mapped, may_write, may_run, set_byte, set_bytes, each_from};
ghost use Rattle.flat_mem.specs.Access.{word, half_of, word_of, value_of, bytes_of, loaded, stored, fetched, Stores};
ghost use Rattle.flat_mem.specs.Built.{kept, built, HoldsImage};
ghost use Rattle.word_ops.specs.Seen.{extent_of};

use crate::region::Region;
use effect_model::Form;
use elf_view::{ElfView, LoadedSegments, SegView};
use image_model::flags::{is_executable, is_writable};
use std::alloc::{AllocError, Global};
use std::marker::Model;
use word_ops::range::Range;
use word_ops::words::sext16;

/// Why the machine cannot go on.
#[derive(Clone, Copy, Debug, PartialEq, Eq, Drop)]
pub enum FaultKind {
    /// A byte is not mapped.
    Unmapped,
    /// A word is not executable, or its address is no multiple of 4.
    NotCode,
    /// A byte cannot be stored to.
    ReadOnly,
    /// A word is no instruction.
    Opcode,
    /// A division has no result.
    Divide,
    /// The trap is taken.
    Trap,
    /// A buffer of a call has too many bytes.
    Buffer,
}

impl FaultKind {
    ghost use Rattle.flat_mem.specs.Faults.{number_of};

    /// The number of the variant, from 1 to 7.
    pub fn number(self) -> u32
        ensures { result ≡ number_of self }
    {
        match self {
            FaultKind::Unmapped => 1,
            FaultKind::NotCode => 2,
            FaultKind::ReadOnly => 3,
            FaultKind::Opcode => 4,
            FaultKind::Divide => 5,
            FaultKind::Trap => 6,
            FaultKind::Buffer => 7,
        }
    }
}

/// The stack and the segments. Where two cover an address, the first has its byte. `loaded` finds the segment of an address.
#[derive(Drop)]
pub struct FlatMem<'a> {
    loaded: LoadedSegments<'a>,
    stack: Region<'a>,
    segments: Vec<Region<'a>>,
}

impl<'a> Model for FlatMem<'a> {
    ghost use Rattle.std.specs.Prelude.{List, ◌∷◌};
    ghost use Rattle.image_model.specs.Image.{Segment};
    ghost use Rattle.flat_mem.specs.Built.{AreRegionsOf};

    ghost Value = { List Segment };

    ghost view = { λ m. m.stack ∷ m.segments.items };

    ghost invariant = { λ m. AreRegionsOf m.loaded m.segments.items };
}

/// What is kept of a segment of the image.
#[tactic(auto, using(crate::proofs::Kept::filled_up))]
fn kept<'a>(alloc: Global, s: &SegView<'a>) -> Result<Region<'a>, AllocError>
    requires range { HasRange (segment_seen s.now) }
    ensures { IfOk result (λ r. r ≡ kept (segment_seen s.now)) }
{
    if !is_writable(s.flags) {
        return Ok(Region::lend(alloc, s.vaddr, s.memsz, s.flags, s.bytes));
    }
    let mut bytes = Vec::with_capacity(alloc, s.memsz as usize)?;
    bytes.extend_from_slice(s.bytes)?;
    bytes.resize(s.memsz as usize, 0)?;
    Ok(Region::own(s.vaddr, s.memsz, s.flags, bytes))
}

/// What is kept of all segments, in the order of their headers.
fn all_kept<'a>(alloc: Global, view: &ElfView<'a>) -> Result<Vec<Region<'a>>, AllocError>
    ensures kept { IfOk result (λ list. list.items ≡ map kept view.now.segments) }
    ensures loadable { IsLoadable view.now }
{
    let mut regions = Vec::new(alloc);
    for i in 0..view.segments() {
        let region = kept(alloc, &view.segment(i))?;
        regions.push(region)?;
    }
    Ok(regions)
}

impl<'a> FlatMem<'a> {
    /// The memory of an image, and of a stack with these bytes. All memory that it ever needs is taken here.
    pub fn build(
        alloc: Global,
        view: &ElfView<'a>,
        stack: &Range,
        bytes: &[u8],
    ) -> Result<FlatMem<'a>, AllocError>
        requires some { 0 < stack.now.lo }
        requires ordered { stack.now.lo < stack.now.hi }
        requires size { stack.now.hi ≡ stack.now.lo + length bytes.now }
        ensures value { IfOk result (λ m. m ≡ built view.now stack.now.lo bytes.now) }
        ensures holds { IfOk result (HoldsImage view.now (extent_of stack.now) bytes.now) }
    {
        let owned = Vec::from_slice(alloc, bytes)?;
        let segments = all_kept(alloc, view)?;
        let loaded = LoadedSegments::read(alloc, view)?;
        Ok(FlatMem {
            loaded,
            stack: Region::own(stack.lo as u32, bytes.len() as u32, 2, owned),
            segments,
        })
    }

    /// The region that has the byte at an address.
    fn region(&self, a: u32) -> Option<&Region<'a>>
        ensures { option_map (λ r. r.now) result ≡ find (covers a) self.now }
    {
        if self.stack.covers(a) {
            return Some(&self.stack);
        }
        match self.loaded.number_of(u64::from(a)) {
            Some(i) => Some(&self.segments[i as usize]),
            None => None,
        }
    }

    /// The byte at an address.
    pub fn byte(&self, a: u32) -> Option<u8>
        ensures { result ≡ byte_in self.now a }
    {
        match self.region(a) {
            Some(r) => Some(r.byte(a)),
            None => None,
        }
    }

    /// The flags of the region that has the byte at an address.
    pub fn flags(&self, a: u32) -> Option<u32>
        ensures { result ≡ flags_in self.now a }
    {
        match self.region(a) {
            Some(r) => Some(r.flags()),
            None => None,
        }
    }

    /// Sets the byte at an address, where it can be stored to.
    pub fn set(&mut self, a: u32, byte: u8)
        ensures { self.new ≡ set_byte self.old a byte }
    {
        if self.stack.covers(a) {
            self.stack.set(a, byte);
            return;
        }
        let Some(i) = self.loaded.number_of(u64::from(a)) else {
            return;
        };
        let r = &mut self.segments[i as usize];
        r.set(a, byte);
    }

    fn is_mapped(&self, a: u32) -> bool
        ensures { result ≡ is_mapped self.now a }
    {
        self.flags(a).is_some()
    }

    fn may_write(&self, a: u32) -> bool
        ensures { result ≡ may_write self.now a }
    {
        match self.flags(a) {
            Some(flags) => is_writable(flags),
            None => false,
        }
    }

    fn may_run(&self, a: u32) -> bool
        ensures { result ≡ may_run self.now a }
    {
        match self.flags(a) {
            Some(flags) => is_executable(flags),
            None => false,
        }
    }

    /// The byte at an address, 0 where none is mapped.
    pub fn byte_or_zero(&self, a: u32) -> u8
        ensures { result ≡ byte_of self.now a }
    {
        match self.byte(a) {
            Some(byte) => byte,
            None => 0,
        }
    }

    fn half(&self, a: u32) -> u32
        ensures { result ≡ half_of self.now a }
    {
        u32::from(self.byte_or_zero(a)) * 256 + u32::from(self.byte_or_zero(a.wrapping_add(1)))
    }

    fn word(&self, a: u32) -> u32
        ensures { result ≡ word_of self.now a }
    {
        let b = a.wrapping_add(1);
        let c = b.wrapping_add(1);
        let d = c.wrapping_add(1);
        word_from(
            self.byte_or_zero(a),
            self.byte_or_zero(b),
            self.byte_or_zero(c),
            self.byte_or_zero(d),
        )
    }

    fn reversed_word(&self, a: u32) -> u32
        ensures { result ≡ value_of self.now ReversedWord a }
    {
        let b = a.wrapping_add(1);
        let c = b.wrapping_add(1);
        let d = c.wrapping_add(1);
        word_from(
            self.byte_or_zero(d),
            self.byte_or_zero(c),
            self.byte_or_zero(b),
            self.byte_or_zero(a),
        )
    }

    fn reversed_half(&self, a: u32) -> u32
        ensures { result ≡ value_of self.now ReversedHalf a }
    {
        u32::from(self.byte_or_zero(a.wrapping_add(1))) * 256 + u32::from(self.byte_or_zero(a))
    }

    /// What a form reads at an address.
    fn value(&self, form: Form, a: u32) -> u32
        ensures { result ≡ value_of self.now form a }
    {
        match form {
            Form::Word => self.word(a),
            Form::Half => self.half(a),
            Form::Byte => u32::from(self.byte_or_zero(a)),
            Form::SignedHalf => sext16(self.half(a)),
            Form::ReversedWord => self.reversed_word(a),
            Form::ReversedHalf => self.reversed_half(a),
        }
    }

    /// Whether each of so many addresses from one on is mapped.
    #[tactic(auto, using(crate::proofs::Loops::each_more, crate::proofs::Loops::each_end))]
    pub fn are_mapped(&self, n: u32, a: u32) -> bool
        ensures { result ≡ each_from (is_mapped self.now) n a }
    {
        let mut at = a;
        for _i in 0..n {
            if !self.is_mapped(at) {
                return false;
            }
            at = at.wrapping_add(1);
        }
        true
    }

    /// Whether each of so many addresses from one on can be stored to.
    #[tactic(auto, using(crate::proofs::Loops::each_more, crate::proofs::Loops::each_end))]
    pub fn may_write_all(&self, n: u32, a: u32) -> bool
        ensures { result ≡ each_from (may_write self.now) n a }
    {
        let mut at = a;
        for _i in 0..n {
            if !self.may_write(at) {
                return false;
            }
            at = at.wrapping_add(1);
        }
        true
    }

    /// Whether each of so many addresses from one on is executable.
    #[tactic(auto, using(crate::proofs::Loops::each_more, crate::proofs::Loops::each_end))]
    fn may_run_all(&self, n: u32, a: u32) -> bool
        ensures { result ≡ each_from (may_run self.now) n a }
    {
        let mut at = a;
        for _i in 0..n {
            if !self.may_run(at) {
                return false;
            }
            at = at.wrapping_add(1);
        }
        true
    }

    /// The value that a load gives, where all its bytes are mapped.
    pub fn load(&self, form: Form, a: u32) -> Option<u32>
        ensures { result ≡ loaded self.now form a }
    {
        if self.are_mapped(form.width(), a) {
            Some(self.value(form, a))
        } else {
            None
        }
    }

    fn set_two(&mut self, a: u32, x: u8, y: u8)
        ensures { self.new ≡ set_bytes self.old a (x ∷ y ∷ []) }
    {
        let b = a.wrapping_add(1);
        self.set(a, x);
        self.set(b, y);
    }

    fn set_four(&mut self, a: u32, x: u8, y: u8, z: u8, w: u8)
        ensures { self.new ≡ set_bytes self.old a (x ∷ y ∷ z ∷ w ∷ []) }
    {
        let c = a.wrapping_add(1).wrapping_add(1);
        self.set_two(a, x, y);
        self.set_two(c, z, w);
    }

    /// Sets the bytes of a value, where they can be stored to.
    pub fn set_value(&mut self, form: Form, a: u32, x: u32)
        ensures { self.new ≡ set_bytes self.old a (bytes_of form x) }
    {
        let b0 = (x / 16777216 % 256) as u8;
        let b1 = (x / 65536 % 256) as u8;
        let b2 = (x / 256 % 256) as u8;
        let b3 = (x % 256) as u8;
        match form {
            Form::Word => self.set_four(a, b0, b1, b2, b3),
            Form::Half | Form::SignedHalf => self.set_two(a, b2, b3),
            Form::Byte => self.set(a, b3),
            Form::ReversedWord => self.set_four(a, b3, b2, b1, b0),
            Form::ReversedHalf => self.set_two(a, b3, b2),
        }
    }

    /// Stores a value, where all its bytes are mapped and can be stored to.
    pub fn store(&mut self, form: Form, a: u32, x: u32) -> Result<(), FaultKind>
        ensures { Stores (stored self.old form a x) result self.old self.new }
    {
        if !self.are_mapped(form.width(), a) {
            return Err(FaultKind::Unmapped);
        }
        if !self.may_write_all(form.width(), a) {
            return Err(FaultKind::ReadOnly);
        }
        self.set_value(form, a, x);
        Ok(())
    }

    /// The word of an instruction.
    pub fn fetch(&self, a: u32) -> Result<u32, FaultKind>
        ensures { result ≡ fetched self.now a }
    {
        if !self.are_mapped(4, a) {
            Err(FaultKind::Unmapped)
        } else if !self.may_run_all(4, a) {
            Err(FaultKind::NotCode)
        } else if a % 4 != 0 {
            Err(FaultKind::NotCode)
        } else {
            Ok(self.word(a))
        }
    }
}

fn word_from(x: u8, y: u8, z: u8, w: u8) -> u32
    ensures { result ≡ word x y z w }
{
    u32::from(x) * 16777216 + u32::from(y) * 65536 + u32::from(z) * 256 + u32::from(w)
}
