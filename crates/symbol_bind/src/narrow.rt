//! Sets of addresses that get narrower.

ghost use Rattle.std.specs.Prelude.{◌≡◌, ◌≤◌, ◌<◌, ◌+◌, ◌^◌, ◌&&◌, ◌==◌, ◌%◌, length, ℕ, ℤ, true, false};
ghost use Rattle.isa_model.specs.Word.{lo, ha};
ghost use Rattle.code_model.specs.Fields.{address_plus};
ghost use Rattle.ppc_decode.specs.declared.machine.Machine.{Machine};
ghost use Rattle.code_model.specs.Forms.{constant_form};
ghost use Rattle.code_model.specs.Spelling.{agrees};
ghost use Rattle.layout_model.specs.Layouts.{Layout};
ghost use Rattle.link_model.specs.Uses.{refers_to, FromInstr, FromData};
ghost use Rattle.symbol_bind.specs.AddressSets.{contains, has_low, in_window, distance};

use crate::address_set::AddressSet;
use asm_syntax::instr::{Const, Jump, Plain};
use layout_file::layout::Layout;
use ppc_decode::displacement::{displacement_16_in, displacement_26_in};
use reloc_match::fields::{address_plus, base_field};
use reloc_match::small_data::small_data_address;
use word_ops::words::lo;

fn distance(s: u32, t: u32) -> u64
    ensures value { result ≡ distance s t }
    ensures range { result < 2 ^ 32 }
{
    (u64::from(t) + (0x1_0000_0000 - u64::from(s))) % 0x1_0000_0000
}

impl AddressSet {
    #[tactic(auto, unfolding(crate::specs::AddressSets::contains))]
    pub fn all() -> AddressSet
        ensures { (t : ℕ) → t < 2 ^ 32 → contains result t ≡ true }
    {
        AddressSet {
            low: None,
            whole: true,
            start: 0,
            size: 0,
        }
    }

    #[tactic(auto, unfolding(crate::specs::AddressSets::contains))]
    pub fn contains(&self, t: u32) -> bool
        ensures { result ≡ contains self.now t }
    {
        let has_low = match self.low {
            Some(h) => t % 0x1_0000 == h,
            None => true,
        };
        has_low && (self.whole || distance(self.start, t) < self.size)
    }

    #[tactic(auto, unfolding(crate::specs::AddressSets::contains))]
    fn none(&self) -> AddressSet
        ensures { (t : ℕ) → contains result t ≡ false }
    {
        AddressSet {
            low: self.low,
            whole: false,
            start: self.start,
            size: 0,
        }
    }

    /// Those with this low half.
    #[tactic(auto, unfolding(crate::specs::AddressSets::contains))]
    fn with_low(&self, h: u32) -> AddressSet
        ensures { (t : ℕ) → t < 2 ^ 32 → contains result t ≡ (contains self.now t && t % 2 ^ 16 == h) }
    {
        match self.low {
            None => AddressSet {
                low: Some(h),
                whole: self.whole,
                start: self.start,
                size: self.size,
            },
            Some(other) => if other == h { *self } else { self.none() },
        }
    }

    /// Those of a window. Two windows of at most 2^16 addresses meet in one window.
    #[tactic(auto, unfolding(crate::specs::AddressSets::contains))]
    fn with_window(&self, start: u32, size: u64) -> AddressSet
        requires { size ≤ 2 ^ 16 }
        ensures { (t : ℕ) → t < 2 ^ 32 → contains result t ≡ (contains self.now t && in_window start size t) }
    {
        if self.whole {
            return AddressSet {
                low: self.low,
                whole: false,
                start,
                size,
            };
        }
        let later = distance(self.start, start);
        if later < self.size {
            return AddressSet {
                low: self.low,
                whole: false,
                start,
                size: size.min(self.size - later),
            };
        }
        let earlier = distance(start, self.start);
        if earlier < size {
            return AddressSet {
                low: self.low,
                whole: false,
                start: self.start,
                size: self.size.min(size - earlier),
            };
        }
        self.none()
    }
}

/// The low half of an address to which an offset is added for the low half `h`.
fn low_before(h: u32, offset: i32) -> u32
    requires { h < 2 ^ 16 }
    ensures { (t : ℕ) → t < 2 ^ 32 → (h == lo (address_plus t offset)) ≡ (t % 2 ^ 16 == result) }
{
    h.wrapping_sub(offset.cast_unsigned()) % 0x1_0000
}

/// The start of the window of 2^16 addresses to which an offset is added for the adjusted high half `h`.
fn high_before(h: u32, offset: i32) -> u32
    requires { h < 2 ^ 16 }
    ensures { (t : ℕ) → t < 2 ^ 32 → (h == ha (address_plus t offset)) ≡ in_window result (2 ^ 16) t }
{
    (h << 16)
        .wrapping_sub(0x8000)
        .wrapping_sub(offset.cast_unsigned())
}

/// The address to which an offset is added for the address `x`.
fn before(x: u32, offset: i32) -> u32
    ensures { (t : ℕ) → t < 2 ^ 32 → (x == address_plus t offset) ≡ in_window result 1 t }
{
    x.wrapping_sub(offset.cast_unsigned())
}

impl AddressSet {
    fn with_address(&self, x: u32) -> AddressSet
        ensures { (t : ℕ) → t < 2 ^ 32 → contains result t ≡ (contains self.now t && x == t) }
    {
        self.with_window(x, 1)
    }

    fn by_low(&self, h: u32, offset: i32) -> AddressSet
        requires { h < 2 ^ 16 }
        ensures { (t : ℕ) → t < 2 ^ 32 → contains result t ≡ (contains self.now t && h == lo (address_plus t offset)) }
    {
        let before = low_before(h, offset);
        self.with_low(before)
    }

    /// Those with which a constant in a word agrees.
    fn by_const(&self, layout: &Layout, c: &Const, word: u32) -> AddressSet
        ensures { (t at a : ℕ) (made : ℕ → ℤ → Machine) → t < 2 ^ 32
            → contains result t ≡ (contains self.now t && agrees layout.now at (constant_form t a c.now made).gap word) }
    {
        match c {
            Const::Int(_) => *self,
            Const::Lo(_, offset) => self.by_low(lo(word), *offset),
            Const::Ha(_, offset) => self.with_window(high_before(lo(word), *offset), 0x1_0000),
            Const::Sda(_, offset) => match small_data_address(layout, base_field(word), lo(word)) {
                Some(x) => self.with_window(before(x, *offset), 1),
                None => self.none(),
            },
        }
    }

    /// Those with which the word at an address agrees as an instruction.
    pub fn by_plain(&self, layout: &Layout, at: u32, plain: &Plain, word: u32) -> AddressSet
        ensures { (t : ℕ) → t < 2 ^ 32 → contains result t ≡ (contains self.now t && refers_to layout.now t at (FromInstr plain.now) word) }
    {
        match plain {
            Plain::AluImm(_, _, _, c) | Plain::Load(_, _, c, _) | Plain::Store(_, _, c, _) => {
                self.by_const(layout, c, word)
            }
            Plain::Jump(Jump::B(_) | Jump::Bs(_) | Jump::Bl(_)) => {
                self.with_address(address_plus(at, displacement_26_in(word)))
            }
            Plain::Jump(Jump::Bdnz(_)) => {
                self.with_address(address_plus(at, displacement_16_in(word)))
            }
            _ => *self,
        }
    }

    /// Those with which a word of data agrees.
    pub fn by_data(&self, offset: i32, word: u32) -> AddressSet
        ensures { (l : Layout) (t at : ℕ) → t < 2 ^ 32
            → contains result t ≡ (contains self.now t && refers_to l t at (FromData offset) word) }
    {
        self.with_window(before(word, offset), 1)
    }
}
