//! The registers of the flat machine.

ghost use Rattle.std.specs.Prelude.{◌≡◌, ◌+◌, ◌≤◌, slice_index_or};
ghost use Rattle.effect_model.specs.Files.{get, put, word_read, flat_effect, flat_all, flat_stops, word_of_bits, put_bits, bit_of};
ghost use Rattle.effect_model.specs.Calls.{volatile, put_each};
ghost use Rattle.ppc_machine.specs.Replies.{reply_gprs, reply_word};
ghost use Rattle.ppc_machine.specs.Starts.{file_of};
ghost use Rattle.ppc_machine.specs.Steps.{branch_file};

use asm_syntax::unit::Reply;
use effect_model::{Effect, Effects, Operand, Place};
use effect_ops::calls::volatile;
use effect_ops::operations::{results, stops};
use std::marker::Model;

/// 32 general registers, the bits of the condition register, and the others.
#[derive(Drop)]
pub struct Registers {
    gprs: [u32; 32],
    bits: [u32; 32],
    lr: u32,
    ctr: u32,
    ca: u32,
    so: u32,
}

impl Model for Registers {
    ghost use Rattle.std.specs.Prelude.{ℕ};
    ghost use Rattle.effect_model.specs.Files.{File};

    ghost Value = { File ℕ };

    ghost view = { λ r. record { gprs = r.gprs; bits = r.bits; lr = r.lr; ctr = r.ctr; ca = r.ca; so = r.so } };
}

/// A bit of a word, bit 0 the highest.
pub fn bit_of(w: u32, i: u8) -> u32
    ensures { result ≡ bit_of w i }
{
    (w >> u32::from(31u8.saturating_sub(i))) % 2
}

fn reply_gpr(r: &Reply, n: u8) -> u32
    ensures { result ≡ slice_index_or (reply_gprs r.now) n 0 }
{
    match n {
        0 => r.r0,
        3 => r.r3,
        4 => r.r4,
        5 => r.r5,
        6 => r.r6,
        7 => r.r7,
        8 => r.r8,
        9 => r.r9,
        10 => r.r10,
        11 => r.r11,
        12 => r.r12,
        _ => 0,
    }
}

/// The word of a reply for a register that a call may change.
fn reply_word(r: &Reply, p: Place) -> u32
    ensures { result ≡ reply_word r.now p }
{
    match p {
        Place::Gpr(n) => reply_gpr(r, n),
        Place::Bit(i) => bit_of(r.cr, i),
        Place::Lr => r.lr,
        Place::Ctr => r.ctr,
        Place::Ca => bit_of(r.xer, 2),
        Place::So => bit_of(r.xer, 0),
        Place::Unused => 0,
    }
}

impl Registers {
    /// The condition register is given as a word.
    pub fn new(gprs: [u32; 32], cr: u32, lr: u32, ctr: u32, xer: u32) -> Registers
        ensures { result ≡ file_of gprs cr lr ctr xer }
    {
        let mut file = Registers {
            gprs,
            bits: [0; 32],
            lr,
            ctr,
            ca: bit_of(xer, 2),
            so: bit_of(xer, 0),
        };
        file.put_bits(cr, 0, 32);
        file
    }

    pub fn get(&self, p: Place) -> u32
        ensures { result ≡ get 0 self.now p }
    {
        match p {
            Place::Gpr(n) => {
                let n = usize::from(n);
                if n < 32 { self.gprs[n] } else { 0 }
            }
            Place::Bit(n) => {
                let n = usize::from(n);
                if n < 32 { self.bits[n] } else { 0 }
            }
            Place::Lr => self.lr,
            Place::Ctr => self.ctr,
            Place::Ca => self.ca,
            Place::So => self.so,
            Place::Unused => 0,
        }
    }

    pub fn put(&mut self, p: Place, v: u32)
        ensures { self.new ≡ put self.old p v }
    {
        match p {
            Place::Gpr(n) => {
                let n = usize::from(n);
                if n < 32 {
                    self.gprs[n] = v;
                }
            }
            Place::Bit(n) => {
                let n = usize::from(n);
                if n < 32 {
                    self.bits[n] = v;
                }
            }
            Place::Lr => self.lr = v,
            Place::Ctr => self.ctr = v,
            Place::Ca => self.ca = v,
            Place::So => self.so = v,
            Place::Unused => (),
        }
    }

    pub fn read(&self, x: Operand) -> u32
        ensures { result ≡ word_read self.now x }
    {
        match x {
            Operand::At(p) => self.get(p),
            Operand::Number(n) => n,
            Operand::Lo(_, _) | Operand::Ha(_, _) | Operand::Sda(_, _) | Operand::Undefined => 0,
        }
    }

    #[tactic(auto, unfolding(effect_model::specs::Files::flat_effect))]
    pub fn apply(&mut self, e: &Effect)
        ensures { self.new ≡ flat_effect e.now self.old }
    {
        let r = results(e.op, self.read(e.x), self.read(e.y), self.read(e.z));
        self.put(e.first, r.first);
        self.put(e.second, r.second);
        self.put(e.third, r.third);
    }

    pub fn work(&mut self, es: &Effects)
        ensures { self.new ≡ flat_all es.now self.old }
    {
        match es {
            Effects::Nothing => (),
            Effects::One(e) => self.apply(e),
            Effects::Two(e, d) => {
                self.apply(e);
                self.apply(d);
            }
            Effects::Three(e, d, c) => {
                self.apply(e);
                self.apply(d);
                self.apply(c);
            }
        }
    }

    /// Whether the effect is a division without a result.
    pub fn stops(&self, e: &Effect) -> bool
        ensures { result ≡ flat_stops e.now self.now }
    {
        stops(e.op, self.read(e.x), self.read(e.y))
    }

    /// The word of the condition register.
    pub fn condition(&self) -> u32
        ensures { result ≡ word_of_bits self.now.bits }
    {
        self.bits
            .iter()
            .fold(0u32, |w, b| w.wrapping_mul(2).wrapping_add(*b % 2))
    }

    /// So many bits of the condition register from one on get those of a word.
    pub fn put_bits(&mut self, w: u32, from: u8, count: u8)
        requires { from + count ≤ 32 }
        ensures { self.new ≡ put_bits self.old w from count }
    {
        for n in 0..count {
            let i = from + n;
            self.put(Place::Bit(i), bit_of(w, i));
        }
    }

    fn put_each(&mut self, r: &Reply, places: &[Place])
        ensures { self.new ≡ put_each (reply_word r.now) places.now self.old }
    {
        for p in places {
            self.put(*p, reply_word(r, *p));
        }
    }

    /// What a call leaves.
    pub fn put_reply(&mut self, r: &Reply)
        ensures { self.new ≡ put_each (reply_word r.now) volatile self.old }
    {
        self.put_each(r, volatile());
    }

    /// bdnz counts down.
    pub fn count(&mut self, bo: u8)
        ensures { self.new ≡ branch_file bo self.old }
    {
        if bo == 16 {
            self.ctr = self.ctr.wrapping_add(0xffff_ffff);
        }
    }
}
