//! Registers that hold values.

ghost use Rattle.std.specs.Prelude.{◌≡◌};
ghost use Rattle.effect_model.specs.Files.{get, put};
ghost use Rattle.asm_mem.specs.declared.value.Val.TheVariants.{Undef};
ghost use Rattle.asm_values.specs.Files.{Divides, asm_all, asm_divided, asm_effect, no_values, value_read};

use crate::operands::{OperandValue, value_results, word_in};
use asm_mem::blocks::Blocks;
use asm_mem::value::Val;
use effect_model::{Effect, Effects, Operand, Place};
use effect_ops::operations::stops;
use link_model::key::KeyKind;
use std::marker::Model;

/// 32 general registers, the 32 bits of the condition register, LR, CTR, the carry and the summary overflow.
#[derive(Drop)]
pub struct Registers {
    gprs: [Val; 32],
    bits: [Val; 32],
    lr: Val,
    ctr: Val,
    ca: Val,
    so: Val,
}

impl Model for Registers {
    ghost use Rattle.std.specs.Prelude.{◌≡◌, length};
    ghost use Rattle.effect_model.specs.Files.{File};
    ghost use Rattle.asm_mem.specs.declared.value.Val.{Val};

    ghost Value = { File Val };

    ghost view = { λ r. record { gprs = r.gprs; bits = r.bits; lr = r.lr; ctr = r.ctr; ca = r.ca; so = r.so } };

    ghost invariant = { λ r. (length r.gprs ≡ 32) × (length r.bits ≡ 32) };
}

impl Registers {
    /// No register holds a value.
    pub fn new() -> Registers
        ensures { result ≡ no_values }
    {
        Registers {
            gprs: [Val::Undef; 32],
            bits: [Val::Undef; 32],
            lr: Val::Undef,
            ctr: Val::Undef,
            ca: Val::Undef,
            so: Val::Undef,
        }
    }

    /// What a place holds. A place that there is not holds no value.
    pub fn get(&self, p: Place) -> Val
        ensures { result ≡ get Undef self.now p }
    {
        match p {
            Place::Gpr(n) => {
                let n = usize::from(n);
                if n < self.gprs.len() {
                    self.gprs[n]
                } else {
                    Val::Undef
                }
            }
            Place::Bit(n) => {
                let n = usize::from(n);
                if n < self.bits.len() {
                    self.bits[n]
                } else {
                    Val::Undef
                }
            }
            Place::Lr => self.lr,
            Place::Ctr => self.ctr,
            Place::Ca => self.ca,
            Place::So => self.so,
            Place::Unused => Val::Undef,
        }
    }

    /// Puts a value into a place. Where there is no such place nothing changes.
    pub fn put(&mut self, p: Place, v: Val)
        ensures { self.new ≡ put self.old p v }
    {
        match p {
            Place::Gpr(n) => {
                let n = usize::from(n);
                if n < self.gprs.len() {
                    self.gprs[n] = v;
                }
            }
            Place::Bit(n) => {
                let n = usize::from(n);
                if n < self.bits.len() {
                    self.bits[n] = v;
                }
            }
            Place::Lr => self.lr = v,
            Place::Ctr => self.ctr = v,
            Place::Ca => self.ca = v,
            Place::So => self.so = v,
            Place::Unused => (),
        }
    }

    /// What an operand stands for.
    pub fn read(&self, x: Operand) -> OperandValue
        ensures { result ≡ value_read self.now x }
    {
        match x {
            Operand::At(p) => OperandValue::Known(self.get(p)),
            Operand::Number(n) => OperandValue::Known(Val::Int(n)),
            Operand::Lo(key, o) => OperandValue::Lo(key, o),
            Operand::Ha(key, o) => OperandValue::Ha(key, o),
            Operand::Sda(key, o) => OperandValue::Sda(key, o),
            Operand::Undefined => OperandValue::Undefined,
        }
    }

    #[tactic(auto, unfolding(crate::specs::Files::asm_effect))]
    fn apply(&mut self, kinds: &[KeyKind], blocks: &Blocks, e: &Effect)
        ensures { self.new ≡ asm_effect kinds.now blocks.now.live e.now self.old }
    {
        let r = value_results(
            kinds,
            blocks,
            e.op,
            self.read(e.x),
            self.read(e.y),
            self.read(e.z),
        );
        self.put(e.first, r.first);
        self.put(e.second, r.second);
        self.put(e.third, r.third);
    }

    /// Does the effects one after another.
    pub fn work(&mut self, kinds: &[KeyKind], blocks: &Blocks, effects: &Effects)
        ensures { self.new ≡ asm_all kinds.now blocks.now.live effects.now self.old }
    {
        match effects {
            Effects::Nothing => (),
            Effects::One(e) => self.apply(kinds, blocks, e),
            Effects::Two(e, d) => {
                self.apply(kinds, blocks, e);
                self.apply(kinds, blocks, d);
            }
            Effects::Three(e, d, c) => {
                self.apply(kinds, blocks, e);
                self.apply(kinds, blocks, d);
                self.apply(kinds, blocks, c);
            }
        }
    }

    /// Does a division. False where an operand is no word, it is by 0, or it is of the least signed word by -1; then nothing
    /// changes.
    pub fn divide(&mut self, kinds: &[KeyKind], blocks: &Blocks, e: &Effect) -> bool
        ensures { Divides (asm_divided kinds.now blocks.now.live e.now self.old) result self.old self.new }
    {
        match (word_in(self.read(e.x)), word_in(self.read(e.y))) {
            (Some(x), Some(y)) => {
                if stops(e.op, x, y) {
                    false
                } else {
                    self.apply(kinds, blocks, e);
                    true
                }
            }
            _ => false,
        }
    }
}
