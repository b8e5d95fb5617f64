//! The addresses of a function's instructions and labels.

ghost use Rattle.std.specs.Prelude.{◌≡◌, ◌+◌, ◌*◌, ◌≤◌, ◌<◌, ◌^◌, IfOk, length, IfSome, slice_get, Some};
ghost use Rattle.limits.specs.declared.TheConstants.{MOST_INSTRUCTIONS};
ghost use Rattle.code_model.specs.Addresses.{address_after};
ghost use Rattle.expansions.specs.Addresses.{addresses_of};

use crate::image_words::ImageWords;
use asm_shapes::IndexedCode;
use asm_syntax::instr::Instr;
use asm_syntax::listed::Listed;
use reloc_match::matching::length;
use std::alloc::{AllocError, Global};

/// The address behind an instruction, whose length depends on its first word.
#[tactic(auto, unfolding(code_model::specs::Addresses::address_after))]
fn address_after(words: &ImageWords, a: u64, instr: &Instr) -> u64
    requires { a < 2 ^ 40 }
    ensures value { result ≡ address_after words.now a instr.now }
    ensures near { result ≤ a + 20 }
{
    a + 4 * u64::from(length(instr, words.word_or_zero(a)))
}

/// The address of each instruction of the code that begins at `base`, and then that of its end.
fn all_addresses(
    alloc: Global,
    words: &ImageWords,
    base: u32,
    code: &[Instr],
) -> Result<Listed<u64>, AllocError>
    requires { length code.now ≤ MOST_INSTRUCTIONS }
    ensures { IfOk result (λ list. list ≡ addresses_of words.now base code.now) }
{
    let mut a = u64::from(base);
    let mut list = Listed::new(alloc);
    list.push(a)?;
    for instr in code {
        a = address_after(words, a, instr);
        list.push(a)?;
    }
    Ok(list)
}

/// A code that begins at an address of an image.
#[derive(Drop)]
pub struct StandingCode<'c, 'v, 'a> {
    pub words: ImageWords<'v, 'a>,
    pub base: u32,
    pub code: &'c IndexedCode<'c>,
    addresses: Listed<u64>,
    pub ghost addressed: { addresses ≡ addresses_of words base code.now },
}

impl<'c, 'v, 'a> StandingCode<'c, 'v, 'a> {
    ghost use Rattle.code_model.specs.Forms.{instr_length};
    ghost use Rattle.code_model.specs.Addresses.{loaded_word, instr_address, code_end, label_address};

    pub fn new(
        alloc: Global,
        words: ImageWords<'v, 'a>,
        base: u32,
        code: &'c IndexedCode<'c>,
    ) -> Result<StandingCode<'c, 'v, 'a>, AllocError>
        requires { length code.now ≤ MOST_INSTRUCTIONS }
        ensures words { IfOk result (λ s. s.words ≡ words.entry) }
        ensures base { IfOk result (λ s. s.base ≡ base) }
        ensures code { IfOk result (λ s. s.code.now ≡ code.now) }
    {
        let addresses = all_addresses(alloc, &words, base, code.code())?;
        Ok(StandingCode {
            words,
            base,
            code,
            addresses,
        })
    }

    /// The address of instruction `i`, or of the end behind the last one.
    pub fn address(&self, i: usize) -> u64
        requires { i ≤ length self.now.code.now }
        ensures { result ≡ instr_address self.now.words self.now.base self.now.code.now i }
    {
        self.addresses.items()[i]
    }

    /// The address of instruction `i`, and how many words it has.
    #[tactic(auto, using(crate::proofs::Walks::within, crate::proofs::Walks::address_low, crate::proofs::Walks::words_end))]
    pub fn place(&self, i: usize, instr: &Instr) -> (u64, usize)
        requires here { slice_get self.now.code.now i ≡ Some instr.now }
        requires end { code_end self.now.words self.now.base self.now.code.now < 2 ^ 32 }
        ensures address { result.0 ≡ instr_address self.now.words self.now.base self.now.code.now i }
        ensures count { result.1 ≡ instr_length instr.now (loaded_word self.now.words result.0) }
        ensures few { result.1 ≤ 5 }
        ensures from { self.now.base ≤ result.0 }
        ensures end { result.0 + 4 * result.1 < 2 ^ 32 }
    {
        let a = self.address(i);
        (a, length(instr, self.words.word_or_zero(a)) as usize)
    }

    #[tactic(auto, using(crate::proofs::Walks::end_low))]
    pub fn end(&self) -> u64
        ensures value { result ≡ code_end self.now.words self.now.base self.now.code.now }
        ensures from { self.now.base ≤ result }
    {
        self.address(self.code.code().len())
    }

    /// The address of a label; 0 where the code lacks it.
    #[tactic(auto, using(crate::proofs::Walks::address_high))]
    pub fn label(&self, label: u32) -> u64
        ensures value { result ≡ label_address self.now.words self.now.base self.now.code.now label }
        ensures within { result ≤ code_end self.now.words self.now.base self.now.code.now }
    {
        match self.code.place(label) {
            Some(i) => self.address(i),
            None => 0,
        }
    }
}
