//! The states that are read.

use ppc_machine::cpu::Junk;
use std::alloc::{AllocError, Global};

/// How many words of memory a state has.
pub const MEMORY_WORDS: usize = 16;

pub const MOST_CODE_WORDS: usize = 64;

const CODE_AT: usize = 37 + MEMORY_WORDS;

/// A state, and how many steps are run from it.
#[derive(Drop)]
pub struct State<'a> {
    pub steps: u32,
    pub entry: u32,
    pub junk: Junk,
    pub memory: &'a [u32],
    pub code: &'a [u32],
}

/// The word of hexadecimal digits, of which the last eight count.
fn word_of(token: &str) -> u32 {
    let mut word = 0u32;
    for b in token.bytes() {
        let digit = match b {
            b'0'..=b'9' => b - b'0',
            b'a'..=b'f' => b - b'a' + 10,
            _ => 0,
        };
        word = word.wrapping_mul(16).wrapping_add(u32::from(digit));
    }
    word
}

pub fn words_of(alloc: Global, line: &str) -> Result<Vec<u32>, AllocError> {
    let mut words = Vec::new(alloc);
    for token in line.split_whitespace() {
        words.push(word_of(token))?;
    }
    Ok(words)
}

fn registers_of(words: &[u32]) -> [u32; 32] {
    let mut regs = [0u32; 32];
    for i in 0..32usize {
        if i < words.len() {
            regs[i] = words[i];
        }
    }
    regs
}

impl<'a> State<'a> {
    /// None where a line has too few words or too many.
    pub fn of(words: &'a [u32]) -> Option<State<'a>> {
        if words.len() <= CODE_AT || words.len() > CODE_AT + MOST_CODE_WORDS {
            return None;
        }
        let junk = Junk {
            regs: registers_of(&words[5..37]),
            cr: words[2],
            ctr: words[3],
            xer: words[4],
        };
        Some(State {
            steps: words[0],
            entry: words[1],
            junk,
            memory: &words[37..CODE_AT],
            code: &words[CODE_AT..],
        })
    }
}
