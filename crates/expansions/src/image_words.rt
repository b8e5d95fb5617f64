//! Words of an image, read from a segment that was found once.

ghost use Rattle.std.specs.Prelude.{◌≡◌, ◌+◌, ◌*◌, ◌≤◌, ◌<◌, ◌^◌, ◌↔◌, IsTrue, is_some};
ghost use Rattle.image_model.specs.Loaded.{word_at};
ghost use Rattle.code_model.specs.Addresses.{loaded_word, words_from, are_loaded};

use elf_view::{LoadedSegments, SegView};
use std::marker::Model;

/// An image whose words are read from the segment that holds one address, and from others only where that lacks them.
#[derive(Drop)]
pub struct ImageWords<'v, 'a> {
    segments: &'v LoadedSegments<'a>,
    home: u64,
    near: Option<SegView<'a>>,
}

impl<'v, 'a> Model for ImageWords<'v, 'a> {
    ghost use Rattle.image_model.specs.Image.{Image};
    ghost use Rattle.expansions.specs.Near.{IsNear};

    ghost Value = { Image };

    ghost view = { λ words. words.segments.now };

    ghost invariant = { λ words. IsNear words.segments.now words.home words.near };
}

/// Whether a segment has the four bytes from an address on.
fn has_word(segment: &SegView, a: u64) -> bool
    ensures { IsTrue result ↔ ((segment.now.vaddr ≤ a) × (a + 4 ≤ segment.now.vaddr + segment.now.memsz)) }
{
    let start = u64::from(segment.vaddr);
    let size = u64::from(segment.memsz);
    start <= a && 4 <= size && a - start <= size - 4
}

impl<'v, 'a> ImageWords<'v, 'a> {
    /// Reading begins in the segment that holds `home`.
    pub fn near(segments: &'v LoadedSegments<'a>, home: u64) -> ImageWords<'v, 'a>
        ensures { result ≡ segments.now }
    {
        ImageWords {
            segments,
            home,
            near: segments.holder(home),
        }
    }

    /// The segments, among which another one than the first may have an address.
    pub fn segments(&self) -> &'v LoadedSegments<'a>
        ensures { result.now ≡ self.now }
    {
        self.segments
    }

    /// The word of the four loaded bytes from `a` on.
    pub fn word(&self, a: u64) -> Option<u32>
        ensures { result ≡ word_at self.now a }
    {
        if let Some(near) = &self.near {
            if has_word(near, a) {
                return Some(near.word((a - near.vaddr as u64) as u32));
            }
        }
        self.segments.word_at(a)
    }

    /// The word, or 0 where one of its bytes is not loaded.
    pub fn word_or_zero(&self, a: u64) -> u32
        ensures { result ≡ loaded_word self.now a }
    {
        self.word(a).unwrap_or(0)
    }

    /// As many words as the longest instruction has.
    #[tactic(auto, using(crate::proofs::Reading::five_are))]
    pub fn five_words(&self, a: u64) -> [u32; 5]
        requires { a < 2 ^ 40 }
        ensures { result ≡ words_from self.now a 5 }
    {
        [
            self.word_or_zero(a),
            self.word_or_zero(a + 4),
            self.word_or_zero(a + 8),
            self.word_or_zero(a + 12),
            self.word_or_zero(a + 16),
        ]
    }

    fn is_loaded(&self, a: u64) -> bool
        ensures { result ≡ is_some (word_at self.now a) }
    {
        self.word(a).is_some()
    }

    /// Whether so many words are loaded.
    #[tactic(auto, using(crate::proofs::Reading::loaded_more))]
    pub fn are_loaded(&self, a: u64, n: u64) -> bool
        requires a { a < 2 ^ 33 }
        requires n { n < 2 ^ 33 }
        ensures { result ≡ are_loaded self.now a n }
    {
        for i in 0..n {
            if !self.is_loaded(a + 4 * i) {
                return false;
            }
        }
        true
    }
}
