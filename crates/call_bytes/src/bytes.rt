//! The bytes that a call reads.

ghost use Rattle.std.specs.Prelude.{◌≡◌, ◌<◌, ◌≤◌, [], ◌∷◌, ◌++◌, length, slice_get, IfOk, IsTrue};
ghost use Rattle.call_bytes.specs.CallLists.{add_last, bytes_in, cut, has_room, more, opened, total};

use limits::{MOST_BUFFERS, MOST_CALL_BYTES};
use std::alloc::{AllocError, Global};
use std::marker::Model;

/// The bytes of the buffers that a call reads: up to 8 lists, of 524,288 bytes together.
#[derive(Drop)]
pub struct CallBytes {
    kept: Vec<u8>,
    lengths: [u32; 8],
    count: u8,
    used: u32,
}

impl Model for CallBytes {
    ghost use Rattle.std.specs.Prelude.{◌≡◌, ◌≤◌, List, ℕ, length, take};
    ghost use Rattle.limits.specs.declared.TheConstants.{MOST_BUFFERS, MOST_CALL_BYTES};
    ghost use Rattle.call_bytes.specs.CallLists.{cut, total};

    ghost Value = { List (List ℕ) };

    ghost view = { λ c. cut (take c.count c.lengths) c.kept.items };

    ghost invariant = { λ c. (length c.kept.items ≡ MOST_CALL_BYTES) × (c.count ≤ MOST_BUFFERS) × (c.used ≤ MOST_CALL_BYTES)
        × (length c.lengths ≡ MOST_BUFFERS) × (total (take c.count c.lengths) ≡ c.used) };
}

/// The list with this number, of those that are kept one behind another.
fn list_at<'a>(lengths: &[u32], kept: &'a [u8], i: usize) -> &'a [u8]
    requires list { i < length lengths.now }
    requires inside { total lengths.now ≤ length kept.now }
    ensures { slice_get (cut lengths.now kept.now) i ≡ Some result.now }
{
    let mut rest = kept;
    for k in 0..i {
        rest = &rest[lengths[k] as usize..];
    }
    &rest[..lengths[i] as usize]
}

impl CallBytes {
    /// No list. All memory is taken here.
    pub fn new(alloc: Global) -> Result<CallBytes, AllocError>
        ensures { IfOk result (λ lists. lists ≡ []) }
    {
        let mut kept = Vec::new(alloc);
        kept.resize(MOST_CALL_BYTES as usize, 0)?;
        Ok(CallBytes {
            kept,
            lengths: [0; 8],
            count: 0,
            used: 0,
        })
    }

    #[tactic(auto, using(crate::proofs::Cutting::cut_count))]
    pub fn count(&self) -> u8
        ensures value { result ≡ length self.now }
        ensures range { result ≤ MOST_BUFFERS }
    {
        self.count
    }

    /// The bytes of the list with this number.
    #[tactic(auto, using(crate::proofs::Cutting::cut_count))]
    pub fn bytes(&self, i: u8) -> &[u8]
        requires { i < length self.now }
        ensures { slice_get self.now i ≡ Some result.now }
    {
        let lengths = &self.lengths[..usize::from(self.count)];
        list_at(lengths, &self.kept, usize::from(i))
    }

    /// Forgets all lists.
    pub fn clear(&mut self)
        ensures { self.new ≡ [] }
    {
        self.count = 0;
        self.used = 0;
    }

    /// Opens a new empty list.
    #[tactic(auto, using(crate::proofs::Cutting::cut_begin, crate::proofs::Cutting::cut_count, crate::proofs::Cutting::sum_begin))]
    pub fn begin(&mut self)
        requires { length self.old < MOST_BUFFERS }
        ensures { self.new ≡ self.old ++ [] ∷ [] }
    {
        self.lengths[usize::from(self.count)] = 0;
        self.count += 1;
    }

    /// Adds a byte to the last list.
    #[tactic(auto, using(crate::proofs::Cutting::cut_add, crate::proofs::Cutting::cut_count, crate::proofs::Cutting::cut_bytes, crate::proofs::Cutting::sum_add, crate::proofs::Cutting::total_end))]
    pub fn add(&mut self, b: u8)
        requires list { 0 < length self.old }
        requires room { bytes_in self.old < MOST_CALL_BYTES }
        ensures { self.new ≡ add_last self.old b }
    {
        let i = usize::from(self.count - 1);
        self.kept[self.used as usize] = b;
        self.lengths[i] += 1;
        self.used += 1;
    }

    /// How many bytes the lists have together.
    #[tactic(auto, using(crate::proofs::Cutting::cut_bytes))]
    fn used(&self) -> u32
        ensures { result ≡ bytes_in self.now }
    {
        self.used
    }

    /// Opens a list where there are fewer than 8.
    pub fn open(&mut self)
        ensures { self.new ≡ opened self.old }
    {
        if self.count() < MOST_BUFFERS as u8 {
            self.begin();
        }
    }

    /// Adds a byte where there is a list and room. As long as no list is longer than a buffer there is room.
    #[tactic(auto, using(crate::proofs::Room::room_left, crate::proofs::Room::some_list))]
    pub fn put(&mut self, b: u8)
        ensures value { self.new ≡ more self.old b }
        ensures kept { IsTrue (has_room self.old) → self.new ≡ add_last self.old b }
    {
        if self.count() > 0 && self.used() < MOST_CALL_BYTES {
            self.add(b);
        }
    }
}
