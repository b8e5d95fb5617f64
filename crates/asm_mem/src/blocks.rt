//! All blocks: what is made and freed, loads and stores, comparisons and differences of values.

ghost use Rattle.std.specs.Prelude.{◌≡◌, ◌<◌, ◌≤◌, ◌+◌, ◌%◌, ℕ, [], length, replicate, reverse, slice_index_or, find, IfSome, IfNone, IfOk};
ghost use Rattle.std.specs.Prelude.{OnErr, IsTrue, ◌==◌, ◌&&◌, if◌then◌else◌};
ghost use Rattle.asm_mem.specs.Blocks.{Live, byte_at, emptied, forget, has, is_width, load, load_reversed, may_store, may_write_found};
ghost use Rattle.asm_mem.specs.Blocks.{newest, popped, pushed, room, stored, stored_reversed, total, total_from, update, with_byte};
ghost use Rattle.asm_mem.specs.Blocks.{with_bytes, written};
ghost use Rattle.asm_mem.specs.Comparison.{compared, difference_of, is_place, is_valid, of_words, reaches, unequal, unknown};
ghost use Rattle.asm_mem.specs.Edits.{IsPlaced, edited};
ghost use Rattle.asm_mem.specs.Order.{Rising};
ghost use Rattle.asm_mem.specs.declared.value.Val.TheVariants.{Int, Ptr, Code, Ext};
ghost use Rattle.asm_mem.specs.declared.block.Edit.TheVariants.{Write, WriteReversed};

use crate::block::{Block, Edit};
use crate::value::Val;
use limits::MOST_BLOCKS;
use std::alloc::{AllocError, Global};
use std::marker::Model;

/// The live blocks, and the number of the next. Numbers are never given twice. A cell takes 5 bytes, and a block is found
/// among n in about log2 n steps.
#[derive(Drop)]
pub struct Blocks {
    alloc: Global,
    /// The oldest first, so in rising numbers.
    blocks: Vec<Block>,
    next: u32,
    /// How many cells the live blocks have together.
    cells: u64,
}

impl Model for Blocks {
    ghost use Rattle.std.specs.Prelude.{reverse};
    ghost use Rattle.asm_mem.specs.Blocks.{Memory};
    ghost use Rattle.asm_mem.specs.Order.{AreBlocks, HasCells};

    ghost Value = { Memory };

    ghost view = { λ m. record { live = reverse m.blocks.items; next = m.next } };

    ghost invariant = { λ m. AreBlocks m.blocks.items m.next × HasCells m.blocks.items m.next m.cells };
}

/// The place of a block among those in rising numbers.
#[tactic(auto, using(crate::proofs::Reversed::present, crate::proofs::Reversed::absent, crate::proofs::Reversed::rising_at))]
fn place_in(blocks: &[Block], b: u32) -> Option<usize>
    requires { Rising blocks.now }
    ensures found { IfSome result
        (λ i. (i < length blocks.now) × ((d : Live) → find (has b) (reverse blocks.now) ≡ Some (slice_index_or blocks.now i d))) }
    ensures number { IfSome result (λ i. (d : Live) → (slice_index_or blocks.now i d).number ≡ b) }
    ensures none { IfNone result (find (has b) (reverse blocks.now) ≡ None) }
{
    let mut lo = 0;
    let mut hi = blocks.len();
    while lo < hi {
        let mid = lo + (hi - lo) / 2;
        let n = blocks[mid].number();
        if n == b {
            return Some(mid);
        }
        if n < b {
            lo = mid + 1;
        } else {
            hi = mid;
        }
    }
    None
}

/// How many cells a block and all before it have together, where all have so many.
fn cells_from(blocks: &[Block], b: u32, all: u64) -> Option<u64>
    requires { all ≡ total blocks.now }
    ensures { result ≡ total_from b (reverse blocks.now) }
{
    let mut i = blocks.len();
    let mut left = all;
    while i > 0 {
        let k = &blocks[i - 1];
        if k.number() == b {
            return Some(left);
        }
        left -= u64::from(k.size());
        i -= 1;
    }
    None
}

impl Blocks {
    /// No blocks.
    pub fn new(alloc: Global) -> Blocks
        ensures { result ≡ record { live = []; next = 0 } }
    {
        Blocks {
            alloc,
            blocks: Vec::new(alloc),
            next: 0,
            cells: 0,
        }
    }

    /// A new block of so many empty cells, and its number. Where memory is wanting nothing changes.
    #[tactic(auto, using(crate::proofs::Pushing::pushed_blocks, crate::proofs::Pushing::reverse_push, crate::proofs::Counting::pushed_empty))]
    pub fn alloc_block(&mut self, size: u32, writable: bool) -> Result<u32, AllocError>
        requires { self.old.next < MOST_BLOCKS }
        ensures made { IfOk result (λ n. (n ≡ self.old.next) × (self.new ≡ pushed self.old size writable)) }
        ensures failed { OnErr result (self.new ≡ self.old) }
    {
        let number = self.next;
        let k = Block::new(self.alloc, number, size, writable)?;
        self.blocks.push(k)?;
        self.next = number + 1;
        self.cells += u64::from(size);
        Ok(number)
    }

    /// Removes the newest live block.
    pub fn free_top(&mut self)
        requires { 0 < length self.old.live }
        ensures { self.new ≡ popped self.old }
    {
        if let Some(k) = self.blocks.pop() {
            self.cells -= u64::from(k.size());
        }
    }

    /// How many blocks were made so far, the freed ones included: the number of the next.
    pub fn made(&self) -> u32
        ensures value { result ≡ self.now.next }
        ensures most { result ≤ MOST_BLOCKS }
    {
        self.next
    }

    /// The place of a block, the oldest first.
    fn place_of(&self, b: u32) -> Option<usize>
        ensures within { IfSome result (λ i. i < length self.now.live) }
        ensures number { IfSome result (λ i. (d : Live) → (slice_index_or (reverse self.now.live) i d).number ≡ b) }
        ensures none { IfNone result (find (has b) self.now.live ≡ None) }
    {
        place_in(&self.blocks, b)
    }

    /// The size of a live block, and whether it can be stored to.
    pub fn room(&self, block: u32) -> Option<(u32, bool)>
        ensures { result ≡ room self.now.live block }
    {
        match place_in(&self.blocks, block) {
            Some(i) => {
                let k = &self.blocks[i];
                Some((k.size(), k.writable()))
            }
            None => None,
        }
    }

    // ---- loads

    /// The value of so many cells. None where `at` is no pointer into a live block, is not aligned, or passes the end.
    pub fn load(&self, width: u8, at: Val) -> Option<Val>
        requires { IsTrue (is_width width) }
        ensures { result ≡ load self.now.live width at }
    {
        match at {
            Val::Ptr(b, o) => match place_in(&self.blocks, b) {
                Some(i) => {
                    let k = &self.blocks[i];
                    k.read(width, o)
                }
                None => None,
            },
            _ => None,
        }
    }

    /// The same with the lowest byte first.
    pub fn load_reversed(&self, width: u8, at: Val) -> Option<Val>
        requires { IsTrue (is_width width) }
        ensures { result ≡ load_reversed self.now.live width at }
    {
        match at {
            Val::Ptr(b, o) => match place_in(&self.blocks, b) {
                Some(i) => {
                    let k = &self.blocks[i];
                    k.read_reversed(width, o)
                }
                None => None,
            },
            _ => None,
        }
    }

    /// The byte in a cell, where there is one. Past the end there is none.
    pub fn byte_at(&self, block: u32, offset: u64) -> Option<u8>
        ensures { result ≡ byte_at self.now.live block offset }
    {
        match place_in(&self.blocks, block) {
            Some(i) => {
                let k = &self.blocks[i];
                k.byte(offset as usize)
            }
            None => None,
        }
    }

    // ---- stores

    /// Changes the block at a place.
    #[tactic(auto, using(crate::proofs::Writing::update_reversed, crate::proofs::Writing::kept_blocks, crate::proofs::Counting::kept_cells, crate::proofs::Counting::edited_length))]
    fn edit_at(&mut self, i: usize, b: u32, e: Edit)
        requires within { i < length self.old.live }
        requires number { (d : Live) → (slice_index_or (reverse self.old.live) i d).number ≡ b }
        requires place { IsPlaced e }
        ensures { self.new ≡ record self.old { live = update b (edited e) self.old.live } }
    {
        let k = &mut self.blocks[i];
        k.edit(e);
    }

    /// Changes a block, where it is live.
    #[tactic(auto, using(crate::proofs::Counting::update_absent))]
    fn edit(&mut self, b: u32, e: Edit)
        requires { IsPlaced e }
        ensures { self.new ≡ record self.old { live = update b (edited e) self.old.live } }
    {
        if let Some(i) = self.place_of(b) {
            self.edit_at(i, b, e);
        }
    }

    /// Whether a block can be stored to at an aligned place inside.
    fn may_write(&self, width: u8, b: u32, o: u32) -> bool
        requires { IsTrue (is_width width) }
        ensures { result ≡ may_write_found (find (has b) self.now.live) width o }
    {
        match place_in(&self.blocks, b) {
            Some(i) => {
                let k = &self.blocks[i];
                k.writable() && k.may_read(width, o)
            }
            None => false,
        }
    }

    /// Stores a value: a word as bytes, another value as four parts at width 4, and else as empty cells. False exactly where
    /// the access is undefined or the block is not writable, and then nothing changes.
    #[tactic(auto, using(crate::proofs::Placing::store_place))]
    pub fn store(&mut self, width: u8, at: Val, v: Val) -> bool
        requires { IsTrue (is_width width) }
        ensures answer { result ≡ may_store self.old.live width at }
        ensures after { self.new ≡ record self.old {
          live = if may_store self.old.live width at then stored self.old.live width at v
              else self.old.live;
        } }
    {
        match at {
            Val::Ptr(b, o) => {
                let open = self.may_write(width, b, o);
                if open {
                    self.edit(b, Edit::Write(width, o, v));
                }
                open
            }
            _ => false,
        }
    }

    /// The same with the lowest byte first, and only words as bytes.
    pub fn store_reversed(&mut self, width: u8, at: Val, v: Val) -> bool
        requires { IsTrue (is_width width) }
        ensures answer { result ≡ may_store self.old.live width at }
        ensures after { self.new
            ≡ record self.old {
              live = if may_store self.old.live width at then stored_reversed self.old.live width at v
                  else self.old.live;
            } }
    {
        match at {
            Val::Ptr(b, o) => {
                let open = self.may_write(width, b, o);
                if open {
                    self.edit(b, Edit::WriteReversed(width, o, v));
                }
                open
            }
            _ => false,
        }
    }

    /// Puts a whole value into four cells, whether or not the block can be stored to.
    pub fn write(&mut self, block: u32, offset: u32, v: Val)
        requires { offset % 4 ≡ 0 }
        ensures { self.new ≡ record self.old { live = written self.old.live block offset v } }
    {
        self.edit(block, Edit::Write(4, offset, v));
    }

    /// Makes a cell a byte, or empty, whether or not the block can be stored to. Past the end nothing changes.
    pub fn set_byte(&mut self, block: u32, offset: u64, byte: Option<u8>)
        ensures { self.new ≡ record self.old { live = with_byte self.old.live block offset byte } }
    {
        self.edit(block, Edit::Set(offset, byte));
    }

    /// Makes cells from an offset on these bytes, as many as the block has, whether or not the block can be stored to.
    pub fn set_bytes(&mut self, block: u32, offset: u32, bytes: &[u8])
        ensures { self.new ≡ record self.old { live = with_bytes self.old.live block offset bytes.now } }
    {
        for i in 0..bytes.len() {
            self.set_byte(block, u64::from(offset) + i as u64, Some(bytes[i]));
        }
    }

    /// Makes so many cells from an offset on zero bytes, as many as the block has, whether or not the block can be stored to.
    pub fn set_zeros(&mut self, block: u32, offset: u32, n: u32)
        ensures { self.new ≡ record self.old { live = with_bytes self.old.live block offset (replicate n 0) } }
    {
        for i in 0..n {
            self.set_byte(block, u64::from(offset) + u64::from(i), Some(0));
        }
    }

    /// Makes four cells empty, whether or not the block can be stored to.
    pub fn set_empty(&mut self, block: u32, offset: u32)
        ensures { self.new ≡ record self.old { live = emptied self.old.live block offset } }
    {
        self.edit(block, Edit::Empty(offset));
    }

    /// Makes the cells 4 to 7 of the newest block empty, where a callee may save LR (PowerPC EABI, "The Stack Frame").
    #[tactic(auto, using(crate::proofs::Placing::forget_none, crate::proofs::Placing::forget_some))]
    pub fn forget(&mut self)
        ensures { self.new ≡ record self.old { live = forget self.old.live } }
    {
        if let Some(b) = self.newest(0) {
            self.edit(b, Edit::Empty(4));
        }
    }

    // ---- blocks by age

    /// The number of the newest live block but so many.
    #[tactic(auto, using(crate::proofs::Counting::newest_reverse, crate::proofs::Counting::newest_none))]
    pub fn newest(&self, i: usize) -> Option<u32>
        ensures { result ≡ newest self.now.live i }
    {
        let n = self.blocks.len();
        if i < n {
            let k = &self.blocks[n - 1 - i];
            Some(k.number())
        } else {
            None
        }
    }

    /// How many cells the live blocks have together.
    #[tactic(auto, using(crate::proofs::Counting::total_reverse))]
    pub fn cells(&self) -> u64
        ensures { result ≡ total self.now.live }
    {
        self.cells
    }

    /// How many cells a live block and all older ones have together.
    #[tactic(auto, using(crate::proofs::Counting::total_reverse))]
    pub fn cells_from(&self, block: u32) -> Option<u64>
        ensures { result ≡ total_from block self.now.live }
    {
        cells_from(&self.blocks, block, self.cells)
    }

    // ---- comparison

    /// Whether a block is live and has at least so many cells.
    fn reaches(&self, b: u32, o: u64) -> bool
        ensures { result ≡ reaches (find (has b) self.now.live) o }
    {
        match place_in(&self.blocks, b) {
            Some(i) => {
                let k = &self.blocks[i];
                o <= u64::from(k.size())
            }
            None => false,
        }
    }

    pub fn is_live(&self, block: u32) -> bool
        ensures { result ≡ is_valid self.now.live block 0 }
    {
        self.reaches(block, 0)
    }

    fn is_place(&self, v: Val) -> bool
        ensures { result ≡ is_place self.now.live v }
    {
        match v {
            Val::Ptr(b, o) => self.reaches(b, u64::from(o)),
            Val::Code(_, i) => i == 0,
            Val::Ext(_, o) => o == 0,
            _ => false,
        }
    }

    fn compare_pointers(&self, b: u32, o: u32, c: u32, p: u32) -> (Val, Val, Val)
        ensures { result ≡ compared self.now.live (Ptr b o) (Ptr c p) }
    {
        let o64 = u64::from(o);
        let p64 = u64::from(p);
        if b == c {
            if self.reaches(b, o64) && self.reaches(b, p64) {
                of_words(o, p)
            } else {
                UNKNOWN
            }
        } else {
            if self.reaches(b, o64 + 1) && self.reaches(c, p64 + 1) {
                UNEQUAL
            } else {
                UNKNOWN
            }
        }
    }

    fn compare_word(&self, n: u32, v: Val) -> (Val, Val, Val)
        ensures { result ≡ compared self.now.live (Int n) v }
    {
        if let Val::Int(y) = v {
            return of_words(n, y);
        }
        if n == 0 && self.is_place(v) {
            of_words(0, 1)
        } else {
            UNKNOWN
        }
    }

    fn compare_code(&self, f: u32, i: u32, v: Val) -> (Val, Val, Val)
        ensures { result ≡ compared self.now.live (Code f i) v }
    {
        match v {
            Val::Code(g, j) => {
                if i == 0 && j == 0 {
                    if f == g { of_words(0, 0) } else { UNEQUAL }
                } else {
                    UNKNOWN
                }
            }
            Val::Int(n) => compare_zero(i == 0, n),
            _ => UNKNOWN,
        }
    }

    fn compare_external(&self, k: u32, o: u32, v: Val) -> (Val, Val, Val)
        ensures { result ≡ compared self.now.live (Ext k o) v }
    {
        match v {
            Val::Ext(l, p) => {
                if o == 0 && p == 0 && k == l {
                    of_words(0, 0)
                } else {
                    UNKNOWN
                }
            }
            Val::Int(n) => compare_zero(o == 0, n),
            _ => UNKNOWN,
        }
    }

    fn compare_pointer(&self, b: u32, o: u32, v: Val) -> (Val, Val, Val)
        ensures { result ≡ compared self.now.live (Ptr b o) v }
    {
        match v {
            Val::Ptr(c, p) => self.compare_pointers(b, o, c, p),
            Val::Int(n) => compare_zero(self.reaches(b, u64::from(o)), n),
            _ => UNKNOWN,
        }
    }

    /// Less, greater and equal of the unsigned comparison, each the word 0 or 1, or Undef where it is not known.
    pub fn compare(&self, u: Val, v: Val) -> (Val, Val, Val)
        ensures { result ≡ compared self.now.live u v }
    {
        match u {
            Val::Int(x) => self.compare_word(x, v),
            Val::Ptr(b, o) => self.compare_pointer(b, o, v),
            Val::Code(f, i) => self.compare_code(f, i, v),
            Val::Ext(k, o) => self.compare_external(k, o, v),
            Val::Undef | Val::Stop | Val::Ha(_, _, _) => UNKNOWN,
        }
    }

    fn distance(&self, b: u32, o: u32, v: Val) -> Val
        ensures { result ≡ difference_of self.now.live (Ptr b o) v }
    {
        match v {
            Val::Ptr(c, p) => {
                if b == c && self.reaches(b, 0) {
                    Val::Int(p.wrapping_sub(o))
                } else {
                    Val::Undef
                }
            }
            _ => Val::Undef,
        }
    }

    /// The second less the first.
    pub fn difference(&self, u: Val, v: Val) -> Val
        ensures { result ≡ difference_of self.now.live u v }
    {
        match u {
            Val::Int(n) => match v {
                Val::Int(m) => Val::Int(m.wrapping_sub(n)),
                Val::Ptr(b, o) => Val::Ptr(b, o.wrapping_sub(n)),
                Val::Ext(k, o) => Val::Ext(k, o.wrapping_sub(n)),
                _ => Val::Undef,
            },
            Val::Ptr(b, o) => self.distance(b, o, v),
            _ => Val::Undef,
        }
    }
}

const UNKNOWN: (Val, Val, Val) = (Val::Undef, Val::Undef, Val::Undef);

const UNEQUAL: (Val, Val, Val) = (Val::Undef, Val::Undef, Val::Int(0));

fn of_words(x: u32, y: u32) -> (Val, Val, Val)
    ensures { result ≡ of_words x y }
{
    (
        Val::Int(u32::from(x < y)),
        Val::Int(u32::from(y < x)),
        Val::Int(u32::from(x == y)),
    )
}

/// Of a value with the word `n`, where it is told whether the value is above 0.
fn compare_zero(is_place: bool, n: u32) -> (Val, Val, Val)
    ensures { result ≡ (if n == 0 && is_place then of_words 1 0 else unknown) }
{
    if n == 0 && is_place {
        of_words(1, 0)
    } else {
        UNKNOWN
    }
}
