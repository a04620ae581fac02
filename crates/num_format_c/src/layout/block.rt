//! The texts of some rows of a column, before they are copied into it together.
ghost use Rattle.std.specs.Prelude.{◌≡◌, ℕ, ◌+◌, ◌≤◌, [], ◌++◌, length, drop};
ghost use Rattle.num_format_c.specs.declared.layout.block.TheConstants.{BLOCK_LEN};

use num_format_int::buffer::{PutFront, copy_before};
use std::marker::Model;

/// The most bytes of a block.
pub const BLOCK_LEN: usize = 1024;

/// The texts of some rows, one after another. A contract sees their bytes.
///
/// They end where the array ends, since the digits of a number are found from the last to the first.
#[derive(Drop)]
pub struct Block {
    inner: [u8; BLOCK_LEN],
    start: usize,
}

impl Model for Block {
    ghost use Rattle.std.specs.Prelude.{◌≡◌, ℕ, ◌≤◌, List, length, drop};
    ghost use Rattle.num_format_c.specs.declared.layout.block.TheConstants.{BLOCK_LEN};

    ghost Value = { List ℕ };

    ghost view = { λ b. drop b.start b.inner };

    ghost invariant = { λ b. (b.start ≤ BLOCK_LEN) × (length b.inner ≡ BLOCK_LEN) };
}

impl Block {
    /// Returns a block with no text.
    pub fn new() -> Block
        ensures { result ≡ [] }
    {
        Block {
            inner: [0; BLOCK_LEN],
            start: BLOCK_LEN,
        }
    }

    /// Returns the number of its bytes.
    #[inline(always)]
    pub fn len(&self) -> usize
        ensures { result ≡ length self.now }
    {
        BLOCK_LEN - self.start
    }

    /// Moves the texts before a place of the bytes if there is no room for one more of at most so many bytes, and
    /// returns where what is there begins then.
    #[inline(always)]
    pub fn make_room(&mut self, most: usize, end: usize, bytes: &mut [u8]) -> usize
        requires most { most ≤ BLOCK_LEN }
        requires fits { (length self.old ≤ end) × (end ≤ length bytes.old) }
        ensures room { length self.new + most ≤ BLOCK_LEN }
        ensures start { result + length self.old ≡ end + length self.new }
        ensures texts { self.new ++ drop result bytes.new ≡ self.old ++ drop end bytes.old }
    {
        if self.len() <= BLOCK_LEN - most {
            return end;
        }
        self.move_into(end, bytes)
    }

    /// Moves the texts before a place of the bytes, and returns where they begin there.
    pub fn move_into(&mut self, end: usize, bytes: &mut [u8]) -> usize
        requires fits { (length self.old ≤ end) × (end ≤ length bytes.old) }
        ensures empty { self.new ≡ [] }
        ensures start { result + length self.old ≡ end }
        ensures texts { drop result bytes.new ≡ self.old ++ drop end bytes.old }
    {
        let start = end - self.len();
        bytes[start..end].copy_from_slice(&self.inner[self.start..]);
        self.start = BLOCK_LEN;
        start
    }
}

impl PutFront for Block {
    ghost held = { λ b. b };

    ghost CAPACITY = { BLOCK_LEN };

    #[inline(always)]
    fn put_front(&mut self, text: &str) {
        self.start = copy_before(text, 0, self.start, &mut self.inner);
    }

    /// Prepends the whole text, and skips its first bytes: there is no branch on their number.
    #[inline(always)]
    fn put_end(&mut self, text: &str, skipped: usize) {
        self.start = copy_before(text, skipped, self.start, &mut self.inner);
    }
}
