//! The text of a number, kept in place.
//!
//! A [`Buffer`] is an array of [`MAX_BUF_LEN`] bytes, which no number outgrows under any format. Its
//! text ends where the array ends and grows to the left, since the digits of a number are found from
//! the last to the first.
ghost use Rattle.std.specs.Prelude.{◌≡◌, ℕ, List, ◌+◌, ◌-◌, ◌*◌, ◌<◌, ◌≤◌, ◌==◌, [], ◌∷◌, ◌++◌, length, take, drop};
ghost use Rattle.std.specs.Prelude.{Some, IsUtf8};
ghost use Rattle.std.specs.Str.{IsCharBoundary};
ghost use Rattle.num_format_int.specs.declared.buffer.TheConstants.{MAX_BUF_LEN};
ghost use Rattle.std.specs.Fmt.{WritesOnOk, WritesStyledOnOk};

use std::marker::Model;
use std::{fmt, str};

/// The length in bytes of the longest text of a number: 39 digits, and 18 separators and a minus
/// sign of 8 bytes each.
pub const MAX_BUF_LEN: usize = 191;

/// The bytes at the end of the array that a short text takes.
const SHORT_LEN: usize = 32;

/// Where these bytes begin.
const SHORT_START: usize = MAX_BUF_LEN - SHORT_LEN;

/// The most bytes that one move copies.
const BLOCK: usize = 16;

/// The text of a number, kept in place. A contract sees its bytes.
///
/// The text alone makes up the value: the bytes of the array outside of it are zero.
#[derive(Clone, Copy)]
pub struct Buffer {
    inner: [u8; MAX_BUF_LEN],
    start: usize,
}

impl Model for Buffer {
    ghost use Rattle.std.specs.Prelude.{◌≡◌, ℕ, ◌-◌, ◌≤◌, List, ◌++◌, length, take, drop, replicate, IsUtf8};
    ghost use Rattle.num_format_int.specs.ZerosAndText.{zeros_and_text, start_of_text};
    ghost use Rattle.num_format_int.specs.declared.buffer.TheConstants.{MAX_BUF_LEN};

    ghost Value = { List ℕ };

    ghost view = { λ b. drop b.start b.inner };

    ghost invariant = { λ b. (b.start ≤ MAX_BUF_LEN) × (length b.inner ≡ MAX_BUF_LEN)
        × (take b.start b.inner ≡ replicate b.start 0) × ∥ IsUtf8 (drop b.start b.inner) ∥₁ };

    ghost inverse = { λ t. record {
      inner = replicate (MAX_BUF_LEN - length t) 0 ++ t;
      start = MAX_BUF_LEN - length t;
    } };

    ghost inverse_ok = { λ b h i. record {
      inner = zeros_and_text MAX_BUF_LEN b.inner b.start h.0 h.1 h.2 i;
      start = start_of_text MAX_BUF_LEN b.inner b.start h.0 h.1 i;
    } };
}

impl Buffer {
    ghost use Rattle.std.specs.Prelude.{◌≡◌, ◌+◌, ◌<◌, ◌≤◌, ◌==◌, [], ◌∷◌, ◌++◌, length};

    /// Returns a buffer with the empty text.
    ///
    /// ```rust
    /// Buffer::new().len()    // 0
    /// ```
    pub fn new() -> Buffer
        ensures { result ≡ [] }
    {
        Buffer {
            inner: [0; MAX_BUF_LEN],
            start: MAX_BUF_LEN,
        }
    }

    /// Returns a buffer with this text, which has at most [`MAX_BUF_LEN`] bytes.
    ///
    /// The Rust crate has no such call.
    ///
    /// ```rust
    /// Buffer::from_text("1,000").as_bytes()        // [49, 44, 48, 48, 48]
    /// ```
    pub fn from_text(text: &str) -> Buffer
        requires { length text.now ≤ MAX_BUF_LEN }
        ensures { result ≡ text.now }
    {
        let mut buffer = Buffer::new();
        buffer.put_front(text);
        buffer
    }

    /// Returns the bytes of the text.
    ///
    /// ```rust
    /// Buffer::of(&1000, &Locale::en).as_bytes()    // [49, 44, 48, 48, 48]
    /// ```
    pub fn as_bytes(&self) -> &[u8]
        ensures same { result.now ≡ self.now }
        ensures fits { length result.now ≤ MAX_BUF_LEN }
    {
        &self.inner[self.start..]
    }

    /// Returns the text.
    ///
    /// ```rust
    /// Buffer::of(&1000, &Locale::en).as_str()    // "1,000"
    /// ```
    #[tactic(auto, using(crate::proofs::BufferLemmas::utf8_from))]
    pub fn as_str(&self) -> &str
        ensures same { result.now ≡ self.now }
        ensures fits { length result.now ≤ MAX_BUF_LEN }
    {
        unsafe { str::from_utf8_unchecked(&self.inner[self.start..]) }
    }

    /// Returns whether the text is empty.
    ///
    /// ```rust
    /// Buffer::of(&1000, &Locale::en).is_empty()    // false
    /// ```
    pub fn is_empty(&self) -> bool
        ensures { result ≡ (length self.now == 0) }
    {
        self.len() == 0
    }

    /// Returns the length of the text in bytes.
    ///
    /// ```rust
    /// Buffer::of(&1000, &Locale::en).len()    // 5
    /// ```
    pub fn len(&self) -> usize
        ensures length { result ≡ length self.now }
        ensures fits { result ≤ MAX_BUF_LEN }
    {
        MAX_BUF_LEN - self.start
    }

    /// Prepends a text to that of the buffer. Both together have at most [`MAX_BUF_LEN`] bytes.
    ///
    /// The Rust crate has no such call.
    ///
    /// ```rust
    /// let mut buffer = Buffer::of(&1000, &Locale::en);
    /// buffer.put_front("$");
    /// buffer.as_str()    // "$1,000"
    /// ```
    #[inline(always)]
    pub fn put_front(&mut self, text: &str)
        requires { length text.now + length self.old ≤ MAX_BUF_LEN }
        ensures { self.new ≡ text.now ++ self.old }
    {
        self.start = copy_before(text, 0, self.start, &mut self.inner);
    }

    /// Makes the text empty.
    ///
    /// The bytes before the text are zero already, so of a short text only the last bytes of the
    /// array are set to zero, which takes a fraction of the time that the whole array takes.
    #[tactic(auto, using(crate::proofs::BufferLemmas::all_cleared))]
    pub(crate) fn clear(&mut self)
        ensures { self.new ≡ [] }
    {
        if self.start >= SHORT_START {
            self.inner[SHORT_START..].copy_from_slice(&[0; SHORT_LEN]);
            self.start = MAX_BUF_LEN;
        } else {
            *self = Buffer::new();
        }
    }
}

/// A text that more is prepended to.
pub trait PutFront {
    ghost held: { Self → List ℕ };

    ghost CAPACITY: { ℕ };

    /// Prepends a text to the one that is held. Both together have at most `CAPACITY` bytes.
    fn put_front(&mut self, text: &str)
        requires { length text.now + length (held self.old) ≤ CAPACITY }
        ensures { held self.new ≡ text.now ++ held self.old };

    /// Prepends a text without its first `skipped` bytes, of which there are at most two.
    fn put_end(&mut self, text: &str, skipped: usize)
        requires few { skipped ≤ 2 }
        requires boundary { (skipped ≤ length text.now) × IsCharBoundary text.now skipped }
        requires fits { length text.now + length (held self.old) + 2 ≤ CAPACITY }
        ensures { held self.new ≡ drop skipped text.now ++ held self.old };
}

impl PutFront for Buffer {
    ghost held = { λ b. b };

    ghost CAPACITY = { MAX_BUF_LEN };

    #[inline(always)]
    fn put_front(&mut self, text: &str) {
        Buffer::put_front(self, text);
    }

    /// Prepends the whole text, and sets what was to be skipped to zero again: two bytes, whatever their
    /// number, so that there is no branch on it.
    #[inline(always)]
    fn put_end(&mut self, text: &str, skipped: usize) {
        let start = copy_before(text, skipped, self.start, &mut self.inner);
        self.inner[start - 2..start].copy_from_slice(&[0; 2]);
        self.start = start;
    }
}

/// Copies a text right before a place of an array, and returns where the text begins there without its first
/// `skipped` bytes, which stand before it too.
#[tactic(auto, using(crate::proofs::BufferLemmas::copied))]
#[inline(always)]
pub fn copy_before(text: &str, skipped: usize, place: usize, array: &mut [u8]) -> usize
    requires fits { (length text.now ≤ place) × (place ≤ length array.old) }
    requires skipped { skipped ≤ length text.now }
    ensures start { result + length text.now ≡ place + skipped }
    ensures text { drop result array.new ≡ drop skipped text.now ++ drop place array.old }
    ensures whole { drop (place - length text.now) array.new ≡ text.now ++ drop place array.old }
    ensures before { take (place - length text.now) array.new ≡ take (place - length text.now) array.old }
    ensures length { length array.new ≡ length array.old }
    ensures utf8 { IsCharBoundary text.now skipped → ∥ IsUtf8 (drop place array.old) ∥₁
        → ∥ IsUtf8 (drop result array.new) ∥₁ }
{
    let start = place - text.len();
    copy_bytes(text.as_bytes(), &mut array[start..place]);
    start + skipped
}

/// Copies the bytes over as many others.
///
/// ```rust
/// let mut target = [0; 3];
/// copy_bytes(b"1,2", &mut target);
/// target    // [49, 44, 50]
/// ```
///
/// A copy whose length is known only at run time is a call. So texts of up to 48 bytes are copied in
/// a few moves.
#[inline(always)]
pub fn copy_bytes(bytes: &[u8], target: &mut [u8])
    requires { length target.old ≡ length bytes.now }
    ensures { target.new ≡ bytes.now }
{
    if bytes.len() < 4 {
        copy_few(bytes, target);
    } else {
        copy_many(bytes, target);
    }
}

/// Copies up to three bytes.
#[inline(always)]
fn copy_few(bytes: &[u8], target: &mut [u8])
    requires same { length target.old ≡ length bytes.now }
    requires few { length bytes.now < 4 }
    ensures { target.new ≡ bytes.now }
{
    match *bytes {
        [a] => target[0] = a,
        [a, b] => {
            target[0] = a;
            target[1] = b;
        }
        [a, b, c] => {
            target[0] = a;
            target[1] = b;
            target[2] = c;
        }
        _ => {}
    }
}

/// Copies four bytes or more.
///
/// Where texts of many lengths follow one another, the processor mistakes a branch on the length now and
/// then, which takes longer than a move. So one to three blocks are copied without such a branch.
#[inline(always)]
fn copy_many(bytes: &[u8], target: &mut [u8])
    requires same { length target.old ≡ length bytes.now }
    requires many { 4 ≤ length bytes.now }
    ensures { target.new ≡ bytes.now }
{
    if bytes.len() >= BLOCK {
        if bytes.len() <= 3 * BLOCK {
            copy_blocks(bytes, target);
        } else {
            target.copy_from_slice(bytes);
        }
    } else if bytes.len() >= 8 {
        copy_ends::<8>(bytes, target);
    } else {
        copy_ends::<4>(bytes, target);
    }
}

/// Copies one to three blocks of bytes, of which the last ones may overlap: the first, the one after it
/// or as much of it as there is, and the last.
#[inline(always)]
fn copy_blocks(bytes: &[u8], target: &mut [u8])
    requires same { length target.old ≡ length bytes.now }
    requires blocks { (BLOCK ≤ length bytes.now) × (length bytes.now ≤ 3 * BLOCK) }
    ensures { target.new ≡ bytes.now }
{
    let end = bytes.len().min(2 * BLOCK);
    copy_ends::<BLOCK>(&bytes[..end], &mut target[..end]);
    let last = bytes.len() - BLOCK;
    target[last..].copy_from_slice(&bytes[last..]);
}

/// Copies the first `HALF` bytes and the last, which together are all of them.
#[inline(always)]
fn copy_ends<const HALF: usize>(bytes: &[u8], target: &mut [u8])
    requires same { length target.old ≡ length bytes.now }
    requires all { (HALF ≤ length bytes.now) × (length bytes.now ≤ HALF + HALF) }
    ensures { target.new ≡ bytes.now }
{
    let place = bytes.len() - HALF;
    let mut first = [0; HALF];
    let mut last = [0; HALF];
    first.copy_from_slice(&bytes[..HALF]);
    last.copy_from_slice(&bytes[place..]);
    target[..HALF].copy_from_slice(&first);
    target[place..].copy_from_slice(&last);
}

impl Default for Buffer {
    ghost is_default = { λ b. b ≡ [] };

    /// Returns a buffer with the empty text.
    fn default() -> Buffer {
        Buffer::new()
    }
}

impl fmt::Display for Buffer {
    ghost output = { λ b. Some b };

    ghost styled_output = { λ b _. Some b };

    /// Writes the text alone, whatever width or fill is asked for.
    fn fmt<W: fmt::Write>(&self, f: &mut fmt::Formatter<W>) -> fmt::Result {
        f.write_str(self.as_str())
    }
}

impl fmt::Debug for Buffer {
    ghost debug_output = { λ b. Some b };

    /// Writes the bare text, with no quotes, as the Rust crate does, whatever width or fill is asked
    /// for.
    fn fmt<W: fmt::Write>(&self, f: &mut fmt::Formatter<W>) -> fmt::Result
        ensures writes { WritesOnOk W.write_str_gives f.old result self.now f.new }
        ensures styled { WritesStyledOnOk W.write_str_gives f.old result self.now f.new }
    {
        fmt::Display::fmt(self, f)
    }
}
