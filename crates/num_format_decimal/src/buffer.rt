//! The text of a decimal, kept in place.
ghost use Rattle.std.specs.Prelude.{◌≡◌, ◌+◌, ◌/◌, ◌^◌, ◌<◌, ◌≤◌, [], ◌++◌, length, unsigned_abs, Some};
ghost use Rattle.num_format_int.specs.Groups.{last_digits, plain};
ghost use Rattle.num_format_decimal.specs.declared.buffer.TheConstants.{MAX_DECIMAL_LEN};
ghost use Rattle.num_format_decimal.specs.Text.{decimal_text, decimals_of, unsigned_text};

use crate::decimal::{Decimal, MAX_SCALE};
use crate::powers::split;
use num_format_int::buffer::{PutFront, copy_before};
use num_format_int::to_formatted_str::{one_digit, put_body, put_long_symbol, two_digits};
use num_format_text::Format;
use num_format_text::capacities::{MAX_DEC_LEN, MAX_MIN_LEN, MAX_SEP_LEN};
use std::marker::Model;
use std::{fmt, str};

/// The length in bytes of the longest text of a decimal: 39 digits, and 18 separators, a minus sign and a
/// decimal mark of 8 bytes each.
pub const MAX_DECIMAL_LEN: usize = 199;

/// So many digits fit 64 bits, whatever they are.
const NINETEEN_DIGITS: u8 = 19;

/// The text of a decimal, kept in place. A contract sees its bytes.
///
/// Its text ends where the array ends, as that of a [`Buffer`] does: the decimals are prepended first, then the mark,
/// the digits before it, and the sign.
///
/// ```rust
/// DecimalBuffer::of(&Decimal::new(-123450, 2)?, &Locale::de).as_str()    // "-1.234,50"
/// ```
#[derive(Drop)]
pub struct DecimalBuffer {
    inner: [u8; MAX_DECIMAL_LEN],
    start: usize,
}

impl Model for DecimalBuffer {
    ghost use Rattle.std.specs.Prelude.{◌≡◌, ℕ, ◌≤◌, List, length, drop, IsUtf8};
    ghost use Rattle.num_format_decimal.specs.declared.buffer.TheConstants.{MAX_DECIMAL_LEN};

    ghost Value = { List ℕ };

    ghost view = { λ b. drop b.start b.inner };

    ghost invariant = { λ b. (b.start ≤ MAX_DECIMAL_LEN) × (length b.inner ≡ MAX_DECIMAL_LEN)
        × ∥ IsUtf8 (drop b.start b.inner) ∥₁ };
}

impl DecimalBuffer {
    /// Returns a buffer with the empty text.
    ///
    /// ```rust
    /// DecimalBuffer::new().as_str()    // ""
    /// ```
    #[inline(always)]
    pub fn new() -> DecimalBuffer
        ensures { result ≡ [] }
    {
        DecimalBuffer {
            inner: [0; MAX_DECIMAL_LEN],
            start: MAX_DECIMAL_LEN,
        }
    }

    /// Returns a buffer with the text of the number, as [`write_formatted`](DecimalBuffer::write_formatted) has it.
    ///
    /// ```rust
    /// DecimalBuffer::of(&Decimal::new(5, 2)?, &Locale::en).as_str()    // "0.05"
    /// ```
    #[inline(always)]
    pub fn of<F: Format>(d: &Decimal, format: &F) -> DecimalBuffer
        ensures { result ≡ decimal_text (F.answers format.now) d.now }
    {
        let mut buffer = DecimalBuffer::new();
        buffer.write_formatted(d, format);
        buffer
    }

    /// Writes the number in place of the buffer's text, and returns the length of the new text in bytes.
    ///
    /// The text is the format's minus sign if the units are negative, then the digits before the decimals, with the
    /// format's separator between groups, and where the scale is above zero the format's decimal mark and as many
    /// digits.
    ///
    /// ```rust
    /// let mut buffer = DecimalBuffer::new();
    /// buffer.write_formatted(&Decimal::new(123450, 2)?, &Locale::en)    // 8
    /// buffer.as_str()                                                   // "1,234.50"
    /// ```
    #[inline(never)]
    pub fn write_formatted<F: Format>(&mut self, d: &Decimal, format: &F) -> usize
        ensures text { self.new ≡ decimal_text (F.answers format.now) d.now }
        ensures length { result ≡ length self.new }
    {
        self.start = MAX_DECIMAL_LEN;
        self.put_unsigned(d, format);
        if d.is_negative() {
            self.put_symbol(format.minus_sign().into_str());
        }
        MAX_DECIMAL_LEN - self.start
    }

    /// Returns the text.
    ///
    /// ```rust
    /// DecimalBuffer::of(&Decimal::new(5, 1)?, &Locale::en).as_str()    // "0.5"
    /// ```
    #[tactic(auto, using(crate::proofs::TextLemmas::buffers))]
    pub fn as_str(&self) -> &str
        ensures same { result.now ≡ self.now }
        ensures fits { length result.now ≤ MAX_DECIMAL_LEN }
    {
        unsafe { str::from_utf8_unchecked(&self.inner[self.start..]) }
    }

    /// Returns the bytes of the text.
    ///
    /// ```rust
    /// DecimalBuffer::of(&Decimal::new(5, 1)?, &Locale::en).as_bytes()    // [48, 46, 53]
    /// ```
    pub fn as_bytes(&self) -> &[u8]
        ensures same { result.now ≡ self.now }
        ensures fits { length result.now ≤ MAX_DECIMAL_LEN }
    {
        self.as_str().as_bytes()
    }

    /// Prepends the text of a number without its sign to the empty text: the digits before the decimals, grouped as
    /// the format says, and if there are decimals the decimal mark and each of them.
    #[tactic(auto, using(crate::proofs::TextLemmas::texts))]
    #[inline]
    fn put_unsigned<F: Format>(&mut self, d: &Decimal, format: &F)
        requires { self.old ≡ [] }
        ensures text { self.new ≡ unsigned_text (F.answers format.now) (unsigned_abs d.now.units) d.now.scale }
        ensures room { length self.new + MAX_MIN_LEN ≤ MAX_DECIMAL_LEN }
    {
        texts_fit(format);
        let n = d.magnitude();
        let scale = d.scale();
        // Most numbers fit 64 bits, which take less time than 128.
        if n <= u64::MAX as u128 && scale < NINETEEN_DIGITS {
            let whole = self.put_decimals(n as u64, scale, format);
            // Of many numbers all digits but one are decimals.
            if scale > 0 && whole < 10 {
                self.put_front(one_digit(whole));
                return;
            }
            put_body(whole as u128, self, format);
            return;
        }
        self.put_wide(n, scale, format);
    }

    /// Prepends the same text of any number.
    #[tactic(auto, using(crate::proofs::TextLemmas::wholes))]
    #[inline(never)]
    fn put_wide<F: Format>(&mut self, n: u128, scale: u8, format: &F)
        requires empty { self.old ≡ [] }
        requires scale { scale ≤ MAX_SCALE }
        requires below { n ≤ 2 ^ 127 }
        requires separator { length (F.answers format.now).separator ≤ MAX_SEP_LEN }
        ensures { self.new ≡ unsigned_text (F.answers format.now) n scale }
    {
        let (whole, rest) = split(n, scale);
        self.put_wide_decimals(rest, scale, format);
        put_body(whole, self, format);
    }

    /// Prepends the decimal mark and the last `count` digits of `n` to the empty text, or nothing if they are none.
    /// Returns `n` without these digits.
    #[inline(always)]
    fn put_decimals<F: Format>(&mut self, n: u64, count: u8, format: &F) -> u64
        requires empty { self.old ≡ [] }
        requires count { count < NINETEEN_DIGITS }
        ensures text { self.new ≡ decimals_of (F.answers format.now) n count }
        ensures room { length self.new ≤ count + MAX_DEC_LEN }
        ensures rest { result ≡ n / 10 ^ count }
    {
        if count == 0 {
            return n;
        }
        let whole = self.put_last_digits(n, count);
        self.put_mark(format);
        whole
    }

    /// Prepends the decimal mark.
    #[inline(always)]
    fn put_mark<F: Format>(&mut self, format: &F)
        requires { length self.old ≤ MAX_SCALE }
        ensures text { self.new ≡ (F.answers format.now).decimal ++ self.old }
        ensures room { length self.new ≤ length self.old + MAX_DEC_LEN }
    {
        self.put_symbol(format.decimal().into_str());
    }

    /// Prepends the same of a number that has no more than `count` digits.
    #[tactic(auto, using(crate::proofs::PrintLemmas::wide))]
    fn put_wide_decimals<F: Format>(&mut self, n: u128, count: u8, format: &F)
        requires empty { self.old ≡ [] }
        requires count { count ≤ MAX_SCALE }
        requires below { n < 10 ^ count }
        ensures text { self.new ≡ decimals_of (F.answers format.now) n count }
        ensures room { length self.new ≤ count + MAX_DEC_LEN }
    {
        if count < NINETEEN_DIGITS {
            self.put_decimals(n as u64, count, format);
            return;
        }
        let (high, low) = split(n, NINETEEN_DIGITS);
        self.put_last_digits(low as u64, NINETEEN_DIGITS);
        self.put_last_digits(high as u64, count - NINETEEN_DIGITS);
        self.put_mark(format);
    }

    /// Prepends the last `count` digits of `n`, leading zeros included, two at a time. Returns `n` without these
    /// digits.
    #[tactic(auto, using(crate::proofs::PrintLemmas::printing))]
    #[inline(always)]
    fn put_last_digits(&mut self, n: u64, count: u8) -> u64
        requires { count + length self.old ≤ MAX_DECIMAL_LEN }
        ensures text { self.new ≡ plain (last_digits count n) ++ self.old }
        ensures long { length self.new ≡ count + length self.old }
        ensures rest { result ≡ n / 10 ^ count }
    {
        // Most scales above zero are two, which takes no loop.
        if count == 2 {
            self.put_front(two_digits(n % 100));
            return n / 100;
        }
        let mut left = n;
        let mut put = 0;
        while put + 2 <= count {
            self.put_front(two_digits(left % 100));
            left /= 100;
            put += 2;
        }
        if put == count {
            return left;
        }
        self.put_front(one_digit(left % 10));
        left / 10
    }

    /// Prepends a minus sign or a decimal mark. Most have one byte, whose copy is a move.
    #[inline(always)]
    fn put_symbol(&mut self, symbol: &str)
        requires { length symbol.now + length self.old ≤ MAX_DECIMAL_LEN }
        ensures { self.new ≡ symbol.now ++ self.old }
    {
        if symbol.len() == 1 {
            self.put_front(&symbol[..1]);
        } else {
            put_long_symbol(symbol, self);
        }
    }
}

impl PutFront for DecimalBuffer {
    ghost held = { λ b. b };

    ghost CAPACITY = { MAX_DECIMAL_LEN };

    #[tactic(auto, using(crate::proofs::TextLemmas::buffers))]
    #[inline(always)]
    fn put_front(&mut self, text: &str) {
        self.start = copy_before(text, 0, self.start, &mut self.inner);
    }

    /// Prepends the whole text, and skips its first bytes: there is no branch on their number.
    #[inline(always)]
    fn put_end(&mut self, text: &str, skipped: usize) {
        self.start = copy_before(text, skipped, self.start, &mut self.inner);
    }
}

/// The separator and the decimal mark of a format are within their capacities. The body is for what its calls promise.
#[inline]
pub(crate) fn texts_fit<F: Format>(format: &F)
    ensures separator { length (F.answers format.now).separator ≤ MAX_SEP_LEN }
    ensures mark { length (F.answers format.now).decimal ≤ MAX_DEC_LEN }
{
    format.separator().into_str();
    format.decimal().into_str();
}

impl fmt::Display for DecimalBuffer {
    ghost output = { λ b. Some b };

    ghost styled_output = { λ b _. Some b };

    fn fmt<W: fmt::Write>(&self, f: &mut fmt::Formatter<W>) -> fmt::Result {
        f.write_str(self.as_str())
    }
}

impl fmt::Debug for DecimalBuffer {
    ghost debug_output = { λ b. Some b };

    fn fmt<W: fmt::Write>(&self, f: &mut fmt::Formatter<W>) -> fmt::Result {
        fmt::Display::fmt(self, f)
    }
}
