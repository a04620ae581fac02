//! The text of a number in a digit set.
ghost use Rattle.std.specs.Prelude.{◌≡◌, ◌+◌, ◌*◌, ◌≤◌, ◌++◌, [], drop, length, take, Some};
ghost use Rattle.num_format_int.specs.Text.{text_of};
ghost use Rattle.num_format_decimal.specs.Text.{decimal_text};
ghost use Rattle.num_format_decimal.specs.declared.buffer.TheConstants.{MAX_DECIMAL_LEN};
ghost use Rattle.num_format_digits.specs.Digits.{HasZero, IsZero, in_digits, shown_byte};
ghost use Rattle.num_format_digits.specs.declared.printing.TheConstants.{MAX_DIGIT_TEXT_LEN};

use crate::digits::Digits;
use num_format_decimal::{Decimal, DecimalBuffer, MAX_DECIMAL_LEN};
use num_format_int::Buffer;
use num_format_int::sealed::Sealed;
use num_format_text::Format;
use std::marker::Model;
use std::{fmt, str};

/// The most bytes of a text in a digit set: four for each byte of the text of a decimal.
pub const MAX_DIGIT_TEXT_LEN: usize = 4 * MAX_DECIMAL_LEN;

/// The text of a number in a digit set, kept in place. A contract sees its bytes.
///
/// It is the text of the number under the format, with the set's digits for `0` to `9`.
///
/// ```rust
/// let deva = Digits::of_locale(Locale::ne);
/// DigitText::of(&-1234567, &Locale::ne, deva).as_str()    // "-१२,३४,५६७"
/// ```
#[derive(Drop)]
pub struct DigitText {
    inner: [u8; MAX_DIGIT_TEXT_LEN],
    len: usize,
}

impl Model for DigitText {
    ghost use Rattle.std.specs.Prelude.{◌≡◌, ℕ, ◌≤◌, List, length, take, IsUtf8};
    ghost use Rattle.num_format_digits.specs.declared.printing.TheConstants.{MAX_DIGIT_TEXT_LEN};

    ghost Value = { List ℕ };

    ghost view = { λ t. take t.len t.inner };

    ghost invariant = { λ t. (t.len ≤ MAX_DIGIT_TEXT_LEN) × (length t.inner ≡ MAX_DIGIT_TEXT_LEN)
        × ∥ IsUtf8 (take t.len t.inner) ∥₁ };
}

impl DigitText {
    /// Returns the empty text.
    #[inline(always)]
    pub fn new() -> DigitText
        ensures { result ≡ [] }
    {
        DigitText {
            inner: [0; MAX_DIGIT_TEXT_LEN],
            len: 0,
        }
    }

    /// Returns the text of a whole number.
    #[inline(always)]
    pub fn of<F: Format, N: Sealed>(n: &N, format: &F, digits: Digits) -> DigitText
        ensures { result ≡ in_digits digits (text_of (F.answers format.now) (N.value n.now)) }
    {
        let mut text = DigitText::new();
        text.write_text(Buffer::of(n, format).as_str(), digits);
        text
    }

    /// Returns the text of a decimal.
    ///
    /// ```rust
    /// let arabext = Digits::of_locale(Locale::fa);
    /// DigitText::of_decimal(&Decimal::new(123450, 2)?, &Locale::fa, arabext).as_str()    // "۱٬۲۳۴٫۵۰"
    /// ```
    #[inline(always)]
    pub fn of_decimal<F: Format>(d: &Decimal, format: &F, digits: Digits) -> DigitText
        ensures { result ≡ in_digits digits (decimal_text (F.answers format.now) d.now) }
    {
        let mut text = DigitText::new();
        text.write_text(DecimalBuffer::of(d, format).as_str(), digits);
        text
    }

    /// Writes a text of a number with the set's digits for `0` to `9` in place of the text.
    #[inline(never)]
    pub fn write_text(&mut self, text: &str, digits: Digits)
        requires { length text.now ≤ MAX_DECIMAL_LEN }
        ensures { self.new ≡ in_digits digits text.now }
    {
        let len = put_text(text.as_bytes(), digits, &mut self.inner);
        self.len = len;
    }

    /// Returns the text.
    pub fn as_str(&self) -> &str
        ensures same { result.now ≡ self.now }
        ensures fits { length result.now ≤ MAX_DIGIT_TEXT_LEN }
    {
        unsafe { str::from_utf8_unchecked(&self.inner[..self.len]) }
    }
}

/// Returns how many bytes a text has with the set's digits for `0` to `9`.
///
/// For callers that need no text.
pub fn shown_len(text: &[u8], digits: Digits) -> usize
    requires { length text.now ≤ MAX_DECIMAL_LEN }
    ensures len { result ≡ length (in_digits digits text.now) }
    ensures fits { result ≤ MAX_DIGIT_TEXT_LEN }
{
    let mut space = [0; 4];
    let width = digits.zero_bytes(&mut space).len();
    let mut len = 0;
    for byte in text.iter() {
        len += if byte.is_ascii_digit() { width } else { 1 };
    }
    len
}

/// Writes a text with the set's digits for `0` to `9` to the start of an array, and returns its length in bytes.
///
/// For callers that have an array. Each byte of the text needs four, and what is after the text stays.
#[inline]
pub fn put_text(text: &[u8], digits: Digits, array: &mut [u8]) -> usize
    requires { 4 * length text.now ≤ length array.old }
    ensures text { take result array.new ≡ in_digits digits text.now }
    ensures rest { drop result array.new ≡ drop result array.old }
    ensures bound { result ≤ 4 * length text.now }
    ensures length { length array.new ≡ length array.old }
    ensures set { IsZero digits }
{
    let mut space = [0; 4];
    let zero = digits.zero_bytes(&mut space);
    match zero.len() {
        1 => put_digits(text, digits, zero, 1, array),
        2 => put_digits(text, digits, zero, 2, array),
        3 => put_digits(text, digits, zero, 3, array),
        _ => put_digits(text, digits, zero, 4, array),
    }
}

/// Does the same for a zero of so many bytes. Where it is inlined they are known, so that a digit takes few moves.
#[inline(always)]
fn put_digits(text: &[u8], digits: Digits, zero: &[u8], width: usize, array: &mut [u8]) -> usize
    requires set { IsZero digits }
    requires zero { HasZero digits width zero.now }
    requires few { width ≤ 4 }
    requires fits { 4 * length text.now ≤ length array.old }
    ensures text { take result array.new ≡ in_digits digits text.now }
    ensures rest { drop result array.new ≡ drop result array.old }
    ensures bound { result ≤ 4 * length text.now }
    ensures length { length array.new ≡ length array.old }
{
    let mut len = 0;
    for byte in text {
        len = put_byte(*byte, digits, zero, width, len, array);
    }
    len
}

/// Writes a byte, or the digit in its place, after so many bytes of an array, and returns their number then. The digits
/// of a set differ in the last byte alone.
#[inline(always)]
fn put_byte(
    byte: u8,
    digits: Digits,
    zero: &[u8],
    width: usize,
    len: usize,
    array: &mut [u8],
) -> usize
    requires set { IsZero digits }
    requires zero { HasZero digits width zero.now }
    requires few { width ≤ 4 }
    requires fits { len + 4 ≤ length array.old }
    ensures text { take result array.new ≡ take len array.old ++ shown_byte digits byte }
    ensures rest { drop result array.new ≡ drop result array.old }
    ensures from { len ≤ result }
    ensures bound { result ≤ len + 4 }
    ensures length { length array.new ≡ length array.old }
{
    if !byte.is_ascii_digit() {
        array[len] = byte;
        return len + 1;
    }
    array[len..len + width].copy_from_slice(&zero[..width]);
    array[len + width - 1] = zero[width - 1] + (byte - b'0');
    len + width
}

impl fmt::Display for DigitText {
    ghost output = { λ t. Some t };

    ghost styled_output = { λ t _. Some t };

    /// Writes the text alone, whatever width or fill is asked for.
    fn fmt<W: fmt::Write>(&self, f: &mut fmt::Formatter<W>) -> fmt::Result {
        f.write_str(self.as_str())
    }
}
