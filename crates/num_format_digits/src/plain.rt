//! Texts in the digits of a set, with `0` to `9` for these, by their bytes.
ghost use Rattle.std.specs.Prelude.{◌≡◌, ℕ, List, ◌+◌, ◌≤◌, ◌++◌, true, Contains, IfSome, IsTrue, IsUtf8, drop};
ghost use Rattle.std.specs.Prelude.{length, take};
ghost use Rattle.std.specs.Char.{is_ascii_digit};
ghost use Rattle.num_format_digits.specs.Digits.{HasNoOthers, HasOneSet, HasZero, IsZero, ascii_of, common_pairs};
ghost use Rattle.num_format_digits.specs.Digits.{common_triples, in_digits, shown_byte};

use crate::digits::Digits;

impl Digits {
    /// Writes the text of bytes with `0` to `9` for the digits of the set to the start of an array, and returns its
    /// length then, or `None` where only [`to_ascii`](Digits::to_ascii) can tell, as for a text that is refused, or one
    /// with other symbols than those of locales.
    pub fn take_plain(self, text: &[u8], array: &mut [u8]) -> Option<usize>
        ensures text { IfSome result (λ len. IsUtf8 text.now × HasOneSet self text.now
            × (take len array.new ≡ ascii_of self text.now)) }
        ensures bound { IfSome result (λ len. len ≤ length array.new) }
        ensures length { length array.new ≡ length array.old }
    {
        let (len, is_plain) = self.take_text(text, array)?;
        if is_plain { Some(len) } else { None }
    }

    /// Writes bytes with `0` to `9` for the digits of the set to the start of an array, and returns their number, and
    /// whether each other character is ASCII or a symbol of locales, or `None` if they have `0` to `9` themselves, or
    /// are too many.
    #[inline(always)]
    pub(crate) fn take_text(self, text: &[u8], array: &mut [u8]) -> Option<(usize, bool)>
        ensures bound { IfSome result (λ taken. taken.0 ≤ length array.new) }
        ensures shown { IfSome result (λ taken. text.now ≡ in_digits self (take taken.0 array.new)) }
        ensures plain { IfSome result (λ taken. IsTrue taken.1 → HasNoOthers (take taken.0 array.new)) }
        ensures length { length array.new ≡ length array.old }
        ensures set { IsZero self }
    {
        let mut space = [0; 4];
        let zero = self.zero_bytes(&mut space);
        match zero.len() {
            1 => self.take_digits(text, zero, 1, array),
            2 => self.take_digits(text, zero, 2, array),
            3 => self.take_digits(text, zero, 3, array),
            _ => self.take_digits(text, zero, 4, array),
        }
    }

    /// Does the same for a zero of so many bytes. Where it is inlined they are known, so that a digit takes few tests.
    #[inline(always)]
    fn take_digits(
        self,
        text: &[u8],
        zero: &[u8],
        width: usize,
        array: &mut [u8],
    ) -> Option<(usize, bool)>
        requires set { IsZero self }
        requires zero { HasZero self width zero.now }
        ensures bound { IfSome result (λ taken. taken.0 ≤ length array.new) }
        ensures shown { IfSome result (λ taken. text.now ≡ in_digits self (take taken.0 array.new)) }
        ensures plain { IfSome result (λ taken. IsTrue taken.1 → HasNoOthers (take taken.0 array.new)) }
        ensures length { length array.new ≡ length array.old }
    {
        if text.len() > array.len() {
            return None;
        }
        let (mut len, mut left) = self.take_run(text, zero, width, 0, array);
        let mut is_plain = true;
        while !left.is_empty() {
            let (count, is_known) = copy_symbol(left, len, array)?;
            is_plain = is_plain && is_known;
            (len, left) = self.take_run(&left[count..], zero, width, len + count, array);
        }
        Some((len, is_plain))
    }

    /// Writes `0` to `9` for the digits that some bytes begin with to a place of an array, and returns the place after
    /// them, and the bytes after those digits.
    #[inline(always)]
    fn take_run<'t>(
        self,
        text: &'t [u8],
        zero: &[u8],
        width: usize,
        start: usize,
        array: &mut [u8],
    ) -> (usize, &'t [u8])
        requires set { IsZero self }
        requires zero { HasZero self width zero.now }
        requires room { start + length text.now ≤ length array.old }
        ensures shown { (whole : List ℕ) → whole ≡ in_digits self (take start array.old) ++ text.now
            → whole ≡ in_digits self (take result.0 array.new) ++ result.1.now }
        ensures plain { HasNoOthers (take start array.old) → HasNoOthers (take result.0 array.new) }
        ensures room { result.0 + length result.1.now ≤ length array.new }
        ensures shorter { length result.1.now ≤ length text.now }
        ensures length { length array.new ≡ length array.old }
    {
        let mut len = start;
        let mut left = text;
        while let Some(digit) = self.first_digit(left, zero, width) {
            array[len] = digit;
            len += 1;
            left = &left[width..];
        }
        (len, left)
    }

    /// Returns the `0` to `9` of the digit of the set that bytes begin with, if they do.
    #[inline(always)]
    fn first_digit(self, text: &[u8], zero: &[u8], width: usize) -> Option<u8>
        requires set { IsZero self }
        requires zero { HasZero self width zero.now }
        ensures digit { IfSome result (λ digit. is_ascii_digit digit ≡ true) }
        ensures shown { IfSome result (λ digit. text.now ≡ shown_byte self digit ++ drop width text.now) }
        ensures within { IfSome result (λ digit. (1 ≤ width) × (width ≤ length text.now)) }
    {
        if text.len() < width || text[..width - 1] != zero[..width - 1] {
            return None;
        }
        let digit = text[width - 1].wrapping_sub(zero[width - 1]);
        if digit > 9 {
            return None;
        }
        Some(b'0' + digit)
    }
}

/// Copies the first character of a text, or a byte of one that is not known, to a place of an array, and returns how
/// many bytes that are, and whether the character is known: ASCII or a symbol of locales. None for a digit `0` to `9`.
#[inline(always)]
fn copy_symbol(text: &[u8], start: usize, array: &mut [u8]) -> Option<(usize, bool)>
    requires some { 1 ≤ length text.now }
    requires room { start + length text.now ≤ length array.old }
    ensures copied { IfSome result (λ s. take (start + s.0) array.new ≡ take start array.old ++ take s.0 text.now) }
    ensures same { IfSome result (λ s. (z : ℕ) → in_digits z (take s.0 text.now) ≡ take s.0 text.now) }
    ensures plain { IfSome result (λ s. IsTrue s.1 → HasNoOthers (take s.0 text.now)) }
    ensures within { IfSome result (λ s. (1 ≤ s.0) × (s.0 ≤ length text.now)) }
    ensures length { length array.new ≡ length array.old }
{
    let first = text[0];
    array[start] = first;
    if first.is_ascii() {
        if first.is_ascii_digit() {
            return None;
        }
        return Some((1, true));
    }
    if text.len() >= 2 && is_common_pair(&text[..2]) {
        array[start + 1] = text[1];
        return Some((2, true));
    }
    if text.len() >= 3 && is_common_triple(&text[..3]) {
        array[start + 1] = text[1];
        array[start + 2] = text[2];
        return Some((3, true));
    }
    Some((1, false))
}

/// Returns whether bytes are a symbol of two bytes: U+00A0, U+061C, U+066B or U+066C.
#[inline(always)]
fn is_common_pair(symbol: &[u8]) -> bool
    ensures { IsTrue result → Contains common_pairs symbol.now }
{
    matches!(
        *symbol,
        [0xC2, 0xA0] | [0xD8, 0x9C] | [0xD9, 0xAB] | [0xD9, 0xAC]
    )
}

/// Returns whether bytes are a symbol of three: U+200E, U+200F, U+2019, U+202F or U+2212.
#[inline(always)]
fn is_common_triple(symbol: &[u8]) -> bool
    ensures { IsTrue result → Contains common_triples symbol.now }
{
    matches!(
        *symbol,
        [0xE2, 0x80, 0x8E]
            | [0xE2, 0x80, 0x8F]
            | [0xE2, 0x80, 0x99]
            | [0xE2, 0x80, 0xAF]
            | [0xE2, 0x88, 0x92]
    )
}
