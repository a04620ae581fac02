//! A format in a struct that a C program owns.
ghost use Rattle.std.specs.Prelude.{◌≡◌, ◌≤◌, take, length, ◌++◌, IsTrue, IsUtf8, MatchResult, Some, ◌↔◌};
ghost use Rattle.bstr.specs.Utf8.{continues};
ghost use Rattle.num_format_c.specs.declared.status.Status.TheVariants.{BadFormat};
ghost use Rattle.num_format_c.specs.FormatRef.{Agrees, HasData, HasFormat, HasLatin, HasTexts, IsFormatIn, IsFormatOf};
ghost use Rattle.num_format_c.specs.FormatRef.{IsPadded, format_of, format_with, grouping_of, padded};
ghost use Rattle.num_format_digits.specs.Digits.{set_numbered};

use crate::status::Status;
use num_format::utils::{DecimalStr, InfinityStr, MinusSignStr, NanStr, PlusSignStr, SeparatorStr};
use num_format::{Format, Grouping};
use num_format_digits::Digits;

/// The most bytes of a separator, a minus sign or a decimal mark.
const CAPACITY: usize = 8;

/// A format as a C program owns it. It may have any bytes: [`FormatRef::new`] says whether they are those
/// of a format.
///
/// A text is at the start of its array. A grouping is a number, as [`grouping_of`] says.
#[repr(C)]
#[derive(Clone, Copy)]
pub struct NumFormat {
    pub separator: [u8; CAPACITY],
    pub minus_sign: [u8; CAPACITY],
    pub decimal_mark: [u8; CAPACITY],
    pub separator_len: u8,
    pub minus_sign_len: u8,
    pub decimal_mark_len: u8,
    pub grouping: u8,
    /// The number of the digit set, as [`Digits::number`] returns it: that of `latn` is 0.
    pub digits: u8,
    /// For later versions. The calls that fill the struct write zeros.
    pub reserved: [u8; 3],
}

impl NumFormat {
    /// Returns a struct with the format, whose digits are `0` to `9`.
    #[tactic(auto, using(num_format_digits::proofs::SetLemmas::latin_first))]
    pub fn new<F: Format>(format: &F) -> NumFormat
        ensures given { HasFormat result }
        ensures digits { set_numbered result.digits ≡ Some 48 }
        ensures same { Agrees (format_of result) (F.answers format.now) }
        ensures padded { IsPadded result }
    {
        let separator = format.separator().into_str();
        let minus_sign = format.minus_sign().into_str();
        let decimal_mark = format.decimal().into_str();
        NumFormat {
            separator: padded(separator),
            minus_sign: padded(minus_sign),
            decimal_mark: padded(decimal_mark),
            separator_len: separator.len() as u8,
            minus_sign_len: minus_sign.len() as u8,
            decimal_mark_len: decimal_mark.len() as u8,
            grouping: number_of(format.grouping()),
            digits: 0,
            reserved: [0; 3],
        }
    }

    /// Returns the digit set of the struct. That of most is `latn`, which takes no table.
    #[inline(always)]
    #[tactic(auto, using(num_format_digits::proofs::SetLemmas::latin_first))]
    fn digit_set(&self) -> Option<Digits>
        ensures { result ≡ set_numbered self.now.digits }
    {
        if self.digits == 0 {
            return Some(Digits::latin());
        }
        Digits::from_number(self.digits)
    }

    /// Returns whether all texts are short. Those of most formats are.
    ///
    /// It calls no function, so that printing and parsing save no registers before it.
    #[inline(always)]
    fn has_short_texts(&self) -> bool
        ensures { IsTrue result → HasTexts self.now }
    {
        has_short_text(&self.separator, self.separator_len)
            && has_short_text(&self.minus_sign, self.minus_sign_len)
            && has_short_text(&self.decimal_mark, self.decimal_mark_len)
    }

    /// Returns whether all texts are UTF-8 within their arrays. It is not inlined, since few calls need
    /// it.
    #[cold]
    #[inline(never)]
    fn has_texts(&self) -> bool
        ensures { IsTrue result ↔ HasTexts self.now }
    {
        has_text(&self.separator, self.separator_len)
            && has_text(&self.minus_sign, self.minus_sign_len)
            && has_text(&self.decimal_mark, self.decimal_mark_len)
    }
}

/// Returns the bytes of a text, and zeros after them.
fn padded(text: &str) -> [u8; CAPACITY]
    requires { length text.now ≤ CAPACITY }
    ensures text { take (length text.now) result ≡ text.now }
    ensures zeros { result ≡ padded text.now }
{
    let mut bytes = [0; CAPACITY];
    bytes[..text.len()].copy_from_slice(text.as_bytes());
    bytes
}

/// A format whose texts are elsewhere, with the data that the text of a number depends on. The others are
/// those of the locale `en`.
#[derive(Drop)]
pub struct FormatRef<'a> {
    pub separator: SeparatorStr<'a>,
    pub grouping: Grouping,
    pub minus_sign: MinusSignStr<'a>,
    pub decimal_mark: DecimalStr<'a>,
}

impl<'a> FormatRef<'a> {
    /// Returns the format that the struct has, and its digit set, if it has one.
    #[inline(always)]
    pub fn new(format: &'a NumFormat) -> Result<(FormatRef<'a>, Digits), Status>
        ensures { MatchResult result
            (λ h. IsFormatIn (format_with h.0.separator h.0.grouping h.0.minus_sign h.0.decimal_mark) h.1 format.now)
            (λ status. (status ≡ BadFormat) × (¬ (HasFormat format.now))) }
    {
        let digits = format.digit_set().ok_or(Status::BadFormat)?;
        Ok((FormatRef::data(format)?, digits))
    }

    /// Returns the format that the struct has, if it has one whose digits are `0` to `9`.
    #[inline(always)]
    pub fn latin(format: &'a NumFormat) -> Result<FormatRef<'a>, Status>
        ensures { MatchResult result
            (λ h. IsFormatOf (format_with h.separator h.grouping h.minus_sign h.decimal_mark) format.now)
            (λ status. (status ≡ BadFormat) × (¬ (HasLatin format.now))) }
    {
        if format.digits != 0 {
            return Err(Status::BadFormat);
        }
        FormatRef::data(format)
    }

    /// Returns the format without its digits.
    #[inline(always)]
    fn data(format: &'a NumFormat) -> Result<FormatRef<'a>, Status>
        ensures { MatchResult result
            (λ h. HasData format.now
            × (format_with h.separator h.grouping h.minus_sign h.decimal_mark ≡ format_of format.now))
            (λ status. (status ≡ BadFormat) × (¬ (HasData format.now))) }
    {
        let grouping = grouping_of(format.grouping as u32).ok_or(Status::BadFormat)?;
        if !format.has_short_texts() && !format.has_texts() {
            return Err(Status::BadFormat);
        }
        Ok(FormatRef {
            separator: SeparatorStr::of(text_at(&format.separator, format.separator_len)),
            grouping,
            minus_sign: MinusSignStr::of(text_at(&format.minus_sign, format.minus_sign_len)),
            decimal_mark: DecimalStr::of(text_at(&format.decimal_mark, format.decimal_mark_len)),
        })
    }
}

/// Returns the text of that length at the start of the array.
fn text_at(bytes: &[u8; CAPACITY], len: u8) -> &str
    requires fits { len ≤ CAPACITY }
    requires utf8 { IsUtf8 (take len bytes.now) }
    ensures { result.now ≡ take len bytes.now }
{
    unsafe { str::from_utf8_unchecked(&bytes[..len as usize]) }
}

/// Returns whether there is a text of that length at the start of the array.
fn has_text(bytes: &[u8; CAPACITY], len: u8) -> bool
    ensures { IsTrue result ↔ (len ≤ CAPACITY) × IsUtf8 (take len bytes.now) }
{
    match bytes.get(..len as usize) {
        Some(bytes) => str::from_utf8(bytes).is_ok(),
        None => false,
    }
}

/// Returns whether a text of that length, empty or of one character of up to three bytes, is at the start
/// of the array. It leaves out a few characters, whose bytes depend on one another.
///
/// Most separators and minus signs are such a text, which takes less time to see than whether bytes
/// are UTF-8. `&` leaves it to the compiler where to branch.
#[inline(always)]
fn has_short_text(bytes: &[u8; CAPACITY], len: u8) -> bool
    ensures { IsTrue result → (len ≤ CAPACITY) × IsUtf8 (take len bytes.now) }
{
    let (a, b, c) = (bytes[0], bytes[1], bytes[2]);
    if len <= 1 {
        // Where a call has filled the struct, the byte after an empty text is zero.
        a < 0x80
    } else if len == 3 {
        (0xE1 <= a) & (a <= 0xEC) & continues(b) & continues(c)
    } else {
        (len == 2) & (0xC2 <= a) & (a <= 0xDF) & continues(b)
    }
}

/// Returns whether the byte may continue a character.
#[inline(always)]
fn continues(byte: u8) -> bool
    ensures { result ≡ continues byte }
{
    (0x80 <= byte) & (byte <= 0xBF)
}

/// Returns the grouping for which the number stands.
pub fn grouping_of(number: u32) -> Option<Grouping>
    ensures { result ≡ grouping_of number }
{
    Grouping::ALL
        .get((number as usize).checked_sub(1)?)
        .copied()
}

/// Returns the number that stands for the grouping.
fn number_of(grouping: Grouping) -> u8
    ensures { grouping_of result ≡ Some grouping }
{
    grouping as u8 + 1
}

impl<'a> Format for FormatRef<'a> {
    ghost answers = { λ h. format_with h.separator h.grouping h.minus_sign h.decimal_mark };

    fn decimal(&self) -> DecimalStr<'_> {
        self.decimal_mark.copied()
    }

    fn grouping(&self) -> Grouping {
        self.grouping
    }

    fn infinity(&self) -> InfinityStr<'_> {
        InfinityStr::of("∞")
    }

    fn minus_sign(&self) -> MinusSignStr<'_> {
        self.minus_sign.copied()
    }

    fn nan(&self) -> NanStr<'_> {
        NanStr::of("NaN")
    }

    fn plus_sign(&self) -> PlusSignStr<'_> {
        PlusSignStr::of("+")
    }

    fn separator(&self) -> SeparatorStr<'_> {
        self.separator.copied()
    }
}
