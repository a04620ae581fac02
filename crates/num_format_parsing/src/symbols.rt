//! The symbols of a format: whether they have numerals, and which sign a text has.
ghost use Rattle.std.specs.Prelude.{◌≡◌, ◌↔◌, Contains, IsTrue};
ghost use Rattle.std.specs.List.{list_any};
ghost use Rattle.std.specs.Str.{chars};
ghost use Rattle.num_format_text.specs.Format.{FormatData};
ghost use Rattle.num_format_parsing.specs.Reading.{is_other_numeral};
ghost use Rattle.num_format_parsing.specs.Strict.{HasNoNumeral};
ghost use Rattle.num_format_parsing.specs.Shapes.{HasPlainSymbols, HasSign};
ghost use Rattle.num_format_parsing.specs.Symbols.{locale_separators, locale_signs, marked_signs, short_signs};

use crate::bytes::{has_digit, is_ascii, is_prefix};
use unicode::properties::GeneralCategory;

/// Returns whether a character is numeric and none of the digits `0` to `9`. In ASCII there is none,
/// so the tables are asked about other characters alone.
fn is_other_numeral(character: char) -> bool
    ensures { result ≡ is_other_numeral character }
{
    !character.is_ascii()
        && matches!(
            GeneralCategory::for_char(character),
            GeneralCategory::DecimalNumber
                | GeneralCategory::LetterNumber
                | GeneralCategory::OtherNumber
        )
}

/// Returns whether no character of a symbol is a digit or otherwise numeric.
///
/// ```rust
/// is_plain("-")    // true
/// is_plain("²")    // false
/// ```
#[inline(always)]
pub fn is_plain(symbol: &str) -> bool
    ensures { IsTrue result ↔ HasNoNumeral symbol.now }
{
    is_simple(symbol) || !has_digit(symbol.as_bytes()) && !has_other_numeral(symbol)
}

/// Returns whether no character of a symbol is a digit or otherwise numeric, by its bytes. It may return `false` for
/// any symbol, and does not for most, which are in ASCII, or one of those that locales have.
#[inline(always)]
pub(crate) fn is_simple(symbol: &str) -> bool
    ensures { IsTrue result → HasNoNumeral symbol.now }
{
    let bytes = symbol.as_bytes();
    if bytes.len() == 1 && is_ascii(bytes) {
        return !bytes[0].is_ascii_digit();
    }
    is_of_locale(symbol) || !has_digit(bytes) && is_ascii(bytes)
}

/// Returns whether a symbol is the minus sign or the separator of a locale.
#[inline(always)]
fn is_of_locale(symbol: &str) -> bool
    ensures { IsTrue result → HasNoNumeral symbol.now }
{
    if is_locale_separator(symbol) {
        return true;
    }
    is_locale_sign(symbol)
}

/// Returns whether a text is the minus sign of a locale.
#[inline(always)]
pub fn is_locale_sign(text: &str) -> bool
    ensures { IsTrue result → Contains locale_signs text.now }
{
    if is_short_sign(text) {
        return true;
    }
    is_marked_sign(text)
}

/// Returns whether a text is a minus sign, or has U+061C or U+200E before a hyphen.
#[inline(always)]
fn is_short_sign(text: &str) -> bool
    ensures { IsTrue result → Contains short_signs text.now }
{
    matches!(
        *text.as_bytes(),
        [b'-'] | [0xE2, 0x88, 0x92] | [0xD8, 0x9C, b'-'] | [0xE2, 0x80, 0x8E, b'-']
    )
}

/// Returns whether a text is a minus sign with other marks of direction.
#[inline(always)]
fn is_marked_sign(text: &str) -> bool
    ensures { IsTrue result → Contains marked_signs text.now }
{
    matches!(
        *text.as_bytes(),
        [0xE2, 0x80, 0x8F, b'-']
            | [0xE2, 0x80, 0x8E, b'-', 0xE2, 0x80, 0x8E]
            | [0xE2, 0x80, 0x8E, 0xE2, 0x88, 0x92]
    )
}

/// Returns whether a text is the separator of a locale, and neither a comma nor a point.
#[inline(always)]
pub fn is_locale_separator(text: &str) -> bool
    ensures { IsTrue result → Contains locale_separators text.now }
{
    matches!(
        *text.as_bytes(),
        [0xC2, 0xA0] | [0xE2, 0x80, 0xAF] | [0xE2, 0x80, 0x99] | [0xD9, 0xAC]
    )
}

/// Returns whether a character of a text is numeric and none of the digits `0` to `9`.
#[inline(never)]
pub(crate) fn has_other_numeral(text: &str) -> bool
    ensures { result ≡ list_any is_other_numeral (chars text.now) }
{
    text.chars().any(is_other_numeral)
}

/// Whether a text is negative, and the length of its minus sign in bytes, which is else 0.
#[derive(Clone, Copy, Debug)]
pub struct Sign {
    /// Whether the text begins with the minus sign.
    pub is_negative: bool,
    /// The number of bytes of that minus sign, or 0.
    pub len: usize,
}

/// Returns the sign of a text.
///
/// Most minus signs are one byte. The length is then computed from the comparison, since the processor mistakes a
/// branch on the sign.
#[inline(always)]
pub(crate) fn sign_of(text: &[u8], minus_sign: &str) -> Sign
    ensures { (f : FormatData) → minus_sign.now ≡ f.minus_sign → HasPlainSymbols f
        → HasSign f text.now result.is_negative result.len }
{
    if minus_sign.len() != 1 {
        return long_sign_of(text, minus_sign);
    }
    compared_sign(text, minus_sign)
}

/// It is a function of its own, so that others are compiled without branches on the sign.
#[inline(never)]
fn long_sign_of(text: &[u8], minus_sign: &str) -> Sign
    ensures { (f : FormatData) → minus_sign.now ≡ f.minus_sign → HasPlainSymbols f
        → HasSign f text.now result.is_negative result.len }
{
    compared_sign(text, minus_sign)
}

/// Returns the sign of a text under a minus sign of any length.
#[inline(always)]
fn compared_sign(text: &[u8], minus_sign: &str) -> Sign
    ensures { (f : FormatData) → minus_sign.now ≡ f.minus_sign → HasPlainSymbols f
        → HasSign f text.now result.is_negative result.len }
{
    let is_negative = is_prefix(text, minus_sign.as_bytes());
    let len = if is_negative { minus_sign.len() } else { 0 };
    Sign { is_negative, len }
}
