//! What the calls do, with Rust's types.
ghost use Rattle.std.specs.Prelude.{◌≡◌, ◌<◌, ◌≤◌, length, pos, IfSome, IsUtf8, Ok, MatchResult, if◌then◌else◌};
ghost use Rattle.num_format.specs.Alike.{Alike};
ghost use Rattle.num_format.specs.RoundTrips.{RoundTrips};
ghost use Rattle.num_format.specs.Text.{text_of};
ghost use Rattle.num_format_decimal.specs.Ways.{placed};
ghost use Rattle.num_format_typed.specs.Typed as ways;
ghost use Rattle.num_format_typed.specs.Typed.{placed_typed};
ghost use Rattle.num_format_digits.specs.Parsing.{InDigits};
ghost use Rattle.num_format_digits.specs.declared.printing.TheConstants.{MAX_DIGIT_TEXT_LEN};
ghost use Rattle.num_format_c.specs.Calls.{ByTag, FillsByTag, FillsCustom, FillsLocale, NamesByTag, ReturnsLength};
ghost use Rattle.num_format_c.specs.Calls.{ReturnsDecimalLength, Gets, GetsBits, Parses, ParsesBits, Prints};
ghost use Rattle.num_format_c.specs.Calls.{PrintsDecimal, SetsDigits, Tells, Writes, WritesName, begins_with_mark};
ghost use Rattle.num_format_c.specs.Calls.{columns_of, crossing, decimal_of, decimals, numbers, returned, signed_kind};
ghost use Rattle.num_format_c.specs.Calls.{typed_decimals, typed_numbers, unsigned_kind};
ghost use Rattle.num_format_c.specs.FormatRef.{HasFormat, HasLatin, IsFormatIn, IsFormatOf, digits_of, format_of};

use crate::format::{FormatRef, NumFormat, grouping_of};
use crate::shown;
use crate::status::{Cause, Status, crossed};
use crate::wide::decimal_of;
use num_format::parsing::{FromFormattedStr, ParseBytesError, StrictParser};
use num_format::utils::{DecimalStr, MinusSignStr, SeparatorStr};
use num_format::{Buffer, Format, Locale, ToFormattedStr};
use num_format_decimal::{Decimal, DecimalBuffer, DecimalParser, MAX_DECIMAL_LEN, TextParser};
use num_format_digits::Digits;
use num_format_int::buffer::copy_bytes;
use num_format_typed::{TypedDecimals, TypedParser, parse_typed_bytes, parse_typed_decimal_bytes};
use num_format_writers::formatted::is_char_start;

/// Calls a function for the integer type of 8, 16, 32 or 64 bits.
macro_rules! by_bits {
    ($bits:expr, $call:ident $arguments:tt, $a:ty, $b:ty, $c:ty, $wide:ty) => {
        match $bits {
            8 => Ok($call::<$a> $arguments? as $wide),
            16 => Ok($call::<$b> $arguments? as $wide),
            32 => Ok($call::<$c> $arguments? as $wide),
            64 => $call::<$wide> $arguments,
            _ => Err(Status::BadBits),
        }
    };
}

/// Fills the struct with the format of the locale, and returns 0.
pub fn fill_locale(format: &mut NumFormat, name: &[u8]) -> Result<i32, Status>
    ensures { FillsLocale name.now format.old format.new (returned result) }
{
    let name = str::from_utf8(name)?;
    let Ok(locale) = Locale::from_name(name) else {
        return Err(Status::UnknownLocale);
    };
    *format = NumFormat::new(&locale);
    Ok(0)
}

/// Fills the struct with the format of the locale for a language tag and the digits that the tag names, and returns 0.
pub fn fill_by_tag(format: &mut NumFormat, tag: &[u8]) -> Result<i32, Status>
    ensures { ByTag tag.now format.old format.new (returned result)
        (FillsByTag tag.now format.old format.new (returned result)) }
{
    let tag = str::from_utf8(tag)?;
    let locale = Locale::lookup(tag).ok_or(Status::UnknownLocale)?;
    let Ok(digits) = Digits::of_tag(tag) else {
        return Err(Status::UnknownDigits);
    };
    *format = NumFormat::new(&locale);
    if let Some(digits) = digits {
        format.digits = digits.number();
    }
    Ok(0)
}

/// Sets the digits of the struct to those of a name, and returns 0.
pub fn set_digits(format: &mut NumFormat, name: &[u8]) -> Result<i32, Status>
    ensures { SetsDigits name.now format.old format.new (returned result) }
{
    let name = str::from_utf8(name)?;
    let digits = Digits::from_name(name).ok_or(Status::UnknownDigits)?;
    format.digits = digits.number();
    Ok(0)
}

/// Prints the number at the start of the array, and returns the length of the text.
#[inline(always)]
pub fn print<N: ToFormattedStr>(
    format: &NumFormat,
    number: &N,
    text: &mut [u8],
) -> Result<i32, Status>
    ensures { Prints format.now (N.value number.now) text.old text.new (returned result) }
{
    match FormatRef::latin(format) {
        Ok(format) => print_under(&format, number, text),
        Err(_) => shown::print(format, number, text),
    }
}

/// Prints the number under a format, and returns the length of the text.
///
/// A function clears the space of its locals where it begins. The buffer is a local of this one, so
/// that its space is cleared once, where it is filled with zeros at once.
#[inline(always)]
fn print_under<F: Format, N: ToFormattedStr>(
    format: &F,
    number: &N,
    text: &mut [u8],
) -> Result<i32, Status>
    ensures { Writes (text_of (F.answers format.now) (N.value number.now)) text.old text.new (returned result) }
{
    write(Buffer::of(number, format).as_str(), text)
}

/// Returns the length of the text of the number, which is not printed.
pub fn text_len<N: ToFormattedStr>(format: &NumFormat, number: &N) -> Result<i32, Status>
    ensures { ReturnsLength format.now (λ f. text_of f (N.value number.now)) (returned result) }
{
    match FormatRef::latin(format) {
        Ok(format) => Ok(num_format::text_len(number, &format) as i32),
        Err(_) => shown::text_len(format, number),
    }
}

/// Prints the decimal at the start of the array, and returns the length of the text.
pub fn print_decimal(
    format: &NumFormat,
    low: u64,
    high: u64,
    scale: u32,
    text: &mut [u8],
) -> Result<i32, Status>
    ensures { PrintsDecimal format.now (decimal_of low high scale) text.old text.new (returned result) }
{
    let number = decimal_of(low, high, scale)?;
    match FormatRef::latin(format) {
        Ok(format) => write(DecimalBuffer::of(&number, &format).as_str(), text),
        Err(_) => shown::print_decimal(format, &number, text),
    }
}

/// Returns the length of the text of the decimal.
pub fn decimal_len(format: &NumFormat, low: u64, high: u64, scale: u32) -> Result<i32, Status>
    ensures { ReturnsDecimalLength format.now (decimal_of low high scale) (returned result) }
{
    let number = decimal_of(low, high, scale)?;
    match FormatRef::latin(format) {
        Ok(format) => Ok(num_format_decimal::text_len(&number, &format) as i32),
        Err(_) => shown::decimal_len(format, &number),
    }
}

/// Returns the columns that a text takes.
pub fn text_width(text: &[u8]) -> usize
    ensures { result ≡ columns_of text.now }
{
    let mut columns = 0;
    let mut left = text;
    while let Some((first, rest)) = left.split_first() {
        if is_char_start(*first) && !begins_with_mark(left) {
            columns += 1;
        }
        left = rest;
    }
    columns
}

/// Returns whether a text begins with a mark of the direction of writing: U+061C, U+200E or U+200F.
fn begins_with_mark(text: &[u8]) -> bool
    ensures { result ≡ begins_with_mark text.now }
{
    text.starts_with(&[0xD8, 0x9C])
        || text.starts_with(&[0xE2, 0x80, 0x8E])
        || text.starts_with(&[0xE2, 0x80, 0x8F])
}

/// Parses the text as a number of the type.
#[inline(always)]
pub fn parse<N: FromFormattedStr>(format: &NumFormat, text: &[u8]) -> Result<N, Status>
    ensures { Parses N.kind N.value format.now text.now result }
{
    let format = FormatRef::latin(format)?;
    parse_under(&format, text)
}

/// Parses the text as a number of the type under the format that a struct has.
#[inline(always)]
pub fn parse_under<F: Format, N: FromFormattedStr>(format: &F, text: &[u8]) -> Result<N, Status>
    ensures { (s : NumFormat) → IsFormatOf (F.answers format.now) s
        → Parses N.kind N.value s text.now result }
{
    match N::from_formatted_bytes(text, format) {
        Ok(number) => Ok(number),
        Err(ParseBytesError::NotUtf8) => Err(Status::NotUtf8),
        Err(ParseBytesError::NotANumber) => Err(Status::NotANumber),
    }
}

/// Parses the text as a signed number of that many bits.
pub fn parse_signed(format: &NumFormat, bits: u32, text: &[u8]) -> Result<i64, Status>
    ensures { ParsesBits (signed_kind bits) (λ n. n) format.now text.now result }
{
    by_bits!(bits, parse(format, text), i8, i16, i32, i64)
}

/// Parses the text as an unsigned number of that many bits.
pub fn parse_unsigned(format: &NumFormat, bits: u32, text: &[u8]) -> Result<u64, Status>
    ensures { ParsesBits (unsigned_kind bits) (λ n. pos n) format.now text.now result }
{
    by_bits!(bits, parse(format, text), u8, u16, u32, u64)
}

/// Parses the text in a digit set by a parser of texts in `0` to `9`. Writes the place of an unexpected byte, and
/// nothing for another error.
#[inline(always)]
pub fn parse_in<T, P: TextParser<T>>(
    parser: &P,
    digits: Digits,
    text: &[u8],
    at: &mut usize,
) -> Result<T, Status>
where
    P::Error: Cause,
    ensures { (s : NumFormat) → IsFormatIn (P.format parser.now) digits s
        → (P.way parser.now).Takes (P.format parser.now)
        → Gets (crossing (P.way parser.now) P.Error.placed P.Error.status_of P.Error.place_of)
        s text.now at.old at.new result }
{
    if !digits.is_latin() {
        if let Some(number) = digits.parse_shown_by(text, parser) {
            return Ok(number);
        }
    }
    parse_any(parser, digits, text, at)
}

/// Does the same for a text that is no number as it is printed.
#[inline(always)]
fn parse_any<T, P: TextParser<T>>(
    parser: &P,
    digits: Digits,
    text: &[u8],
    at: &mut usize,
) -> Result<T, Status>
where
    P::Error: Cause,
    ensures { (s : NumFormat) → IsFormatIn (P.format parser.now) digits s
        → (P.way parser.now).Takes (P.format parser.now)
        → Gets (crossing (P.way parser.now) P.Error.placed P.Error.status_of P.Error.place_of)
        s text.now at.old at.new result }
{
    if digits.is_latin() {
        return crossed(parser.parse_text(text), at);
    }
    match str::from_utf8(text) {
        Ok(text) => crossed(digits.parse_by(text, parser), at),
        Err(_) => crossed(parser.parse_text(text), at),
    }
}

/// Parses the text strictly as a number of the type, as [`parse_in`] does.
pub fn parse_strict<N: FromFormattedStr>(
    format: &NumFormat,
    text: &[u8],
    at: &mut usize,
) -> Result<N, Status>
    ensures { Gets (numbers N.kind N.value) format.now text.now at.old at.new result }
{
    match FormatRef::latin(format) {
        Ok(format) => crossed(N::from_strict_bytes(text, &format), at),
        Err(_) => parse_strict_in(format, text, at),
    }
}

/// Does the same in any digits. It is a call, so that parsing in `0` to `9` has the registers for itself.
#[cold]
#[inline(never)]
fn parse_strict_in<N: FromFormattedStr>(
    format: &NumFormat,
    text: &[u8],
    at: &mut usize,
) -> Result<N, Status>
    ensures { Gets (numbers N.kind N.value) format.now text.now at.old at.new result }
{
    let (format, digits) = FormatRef::new(format)?;
    if !digits.is_latin() {
        if let Some(number) = digits.parse_shown::<N, _>(text, &format) {
            return Ok(number);
        }
    }
    parse_strict_any(&format, digits, text, at)
}

/// Does the same for a text that is no number as it is printed.
#[cold]
#[inline(never)]
fn parse_strict_any<N: FromFormattedStr, F: Format>(
    format: &F,
    digits: Digits,
    text: &[u8],
    at: &mut usize,
) -> Result<N, Status>
    ensures { (s : NumFormat) → IsFormatIn (F.answers format.now) digits s
        → Gets (numbers N.kind N.value) s text.now at.old at.new result }
{
    parse_any::<N, _>(&StrictParser::new(format)?, digits, text, at)
}

/// Parses the text strictly as a signed number of that many bits, as [`parse_strict`] does.
pub fn parse_strict_signed(
    format: &NumFormat,
    bits: u32,
    text: &[u8],
    at: &mut usize,
) -> Result<i64, Status>
    ensures { GetsBits (signed_kind bits) (λ n. n) format.now text.now at.old at.new result }
{
    by_bits!(bits, parse_strict(format, text, at), i8, i16, i32, i64)
}

/// Parses the text strictly as an unsigned number of that many bits, as [`parse_strict`] does.
pub fn parse_strict_unsigned(
    format: &NumFormat,
    bits: u32,
    text: &[u8],
    at: &mut usize,
) -> Result<u64, Status>
    ensures { GetsBits (unsigned_kind bits) (λ n. pos n) format.now text.now at.old at.new result }
{
    by_bits!(bits, parse_strict(format, text, at), u8, u16, u32, u64)
}

/// Parses the text strictly as a decimal, as [`parse_in`] does.
pub fn parse_decimal(format: &NumFormat, text: &[u8], at: &mut usize) -> Result<Decimal, Status>
    ensures { Gets decimals format.now text.now at.old at.new result }
{
    let (format, digits) = FormatRef::new(format)?;
    let parser = DecimalParser::new(&format)?;
    parse_in(&parser, digits, text, at)
}

/// Parses the text as people type it as a number of the type under the format and the digit set that a struct has, as
/// [`parse_in`] does.
pub fn parse_typed<N: FromFormattedStr, F: Format>(
    format: &F,
    digits: Digits,
    text: &[u8],
    at: &mut usize,
) -> Result<N, Status>
    ensures { (s : NumFormat) → IsFormatIn (F.answers format.now) digits s
        → Gets (typed_numbers N.kind N.value) s text.now at.old at.new result }
{
    if digits.is_latin() {
        return crossed(parse_typed_bytes::<N, F>(text, format), at);
    }
    if let Some(number) = parse_typed_shown::<N, F>(format, digits, text) {
        return Ok(number);
    }
    parse_typed_any(format, digits, text, at)
}

/// Returns the number that a person means by the text of the bytes in another digit set than `0` to `9`, or `None`
/// where only [`parse_typed_any`] can tell.
#[inline(never)]
fn parse_typed_shown<N: FromFormattedStr, F: Format>(
    format: &F,
    digits: Digits,
    text: &[u8],
) -> Option<N>
    ensures { IfSome result (λ n. IsUtf8 text.now
        × InDigits (ways.typed_numbers N.kind N.value) (placed_typed placed)
        (F.answers format.now) digits text.now (Ok n)) }
{
    let mut array = [0; MAX_DECIMAL_LEN];
    let len = digits.take_plain(text, &mut array)?;
    match parse_typed_bytes(&array[..len], format) {
        Ok(number) => Some(number),
        Err(_) => None,
    }
}

/// Does the same for a text that is no number as it is printed, or with other symbols than those of locales.
#[cold]
#[inline(never)]
fn parse_typed_any<N: FromFormattedStr, F: Format>(
    format: &F,
    digits: Digits,
    text: &[u8],
    at: &mut usize,
) -> Result<N, Status>
    ensures { (s : NumFormat) → IsFormatIn (F.answers format.now) digits s
        → Gets (typed_numbers N.kind N.value) s text.now at.old at.new result }
{
    parse_any::<N, _>(&TypedParser::new(format)?, digits, text, at)
}

/// Parses the text as people type it as a decimal, as [`parse_in`] does.
pub fn parse_typed_decimal(
    format: &NumFormat,
    text: &[u8],
    at: &mut usize,
) -> Result<Decimal, Status>
    ensures { Gets typed_decimals format.now text.now at.old at.new result }
{
    let (format, digits) = FormatRef::new(format)?;
    if digits.is_latin() {
        return crossed(parse_typed_decimal_bytes(text, &format), at);
    }
    parse_in(&TypedDecimals::new(&format)?, digits, text, at)
}

/// Fills the struct with the format of a separator, a grouping's number, a minus sign and a decimal mark,
/// and returns 0.
pub fn fill_custom(
    format: &mut NumFormat,
    separator: &[u8],
    grouping: u32,
    minus_sign: &[u8],
    decimal_mark: &[u8],
) -> Result<i32, Status>
    ensures { FillsCustom separator.now grouping minus_sign.now decimal_mark.now format.old format.new
        (returned result) }
{
    let (Ok(separator), Ok(minus_sign), Ok(decimal_mark)) = (
        str::from_utf8(separator),
        str::from_utf8(minus_sign),
        str::from_utf8(decimal_mark),
    ) else {
        return Err(Status::NotUtf8);
    };
    let (Ok(separator), Ok(minus_sign), Ok(decimal_mark)) = (
        SeparatorStr::new(separator),
        MinusSignStr::new(minus_sign),
        DecimalStr::new(decimal_mark),
    ) else {
        return Err(Status::TooLong);
    };
    let grouping = grouping_of(grouping).ok_or(Status::BadGrouping)?;
    *format = NumFormat::new(&FormatRef {
        separator,
        grouping,
        minus_sign,
        decimal_mark,
    });
    Ok(0)
}

/// Writes the text at the start of the array, and returns its length.
#[inline(always)]
pub fn write(text: &str, array: &mut [u8]) -> Result<i32, Status>
    requires { length text.now ≤ MAX_DIGIT_TEXT_LEN }
    ensures { Writes text.now array.old array.new (returned result) }
{
    let len = text.len();
    if array.len() < len {
        return Err(Status::TooSmall);
    }
    copy_bytes(text.as_bytes(), &mut array[..len]);
    Ok(len as i32)
}

/// Writes the name of the locale at the place at the start of the array, and returns its length.
pub fn name(place: usize, array: &mut [u8]) -> Result<i32, Status>
    ensures { WritesName place array.old array.new (returned result) }
{
    let names = Locale::available_names();
    if place >= names.len() {
        return Err(Status::UnknownLocale);
    }
    write(names[place], array)
}

/// Writes the name of the locale for a language tag, whose digits are no unknown ones, at the start of the array, and
/// returns its length.
pub fn name_by_tag(tag: &[u8], array: &mut [u8]) -> Result<i32, Status>
    ensures { ByTag tag.now array.old array.new (returned result)
        (λ place. NamesByTag tag.now array.old array.new (returned result) place) }
{
    let tag = str::from_utf8(tag)?;
    let found = Locale::lookup(tag).ok_or(Status::UnknownLocale)?;
    let Ok(_) = Digits::of_tag(tag) else {
        return Err(Status::UnknownDigits);
    };
    write(found.name(), array)
}

/// Returns whether each number parses again from its text under the format.
pub fn reads_back(format: &NumFormat) -> Result<i32, Status>
    ensures { Tells (HasLatin format.now) (RoundTrips (format_of format.now)) (returned result) }
{
    let format = FormatRef::latin(format)?;
    Ok(truth(num_format::reads_back(&format)))
}

/// Returns whether the formats print all numbers alike, in the same digits.
pub fn prints_alike(first: &NumFormat, second: &NumFormat) -> Result<i32, Status>
    ensures { Tells (HasFormat first.now × HasFormat second.now)
        ((digits_of first.now ≡ digits_of second.now) × Alike (format_of first.now) (format_of second.now))
        (returned result) }
{
    let (first, digits) = FormatRef::new(first)?;
    let (second, others) = FormatRef::new(second)?;
    Ok(truth(digits == others && num_format::prints_alike(&first, &second)))
}

/// Returns 1 for `true`, and 0 for `false`.
fn truth(holds: bool) -> i32
    ensures { result ≡ (if holds then pos 1 else pos 0) }
{
    if holds { 1 } else { 0 }
}
