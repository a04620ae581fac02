//! The properties, each of which returns whether it holds.

use num_format::json::{
    buffer_from_value, buffer_to_value, format_from_value, format_to_value, locale_from_value,
    locale_to_value,
};
use num_format::parsing::{FromFormattedStr, StrictError};
use num_format::{
    Buffer, CustomFormat, Error, ErrorKind, Format, Grouping, Locale, ToFormattedStr,
    ToFormattedString, WriteFormatted,
};
use num_format_decimal::{Decimal, DecimalBuffer, ParseDecimal};
use std::alloc::Global;
use std::fmt::Display;
use std::io;

/// The most bytes of a printed number.
const MAX_TEXT_LEN: usize = 191;

/// The most bytes that an error keeps of a text.
const MAX_KEPT_LEN: usize = 256;

/// Characters of one to four bytes that are not numeric.
const NOT_NUMERIC: [char; 6] = ['x', '-', ',', 'é', '\u{202f}', '😀'];

/// Returns whether each way of printing writes this text, and returns its length.
pub fn are_ways_alike<N: ToFormattedString, F: Format>(
    alloc: Global,
    number: &N,
    format: &F,
    text: &str,
) -> io::Result<bool> {
    let new = number.to_formatted_string(alloc, format)?;
    let mut string = String::new(alloc);
    let in_string = string.write_formatted(number, format)?;
    let mut vector = Vec::new(alloc);
    let in_vector = vector.write_formatted(number, format)?;
    let mut writer = String::new(alloc);
    let to_writer = number.read_to_fmt_writer(&mut writer, format)?;
    let mut bytes = Vec::new(alloc);
    let to_bytes = number.read_to_io_writer(&mut bytes, format)?;
    // A buffer that has another text.
    let mut buffer = Buffer::new();
    buffer.write_formatted(&i128::MIN, format);
    let in_buffer = number.read_to_buffer(&mut buffer, format);
    let ways = [
        (new.len(), new.as_bytes()),
        (in_string, string.as_bytes()),
        (in_vector, vector.as_slice()),
        (to_writer, writer.as_bytes()),
        (to_bytes, bytes.as_slice()),
        (in_buffer, buffer.as_bytes()),
    ];
    Ok(ways.iter().all(|(count, bytes)| *count == text.len() && *bytes == text.as_bytes()))
}

/// Returns whether the printed number has this many bytes by its plain decimal form, and at most 191.
pub fn has_length<N: Display, F: Format>(
    alloc: Global,
    number: &N,
    format: &F,
    count: usize,
) -> io::Result<bool> {
    let plain = format!(in alloc; "{number}")?;
    let (sign, digits) = match plain.strip_prefix('-') {
        Some(digits) => (format.minus_sign().into_str().len(), digits.len()),
        None => (0, plain.len()),
    };
    let separator = format.separator().into_str().len();
    let separators = separators(format.grouping(), digits).saturating_mul(separator);
    let expected = sign.saturating_add(digits).saturating_add(separators);
    Ok(count == expected && count <= MAX_TEXT_LEN)
}

/// Returns how many separators stand among so many digits: one for each whole group that has a digit
/// to its left.
fn separators(grouping: Grouping, digits: usize) -> usize {
    let to_the_left = digits.saturating_sub(1);
    match grouping {
        Grouping::Standard => to_the_left / 3,
        Grouping::Indian => to_the_left.saturating_sub(1) / 2,
        Grouping::Posix => 0,
        Grouping::Myriad => to_the_left / 4,
        Grouping::Sparse if to_the_left < 4 => 0,
        Grouping::Sparse => to_the_left / 3,
    }
}

/// Returns whether parsing the text gave no error, or one that keeps the text, truncated.
pub fn parses_or_refuses(text: &str, error: Option<Error>) -> bool {
    match error {
        None => true,
        Some(error) => match error.kind() {
            ErrorKind::ParseNumber(kept) => is_truncated(kept.as_str(), text),
            _ => false,
        },
    }
}

/// Returns whether the text with one more character, which is not numeric, is parsed as the same
/// number, or refused as the text is. It may differ only where the text begins with the minus sign with
/// that character, and not without.
pub fn ignores_appended<N, F>(alloc: Global, text: &str, format: &F) -> io::Result<bool>
where
    N: FromFormattedStr + PartialEq + Drop,
    F: Format,
{
    let minus_sign = format.minus_sign();
    let minus_sign = minus_sign.into_str();
    let parsed = N::from_formatted_str(text, format).ok();
    for character in NOT_NUMERIC {
        let mut longer = String::from_str(alloc, text)?;
        longer.push(character)?;
        let has_same_sign = longer.starts_with(minus_sign) == text.starts_with(minus_sign);
        if has_same_sign && N::from_formatted_str(&longer, format).ok() != parsed {
            return Ok(false);
        }
    }
    Ok(true)
}

/// Returns whether a number that the bytes are parsed to strictly is the one that they are parsed to. None
/// where they are refused strictly.
pub fn is_parsed_too<N, F>(bytes: &[u8], format: &F) -> Option<bool>
where
    N: FromFormattedStr + PartialEq + Copy,
    F: Format,
{
    let number: N = N::from_strict_bytes(bytes, format).ok()?;
    Some(N::from_formatted_bytes(bytes, format) == Ok(number))
}

/// Returns whether a number that the bytes are parsed to strictly is printed as the bytes, grouped or
/// not. None where they are refused strictly.
pub fn is_canonical<N, F>(bytes: &[u8], format: &F) -> Option<bool>
where
    N: FromFormattedStr + ToFormattedStr + Copy,
    F: Format,
{
    let number: N = N::from_strict_bytes(bytes, format).ok()?;
    let [grouped, ungrouped] = canonical_texts_of(&number, format);
    Some(grouped.as_bytes() == bytes || ungrouped.as_bytes() == bytes)
}

/// Returns whether the bytes are refused for the format alone.
pub fn is_ambiguous<N, F>(bytes: &[u8], format: &F) -> bool
where
    N: FromFormattedStr + PartialEq + Copy,
    F: Format,
{
    N::from_strict_bytes(bytes, format) == Err(StrictError::AmbiguousFormat)
}

/// Returns whether the printed number, grouped or not, is parsed strictly as this number.
pub fn is_parsed_strictly<N, F>(number: N, format: &F) -> bool
where
    N: FromFormattedStr + ToFormattedStr + PartialEq + Copy,
    F: Format,
{
    let [grouped, ungrouped] = canonical_texts_of(&number, format);
    N::from_strict_str(grouped.as_str(), format) == Ok(number)
        && N::from_strict_str(ungrouped.as_str(), format) == Ok(number)
}

/// Returns the texts of a number under a format, and under that format without grouping.
fn canonical_texts_of<N: ToFormattedStr, F: Format>(number: &N, format: &F) -> [Buffer; 2] {
    [
        Buffer::of(number, format),
        Buffer::of(number, &ungrouped(format)),
    ]
}

/// Returns whether a decimal that the bytes are parsed to is printed as the bytes, grouped or not. None
/// where they are refused.
pub fn is_canonical_decimal<F: Format>(bytes: &[u8], format: &F) -> Option<bool> {
    let decimal = Decimal::from_strict_bytes(bytes, format).ok()?;
    let [grouped, ungrouped] = canonical_decimals_of(&decimal, format);
    Some(grouped.as_bytes() == bytes || ungrouped.as_bytes() == bytes)
}

/// Returns whether the bytes are refused as a decimal for the format alone.
pub fn is_decimal_ambiguous<F: Format>(bytes: &[u8], format: &F) -> bool {
    Decimal::from_strict_bytes(bytes, format) == Err(StrictError::AmbiguousFormat)
}

/// Returns whether the printed decimal, grouped or not, is parsed as one of the same units and scale.
pub fn is_decimal_parsed<F: Format>(decimal: Decimal, format: &F) -> bool {
    let is_same = |parsed: Decimal| {
        parsed.units() == decimal.units() && parsed.scale() == decimal.scale()
    };
    let [grouped, ungrouped] = canonical_decimals_of(&decimal, format);
    grouped.as_str().parse_decimal(format).is_ok_and(is_same)
        && ungrouped.as_str().parse_decimal(format).is_ok_and(is_same)
}

/// Returns the texts of a decimal under a format, and under that format without grouping.
fn canonical_decimals_of<F: Format>(decimal: &Decimal, format: &F) -> [DecimalBuffer; 2] {
    [
        DecimalBuffer::of(decimal, format),
        DecimalBuffer::of(decimal, &ungrouped(format)),
    ]
}

/// Returns the format without grouping.
fn ungrouped<F: Format>(format: &F) -> CustomFormat {
    CustomFormat::of(format)
        .into_builder()
        .grouping(Grouping::Posix)
        .build()
        .unwrap_or_default()
}

/// Returns whether the text finds a locale of that name, or is refused with an error that keeps it,
/// truncated.
pub fn finds_or_refuses(alloc: Global, text: &str) -> io::Result<bool> {
    match Locale::from_name(text) {
        Ok(locale) => {
            let hyphens = text.replace(alloc, '_', "-")?;
            Ok(locale.name() == hyphens.as_str())
        }
        Err(error) => Ok(match error.kind() {
            ErrorKind::ParseLocale(kept) => is_truncated(kept.as_str(), text),
            _ => false,
        }),
    }
}

/// Returns whether an error kept the longest prefix of whole characters within 256 bytes.
fn is_truncated(kept: &str, text: &str) -> bool {
    match text.strip_prefix(kept) {
        Some(rest) => {
            let next = rest.chars().next().map_or(MAX_KEPT_LEN, char::len_utf8);
            kept.len() <= MAX_KEPT_LEN && (rest.is_empty() || kept.len() + next > MAX_KEPT_LEN)
        }
        None => false,
    }
}

/// Returns whether the name finds this locale, and is its name.
pub fn is_found_by_its_name(name: &str, locale: Locale) -> bool {
    Locale::from_name(name).is_ok_and(|found| found == locale && found.name() == name)
}

/// Returns whether a buffer with the same text is in the JSON value of the buffer.
pub fn is_buffer_alike_in_json(alloc: Global, buffer: &Buffer) -> io::Result<bool> {
    let value = buffer_to_value(alloc, buffer)?;
    Ok(match buffer_from_value(&value) {
        Ok(held) => held.as_str() == buffer.as_str(),
        Err(_) => false,
    })
}

/// Returns whether the format is in its JSON value.
pub fn is_format_alike_in_json(alloc: Global, format: &CustomFormat) -> io::Result<bool> {
    let value = format_to_value(alloc, format)?;
    Ok(match format_from_value(&value) {
        Ok(held) => held == *format,
        Err(_) => false,
    })
}

/// Returns whether the locale is in its JSON value.
pub fn is_locale_alike_in_json(alloc: Global, locale: Locale) -> io::Result<bool> {
    let value = locale_to_value(alloc, locale)?;
    Ok(match locale_from_value(&value) {
        Ok(held) => held == locale,
        Err(_) => false,
    })
}
