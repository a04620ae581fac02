//! Decimals printed, parsed, filled up to a width and computed with.

use crate::calls::agreed;
use crate::parsing::parsed;
use num_format::{Format, ToFormattedString};
use num_format_decimal::{
    Decimal, DecimalBuffer, DecimalError, DecimalParser, ParseAtScaleError, Rounding,
};
use num_format_typed::{parse_typed_decimal, parse_typed_decimal_bytes};
use std::alloc::Global;
use std::cmp::Ordering;
use std::fmt;
use std::fmt::{Display, Style};
use std::hash::{DefaultHasher, Hash, Hasher};

/// A decimal, displayed as UNITS/SCALE.
#[derive(Clone, Copy)]
struct Parts(Decimal);

impl Display for Parts {
    fn fmt<W: fmt::Write>(&self, f: &mut fmt::Formatter<W>) -> fmt::Result {
        write!(f, "{}/{}", self.0.units(), self.0.scale())
    }
}

/// Returns the text of a decimal, and where it is displayed or written as another text, that too.
pub fn printed_decimal<F: Format>(alloc: Global, decimal: &Decimal, format: &F) -> Option<String> {
    let text = decimal.to_formatted_string(alloc, format).ok()?;
    let buffer = DecimalBuffer::of(decimal, format);
    let shown = decimal.formatted(format);
    let displayed = format!(in alloc; "{shown} {shown:?} {buffer} {buffer:?}").ok()?;
    let expected = format!(in alloc; "{text} {text} {text} {text}").ok()?;
    let is_displayed = displayed == expected && buffer.as_bytes() == text.as_bytes();
    if is_displayed && is_written(alloc, decimal, format, &text)? {
        Some(text)
    } else {
        format!(in alloc; "{text} and {displayed}").ok()
    }
}

/// Returns whether a decimal is written as this text, by a writer of text and one of bytes.
fn is_written<F: Format>(alloc: Global, decimal: &Decimal, format: &F, text: &str) -> Option<bool> {
    let mut string = String::new(alloc);
    let written = decimal.read_to_fmt_writer(&mut string, format).ok()?;
    let mut bytes = Vec::new(alloc);
    let count = decimal.read_to_io_writer(&mut bytes, format).ok()?;
    let is_whole = written == text.len() && count == text.len();
    Some(is_whole && string.as_str() == text && bytes.as_slice() == text.as_bytes())
}

/// Returns the decimal for which a text is canonical, by itself and by a parser.
pub fn parsed_decimal<F: Format>(alloc: Global, text: &str, format: &F) -> Option<String> {
    let by_parser = match DecimalParser::new(format) {
        Ok(parser) => parser.parse(text),
        Err(error) => Err(error),
    };
    let results = [
        parsed(
            alloc,
            text,
            Decimal::from_strict_str(text, format).map(Parts),
        )?,
        parsed(alloc, text, by_parser.map(Parts))?,
    ];
    agreed(alloc, &results)
}

/// Returns the decimal that a text is as people type it, as bytes and as a `&str`.
pub fn typed_decimal<F: Format>(alloc: Global, text: &str, format: &F) -> Option<String> {
    let of_bytes = parse_typed_decimal_bytes(text.as_bytes(), format);
    let results = [
        parsed(alloc, text, parse_typed_decimal(text, format).map(Parts))?,
        parsed(alloc, text, of_bytes.map(Parts))?,
    ];
    agreed(alloc, &results)
}

/// Returns the units, at a scale, of the decimal for which a text is canonical, by itself and by a parser.
pub fn decimal_at_scale<F: Format>(
    alloc: Global,
    text: &str,
    scale: u8,
    format: &F,
) -> Option<String> {
    let by_parser = match DecimalParser::new(format) {
        Ok(parser) => parser.parse_at_scale(text, scale),
        Err(error) => Err(ParseAtScaleError::Parse(error)),
    };
    let of_text = Decimal::parse_at_scale(text, scale, format);
    let results = [
        parsed(alloc, text, of_text.map(|decimal| decimal.units()))?,
        parsed(alloc, text, by_parser.map(|decimal| decimal.units()))?,
    ];
    agreed(alloc, &results)
}

/// Returns a decimal filled up to a width, and where its scale is 0 also as an integer.
pub fn padded<F: Format>(
    alloc: Global,
    decimal: &Decimal,
    format: &F,
    fill: char,
    side: &str,
    width: usize,
) -> Option<String> {
    let padded = at_side(alloc, &decimal.formatted(format), fill, side, width)?;
    if decimal.scale() > 0 {
        return Some(padded);
    }
    let units = decimal.units();
    let as_integer = at_side(alloc, &units.formatted(format), fill, side, width)?;
    agreed(alloc, &[padded, as_integer])
}

/// Returns what is displayed of a value: without a side it stands right.
fn at_side<T: Display>(
    alloc: Global,
    shown: &T,
    fill: char,
    side: &str,
    width: usize,
) -> Option<String> {
    match side {
        "<" => format!(in alloc; "{}", shown.left().fill(fill).width(width)).ok(),
        "^" => format!(in alloc; "{}", shown.center().fill(fill).width(width)).ok(),
        _ => format!(in alloc; "{}", shown.fill(fill).width(width)).ok(),
    }
}

/// Returns what is computed of two decimals: the first one at a scale under each rounding, the order, whether both are
/// equal and hashed alike, the sum, the difference, and the first one negated.
pub fn computed(alloc: Global, first: Decimal, second: Decimal, scale: u8) -> Option<String> {
    let half_even = rescaled(alloc, first.rescale(scale, Rounding::HalfEven))?;
    let half_away = rescaled(alloc, first.rescale(scale, Rounding::HalfAwayFromZero))?;
    let toward_zero = rescaled(alloc, first.rescale(scale, Rounding::TowardZero))?;
    let exact = rescaled(alloc, first.rescale(scale, Rounding::Exact))?;
    let order = match first.cmp(&second) {
        Ordering::Less => "less",
        Ordering::Equal => "equal",
        Ordering::Greater => "greater",
    };
    let alike = hash_of(&first) == hash_of(&second) && first == second;
    let sum = parts_or_none(alloc, first.checked_add(second))?;
    let difference = parts_or_none(alloc, first.checked_sub(second))?;
    let negated = parts_or_none(alloc, first.checked_neg())?;
    format!(in alloc;
        "{half_even}\t{half_away}\t{toward_zero}\t{exact}\t{order}\t{alike}\t{sum}\t{difference}\t{negated}"
    ).ok()
}

fn rescaled(alloc: Global, rescaled: Result<Decimal, DecimalError>) -> Option<String> {
    match rescaled {
        Ok(decimal) => format!(in alloc; "{}", Parts(decimal)).ok(),
        Err(error) => format!(in alloc; "err {error:?}").ok(),
    }
}

fn parts_or_none(alloc: Global, decimal: Option<Decimal>) -> Option<String> {
    match decimal {
        Some(decimal) => format!(in alloc; "{}", Parts(decimal)).ok(),
        None => String::from_str(alloc, "none").ok(),
    }
}

fn hash_of(decimal: &Decimal) -> u64 {
    let mut state = DefaultHasher::new();
    decimal.hash(&mut state);
    state.finish()
}
