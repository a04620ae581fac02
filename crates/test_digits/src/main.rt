//! Prints what num_format_digits returns of numbers and texts.
//!
//! `tools/digit_texts.py` writes `stdin` and `stdout`. Any other file may be changed.
//!
//! Each line of standard input is a call, with tabs between its fields. A text to parse stands as the hexadecimal
//! digits of its bytes.
#![tactic(auto)]

use num_format_decimal::{Decimal, ParseAtScaleError};
use num_format_digits::{DigitText, Digits, DigitsError};
use num_format_locale::Locale;
use num_format_typed::{TypedDecimals, TypedParser};
use std::alloc::Global;
use std::{fmt, io, str};

fn main(rt: HostRuntime) -> io::Result<()> {
    let data = io::read_to_string(rt.alloc(), rt.reader())?;
    for line in data.lines() {
        match answer(rt.alloc(), line) {
            Some(text) => println!(rt; "{text}")?,
            None => println!(rt; "unreadable: {line}")?,
        }
    }
    Ok(())
}

/// Returns what is printed for a line. None where it is no call, or out of memory.
fn answer(alloc: Global, line: &str) -> Option<String> {
    let (call, arguments) = line.split_once('\t')?;
    match call {
        "locale" => {
            let locale = Locale::from_name(arguments).ok()?;
            shown(alloc, Some(Digits::of_locale(locale)))
        }
        "tag" => match Digits::of_tag(arguments) {
            Ok(digits) => shown(alloc, digits),
            Err(error) => format!(in alloc; "{error:?}").ok(),
        },
        "text" => shown(alloc, Digits::of_text(arguments)),
        "print" => printed(alloc, arguments),
        _ => parsed(alloc, call, arguments),
    }
}

/// Returns the zero of a set.
fn shown(alloc: Global, digits: Option<Digits>) -> Option<String> {
    match digits {
        Some(digits) => format!(in alloc; "{}", digits.zero()).ok(),
        None => String::from_str(alloc, "none").ok(),
    }
}

/// Returns the text of a number, or of a decimal by its units and its scale, in a set, under a locale.
fn printed(alloc: Global, arguments: &str) -> Option<String> {
    let Some((digits, locale, number)) = read(arguments) else {
        return None;
    };
    let text = match number.split_once('/') {
        Some((units, scale)) => {
            let decimal = Decimal::new(units.parse().ok()?, scale.parse().ok()?).ok()?;
            DigitText::of_decimal(&decimal, &locale, digits)
        }
        None => {
            let number: i64 = number.parse().ok()?;
            DigitText::of(&number, &locale, digits)
        }
    };
    format!(in alloc; "{text}").ok()
}

/// Returns the number that a text is parsed as in a set, under a locale: an `i64`, or a decimal, strictly, at a scale,
/// or as typed.
fn parsed(alloc: Global, call: &str, arguments: &str) -> Option<String> {
    let Some((digits, locale, text)) = read(arguments) else {
        return None;
    };
    let (text, scale) = text.split_once('\t').unwrap_or((text, "0"));
    let bytes = hex::decode(alloc, text).ok()?;
    let text = str::from_utf8(bytes.as_slice()).ok()?;
    match call {
        "whole" => whole(alloc, digits.parse_strict::<i64, Locale>(text, &locale)),
        "typed" => {
            let parser = TypedParser::new(&locale).ok()?;
            whole(alloc, digits.parse_by::<i64, _>(text, &parser))
        }
        "decimal" => decimal(alloc, digits.parse_decimal(text, &locale)),
        "typed decimal" => {
            let parser = TypedDecimals::new(&locale).ok()?;
            decimal(alloc, digits.parse_by(text, &parser))
        }
        "at scale" => match digits.parse_at_scale(text, scale.parse().ok()?, &locale) {
            Err(DigitsError::Number(ParseAtScaleError::Rescale(error))) => {
                decimal(alloc, Err(DigitsError::Number(error)))
            }
            Err(DigitsError::Number(ParseAtScaleError::Parse(error))) => {
                decimal(alloc, Err(DigitsError::Number(error)))
            }
            parsed => decimal(alloc, parsed),
        },
        _ => None,
    }
}

/// Returns a number, or why there is none.
fn whole<E: fmt::Debug + Drop>(alloc: Global, parsed: Result<i64, E>) -> Option<String> {
    match parsed {
        Ok(number) => format!(in alloc; "{number}").ok(),
        Err(error) => format!(in alloc; "{error:?}").ok(),
    }
}

/// Returns the units and the scale of a decimal, or why there is none.
fn decimal<E: fmt::Debug + Drop>(alloc: Global, parsed: Result<Decimal, E>) -> Option<String> {
    match parsed {
        Ok(decimal) => format!(in alloc; "{}/{}", decimal.units(), decimal.scale()).ok(),
        Err(error) => format!(in alloc; "{error:?}").ok(),
    }
}

/// Returns a set and a locale by their names, and what follows.
fn read(arguments: &str) -> Option<(Digits, Locale, &str)> {
    let (name, rest) = arguments.split_once('\t')?;
    let (locale, rest) = rest.split_once('\t')?;
    let digits = Digits::from_name(name)?;
    let locale = Locale::from_name(locale).ok()?;
    Some((digits, locale, rest))
}
