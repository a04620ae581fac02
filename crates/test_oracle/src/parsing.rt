//! What texts are parsed to.

use crate::calls::agreed;
use num_format::parsing::{FromFormattedStr, ParseFormatted, StrictError, StrictParser};
use num_format::{Error, ErrorKind, Format};
use num_format_decimal::ParseAtScaleError;
use num_format_typed::{TypedError, parse_typed, parse_typed_bytes};
use std::alloc::Global;
use std::fmt::Display;

/// An error of parsing a text.
pub trait Cause {
    /// Returns the error in the words of the tables.
    fn cause(&self, alloc: Global, text: &str) -> Option<String>;
}

impl Cause for Error {
    /// The kind, and how many bytes of the text the error keeps. Where it keeps no prefix of the text, all that it
    /// keeps, which no case has.
    fn cause(&self, alloc: Global, text: &str) -> Option<String> {
        let (kind, kept) = match self.kind() {
            ErrorKind::ParseLocale(kept) => ("ParseLocale", kept.as_str()),
            ErrorKind::ParseNumber(kept) => ("ParseNumber", kept.as_str()),
            _ => return None,
        };
        if text.starts_with(kept) {
            format!(in alloc; "{kind} {}", kept.len()).ok()
        } else {
            format!(in alloc; "{kind} of {kept}").ok()
        }
    }
}

impl Cause for StrictError {
    fn cause(&self, alloc: Global, _: &str) -> Option<String> {
        match self {
            StrictError::Unexpected { at } => format!(in alloc; "Unexpected {at}").ok(),
            error => format!(in alloc; "{error:?}").ok(),
        }
    }
}

impl Cause for ParseAtScaleError {
    fn cause(&self, alloc: Global, text: &str) -> Option<String> {
        match self {
            ParseAtScaleError::Parse(error) => error.cause(alloc, text),
            ParseAtScaleError::Rescale(error) => format!(in alloc; "{error:?}").ok(),
        }
    }
}

impl<E: Cause> Cause for TypedError<E> {
    fn cause(&self, alloc: Global, text: &str) -> Option<String> {
        match self {
            TypedError::Number(error) => error.cause(alloc, text),
            TypedError::TooLong => String::from_str(alloc, "TooLong").ok(),
        }
    }
}

/// Returns what a text was parsed to, or the error.
pub fn parsed<T: Display + Drop, E: Cause + Drop>(
    alloc: Global,
    text: &str,
    parsing: Result<T, E>,
) -> Option<String> {
    match parsing {
        Ok(value) => format!(in alloc; "ok {value}").ok(),
        Err(error) => format!(in alloc; "err {}", error.cause(alloc, text)?).ok(),
    }
}

/// Returns the result of parsing a text, as a `&str` and as a `String`.
pub fn leniently<N, F>(alloc: Global, text: &str, format: &F) -> Option<String>
where
    N: FromFormattedStr + Display + Drop,
    F: Format,
{
    let string = String::from_str(alloc, text).ok()?;
    let results = [
        parsed(alloc, text, N::from_formatted_str(text, format))?,
        parsed(alloc, text, text.parse_formatted::<F, N>(format))?,
        parsed(alloc, text, string.parse_formatted::<F, N>(format))?,
    ];
    agreed(alloc, &results)
}

/// Returns the result of parsing a text strictly, as bytes, as a `&str` and as a `String`, and by a parser.
pub fn strictly<N, F>(alloc: Global, text: &str, format: &F) -> Option<String>
where
    N: FromFormattedStr + Display + Drop,
    F: Format,
{
    let bytes = text.as_bytes();
    let string = String::from_str(alloc, text).ok()?;
    let (by_parser, bytes_by_parser) = match StrictParser::new(format) {
        Ok(parser) => (parser.parse::<N>(text), parser.parse_bytes::<N>(bytes)),
        Err(error) => (Err(error), Err(error)),
    };
    let results = [
        parsed(alloc, text, N::from_strict_bytes(bytes, format))?,
        parsed(alloc, text, text.parse_strict::<F, N>(format))?,
        parsed(alloc, text, string.parse_strict::<F, N>(format))?,
        parsed(alloc, text, by_parser)?,
        parsed(alloc, text, bytes_by_parser)?,
    ];
    agreed(alloc, &results)
}

/// Returns the result of parsing a text as people type it, as bytes and as a `&str`.
pub fn typed<N, F>(alloc: Global, text: &str, format: &F) -> Option<String>
where
    N: FromFormattedStr + Display + Drop,
    F: Format,
{
    let results = [
        parsed(alloc, text, parse_typed::<N, F>(text, format))?,
        parsed(
            alloc,
            text,
            parse_typed_bytes::<N, F>(text.as_bytes(), format),
        )?,
    ];
    agreed(alloc, &results)
}
