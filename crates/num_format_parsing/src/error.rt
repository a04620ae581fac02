//! Why a text or bytes were not parsed. Messages are written alone, whatever width or fill is asked for.
ghost use Rattle.std.specs.Prelude.{Some};
ghost use Rattle.num_format_parsing.specs.BytesError.{bytes_message_of};
ghost use Rattle.num_format_parsing.specs.Strict.{strict_message_of};

use std::fmt;

/// Why bytes were not parsed as a number.
///
/// It takes one byte, and does not keep the text.
#[derive(Clone, Copy, Debug, PartialEq, Eq, Hash)]
pub enum ParseBytesError {
    /// The bytes are not UTF-8.
    NotUtf8,
    /// The bytes are a text that is refused for one of the four causes.
    NotANumber,
}

impl fmt::Display for ParseBytesError {
    ghost output = { λ error. Some (bytes_message_of error) };

    ghost styled_output = { λ error _. Some (bytes_message_of error) };

    fn fmt<W: fmt::Write>(&self, f: &mut fmt::Formatter<W>) -> fmt::Result {
        f.write_str(match self {
            ParseBytesError::NotUtf8 => "The bytes are not UTF-8.",
            ParseBytesError::NotANumber => "The text is no number of the type.",
        })
    }
}

impl std::error::Error for ParseBytesError {}

/// Why a text was refused by strict parsing, as a number or as a decimal. The causes are tried in this order.
///
/// It takes 16 bytes, and does not keep the text.
#[derive(Clone, Copy, Debug, PartialEq, Eq, Hash)]
pub enum StrictError {
    /// The format is ambiguous, so no text is parsed under it: its minus sign is empty, or that or a separator that its
    /// grouping prints has a digit or another numeric character; for decimals, if `marks_decimals` of
    /// `num_format_decimal` is false. No locale is ambiguous.
    AmbiguousFormat,
    /// The bytes are not UTF-8.
    NotUtf8,
    /// The first `at` bytes are the minus sign, if the text begins with it, then digits and whole separators, and, in a
    /// decimal, one decimal mark with digits, if it is there. The next byte belongs to none of these. A separator
    /// counts only if the grouping prints one.
    Unexpected {
        /// The number of bytes before the unexpected one.
        at: usize,
    },
    /// No byte is unexpected, and the text has no digit.
    NoDigit,
    /// No byte of a decimal is unexpected, and more than 38 digits follow its mark. No whole number has this cause.
    TooManyDecimals,
    /// No byte is unexpected, and the text is not as the number is printed, grouped or not: under `en` these are `01`,
    /// `1,23`, `1234,567`, `-0` and, as decimals, `.5`, `1.` and `-0.00`.
    Misspelled,
    /// The text is canonical for a number that is no value of the type, or for a decimal whose units are no `i128`.
    OutOfRange,
}

impl fmt::Display for StrictError {
    ghost output = { λ error. Some (strict_message_of error) };

    ghost styled_output = { λ error _. Some (strict_message_of error) };

    fn fmt<W: fmt::Write>(&self, f: &mut fmt::Formatter<W>) -> fmt::Result {
        f.write_str(match self {
            StrictError::AmbiguousFormat => "The format is ambiguous.",
            StrictError::NotUtf8 => "The bytes are not UTF-8.",
            StrictError::Unexpected { .. } => "The text has an unexpected byte.",
            StrictError::NoDigit => "The text has no digit.",
            StrictError::TooManyDecimals => "The text has more than 38 decimals.",
            StrictError::Misspelled => "The text is not as the number is printed.",
            StrictError::OutOfRange => "The number is no value of the type.",
        })
    }
}

impl std::error::Error for StrictError {}
