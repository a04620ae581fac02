//! The error of a decimal.
ghost use Rattle.std.specs.Prelude.{Some};
ghost use Rattle.num_format_decimal.specs.Message.{message_of};

use std::fmt;

/// Why there is no such decimal.
#[derive(Clone, Copy, Debug, PartialEq, Eq, Hash)]
pub enum DecimalError {
    /// The scale is larger than [`MAX_SCALE`](crate::MAX_SCALE).
    ScaleTooLarge,
    /// Digits other than zero would be lost, where they were not to be rounded.
    DigitsLost,
    /// The units are no `i128`.
    OutOfRange,
}

impl fmt::Display for DecimalError {
    ghost output = { λ error. Some (message_of error) };

    ghost styled_output = { λ error _. Some (message_of error) };

    fn fmt<W: fmt::Write>(&self, f: &mut fmt::Formatter<W>) -> fmt::Result {
        f.write_str(match self {
            DecimalError::ScaleTooLarge => "The scale is larger than 38.",
            DecimalError::DigitsLost => "Digits would be lost at that scale.",
            DecimalError::OutOfRange => "The units are out of range.",
        })
    }
}

impl std::error::Error for DecimalError {}
