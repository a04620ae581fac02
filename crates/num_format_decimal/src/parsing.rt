//! Parsing: a text that is exactly as a decimal is printed, or the cause of its refusal.
//!
//! A text *is canonical for* a decimal if it is the text of the decimal under the format, or that text without
//! separators.
ghost use Rattle.std.specs.Prelude.{Some, ℕ, List, string_bytes};
ghost use Rattle.num_format_decimal.specs.Parsing.{DecimalResult, at_scale_message_of};

use crate::decimal::Decimal;
use crate::error::DecimalError;
use num_format_parsing::StrictError;
use num_format_text::Format;
use std::fmt;

/// Why a text was refused as a decimal of a given scale.
#[derive(Clone, Copy, Debug, PartialEq, Eq, Hash)]
pub enum ParseAtScaleError {
    /// The text is refused as a decimal.
    Parse(StrictError),
    /// The text is canonical for a decimal that cannot be rescaled.
    Rescale(DecimalError),
}

impl fmt::Display for ParseAtScaleError {
    ghost output = { λ error. Some (at_scale_message_of error) };

    ghost styled_output = { λ error _. Some (at_scale_message_of error) };

    fn fmt<W: fmt::Write>(&self, f: &mut fmt::Formatter<W>) -> fmt::Result {
        match self {
            ParseAtScaleError::Parse(error) => fmt::Display::fmt(error, f),
            ParseAtScaleError::Rescale(error) => fmt::Display::fmt(error, f),
        }
    }
}

impl std::error::Error for ParseAtScaleError {}

/// A text that can be parsed as a decimal.
pub trait ParseDecimal {
    ghost bytes: { Self → List ℕ };

    /// Returns the decimal for which the text is canonical, as [`Decimal::from_strict_str`] does.
    ///
    /// ```rust
    /// "1.234,50".parse_decimal(&Locale::de)     // Ok(1234.50)
    /// "1.234,5,0".parse_decimal(&Locale::de)    // Err(Unexpected { at: 7 })
    /// ```
    ///
    /// # Errors
    ///
    /// A [`StrictError`], but not `NotUtf8`.
    fn parse_decimal<F: Format>(&self, format: &F) -> Result<Decimal, StrictError>
        ensures { DecimalResult (F.answers format.now) (bytes self.now) result };
}

impl ParseDecimal for &str {
    ghost bytes = { λ text. text.now };

    fn parse_decimal<F: Format>(&self, format: &F) -> Result<Decimal, StrictError> {
        Decimal::from_strict_str(self, format)
    }
}

impl ParseDecimal for String {
    ghost bytes = { λ text. string_bytes text };

    fn parse_decimal<F: Format>(&self, format: &F) -> Result<Decimal, StrictError> {
        Decimal::from_strict_str(self.as_str(), format)
    }
}
