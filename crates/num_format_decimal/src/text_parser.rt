//! Parsers under one format by a trait, for texts in which other characters stand for those that they know.
//!
//! A [`TextParser`] parses such a text with its own characters. An error that it returns has a place in that text, so
//! its type is [`Placed`]: it can be returned with the place in the text that was given.
ghost use Rattle.num_format_decimal.specs.Ways.{at_scale, decimals, numbers, placed, placed_at_scale};

use crate::decimal::Decimal;
use crate::parser::DecimalParser;
use crate::parsing::ParseAtScaleError;
use num_format_parsing::{FromFormattedStr, StrictError, StrictParser};
use num_format_rewriting::{Image, bytes_within};
use num_format_text::Format;

/// An error of a text, with a place in it or none.
pub trait Placed: Drop {
    ghost use Rattle.std.specs.Prelude.{◌≡◌, ℕ};
    ghost use Rattle.std.specs.Str.{chars};
    ghost use Rattle.num_format_rewriting.specs.Rewriting.{bytes_within};

    ghost placed: { (ℕ → ℕ) → Self → Self };

    /// Returns the error with the place in a text, for that in the text of the images of its characters.
    fn placed<I: Image>(self, map: &I, text: &str) -> Self
        ensures { result ≡ placed (λ at. bytes_within (I.image map.now) at (chars text.now)) self };
}

impl Placed for StrictError {
    ghost placed = { placed };

    #[cold]
    fn placed<I: Image>(self, map: &I, text: &str) -> StrictError {
        match self {
            StrictError::Unexpected { at } => StrictError::Unexpected {
                at: bytes_within(at, text, map),
            },
            _ => self,
        }
    }
}

impl Placed for ParseAtScaleError {
    ghost placed = { placed_at_scale };

    #[cold]
    fn placed<I: Image>(self, map: &I, text: &str) -> ParseAtScaleError {
        match self {
            ParseAtScaleError::Parse(error) => ParseAtScaleError::Parse(error.placed(map, text)),
            ParseAtScaleError::Rescale(error) => ParseAtScaleError::Rescale(error),
        }
    }
}

/// A parser of texts under one format.
pub trait TextParser<T> {
    ghost use Rattle.num_format_text.specs.Format.{FormatData};
    ghost use Rattle.num_format_decimal.specs.Ways.{Way};

    type Error: Placed;

    ghost format: { Self → FormatData };

    ghost way: { Self → Way T Self.Error };

    /// Returns the number of the text of the bytes, or why there is none.
    fn parse_text(&self, bytes: &[u8]) -> Result<T, Self::Error>
        ensures { (way self.now).Returns (format self.now) bytes.now result };
}

impl<'a, N: FromFormattedStr, F: Format> TextParser<N> for StrictParser<'a, F> {
    type Error = StrictError;

    ghost format = { λ f. f };

    ghost way = { λ _. numbers N.kind N.value };

    #[inline(always)]
    fn parse_text(&self, bytes: &[u8]) -> Result<N, StrictError> {
        self.parse_bytes(bytes)
    }
}

impl<'a, F: Format> TextParser<Decimal> for DecimalParser<'a, F> {
    type Error = StrictError;

    ghost format = { λ f. f };

    ghost way = { λ _. decimals };

    #[inline(always)]
    fn parse_text(&self, bytes: &[u8]) -> Result<Decimal, StrictError> {
        self.parse_bytes(bytes)
    }
}

/// A parser of decimals and a scale: each decimal is rescaled to the scale, the same number, or an error.
#[derive(Drop)]
pub struct AtScale<'a, F: Format> {
    pub parser: DecimalParser<'a, F>,
    pub scale: u8,
}

impl<'a, F: Format> TextParser<Decimal> for AtScale<'a, F> {
    type Error = ParseAtScaleError;

    ghost format = { λ p. p.parser };

    ghost way = { λ p. at_scale p.scale };

    #[inline(always)]
    fn parse_text(&self, bytes: &[u8]) -> Result<Decimal, ParseAtScaleError> {
        self.parser.parse_bytes_at_scale(bytes, self.scale)
    }
}
