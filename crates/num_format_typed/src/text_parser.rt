//! Parsers of typed texts by the trait [`TextParser`], for texts in the digits of other scripts.
ghost use Rattle.std.specs.Prelude.{◌≡◌, MatchResult};
ghost use Rattle.num_format_decimal.specs.Marks.{MarksDecimals};
ghost use Rattle.num_format_parsing.specs.declared.error.StrictError.TheVariants as strict;
ghost use Rattle.num_format_typed.specs.Typed.{IsTypable, placed_typed, typed_at_scale, typed_decimals, typed_numbers};

use crate::error::TypedError;
use crate::typed::TypedParser;
use num_format_decimal::{Decimal, ParseAtScaleError, Placed, TextParser};
use num_format_parsing::{FromFormattedStr, StrictError};
use num_format_rewriting::Image;
use num_format_text::Format;
use std::marker::Model;

impl<E: Placed> Placed for TypedError<E> {
    ghost placed = { placed_typed E.placed };

    #[cold]
    fn placed<I: Image>(self, map: &I, text: &str) -> TypedError<E> {
        match self {
            TypedError::TooLong => TypedError::TooLong,
            TypedError::Number(error) => TypedError::Number(error.placed(map, text)),
        }
    }
}

impl<'a, N: FromFormattedStr, F: Format> TextParser<N> for TypedParser<'a, F> {
    type Error = TypedError<StrictError>;

    ghost format = { λ f. f };

    ghost way = { λ _. typed_numbers N.kind N.value };

    #[inline(always)]
    fn parse_text(&self, bytes: &[u8]) -> Result<N, TypedError<StrictError>> {
        self.parse_bytes(bytes)
    }
}

/// A parser of typed texts under one format, by which decimals are parsed.
///
/// A contract sees it as the data of its format.
///
/// ```rust
/// TypedDecimals::new(&Locale::fr)?.parse_text(b"+1 234,50")    // Ok(1234.50)
/// ```
#[derive(Drop)]
pub struct TypedDecimals<'a, F: Format> {
    parser: TypedParser<'a, F>,
}

impl<'a, F: Format> Model for TypedDecimals<'a, F> {
    ghost use Rattle.num_format_text.specs.Format.{FormatData};

    ghost Value = { FormatData };

    ghost view = { λ p. p.parser };
}

impl<'a, F: Format> TypedDecimals<'a, F> {
    /// Returns a parser of decimals as people type them under the format.
    ///
    /// # Errors
    ///
    /// [`StrictError::AmbiguousFormat`] exactly if [`TypedParser::new`] returns it, or
    /// [`marks_decimals`](num_format_decimal::marks_decimals) returns `false` of the format.
    pub fn new(format: &'a F) -> Result<TypedDecimals<'a, F>, StrictError>
        ensures { MatchResult result
            (λ parser. (parser ≡ F.answers format.now)
            × IsTypable (F.answers format.now) × MarksDecimals (F.answers format.now))
            (λ e. (e ≡ strict.AmbiguousFormat)
            × (¬ (IsTypable (F.answers format.now) × MarksDecimals (F.answers format.now)))) }
    {
        let parser = TypedParser::new(format)?;
        if !parser.marks_decimals() {
            return Err(StrictError::AmbiguousFormat);
        }
        Ok(TypedDecimals { parser })
    }
}

impl<'a, F: Format> TextParser<Decimal> for TypedDecimals<'a, F> {
    type Error = TypedError<StrictError>;

    ghost format = { λ f. f };

    ghost way = { λ _. typed_decimals };

    #[inline(always)]
    fn parse_text(&self, bytes: &[u8]) -> Result<Decimal, TypedError<StrictError>> {
        self.parser.parse_decimal_bytes(bytes)
    }
}

/// A parser of typed texts and a scale: each decimal is rescaled to the scale, the same number, or an error.
#[derive(Drop)]
pub struct TypedAtScale<'a, F: Format> {
    pub parser: TypedDecimals<'a, F>,
    pub scale: u8,
}

impl<'a, F: Format> TextParser<Decimal> for TypedAtScale<'a, F> {
    type Error = TypedError<ParseAtScaleError>;

    ghost format = { λ p. p.parser };

    ghost way = { λ p. typed_at_scale p.scale };

    #[inline(always)]
    fn parse_text(&self, bytes: &[u8]) -> Result<Decimal, TypedError<ParseAtScaleError>> {
        self.parser.parser.parse_bytes_at_scale(bytes, self.scale)
    }
}
