//! Parsing texts as people type them.
ghost use Rattle.std.specs.Prelude.{◌≡◌, ◌↔◌, IsTrue, MatchOption, MatchResult};
ghost use Rattle.num_format_decimal.specs.Marks.{MarksDecimals};
ghost use Rattle.num_format_parsing.specs.declared.error.StrictError.TheVariants as strict;
ghost use Rattle.num_format_typed.specs.Typed.{IsTypable, ParsesTyped, RescaleResult, TypedAtScaleResult};
ghost use Rattle.num_format_typed.specs.Typed.{TypedDecimalResult, at_any_scale};

use crate::error::TypedError;
use crate::rewriter::Rewriter;
use num_format_decimal::{Decimal, DecimalParser, ParseAtScaleError, Rounding};
use num_format_parsing::{FromFormattedStr, StrictError};
use num_format_text::Format;
use std::marker::Model;

/// A parser of typed texts under one format. It asks the format for its symbols once.
///
/// A contract sees it as the data of its format.
///
/// ```rust
/// let parser = TypedParser::new(&Locale::fr)?;
/// parser.parse::<i32>("1 234")        // Ok(1234)
/// parser.parse_decimal("1 234,50")    // Ok(1234.50)
/// ```
#[derive(Drop)]
pub struct TypedParser<'a, F: Format> {
    rewriter: Rewriter<'a, F>,
    decimals: Option<DecimalParser<'a, F>>,
}

impl<'a, F: Format> Model for TypedParser<'a, F> {
    ghost use Rattle.std.specs.Prelude.{◌≡◌, MatchOption};
    ghost use Rattle.num_format_text.specs.Format.{FormatData};
    ghost use Rattle.num_format_decimal.specs.Marks.{MarksDecimals};

    ghost Value = { FormatData };

    ghost view = { λ p. p.rewriter };

    ghost invariant = { λ p.
        MatchOption p.decimals (¬ (MarksDecimals p.rewriter)) (λ d. (d ≡ p.rewriter) × MarksDecimals p.rewriter) };
}

impl<'a, F: Format> TypedParser<'a, F> {
    /// Returns a parser of typed texts under the format.
    ///
    /// # Errors
    ///
    /// [`StrictError::AmbiguousFormat`] exactly if strict parsing refuses the format, if its mark and a separator that
    /// is printed have two unlike spaces, apostrophes, commas or points, as `'` and U+2019, or if its minus sign has
    /// one of their kinds, begins with a blank or a plus sign, or has marks of direction alone.
    pub fn new(format: &'a F) -> Result<TypedParser<'a, F>, StrictError>
        ensures { MatchResult result
            (λ parser. (parser ≡ F.answers format.now) × IsTypable (F.answers format.now))
            (λ e. (e ≡ strict.AmbiguousFormat) × ¬ (IsTypable (F.answers format.now))) }
    {
        match Rewriter::new(format) {
            Ok(rewriter) => {
                let decimals = rewriter.decimals();
                Ok(TypedParser { rewriter, decimals })
            }
            Err(error) => Err(error),
        }
    }

    /// Returns the number that a person means by the text: the one that strict parsing returns of it with the format's
    /// own characters in place of those that were typed.
    ///
    /// ```rust
    /// let parser = TypedParser::new(&Locale::de_CH)?;
    /// parser.parse::<i32>("+1'234")     // Ok(1234), where de-CH prints U+2019
    /// parser.parse::<i32>("1'23")       // Err(Number(Misspelled))
    /// ```
    ///
    /// # Errors
    ///
    /// A [`TypedError`], but not `AmbiguousFormat` and `NotUtf8`.
    #[inline]
    pub fn parse<N: FromFormattedStr>(&self, text: &str) -> Result<N, TypedError<StrictError>>
        ensures { ParsesTyped N.kind N.value self.now text.now result }
    {
        self.parse_bytes(text.as_bytes())
    }

    /// Returns the number that a person means by the text of the bytes.
    ///
    /// # Errors
    ///
    /// As [`parse`](TypedParser::parse), and `NotUtf8`.
    #[inline]
    pub fn parse_bytes<N: FromFormattedStr>(
        &self,
        bytes: &[u8],
    ) -> Result<N, TypedError<StrictError>>
        ensures { ParsesTyped N.kind N.value self.now bytes.now result }
    {
        self.rewriter.parse(self.rewriter.numbers(), bytes)
    }

    /// Returns the decimal that a person means by the text, with as many decimals as were typed.
    ///
    /// ```rust
    /// let parser = TypedParser::new(&Locale::fr)?;
    /// parser.parse_decimal("1 234,50")    // Ok(1234.50)
    /// parser.parse_decimal("-0,00")       // Ok(0.00)
    /// ```
    ///
    /// # Errors
    ///
    /// As [`parse`](TypedParser::parse), but with the causes of decimals, and `AmbiguousFormat` where `marks_decimals`
    /// is false.
    #[inline]
    pub fn parse_decimal(&self, text: &str) -> Result<Decimal, TypedError<StrictError>>
        ensures { TypedDecimalResult self.now text.now result }
    {
        self.parse_decimal_bytes(text.as_bytes())
    }

    /// Returns the decimal that a person means by the text of the bytes.
    ///
    /// # Errors
    ///
    /// As [`parse_decimal`](TypedParser::parse_decimal), and `NotUtf8`.
    #[inline]
    pub fn parse_decimal_bytes(&self, bytes: &[u8]) -> Result<Decimal, TypedError<StrictError>>
        ensures { TypedDecimalResult self.now bytes.now result }
    {
        match self.decimals() {
            Some(decimals) => self.rewriter.parse(decimals, bytes),
            None => Err(TypedError::Number(StrictError::AmbiguousFormat)),
        }
    }

    /// Returns the decimal that a person means by the text at another scale: the same number, or an error.
    ///
    /// ```rust
    /// TypedParser::new(&Locale::fr)?.parse_at_scale("1 234,5", 2)    // Ok(1234.50)
    /// ```
    ///
    /// # Errors
    ///
    /// As [`parse_decimal`](TypedParser::parse_decimal), and that of [`rescale`](Decimal::rescale) under
    /// [`Rounding::Exact`].
    pub fn parse_at_scale(
        &self,
        text: &str,
        scale: u8,
    ) -> Result<Decimal, TypedError<ParseAtScaleError>>
        ensures { TypedAtScaleResult self.now text.now scale result }
    {
        self.parse_bytes_at_scale(text.as_bytes(), scale)
    }

    /// Returns the decimal that a person means by the text of the bytes at another scale.
    ///
    /// # Errors
    ///
    /// As [`parse_at_scale`](TypedParser::parse_at_scale), and `NotUtf8`.
    pub fn parse_bytes_at_scale(
        &self,
        bytes: &[u8],
        scale: u8,
    ) -> Result<Decimal, TypedError<ParseAtScaleError>>
        ensures { TypedAtScaleResult self.now bytes.now scale result }
    {
        match self.parse_decimal_bytes(bytes) {
            Ok(decimal) => at_scale(decimal, scale),
            Err(error) => Err(at_any_scale(error)),
        }
    }

    /// Returns whether decimals can be parsed: what [`marks_decimals`](num_format_decimal::marks_decimals) returns of the
    /// format.
    #[inline]
    pub fn marks_decimals(&self) -> bool
        ensures { IsTrue result ↔ MarksDecimals self.now }
    {
        self.decimals.is_some()
    }

    /// Returns the strict parser of decimals, if the format marks decimals.
    #[inline(always)]
    fn decimals(&self) -> Option<&DecimalParser<'a, F>>
        ensures marks { MatchOption result (¬ (MarksDecimals self.now))
            (λ decimals. (decimals.now ≡ self.now) × MarksDecimals self.now) }
        ensures typable { IsTypable self.now }
    {
        self.rewriter.numbers();
        self.decimals.as_ref()
    }
}

/// Returns a decimal at another scale.
fn at_scale(decimal: Decimal, scale: u8) -> Result<Decimal, TypedError<ParseAtScaleError>>
    ensures { RescaleResult decimal scale result }
{
    match decimal.rescale(scale, Rounding::Exact) {
        Ok(rescaled) => Ok(rescaled),
        Err(error) => Err(TypedError::Number(ParseAtScaleError::Rescale(error))),
    }
}

/// Returns why a text is refused at any scale.
fn at_any_scale(error: TypedError<StrictError>) -> TypedError<ParseAtScaleError>
    ensures { result ≡ at_any_scale error }
{
    match error {
        TypedError::TooLong => TypedError::TooLong,
        TypedError::Number(error) => TypedError::Number(ParseAtScaleError::Parse(error)),
    }
}

/// Returns the number that a person means by the text under a format.
///
/// The text is taken as a person types it: a space, an apostrophe, a comma or a point stands for that of the format,
/// and `-` for its minus sign. (No data type is meant.)
///
/// ```rust
/// parse_typed::<i32, _>("-1 234", &Locale::fr)    // Ok(-1234)
/// parse_typed::<i32, _>("1,234", &Locale::fr)     // Err(Number(Unexpected { at: 1 }))
/// ```
///
/// # Errors
///
/// As [`TypedParser::parse`], and `AmbiguousFormat` as [`TypedParser::new`].
pub fn parse_typed<N: FromFormattedStr, F: Format>(
    text: &str,
    format: &F,
) -> Result<N, TypedError<StrictError>>
    ensures { ParsesTyped N.kind N.value (F.answers format.now) text.now result }
{
    parse_typed_bytes(text.as_bytes(), format)
}

/// Returns the number that a person means by the text of the bytes under a format.
///
/// # Errors
///
/// As [`parse_typed`], and `NotUtf8`.
#[inline(always)]
pub fn parse_typed_bytes<N: FromFormattedStr, F: Format>(
    bytes: &[u8],
    format: &F,
) -> Result<N, TypedError<StrictError>>
    ensures { ParsesTyped N.kind N.value (F.answers format.now) bytes.now result }
{
    match Rewriter::new(format) {
        Ok(rewriter) => rewriter.parse(rewriter.numbers(), bytes),
        Err(error) => Err(TypedError::Number(error)),
    }
}

/// Returns the decimal that a person means by the text under a format. (No data type is meant.)
///
/// ```rust
/// parse_typed_decimal("1'234.50", &Locale::de_CH)    // Ok(1234.50)
/// parse_typed_decimal(".5", &Locale::en)             // Err(Number(Misspelled))
/// ```
///
/// # Errors
///
/// As [`TypedParser::parse_decimal`], and `AmbiguousFormat` as [`TypedParser::new`].
pub fn parse_typed_decimal<F: Format>(
    text: &str,
    format: &F,
) -> Result<Decimal, TypedError<StrictError>>
    ensures { TypedDecimalResult (F.answers format.now) text.now result }
{
    parse_typed_decimal_bytes(text.as_bytes(), format)
}

/// Returns the decimal that a person means by the text of the bytes under a format.
///
/// # Errors
///
/// As [`parse_typed_decimal`], and `NotUtf8`.
pub fn parse_typed_decimal_bytes<F: Format>(
    bytes: &[u8],
    format: &F,
) -> Result<Decimal, TypedError<StrictError>>
    ensures { TypedDecimalResult (F.answers format.now) bytes.now result }
{
    let Ok(rewriter) = Rewriter::new(format) else {
        return Err(TypedError::Number(StrictError::AmbiguousFormat));
    };
    let Some(decimals) = rewriter.decimals() else {
        return Err(TypedError::Number(StrictError::AmbiguousFormat));
    };
    rewriter.parse(&decimals, bytes)
}

/// Returns the decimal that a person means by the text at another scale: the same number, or an error.
///
/// # Errors
///
/// As [`TypedParser::parse_at_scale`], and `AmbiguousFormat` as [`TypedParser::new`].
pub fn parse_typed_at_scale<F: Format>(
    text: &str,
    scale: u8,
    format: &F,
) -> Result<Decimal, TypedError<ParseAtScaleError>>
    ensures { TypedAtScaleResult (F.answers format.now) text.now scale result }
{
    match parse_typed_decimal(text, format) {
        Ok(decimal) => at_scale(decimal, scale),
        Err(error) => Err(at_any_scale(error)),
    }
}
