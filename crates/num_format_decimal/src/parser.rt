//! A parser of decimals under one format.
ghost use Rattle.std.specs.Prelude.{◌≡◌, ◌↔◌, ◌++◌, ◌<◌, ◌≤◌, true, Err, IsTrue, IsUtf8, MatchOption, MatchResult, Ok};
ghost use Rattle.std.specs.Prelude.{drop, length};
ghost use Rattle.std.specs.Char.{is_ascii_digit};
ghost use Rattle.std.specs.List.{list_all};
ghost use Rattle.num_format_parsing.specs.Strict.{IsUnambiguous, unexpected};
ghost use Rattle.num_format_decimal.specs.FixedPoint.{FixedPoint};
ghost use Rattle.num_format_decimal.specs.Marks.{IsMark, IsPlainFormat, MarksDecimals};
ghost use Rattle.num_format_decimal.specs.Parsing.{AtScaleResult, DecimalResult, IsDecimalCause, IsCanonicalDecimal};
ghost use Rattle.num_format_decimal.specs.Parsing.{after_mark, unexpected_in_decimal};
ghost use Rattle.num_format_decimal.specs.Shapes.{HasAmount, HasReading, IsCut};
ghost use Rattle.num_format_decimal.specs.Text.{mark_at};
ghost use Rattle.num_format_decimal.specs.declared.decimal.TheConstants.{MAX_SCALE};
ghost use Rattle.num_format_parsing.specs.declared.error.StrictError.TheVariants as cause;

use crate::decimal::{Decimal, MAX_SCALE};
use crate::parsing::ParseAtScaleError;
use crate::reading::{joined, trailing_digits, whole_number};
use crate::rounding::Rounding;
use num_format_parsing::bytes::{begins_with, has_digit, is_utf8};
use num_format_parsing::causes::expected_end;
use num_format_parsing::reading::Reading;
use num_format_parsing::symbols::is_plain;
use num_format_parsing::{StrictError, StrictParser};
use num_format_text::Format;
use std::marker::Model;

/// A parser of decimals under one format, which is not ambiguous. It asks the format for its symbols once.
///
/// A contract sees it as the data of its format.
///
/// ```rust
/// let parser = DecimalParser::new(&Locale::de)?;
/// parser.parse("1.234,50")    // Ok(1234.50)
/// ```
#[derive(Drop)]
pub struct DecimalParser<'a, F: Format> {
    numbers: StrictParser<'a, F>,
    mark: &'a str,
}

impl<'a, F: Format> Model for DecimalParser<'a, F> {
    ghost use Rattle.std.specs.Prelude.{◌≡◌};
    ghost use Rattle.num_format_text.specs.Format.{FormatData};
    ghost use Rattle.num_format_decimal.specs.Marks.{IsPlainFormat, MarksDecimals};

    ghost Value = { FormatData };

    ghost view = { λ p. p.numbers };

    ghost invariant = { λ p. (p.mark.now ≡ p.numbers.decimal) × (MarksDecimals p.numbers × IsPlainFormat p.numbers) };
}

/// Why no decimal was read.
#[derive(Clone, Copy)]
enum Fault {
    /// The text is canonical for a decimal whose units are no `i128`.
    TooLarge,
    /// The text is canonical for no decimal.
    NotCanonical,
}

impl<'a, F: Format> DecimalParser<'a, F> {
    /// Returns a parser of texts under the format.
    ///
    /// # Errors
    ///
    /// [`StrictError::AmbiguousFormat`] exactly if [`marks_decimals`](crate::marks_decimals) is false. No locale
    /// is ambiguous.
    ///
    /// ```rust
    /// let format = CustomFormat::builder().decimal(",").build()?;
    /// DecimalParser::new(&format).err()    // Some(AmbiguousFormat): the separator is a comma too
    /// ```
    #[tactic(auto, using(crate::proofs::ParserLemmas::marks))]
    #[inline(always)]
    pub fn new(format: &'a F) -> Result<DecimalParser<'a, F>, StrictError>
        ensures { MatchResult result
            (λ parser. (parser ≡ F.answers format.now) × MarksDecimals (F.answers format.now))
            (λ e. (e ≡ cause.AmbiguousFormat) × ¬ (MarksDecimals (F.answers format.now))) }
    {
        // Only what the getters promise is needed: that their texts are UTF-8.
        format.minus_sign().into_str();
        format.separator().into_str();
        format.decimal().into_str();
        match StrictParser::new(format) {
            Ok(numbers) => DecimalParser::with_numbers(format, numbers),
            Err(_) => Err(StrictError::AmbiguousFormat),
        }
    }

    /// Does the same where the strict parser under the format is known.
    #[tactic(auto, using(crate::proofs::ParserLemmas::marks))]
    #[inline(always)]
    pub fn with_numbers(
        format: &'a F,
        numbers: StrictParser<'a, F>,
    ) -> Result<DecimalParser<'a, F>, StrictError>
        requires same { numbers ≡ F.answers format.now }
        requires unambiguous { IsUnambiguous (F.answers format.now) }
        ensures { MatchResult result
            (λ parser. (parser ≡ F.answers format.now) × MarksDecimals (F.answers format.now))
            (λ e. (e ≡ cause.AmbiguousFormat) × ¬ (MarksDecimals (F.answers format.now))) }
    {
        // Only what the getters promise is needed of the first two: that they are UTF-8.
        format.minus_sign().into_str();
        format.separator().into_str();
        let mark = format.decimal().into_str();
        if !is_mark(mark, numbers.separator()) {
            return Err(StrictError::AmbiguousFormat);
        }
        Ok(DecimalParser { numbers, mark })
    }

    /// Returns the decimal for which the text is canonical: its scale is the number of digits after the mark.
    ///
    /// ```rust
    /// DecimalParser::new(&Locale::en)?.parse(".5")    // Err(Misspelled)
    /// ```
    ///
    /// # Errors
    ///
    /// As [`from_strict_str`](Decimal::from_strict_str), but for `AmbiguousFormat`.
    #[inline(always)]
    pub fn parse(&self, text: &str) -> Result<Decimal, StrictError>
        ensures { DecimalResult self.now text.now result }
    {
        self.parse_any(text.as_bytes(), true)
    }

    /// Returns the decimal for which the text of these bytes is canonical.
    ///
    /// ```rust
    /// DecimalParser::new(&Locale::en)?.parse_bytes(b"1\xFF")    // Err(NotUtf8)
    /// ```
    ///
    /// # Errors
    ///
    /// As [`from_strict_bytes`](Decimal::from_strict_bytes), but for `AmbiguousFormat`.
    #[inline(always)]
    pub fn parse_bytes(&self, bytes: &[u8]) -> Result<Decimal, StrictError>
        ensures { DecimalResult self.now bytes.now result }
    {
        self.parse_any(bytes, false)
    }

    /// Returns the decimal for which the text of these bytes is canonical, or `None` if they are refused. It looks for
    /// no cause.
    ///
    /// ```rust
    /// let parser = DecimalParser::new(&Locale::en)?;
    /// parser.decimal(b"1,234.50")    // Some(1234.50)
    /// parser.decimal(b"1,23.4")      // None
    /// ```
    #[tactic(auto, using(crate::proofs::CauseLemmas::judging))]
    #[inline(always)]
    pub fn decimal(&self, bytes: &[u8]) -> Option<Decimal>
        ensures { MatchOption result ((e : StrictError) × DecimalResult self.now bytes.now (Err e))
            (λ d. DecimalResult self.now bytes.now (Ok d)) }
    {
        self.mark();
        match self.read(bytes) {
            Ok(decimal) => Some(decimal),
            Err(_) => None,
        }
    }

    /// Returns the decimal for which the text is canonical, rescaled to a scale: the same number, or an error.
    ///
    /// ```rust
    /// DecimalParser::new(&Locale::en)?.parse_at_scale("1,234.5", 2)    // Ok(1234.50)
    /// ```
    ///
    /// # Errors
    ///
    /// As [`Decimal::parse_at_scale`], but for `AmbiguousFormat`.
    pub fn parse_at_scale(&self, text: &str, scale: u8) -> Result<Decimal, ParseAtScaleError>
        ensures { AtScaleResult self.now text.now scale result }
    {
        self.parse_bytes_at_scale(text.as_bytes(), scale)
    }

    /// Returns the decimal for which the text of these bytes is canonical, rescaled to a scale.
    ///
    /// ```rust
    /// DecimalParser::new(&Locale::en)?.parse_bytes_at_scale(b"1\xFF", 2)    // Err(Parse(NotUtf8))
    /// ```
    ///
    /// # Errors
    ///
    /// As [`parse_at_scale`](DecimalParser::parse_at_scale), and `NotUtf8`.
    pub fn parse_bytes_at_scale(
        &self,
        bytes: &[u8],
        scale: u8,
    ) -> Result<Decimal, ParseAtScaleError>
        ensures { AtScaleResult self.now bytes.now scale result }
    {
        match self.parse_bytes(bytes) {
            Ok(decimal) => match decimal.rescale(scale, Rounding::Exact) {
                Ok(rescaled) => Ok(rescaled),
                Err(error) => Err(ParseAtScaleError::Rescale(error)),
            },
            Err(error) => Err(ParseAtScaleError::Parse(error)),
        }
    }

    /// Returns the decimal for which the text of the bytes is canonical, or the first cause for which it is refused.
    ///
    /// Where the caller knows that the bytes are UTF-8, that is not tested again.
    #[tactic(auto, using(crate::proofs::CauseLemmas::judging))]
    #[inline(always)]
    fn parse_any(&self, text: &[u8], is_text: bool) -> Result<Decimal, StrictError>
        requires { IsTrue is_text → IsUtf8 text.now }
        ensures { DecimalResult self.now text.now result }
    {
        self.mark();
        match self.read(text) {
            Ok(decimal) => Ok(decimal),
            Err(fault) => match fault {
                Fault::TooLarge => Err(StrictError::OutOfRange),
                Fault::NotCanonical => Err(self.cause(text, is_text)),
            },
        }
    }

    /// Returns the decimal mark. The contract says what is known of the format.
    #[inline(always)]
    fn mark(&self) -> &'a str
        ensures same { result.now ≡ self.now.decimal }
        ensures marks { MarksDecimals self.now }
        ensures plain { IsPlainFormat self.now }
    {
        self.mark
    }

    /// Returns the decimal for which a text is canonical.
    ///
    /// The digits at the end are its decimals if the mark stands before them. Where that is canonical for no decimal,
    /// the mark may be a part of the separator.
    #[tactic(auto, using(crate::proofs::ParserLemmas::readings))]
    #[inline(always)]
    fn read(&self, text: &[u8]) -> Result<Decimal, Fault>
        ensures { HasReading self.now text.now (λ scale. scale ≤ MAX_SCALE) result }
    {
        self.mark();
        if let Some(cut) = self.mark_place(text) {
            let (place, end) = cut;
            match self.read_parts(&text[..place], &text[end..]) {
                Ok(decimal) => return Ok(decimal),
                Err(fault) => match fault {
                    Fault::TooLarge => return Err(Fault::TooLarge),
                    Fault::NotCanonical => {
                        if self.has_unexpected(text) {
                            return Err(Fault::NotCanonical);
                        }
                    }
                },
            }
        }
        self.read_whole(text)
    }

    /// Returns whether a text has a byte that no whole number has in its place.
    #[cold]
    #[inline(never)]
    fn has_unexpected(&self, text: &[u8]) -> bool
        ensures { IsTrue result → (d : FixedPoint) → d.scale ≡ 0 → ¬ (IsCanonicalDecimal self.now text.now d) }
    {
        let sign = self.numbers.sign(text);
        expected_end(text, sign.len, self.numbers.separator().as_bytes()) < text.len()
    }

    /// Returns where the mark begins and ends that stands before the digits at the end of a text, if it does and they
    /// are no more than the largest scale.
    #[tactic(auto, using(crate::proofs::ParserLemmas::marking))]
    #[inline(always)]
    fn mark_place(&self, text: &[u8]) -> Option<(usize, usize)>
        ensures { MatchOption result
            ((d : FixedPoint) → 0 < d.scale → d.scale ≤ MAX_SCALE → ¬ (IsCanonicalDecimal self.now text.now d))
            (λ cut. IsCut self.now.decimal text.now cut.0 cut.1) }
    {
        let mark = self.mark();
        let count = trailing_digits(text);
        if count == 0 || count > MAX_SCALE as usize {
            return None;
        }
        let end = text.len() - count;
        let place = end.checked_sub(mark.len())?;
        if !begins_with(&text[place..], mark.as_bytes()) {
            return None;
        }
        Some((place, end))
    }

    /// Returns the decimal for which the text before the mark and the decimals after it are canonical together.
    #[tactic(auto, using(crate::proofs::ParserLemmas::joining))]
    #[inline(always)]
    fn read_parts(&self, whole: &[u8], decimals: &[u8]) -> Result<Decimal, Fault>
        requires digits { list_all is_ascii_digit decimals.now ≡ true }
        requires few { length decimals.now ≤ MAX_SCALE }
        ensures { HasReading self.now (whole.now ++ (mark_at self.now (length decimals.now) ++ decimals.now))
            (λ scale. scale ≡ length decimals.now) result }
    {
        self.mark();
        let amount = match self.amount(whole) {
            Ok(amount) => amount,
            Err(fault) => return Err(fault),
        };
        let (is_negative, integer) = amount;
        let Some(magnitude) = joined(integer, decimals) else {
            return Err(Fault::TooLarge);
        };
        if magnitude == 0 && is_negative {
            return Err(Fault::NotCanonical);
        }
        match Decimal::with_magnitude(is_negative, magnitude, decimals.len() as u8) {
            Some(decimal) => Ok(decimal),
            None => Err(Fault::TooLarge),
        }
    }

    /// Returns the whole number for which a text is canonical.
    #[inline(always)]
    fn read_whole(&self, text: &[u8]) -> Result<Decimal, Fault>
        ensures { HasReading self.now text.now (λ scale. scale ≡ 0) result }
    {
        self.read_parts(text, &[])
    }

    /// Returns whether the whole number before a mark has a minus sign, and its absolute value. Only here can a zero
    /// have one.
    #[tactic(auto, using(crate::proofs::ParserLemmas::amounts))]
    #[inline(always)]
    fn amount(&self, text: &[u8]) -> Result<(bool, u128), Fault>
        ensures { HasAmount self.now text.now result }
    {
        let sign = self.numbers.sign(text);
        // Digits alone are read without a call.
        if let Some(magnitude) = whole_number(&text[sign.len..]) {
            return Ok((sign.is_negative, magnitude as u128));
        }
        match self.numbers.read::<i128>(text, sign) {
            Reading::Number(magnitude) => Ok((sign.is_negative, magnitude)),
            Reading::TooLarge => Err(Fault::TooLarge),
            Reading::NotCanonical => Err(Fault::NotCanonical),
        }
    }

    /// Returns why a text is refused that is canonical for no decimal. It is inlined, so that a parser stays in
    /// registers.
    #[cold]
    #[inline(always)]
    fn cause(&self, text: &[u8], is_text: bool) -> StrictError
        requires utf8 { IsTrue is_text → IsUtf8 text.now }
        requires not_canonical { (d : FixedPoint) → d.scale ≤ MAX_SCALE → ¬ (IsCanonicalDecimal self.now text.now d) }
        ensures { IsDecimalCause self.now text.now result }
    {
        self.mark();
        if !is_utf8(text, is_text) {
            return StrictError::NotUtf8;
        }
        let sign = self.numbers.sign(text);
        let whole = expected_end(text, sign.len, self.numbers.separator().as_bytes());
        let (at, decimals) = self.decimals_end(text, whole);
        if at < text.len() {
            return StrictError::Unexpected { at };
        }
        if !has_digit(text) {
            return StrictError::NoDigit;
        }
        if decimals > MAX_SCALE as usize {
            return StrictError::TooManyDecimals;
        }
        StrictError::Misspelled
    }

    /// Returns the place after one decimal mark and digits, if the mark stands at the place `whole`, and how many bytes
    /// follow the mark.
    #[inline(always)]
    fn decimals_end(&self, text: &[u8], whole: usize) -> (usize, usize)
        requires within { whole ≤ length text.now }
        requires whole { unexpected self.now text.now ≡ drop whole text.now }
        ensures within { result.0 ≤ length text.now }
        ensures rest { unexpected_in_decimal self.now text.now ≡ drop result.0 text.now }
        ensures decimals { result.1 ≡ length (after_mark self.now text.now) }
    {
        let mark = self.mark().as_bytes();
        if whole == text.len() || !begins_with(&text[whole..], mark) {
            return (whole, 0);
        }
        let start = whole + mark.len();
        (expected_end(text, start, &[]), text.len() - start)
    }
}

/// Returns whether a decimal mark is neither empty nor the separator that is printed, and no character of it is
/// numeric.
#[inline(always)]
fn is_mark(mark: &str, separator: &str) -> bool
    ensures { IsTrue result ↔ IsMark mark.now separator.now }
{
    if mark.is_empty() {
        return false;
    }
    if begins_with(mark.as_bytes(), separator.as_bytes()) && mark == separator {
        return false;
    }
    is_plain(mark)
}

impl Decimal {
    /// Returns the decimal for which the text is canonical: its scale is the number of digits after the mark.
    ///
    /// ```rust
    /// Decimal::from_strict_str("1,234.50", &Locale::en)    // Ok(1234.50)
    /// Decimal::from_strict_str("1234.5", &Locale::en)      // Ok(1234.5)
    /// Decimal::from_strict_str(".5", &Locale::en)          // Err(Misspelled)
    /// Decimal::from_strict_str("1.234.5", &Locale::en)     // Err(Unexpected { at: 5 })
    /// ```
    ///
    /// # Errors
    ///
    /// A [`StrictError`], but not `NotUtf8`.
    pub fn from_strict_str<F: Format>(text: &str, format: &F) -> Result<Decimal, StrictError>
        ensures { DecimalResult (F.answers format.now) text.now result }
    {
        DecimalParser::new(format)?.parse(text)
    }

    /// Returns the decimal for which the text of these bytes is canonical, as
    /// [`from_strict_str`](Decimal::from_strict_str) does.
    ///
    /// ```rust
    /// Decimal::from_strict_bytes(b"1\xFF", &Locale::en)    // Err(NotUtf8)
    /// ```
    ///
    /// # Errors
    ///
    /// A [`StrictError`].
    pub fn from_strict_bytes<F: Format>(bytes: &[u8], format: &F) -> Result<Decimal, StrictError>
        ensures { DecimalResult (F.answers format.now) bytes.now result }
    {
        DecimalParser::new(format)?.parse_bytes(bytes)
    }

    /// Returns the decimal for which the text is canonical, rescaled to a scale: the same number, or an error.
    ///
    /// For amounts of one currency, however many decimals they are written with.
    ///
    /// ```rust
    /// Decimal::parse_at_scale("1,234.5", 2, &Locale::en)    // Ok(1234.50)
    /// Decimal::parse_at_scale("1.255", 2, &Locale::en)      // Err(Rescale(DigitsLost))
    /// Decimal::parse_at_scale("1.", 2, &Locale::en)         // Err(Parse(Misspelled))
    /// ```
    ///
    /// # Errors
    ///
    /// That of [`from_strict_str`](Decimal::from_strict_str), or that of [`rescale`](Decimal::rescale) under
    /// [`Rounding::Exact`].
    pub fn parse_at_scale<F: Format>(
        text: &str,
        scale: u8,
        format: &F,
    ) -> Result<Decimal, ParseAtScaleError>
        ensures { AtScaleResult (F.answers format.now) text.now scale result }
    {
        match DecimalParser::new(format) {
            Ok(parser) => parser.parse_at_scale(text, scale),
            Err(error) => Err(ParseAtScaleError::Parse(error)),
        }
    }
}
