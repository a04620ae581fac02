//! Strict parsing: the number for which a text is canonical, or why it is canonical for none.
ghost use Rattle.std.specs.Prelude.{◌≡◌, ◌↔◌, ℕ, List, [], IsTrue, IsUtf8, IfSome, MatchOption, MatchResult, Ok, Err};
ghost use Rattle.num_format_text.specs.Format.{FormatData};
ghost use Rattle.num_format_int.specs.Grouped.{printed_separator};
ghost use Rattle.num_format_int.specs.Kind.{signed_number};
ghost use Rattle.num_format_parsing.specs.Strict.{IsCanonical, ParsesStrictly, HasNoNumeral, IsUnambiguous};
ghost use Rattle.num_format_parsing.specs.Parts.{HasReading, IsJudged, IsCanonicalReading};
ghost use Rattle.num_format_parsing.specs.Shapes.{HasSign};
ghost use Rattle.num_format_parsing.specs.declared.error.StrictError.TheVariants as cause;

use crate::causes::cause;
use crate::error::StrictError;
use crate::groups::{SHORT_LEN, read_in_groups, read_short};
use crate::parsing::FromFormattedStr;
use crate::reading::{Reading, read};
use crate::symbols::{Sign, is_plain, is_simple, sign_of};
use num_format_int::sealed::Sealed;
use num_format_text::{Format, Grouping};
use std::marker::Model;

/// A parser of texts under one format, which is not ambiguous. It asks the format for its symbols once.
///
/// A contract sees it as the data of its format.
///
/// ```rust
/// let parser = StrictParser::new(&Locale::en)?;
/// let n: Result<i32, StrictError> = parser.parse("1,000");    // Ok(1000)
/// ```
#[derive(Drop)]
pub struct StrictParser<'a, F: Format> {
    format: &'a F,
    minus_sign: &'a str,
    separator: &'a str,
    grouping: Grouping,
}

impl<'a, F: Format> Model for StrictParser<'a, F> {
    ghost use Rattle.std.specs.Prelude.{◌≡◌};
    ghost use Rattle.num_format_text.specs.Format.{FormatData};
    ghost use Rattle.num_format_int.specs.Grouped.{printed_separator};
    ghost use Rattle.num_format_parsing.specs.Strict.{IsUnambiguous};

    ghost Value = { FormatData };

    ghost view = { λ p. F.answers p.format.now };

    ghost invariant = { λ p. (p.minus_sign.now ≡ (F.answers p.format.now).minus_sign)
        × (p.separator.now ≡ printed_separator (F.answers p.format.now).grouping (F.answers p.format.now).separator)
        × (p.grouping ≡ (F.answers p.format.now).grouping)
        × IsUnambiguous (F.answers p.format.now) };
}

/// Returns the separator of a format of that grouping, or nothing where the grouping prints none.
#[inline(always)]
fn printed_separator<F: Format>(format: &F, grouping: Grouping) -> &str
    requires { grouping ≡ (F.answers format.now).grouping }
    ensures { result.now ≡ printed_separator grouping (F.answers format.now).separator }
{
    match grouping {
        Grouping::Posix => "",
        _ => format.separator().into_str(),
    }
}

/// Returns whether no text can be misread under a format with these symbols.
#[inline(always)]
fn is_unambiguous<F: Format>(format: &F, minus_sign: &str, separator: &str) -> bool
    requires sign { minus_sign.now ≡ (F.answers format.now).minus_sign }
    requires separator { separator.now
        ≡ printed_separator (F.answers format.now).grouping (F.answers format.now).separator }
    ensures { IsTrue result ↔ IsUnambiguous (F.answers format.now) }
{
    if format.has_common_symbols() {
        return true;
    }
    if !minus_sign.is_empty() && is_simple(minus_sign) && is_simple(separator) {
        return true;
    }
    are_plain(minus_sign, separator)
}

/// Returns whether the minus sign is not empty, and neither symbol has a digit or another numeric character.
#[cold]
#[inline(never)]
fn are_plain(minus_sign: &str, separator: &str) -> bool
    ensures { IsTrue result ↔ ((¬ (minus_sign.now ≡ [])) × HasNoNumeral minus_sign.now × HasNoNumeral separator.now) }
{
    !minus_sign.is_empty() && is_plain(minus_sign) && is_plain(separator)
}

/// Returns the number for which the text of the bytes is canonical under a format, or the first cause for which it is
/// refused.
#[inline(always)]
pub(crate) fn parse_strict<N: Sealed, F: Format>(
    bytes: &[u8],
    is_text: bool,
    format: &F,
) -> Result<N, StrictError>
    requires { IsTrue is_text → IsUtf8 bytes.now }
    ensures { ParsesStrictly N.kind N.value (F.answers format.now) bytes.now result }
{
    let minus_sign = format.minus_sign().into_str();
    if let Some((sign, magnitude)) = read_few(bytes, minus_sign, format) {
        return number_of(sign, magnitude as u128);
    }
    StrictParser::with_sign(format, minus_sign)?.parse_any(bytes, is_text)
}

/// Returns whether the text of the bytes is negative under a format with this minus sign, and what is read of it. A
/// text is canonical for no number under an ambiguous format.
#[inline(always)]
pub(crate) fn read_canonical<N: Sealed, F: Format>(
    bytes: &[u8],
    minus_sign: &str,
    format: &F,
) -> (bool, Reading)
    requires { minus_sign.now ≡ (F.answers format.now).minus_sign }
    ensures { IsCanonicalReading N.kind (F.answers format.now) bytes.now result.0 result.1 }
{
    let Ok(parser) = StrictParser::with_sign(format, minus_sign) else {
        return (false, Reading::NotCanonical);
    };
    let sign = parser.sign(bytes);
    (sign.is_negative, parser.read::<N>(bytes, sign))
}

/// Returns the sign of the number for which a text of few bytes is canonical, and its absolute value. It may return
/// `None` for any text.
///
/// Many texts are short. What is needed of the separator is what its getter promises: that it is UTF-8.
#[inline(always)]
pub(crate) fn read_few<F: Format>(bytes: &[u8], minus_sign: &str, format: &F) -> Option<(Sign, u64)>
    requires { minus_sign.now ≡ (F.answers format.now).minus_sign }
    ensures { IfSome result (λ read. HasSign (F.answers format.now) bytes.now read.0.is_negative read.0.len
        × IsCanonical (F.answers format.now) bytes.now (signed_number read.0.is_negative read.1)) }
{
    if bytes.len() > SHORT_LEN || !format.has_common_symbols() {
        return None;
    }
    format.separator().into_str();
    let sign = sign_of(bytes, minus_sign);
    let magnitude = read_short(bytes, sign)?;
    Some((sign, magnitude))
}

impl<'a, F: Format> StrictParser<'a, F> {
    /// Returns a parser of texts under the format.
    ///
    /// # Errors
    ///
    /// [`StrictError::AmbiguousFormat`] exactly if the format is.
    ///
    /// ```rust
    /// let format = CustomFormat::builder().separator("7").build()?;
    /// StrictParser::new(&format).err()    // Some(AmbiguousFormat)
    /// ```
    #[inline(always)]
    pub fn new(format: &'a F) -> Result<StrictParser<'a, F>, StrictError>
        ensures { MatchResult result
            (λ parser. (parser ≡ F.answers format.now) × IsUnambiguous (F.answers format.now))
            (λ e. (e ≡ cause.AmbiguousFormat) × ¬ (IsUnambiguous (F.answers format.now))) }
    {
        StrictParser::with_sign(format, format.minus_sign().into_str())
    }

    /// Does the same where the minus sign of the format is known.
    #[inline(always)]
    fn with_sign(format: &'a F, minus_sign: &'a str) -> Result<StrictParser<'a, F>, StrictError>
        requires { minus_sign.now ≡ (F.answers format.now).minus_sign }
        ensures { MatchResult result
            (λ parser. (parser ≡ F.answers format.now) × IsUnambiguous (F.answers format.now))
            (λ e. (e ≡ cause.AmbiguousFormat) × ¬ (IsUnambiguous (F.answers format.now))) }
    {
        let grouping = format.grouping();
        let separator = printed_separator(format, grouping);
        if !is_unambiguous(format, minus_sign, separator) {
            return Err(StrictError::AmbiguousFormat);
        }
        Ok(StrictParser {
            format,
            minus_sign,
            separator,
            grouping,
        })
    }

    /// Returns a parser of texts under a format that is not ambiguous, as the caller knows.
    #[inline(always)]
    pub fn unambiguous(format: &'a F) -> StrictParser<'a, F>
        requires { IsUnambiguous (F.answers format.now) }
        ensures { result ≡ F.answers format.now }
    {
        let grouping = format.grouping();
        StrictParser {
            format,
            minus_sign: format.minus_sign().into_str(),
            separator: printed_separator(format, grouping),
            grouping,
        }
    }

    /// Returns the number for which the text is canonical, or the first cause for which it is refused.
    ///
    /// ```rust
    /// let parser = StrictParser::new(&Locale::en)?;
    /// parser.parse::<i32>("-1,000")    // Ok(-1000)
    /// parser.parse::<u8>("1,000")      // Err(OutOfRange)
    /// ```
    ///
    /// The errors are those of [`from_strict_str`](FromFormattedStr::from_strict_str), but for `AmbiguousFormat`.
    #[inline(always)]
    pub fn parse<N: FromFormattedStr>(&self, text: &str) -> Result<N, StrictError>
        ensures { ParsesStrictly N.kind N.value self.now text.now result }
    {
        self.parse_any(text.as_bytes(), true)
    }

    /// Returns the number for which the text of these bytes is canonical, or the first cause for which they are
    /// refused.
    ///
    /// ```rust
    /// let parser = StrictParser::new(&Locale::en)?;
    /// parser.parse_bytes::<i32>(b"1\xFF")    // Err(NotUtf8)
    /// ```
    ///
    /// The errors are those of [`from_strict_bytes`](FromFormattedStr::from_strict_bytes), but for `AmbiguousFormat`.
    #[inline(always)]
    pub fn parse_bytes<N: FromFormattedStr>(&self, bytes: &[u8]) -> Result<N, StrictError>
        ensures { ParsesStrictly N.kind N.value self.now bytes.now result }
    {
        self.parse_any(bytes, false)
    }

    /// Returns the number for which the text of these bytes is canonical, or `None` if they are refused. It looks for
    /// no cause.
    ///
    /// ```rust
    /// let parser = StrictParser::new(&Locale::en)?;
    /// parser.number::<i32>(b"-1,000")    // Some(-1000)
    /// parser.number::<i32>(b"1,23")      // None
    /// ```
    #[inline(always)]
    pub fn number<N: FromFormattedStr>(&self, bytes: &[u8]) -> Option<N>
        ensures { MatchOption result ((e : StrictError) × ParsesStrictly N.kind N.value self.now bytes.now (Err e))
            (λ n. ParsesStrictly N.kind N.value self.now bytes.now (Ok n)) }
    {
        let sign = self.sign(bytes);
        match self.read::<N>(bytes, sign) {
            Reading::Number(magnitude) => match number_of(sign, magnitude) {
                Ok(number) => Some(number),
                Err(_) => None,
            },
            Reading::TooLarge => None,
            Reading::NotCanonical => None,
        }
    }

    /// Returns the sign of a text.
    #[inline(always)]
    pub fn sign(&self, text: &[u8]) -> Sign
        ensures { HasSign self.now text.now result.is_negative result.len }
    {
        // The getter's contract says that the separator is UTF-8.
        self.separator();
        sign_of(text, self.minus_sign)
    }

    /// Returns the separator, or nothing where the grouping prints none.
    #[inline(always)]
    pub fn separator(&self) -> &'a str
        ensures same { result.now ≡ printed_separator self.now.grouping self.now.separator }
    {
        self.separator
    }

    /// Returns the minus sign.
    #[inline(always)]
    pub fn minus_sign(&self) -> &'a str
        ensures { result.now ≡ self.now.minus_sign }
    {
        self.minus_sign
    }

    /// Returns the grouping of the format.
    #[inline(always)]
    fn grouping(&self) -> Grouping
        ensures { result ≡ self.now.grouping }
    {
        self.grouping
    }

    /// Returns the number for which the text of the bytes is canonical, or the first cause for which it is refused.
    ///
    /// Where the caller knows that the bytes are UTF-8, that is not tested again.
    #[inline(always)]
    pub(crate) fn parse_any<N: Sealed>(&self, bytes: &[u8], is_text: bool) -> Result<N, StrictError>
        requires { IsTrue is_text → IsUtf8 bytes.now }
        ensures { ParsesStrictly N.kind N.value self.now bytes.now result }
    {
        let sign = self.sign(bytes);
        match self.read::<N>(bytes, sign) {
            Reading::Number(magnitude) => number_of(sign, magnitude),
            Reading::TooLarge => Err(StrictError::OutOfRange),
            Reading::NotCanonical => {
                Err(cause(bytes, is_text, sign.len, self.separator().as_bytes()))
            }
        }
    }

    /// Returns what is read of a text of this sign. It looks for no cause.
    #[inline(always)]
    pub fn read<N: Sealed>(&self, text: &[u8], sign: Sign) -> Reading
        requires { HasSign self.now text.now sign.is_negative sign.len }
        ensures { HasReading N.kind self.now text.now sign.is_negative result }
    {
        match self.read_directly(text, sign) {
            Some(magnitude) => Reading::Number(magnitude as u128),
            None => read::<N>(text, sign, self.separator(), self.grouping()),
        }
    }

    /// Returns the absolute value of the number for which a text is canonical. It may return `None` for any text, and
    /// does not for most that people write.
    #[inline(always)]
    fn read_directly(&self, text: &[u8], sign: Sign) -> Option<u64>
        requires { HasSign self.now text.now sign.is_negative sign.len }
        ensures { IfSome result (λ n. IsCanonical self.now text.now (signed_number sign.is_negative n)) }
    {
        if text.len() <= SHORT_LEN {
            return read_short(text, sign);
        }
        read_in_groups(text, sign, self.separator, self.grouping)
    }
}

/// Returns the number of that sign and absolute value, if it is a value of the type.
#[inline(always)]
fn number_of<N: Sealed>(sign: Sign, magnitude: u128) -> Result<N, StrictError>
    ensures { (f : FormatData) (t : List ℕ) → HasSign f t sign.is_negative sign.len
        → IsCanonical f t (signed_number sign.is_negative magnitude)
        → IsJudged N.kind N.value f t result }
{
    match N::from_sign_and_magnitude(sign.is_negative, magnitude) {
        Some(number) => Ok(number),
        None => Err(StrictError::OutOfRange),
    }
}
