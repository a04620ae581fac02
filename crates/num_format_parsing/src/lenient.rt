//! How a text is parsed as the number that it denotes: as a text that is canonical for a number, and else by all of its
//! digits.
ghost use Rattle.std.specs.Prelude.{◌≡◌, ◌-◌, if◌then◌else◌, IsTrue, IsUtf8};
ghost use Rattle.num_format_text.specs.Cut.{cut_text};
ghost use Rattle.num_format_text.specs.Format.{FormatData};
ghost use Rattle.num_format_text.specs.Refusal.{refusal_of, ParseNumber};
ghost use Rattle.num_format_parsing.specs.declared.error.ParseBytesError.TheVariants.{NotUtf8, NotANumber};
ghost use Rattle.num_format_int.specs.Kind.{IsWithin};
ghost use Rattle.num_format_parsing.specs.Reading.{ParsesBytes};

use crate::accumulator::Accumulator;
use crate::bytes::{count_digits, is_prefix, is_utf8};
use crate::error::{ParseBytesError, StrictError};
use crate::groups::exact_number;
use crate::parsing::FromFormattedStr;
use crate::reading::Reading;
use crate::strict::{parse_strict, read_canonical, read_few};
use crate::symbols::has_other_numeral;
use num_format_int::sealed::Sealed;
use num_format_text::error::cut;
use num_format_text::{Error, ErrorKind, Format};

impl<N: Sealed> FromFormattedStr for N {
    fn from_formatted_str<F: Format>(text: &str, format: &F) -> Result<N, Error> {
        match parse(text.as_bytes(), true, format) {
            Some(number) => Ok(number),
            None => Err(refused(text)),
        }
    }

    fn from_formatted_bytes<F: Format>(bytes: &[u8], format: &F) -> Result<N, ParseBytesError> {
        match parse(bytes, false, format) {
            Some(number) => Ok(number),
            None => Err(bytes_error(bytes)),
        }
    }

    fn from_strict_str<F: Format>(text: &str, format: &F) -> Result<N, StrictError> {
        parse_strict(text.as_bytes(), true, format)
    }

    fn from_strict_bytes<F: Format>(bytes: &[u8], format: &F) -> Result<N, StrictError> {
        parse_strict(bytes, false, format)
    }
}

/// Returns why bytes were not parsed, which are not UTF-8 or a text that is refused.
#[cold]
#[inline(never)]
fn bytes_error(bytes: &[u8]) -> ParseBytesError
    ensures not_utf8 { result ≡ NotUtf8 → ¬ (IsUtf8 bytes.now) }
    ensures refused { result ≡ NotANumber → IsUtf8 bytes.now }
{
    match str::from_utf8(bytes) {
        Ok(_) => ParseBytesError::NotANumber,
        Err(_) => ParseBytesError::NotUtf8,
    }
}

/// Returns the error of a text that is refused.
///
/// It is `#[inline]`, so that its error is made in its place: as the result of a call it would be copied. And a
/// function clears the space of its locals where it begins, so the space of the error is cleared where a text is
/// refused, and not on every call. With `#[inline(always)]` the compiler keeps another copy of the error.
#[inline]
fn refused(text: &str) -> Error
    ensures { refusal_of result ≡ ParseNumber (cut_text text.now) }
{
    Error::from(ErrorKind::ParseNumber(cut(text)))
}

/// Returns the number that the text of the bytes denotes, or `None` if the bytes are not UTF-8 or the
/// text is refused.
#[inline(always)]
fn parse<F: Format, N: Sealed>(bytes: &[u8], is_text: bool, format: &F) -> Option<N>
    requires { IsTrue is_text → IsUtf8 bytes.now }
    ensures { ParsesBytes N.kind N.value (F.answers format.now) bytes.now result }
{
    // The most digits of a type are those of its longest value.
    N::limit();
    let minus_sign = format.minus_sign().into_str();
    if let Some((sign, magnitude)) = read_few(bytes, minus_sign, format) {
        return N::from_sign_and_magnitude(sign.is_negative, magnitude as u128);
    }
    let (is_negative, reading) = read_canonical::<N, F>(bytes, minus_sign, format);
    match reading {
        Reading::Number(magnitude) => N::from_sign_and_magnitude(is_negative, magnitude),
        Reading::TooLarge => None,
        Reading::NotCanonical => parse_by_digits(bytes, is_text, minus_sign),
    }
}

/// Does the same for a text that is canonical for no number, where the format has this minus sign.
///
/// Whether a type is wide is known where the code is compiled, so one branch is left. The space of the call's result is
/// this function's, so that it is cleared for such texts alone.
#[inline(always)]
fn parse_by_digits<N: Sealed>(bytes: &[u8], is_text: bool, minus_sign: &str) -> Option<N>
    requires { IsTrue is_text → IsUtf8 bytes.now }
    ensures { (f : FormatData) → minus_sign.now ≡ f.minus_sign → ParsesBytes N.kind N.value f bytes.now result }
{
    if N::is_wide() {
        parse_any::<N, u128>(bytes, is_text, minus_sign)
    } else {
        parse_any::<N, u64>(bytes, is_text, minus_sign)
    }
}

/// Returns the number that the text of any bytes denotes, by the accumulator, where the format has this minus sign.
///
/// It is a function of its own, so that other texts are parsed without its space.
#[inline(never)]
fn parse_any<N: Sealed, A: Accumulator>(bytes: &[u8], is_text: bool, minus_sign: &str) -> Option<N>
    requires utf8 { IsTrue is_text → IsUtf8 bytes.now }
    requires within { IsWithin A.bound N.kind }
    ensures { (f : FormatData) → minus_sign.now ≡ f.minus_sign → ParsesBytes N.kind N.value f bytes.now result }
{
    let digit_count = count_digits(bytes);
    if digit_count == 0 || !is_utf8(bytes, is_text) {
        return None;
    }
    let is_negative = is_prefix(bytes, minus_sign.as_bytes());
    if digit_count > most_digits::<N>(is_negative) {
        return None;
    }
    if has_other_numeral(unsafe { str::from_utf8_unchecked(bytes) }) {
        return None;
    }
    let magnitude = exact_number::<A>(bytes)?.number();
    N::from_sign_and_magnitude(is_negative, magnitude)
}

/// Returns the most digits of a text that is parsed, of which a minus sign counts as one.
#[inline]
fn most_digits<N: Sealed>(is_negative: bool) -> usize
    ensures { result ≡ N.kind.limit - (if is_negative then 1 else 0) }
{
    N::limit().saturating_sub(is_negative as usize)
}
