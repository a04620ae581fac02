//! What is read of a text of any length whose sign and symbols are known.
ghost use Rattle.std.specs.Prelude.{◌≡◌, Bool, [], ◌^◌, ◌≤◌, length};
ghost use Rattle.num_format_text.specs.Format.{FormatData};
ghost use Rattle.num_format_int.specs.Grouped.{printed_separator};
ghost use Rattle.num_format_int.specs.Kind.{IsValueOf, signed_number};
ghost use Rattle.num_format_parsing.specs.Parts.{HasBody, HasReading};
ghost use Rattle.num_format_parsing.specs.Shapes.{BeginsWithDigit, HasSign, byte_digits};

use crate::accumulator::{Accumulator, SAFE_DIGITS};
use crate::bytes::begins_with_digit;
use crate::groups::{LONGEST_GROUPS, exact_number, read_text};
use crate::symbols::Sign;
use num_format_int::sealed::Sealed;
use num_format_text::Grouping;

/// What was read of a text.
#[derive(Clone, Copy)]
pub enum Reading {
    /// The text is canonical for a number, whose absolute value this is.
    Number(u128),
    /// The text is canonical for a number that is no value of the type.
    TooLarge,
    /// The text is canonical for no number.
    NotCanonical,
}

/// Returns what is read of a text.
#[inline(always)]
pub(crate) fn read<N: Sealed>(
    text: &[u8],
    sign: Sign,
    separator: &str,
    grouping: Grouping,
) -> Reading
    requires within { sign.len ≤ length text.now }
    requires plain { byte_digits separator.now ≡ [] }
    ensures { (f : FormatData) → HasSign f text.now sign.is_negative sign.len
        → separator.now ≡ printed_separator f.grouping f.separator → grouping ≡ f.grouping
        → HasReading N.kind f text.now sign.is_negative result }
{
    let body = &text[sign.len..];
    if begins_with_digit(body) {
        return read_body::<N>(body, separator, grouping);
    }
    if text.len() != 1 {
        return Reading::NotCanonical;
    }
    let byte = text[0];
    if byte != b'0' {
        return Reading::NotCanonical;
    }
    Reading::Number(0)
}

/// Returns what is read of a text that begins with a digit other than zero.
///
/// Most texts are short: their digits fit 64 bits, which take less time than 128. Whether a type is wide is
/// known where the code is compiled.
#[inline(always)]
fn read_body<N: Sealed>(text: &[u8], separator: &str, grouping: Grouping) -> Reading
    requires begin { BeginsWithDigit text.now }
    requires plain { byte_digits separator.now ≡ [] }
    ensures { HasBody (λ n. (negative : Bool) → ¬ (IsValueOf N.kind (signed_number negative n)))
        grouping separator.now text.now result }
{
    if !N::is_wide() {
        return read_by::<u64>(text, separator, grouping);
    }
    if !seems_wide(text) {
        match read_by::<u64>(text, separator, grouping) {
            Reading::Number(magnitude) => return Reading::Number(magnitude),
            Reading::TooLarge => {}
            Reading::NotCanonical => return Reading::NotCanonical,
        }
    }
    read_wide(text, separator, grouping)
}

/// Returns whether a text seems to have more digits than fit 64 bits. One with a separator before its last three digits
/// has so many only if it has more than [`LONGEST_GROUPS`] bytes.
#[inline(always)]
fn seems_wide(bytes: &[u8]) -> bool {
    let len = bytes.len();
    len > SAFE_DIGITS && (len > LONGEST_GROUPS || bytes[len - 4].is_ascii_digit())
}

/// Returns what is read of a text of any length. It is a function of its own, so that shorter texts are parsed without
/// its space.
#[inline(never)]
fn read_wide(text: &[u8], separator: &str, grouping: Grouping) -> Reading
    requires begin { BeginsWithDigit text.now }
    requires plain { byte_digits separator.now ≡ [] }
    ensures { HasBody (λ n. 2 ^ 128 ≤ n) grouping separator.now text.now result }
{
    read_by::<u128>(text, separator, grouping)
}

/// Returns what is read of a text by way of the accumulator. A number past its bound is too large.
#[inline]
fn read_by<A: Accumulator>(text: &[u8], separator: &str, grouping: Grouping) -> Reading
    requires begin { BeginsWithDigit text.now }
    requires plain { byte_digits separator.now ≡ [] }
    ensures { HasBody (λ n. A.bound ≤ n) grouping separator.now text.now result }
{
    let Some(whole) = read_text::<A>(text, separator, grouping) else {
        return Reading::NotCanonical;
    };
    if whole.digit_count <= A::safe_digits() {
        return Reading::Number(whole.magnitude.number());
    }
    match exact_number::<A>(text) {
        Some(magnitude) => Reading::Number(magnitude.number()),
        None => Reading::TooLarge,
    }
}
