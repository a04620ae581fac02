//! Negative numbers as accountants and banks write them: in parentheses, or with the minus sign at the end.
ghost use Rattle.std.specs.Prelude.{◌≡◌, ◌<◌, ◌≤◌, ◌+◌, ◌++◌, IfSome, MatchOption, None, Some, length, take};
ghost use Rattle.std.specs.Int.{is_in_range};
ghost use Rattle.std.specs.List.{list_any};
ghost use Rattle.num_format_affixes.specs.Accounting.{AccountingResult, IsNegative, is_in_parentheses, is_zero};
ghost use Rattle.num_format_affixes.specs.Accounting.{marks_of, message_of, minus_len, second_sign, sign_len};
ghost use Rattle.num_format_affixes.specs.Accounting.{signed_text};

use crate::parts::Parts;
use crate::side::Side;
use std::fmt;

/// The bytes of the character U+2212.
const MINUS_SIGN: [u8; 3] = [0xE2, 0x88, 0x92];

/// Why a text is refused as that of a negative number.
#[derive(Clone, Copy, Debug, PartialEq, Eq)]
pub enum AccountingError {
    /// What is in the parentheses, or before the minus sign at the end, begins or ends with a sign itself: a minus
    /// sign, a plus sign or a parenthesis.
    SecondSign {
        /// The number of bytes before that sign.
        at: usize,
    },
}

/// Returns the parts of a text that writes a negative number as accountants do, or `None` if it does not. Such a text
/// may have a minus sign in front, which parsers take.
///
/// The text is in parentheses, or ends with a minus sign: that of the format, which is passed, `-` or U+2212. Blanks
/// inside the parentheses or before that sign, as beside [`Affixes`](crate::Affixes), are not part of the number's own
/// text. Blanks around the whole text are not dropped, so trim it first where they may be there.
///
/// ```rust
/// str::from_utf8(accounting(b"( 1,000 )", "-")?.unwrap().inner)    // Ok("1,000")
/// str::from_utf8(accounting(b"1,000 -", "-")?.unwrap().after)      // Ok(" -")
/// accounting(b"-1,000", "-")?                                      // None
/// accounting(b"(-1,000)", "-").err()                               // Some(SecondSign { at: 1 })
/// ```
///
/// # Errors
///
/// A text with a second sign is refused, as `-5-`, `(5)-` and `(+5)` are.
pub fn accounting<'t>(
    text: &'t [u8],
    minus_sign: &str,
) -> Result<Option<Parts<'t>>, AccountingError>
    ensures { AccountingResult minus_sign.now text.now result }
{
    let Some(parts) = negative_parts(text, minus_sign) else {
        return Ok(None);
    };
    match second_sign(parts.inner, minus_sign) {
        Some(place) => Err(AccountingError::SecondSign {
            at: parts.before.len() + place,
        }),
        None => Ok(Some(parts)),
    }
}

/// Returns the parts of a text in parentheses or with a minus sign at its end.
fn negative_parts<'t>(text: &'t [u8], minus_sign: &str) -> Option<Parts<'t>>
    ensures { MatchOption result (marks_of minus_sign.now text.now ≡ None)
        (λ parts. IsNegative minus_sign.now text.now parts) }
{
    if is_in_parentheses(text) {
        let rest = Side::Start.strip(Some(1), text);
        return Some(Parts::around(text, rest, Side::End.strip(Some(1), rest)));
    }
    let sign = minus_len(Side::End, minus_sign, text);
    sign?;
    Some(Parts::around(text, text, Side::End.strip(sign, text)))
}

/// Returns whether a text begins with a parenthesis and ends with another one.
fn is_in_parentheses(text: &[u8]) -> bool
    ensures { result ≡ is_in_parentheses text.now }
{
    Side::Start.has(b"(", text) && Side::End.has(b")", Side::Start.without(1, text))
}

/// Returns how many bytes the minus sign has that is at an end of a text, if one is.
fn minus_len(side: Side, minus_sign: &str, text: &[u8]) -> Option<usize>
    ensures { result ≡ minus_len side minus_sign.now text.now }
{
    if !minus_sign.is_empty() && side.has(minus_sign.as_bytes(), text) {
        Some(minus_sign.len())
    } else if side.has(b"-", text) {
        Some(1)
    } else if side.has(&MINUS_SIGN, text) {
        Some(MINUS_SIGN.len())
    } else {
        None
    }
}

/// Returns how many bytes the sign has that is at an end of a text, if one is.
fn sign_len(side: Side, minus_sign: &str, text: &[u8]) -> Option<usize>
    ensures { result ≡ sign_len side minus_sign.now text.now }
{
    if side.has(b"+", text) || side.has(b"(", text) || side.has(b")", text) {
        Some(1)
    } else {
        minus_len(side, minus_sign, text)
    }
}

/// Returns how many bytes of a text are before the sign with which it begins or ends, if it does.
fn second_sign(text: &[u8], minus_sign: &str) -> Option<usize>
    ensures value { result ≡ second_sign minus_sign.now text.now }
    ensures within { IfSome result (λ place. place ≤ length text.now) }
{
    if sign_len(Side::Start, minus_sign, text).is_some() {
        return Some(0);
    }
    let len = sign_len(Side::End, minus_sign, text)?;
    Some(text.len().saturating_sub(len))
}

/// Writes the text of a negative number for a parser, its minus sign and then its own text, to the start of an array,
/// and returns it, or `None` if the array has fewer bytes than both. No text of a number has more than 199 bytes.
///
/// So the least value of a type is parsed, whose own text is no value of the type. A zero has no minus sign, so a text
/// with the digit `0` and none of `1` to `9` is returned without: pass texts with the digits `0` to `9`. A place in the
/// text that is returned counts the bytes of the minus sign, and not those before the number.
///
/// ```rust
/// let mut array = [0; 199];
/// let text = signed_text("-", b"9,223,372,036,854,775,808", &mut array).unwrap();
/// i64::from_strict_bytes(text, &Locale::en)                           // Ok(-9223372036854775808)
/// str::from_utf8(signed_text("-", b"0.00", &mut array).unwrap())      // Ok("0.00")
/// signed_text("-", b"5", &mut [0; 1])                                 // None
/// ```
pub fn signed_text<'s>(minus_sign: &str, number: &[u8], array: &'s mut [u8]) -> Option<&'s [u8]>
    ensures { MatchOption result (length array.old < length (signed_text minus_sign.now number.now))
        (λ text. text.now ≡ signed_text minus_sign.now number.now) }
{
    let start = if is_zero(number) {
        0
    } else {
        put(minus_sign.as_bytes(), 0, array)?
    };
    let end = put(number, start, array)?;
    let written = &array[..];
    Some(&written[..end])
}

/// Writes bytes after so many of an array, and returns their number then, or `None` if they do not fit.
fn put(bytes: &[u8], len: usize, array: &mut [u8]) -> Option<usize>
    requires { len ≤ length array.old }
    ensures text { MatchOption result (length array.old < len + length bytes.now)
        (λ end. (end ≤ length array.new) × (take end array.new ≡ take len array.old ++ bytes.now)) }
    ensures length { length array.new ≡ length array.old }
{
    if array.len() - len < bytes.len() {
        return None;
    }
    let end = len + bytes.len();
    array[len..end].copy_from_slice(bytes);
    Some(end)
}

/// Returns whether a text has the digit `0`, and none of `1` to `9`.
fn is_zero(text: &[u8]) -> bool
    ensures { result ≡ is_zero text.now }
{
    text.contains(&b'0') && !has_nonzero_digit(text)
}

/// Returns whether a text has a digit `1` to `9`.
fn has_nonzero_digit(text: &[u8]) -> bool
    ensures { result ≡ list_any (is_in_range 49 57) text.now }
{
    text.iter().any(|byte| matches!(byte, b'1'..=b'9'))
}

impl fmt::Display for AccountingError {
    ghost output = { λ error. Some (message_of error) };

    ghost styled_output = { λ error _. Some (message_of error) };

    fn fmt<W: fmt::Write>(&self, f: &mut fmt::Formatter<W>) -> fmt::Result {
        match self {
            AccountingError::SecondSign { .. } => f.write_str("The text has two signs."),
        }
    }
}

impl std::error::Error for AccountingError {}
