//! The messages that name faults.
ghost use Rattle.std.specs.Prelude.{◌≡◌, ◌≤◌, ◌<◌, ◌+◌, ◌%◌, ◌++◌, ◌∷◌, [], length};
ghost use Rattle.std.specs.Str.{chars};
ghost use Rattle.num_format.specs.Refusal.{refusal_of};
ghost use Rattle.arrayvec.specs.ArrayString.{array_string_len};
ghost use Rattle.regroup_faults.specs.Fault.{fault_of};
ghost use Rattle.regroup_faults.specs.Decimals.{typed_read};
ghost use Rattle.regroup_faults.specs.Quoting.{hex_digit};
ghost use Rattle.regroup_faults.specs.Messages.{cause, char_after, code_point, displayed, fault_message, few_text};
ghost use Rattle.regroup_faults.specs.Messages.{field_cause, other_text, why_in_digits, why_placed, why_read};
ghost use Rattle.regroup_faults.specs.Messages.{first_change, header_hint, high_digits, hint, is_word, kept_in};
ghost use Rattle.regroup_faults.specs.Messages.{line_message, lost_text, low_digits, met_text, refused_in};
ghost use Rattle.regroup_faults.specs.Messages.{why_changed, why_in, why_meant, why_not, why_refused, why_strict};
ghost use Rattle.regroup_faults.specs.Messages.{refused_text, why_scaled, why_text, why_unparsed, why_untyped};
ghost use Rattle.regroup_faults.specs.Reading.{parsed_by, scaled};
ghost use Rattle.num_format_digits.specs.Digits.{shown};
ghost use Rattle.num_format_digits.specs.Parsing.{place_in};

use crate::fault::{FieldCount, RegroupFault};
use crate::notation::Notation;
use crate::quoting::{MAX_QUOTED_LEN, hex_digit, quoted, shown};
use crate::scale::Scale;
use crate::{Parsing, Reading};
use arrayvec::ArrayString;
use num_format::laws::format_data;
use num_format::parsing::{FromFormattedStr, StrictError};
use num_format::{Error, ErrorKind, Format};
use num_format_decimal::{Decimal, DecimalBuffer, DecimalError, MAX_DECIMAL_LEN};
use num_format_digits::{Digits, DigitsError};
use num_format_rewriting::{bytes_within, split_first};
use num_format_typed::{TypedError, parse_typed_decimal};
use std::str;

/// The most bytes of what is shown of a name: four for each of its bytes.
pub const MAX_NAME_LEN: usize = 1024;

/// The most bytes of `U+` and a code point.
const MAX_CODE_POINT_LEN: usize = 8;

/// The most bytes of why a text is not a number: words, a number and two code points.
const MAX_WHY_LEN: usize = 96 + 2 * MAX_CODE_POINT_LEN;

/// The most bytes of what is said of a text that is not a number.
const MAX_REFUSED_TEXT_LEN: usize = MAX_QUOTED_LEN + MAX_WHY_LEN;

/// The most bytes of what is said of a fault: `field `, a number and `: ` may be before what is said of a text.
pub(crate) const MAX_CAUSE_LEN: usize = 30 + MAX_REFUSED_TEXT_LEN;

/// The most bytes of a cause after the number of its line.
pub const MAX_DISPLAYED_LEN: usize = MAX_CAUSE_LEN + 30;

/// The most bytes that a message has besides a name, a cause and a hint.
const MAX_ADDED_LEN: usize = 64;

/// The most bytes of a hint.
const MAX_HINT_LEN: usize = 32;

/// The fewest bytes that an error keeps of a text that it cuts: at most 256, and a character has at most four.
const MIN_CUT_LEN: usize = 253;

/// The most bytes of a message that names a fault.
pub const MAX_FAULT_MESSAGE_LEN: usize = MAX_NAME_LEN
    + MAX_CAUSE_LEN
    + MAX_HINT_LEN
    + MAX_ADDED_LEN;

/// What is known of why a text is not a number.
#[derive(Clone, Copy)]
pub(crate) enum Why {
    /// Nothing that is said.
    Unknown,
    /// So many bytes are before an unexpected one.
    Unexpected(usize),
    /// No byte is unexpected, but it is not as its number is printed.
    Misspelled,
    /// With the format's own characters it has more bytes than the text of any number.
    TooLong,
    /// So many bytes are before this numeral, which is no digit of the set.
    OtherNumeral(usize, char),
    /// So many bytes are before an unexpected one, where a person typed the first character for the second, which the
    /// format has.
    Typed(usize, char, char),
    /// It is a number, but none with so many decimals, by this error.
    NotScaled(u8, DecimalError),
}

/// A text of these parts, one after the other, which fit.
macro_rules! joined {
    ($($part:expr),+) => {{
        let mut text = ArrayString::new();
        $(text.push_str($part);)+
        text
    }};
}

/// Returns the message that names the fault of a line, with a newline, in an input of this name that is read in the
/// notation. It is empty for a fault that no line has. It ends with a hint for bytes that are not UTF-8, and for a text
/// without a digit in the first line, which may be a header.
///
/// ```rust
/// let fault = RegroupFault::TooLong(7, 4096);
/// let from = Notation::latin(&Locale::en);
/// let reading = Reading { parsing: Parsing::Strict, scale: None };
/// fault_message("x.tsv", reading, &fault, &from)    // "regroup-lines: x.tsv:7: more than 4096 bytes\n"
/// ```
pub fn fault_message<F: Format>(
    name: &str,
    reading: Reading,
    fault: &RegroupFault,
    from: &Notation<'_, F>,
) -> ArrayString<MAX_FAULT_MESSAGE_LEN>
    ensures { result.bytes ≡ fault_message name.now reading from.now (fault_of fault.now) }
{
    let why = why_not(reading, refused_in(fault), from);
    line_message(name, fault.line(), cause(fault, why).as_str(), hint(fault))
}

/// Returns what may help with a line at fault, or nothing.
fn hint(fault: &RegroupFault) -> &'static str
    ensures text { result.now ≡ hint (fault_of fault.now) }
    ensures len { length result.now ≤ MAX_HINT_LEN }
{
    match fault {
        RegroupFault::NotText(_) | RegroupFault::FieldNotText(..) => ": see iconv(1)",
        RegroupFault::Line(number, error) | RegroupFault::Field(number, _, error) => {
            header_hint(*number, kept_in(error))
        }
        _ => "",
    }
}

/// Returns the question whether a text in the line of this number is of a header.
fn header_hint(number: u64, text: &str) -> &'static str
    ensures text { result.now ≡ header_hint number text.now }
    ensures len { length result.now ≤ MAX_HINT_LEN }
{
    if number == 1 && is_word(text) {
        ": a header? see --header"
    } else {
        ""
    }
}

/// Returns whether a text has bytes, and no digit.
fn is_word(text: &str) -> bool
    ensures { result ≡ is_word text.now }
{
    !text.is_empty() && Digits::of_text(text).is_none()
}

/// Returns what is said of a fault: of a text that is not a number also why.
pub(crate) fn cause(fault: &RegroupFault, why: Why) -> ArrayString<MAX_CAUSE_LEN>
    ensures { result.bytes ≡ cause why (fault_of fault.now) }
{
    match fault {
        RegroupFault::TooMany => joined!("more lines than are allowed"),
        RegroupFault::TooLong(_, max_line_len) => joined!(
            "more than ",
            itoa::Buffer::new().format(*max_line_len),
            " bytes"
        ),
        RegroupFault::FewFields(_, count) => few_text(*count),
        RegroupFault::Read => joined!("failed to read"),
        RegroupFault::NotText(_) => joined!("not UTF-8"),
        RegroupFault::FieldNotText(_, field) => field_cause(*field, "not UTF-8"),
        RegroupFault::Line(_, error) => joined!(refused_text(kept_in(error), why).as_str()),
        RegroupFault::Field(_, field, error) => {
            field_cause(*field, refused_text(kept_in(error), why).as_str())
        }
        RegroupFault::Unclosed(_) => joined!("unclosed quote"),
        RegroupFault::Write => joined!("failed to write"),
        RegroupFault::Report => joined!("failed to write a message"),
        RegroupFault::Reject => joined!("failed to write a rejected line"),
        RegroupFault::Flush => joined!("failed to flush"),
    }
}

/// Returns the text that is not a number, if that is the fault.
fn refused_in(fault: &RegroupFault) -> &str
    ensures { result.now ≡ refused_in (fault_of fault.now) }
{
    match fault {
        RegroupFault::Line(_, error) | RegroupFault::Field(_, _, error) => kept_in(error),
        _ => "",
    }
}

/// Returns a cause after the number of its line, if there is one.
pub(crate) fn displayed(line: Option<u64>, cause: &str) -> ArrayString<MAX_DISPLAYED_LEN>
    requires { length cause.now ≤ MAX_CAUSE_LEN }
    ensures { result.bytes ≡ displayed line cause.now }
{
    match line {
        None => joined!(cause),
        Some(number) => joined!("line ", itoa::Buffer::new().format(number), ": ", cause),
    }
}

/// Returns what is said of a line with too few fields.
fn few_text(count: FieldCount) -> ArrayString<MAX_CAUSE_LEN>
    ensures { result.bytes ≡ few_text count }
{
    joined!(
        "too few fields: ",
        itoa::Buffer::new().format(count.found),
        " of ",
        itoa::Buffer::new().format(count.wanted),
        ", separated by ",
        quoted(&[count.delimiter]).as_str()
    )
}

/// Returns a message with the name of the input and the number of a line before the cause and the hint, or nothing
/// where no line is at fault.
fn line_message(
    name: &str,
    line: Option<u64>,
    cause: &str,
    hint: &str,
) -> ArrayString<MAX_FAULT_MESSAGE_LEN>
    requires cause { length cause.now ≤ MAX_CAUSE_LEN }
    requires hint { length hint.now ≤ MAX_HINT_LEN }
    ensures { result.bytes ≡ line_message name.now line cause.now hint.now }
{
    match line {
        None => ArrayString::new(),
        Some(number) => joined!(
            "regroup-lines: ",
            shown::<MAX_NAME_LEN>(name.as_bytes()).as_str(),
            ":",
            itoa::Buffer::new().format(number),
            ": ",
            cause,
            hint,
            "\n"
        ),
    }
}

/// Returns what is said of the field of this number.
fn field_cause(field: u64, text: &str) -> ArrayString<MAX_CAUSE_LEN>
    requires { length text.now ≤ MAX_REFUSED_TEXT_LEN }
    ensures { result.bytes ≡ field_cause field text.now }
{
    joined!("field ", itoa::Buffer::new().format(field), ": ", text)
}

/// Returns what is said of a text that is not a number.
fn refused_text(text: &str, why: Why) -> ArrayString<MAX_REFUSED_TEXT_LEN>
    ensures { result.bytes ≡ refused_text why text.now }
{
    joined!(quoted(text.as_bytes()).as_str(), why_text(why).as_str())
}

/// Returns why a text is not a number. A place is counted from 1.
fn why_text(why: Why) -> ArrayString<MAX_WHY_LEN>
    ensures { result.bytes ≡ why_text why }
{
    match why {
        Why::Unknown => joined!(": not a number"),
        Why::Unexpected(before) => joined!(
            ": not a number at byte ",
            itoa::Buffer::new().format(before as u128 + 1)
        ),
        Why::Misspelled => joined!(": not as it is printed"),
        Why::TooLong => joined!(": longer than any number"),
        Why::OtherNumeral(before, met) => other_text(before, met),
        Why::Typed(before, met, wanted) => met_text(
            itoa::Buffer::new().format(before as u128 + 1),
            code_point(met).as_str(),
            code_point(wanted).as_str(),
        ),
        Why::NotScaled(decimals, error) => joined!(
            lost_text(error),
            " with --decimals ",
            itoa::Buffer::new().format(decimals)
        ),
    }
}

/// Returns what is said of a number that has no such scale.
fn lost_text(error: DecimalError) -> &'static str
    ensures text { result.now ≡ lost_text error }
    ensures len { length result.now ≤ MAX_HINT_LEN }
{
    match error {
        DecimalError::ScaleTooLarge => ": more than 38 decimals",
        DecimalError::DigitsLost => ": digits would be lost",
        DecimalError::OutOfRange => ": out of range",
    }
}

/// Returns what is said of a numeral that is no digit of the set.
fn other_text(before: usize, met: char) -> ArrayString<MAX_WHY_LEN>
    ensures { result.bytes ≡ other_text before met }
{
    joined!(
        ": not a number at byte ",
        itoa::Buffer::new().format(before as u128 + 1),
        ": ",
        code_point(met).as_str(),
        " is no digit of FROM"
    )
}

/// Returns what is said where a character was typed for one of the format.
fn met_text(at: &str, met: &str, wanted: &str) -> ArrayString<MAX_WHY_LEN>
    requires at { length at.now ≤ 40 }
    requires met { length met.now ≤ MAX_CODE_POINT_LEN }
    requires wanted { length wanted.now ≤ MAX_CODE_POINT_LEN }
    ensures { result.bytes ≡ met_text at.now met.now wanted.now }
{
    joined!(
        ": not a number at byte ",
        at,
        ": ",
        met,
        ", where FROM has ",
        wanted,
        ": see --typed"
    )
}

/// Returns a character's code point, in four digits of base 16 or six.
fn code_point(c: char) -> ArrayString<MAX_CODE_POINT_LEN>
    ensures { result.bytes ≡ code_point c }
{
    let n = c as u32;
    joined!("U+", high_digits(n).as_str(), low_digits(n).as_str())
}

/// Returns the two digits of base 16 before the last four, if a number has more than these.
fn high_digits(n: u32) -> ArrayString<2>
    ensures { result.bytes ≡ high_digits n }
{
    let mut text = ArrayString::new();
    if n < 0x1_0000 {
        return text;
    }
    push_digit(&mut text, n / 0x10_0000);
    push_digit(&mut text, n / 0x1_0000);
    text
}

/// Returns the last four digits of base 16.
fn low_digits(n: u32) -> ArrayString<4>
    ensures { result.bytes ≡ low_digits n }
{
    let mut text = ArrayString::new();
    push_digit(&mut text, n / 0x1000);
    push_digit(&mut text, n / 0x100);
    push_digit(&mut text, n / 0x10);
    push_digit(&mut text, n);
    text
}

/// Appends the last digit of a number of base 16.
#[tactic(auto, using(std::proofs::lemmas::Str::encode_ascii))]
fn push_digit<const CAP: usize>(text: &mut ArrayString<CAP>, n: u32)
    requires { array_string_len text.old < CAP }
    ensures bytes { text.new.bytes ≡ text.old.bytes ++ hex_digit (n % 16) ∷ [] }
    ensures len { array_string_len text.new ≡ array_string_len text.old + 1 }
{
    text.push(hex_digit((n % 16) as u8) as char);
}

/// Returns the text that an error keeps, if it keeps one.
fn kept_in(error: &Error) -> &str
    ensures { result.now ≡ kept_in (refusal_of error.now) }
{
    match error.kind() {
        ErrorKind::ParseNumber(text) => text.as_str(),
        ErrorKind::ParseLocale(name) => name.as_str(),
        ErrorKind::Other(message) => message.as_str(),
        ErrorKind::Capacity { .. } => "",
    }
}

/// Returns why a text is not a number. Nothing is known of one that may have been cut.
fn why_not<F: Format>(reading: Reading, text: &str, from: &Notation<'_, F>) -> Why
    ensures { result ≡ why_not reading from.now text.now }
{
    if text.len() >= MIN_CUT_LEN {
        return Why::Unknown;
    }
    if from.digits.is_latin() {
        return why_read(reading, text, from.format);
    }
    why_in_digits(reading, text, from)
}

/// Returns why a text is not a number in the digits of a set.
fn why_in_digits<F: Format>(reading: Reading, text: &str, from: &Notation<'_, F>) -> Why
    ensures { result ≡ why_in_digits reading from.now text.now }
{
    let digits = from.digits;
    let mut array = [0; MAX_DECIMAL_LEN];
    match digits.to_ascii::<StrictError>(text, &mut array) {
        Ok(ascii) => match str::from_utf8(ascii) {
            Ok(ascii) => why_placed(digits, text, why_read(reading, ascii, from.format)),
            Err(_) => Why::Unknown,
        },
        Err(DigitsError::OtherNumeral { at }) => Why::OtherNumeral(at, char_after(at, text)),
        Err(_) => Why::TooLong,
    }
}

/// Returns the character after so many bytes of a text.
fn char_after(before: usize, text: &str) -> char
    ensures { result ≡ char_after before (chars text.now) }
{
    let (mut space, mut left) = (before, text);
    while let Some((c, rest)) = split_first(left) {
        if space == 0 {
            return c;
        }
        space = space.saturating_sub(c.len_utf8());
        left = rest;
    }
    '\0'
}

/// Returns why a text is not a number, with the place in it for which a place in the text with `0` to `9` stands, and
/// the character of the format as the set shows it.
fn why_placed(digits: Digits, text: &str, why: Why) -> Why
    ensures { result ≡ why_placed (place_in digits text.now) (shown digits) why }
{
    match why {
        Why::Unexpected(before) => Why::Unexpected(bytes_within(before, text, &digits)),
        Why::Typed(before, met, wanted) => Why::Typed(
            bytes_within(before, text, &digits),
            met,
            shown_in(digits, wanted),
        ),
        _ => why,
    }
}

/// Returns the digit of a set for a character `0` to `9`, and any other character as it is.
fn shown_in(digits: Digits, c: char) -> char
    ensures { result ≡ shown digits c }
{
    if !c.is_ascii_digit() {
        return c;
    }
    char::from_u32(digits.zero() as u32 + (c as u32 - '0' as u32)).unwrap_or(c)
}

/// Returns why a text in the digits `0` to `9` is not a number, or none at the scale.
fn why_read<F: Format>(reading: Reading, text: &str, from: &F) -> Why
    ensures { result ≡ why_read reading (F.answers from.now) text.now }
{
    let Some(scale) = reading.scale else {
        return why_unparsed(reading.parsing, text, from);
    };
    match parsed(reading.parsing, text, from) {
        Some(number) => why_scaled(scale, number),
        None => why_unparsed(reading.parsing, text, from),
    }
}

/// Returns the number that a text in the digits `0` to `9` is, if it is one.
fn parsed<F: Format>(parsing: Parsing, text: &str, from: &F) -> Option<Decimal>
    ensures { result ≡ parsed_by parsing (F.answers from.now) text.now }
{
    format_data(from);
    match parsing {
        Parsing::Strict => Decimal::from_strict_str(text, from).ok(),
        Parsing::Typed => parse_typed_decimal(text, from).ok(),
        Parsing::Lenient => match i128::from_formatted_str(text, from) {
            Ok(value) => Some(Decimal::from(value)),
            Err(_) => None,
        },
    }
}

/// Returns why a number is none at the scale.
fn why_scaled(scale: Scale, number: Decimal) -> Why
    ensures { result ≡ why_scaled scale (scaled scale number) }
{
    match scale.apply(number) {
        Ok(_) => Why::Unknown,
        Err(error) => Why::NotScaled(scale.decimals, error),
    }
}

/// Returns why a text in the digits `0` to `9` does not parse. Nothing is known of one that is parsed leniently.
fn why_unparsed<F: Format>(parsing: Parsing, text: &str, from: &F) -> Why
    ensures { result ≡ why_unparsed parsing (F.answers from.now) text.now }
{
    match parsing {
        Parsing::Lenient => Why::Unknown,
        Parsing::Strict => why_strict(text, from),
        Parsing::Typed => why_untyped(text, from),
    }
}

/// Returns why strict parsing refuses a text, also for which character another one was typed.
fn why_strict<F: Format>(text: &str, from: &F) -> Why
    ensures { result ≡ why_strict (F.answers from.now) text.now (why_refused (F.answers from.now) text.now) }
{
    match why_refused(text, from) {
        Why::Unexpected(before) => why_meant(text, from, before),
        why => why,
    }
}

/// Returns why strict parsing refuses a text.
fn why_refused<F: Format>(text: &str, from: &F) -> Why
    ensures { result ≡ why_refused (F.answers from.now) text.now }
{
    format_data(from);
    match Decimal::from_strict_str(text, from) {
        Ok(_) => Why::Unknown,
        Err(error) => why_in(error),
    }
}

/// Returns why typed parsing refuses a text.
fn why_untyped<F: Format>(text: &str, from: &F) -> Why
    ensures { result ≡ why_untyped (F.answers from.now) text.now }
{
    format_data(from);
    match parse_typed_decimal(text, from) {
        Ok(_) => Why::Unknown,
        Err(TypedError::TooLong) => Why::TooLong,
        Err(TypedError::Number(error)) => why_in(error),
    }
}

/// Returns what an error says.
fn why_in(error: StrictError) -> Why
    ensures { result ≡ why_in error }
{
    match error {
        StrictError::Unexpected { at } => Why::Unexpected(at),
        StrictError::Misspelled => Why::Misspelled,
        _ => Why::Unknown,
    }
}

/// Returns which character was typed for one of the format where a byte of a text is unexpected, if so.
fn why_meant<F: Format>(text: &str, from: &F, before: usize) -> Why
    ensures { result ≡ why_meant (F.answers from.now) text.now before (typed_read (F.answers from.now) text.now) }
{
    format_data(from);
    let Ok(number) = parse_typed_decimal(text, from) else {
        return Why::Unexpected(before);
    };
    let mut printed = DecimalBuffer::new();
    printed.write_formatted(&number, from);
    why_changed(before, first_change(text, printed.as_str()))
}

/// Returns the same by the first characters in which the text differs from that of its number, and how many bytes are
/// before them. A digit stands for no other character.
fn why_changed(before: usize, change: Option<(usize, char, char)>) -> Why
    ensures { result ≡ why_changed before change }
{
    match change {
        Some((at, met, wanted)) if !met.is_ascii_digit() => Why::Typed(at, met, wanted),
        _ => Why::Unexpected(before),
    }
}

/// Returns the first characters in which two texts differ, after how many bytes of the first one.
fn first_change(text: &str, other: &str) -> Option<(usize, char, char)>
    ensures { result ≡ first_change text.now other.now }
{
    let (mut left, mut others) = (text, other);
    while let Some((met, rest)) = split_first(left) {
        let Some((wanted, next)) = split_first(others) else {
            return None;
        };
        if met != wanted {
            return Some((text.len() - left.len(), met, wanted));
        }
        left = rest;
        others = next;
    }
    None
}
