//! Texts of digits, alone or in groups with a separator between them.
//!
//! A function that is not passed a sign takes the text without its minus sign.
ghost use Rattle.std.specs.Prelude.{◌≡◌, ◌+◌, ◌-◌, ◌^◌, ◌<◌, ◌≤◌, [], IfSome, MatchOption, drop, false, length};
ghost use Rattle.std.specs.Prelude.{slice_index, take, true};
ghost use Rattle.std.specs.Char.{is_ascii_digit};
ghost use Rattle.std.specs.List.{list_all};
ghost use Rattle.num_format_text.specs.Format.{FormatData};
ghost use Rattle.num_format_int.specs.Grouped.{printed_separator};
ghost use Rattle.num_format_int.specs.Kind.{signed_number};
ghost use Rattle.num_format_parsing.specs.Parts.{AppendsGroup, BeginsWithDigits, BeginsWithGroup, HasDigits, IsBody};
ghost use Rattle.num_format_parsing.specs.Parts.{IsInGroups, number_in};
ghost use Rattle.num_format_parsing.specs.Shapes.{BeginsWithDigit, HasSign, byte_digits};
ghost use Rattle.num_format_parsing.specs.Strict.{IsCanonical};

use crate::accumulator::{Accumulator, SAFE_DIGITS};
use crate::bytes::{begins_with, begins_with_digit};
use crate::symbols::Sign;
use num_format_text::Grouping;
use num_format_text::grouping::Sizes;

/// What was read of a text: how many digits, and the number that they write, modulo the bound of the accumulator.
#[derive(Clone, Copy)]
pub(crate) struct ParsedDigits<A> {
    pub(crate) digit_count: usize,
    pub(crate) magnitude: A,
}

/// A short text has at most so many bytes, as those of a minus sign and three digits.
pub(crate) const SHORT_LEN: usize = 4;

/// The bytes of [`SAFE_DIGITS`] digits in groups of three with such a separator.
pub(crate) const LONGEST_GROUPS: usize = SAFE_DIGITS + 6;

/// What the first of so many digits counts for, where the last is added to it.
const FIRST_WEIGHTS: [u64; 4] = [0, 0, 10, 100];

/// What the digit between them counts for.
const MIDDLE_WEIGHTS: [u64; 4] = [0, 0, 0, 10];

/// Returns the absolute value of the number for which a text is canonical, if it has at most three bytes after its
/// minus sign. It may return `None` for any text.
///
/// Such a text is parsed alike, whatever the separator and the grouping.
#[inline(always)]
pub(crate) fn read_short(text: &[u8], sign: Sign) -> Option<u64>
    requires { sign.len ≤ length text.now }
    ensures { IfSome result (λ n. (f : FormatData) → HasSign f text.now sign.is_negative sign.len
        → IsCanonical f text.now (signed_number sign.is_negative n)) }
{
    let body = &text[sign.len..];
    if body.len() >= SHORT_LEN || !begins_with_digit(body) {
        return None;
    }
    first_digits(body)
}

/// Returns the absolute value of the number for which a text is canonical in groups with a separator. It may return
/// `None` for any text, and does so where the digits may not fit 64 bits.
///
/// A text of digits alone has a digit where the last separator would be.
#[inline(always)]
pub(crate) fn read_in_groups(
    text: &[u8],
    sign: Sign,
    separator: &str,
    grouping: Grouping,
) -> Option<u64>
    requires long { SHORT_LEN < length text.now }
    requires within { sign.len ≤ length text.now }
    requires plain { byte_digits separator.now ≡ [] }
    ensures { IfSome result (λ n. (f : FormatData) → HasSign f text.now sign.is_negative sign.len
        → separator.now ≡ printed_separator f.grouping f.separator → grouping ≡ f.grouping
        → IsCanonical f text.now (signed_number sign.is_negative n)) }
{
    let sizes = grouping.sizes()?;
    let separator = separator.as_bytes();
    let body = &text[sign.len..];
    if separator.len() != 1 {
        return read_by_bytes(body, separator, sizes);
    }
    if text[text.len() - 4] != separator[0] {
        return None;
    }
    if body.len() <= sizes.least || body.len() > LONGEST_GROUPS {
        return None;
    }
    if !begins_with_digit(body) {
        return None;
    }
    read_by_byte(body, separator, sizes)
}

/// Returns the number in a text of groups with a separator of one byte. It may return `None` for any text.
///
/// The sizes of groups are numbers that the loop knows where it is compiled. It is a function of its own, so that other
/// texts are parsed without its space.
#[inline(never)]
fn read_by_byte(text: &[u8], separator: &[u8], sizes: Sizes) -> Option<u64>
    requires long { (SHORT_LEN ≤ length text.now) × (length text.now ≤ LONGEST_GROUPS) }
    requires plain { byte_digits separator.now ≡ [] }
    requires separator { length separator.now ≡ 1 }
    ensures { IfSome result (λ n. IsInGroups sizes.last sizes.size separator.now text.now × (n ≡ number_in text.now)
        × (sizes.size ≤ 3) × (sizes.last ≡ 3)) }
{
    match (sizes.size, sizes.last) {
        (3, 3) => read_by_length(text, separator, 3),
        (2, 3) => read_by_length(text, separator, 2),
        _ => None,
    }
}

/// Returns the number in a text of groups of this size, and three digits at the end. It may return `None` for any text.
///
/// How many digits the first group has follows from the length of the text, so that the processor knows how many groups
/// there are before it has read one.
#[inline(always)]
fn read_by_length(text: &[u8], separator: &[u8], size: usize) -> Option<u64>
    requires long { (SHORT_LEN ≤ length text.now) × (length text.now ≤ LONGEST_GROUPS) }
    requires plain { byte_digits separator.now ≡ [] }
    requires separator { length separator.now ≡ 1 }
    requires size { (0 < size) × (size ≤ 3) }
    ensures { IfSome result (λ n. IsInGroups 3 size separator.now text.now × (n ≡ number_in text.now)) }
{
    let digit_count = (text.len() - 4) % (size + 1);
    if digit_count == 0 || digit_count > size {
        return None;
    }
    if text[digit_count] != separator[0] {
        return None;
    }
    let magnitude = first_digits(&text[..digit_count])?;
    let whole = read_groups(
        text,
        ParsedDigits {
            digit_count,
            magnitude,
        },
        separator,
        3,
        size,
    )?;
    Some(whole.magnitude)
}

/// Returns the number in a text of groups of three with a separator of more bytes. It may return `None` for any text.
#[inline(always)]
fn read_by_bytes(text: &[u8], separator: &[u8], sizes: Sizes) -> Option<u64>
    requires { byte_digits separator.now ≡ [] }
    ensures { IfSome result (λ n. BeginsWithDigit text.now × IsInGroups sizes.last sizes.size separator.now text.now
        × (n ≡ number_in text.now) × (sizes.least ≤ length (byte_digits text.now))) }
{
    let width = separator.len();
    if sizes.size != 3 || sizes.last != 3 || width == 0 || width > 8 {
        return None;
    }
    if text.len() <= width + 3 || text.len() > SAFE_DIGITS + 6 * width {
        return None;
    }
    if text[text.len() - width - 3] != separator[0] {
        return None;
    }
    if !begins_with_digit(text) {
        return None;
    }
    read_by_width(text, separator, sizes.least)
}

/// Does the same. It is a function of its own, so that other texts are parsed without its space.
#[inline(never)]
fn read_by_width(text: &[u8], separator: &[u8], least: usize) -> Option<u64>
    requires long { length separator.now + 3 < length text.now }
    requires plain { byte_digits separator.now ≡ [] }
    requires separator { 0 < length separator.now }
    ensures { IfSome result (λ n. IsInGroups 3 3 separator.now text.now × (n ≡ number_in text.now)
        × (least ≤ length (byte_digits text.now))) }
{
    let digit_count = (text.len() - separator.len() - 3) % (separator.len() + 3);
    if digit_count == 0 || digit_count > 3 || text[digit_count] != separator[0] {
        return None;
    }
    let magnitude = first_digits(&text[..digit_count])?;
    let whole = read_groups(
        text,
        ParsedDigits {
            digit_count,
            magnitude,
        },
        separator,
        3,
        3,
    )?;
    if whole.digit_count < least || whole.digit_count > SAFE_DIGITS {
        return None;
    }
    Some(whole.magnitude)
}

/// Returns the number of one to three digits, or `None` if a byte is no digit.
///
/// Numbers of all lengths follow one another, and the processor mistakes a branch on the length of the first group. So
/// each of the three digits is looked at, and where there are fewer, one of them twice.
#[inline(always)]
fn first_digits(text: &[u8]) -> Option<u64>
    requires { (1 ≤ length text.now) × (length text.now ≤ 3) }
    ensures { IfSome result (λ n. (list_all is_ascii_digit text.now ≡ true) × (n ≡ number_in text.now)) }
{
    let count = text.len();
    let first = digit(text[0])?;
    let middle = digit(text[count / 2])?;
    let last = digit(text[count - 1])?;
    Some(first * FIRST_WEIGHTS[count] + middle * MIDDLE_WEIGHTS[count] + last)
}

/// Returns the whole of a text that begins with a digit other than zero, or `None` if it is canonical for no number.
#[inline]
pub(crate) fn read_text<A: Accumulator>(
    text: &[u8],
    separator: &str,
    grouping: Grouping,
) -> Option<ParsedDigits<A>>
    requires begin { BeginsWithDigit text.now }
    requires plain { byte_digits separator.now ≡ [] }
    ensures { MatchOption result (¬ (IsBody grouping separator.now text.now))
        (λ whole. IsBody grouping separator.now text.now
        × HasDigits A.bound text.now whole.digit_count (A.number whole.magnitude)) }
{
    let first = read_digits(text);
    if first.digit_count == text.len() {
        return Some(first);
    }
    let whole = read_grouped(text, first, separator.as_bytes(), grouping);
    if whole.digit_count == 0 {
        return None;
    }
    Some(whole)
}

/// Returns the whole of a text that does not end with its first digits, or a part of no digits if it is canonical for
/// no number.
///
/// It is a function of its own, so that digits alone are read without its space. A part of 64 bits is returned in
/// registers, and an `Option` of it would be returned in memory.
#[inline(never)]
fn read_grouped<A: Accumulator>(
    text: &[u8],
    first: ParsedDigits<A>,
    separator: &[u8],
    grouping: Grouping,
) -> ParsedDigits<A>
    requires begin { BeginsWithDigits text.now first.digit_count }
    requires read { HasDigits A.bound (take first.digit_count text.now) first.digit_count (A.number first.magnitude) }
    requires plain { byte_digits separator.now ≡ [] }
    ensures none { result.digit_count ≡ 0 → ¬ (IsBody grouping separator.now text.now) }
    ensures some { 0 < result.digit_count → IsBody grouping separator.now text.now
        × HasDigits A.bound text.now result.digit_count (A.number result.magnitude) }
{
    let magnitude = A::zero();
    let none = ParsedDigits {
        digit_count: 0,
        magnitude,
    };
    let Some(sizes) = grouping.sizes() else {
        return none;
    };
    if separator.is_empty() {
        return none;
    }
    let Some(whole) = read_by_sizes(text, first, separator, sizes) else {
        return none;
    };
    if whole.digit_count < sizes.least {
        return none;
    }
    whole
}

/// Returns the whole text, if groups of these sizes follow the first part.
///
/// The sizes of most groups are known where their loop is compiled.
#[inline(always)]
fn read_by_sizes<A: Accumulator>(
    text: &[u8],
    first: ParsedDigits<A>,
    separator: &[u8],
    sizes: Sizes,
) -> Option<ParsedDigits<A>>
    requires begin { BeginsWithDigits text.now first.digit_count }
    requires read { HasDigits A.bound (take first.digit_count text.now) first.digit_count (A.number first.magnitude) }
    requires plain { byte_digits separator.now ≡ [] }
    requires separator { 0 < length separator.now }
    requires size { (0 < sizes.size) × (sizes.size ≤ sizes.last) × (sizes.last ≤ 4) }
    ensures { MatchOption result (¬ (IsInGroups sizes.last sizes.size separator.now text.now))
        (λ whole. IsInGroups sizes.last sizes.size separator.now text.now
        × HasDigits A.bound text.now whole.digit_count (A.number whole.magnitude)) }
{
    match (sizes.size, sizes.last) {
        (3, 3) => read_groups(text, first, separator, 3, 3),
        _ => read_groups(text, first, separator, sizes.last, sizes.size),
    }
}

/// Returns the number that the digits among bytes write, or `None` if it is not below the bound.
///
/// Few texts come here: those with more digits than are safe, and those that are canonical for no number.
#[cold]
#[inline(never)]
pub(crate) fn exact_number<A: Accumulator>(text: &[u8]) -> Option<A>
    ensures { MatchOption result (A.bound ≤ number_in text.now) (λ n. A.number n ≡ number_in text.now) }
{
    let mut number = A::zero();
    for digit_count in 0..text.len() {
        let byte = text[digit_count];
        if byte.is_ascii_digit() {
            number = number.push_digit(digit_count, byte - b'0')?;
        }
    }
    Some(number)
}

/// Returns the digits that a text begins with.
#[inline]
fn read_digits<A: Accumulator>(text: &[u8]) -> ParsedDigits<A>
    ensures within { result.digit_count ≤ length text.now }
    ensures digits { list_all is_ascii_digit (take result.digit_count text.now) ≡ true }
    ensures read { HasDigits A.bound (take result.digit_count text.now) result.digit_count (A.number result.magnitude) }
    ensures stop { result.digit_count < length text.now
        → is_ascii_digit (slice_index text.now result.digit_count) ≡ false }
{
    let mut magnitude = A::zero();
    for digit_count in 0..text.len() {
        let byte = text[digit_count];
        if !byte.is_ascii_digit() {
            return ParsedDigits {
                digit_count,
                magnitude,
            };
        }
        magnitude = magnitude.push_group(10, (byte - b'0') as u64);
    }
    ParsedDigits {
        digit_count: text.len(),
        magnitude,
    }
}

/// Returns the digit that a byte is, or `None` if it is none.
#[inline]
fn digit(byte: u8) -> Option<u64>
    ensures { MatchOption result (is_ascii_digit byte ≡ false)
        (λ digit. (is_ascii_digit byte ≡ true) × (digit ≡ byte - 48) × (digit < 10)) }
{
    if !byte.is_ascii_digit() {
        return None;
    }
    Some(byte as u64 - 48)
}

/// Returns the number of one to four digits, and the power of ten with as many zeros, or `None` if a byte is no digit.
///
/// It has no loop, since all groups are this short.
#[inline(always)]
fn few_digits(text: &[u8]) -> Option<(u64, u64)>
    requires { (0 < length text.now) × (length text.now ≤ 4) }
    ensures { MatchOption result (list_all is_ascii_digit text.now ≡ false)
        (λ few. (list_all is_ascii_digit text.now ≡ true) × (few.0 ≡ number_in text.now)
        × (few.1 ≡ 10 ^ length text.now)) }
{
    match *text {
        [a] => Some((digit(a)?, 10)),
        [a, b] => Some((digit(a)? * 10 + digit(b)?, 100)),
        [a, b, c] => Some(((digit(a)? * 10 + digit(b)?) * 10 + digit(c)?, 1_000)),
        [a, b, c, d] => {
            let three = (digit(a)? * 10 + digit(b)?) * 10 + digit(c)?;
            Some((three * 10 + digit(d)?, 10_000))
        }
        _ => None,
    }
}

/// Returns the part with the digits of a group appended, if the text begins with the separator and so many digits.
///
/// It is inlined, so that a part stays in registers.
#[inline(always)]
fn push_group<A: Accumulator>(
    part: ParsedDigits<A>,
    text: &[u8],
    separator: &[u8],
    count: usize,
) -> Option<ParsedDigits<A>>
    requires separator { 0 < length separator.now }
    requires room { length separator.now + count ≤ length text.now }
    requires digit_count { part.digit_count + count < 2 ^ 64 }
    requires few { (0 < count) × (count ≤ 4) }
    ensures { MatchOption result
        (¬ (BeginsWithGroup separator.now count text.now (drop (length separator.now + count) text.now)))
        (λ more. (more.digit_count ≡ part.digit_count + count)
        × AppendsGroup A.bound separator.now count text.now (A.number part.magnitude) (A.number more.magnitude)) }
{
    if !begins_with(text, separator) {
        return None;
    }
    let (_, digits) = text.split_at(separator.len());
    let (group, power) = few_digits(&digits[..count])?;
    Some(ParsedDigits {
        digit_count: part.digit_count + count,
        magnitude: part.magnitude.push_group(power, group),
    })
}

/// Returns the whole text, if groups of digits follow the first part, which may have fewer digits than a
/// group, or `None` if they do not.
///
/// It is inlined, so that the sizes of groups are numbers that the loop knows where the caller knows them.
#[inline(always)]
fn read_groups<A: Accumulator>(
    text: &[u8],
    first: ParsedDigits<A>,
    separator: &[u8],
    last: usize,
    size: usize,
) -> Option<ParsedDigits<A>>
    requires begin { BeginsWithDigits text.now first.digit_count }
    requires read { HasDigits A.bound (take first.digit_count text.now) first.digit_count (A.number first.magnitude) }
    requires plain { byte_digits separator.now ≡ [] }
    requires separator { 0 < length separator.now }
    requires size { (0 < size) × (size ≤ last) × (last ≤ 4) }
    ensures { MatchOption result (¬ (IsInGroups last size separator.now text.now))
        (λ whole. IsInGroups last size separator.now text.now
        × HasDigits A.bound text.now whole.digit_count (A.number whole.magnitude)) }
{
    if first.digit_count > size {
        return None;
    }
    let least = separator.len() + last;
    let mut part = first;
    let mut end = first.digit_count;
    while text.len() - end > least {
        let next = push_group(part, &text[end..], separator, size)?;
        part = next;
        end += separator.len() + size;
    }
    if text.len() - end != least {
        return None;
    }
    push_group(part, &text[end..], separator, last)
}
