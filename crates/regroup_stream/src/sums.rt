//! The sums of the numbers in the lines that a writer receives.
ghost use Rattle.std.specs.Prelude.{◌≡◌, ◌<◌, ◌≤◌, [], ◌∷◌, IfOk, IfSome, MatchOption, length};
ghost use Rattle.regroup_stream.specs.Columns.{AddsLine, AddsNumber, AddsText, AddsTexts, IsLineOf, ReadsNumber};
ghost use Rattle.regroup_stream.specs.Columns.{between_tabs, without_mark};

use num_format::CustomFormat;
use num_format_decimal::{Decimal, DecimalParser};
use std::io::ErrorKind;

/// The bytes of a byte order mark.
const MARK: &[u8] = b"\xEF\xBB\xBF";

/// Why there are no sums.
#[derive(Clone, Copy)]
pub(crate) enum Unsummed {
    /// A sum is past 128 bits.
    TooLarge,
    /// There is no memory, or a write was none of a whole line of numbers.
    Failed(ErrorKind),
}

/// Adds the numbers of a line to the sums of their columns. Tabs are between them, and a newline or NUL ends the line.
/// A byte order mark at its start is passed over. Returns why that is not possible, and then a part of them may be
/// added, or `None`.
pub(crate) fn add_line(
    parser: &DecimalParser<'_, CustomFormat>,
    bytes: &[u8],
    sums: &mut Vec<Option<Decimal>>,
) -> Option<Unsummed>
    ensures { AddsLine parser.now bytes.now sums.old.items sums.new.items result }
{
    let Some(line) = without_end(bytes) else {
        return Some(Unsummed::Failed(ErrorKind::InvalidData));
    };
    match add_texts(parser, without_mark(line), sums) {
        Ok(()) => None,
        Err(why) => Some(why),
    }
}

/// Returns a line without the newline or NUL that ends it, if one does.
fn without_end(bytes: &[u8]) -> Option<&[u8]>
    ensures { IfSome result (λ line. IsLineOf bytes.now line.now) }
{
    let (last, line) = bytes.split_last()?;
    if *last == b'\n' || *last == b'\0' {
        return Some(line);
    }
    None
}

/// Adds the numbers of texts with tabs between them to the sums of their columns. An empty text has none.
///
/// # Errors
///
/// Returns why that is not possible, and then those of texts before may be added.
fn add_texts(
    parser: &DecimalParser<'_, CustomFormat>,
    line: &[u8],
    sums: &mut Vec<Option<Decimal>>,
) -> Result<(), Unsummed>
    ensures { AddsTexts parser.now (between_tabs line.now) sums.old.items sums.new.items result }
{
    let mut left = line;
    let mut column = 0;
    while let Some((text, rest)) = cut(left) {
        add_text(parser, text, column, sums)?;
        column += 1;
        left = rest;
    }
    add_text(parser, left, column, sums)
}

/// Returns the text before the first tab, and what follows that, or `None` if there is no tab.
fn cut(line: &[u8]) -> Option<(&[u8], &[u8])>
    ensures texts { MatchOption result (between_tabs line.now ≡ line.now ∷ [])
        (λ cut. between_tabs line.now ≡ cut.0.now ∷ between_tabs cut.1.now) }
    ensures shorter { IfSome result (λ cut. length cut.1.now < length line.now) }
{
    let tab = line.iter().position(|byte| *byte == b'\t')?;
    Some((&line[..tab], &line[tab + 1..]))
}

/// Returns a line without a byte order mark at its start.
fn without_mark(line: &[u8]) -> &[u8]
    ensures { result.now ≡ without_mark line.now }
{
    if line.starts_with(MARK) {
        &line[MARK.len()..]
    } else {
        line
    }
}

/// Adds the number of a text to the sum of a column.
///
/// # Errors
///
/// Returns why that is not possible.
fn add_text(
    parser: &DecimalParser<'_, CustomFormat>,
    text: &[u8],
    column: usize,
    sums: &mut Vec<Option<Decimal>>,
) -> Result<(), Unsummed>
    requires { column ≤ length sums.old.items }
    ensures added { AddsText parser.now text.now column sums.old.items sums.new.items result }
    ensures reached { IfOk result (λ _. column < length sums.new.items) }
{
    let number = number_of(parser, text)?;
    if column == sums.len() {
        return match sums.push(number) {
            Ok(()) => Ok(()),
            Err(_) => Err(Unsummed::Failed(ErrorKind::OutOfMemory)),
        };
    }
    let Some(number) = number else {
        return Ok(());
    };
    let sum = sum_with(sums[column], number)?;
    sums[column] = Some(sum);
    Ok(())
}

/// Returns a sum with a number added, or the number alone if there is no sum.
///
/// # Errors
///
/// Returns an error if that is past 128 bits.
fn sum_with(sum: Option<Decimal>, number: Decimal) -> Result<Decimal, Unsummed>
    ensures { AddsNumber sum number result }
{
    match sum {
        None => Ok(number),
        Some(sum) => match sum.checked_add(number) {
            Some(sum) => Ok(sum),
            None => Err(Unsummed::TooLarge),
        },
    }
}

/// Returns the number of a text, or `None` if that is empty.
///
/// # Errors
///
/// Returns an error if it is another text than that of a number.
fn number_of(
    parser: &DecimalParser<'_, CustomFormat>,
    text: &[u8],
) -> Result<Option<Decimal>, Unsummed>
    ensures { ReadsNumber parser.now text.now result }
{
    if text.is_empty() {
        return Ok(None);
    }
    match parser.parse_bytes(text) {
        Ok(number) => Ok(Some(number)),
        Err(_) => Err(Unsummed::Failed(ErrorKind::InvalidData)),
    }
}
