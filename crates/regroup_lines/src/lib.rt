//! Lines of numbers from one format to another, from any reader to any writer.
//!
//! Any file may be changed. `specs/Lines.antt` says what is written, and `regroup_stream` stands on it.
//!
//! [`regroup_lines`] parses each line of its input under one format, and prints the number under another. A line ends
//! before a newline, the byte 10. Bytes after the last newline are a line, unless there are none.
//!
//! ```rust
//! let mut reader = "1,000000\n-5".as_bytes();
//! let mut out = Vec::new(alloc);
//! regroup_lines(&mut reader, &mut out, &Locale::en, &Locale::en_IN)    // Ok(2)
//! str::from_utf8(&out)                                                 // Ok("10,00,000\n-5\n")
//! ```
//!
//! The input is read into an array, and parsed there.
#![tactic(auto)]

mod cursor;
mod fields;
mod header;
mod input;
pub mod laws;
mod line_fault;
mod line_text;
mod number;
mod records;
pub mod rules;
mod sending;
mod setup;

ghost use Rattle.std.specs.Prelude.{◌≡◌, ◌+◌, ◌++◌, [], ◌≤◌, Ok, length, slice_range, take, true};
ghost use Rattle.std.specs.Result.{result_map_both};
ghost use Rattle.regroup_lines.specs.Adding.{AddsIf};
ghost use Rattle.regroup_lines.specs.Ended.{ended_by, ends_with};
ghost use Rattle.regroup_faults.specs.Fault.{are_any, fault_of};
ghost use Rattle.regroup_lines.specs.Input.{IsEnded, IsLong, array_len, held};
ghost use Rattle.regroup_lines.specs.LineFaults.{line_fault_of};
ghost use Rattle.regroup_lines.specs.Lines.{after, body_written, fault_named, fault_sent, header_written};
ghost use Rattle.regroup_lines.specs.Lines.{lenient, line_after, long_fault, place_written, quotes_in};
ghost use Rattle.regroup_lines.specs.Lines.{record_sent, text_sent, unmarked_written};
ghost use Rattle.regroup_lines.specs.Records.{after_text, line_reached};
ghost use Rattle.regroup_faults.specs.Messages.{messages};
ghost use Rattle.regroup_faults.specs.Notation.{latin};
ghost use Rattle.regroup_lines.specs.Places.{place_of};
ghost use Rattle.regroup_lines.specs.declared.rules.Span.TheVariants as span;
ghost use Rattle.regroup_lines.specs.Sending.{Names, PassesLong, Regroups, RegroupsNaming, SendsBytes, SendsEach};
ghost use Rattle.regroup_lines.specs.Sending.{SendsLine, by_writer};

use crate::fields::{append_chosen, append_fields};
pub use crate::header::{Header, NameFault, field_named, read_header};
use crate::input::{Input, InputPiece, Record};
use crate::line_fault::LineFault;
use crate::line_text::LineText;
use crate::number::Parser;
use crate::records::{CsvState, ends_with, is_open, line_reached};
use crate::rules::{trim, without_affixes};
pub use crate::rules::{FieldRange, Fields, Invalid, Output, Quoting, Rules, Span};
use crate::sending::{send_number, send_whole};
use crate::setup::Setup;
use num_format::Format;
use num_format::to_formatted_string::write_whole;
use regroup_faults::fault_message;
pub use regroup_faults::{FieldCount, Notation, Parsing, Reading, RegroupFault, Rounding, Scale};
use std::alloc::Global;
use std::io;
use std::io::{Read, Write};
use std::ops::Range;

/// The most bytes of a line of [`regroup_lines`], without its newline.
pub const MAX_LINE_LEN: usize = 4096;

/// The most lines of an input of [`regroup_lines`].
pub const MAX_LINES: u64 = 1_000_000;

/// The rules of [`regroup_lines`].
const LENIENT: Rules = Rules {
    span: Span::Line,
    affixes: None,
    reading: Reading {
        parsing: Parsing::Lenient,
        scale: None,
    },
    header_lines: 0,
    passes_empty: false,
    invalid: Invalid::Abort,
    rejects: false,
    line_end: b'\n',
    max_line_len: MAX_LINE_LEN as u32,
    flushes: false,
};

/// What was regrouped, where no fault was returned.
#[derive(Clone, Copy, Debug, PartialEq, Eq)]
pub struct Summary {
    /// The number of lines, or of records.
    pub lines: u64,
    /// Whether a message named the fault of a line.
    pub has_faults: bool,
}

/// Parses each line of `r` as an `i128` under the format `from`, and writes the number under the format
/// `to`, and a newline, to `w`. Returns the number of lines.
///
/// ```rust
/// let (mut reader, mut out) = ("1,000\n(7)".as_bytes(), Vec::new(alloc));
/// regroup_lines(&mut reader, &mut out, &Locale::en, &Locale::de)    // Ok(2)
/// str::from_utf8(&out)                                              // Ok("1.000\n7\n")
/// ```
///
/// Of each line, all digits and a minus sign at its start are parsed. Each character that is not numeric is ignored, as
/// [`parse_formatted`](num_format::parsing::ParseFormatted::parse_formatted) does. So a carriage return before the
/// newline is ignored too, but counts as a byte of the line. A line and its newline are written together, by one write
/// if that writes all of them.
///
/// # Errors
///
/// Returns the first fault. Of one line, faults are tried in this order:
///
/// - [`TooMany`](RegroupFault::TooMany): a byte follows the 1,000,000th line.
/// - [`TooLong`](RegroupFault::TooLong): the line has more than 4,096 bytes, without its newline.
/// - [`Read`](RegroupFault::Read): a read failed before the end of the line, also one that was interrupted. What was
///   read of it is no line.
/// - [`NotText`](RegroupFault::NotText): the line is not UTF-8.
/// - [`Line`](RegroupFault::Line): the line does not parse.
/// - [`Write`](RegroupFault::Write): a write failed, also one that was interrupted, or wrote no bytes.
///
/// On `Write` the writer received a prefix of the lines up to the one that was written, and not all of it; on any other
/// fault, exactly the lines before. How far `r` was read beyond the fault is not stated.
pub fn regroup_lines<R: Read, W: Write, F: Format, G: Format>(
    r: &mut R,
    w: &mut W,
    from: &F,
    to: &G,
) -> Result<u64, RegroupFault>
    ensures { Regroups lenient 1000000 (latin (F.answers from.now)) (latin (G.answers to.now))
        (R.remaining r.old) (R.remaining r.new) (W.contents w.old) (W.contents w.new)
        (result_map_both (λ count. count) fault_of result) }
{
    let mut buffer = [0; MAX_LINE_LEN + 1];
    let summary = regroup_at_most(
        None,
        MAX_LINES,
        &LENIENT,
        "",
        &mut buffer,
        r,
        w,
        &mut io::sink(),
        &mut io::sink(),
        &Notation::latin(from),
        &Notation::latin(to),
    )?;
    Ok(summary.lines)
}

/// Regroups the lines of `r`, at most this many, as the rules say. The messages that name faults are sent to `e`, and
/// have the name of the input. Lines at fault are sent to `x` in place of `w` if the rules say so. The input is read
/// into `buffer`, which has one byte more than a line. Where fields are chosen, the text of a line is made in memory of
/// `alloc`, and sent with the byte that ends it by one write if that writes all of them.
///
/// ```rust
/// let rules = Rules {
///     span: Span::Line,
///     affixes: None,
///     reading: Reading { parsing: Parsing::Strict, scale: None },
///     header_lines: 1,
///     passes_empty: false,
///     invalid: Invalid::Warn,
///     rejects: true,
///     line_end: b'\n',
///     max_line_len: 4096,
///     flushes: true,
/// };
/// let mut buffer = [0; 4097];
/// let (mut reader, mut out) = ("amount\n1,000\n12x\n".as_bytes(), Vec::new(alloc));
/// let (mut err, mut rejects) = (Vec::new(alloc), Vec::new(alloc));
/// let summary = regroup_at_most(
///     None,
///     9,
///     &rules,
///     "-",
///     &mut buffer,
///     &mut reader,
///     &mut out,
///     &mut err,
///     &mut rejects,
///     &Notation::latin(&Locale::en),
///     &Notation::latin(&Locale::de),
/// );
/// summary                     // Ok(Summary { lines: 3, has_faults: true })
/// str::from_utf8(&out)        // Ok("amount\n1.000\n")
/// str::from_utf8(&rejects)    // Ok("12x\n")
/// ```
///
/// # Errors
///
/// Returns the first fault, of those of [`regroup_lines`], that is not passed on. [`TooMany`](RegroupFault::TooMany) is
/// that a byte follows the last of these lines, [`Reject`](RegroupFault::Reject) that a write to `x` failed, and
/// [`Report`](RegroupFault::Report) that a write to `e` failed. The line of that message is not sent.
/// [`Unclosed`](RegroupFault::Unclosed) is that a record has quotes that are not closed where the input ends, or in as
/// many bytes as a record may have. [`Flush`](RegroupFault::Flush) is that a flush of `w` before a read failed, if the
/// rules ask for flushes: as on `Read`, the writers received exactly the lines before, and what was read of a long line
/// that is passed on. `x` is not flushed. Where fields are chosen, [`FewFields`](RegroupFault::FewFields) is that a
/// line has too few, [`FieldNotText`](RegroupFault::FieldNotText) and [`Field`](RegroupFault::Field) are in place of
/// `NotText` and `Line`, and `Write` is also that there is no memory for the text of a line.
pub fn regroup_at_most<R: Read, W: Write, E: Write, X: Write, F: Format, G: Format>(
    alloc: Option<Global>,
    most: u64,
    rules: &Rules,
    name: &str,
    buffer: &mut [u8],
    r: &mut R,
    w: &mut W,
    e: &mut E,
    x: &mut X,
    from: &Notation<'_, F>,
    to: &Notation<'_, G>,
) -> Result<Summary, RegroupFault>
    requires { length buffer.old ≡ rules.now.max_line_len + 1 }
    ensures { RegroupsNaming rules.now name.now most from.now to.now
        (R.remaining r.old) (R.remaining r.new)
        (by_writer (W.contents w.old) (E.contents e.old) (X.contents x.old))
        (by_writer (W.contents w.new) (E.contents e.new) (X.contents x.new))
        (result_map_both (λ summary. summary) fault_of result) }
{
    let setup = Setup {
        rules,
        name,
        parser: Parser::new(from),
        to,
    };
    let mut input = Input::new(buffer);
    let mut text = LineText::new(alloc);
    let (mut number, mut has_faults) = (1, false);
    for lines in 0..most {
        match input.next_piece(rules, CsvState::first(number), r, w)? {
            InputPiece::Line(place) => {
                let line = input.line(place, number);
                has_faults |= regroup_line(&setup, &line, &mut text, w, e, x)?;
                number = line_after(rules, number, line.text);
            }
            InputPiece::Rest(place) => {
                let line = input.line(place, number);
                if line.text.is_empty() {
                    return Ok(Summary { lines, has_faults });
                }
                has_faults |= regroup_last(&setup, &line, &mut text, w, e, x)?;
                let lines = lines + 1;
                return Ok(Summary { lines, has_faults });
            }
            InputPiece::TooLong => {
                let fault = long_fault(rules, number, &input);
                if !rules.invalid.passes() {
                    return Err(fault);
                }
                has_faults |= name_fault(&setup, &fault, e)?;
                if send_long(rules, &mut number, &mut input, r, w, x)? {
                    let lines = lines + 1;
                    return Ok(Summary { lines, has_faults });
                }
            }
        }
    }
    if !input.is_at_end(rules.flushes, r, w)? {
        return Err(RegroupFault::TooMany);
    }
    let lines = most;
    Ok(Summary { lines, has_faults })
}

/// Returns the number of the line after a record that begins in the line of this number.
#[inline]
fn line_after(rules: &Rules, number: u64, text: &[u8]) -> u64
    ensures { result ≡ line_after rules.now number text.now }
{
    line_reached(rules, number, text).saturating_add(1)
}

/// Returns the fault of a line or a record that is too long: quotes that its first bytes do not close.
#[cold]
fn long_fault(rules: &Rules, number: u64, input: &Input<'_>) -> RegroupFault
    requires { length (held input.now) ≤ rules.now.max_line_len + 1 }
    ensures { fault_of result ≡ long_fault rules.now number (held input.now) }
{
    if is_open(rules, number, input.held()) {
        RegroupFault::Unclosed(number)
    } else {
        RegroupFault::TooLong(number, rules.max_line_len)
    }
}

/// Sends what is written in place of the last bytes of an input, as [`regroup_line`] does. It is a fault that they end
/// inside quotes: then the last of them may be the byte that ends a line.
#[cold]
#[inline(never)]
fn regroup_last<'a, W: Write, E: Write, X: Write, F: Format, G: Format>(
    setup: &Setup<F, G>,
    line: &Record<'a>,
    text: &mut LineText,
    w: &mut W,
    e: &mut E,
    x: &mut X,
) -> Result<bool, LineFault<'a>>
    requires { IsEnded setup.now.rules.now.line_end line.now }
    ensures { SendsEach setup.now.name.now setup.now.rules.now.reading setup.now.parser
        (record_sent setup.now.rules.now setup.now.parser setup.now.to.now line.now.number line.now.text.now)
        (by_writer (W.contents w.old) (E.contents e.old) (X.contents x.old))
        (by_writer (W.contents w.new) (E.contents e.new) (X.contents x.new))
        (result_map_both (λ told. told) line_fault_of result) }
{
    if is_open(setup.rules, line.number, line.text) {
        let ended = line.ended_once(setup.rules.line_end, false);
        return pass_fault(setup, LineFault::Unclosed(line.number), ended, w, e, x);
    }
    regroup_line(setup, line, text, w, e, x)
}

/// Sends what is written in place of the text of a line, and the byte that ends it, and before them the message that
/// names its fault, if there is one. Returns whether there is.
fn regroup_line<'a, W: Write, E: Write, X: Write, F: Format, G: Format>(
    setup: &Setup<F, G>,
    line: &Record<'a>,
    text: &mut LineText,
    w: &mut W,
    e: &mut E,
    x: &mut X,
) -> Result<bool, LineFault<'a>>
    requires { IsEnded setup.now.rules.now.line_end line.now }
    ensures { SendsEach setup.now.name.now setup.now.rules.now.reading setup.now.parser
        (text_sent setup.now.rules.now setup.now.parser setup.now.to.now line.now.number line.now.text.now)
        (by_writer (W.contents w.old) (E.contents e.old) (X.contents x.old))
        (by_writer (W.contents w.new) (E.contents e.new) (X.contents x.new))
        (result_map_both (λ told. told) line_fault_of result) }
{
    match regroup_body(setup, line, text, w) {
        Ok(()) => Ok(false),
        Err(fault) => match fault {
            LineFault::Write => Err(LineFault::Write),
            _ => pass_fault(setup, fault, line.ended, w, e, x),
        },
    }
}

/// Sends a line at fault, with the byte that ends it, to the output or, if the rules say so, to the writer of rejected
/// lines, and before it the message that names the fault. Returns whether there is a message.
#[cold]
#[inline(never)]
fn pass_fault<'a, W: Write, E: Write, X: Write, F: Format, G: Format>(
    setup: &Setup<F, G>,
    fault: LineFault<'a>,
    ended: &[u8],
    w: &mut W,
    e: &mut E,
    x: &mut X,
) -> Result<bool, LineFault<'a>>
    ensures { SendsEach setup.now.name.now setup.now.rules.now.reading setup.now.parser
        (fault_sent setup.now.rules.now (line_fault_of fault.entry) ended.now)
        (by_writer (W.contents w.old) (E.contents e.old) (X.contents x.old))
        (by_writer (W.contents w.new) (E.contents e.new) (X.contents x.new))
        (result_map_both (λ told. told) line_fault_of result) }
{
    if !setup.rules.invalid.passes() {
        return Err(fault);
    }
    let is_named = name_fault(setup, &RegroupFault::from(fault), e)?;
    pass_bytes(setup.rules, ended, w, x)?;
    Ok(is_named)
}

/// Sends the message that names a fault, if the rules say so, and returns whether they do.
fn name_fault<E: Write, F: Format, G: Format>(
    setup: &Setup<F, G>,
    fault: &RegroupFault,
    e: &mut E,
) -> Result<bool, LineFault<'static>>
    ensures { Names (messages setup.now.name.now setup.now.rules.now.reading setup.now.parser
        (fault_named setup.now.rules.now.invalid (fault_of fault.now)))
        (are_any (fault_named setup.now.rules.now.invalid (fault_of fault.now)))
        (E.contents e.old) (E.contents e.new) (result_map_both (λ told. told) line_fault_of result) }
{
    match setup.rules.invalid {
        Invalid::Abort | Invalid::Ignore => Ok(false),
        Invalid::Fail | Invalid::Warn => {
            let from = setup.parser.notation();
            let message = fault_message(setup.name, setup.rules.reading, fault, &from);
            write_whole(message.as_str().as_bytes(), e).or(Err(LineFault::Report))?;
            Ok(true)
        }
    }
}

/// Sends a record that is too long, piece by piece: the bytes that are held, which it begins with, and those up to the
/// byte that ends it or the end of the input, and that byte once. Returns whether the input ended. The number of its
/// line goes on to that of the next record.
#[cold]
fn send_long<R: Read, W: Write, X: Write>(
    rules: &Rules,
    number: &mut u64,
    input: &mut Input<'_>,
    r: &mut R,
    w: &mut W,
    x: &mut X,
) -> Result<bool, RegroupFault>
    requires long { IsLong rules.now number.old (held input.old) }
    requires len { array_len input.old ≡ rules.now.max_line_len + 1 }
    ensures passes { PassesLong rules.now number.old number.new (held input.old) (held input.new) (R.remaining r.old)
        (R.remaining r.new)
        (λ told. by_writer (W.contents w.old) told (X.contents x.old))
        (λ told. by_writer (W.contents w.new) told (X.contents x.new))
        (result_map_both (λ ended. ended) fault_of result) }
    ensures len { array_len input.new ≡ array_len input.old }
{
    let (mut within, mut is_ended) = (CsvState::first(*number), false);
    send_held(rules, &mut within, number, &mut is_ended, input, w, x)?;
    for _ in 0..u64::MAX {
        match input.next_piece(rules, within, r, w) {
            Ok(InputPiece::Line(place)) => {
                let line = input.line(place, *number);
                pass_bytes(rules, line.ended, w, x)?;
                *number = line_after(rules, *number, line.text);
                return Ok(false);
            }
            Ok(InputPiece::Rest(place)) => {
                let line = input.line(place, *number);
                pass_bytes(rules, line.ended_once(rules.line_end, is_ended), w, x)?;
                return Ok(true);
            }
            Ok(InputPiece::TooLong) => {
                send_held(rules, &mut within, number, &mut is_ended, input, w, x)?;
            }
            Err(halt) => {
                send_held(rules, &mut within, number, &mut is_ended, input, w, x)?;
                return Err(halt.into());
            }
        }
    }
    Err(RegroupFault::TooMany)
}

/// Sends the bytes that are held, which are at fault. Where the next byte is `within` a record goes on to the byte
/// after them, the number of the line to that in which they end, and whether the last byte is the one that ends lines
/// to theirs.
fn send_held<W: Write, X: Write>(
    rules: &Rules,
    within: &mut CsvState,
    number: &mut u64,
    is_ended: &mut bool,
    input: &mut Input<'_>,
    w: &mut W,
    x: &mut X,
) -> Result<(), LineFault<'static>>
    ensures sent { SendsBytes rules.now.rejects (λ told. by_writer (W.contents w.old) told (X.contents x.old))
        (λ told. by_writer (W.contents w.new) told (X.contents x.new))
        (held input.old) (result_map_both (λ sent. sent) line_fault_of result) }
    ensures none_left { held input.new ≡ [] }
    ensures len { array_len input.new ≡ array_len input.old }
    ensures within { within.new ≡ after_text (quotes_in rules.now.span) within.old (held input.old) }
    ensures number { number.new ≡ line_reached (quotes_in rules.now.span) rules.now.line_end number.old
        (held input.old) }
    ensures ended { is_ended.new ≡ ends_with rules.now.line_end is_ended.old (held input.old) }
{
    let bytes = input.held();
    *within = within.after(rules.quotes(), bytes);
    *number = line_reached(rules, *number, bytes);
    *is_ended = ends_with(rules.line_end, *is_ended, bytes);
    let sent = pass_bytes(rules, bytes, w, x);
    input.clear();
    sent
}

/// Sends bytes at fault to the output or, if the rules say so, to the writer of rejected lines.
fn pass_bytes<W: Write, X: Write>(
    rules: &Rules,
    bytes: &[u8],
    w: &mut W,
    x: &mut X,
) -> Result<(), LineFault<'static>>
    ensures { SendsBytes rules.now.rejects (λ told. by_writer (W.contents w.old) told (X.contents x.old))
        (λ told. by_writer (W.contents w.new) told (X.contents x.new))
        bytes.now (result_map_both (λ sent. sent) line_fault_of result) }
{
    if rules.rejects {
        send_whole(bytes, x).or(Err(LineFault::Reject))
    } else {
        send_whole(bytes, w).or(Err(LineFault::Write))
    }
}

/// Sends a line with its numbers regrouped, and the byte that ends it. A byte order mark, and the numbers of a header,
/// are passed on.
#[inline(always)]
fn regroup_body<'a, W: Write, F: Format, G: Format>(
    setup: &Setup<F, G>,
    line: &Record<'a>,
    text: &mut LineText,
    w: &mut W,
) -> Result<(), LineFault<'a>>
    requires { IsEnded setup.now.rules.now.line_end line.now }
    ensures { SendsLine setup.now.rules.now.line_end (body_written setup.now.rules.now setup.now.parser
        setup.now.to.now line.now.number line.now.text.now)
        (W.contents w.old) (W.contents w.new) (result_map_both (λ sent. sent) line_fault_of result) }
{
    let rules = setup.rules;
    let mark_len = rules.span.mark_len(line.number, line.text);
    let rest = &line.text[mark_len..];
    let place = match &rules.span {
        Span::Fields(fields) => {
            text.restart(&line.text[..mark_len]);
            append_body(setup, fields, line.number, rest, text)?;
            return text.send(rules.line_end, w);
        }
        Span::Line => 0..rest.len(),
        Span::Trimmed => without_affixes(rules.affixes, rest, trim(rest, 0..rest.len())),
    };
    if line.number <= rules.header_lines {
        return send_whole(line.ended, w).or(Err(LineFault::Write));
    }
    let place = mark_len + place.start..mark_len + place.end;
    regroup_place(setup, line, place, w)
}

/// Appends a line with the number in each chosen field regrouped, or these fields alone, or a header.
#[inline(always)]
fn append_body<'a, F: Format, G: Format>(
    setup: &Setup<F, G>,
    fields: &Fields,
    number: u64,
    line: &'a [u8],
    text: &mut LineText,
) -> Result<(), LineFault<'a>>
    requires { setup.now.rules.now.span ≡ span.Fields fields.now }
    ensures { AddsIf (unmarked_written setup.now.rules.now setup.now.parser setup.now.to.now number line.now)
        text.old text.new (result_map_both (λ added. added) line_fault_of result) }
{
    if number <= setup.rules.header_lines {
        return append_header(setup, fields, number, line, text);
    }
    if fields.only {
        return append_chosen(setup, fields, fields.list, number, line, text);
    }
    append_fields(setup, fields, number, line, text)
}

/// Appends a header. It has no number.
#[cold]
#[inline(never)]
fn append_header<'a, F: Format, G: Format>(
    setup: &Setup<F, G>,
    fields: &Fields,
    number: u64,
    line: &'a [u8],
    text: &mut LineText,
) -> Result<(), LineFault<'a>>
    ensures { AddsIf (Ok (header_written (span.Fields fields.now) setup.now.rules.now.line_end line.now))
        text.old text.new (result_map_both (λ added. added) line_fault_of result) }
{
    let none = Fields {
        list: &[],
        ..*fields
    };
    if fields.only {
        return append_chosen(setup, &none, fields.list, number, line, text);
    }
    append_fields(setup, &none, number, line, text)
}

/// Sends a line with the number at this place regrouped, and the byte that ends it.
#[inline(always)]
fn regroup_place<'a, W: Write, F: Format, G: Format>(
    setup: &Setup<F, G>,
    line: &Record<'a>,
    place: Range<usize>,
    w: &mut W,
) -> Result<(), LineFault<'a>>
    requires ended { IsEnded setup.now.rules.now.line_end line.now }
    requires ordered { place.start ≤ place.end }
    requires within { place.end ≤ length line.now.text.now }
    ensures { SendsLine setup.now.rules.now.line_end
        (place_written setup.now.rules.now setup.now.parser setup.now.to.now line.now.number line.now.text.now
        (place_of place))
        (W.contents w.old) (W.contents w.new) (result_map_both (λ sent. sent) line_fault_of result) }
{
    let (rules, text) = (setup.rules, line.text);
    let (start, end) = (place.start, place.end);
    if rules.passes_empty && start == end {
        return send_whole(line.ended, w).or(Err(LineFault::Write));
    }
    let (parser, digits) = (&setup.parser, &text[start..end]);
    let value = parser.read(rules.reading, digits, line.number)?;
    let (before, after) = (&text[..start], &text[end..]);
    let sent = send_number(before, &value, setup.to, after, rules.line_end, w);
    sent.or(Err(LineFault::Write))
}
