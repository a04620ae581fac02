//! Writes of texts in parts.
ghost use Rattle.std.specs.Prelude.{◌<◌, ◌++◌, length};
ghost use Rattle.std.specs.List.{flat_map};
ghost use Rattle.num_format.specs.Writing.{Sends};
ghost use Rattle.regroup_faults.specs.Notation.{number_text};
ghost use Rattle.regroup_lines.specs.Ended.{ended_by};

use arrayvec::ArrayVec;
use num_format::Format;
use num_format::to_formatted_string::write_whole;
use num_format_decimal::{Decimal, DecimalBuffer, MAX_DECIMAL_LEN};
use num_format_digits::DigitText;
use num_format_digits::printing::MAX_DIGIT_TEXT_LEN;
use regroup_faults::Notation;
use std::io::Write;

/// The most bytes of a line that is a number, with the byte that ends it.
const MAX_SENT_LINE_LEN: usize = MAX_DECIMAL_LEN + 1;

/// The same in any digits.
const MAX_SHOWN_LINE_LEN: usize = MAX_DIGIT_TEXT_LEN + 1;

/// A write failed, or wrote no bytes.
///
/// Which error it was is not kept, since no fault names it, and each call would copy the space of an error of std.
#[derive(Clone, Copy)]
pub(crate) struct WriteFailed;

/// Sends the parts of a text in turn.
#[inline(always)]
fn send_all<W: Write>(parts: &[&[u8]], w: &mut W) -> Result<(), WriteFailed>
    ensures { Sends result (W.contents w.old) (W.contents w.new) (flat_map (λ part. part.now) parts.now) }
{
    for part in parts {
        send_whole(part, w)?;
    }
    Ok(())
}

/// Sends the bytes of a line around a number, the number between them, and the byte that ends the line.
#[inline(always)]
pub(crate) fn send_number<W: Write, G: Format>(
    before: &[u8],
    number: &Decimal,
    to: &Notation<'_, G>,
    after: &[u8],
    line_end: u8,
    w: &mut W,
) -> Result<(), WriteFailed>
    ensures { Sends result (W.contents w.old) (W.contents w.new)
        (ended_by line_end (before.now ++ (number_text to.now number.now ++ after.now))) }
{
    if to.digits.is_latin() {
        let mut text = DecimalBuffer::new();
        text.write_formatted(number, to.format);
        return send_between(before, text.as_str(), after, line_end, w);
    }
    send_in_digits(before, number, to, after, line_end, w)
}

/// Does the same in any digits. It is a call, so that numbers in `0` to `9` are sent without its text.
#[cold]
#[inline(never)]
fn send_in_digits<W: Write, G: Format>(
    before: &[u8],
    number: &Decimal,
    to: &Notation<'_, G>,
    after: &[u8],
    line_end: u8,
    w: &mut W,
) -> Result<(), WriteFailed>
    ensures { Sends result (W.contents w.old) (W.contents w.new)
        (ended_by line_end (before.now ++ (number_text to.now number.now ++ after.now))) }
{
    let text = DigitText::of_decimal(number, to.format, to.digits);
    if !before.is_empty() || !after.is_empty() {
        return send_around(before, text.as_str(), after, line_end, w);
    }
    let mut line = ArrayVec::<u8, MAX_SHOWN_LINE_LEN>::new();
    line.try_extend_from_slice(text.as_str().as_bytes())
        .unwrap();
    line.push(line_end);
    send_whole(line.as_slice(), w)
}

/// Sends the bytes of a line around a number, the text of the number between them, and the byte that ends the line.
fn send_between<W: Write>(
    before: &[u8],
    number: &str,
    after: &[u8],
    line_end: u8,
    w: &mut W,
) -> Result<(), WriteFailed>
    requires { length number.now < MAX_SENT_LINE_LEN }
    ensures { Sends result (W.contents w.old) (W.contents w.new)
        (ended_by line_end (before.now ++ (number.now ++ after.now))) }
{
    if before.is_empty() && after.is_empty() {
        return send_line(number, line_end, w);
    }
    send_around(before, number, after, line_end, w)
}

/// Does the same by a write for each part.
fn send_around<'a, W: Write>(
    before: &'a [u8],
    number: &'a str,
    after: &'a [u8],
    line_end: u8,
    w: &mut W,
) -> Result<(), WriteFailed>
    ensures { Sends result (W.contents w.old) (W.contents w.new)
        (ended_by line_end (before.now ++ (number.now ++ after.now))) }
{
    send_all(&[before, number.as_bytes(), after, &[line_end]], w)
}

/// Sends a number and the byte that ends its line, by one write if that writes both: so no other process writes between
/// them.
fn send_line<W: Write>(number: &str, line_end: u8, w: &mut W) -> Result<(), WriteFailed>
    requires { length number.now < MAX_SENT_LINE_LEN }
    ensures { Sends result (W.contents w.old) (W.contents w.new) (ended_by line_end number.now) }
{
    let mut line = ArrayVec::<u8, MAX_SENT_LINE_LEN>::new();
    line.try_extend_from_slice(number.as_bytes()).unwrap();
    line.push(line_end);
    send_whole(line.as_slice(), w)
}

/// Sends bytes.
#[inline]
pub(crate) fn send_whole<W: Write>(bytes: &[u8], w: &mut W) -> Result<(), WriteFailed>
    ensures { Sends result (W.contents w.old) (W.contents w.new) bytes.now }
{
    match write_whole(bytes, w) {
        Ok(_) => Ok(()),
        Err(_) => Err(WriteFailed),
    }
}
