//! Sends the lines of a command to a writer.
//!
//! After each call here, on `Ok` the writer received all the bytes. On `Err` it received a prefix
//! of them, and not all: nothing was sent twice or left out. An error comes only from a write: a
//! line is put together first, in an array that the longest line fits.
ghost use Rattle.std.specs.Prelude.{◌<◌, length, All};
ghost use Rattle.std.specs.Fmt.{signed_decimal};
ghost use Rattle.num_format.specs.Refusal.{message_of, refusal_of};
ghost use Rattle.num_format.specs.Text.{text_of};
ghost use Rattle.num_format.specs.Writing.{Sends};
ghost use Rattle.regroup_commands.specs.Request.{texts};
ghost use Rattle.regroup_commands.specs.Output.{bool_line, line, lines};

use arrayvec::ArrayString;
use num_format::to_formatted_string::write_whole;
use num_format::{Buffer, Error, Format, MAX_MESSAGE_LEN};
use std::io;
use std::io::Write;

/// The most bytes of a line that is sent, with its newline. No text is longer than the longest message.
pub(crate) const MAX_SENT_LINE_LEN: usize = MAX_MESSAGE_LEN + 1;

/// Sends the text and a newline together, by one write if that writes all of them.
///
/// # Errors
///
/// Returns the error of the first write that fails or writes no bytes.
pub(crate) fn send_line<W: Write>(text: &str, writer: &mut W) -> io::Result<()>
    requires { length text.now < MAX_SENT_LINE_LEN }
    ensures { Sends result (W.contents writer.old) (W.contents writer.new) (line text.now) }
{
    let mut line = ArrayString::<MAX_SENT_LINE_LEN>::new();
    line.push_str(text);
    line.push('\n');
    write_whole(line.as_str().as_bytes(), writer)?;
    Ok(())
}

/// Sends the text of the number under the format and a newline together, by one write if that writes
/// all of them.
///
/// # Errors
///
/// Returns the error of the first write that fails or writes no bytes.
pub(crate) fn send_number<F: Format, W: Write>(
    number: i128,
    format: &F,
    writer: &mut W,
) -> io::Result<()>
    ensures { Sends result (W.contents writer.old) (W.contents writer.new)
        (line (text_of (F.answers format.now) number)) }
{
    let mut buffer = Buffer::new();
    buffer.write_formatted(&number, format);
    send_line(buffer.as_str(), writer)
}

/// Sends each text and a newline after it.
///
/// # Errors
///
/// Returns the error of the first write that fails or writes no bytes.
#[tactic(auto, using(crate::proofs::SendingLemmas::HasReceivedUpTo_line, crate::proofs::SendingLemmas::StopsWithin_line))]
pub(crate) fn send_lines<W: Write>(items: &[&str], writer: &mut W) -> io::Result<()>
    requires { All (λ text. length text.now < MAX_SENT_LINE_LEN) items.now }
    ensures { Sends result (W.contents writer.old) (W.contents writer.new) (lines (texts items.now)) }
{
    for text in items {
        send_line(text, writer)?;
    }
    Ok(())
}

/// Sends the number in plain decimal, and a newline.
///
/// # Errors
///
/// Returns the error of the first write that fails or writes no bytes.
pub(crate) fn send_decimal<W: Write>(number: i128, writer: &mut W) -> io::Result<()>
    ensures { Sends result (W.contents writer.old) (W.contents writer.new)
        (line (signed_decimal number)) }
{
    let mut digits = itoa::Buffer::new();
    send_line(digits.format(number), writer)
}

/// Sends `true` or `false`, and a newline.
///
/// # Errors
///
/// Returns the error of the first write that fails or writes no bytes.
pub(crate) fn send_bool<W: Write>(value: bool, writer: &mut W) -> io::Result<()>
    ensures { Sends result (W.contents writer.old) (W.contents writer.new) (bool_line value) }
{
    send_line(if value { "true" } else { "false" }, writer)
}

/// Sends the message of the error, and a newline.
///
/// # Errors
///
/// Returns the error of the first write that fails or writes no bytes.
pub(crate) fn send_error<W: Write>(error: &Error, writer: &mut W) -> io::Result<()>
    ensures { Sends result (W.contents writer.old) (W.contents writer.new)
        (line (message_of (refusal_of error.now))) }
{
    send_line(error.kind().message().as_str(), writer)
}
