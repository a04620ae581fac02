//! Numbers into strings and writers.
ghost use Rattle.std.specs.Prelude.{◌≡◌, ◌≤◌, length, IfOk, OnOk, string_bytes};
ghost use Rattle.num_format_int.specs.Text.{text_of};
ghost use Rattle.num_format_writers.specs.Writing.{Writes};

use crate::formatted::Formatted;
use num_format_int::buffer::MAX_BUF_LEN;
use num_format_int::{Buffer, ToFormattedStr};
use num_format_text::Format;
use std::alloc::{AllocError, Global};
use std::{fmt, io};

/// A number that can be formatted into strings and writers: each number that can be formatted
/// into a [`Buffer`].
pub trait ToFormattedString: ToFormattedStr {
    /// Writes the text of the number to a writer of text, by one call of `write_str`. Returns the
    /// length of the text in bytes, at most [`MAX_BUF_LEN`].
    ///
    /// ```rust
    /// let mut line = String::new(alloc);
    /// 1000000.read_to_fmt_writer(&mut line, &Locale::en)?    // 9
    /// line                                                   // "1,000,000"
    /// ```
    ///
    /// # Errors
    ///
    /// Returns the error of that call. The contract does not say what the writer received by then.
    fn read_to_fmt_writer<F: Format, W: fmt::Write>(
        &self,
        w: &mut W,
        format: &F,
    ) -> Result<usize, fmt::Error>
        ensures whole { OnOk result
            (W.write_str_gives w.old (text_of (F.answers format.now) (Self.value self.now)) w.new) }
        ensures count { IfOk result
            (λ count. count ≡ length (text_of (F.answers format.now) (Self.value self.now))) }
        ensures fits { IfOk result (λ count. count ≤ MAX_BUF_LEN) };

    /// Writes the text of the number to a writer of bytes, in as many writes as it takes. Returns
    /// the length of the text in bytes, at most [`MAX_BUF_LEN`].
    ///
    /// Code that is generic over [`io::Write`] calls this method: its contract is about the
    /// writer's `contents`.
    ///
    /// ```rust
    /// let mut bytes = Vec::new(alloc);
    /// 1000.read_to_io_writer(&mut bytes, &Locale::en)?    // 5
    /// bytes                                               // [49, 44, 48, 48, 48]
    /// ```
    ///
    /// # Errors
    ///
    /// Returns the error of the first write that fails, also of one that was interrupted. A write
    /// of no bytes is an error of kind [`WriteZero`](io::ErrorKind::WriteZero). The writer then
    /// received a prefix of the text, and not all of it. The contract does not say that a write
    /// failed, since std's contract of [`write`](io::Write::write) does not say when it fails.
    fn read_to_io_writer<F: Format, W: io::Write>(
        &self,
        w: &mut W,
        format: &F,
    ) -> Result<usize, io::Error>
        ensures writes { Writes result (W.contents w.old) (W.contents w.new)
            (text_of (F.answers format.now) (Self.value self.now)) }
        ensures fits { IfOk result (λ count. count ≤ MAX_BUF_LEN) };

    /// Returns the number, to be displayed under the format. It needs no memory, and a width counts:
    /// see [`Formatted`].
    ///
    /// ```rust
    /// println!(rt; "{:>12}", 1000000.formatted(&Locale::en))    // "   1,000,000"
    /// ```
    fn formatted<'a, F: Format>(&'a self, format: &'a F) -> Formatted<'a, Self, F>
        ensures { result ≡ text_of (F.answers format.now) (Self.value self.now) };

    /// Returns the text of the number as a new string.
    ///
    /// ```rust
    /// 1000000.to_formatted_string(alloc, &Locale::en)?    // "1,000,000"
    /// (-100).to_formatted_string(alloc, &Locale::en)?     // "-100"
    /// ```
    ///
    /// # Errors
    ///
    /// Returns an error if there is no memory for the string.
    fn to_formatted_string<F: Format>(
        &self,
        alloc: Global,
        format: &F,
    ) -> Result<String, AllocError>
        ensures { IfOk result
            (λ text. string_bytes text ≡ text_of (F.answers format.now) (Self.value self.now)) };
}

impl<N: ToFormattedStr> ToFormattedString for N {
    fn read_to_fmt_writer<F: Format, W: fmt::Write>(
        &self,
        w: &mut W,
        format: &F,
    ) -> Result<usize, fmt::Error> {
        let buffer = Buffer::of(self, format);
        w.write_str(buffer.as_str())?;
        Ok(buffer.len())
    }

    fn read_to_io_writer<F: Format, W: io::Write>(
        &self,
        w: &mut W,
        format: &F,
    ) -> Result<usize, io::Error> {
        let buffer = Buffer::of(self, format);
        write_whole(buffer.as_bytes(), w)
    }

    fn formatted<'a, F: Format>(&'a self, format: &'a F) -> Formatted<'a, Self, F> {
        Formatted::new(self, format)
    }

    fn to_formatted_string<F: Format>(
        &self,
        alloc: Global,
        format: &F,
    ) -> Result<String, AllocError> {
        let buffer = Buffer::of(self, format);
        String::from_str(alloc, buffer.as_str())
    }
}

/// Writes the bytes, in as many writes as it takes, and returns their number.
///
/// This is the one loop that sends bytes, of this library and of programs on it. The contract of
/// std's `write_all` does not say what the writer received before an error, and `write_all` repeats
/// an interrupted write.
///
/// ```rust
/// let mut bytes = Vec::new(alloc);
/// write_whole(b"1,000", &mut bytes)?    // 5
/// bytes                                 // [49, 44, 48, 48, 48]
/// ```
///
/// # Errors
///
/// Returns the error of the first write that fails, also of one that was interrupted. A write of no
/// bytes is an error of kind [`WriteZero`](io::ErrorKind::WriteZero). The writer then received a
/// prefix of the bytes, and not all of them. No write follows an error.
#[tactic(auto, using(crate::proofs::WritingLemmas::HasReceivedUpTo_more))]
pub fn write_whole<W: io::Write>(bytes: &[u8], w: &mut W) -> io::Result<usize>
    ensures { Writes result (W.contents w.old) (W.contents w.new) bytes.now }
{
    let mut rest = bytes;
    while !rest.is_empty() {
        match w.write(rest)? {
            0 => return Err(io::Error::from(io::ErrorKind::WriteZero)),
            count => rest = &rest[count..],
        }
    }
    Ok(bytes.len())
}
