//! Writers that numbers can be written to.
//!
//! [`WriteFormatted`] is implemented for strings, vectors, formatters and the writers of std. A
//! contract states which bytes a writer received where `held` names them: for `String`, `Vec<u8>`,
//! `Box<W>`, `BufWriter<W>`, `LineWriter<W>`, and a `&mut` of one of these. `write_formatted_gives` says
//! what else a call does: for strings, vectors, formatters, slices, cursors, `Sink`, and a `&mut` of one
//! of these. Each has a record in `specs/Writers.antt`.
//!
//! A contract says when a call fails where std's says so of one write: exactly where the space is too
//! short, for slices and for cursors over slices; only with an error of kind
//! [`OutOfMemory`](io::ErrorKind::OutOfMemory), for strings, vectors and cursors over vectors; never,
//! for `Sink`.
//!
//! Std's contracts leave open, and so do these: which bytes a `&mut [u8]` or a cursor over a boxed slice
//! received; those of a cursor over a vector that is not at its end, or that it borrows; what a formatter
//! received before an error, or while it indents; and all but the returned length for files and the
//! standard streams.
//!
//! Code that is generic over std's [`Write`] calls
//! [`read_to_io_writer`](ToFormattedString::read_to_io_writer), whose contract is about the
//! writer's `contents`.
ghost use Rattle.std.specs.Prelude.{◌≡◌, ◌≤◌, ⊤, ℕ, List, Option, Some, None, Result, length, IsOk, IfOk, IfErr};
ghost use Rattle.std.specs.Prelude.{string_bytes, vec_capacity};
ghost use Rattle.std.specs.String.{string_capacity};
ghost use Rattle.std.specs.Io.Cursor.{cursor_inner, cursor_position};
ghost use Rattle.std.specs.IoError.{error_kind};
ghost use Rattle.std.specs.declared.io.Error.{Error};
ghost use Rattle.std.specs.declared.io.ErrorKind.TheVariants.{WriteZero};
ghost use Rattle.std.specs.Result.{OkIff};
ghost use Rattle.std.specs.Box.{boxed_slice_items};
ghost use Rattle.num_format_int.specs.Text.{text_of};
ghost use Rattle.num_format_writers.specs.Writers.{KeepsOnError, WritesToFormatter, WritesInVector, MovesInVector};
ghost use Rattle.num_format_writers.specs.Writers.{WritesInSlice, MovesInSlice, WritesToSlice};
ghost use Rattle.num_format_writers.specs.Writing.{Writes};

use crate::to_formatted_string::ToFormattedString;
use num_format_int::Buffer;
use num_format_int::buffer::MAX_BUF_LEN;
use num_format_text::Format;
use std::boxed::BoxedSlice;
use std::fs::File;
use std::io::{BufWriter, Cursor, LineWriter, Sink, Stderr, StderrLock, Stdout, StdoutLock, Write};
use std::{fmt, io};

/// A writer that numbers can be written to.
///
/// ```rust
/// let mut line = String::from_str(alloc, "total: ")?;
/// line.write_formatted(&1000000, &Locale::en)?    // 9
/// line                                            // "total: 1,000,000"
/// ```
pub trait WriteFormatted {
    /// The bytes that the writer holds, where a contract can name them.
    ghost held: { Self → Option (List ℕ) } = { λ _. None };

    /// What else a call does: a relation of the writer before it, the text of the number, the
    /// result, and the writer after it.
    ghost write_formatted_gives: { Self → List ℕ → Result ℕ Error → Self → Type 0 } = { λ _ _ _ _. ⊤ };

    /// Writes the text of the number to the writer. Returns the length of the text in bytes, at most
    /// [`MAX_BUF_LEN`].
    ///
    /// ```rust
    /// let mut bytes = Vec::new(alloc);
    /// bytes.write_formatted(&1000, &Locale::en)?    // 5
    /// bytes                                         // [49, 44, 48, 48, 48]
    /// ```
    ///
    /// # Errors
    ///
    /// Returns the error of the first write that fails. A write of no bytes is an error of kind
    /// [`WriteZero`](io::ErrorKind::WriteZero). The writer then received a prefix of the text, and
    /// not all of it, if its contract says what it received.
    fn write_formatted<F: Format, N: ToFormattedString>(
        &mut self,
        n: &N,
        format: &F,
    ) -> Result<usize, io::Error>
        ensures writes { Writes result (held self.old) (held self.new)
            (text_of (F.answers format.now) (N.value n.now)) }
        ensures gives { write_formatted_gives self.old
            (text_of (F.answers format.now) (N.value n.now)) result self.new }
        ensures fits { IfOk result (λ count. count ≤ MAX_BUF_LEN) };
}

impl<W: WriteFormatted> WriteFormatted for &mut W {
    ghost held = { λ w. W.held w.now };

    ghost write_formatted_gives = { λ w text result v. W.write_formatted_gives w.now text result v.now
        × (v.ghost_name ≡ w.ghost_name) };

    fn write_formatted<F: Format, N: ToFormattedString>(
        &mut self,
        n: &N,
        format: &F,
    ) -> Result<usize, io::Error> {
        (**self).write_formatted(n, format)
    }
}

impl WriteFormatted for String {
    ghost held = { λ s. Some (string_bytes s) };

    ghost write_formatted_gives = { λ s text result t. KeepsOnError (string_capacity s)
        (string_bytes s) text result (string_bytes t) };

    /// Appends the text of the number to the string. Returns the length of the text in bytes.
    ///
    /// # Errors
    ///
    /// Returns an error, of kind [`OutOfMemory`](io::ErrorKind::OutOfMemory), if the string has to
    /// grow and there is no memory. The string is then unchanged. The clause `beyond_capacity` says
    /// that the text did not fit in the capacity. No clause says that the string tried to grow.
    fn write_formatted<F: Format, N: ToFormattedString>(
        &mut self,
        n: &N,
        format: &F,
    ) -> Result<usize, io::Error> {
        let buffer = Buffer::of(n, format);
        self.push_str(buffer.as_str())?;
        Ok(buffer.len())
    }
}

impl WriteFormatted for Vec<u8> {
    ghost held = { λ v. Some v.items };

    ghost write_formatted_gives = { λ v text result w. KeepsOnError (vec_capacity v) v.items text
        result w.items };

    /// Appends the text of the number to the vector. Returns the length of the text in bytes.
    ///
    /// # Errors
    ///
    /// Returns an error, of kind [`OutOfMemory`](io::ErrorKind::OutOfMemory), if the vector has to
    /// grow and there is no memory. The vector is then unchanged. The clause `beyond_capacity` says
    /// that the text did not fit in the capacity. No clause says that the vector tried to grow.
    fn write_formatted<F: Format, N: ToFormattedString>(
        &mut self,
        n: &N,
        format: &F,
    ) -> Result<usize, io::Error> {
        let buffer = Buffer::of(n, format);
        self.extend_from_slice(buffer.as_bytes())?;
        Ok(buffer.len())
    }
}

impl<W: fmt::Write> WriteFormatted for fmt::Formatter<W> {
    ghost write_formatted_gives = { λ f text result g. WritesToFormatter W.write_str_gives f text
        result g };

    /// Writes the text of the number by one call of `write_str`, whatever width, fill or other
    /// option is asked for. Returns the length of the text in bytes.
    ///
    /// # Errors
    ///
    /// Returns an error if that call fails. The contract does not say what was written by then.
    fn write_formatted<F: Format, N: ToFormattedString>(
        &mut self,
        n: &N,
        format: &F,
    ) -> Result<usize, io::Error> {
        let buffer = Buffer::of(n, format);
        self.write_str(buffer.as_str())?;
        Ok(buffer.len())
    }
}

impl<W: Write> WriteFormatted for Box<W> {
    ghost held = { λ w. W.contents w.value };

    fn write_formatted<F: Format, N: ToFormattedString>(
        &mut self,
        n: &N,
        format: &F,
    ) -> Result<usize, io::Error> {
        n.read_to_io_writer(self, format)
    }
}

impl<W: Write + Drop> WriteFormatted for BufWriter<W> {
    ghost held = { λ w. ⟦<BufWriter<W> as Write>⟧.contents w };

    fn write_formatted<F: Format, N: ToFormattedString>(
        &mut self,
        n: &N,
        format: &F,
    ) -> Result<usize, io::Error> {
        n.read_to_io_writer(self, format)
    }
}

impl<W: Write + Drop> WriteFormatted for LineWriter<W> {
    ghost held = { λ w. ⟦<LineWriter<W> as Write>⟧.contents w };

    fn write_formatted<F: Format, N: ToFormattedString>(
        &mut self,
        n: &N,
        format: &F,
    ) -> Result<usize, io::Error> {
        n.read_to_io_writer(self, format)
    }
}

impl WriteFormatted for Cursor<Vec<u8>> {
    ghost write_formatted_gives = { λ c text result d. WritesInVector (cursor_inner c).items
        (cursor_position c) text result (cursor_inner d).items (cursor_position d) };

    /// Writes the text of the number at the cursor's position, over the bytes that the vector has
    /// there, and moves the cursor to the end of the text. A cursor at the end of the vector
    /// appends the text. Returns the length of the text in bytes.
    ///
    /// # Errors
    ///
    /// Returns an error, of kind [`OutOfMemory`](io::ErrorKind::OutOfMemory), if the vector has to
    /// grow and there is no memory. The cursor is then where it was.
    fn write_formatted<F: Format, N: ToFormattedString>(
        &mut self,
        n: &N,
        format: &F,
    ) -> Result<usize, io::Error> {
        let buffer = Buffer::of(n, format);
        self.write(buffer.as_bytes())?;
        Ok(buffer.len())
    }
}

impl WriteFormatted for Cursor<&mut Vec<u8>> {
    ghost write_formatted_gives = { λ c _ result d. MovesInVector (cursor_position c) result
        (cursor_position d) };

    /// Writes the text of the number as into a `Cursor<Vec<u8>>`. The contract states the cursor's
    /// position, and not the bytes of the vector.
    ///
    /// # Errors
    ///
    /// Returns an error, of kind [`OutOfMemory`](io::ErrorKind::OutOfMemory), if the vector has to
    /// grow and there is no memory. The cursor is then where it was.
    fn write_formatted<F: Format, N: ToFormattedString>(
        &mut self,
        n: &N,
        format: &F,
    ) -> Result<usize, io::Error> {
        let buffer = Buffer::of(n, format);
        self.write(buffer.as_bytes())?;
        Ok(buffer.len())
    }
}

impl WriteFormatted for Cursor<&mut [u8]> {
    ghost write_formatted_gives = { λ c text result d. WritesInSlice (cursor_inner c).now
        (cursor_position c) text result (cursor_inner d).now (cursor_position d) };

    /// Writes the text of the number over the bytes of the slice from the cursor's position on,
    /// and moves the cursor to the end of the text. Returns the length of the text in bytes.
    ///
    /// # Errors
    ///
    /// Returns an error, of kind [`WriteZero`](io::ErrorKind::WriteZero), exactly if the slice has
    /// fewer bytes than the text from that position on. It received as much of the text as fits. Past
    /// its end it is unchanged, and so is the position.
    #[tactic(auto, using(crate::proofs::WritingLemmas::WritesInSlice_past_end))]
    fn write_formatted<F: Format, N: ToFormattedString>(
        &mut self,
        n: &N,
        format: &F,
    ) -> Result<usize, io::Error> {
        // Std's contract does not say that a write past the end leaves the slice as it was.
        if self.position() > self.get_ref().len() as u64 {
            return Err(io::Error::from(io::ErrorKind::WriteZero));
        }
        let buffer = Buffer::of(n, format);
        let written = self.write(buffer.as_bytes())?;
        all_written(written, buffer.len())
    }
}

impl WriteFormatted for Cursor<BoxedSlice<u8>> {
    ghost write_formatted_gives = { λ c text result d. MovesInSlice
        (length (boxed_slice_items (cursor_inner c))) (cursor_position c) text result (cursor_position d) };

    /// Writes the text of the number as into a `Cursor<&mut [u8]>`. The contract states the cursor's
    /// position, and not the bytes of the slice.
    ///
    /// # Errors
    ///
    /// Returns an error, of kind [`WriteZero`](io::ErrorKind::WriteZero), exactly if the slice has
    /// fewer bytes than the text from that position on. It received as much of the text as fits.
    fn write_formatted<F: Format, N: ToFormattedString>(
        &mut self,
        n: &N,
        format: &F,
    ) -> Result<usize, io::Error> {
        let buffer = Buffer::of(n, format);
        let written = self.write(buffer.as_bytes())?;
        all_written(written, buffer.len())
    }
}

impl WriteFormatted for &mut [u8] {
    ghost write_formatted_gives = { λ s text result t. WritesToSlice s.now text result t.now };

    /// Writes the text of the number to the start of the slice, and shortens the slice to the
    /// space after the text. Returns the length of the text in bytes.
    ///
    /// # Errors
    ///
    /// Returns an error, of kind [`WriteZero`](io::ErrorKind::WriteZero), exactly if the text is
    /// longer than the slice. The slice received as much of the text as fits, and is then empty.
    ///
    /// The contract states the space that is left, and not the bytes before it.
    fn write_formatted<F: Format, N: ToFormattedString>(
        &mut self,
        n: &N,
        format: &F,
    ) -> Result<usize, io::Error> {
        let buffer = Buffer::of(n, format);
        let written = self.write(buffer.as_bytes())?;
        all_written(written, buffer.len())
    }
}

/// Returns the length of a text in bytes if as many bytes were written, and else an error.
fn all_written(written: usize, count: usize) -> io::Result<usize>
    ensures value { OkIff result (count ≤ written) count }
    ensures kind { IfErr result (λ error. error_kind error ≡ WriteZero) }
{
    if written < count {
        return Err(io::Error::from(io::ErrorKind::WriteZero));
    }
    Ok(count)
}

impl WriteFormatted for File {
    fn write_formatted<F: Format, N: ToFormattedString>(
        &mut self,
        n: &N,
        format: &F,
    ) -> Result<usize, io::Error> {
        n.read_to_io_writer(self, format)
    }
}

impl WriteFormatted for &File {
    fn write_formatted<F: Format, N: ToFormattedString>(
        &mut self,
        n: &N,
        format: &F,
    ) -> Result<usize, io::Error> {
        n.read_to_io_writer(self, format)
    }
}

impl WriteFormatted for Sink {
    ghost write_formatted_gives = { λ _ _ result _. IsOk result };

    /// Returns the length of the text in bytes, and keeps nothing of the text. It never fails.
    fn write_formatted<F: Format, N: ToFormattedString>(
        &mut self,
        n: &N,
        format: &F,
    ) -> Result<usize, io::Error> {
        self.write(Buffer::of(n, format).as_bytes())
    }
}

impl WriteFormatted for Stdout {
    fn write_formatted<F: Format, N: ToFormattedString>(
        &mut self,
        n: &N,
        format: &F,
    ) -> Result<usize, io::Error> {
        n.read_to_io_writer(self, format)
    }
}

impl WriteFormatted for StdoutLock<'_> {
    fn write_formatted<F: Format, N: ToFormattedString>(
        &mut self,
        n: &N,
        format: &F,
    ) -> Result<usize, io::Error> {
        n.read_to_io_writer(self, format)
    }
}

impl WriteFormatted for Stderr {
    fn write_formatted<F: Format, N: ToFormattedString>(
        &mut self,
        n: &N,
        format: &F,
    ) -> Result<usize, io::Error> {
        n.read_to_io_writer(self, format)
    }
}

impl WriteFormatted for StderrLock<'_> {
    fn write_formatted<F: Format, N: ToFormattedString>(
        &mut self,
        n: &N,
        format: &F,
    ) -> Result<usize, io::Error> {
        n.read_to_io_writer(self, format)
    }
}
