//! Decimals into strings and writers, and displayed in columns.
ghost use Rattle.std.specs.Prelude.{◌≡◌, length, Some, IfOk, OnOk, string_bytes};
ghost use Rattle.std.specs.Fmt.{spec_align, spec_fill, spec_width};
ghost use Rattle.num_format_writers.specs.Columns.{filled};
ghost use Rattle.num_format_writers.specs.Writing.{Writes};
ghost use Rattle.num_format_decimal.specs.Text.{decimal_text};

use crate::buffer::DecimalBuffer;
use crate::decimal::Decimal;
use num_format_text::Format;
use num_format_writers::formatted::write_filled;
use num_format_writers::to_formatted_string::write_whole;
use std::alloc::{AllocError, Global};
use std::marker::Model;
use std::{fmt, io};

impl Decimal {
    /// Writes the text of the number to a writer of text, by one call of `write_str`. Returns the length of
    /// the text in bytes.
    ///
    /// ```rust
    /// let mut line = String::new(alloc);
    /// Decimal::new(123450, 2)?.read_to_fmt_writer(&mut line, &Locale::en)?    // 8
    /// line                                                                    // "1,234.50"
    /// ```
    ///
    /// # Errors
    ///
    /// Returns the error of that call. The contract does not say what the writer received by then.
    pub fn read_to_fmt_writer<F: Format, W: fmt::Write>(
        &self,
        w: &mut W,
        format: &F,
    ) -> Result<usize, fmt::Error>
        ensures whole { OnOk result
            (W.write_str_gives w.old (decimal_text (F.answers format.now) self.now) w.new) }
        ensures count { IfOk result
            (λ count. count ≡ length (decimal_text (F.answers format.now) self.now)) }
    {
        let buffer = DecimalBuffer::of(self, format);
        w.write_str(buffer.as_str())?;
        Ok(buffer.as_str().len())
    }

    /// Writes the text of the number to a writer of bytes, in as many writes as it takes. Returns the length
    /// of the text in bytes.
    ///
    /// ```rust
    /// let mut bytes = Vec::new(alloc);
    /// Decimal::new(5, 1)?.read_to_io_writer(&mut bytes, &Locale::en)?    // 3
    /// bytes                                                              // [48, 46, 53]
    /// ```
    ///
    /// # Errors
    ///
    /// Returns the error of the first write that fails, or [`WriteZero`](io::ErrorKind::WriteZero) if one writes no
    /// bytes. The writer then received a prefix of the text, and not all of it.
    pub fn read_to_io_writer<F: Format, W: io::Write>(
        &self,
        w: &mut W,
        format: &F,
    ) -> Result<usize, io::Error>
        ensures { Writes result (W.contents w.old) (W.contents w.new)
            (decimal_text (F.answers format.now) self.now) }
    {
        write_whole(DecimalBuffer::of(self, format).as_bytes(), w)
    }

    /// Returns the text of the number as a new string.
    ///
    /// ```rust
    /// Decimal::new(123450, 2)?.to_formatted_string(alloc, &Locale::en)?    // "1,234.50"
    /// ```
    ///
    /// # Errors
    ///
    /// Returns an error if there is no memory for the string.
    pub fn to_formatted_string<F: Format>(
        &self,
        alloc: Global,
        format: &F,
    ) -> Result<String, AllocError>
        ensures { IfOk result
            (λ text. string_bytes text ≡ decimal_text (F.answers format.now) self.now) }
    {
        String::from_str(alloc, DecimalBuffer::of(self, format).as_str())
    }

    /// Returns the number, to be displayed under the format. It needs no memory, and a width counts: see
    /// [`FormattedDecimal`].
    ///
    /// ```rust
    /// println!(rt; "{:>12}", Decimal::new(123450, 2)?.formatted(&Locale::en))    // "    1,234.50"
    /// ```
    pub fn formatted<'a, F: Format>(&'a self, format: &'a F) -> FormattedDecimal<'a, F>
        ensures { result ≡ decimal_text (F.answers format.now) self.now }
    {
        FormattedDecimal { d: self, format }
    }
}

/// A decimal to be displayed under a format. A contract sees its text.
///
/// Width, fill and alignment count as for a [`Formatted`](num_format_writers::Formatted) whole number.
#[derive(Drop)]
pub struct FormattedDecimal<'a, F: Format> {
    d: &'a Decimal,
    format: &'a F,
}

impl<'a, F: Format> Model for FormattedDecimal<'a, F> {
    ghost use Rattle.std.specs.Prelude.{ℕ, List};
    ghost use Rattle.num_format_decimal.specs.Text.{decimal_text};

    ghost Value = { List ℕ };

    ghost view = { λ x. decimal_text (F.answers x.format.now) x.d.now };
}

impl<'a, F: Format> fmt::Display for FormattedDecimal<'a, F> {
    ghost output = { λ text. Some text };

    ghost styled_output = { λ text spec. Some (filled (spec_width spec) (spec_align spec)
        (spec_fill spec) text) };

    #[tactic(auto, using(num_format_writers::proofs::ColumnLemmas::writes_plain))]
    fn fmt<W: fmt::Write>(&self, f: &mut fmt::Formatter<W>) -> fmt::Result {
        write_filled(DecimalBuffer::of(self.d, self.format).as_str(), f)
    }
}

impl<'a, F: Format> fmt::Debug for FormattedDecimal<'a, F> {
    ghost debug_output = { λ text. Some text };

    fn fmt<W: fmt::Write>(&self, f: &mut fmt::Formatter<W>) -> fmt::Result {
        fmt::Display::fmt(self, f)
    }
}
