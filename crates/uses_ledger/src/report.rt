//! A ledger printed in columns, with its total.
ghost use Rattle.std.specs.Prelude.{◌≡◌, length, replicate, Err, IfOk, IfErr, OnOk, OnErr};
ghost use Rattle.std.specs.Io.KnownBytes.{Appends};
ghost use Rattle.num_format.specs.Writing.{StopsWithin};
ghost use Rattle.num_format_decimal.specs.FixedPoint.{fixed_point};
ghost use Rattle.num_format_decimal.specs.Text.{decimal_text};
ghost use Rattle.uses_ledger.specs.Entry.{IsOfOneScale};
ghost use Rattle.uses_ledger.specs.Report.{Fails, HasLargeSum, line_of, lines_of, on_left, on_right, report_of, sum_of};
ghost use Rattle.uses_ledger.specs.Report.{units_of, width, widths_of};
ghost use Rattle.uses_ledger.specs.declared.entry.LedgerError.TheVariants.{TotalTooLarge};

use crate::entry::{Entry, LedgerError, SCALE};
use num_format::Format;
use num_format::to_formatted_string::write_whole;
use num_format_decimal::{Decimal, DecimalBuffer};
use std::io;
use std::io::Write;

/// Returns the sum of the amounts.
///
/// # Errors
///
/// Returns [`LedgerError::TotalTooLarge`] where the first entries, or all, have a sum whose units are no `i128`.
#[tactic(auto, using(crate::proofs::SumLemmas::next_sum_is_large))]
pub fn total(entries: &[Entry]) -> Result<Decimal, LedgerError>
    ensures sum { IfOk result (λ sum. sum ≡ sum_of entries.now) }
    ensures units { IsOfOneScale entries.now →
        IfOk result (λ sum. sum ≡ fixed_point (units_of entries.now) SCALE) }
    ensures error { IfErr result (λ e. e ≡ TotalTooLarge) }
    ensures too_large { OnErr result (HasLargeSum entries.now) }
    ensures fits { OnOk result (¬ (HasLargeSum entries.now)) }
{
    let mut sum = Decimal::new(0, SCALE).unwrap();
    for entry in entries {
        sum = sum
            .checked_add(entry.amount)
            .ok_or(LedgerError::TotalTooLarge)?;
    }
    Ok(sum)
}

/// Writes a line for each entry, and a line with the total, in two columns: the names on the left, and the
/// amounts, as the format writes them, on the right. Each column is as wide as its widest text, in characters.
///
/// ```text
/// rent   -1,250.00
/// books      89.50
/// total  -1,160.50
/// ```
///
/// # Errors
///
/// Returns the error of [`total`] before anything is written, or else that of the first write that
/// fails, also of one that was interrupted, or that writes no bytes. The writer then received a prefix
/// of the report, and not all of it.
pub fn write_report<F: Format, W: Write>(
    entries: &[Entry],
    format: &F,
    w: &mut W,
) -> Result<(), LedgerError>
    ensures written { OnOk result (Appends (W.contents w.old) (W.contents w.new)
        (report_of (F.answers format.now) entries.now)) }
    ensures prefix { OnErr result (StopsWithin (W.contents w.old) (W.contents w.new)
        (report_of (F.answers format.now) entries.now)) }
    ensures too_large { HasLargeSum entries.now →
        (result ≡ Err TotalTooLarge) × (W.contents w.new ≡ W.contents w.old) }
    ensures failed { IfErr result (Fails entries.now) }
{
    let sum = total(entries)?;
    let widths = Widths::of(entries, &sum, format);
    write_lines(entries, &sum, widths, format, w).map_err(LedgerError::Output)
}

/// The widths of the columns, in characters.
#[derive(Clone, Copy)]
struct Widths {
    name: usize,
    amount: usize,
}

impl Widths {
    /// Returns the widths of the columns of a report, where the entries have that sum.
    fn of<F: Format>(entries: &[Entry], sum: &Decimal, format: &F) -> Widths
        requires { sum.now ≡ sum_of entries.now }
        ensures { result ≡ widths_of (F.answers format.now) entries.now }
    {
        let names = entries.iter().map(|entry| width(entry.name));
        let amounts = entries
            .iter()
            .map(|entry| amount_width(&entry.amount, format));
        Widths {
            name: names.max().unwrap_or(0).max(width("total")),
            amount: amounts.max().unwrap_or(0).max(amount_width(sum, format)),
        }
    }
}

/// Returns the number of characters of the text of an amount.
fn amount_width<F: Format>(amount: &Decimal, format: &F) -> usize
    ensures { result ≡ width (decimal_text (F.answers format.now) amount.now) }
{
    width(DecimalBuffer::of(amount, format).as_str())
}

/// Returns the number of characters of a text.
fn width(text: &str) -> usize
    ensures { result ≡ width text.now }
{
    text.chars().count()
}

/// Writes a line for each entry, and a line with the total.
fn write_lines<F: Format, W: Write>(
    entries: &[Entry],
    sum: &Decimal,
    widths: Widths,
    format: &F,
    w: &mut W,
) -> io::Result<()>
    ensures whole { OnOk result (Appends (W.contents w.old) (W.contents w.new)
        (lines_of (F.answers format.now) widths entries.now sum.now)) }
    ensures prefix { OnErr result (StopsWithin (W.contents w.old) (W.contents w.new)
        (lines_of (F.answers format.now) widths entries.now sum.now)) }
{
    for entry in entries {
        write_line(entry.name, &entry.amount, widths, format, w)?;
    }
    write_line("total", sum, widths, format, w)
}

/// Writes a name, two spaces, the amount and a newline, the name and the amount in their columns.
fn write_line<F: Format, W: Write>(
    name: &str,
    amount: &Decimal,
    widths: Widths,
    format: &F,
    w: &mut W,
) -> io::Result<()>
    ensures whole { OnOk result (Appends (W.contents w.old) (W.contents w.new)
        (line_of (F.answers format.now) widths name.now amount.now)) }
    ensures prefix { OnErr result (StopsWithin (W.contents w.old) (W.contents w.new)
        (line_of (F.answers format.now) widths name.now amount.now)) }
{
    let amount = DecimalBuffer::of(amount, format);
    write_on_left(name, widths.name, w)?;
    write_whole(b"  ", w)?;
    write_on_right(amount.as_str(), widths.amount, w)?;
    write_whole(b"\n", w)?;
    Ok(())
}

/// Writes a text, and then spaces up to the width of a column.
fn write_on_left<W: Write>(text: &str, column: usize, w: &mut W) -> io::Result<()>
    ensures whole { OnOk result (Appends (W.contents w.old) (W.contents w.new)
        (on_left column text.now)) }
    ensures prefix { OnErr result (StopsWithin (W.contents w.old) (W.contents w.new)
        (on_left column text.now)) }
{
    write_whole(text.as_bytes(), w)?;
    write_spaces(column.saturating_sub(width(text)), w)
}

/// Writes spaces up to the width of a column, and then the text.
fn write_on_right<W: Write>(text: &str, column: usize, w: &mut W) -> io::Result<()>
    ensures whole { OnOk result (Appends (W.contents w.old) (W.contents w.new)
        (on_right column text.now)) }
    ensures prefix { OnErr result (StopsWithin (W.contents w.old) (W.contents w.new)
        (on_right column text.now)) }
{
    write_spaces(column.saturating_sub(width(text)), w)?;
    write_whole(text.as_bytes(), w)?;
    Ok(())
}

/// Writes that many spaces. The contract of `write!` does not say what a writer received before an error.
fn write_spaces<W: Write>(count: usize, w: &mut W) -> io::Result<()>
    ensures whole { OnOk result (Appends (W.contents w.old) (W.contents w.new) (replicate count 32)) }
    ensures prefix { OnErr result (StopsWithin (W.contents w.old) (W.contents w.new)
        (replicate count 32)) }
{
    for _ in 0..count {
        write_whole(b" ", w)?;
    }
    Ok(())
}
