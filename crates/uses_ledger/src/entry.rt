//! The entries of a ledger, and how they are read from its lines.
ghost use Rattle.std.specs.Prelude.{◌≡◌, ◌↔◌, Ok, Err, IfOk, IfErr, OnOk};
ghost use Rattle.std.specs.List.{AllZip};
ghost use Rattle.std.specs.Str.Lines.{lines};
ghost use Rattle.num_format_decimal.specs.FixedPoint.{FixedPoint};
ghost use Rattle.num_format_decimal.specs.Marks.{MarksDecimals};
ghost use Rattle.num_format_decimal.specs.Parsing.{IsAtScaleCause, ParsesAtScale};
ghost use Rattle.num_format_decimal.specs.declared.parsing.ParseAtScaleError.{ParseAtScaleError};
ghost use Rattle.uses_ledger.specs.Entry.{IsLineOf, IsOfOneScale, IsRefused, Refuses};

use num_format::Format;
use num_format_decimal::{Decimal, DecimalParser, ParseAtScaleError};
use std::alloc::Global;
use std::io;

/// How many decimals each amount of a ledger has.
pub const SCALE: u8 = 2;

/// A name and an amount.
#[derive(Clone, Copy)]
pub struct Entry<'a> {
    pub name: &'a str,
    pub amount: Decimal,
}

/// Why a ledger is refused.
#[derive(Debug, Drop, thiserror::Error)]
pub enum LedgerError {
    #[error("not every decimal reads back under the format")]
    AmbiguousFormat,
    #[error("a line has no tab")]
    NoTab,
    #[error("{0}")]
    Amount(ParseAtScaleError),
    #[error("the total is too large")]
    TotalTooLarge,
    #[error("out of memory")]
    NoMemory,
    #[error("output failed: {0}")]
    Output(io::Error),
}

/// Returns the amount for which a text is canonical: the text is that of a decimal, grouped or not, and the amount is
/// the same number at the scale of the ledger. Under `en` the text `1,234.5` is canonical for 1234.50, and `1.255` is
/// refused with `Rescale(DigitsLost)`.
pub fn parse_amount<'a, F: Format>(
    text: &str,
    parser: &DecimalParser<'a, F>,
) -> Result<Decimal, ParseAtScaleError>
    ensures exact { (amount : FixedPoint) → (result ≡ Ok amount)
        ↔ ParsesAtScale parser.now text.now SCALE amount }
    ensures refused { (e : ParseAtScaleError) → (result ≡ Err e)
        ↔ IsAtScaleCause parser.now text.now SCALE e }
{
    parser.parse_at_scale(text, SCALE)
}

/// Returns the entry of a line: the name stands before the first tab, and the amount after it.
///
/// # Errors
///
/// Returns [`LedgerError::NoTab`], or the cause for which the amount is refused.
pub fn parse_entry<'a, 'b, F: Format>(
    line: &'a str,
    parser: &DecimalParser<'b, F>,
) -> Result<Entry<'a>, LedgerError>
    ensures entry { IfOk result (IsLineOf parser.now line.now) }
    ensures refused { IfErr result (Refuses parser.now line.now) }
{
    let (name, amount) = line.split_once('\t').ok_or(LedgerError::NoTab)?;
    match parse_amount(amount, parser) {
        Ok(amount) => Ok(Entry { name, amount }),
        Err(error) => Err(LedgerError::Amount(error)),
    }
}

/// Returns the entries of all lines, in their order. Their amounts are of one scale.
///
/// # Errors
///
/// Returns [`LedgerError::AmbiguousFormat`] where not every decimal reads back under the format, else the
/// error of the first line that is refused, or [`LedgerError::NoMemory`] where there is none for the lines before it.
pub fn read_entries<'a, F: Format>(
    alloc: Global,
    text: &'a str,
    format: &F,
) -> Result<Vec<Entry<'a>>, LedgerError>
    ensures entries { IfOk result (λ entries.
        AllZip (IsLineOf (F.answers format.now)) (lines text.now) entries.items) }
    ensures one_scale { IfOk result (λ entries. IsOfOneScale entries.items) }
    ensures reads_back { OnOk result (MarksDecimals (F.answers format.now)) }
    ensures refused { IfErr result (IsRefused (F.answers format.now) (lines text.now)) }
{
    let Ok(parser) = DecimalParser::new(format) else {
        return Err(LedgerError::AmbiguousFormat);
    };
    let mut entries = Vec::new(alloc);
    for line in text.lines() {
        // A `?` on a value that holds both a `&str` and a `Decimal` gets no proof.
        let entry = match parse_entry(line, &parser) {
            Ok(entry) => entry,
            Err(error) => return Err(error),
        };
        if entries.push(entry).is_err() {
            return Err(LedgerError::NoMemory);
        }
    }
    Ok(entries)
}
