//! The sums of fields of all inputs.
ghost use Rattle.std.specs.Prelude.{◌≡◌, ◌⊎◌, ◌+◌, ◌++◌, [], Err, IfOk, IfSome, OnOk, Some, is_some, length, map, not};
ghost use Rattle.std.specs.Io.Buffered.{writer_buffer, writer_contents};
ghost use Rattle.std.specs.List.{list_all};
ghost use Rattle.std.specs.Option.{option_map};
ghost use Rattle.std.specs.Result.{result_map_both};
ghost use Rattle.std.specs.declared.io.ErrorKind.TheVariants.{OutOfMemory};
ghost use Rattle.regroup_lines.specs.Sending.{by_writer};
ghost use Rattle.regroup_stream.specs.SumAll.{Ends, EndsUnsummed, ReadsTotal, SumsAll, Totals, numbers_alone};
ghost use Rattle.regroup_stream.specs.SumAll.{sum_rules, sum_text, sums_text, total_of};
ghost use Rattle.regroup_stream.specs.Words.{plain};
ghost use Rattle.regroup_stream.specs.declared.sums.Unsummed.TheVariants.{Failed};

use crate::ending::{FAILED, FAULTY, send};
use crate::inputs::{Open, run_each};
use crate::named_format::NamedFormat;
use crate::summing::{Log, Summing};
use crate::sums::Unsummed;
use crate::{Formats, run};
use num_format::{CustomFormat, Grouping};
use num_format_decimal::{Decimal, DecimalBuffer, DecimalParser};
use regroup_lines::{FieldRange, Fields, Invalid, Output, Parsing, Quoting, Reading, Rules, Span};
use std::alloc::{AllocError, Global};
use std::io::{BufWriter, ErrorKind, Write};

/// The message of a sum that is past 128 bits.
const TOO_LARGE: &str = "regroup-lines: a sum has more than 128 bits\n";

/// Adds up the numbers in each chosen field of the lines of the inputs, and writes the sums to `out` in place of lines,
/// as one line: those of the columns in turn, between them the delimiter of the output, and in quotes where they need
/// these. Each has as many decimals as the summand with most. Returns the status, which is the higher one of those of
/// [`run_all`](crate::run_all) and of that line.
///
/// `log` receives the numbers that are added, a line for each line that is valid: it has to hold no byte before, and
/// [`NoLog`](crate::NoLog) drops them. The contract says whose sums are written where the log keeps them: with `NoLog`
/// the same code runs, and the contract says nothing of the sums. `err` receives the messages of `run_all`. Invalid
/// lines are sent to `rejects` if they do not end the run, and headers nowhere. The fields are those of
/// [`Span::Fields`], and lines end with a newline or NUL. Nothing is sent to `out`:
///
/// - where not all lines of each input were taken, as where one cannot be opened;
/// - where a sum, also that of the lines so far, has more than 128 bits with all its decimals: a message says so, and
///   the status is [`FAULTY`](crate::FAULTY);
/// - where no line has a number. A field without one is empty beside others.
pub fn sum_all<I: Open, L: Log + Drop, O: Write + Drop, E: Write, X: Write + Drop>(
    alloc: Global,
    rules: &Rules,
    field_names: &[&str],
    formats: Formats,
    names: &[&str],
    buffer: &mut [u8],
    inputs: &I,
    log: L,
    out: &mut BufWriter<O>,
    err: &mut E,
    rejects: &mut BufWriter<X>,
) -> u8
    requires buffer { length buffer.old ≡ rules.now.max_line_len + 1 }
    requires log { IfSome (L.received log) (λ bytes. bytes ≡ []) }
    ensures { SumsAll (I.opens inputs.now) rules.now (map (λ name. name.now) field_names.now)
        formats.from formats.to (map (λ name. name.now) names.now) (L.received log) result
        (by_writer (writer_contents O.contents out.old) (E.contents err.old) (writer_contents X.contents rejects.old))
        (by_writer (writer_contents O.contents out.new) (E.contents err.new) (writer_contents X.contents rejects.new))
        (by_writer (writer_buffer out.old) [] (writer_buffer rejects.old))
        (by_writer (writer_buffer out.new) [] (writer_buffer rejects.new)) }
{
    let Formats { from, to } = formats;
    let Ok(plain) = CustomFormat::new("", Grouping::Posix, "-") else {
        return FAILED;
    };
    let reading = Formats {
        from,
        to: NamedFormat::latin(plain),
    };
    let Ok(parser) = DecimalParser::new(&reading.to.format) else {
        return FAILED;
    };
    let (status, total) = read_total(
        alloc,
        rules,
        field_names,
        &reading,
        parser,
        names,
        buffer,
        inputs,
        log,
        err,
        rejects,
    );
    let writing = Formats {
        from: reading.to,
        to,
    };
    let ended = end_total(
        alloc, rules, &writing, status, total, buffer, out, err, rejects,
    );
    status.max(ended)
}

/// Writes a total, or says why there is none, and returns the status: this one where nothing is said.
fn end_total<O: Write + Drop, E: Write, X: Write + Drop>(
    alloc: Global,
    rules: &Rules,
    formats: &Formats,
    status: u8,
    total: Result<Option<Vec<u8>>, Unsummed>,
    buffer: &mut [u8],
    out: &mut BufWriter<O>,
    err: &mut E,
    rejects: &mut BufWriter<X>,
) -> u8
    requires { length buffer.old ≡ rules.now.max_line_len + 1 }
    ensures { Ends rules.now formats.now.from formats.now.to status
        (result_map_both (λ text. option_map (λ bytes. bytes.items) text) (λ why. why) total) result
        (by_writer (writer_contents O.contents out.old) (E.contents err.old) (writer_contents X.contents rejects.old))
        (by_writer (writer_contents O.contents out.new) (E.contents err.new) (writer_contents X.contents rejects.new))
        (by_writer (writer_buffer out.old) [] (writer_buffer rejects.old))
        (by_writer (writer_buffer out.new) [] (writer_buffer rejects.new)) }
{
    match total {
        Ok(Some(text)) => {
            let list = [FieldRange {
                first: 1,
                last: None,
            }];
            let rules = sum_rules(rules, &list);
            let text = text.as_slice();
            run(alloc, &rules, formats, "-", buffer, text, out, err, rejects)
        }
        Ok(None) => status,
        Err(why) => end_unsummed(why, err),
    }
}

/// Says why there is no total, and returns the status.
fn end_unsummed<E: Write>(why: Unsummed, err: &mut E) -> u8
    ensures { EndsUnsummed why result (E.contents err.old) (E.contents err.new) }
{
    match why {
        Unsummed::TooLarge => send(TOO_LARGE, FAULTY, err),
        Unsummed::Failed(_) => FAILED,
    }
}

/// Runs over the inputs with a log that holds no byte and a parser of the format of the numbers that are written, and
/// returns the same as [`total`].
///
/// # Errors
///
/// Returns why there are no sums.
fn read_total<I: Open, L: Log + Drop, E: Write, X: Write + Drop>(
    alloc: Global,
    rules: &Rules,
    field_names: &[&str],
    formats: &Formats,
    parser: DecimalParser<'_, CustomFormat>,
    names: &[&str],
    buffer: &mut [u8],
    inputs: &I,
    log: L,
    err: &mut E,
    rejects: &mut BufWriter<X>,
) -> (u8, Result<Option<Vec<u8>>, Unsummed>)
    requires buffer { length buffer.old ≡ rules.now.max_line_len + 1 }
    requires log { IfSome (L.received log) (λ bytes. bytes ≡ []) }
    requires plain { plain ≡ Some parser }
    ensures { ReadsTotal (I.opens inputs.now) rules.now (map (λ name. name.now) field_names.now)
        formats.now.from formats.now.to (map (λ name. name.now) names.now) (L.received log) result.0
        (result_map_both (λ text. option_map (λ bytes. bytes.items) text) (λ why. why) result.1)
        (E.contents err.old) (E.contents err.new) (writer_contents X.contents rejects.old)
        (writer_contents X.contents rejects.new) (writer_buffer rejects.old) (writer_buffer rejects.new) }
{
    let summing = Summing::new(alloc, parser, log);
    let Ok(mut numbers) = BufWriter::with_capacity(alloc, 0, summing) else {
        return (FAILED, Ok(None));
    };
    total(
        alloc,
        rules,
        field_names,
        formats,
        names,
        buffer,
        inputs,
        &mut numbers,
        err,
        rejects,
    )
}

/// Runs over the inputs, and returns the status, and the sums in the format of the numbers that are written, with tabs
/// between them. There are none if not all lines of the inputs were taken.
///
/// # Errors
///
/// Returns why there are no sums.
fn total<I: Open, L: Log + Drop, E: Write, X: Write + Drop>(
    alloc: Global,
    rules: &Rules,
    field_names: &[&str],
    formats: &Formats,
    names: &[&str],
    buffer: &mut [u8],
    inputs: &I,
    numbers: &mut BufWriter<Summing<'_, L>>,
    err: &mut E,
    rejects: &mut BufWriter<X>,
) -> (u8, Result<Option<Vec<u8>>, Unsummed>)
    requires { length buffer.old ≡ rules.now.max_line_len + 1 }
    ensures { Totals (I.opens inputs.now) rules.now (map (λ name. name.now) field_names.now)
        formats.now.from formats.now.to (map (λ name. name.now) names.now) result.0
        (result_map_both (λ text. option_map (λ bytes. bytes.items) text) (λ why. why) result.1)
        (by_writer (writer_contents (λ summing. L.received summing.log) numbers.old) (E.contents err.old)
        (writer_contents X.contents rejects.old))
        (by_writer (writer_contents (λ summing. L.received summing.log) numbers.new) (E.contents err.new)
        (writer_contents X.contents rejects.new))
        (by_writer (writer_buffer numbers.old) [] (writer_buffer rejects.old))
        (by_writer (writer_buffer numbers.new) [] (writer_buffer rejects.new)) }
{
    let (status, is_whole) = run_each(
        alloc,
        &numbers_alone(rules),
        field_names,
        formats,
        names,
        buffer,
        inputs,
        numbers,
        err,
        rejects,
    );
    (
        status,
        total_text(alloc, is_whole, &formats.to.format, numbers.get_ref()),
    )
}

/// Returns the text of the sums, if all lines were taken.
///
/// # Errors
///
/// Returns why there are no sums.
fn total_text<L: Log + Drop>(
    alloc: Global,
    is_whole: bool,
    format: &CustomFormat,
    summing: &Summing<'_, L>,
) -> Result<Option<Vec<u8>>, Unsummed>
    ensures { let total = result_map_both (λ text. option_map (λ bytes. bytes.items) text) (λ why. why) result in
        (total ≡ total_of format.now is_whole summing.now.failure summing.now.sums.items)
        ⊎ (total ≡ Err (Failed OutOfMemory)) }
{
    if !is_whole {
        return Ok(None);
    }
    if let Some(failure) = summing.failure {
        return Err(failure);
    }
    match text_of(alloc, format, &summing.sums) {
        Ok(text) => Ok(Some(text)),
        Err(_) => Err(Unsummed::Failed(ErrorKind::OutOfMemory)),
    }
}

/// Returns rules by which the chosen fields of valid lines are written alone, with tabs between them, and of each its
/// number alone.
fn numbers_alone<'a>(rules: &Rules<'a>) -> Rules<'a>
    ensures { result ≡ numbers_alone rules.now }
{
    let output = Output {
        delimiter: b'\t',
        quoting: Quoting::Bare,
    };
    Rules {
        span: match rules.span {
            Span::Fields(fields) => Span::Fields(Fields {
                output: Some(output),
                only: true,
                ..fields
            }),
            span => span,
        },
        rejects: true,
        ..*rules
    }
}

/// Returns rules by which the numbers of all fields between tabs are written with the delimiter of the output between
/// them, and in quotes where they need these.
fn sum_rules<'a>(rules: &Rules<'_>, list: &'a [FieldRange]) -> Rules<'a>
    ensures { result ≡ sum_rules rules.now list.entry }
{
    let delimiter = match &rules.span {
        Span::Fields(fields) => fields.output_delimiter(),
        Span::Line | Span::Trimmed => b'\t',
    };
    Rules {
        span: Span::Fields(Fields {
            list,
            delimiter: b'\t',
            quotes: false,
            output: Some(Output {
                delimiter,
                quoting: Quoting::Necessary,
            }),
            only: false,
            blanks: false,
        }),
        affixes: None,
        reading: Reading {
            parsing: Parsing::Strict,
            scale: None,
        },
        header_lines: 0,
        passes_empty: true,
        invalid: Invalid::Abort,
        rejects: false,
        line_end: rules.line_end,
        max_line_len: rules.max_line_len,
        flushes: false,
    }
}

/// Returns the texts of sums with tabs between them, or no text if no column has a number.
///
/// # Errors
///
/// Returns an error if there is no memory for it.
fn text_of(
    alloc: Global,
    format: &CustomFormat,
    sums: &[Option<Decimal>],
) -> Result<Vec<u8>, AllocError>
    ensures { IfOk result (λ text. text.items ≡ sums_text format.now sums.now) }
{
    let mut text = Vec::new(alloc);
    if are_none(sums) {
        return Ok(text);
    }
    for sum in sums {
        append_sum(sum, format, &mut text)?;
        text.push(b'\t')?;
    }
    text.pop();
    Ok(text)
}

/// Returns whether no column has a number.
fn are_none(sums: &[Option<Decimal>]) -> bool
    ensures { result ≡ list_all (λ sum. not (is_some sum)) sums.now }
{
    sums.iter().all(|sum| sum.is_none())
}

/// Appends the text of a sum, if there is one.
///
/// # Errors
///
/// Returns an error if there is no memory for it.
fn append_sum(
    sum: &Option<Decimal>,
    format: &CustomFormat,
    text: &mut Vec<u8>,
) -> Result<(), AllocError>
    ensures { OnOk result (text.new.items ≡ text.old.items ++ sum_text format.now sum.now) }
{
    if let Some(sum) = sum {
        let number = DecimalBuffer::of(sum, format);
        text.extend_from_slice(number.as_str().as_bytes())?;
    }
    Ok(())
}
