//! Lines of numbers from one format to another, as many as a `u64` counts: the program `regroup-lines`
//! over any reader and any three writers.
//!
//! Any file may be changed. A status or a message that changes also changes in `man/regroup-lines.1`.
//!
//! | Status | Standard output | Standard error |
//! |---|---|---|
//! | 0 | each line, or one at fault as it is | nothing, or with [`Invalid::Warn`] the message of each line at fault |
//! | 1 | the lines before the one at fault; or nothing of an input that cannot be opened, or is the output | its message |
//! | 1 | with [`Invalid::Fail`] each line, or one at fault as it is | the message of each line at fault |
//! | 2 | nothing | what is wrong with the words, or the name that is not that of one field of a header |
//! | 3 | the lines before a read or a write failed | which, and why if it is known, after the messages of those lines |
//! | 141 | the lines before it was closed | the messages of those lines |
//!
//! The status is 3 also where a message or a rejected line could not be written. That of several inputs is the highest.
//! If the rules ask for that, lines at fault are sent to a writer of their own, and not to standard output.
#![tactic(auto)]

mod ending;
mod files;
mod inputs;
mod list;
mod named_format;
mod names;
mod options;
mod summing;
mod sums;
mod totals;
mod watched;
mod words;

ghost use Rattle.std.specs.Prelude.{◌≡◌, ◌+◌, [], None, length};
ghost use Rattle.std.specs.Io.Buffered.{writer_buffer, writer_contents};
ghost use Rattle.std.specs.Io.KnownBytes.{Keeps};
ghost use Rattle.std.specs.Result.{result_map_both};
ghost use Rattle.regroup_faults.specs.Fault.{fault_of};
ghost use Rattle.regroup_stream.specs.Ending.{Finishes, end_of, end_of_lines};
ghost use Rattle.regroup_stream.specs.Ending.End.{IsOutput, Unopened};
ghost use Rattle.regroup_lines.specs.Sending.{by_writer};
ghost use Rattle.regroup_stream.specs.Stream.{RegroupsAll, Runs, end_of_result};

use crate::ending::Ending;
pub use crate::ending::{CLOSED, FAILED, FAULTY, MISUSED, REGROUPED};
pub use crate::files::FileFault;
pub use crate::inputs::{Open, Unread, run_all};
pub use crate::list::{FieldList, field_list};
pub use crate::named_format::NamedFormat;
pub use crate::options::{OptionFault, Options};
pub use crate::summing::{Log, NoLog};
pub use crate::totals::sum_all;
use crate::watched::Watched;
pub use crate::words::{
    Ambiguity, Formats, Misuse, Source, formats_for, formats_named, refuse_arguments,
};
use num_format::CustomFormat;
use regroup_faults::fault_message;
pub use regroup_lines::{
    FieldRange, Fields, Invalid, Output, Parsing, Quoting, Reading, Rounding, Rules, Scale, Span,
};
use regroup_lines::{Notation, RegroupFault, Summary, regroup_at_most};
use std::alloc::Global;
use std::io::{BufWriter, ErrorKind, Read, Write};

/// Regroups the lines of `input` from one format to another, flushes `out` and `rejects`, and returns the exit status.
/// Messages have the name of the input, which is `-` for standard input. It is read into `buffer`, which has one byte
/// more than a line may have. Where the rules say so, `rejects` receives the lines at fault, and `out` does not.
///
/// - [`REGROUPED`] (0): `out` received each line, and `err` nothing, or with [`Invalid::Warn`] the message of each line
///   at fault, which is passed on as it is.
/// - [`FAULTY`] (1): `out` received the lines before the first one at fault, and `err` its message and
///   a newline. Lines are numbered from 1. Or else, with [`Invalid::Fail`], as with `Warn` where a line is at fault.
/// - [`FAILED`] (3): a read failed, also one that was interrupted, a write to `out` or a flush of it, and `err`
///   received a message with the kind of the error if it is known, after those of lines that were passed on. `out`
///   received the lines before that, and what was read of a long line that is passed on, or a prefix of these where a
///   write failed. So too where there are more lines than a `u64` counts, and where a write to `rejects` or a flush of
///   it failed. Or else `err` did not receive all of its messages.
/// - [`CLOSED`] (141): a write or a flush failed since nothing reads `out`, and `err` received the messages of lines
///   that were passed on, and no more.
///
/// ```rust
/// let rules = Rules {
///     span: Span::Line,
///     affixes: None,
///     reading: Reading { parsing: Parsing::Strict, scale: None },
///     header_lines: 0,
///     passes_empty: false,
///     invalid: Invalid::Warn,
///     rejects: true,
///     line_end: b'\n',
///     max_line_len: 99,
///     flushes: true,
/// };
/// let formats = formats_named(alloc, rules.reading.parsing, Source::Word("en"), Source::Word("de")).unwrap();
/// let mut out = BufWriter::new(alloc, Vec::new(alloc))?;
/// let mut rejects = BufWriter::new(alloc, Vec::new(alloc))?;
/// let mut err = Vec::new(alloc);
/// let mut buffer = [0; 100];
/// run(alloc, &rules, &formats, "-", &mut buffer, "1,000\nx\n".as_bytes(), &mut out, &mut err, &mut rejects)    // 0
/// str::from_utf8(out.get_ref())        // Ok("1.000\n")
/// str::from_utf8(rejects.get_ref())    // Ok("x\n")
/// ```
pub fn run<R: Read + Drop, O: Write + Drop, E: Write, X: Write + Drop>(
    alloc: Global,
    rules: &Rules,
    formats: &Formats,
    name: &str,
    buffer: &mut [u8],
    input: R,
    out: &mut BufWriter<O>,
    err: &mut E,
    rejects: &mut BufWriter<X>,
) -> u8
    requires { length buffer.old ≡ rules.now.max_line_len + 1 }
    ensures { Runs rules.now formats.now.from formats.now.to name.now result (R.remaining input)
        (by_writer (writer_contents O.contents out.old) (E.contents err.old) (writer_contents X.contents rejects.old))
        (by_writer (writer_contents O.contents out.new) (E.contents err.new) (writer_contents X.contents rejects.new))
        (by_writer (writer_buffer out.new) [] (writer_buffer rejects.new)) }
{
    regroup(
        alloc, rules, formats, name, buffer, input, out, err, rejects,
    )
    .finish(name, err)
}

/// Sends the message of an input that cannot be opened, and returns the status: [`FAULTY`], or [`FAILED`] if not all
/// of the message could be sent.
///
/// ```rust
/// let mut err = Vec::new(alloc);
/// refuse("x.tsv", io::ErrorKind::NotFound, &mut err)    // 1
/// str::from_utf8(&err)    // Ok("regroup-lines: x.tsv: cannot open: No such file or directory\n")
/// ```
pub fn refuse<E: Write>(name: &str, kind: ErrorKind, err: &mut E) -> u8
    ensures { Finishes name.now (Unopened kind) result (E.contents err.old) (E.contents err.new) }
{
    Ending::Unopened(kind).finish(name, err)
}

/// Sends the message of an input that is the output, and returns the status, as [`refuse`] does.
///
/// ```rust
/// let mut err = Vec::new(alloc);
/// refuse_output("x.tsv", &mut err)    // 1
/// str::from_utf8(&err)    // Ok("regroup-lines: x.tsv: input file is output file\n")
/// ```
pub fn refuse_output<E: Write>(name: &str, err: &mut E) -> u8
    ensures { Finishes name.now IsOutput result (E.contents err.old) (E.contents err.new) }
{
    Ending::IsOutput.finish(name, err)
}

/// Regroups the lines, flushes `out` and `rejects`, and returns how that ends.
fn regroup<R: Read + Drop, O: Write + Drop, E: Write, X: Write + Drop>(
    alloc: Global,
    rules: &Rules,
    formats: &Formats,
    name: &str,
    buffer: &mut [u8],
    input: R,
    out: &mut BufWriter<O>,
    err: &mut E,
    rejects: &mut BufWriter<X>,
) -> Ending
    requires { length buffer.old ≡ rules.now.max_line_len + 1 }
    ensures { RegroupsAll rules.now name.now formats.now.from formats.now.to (end_of result) (R.remaining input)
        (by_writer (writer_contents O.contents out.old) (E.contents err.old) (writer_contents X.contents rejects.old))
        (by_writer (writer_contents O.contents out.new) (E.contents err.new) (writer_contents X.contents rejects.new))
        (by_writer (writer_buffer out.new) [] (writer_buffer rejects.new)) }
{
    let mut input = Watched::new(input);
    let from = formats.from.notation();
    let to = formats.to.notation();
    let regrouped = regroup_at_most(
        Some(alloc),
        u64::MAX,
        rules,
        name,
        buffer,
        &mut input,
        out,
        err,
        rejects,
        &from,
        &to,
    );
    let unflushed = flush(out);
    let rejects_unflushed = flush(rejects);
    let ending = ending_of(rules, name, &from, regrouped, input.failure());
    ending.after(unflushed, rejects_unflushed)
}

/// Flushes the writer, and returns the kind of the error if that fails.
fn flush<W: Write + Drop>(writer: &mut BufWriter<W>) -> Option<ErrorKind>
    ensures bytes { Keeps (writer_contents W.contents writer.old) (writer_contents W.contents writer.new) }
    ensures empty { result ≡ None → writer_buffer writer.new ≡ [] }
{
    match writer.flush() {
        Ok(()) => None,
        Err(error) => Some(error.kind()),
    }
}

/// Returns how a run with this result ends, if this is why its last read failed.
fn ending_of(
    rules: &Rules,
    name: &str,
    from: &Notation<'_, CustomFormat>,
    regrouped: Result<Summary, RegroupFault>,
    failure: Option<ErrorKind>,
) -> Ending
    ensures { end_of result
        ≡ end_of_result rules.now name.now from.now (result_map_both (λ summary. summary) fault_of regrouped) failure }
{
    match regrouped {
        Ok(summary) => ending_of_lines(rules.invalid, summary.has_faults),
        Err(fault) => match fault {
            RegroupFault::Read => Ending::ReadFailed(failure),
            RegroupFault::Write | RegroupFault::Flush => Ending::WriteFailed(None),
            RegroupFault::Report => Ending::Untold,
            RegroupFault::Reject => Ending::RejectFailed(None),
            RegroupFault::TooMany => Ending::TooManyLines,
            RegroupFault::TooLong(..)
            | RegroupFault::FewFields(..)
            | RegroupFault::NotText(_)
            | RegroupFault::FieldNotText(..)
            | RegroupFault::Line(..)
            | RegroupFault::Field(..)
            | RegroupFault::Unclosed(_) => {
                Ending::Faulty(fault_message(name, rules.reading, &fault, from))
            }
        },
    }
}

/// Returns how a run ends where each line was regrouped or passed on, by whether messages named faults.
fn ending_of_lines(invalid: Invalid, has_faults: bool) -> Ending
    ensures { end_of result ≡ end_of_lines invalid has_faults }
{
    match invalid {
        Invalid::Fail if has_faults => Ending::Named,
        Invalid::Abort | Invalid::Fail | Invalid::Warn | Invalid::Ignore => Ending::Regrouped,
    }
}
