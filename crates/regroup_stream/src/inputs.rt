//! Several inputs, one after the other.
ghost use Rattle.std.specs.Prelude.{◌≡◌, ◌+◌, [], length, map};
ghost use Rattle.std.specs.Io.Buffered.{writer_buffer, writer_contents};
ghost use Rattle.std.specs.IoError.{error_kind};
ghost use Rattle.std.specs.Result.{result_map_both};
ghost use Rattle.regroup_lines.specs.Sending.{by_writer};
ghost use Rattle.regroup_stream.specs.Inputs.{Opens, RunsAll, RunsOne, RunsWhole, reads_on};
ghost use Rattle.regroup_stream.specs.declared.inputs.Unread.TheVariants.{CannotOpen};

use crate::names::run_named;
use crate::{FAULTY, Formats, REGROUPED, refuse, refuse_output};
use regroup_lines::{Invalid, Rules};
use std::alloc::Global;
use std::io;
use std::io::{BufWriter, ErrorKind, Read, Write};

/// What opens inputs by their names.
pub trait Open {
    /// What is read.
    type Input: Read + Drop;

    /// What opening an input of a name gives: the bytes that it has, or why it is not read.
    ghost opens: { Self → Opens };

    /// Opens the input of that name.
    ///
    /// # Errors
    ///
    /// Returns why it is not read.
    fn open(&self, name: &str) -> Result<Self::Input, Unread>
        ensures { opens self.now name.now (result_map_both Self.Input.remaining (λ why. why) result) };
}

/// Why an input is not read.
#[derive(Clone, Copy)]
pub enum Unread {
    /// It cannot be opened, or is a directory.
    CannotOpen(ErrorKind),
    /// It is the output, whose lines would be read without end.
    IsOutput,
}

impl From<io::Error> for Unread {
    ghost from_gives = { λ error unread. unread ≡ CannotOpen (error_kind error) };

    fn from(error: io::Error) -> Unread {
        Unread::CannotOpen(error.kind())
    }
}

/// Regroups the lines of the inputs of these names in turn, up to the first whose lines are not all written, and
/// returns the highest status. Of an input that is not read it sends the message alone. The inputs are read into
/// `buffer`, which has one byte more than a line may have.
///
/// The fields of these names are chosen too, if there are names, and each has to be that of one field of each header.
///
/// Of each input the writers receive what [`run`](crate::run), [`refuse`] or [`refuse_output`] sends, or of one where a
/// name is not, a message that shows it and the header: then the status is [`MISUSED`](crate::MISUSED).
pub fn run_all<I: Open, O: Write + Drop, E: Write, X: Write + Drop>(
    alloc: Global,
    rules: &Rules,
    field_names: &[&str],
    formats: &Formats,
    names: &[&str],
    buffer: &mut [u8],
    inputs: &I,
    out: &mut BufWriter<O>,
    err: &mut E,
    rejects: &mut BufWriter<X>,
) -> u8
    requires { length buffer.old ≡ rules.now.max_line_len + 1 }
    ensures { RunsAll (I.opens inputs.now) rules.now (map (λ name. name.now) field_names.now)
        formats.now.from formats.now.to (map (λ name. name.now) names.now) result
        (by_writer (writer_contents O.contents out.old) (E.contents err.old) (writer_contents X.contents rejects.old))
        (by_writer (writer_contents O.contents out.new) (E.contents err.new) (writer_contents X.contents rejects.new))
        (by_writer (writer_buffer out.old) [] (writer_buffer rejects.old))
        (by_writer (writer_buffer out.new) [] (writer_buffer rejects.new)) }
{
    let (status, _) = run_each(
        alloc,
        rules,
        field_names,
        formats,
        names,
        buffer,
        inputs,
        out,
        err,
        rejects,
    );
    status
}

/// Does the same, and returns also whether all lines of each input were taken.
pub(crate) fn run_each<I: Open, O: Write + Drop, E: Write, X: Write + Drop>(
    alloc: Global,
    rules: &Rules,
    field_names: &[&str],
    formats: &Formats,
    names: &[&str],
    buffer: &mut [u8],
    inputs: &I,
    out: &mut BufWriter<O>,
    err: &mut E,
    rejects: &mut BufWriter<X>,
) -> (u8, bool)
    requires { length buffer.old ≡ rules.now.max_line_len + 1 }
    ensures { RunsWhole (I.opens inputs.now) rules.now (map (λ name. name.now) field_names.now)
        formats.now.from formats.now.to (map (λ name. name.now) names.now) result.0 result.1
        (by_writer (writer_contents O.contents out.old) (E.contents err.old) (writer_contents X.contents rejects.old))
        (by_writer (writer_contents O.contents out.new) (E.contents err.new) (writer_contents X.contents rejects.new))
        (by_writer (writer_buffer out.old) [] (writer_buffer rejects.old))
        (by_writer (writer_buffer out.new) [] (writer_buffer rejects.new)) }
{
    let (mut status, mut is_whole) = (REGROUPED, true);
    for name in names {
        let (ended, goes_on, is_taken) = run_one(
            alloc,
            rules,
            field_names,
            formats,
            name,
            buffer,
            inputs,
            out,
            err,
            rejects,
        );
        status = status.max(ended);
        is_whole &= is_taken;
        if !goes_on {
            return (status, is_whole);
        }
    }
    (status, is_whole)
}

/// Regroups the lines of the input of that name, or sends the message of why it is not read. Returns its status,
/// whether the next input is read, and whether all lines of this one were taken.
fn run_one<I: Open, O: Write + Drop, E: Write, X: Write + Drop>(
    alloc: Global,
    rules: &Rules,
    field_names: &[&str],
    formats: &Formats,
    name: &str,
    buffer: &mut [u8],
    inputs: &I,
    out: &mut BufWriter<O>,
    err: &mut E,
    rejects: &mut BufWriter<X>,
) -> (u8, bool, bool)
    requires { length buffer.old ≡ rules.now.max_line_len + 1 }
    ensures { RunsOne (I.opens inputs.now) rules.now (map (λ name. name.now) field_names.now)
        formats.now.from formats.now.to name.now result.0 result.1 result.2
        (by_writer (writer_contents O.contents out.old) (E.contents err.old) (writer_contents X.contents rejects.old))
        (by_writer (writer_contents O.contents out.new) (E.contents err.new) (writer_contents X.contents rejects.new))
        (by_writer (writer_buffer out.old) [] (writer_buffer rejects.old))
        (by_writer (writer_buffer out.new) [] (writer_buffer rejects.new)) }
{
    match inputs.open(name) {
        Ok(input) => {
            let status = run_named(
                alloc,
                rules,
                field_names,
                formats,
                name,
                buffer,
                input,
                out,
                err,
                rejects,
            );
            let is_taken = reads_on(rules.invalid, status);
            (status, is_taken, is_taken)
        }
        Err(Unread::CannotOpen(kind)) => (refuse(name, kind, err), true, false),
        Err(Unread::IsOutput) => (refuse_output(name, err), true, false),
    }
}

/// Returns whether the next input is read after one with this status: each of its lines was written.
fn reads_on(invalid: Invalid, status: u8) -> bool
    ensures { result ≡ reads_on invalid status }
{
    match invalid {
        Invalid::Fail => status == REGROUPED || status == FAULTY,
        Invalid::Abort | Invalid::Warn | Invalid::Ignore => status == REGROUPED,
    }
}
