//! Fields that are chosen by names of the header.
ghost use Rattle.std.specs.Prelude.{◌≡◌, ◌≤◌, ◌+◌, [], IfOk, OnOk, length, map};
ghost use Rattle.std.specs.Io.Buffered.{writer_buffer, writer_contents};
ghost use Rattle.std.specs.Option.{option_map};
ghost use Rattle.std.specs.Result.{result_map_both};
ghost use Rattle.regroup_lines.specs.Header.{misnamed_of};
ghost use Rattle.regroup_lines.specs.Places.{one_field};
ghost use Rattle.regroup_lines.specs.Sending.{by_writer};
ghost use Rattle.regroup_stream.specs.Names.{RunsNamed, fields_by_name, misnamed_message, name_message, ranges_named};
ghost use Rattle.regroup_stream.specs.Names.{with_field};

use crate::ending::{Ending, FAILED, MISUSED, send};
use crate::watched::Watched;
use crate::{Formats, run};
use arrayvec::ArrayString;
use regroup_faults::{MAX_NAME_LEN, MAX_QUOTED_LEN, quoted, shown};
use regroup_lines::{FieldRange, Fields, NameFault, Rules, Span, field_named, read_header};
use std::alloc::{AllocError, Global};
use std::io::{BufWriter, Read, Write};

/// The most bytes of the message of a name that is not that of one field.
const MAX_MESSAGE_LEN: usize = MAX_NAME_LEN + 2 * MAX_QUOTED_LEN + 64;

/// Regroups the lines of `input`, as [`run`] does, where the fields of these names are chosen too, if there are names:
/// each in place of a range of field 0, or after all ranges if there is none.
/// Each has to be that of one field of the header, which is read first.
///
/// The status is [`MISUSED`] where one is not: then `err` received a message that shows the name and the header, and no
/// line was written. It is [`FAILED`] where a read of the header failed, with its message, or there is no memory.
pub(crate) fn run_named<R: Read + Drop, O: Write + Drop, E: Write, X: Write + Drop>(
    alloc: Global,
    rules: &Rules,
    field_names: &[&str],
    formats: &Formats,
    name: &str,
    buffer: &mut [u8],
    input: R,
    out: &mut BufWriter<O>,
    err: &mut E,
    rejects: &mut BufWriter<X>,
) -> u8
    requires { length buffer.old ≡ rules.now.max_line_len + 1 }
    ensures { RunsNamed rules.now (map (λ name. name.now) field_names.now)
        formats.now.from formats.now.to name.now result (R.remaining input)
        (by_writer (writer_contents O.contents out.old) (E.contents err.old) (writer_contents X.contents rejects.old))
        (by_writer (writer_contents O.contents out.new) (E.contents err.new) (writer_contents X.contents rejects.new))
        (by_writer (writer_buffer out.old) [] (writer_buffer rejects.old))
        (by_writer (writer_buffer out.new) [] (writer_buffer rejects.new)) }
{
    let Some(fields) = fields_by_name(&rules.span, field_names) else {
        return run(
            alloc, rules, formats, name, buffer, input, out, err, rejects,
        );
    };
    let Ok(mut array) = vec![in alloc; 0; rules.max_line_len as usize + 1] else {
        return FAILED;
    };
    let mut input = Watched::new(input);
    let Ok(header) = read_header(rules, &mut array, &mut input) else {
        return Ending::ReadFailed(input.failure()).finish(name, err);
    };
    match ranges_named(alloc, fields, header.text, field_names) {
        Ok(Ok(list)) => {
            let span = Span::Fields(Fields {
                list: &list,
                ..*fields
            });
            let rules = Rules { span, ..*rules };
            let input = header.line.chain(header.rest).chain(input);
            run(
                alloc, &rules, formats, name, buffer, input, out, err, rejects,
            )
        }
        Ok(Err(fault)) => {
            let message = misnamed_message(name, header.text, fault);
            send(message.as_str(), MISUSED, err)
        }
        Err(_) => FAILED,
    }
}

/// Returns the fields, if some of them are chosen by names.
fn fields_by_name<'a, 'l>(span: &'a Span<'l>, names: &[&str]) -> Option<&'a Fields<'l>>
    ensures { option_map (λ fields. fields.now) result ≡ fields_by_name span.now (map (λ name. name.now) names.now) }
{
    match span {
        Span::Fields(fields) => match names {
            [_, ..] => Some(fields),
            [] => None,
        },
        Span::Line | Span::Trimmed => None,
    }
}

/// Returns the ranges that are chosen, where the fields of a header that have these names are in place of those that
/// stand for names, in turn, or after them if no more do.
fn ranges_named<'a>(
    alloc: Global,
    fields: &Fields,
    header: &[u8],
    names: &[&'a str],
) -> Result<Result<Vec<FieldRange>, NameFault<'a>>, AllocError>
    ensures { IfOk result (λ named. result_map_both (λ list. list.items) misnamed_of named
        ≡ ranges_named fields.now header.now fields.now.list.now (map (λ name. name.now) names.now)) }
{
    let mut list = fields.list.to_vec(alloc)?;
    for name in names {
        match field_named(fields, header, name) {
            Ok(number) => choose(&mut list, number)?,
            Err(fault) => return Ok(Err(fault)),
        }
    }
    Ok(Ok(list))
}

/// Puts the field of this number in place of the first range that stands for a name, or after them if none does.
fn choose(list: &mut Vec<FieldRange>, number: u64) -> Result<(), AllocError>
    ensures { OnOk result (list.new.items ≡ with_field (one_field number) list.old.items) }
{
    let field = FieldRange {
        first: number,
        last: Some(number),
    };
    match list.iter().position(|range| range.first == 0) {
        Some(place) => list[place] = field,
        None => list.push(field)?,
    }
    Ok(())
}

/// Returns the message of a name that is not that of one field of the header of an input.
fn misnamed_message(
    input: &str,
    header: &[u8],
    fault: NameFault<'_>,
) -> ArrayString<MAX_MESSAGE_LEN>
    ensures { result.bytes ≡ misnamed_message input.now header.now (misnamed_of fault.entry) }
{
    match fault {
        NameFault::Unknown(name) => name_message(input, name, " names no field of ", header),
        NameFault::Doubled(name) => {
            name_message(input, name, " names more than one field of ", header)
        }
    }
}

/// Returns the message that shows a name, with what is wrong with it, and the header of an input.
fn name_message(input: &str, name: &str, cause: &str, header: &[u8]) -> ArrayString<MAX_MESSAGE_LEN>
    requires { length cause.now ≤ 40 }
    ensures { result.bytes ≡ name_message input.now name.now cause.now header.now }
{
    let mut message = ArrayString::new();
    message.push_str("regroup-lines: ");
    message.push_str(shown::<MAX_NAME_LEN>(input.as_bytes()).as_str());
    message.push_str(":1: ");
    message.push_str(quoted(name.as_bytes()).as_str());
    message.push_str(cause);
    message.push_str(quoted(header).as_str());
    message.push('\n');
    message
}
