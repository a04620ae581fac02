//! The header of an input, and the fields that have names in it.
ghost use Rattle.std.specs.Prelude.{◌≡◌, ◌+◌, ◌++◌, [], IfOk, bytes_eq, length};
ghost use Rattle.std.specs.Result.{result_map_both};
ghost use Rattle.regroup_lines.specs.Csv.{doubled};
ghost use Rattle.regroup_lines.specs.Header.{IsHeader, is_named, misnamed_of, number_named, unmarked};
ghost use Rattle.regroup_lines.specs.Input.{Reads};

use crate::fields::place_in;
use crate::input::{Input, InputPiece};
use crate::records::{CsvState, find_end};
use crate::rules::{Fields, MARK, QUOTE, Rules};
use regroup_faults::RegroupFault;
use std::io;
use std::io::Read;

/// The bytes that were read of an input to find its header.
#[derive(Clone, Copy)]
pub struct Header<'a> {
    /// The first line, or record, without the byte that ends it, and without a byte order mark before it.
    pub text: &'a [u8],
    /// That line with the mark and, if there is one, the byte that ends it.
    pub line: &'a [u8],
    /// The bytes that were read after it.
    pub rest: &'a [u8],
}

/// Why a name is not that of one field.
#[derive(Clone, Copy, Debug, PartialEq, Eq)]
pub enum NameFault<'a> {
    /// No field has this name.
    Unknown(&'a str),
    /// More than one field has this name.
    Doubled(&'a str),
}

/// Reads the header of an input into `array`, which has one byte more than a line may have. Of a line that is too long
/// it has as many bytes.
///
/// # Errors
///
/// Returns a fault if a read fails.
pub fn read_header<'a, R: Read>(
    rules: &Rules,
    array: &'a mut [u8],
    r: &mut R,
) -> Result<Header<'a>, RegroupFault>
    requires { length array.old ≡ rules.now.max_line_len + 1 }
    ensures header { IfOk result (λ header. IsHeader rules.now (R.remaining r.old) header.text.now) }
    ensures read { IfOk result (λ header. Reads [] (header.line.now ++ header.rest.now)
        (R.remaining r.old) (R.remaining r.new)) }
{
    let mut input = Input::new(array);
    let piece = input.next_piece(rules, CsvState::first(1), r, &mut io::sink())?;
    let (array, held) = input.into_parts();
    match piece {
        InputPiece::Line(place) => {
            let (start, end) = (place.start, place.end);
            Ok(Header {
                text: unmarked(&array[start..end]),
                line: &array[start..end + 1],
                rest: held,
            })
        }
        InputPiece::Rest(place) => {
            let line = &array[place];
            Ok(Header {
                text: unmarked(line),
                line,
                rest: &[],
            })
        }
        InputPiece::TooLong => Ok(Header {
            text: unmarked(held),
            line: held,
            rest: &[],
        }),
    }
}

/// Returns a text without a byte order mark at its start.
fn unmarked(text: &[u8]) -> &[u8]
    ensures { result.now ≡ unmarked text.now }
{
    if text.starts_with(&MARK) {
        &text[MARK.len()..]
    } else {
        text
    }
}

/// Returns the number of the field of a header that has this name: its text without the ASCII whitespace around it and,
/// where it is in quotes, without these.
///
/// ```rust
/// let (list, delimiter, quotes, output, only) = ([].as_slice(), b',', true, None, false);
/// let fields = Fields { list, delimiter, quotes, output, only, blanks: false };
/// field_named(&fields, b"id,\"net \"\"EUR\"\"\"", "net \"EUR\"")    // Ok(2)
/// field_named(&fields, b"id,net,net", "net")                         // Err(Doubled("net"))
/// ```
///
/// # Errors
///
/// Returns that no field has the name, or more than one.
pub fn field_named<'a>(fields: &Fields, header: &[u8], name: &'a str) -> Result<u64, NameFault<'a>>
    ensures { result_map_both (λ number. number) misnamed_of result ≡ number_named fields.now header.now name.now }
{
    let (quotes, delimiter) = (fields.quotes(), fields.delimiter);
    let (mut found, mut count, mut rest) = (None, 0, header);
    'fields: loop {
        let (len, _) = find_end(quotes, delimiter, CsvState::Start, rest);
        let field = &rest[..len];
        count = fields.number_after(count, field);
        if is_named(fields, field, name.as_bytes()) {
            if found.is_some() {
                return Err(NameFault::Doubled(name));
            }
            found = Some(count);
        }
        if len == rest.len() {
            return found.ok_or(NameFault::Unknown(name));
        }
        rest = &rest[len + 1..];
    }
}

/// Returns whether a field of a header is counted and has this name.
fn is_named(fields: &Fields, field: &[u8], name: &[u8]) -> bool
    ensures { result ≡ is_named fields.now name.now field.now }
{
    if !fields.count(field) {
        return false;
    }
    let (place, is_quoted) = place_in(fields.quotes, field);
    let text = &field[place];
    if is_quoted {
        is_doubled(text, name)
    } else {
        text == name
    }
}

/// Returns whether a text is this name with each quote doubled.
fn is_doubled(text: &[u8], name: &[u8]) -> bool
    ensures { result ≡ bytes_eq text.now (doubled name.now) }
{
    let mut rest = text;
    for byte in name {
        let twice = [*byte, *byte];
        let len = if *byte == QUOTE { 2 } else { 1 };
        match rest.strip_prefix(&twice[..len]) {
            Some(next) => rest = next,
            None => return false,
        }
    }
    rest.is_empty()
}
