//! The fields that have names in a header.
ghost use Rattle.std.specs.Prelude.{◌≡◌, bytes_eq};
ghost use Rattle.regroup_core.specs.Header.{also, is_named, number_named};
ghost use Rattle.regroup_core.specs.Places.{doubled};

use crate::QUOTE;
use crate::dialect::Separation;
use crate::line::fields_len;
use crate::place::Field;
use crate::record::part_len;

/// Why a name is not that of one field.
#[derive(Clone, Copy, Debug, PartialEq, Eq)]
pub enum NameError {
    /// No field has it.
    Unknown,
    /// More than one field has it.
    Doubled,
}

/// Returns the number of the field of a header that has this name: its text without the ASCII whitespace around it and,
/// where it is in quotes, without these and with each doubled quote as one. The header is without the byte that ends
/// it.
///
/// ```text
/// field_named(Separation::Quoted(b','), b"id,\"net \"\"EUR\"\"\"", b"net \"EUR\"")    // Ok(2)
/// field_named(Separation::Quoted(b','), b"id,net,net", b"net")                         // Err(Doubled)
/// ```
///
/// # Errors
///
/// Returns that no field has the name, or more than one.
pub fn field_named(separation: Separation, header: &[u8], name: &[u8]) -> Result<u64, NameError>
    ensures { result ≡ number_named separation header.now name.now }
{
    let fields = &header[..fields_len(header)];
    let (mut found, mut start, mut count) = (Err(NameError::Unknown), 0, 0);
    'parts: loop {
        let end = start + part_len(separation, &fields[start..]);
        let part = &fields[start..end];
        count = separation.number_after(count, part);
        found = also(found, is_named(separation, part, name), count);
        if end == fields.len() {
            return found;
        }
        start = end + 1;
    }
}

/// Returns the one field that is found, by what was found before and whether the field of this number is one too.
fn also(found: Result<u64, NameError>, is_named: bool, number: u64) -> Result<u64, NameError>
    ensures { result ≡ also found is_named number }
{
    match found {
        _ if !is_named => found,
        Err(NameError::Unknown) => Ok(number),
        Ok(_) | Err(NameError::Doubled) => Err(NameError::Doubled),
    }
}

/// Returns whether a part of a header is a field and has this name.
fn is_named(separation: Separation, part: &[u8], name: &[u8]) -> bool
    ensures { result ≡ is_named separation name.now part.now }
{
    let field = Field::of(separation, part);
    separation.has(part)
        && if field.is_in_quotes {
            is_doubled(field.text, name)
        } else {
            field.text == name
        }
}

/// Returns whether a text is this name with each quote doubled.
fn is_doubled(text: &[u8], name: &[u8]) -> bool
    ensures { result ≡ bytes_eq text.now (doubled name.now) }
{
    let mut rest = text;
    for byte in name {
        let twice = [*byte, *byte];
        let len = if *byte == QUOTE { 2 } else { 1 };
        match rest.strip_prefix(&twice[..len]) {
            Some(next) => rest = next,
            None => return false,
        }
    }
    rest.is_empty()
}
