//! The list that chooses fields.
ghost use Rattle.std.specs.Prelude.{◌≡◌, IfOk, map};
ghost use Rattle.std.specs.Char.{is_ascii_digit};
ghost use Rattle.std.specs.List.{list_all};
ghost use Rattle.std.specs.Option.{option_map};
ghost use Rattle.regroup_stream.specs.Lists.{counted, field_number, is_name, list_read, range_between, range_from_to};
ghost use Rattle.regroup_stream.specs.Lists.{range_in};

use regroup_lines::FieldRange;
use std::alloc::{AllocError, Global};

/// The range in place of a name, until its field is known: no field is in it, since they are counted from 1.
const NAMED: FieldRange = FieldRange {
    first: 0,
    last: Some(0),
};

/// The fields that a list chooses.
#[derive(Drop)]
pub struct FieldList<'a> {
    /// The ranges that it has, with that of the field 0 in place of each name.
    pub ranges: Vec<FieldRange>,
    /// The names of the header that it has.
    pub names: Vec<&'a str>,
}

/// Returns the fields that a list chooses: its parts, between commas, are each `N`, `N-M`, `N-` or `-M`, as in that of
/// `cut`, or a name, which has a character other than digits and `-`. The fields are counted from 1.
///
/// Returns `None` if a part is none of these: it is empty, has a number that a `u64` does not hold, or decreases, or if
/// a number is 0. Parts may be in any order, and choose a field twice.
///
/// ```rust
/// let list = field_list(alloc, "2-,net")?.unwrap();
/// list.ranges[0]                           // FieldRange { first: 2, last: None }
/// list.ranges[1]                           // FieldRange { first: 0, last: Some(0) }
/// list.names                               // ["net"]
/// field_list(alloc, "5-3")?.is_none()      // true
/// ```
///
/// # Errors
///
/// Returns an error if there is no memory for them.
pub fn field_list<'a>(alloc: Global, text: &'a str) -> Result<Option<FieldList<'a>>, AllocError>
    ensures { IfOk result (λ list. option_map (λ l. (l.ranges.items, map (λ name. name.now) l.names.items)) list
        ≡ list_read text.now) }
{
    let (mut ranges, mut names) = (Vec::new(alloc), Vec::new(alloc));
    for part in text.split(',') {
        if is_name(part) {
            names.push(part)?;
            ranges.push(NAMED)?;
        } else {
            let Some(range) = range_in(part) else {
                return Ok(None);
            };
            ranges.push(range)?;
        }
    }
    Ok(Some(FieldList { ranges, names }))
}

/// Returns whether a part of a list is a name.
fn is_name(part: &str) -> bool
    ensures { result ≡ is_name part.now }
{
    part.as_bytes()
        .iter()
        .any(|byte| !byte.is_ascii_digit() && *byte != b'-')
}

/// Returns the range that a part of a list names.
fn range_in(part: &str) -> Option<FieldRange>
    ensures { result ≡ range_in part.now }
{
    match part.split_once('-') {
        Some((before, after)) => range_between(before, after),
        None => range_between(part, part),
    }
}

/// Returns the range that the texts before and after a `-` name.
fn range_between(before: &str, after: &str) -> Option<FieldRange>
    ensures { result ≡ range_between before.now after.now }
{
    match (before.is_empty(), after.is_empty()) {
        (true, true) => None,
        (true, false) => range_from_to(1, field_number(after)?),
        (false, true) => Some(FieldRange {
            first: field_number(before)?,
            last: None,
        }),
        (false, false) => range_from_to(field_number(before)?, field_number(after)?),
    }
}

/// Returns the range from one number to another, if they do not decrease.
fn range_from_to(first: u64, last: u64) -> Option<FieldRange>
    ensures { result ≡ range_from_to (Some first) (Some last) }
{
    (first <= last).then_some(FieldRange {
        first,
        last: Some(last),
    })
}

/// Returns the number of a field that decimal digits write.
fn field_number(text: &str) -> Option<u64>
    ensures { result ≡ field_number text.now }
{
    if !is_digits(text) {
        return None;
    }
    match text.parse::<u64>() {
        Ok(number) => counted(number),
        Err(_) => None,
    }
}

/// Returns whether each character is a decimal digit.
fn is_digits(text: &str) -> bool
    ensures { result ≡ list_all is_ascii_digit text.now }
{
    text.as_bytes().iter().all(|byte| byte.is_ascii_digit())
}

/// Returns the number, if it is one of a field: they are counted from 1.
fn counted(number: u64) -> Option<u64>
    ensures { result ≡ counted number }
{
    (number > 0).then_some(number)
}
