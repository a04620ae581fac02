//! A list of fields, of which some are named.
ghost use Rattle.std.specs.Prelude.{◌≡◌, IfErr, IfOk, Ok};
ghost use Rattle.regroup_core.specs.Ranges.{IsListError, range_of, ranges_of};
ghost use Rattle.regroup_core.specs.declared.list.ListError.TheVariants.{Memory};

use crate::dialect::Separation;
use crate::header::{NameError, field_named};
use crate::plan::FieldRange;
use std::alloc::{AllocFailed, Global};

/// A part of a list of fields.
#[derive(Clone, Copy, Debug, PartialEq, Eq)]
pub enum Selector<'a> {
    /// These fields.
    Range(FieldRange),
    /// The field of which a header has this text.
    Name(&'a [u8]),
}

/// Why a list has no ranges.
#[derive(Clone, Copy, Debug, PartialEq, Eq)]
pub enum ListError {
    /// The part at this place in the list, counted from 0, is not the name of one field.
    Name(usize, NameError),
    /// There is no memory for the ranges.
    Memory,
}

impl<T: Drop> From<AllocFailed<T>> for ListError {
    ghost from_gives = { λ _ error. error ≡ Memory };

    fn from(_error: AllocFailed<T>) -> ListError {
        ListError::Memory
    }
}

/// Returns the ranges of the parts of a list in turn. Names are looked for in a header, which is without the byte that
/// ends it.
///
/// ```text
/// let list = [Selector::Name(b"net"), Selector::Range(FieldRange { first: 5, last: None })];
/// find_ranges(alloc, Separation::Delimited(b'\t'), b"id\tnet", &list)    // Ok: field 2, and all from 5 on
/// ```
///
/// # Errors
///
/// Returns the first part that is not the name of one field, or that there is no memory.
pub fn find_ranges(
    alloc: Global,
    separation: Separation,
    header: &[u8],
    list: &[Selector<'_>],
) -> Result<Vec<FieldRange>, ListError>
    ensures ranges { IfOk result (λ found. ranges_of separation header.now 0 list.now ≡ Ok found.items) }
    ensures error { IfErr result (IsListError (ranges_of separation header.now 0 list.now)) }
{
    let mut ranges = Vec::new(alloc);
    for selector in list {
        match selector.range(separation, header) {
            Ok(range) => ranges.push(range)?,
            Err(error) => return Err(ListError::Name(ranges.len(), error)),
        }
    }
    Ok(ranges)
}

impl Selector<'_> {
    /// Returns its range, or why its name is not that of one field.
    fn range(&self, separation: Separation, header: &[u8]) -> Result<FieldRange, NameError>
        ensures { result ≡ range_of separation header.now self.now }
    {
        match self {
            Selector::Range(range) => Ok(*range),
            Selector::Name(name) => match field_named(separation, header, name) {
                Ok(number) => Ok(FieldRange {
                    first: number,
                    last: Some(number),
                }),
                Err(error) => Err(error),
            },
        }
    }
}
