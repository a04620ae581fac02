//! Which fields of a record are converted.
ghost use Rattle.std.specs.Prelude.{◌≡◌, ◌&&◌};
ghost use Rattle.regroup_core.specs.Fields.{is_field};
ghost use Rattle.regroup_core.specs.Lines.{is_at_most, is_chosen, is_chosen_from, is_in, wanted};

use crate::dialect::Dialect;

/// Fields that follow one another, by their numbers, which are counted from 1.
///
/// The fields 3, 4 and 5 are `FieldRange { first: 3, last: Some(5) }`: a record has to have all of them. All fields
/// from 2 on are `FieldRange { first: 2, last: None }`: a record has to have field 2.
#[derive(Clone, Copy, Debug, PartialEq, Eq)]
pub struct FieldRange {
    /// The number of the first field.
    pub first: u64,
    /// The number of the last field, or `None` for that of the record.
    pub last: Option<u64>,
}

/// Which fields of a record are converted, and how records are written.
#[derive(Clone, Copy, Debug, PartialEq, Eq)]
pub struct Plan<'a> {
    /// How records and their fields are told apart.
    pub dialect: Dialect,
    /// The fields that are converted: those that are in any of the ranges, in any order.
    pub list: &'a [FieldRange],
    /// Whether a field is copied if it has no text but whitespace, and not converted.
    pub copies_empty: bool,
}

impl FieldRange {
    /// Returns whether the number is at most that of the last field.
    fn reaches(&self, number: u64) -> bool
        ensures { result ≡ is_at_most number self.now.last }
    {
        self.last.is_none_or(|last| number <= last)
    }

    /// Returns whether the field of this number is one of them.
    fn contains(&self, number: u64) -> bool
        ensures { result ≡ is_in number self.now }
    {
        self.first <= number && self.reaches(number)
    }
}

impl Plan<'_> {
    /// Returns whether the field of this number is converted.
    ///
    /// ```text
    /// let list = [FieldRange { first: 2, last: None }];
    /// Plan { dialect, list: &list, copies_empty: false }.chooses(3)    // true
    /// ```
    #[inline]
    pub fn chooses(&self, number: u64) -> bool
        ensures { result ≡ is_chosen self.now.list.now number }
    {
        self.list.iter().any(|range| range.contains(number))
    }

    /// Returns whether a part with this number is a field that is converted.
    #[inline]
    pub(crate) fn converts(&self, number: u64, part: &[u8]) -> bool
        ensures { result ≡ (is_field self.now.dialect.separation part.now && is_chosen self.now.list.now number) }
    {
        self.dialect.separation.has(part) && self.chooses(number)
    }

    /// Returns whether a field of this number or one after it may be converted.
    #[inline]
    pub(crate) fn chooses_from(&self, number: u64) -> bool
        ensures { result ≡ is_chosen_from self.now.list.now number }
    {
        self.list.iter().any(|range| range.reaches(number))
    }

    /// Returns how many fields a record has to have.
    ///
    /// ```text
    /// let list = [FieldRange { first: 3, last: Some(5) }, FieldRange { first: 2, last: None }];
    /// Plan { dialect, list: &list, copies_empty: false }.wanted()    // 5
    /// ```
    pub fn wanted(&self) -> u64
        ensures { result ≡ wanted self.now.list.now }
    {
        let ranges = self.list.iter();
        ranges.fold(0, |most, range| most.max(range.last.unwrap_or(range.first)))
    }
}
