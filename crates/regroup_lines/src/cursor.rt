//! A walk over the fields of a line.
ghost use Rattle.std.specs.Prelude.{◌≡◌, ◌≤◌, ◌+◌, length};
ghost use Rattle.regroup_lines.specs.Places.{count_after};

use crate::records::{CsvState, find_end};
use crate::rules::Fields;

/// The fields of a line that are left.
#[derive(Clone, Copy)]
pub(crate) struct Cursor<'a> {
    line: &'a [u8],
    /// Where the next field begins: past the end of the line if none is left.
    start: usize,
    /// How many fields before it are counted.
    pub(crate) count: u64,
    ghost counted: { count ≤ start },
    ghost within: { start ≤ length line.now + 1 },
}

impl<'a> Cursor<'a> {
    ghost use Rattle.regroup_lines.specs.Cursor.{TakesField, left};
    ghost use Rattle.regroup_lines.specs.Lines.{fields_of};
    ghost use Rattle.regroup_lines.specs.declared.rules.Fields.{Fields};

    /// Returns a cursor before all fields of a line.
    #[inline]
    pub(crate) fn new(line: &'a [u8]) -> Cursor<'a>
        ensures left { (fields : Fields) → left fields result ≡ fields_of fields line.now }
        ensures count { result.count ≡ 0 }
    {
        Cursor {
            line,
            start: 0,
            count: 0,
        }
    }

    /// Returns the next field, or `None` if none is left.
    #[inline(always)]
    pub(crate) fn next(&mut self, fields: &Fields) -> Option<&'a [u8]>
        ensures { TakesField fields.now self.old self.new result }
    {
        if self.start > self.line.len() {
            return None;
        }
        let rest = &self.line[self.start..];
        let (len, _) = find_end(fields.quotes(), fields.delimiter, CsvState::Start, rest);
        let field = &rest[..len];
        *self = Cursor {
            line: self.line,
            start: self.start + len + 1,
            count: fields.number_after(self.count, field),
        };
        Some(field)
    }

    /// Returns how many fields of the line are counted.
    #[inline(always)]
    pub(crate) fn count_all(self, fields: &Fields) -> u64
        ensures { result ≡ count_after fields.now.blanks self.entry.count (left fields.now self.entry) }
    {
        let mut cursor = self;
        'fields: while let Some(_) = cursor.next(fields) {}
        cursor.count
    }
}
