//! Why lines were not regrouped to the end.
ghost use Rattle.std.specs.Prelude.{◌≡◌, Some};
ghost use Rattle.regroup_faults.specs.Fault.{fault_of, line_of};
ghost use Rattle.regroup_faults.specs.Messages.{message_of_fault};

use crate::message::{MAX_DISPLAYED_LEN, Why, cause, displayed};
use arrayvec::ArrayString;
use num_format::Error;
use std::fmt;

/// Why the lines of an input were not regrouped to the end. Lines are numbered from 1, and so are the fields of a line,
/// or of a record of RFC 4180.
///
/// ```rust
/// println!(rt; "{}", RegroupFault::TooLong(2, 4096))    // line 2: more than 4096 bytes
/// ```
#[derive(Clone, Debug, Drop, PartialEq, Eq)]
pub enum RegroupFault {
    /// A byte follows the last line that is allowed: the 1,000,000th of `regroup_lines`.
    TooMany,
    /// The line of the first number has more bytes than the second number.
    TooLong(u64, u32),
    /// The line of this number has too few fields, or the record that begins in it.
    FewFields(u64, FieldCount),
    /// A read failed, also one that was interrupted.
    Read,
    /// The line of this number is not UTF-8.
    NotText(u64),
    /// In the line of the first number, the field of the second number is not UTF-8.
    FieldNotText(u64, u64),
    /// The line of this number does not parse, or its number is none at the scale.
    Line(u64, Error),
    /// In the line of the first number, the field of the second number does not parse, or its number is none at the
    /// scale.
    Field(u64, u64, Error),
    /// In the record that begins in the line of this number, a quote is not closed.
    Unclosed(u64),
    /// A write failed, also one that was interrupted, or wrote no bytes, or had no memory for what it was to write.
    Write,
    /// A write of a message that names a fault failed, also one that was interrupted, or wrote no bytes.
    Report,
    /// A write of a rejected line failed, also one that was interrupted, or wrote no bytes.
    Reject,
    /// A flush before a read failed, where the rules ask for flushes.
    Flush,
}

/// How many fields a line has that has too few.
#[derive(Clone, Copy, Debug, PartialEq, Eq)]
pub struct FieldCount {
    /// How many there are.
    pub found: u64,
    /// How many are wanted.
    pub wanted: u64,
    /// The byte between two of them.
    pub delimiter: u8,
}

impl RegroupFault {
    /// Returns the number of the line that is at fault, if a line is.
    pub(crate) fn line(&self) -> Option<u64>
        ensures { result ≡ line_of (fault_of self.now) }
    {
        match self {
            RegroupFault::TooLong(number, _)
            | RegroupFault::FewFields(number, _)
            | RegroupFault::NotText(number)
            | RegroupFault::FieldNotText(number, _)
            | RegroupFault::Line(number, _)
            | RegroupFault::Field(number, _, _)
            | RegroupFault::Unclosed(number) => Some(*number),
            _ => None,
        }
    }

    /// Returns the message, which needs no memory and cannot fail.
    ///
    /// ```rust
    /// RegroupFault::TooLong(2, 4096).message()    // "line 2: more than 4096 bytes"
    /// ```
    pub fn message(&self) -> ArrayString<MAX_DISPLAYED_LEN>
        ensures { result.bytes ≡ message_of_fault (fault_of self.now) }
    {
        displayed(self.line(), cause(self, Why::Unknown).as_str())
    }
}

impl fmt::Display for RegroupFault {
    ghost output = { λ fault. Some (message_of_fault (fault_of fault)) };

    ghost styled_output = { λ fault _. Some (message_of_fault (fault_of fault)) };

    /// Writes the [message](RegroupFault::message) alone, by one write, whatever width or fill is
    /// asked for.
    fn fmt<W: fmt::Write>(&self, f: &mut fmt::Formatter<W>) -> fmt::Result {
        f.write_str(self.message().as_str())
    }
}

impl std::error::Error for RegroupFault {}
