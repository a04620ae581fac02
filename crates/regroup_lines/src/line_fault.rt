//! Faults while the text of a line is at hand.
ghost use Rattle.std.specs.Prelude.{◌≡◌};
ghost use Rattle.num_format.specs.Cut.{cut_text};
ghost use Rattle.num_format.specs.Refusal.{ParseNumber, refusal_of};
ghost use Rattle.regroup_faults.specs.Fault.{fault_of, in_field};
ghost use Rattle.regroup_lines.specs.LineFaults.{line_fault_of, text_fault};

use num_format::error::cut;
use num_format::{Error, ErrorKind};
use regroup_faults::{FieldCount, RegroupFault};
use std::str;

/// Why a line was not read or not sent. It borrows the text, and so has a few bytes, where a [`RegroupFault`] keeps a
/// copy.
#[derive(Clone, Copy)]
pub(crate) enum LineFault<'a> {
    /// This text in the line of this number is not a number.
    NotANumber(u64, &'a [u8]),
    /// This text is not a number: in the line of the first number, the field of the second.
    NotAField(u64, u64, &'a [u8]),
    /// The line of this number has too few fields.
    FewFields(u64, FieldCount),
    /// In the record that begins in the line of this number, a quote is not closed.
    Unclosed(u64),
    /// A write failed.
    Write,
    /// A write of a message that names a fault failed.
    Report,
    /// A write of a rejected line failed.
    Reject,
    /// A read failed.
    Read,
    /// A flush before a read failed.
    Flush,
}

impl<'a> LineFault<'a> {
    /// Returns the fault of a text in the field of this number.
    #[cold]
    #[tactic(auto, using(crate::proofs::LineFaultLemmas::in_field_again))]
    pub(crate) fn in_field(self, field: u64) -> LineFault<'a>
        ensures { line_fault_of result ≡ in_field field (line_fault_of self.entry) }
    {
        match self {
            LineFault::NotANumber(number, text) => LineFault::NotAField(number, field, text),
            _ => self,
        }
    }
}

impl<'a> From<LineFault<'a>> for RegroupFault {
    ghost from_gives = { λ line fault. fault_of fault ≡ line_fault_of line };

    /// Returns the fault with a copy of the text. It is a cold call, so that lines without a fault are regrouped
    /// without the space of the copy.
    #[cold]
    #[inline(never)]
    #[tactic(auto, using(crate::proofs::LineFaultLemmas::text_fault_utf8, crate::proofs::LineFaultLemmas::text_fault_bytes))]
    fn from(fault: LineFault<'a>) -> RegroupFault {
        match fault {
            LineFault::NotANumber(number, text) => match str::from_utf8(text) {
                Ok(text) => RegroupFault::Line(number, error_of(text)),
                Err(_) => RegroupFault::NotText(number),
            },
            LineFault::NotAField(number, field, text) => match str::from_utf8(text) {
                Ok(text) => RegroupFault::Field(number, field, error_of(text)),
                Err(_) => RegroupFault::FieldNotText(number, field),
            },
            LineFault::FewFields(number, count) => RegroupFault::FewFields(number, count),
            LineFault::Unclosed(number) => RegroupFault::Unclosed(number),
            LineFault::Write => RegroupFault::Write,
            LineFault::Report => RegroupFault::Report,
            LineFault::Reject => RegroupFault::Reject,
            LineFault::Read => RegroupFault::Read,
            LineFault::Flush => RegroupFault::Flush,
        }
    }
}

/// Returns the error of a text that is not a number.
fn error_of(text: &str) -> Error
    ensures { refusal_of result ≡ ParseNumber (cut_text text.now) }
{
    Error::from(ErrorKind::ParseNumber(cut(text)))
}
