//! Why the lines of an input were not regrouped, and the messages that name it.
//!
//! A message that changes also changes in `man/regroup-lines.1`.
#![tactic(auto)]

mod fault;
mod message;
mod notation;
mod quoting;
mod scale;

pub use crate::fault::{FieldCount, RegroupFault};
pub use crate::message::{MAX_DISPLAYED_LEN, MAX_FAULT_MESSAGE_LEN, MAX_NAME_LEN, fault_message};
pub use crate::notation::Notation;
pub use crate::quoting::{MAX_QUOTED_LEN, quoted, shown};
pub use crate::scale::Scale;
pub use num_format_decimal::Rounding;

/// How the text of a number is read.
#[derive(Clone, Copy, Debug, PartialEq, Eq)]
pub struct Reading {
    /// How it is parsed.
    pub parsing: Parsing,
    /// The scale of each number, or `None` if it has as many decimals as were read.
    pub scale: Option<Scale>,
}

/// How the text of a number is parsed.
#[derive(Clone, Copy, Debug, PartialEq, Eq)]
pub enum Parsing {
    /// A decimal, exactly as it is printed in the notation, grouped or not.
    Strict,
    /// A decimal, as a person types it: `num_format_typed` says which characters stand for those of the format.
    Typed,
    /// The digits, `0` to `9` or those of the set, and a minus sign at the start, as a whole number. Each character that
    /// is not numeric is ignored.
    Lenient,
}
