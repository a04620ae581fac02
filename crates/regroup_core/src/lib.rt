//! The records of an input and their fields, as functions on bytes: where a record ends, where its fields are, and what
//! becomes of it when the texts of some of its fields are converted.
//!
//! There is no reader here, no writer, no message and no number of a line. What a text is converted to is said by a
//! [`Codec`]: this crate knows no number.
//!
//! A caller finds the first record of some bytes with [`record_end`], and appends what becomes of it with [`convert`]:
//!
//! ```text
//! bytes -> record_end -> a record -> fields -> Field::of -> Codec -> the record with the texts that it gave
//! ```
//!
//! A record is gone over once, from left to right. No array of places is kept, since a record may have as many fields
//! as bytes.
#![tactic(auto)]

mod codec;
mod dialect;
mod header;
pub mod laws;
mod line;
mod list;
mod place;
mod plan;
mod record;
mod text;

pub use codec::{Codec, Text};
pub use dialect::{Dialect, Separation};
pub use header::{NameError, field_named};
pub use line::{Cause, convert};
pub use list::{ListError, Selector, find_ranges};
pub use place::Field;
pub use plan::{FieldRange, Plan};
pub use record::{RecordEnd, Within, record_end};

/// The byte around a field that is in quotes.
const QUOTE: u8 = b'"';

#[cfg(test)]
mod tests;
