//! Numbers into strings and writers.
//!
//! Any file may be changed. What each writer receives is a record of `specs/Writers.antt`.
//!
//! A number that can be printed into a [`Buffer`](num_format_int::Buffer) can be printed into a string,
//! a writer of text and a writer of bytes: each receives the buffer's text. [`Formatted`] displays it in
//! a column.
#![tactic(auto)]

pub mod formatted;
pub mod to_formatted_string;
pub mod write_formatted;

pub use formatted::{Formatted, text_len, text_width};
pub use to_formatted_string::ToFormattedString;
pub use write_formatted::WriteFormatted;
