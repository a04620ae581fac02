//! Numbers as people type them, parsed exactly.
//!
//! Any file may be changed. A text as a person types it, or "typed" for short (no data type is meant), is rewritten
//! with the characters of its format, one for one, and then parsed strictly. One that the format prints stays as it is.
//! So a keyboard's space, apostrophe and hyphen stand for those that the format prints. A plus sign, a minus sign
//! before zero and blanks at both ends are dropped. Other groups, a missing digit or a sign at the end are refused as
//! strict parsing refuses them.
//!
//! ```rust
//! parse_typed::<i32, _>("-1 234", &Locale::fr)             // Ok(-1234), where fr prints U+202F
//! parse_typed::<i32, _>("-5", &Locale::sv)                 // Ok(-5), where sv prints U+2212
//! parse_typed_decimal(" +1'234.50 ", &Locale::de_CH)       // Ok(1234.50)
//! parse_typed::<i32, _>("1,23", &Locale::en)               // Err(Number(Misspelled))
//! ```
#![tactic(auto)]

mod classes;
pub mod error;
pub mod laws;
mod rewriter;
mod symbols;
pub mod text_parser;
mod trimming;
pub mod typed;
mod utf8;

pub use error::TypedError;
pub use text_parser::{TypedAtScale, TypedDecimals};
pub use typed::{
    TypedParser, parse_typed, parse_typed_at_scale, parse_typed_bytes, parse_typed_decimal,
    parse_typed_decimal_bytes,
};
