//! Texts as whole numbers.
//!
//! Each file imports only earlier ones of `bytes`, `symbols`, `accumulator`, `groups`, `reading`, `error`, `causes`,
//! `parsing`, `strict`, `lenient` and `laws`. Any may be changed: `parsing` and `error` have what is promised, and the
//! others how it is done.
#![tactic(auto)]

mod accumulator;
pub mod bytes;
pub mod causes;
pub mod error;
mod groups;
pub mod laws;
mod lenient;
pub mod parsing;
pub mod reading;
pub mod strict;
pub mod symbols;

pub use error::{ParseBytesError, StrictError};
pub use parsing::{FromFormattedStr, ParseFormatted};
pub use strict::StrictParser;
