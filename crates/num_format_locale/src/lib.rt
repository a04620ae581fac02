//! The locales of num-format, by name.
//!
//! `tools/locales.py` writes `constants.rt` and `pair_list.rt` from the names of `num_format_cldr`. Any other file may
//! be changed.
//!
//! A [`Locale`] is a [`Format`](num_format_text::Format): it says how digits are grouped, and which
//! texts stand for the decimal mark, the separator, the signs, infinity and NaN. Its data are a row
//! of the table `num_format_cldr`, which has them from the Unicode CLDR by the Rust crate `num-format` 0.4.4,
//! and its name is that row's.
//!
//! ```rust
//! let locale = Locale::from_name("en-IN")?;
//! locale.grouping()         // Grouping::Indian
//! Locale::fr.separator()    // "\u{202f}", a narrow no-break space
//! ```
//!
//! There are 542 names, in rising byte order, and their parts are joined by hyphens, as in
//! `ca-ES-VALENCIA`. A `Locale` is the place of its name in that order, and a contract sees it as
//! that number. A name is found by its first two letters and binary search, with no copy of the text.
//! [`Locale::from_name_traced`] searches all names, and also returns the places of those compared,
//! which show that the result is right. [`Locale::lookup`] takes what an environment or a browser names,
//! such as `de_DE.UTF-8`.
//!
//! The Rust crate has an enum of 542 variants. Here `Locale` is a struct with 542 associated
//! constants of the variants' names, such as `Locale::ca_ES_VALENCIA`. A `match` on a locale has
//! these constants as patterns, and ends with an arm `_`:
//!
//! ```text
//! match locale {
//!     Locale::de | Locale::de_AT => ..,
//!     _ => ..,
//! }
//! ```
#![tactic(auto)]

pub mod laws;
pub mod locale;
mod lookup;
mod search;

pub use locale::Locale;
