//! Tests of all but printing, which `test_printing` has, against expected values from outside.
//!
//! The project in `tests/recorded/` writes `constants`. Any other file may be changed.
//!
//! The proofs are over definitions. These tests show that the definitions mean what the Rust crate
//! `num-format` 0.4.4 does, and that calls succeed. No expected value comes from the code under
//! test: the names of `constants` are those of that crate's table, and all else was worked out by hand.
//!
//! What is a case of a table in `tests/cases`, as a number to print or a text to parse, needs no test of
//! its own: `test_oracle` replays it.
//!
//! | Module | What is tested |
//! |---|---|
//! | `shown` | what `{}` and `{:?}` write of the shortest and longest values |
//! | `builder` | builders compared and cloned |
//! | `comparisons` | errors, texts, formats, builders and locales compared, cloned, hashed and displayed |
//! | `json` | the longest buffer, format and name of a locale to JSON, and each grouping by serde |
//! | `alike` | a caller that prints under either of two formats that print alike |
//! | `constants` | the name of each constant of `Locale` |
//! | `users` | the crates `uses_money` and `uses_settings` |
//! | `widths` | whole numbers, decimals and amounts of money filled up to each width, and the longest texts |
//!
//! `asserting` serves these tests.
#![tactic(auto)]

#[cfg(test)]
mod alike;
#[cfg(test)]
mod asserting;
#[cfg(test)]
mod builder;
pub mod comparisons;
#[cfg(test)]
mod constants;
#[cfg(test)]
mod json;
#[cfg(test)]
mod shown;
#[cfg(test)]
mod users;
#[cfg(test)]
mod widths;
