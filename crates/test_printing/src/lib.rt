//! Tests of printing: into each writer, and under formats of the tests' own.
//!
//! Any file may be changed. Expected values are worked out by hand.
//!
//! A number to print under a locale or a built format needs no test of its own: it is a case of a table in
//! `tests/cases`, and `test_oracle` prints it in every way, also into strings, vectors and slices. `test_readme` writes
//! to the standard streams, and `test_hostile` to boxes and formatters.
//!
//! | Module | What is tested |
//! |---|---|
//! | `under_own_format` | numbers under the types of `own_format`, which implement `Format` |
//! | `writers` | numbers, also the longest text of one, into std's cursors, buffers and sink |
//! | `files` | a file, written and read back |
//! | `callers` | two numbers into one writer, and a number through a reference to a string |
//! | `memory` | calls that take memory, where it is refused |
//! | `without_memory` | calls that take none |
//!
//! `tests/memory_checks.py` runs each test of the last two, counts its requests for memory, and refuses them in
//! turn. `asserting` and `numbers` serve these tests, and [`longest`], the longest text of a number,
//! those of `test_hostile` too, which has writers that fail.
#![tactic(auto)]

#[cfg(test)]
mod asserting;
pub mod callers;
#[cfg(test)]
mod files;
pub mod longest;
#[cfg(test)]
mod memory;
#[cfg(test)]
mod numbers;
pub mod own_format;
#[cfg(test)]
mod under_own_format;
#[cfg(test)]
mod without_memory;
#[cfg(test)]
mod writers;
