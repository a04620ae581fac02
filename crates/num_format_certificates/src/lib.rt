//! Checks of a format, after which it can be trusted for all numbers.
//!
//! Any file may be changed. The numbers that decide for all others are in `certificates`, and the laws say why.
#![tactic(auto)]

pub mod certificates;
pub mod laws;

pub use certificates::{prints_alike, reads_back};
