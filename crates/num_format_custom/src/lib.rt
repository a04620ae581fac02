//! Formats with seven fields of the caller's choice, and their builder.
//!
//! Any file may be changed. The builder and its order of errors are those of the Rust crate, and stay.
#![tactic(auto)]

mod choice;
pub mod custom_format;
pub mod custom_format_builder;
pub mod laws;

pub use custom_format::CustomFormat;
pub use custom_format_builder::CustomFormatBuilder;
