//! Formats from settings. Only formats under which every number reads back are returned.
//!
//! Any file may be changed, as in a project of a user's own.
#![tactic(auto)]

mod settings;

pub use settings::parse_format;
