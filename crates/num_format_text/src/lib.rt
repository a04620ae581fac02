//! The parts of a number format: its texts, its grouping, and the errors of num-format.
//!
//! Any file may be changed. The capacities and the messages of errors are those of the Rust crate, and stay.
//!
//! A [`Format`] has seven methods. One says how digits are grouped, and six return the texts for
//! the decimal mark, infinity, the minus sign, NaN, the plus sign and the separator. Each text is a
//! [`strings::BoundedStr`], which has at most its capacity in bytes. So the text of a number has a
//! greatest length too. An [`Error`] says by its [`ErrorKind`] why an input was refused.
//!
//! What the Rust crate `num-format` 0.4.4 has too has its name.
#![tactic(auto)]

pub mod bounded_string;
pub mod capacities;
pub mod error;
pub mod error_kind;
pub mod format;
pub mod grouping;
pub mod laws;
pub mod strings;
pub mod symbol;

pub use bounded_string::BoundedString;
pub use error::Error;
pub use error_kind::ErrorKind;
pub use format::Format;
pub use grouping::Grouping;
pub use symbol::Symbol;
