//! Formats whole numbers with separators between groups of digits, and parses them again.
//!
//! [`json`] and [`laws`] live here. The rest lists what users name: a public item of a crate below is added
//! here, and its definitions in `specs/Lib.antt`.
//!
//! A number is written under a [`Format`], which is a [`Locale`], a [`CustomFormat`] or a type of
//! your own. It is written into a [`Buffer`], a string or a writer:
//!
//! ```rust
//! let mut buffer = Buffer::new();
//! buffer.write_formatted(&1000000, &Locale::en)            // 9
//! buffer.as_str()                                          // "1,000,000"
//! 1000000.to_formatted_string(alloc, &Locale::de)?         // "1.000.000"
//! let mut line = String::from_str(alloc, "total: ")?;
//! line.write_formatted(&1000000, &Locale::en)?             // 9: as for a Vec<u8>, a File ..
//! line                                                     // "total: 1,000,000"
//! ```
//!
//! or displayed in a column:
//!
//! ```rust
//! println!(rt; "{:>12}", 1000000.formatted(&Locale::en))    // "   1,000,000"
//! ```
//!
//! It is parsed under a format too:
//!
//! ```rust
//! let number: i64 = "1,000,000".parse_formatted(&Locale::en)?;    // 1000000
//! ```
//!
//! Every call that succeeds writes the same text for a number and a format. Parsing reads the digits of a text,
//! and the minus sign at its start. It ignores each character that is not numeric: under the locale `en`,
//! `12.50` is 1250 and `(7)` is 7. Strict parsing accepts a text only as the number is printed, with its
//! separators or without any, and says of any other what is wrong:
//!
//! ```rust
//! let number: Result<i64, StrictError> = "12.50".parse_strict(&Locale::en);    // Err(Unexpected { at: 2 })
//! ```
//!
//! [`json`] has a buffer, a custom format and a locale as JSON values. [`reads_back`] and
//! [`prints_alike`] check a format once, for all numbers.
//!
//! The contracts state all this, and [`laws`] states what follows for all formats and numbers. A
//! caller imports the definitions that the contracts use from `Rattle.num_format.specs`, as
//! `Rattle.num_format.specs.Text.{text_of}`.
//!
//! What the Rust crate `num-format` 0.4.4 has too has its name.
#![tactic(auto)]

pub mod json;
pub mod laws;

pub use num_format_certificates::certificates::{prints_alike, reads_back};
pub use num_format_custom::custom_format::CustomFormat;
pub use num_format_custom::custom_format_builder::CustomFormatBuilder;
pub use num_format_int::buffer::Buffer;
pub use num_format_int::to_formatted_str::ToFormattedStr;
pub use num_format_locale::locale::Locale;
pub use num_format_text::error::Error;
pub use num_format_text::error_kind::{ErrorKind, MAX_MESSAGE_LEN};
pub use num_format_text::format::Format;
pub use num_format_text::grouping::Grouping;
pub use num_format_writers::formatted::{Formatted, text_len, text_width, write_filled};
pub use num_format_writers::to_formatted_string::ToFormattedString;
pub use num_format_writers::write_formatted::WriteFormatted;

/// How an error keeps a text.
pub mod error {
    pub use num_format_text::error::{Error, cut};
}

/// Parsing: the traits, a parser that is kept, and the errors.
pub mod parsing {
    pub use num_format_parsing::error::{ParseBytesError, StrictError};
    pub use num_format_parsing::parsing::{FromFormattedStr, ParseFormatted};
    pub use num_format_parsing::strict::StrictParser;
}

/// Writing into a string or a writer.
pub mod to_formatted_string {
    pub use num_format_writers::to_formatted_string::{ToFormattedString, write_whole};
}

/// The texts of a format, one type for each. A text has at most its capacity in bytes.
pub mod utils {
    pub use num_format_text::strings::{
        DecimalStr, InfinityStr, MinusSignStr, NanStr, PlusSignStr, SeparatorStr,
    };
}
