//! Numbers in the digits of any script: Arabic-Indic, Devanagari, Bengali, fullwidth and all other decimal digits of
//! Unicode.
//!
//! Any file may be changed. The crates below print and parse the digits `0` to `9` alone, and this one replaces them:
//! a text in a digit set is the text of `num_format` with the characters of the set for `0` to `9`, and is parsed as
//! that text. Separators, the minus sign and the decimal mark are those of the format.
//!
//! ```rust
//! let arab = Digits::of_locale(Locale::ar_EG);
//! DigitText::of(&1234567, &Locale::ar_EG, arab).as_str()    // "١٬٢٣٤٬٥٦٧"
//! arab.parse_strict::<i32, _>("١٬٢٣٤", &Locale::ar_EG)      // Ok(1234)
//! arab.parse_strict::<i32, _>("١٬٢3٤", &Locale::ar_EG)      // Err(OtherNumeral { at: 6 })
//! let typed = TypedParser::new(&Locale::ar_EG)?;
//! arab.parse_by::<i32, _>(" +١٬٢٣٤", &typed)               // Ok(1234)
//! ```
#![tactic(auto)]

pub mod digits;
pub mod laws;
pub mod parsing;
mod plain;
pub mod printing;
pub mod sets;
pub mod tags;

pub use digits::Digits;
pub use parsing::DigitsError;
pub use printing::DigitText;
pub use tags::UnknownDigits;
