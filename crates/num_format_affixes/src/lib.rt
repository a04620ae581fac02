//! What stands around a number: currencies and units, parentheses, a minus sign at the end.
//!
//! Any file may be changed. [`Affixes`] are texts that may stand before or after a number, as `€` or `Fr.`: a text is
//! split into what stands before the number, the number's own text, and what stands after it. [`accounting`] splits the
//! text of a negative number as accountants and banks write it, in parentheses or with its minus sign at the end, and
//! [`signed_text`] has that sign in front, where parsers take it. Nothing is parsed here, and no byte is lost: the
//! three parts joined are the text. Where an affix may be in the parentheses, as in `(€ 5)`, what is in them is split
//! again.
//!
//! ```rust
//! let affixes = Affixes::new(&["€", "EUR"])?;
//! let inner = affixes.split("(1.234,50) €".as_bytes()).inner;
//! let number = accounting(inner, "-")?.unwrap().inner;
//! str::from_utf8(number)                             // Ok("1.234,50")
//! let mut array = [0; 199];
//! let text = signed_text("-", number, &mut array).unwrap();
//! Decimal::from_strict_bytes(text, &Locale::de)      // Ok(-1234.50)
//! ```
#![tactic(auto)]

pub mod affixes;
mod characters;
pub mod laws;
pub mod negative;
pub mod parts;
mod side;
#[cfg(test)]
mod tests;

pub use affixes::{AffixError, Affixes};
pub use negative::{AccountingError, accounting, signed_text};
pub use parts::Parts;
