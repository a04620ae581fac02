//! Numbers of a fixed number of decimals, as amounts of money are written: exact, and printed under any format
//! of `num_format`.
//!
//! Each file imports only earlier ones of `error`, `decimal`, `powers`, `rounding`, `arithmetic`, `comparing`,
//! `buffer`, `length`, `printing`, `reading`, `parsing`, `parser`, `text_parser`, `marks` and `laws`. Any may be
//! changed. Whole numbers are printed and parsed by the crates below.
//!
//! A [`Decimal`] is a whole number of units and a scale: 150 at scale 2 is 1.50.
//!
//! ```rust
//! let price = Decimal::new(123450, 2)?;
//! price.to_formatted_string(alloc, &Locale::de)?    // "1.234,50"
//! price.rescale(1, Rounding::HalfEven)?             // 1234.5
//! price.checked_add(Decimal::from(1))               // Some(1235.50)
//! ```
//!
//! The contracts state which number each call returns, and the text of a number. They see a decimal as its units
//! and its scale, `FixedPoint`.
#![tactic(auto)]

pub mod arithmetic;
pub mod buffer;
pub mod comparing;
pub mod decimal;
pub mod error;
pub mod laws;
pub mod length;
pub mod marks;
pub mod parser;
pub mod parsing;
mod powers;
pub mod printing;
mod reading;
pub mod rounding;
pub mod text_parser;

pub use buffer::{DecimalBuffer, MAX_DECIMAL_LEN};
pub use decimal::{Decimal, MAX_SCALE};
pub use error::DecimalError;
pub use length::text_len;
pub use marks::marks_decimals;
pub use parser::DecimalParser;
pub use parsing::{ParseAtScaleError, ParseDecimal};
pub use printing::FormattedDecimal;
pub use rounding::Rounding;
pub use text_parser::{AtScale, Placed, TextParser};
