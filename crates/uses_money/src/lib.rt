//! Amounts of money, printed and parsed as people write them, over `num_format_decimal`.
//!
//! Any file may be changed, as in a project of a user's own.
//!
//! An amount is a whole number of minor units, as cents, of one of twenty currencies. How many decimals a
//! currency has is ISO 4217's number of its minor units.
#![tactic(auto)]

mod currency;
mod money;
mod price;

pub use currency::Currency;
pub use money::{FormattedMoney, Money};
pub use price::format_price;
