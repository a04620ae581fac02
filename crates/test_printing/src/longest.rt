//! The longest text of a number: that of `i128::MIN` in Indian groups, with a separator and a minus sign of
//! eight bytes.

use num_format::{CustomFormat, Error, Grouping};

/// The text of `i128::MIN` under [`longest_format`].
pub const LONGEST: &str = "abcdefgh17123456780112345678411234567818123456783412345678601234567846\
    12345678921234567831123456787312345678161234567887123456783012345678371234567815123456788812345678\
    41123456780512345678728";

/// Returns the format under which a text is longest.
pub fn longest_format() -> Result<CustomFormat, Error> {
    CustomFormat::builder()
        .grouping(Grouping::Indian)
        .separator("12345678")
        .minus_sign("abcdefgh")
        .build()
}
