//! The capacities of the texts of a format, and of the text that an error keeps.
//!
//! Each is a number of bytes of UTF-8. Names and values are those of the Rust crate `num-format`
//! 0.4.4, where they are private.

/// The most bytes of a decimal mark.
pub const MAX_DEC_LEN: usize = 8;

/// The most bytes that an error keeps of the text that was refused.
pub const MAX_ERR_LEN: usize = 256;

/// The most bytes of a text for infinity.
pub const MAX_INF_LEN: usize = 128;

/// The most bytes of a minus sign.
pub const MAX_MIN_LEN: usize = 8;

/// The most bytes of a text for NaN.
pub const MAX_NAN_LEN: usize = 64;

/// The most bytes of a plus sign.
pub const MAX_PLUS_LEN: usize = 8;

/// The most bytes of a separator.
pub const MAX_SEP_LEN: usize = 8;
