//! The symbols of a format, as types.
//!
//! A symbol is one of the texts that a format returns; the word is CLDR's ("Number Symbols"). Each
//! type has no data. It distinguishes its text from those of the other symbols, and says how many
//! bytes the text may have.
ghost use Rattle.std.specs.Prelude.{ℕ};
ghost use Rattle.num_format_text.specs.declared.capacities.TheConstants.{MAX_DEC_LEN, MAX_INF_LEN, MAX_MIN_LEN};
ghost use Rattle.num_format_text.specs.declared.capacities.TheConstants.{MAX_NAN_LEN, MAX_PLUS_LEN, MAX_SEP_LEN};

use crate::capacities::{
    MAX_DEC_LEN, MAX_INF_LEN, MAX_MIN_LEN, MAX_NAN_LEN, MAX_PLUS_LEN, MAX_SEP_LEN,
};

/// A symbol of a format.
pub trait Symbol {
    /// The most bytes of the symbol's text.
    const CAPACITY: usize;

    ghost CAPACITY: { ℕ };
}

/// The decimal mark, as `.` in `1.5`.
#[derive(Clone, Copy, Debug)]
pub struct Decimal;

impl Symbol for Decimal {
    const CAPACITY: usize = MAX_DEC_LEN;

    ghost CAPACITY = { MAX_DEC_LEN };
}

/// The text for infinity, as `∞`.
#[derive(Clone, Copy, Debug)]
pub struct Infinity;

impl Symbol for Infinity {
    const CAPACITY: usize = MAX_INF_LEN;

    ghost CAPACITY = { MAX_INF_LEN };
}

/// The minus sign, as `-` in `-1`.
#[derive(Clone, Copy, Debug)]
pub struct MinusSign;

impl Symbol for MinusSign {
    const CAPACITY: usize = MAX_MIN_LEN;

    ghost CAPACITY = { MAX_MIN_LEN };
}

/// The text for a value that is not a number, as `NaN`.
#[derive(Clone, Copy, Debug)]
pub struct Nan;

impl Symbol for Nan {
    const CAPACITY: usize = MAX_NAN_LEN;

    ghost CAPACITY = { MAX_NAN_LEN };
}

/// The plus sign, as `+` in `+1`.
#[derive(Clone, Copy, Debug)]
pub struct PlusSign;

impl Symbol for PlusSign {
    const CAPACITY: usize = MAX_PLUS_LEN;

    ghost CAPACITY = { MAX_PLUS_LEN };
}

/// The separator between groups of digits, as `,` in `1,000`.
#[derive(Clone, Copy, Debug)]
pub struct Separator;

impl Symbol for Separator {
    const CAPACITY: usize = MAX_SEP_LEN;

    ghost CAPACITY = { MAX_SEP_LEN };
}
