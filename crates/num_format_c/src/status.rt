//! The errors of the calls, and the numbers by which they cross to C.
ghost use Rattle.std.specs.Prelude.{◌≡◌};
ghost use Rattle.num_format_c.specs.Calls.{Crosses, Stores, at_scale_place_of, at_scale_status_of, code};
ghost use Rattle.num_format_c.specs.Calls.{digits_place_of, digits_status_of, place_of};
ghost use Rattle.num_format_c.specs.Calls.{rescale_status_of, returned, status_of};
ghost use Rattle.num_format_c.specs.Calls.{typed_place_of, typed_status_of};
ghost use Rattle.num_format_c.specs.declared.status.Status.TheVariants.{NotUtf8};

use num_format::parsing::StrictError;
use num_format_decimal::{DecimalError, ParseAtScaleError};
use num_format_digits::DigitsError;
use num_format_typed::TypedError;
use std::str::Utf8Error;

/// Why a call failed.
#[derive(Clone, Copy, Debug, PartialEq, Eq)]
pub enum Status {
    /// The struct has no format.
    BadFormat = -1,
    /// The array is shorter than the text.
    TooSmall = -2,
    /// The bytes are not UTF-8.
    NotUtf8 = -3,
    /// The text is refused as a number of the kind.
    NotANumber = -4,
    /// There is no locale of the name, for the tag or at the place.
    UnknownLocale = -5,
    /// The separator, the minus sign or the decimal mark has more than 8 bytes.
    TooLong = -6,
    /// The number stands for no grouping.
    BadGrouping = -7,
    /// No kind of number has that many bits.
    BadBits = -8,
    /// A byte belongs to no minus sign, digit, separator or decimal mark.
    Unexpected = -9,
    /// The text has no digit.
    NoDigit = -10,
    /// The text is not as its number is printed.
    Misspelled = -11,
    /// The text is as its number is printed, which is no number of the kind.
    OutOfRange = -12,
    /// A decimal has no such scale.
    BadScale = -13,
    /// The text has more than 38 decimals.
    TooManyDecimals = -14,
    /// There are not as many offsets, statuses or bits as the rows of a column need, or the last value is not whole.
    BadLength = -15,
    /// An offset is below the one before it, or past the bytes.
    BadOffsets = -16,
    /// The texts have more bytes than the last offset can say.
    TooManyBytes = -17,
    /// The decimal has digits other than zero that the scale has not.
    DigitsLost = -18,
    /// A text can be misread under the format, so that none is parsed strictly.
    AmbiguousFormat = -19,
    /// No type of values or offsets has the number.
    BadType = -20,
    /// The text, with the characters of the format in it, is longer than that of any number.
    TextTooLong = -21,
    /// No digit set has the name, or that in the tag, or the tag has two.
    UnknownDigits = -22,
    /// A numeric character is no digit of the set.
    OtherNumeral = -23,
}

impl Status {
    /// Returns the number by which the error crosses to C, which is negative.
    pub fn code(self) -> i32
        ensures { result ≡ code self }
    {
        self as i32
    }
}

impl From<Utf8Error> for Status {
    ghost from_gives = { λ _ status. status ≡ NotUtf8 };

    fn from(_: Utf8Error) -> Status {
        Status::NotUtf8
    }
}

impl From<StrictError> for Status {
    ghost from_gives = { λ error status. status ≡ status_of error };

    fn from(error: StrictError) -> Status {
        error.status(&mut 0)
    }
}

impl From<DecimalError> for Status {
    ghost from_gives = { λ error status. status ≡ rescale_status_of error };

    fn from(error: DecimalError) -> Status {
        match error {
            DecimalError::ScaleTooLarge => Status::BadScale,
            DecimalError::DigitsLost => Status::DigitsLost,
            DecimalError::OutOfRange => Status::OutOfRange,
        }
    }
}

/// Returns the number that crosses to C: the value itself, or that of the error.
#[inline(always)]
pub fn returned(value: Result<i32, Status>) -> i32
    ensures { result ≡ returned value }
{
    match value {
        Ok(value) => value,
        Err(status) => status.code(),
    }
}

/// Why parsing refuses a text.
pub trait Cause: Sized {
    ghost use Rattle.std.specs.Prelude.{ℕ};
    ghost use Rattle.num_format_c.specs.declared.status.Status.{Status};

    ghost status_of: { Self → Status };

    ghost place_of: { Self → ℕ → ℕ };

    /// Returns the status of the cause, and writes the place of an unexpected byte.
    fn status(self, at: &mut usize) -> Status
        ensures status { result ≡ status_of self }
        ensures place { at.new ≡ place_of self at.old };
}

impl Cause for StrictError {
    ghost status_of = { status_of };

    ghost place_of = { place_of };

    fn status(self, at: &mut usize) -> Status {
        match self {
            StrictError::AmbiguousFormat => Status::AmbiguousFormat,
            StrictError::NotUtf8 => Status::NotUtf8,
            StrictError::Unexpected { at: place } => {
                *at = place;
                Status::Unexpected
            }
            StrictError::NoDigit => Status::NoDigit,
            StrictError::TooManyDecimals => Status::TooManyDecimals,
            StrictError::Misspelled => Status::Misspelled,
            StrictError::OutOfRange => Status::OutOfRange,
        }
    }
}

impl Cause for ParseAtScaleError {
    ghost status_of = { at_scale_status_of };

    ghost place_of = { at_scale_place_of };

    fn status(self, at: &mut usize) -> Status {
        match self {
            ParseAtScaleError::Parse(error) => error.status(at),
            ParseAtScaleError::Rescale(error) => error.into(),
        }
    }
}

impl<E: Cause> Cause for TypedError<E> {
    ghost status_of = { typed_status_of E.status_of };

    ghost place_of = { typed_place_of E.place_of };

    fn status(self, at: &mut usize) -> Status {
        match self {
            TypedError::TooLong => Status::TextTooLong,
            TypedError::Number(error) => error.status(at),
        }
    }
}

impl<E: Cause> Cause for DigitsError<E> {
    ghost status_of = { digits_status_of E.status_of };

    ghost place_of = { digits_place_of E.place_of };

    fn status(self, at: &mut usize) -> Status {
        match self {
            DigitsError::OtherNumeral { at: start } => {
                *at = start;
                Status::OtherNumeral
            }
            DigitsError::TooLong => Status::TextTooLong,
            DigitsError::Number(error) => error.status(at),
        }
    }
}

/// Returns what parsing returned, with a status for an error, and writes the place of an unexpected byte.
#[inline(always)]
pub fn crossed<T, E: Cause>(parsed: Result<T, E>, at: &mut usize) -> Result<T, Status>
    ensures { Crosses E.status_of E.place_of parsed at.old at.new result }
{
    match parsed {
        Ok(value) => Ok(value),
        Err(error) => Err(error.status(at)),
    }
}

/// Writes the number that was parsed, and returns 0.
pub fn stored<N: Copy>(parsed: Result<N, Status>, number: &mut N) -> Result<i32, Status>
    ensures { Stores parsed number.old number.new (returned result) }
{
    *number = parsed?;
    Ok(0)
}
