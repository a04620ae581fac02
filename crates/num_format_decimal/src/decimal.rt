//! The type [`Decimal`], and what is converted to it.
ghost use Rattle.std.specs.Prelude.{◌≡◌, ◌<◌, ◌≤◌, ◌^◌, pos, unsigned_abs, IfErr, SomeIff};
ghost use Rattle.std.specs.Int.{is_negative};
ghost use Rattle.std.specs.Result.{OkIff};
ghost use Rattle.num_format_int.specs.Kind.{signed_number};
ghost use Rattle.num_format_decimal.specs.FixedPoint.{fixed_point};
ghost use Rattle.num_format_decimal.specs.Values.{HasUnits, whole};
ghost use Rattle.num_format_decimal.specs.declared.error.DecimalError.TheVariants.{OutOfRange, ScaleTooLarge};

use crate::error::DecimalError;
use num_format_int::sealed::Sealed;
use std::marker::Model;

/// The largest scale: the most decimals that a number has.
pub const MAX_SCALE: u8 = 38;

/// A number with a fixed number of decimals: `units` divided by 10 to the power of `scale`, which is at most
/// [`MAX_SCALE`].
///
/// The scale is a part of a decimal: 1.50 is printed with two decimals, and 1.5 with one. They compare as
/// equal, since the order, `==` and `Hash` go by the value.
///
/// ```rust
/// Decimal::new(150, 2)?                            // 1.50
/// Decimal::new(150, 2)? == Decimal::new(15, 1)?    // true
/// Decimal::from(3)                                 // 3, at scale 0
/// ```
#[derive(Clone, Copy, Debug)]
pub struct Decimal {
    units: i128,
    /// As wide as it is, it leaves less padding, which each move of a decimal copies in pieces.
    scale: u64,
}

impl Model for Decimal {
    ghost use Rattle.std.specs.Prelude.{◌≤◌};
    ghost use Rattle.num_format_decimal.specs.FixedPoint.{FixedPoint};
    ghost use Rattle.num_format_decimal.specs.declared.decimal.TheConstants.{MAX_SCALE};

    ghost Value = { FixedPoint };

    ghost view = { λ d. record { units = d.units; scale = d.scale } };

    ghost invariant = { λ d. d.scale ≤ MAX_SCALE };

    ghost inverse = { λ d. record { units = d.units; scale = d.scale } };
}

impl Decimal {
    /// Returns `units` divided by 10 to the power of `scale`.
    ///
    /// ```rust
    /// Decimal::new(-50, 2)?    // -0.50
    /// Decimal::new(1, 39)      // Err(ScaleTooLarge)
    /// ```
    ///
    /// # Errors
    ///
    /// Returns [`DecimalError::ScaleTooLarge`] exactly if the scale is larger than [`MAX_SCALE`].
    pub fn new(units: i128, scale: u8) -> Result<Decimal, DecimalError>
        ensures decimal { OkIff result (scale ≤ MAX_SCALE) (fixed_point units scale) }
        ensures refused { IfErr result (λ e. e ≡ ScaleTooLarge) }
    {
        if scale > MAX_SCALE {
            return Err(DecimalError::ScaleTooLarge);
        }
        Ok(Decimal::of(units, scale))
    }

    /// Returns `units` divided by 10 to the power of `scale`, which the caller knows to be at most
    /// [`MAX_SCALE`]. [`new`](Decimal::new) tests that.
    pub(crate) fn of(units: i128, scale: u8) -> Decimal
        requires { scale ≤ MAX_SCALE }
        ensures decimal { result ≡ fixed_point units scale }
        ensures fits { HasUnits result }
    {
        let scale = scale as u64;
        Decimal { units, scale }
    }

    /// Returns the decimal whose units have that sign and that absolute value, or `None` if they are no `i128`.
    pub(crate) fn with_magnitude(is_negative: bool, magnitude: u128, scale: u8) -> Option<Decimal>
        requires { scale ≤ MAX_SCALE }
        ensures { let d = fixed_point (signed_number is_negative magnitude) scale in
            SomeIff result (HasUnits d) d }
    {
        let units = i128::from_sign_and_magnitude(is_negative, magnitude)?;
        Some(Decimal::of(units, scale))
    }

    /// Returns how many units the number is, of 10 to the power of minus the scale.
    ///
    /// ```rust
    /// Decimal::new(150, 2)?.units()    // 150
    /// ```
    pub fn units(&self) -> i128
        ensures { result ≡ self.now.units }
    {
        self.units
    }

    /// Returns whether the number is below zero.
    ///
    /// ```rust
    /// Decimal::new(-150, 2)?.is_negative()    // true
    /// ```
    pub fn is_negative(&self) -> bool
        ensures { result ≡ is_negative self.now.units }
    {
        self.units.is_negative()
    }

    /// Returns the absolute value of the units.
    pub(crate) fn magnitude(&self) -> u128
        ensures magnitude { result ≡ unsigned_abs self.now.units }
        ensures bound { result ≤ 2 ^ 127 }
    {
        self.units.unsigned_abs()
    }

    /// Returns the number of decimals, at most [`MAX_SCALE`].
    ///
    /// ```rust
    /// Decimal::new(150, 2)?.scale()    // 2
    /// ```
    pub fn scale(&self) -> u8
        ensures scale { result ≡ self.now.scale }
        ensures bound { result ≤ MAX_SCALE }
    {
        self.scale as u8
    }
}

impl From<u8> for Decimal {
    ghost from_gives = { λ n d. d ≡ whole (pos n) };

    fn from(n: u8) -> Decimal {
        Decimal::of(i128::from(n), 0)
    }
}

impl From<u16> for Decimal {
    ghost from_gives = { λ n d. d ≡ whole (pos n) };

    fn from(n: u16) -> Decimal {
        Decimal::of(i128::from(n), 0)
    }
}

impl From<u32> for Decimal {
    ghost from_gives = { λ n d. d ≡ whole (pos n) };

    fn from(n: u32) -> Decimal {
        Decimal::of(i128::from(n), 0)
    }
}

impl From<u64> for Decimal {
    ghost from_gives = { λ n d. d ≡ whole (pos n) };

    fn from(n: u64) -> Decimal {
        Decimal::of(i128::from(n), 0)
    }
}

impl From<usize> for Decimal {
    ghost from_gives = { λ n d. d ≡ whole (pos n) };

    fn from(n: usize) -> Decimal {
        Decimal::of(n as i128, 0)
    }
}

impl From<i8> for Decimal {
    ghost from_gives = { λ n d. d ≡ whole n };

    fn from(n: i8) -> Decimal {
        Decimal::of(i128::from(n), 0)
    }
}

impl From<i16> for Decimal {
    ghost from_gives = { λ n d. d ≡ whole n };

    fn from(n: i16) -> Decimal {
        Decimal::of(i128::from(n), 0)
    }
}

impl From<i32> for Decimal {
    ghost from_gives = { λ n d. d ≡ whole n };

    fn from(n: i32) -> Decimal {
        Decimal::of(i128::from(n), 0)
    }
}

impl From<i64> for Decimal {
    ghost from_gives = { λ n d. d ≡ whole n };

    fn from(n: i64) -> Decimal {
        Decimal::of(i128::from(n), 0)
    }
}

impl From<i128> for Decimal {
    ghost from_gives = { λ n d. d ≡ whole n };

    fn from(n: i128) -> Decimal {
        Decimal { units: n, scale: 0 }
    }
}

impl From<isize> for Decimal {
    ghost from_gives = { λ n d. d ≡ whole n };

    fn from(n: isize) -> Decimal {
        Decimal::of(n as i128, 0)
    }
}

impl TryFrom<u128> for Decimal {
    type Error = DecimalError;

    ghost try_from_gives = { λ n result. OkIff result (n < 2 ^ 127) (whole (pos n))
        × IfErr result (λ e. e ≡ OutOfRange) };

    /// Returns [`DecimalError::OutOfRange`] exactly if the number is no `i128`.
    fn try_from(n: u128) -> Result<Decimal, DecimalError> {
        match i128::try_from(n) {
            Ok(units) => Ok(Decimal { units, scale: 0 }),
            Err(_) => Err(DecimalError::OutOfRange),
        }
    }
}
