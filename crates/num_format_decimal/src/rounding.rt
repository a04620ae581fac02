//! Decimals at another scale.
ghost use Rattle.std.specs.Prelude.{◌≡◌, ◌%◌, ◌^◌, ◌<◌, ◌≤◌, ◌↔◌, pos, unsigned_abs, IsTrue, IfOk, IfErr, OnOk};
ghost use Rattle.std.specs.Prelude.{MatchOption, SomeIff};
ghost use Rattle.num_format_decimal.specs.Rounded.{CanRescale, CannotRescale, LosesRemainder, dividend, quotient};
ghost use Rattle.num_format_decimal.specs.Rounded.{rescaled, rounds_up};

use crate::decimal::{Decimal, MAX_SCALE};
use crate::error::DecimalError;
use crate::powers::power_of_ten;

/// What becomes of a number that has more decimals than there is space for.
#[derive(Clone, Copy, Debug, PartialEq, Eq, Hash)]
pub enum Rounding {
    /// The nearest number, and of two that are equally near the one whose last digit is even, as in
    /// accounts: 2.5 becomes 2, and 3.5 becomes 4.
    HalfEven,
    /// The nearest number, and of two that are equally near the one farther from zero, as in commerce:
    /// 2.5 becomes 3, and -2.5 becomes -3.
    HalfAwayFromZero,
    /// The digits that are left, whatever follows them: 2.9 becomes 2, and -2.9 becomes -2.
    TowardZero,
    /// The same number, or an error.
    Exact,
}

impl Decimal {
    /// Returns the number at another scale, rounded where that has fewer decimals.
    ///
    /// ```rust
    /// Decimal::new(2345, 3)?.rescale(2, Rounding::HalfEven)    // Ok(2.34)
    /// Decimal::new(2345, 3)?.rescale(4, Rounding::Exact)       // Ok(2.3450)
    /// Decimal::new(2345, 3)?.rescale(2, Rounding::Exact)       // Err(DigitsLost)
    /// ```
    ///
    /// # Errors
    ///
    /// Returns the first of these that holds, and no other error:
    ///
    /// - [`DecimalError::ScaleTooLarge`]: the scale is larger than [`MAX_SCALE`].
    /// - [`DecimalError::DigitsLost`]: digits other than zero would be lost under [`Rounding::Exact`].
    /// - [`DecimalError::OutOfRange`]: the units at the scale are no `i128`.
    #[tactic(auto, using(crate::proofs::ScaleLemmas::rescaling))]
    pub fn rescale(self, scale: u8, rounding: Rounding) -> Result<Decimal, DecimalError>
        ensures decimal { IfOk result (λ d. d ≡ rescaled rounding self scale) }
        ensures accepted { OnOk result (CanRescale rounding self scale) }
        ensures refused { IfErr result (CannotRescale rounding self scale) }
    {
        if scale > MAX_SCALE {
            return Err(DecimalError::ScaleTooLarge);
        }
        let Some(dividend) = self.magnitude_at(scale) else {
            return Err(DecimalError::OutOfRange);
        };
        let divisor = power_of_ten(self.scale().saturating_sub(scale));
        let Some(magnitude) = rounding.divide(dividend, divisor) else {
            return Err(DecimalError::DigitsLost);
        };
        match Decimal::with_magnitude(self.is_negative(), magnitude, scale) {
            Some(decimal) => Ok(decimal),
            None => Err(DecimalError::OutOfRange),
        }
    }

    /// Returns the absolute value of the units at a scale, or `None` if it is no `u128`. Where the scale is
    /// smaller than that of the number, these are the units that it has.
    pub(crate) fn magnitude_at(&self, scale: u8) -> Option<u128>
        requires { scale ≤ MAX_SCALE }
        ensures magnitude { SomeIff result (dividend self.now scale < 2 ^ 128) (dividend self.now scale) }
        ensures bound { unsigned_abs self.now.units ≤ 2 ^ 127 }
    {
        let more = scale.saturating_sub(self.scale());
        self.magnitude().checked_mul(power_of_ten(more))
    }
}

impl Rounding {
    /// Returns `m` divided by `n`, rounded to a whole number, or `None` if digits would be lost that are not
    /// to be rounded.
    #[tactic(auto, using(crate::proofs::ScaleLemmas::rounded_up_fits))]
    fn divide(self, m: u128, n: u128) -> Option<u128>
        requires positive { 0 < n }
        requires bound { n ≤ 10 ^ MAX_SCALE }
        ensures { MatchOption result (LosesRemainder self (m % n))
            (λ q. (¬ (LosesRemainder self (m % n))) × (q ≡ quotient self m n)) }
    {
        let (quotient, remainder) = (m / n, m % n);
        if self.loses(remainder) {
            None
        } else if self.rounds_up(quotient, remainder, n) {
            Some(quotient + 1)
        } else {
            Some(quotient)
        }
    }

    /// Returns whether digits would be lost with a remainder, which are not to be rounded.
    fn loses(self, remainder: u128) -> bool
        ensures { IsTrue result ↔ LosesRemainder self remainder }
    {
        match self {
            Rounding::Exact => remainder != 0,
            Rounding::HalfEven | Rounding::HalfAwayFromZero | Rounding::TowardZero => false,
        }
    }

    /// Returns whether a quotient with this remainder is rounded up.
    fn rounds_up(self, quotient: u128, remainder: u128, divisor: u128) -> bool
        requires remainder { remainder < divisor }
        requires bound { divisor ≤ 10 ^ MAX_SCALE }
        ensures { result ≡ rounds_up self quotient remainder divisor }
    {
        let twice = 2 * remainder;
        match self {
            Rounding::HalfEven => divisor < twice || (twice == divisor && quotient % 2 == 1),
            Rounding::HalfAwayFromZero => divisor <= twice,
            Rounding::TowardZero | Rounding::Exact => false,
        }
    }
}
