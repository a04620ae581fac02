//! Numbers with as many decimals as are asked for.
ghost use Rattle.std.specs.Prelude.{◌≡◌};
ghost use Rattle.regroup_faults.specs.Reading.{scaled};

use num_format_decimal::{Decimal, DecimalError, Rounding};

/// With how many decimals numbers are written.
///
/// ```rust
/// let cents = Scale { decimals: 2, rounding: Rounding::HalfEven };
/// cents.apply(Decimal::new(2345, 3)?)    // Ok(2.34)
/// ```
#[derive(Clone, Copy, Debug, PartialEq, Eq)]
pub struct Scale {
    /// How many decimals, at most 38.
    pub decimals: u8,
    /// What becomes of a number that has more.
    pub rounding: Rounding,
}

impl Scale {
    /// Returns the number at the scale.
    ///
    /// # Errors
    ///
    /// Returns the error of [`Decimal::rescale`].
    pub fn apply(self, number: Decimal) -> Result<Decimal, DecimalError>
        ensures { result ≡ scaled self number }
    {
        number.rescale(self.decimals, self.rounding)
    }
}
