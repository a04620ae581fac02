//! Numbers of 128 bits and decimals by halves, as they cross to C.
ghost use Rattle.std.specs.Prelude.{◌≡◌, ℕ, ◌<◌, ◌≤◌, MatchResult};
ghost use Rattle.num_format_decimal.specs.declared.decimal.TheConstants.{MAX_SCALE};
ghost use Rattle.num_format_c.specs.Calls.{Stores, decimal_of, returned, signed_wide, unsigned_wide};
ghost use Rattle.num_format_c.specs.declared.status.Status.TheVariants.{BadScale};

use crate::status::Status;
use num_format_decimal::{Decimal, MAX_SCALE};

/// The first number that a half does not hold.
const HALF: u128 = 1 << 64;

/// Returns the number of two halves.
pub fn joined(low: u64, high: u64) -> u128
    ensures { result ≡ unsigned_wide low high }
{
    high as u128 * HALF + low as u128
}

/// Writes the halves of a number.
fn split(number: u128, low: &mut u64, high: &mut u64)
    ensures { unsigned_wide low.new high.new ≡ number }
{
    *low = (number % HALF) as u64;
    *high = (number / HALF) as u64;
}

/// A number of 128 bits, which has two halves.
pub trait Wide: Copy {
    ghost of_halves: { ℕ → ℕ → Self };

    /// Writes the halves of the number.
    fn split(self, low: &mut u64, high: &mut u64)
        ensures { of_halves low.new high.new ≡ self };
}

impl Wide for u128 {
    ghost of_halves = { unsigned_wide };

    fn split(self, low: &mut u64, high: &mut u64) {
        split(self, low, high);
    }
}

impl Wide for i128 {
    ghost of_halves = { signed_wide };

    fn split(self, low: &mut u64, high: &mut u64) {
        split(self.cast_unsigned(), low, high);
    }
}

/// Writes the halves of the number that was parsed, and returns 0.
pub fn stored_wide<N: Wide>(
    parsed: Result<N, Status>,
    low: &mut u64,
    high: &mut u64,
) -> Result<i32, Status>
    ensures { Stores parsed (N.of_halves low.old high.old) (N.of_halves low.new high.new) (returned result) }
{
    parsed?.split(low, high);
    Ok(0)
}

/// Returns the scale, or an error if it is too large.
pub fn scale_of(scale: u32) -> Result<u8, Status>
    ensures { MatchResult result (λ s. (scale ≤ MAX_SCALE) × (s ≡ scale))
        (λ status. (MAX_SCALE < scale) × (status ≡ BadScale)) }
{
    if scale <= MAX_SCALE as u32 {
        Ok(scale as u8)
    } else {
        Err(Status::BadScale)
    }
}

/// Returns the decimal whose units have these halves, or an error if the scale is too large.
pub fn decimal_of(low: u64, high: u64, scale: u32) -> Result<Decimal, Status>
    ensures { MatchResult result (λ number. (scale ≤ MAX_SCALE) × (number ≡ decimal_of low high scale))
        (λ status. (MAX_SCALE < scale) × (status ≡ BadScale)) }
{
    let scale = scale_of(scale)?;
    Ok(Decimal::new(joined(low, high).cast_signed(), scale)?)
}

/// Writes the halves of the units and the scale of a decimal, and returns 0.
pub fn stored_decimal(
    number: Result<Decimal, Status>,
    low: &mut u64,
    high: &mut u64,
    scale: &mut u32,
) -> Result<i32, Status>
    ensures { Stores number (decimal_of low.old high.old scale.old) (decimal_of low.new high.new scale.new)
        (returned result) }
{
    let number = number?;
    number.units().split(low, high);
    *scale = number.scale() as u32;
    Ok(0)
}
