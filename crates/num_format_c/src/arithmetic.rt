//! Arithmetic of decimals. What a call computes replaces its first decimal.
ghost use Rattle.std.specs.Prelude.{◌≡◌};
ghost use Rattle.num_format_decimal.specs.Values.{minus, plus};
ghost use Rattle.num_format_c.specs.Arithmetic.{Compares, Computes, Rescales, order_code, rounding_of};
ghost use Rattle.num_format_c.specs.Calls.{decimal_of, returned};

use crate::status::Status;
use crate::wide::{decimal_of, scale_of, stored_decimal};
use num_format_decimal::Rounding;
use std::cmp::Ordering;

/// Adds a decimal to another one, and returns 0.
pub fn add(
    low: &mut u64,
    high: &mut u64,
    scale: &mut u32,
    other_low: u64,
    other_high: u64,
    other_scale: u32,
) -> Result<i32, Status>
    ensures { Computes plus (decimal_of other_low other_high other_scale)
        (decimal_of low.old high.old scale.old) (decimal_of low.new high.new scale.new) (returned result) }
{
    let number = decimal_of(*low, *high, *scale)?;
    let other = decimal_of(other_low, other_high, other_scale)?;
    let sum = number.checked_add(other).ok_or(Status::OutOfRange)?;
    stored_decimal(Ok(sum), low, high, scale)
}

/// Subtracts a decimal from another one, and returns 0.
pub fn subtract(
    low: &mut u64,
    high: &mut u64,
    scale: &mut u32,
    other_low: u64,
    other_high: u64,
    other_scale: u32,
) -> Result<i32, Status>
    ensures { Computes minus (decimal_of other_low other_high other_scale)
        (decimal_of low.old high.old scale.old) (decimal_of low.new high.new scale.new) (returned result) }
{
    let number = decimal_of(*low, *high, *scale)?;
    let other = decimal_of(other_low, other_high, other_scale)?;
    let difference = number.checked_sub(other).ok_or(Status::OutOfRange)?;
    stored_decimal(Ok(difference), low, high, scale)
}

/// Brings a decimal to another scale, and returns 0.
#[tactic(auto, using(crate::proofs::ArithmeticLemmas::is_rescaled, crate::proofs::ArithmeticLemmas::not_rescaled))]
pub fn rescale(
    low: &mut u64,
    high: &mut u64,
    scale: &mut u32,
    new_scale: u32,
    rounding: u32,
) -> Result<i32, Status>
    ensures { Rescales (rounding_of rounding) new_scale
        (decimal_of low.old high.old scale.old) (decimal_of low.new high.new scale.new) (returned result) }
{
    let number = decimal_of(*low, *high, *scale)?;
    let new_scale = scale_of(new_scale)?;
    let rescaled = number.rescale(new_scale, rounding_of(rounding))?;
    stored_decimal(Ok(rescaled), low, high, scale)
}

/// Returns the rounding for which a number stands.
fn rounding_of(number: u32) -> Rounding
    ensures { result ≡ rounding_of number }
{
    match number {
        1 => Rounding::HalfEven,
        2 => Rounding::HalfAwayFromZero,
        3 => Rounding::TowardZero,
        _ => Rounding::Exact,
    }
}

/// Writes -1, 0 or 1 for a decimal below, at or above the value of another, and returns 0.
pub fn compare(
    low: u64,
    high: u64,
    scale: u32,
    other_low: u64,
    other_high: u64,
    other_scale: u32,
    order: &mut i32,
) -> Result<i32, Status>
    ensures { Compares (decimal_of low high scale) (decimal_of other_low other_high other_scale)
        order.old order.new (returned result) }
{
    let number = decimal_of(low, high, scale)?;
    let other = decimal_of(other_low, other_high, other_scale)?;
    *order = order_code(number.cmp(&other));
    Ok(0)
}

/// Returns the number for which an order stands.
fn order_code(order: Ordering) -> i32
    ensures { result ≡ order_code order }
{
    order as i32
}
