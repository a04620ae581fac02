//! Powers of ten, and numbers divided by them.
ghost use Rattle.std.specs.Prelude.{◌≡◌, ◌/◌, ◌%◌, ◌^◌, ◌<◌, ◌≤◌, pos};

use crate::decimal::MAX_SCALE;

/// The lowest exponent at which a power of ten takes more than 64 bits.
pub(crate) const TWENTY_DIGITS: u8 = 20;

/// 2 to the power of 64.
const TWO_TO_64: u128 = 1 << 64;

/// 2 to the power of 32.
const TWO_TO_32: u64 = 1 << 32;

/// Returns 10 to the power of an exponent.
#[tactic(auto, using(crate::proofs::ScaleLemmas::powers))]
pub(crate) fn power_of_ten(exponent: u8) -> u128
    requires { exponent ≤ MAX_SCALE }
    ensures power { result ≡ 10 ^ exponent }
    ensures bound { result ≤ 10 ^ MAX_SCALE }
    ensures positive { 0 < result }
{
    if exponent < TWENTY_DIGITS {
        narrow_power_of_ten(exponent) as u128
    } else {
        let first = narrow_power_of_ten(exponent - 19);
        first as u128 * 10_000_000_000_000_000_000
    }
}

/// Returns 10 to the power of an exponent, as a signed number.
#[tactic(auto, using(crate::proofs::ScaleLemmas::powers))]
pub(crate) fn signed_power_of_ten(exponent: u8) -> i128
    requires { exponent ≤ MAX_SCALE }
    ensures power { result ≡ pos (10 ^ exponent) }
    ensures bound { 10 ^ exponent ≤ 10 ^ MAX_SCALE }
    ensures positive { 0 < 10 ^ exponent }
{
    power_of_ten(exponent) as i128
}

/// Returns 10 to the power of an exponent, which fits 64 bits.
#[rattlefmt::skip]
pub(crate) fn narrow_power_of_ten(exponent: u8) -> u64
    requires { exponent < TWENTY_DIGITS }
    ensures { result ≡ 10 ^ exponent }
{
    match exponent {
        0 => 1, 1 => 10, 2 => 100, 3 => 1000, 4 => 10_000, 5 => 100_000,
        6 => 1_000_000, 7 => 10_000_000, 8 => 100_000_000, 9 => 1_000_000_000,
        10 => 10_000_000_000, 11 => 100_000_000_000, 12 => 1_000_000_000_000,
        13 => 10_000_000_000_000, 14 => 100_000_000_000_000, 15 => 1_000_000_000_000_000,
        16 => 10_000_000_000_000_000, 17 => 100_000_000_000_000_000,
        18 => 1_000_000_000_000_000_000, _ => 10_000_000_000_000_000_000,
    }
}

/// Returns a number divided by 10 to the power of a scale, and what is left.
pub(crate) fn split(n: u128, scale: u8) -> (u128, u128)
    requires { scale ≤ MAX_SCALE }
    ensures whole { result.0 ≡ n / 10 ^ scale }
    ensures rest { result.1 ≡ n % 10 ^ scale }
{
    match scale {
        0 => (n, 0),
        1 => divide_by::<10>(n),
        2 => divide_by::<100>(n),
        3 => divide_by::<1000>(n),
        4 => divide_by::<10_000>(n),
        5 => divide_by::<100_000>(n),
        6 => divide_by::<1_000_000>(n),
        7 => divide_by::<10_000_000>(n),
        8 => divide_by::<100_000_000>(n),
        9 => divide_by::<1_000_000_000>(n),
        _ => divide(n, power_of_ten(scale)),
    }
}

/// Returns a number divided by another of up to 32 bits, and what is left.
///
/// A division of 128 bits is a call. In its place 64 bits are divided three times, as on paper, by a number that is
/// known where the code is compiled, so that each division takes a few multiplications.
#[inline(always)]
fn divide_by<const BY: u64>(n: u128) -> (u128, u128)
    requires { (0 < BY) × (BY ≤ 2 ^ 32) }
    ensures whole { result.0 ≡ n / BY }
    ensures rest { result.1 ≡ n % BY }
{
    let (high, low) = ((n / TWO_TO_64) as u64, (n % TWO_TO_64) as u64);
    let middle = high % BY * TWO_TO_32 + low / TWO_TO_32;
    let last = middle % BY * TWO_TO_32 + low % TWO_TO_32;
    let whole = (high / BY) as u128 * TWO_TO_64 + (middle / BY * TWO_TO_32 + last / BY) as u128;
    (whole, (last % BY) as u128)
}

/// Returns a number divided by another, and what is left, by one division.
#[tactic(auto, using(crate::proofs::ScaleLemmas::quotient_times))]
fn divide(n: u128, one: u128) -> (u128, u128)
    requires { 0 < one }
    ensures whole { result.0 ≡ n / one }
    ensures rest { result.1 ≡ n % one }
{
    let whole = n / one;
    (whole, n - whole * one)
}
