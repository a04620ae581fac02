//! Sums and differences of decimals.
ghost use Rattle.std.specs.Prelude.{◌≡◌, ◌≤◌, max, ◌+ℤ◌, FitsSigned, MatchOption, SomeIff};
ghost use Rattle.std.specs.Int.{w128};
ghost use Rattle.num_format_int.specs.Kind.{signed_number};
ghost use Rattle.num_format_decimal.specs.Rounded.{sum_with_sign};
ghost use Rattle.num_format_decimal.specs.Values.{HasUnits, minus, negated, plus};

use crate::decimal::{Decimal, MAX_SCALE};

impl Decimal {
    /// Returns the sum at the larger of both scales, or `None` if its units there are no `i128`.
    ///
    /// ```rust
    /// Decimal::new(150, 2)?.checked_add(Decimal::from(2))    // Some(3.50)
    /// ```
    pub fn checked_add(self, other: Decimal) -> Option<Decimal>
        ensures { SomeIff result (HasUnits (plus self other)) (plus self other) }
    {
        let is_negative = other.is_negative();
        self.checked_sum(other, is_negative)
    }

    /// Returns the difference at the larger of both scales, or `None` if its units there are no `i128`.
    ///
    /// ```rust
    /// Decimal::new(150, 2)?.checked_sub(Decimal::from(2))    // Some(-0.50)
    /// ```
    pub fn checked_sub(self, other: Decimal) -> Option<Decimal>
        ensures { SomeIff result (HasUnits (minus self other)) (minus self other) }
    {
        let is_negative = other.is_negative();
        self.checked_sum(other, !is_negative)
    }

    /// Returns the negated number at the same scale, or `None` if its units are no `i128`: those of `i128::MIN`.
    ///
    /// ```rust
    /// Decimal::new(150, 2)?.checked_neg()    // Some(-1.50)
    /// ```
    pub fn checked_neg(self) -> Option<Decimal>
        ensures { SomeIff result (HasUnits (negated self)) (negated self) }
    {
        let units = self.units().checked_neg()?;
        Some(Decimal::of(units, self.scale()))
    }

    /// Returns the sum at the larger of both scales, where the other number has its absolute value and this
    /// sign, or `None` if its units there are no `i128`.
    ///
    /// An absolute value of more than 128 bits is not needed: no sum with it is an `i128`.
    #[tactic(auto, using(crate::proofs::ScaleLemmas::sums))]
    fn checked_sum(self, other: Decimal, other_is_negative: bool) -> Option<Decimal>
        ensures { let sum = sum_with_sign self other other_is_negative in
            SomeIff result (HasUnits sum) sum }
    {
        let scale = larger_scale(&self, &other);
        let magnitude = self.magnitude_at(scale);
        let other_magnitude = other.magnitude_at(scale);
        let is_negative = self.is_negative();
        let x = magnitude?;
        let y = other_magnitude?;
        let (sign, sum) = signed_sum(is_negative, x, other_is_negative, y)?;
        Decimal::with_magnitude(sign, sum, scale)
    }
}

/// Returns the larger scale of two decimals.
fn larger_scale(a: &Decimal, b: &Decimal) -> u8
    ensures scale { result ≡ max a.now.scale b.now.scale }
    ensures bound { result ≤ MAX_SCALE }
{
    a.scale().max(b.scale())
}

/// Returns the sum of two numbers, each by its sign and its absolute value, or `None` if it takes more than 128
/// bits besides the sign.
#[tactic(auto, using(crate::proofs::ScaleLemmas::signs))]
fn signed_sum(is_negative: bool, x: u128, other_is_negative: bool, y: u128) -> Option<(bool, u128)>
    ensures { let sum = signed_number is_negative x +ℤ signed_number other_is_negative y in
        MatchOption result (¬ (FitsSigned w128 sum)) (λ s. signed_number s.0 s.1 ≡ sum) }
{
    if is_negative == other_is_negative {
        Some((is_negative, x.checked_add(y)?))
    } else if x >= y {
        Some((is_negative, x - y))
    } else {
        Some((other_is_negative, y - x))
    }
}
