//! Unsigned integers to which digits are appended.
ghost use Rattle.std.specs.Prelude.{◌≡◌, ℕ, ◌+◌, ◌*◌, ◌%◌, ◌^◌, ◌<◌, ◌≤◌, MatchOption};

/// So many digits fit 64 bits, whatever they are.
pub(crate) const SAFE_DIGITS: usize = 19;

/// So many digits fit 128 bits, whatever they are.
const SAFE_WIDE_DIGITS: usize = 38;

/// An unsigned integer to which digits are appended, one at a time, while it stays below its bound.
pub(crate) trait Accumulator: Copy {
    ghost bound: { ℕ };

    ghost safe: { ℕ };

    ghost number: { Self → ℕ };

    /// Returns the number 0.
    fn zero() -> Self
        ensures { number result ≡ 0 };

    /// Returns the number with a digit appended to its digits, if that is below the bound.
    fn push_digit(self, digit_count: usize, digit: u8) -> Option<Self>
        requires digit_count { number self < 10 ^ digit_count }
        requires digit { digit < 10 }
        ensures { MatchOption result (bound ≤ number self * 10 + digit)
            (λ longer. number longer ≡ number self * 10 + digit) };

    /// Returns the most digits whose number is below the bound, whatever they are.
    fn safe_digits() -> usize
        ensures value { result ≡ safe }
        ensures below { 10 ^ safe ≤ bound };

    /// Returns the number with a group of digits appended, which are as many as the power of ten has zeros,
    /// modulo the bound.
    fn push_group(self, power: u64, group: u64) -> Self
        ensures { number result ≡ (number self * power + group) % bound };

    /// Returns the number.
    fn number(self) -> u128
        ensures { result ≡ number self };
}

impl Accumulator for u64 {
    ghost bound = { 2 ^ 64 };

    ghost safe = { 19 };

    ghost number = { λ n. n };

    fn zero() -> u64 {
        0
    }

    fn push_digit(self, _figures: usize, digit: u8) -> Option<u64> {
        self.checked_mul(10)?.checked_add(digit as u64)
    }

    fn safe_digits() -> usize {
        SAFE_DIGITS
    }

    fn push_group(self, power: u64, group: u64) -> u64 {
        self.wrapping_mul(power).wrapping_add(group)
    }

    fn number(self) -> u128 {
        self as u128
    }
}

impl Accumulator for u128 {
    ghost bound = { 2 ^ 128 };

    ghost safe = { 38 };

    ghost number = { λ n. n };

    fn zero() -> u128 {
        0
    }

    fn push_digit(self, digit_count: usize, digit: u8) -> Option<u128> {
        if digit_count < SAFE_WIDE_DIGITS {
            return Some(self * 10 + digit as u128);
        }
        self.checked_mul(10)?.checked_add(digit as u128)
    }

    fn safe_digits() -> usize {
        SAFE_WIDE_DIGITS
    }

    fn push_group(self, power: u64, group: u64) -> u128 {
        self.wrapping_mul(power as u128).wrapping_add(group as u128)
    }

    fn number(self) -> u128 {
        self
    }
}
