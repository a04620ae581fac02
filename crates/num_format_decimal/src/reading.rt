//! Digits read as parts of decimals.
ghost use Rattle.std.specs.Prelude.{◌≡◌, ◌+◌, ◌-◌, ◌*◌, ◌^◌, ◌<◌, ◌≤◌, ◌∷◌, [], true, false, MatchOption, SomeIff};
ghost use Rattle.std.specs.Prelude.{drop, length};
ghost use Rattle.std.specs.Char.{is_ascii_digit};
ghost use Rattle.std.specs.Int.Digits.{number_from_digits};
ghost use Rattle.std.specs.List.{list_all};
ghost use Rattle.num_format_int.specs.Digits.{digits};
ghost use Rattle.num_format_int.specs.Groups.{plain};
ghost use Rattle.num_format_parsing.specs.Shapes.{byte_digits};
ghost use Rattle.num_format_decimal.specs.Shapes.{tail_digits};

use crate::decimal::MAX_SCALE;
use crate::powers::narrow_power_of_ten;

/// So many digits fit 64 bits, whatever they are.
const SAFE_DIGITS: usize = 19;

/// Returns the number of which a text is the digits alone, unless it has more than 19.
#[tactic(auto, using(crate::proofs::ReadLemmas::reading))]
#[inline(always)]
pub(crate) fn whole_number(text: &[u8]) -> Option<u64>
    ensures { MatchOption result (¬ (text.now ≡ 48 ∷ [])) (λ n. text.now ≡ plain (digits n)) }
{
    if text.is_empty() || text.len() > SAFE_DIGITS {
        return None;
    }
    if text[0] == b'0' && text.len() > 1 {
        return None;
    }
    read_digits(text)
}

/// Returns the number that the digits of a whole number and its decimals write together, or `None` if it takes more
/// than 128 bits.
#[tactic(auto, using(crate::proofs::ReadLemmas::reading))]
#[inline(always)]
pub(crate) fn joined(whole: u128, decimals: &[u8]) -> Option<u128>
    requires all { list_all is_ascii_digit decimals.now ≡ true }
    requires few { length decimals.now ≤ MAX_SCALE }
    ensures { let n = whole * 10 ^ length decimals.now + number_from_digits 10 (byte_digits decimals.now) in
        SomeIff result (n < 2 ^ 128) n }
{
    if decimals.len() <= SAFE_DIGITS {
        return append_digits(whole, decimals);
    }
    let (high, low) = decimals.split_at(decimals.len() - SAFE_DIGITS);
    let Some(first) = append_digits(whole, high) else {
        return None;
    };
    append_digits(first, low)
}

/// Returns the number that the digits of a number and these digits write together, or `None` if it takes more than
/// 128 bits.
#[inline(always)]
fn append_digits(n: u128, digits: &[u8]) -> Option<u128>
    requires all { list_all is_ascii_digit digits.now ≡ true }
    requires few { length digits.now ≤ SAFE_DIGITS }
    ensures { let sum = n * 10 ^ length digits.now + number_from_digits 10 (byte_digits digits.now) in
        SomeIff result (sum < 2 ^ 128) sum }
{
    let one = narrow_power_of_ten(digits.len() as u8);
    let rest = read_digits(digits)?;
    // The product of two numbers of 64 bits takes less time.
    if n <= u64::MAX as u128 {
        return Some(n as u64 as u128 * one as u128 + rest as u128);
    }
    n.checked_mul(one as u128)?.checked_add(rest as u128)
}

/// Returns the number that digits write, or `None` if a byte is no digit.
#[tactic(auto, using(crate::proofs::ReadLemmas::reading))]
#[inline(always)]
fn read_digits(text: &[u8]) -> Option<u64>
    requires { length text.now ≤ SAFE_DIGITS }
    ensures { MatchOption result (list_all is_ascii_digit text.now ≡ false)
        (λ n. (list_all is_ascii_digit text.now ≡ true) × (n ≡ number_from_digits 10 (byte_digits text.now))) }
{
    let mut n = 0u64;
    for byte in text {
        if !byte.is_ascii_digit() {
            return None;
        }
        n = 10 * n + (*byte - b'0') as u64;
    }
    Some(n)
}

/// Returns how many digits stand at the end of a text.
#[tactic(auto, using(crate::proofs::ReadLemmas::reading))]
pub(crate) fn trailing_digits(text: &[u8]) -> usize
    ensures within { result ≤ length text.now }
    ensures digits { list_all is_ascii_digit (drop (length text.now - result) text.now) ≡ true }
    ensures value { result ≡ tail_digits text.now }
{
    let mut start = text.len();
    while start > 0 {
        if !text[start - 1].is_ascii_digit() {
            return text.len() - start;
        }
        start -= 1;
    }
    text.len()
}
