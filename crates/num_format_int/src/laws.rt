//! Laws of the digits and the text of a number, for callers' proofs.
//!
//! The contract of each function is a law. There is nothing to compute, so the bodies are empty, but
//! for that of [`number_in_range`], which calls a method for what its contract says. A caller that needs
//! a law in a proof calls its function.
ghost use Rattle.num_format_int.specs.Kind.{IsValueOf};
ghost use Rattle.num_format_int.specs.Laws.{BoundLaw, DigitsLaw, EndsLaw, LengthLaw};

use crate::to_formatted_str::ToFormattedStr;

/// The digits of a number: `n` alone below ten, and else the digits of `n / 10` and then `n % 10`.
/// They write the number, and a leading zero does not change which number digits write.
#[tactic(auto, using(crate::proofs::TextLemmas::digits_law))]
pub fn digits()
    ensures { DigitsLaw }
{}

/// The length of a text in bytes: that of the minus sign of a negative number, the number of
/// digits, and the number of separators times the length of one.
#[tactic(auto, using(crate::proofs::TextLemmas::text_lengths))]
pub fn text_length()
    ensures { LengthLaw }
{}

/// No text of a number from `i128::MIN` to `u128::MAX` has more than 191 bytes. That of `i128::MIN`
/// has as many where the grouping is Indian, and the separator and the minus sign have 8 bytes
/// each.
#[tactic(auto, using(crate::proofs::TextLemmas::bound_law))]
pub fn text_bound()
    ensures { BoundLaw }
{}

/// After the minus sign, a text begins and ends with a digit: no separator leads or trails.
#[tactic(auto, using(crate::proofs::TextLemmas::ends_law))]
pub fn text_ends()
    ensures { EndsLaw }
{}

/// A number is a value of the kind of its type, whatever type it is of.
pub fn number_in_range<N: ToFormattedStr>(n: &N)
    ensures { IsValueOf N.kind (N.value n.now) }
{
    n.sign_and_magnitude();
}
