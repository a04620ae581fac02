//! How long the text of a decimal is.
ghost use Rattle.std.specs.Int.{is_negative};
ghost use Rattle.std.specs.Prelude.{◌≡◌, ◌+◌, ◌/◌, ◌^◌, ◌≤◌, [], length, if◌then◌else◌};
ghost use Rattle.num_format_int.specs.Digits.{digits};
ghost use Rattle.num_format_decimal.specs.Text.{decimal_text, mark_at};

use crate::buffer::{MAX_DECIMAL_LEN, texts_fit};
use crate::decimal::{Decimal, MAX_SCALE};
use num_format_text::Format;
use num_format_text::capacities::{MAX_DEC_LEN, MAX_MIN_LEN};
use num_format_writers::formatted::{digit_count, digits_size};

/// Returns the length in bytes of the text of a number, without printing it.
///
/// ```rust
/// text_len(&Decimal::new(-123450, 2)?, &Locale::de)    // 9, of -1.234,50
/// ```
#[tactic(auto, using(crate::proofs::TextLemmas::lengths))]
pub fn text_len<F: Format>(number: &Decimal, format: &F) -> usize
    ensures length { result ≡ length (decimal_text (F.answers format.now) number.now) }
    ensures fits { result ≤ MAX_DECIMAL_LEN }
{
    texts_fit(format);
    let separator = format.separator().into_str().len();
    let whole = digits_size(
        whole_digits(number.magnitude(), number.scale()),
        format.grouping(),
        separator,
    );
    sign_len(number, format) + whole + decimals_len(number.scale(), format)
}

/// Returns how many digits a number has before its last `scale` digits, of which there is always one.
#[tactic(auto, using(crate::proofs::TextLemmas::lengths))]
fn whole_digits(n: u128, scale: u8) -> usize
    ensures value { result ≡ length (digits (n / 10 ^ scale)) }
    ensures bound { result ≤ 39 }
{
    let digits = digit_count(n);
    let scale = scale as usize;
    if digits > scale { digits - scale } else { 1 }
}

/// Returns the length of the minus sign of a number, if it is negative.
fn sign_len<F: Format>(number: &Decimal, format: &F) -> usize
    ensures value { result ≡ length (if is_negative number.now.units then (F.answers format.now).minus_sign else []) }
    ensures bound { result ≤ MAX_MIN_LEN }
{
    if number.is_negative() {
        format.minus_sign().into_str().len()
    } else {
        0
    }
}

/// Returns how many bytes a decimal mark and so many decimals have, if there are any.
fn decimals_len<F: Format>(scale: u8, format: &F) -> usize
    requires { scale ≤ MAX_SCALE }
    ensures value { result ≡ length (mark_at (F.answers format.now) scale) + scale }
    ensures bound { result ≤ MAX_DEC_LEN + MAX_SCALE }
{
    if 0 < scale {
        format.decimal().into_str().len() + scale as usize
    } else {
        0
    }
}
