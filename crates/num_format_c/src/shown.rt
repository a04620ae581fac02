//! Texts in other digits than `0` to `9`. These are calls that other calls make last, so that their buffers are cleared
//! for such texts alone.
ghost use Rattle.std.specs.Prelude.{◌≡◌, ◌≤◌, length};
ghost use Rattle.num_format.specs.Text.{text_of};
ghost use Rattle.num_format_decimal.specs.Text.{decimal_text};
ghost use Rattle.num_format_decimal.specs.declared.buffer.TheConstants.{MAX_DECIMAL_LEN};
ghost use Rattle.num_format_digits.specs.Digits.{in_digits};
ghost use Rattle.num_format_c.specs.Calls.{Prints, PrintsText, ReturnsLength, Writes, returned};

use crate::calls::write;
use crate::format::{FormatRef, NumFormat};
use crate::status::Status;
use num_format::{Buffer, ToFormattedStr};
use num_format_decimal::{Decimal, DecimalBuffer};
use num_format_digits::printing::{put_text, shown_len};
use num_format_digits::{DigitText, Digits};

/// Prints the number at the start of the array, and returns the length of the text.
#[cold]
#[inline(never)]
pub fn print<N: ToFormattedStr>(
    format: &NumFormat,
    number: &N,
    text: &mut [u8],
) -> Result<i32, Status>
    ensures { Prints format.now (N.value number.now) text.old text.new (returned result) }
{
    let (format, digits) = FormatRef::new(format)?;
    write_in(Buffer::of(number, &format).as_str(), digits, text)
}

/// Returns the length of the text of the number.
#[cold]
#[inline(never)]
pub fn text_len<N: ToFormattedStr>(format: &NumFormat, number: &N) -> Result<i32, Status>
    ensures { ReturnsLength format.now (λ f. text_of f (N.value number.now)) (returned result) }
{
    let (format, digits) = FormatRef::new(format)?;
    Ok(shown_len(Buffer::of(number, &format).as_bytes(), digits) as i32)
}

/// Prints the decimal at the start of the array, and returns the length of the text.
#[cold]
#[inline(never)]
pub fn print_decimal(format: &NumFormat, number: &Decimal, text: &mut [u8]) -> Result<i32, Status>
    ensures { PrintsText format.now (λ f. decimal_text f number.now) text.old text.new (returned result) }
{
    let (format, digits) = FormatRef::new(format)?;
    write_in(DecimalBuffer::of(number, &format).as_str(), digits, text)
}

/// Returns the length of the text of the decimal.
#[cold]
#[inline(never)]
pub fn decimal_len(format: &NumFormat, number: &Decimal) -> Result<i32, Status>
    ensures { ReturnsLength format.now (λ f. decimal_text f number.now) (returned result) }
{
    let (format, digits) = FormatRef::new(format)?;
    Ok(shown_len(DecimalBuffer::of(number, &format).as_bytes(), digits) as i32)
}

/// Writes the text in the digits at the start of the array, and returns its length.
#[inline(always)]
fn write_in(text: &str, digits: Digits, array: &mut [u8]) -> Result<i32, Status>
    requires { length text.now ≤ MAX_DECIMAL_LEN }
    ensures { Writes (in_digits digits text.now) array.old array.new (returned result) }
{
    if array.len() < 4 * text.len() {
        return write_copied(text, digits, array);
    }
    Ok(put_text(text.as_bytes(), digits, array) as i32)
}

/// Does the same for an array that may be too short.
#[inline(never)]
fn write_copied(text: &str, digits: Digits, array: &mut [u8]) -> Result<i32, Status>
    requires { length text.now ≤ MAX_DECIMAL_LEN }
    ensures { Writes (in_digits digits text.now) array.old array.new (returned result) }
{
    let mut shown = DigitText::new();
    shown.write_text(text, digits);
    write(shown.as_str(), array)
}
