//! Certificates: checks of a format, after which it can be trusted for all numbers.
ghost use Rattle.std.specs.Prelude.{◌≡◌, ◌↔◌, IsTrue};
ghost use Rattle.num_format_certificates.specs.Alike.{Alike};
ghost use Rattle.num_format_int.specs.Kind.{I128, kind_of};
ghost use Rattle.num_format_certificates.specs.RoundTrips.{ReadsBack, RoundTrips};
ghost use Rattle.num_format_int.specs.Text.{text_of};

use crate::laws::{format_data, round_trips};
use num_format_int::Buffer;
use num_format_parsing::parsing::ParseFormatted;
use num_format_text::{Error, Format};

/// Returns whether every number of every integer type, printed under the format, parses as the same
/// number again.
///
/// Two numbers decide it, and only these are printed and parsed:
///
/// - The `i128` value 1. An empty minus sign is the prefix of its text, which then parses as -1.
/// - `i128::MIN`. Its text has 39 digits and a minus sign, the most that are parsed as an `i128`. So
///   one more digit, in the minus sign or in a separator that is printed, is too many; and any other
///   numeric character in them is refused.
///
/// A format with none of these flaws has no other: the law
/// [`round_trips`](crate::laws::round_trips) says that every number then parses again. Neither number
/// decides it alone: under the minus sign `-0` only `i128::MIN` fails, of the two, and under the empty
/// minus sign only 1. The law [`both_needed`](crate::laws::both_needed) says so.
///
/// Check a format once, where it is read from settings, and then rely on it for all numbers:
///
/// ```rust
/// let format = CustomFormat::builder().separator("'").build()?;
/// reads_back(&format)    // true
/// let format = CustomFormat::builder().separator("0").build()?;
/// reads_back(&format)    // false: i128::MIN does not parse again
/// let format = CustomFormat::builder().minus_sign("").build()?;
/// reads_back(&format)    // false: 1 parses as -1
/// ```
///
/// The result is true for each [`Locale`](crate::Locale). The Rust crate has no such call.
pub fn reads_back<F: Format>(format: &F) -> bool
    ensures { IsTrue result ↔ RoundTrips (F.answers format.now) }
{
    // These say that the texts of a format are UTF-8, and that two numbers decide for those that are.
    format_data(format);
    round_trips();
    number_reads_back(1, format) && number_reads_back(i128::MIN, format)
}

/// Returns whether the number, printed under the format, parses as that number again.
fn number_reads_back<F: Format>(n: i128, format: &F) -> bool
    ensures { IsTrue result ↔ ReadsBack (kind_of I128) (F.answers format.now) n }
{
    let buffer = Buffer::of(&n, format);
    let parsed: Result<i128, Error> = buffer.as_str().parse_formatted(format);
    parsed.is_ok_and(|number| number == n)
}

/// Returns whether two formats print all numbers alike: whether each number from `i128::MIN` to
/// `u128::MAX` has the same text under both.
///
/// Their data may differ, as in the decimal mark, or in a separator that never shows. So a format can
/// be compared once, as when it is read from settings, and then take the place of another for all
/// numbers.
///
/// Four texts are compared: those of -1, 1000, 100000 and 1000000. That of -1 shows the minus sign,
/// and the others how many separators each grouping has among four, six and seven digits. That these
/// four decide is the law [`alike`](crate::laws::alike), and that none can be left out the law
/// [`four_needed`](crate::laws::four_needed).
///
/// The Rust crate has no such call.
///
/// ```rust
/// prints_alike(&Locale::ru, &Locale::xh)       // true, though their decimal marks are , and .
/// prints_alike(&Locale::en, &Locale::en_IN)    // false: 100,000 and 1,00,000
/// ```
#[tactic(auto, using(crate::proofs::AlikeLemmas::alike_law))]
pub fn prints_alike<F: Format, G: Format>(f: &F, g: &G) -> bool
    ensures { IsTrue result ↔ Alike (F.answers f.now) (G.answers g.now) }
{
    prints_same(1000, f, g)
        && prints_same(100_000, f, g)
        && prints_same(1_000_000, f, g)
        && prints_same(-1, f, g)
}

/// Returns whether a number has the same text under both formats.
fn prints_same<F: Format, G: Format>(n: i32, f: &F, g: &G) -> bool
    ensures { IsTrue result ↔ (text_of (F.answers f.now) n ≡ text_of (G.answers g.now) n) }
{
    Buffer::of(&n, f).as_str() == Buffer::of(&n, g).as_str()
}
