//! How numbers are written.
ghost use Rattle.std.specs.Prelude.{◌≡◌};
ghost use Rattle.regroup_faults.specs.Notation.{latin};

use num_format::Format;
use num_format_digits::Digits;
use std::marker::Model;

/// How the numbers of an input or of an output are written: under a format, in the digits of a set. A contract sees the
/// data of the format, and the zero of the set.
///
/// ```rust
/// let notation = Notation { format: &Locale::fa, digits: Digits::of_locale(Locale::fa) };
/// notation.digits.zero()    // '۰'
/// ```
#[derive(Drop)]
pub struct Notation<'a, F: Format> {
    /// The format.
    pub format: &'a F,
    /// The digit set.
    pub digits: Digits,
}

impl<'a, F: Format> Notation<'a, F> {
    /// Returns the notation of the format with the digits `0` to `9`.
    pub fn latin(format: &'a F) -> Notation<'a, F>
        ensures { result ≡ latin (F.answers format.now) }
    {
        Notation {
            format,
            digits: Digits::latin(),
        }
    }
}

impl<'a, F: Format> Model for Notation<'a, F> {
    ghost use Rattle.regroup_faults.specs.Notation.{NotationData};

    ghost Value = { NotationData };

    ghost view = { λ n. record { format = F.answers n.format.now; digits = n.digits } };
}
