//! What a word or a file names.
ghost use Rattle.std.specs.Prelude.{◌≡◌};
ghost use Rattle.regroup_faults.specs.Notation.{latin};

use num_format::CustomFormat;
use num_format_digits::Digits;
use regroup_lines::Notation;
use std::marker::Model;

/// How numbers are written by a word or a file: the format and the digit set that it names. A contract sees it as a
/// [`Notation`].
#[derive(Drop)]
pub struct NamedFormat {
    /// The format.
    pub format: CustomFormat,
    /// The digit set.
    pub digits: Digits,
}

impl Model for NamedFormat {
    ghost use Rattle.regroup_faults.specs.Notation.{NotationData};

    ghost Value = { NotationData };

    ghost view = { λ named. record { format = named.format; digits = named.digits } };
}

impl NamedFormat {
    /// Returns the format with the digits `0` to `9`.
    pub fn latin(format: CustomFormat) -> NamedFormat
        ensures { result ≡ latin format }
    {
        NamedFormat {
            format,
            digits: Digits::latin(),
        }
    }

    /// Returns how numbers are written.
    pub(crate) fn notation(&self) -> Notation<'_, CustomFormat>
        ensures { result ≡ self.now }
    {
        Notation {
            format: &self.format,
            digits: self.digits,
        }
    }
}
