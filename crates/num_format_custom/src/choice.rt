//! What a text field of a builder was given.
ghost use Rattle.std.specs.Prelude.{◌≡◌, ⊤, Ok};
ghost use Rattle.num_format_custom.specs.Building.{and_then, chosen};

use num_format_text::{BoundedString, Error, ErrorKind};
use std::alloc::AllocError;
use std::marker::Model;

/// What a text field of a builder was given last: a text of at most `CAP` bytes, or the length of a
/// longer one.
///
/// The error follows from that length. To keep the error itself would take some 260 bytes a field.
#[derive(Debug, Drop, PartialEq, Eq, Hash)]
pub(crate) struct Choice<const CAP: usize> {
    text: Result<BoundedString<CAP>, usize>,
}

impl<const CAP: usize> Model for Choice<CAP> {
    ghost use Rattle.num_format_custom.specs.Building.{Choice as TextOrLength};

    ghost Value = { TextOrLength };

    ghost view = { λ c. c.text };

    ghost inverse = { λ c. record { text = c } };
}

impl<const CAP: usize> Choice<CAP> {
    /// Returns what a field has that is given this text.
    pub(crate) fn new(text: &str) -> Choice<CAP>
        ensures { result ≡ chosen CAP text.now }
    {
        if text.len() <= CAP {
            Choice::from(BoundedString::of(text))
        } else {
            Choice {
                text: Err(text.len()),
            }
        }
    }

    /// Returns the text.
    ///
    /// # Errors
    ///
    /// A text of more than `CAP` bytes is refused with [`ErrorKind::Capacity`], which has both
    /// numbers of bytes.
    pub(crate) fn into_text(self) -> Result<BoundedString<CAP>, Error>
        ensures { result ≡ and_then CAP self.entry Ok }
    {
        match self.text {
            Ok(text) => Ok(text),
            Err(len) => Err(Error::from(ErrorKind::Capacity { len, cap: CAP })),
        }
    }
}

impl<const CAP: usize> From<BoundedString<CAP>> for Choice<CAP> {
    ghost from_gives = { λ text choice. choice ≡ Ok text };

    fn from(text: BoundedString<CAP>) -> Choice<CAP> {
        Choice { text: Ok(text) }
    }
}

// Not derived, since a derive does not say that the clone of a `Result` equals its source.
impl<const CAP: usize> Clone for Choice<CAP> {
    ghost is_clone = { λ c d. d ≡ c };

    ghost is_infallible = { λ _. ⊤ };

    fn clone(&self) -> Result<Choice<CAP>, AllocError> {
        match &self.text {
            Ok(text) => Ok(Choice::from(text.clone()?)),
            Err(len) => Ok(Choice { text: Err(*len) }),
        }
    }
}
