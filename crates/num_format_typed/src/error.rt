//! Why a text is refused as a typed number.
ghost use Rattle.num_format_typed.specs.Typed.{typed_message_of};

use std::fmt;

/// Why a text was refused as a typed number. `E` is the error of strict parsing.
#[derive(Clone, Copy, Debug, PartialEq, Eq)]
pub enum TypedError<E> {
    /// With the characters of the format in it, the text has more bytes than the text of any number.
    TooLong,
    /// The cause of strict parsing. A place counts the bytes of the text that was given.
    Number(E),
}

impl<E: fmt::Display> fmt::Display for TypedError<E> {
    ghost output = { λ error. typed_message_of E.output error };

    ghost styled_output = { λ error style. typed_message_of (λ e. E.styled_output e style) error };

    fn fmt<W: fmt::Write>(&self, f: &mut fmt::Formatter<W>) -> fmt::Result {
        match self {
            TypedError::TooLong => f.write_str("The text is too long."),
            TypedError::Number(error) => fmt::Display::fmt(error, f),
        }
    }
}

impl<E: fmt::Display + fmt::Debug + Drop> std::error::Error for TypedError<E> {}
