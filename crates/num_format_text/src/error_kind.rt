//! The kinds of errors, with the messages that they print.
ghost use Rattle.std.specs.Prelude.{◌≡◌, ◌+◌, ◌≤◌, ◌++◌, Some, codes, length};
ghost use Rattle.num_format_text.specs.Refusal.{Capacity, message_of, refusal_of};

use crate::capacities::MAX_ERR_LEN;
use arrayvec::ArrayString;
use std::fmt;

/// The most bytes that a message adds to the text that an error keeps.
const MAX_ADDED_LEN: usize = 37;

/// The most bytes of the message of an error.
pub const MAX_MESSAGE_LEN: usize = MAX_ADDED_LEN + MAX_ERR_LEN;

/// Why an input was refused.
///
/// A text that a kind keeps is truncated, as [`cut`](crate::error::cut) says. These kinds and their
/// messages are as in the Rust crate, which has further kinds:
///
/// ```rust
/// ErrorKind::Capacity { len: 9, cap: 8 }.message()
/// // "Attempted to write input of length 9 bytes into a buffer with capacity 8 bytes."
/// ErrorKind::ParseLocale(cut("xx-YY")).message()    // "Failed to parse xx-YY into a valid locale."
/// ErrorKind::ParseNumber(cut("1e3")).message()      // "Failed to parse 1e3 into a number."
/// ```
#[derive(Clone, Debug, Drop, PartialEq, Eq, Hash)]
pub enum ErrorKind {
    /// The text has `len` bytes, and at most `cap` bytes fit.
    Capacity {
        /// The length of the text in bytes.
        len: usize,
        /// The capacity in bytes.
        cap: usize,
    },
    /// None of the others. The message, kept here, says why.
    Other(ArrayString<MAX_ERR_LEN>),
    /// The text, kept here, is the name of no locale.
    ParseLocale(ArrayString<MAX_ERR_LEN>),
    /// The text, kept here, is no number of the type that was asked for.
    ParseNumber(ArrayString<MAX_ERR_LEN>),
}

impl ErrorKind {
    /// Returns the message, which needs no memory and cannot fail.
    ///
    /// The Rust crate has no such function: there the message is only displayed.
    ///
    /// ```rust
    /// ErrorKind::ParseNumber(cut("1e3")).message()    // "Failed to parse 1e3 into a number."
    /// ```
    pub fn message(&self) -> ArrayString<MAX_MESSAGE_LEN>
        ensures { result.bytes ≡ message_of (refusal_of self.now) }
    {
        match self {
            ErrorKind::Capacity { len, cap } => capacity_message(*len, *cap),
            ErrorKind::Other(message) => other_message(message.as_str()),
            ErrorKind::ParseLocale(name) => parse_message(name.as_str(), " into a valid locale."),
            ErrorKind::ParseNumber(text) => parse_message(text.as_str(), " into a number."),
        }
    }
}

/// Returns the message for a text of `len` bytes where at most `cap` fit.
fn capacity_message(len: usize, cap: usize) -> ArrayString<MAX_MESSAGE_LEN>
    ensures { result.bytes ≡ message_of (Capacity len cap) }
{
    let mut digits = itoa::Buffer::new();
    let mut message = ArrayString::new();
    message.push_str("Attempted to write input of length ");
    message.push_str(digits.format(len));
    message.push_str(" bytes into a buffer with capacity ");
    message.push_str(digits.format(cap));
    message.push_str(" bytes.");
    message
}

/// Returns a message that is kept as it is.
fn other_message(text: &str) -> ArrayString<MAX_MESSAGE_LEN>
    requires { length text.now ≤ MAX_ERR_LEN }
    ensures { result.bytes ≡ text.now }
{
    let mut message = ArrayString::new();
    message.push_str(text);
    message
}

/// Returns the message for a text that does not parse.
fn parse_message(text: &str, into: &str) -> ArrayString<MAX_MESSAGE_LEN>
    requires kept { length text.now ≤ MAX_ERR_LEN }
    requires fits { 16 + length into.now ≤ MAX_ADDED_LEN }
    ensures { result.bytes ≡ codes "Failed to parse " ++ (text.now ++ into.now) }
{
    let mut message = ArrayString::new();
    message.push_str("Failed to parse ");
    message.push_str(text);
    message.push_str(into);
    message
}

impl fmt::Display for ErrorKind {
    ghost output = { λ kind. Some (message_of (refusal_of kind)) };

    ghost styled_output = { λ kind _. Some (message_of (refusal_of kind)) };

    /// Writes the [message](ErrorKind::message) alone, by one write, whatever width or fill is asked
    /// for.
    fn fmt<W: fmt::Write>(&self, f: &mut fmt::Formatter<W>) -> fmt::Result {
        f.write_str(self.message().as_str())
    }
}
