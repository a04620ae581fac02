//! Texts in messages.
ghost use Rattle.std.specs.Prelude.{◌≡◌, ◌+◌, ◌/◌, ◌<◌, ◌≤◌, ◌++◌, IsTrue, length};
ghost use Rattle.arrayvec.specs.ArrayString.{array_string_len};
ghost use Rattle.regroup_faults.specs.Quoting.{has_quote, hex_digit, is_shown, quote_around, quoted, shown, shown_byte};

use arrayvec::ArrayString;

/// The most bytes of an input that are shown.
pub const MAX_SHOWN_LEN: usize = 64;

/// The most bytes of what is shown of an input: four for each of its bytes.
const MAX_SHOWN_TEXT_LEN: usize = 4 * MAX_SHOWN_LEN;

/// The most bytes of an input in quotes.
pub const MAX_QUOTED_LEN: usize = MAX_SHOWN_TEXT_LEN + 2;

/// Returns the first 64 bytes of an input, shown as by [`shown`], in quotes: in double ones if the input has a single
/// one.
///
/// ```rust
/// println!(rt; "{}", quoted(b"12.5O"))             // '12.5O'
/// println!(rt; "{}", quoted(b"\x1b[2J'\n"))        // "\x1B[2J'\x0A"
/// ```
pub fn quoted(text: &[u8]) -> ArrayString<MAX_QUOTED_LEN>
    ensures { result.bytes ≡ quoted text.now }
{
    let quote = quote_around(text);
    let mut message = ArrayString::new();
    message.push_str(quote);
    message.push_str(shown::<MAX_SHOWN_TEXT_LEN>(text).as_str());
    message.push_str(quote);
    message
}

/// Returns the quotes around a text: double ones if it has a single one.
fn quote_around(text: &[u8]) -> &'static str
    ensures quote { result.now ≡ quote_around text.now }
    ensures len { length result.now ≡ 1 }
{
    if has_quote(text) { "\"" } else { "'" }
}

/// Returns whether a text has a single quote.
fn has_quote(text: &[u8]) -> bool
    ensures { result ≡ has_quote text.now }
{
    text.iter().any(|byte| *byte == b'\'')
}

/// Returns the first bytes of a text, as many as fit if each takes four. Printable ASCII is shown as it is, but for the
/// backslash. Any other byte is `\x` and two digits, so that no terminal takes it for a command.
///
/// ```rust
/// shown::<1024>(b"sales.tsv")    // "sales.tsv"
/// ```
pub fn shown<const CAP: usize>(text: &[u8]) -> ArrayString<CAP>
    ensures { result.bytes ≡ shown (CAP / 4) text.now }
{
    let first = &text[..(CAP / 4).min(text.len())];
    let mut message = ArrayString::new();
    for byte in first {
        push_shown(&mut message, *byte);
    }
    message
}

/// Appends a byte as it is shown.
#[tactic(auto, using(std::proofs::lemmas::Str::encode_ascii))]
fn push_shown<const CAP: usize>(message: &mut ArrayString<CAP>, byte: u8)
    requires { array_string_len message.old + 4 ≤ CAP }
    ensures bytes { message.new.bytes ≡ message.old.bytes ++ shown_byte byte }
    ensures len { array_string_len message.new ≤ array_string_len message.old + 4 }
{
    if is_shown(byte) {
        message.push(byte as char);
        return;
    }
    message.push_str("\\x");
    message.push(hex_digit(byte / 16) as char);
    message.push(hex_digit(byte % 16) as char);
}

/// Returns whether a byte is shown as it is.
fn is_shown(byte: u8) -> bool
    ensures value { result ≡ is_shown byte }
    ensures ascii { IsTrue result → byte < 128 }
{
    (byte.is_ascii_graphic() || byte == b' ') && byte != b'\\'
}

/// Returns a digit of base 16.
pub(crate) fn hex_digit(n: u8) -> u8
    requires { n < 16 }
    ensures digit { result ≡ hex_digit n }
    ensures ascii { result < 128 }
{
    if n < 10 { n + b'0' } else { n - 10 + b'A' }
}
