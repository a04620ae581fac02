//! Bytes of a text: which are digits, with what they begin, and whether they are UTF-8.
ghost use Rattle.std.specs.Prelude.{◌≡◌, ◌↔◌, ◌<◌, IsTrue, IsUtf8, length, nat_eq};
ghost use Rattle.std.specs.Char.{is_ascii, is_ascii_digit};
ghost use Rattle.std.specs.List.{count_by, list_all, list_any, starts_with};
ghost use Rattle.num_format_parsing.specs.Shapes.{BeginsWithDigit};
ghost use Rattle.num_format_parsing.specs.Strict.{begins};

/// Returns whether a text begins with a separator that is not empty. Most bytes are not even its first, and
/// most separators are one byte.
#[inline]
pub fn begins_with(text: &[u8], separator: &[u8]) -> bool
    requires { 0 < length text.now }
    ensures { result ≡ begins separator.now text.now }
{
    if separator.is_empty() {
        return false;
    }
    let byte = text[0];
    let first = separator[0];
    if byte != first {
        return false;
    }
    separator.len() == 1 || text.starts_with(separator)
}

/// Returns whether the first byte is a digit other than zero.
#[inline]
pub(crate) fn begins_with_digit(text: &[u8]) -> bool
    ensures { IsTrue result ↔ BeginsWithDigit text.now }
{
    if text.is_empty() {
        return false;
    }
    let first = text[0];
    first.is_ascii_digit() && first != b'0'
}

/// Returns how many bytes are digits.
pub(crate) fn count_digits(bytes: &[u8]) -> usize
    ensures { result ≡ count_by is_ascii_digit bytes.now }
{
    bytes.iter().filter(|byte| byte.is_ascii_digit()).count()
}

/// Returns whether a digit stands among the bytes.
#[inline]
pub fn has_digit(text: &[u8]) -> bool
    ensures { result ≡ list_any is_ascii_digit text.now }
{
    text.iter().any(|byte| byte.is_ascii_digit())
}

/// Returns whether all bytes are ASCII.
#[inline(always)]
pub(crate) fn is_ascii(bytes: &[u8]) -> bool
    ensures { result ≡ list_all is_ascii bytes.now }
{
    bytes.iter().all(|byte| byte.is_ascii())
}

/// Returns whether a text begins with a prefix. Most are one byte, whose comparison takes less time than a
/// call.
#[inline]
pub fn is_prefix(text: &[u8], prefix: &[u8]) -> bool
    ensures { result ≡ starts_with nat_eq text.now prefix.now }
{
    if prefix.len() == 1 && !text.is_empty() {
        return text[0] == prefix[0];
    }
    text.starts_with(prefix)
}

/// Returns whether the bytes are UTF-8. Most are ASCII, which takes less time to see.
pub fn is_utf8(bytes: &[u8], is_text: bool) -> bool
    requires { IsTrue is_text → IsUtf8 bytes.now }
    ensures { IsTrue result ↔ IsUtf8 bytes.now }
{
    if is_text {
        return true;
    }
    if is_ascii(bytes) {
        return true;
    }
    match str::from_utf8(bytes) {
        Ok(_) => true,
        Err(_) => false,
    }
}
