//! Bytes that are tested for UTF-8.
//!
//! Most that people type are short, or have a character beside ASCII between a few digits, which std's scan by words
//! takes longer to step over than these bytes one by one.
ghost use Rattle.std.specs.Prelude.{◌≡◌, ◌+◌, ◌<◌, ◌≤◌, IsTrue, IsUtf8, MatchOption, drop, length, take};

/// Returns the text of the bytes, if they are UTF-8.
#[inline(always)]
pub fn text_of(bytes: &[u8]) -> Option<&str>
    ensures { MatchOption result (¬ (IsUtf8 bytes.now)) (λ text. text.now ≡ bytes.now) }
{
    let mut at = 0;
    while at < bytes.len() {
        if bytes[at] < 0x80 {
            at += 1;
        } else {
            let len = char_len(bytes, at);
            if len == 0 {
                return any_text_of(bytes);
            }
            at += len;
        }
    }
    Some(unsafe { str::from_utf8_unchecked(bytes) })
}

/// Does the same for bytes that have other characters than people type.
#[cold]
#[inline(never)]
fn any_text_of(bytes: &[u8]) -> Option<&str>
    ensures { MatchOption result (¬ (IsUtf8 bytes.now)) (λ text. text.now ≡ bytes.now) }
{
    match str::from_utf8(bytes) {
        Ok(text) => Some(text),
        Err(_) => None,
    }
}

/// Returns how many bytes the character at a place has, which is not ASCII. It may return 0 for any.
#[inline(always)]
fn char_len(bytes: &[u8], at: usize) -> usize
    requires { at < length bytes.now }
    ensures { 0 < result → (at + result ≤ length bytes.now) × IsUtf8 (take result (drop at bytes.now)) }
{
    let first = bytes[at];
    if first < 0xC2 || bytes.len() - at < 2 || !is_continuation(bytes[at + 1]) {
        return 0;
    }
    if first < 0xE0 {
        return 2;
    }
    // After these, not any two bytes may follow.
    if first == 0xE0 || first == 0xED || 0xF0 <= first || bytes.len() - at < 3 {
        return 0;
    }
    if is_continuation(bytes[at + 2]) { 3 } else { 0 }
}

/// Returns whether a byte is one that follows the first of a character.
#[inline(always)]
fn is_continuation(byte: u8) -> bool
    ensures { IsTrue result → (0x80 ≤ byte) × (byte < 0xC0) }
{
    0x80 <= byte && byte < 0xC0
}
