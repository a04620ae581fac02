//! The two ends of a text, and what stands there.
ghost use Rattle.std.specs.Prelude.{◌≡◌, ◌≤◌, ◌-◌, IfSome, length, true};
ghost use Rattle.num_format_affixes.specs.Sides.{IsWithout, IsWithoutBlanks, blank_len, byte_at, is_at, without};

/// The bytes of the character U+00A0.
const NO_BREAK_SPACE: [u8; 2] = [0xC2, 0xA0];

/// The bytes of the character U+202F.
const NARROW_NO_BREAK_SPACE: [u8; 3] = [0xE2, 0x80, 0xAF];

/// An end of a text.
#[derive(Clone, Copy)]
pub enum Side {
    Start,
    End,
}

impl Side {
    /// Returns whether bytes are at this end of a text.
    pub(crate) fn has(self, bytes: &[u8], text: &[u8]) -> bool
        ensures value { result ≡ is_at self bytes.now text.now }
        ensures within { result ≡ true → length bytes.now ≤ length text.now }
    {
        match self {
            Side::Start => text.starts_with(bytes),
            Side::End => text.ends_with(bytes),
        }
    }

    /// Returns a text without so many bytes at this end, or without all of its bytes if they are fewer.
    pub(crate) fn without(self, len: usize, text: &[u8]) -> &[u8]
        ensures value { result.now ≡ without self len text.now }
        ensures shorter { length result.now ≡ length text.now - len }
    {
        let len = len.min(text.len());
        match self {
            Side::Start => &text[len..],
            Side::End => &text[..text.len() - len],
        }
    }

    /// Returns a text without so many bytes at this end and the blanks beside them, or the text if there are none.
    pub(crate) fn strip(self, len: Option<usize>, text: &[u8]) -> &[u8]
        ensures value { IsWithout self len text.now result.now }
        ensures part { result.now ≡ without self (length text.now - length result.now) text.now }
        ensures within { length result.now ≤ length text.now }
    {
        match len {
            Some(len) => self.without_blanks(self.without(len, text)),
            None => text,
        }
    }

    /// Returns a text without the blanks at this end.
    fn without_blanks(self, text: &[u8]) -> &[u8]
        ensures value { IsWithoutBlanks self result.now text.now }
        ensures part { result.now ≡ without self (length text.now - length result.now) text.now }
        ensures within { length result.now ≤ length text.now }
    {
        let mut left = text;
        while let Some(len) = self.blank_len(left) {
            left = self.without(len, left);
        }
        left
    }

    /// Returns how many bytes the blank has that is at this end of a text, if one is.
    fn blank_len(self, text: &[u8]) -> Option<usize>
        ensures value { result ≡ blank_len self text.now }
        ensures within { IfSome result (λ len. (1 ≤ len) × (len ≤ length text.now)) }
    {
        if self
            .byte(text)
            .is_some_and(|byte| byte.is_ascii_whitespace())
        {
            Some(1)
        } else if self.has(&NO_BREAK_SPACE, text) {
            Some(NO_BREAK_SPACE.len())
        } else if self.has(&NARROW_NO_BREAK_SPACE, text) {
            Some(NARROW_NO_BREAK_SPACE.len())
        } else {
            None
        }
    }

    /// Returns the byte at this end of a text.
    fn byte(self, text: &[u8]) -> Option<u8>
        ensures value { result ≡ byte_at self text.now }
        ensures some { IfSome result (λ _. 1 ≤ length text.now) }
    {
        match self {
            Side::Start => text.first().copied(),
            Side::End => text.last().copied(),
        }
    }
}
