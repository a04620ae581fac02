//! The text of a number by every way of printing.

use num_format::{Buffer, Format, ToFormattedString, WriteFormatted, text_len, text_width};
use std::alloc::Global;

/// What a string or a vector holds before a number is appended.
const BEFORE: &str = "17,";

/// Returns the text of the number, as a new [`Buffer`] has it, and the name of each
/// other way of printing that differs from it. None where out of memory.
pub fn printed<N: ToFormattedString, F: Format>(
    alloc: Global,
    number: &N,
    format: &F,
) -> Option<String> {
    let mut buffer = Buffer::new();
    buffer.write_formatted(number, format);
    let text = buffer.as_str();
    let printing = Printing {
        alloc,
        number,
        format,
        text,
    };
    let shown = format!(in alloc; "{buffer}").ok()?;
    let one_less = text.len().saturating_sub(1);
    let ways = [
        ("text_len", text_len(number, format) == text.len()),
        ("text_width", printing.has_width()),
        ("a used Buffer", printing.is_in_used_buffer()),
        ("read_to_buffer", printing.is_read_to_buffer()),
        ("read_to_fmt_writer", printing.is_read_to_fmt_writer()?),
        ("read_to_io_writer", printing.is_read_to_io_writer()?),
        ("Display", shown.as_str() == text),
        ("to_formatted_string", printing.is_string()?),
        ("String", printing.is_appended_to_string()?),
        ("Vec<u8>", printing.is_appended_to_vector()?),
        ("a slice of the length", printing.is_in_slice(text.len())?),
        ("a slice of one byte less", printing.is_in_slice(one_less)?),
    ];
    let mut returned = String::from_str(alloc, text).ok()?;
    for (way, is_same) in ways {
        if !is_same {
            returned.push_str(" but not by ").ok()?;
            returned.push_str(way).ok()?;
        }
    }
    Some(returned)
}

/// A number, a format, and the text of the number under it. Each method prints the number in one
/// way and returns whether that leads to the same text, and to its length where the way has a
/// count. None where out of memory.
#[derive(Drop)]
struct Printing<'a, N, F> {
    alloc: Global,
    number: &'a N,
    format: &'a F,
    text: &'a str,
}

impl<N: ToFormattedString, F: Format> Printing<'_, N, F> {
    /// One column for each character. Marks of direction, which a terminal gives none, are left out.
    fn has_width(&self) -> bool {
        let marks = ['\u{61c}', '\u{200e}', '\u{200f}'];
        self.text.contains(marks)
            || text_width(self.number, self.format) == self.text.chars().count()
    }

    /// In place of another text.
    fn is_in_used_buffer(&self) -> bool {
        let mut buffer = Buffer::new();
        buffer.write_formatted(&i128::MIN, self.format);
        let count = buffer.write_formatted(self.number, self.format);
        count == self.text.len() && buffer.as_str() == self.text
    }

    fn is_read_to_buffer(&self) -> bool {
        let mut buffer = Buffer::new();
        let count = self.number.read_to_buffer(&mut buffer, self.format);
        count == self.text.len() && buffer.as_str() == self.text
    }

    fn is_read_to_fmt_writer(&self) -> Option<bool> {
        let mut string = String::new(self.alloc);
        let count = self.number.read_to_fmt_writer(&mut string, self.format);
        Some(count.ok()? == self.text.len() && string.as_str() == self.text)
    }

    fn is_read_to_io_writer(&self) -> Option<bool> {
        let mut bytes = Vec::new(self.alloc);
        let count = self.number.read_to_io_writer(&mut bytes, self.format);
        Some(count.ok()? == self.text.len() && bytes.as_slice() == self.text.as_bytes())
    }

    fn is_string(&self) -> Option<bool> {
        let string = self
            .number
            .to_formatted_string(self.alloc, self.format)
            .ok()?;
        Some(string.as_str() == self.text)
    }

    fn is_appended_to_string(&self) -> Option<bool> {
        let mut string = String::from_str(self.alloc, BEFORE).ok()?;
        let count = string.write_formatted(self.number, self.format).ok()?;
        Some(count == self.text.len() && string.strip_prefix(BEFORE) == Some(self.text))
    }

    fn is_appended_to_vector(&self) -> Option<bool> {
        let mut bytes = BEFORE.as_bytes().to_vec(self.alloc).ok()?;
        let count = bytes.write_formatted(self.number, self.format).ok()?;
        let appended = bytes.strip_prefix(BEFORE.as_bytes());
        Some(count == self.text.len() && appended == Some(self.text.as_bytes()))
    }

    /// In a slice of `len` bytes, which is to hold that much of the text. Where it is shorter than
    /// the text, an error is to be returned.
    fn is_in_slice(&self, len: usize) -> Option<bool> {
        let mut bytes = vec![in self.alloc; 0; len].ok()?;
        let mut slice = bytes.as_mut_slice();
        let count = slice.write_formatted(self.number, self.format).ok();
        let expected = (len >= self.text.len()).then_some(self.text.len());
        Some(count == expected && Some(bytes.as_slice()) == self.text.as_bytes().get(..len))
    }
}
