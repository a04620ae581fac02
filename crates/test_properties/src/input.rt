//! The rule by which bytes are inputs.
//!
//! Each record of [`RECORD_LEN`] bytes is one. The last one may be shorter, and is then filled with
//! zeros.
//!
//! | Bytes | Say |
//! |---|---|
//! | 0 | the integer type: the remainder by 18, in the order of [`check`](crate::check) |
//! | 1 | the grouping of the custom format: the remainder by 5, in the order of [`Grouping`] |
//! | 2 | whether the format is the locale, where the remainder by 4 is 0, or the custom format |
//! | 3 and 4 | the locale: the remainder by 542, the place of its name |
//! | 5 to 13 | a text, the separator of the custom format |
//! | 14 to 22 | a text, its minus sign |
//! | 23 to 38 | the number: the first of these bytes, as many as the type has. For a `NonZero`, 0 is 1 |
//! | 39 | how often the next text is repeated: 1 more than the remainder by 8 |
//! | 40 to 87 | a text. Repeated, it is the input's text |
//! | 88 | the scale of the decimal whose units are the number's 16 bytes: the remainder by 39 |
//! | 89 to 97 | a text, the decimal mark of the custom format |
//!
//! Numbers are in little-endian order. The first of a text's bytes says how many of the others count:
//! the remainder by the number of all. The text is their longest prefix that is UTF-8. Those of the
//! text from 40 on that count are the input's bytes, whether they are UTF-8 or not. The other texts of the custom
//! format are the longest prefixes of the input's text that fit.

use num_format::{CustomFormat, Grouping, Locale};
use num_format_decimal::{Decimal, MAX_SCALE};
use std::alloc::Global;
use std::io;

/// The length of a record in bytes.
pub const RECORD_LEN: usize = 98;

/// An input.
#[derive(Drop)]
pub struct Input {
    /// The place of the integer type, below 18.
    pub type_place: u8,
    /// The number's bytes, in little-endian order.
    pub number: [u8; 16],
    pub decimal: Decimal,
    /// Whether the number is printed and parsed under the locale, and else under the custom format.
    pub is_locale: bool,
    pub locale: Locale,
    /// The name at the locale's place.
    pub name: &'static str,
    pub grouping: Grouping,
    pub separator: String,
    pub minus_sign: String,
    pub decimal_mark: String,
    pub text: String,
    pub bytes: Vec<u8>,
}

impl Input {
    /// Returns the input that a record is. The locale is `en` where its name is not found, which the
    /// property `own name` shows.
    ///
    /// # Errors
    ///
    /// Returns an error if there is no memory for its texts.
    pub fn read(alloc: Global, record: &[u8]) -> io::Result<Input> {
        let bytes = filled(record);
        let mut number = [0; 16];
        number.copy_from_slice(&bytes[23..39]);
        let name = name_at(u16::from_le_bytes([bytes[3], bytes[4]]));
        let repetitions = 1 + usize::from(bytes[39] % 8);
        let units = i128::from_le_bytes(number);
        let scale = bytes[88] % (MAX_SCALE + 1);
        Ok(Input {
            type_place: bytes[0] % 18,
            number,
            decimal: Decimal::new(units, scale).unwrap_or(Decimal::from(units)),
            is_locale: bytes[2] % 4 == 0,
            grouping: Grouping::ALL[bytes[1] as usize % Grouping::ALL.len()],
            locale: Locale::from_name(name).unwrap_or(Locale::en),
            name,
            separator: String::from_str(alloc, text_in(&bytes[5..14]))?,
            minus_sign: String::from_str(alloc, text_in(&bytes[14..23]))?,
            decimal_mark: String::from_str(alloc, text_in(&bytes[89..]))?,
            text: text_in(&bytes[40..88]).repeat(alloc, repetitions)?,
            bytes: counted(&bytes[40..88]).to_vec(alloc)?,
        })
    }

    /// Returns the custom format. It is the default one where the builder returns an error, which it
    /// does not, since each text fits.
    pub fn custom_format(&self) -> CustomFormat {
        CustomFormat::builder()
            .decimal(&self.decimal_mark)
            .grouping(self.grouping)
            .infinity(prefix(&self.text, 128))
            .minus_sign(&self.minus_sign)
            .nan(prefix(&self.text, 64))
            .plus_sign(prefix(&self.text, 8))
            .separator(&self.separator)
            .build()
            .unwrap_or_default()
    }

    /// Returns whether the format has the data that the builder received.
    pub fn is_built(&self, format: &CustomFormat) -> bool {
        format.decimal() == self.decimal_mark.as_str()
            && format.grouping() == self.grouping
            && format.infinity() == prefix(&self.text, 128)
            && format.minus_sign() == self.minus_sign.as_str()
            && format.nan() == prefix(&self.text, 64)
            && format.plus_sign() == prefix(&self.text, 8)
            && format.separator() == self.separator.as_str()
    }
}

/// Returns the bytes of a record, and zeros after those of a short one.
fn filled(record: &[u8]) -> [u8; RECORD_LEN] {
    let mut bytes = [0; RECORD_LEN];
    for (byte, given) in bytes.iter_mut().zip(record) {
        *byte = *given;
    }
    bytes
}

/// Returns the longest prefix of whole characters that has at most `len` bytes.
fn prefix(text: &str, len: usize) -> &str {
    &text[..text.floor_char_boundary(len)]
}

/// Returns the name of a locale, at the place that is the remainder of the number.
fn name_at(number: u16) -> &'static str {
    let names = Locale::available_names();
    names[number as usize % names.len()]
}

/// Returns the text that the bytes are, by the rule for texts.
fn text_in(bytes: &[u8]) -> &str {
    let chunk = counted(bytes).utf8_chunks().next();
    chunk.map_or("", |chunk| chunk.valid())
}

/// Returns the bytes that count, by the rule for texts.
fn counted(bytes: &[u8]) -> &[u8] {
    let Some((len, bytes)) = bytes.split_first() else {
        return &[];
    };
    &bytes[..*len as usize % (bytes.len() + 1)]
}
