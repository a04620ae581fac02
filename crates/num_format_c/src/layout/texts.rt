//! The texts of a column to parse.
ghost use Rattle.std.specs.Prelude.{◌≡◌};
ghost use Rattle.num_format_c.specs.Layout.{to_texts};

use super::validity::Validity;

/// The texts of a column, of which some may be null: each is in the bytes, between its offset and the next one.
#[derive(Clone, Copy)]
pub struct Texts<'a> {
    pub offsets: &'a [u8],
    pub bytes: &'a [u8],
    pub validity: Validity<'a>,
}

impl<'a> Texts<'a> {
    pub fn new(offsets: &'a [u8], bytes: &'a [u8], bits: &'a [u8], bit_offset: usize) -> Texts<'a>
        ensures { result ≡ to_texts offsets.entry bytes.entry bits.entry bit_offset }
    {
        let validity = Validity { bits, bit_offset };
        Texts {
            offsets,
            bytes,
            validity,
        }
    }
}
