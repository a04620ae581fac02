//! The values of a column to print.
ghost use Rattle.std.specs.Prelude.{◌≡◌, ◌*◌, ◌<◌, length, MatchOption, MatchResult};
ghost use Rattle.num_format_c.specs.Layout.{row_count, row_value, to_values};
ghost use Rattle.num_format_c.specs.declared.status.Status.TheVariants.{BadLength};

use super::validity::Validity;
use super::value::{Value, row_count, value_at};
use crate::status::Status;
use std::marker::PhantomData;

/// The values of a column as they are passed: their bytes, and which of them are null.
#[derive(Clone, Copy)]
pub struct Values<'a> {
    pub bytes: &'a [u8],
    pub validity: Validity<'a>,
}

impl<'a> Values<'a> {
    pub fn new(bytes: &'a [u8], bits: &'a [u8], bit_offset: usize) -> Values<'a>
        ensures { result ≡ to_values bytes.entry bits.entry bit_offset }
    {
        let validity = Validity { bits, bit_offset };
        Values { bytes, validity }
    }
}

/// The values of a column by rows.
#[derive(Drop)]
pub struct Rows<'a, N: Value> {
    pub values: Values<'a>,
    pub len: usize,
    of: PhantomData<N>,
    ghost whole: { length values.bytes.now ≡ len * N.repr.size },
}

impl<'a, N: Value> Rows<'a, N> {
    /// Returns the rows of the values. Error: `BadLength` if the last value is not whole, or there are fewer bits.
    pub fn new(values: &Values<'a>) -> Result<Rows<'a, N>, Status>
        ensures { MatchResult result
            (λ r. (r.values ≡ values.now) × (row_count N.repr values.now.bytes.now values.now.validity ≡ Some r.len))
            (λ status. (status ≡ BadLength) × (row_count N.repr values.now.bytes.now values.now.validity ≡ None)) }
    {
        let Some(len) = row_count::<N>(values.bytes, &values.validity) else {
            return Err(Status::BadLength);
        };
        Ok(Rows {
            values: *values,
            len,
            of: PhantomData,
        })
    }

    /// Returns the value of a row, or `None` if it is null.
    #[inline(always)]
    pub fn get(&self, row: usize) -> Option<N>
        requires { row < self.now.len }
        ensures { let value = row_value N.repr self.now.values.bytes.now self.now.values.validity row in
            MatchOption result (value ≡ None) (λ n. value ≡ Some (N.value n)) }
    {
        if self.values.validity.is_valid(row) {
            Some(value_at::<N>(self.values.bytes, row))
        } else {
            None
        }
    }
}
