//! What becomes of a record when the texts of its chosen fields are converted.
ghost use Rattle.std.specs.Prelude.{◌≡◌, ◌≤◌, ◌==◌, ◌∷◌, ◌++◌, ◌&&◌, [], is_some, length};
ghost use Rattle.std.specs.List.{list_any};
ghost use Rattle.regroup_core.specs.Adding.{Adds, AddsBytes, AppendsLine};
ghost use Rattle.regroup_core.specs.Fields.{fields_len, quotes_of};
ghost use Rattle.regroup_core.specs.Lines.{after, enough, field_converted, line_of};
ghost use Rattle.regroup_core.specs.Places.{doubled, needs_quotes, quoted};
ghost use Rattle.regroup_core.specs.Records.{is_quote};
ghost use Rattle.regroup_core.specs.declared.line.Cause.TheVariants.{Memory};

use crate::QUOTE;
use crate::codec::{Codec, Text};
use crate::dialect::Dialect;
use crate::place::Field;
use crate::plan::Plan;
use crate::record::part_len;
use crate::text::{Part, append_all};
use std::alloc::AllocError;

/// Why a record is not converted.
#[derive(Clone, Copy, Debug, Drop, PartialEq, Eq)]
pub enum Cause<E> {
    /// The text of the field of this number was refused.
    Refused(u64, E),
    /// The text of the field of this number has a quote.
    Quote(u64),
    /// It has so many fields, and this number of them is wanted.
    Few(u64, u64),
    /// There is no memory for what becomes of it.
    Memory,
}

impl<E> From<AllocError> for Cause<E> {
    ghost from_gives = { λ _ cause. cause ≡ Memory };

    fn from(_error: AllocError) -> Cause<E> {
        Cause::Memory
    }
}

/// Appends what becomes of a record, which is without the byte that ends it: the text of each chosen field is
/// converted, and all other bytes are copied.
///
/// A field that is converted is in quotes then exactly if its new text needs them, where fields may be in quotes. A
/// carriage return at the end of the record is no field's.
///
/// ```text
/// // With a codec from `en` to `de`, of fields 2 and 3:
/// convert(&plan, &codec, b"a,\"1,000\",2.5\r", &mut out)    // Ok(()), and a,1.000,"2,5"\r is appended
/// convert(&plan, &codec, b"a,1", &mut out)                  // Err(Few(2, 3))
/// ```
///
/// # Errors
///
/// Returns the cause of the first field that is not converted, or that fields are missing, or that there is no memory.
/// Nothing is appended then.
pub fn convert<C: Codec>(
    plan: &Plan,
    codec: &C,
    line: &[u8],
    out: &mut Vec<u8>,
) -> Result<(), Cause<C::Error>>
    ensures { AppendsLine (line_of plan.now (C.converted codec.now) line.now) out.old.items out.new.items result }
{
    let len = out.len();
    match append_record(plan, codec, line, out) {
        Ok(()) => Ok(()),
        Err(cause) => {
            out.truncate(len);
            Err(cause)
        }
    }
}

/// Appends what becomes of a record, or the first part of it.
///
/// Bytes that are copied are appended with those after them, once the next text is converted.
#[inline(always)]
fn append_record<C: Codec>(
    plan: &Plan,
    codec: &C,
    line: &[u8],
    out: &mut Vec<u8>,
) -> Result<(), Cause<C::Error>>
    ensures { Adds (line_of plan.now (C.converted codec.now) line.now) out.old.items out.new.items result }
{
    let separation = plan.dialect.separation;
    let fields = &line[..fields_len(line)];
    let (mut kept, mut start, mut count) = (0, 0, 0);
    'parts: while plan.chooses_from(count + 1) {
        let end = start + part_len(separation, &fields[start..]);
        let part = &fields[start..end];
        count = separation.number_after(count, part);
        if plan.converts(count, part) {
            append_field(plan, codec, count, &fields[kept..start], part, out)?;
            kept = end;
        }
        if end == fields.len() {
            return append_last(plan, count, &line[kept..], out);
        }
        start = end + 1;
    }
    out.extend_from_slice(&line[kept..])?;
    Ok(())
}

/// Appends the rest of a record of so many fields, if they are enough.
fn append_last<E>(plan: &Plan, count: u64, rest: &[u8], out: &mut Vec<u8>) -> Result<(), Cause<E>>
    ensures { Adds (enough plan.now count rest.now) out.old.items out.new.items result }
{
    let wanted = plan.wanted();
    if count < wanted {
        return Err(Cause::Few(count, wanted));
    }
    out.extend_from_slice(rest)?;
    Ok(())
}

/// Returns how many bytes of a record are those of its fields.
#[inline]
pub(crate) fn fields_len(line: &[u8]) -> usize
    ensures value { result ≡ fields_len line.now }
    ensures within { result ≤ length line.now }
{
    match line {
        [.., b'\r'] => line.len() - 1,
        _ => line.len(),
    }
}

/// Appends these bytes, and then what becomes of the chosen field of this number.
#[inline(always)]
fn append_field<'x, C: Codec>(
    plan: &Plan,
    codec: &C,
    number: u64,
    before: &'x [u8],
    field: &'x [u8],
    out: &mut Vec<u8>,
) -> Result<(), Cause<C::Error>>
    ensures { Adds (after before.now (field_converted plan.now (C.converted codec.now) number field.now))
        out.old.items out.new.items result }
{
    let place = Field::of(plan.dialect.separation, field);
    if copies(plan, place.text) {
        append_all(&[Part::Plain(before), Part::Plain(field)], out)?;
        return Ok(());
    }
    if is_barred(plan, place.text) {
        return Err(Cause::Quote(number));
    }
    match codec.convert(place.text) {
        Ok(text) => {
            append_replaced(plan.dialect, before, &place, text.as_bytes(), out)?;
            Ok(())
        }
        Err(error) => Err(Cause::Refused(number, error)),
    }
}

/// Returns whether a field with this text is copied and not converted.
#[inline(always)]
fn copies(plan: &Plan, text: &[u8]) -> bool
    ensures { result ≡ (plan.now.copies_empty && (length text.now == 0)) }
{
    plan.copies_empty && text.is_empty()
}

/// Returns whether a text has a quote where fields may be in quotes.
#[inline(always)]
fn is_barred(plan: &Plan, text: &[u8]) -> bool
    ensures { result ≡ (is_some (quotes_of plan.now.dialect.separation) && list_any is_quote text.now) }
{
    plan.dialect.separation.quotes().is_some() && text.contains(&QUOTE)
}

/// Appends these bytes, and then a field with this text in place of its own.
#[inline(always)]
fn append_replaced<'x>(
    dialect: Dialect,
    before: &'x [u8],
    field: &Field<'x>,
    text: &'x [u8],
    out: &mut Vec<u8>,
) -> Result<(), AllocError>
    ensures { AddsBytes (before.now ++ (quoted dialect (field.now.before.now ++ text.now ++ field.now.after.now)
        ++ field.now.tail.now))
        out.old.items out.new.items result }
{
    if needs_any_quotes(dialect, field, text) {
        return append_in_quotes(before, field, text, out);
    }
    append_all(
        &[
            Part::Plain(before),
            Part::Plain(field.before),
            Part::Plain(text),
            Part::Plain(field.after),
            Part::Plain(field.tail),
        ],
        out,
    )
}

/// Appends the same with quotes. It is a call, since few fields need them.
#[cold]
#[inline(never)]
fn append_in_quotes<'x>(
    before: &'x [u8],
    field: &Field<'x>,
    text: &'x [u8],
    out: &mut Vec<u8>,
) -> Result<(), AllocError>
    ensures { AddsBytes (before.now ++
        ((34 ∷ doubled (field.now.before.now ++ text.now ++ field.now.after.now) ++ 34 ∷ []) ++ field.now.tail.now))
        out.old.items out.new.items result }
{
    append_all(
        &[
            Part::Plain(before),
            Part::Plain(b"\""),
            Part::Doubled(field.before),
            Part::Doubled(text),
            Part::Doubled(field.after),
            Part::Plain(b"\""),
            Part::Plain(field.tail),
        ],
        out,
    )
}

/// Returns whether a field with this text in place of its own has to be in quotes, and may be.
#[inline]
fn needs_any_quotes(dialect: Dialect, field: &Field<'_>, text: &[u8]) -> bool
    ensures { result ≡ (is_some (quotes_of dialect.separation)
        && list_any (needs_quotes dialect) (field.now.before.now ++ text.now ++ field.now.after.now)) }
{
    dialect.separation.quotes().is_some()
        && (needs_quotes(dialect, field.before)
            || needs_quotes(dialect, text)
            || needs_quotes(dialect, field.after))
}

/// Returns whether a field with this text has to be in quotes.
#[inline]
fn needs_quotes(dialect: Dialect, text: &[u8]) -> bool
    ensures { result ≡ list_any (needs_quotes dialect) text.now }
{
    let delimiter = dialect.separation.delimiter();
    text.iter().any(|byte| {
        matches!(*byte, QUOTE | b'\r' | b'\n') || *byte == delimiter || *byte == dialect.line_end
    })
}
