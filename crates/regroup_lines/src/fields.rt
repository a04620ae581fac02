//! The fields of a line, or of a record of RFC 4180: those that are chosen have a number each, which may be in quotes.
ghost use Rattle.std.specs.Prelude.{◌≡◌, ◌≤◌, ◌+◌, ◌-◌, ◌&&◌, ◌∷◌, [], ℕ, IfOk, IfSome, Ok, Some, drop, length, take};
ghost use Rattle.std.specs.Prelude.{if◌then◌else◌, true};
ghost use Rattle.std.specs.List.{list_any};
ghost use Rattle.std.specs.Result.{result_map_both};
ghost use Rattle.regroup_faults.specs.Notation.{NotationData};
ghost use Rattle.regroup_lines.specs.Adding.{Adds, AddsIf, Separates};
ghost use Rattle.regroup_lines.specs.Csv.{around_as, is_barred, is_opened, is_quoted, needs_quotes, number_place};
ghost use Rattle.regroup_lines.specs.Csv.{output_as, output_delimiter, output_of, passed_as, placed, quoted_len};
ghost use Rattle.regroup_lines.specs.LineFaults.{line_fault_of};
ghost use Rattle.regroup_lines.specs.Lines.{after, all_written, chosen_replaced, field_written, fields_replaced};
ghost use Rattle.regroup_lines.specs.Lines.{line_ended};
ghost use Rattle.regroup_lines.specs.Places.{place_of, trimmed};

use crate::cursor::Cursor;
use crate::line_fault::LineFault;
use crate::line_text::LineText;
use crate::line_text::TextPart::{Doubled, Plain};
use crate::records::{CsvState, find_end, len_without};
use crate::rules::{FieldRange, Fields, Output, QUOTE, Quoting, trim, without_affixes};
use crate::setup::Setup;
use num_format::Format;
use num_format_decimal::{Decimal, DecimalBuffer};
use num_format_digits::DigitText;
use std::ops::Range;

/// What the fields of a line are regrouped by.
#[derive(Drop)]
struct Line<'a, F: Format, G: Format> {
    setup: &'a Setup<'a, F, G>,
    fields: &'a Fields<'a>,
    /// The number of the line.
    number: u64,
}

/// The number in a field.
#[derive(Clone, Copy)]
struct FieldNumber {
    /// Whether it is in quotes.
    is_quoted: bool,
    /// Where it begins in the field.
    start: usize,
    /// Where it ends in the field.
    end: usize,
    /// The number.
    value: Decimal,
}

/// What is around a text in a field.
#[derive(Clone, Copy)]
struct Surroundings<'a> {
    /// Whether the field begins with a quote.
    is_quoted: bool,
    /// What is before the text, but for that quote.
    before: &'a [u8],
    /// What is after the text.
    after: &'a [u8],
}

/// Appends a line with the number in each chosen field regrouped.
#[inline(always)]
pub(crate) fn append_fields<'t, F: Format, G: Format>(
    setup: &Setup<F, G>,
    fields: &Fields,
    number: u64,
    line: &'t [u8],
    text: &mut LineText,
) -> Result<(), LineFault<'t>>
    ensures { AddsIf (fields_replaced fields.now setup.now.rules.now setup.now.parser setup.now.to.now number line.now)
        text.old text.new (result_map_both (λ added. added) line_fault_of result) }
{
    let walk = Line {
        setup,
        fields,
        number,
    };
    walk.append(line, text)
}

/// Appends the fields of a line in these ranges alone, those of each range in turn, with the number in each chosen
/// field regrouped.
#[inline(never)]
pub(crate) fn append_chosen<'t, F: Format, G: Format>(
    setup: &Setup<F, G>,
    fields: &Fields,
    list: &[FieldRange],
    number: u64,
    line: &'t [u8],
    text: &mut LineText,
) -> Result<(), LineFault<'t>>
    ensures { AddsIf (chosen_replaced fields.now list.now setup.now.rules.now setup.now.parser setup.now.to.now number
        line.now)
        text.old text.new (result_map_both (λ added. added) line_fault_of result) }
{
    let walk = Line {
        setup,
        fields,
        number,
    };
    let start = Cursor::new(line);
    let (mut cursor, mut is_begun) = (start, false);
    for range in list {
        if range.first <= cursor.count {
            cursor = start;
        }
        is_begun = walk.append_range(range, &mut cursor, is_begun, text)?;
    }
    walk.end(cursor.count_all(fields), &[], text)
}

impl<F: Format, G: Format> Line<'_, F, G> {
    ghost use Rattle.regroup_lines.specs.Cursor.{Passes, is_begun_by, joined_after, left_in};
    ghost use Rattle.regroup_lines.specs.Fields.{IsFoundIn, field_as};

    /// Appends the line with the number in each chosen field regrouped.
    ///
    /// Bytes that are passed on are appended with those after them, once the next number is read.
    fn append<'t>(&self, line: &'t [u8], text: &mut LineText) -> Result<(), LineFault<'t>>
        ensures { AddsIf (fields_replaced self.now.fields.now self.now.setup.now.rules.now self.now.setup.now.parser
            self.now.setup.now.to.now self.now.number line.now)
            text.old text.new (result_map_both (λ added. added) line_fault_of result) }
    {
        let fields = self.fields;
        let (quotes, delimiter) = (fields.quotes(), fields.delimiter);
        let (mut kept, mut count, mut rest) = (0, 0, line);
        let mut changed = fields.next(1);
        'fields: loop {
            let Some(next) = changed else {
                text.append(&line[kept..]);
                return Ok(());
            };
            let (len, _) = find_end(quotes, delimiter, CsvState::Start, rest);
            let start = line.len() - rest.len();
            let field = &line[start..start + len];
            count = fields.number_after(count, field);
            if count >= next {
                text.append(&line[kept..start]);
                self.append_field(count, field, text)?;
                kept = start + len;
                changed = fields.next(count + 1);
            }
            if len == rest.len() {
                return self.end(count, &line[kept..], text);
            }
            rest = &rest[len + 1..];
            kept = self.separate(kept, line.len() - rest.len(), text);
        }
    }

    /// Appends what is between a field and the next one, if fields are written anew. Returns where the bytes begin that
    /// are passed on before the next one, by where it begins.
    #[inline(always)]
    fn separate(&self, kept: usize, next: usize, text: &mut LineText) -> usize
        ensures separated { Separates self.now.fields.now.output kept next text.old text.new result }
        ensures within { kept ≤ next → result ≤ next }
    {
        match &self.fields.output {
            Some(output) => {
                text.push(output.delimiter);
                next
            }
            None => kept,
        }
    }

    /// Appends the rest of a line of so many fields. Returns a fault if the fields are too few.
    #[inline(always)]
    fn end(&self, count: u64, rest: &[u8], text: &mut LineText) -> Result<(), LineFault<'static>>
        ensures { AddsIf (line_ended self.now.fields.now self.now.number count rest.now) text.old text.new
            (result_map_both (λ added. added) line_fault_of result) }
    {
        if !self.fields.are_enough(count) {
            return Err(LineFault::FewFields(self.number, self.fields.counted(count)));
        }
        text.append(rest);
        Ok(())
    }

    /// Appends the fields that are left and in a range, after a delimiter each, but the first if no field is before it.
    /// Returns whether there are fields now.
    #[inline(always)]
    fn append_range<'t>(
        &self,
        range: &FieldRange,
        cursor: &mut Cursor<'t>,
        was_begun: bool,
        text: &mut LineText,
    ) -> Result<bool, LineFault<'t>>
        ensures added { AddsIf (result_map_both (joined_after was_begun (output_delimiter self.now.fields.now))
            (λ fault. fault)
            (all_written self.now.setup.now.rules.now self.now.fields.now self.now.setup.now.parser
            self.now.setup.now.to.now self.now.number (left_in range.now self.now.fields.now cursor.old)))
            text.old text.new (result_map_both (λ is_begun. is_begun) line_fault_of result) }
        ensures begun { IfOk result (λ is_begun. is_begun
            ≡ is_begun_by was_begun (left_in range.now self.now.fields.now cursor.old)) }
        ensures passed { IfOk result (λ is_begun. Passes self.now.fields.now cursor.old cursor.new) }
    {
        let mut is_begun = was_begun;
        'fields: while range.reaches(cursor.count + 1) {
            let Some(field) = cursor.next(self.fields) else {
                break;
            };
            let is_asked = range.contains(cursor.count) && self.fields.count(field);
            self.append_if(is_asked, is_begun, cursor.count, field, text)?;
            is_begun |= is_asked;
        }
        Ok(is_begun)
    }

    /// Appends the field of this number if that is asked for, after a delimiter if there are fields before it.
    fn append_if<'t>(
        &self,
        is_asked: bool,
        is_begun: bool,
        count: u64,
        field: &'t [u8],
        text: &mut LineText,
    ) -> Result<(), LineFault<'t>>
        ensures { AddsIf (if is_asked then after (if is_begun then output_delimiter self.now.fields.now ∷ [] else [])
            (field_written self.now.setup.now.rules.now self.now.fields.now self.now.setup.now.parser
            self.now.setup.now.to.now self.now.number count field.now)
            else Ok [])
            text.old text.new (result_map_both (λ added. added) line_fault_of result) }
    {
        if !is_asked {
            return Ok(());
        }
        self.append_delimiter(is_begun, text);
        self.append_field(count, field, text)
    }

    /// Appends a delimiter if that is asked for.
    fn append_delimiter(&self, is_asked: bool, text: &mut LineText)
        ensures { Adds text.old text.new (if is_asked then output_delimiter self.now.fields.now ∷ [] else []) }
    {
        if is_asked {
            text.push(self.fields.output_delimiter());
        } else {
            text.append(&[]);
        }
    }

    /// Appends the field of this number, with the number in it regrouped if it is chosen.
    #[inline(always)]
    fn append_field<'t>(
        &self,
        count: u64,
        field: &'t [u8],
        text: &mut LineText,
    ) -> Result<(), LineFault<'t>>
        ensures { AddsIf (field_written self.now.setup.now.rules.now self.now.fields.now self.now.setup.now.parser
            self.now.setup.now.to.now self.now.number count field.now)
            text.old text.new (result_map_both (λ added. added) line_fault_of result) }
    {
        match self.read(count, field)? {
            Some(found) => self.append_found(field, &found, text),
            None => self.append_passed(field, text),
        }
        Ok(())
    }

    /// Reads the number in the field of this number, and returns it with its place, if the field is chosen and may not
    /// be empty. Where fields may be in quotes, no number has a quote or a line end.
    #[inline(always)]
    fn read<'t>(&self, count: u64, field: &'t [u8]) -> Result<Option<FieldNumber>, LineFault<'t>>
        ensures number { (to : NotationData)
            → result_map_both (field_as self.now.fields.now self.now.setup.now.rules.now.line_end to field.now)
            line_fault_of result
            ≡ field_written self.now.setup.now.rules.now self.now.fields.now self.now.setup.now.parser to
            self.now.number count field.now }
        ensures place { IfOk result (λ found. IfSome found (IsFoundIn (length field.now))) }
    {
        if !self.fields.contain(count, field) {
            return Ok(None);
        }
        let (rules, quotes) = (self.setup.rules, self.fields.quotes);
        let (whole, is_quoted) = place_in(quotes, field);
        let place = without_affixes(rules.affixes, field, whole);
        let (start, end) = (place.start, place.end);
        if rules.passes_empty && start == end {
            return Ok(None);
        }
        let text = &field[start..end];
        if quotes && is_any_barred(rules.line_end, text) {
            return Err(LineFault::NotAField(self.number, count, text));
        }
        match self.setup.parser.read(rules.reading, text, self.number) {
            Ok(value) => Ok(Some(FieldNumber {
                is_quoted,
                start,
                end,
                value,
            })),
            Err(fault) => Err(fault.in_field(count)),
        }
    }

    /// Appends a field with the number that was found in it regrouped.
    #[inline(always)]
    fn append_found(&self, field: &[u8], found: &FieldNumber, text: &mut LineText)
        requires { IsFoundIn (length field.now) found.now }
        ensures { Adds text.old text.new (field_as self.now.fields.now self.now.setup.now.rules.now.line_end
            self.now.setup.now.to.now field.now (Some found.now)) }
    {
        let to = self.setup.to;
        if to.digits.is_latin() {
            let mut number = DecimalBuffer::new();
            number.write_formatted(&found.value, to.format);
            return self.append_text(field, found, number.as_str(), text);
        }
        self.append_in_digits(field, found, text)
    }

    /// Does the same in other digits than `0` to `9`. It is a call, so that numbers in these are written without its
    /// text.
    #[cold]
    #[inline(never)]
    fn append_in_digits(&self, field: &[u8], found: &FieldNumber, text: &mut LineText)
        requires { IsFoundIn (length field.now) found.now }
        ensures { Adds text.old text.new (field_as self.now.fields.now self.now.setup.now.rules.now.line_end
            self.now.setup.now.to.now field.now (Some found.now)) }
    {
        let to = self.setup.to;
        let number = DigitText::of_decimal(&found.value, to.format, to.digits);
        self.append_text(field, found, number.as_str(), text)
    }

    /// Appends a field with this text in place of the number that was found in it.
    #[inline(always)]
    fn append_text(&self, field: &[u8], found: &FieldNumber, number: &str, text: &mut LineText)
        requires { IsFoundIn (length field.now) found.now }
        ensures { Adds text.old text.new (placed self.now.fields.now self.now.setup.now.rules.now.line_end
            found.now.is_quoted field.now (found.now.start, found.now.end) number.now) }
    {
        let (is_quoted, number) = (found.is_quoted, number.as_bytes());
        match self.output_of(is_quoted, number) {
            Some(output) => {
                let around = Surroundings {
                    is_quoted,
                    before: &field[is_quoted as usize..found.start],
                    after: &field[found.end..],
                };
                append_output(output, self.setup.rules.line_end, around, number, text)
            }
            None => {
                let number = if is_quoted {
                    Doubled(number)
                } else {
                    Plain(number)
                };
                text.append_all(&[
                    Plain(&field[..found.start]),
                    number,
                    Plain(&field[found.end..]),
                ])
            }
        }
    }

    /// Appends a field without a number as it is, or, where all fields are written anew, as the output has it.
    #[inline(always)]
    fn append_passed(&self, field: &[u8], text: &mut LineText)
        ensures { Adds text.old text.new (passed_as self.now.fields.now.output self.now.fields.now.quotes
            self.now.setup.now.rules.now.line_end field.now) }
    {
        let Some(output) = self.fields.output else {
            return text.append(field);
        };
        let line_end = self.setup.rules.line_end;
        if output.is_bare() {
            return text.append(&[]);
        }
        if !needs_quotes(output.delimiter, line_end, field) {
            return text.append(field);
        }
        let is_quoted = self.fields.quotes && is_opened(field);
        let around = Surroundings {
            is_quoted,
            before: &[],
            after: &field[is_quoted as usize..],
        };
        append_output(output, line_end, around, &[], text)
    }

    /// Returns how a field with this text of a number is written, if it is written anew: as the output says, or with
    /// the quotes that the text needs and the field has not.
    fn output_of(&self, is_quoted: bool, text: &[u8]) -> Option<Output>
        ensures { result ≡ output_of self.now.fields.now self.now.setup.now.rules.now.line_end is_quoted text.now }
    {
        let (fields, line_end) = (self.fields, self.setup.rules.line_end);
        if fields.output.is_none()
            && fields.quotes
            && !is_quoted
            && needs_quotes(fields.delimiter, line_end, text)
        {
            return Some(Output {
                delimiter: fields.delimiter,
                quoting: Quoting::Necessary,
            });
        }
        fields.output
    }
}

/// Returns where the number is in a field with what may be before and after it, and whether quotes are around it.
pub(crate) fn place_in(quotes: bool, field: &[u8]) -> (Range<usize>, bool)
    ensures place { place_of result.0 ≡ number_place quotes field.now }
    ensures quoted { result.1 ≡ (quotes && is_quoted field.now (trimmed field.now (0, length field.now))) }
    ensures inside { result.1 ≡ true → 1 ≤ result.0.start }
    ensures ordered { result.0.start ≤ result.0.end }
    ensures within { result.0.end ≤ length field.now }
{
    let outer = trim(field, 0..field.len());
    let (start, end) = (outer.start, outer.end);
    if quotes && start == 0 && end >= 2 && field[0] == QUOTE && field[end - 1] == QUOTE {
        (trim(field, 1..end - 1), true)
    } else {
        (outer, false)
    }
}

/// Returns whether a byte of a text is a quote, or ends a line.
fn is_any_barred(line_end: u8, text: &[u8]) -> bool
    ensures { result ≡ list_any (is_barred line_end) text.now }
{
    text.iter().any(|byte| *byte == QUOTE || *byte == line_end)
}

/// Returns whether a field begins with a quote.
fn is_opened(field: &[u8]) -> bool
    ensures value { result ≡ is_opened field.now }
    ensures some { result ≡ true → 1 ≤ length field.now }
{
    matches!(field, [QUOTE, ..])
}

/// Appends a field with this text as an output has it.
fn append_output(
    output: Output,
    line_end: u8,
    around: Surroundings<'_>,
    number: &[u8],
    text: &mut LineText,
)
    ensures { Adds text.old text.new
        (output_as output line_end around.entry.is_quoted around.entry.before.now around.entry.after.now number.now) }
{
    if output.is_bare() {
        text.append(number)
    } else {
        append_around(output, line_end, around, number, text)
    }
}

/// Appends a field with this text, what is around it, and the quotes that an output has.
fn append_around(
    output: Output,
    line_end: u8,
    around: Surroundings<'_>,
    number: &[u8],
    text: &mut LineText,
)
    ensures { Adds text.old text.new
        (around_as output line_end around.entry.is_quoted around.entry.before.now around.entry.after.now number.now) }
{
    // A last carriage return may end the line.
    let (after, end) = around.after.split_at(len_without(b'\r', around.after));
    let (quoted, bare) = if around.is_quoted {
        split_quoted(after)
    } else {
        (&after[..0], after)
    };
    let is_kept = around.is_quoted && matches!(output.quoting, Quoting::Keep);
    let texts = [around.before, number, quoted, bare];
    let is_enclosed = is_kept || any_needs_quotes(output.delimiter, line_end, &texts);
    let quote: &[u8] = if is_enclosed { b"\"" } else { b"" };
    text.append_all(&[
        Plain(quote),
        Doubled(around.before),
        Doubled(number),
        Plain(quoted),
        Doubled(bare),
        Plain(quote),
        Plain(end),
    ])
}

/// Returns the bytes before the quote that closes a field, of those after the one that opens it, and the bytes after
/// it.
fn split_quoted(text: &[u8]) -> (&[u8], &[u8])
    ensures quoted { result.0.now ≡ take (quoted_len text.now) text.now }
    ensures bare { result.1.now ≡ drop (quoted_len text.now + 1) text.now }
{
    let mut at = 0;
    'bytes: while at < text.len() {
        if text[at] != QUOTE {
            at += 1;
        } else if is_opened(&text[at + 1..]) {
            at += 2;
        } else {
            return (&text[..at], &text[at + 1..]);
        }
    }
    (text, &[])
}

/// Returns whether a field of these texts has to be in quotes.
fn any_needs_quotes(delimiter: u8, line_end: u8, texts: &[&[u8]]) -> bool
    ensures { result ≡ list_any (λ text. list_any (needs_quotes delimiter line_end) text.now) texts.now }
{
    texts
        .iter()
        .any(|text| needs_quotes(delimiter, line_end, text))
}

/// Returns whether a field with this text has to be in quotes.
fn needs_quotes(delimiter: u8, line_end: u8, text: &[u8]) -> bool
    ensures { result ≡ list_any (needs_quotes delimiter line_end) text.now }
{
    text.iter().any(|byte| {
        matches!(*byte, QUOTE | b'\r' | b'\n') || *byte == delimiter || *byte == line_end
    })
}
