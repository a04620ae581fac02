//! The input, piece by piece.
ghost use Rattle.std.specs.Prelude.{◌≡◌, ◌+◌, ◌≤◌, ◌<◌, [], length, slice_range, take, drop, IfErr, IfOk, OnErr};
ghost use Rattle.std.specs.Prelude.{IsNone};
ghost use Rattle.std.specs.Io.KnownBytes.{IsAtEnd, Keeps};
ghost use Rattle.regroup_lines.specs.LineFaults.{IsHalt, line_fault_of};
ghost use Rattle.regroup_lines.specs.Lines.{quotes_in};

use crate::line_fault::LineFault;
use crate::records::{CsvState, ends_with, find_end};
use crate::rules::Rules;
use std::io::{Read, Write};
use std::ops::Range;

/// The most bytes of one read. More at a time would not stay in the processor's caches.
const MAX_READ_LEN: usize = 65536;

/// A piece of the input, by its place in the array.
pub(crate) enum InputPiece {
    /// A line, or a record, without the byte that ends it.
    Line(Range<usize>),
    /// What stands after the last line, where the reader ended. The byte that ends lines was put after it.
    Rest(Range<usize>),
    /// The bytes that are held: as many as the array has, and none of them ends a line or its record.
    TooLong,
}

/// A line, or a record.
#[derive(Clone, Copy)]
pub(crate) struct Record<'a> {
    /// The number of the line in which it begins.
    pub(crate) number: u64,
    /// Its text.
    pub(crate) text: &'a [u8],
    /// Its text, and the byte that ends it.
    pub(crate) ended: &'a [u8],
}

impl<'a> Record<'a> {
    ghost use Rattle.regroup_lines.specs.Ended.{ended_once};
    ghost use Rattle.regroup_lines.specs.Input.{IsEnded};

    /// Returns the text and the byte that ends it, unless it ends with that byte, or is empty and what is before it
    /// does.
    pub(crate) fn ended_once(&self, line_end: u8, before: bool) -> &'a [u8]
        requires { IsEnded line_end self.now }
        ensures { result.now ≡ ended_once line_end before self.now.text.now }
    {
        if ends_with(line_end, before, self.text) {
            self.text
        } else {
            self.ended
        }
    }
}

/// The bytes that were read and belong to no piece yet: those that are held.
///
/// They are read into the array where the lines are found, which has one byte more than a line may have. They are moved
/// once at most, to the start, where more of their line has to be read.
#[derive(Drop)]
pub(crate) struct Input<'a> {
    array: &'a mut [u8],
    start: usize,
    end: usize,
    ghost ordered: { start ≤ end },
    ghost within: { end ≤ length array.now },
}

impl<'a> Input<'a> {
    ghost use Rattle.regroup_lines.specs.Input.{EndsOrGoesOn, FindsPiece, HasNoEnd, IsEndedAt, IsInArray, Reads};
    ghost use Rattle.regroup_lines.specs.Input.{array_len, bytes_at, held};
    ghost use Rattle.regroup_lines.specs.Lines.{quotes_in};

    /// Returns an input of which nothing was read.
    pub(crate) fn new(array: &'a mut [u8]) -> Input<'a>
        ensures none { held result ≡ [] }
        ensures len { array_len result ≡ length array.old }
    {
        Input {
            array,
            start: 0,
            end: 0,
        }
    }

    /// Returns the record at a place of the array, which is followed by the byte that ends it.
    #[inline]
    pub(crate) fn line(&self, place: Range<usize>, number: u64) -> Record<'_>
        requires ordered { place.start ≤ place.end }
        requires within { place.end < array_len self.now }
        ensures number { result.number ≡ number }
        ensures text { result.text.now ≡ bytes_at self.now place }
        ensures ended { result.ended.now ≡ slice_range self.now.array.now place.start (place.end + 1) }
    {
        let (start, end) = (place.start, place.end);
        Record {
            number,
            text: &self.array[start..end],
            ended: &self.array[start..end + 1],
        }
    }

    /// Returns the next piece, reading as much as it takes. Its first byte is `within` a record. The writer is flushed
    /// before each read, if the rules say so.
    ///
    /// # Errors
    ///
    /// Returns whether the first call that fails is a read or a flush. What was read is held.
    pub(crate) fn next_piece<R: Read, W: Write>(
        &mut self,
        rules: &Rules,
        within: CsvState,
        reader: &mut R,
        writer: &mut W,
    ) -> Result<InputPiece, LineFault<'static>>
        ensures piece { IfOk result (FindsPiece (quotes_in rules.now.span) rules.now.line_end within
            (held self.old) self.new
            (R.remaining reader.old) (R.remaining reader.new)) }
        ensures place { IfOk result (IsInArray rules.now.line_end self.new) }
        ensures len { array_len self.new ≡ array_len self.old }
        ensures failed { OnErr result (Reads (held self.old) (held self.new)
            (R.remaining reader.old) (R.remaining reader.new) × HasNoEnd
            (quotes_in rules.now.span) rules.now.line_end within (held self.new)
            × (length (held self.new) < array_len self.new)) }
        ensures halt { IfErr result (λ fault. IsHalt rules.now.flushes (line_fault_of fault)) }
        ensures flushed { Keeps (W.contents writer.old) (W.contents writer.new) }
    {
        let quotes = rules.quotes();
        let (mut here, mut searched) = (within, 0);
        'reads: loop {
            let rest = &self.held()[searched..];
            let (len, after) = find_end(quotes, rules.line_end, here, rest);
            if len < rest.len() {
                return Ok(InputPiece::Line(self.take_ended(searched + len)));
            }
            here = after;
            searched += len;
            if searched == self.array.len() {
                return Ok(InputPiece::TooLong);
            }
            let count = self.read_more(rules.flushes, reader, writer)?;
            if count == 0 {
                return Ok(InputPiece::Rest(self.take_rest(rules.line_end)));
            }
        }
    }

    /// Returns the array, and the bytes that are held.
    pub(crate) fn into_parts(self) -> (&'a [u8], &'a [u8])
        ensures array { result.0.now ≡ self.entry.array.now }
        ensures held { result.1.now ≡ held self.entry }
    {
        let (start, end) = (self.start, self.end);
        let array = self.array;
        (&array[..], &array[start..end])
    }

    /// Returns whether nothing is held and the reader ends. The writer is flushed before a read, if `flushes` says so.
    pub(crate) fn is_at_end<R: Read, W: Write>(
        &mut self,
        flushes: bool,
        reader: &mut R,
        writer: &mut W,
    ) -> Result<bool, LineFault<'static>>
        requires { 0 < array_len self.old }
        ensures end { IfOk result (EndsOrGoesOn (held self.old) (R.remaining reader.old) (R.remaining reader.new)) }
        ensures failed { OnErr result ((held self.old ≡ []) × Keeps (R.remaining reader.old) (R.remaining reader.new)) }
        ensures halt { IfErr result (λ fault. IsHalt flushes (line_fault_of fault)) }
        ensures flushed { Keeps (W.contents writer.old) (W.contents writer.new) }
    {
        if !self.held().is_empty() {
            return Ok(false);
        }
        let count = self.read_more(flushes, reader, writer)?;
        Ok(count == 0)
    }

    /// Returns the bytes that are held.
    pub(crate) fn held(&self) -> &[u8]
        ensures value { result.now ≡ held self.now }
        ensures fits { length result.now ≤ array_len self.now }
    {
        &self.array[self.start..self.end]
    }

    /// Takes the bytes that are held.
    pub(crate) fn clear(&mut self)
        ensures none { held self.new ≡ [] }
        ensures len { array_len self.new ≡ array_len self.old }
    {
        self.start = self.end;
    }

    /// Takes so many of the bytes that are held, and the one after them. Returns the place of the first ones.
    fn take_ended(&mut self, len: usize) -> Range<usize>
        requires { len < length (held self.old) }
        ensures ordered { result.start ≤ result.end }
        ensures within { result.end < array_len self.new }
        ensures len { array_len self.new ≡ array_len self.old }
        ensures taken { bytes_at self.new result ≡ take len (held self.old) }
        ensures ended { slice_range self.new.array.now result.start (result.end + 1) ≡ take (len + 1) (held self.old) }
        ensures left { held self.new ≡ drop (len + 1) (held self.old) }
    {
        let start = self.start;
        let end = start + len;
        self.start = end + 1;
        start..end
    }

    /// Takes all bytes that are held, and puts the byte that ends a line after them. Returns their place.
    #[cold]
    fn take_rest(&mut self, line_end: u8) -> Range<usize>
        requires { length (held self.old) < array_len self.old }
        ensures len { array_len self.new ≡ array_len self.old }
        ensures taken { bytes_at self.new result ≡ held self.old }
        ensures ended { IsEndedAt line_end self.new result }
    {
        self.move_to_front();
        let (start, end) = (self.start, self.end);
        self.array[end] = line_end;
        self.start = end;
        start..end
    }

    /// Reads more bytes by one read, and returns how many. The writer is flushed before it, if `flushes` says so.
    fn read_more<R: Read, W: Write>(
        &mut self,
        flushes: bool,
        reader: &mut R,
        writer: &mut W,
    ) -> Result<usize, LineFault<'static>>
        requires { length (held self.old) < array_len self.old }
        ensures read { Reads (held self.old) (held self.new)
            (R.remaining reader.old) (R.remaining reader.new) }
        ensures count { IfOk result (λ count. length (held self.new) ≡ length (held self.old) + count) }
        ensures end { IfOk result (λ count. count ≡ 0 → IsAtEnd (R.remaining reader.new)) }
        ensures failed { OnErr result ((held self.new ≡ held self.old)
            × Keeps (R.remaining reader.old) (R.remaining reader.new)) }
        ensures len { array_len self.new ≡ array_len self.old }
        ensures halt { IfErr result (λ fault. IsHalt flushes (line_fault_of fault)) }
        ensures flushed { Keeps (W.contents writer.old) (W.contents writer.new) }
    {
        if flushes && writer.flush().is_err() {
            return Err(LineFault::Flush);
        }
        self.move_to_front();
        let end = self.end;
        let room = self.array.len() - end;
        let Ok(count) = reader.read(&mut self.array[end..end + room.min(MAX_READ_LEN)]) else {
            return Err(LineFault::Read);
        };
        self.end = end + count;
        Ok(count)
    }

    /// Moves the bytes that are held to the start of the array.
    fn move_to_front(&mut self)
        ensures held { held self.new ≡ held self.old }
        ensures end { self.new.end ≡ length (held self.new) }
        ensures len { array_len self.new ≡ array_len self.old }
    {
        let (start, end) = (self.start, self.end);
        if start > 0 {
            self.array.copy_within(start..end, 0);
            self.start = 0;
            self.end = end - start;
        }
    }
}
