//! The text of a line before it is sent.
ghost use Rattle.std.specs.Prelude.{◌≡◌, ◌+◌, ◌++◌, [], ◌∷◌, List, None, Some, length};
ghost use Rattle.std.specs.List.{flat_map};
ghost use Rattle.std.specs.Result.{result_map_both};
ghost use Rattle.regroup_lines.specs.Adding.{Adds, SendsAdded};
ghost use Rattle.regroup_lines.specs.Csv.{doubled, part_text};
ghost use Rattle.regroup_lines.specs.LineFaults.{line_fault_of};

use crate::line_fault::LineFault;
use crate::rules::QUOTE;
use crate::sending::send_whole;
use std::alloc::Global;
use std::io::Write;
use std::marker::Model;

/// A part of a text.
#[derive(Clone, Copy)]
pub(crate) enum TextPart<'a> {
    /// These bytes.
    Plain(&'a [u8]),
    /// These bytes, with each quote doubled.
    Doubled(&'a [u8]),
}

/// The text of a line before it is sent, in memory that the text of the next line takes again.
///
/// Where there is no memory for it, it is `None`, and stays so: then it cannot be sent.
#[derive(Drop)]
pub(crate) struct LineText {
    bytes: Option<Vec<u8>>,
}

impl Model for LineText {
    ghost use Rattle.std.specs.Prelude.{List, Option, ℕ};
    ghost use Rattle.std.specs.Option.{option_map};

    ghost Value = { Option (List ℕ) };

    ghost view = { λ text. option_map (λ bytes. bytes.items) text.bytes };
}

impl LineText {
    /// Returns a text without a byte, or one that has no memory.
    pub(crate) fn new(alloc: Option<Global>) -> LineText {
        LineText {
            bytes: alloc.map(|alloc| Vec::new(alloc)),
        }
    }

    /// Puts these bytes in place of the text.
    #[inline]
    pub(crate) fn restart(&mut self, bytes: &[u8])
        ensures { Adds (Some []) self.new bytes.now }
    {
        if let Some(text) = &mut self.bytes {
            text.clear();
        }
        self.append(bytes);
    }

    /// Appends these bytes.
    #[inline]
    pub(crate) fn append(&mut self, bytes: &[u8])
        ensures { Adds self.old self.new bytes.now }
    {
        if bytes.is_empty() {
            return;
        }
        if let Some(text) = &mut self.bytes {
            if text.extend_from_slice(bytes).is_err() {
                self.bytes = None;
            }
        }
    }

    /// Appends a byte.
    #[inline]
    pub(crate) fn push(&mut self, byte: u8)
        ensures { Adds self.old self.new (byte ∷ []) }
    {
        if let Some(text) = &mut self.bytes {
            if text.push(byte).is_err() {
                self.bytes = None;
            }
        }
    }

    /// Appends the parts of a text in turn.
    #[inline(always)]
    pub(crate) fn append_all(&mut self, parts: &[TextPart<'_>])
        ensures { Adds self.old self.new (flat_map part_text parts.now) }
    {
        for part in parts {
            self.append_part(part);
        }
    }

    /// Appends a part of a text.
    #[inline(always)]
    fn append_part(&mut self, part: &TextPart<'_>)
        ensures { Adds self.old self.new (part_text part.now) }
    {
        match part {
            TextPart::Plain(text) => self.append(text),
            TextPart::Doubled(text) => self.append_doubled(text),
        }
    }

    /// Appends a text with each quote doubled.
    #[tactic(auto, using(crate::proofs::CsvLemmas::unquoted))]
    fn append_doubled(&mut self, text: &[u8])
        ensures { Adds self.old self.new (doubled text.now) }
    {
        if !text.contains(&QUOTE) {
            return self.append(text);
        }
        for byte in text {
            let twice = [*byte, *byte];
            let len = if *byte == QUOTE { 2 } else { 1 };
            self.append(&twice[..len]);
        }
    }

    /// Sends the text and the byte that ends its line, by one write if that writes all of it.
    #[inline]
    pub(crate) fn send<W: Write>(
        &mut self,
        line_end: u8,
        w: &mut W,
    ) -> Result<(), LineFault<'static>>
        ensures { SendsAdded line_end self.old (W.contents w.old) (W.contents w.new)
            (result_map_both (λ sent. sent) line_fault_of result) }
    {
        self.push(line_end);
        match &self.bytes {
            Some(text) => send_whole(text.as_slice(), w).or(Err(LineFault::Write)),
            None => Err(LineFault::Write),
        }
    }
}
