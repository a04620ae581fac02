//! The bytes that are appended to a text.
ghost use Rattle.std.specs.Prelude.{◌≡◌};
ghost use Rattle.std.specs.List.{flat_map};
ghost use Rattle.regroup_core.specs.Adding.{AddsBytes};
ghost use Rattle.regroup_core.specs.Places.{doubled, doubled_byte};
ghost use Rattle.regroup_core.specs.Parts.{part_text};

use crate::QUOTE;
use std::alloc::AllocError;

/// A part of a text.
#[derive(Clone, Copy)]
pub(crate) enum Part<'a> {
    /// These bytes.
    Plain(&'a [u8]),
    /// These bytes, with each quote doubled.
    Doubled(&'a [u8]),
}

/// Appends the parts of a text in turn.
#[inline(always)]
pub(crate) fn append_all(parts: &[Part<'_>], out: &mut Vec<u8>) -> Result<(), AllocError>
    ensures { AddsBytes (flat_map part_text parts.now) out.old.items out.new.items result }
{
    for part in parts {
        append_part(part, out)?;
    }
    Ok(())
}

/// Appends a part of a text.
#[inline(always)]
fn append_part(part: &Part<'_>, out: &mut Vec<u8>) -> Result<(), AllocError>
    ensures { AddsBytes (part_text part.now) out.old.items out.new.items result }
{
    match part {
        Part::Plain(text) => append_plain(text, out),
        Part::Doubled(text) => append_doubled(text, out),
    }
}

/// Appends bytes.
#[inline(always)]
fn append_plain(text: &[u8], out: &mut Vec<u8>) -> Result<(), AllocError>
    ensures { AddsBytes text.now out.old.items out.new.items result }
{
    out.extend_from_slice(text)
}

/// Appends a text with each quote doubled.
#[cold]
#[inline(never)]
fn append_doubled(text: &[u8], out: &mut Vec<u8>) -> Result<(), AllocError>
    ensures { AddsBytes (doubled text.now) out.old.items out.new.items result }
{
    for byte in text {
        append_byte(*byte, out)?;
    }
    Ok(())
}

/// Appends a byte, or two if it is a quote.
fn append_byte(byte: u8, out: &mut Vec<u8>) -> Result<(), AllocError>
    ensures { AddsBytes (doubled_byte byte) out.old.items out.new.items result }
{
    if byte == QUOTE {
        out.extend_from_slice(&[QUOTE, QUOTE])
    } else {
        out.extend_from_slice(&[byte])
    }
}
