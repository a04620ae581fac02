//! Callers of `num_format` whose contracts cite its definitions.
ghost use Rattle.std.specs.Prelude.{◌≡◌, ◌++◌, IfErr, OnOk, OnErr, string_bytes};
ghost use Rattle.std.specs.Io.KnownBytes.{Appends};
ghost use Rattle.std.specs.IoError.{error_kind};
ghost use Rattle.std.specs.declared.io.ErrorKind.TheVariants.{OutOfMemory};
ghost use Rattle.num_format.specs.Text.{text_of};
ghost use Rattle.num_format.specs.Writing.{StopsWithin};

use num_format::{Format, ToFormattedString, WriteFormatted};
use std::io;
use std::io::Write;

/// Writes two numbers, one after the other. On an error the writer received a prefix of both texts
/// together, and not all of it.
#[tactic(auto, using(num_format_writers::proofs::WritingLemmas::StopsWithin_prefix, num_format_writers::proofs::WritingLemmas::StopsWithin_suffix))]
pub fn write_both<N: ToFormattedString, F: Format, W: Write>(
    w: &mut W,
    first: &N,
    second: &N,
    format: &F,
) -> io::Result<()>
    ensures whole { OnOk result (Appends (W.contents w.old) (W.contents w.new)
        (text_of (F.answers format.now) (N.value first.now)
        ++ text_of (F.answers format.now) (N.value second.now))) }
    ensures prefix { OnErr result (StopsWithin (W.contents w.old) (W.contents w.new)
        (text_of (F.answers format.now) (N.value first.now)
        ++ text_of (F.answers format.now) (N.value second.now))) }
{
    first.read_to_io_writer(w, format)?;
    second.read_to_io_writer(w, format)?;
    Ok(())
}

/// Writes a number to any writer, as generic code does.
fn write_to<W: WriteFormatted, N: ToFormattedString, F: Format>(
    writer: &mut W,
    n: &N,
    format: &F,
) -> io::Result<usize>
    ensures { W.write_formatted_gives writer.old
        (text_of (F.answers format.now) (N.value n.now)) result writer.new }
{
    writer.write_formatted(n, format)
}

/// Appends a number to a borrowed string by code that takes any writer. What the contract of `String`
/// says of an error holds through the reference.
pub fn append<N: ToFormattedString, F: Format>(
    mut line: &mut String,
    n: &N,
    format: &F,
) -> io::Result<usize>
    ensures unchanged { OnErr result (string_bytes line.new ≡ string_bytes line.old) }
    ensures kind { IfErr result (λ error. error_kind error ≡ OutOfMemory) }
{
    write_to(&mut line, n, format)
}

#[cfg(test)]
mod tests {
    use super::*;
    use crate::asserting::assert_equal;
    use num_format::Locale;
    use std::test::Fail;

    #[test]
    fn one_after_the_other(rt: HostRuntime) -> Result<(), Fail> {
        let mut bytes = Vec::new(rt.alloc());
        write_both(&mut bytes, &12_500, &-7, &Locale::en)?;
        assert_equal(&rt, bytes.as_slice(), b"12,500-7".as_slice());
        Ok(())
    }

    #[test]
    fn through_a_reference(rt: HostRuntime) -> Result<(), Fail> {
        let mut line = "x".to_string(rt.alloc())?;
        assert_equal(&rt, append(&mut line, &12_500, &Locale::en)?, 6);
        assert_equal(&rt, line.as_str(), "x12,500");
        Ok(())
    }
}
