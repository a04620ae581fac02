//! A writer that adds up the numbers of the lines that it receives.
ghost use Rattle.std.specs.Prelude.{◌≡◌, ℕ, List, [], Option, None, IfSome, OnErr, OnOk, Some};
ghost use Rattle.std.specs.Io.KnownBytes.{append_known};
ghost use Rattle.regroup_stream.specs.Sums.{KeepsSums};
ghost use Rattle.regroup_stream.specs.Words.{plain};

use crate::sums::{Unsummed, add_line};
use num_format::CustomFormat;
use num_format_decimal::{Decimal, DecimalParser};
use std::alloc::{AllocError, Global};
use std::io;
use std::io::Write;

/// What keeps the lines of numbers that are added, or drops them, as [`NoLog`].
pub trait Log {
    /// The bytes that it received, if it keeps them.
    ghost received: { Self → Option (List ℕ) };

    /// Receives bytes.
    ///
    /// # Errors
    ///
    /// Returns an error if there is no memory for them. Then it received none.
    fn receive(&mut self, bytes: &[u8]) -> Result<(), AllocError>
        ensures ok { OnOk result (received self.new ≡ append_known (received self.old) bytes.now) }
        ensures err { OnErr result (received self.new ≡ received self.old) };
}

/// A log that keeps nothing.
#[derive(Drop)]
pub struct NoLog;

impl Log for NoLog {
    ghost received = { λ _. None };

    fn receive(&mut self, _: &[u8]) -> Result<(), AllocError> {
        Ok(())
    }
}

impl Log for Vec<u8> {
    ghost received = { λ bytes. Some bytes.items };

    fn receive(&mut self, bytes: &[u8]) -> Result<(), AllocError> {
        self.extend_from_slice(bytes)
    }
}

/// A writer of which each write is a line: the numbers of its columns in the format `plain`, with tabs between them,
/// and a newline or NUL. It keeps the sum of each column. The log receives the lines.
///
/// Where a sum is past 128 bits, no more is added. Where a write is no such line, or there is no memory, each call
/// after it returns an error.
#[derive(Drop)]
pub(crate) struct Summing<'a, L: Log> {
    /// What reads the numbers.
    parser: DecimalParser<'a, CustomFormat>,
    /// The sum of each column, or `None` where no number is in it yet.
    pub(crate) sums: Vec<Option<Decimal>>,
    /// Why the sums are not those of all lines.
    pub(crate) failure: Option<Unsummed>,
    log: L,
    ghost exact: { ∥ KeepsSums parser failure sums.items (L.received log) ∥₁ },
}

impl<'a, L: Log> Summing<'a, L> {
    /// Returns a writer that received no line.
    pub(crate) fn new(
        alloc: Global,
        parser: DecimalParser<'a, CustomFormat>,
        log: L,
    ) -> Summing<'a, L>
        requires empty { IfSome (L.received log) (λ bytes. bytes ≡ []) }
        requires plain { plain ≡ Some parser }
        ensures log { result.log ≡ log }
    {
        Summing {
            parser,
            sums: Vec::new(alloc),
            failure: None,
            log,
        }
    }

    /// Returns the error of each call after a write that was no line, or without memory.
    fn check(&self) -> io::Result<()> {
        match self.failure {
            Some(Unsummed::Failed(kind)) => Err(io::Error::from(kind)),
            Some(Unsummed::TooLarge) | None => Ok(()),
        }
    }
}

impl<L: Log> Write for Summing<'_, L> {
    ghost contents = { λ summing. L.received summing.log };

    fn write(&mut self, line: &[u8]) -> io::Result<usize> {
        self.check()?;
        self.log.receive(line)?;
        match self.failure {
            None => self.failure = add_line(&self.parser, line, &mut self.sums),
            Some(_) => {}
        }
        Ok(line.len())
    }

    fn flush(&mut self) -> io::Result<()> {
        self.check()
    }
}
