//! A reader that does what a list of steps says.
ghost use Rattle.std.specs.Prelude.{◌≡◌, ◌+◌, min, length, drop, Some, IfOk};
ghost use Rattle.std.specs.Result.{result_ok};
ghost use Rattle.std.specs.Io.{ReadsAtMost};
ghost use Rattle.std.specs.Io.KnownBytes.{ReadConsumes};

use std::io;

/// What one call of `read` does.
#[derive(Clone, Copy)]
pub enum ReadStep {
    /// Gives so many bytes, and at least one, or all that are left or fit where these are fewer.
    Give(usize),
    /// Returns an error of kind [`Interrupted`](io::ErrorKind::Interrupted).
    Interrupt,
    /// Returns an error of kind [`BrokenPipe`](io::ErrorKind::BrokenPipe).
    Fail,
}

/// A reader whose first call does the first of its steps, and so on. A call past the last step gives
/// all bytes that are left and fit.
#[derive(Drop)]
pub struct ScriptedReader<'a> {
    /// The bytes that are left.
    pub rest: &'a [u8],
    pub steps: &'a [ReadStep],
    /// How many calls of `read` were made.
    pub calls: usize,
}

impl<'a> ScriptedReader<'a> {
    /// Returns a reader of these bytes.
    pub fn new(rest: &'a [u8], steps: &'a [ReadStep]) -> ScriptedReader<'a>
        ensures rest { result.rest.now ≡ rest.now }
        ensures steps { result.steps.now ≡ steps.now }
        ensures calls { result.calls ≡ 0 }
    {
        let calls = 0;
        ScriptedReader { rest, steps, calls }
    }
}

impl io::Read for ScriptedReader<'_> {
    ghost use Rattle.test_hostile.specs.ScriptedReader.{given};

    ghost remaining = { λ r. Some r.rest.now };

    /// Does the next step.
    fn read(&mut self, buf: &mut [u8]) -> io::Result<usize>
        ensures bound { ReadsAtMost result buf.new }
        ensures bytes { ReadConsumes (Some self.old.rest.now) (Some self.new.rest.now) result buf.new }
        ensures given { result_ok result ≡ given self.old (length buf.old) }
        ensures rest { IfOk result (λ count. self.new.rest.now ≡ drop count self.old.rest.now) }
        ensures steps { self.new.steps.now ≡ self.old.steps.now }
        ensures calls { self.new.calls ≡ min (self.old.calls + 1) usize.MAX }
    {
        let step = self.steps.get(self.calls).copied();
        self.calls = self.calls.saturating_add(1);
        let most = match step {
            Some(ReadStep::Give(most)) => most.max(1),
            Some(ReadStep::Interrupt) => return Err(io::Error::from(io::ErrorKind::Interrupted)),
            Some(ReadStep::Fail) => return Err(io::Error::from(io::ErrorKind::BrokenPipe)),
            None => buf.len(),
        };
        let count = most.min(buf.len()).min(self.rest.len());
        buf[..count].copy_from_slice(&self.rest[..count]);
        self.rest = &self.rest[count..];
        Ok(count)
    }
}
