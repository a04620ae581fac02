//! A writer that does what a list of steps says.
ghost use Rattle.std.specs.Prelude.{◌≡◌, ◌+◌, ◌≤◌, ◌++◌, ◌↔◌, [], min, length, take, Some, IsOk, IfOk, unwrap_or};
ghost use Rattle.std.specs.Prelude.{vec_len, vec_capacity};
ghost use Rattle.std.specs.Result.{result_ok};
ghost use Rattle.std.specs.Io.{WritesAtMost};
ghost use Rattle.std.specs.Io.KnownBytes.{Keeps, WriteAppends};

use std::alloc::{AllocError, Global};
use std::{fmt, io};

/// What one call of `write` does.
#[derive(Clone, Copy)]
pub enum Step {
    /// Accepts so many bytes, or all where fewer are offered.
    Take(usize),
    /// Accepts no byte, and returns `Ok(0)`.
    Zero,
    /// Returns an error of kind [`Interrupted`](io::ErrorKind::Interrupted).
    Interrupt,
    /// Returns an error of kind [`BrokenPipe`](io::ErrorKind::BrokenPipe).
    Fail,
}

/// A writer whose first call does the first of its steps, and so on. A call past the last step
/// accepts all bytes.
///
/// Its space is reserved when it is made, so no call needs memory. To offer more bytes than there is
/// space for is an error, and uses a step.
///
/// As a writer of text it takes one step for a text. It is an error where it does not accept all of
/// the text, and then it keeps the prefix that it accepted.
#[derive(Drop)]
pub struct Scripted<'a> {
    /// The bytes that were accepted.
    pub received: Vec<u8>,
    /// How many bytes more it has space for.
    pub space: usize,
    pub steps: &'a [Step],
    /// How many calls of `write` and `write_str` were made.
    pub calls: usize,
    /// How many calls of `flush` were made.
    pub flushes: usize,
    ghost reserved: { vec_len received + space ≤ vec_capacity received },
}

impl<'a> Scripted<'a> {
    /// Returns a writer with space for so many bytes.
    ///
    /// # Errors
    ///
    /// Returns an error if there is no memory for them.
    pub fn new(alloc: Global, space: usize, steps: &'a [Step]) -> Result<Scripted<'a>, AllocError>
        ensures empty { IfOk result (λ w. w.received.items ≡ []) }
        ensures space { IfOk result (λ w. w.space ≡ space) }
        ensures steps { IfOk result (λ w. w.steps.now ≡ steps.now) }
        ensures calls { IfOk result (λ w. w.calls ≡ 0) }
        ensures flushes { IfOk result (λ w. w.flushes ≡ 0) }
    {
        Ok(Scripted {
            received: Vec::with_capacity(alloc, space)?,
            space,
            steps,
            calls: 0,
            flushes: 0,
        })
    }
}

impl io::Write for Scripted<'_> {
    ghost use Rattle.test_hostile.specs.Scripted.{accepted};

    ghost contents = { λ w. Some w.received.items };

    /// Does the next step.
    fn write(&mut self, bytes: &[u8]) -> io::Result<usize>
        ensures bound { WritesAtMost result bytes.now }
        ensures bytes { WriteAppends (Some self.old.received.items) (Some self.new.received.items)
            result bytes.now }
        ensures accepted { result_ok result ≡ accepted self.old (length bytes.now) }
        ensures space { self.new.space + vec_len self.new.received
            ≡ self.old.space + vec_len self.old.received }
        ensures steps { self.new.steps.now ≡ self.old.steps.now }
        ensures calls { self.new.calls ≡ min (self.old.calls + 1) usize.MAX }
        ensures flushes { self.new.flushes ≡ self.old.flushes }
    {
        let step = self.steps.get(self.calls).copied();
        self.calls = self.calls.saturating_add(1);
        if bytes.len() > self.space {
            return Err(io::Error::from(io::ErrorKind::StorageFull));
        }
        let count = match step {
            Some(Step::Take(most)) => bytes.len().min(most),
            Some(Step::Zero) => 0,
            Some(Step::Interrupt) => return Err(io::Error::from(io::ErrorKind::Interrupted)),
            Some(Step::Fail) => return Err(io::Error::from(io::ErrorKind::BrokenPipe)),
            None => bytes.len(),
        };
        self.received.extend_from_slice(&bytes[..count])?;
        self.space -= count;
        Ok(count)
    }

    fn flush(&mut self) -> io::Result<()>
        ensures bytes { Keeps (Some self.old.received.items) (Some self.new.received.items) }
        ensures ok { IsOk result }
        ensures flushes { self.new.flushes ≡ min (self.old.flushes + 1) usize.MAX }
        ensures calls { self.new.calls ≡ self.old.calls }
        ensures space { self.new.space ≡ self.old.space }
        ensures steps { self.new.steps.now ≡ self.old.steps.now }
    {
        self.flushes = self.flushes.saturating_add(1);
        Ok(())
    }
}

impl fmt::Write for Scripted<'_> {
    ghost use Rattle.test_hostile.specs.Scripted.{accepted};

    ghost write_str_gives = { λ w text v. v.received.items ≡ w.received.items ++ text };

    /// Does the next step. It is an error if that does not accept all of the text.
    fn write_str(&mut self, text: &str) -> fmt::Result
        ensures ok { IsOk result → self.new.received.items ≡ self.old.received.items ++ text.now }
        ensures accepted { IsOk result
            ↔ (accepted self.old (length text.now) ≡ Some (length text.now)) }
        ensures received { let count = unwrap_or (accepted self.old (length text.now)) 0 in
            self.new.received.items ≡ self.old.received.items ++ take count text.now }
        ensures calls { self.new.calls ≡ min (self.old.calls + 1) usize.MAX }
    {
        match io::Write::write(self, text.as_bytes()) {
            Ok(count) if count == text.len() => Ok(()),
            _ => Err(fmt::Error),
        }
    }
}
