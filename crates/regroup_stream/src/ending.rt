//! How a run ends: the status, and the message on standard error.
ghost use Rattle.std.specs.Prelude.{◌≡◌, ◌≤◌, length};
ghost use Rattle.regroup_stream.specs.Ending.{Finishes, SendsMessage, end_after, end_of, failure_message, known_reason};
ghost use Rattle.regroup_stream.specs.Ending.{message_of_end, reason_of, status_of};

use arrayvec::ArrayString;
use num_format::to_formatted_string::write_whole;
use regroup_faults::{MAX_FAULT_MESSAGE_LEN, MAX_NAME_LEN, MAX_QUOTED_LEN, shown};
use std::io;
use std::io::Write;

/// The status where each line was regrouped, or passed on.
pub const REGROUPED: u8 = 0;

/// The status where a line is at fault.
pub const FAULTY: u8 = 1;

/// The status where the words do not name two formats.
pub const MISUSED: u8 = 2;

/// The status where a read or a write failed.
pub const FAILED: u8 = 3;

/// The status where standard output was closed, as a shell has it of a program that the signal `SIGPIPE` ended.
pub const CLOSED: u8 = 141;

/// The most bytes of a failure that a message names, with a key in quotes.
pub(crate) const MAX_CAUSE_LEN: usize = MAX_QUOTED_LEN + 24;

/// How a run ends. Of a read or a write that failed it has the kind of the error, if that is known.
#[derive(Drop)]
pub(crate) enum Ending {
    /// Each line was regrouped, or passed on.
    Regrouped,
    /// The same, and messages named lines at fault, so the input is.
    Named,
    /// A line is at fault, which this message names.
    Faulty(ArrayString<MAX_FAULT_MESSAGE_LEN>),
    /// A write of a message that names a fault failed.
    Untold,
    /// A read failed.
    ReadFailed(Option<io::ErrorKind>),
    /// A write to standard output failed, or a flush of it.
    WriteFailed(Option<io::ErrorKind>),
    /// A write of a rejected line failed, or a flush of these.
    RejectFailed(Option<io::ErrorKind>),
    /// There are more lines than are counted.
    TooManyLines,
    /// The input cannot be opened.
    Unopened(io::ErrorKind),
    /// The input is the output.
    IsOutput,
}

impl Ending {
    /// Returns how a run ends that ended so, and then flushed the output and rejected lines: as before, or by the first
    /// flush that failed for its reason.
    pub(crate) fn after(
        self,
        unflushed: Option<io::ErrorKind>,
        rejects_unflushed: Option<io::ErrorKind>,
    ) -> Ending
        ensures { end_of result ≡ end_after unflushed rejects_unflushed (end_of self) }
    {
        match (unflushed, rejects_unflushed) {
            (Some(kind), _) => Ending::WriteFailed(Some(kind)),
            (None, Some(kind)) => Ending::RejectFailed(Some(kind)),
            (None, None) => self,
        }
    }

    /// Sends the message, and returns the status: [`FAILED`] if not all of the message could be sent.
    pub(crate) fn finish<E: Write>(&self, name: &str, err: &mut E) -> u8
        ensures { Finishes name.now (end_of self.now) result (E.contents err.old) (E.contents err.new) }
    {
        send(self.message(name).as_str(), self.status(), err)
    }

    /// Returns the status.
    fn status(&self) -> u8
        ensures { result ≡ status_of (end_of self.now) }
    {
        match self {
            Ending::Regrouped => REGROUPED,
            Ending::Named | Ending::Faulty(_) | Ending::Unopened(_) | Ending::IsOutput => FAULTY,
            Ending::WriteFailed(Some(io::ErrorKind::BrokenPipe)) => CLOSED,
            Ending::WriteFailed(_)
            | Ending::RejectFailed(_)
            | Ending::ReadFailed(_)
            | Ending::TooManyLines
            | Ending::Untold => FAILED,
        }
    }

    /// Returns the message of an input of this name, with its newline.
    fn message(&self, name: &str) -> ArrayString<MAX_FAULT_MESSAGE_LEN>
        ensures { result.bytes ≡ message_of_end name.now (end_of self.now) }
    {
        match self {
            Ending::Regrouped
            | Ending::Named
            | Ending::Untold
            | Ending::WriteFailed(Some(io::ErrorKind::BrokenPipe)) => ArrayString::new(),
            Ending::Faulty(message) => *message,
            Ending::ReadFailed(kind) => failure_message(name, ": read error", *kind),
            Ending::WriteFailed(kind) => failure_message("", "write error", *kind),
            Ending::RejectFailed(kind) => failure_message(
                "",
                "write error of rejected lines",
                *kind,
            ),
            Ending::TooManyLines => failure_message(name, ": too many lines", None),
            Ending::Unopened(kind) => failure_message(name, ": cannot open", Some(*kind)),
            Ending::IsOutput => failure_message(name, ": input file is output file", None),
        }
    }
}

/// Sends a message, and returns the status, which is [`FAILED`] if not all of the message could be sent.
pub(crate) fn send<E: Write>(message: &str, status: u8, err: &mut E) -> u8
    ensures { SendsMessage message.now status result (E.contents err.old) (E.contents err.new) }
{
    match write_whole(message.as_bytes(), err) {
        Ok(_) => status,
        Err(_) => FAILED,
    }
}

/// Returns the message of a failure, with the name of the input before it, and its cause if that is known.
pub(crate) fn failure_message(
    name: &str,
    failure: &str,
    kind: Option<io::ErrorKind>,
) -> ArrayString<MAX_FAULT_MESSAGE_LEN>
    requires { length failure.now ≤ MAX_CAUSE_LEN }
    ensures { result.bytes ≡ failure_message name.now failure.now kind }
{
    let mut message = ArrayString::new();
    message.push_str("regroup-lines: ");
    message.push_str(shown::<MAX_NAME_LEN>(name.as_bytes()).as_str());
    message.push_str(failure);
    message.push_str(known_reason(kind));
    message.push('\n');
    message
}

/// Returns the reason of a failure, if it is known.
fn known_reason(kind: Option<io::ErrorKind>) -> &'static str
    ensures text { result.now ≡ known_reason kind }
    ensures short { length result.now ≤ 40 }
{
    match kind {
        Some(kind) => reason(kind),
        None => "",
    }
}

/// Returns what a message says of the kind of an error, after a colon. It says nothing of kinds that opening, reading
/// and writing do not have, and of those that have no cause.
fn reason(kind: io::ErrorKind) -> &'static str
    ensures text { result.now ≡ reason_of kind }
    ensures short { length result.now ≤ 40 }
{
    match kind {
        io::ErrorKind::BrokenPipe => ": Broken pipe",
        io::ErrorKind::ConnectionReset => ": Connection reset by peer",
        io::ErrorKind::FileTooLarge => ": File too large",
        io::ErrorKind::FilesystemLoop => ": Too many levels of symbolic links",
        io::ErrorKind::Interrupted => ": Interrupted system call",
        io::ErrorKind::InvalidFilename => ": File name too long",
        io::ErrorKind::InvalidInput => ": Invalid argument",
        io::ErrorKind::IsADirectory => ": Is a directory",
        io::ErrorKind::NotADirectory => ": Not a directory",
        io::ErrorKind::NotFound => ": No such file or directory",
        io::ErrorKind::OutOfMemory => ": Cannot allocate memory",
        io::ErrorKind::PermissionDenied => ": Permission denied",
        io::ErrorKind::QuotaExceeded => ": Disk quota exceeded",
        io::ErrorKind::ReadOnlyFilesystem => ": Read-only file system",
        io::ErrorKind::StorageFull => ": No space left on device",
        io::ErrorKind::TimedOut => ": Connection timed out",
        io::ErrorKind::WouldBlock => ": Resource temporarily unavailable",
        io::ErrorKind::WriteZero => ": No byte was written",
        _ => "",
    }
}
