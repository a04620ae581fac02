//! The files that are read, and those that are written.
ghost use Rattle.std.specs.Prelude.{⊤};

use regroup_stream::{FileFault, Misuse, Open, Unread};
use std::fs::{File, Metadata};
use std::io::{ErrorKind, Read, Sink, Stdin, Write};
use std::os::unix::fs::MetadataExt;
use std::{fs, io};

/// What is read.
#[derive(Drop)]
pub(crate) enum Input {
    Stdin(Stdin),
    File(File),
}

impl Read for Input {
    fn read(&mut self, buf: &mut [u8]) -> io::Result<usize> {
        match self {
            Input::Stdin(input) => input.read(buf),
            Input::File(input) => input.read(buf),
        }
    }
}

/// What rejected lines are written to.
#[derive(Drop)]
pub(crate) enum Rejects {
    /// Nothing, since there are none.
    Nowhere(Sink),
    File(File),
}

impl Write for Rejects {
    fn write(&mut self, buf: &[u8]) -> io::Result<usize> {
        match self {
            Rejects::Nowhere(output) => output.write(buf),
            Rejects::File(output) => output.write(buf),
        }
    }

    fn flush(&mut self) -> io::Result<()> {
        match self {
            Rejects::Nowhere(output) => output.flush(),
            Rejects::File(output) => output.flush(),
        }
    }
}

/// The files, and standard input, which is named `-`. None that is written is read.
#[derive(Drop)]
pub(crate) struct Files<'a> {
    rt: &'a HostRuntime,
    /// Standard output, standard error and the file of rejected lines.
    written: [Option<FileId>; 3],
    /// What is open in place of standard streams that are closed.
    stand_ins: [Option<File>; 3],
}

impl<'a> Files<'a> {
    /// Returns those that are neither standard output nor standard error.
    pub(crate) fn new(rt: &'a HostRuntime) -> Files<'a> {
        Files {
            rt,
            written: [
                FileId::named(rt, "/dev/stdout"),
                FileId::named(rt, "/dev/stderr"),
                None,
            ],
            stand_ins: [None, None, None],
        }
    }

    /// Creates the file of rejected lines, if it has a name. These words name the formats.
    ///
    /// # Errors
    ///
    /// Returns why it is not created: it cannot be, or is read, or is standard output or standard error.
    pub(crate) fn create<'n>(
        &mut self,
        name: Option<&'n str>,
        words: &[&str],
        inputs: &[&str],
    ) -> Result<Rejects, Misuse<'n>> {
        let Some(name) = name else {
            return Ok(Rejects::Nowhere(io::sink()));
        };
        if self.uses(name, words, inputs) {
            return Err(Misuse::BadFile(name, FileFault::InUse));
        }
        self.stand_ins = stand_ins(self.rt);
        match File::create(self.rt, name) {
            Ok(file) => {
                self.written[2] = FileId::named(self.rt, name);
                Ok(Rejects::File(file))
            }
            Err(error) => Err(Misuse::BadFile(name, FileFault::Uncreated(error.kind()))),
        }
    }

    /// Returns whether the file of this name is written already, or is read: as one of the inputs, or for the format of
    /// `@FILE`.
    fn uses(&self, name: &str, words: &[&str], inputs: &[&str]) -> bool {
        let Some(id) = FileId::named(self.rt, name) else {
            return false;
        };
        let is_format = |word: &&str| match word.strip_prefix("@") {
            Some(path) => self.is(path, id),
            None => false,
        };
        let is_input = |input: &&str| {
            let path = if *input == "-" { "/dev/stdin" } else { *input };
            self.is(path, id)
        };
        self.written.contains(&Some(id))
            || words.iter().any(is_format)
            || inputs.iter().any(is_input)
    }

    /// Returns whether a regular file is written.
    fn is_written(&self, id: Option<FileId>) -> bool {
        id.is_some() && self.written.contains(&id)
    }

    /// Returns whether the file at a path is this one.
    fn is(&self, path: &str, id: FileId) -> bool {
        FileId::named(self.rt, path) == Some(id)
    }
}

impl Open for Files<'_> {
    type Input = Input;

    ghost opens = { λ _ _ _. ⊤ };

    fn open(&self, name: &str) -> Result<Input, Unread> {
        if name == "-" {
            return if self.is_written(FileId::named(self.rt, "/dev/stdin")) {
                Err(Unread::IsOutput)
            } else {
                Ok(Input::Stdin(self.rt.stdin()))
            };
        }
        let file = File::open(self.rt, name)?;
        let metadata = file.metadata()?;
        if metadata.is_dir() {
            return Err(Unread::CannotOpen(ErrorKind::IsADirectory));
        }
        if self.is_written(FileId::of(&metadata)) {
            return Err(Unread::IsOutput);
        }
        Ok(Input::File(file))
    }
}

/// Opens `/dev/null` in place of each standard stream that is closed, so that the next file that is opened does not
/// become that stream: for writing where the program reads and for reading where it writes, so that it still fails
/// there. Returns what has to stay open.
fn stand_ins(rt: &HostRuntime) -> [Option<File>; 3] {
    let is_closed = |stream: &str| fs::metadata(rt, stream).is_err();
    let input = if is_closed("/dev/stdin") {
        File::create(rt, "/dev/null").ok()
    } else {
        None
    };
    let output = if is_closed("/dev/stdout") {
        File::open(rt, "/dev/null").ok()
    } else {
        None
    };
    let messages = if is_closed("/dev/stderr") {
        File::open(rt, "/dev/null").ok()
    } else {
        None
    };
    [input, output, messages]
}

/// A regular file, by its device and its number there.
#[derive(Clone, Copy, PartialEq, Eq)]
struct FileId {
    device: u64,
    number: u64,
}

impl FileId {
    /// Returns that of the file of this name, if it is a regular one.
    fn named(rt: &HostRuntime, name: &str) -> Option<FileId> {
        FileId::of(&fs::metadata(rt, name).ok()?)
    }

    /// Returns that of a regular file.
    fn of(metadata: &Metadata) -> Option<FileId> {
        metadata.is_file().then_some(FileId {
            device: metadata.dev(),
            number: metadata.ino(),
        })
    }
}
