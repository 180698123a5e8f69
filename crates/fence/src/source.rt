//! Where the texts of a command come from: files, and standard input.

use arrayvec::ArrayVec;
use pr_commands::{Fault, file_fault};
use pr_text::ReadError;
use std::fs::File;
use std::io::{IsTerminal, Read, Stdin};
use std::os::fd::{AsRawFd, RawFd};
use std::{fs, io};

/// As many bytes of a text are looked at: the first line of a witness.
const MOST_FRONT: usize = 16;

/// A text that can be read.
#[derive(Drop)]
pub enum Source {
    /// Standard input.
    Input(Stdin),

    /// A file that is open.
    File(File),
}

impl Source {
    /// Whether somebody types it at a terminal.
    pub fn is_typed(&self) -> bool {
        match self {
            Source::Input(input) => input.is_terminal(),
            Source::File(_) => false,
        }
    }
}

impl Read for Source {
    fn read(&mut self, buf: &mut [u8]) -> io::Result<usize> {
        match self {
            Source::Input(input) => input.read(buf),
            Source::File(file) => file.read(buf),
        }
    }
}

/// A text of which the first bytes were looked at. They are read again.
#[derive(Drop)]
pub struct Peeked<'a> {
    front: ArrayVec<u8, MOST_FRONT>,
    rest: &'a mut Source,
}

impl<'a> Peeked<'a> {
    /// The text, of which at most so many bytes are looked at. What can't be read is read again.
    pub fn new(source: &'a mut Source) -> Self {
        let mut front = ArrayVec::new();
        for _ in 0..MOST_FRONT {
            let mut byte = [0];
            match source.read(&mut byte) {
                Ok(1) => {
                    let _ = front.try_push(byte[0]);
                }
                Ok(_) | Err(_) => break,
            }
        }
        Peeked {
            front,
            rest: source,
        }
    }

    /// Whether these bytes are all that was looked at.
    pub fn is_front(&self, bytes: &[u8]) -> bool {
        self.front.as_slice() == bytes
    }

    /// Whether it begins with these bytes.
    pub fn begins_with(&self, bytes: &[u8]) -> bool {
        self.front.starts_with(bytes)
    }
}

impl Read for Peeked<'_> {
    fn read(&mut self, buf: &mut [u8]) -> io::Result<usize> {
        if self.front.is_empty() {
            return self.rest.read(buf);
        }
        let count = buf.len().min(self.front.len());
        buf[..count].copy_from_slice(&self.front[..count]);
        self.front.drain(..count);
        Ok(count)
    }
}

/// The text at this path, where `-` is standard input.
pub fn open(rt: &HostRuntime, path: &str) -> io::Result<Source> {
    if path == "-" {
        return Ok(Source::Input(rt.stdin()));
    }
    Ok(Source::File(fs::open(rt, path)?))
}

/// The text at this path beside another one, where `-` is standard input, or the name of a file if that is taken.
pub fn open_beside(rt: &HostRuntime, other: &Source, path: &str) -> io::Result<Source> {
    match other {
        Source::Input(_) => Ok(Source::File(fs::open(rt, path)?)),
        Source::File(_) => open(rt, path),
    }
}

/// The text that was opened, or the fault that it can't be.
pub fn opened(source: io::Result<Source>) -> Result<Source, Fault> {
    source.map_err(|error| file_fault(&error))
}

/// The same, with the path and the reason in words on standard output. What that does not take of them is dropped.
pub fn opened_or_told(
    rt: &HostRuntime,
    path: &str,
    source: io::Result<Source>,
) -> Result<Source, Fault> {
    if let Err(error) = &source {
        let _ = println!(rt; "{path} can't be opened: {error}.");
    }
    opened(source)
}

/// Whether a scenario and the text beside it are two. Where standard input is closed, a file that is opened gets its descriptor,
/// and what is then read as standard input would be the other text; so that is told as one that can't be read, with this fault
/// where it is the one beside the scenario.
pub fn apart(scenario: &Source, beside: &Source, unread: Fault) -> Result<(), Fault> {
    if descriptor(scenario) != descriptor(beside) {
        return Ok(());
    }
    match scenario {
        Source::Input(_) => Err(Fault::Input(ReadError::ReadFault)),
        Source::File(_) => Err(unread),
    }
}

fn descriptor(source: &Source) -> RawFd {
    match source {
        Source::Input(input) => input.as_raw_fd(),
        Source::File(file) => file.as_raw_fd(),
    }
}
