//! Texts that are read whole before anything is done with them.

use std::alloc::{AllocError, Global};
use std::io::Read;

const CHUNK: usize = 1_024;

/// Why a text is not there as a whole.
#[derive(Clone, Copy, Debug, PartialEq, Eq)]
pub enum Unread {
    /// The reader answered an error.
    Failed,

    /// It has more bytes than it may have.
    TooLong,

    /// Memory ran out.
    Memory,
}

impl From<AllocError> for Unread {
    fn from(_e: AllocError) -> Unread {
        Unread::Memory
    }
}

/// What the reader has left, if that is so many bytes at most.
pub fn read_whole<R: Read>(alloc: Global, reader: &mut R, most: usize) -> Result<Vec<u8>, Unread> {
    let mut text = Vec::new(alloc);
    let mut chunk = [0; CHUNK];
    // (each turn reads a byte at least)
    for _ in 0..=most {
        match reader.read(&mut chunk) {
            Ok(0) => return Ok(text),
            Ok(count) => text.extend_from_slice(&chunk[..count])?,
            Err(_) => return Err(Unread::Failed),
        }
        if text.len() > most {
            return Err(Unread::TooLong);
        }
    }
    Ok(text)
}
