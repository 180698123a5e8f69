//! The steps of a replay that stand in a text.

use crate::whole::{Unread, read_whole};
use pr_commands::Fault;
use std::alloc::Global;
use std::io::Read;

/// A list of steps has this many bytes at most: 4,096 steps of the longest names, with as much again for comments.
const MOST_BYTES: usize = 262_144;

/// What the reader has left, as text. A list that can't be read, or is too long, is no list of steps.
pub fn read_list<R: Read>(alloc: Global, reader: &mut R) -> Result<String, Fault> {
    match read_whole(alloc, reader, MOST_BYTES) {
        Ok(bytes) => String::from_utf8(bytes).map_err(|_| Fault::Usage),
        Err(Unread::Failed) => Err(Fault::File),
        Err(Unread::TooLong) => Err(Fault::Usage),
        Err(Unread::Memory) => Err(Fault::Memory),
    }
}

/// The steps that a text lists: its words, without comments. A word that begins with `#` begins one, up to the end of its line.
pub fn steps_in<'a>(alloc: Global, text: &'a str) -> Result<Vec<&'a str>, Fault> {
    let mut steps = Vec::new(alloc);
    for line in text.lines() {
        for word in line.split_whitespace() {
            if word.starts_with('#') {
                break;
            }
            steps.push(word)?;
        }
    }
    Ok(steps)
}
