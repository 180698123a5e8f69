//! The words of a line, with their places.

use arrayvec::ArrayVec;
use pr_lines::{next_word, value_after};

/// The most words of a line that are looked at: a line has 256 bytes at most.
pub const MOST_WORDS: usize = 130;

/// A word of a line, or a part of one.
#[derive(Clone, Copy, Default)]
pub struct Placed<'a> {
    pub text: &'a [u8],

    /// The place of its first byte on the line.
    pub first: usize,
}

impl<'a> Placed<'a> {
    /// The place behind its last byte.
    pub fn end(&self) -> usize {
        self.first.saturating_add(self.text.len())
    }

    /// What stands in front of this place in it.
    pub fn front(&self, end: usize) -> Self {
        Placed {
            text: self.text.get(..end).unwrap_or(b""),
            first: self.first,
        }
    }

    /// What stands in it from this place on.
    pub fn back(&self, from: usize) -> Self {
        Placed {
            text: self.text.get(from..).unwrap_or(b""),
            first: self.first.saturating_add(from),
        }
    }
}

/// The words of a line.
pub type Words<'a> = ArrayVec<Placed<'a>, MOST_WORDS>;

/// The words of the line, in front of a comment.
pub fn words_in(line: &[u8]) -> Words<'_> {
    let mut words = Words::new();
    let mut rest = line;
    for _ in 0..MOST_WORDS {
        let Some((text, others)) = next_word(rest) else {
            break;
        };
        let first = line.len().saturating_sub(rest.trim_ascii_start().len());
        let _ = words.try_push(Placed { text, first });
        rest = others;
    }
    words
}

/// The word at this place among the words, counted from 0; empty where there is none.
pub fn word_at<'a>(words: &[Placed<'a>], place: usize) -> &'a [u8] {
    match words.get(place) {
        Some(word) => word.text,
        None => b"",
    }
}

/// What follows the name of an option that has a key.
pub fn option_key(word: &[u8]) -> Option<&[u8]> {
    value_after("--param-rk=", word).or(value_after("--param-sark=", word))
}
