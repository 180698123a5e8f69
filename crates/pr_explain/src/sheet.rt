//! Words about a scenario, beside its text.

use crate::source::line_of;
use pr_output::{Token, WriteFault, put};
use pr_roles::{Nexus, Scenario};
use pr_words::saying::{line_number, put_filled};
use pr_words::{Wrapping, name_of};
use std::io::Write;

/// A writer of words about a scenario, with the lines of its text and its nexuses.
#[derive(Drop)]
pub(crate) struct Sheet<'a, W: Write> {
    pub writer: Wrapping<'a, W>,
    pub lines: &'a [&'a [u8]],
    pub nexuses: &'a [Nexus],
    /// Whether the disk may report an attention before it looks at the reservation.
    pub is_early: bool,
}

impl<'a, W: Write> Sheet<'a, W> {
    /// A sheet of which nothing is written.
    pub(crate) fn new(writer: &'a mut W, lines: &'a [&'a [u8]], scenario: &'a Scenario) -> Self {
        Sheet {
            writer: Wrapping::new(writer),
            lines,
            nexuses: &scenario.parts().nexuses,
            is_early: scenario.parts().early,
        }
    }

    /// The name of a nexus, by its number; empty where there is none.
    pub(crate) fn name_of(&self, host: u8) -> &'a [u8] {
        name_of(self.nexuses, host)
    }

    /// Writes this very text.
    pub(crate) fn put(&mut self, text: &[u8]) -> Result<(), WriteFault> {
        put(&mut self.writer, text)
    }

    /// Writes the text, with the next of these words in place of each `{}`.
    pub(crate) fn say(&mut self, text: &[u8], words: &[Token<'_>]) -> Result<(), WriteFault> {
        put_filled(&mut self.writer, text, words)
    }

    /// Writes the line with this index, behind its number.
    pub(crate) fn put_line(&mut self, index: usize) -> Result<(), WriteFault> {
        let Some(line) = self.lines.get(index) else {
            return Ok(());
        };
        self.say(b"  {} | {}\n", &[line_number(index), Token::Text(line)])
    }

    /// Writes the line that `line_of` answers, if there is one.
    pub(crate) fn put_line_of(
        &mut self,
        word: &[u8],
        host: &[u8],
        number: usize,
    ) -> Result<(), WriteFault> {
        match line_of(self.lines, word, host, number) {
            Some(index) => self.put_line(index),
            None => Ok(()),
        }
    }
}

/// A key.
pub(crate) fn key(value: u64) -> Token<'static> {
    Token::Key(value)
}

/// The number of the command at this place of a run.
pub(crate) fn command_number(place: usize) -> Token<'static> {
    Token::Number((place as u64).saturating_add(1))
}
