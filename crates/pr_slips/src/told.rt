//! A line that is told, and its words.

use crate::words::{Placed, Words, words_in};
use pr_lines::next_line;
use pr_output::{Token, WriteFault, put};
use pr_words::saying::put_filled;
use pr_words::{line_in, lines_from, put_carets, put_source_line};
use std::io::Write;

/// What is said of an arm that asks for data which the command of its send doesn't have.
pub const NOT_UNDER: &[u8] =
    b"The send of this arm is of another command: has stands below --read-keys, held and unheld below\n--read-reservation.\n";

/// A line of a text, its number, and its words.
#[derive(Drop)]
pub struct Told<'a> {
    pub text: &'a [u8],

    /// What stands above the line.
    pub above: &'a [u8],
    pub number: u32,
    pub line: &'a [u8],
    pub words: Words<'a>,

    /// The line of the send that is open above it; empty where none is.
    send: &'a [u8],
}

impl<'a> Told<'a> {
    /// The line of this number; an empty one where the text has none.
    pub fn of(text: &'a [u8], number: u32) -> Self {
        let rest = lines_from(text, number);
        let line = match next_line(rest) {
            Some((line, _)) => line,
            None => b"",
        };
        Told {
            text,
            above: text
                .get(..text.len().saturating_sub(rest.len()))
                .unwrap_or(b""),
            number,
            line,
            words: words_in(line),
            send: b"",
        }
    }

    /// The line, below the send of that line.
    pub fn below(mut self, send: u32) -> Self {
        self.send = line_in(self.text, send).unwrap_or(b"");
        self
    }

    /// The place among the words of the one at which so many bytes of the line are left.
    pub fn place_of(&self, left: usize) -> Option<usize> {
        let from = self.line.len().saturating_sub(left);
        self.words.iter().position(|word| word.first >= from)
    }

    /// What stands on the line from this place up to that one.
    pub fn span(&self, first: usize, end: usize) -> Placed<'a> {
        Placed {
            text: self.line.get(first..end).unwrap_or(b""),
            first,
        }
    }

    /// What stands on the line from this place up to its last word.
    pub fn to_end(&self, first: usize) -> Placed<'a> {
        let end = self.words.last().map_or(first, |word| word.end());
        self.span(first, end)
    }

    /// Writes the line behind its number.
    pub fn put_line<W: Write>(&self, writer: &mut W) -> Result<(), WriteFault> {
        put_source_line(writer, self.text, self.number)
    }

    /// Writes carets below the word.
    pub fn put_carets<W: Write>(&self, writer: &mut W, word: Placed<'_>) -> Result<(), WriteFault> {
        put_carets(writer, self.number, self.line, word.first, word.end())
    }

    // Whether the send above has this option.
    fn is_below(&self, option: &[u8]) -> bool {
        words_in(self.send).iter().any(|word| word.text == option)
    }

    // Whether the word asks for data that the command of the send above has not.
    fn asks_in_vain(&self, word: &[u8]) -> bool {
        match word {
            b"has" | b"good has" => !self.is_below(b"--read-keys"),
            b"held" | b"unheld" | b"good held" | b"good unheld" => {
                !self.is_below(b"--read-reservation")
            }
            _ => false,
        }
    }

    /// Says what was meant, with the text in place of `{}`, and writes the line with the text in place of the word. Where that
    /// can't stand below the send, it says so.
    pub fn put_meant<W: Write>(
        &self,
        writer: &mut W,
        sentence: &[u8],
        word: Placed<'_>,
        text: &[u8],
    ) -> Result<(), WriteFault> {
        if self.asks_in_vain(text) {
            return put(writer, NOT_UNDER);
        }
        put_filled(writer, sentence, &[Token::Text(text)])?;
        self.put_corrected(writer, word, text)
    }

    /// Writes the line with the text in place of the word.
    pub fn put_corrected<W: Write>(
        &self,
        writer: &mut W,
        word: Placed<'_>,
        text: &[u8],
    ) -> Result<(), WriteFault> {
        let back = self.line.get(word.end()..).unwrap_or(b"");
        self.put_front(writer, word.first)?;
        put(writer, text)?;
        put_filled(writer, b"{}\n", &[Token::Text(back)])
    }

    /// Writes what stands on the line in front of this place, without its end.
    pub fn put_front<W: Write>(&self, writer: &mut W, end: usize) -> Result<(), WriteFault> {
        let front = self.line.get(..end).unwrap_or(b"");
        put_filled(writer, b"  {}", &[Token::Text(front.trim_ascii_start())])
    }

    /// Writes what stands on the line in front of this place as a line.
    pub fn put_up_to<W: Write>(&self, writer: &mut W, end: usize) -> Result<(), WriteFault> {
        let front = self.line.get(..end).unwrap_or(b"");
        put_filled(writer, b"  {}\n", &[Token::Text(front.trim_ascii())])
    }

    /// Writes the text, and what stands on the line from this place on, as a line.
    pub fn put_from<W: Write>(
        &self,
        writer: &mut W,
        text: &[u8],
        first: usize,
    ) -> Result<(), WriteFault> {
        let back = self.line.get(first..).unwrap_or(b"");
        put_filled(writer, b"  {}{}\n", &[Token::Text(text), Token::Text(back)])
    }
}
