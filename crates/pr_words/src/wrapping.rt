//! Lines that are broken where they get too long.

use pr_output::put;
use std::io::{Error, ErrorKind, Result, Write};

/// The most columns of a line.
const MOST_COLUMNS: usize = 100;

/// The most bytes of a word that is kept back up to its end, with the spaces before it.
const MOST_KEPT: usize = 64;

/// A writer that breaks lines of more than 100 columns at their spaces. What goes on in the next line stands further in there, but
/// for that of a sentence, which begins with a capital. Lines of a scenario's text, which have `|` behind their numbers, stay as
/// they are.
///
/// What it is given ends with a line feed; nothing is kept back then.
#[derive(Drop)]
pub struct Wrapping<'a, W: Write> {
    writer: &'a mut W,
    /// The spaces and the word that come next, so many bytes of which are kept back, and so many of these are the spaces.
    word: [u8; MOST_KEPT],
    kept: usize,
    spaces: usize,
    /// How many words of the line went out, and how many columns.
    words: usize,
    columns: usize,
    /// How far in stands what goes on in the next line.
    indent: usize,
    is_quoted: bool,
}

impl<'a, W: Write> Wrapping<'a, W> {
    /// A writer at the beginning of a line.
    pub fn new(writer: &'a mut W) -> Self {
        Wrapping {
            writer,
            word: [0; MOST_KEPT],
            kept: 0,
            spaces: 0,
            words: 0,
            columns: 0,
            indent: 0,
            is_quoted: false,
        }
    }

    fn take(&mut self, byte: u8) -> Result<()> {
        match byte {
            b'\n' => {
                self.put_word()?;
                self.end_line()
            }
            b' ' if self.spaces < self.kept => {
                self.put_word()?;
                self.keep(byte)
            }
            _ => self.keep(byte),
        }
    }

    // A word that is too long for what is kept goes out in parts.
    fn keep(&mut self, byte: u8) -> Result<()> {
        if self.kept >= MOST_KEPT {
            self.put_word()?;
        }
        if byte == b' ' && self.spaces == self.kept {
            self.spaces = self.spaces.saturating_add(1);
        }
        if let Some(place) = self.word.get_mut(self.kept) {
            *place = byte;
        }
        self.kept = self.kept.saturating_add(1);
        Ok(())
    }

    fn put_word(&mut self) -> Result<()> {
        let bytes = self.word;
        let word = bytes.get(..self.kept).unwrap_or(b"");
        let spaces = self.spaces;
        let has_letters = spaces < word.len();
        self.kept = 0;
        self.spaces = 0;
        if self.words == 0 {
            self.indent = indent_of(word, spaces);
        }
        let is_past = self.columns.saturating_add(word.len()) > MOST_COLUMNS;
        let is_broken = is_past && has_letters && self.words > 0 && !self.is_quoted;
        if is_broken {
            self.go_on()?;
        }
        let first = if is_broken { spaces } else { 0 };
        let text = word.get(first..).unwrap_or(b"");
        self.columns = self.columns.saturating_add(text.len());
        send(self.writer, text)?;
        self.is_quoted = self.is_quoted || (self.words == 1 && word.ends_with(b"|"));
        self.words = self.words.saturating_add(usize::from(has_letters));
        Ok(())
    }

    // Begins the line that goes on with this one.
    fn go_on(&mut self) -> Result<()> {
        send(self.writer, b"\n")?;
        for _ in 0..self.indent {
            send(self.writer, b" ")?;
        }
        self.columns = self.indent;
        Ok(())
    }

    fn end_line(&mut self) -> Result<()> {
        self.words = 0;
        self.columns = 0;
        self.is_quoted = false;
        send(self.writer, b"\n")
    }
}

impl<'a, W: Write> Write for Wrapping<'a, W> {
    fn write(&mut self, buf: &[u8]) -> Result<usize> {
        for byte in buf {
            self.take(*byte)?;
        }
        Ok(buf.len())
    }

    fn flush(&mut self) -> Result<()> {
        self.writer.flush()
    }
}

// How far in the lines stand that go on with one that begins with this word, behind so many spaces.
fn indent_of(word: &[u8], spaces: usize) -> usize {
    match word.first() {
        Some(byte) if byte.is_ascii_uppercase() => 0,
        Some(_) | None => spaces.saturating_add(2),
    }
}

fn send<W: Write>(writer: &mut W, text: &[u8]) -> Result<()> {
    put(writer, text).or(Err(Error::from(ErrorKind::Other)))
}
