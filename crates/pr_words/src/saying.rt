//! Sentences to a writer.

use pr_output::{Token, WriteFault, put, put_word};
use std::io::Write;

/// Writes the text, with the next of these words in place of each `{}`.
pub fn put_filled<W: Write>(
    writer: &mut W,
    text: &[u8],
    words: &[Token<'_>],
) -> Result<(), WriteFault> {
    let mut rest = text;
    for word in words {
        let Some(end) = rest.iter().position(|byte| *byte == b'{') else {
            break;
        };
        put(writer, rest.get(..end).unwrap_or(b""))?;
        put_word(writer, *word)?;
        rest = rest.get(end.saturating_add(2)..).unwrap_or(b"");
    }
    put(writer, rest)
}

/// The number of the line with this index.
pub fn line_number(index: usize) -> Token<'static> {
    Token::Number((index as u64).saturating_add(1))
}
