//! Which send or repeat has no `done`, by how far its lines are indented.

use crate::declared::MOST_LINES;
use arrayvec::ArrayVec;
use pr_lines::next_line;
use pr_slips::{word_at, words_in};

/// A line that is open, and how far it is indented.
#[derive(Clone, Copy, Default)]
struct Indented {
    line: u32,
    indent: usize,
}

/// The line of the first send or repeat of the text which a `done` closes that is indented as one outside it.
pub fn unclosed_by_indent(text: &[u8]) -> Option<u32> {
    let mut open: ArrayVec<Indented, 16> = ArrayVec::new();
    let mut rest = text;
    for line in 1..MOST_LINES {
        let (bytes, others) = next_line(rest)?;
        let words = words_in(bytes);
        let indent = words.first().map_or(0, |word| word.first);
        match word_at(&words, 0) {
            b"send" | b"repeat" => {
                let _ = open.try_push(Indented { line, indent });
            }
            b"done" => {
                let last = open.pop()?;
                if last.indent > indent && open.iter().any(|outer| outer.indent == indent) {
                    return Some(last.line);
                }
            }
            _ => {}
        }
        rest = others;
    }
    None
}
