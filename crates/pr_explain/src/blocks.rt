//! A send as it stands in a scenario's text: its line, its arms, and the `done` that ends it. Of a long text only the lines from
//! the send on are looked at.

use crate::source::{first_word, is, line_of};
use arrayvec::ArrayVec;

// Whether this word begins a send or a repeat.
fn opens(word: &[u8]) -> bool {
    is(word, "send") || is(word, "repeat")
}

/// How many sends and repeats are open behind a line that begins with this word, by those before it.
pub(crate) fn depth_behind(depth: u32, word: &[u8]) -> u32 {
    if opens(word) {
        depth.saturating_add(1)
    } else if is(word, "done") {
        depth.saturating_sub(1)
    } else {
        depth
    }
}

/// The index of the line that ends the send which begins at this index.
pub(crate) fn end_of(lines: &[&[u8]], first: usize) -> usize {
    let mut depth = 0;
    for (index, line) in lines.iter().enumerate().skip(first) {
        depth = depth_behind(depth, first_word(line));
        if depth == 0 {
            return index;
        }
    }
    first
}

/// The index of the line that ends the send or repeat in which the line with this index stands.
pub(crate) fn end_around(lines: &[&[u8]], at: usize) -> usize {
    let mut depth = 1;
    for (index, line) in lines.iter().enumerate().skip(at) {
        depth = depth_behind(depth, first_word(line));
        if depth == 0 {
            return index;
        }
    }
    at
}

/// The index of the line that begins the innermost repeat that is open before the line with this index.
pub(crate) fn repeat_around(lines: &[&[u8]], at: usize) -> Option<usize> {
    let mut open = OpenSends::new();
    for (index, line) in lines.iter().enumerate().take(at) {
        let _ = open.go_past(index, first_word(line));
    }
    let mut found = None;
    for (index, _) in &open.open {
        if lines
            .get(*index)
            .is_some_and(|line| is(first_word(line), "repeat"))
        {
            found = Some(*index);
        }
    }
    found
}

/// The index of the line of its arm with this number, from 0.
pub(crate) fn arm_of(lines: &[&[u8]], first: usize, arm: usize) -> usize {
    let mut depth = 0;
    let mut left = arm;
    for (index, line) in lines.iter().enumerate().skip(first) {
        let word = first_word(line);
        if depth == 1 && is(word, "on") {
            if left == 0 {
                return index;
            }
            left -= 1;
        }
        depth = depth_behind(depth, word);
    }
    first
}

/// The sends and repeats that are open behind a line: the index of the line of each, and how many arms it has.
#[derive(Drop)]
pub(crate) struct OpenSends {
    open: ArrayVec<(usize, usize), MOST_OPEN_BLOCKS>,
}

/// As many sends and repeats are open at once: 8 of each.
const MOST_OPEN_BLOCKS: usize = 16;

impl OpenSends {
    /// None is open.
    pub(crate) fn new() -> Self {
        OpenSends {
            open: ArrayVec::new(),
        }
    }

    /// Goes past the line with this index, which begins with this word. Of an arm it answers the index of the line of its send, and
    /// its number, from 0.
    pub(crate) fn go_past(&mut self, index: usize, word: &[u8]) -> Option<(usize, usize)> {
        match word {
            b"send" | b"repeat" => {
                let _ = self.open.try_push((index, 0));
            }
            b"done" => {
                let _ = self.open.pop();
            }
            b"on" => {
                if let Some(send) = self.open.as_mut_slice().last_mut() {
                    let arm = *send;
                    send.1 = send.1.saturating_add(1);
                    return Some(arm);
                }
            }
            _ => {}
        }
        None
    }
}

/// Whether the arm on the line with this index begins with a send without arms, which says that it is never sent.
pub(crate) fn is_denied(lines: &[&[u8]], arm: usize) -> bool {
    let behind = lines.iter().skip(arm.saturating_add(1));
    let mut words = behind
        .map(|line| first_word(line))
        .filter(|word| !word.is_empty());
    words.next().is_some_and(|word| is(word, "send"))
        && words.next().is_some_and(|word| is(word, "done"))
}

/// How many statements the script of this name has.
pub(crate) fn statements_in(lines: &[&[u8]], name: &[u8]) -> usize {
    let Some(first) = line_of(lines, b"script", name, 0) else {
        return 0;
    };
    let words = lines.iter().skip(first).map(|line| first_word(line));
    words
        .take_while(|word| !is(word, "end"))
        .filter(|word| is_statement(word))
        .count()
}

fn is_statement(word: &[u8]) -> bool {
    opens(word) || is(word, "break") || is(word, "stop")
}

/// Whether something is sent in the arm on the line with this index. A repeat sends something.
pub(crate) fn sends_in_arm(lines: &[&[u8]], arm: usize) -> bool {
    let mut words = lines
        .iter()
        .skip(arm.saturating_add(1))
        .map(|line| first_word(line));
    words
        .find(|word| opens(word) || is(word, "on") || is(word, "done"))
        .is_some_and(opens)
}
