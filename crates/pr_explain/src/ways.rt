//! By which arm a script goes on behind a send, where its command ends GOOD if it can.

use crate::blocks::depth_behind;
use crate::lint::Lint;
use crate::lint_words::index_of;
use crate::source::{first_word, is};
use pr_lines::{key_or_zero, next_word};

// How much an arm says that all is well.
#[derive(Clone, Copy, PartialEq, Eq)]
enum Rank {
    /// It waits for no GOOD.
    Other,
    /// It waits for a GOOD that shows what was to be taken away, or that nothing is reserved.
    Amiss,
    /// It waits for another GOOD.
    Good,
}

/// The index of the line of the arm by which the send on the line with this index goes on, where this key was taken away: of the
/// arms that some reply takes, the first that waits for such a GOOD, or else for another, or else any; none where no reply takes
/// one.
pub(crate) fn way_on(lines: &[&[u8]], lints: &[Lint], key: u64, send: usize) -> Option<usize> {
    let mut best: Option<(Rank, usize)> = None;
    let mut depth = 0;
    let mut number: usize = 0;
    for (index, line) in lines.iter().enumerate().skip(send) {
        let word = first_word(line);
        if depth == 1 && is(word, "on") {
            let rank = rank_of(line, key);
            if !is_untaken(lints, send, number, rank) && is_better(best, rank) {
                best = Some((rank, index));
            }
            number = number.saturating_add(1);
        }
        depth = depth_behind(depth, word);
        if depth == 0 {
            break;
        }
    }
    best.map(|(_, index)| index)
}

fn is_better(best: Option<(Rank, usize)>, rank: Rank) -> bool {
    match best {
        Some((above, _)) => weight(rank) > weight(above),
        None => true,
    }
}

fn weight(rank: Rank) -> u8 {
    match rank {
        Rank::Other => 0,
        Rank::Amiss => 1,
        Rank::Good => 2,
    }
}

// The line is one of an arm.
fn rank_of(line: &[u8], key: u64) -> Rank {
    let Some((b"good", rest)) = words_behind(line) else {
        return Rank::Other;
    };
    match next_word(rest) {
        Some((b"has" | b"held", rest)) if begins_with(rest, key) => Rank::Amiss,
        Some((b"unheld", _)) => Rank::Amiss,
        Some(_) | None => Rank::Good,
    }
}

// The second word of the line, and what stands behind it.
fn words_behind(line: &[u8]) -> Option<(&[u8], &[u8])> {
    let (_, rest) = next_word(line)?;
    next_word(rest)
}

fn begins_with(words: &[u8], key: u64) -> bool {
    next_word(words).is_some_and(|(word, _)| key_or_zero(word) == Some(key))
}

// Whether one of the lints is that no reply takes the arm with this number of the send on the line with this index.
fn is_untaken(lints: &[Lint], send: usize, number: usize, rank: Rank) -> bool {
    lints.iter().any(|lint| match *lint {
        Lint::NeverSent { line } => index_of(line) == send,
        Lint::NeverTaken { line, arm } | Lint::Covered { line, arm, .. } => {
            index_of(line) == send && arm == number
        }
        Lint::Keyless { line } | Lint::NeverGood { line, .. } => {
            index_of(line) == send && rank != Rank::Other
        }
        Lint::NotNeeded { .. }
        | Lint::NotUsed { .. }
        | Lint::HalfArmed { .. }
        | Lint::NoSuchReservation { .. }
        | Lint::NoSuchStart { .. } => false,
    })
}
