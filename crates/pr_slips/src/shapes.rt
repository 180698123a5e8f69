//! How many words a line has, where it stands, and what is wanted behind its first words: by this it is guessed what was meant.

use crate::words::MOST_WORDS;
use pr_lines::{Keyword, Wanted, keyword_of};

/// What a line stands in.
#[derive(Clone, Copy, Debug, PartialEq, Eq)]
pub enum Within {
    /// Neither a script nor a plan.
    Nothing,
    Script,
    Plan,
}

/// Whether a line that begins so may stand there, with so many words behind that one.
pub fn fits(keyword: Keyword, within: Within, behind: usize) -> bool {
    stands(keyword, within) && has_room(keyword, behind)
}

/// Whether a line that begins so may stand there.
pub fn stands(keyword: Keyword, within: Within) -> bool {
    match keyword {
        Keyword::Fence => false,
        Keyword::End => within != Within::Nothing,
        Keyword::Send
        | Keyword::On
        | Keyword::Done
        | Keyword::Repeat
        | Keyword::Break
        | Keyword::Stop => within == Within::Script,
        Keyword::Keys
        | Keyword::Host
        | Keyword::Guest
        | Keyword::Start
        | Keyword::Pending
        | Keyword::Busy
        | Keyword::Full
        | Keyword::Reservation
        | Keyword::Generation
        | Keyword::Resets
        | Keyword::Alone
        | Keyword::Order
        | Keyword::Role
        | Keyword::Script
        | Keyword::Plan => within == Within::Nothing,
    }
}

/// Whether a line that begins so may have so many words behind that one.
pub fn has_room(keyword: Keyword, behind: usize) -> bool {
    let (fewest, most) = words_behind(keyword);
    fewest <= behind && behind <= most
}

// The fewest and the most words behind the first.
fn words_behind(keyword: Keyword) -> (usize, usize) {
    match keyword {
        Keyword::End | Keyword::Done | Keyword::Break => (0, 0),
        Keyword::Fence
        | Keyword::Host
        | Keyword::Guest
        | Keyword::Generation
        | Keyword::Resets
        | Keyword::Order
        | Keyword::Plan
        | Keyword::Repeat
        | Keyword::Stop => (1, 1),
        Keyword::Busy | Keyword::Full => (2, 2),
        Keyword::Script => (3, 3),
        Keyword::Keys | Keyword::Reservation | Keyword::Send | Keyword::On => (1, MOST_WORDS),
        Keyword::Alone => (1, MOST_WORDS),
        Keyword::Start | Keyword::Pending | Keyword::Role => (2, MOST_WORDS),
    }
}

/// What is wanted behind the word `budget`, or behind the name on a line that begins so.
pub fn wanted_behind(first: &[u8], wanted: Wanted) -> Wanted {
    match keyword_of(first) {
        _ if wanted == Wanted::Budget => Wanted::Count,
        Some(Keyword::Start) => Wanted::Alternative,
        Some(Keyword::Pending) => Wanted::Attention,
        Some(Keyword::Busy | Keyword::Full) => Wanted::Count,
        Some(Keyword::Alone) => Wanted::Name,
        Some(Keyword::Script) => Wanted::Budget,
        _ => Wanted::End,
    }
}
