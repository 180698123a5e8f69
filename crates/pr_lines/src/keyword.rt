//! The words that lines begin with.

ghost use Rattle.std.specs.Prelude.{◌≡◌};
ghost use Rattle.pr_lines.specs.Keywords.{keyword_of};

use crate::lookup::lookup;

/// What the first word of a line says of it. A command of a plan has none of these.
#[derive(Clone, Copy, PartialEq, Eq)]
pub enum Keyword {
    Fence,
    Keys,
    Host,
    Guest,
    Start,
    Pending,
    Busy,
    Full,
    Reservation,
    Generation,
    Resets,
    Alone,
    Order,
    Role,
    Script,
    Plan,
    End,
    Send,
    On,
    Done,
    Repeat,
    Break,
    Stop,
}

/// The words that lines begin with (docs/FORMATS.md, 'The lines of a scenario').
pub const KEYWORDS: [(&[u8], Keyword); 23] = [
    (b"fence", Keyword::Fence),
    (b"keys", Keyword::Keys),
    (b"host", Keyword::Host),
    (b"guest", Keyword::Guest),
    (b"start", Keyword::Start),
    (b"pending", Keyword::Pending),
    (b"busy", Keyword::Busy),
    (b"full", Keyword::Full),
    (b"reservation", Keyword::Reservation),
    (b"generation", Keyword::Generation),
    (b"resets", Keyword::Resets),
    (b"alone", Keyword::Alone),
    (b"order", Keyword::Order),
    (b"role", Keyword::Role),
    (b"script", Keyword::Script),
    (b"plan", Keyword::Plan),
    (b"end", Keyword::End),
    (b"send", Keyword::Send),
    (b"on", Keyword::On),
    (b"done", Keyword::Done),
    (b"repeat", Keyword::Repeat),
    (b"break", Keyword::Break),
    (b"stop", Keyword::Stop),
];

/// The keyword that the word is.
#[tactic(auto, unfolding(crate::specs::Keywords::keyword_of))]
pub fn keyword_of(word: &[u8]) -> Option<Keyword>
    ensures { result ≡ keyword_of word.now }
{
    lookup(&KEYWORDS, word)
}
