//! What was meant by a line that doesn't keep its shape: the word that can't stand there, with carets below it, what is wanted in
//! its place, the nearest word, what people write so by habit of `sg_persist` and the shell, and the line as it was meant.
//!
//! Which word it is comes from the reader (`pr_lines::Misfit`); here are words alone. That they say what is so is tested, against
//! files; proved is that each call is safe, ends, and takes no memory.
#![tactic(auto)]

mod behind;
mod bytes;
mod forms;
mod guesses;
mod misfits;
mod nearest;
mod parted;
mod shapes;
mod slips;
mod terms;
mod told;
mod words;

pub use bytes::tell_not_ascii;
pub use misfits::{keyword_meant, tell_misfit, tell_no_line};
pub use nearest::{Nearest, edits};
pub use shapes::Within;
pub use told::{NOT_UNDER, Told};
pub use words::{Placed, Words, option_key, word_at, words_in};
