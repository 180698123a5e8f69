//! Bytes, tokens and lines to any writer.
//!
//! Nothing that is written takes memory. Each token goes out by itself, so whoever wants fewer calls of a writer puts a page in
//! between.
#![tactic(auto)]

mod bytes;
mod printing;

pub use bytes::{WriteFault, put};
pub use printing::{Token, put_after_space, put_line, put_number, put_spaced, put_word};
