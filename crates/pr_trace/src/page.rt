//! Text that is put together, and goes out a page at a time.

use arrayvec::ArrayVec;

/// Text that is put together, and has not gone out yet.
pub type Page = ArrayVec<u8, 8_192>;
