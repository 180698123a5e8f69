//! Whether a word is one of those that are wanted.

use pr_lines::{CONDITIONS, Wanted, amount_of, key_or_zero};
use pr_script::is_name;

/// The greatest address of a block, and the greatest count that is looked at.
pub const MOST_ADDRESS: u64 = 4_294_967_295;

/// The most blocks of a command.
pub const MOST_BLOCKS: u64 = 65_535;

/// Whether the word is one of those that may stand where this is wanted, as far as one word says that.
pub fn is_one(word: &[u8], wanted: Wanted) -> bool {
    match wanted {
        Wanted::Name => is_name(word),
        Wanted::Key => is_key(word),
        Wanted::KeyOrZero => key_or_zero(word).is_some(),
        Wanted::Alternative => word == b"free".as_slice() || is_key(word),
        Wanted::Attention => matches!(word, b"29/00" | b"2a/03" | b"2a/04" | b"2a/05"),
        Wanted::Reservation => is_reservation(word),
        Wanted::Count | Wanted::Address => amount_of(MOST_ADDRESS, word).is_some(),
        Wanted::Blocks => amount_of(MOST_BLOCKS, word).is_some(),
        Wanted::Budget => word == b"budget".as_slice(),
        Wanted::Order => word == b"conflict".as_slice(),
        Wanted::Kind => matches!(word, b"1" | b"3" | b"5" | b"6" | b"7" | b"8"),
        Wanted::Arm => matches!(
            word,
            b"good" | b"conflict" | b"attention" | b"busy" | b"full"
        ),
        Wanted::Good => matches!(word, b"has" | b"held" | b"unheld"),
        Wanted::Condition => CONDITIONS.iter().any(|row| row.0 == word),
        _ => false,
    }
}

fn is_key(word: &[u8]) -> bool {
    key_or_zero(word).is_some_and(|key| key != 0)
}

fn is_reservation(word: &[u8]) -> bool {
    match word {
        [b'1' | b'3' | b'5' | b'6', b':', name @ ..] => is_name(name),
        _ => matches!(word, b"none" | b"7" | b"8"),
    }
}
