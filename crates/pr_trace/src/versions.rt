//! How much a trace may have, by its version.

ghost use Rattle.std.specs.Prelude.{◌≡◌, ◌≤◌};
ghost use Rattle.pr_cdb.specs.declared.codes.TheConstants.{MOST_DATA_LENGTH};
ghost use Rattle.pr_trace.specs.Versions.{has_resets, most_data, most_items};

use pr_cdb::codes::{HEADER_LENGTH, KEY_LENGTH};
use pr_roles::limits::most_declared;

/// The items of a trace of version 1: what eight nexuses may send.
pub const MOST_ITEMS_1: u32 = 32_768;

/// The items of a trace of a later version: what sixteen nexuses may send, and 1,000 resets.
pub const MOST_ITEMS_2: u32 = 66_536;

/// How many items a trace of this version has at most.
pub(crate) fn most_items(version: u8) -> u32
    ensures exact { result ≡ most_items version }
    ensures few { result ≤ MOST_ITEMS_2 }
{
    if version == 1 {
        MOST_ITEMS_1
    } else {
        MOST_ITEMS_2
    }
}

/// Whether a trace of this version may have resets.
pub(crate) fn has_resets(version: u8) -> bool
    ensures { result ≡ has_resets version }
{
    version >= 2
}

/// How many bytes of data a reply has at most in a trace of this version: those of READ KEYS, where each nexus of
/// its scenario has a key.
pub(crate) fn most_data(version: u8) -> usize
    ensures exact { result ≡ most_data version }
    ensures few { result ≤ MOST_DATA_LENGTH }
{
    HEADER_LENGTH + KEY_LENGTH * most_declared(version)
}
