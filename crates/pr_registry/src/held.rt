//! A reservation.

use pr_cdb::Kind;

/// The reservation that stands (SPC-4, 'Persistent reservation holder'): of a single host, by its
/// number, under types 1, 3, 5 and 6, or of all registrants under types 7 and 8.
#[derive(Clone, Copy, Debug, PartialEq, Eq)]
pub enum Held {
    One(Kind, u8),
    All(Kind),
}
