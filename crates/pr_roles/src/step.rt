//! What a replay goes by.

use crate::how::How;

/// What happens next in a replay.
#[derive(Clone, Copy, Debug, PartialEq, Eq)]
pub enum Step {
    /// The turn of the nexus with this number, whose command is answered so, where that may still come.
    Of(u8, How),
    /// A reset of the unit, where one may still come.
    Reset,
    /// Somebody else on the path of the nexus with this number is told of the lowest attention that is pending for it, where its
    /// path is shared and one is.
    Fetched(u8),
}
