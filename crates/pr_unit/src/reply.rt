//! The forms of a reply.

ghost use Rattle.std.specs.Prelude.{◌≡◌};
ghost use Rattle.pr_cdb.specs.ReplyData.{cut};
ghost use Rattle.pr_unit.specs.Replies.{good, check, conflict};

use arrayvec::ArrayVec;
use pr_cdb::codes::MOST_DATA_LENGTH;
use pr_cdb::{Reply, Sense, Status};

/// CHECK CONDITION with this sense.
pub(crate) fn check(sense: Sense) -> Reply
    ensures { result ≡ check sense }
{
    Reply {
        status: Status::CheckCondition,
        sense: Some(sense),
        bytes: ArrayVec::new(),
    }
}

/// RESERVATION CONFLICT.
pub(crate) fn conflict() -> Reply
    ensures { result ≡ conflict }
{
    Reply {
        status: Status::Conflict,
        sense: None,
        bytes: ArrayVec::new(),
    }
}

/// GOOD, with this data.
pub(crate) fn good(bytes: ArrayVec<u8, MOST_DATA_LENGTH>) -> Reply
    ensures { result ≡ good bytes.items }
{
    Reply {
        status: Status::Good,
        sense: None,
        bytes,
    }
}

/// The data up to the allocation length.
pub(crate) fn cut(
    mut bytes: ArrayVec<u8, MOST_DATA_LENGTH>,
    alloc: u16,
) -> ArrayVec<u8, MOST_DATA_LENGTH>
    ensures { result.items ≡ cut alloc bytes.items }
{
    bytes.truncate(usize::from(alloc));
    bytes
}
