//! Which replies an arm's test matches.

ghost use Rattle.std.specs.Prelude.{◌≡◌};
ghost use Rattle.pr_script.specs.Takes.{matches, is_held_by};

use crate::script::Test;
use pr_cdb::codes::UNIT_ATTENTION;
use pr_cdb::{Reply, Status, holder_of, keys_of};

impl Test {
    /// Whether an arm with this test takes the reply.
    pub fn matches(self, reply: &Reply) -> bool
        ensures { result ≡ matches self reply.now }
    {
        let is_good = reply.status == Status::Good;
        let is_check = reply.status == Status::CheckCondition;
        let bytes = reply.bytes.as_slice();
        match self {
            Test::Good => is_good,
            Test::GoodHas(key) => is_good && keys_of(bytes).contains(&key),
            Test::GoodHeld(key) => is_good && is_held_by(holder_of(bytes), key),
            Test::GoodUnheld => is_good && holder_of(bytes) == Some(None),
            Test::Conflict => reply.status == Status::Conflict,
            Test::Busy => reply.status == Status::Busy,
            Test::Full => reply.status == Status::TaskFull,
            Test::Attention => is_check
                && reply.sense.is_some_and(|sense| sense.key == UNIT_ATTENTION),
            Test::Sense(sense) => is_check && reply.sense == Some(sense),
        }
    }
}

fn is_held_by(held: Option<Option<(u64, u8)>>, key: u64) -> bool
    ensures { result ≡ is_held_by held key }
{
    match held {
        Some(Some((holder, _))) => holder == key,
        _ => false,
    }
}
