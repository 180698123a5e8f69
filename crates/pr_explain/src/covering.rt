//! Arms that leave nothing to those below.

ghost use Rattle.std.specs.Prelude.{◌≡◌, true};
ghost use Rattle.pr_cdb.specs.declared.reply.Reply.{Reply};
ghost use Rattle.pr_script.specs.Takes.{matches};

use pr_cdb::codes::UNIT_ATTENTION;
use pr_script::Test;

/// Whether an arm with the first test takes each reply that one with the second waits for. It says no of two that are only the
/// same under one command.
pub fn covers(above: Test, below: Test) -> bool
    ensures { result ≡ true → (reply : Reply) → matches below reply ≡ true
        → matches above reply ≡ true }
{
    match (above, below) {
        (Test::Good, Test::Good | Test::GoodHas(_) | Test::GoodHeld(_) | Test::GoodUnheld) => true,
        (Test::Attention, Test::Sense(sense)) => sense.key == UNIT_ATTENTION,
        (above, below) => above == below,
    }
}
