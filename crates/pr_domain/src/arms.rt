//! Which arm takes a reply.

ghost use Rattle.std.specs.Prelude.{◌≡◌, position};
ghost use Rattle.pr_cdb.specs.declared.reply.Reply.{Reply as ReplyOf};
ghost use Rattle.pr_domain.specs.Landings.{IsClass, IsLanding};
ghost use Rattle.pr_domain.specs.inside.Reporting.{takes, reply_in, AreBlind};

use arrayvec::ArrayVec;
use pr_cdb::{Reply, Status};
use pr_script::{Class, Landing, Test};

// A reply of the class, without data.
fn reply_in(class: Class) -> Reply
    ensures { result ≡ reply_in class }
{
    let (status, sense) = match class {
        Class::Good => (Status::Good, None),
        Class::Conflict => (Status::Conflict, None),
        Class::Busy => (Status::Busy, None),
        Class::Full => (Status::TaskFull, None),
        Class::Sense(sense) => (Status::CheckCondition, Some(sense)),
    };
    Reply {
        status,
        sense,
        bytes: ArrayVec::new(),
    }
}

// The first arm that takes such a reply by its status and its sense.
pub(crate) fn first_arm(tests: &[Test], class: Class) -> Option<usize>
    ensures { result ≡ position (λ t. takes t class) tests.now }
{
    let reply = reply_in(class);
    tests.iter().position(|test| test.matches(&reply))
}

/// Where a reply of this class goes on whose data no test looks at.
pub(crate) fn landing_of(tests: &[Test], class: Class) -> Landing
    ensures { (r : ReplyOf) → IsClass r class → AreBlind tests.now class
        → IsLanding tests.now r result }
{
    match first_arm(tests, class) {
        Some(arm) => Landing::Arm(arm),
        None => Landing::NoArm(class),
    }
}
