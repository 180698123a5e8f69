//! Refusals: how often a nexus was refused, and the replies that say so.

ghost use Rattle.std.specs.Prelude.{◌≡◌, ◌<◌, length};
ghost use Rattle.pr_unit.specs.Replies.{refused_with};
ghost use Rattle.pr_roles.specs.Answers.{is_refused, refusals_by, may_come};
ghost use Rattle.pr_roles.specs.Schedules.{how_now};
ghost use Rattle.pr_roles.specs.Scenarios.{scenario_of};

use arrayvec::ArrayVec;
use pr_cdb::{Reply, Status};
use pr_roles::{How, Item, Scenario};

/// As is asked for, where the nexus may still be answered so after this history; else by the unit.
pub fn how_now(scenario: &Scenario, history: &[Item], host: u8, wanted: How) -> How
    requires { host < length (scenario_of scenario.now).nexuses }
    ensures { result ≡ how_now (scenario_of scenario.now) history.now host wanted }
{
    if may_come(scenario, history, host, wanted) {
        wanted
    } else {
        How::Plain
    }
}

/// Whether the nexus may still be answered so after this history. Where that is a refusal, it looks at each item.
pub fn may_come(scenario: &Scenario, history: &[Item], host: u8, how: How) -> bool
    requires { host < length (scenario_of scenario.now).nexuses }
    ensures { result ≡ may_come (scenario_of scenario.now) history.now host how }
{
    let parts = scenario.parts();
    match how {
        How::Plain => true,
        How::Early => parts.early,
        How::Busy | How::Full => {
            let most = parts.nexuses[usize::from(host)].most_refusals(how);
            refusals_by(history, host, how) < most as usize
        }
    }
}

// How many commands of the nexus were refused so.
fn refusals_by(history: &[Item], host: u8, how: How) -> usize
    ensures { result ≡ refusals_by history.now host how }
{
    history
        .iter()
        .filter(|item| is_refused(item, host, how))
        .count()
}

// Whether this is a command of the nexus that was refused so.
fn is_refused(item: &Item, host: u8, how: How) -> bool
    ensures { result ≡ is_refused host how item.now }
{
    match item {
        Item::Sent(entry) => entry.host == host && how.refuses(&entry.reply),
        Item::Reset => false,
    }
}

/// A reply of this status alone, as BUSY and TASK SET FULL are.
pub fn refused(status: Status) -> Reply
    ensures { result ≡ refused_with status }
{
    Reply {
        status,
        sense: None,
        bytes: ArrayVec::new(),
    }
}
