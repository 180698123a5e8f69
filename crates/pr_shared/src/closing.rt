//! Whether a world is closed: what it has is compared with what the seats have.

ghost use Rattle.std.specs.Prelude.{◌≡◌, ◌↔◌, Some, IsTrue, length};
ghost use Rattle.std.specs.List.{list_all};
ghost use Rattle.pr_roles.specs.Scenarios.{scenario_of};
ghost use Rattle.pr_audit.specs.Ends.{ending_of};
ghost use Rattle.pr_shared.specs.Histories.{entries_of, entries_by, lists_of};
ghost use Rattle.pr_shared.specs.Outcomes.{AreOver, IsClosed, IsHaltedWith, IsOutcome, is_over};
ghost use Rattle.pr_shared.specs.inside.Seating.{HasRoomFor};
ghost use Rattle.pr_shared.specs.inside.Senders.{is_sent_before};
ghost use Rattle.pr_shared.specs.inside.WorldEnds.{AreEndsOf, AreOne};

use crate::outcome::Outcome;
use pr_audit::End;
use pr_roles::{Entry, Item, Scenario};
use pr_world::World;

/// Whether the world is one of this scenario, each list is what its nexus sent, and all are over.
pub(crate) fn is_closed(
    scenario: &Scenario,
    world: &World,
    lists: &[Vec<Entry>],
    ends: &[End],
) -> bool
    requires { AreEndsOf world.now ends.now }
    ensures { IsTrue result ↔ IsClosed (scenario_of scenario.now) (lists_of lists.now) world.now }
{
    are_one(scenario, world, lists) && are_over(ends)
}

/// Whether the world is one of this scenario, each list is what its nexus sent, and nobody else has sent anything.
pub(crate) fn is_halted(scenario: &Scenario, world: &World, lists: &[Vec<Entry>]) -> bool
    ensures { IsTrue result ↔ IsHaltedWith (scenario_of scenario.now) (lists_of lists.now)
        world.now }
{
    are_one(scenario, world, lists) && are_before(lists.len(), world.history())
}

// Whether the world is one of this scenario, and each list is what its nexus sent.
fn are_one(scenario: &Scenario, world: &World, lists: &[Vec<Entry>]) -> bool
    ensures { IsTrue result ↔ AreOne (scenario_of scenario.now) (lists_of lists.now) world.now }
{
    world.scenario().same(scenario) && are_own(lists, world.history())
}

// Whether each list is what its nexus sent.
fn are_own(lists: &[Vec<Entry>], history: &[Item]) -> bool
    ensures { IsTrue result ↔ (entries_by (length lists.now) history.now ≡ lists_of lists.now) }
{
    for (host, mine) in lists.iter().enumerate() {
        if !is_own(host, mine, history) {
            return false;
        }
    }
    true
}

// Whether the list is what this nexus sent.
fn is_own(host: usize, mine: &[Entry], history: &[Item]) -> bool
    ensures { IsTrue result ↔ (entries_of history.now host ≡ mine.now) }
{
    let mut count = 0;
    for item in history {
        if let Some(entry) = item.entry_by(host) {
            if count >= mine.len() {
                return false;
            }
            if !is_same(entry, &mine[count]) {
                return false;
            }
            count += 1;
        }
    }
    count == mine.len()
}

fn is_same(entry: &Entry, other: &Entry) -> bool
    ensures { IsTrue result ↔ (entry.now ≡ other.now) }
{
    entry == other
}

// Whether only those before this one have sent anything.
fn are_before(count: usize, history: &[Item]) -> bool
    ensures { result ≡ list_all (is_sent_before count) history.now }
{
    history.iter().all(|item| is_before(item, count))
}

// A reset is nobody's.
fn is_before(item: &Item, count: usize) -> bool
    ensures { result ≡ is_sent_before count item.now }
{
    match item {
        Item::Sent(entry) => usize::from(entry.host) < count,
        Item::Reset => true,
    }
}

// Whether each script is stopped, and each plan is done.
fn are_over(ends: &[End]) -> bool
    ensures { result ≡ list_all (λ e. is_over (Some (ending_of e))) ends.now }
{
    ends.iter().all(|end| is_over(end))
}

fn is_over(end: &End) -> bool
    ensures { result ≡ is_over (Some (ending_of end.now)) }
{
    match end {
        End::Stopped(_) => true,
        End::Ready(_) | End::Trapped(_) => false,
        End::Left(planned) => *planned == 0,
    }
}

/// How each nexus stands. There is room in the list for all of them.
pub(crate) fn ends_of(world: &World, mut ends: Vec<End>) -> Vec<End>
    requires { HasRoomFor (length (scenario_of world.now.scenario).nexuses) ends }
    ensures { AreEndsOf world.now result.items }
{
    let nexuses = world.scenario().parts().nexuses.len();
    for host in 0..nexuses {
        ends.push_reserved(world.end(host as u8));
    }
    ends
}

/// The outcome of a world in which no script and no plan has anything left to send.
pub(crate) fn outcome_of(world: World, ends: Vec<End>) -> Outcome
    requires ends { AreEndsOf world ends.items }
    requires over { AreOver (scenario_of world.scenario) world.schedule }
    ensures outcome { IsOutcome (scenario_of world.scenario) result }
    ensures history { result.history.items ≡ world.schedule.world.history }
{
    // By this reader a proof knows that the history is legal.
    let _legal = world.history();
    let (history, unit) = world.into_parts();
    Outcome {
        history,
        unit,
        ends,
    }
}
