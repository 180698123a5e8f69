//! Replays: turns and resets in an order that is given.

ghost use Rattle.std.specs.Prelude.{◌≡◌, ◌<◌, ◌^◌, length, IfOk};
ghost use Rattle.std.specs.List.{All, list_any};
ghost use Rattle.pr_roles.specs.Scenarios.{scenario_of};
ghost use Rattle.pr_audit.specs.Ends.{is_trapped_end};
ghost use Rattle.pr_world.specs.Replays.{IsReplayed, IsThere, plain_steps};

use crate::course::Course;
use pr_audit::End;
use pr_roles::{How, Item, Scenario, Step};
use pr_unit::Unit;
use std::alloc::{AllocError, Global};

/// What a replay came to.
#[derive(Debug, Drop)]
pub struct Replayed {
    /// What happened to the unit, in order.
    pub history: Vec<Item>,

    pub unit: Unit,

    /// How each nexus stands, by its number.
    pub ends: Vec<End>,

    /// How many commands of each nexus reached the unit, by its number.
    pub counts: Vec<u32>,
}

impl Replayed {
    /// Whether a host is trapped.
    pub fn is_trapped(&self) -> bool
        ensures { result ≡ list_any is_trapped_end self.now.ends.items }
    {
        self.ends.iter().any(|end| matches!(end, End::Trapped(_)))
    }
}

/// Runs the scenario from its first start, with a turn for each step: the number of a nexus. The unit answers each command.
///
/// In its turn a host sends its command, if its script is ready, and takes the reply. A guest sends the
/// next command of its plan; where that would end GOOD and its role does not permit it, the command is
/// passed over. Where the unit could report one of several attentions, it reports the lowest. The scenario
/// need not be safe. Where memory runs out there is no answer.
pub fn replay(alloc: Global, scenario: &Scenario, steps: &[u8]) -> Result<Replayed, AllocError>
    requires there { All (λ host. host < length (scenario_of scenario.now).nexuses) steps.now }
    requires few { length steps.now < 2 ^ 32 }
    ensures { IfOk result (IsReplayed (scenario_of scenario.now) (plain_steps steps.now)) }
{
    let mut course = Course::begin(alloc, scenario, steps.len())?;
    for host in steps {
        course.turn(scenario, *host, How::Plain);
    }
    course.outcome(alloc)
}

/// The same, where each turn's step also says how the command is answered: by the unit, by the unit with a report that comes before
/// it looks at the reservation, or by a refusal. Where the scenario doesn't have that, or has no such refusal left for the nexus,
/// the unit answers as always; and so it does where it may not report early. A guest's command that is refused is used up, and
/// never passed over.
///
/// A step may also be a reset of the unit. Where the scenario has none left, it is passed over. Or somebody else on the path of a
/// nexus is told of the lowest attention that is pending for it. Where the path is not shared, or none is pending, nothing happens.
pub fn replay_as(alloc: Global, scenario: &Scenario, steps: &[Step]) -> Result<Replayed, AllocError>
    requires there { All (IsThere (length (scenario_of scenario.now).nexuses)) steps.now }
    requires few { length steps.now < 2 ^ 32 }
    ensures { IfOk result (IsReplayed (scenario_of scenario.now) steps.now) }
{
    let mut course = Course::begin(alloc, scenario, steps.len())?;
    for step in steps {
        course.advance(scenario, *step);
    }
    course.outcome(alloc)
}
