//! A scenario as a history of it is followed: its unit, and who may send what next.

ghost use Rattle.std.specs.Prelude.{◌≡◌, ◌<◌, [], Some, length, slice_set, IfOk};
ghost use Rattle.pr_roles.specs.Scenarios.{scenario_of};
ghost use Rattle.pr_roles.specs.FirstStarts.{first_state};
ghost use Rattle.pr_roles.specs.Worlds.{control};
ghost use Rattle.pr_audit.specs.Auditors.{IsAuditorOf, IsPast, IsTriedAfter, StartsAt, send_of, world_at};
ghost use Rattle.pr_audit.specs.Ends.{IsEndBy};
ghost use Rattle.pr_audit.specs.inside.Auditing.{AreFirstSenders, TriesBy, TriesServed};

use crate::end::End;
use crate::refusing::may_come;
use crate::resetting::may_reset;
use crate::sender::Sender;
use pr_cdb::Command;
use pr_roles::{Entry, How, Item, Nexus, Scenario, first_start};
use pr_unit::Unit;
use std::alloc::{AllocError, Global};

/// A scenario as a history of it is followed, item by item, from some state of the unit. On a shared path it is not known what was
/// fetched: of the states in which the unit may be, the auditor keeps that in which most is pending.
#[derive(Drop)]
pub struct Auditor {
    unit: Unit,
    senders: Vec<Sender>,
}

impl Auditor {
    /// The scenario at its first start.
    pub(crate) fn begin(alloc: Global, scenario: &Scenario) -> Result<Auditor, AllocError>
        ensures first { IfOk result (λ auditor. first_state (scenario_of scenario.now)
            ≡ Some auditor.unit) }
        ensures world { IfOk result (λ auditor. StartsAt scenario.now auditor.unit auditor) }
        ensures acts { IfOk result (IsAuditorOf scenario.now) }
    {
        let start = first_start(scenario);
        Auditor::from_start(alloc, scenario, start)
    }

    /// The scenario over this unit, with each script at its beginning. There is one nexus for each that the scenario declares.
    #[tactic(auto, using(crate::proofs::lemmas::Auditors::Admissions::begun_tasks))]
    pub fn from_start(
        alloc: Global,
        scenario: &Scenario,
        start: Unit,
    ) -> Result<Auditor, AllocError>
        requires { start.registry.hosts ≡ length (scenario_of scenario.now).nexuses }
        ensures unit { IfOk result (λ auditor. auditor.unit ≡ start) }
        ensures world { IfOk result (StartsAt scenario.now start) }
        ensures acts { IfOk result (IsAuditorOf scenario.now) }
    {
        Ok(Auditor {
            unit: start,
            senders: senders_of(alloc, scenario)?,
        })
    }

    /// Whether the item may come next after these, and then goes past it.
    pub fn admits(&mut self, scenario: &Scenario, before: &[Item], item: &Item) -> bool
        requires { IsAuditorOf scenario.now self.old }
        ensures tried { IsTriedAfter scenario.now before.now item.now result self.old self.new }
        ensures acts { IsAuditorOf scenario.now self.new }
    {
        match item {
            Item::Sent(entry) => self.admits_sent(scenario, before, entry),
            Item::Reset => self.admits_reset(scenario, before),
        }
    }

    /// Goes past an entry that is taken as it is, whatever was expected: a script that is ready to send just these bytes takes the
    /// reply. What becomes of the unit is said by [`Auditor::set_unit`].
    pub fn pass(&mut self, scenario: &Scenario, entry: &Entry)
        requires acts { IsAuditorOf scenario.now self.old }
        requires there { entry.now.host < length (scenario_of scenario.now).nexuses }
        ensures unit { (world_at self.new []).unit ≡ (world_at self.old []).unit }
        ensures sender { IsPast entry.now (control (world_at self.old []) entry.now.host)
            (control (world_at self.new []) entry.now.host) }
        ensures others { (world_at self.new []).controls
            ≡ slice_set (world_at self.old []).controls entry.now.host
            (control (world_at self.new []) entry.now.host) }
        ensures acts { IsAuditorOf scenario.now self.new }
    {
        self.senders[usize::from(entry.host)].passes(entry);
    }

    /// Goes on over this unit, with each script where it is.
    pub fn set_unit(&mut self, scenario: &Scenario, unit: Unit)
        requires acts { IsAuditorOf scenario.now self.old }
        requires hosts { unit.registry.hosts ≡ length (scenario_of scenario.now).nexuses }
        ensures unit { (world_at self.new []).unit ≡ unit }
        ensures controls { (world_at self.new []).controls ≡ (world_at self.old []).controls }
        ensures acts { IsAuditorOf scenario.now self.new }
    {
        let _ = scenario;
        self.unit = unit;
    }

    /// The unit as it is after what was admitted.
    pub fn unit(&self) -> &Unit
        ensures { result.now ≡ (world_at self.now []).unit }
    {
        &self.unit
    }

    /// The line of the send at which the host's script is ready, with its command; none of a script that is stopped or trapped,
    /// nor of a guest.
    pub fn next_command(&self, host: u8) -> Option<(u32, Command)>
        requires { host < length (world_at self.now []).controls }
        ensures { result ≡ send_of (control (world_at self.now []) host) }
    {
        self.senders[usize::from(host)].next_command()
    }

    /// How the nexus stands. A guest has not reached so many of its planned commands, whatever it has sent.
    pub fn end(&self, host: u8, planned: u32) -> End
        requires { host < length (world_at self.now []).controls }
        ensures { IsEndBy (control (world_at self.now []) host) planned result }
    {
        self.senders[usize::from(host)].end(planned)
    }

    // The same of a command.
    fn admits_sent(&mut self, scenario: &Scenario, before: &[Item], entry: &Entry) -> bool
        requires { IsAuditorOf scenario.now self.old }
        ensures tried { IsTriedAfter scenario.now before.now (Item.Sent entry.now) result self.old
            self.new }
        ensures acts { IsAuditorOf scenario.now self.new }
    {
        if usize::from(entry.host) >= scenario.parts().nexuses.len() {
            return false;
        }
        let how = How::of(entry.reply.status);
        match how {
            How::Plain | How::Early => self.admits_served(scenario, before, entry),
            How::Busy | How::Full => self.admits_as(scenario, before, entry, how),
        }
    }

    // The same of one that the unit answers: in the order of SAM-5, or by a report before it looks at the reservation.
    fn admits_served(&mut self, scenario: &Scenario, before: &[Item], entry: &Entry) -> bool
        requires acts { IsAuditorOf scenario.now self.old }
        requires there { entry.now.host < length (scenario_of scenario.now).nexuses }
        ensures tried { TriesServed scenario.now before.now entry.now result self.old self.new }
        ensures acts { IsAuditorOf scenario.now self.new }
    {
        self.admits_as(scenario, before, entry, How::Plain)
            || self.admits_as(scenario, before, entry, How::Early)
    }

    // The same of one that is answered so. Where it may not be, nothing changes.
    fn admits_as(&mut self, scenario: &Scenario, before: &[Item], entry: &Entry, how: How) -> bool
        requires acts { IsAuditorOf scenario.now self.old }
        requires there { entry.now.host < length (scenario_of scenario.now).nexuses }
        ensures tried { TriesBy how scenario.now before.now entry.now result self.old self.new }
        ensures acts { IsAuditorOf scenario.now self.new }
    {
        if !may_come(scenario, before, entry.host, how) {
            return false;
        }
        // A unit says with its registry that it is well formed.
        let _ = self.unit.registry();
        let index = usize::from(entry.host);
        let Nexus { role, shared, .. } = &scenario.parts().nexuses[index];
        self.senders[index].sends(&mut self.unit, role, entry, how, *shared)
    }

    // The same of a reset.
    fn admits_reset(&mut self, scenario: &Scenario, before: &[Item]) -> bool
        requires { IsAuditorOf scenario.now self.old }
        ensures tried { IsTriedAfter scenario.now before.now Item.Reset result self.old self.new }
        ensures acts { IsAuditorOf scenario.now self.new }
    {
        let may = may_reset(scenario, before);
        if may {
            self.unit.reset();
        }
        may
    }
}

// Each host and guest at its beginning.
#[tactic(auto, unfolding(pr_roles::specs::Scenarios::scenario_of))]
fn senders_of(alloc: Global, scenario: &Scenario) -> Result<Vec<Sender>, AllocError>
    ensures { IfOk result (λ senders. AreFirstSenders scenario.now senders.items) }
{
    let nexuses = &scenario.parts().nexuses;
    let mut senders = Vec::with_capacity(alloc, nexuses.len())?;
    for nexus in nexuses {
        senders.push(Sender::new(alloc, nexus)?)?;
    }
    Ok(senders)
}
