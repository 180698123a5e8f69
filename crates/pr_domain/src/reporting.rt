//! The outcomes of a command, from the tally of its ways to end.

ghost use Rattle.std.specs.Prelude.{◌≡◌, ◌≤◌, ◌<◌, ℕ, true, false, List, Some};
ghost use Rattle.std.specs.List.{All};
ghost use Rattle.pr_cdb.specs.declared.reply.Sense.{Sense};
ghost use Rattle.pr_attention.specs.Attentions.{code_of};
ghost use Rattle.pr_cdb.specs.declared.wire.Request.TheVariants.{Plain};
ghost use Rattle.pr_registry.specs.Registrations.{State};
ghost use Rattle.pr_script.specs.declared.limits.TheConstants.{MOST_ARMS};
ghost use Rattle.pr_script.specs.declared.script.Test.{Test};
ghost use Rattle.pr_script.specs.Grammar.{is_written, test_fits};
ghost use Rattle.pr_unit.specs.Conduct.{command_fault};
ghost use Rattle.pr_unit.specs.Replies.{report};
ghost use Rattle.pr_domain.specs.Landings.{IsClass};
ghost use Rattle.pr_domain.specs.inside.Tallies.{way_for};
ghost use Rattle.pr_domain.specs.inside.Reporting.{AreKept, AreBlind, AreMore, AreCalm, AreQuiet, Reports, Conflicts, Fails, EndsGood, Refuses, refusal, IsLater};

use crate::arms::landing_of;
use crate::attentions::{after_report, those_without};
use crate::collecting::put;
use crate::tally::Tally;
use crate::tested::TestedCommand;
use pr_attention::Attention;
use pr_cdb::codes::{
    INVALID_FIELD_IN_PARAMETER_LIST, INVALID_RELEASE_OF_PERSISTENT_RESERVATION,
    LOGICAL_BLOCK_ADDRESS_OUT_OF_RANGE,
};
use pr_cdb::{Command, Sense};
use pr_roles::Refusals;
use pr_script::limits::MOST_ARMS;
use pr_script::{Class, Landing};
use pr_sets::BitSet;
use pr_unit::illegal;
use pr_views::Possibilities;
use std::alloc::{AllocError, Global};

// How the report of an attention ends.
fn class_of_report(command: &Command, attention: Attention) -> Class
    ensures class { IsClass (report (Plain command.now) (code_of attention)) result }
    ensures blind { (keys : List ℕ) (tests : List Test)
        → All (λ t. test_fits keys command.now t ≡ true) tests → AreBlind tests result }
{
    match command {
        Command::RequestSense => Class::Good,
        _ => Class::Sense(attention.sense()),
    }
}

/// The two replies in which the unit has no part.
#[derive(Clone, Copy)]
pub(crate) enum Unserved {
    Busy,
    Full,
}

impl Unserved {
    fn class(self) -> Class
        ensures class { IsClass (refusal self) result }
        ensures blind { (tests : List Test) → AreBlind tests result }
    {
        match self {
            Unserved::Busy => Class::Busy,
            Unserved::Full => Class::Full,
        }
    }
}

// Where the tally has what is so of states in which the command conflicts, or of those in which it doesn't.
fn way_for(conflicting: bool) -> usize
    ensures way { result ≡ way_for conflicting }
    ensures few { result ≤ 1 }
{
    if conflicting { 0 } else { 1 }
}

/// The sense of the command's fault, where it can be at fault.
fn fault_of(command: &Command) -> Option<Sense>
    ensures { (keys : List ℕ) (u : State) (h : ℕ) (x : Sense) → is_written keys command.now ≡ true
        → command_fault u h command.now ≡ Some x → result ≡ Some x }
{
    match command {
        Command::Read { .. } | Command::Write { .. } => Some(illegal(
            LOGICAL_BLOCK_ADDRESS_OUT_OF_RANGE,
            0,
        )),
        Command::Release { .. } => Some(illegal(
            INVALID_FIELD_IN_PARAMETER_LIST,
            INVALID_RELEASE_OF_PERSISTENT_RESERVATION,
        )),
        Command::Preempt { .. } | Command::PreemptAbort { .. } => Some(illegal(
            INVALID_FIELD_IN_PARAMETER_LIST,
            0,
        )),
        // That no other can be at fault is what the contract says.
        _ => None,
    }
}

/// A command whose outcomes are to be found, and what is known of the states from which it is sent. Contracts alone
/// read how many hosts there are, and which of them sends it.
#[derive(Clone, Copy)]
pub(crate) struct Sending<'a> {
    pub(crate) asked: TestedCommand<'a>,
    pub(crate) hosts: u8,
    pub(crate) sender: u8,
    pub(crate) known: Possibilities,
    pub(crate) tally: &'a Tally,
    pub(crate) refusals: Refusals,
    ghost there: { sender < hosts },
}

impl Sending<'_> {
    ghost use Rattle.std.specs.Prelude.{IfOk, OnOk};
    ghost use Rattle.pr_attention.specs.declared.attention.Attention.TheVariants.{PowerOn};
    ghost use Rattle.pr_domain.specs.inside.Sendings.{scope_of_sending, IsOfWayAt, Adds, AddsGood, AddsIf, AddsEarly, AreOutcomesOf};

    // Adds what one way to end leaves, beside these attentions.
    fn add(
        &self,
        outcomes: &mut Vec<(Landing, Possibilities)>,
        landing: Landing,
        way: &Possibilities,
        pending: BitSet,
    ) -> Result<(), AllocError>
        requires kept { AreKept outcomes.old.items }
        ensures kept { OnOk result (AreKept outcomes.new.items) }
        ensures more { OnOk result (AreMore (scope_of_sending self.now) outcomes.old.items
            (IsOfWayAt self.now landing way.now pending) outcomes.new.items) }
    {
        if way.reservations.is_empty() || pending.is_empty() {
            return Ok(());
        }
        let found = Possibilities { pending, ..*way };
        put(outcomes, landing, found)?;
        Ok(())
    }

    // Adds where the report of a power on lands.
    fn add_power_on(&self, outcomes: &mut Vec<(Landing, Possibilities)>) -> Result<(), AllocError>
        requires kept { AreKept outcomes.old.items }
        ensures kept { OnOk result (AreKept outcomes.new.items) }
        ensures more { OnOk result (Adds self.now (Reports false PowerOn) outcomes.old.items
            outcomes.new.items) }
    {
        let class = class_of_report(&self.asked.command, Attention::PowerOn);
        let landing = landing_of(self.asked.tests, class);
        // It comes before a conflict, and so whether there is one or not.
        let mut way = self.tally.way(0);
        way.join(&self.tally.way(1));
        let pending = after_report(self.known.pending, Attention::PowerOn);
        self.add(outcomes, landing, &way, pending)?;
        Ok(())
    }

    // Adds where the report of another attention lands, of a command that conflicts or does not.
    fn add_report(
        &self,
        outcomes: &mut Vec<(Landing, Possibilities)>,
        attention: Attention,
        conflicting: bool,
    ) -> Result<(), AllocError>
        requires later { IsLater attention }
        requires kept { AreKept outcomes.old.items }
        ensures kept { OnOk result (AreKept outcomes.new.items) }
        ensures more { OnOk result (Adds self.now (Reports conflicting attention) outcomes.old.items
            outcomes.new.items) }
    {
        let class = class_of_report(&self.asked.command, attention);
        let landing = landing_of(self.asked.tests, class);
        let pending = after_report(self.calm(), attention);
        let way = self.tally.way(way_for(conflicting));
        self.add(outcomes, landing, &way, pending)?;
        Ok(())
    }

    // Adds where a report lands that comes though the command conflicts, where the unit may report so.
    fn add_early(&self, outcomes: &mut Vec<(Landing, Possibilities)>) -> Result<(), AllocError>
        requires kept { AreKept outcomes.old.items }
        ensures kept { OnOk result (AreKept outcomes.new.items) }
        ensures more { OnOk result (AddsEarly self.now outcomes.old.items outcomes.new.items) }
    {
        if !self.refusals.early {
            return Ok(());
        }
        self.add_report(outcomes, Attention::ReservationsPreempted, true)?;
        self.add_report(outcomes, Attention::ReservationsReleased, true)?;
        self.add_report(outcomes, Attention::RegistrationsPreempted, true)?;
        Ok(())
    }

    // Adds where a conflict lands.
    fn add_conflict(&self, outcomes: &mut Vec<(Landing, Possibilities)>) -> Result<(), AllocError>
        requires kept { AreKept outcomes.old.items }
        ensures kept { OnOk result (AreKept outcomes.new.items) }
        ensures more { OnOk result (Adds self.now Conflicts outcomes.old.items outcomes.new.items) }
    {
        let landing = landing_of(self.asked.tests, Class::Conflict);
        self.add(outcomes, landing, &self.tally.way(0), self.calm())?;
        Ok(())
    }

    // Adds where BUSY lands, or TASK SET FULL.
    fn add_refusal(
        &self,
        outcomes: &mut Vec<(Landing, Possibilities)>,
        refused: Unserved,
    ) -> Result<(), AllocError>
        requires kept { AreKept outcomes.old.items }
        ensures kept { OnOk result (AreKept outcomes.new.items) }
        ensures more { OnOk result (Adds self.now (Refuses refused) outcomes.old.items
            outcomes.new.items) }
    {
        let class = refused.class();
        let landing = landing_of(self.asked.tests, class);
        // The state stays: what is so of it is what is so with a conflict or without one.
        let mut way = self.tally.way(0);
        way.join(&self.tally.way(1));
        self.add(outcomes, landing, &way, self.known.pending)?;
        Ok(())
    }

    // Adds it where the sender may meet it.
    fn add_declared(
        &self,
        outcomes: &mut Vec<(Landing, Possibilities)>,
        declared: bool,
        refused: Unserved,
    ) -> Result<(), AllocError>
        requires kept { AreKept outcomes.old.items }
        ensures kept { OnOk result (AreKept outcomes.new.items) }
        ensures more { OnOk result (AddsIf self.now declared refused outcomes.old.items
            outcomes.new.items) }
    {
        if !declared {
            return Ok(());
        }
        self.add_refusal(outcomes, refused)?;
        Ok(())
    }

    // Adds where a fault lands.
    fn add_fault(&self, outcomes: &mut Vec<(Landing, Possibilities)>) -> Result<(), AllocError>
        requires kept { AreKept outcomes.old.items }
        ensures kept { OnOk result (AreKept outcomes.new.items) }
        ensures more { OnOk result (Adds self.now Fails outcomes.old.items outcomes.new.items) }
    {
        let Some(sense) = fault_of(&self.asked.command) else {
            return Ok(());
        };
        let landing = landing_of(self.asked.tests, Class::Sense(sense));
        self.add(outcomes, landing, &self.tally.way(2), self.quiet())?;
        Ok(())
    }

    // Adds where GOOD lands whose data this arm takes, counted from 1, or no arm.
    fn add_good(
        &self,
        outcomes: &mut Vec<(Landing, Possibilities)>,
        arm: usize,
    ) -> Result<(), AllocError>
        requires there { arm ≤ MOST_ARMS }
        requires kept { AreKept outcomes.old.items }
        ensures kept { OnOk result (AreKept outcomes.new.items) }
        ensures more { OnOk result (AddsGood self.now arm outcomes.old.items outcomes.new.items) }
    {
        let landing = if arm == 0 {
            Landing::NoArm(Class::Good)
        } else {
            Landing::Arm(arm - 1)
        };
        self.add(outcomes, landing, &self.tally.way(3 + arm), self.quiet())?;
        Ok(())
    }

    // Adds where GOOD lands.
    fn add_all_good(&self, outcomes: &mut Vec<(Landing, Possibilities)>) -> Result<(), AllocError>
        requires kept { AreKept outcomes.old.items }
        ensures kept { OnOk result (AreKept outcomes.new.items) }
        ensures more { OnOk result (Adds self.now EndsGood outcomes.old.items outcomes.new.items) }
    {
        for arm in 0..MOST_ARMS + 1 {
            self.add_good(outcomes, arm)?;
        }
        Ok(())
    }

    /// The outcomes.
    pub(crate) fn outcomes(
        &self,
        alloc: Global,
    ) -> Result<Vec<(Landing, Possibilities)>, AllocError>
        ensures outcomes { IfOk result (λ outcomes. AreOutcomesOf self.now outcomes.items) }
        ensures kept { IfOk result (λ outcomes. AreKept outcomes.items) }
    {
        let mut outcomes = Vec::new(alloc);
        self.add_all_good(&mut outcomes)?;
        self.add_conflict(&mut outcomes)?;
        self.add_power_on(&mut outcomes)?;
        self.add_report(&mut outcomes, Attention::ReservationsPreempted, false)?;
        self.add_report(&mut outcomes, Attention::ReservationsReleased, false)?;
        self.add_report(&mut outcomes, Attention::RegistrationsPreempted, false)?;
        self.add_early(&mut outcomes)?;
        self.add_fault(&mut outcomes)?;
        self.add_declared(&mut outcomes, self.refusals.busy, Unserved::Busy)?;
        self.add_declared(&mut outcomes, self.refusals.full, Unserved::Full)?;
        Ok(outcomes)
    }

    // The possible attentions among which there is no power on.
    fn calm(&self) -> BitSet
        ensures { AreCalm self.now.known result }
    {
        those_without(self.known.pending, Attention::PowerOn)
    }

    // No attention, where that is possible.
    fn quiet(&self) -> BitSet
        ensures { AreQuiet self.now.known result }
    {
        self.known.pending.and(BitSet::only(0))
    }
}
