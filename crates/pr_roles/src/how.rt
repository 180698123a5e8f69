//! How a command is answered.

ghost use Rattle.std.specs.Prelude.{◌≡◌, ◌==◌, not};
ghost use Rattle.pr_roles.specs.Answers.{is_refusal, most_of};
ghost use Rattle.pr_roles.specs.DeclaredRefusals.{how_of, is_among, status_of};
ghost use Rattle.pr_roles.specs.Scenarios.{nexus_of};

use crate::parts::Nexus;
use pr_cdb::{Reply, Status};

/// How a command is answered: by the unit, in the order of SAM-5 or reporting before it looks at the reservation, or by one of the
/// two refusals in which it has no part (SAM-5, 'Status').
#[derive(Clone, Copy, Debug, PartialEq, Eq)]
pub enum How {
    /// By the unit.
    Plain,
    /// By the unit, which reports an attention before it looks at the reservation.
    Early,
    /// BUSY.
    Busy,
    /// TASK SET FULL.
    Full,
}

impl How {
    /// How a command was answered, which the status of its reply tells.
    pub fn of(status: Status) -> How
        ensures { result ≡ how_of status }
    {
        match status {
            Status::Good | Status::CheckCondition | Status::Conflict => How::Plain,
            Status::Busy => How::Busy,
            Status::TaskFull => How::Full,
        }
    }

    /// The status of a refusal; none of an answer of the unit, which has any other.
    pub fn status(self) -> Option<Status>
        ensures { result ≡ status_of self }
    {
        match self {
            How::Plain | How::Early => None,
            How::Busy => Some(Status::Busy),
            How::Full => Some(Status::TaskFull),
        }
    }

    /// Whether the reply is such a refusal.
    pub fn refuses(self, reply: &Reply) -> bool
        ensures { result ≡ is_refusal self reply.now }
    {
        match self {
            How::Plain | How::Early => false,
            How::Busy => reply.status == Status::Busy,
            How::Full => reply.status == Status::TaskFull,
        }
    }
}

/// Which of the two refusals a nexus may meet, and whether the unit may report before it looks at the reservation.
#[derive(Clone, Copy, Debug, PartialEq, Eq)]
pub struct Refusals {
    pub busy: bool,
    pub full: bool,
    pub early: bool,
}

impl Refusals {
    /// Whether a command may be answered so.
    pub fn has(self, how: How) -> bool
        ensures { result ≡ is_among self how }
    {
        match how {
            How::Plain => true,
            How::Early => self.early,
            How::Busy => self.busy,
            How::Full => self.full,
        }
    }
}

impl Nexus {
    /// How often it may be refused so. An answer of the unit is no refusal, so of that it is 0.
    pub fn most_refusals(&self, how: How) -> u32
        ensures { result ≡ most_of how (nexus_of self.now) }
    {
        let Nexus { busy, full, .. } = self;
        match how {
            How::Plain | How::Early => 0,
            How::Busy => *busy,
            How::Full => *full,
        }
    }

    /// Which of them it may meet: those that are declared for it at all; and whether the unit may report early, as the scenario
    /// has it.
    pub fn refusals(&self, early: bool) -> Refusals
        ensures busy { result.busy ≡ not (self.now.busy == 0) }
        ensures full { result.full ≡ not (self.now.full == 0) }
        ensures early { result.early ≡ early }
    {
        Refusals {
            busy: self.busy != 0,
            full: self.full != 0,
            early,
        }
    }
}
