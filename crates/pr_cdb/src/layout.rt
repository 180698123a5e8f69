//! A command by its operation code, with the fields that it sends.

ghost use Rattle.std.specs.Prelude.{◌≡◌};
ghost use Rattle.pr_cdb.specs.Ranges.{Fits};
ghost use Rattle.pr_cdb.specs.Spelling.{layout_of};

use crate::action::ServiceAction;
use crate::command::{Command, Kind};

/// A command by its operation code, with the fields that it sends.
///
/// It has a case for each operation, where [`Command`] has one for each service action: what is said of all service
/// actions alike is said by it, and by the table of these. A key that a service action doesn't name is zero, and a type
/// that it doesn't is none.
#[derive(Clone, Copy, Debug, PartialEq, Eq)]
pub enum Layout {
    TestUnitReady,
    RequestSense,
    Read {
        lba: u32,
        blocks: u16,
    },
    Write {
        lba: u32,
        blocks: u16,
    },
    ReserveIn {
        action: ServiceAction,
        alloc: u16,
    },
    ReserveOut {
        action: ServiceAction,
        kind: Option<Kind>,
        rk: u64,
        sark: u64,
    },
}

impl Command {
    /// Its operation and what it sends.
    pub fn layout(self) -> Layout
        ensures layout { result ≡ layout_of self }
        ensures fits { Fits self }
    {
        match self {
            Command::TestUnitReady => Layout::TestUnitReady,
            Command::RequestSense => Layout::RequestSense,
            Command::Read { lba, blocks } => Layout::Read { lba, blocks },
            Command::Write { lba, blocks } => Layout::Write { lba, blocks },
            Command::ReadKeys { alloc } => asks(ServiceAction::ReadKeys, alloc),
            Command::ReadReservation { alloc } => asks(ServiceAction::ReadReservation, alloc),
            Command::ReportCapabilities { alloc } => asks(ServiceAction::ReportCapabilities, alloc),
            Command::Register { rk, sark } => sends(ServiceAction::Register, None, rk, sark),
            Command::RegisterIgnore { sark } => {
                sends(ServiceAction::RegisterIgnore, None, 0, sark)
            }
            Command::Reserve { rk, kind } => sends(ServiceAction::Reserve, Some(kind), rk, 0),
            Command::Release { rk, kind } => sends(ServiceAction::Release, Some(kind), rk, 0),
            Command::Clear { rk } => sends(ServiceAction::Clear, None, rk, 0),
            Command::Preempt { rk, sark, kind } => sends(ServiceAction::Preempt, kind, rk, sark),
            Command::PreemptAbort { rk, sark, kind } => {
                sends(ServiceAction::PreemptAbort, kind, rk, sark)
            }
        }
    }
}

fn asks(action: ServiceAction, alloc: u16) -> Layout
    ensures { result ≡ Layout.ReserveIn action alloc }
{
    Layout::ReserveIn { action, alloc }
}

fn sends(action: ServiceAction, kind: Option<Kind>, rk: u64, sark: u64) -> Layout
    ensures { result ≡ Layout.ReserveOut action kind rk sark }
{
    Layout::ReserveOut {
        action,
        kind,
        rk,
        sark,
    }
}
