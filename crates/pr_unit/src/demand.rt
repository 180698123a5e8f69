//! What a command asks for, and the reservation key that it has to name.

ghost use Rattle.std.specs.Prelude.{◌≡◌};
ghost use Rattle.pr_unit.specs.Demands.{is_in_range, registering, preempting, demand_of, admission_of};

use crate::unit::CAPACITY;
use pr_cdb::{Command, Kind};

/// What a command asks for, once its sender is admitted.
///
/// `K` names a key: by itself, or by its number among declared keys. `T` is the type of a PREEMPT, which a command may lack.
#[derive(Clone, Copy, PartialEq, Eq)]
pub enum Demand<K, T> {
    /// To look: TEST UNIT READY, REQUEST SENSE and PERSISTENT RESERVE IN.
    Look,
    /// To read blocks, and whether the unit has them.
    Read(bool),
    /// To write blocks, and whether the unit has them.
    Write(bool),
    /// To be registered with this key.
    Register(K),
    /// To be registered no more.
    Unregister,
    /// To establish a reservation of this type.
    Reserve(Kind),
    /// To release a reservation of this type.
    Release(Kind),
    /// To remove the reservation and every registration.
    Clear,
    /// To preempt the key zero with this type: all other registrations, where all registrants hold.
    PreemptAll(T),
    /// To preempt this key with this type.
    Preempt(K, T),
}

/// The reservation key that a command has to name (SPC-4, 'Reservations', the table of PERSISTENT RESERVE OUT service
/// actions that are allowed).
#[derive(Clone, Copy, PartialEq, Eq)]
pub enum Admission {
    /// It names none, and any sender is admitted.
    Open,
    /// It names this one, which has to be the sender's key, or zero where the sender has none.
    OwnOrNone(u64),
    /// It names this one, which has to be the sender's key: only a registered sender is admitted.
    Own(u64),
}

impl<K: Copy, T: Copy> Demand<K, T> {
    ghost use Rattle.std.specs.Prelude.{◌≡◌};
    ghost use Rattle.pr_unit.specs.NamedKeys.{named};

    /// The key that it names, if it names one.
    pub fn key(self) -> Option<K>
        ensures { result ≡ named self }
    {
        match self {
            Demand::Register(key) | Demand::Preempt(key, _) => Some(key),
            Demand::Look
            | Demand::Read(_)
            | Demand::Write(_)
            | Demand::Unregister
            | Demand::Reserve(_)
            | Demand::Release(_)
            | Demand::Clear
            | Demand::PreemptAll(_) => None,
        }
    }
}

impl Admission {
    ghost use Rattle.std.specs.Prelude.{◌≡◌};
    ghost use Rattle.pr_unit.specs.NamedKeys.{key_of_admission};

    /// The key that is named, if one has to be.
    pub fn key(self) -> Option<u64>
        ensures { result ≡ key_of_admission self }
    {
        match self {
            Admission::Open => None,
            Admission::OwnOrNone(rk) | Admission::Own(rk) => Some(rk),
        }
    }
}

/// What the command asks for.
pub fn demand_of(command: Command) -> Demand<u64, Option<Kind>>
    ensures { result ≡ demand_of command }
{
    match command {
        Command::TestUnitReady
        | Command::RequestSense
        | Command::ReadKeys { .. }
        | Command::ReadReservation { .. }
        | Command::ReportCapabilities { .. } => Demand::Look,
        Command::Read { lba, blocks } => Demand::Read(is_in_range(lba, blocks)),
        Command::Write { lba, blocks } => Demand::Write(is_in_range(lba, blocks)),
        Command::Register { sark, .. } => registering(sark),
        Command::RegisterIgnore { sark } => registering(sark),
        Command::Reserve { kind, .. } => Demand::Reserve(kind),
        Command::Release { kind, .. } => Demand::Release(kind),
        Command::Clear { .. } => Demand::Clear,
        Command::Preempt { sark, kind, .. } => preempting(sark, kind),
        Command::PreemptAbort { sark, kind, .. } => preempting(sark, kind),
    }
}

/// The reservation key that the command has to name.
pub fn admission_of(command: Command) -> Admission
    ensures { result ≡ admission_of command }
{
    match command {
        Command::TestUnitReady
        | Command::RequestSense
        | Command::Read { .. }
        | Command::Write { .. }
        | Command::ReadKeys { .. }
        | Command::ReadReservation { .. }
        | Command::ReportCapabilities { .. }
        | Command::RegisterIgnore { .. } => Admission::Open,
        Command::Register { rk, .. } => Admission::OwnOrNone(rk),
        Command::Reserve { rk, .. } => Admission::Own(rk),
        Command::Release { rk, .. } => Admission::Own(rk),
        Command::Clear { rk } => Admission::Own(rk),
        Command::Preempt { rk, .. } => Admission::Own(rk),
        Command::PreemptAbort { rk, .. } => Admission::Own(rk),
    }
}

// Whether the blocks are among those of the unit.
fn is_in_range(lba: u32, blocks: u16) -> bool
    ensures { result ≡ is_in_range lba blocks }
{
    u64::from(lba) + u64::from(blocks) <= CAPACITY
}

// Either REGISTER: the key zero unregisters.
fn registering(sark: u64) -> Demand<u64, Option<Kind>>
    ensures { result ≡ registering sark }
{
    if sark == 0 {
        Demand::Unregister
    } else {
        Demand::Register(sark)
    }
}

// Either PREEMPT: the key zero is all other registrations.
fn preempting(sark: u64, kind: Option<Kind>) -> Demand<u64, Option<Kind>>
    ensures { result ≡ preempting sark kind }
{
    if sark == 0 {
        Demand::PreemptAll(kind)
    } else {
        Demand::Preempt(sark, kind)
    }
}
