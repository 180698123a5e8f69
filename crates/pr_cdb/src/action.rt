//! The service actions in one table: their numbers, what they are called, and the fields that count for each.

ghost use Rattle.std.specs.Prelude.{◌≡◌};
ghost use Rattle.pr_cdb.specs.Actions.{has_type, reads, row_of, writes};
ghost use Rattle.pr_cdb.specs.Spelling.{action_number};

use crate::codes::{
    CLEAR, PREEMPT, PREEMPT_AND_ABORT, READ_KEYS, READ_RESERVATION, REGISTER,
    REGISTER_AND_IGNORE_EXISTING_KEY, RELEASE, REPORT_CAPABILITIES, RESERVE,
};

/// Where the data of a PERSISTENT RESERVE command goes.
#[derive(Clone, Copy, Debug, PartialEq, Eq)]
pub enum Direction {
    /// To the host: PERSISTENT RESERVE IN.
    In,
    /// To the logical unit: PERSISTENT RESERVE OUT.
    Out,
}

/// A field of PERSISTENT RESERVE OUT that counts for some service actions and not for others.
#[derive(Clone, Copy, Debug, PartialEq, Eq)]
pub enum Field {
    /// The reservation key.
    Rk,
    /// The service action reservation key.
    Sark,
    /// The type, under the scope of the logical unit.
    Kind,
}

/// A service action of PERSISTENT RESERVE IN or of PERSISTENT RESERVE OUT.
#[derive(Clone, Copy, Debug, PartialEq, Eq)]
pub enum ServiceAction {
    ReadKeys,
    ReadReservation,
    ReportCapabilities,
    Register,
    RegisterIgnore,
    Reserve,
    Release,
    Clear,
    Preempt,
    PreemptAbort,
}

/// What the table has of a service action.
#[derive(Clone, Copy)]
pub struct ActionRow {
    pub direction: Direction,
    /// Its number in the command descriptor block.
    pub number: u8,
    /// The option that names it, as in the manual of `sg_persist`.
    pub option: &'static [u8],
    /// What the standard calls it.
    pub name: &'static [u8],
    /// The fields that count for it. Those that don't may have any value, and are written as zero.
    pub fields: &'static [Field],
}

impl ActionRow {
    /// Whether a type counts for it.
    pub fn has_type(&self) -> bool
        ensures { result ≡ has_type self.now.fields.now }
    {
        self.fields.iter().any(|field| matches!(field, Field::Kind))
    }
}

impl ServiceAction {
    /// All of them.
    pub const ALL: [ServiceAction; 10] = [
        ServiceAction::ReadKeys,
        ServiceAction::ReadReservation,
        ServiceAction::ReportCapabilities,
        ServiceAction::Register,
        ServiceAction::RegisterIgnore,
        ServiceAction::Reserve,
        ServiceAction::Release,
        ServiceAction::Clear,
        ServiceAction::Preempt,
        ServiceAction::PreemptAbort,
    ];

    /// Its row of the table (SPC-4, 'PERSISTENT RESERVE IN command' and 'PERSISTENT RESERVE OUT command').
    pub fn row(self) -> ActionRow
        ensures direction { result.direction ≡ (row_of self).direction }
        ensures number { result.number ≡ action_number self }
        ensures option { result.option.now ≡ (row_of self).option }
        ensures name { result.name.now ≡ (row_of self).name }
        ensures fields { result.fields.now ≡ (row_of self).fields }
    {
        use Field::{Kind, Rk, Sark};
        match self {
            Self::ReadKeys => read(READ_KEYS, b"--read-keys", b"READ KEYS"),
            Self::ReadReservation => {
                read(READ_RESERVATION, b"--read-reservation", b"READ RESERVATION")
            }
            Self::ReportCapabilities => read(
                REPORT_CAPABILITIES,
                b"--report-capabilities",
                b"REPORT CAPABILITIES",
            ),
            Self::Register => write(REGISTER, b"--register", b"REGISTER", &[Rk, Sark]),
            Self::RegisterIgnore => write(
                REGISTER_AND_IGNORE_EXISTING_KEY,
                b"--register-ignore",
                b"REGISTER AND IGNORE EXISTING KEY",
                &[Sark],
            ),
            Self::Reserve => write(RESERVE, b"--reserve", b"RESERVE", &[Rk, Kind]),
            Self::Release => write(RELEASE, b"--release", b"RELEASE", &[Rk, Kind]),
            Self::Clear => write(CLEAR, b"--clear", b"CLEAR", &[Rk]),
            Self::Preempt => write(PREEMPT, b"--preempt", b"PREEMPT", &[Rk, Sark, Kind]),
            Self::PreemptAbort => write(
                PREEMPT_AND_ABORT,
                b"--preempt-abort",
                b"PREEMPT AND ABORT",
                &[Rk, Sark, Kind],
            ),
        }
    }
}

// The row of a service action of PERSISTENT RESERVE IN.
fn read(number: u8, option: &'static [u8], name: &'static [u8]) -> ActionRow
    ensures direction { result.direction ≡ (reads option.now name.now).direction }
    ensures number { result.number ≡ number }
    ensures option { result.option.now ≡ option.now }
    ensures name { result.name.now ≡ name.now }
    ensures fields { result.fields.now ≡ (reads option.now name.now).fields }
{
    ActionRow {
        direction: Direction::In,
        number,
        option,
        name,
        fields: &[],
    }
}

// The row of a service action of PERSISTENT RESERVE OUT.
fn write(
    number: u8,
    option: &'static [u8],
    name: &'static [u8],
    fields: &'static [Field],
) -> ActionRow
    ensures direction { result.direction ≡ (writes option.now name.now fields.now).direction }
    ensures number { result.number ≡ number }
    ensures option { result.option.now ≡ option.now }
    ensures name { result.name.now ≡ name.now }
    ensures fields { result.fields.now ≡ fields.now }
{
    ActionRow {
        direction: Direction::Out,
        number,
        option,
        name,
        fields,
    }
}
