//! The commands, and the types of a persistent reservation.

ghost use Rattle.std.specs.Prelude.{◌≡◌};
ghost use Rattle.pr_cdb.specs.Kinds.{type_code, kind_of_code};

/// The type of a persistent reservation (SPC-4, 'Persistent reservations type').
///
/// The number of each is the one that stands for it in a command and in the data of READ RESERVATION.
#[derive(Clone, Copy, Debug, PartialEq, Eq)]
pub enum Kind {
    WriteExclusive = 1,
    ExclusiveAccess = 3,
    WriteExclusiveRegistrantsOnly = 5,
    ExclusiveAccessRegistrantsOnly = 6,
    WriteExclusiveAllRegistrants = 7,
    ExclusiveAccessAllRegistrants = 8,
}

impl Kind {
    /// The number that stands for this type in a command: 1, 3, 5, 6, 7 or 8.
    pub fn code(self) -> u8
        ensures { result ≡ type_code self }
    {
        self as u8
    }

    /// The type for which `code` stands, if it stands for one.
    #[tactic(auto, unfolding(crate::specs::Kinds::kind_of_code))]
    pub fn from_code(code: u8) -> Option<Kind>
        ensures { result ≡ kind_of_code code }
    {
        match code {
            1 => Some(Kind::WriteExclusive),
            3 => Some(Kind::ExclusiveAccess),
            5 => Some(Kind::WriteExclusiveRegistrantsOnly),
            6 => Some(Kind::ExclusiveAccessRegistrantsOnly),
            7 => Some(Kind::WriteExclusiveAllRegistrants),
            8 => Some(Kind::ExclusiveAccessAllRegistrants),
            _ => None,
        }
    }
}

/// What a host asks of the logical unit.
///
/// `lba` is the address of the first block and `blocks` how many there are. `alloc` is the allocation
/// length in bytes, past which the reply's data is cut. `rk` is the reservation key and `sark` the
/// service action reservation key. The kind of a PREEMPT is `None` where its bytes have a scope that
/// is not the logical unit or a type that is none of the six: such a command may still remove
/// registrations, which needs neither.
#[derive(Clone, Copy, Debug, PartialEq, Eq)]
pub enum Command {
    TestUnitReady,
    RequestSense,
    Read {
        lba: u32,
        blocks: u16,
    },
    Write {
        lba: u32,
        blocks: u16,
    },
    ReadKeys {
        alloc: u16,
    },
    ReadReservation {
        alloc: u16,
    },
    ReportCapabilities {
        alloc: u16,
    },
    Register {
        rk: u64,
        sark: u64,
    },
    RegisterIgnore {
        sark: u64,
    },
    Reserve {
        rk: u64,
        kind: Kind,
    },
    Release {
        rk: u64,
        kind: Kind,
    },
    Clear {
        rk: u64,
    },
    Preempt {
        rk: u64,
        sark: u64,
        kind: Option<Kind>,
    },
    PreemptAbort {
        rk: u64,
        sark: u64,
        kind: Option<Kind>,
    },
}
