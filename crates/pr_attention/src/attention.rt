//! The unit attentions.

ghost use Rattle.std.specs.Prelude.{◌≡◌, ◌^◌};
ghost use Rattle.pr_attention.specs.Attentions.{code_of, attention_sense};
ghost use Rattle.pr_attention.specs.CodeSets.{attention_with};
ghost use Rattle.pr_attention.specs.Flagged.{place_of};

use crate::flags::flag;
use bitflags::Flags;
use pr_cdb::Sense;
use pr_cdb::codes::{
    POWER_ON, REGISTRATIONS_PREEMPTED, RESERVATIONS_PREEMPTED, RESERVATIONS_RELEASED,
    UNIT_ATTENTION,
};

/// What a logical unit has yet to tell a host (SAM-5, 'Unit attention conditions').
///
/// The number of each is its code: the additional sense code times 256, and its qualifier.
#[derive(Clone, Copy, Debug, PartialEq, Eq)]
pub enum Attention {
    PowerOn = POWER_ON as isize,
    ReservationsPreempted = RESERVATIONS_PREEMPTED as isize,
    ReservationsReleased = RESERVATIONS_RELEASED as isize,
    RegistrationsPreempted = REGISTRATIONS_PREEMPTED as isize,
}

impl Attention {
    /// All of them, the lowest code first.
    pub const ALL: [Attention; 4] = [
        Attention::PowerOn,
        Attention::ReservationsPreempted,
        Attention::ReservationsReleased,
        Attention::RegistrationsPreempted,
    ];

    /// The one with this code.
    pub fn of_code(code: u16) -> Option<Self>
        ensures { result ≡ attention_with code }
    {
        Attention::ALL
            .iter()
            .copied()
            .find(|attention| code == attention.code())
    }

    /// The additional sense code times 256, and its qualifier.
    pub fn code(self) -> u16
        ensures { result ≡ code_of self }
    {
        self as u16
    }

    /// Its bit in a number that has one for each, the lowest code's lowest.
    pub fn bit(self) -> u8
        ensures { result ≡ 2 ^ place_of (code_of self) }
    {
        flag(self).bits()
    }

    /// The sense that reports it: UNIT ATTENTION, with its code.
    pub fn sense(self) -> Sense
        ensures { result ≡ attention_sense (code_of self) }
    {
        let [asc, ascq] = self.code().to_be_bytes();
        Sense {
            key: UNIT_ATTENTION,
            asc,
            ascq,
        }
    }
}
