//! The attentions as flags.

ghost use Rattle.std.specs.Prelude.{⊤, ◌≡◌, ◌^◌, [], ◌∷◌, codes};
ghost use Rattle.pr_attention.specs.Attentions.{code_of};
ghost use Rattle.pr_attention.specs.Flagged.{place_of};

use crate::Attention;
use bitflags::{Flag, Flags, bitflag_items};

/// The bit of a power on in the number of a set of attentions.
pub const POWER_ON_BIT: u8 = 1;

/// The bit of RESERVATIONS PREEMPTED there.
pub const RESERVATIONS_PREEMPTED_BIT: u8 = 2;

/// The bit of RESERVATIONS RELEASED there.
pub const RESERVATIONS_RELEASED_BIT: u8 = 4;

/// The bit of REGISTRATIONS PREEMPTED there.
pub const REGISTRATIONS_PREEMPTED_BIT: u8 = 8;

/// The bits of all four.
pub(crate) const EVERY_BIT: u8 = 15;

/// A set of attentions, with a bit for each.
#[derive(Clone, Copy, Debug, PartialEq, Eq)]
pub(crate) struct AttentionFlags(u8);

bitflag_items! {
    impl AttentionFlags: u8 {
        const POWER_ON = POWER_ON_BIT;
        const RESERVATIONS_PREEMPTED = RESERVATIONS_PREEMPTED_BIT;
        const RESERVATIONS_RELEASED = RESERVATIONS_RELEASED_BIT;
        const REGISTRATIONS_PREEMPTED = REGISTRATIONS_PREEMPTED_BIT;
    }
}

impl Flags for AttentionFlags {
    type Bits = u8;

    ghost exact = { ⊤ };

    ghost table = { (codes "POWER_ON", 1) ∷ (codes "RESERVATIONS_PREEMPTED", 2) ∷ (codes "RESERVATIONS_RELEASED", 4) ∷ (codes "REGISTRATIONS_PREEMPTED", 8) ∷ [] };

    ghost set_of = { λ flags. flags.0 };

    fn flags<'a>() -> &'a [Flag<AttentionFlags>] {
        AttentionFlags::FLAGS
    }

    fn bits(&self) -> u8 {
        self.0
    }

    fn from_bits_retain(bits: u8) -> AttentionFlags {
        AttentionFlags(bits)
    }
}

/// The flag of an attention.
pub(crate) fn flag(attention: Attention) -> AttentionFlags
    ensures { result.0 ≡ 2 ^ place_of (code_of attention) }
{
    match attention {
        Attention::PowerOn => AttentionFlags::POWER_ON,
        Attention::ReservationsPreempted => AttentionFlags::RESERVATIONS_PREEMPTED,
        Attention::ReservationsReleased => AttentionFlags::RESERVATIONS_RELEASED,
        Attention::RegistrationsPreempted => AttentionFlags::REGISTRATIONS_PREEMPTED,
    }
}
