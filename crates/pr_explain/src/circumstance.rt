//! What may be so when a host sends.

use pr_attention::{Attention, Pending};
use pr_registry::Held;
use pr_unit::Unit;
use pr_views::is_among;

/// Of one thing what may be so when a host sends.
#[derive(Clone, Copy, Debug, PartialEq, Eq)]
pub enum Circumstance {
    /// The nexus has this key, or none.
    Key { nexus: u8, key: Option<u64> },
    /// This is reserved, or nothing.
    Reserved(Option<Held>),
    /// These attentions are pending for the host, with a bit for each, or nothing.
    Pending(u8),
}

impl Circumstance {
    /// Whether it is so of the unit when this host sends.
    pub(crate) fn is_so(self, unit: &Unit, host: u8) -> bool {
        let registry = unit.registry();
        match self {
            Circumstance::Key { nexus, key } => nexus < registry.hosts()
                && registry.key(nexus) == key,
            Circumstance::Reserved(held) => registry.held() == held,
            Circumstance::Pending(attentions) => {
                host < registry.hosts() && are_pending(unit.pending(host), attentions)
            }
        }
    }
}

// Whether just these are pending.
fn are_pending(pending: &Pending, attentions: u8) -> bool {
    Attention::ALL
        .iter()
        .all(|code| pending.has(*code) == is_among(*code, attentions))
}
