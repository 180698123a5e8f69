//! A unit that goes along a run.

use pr_roles::{Condition, Item};
use pr_unit::Unit;

/// The unit goes past an item of the run. One that it can't have answered so, as BUSY, leaves it as it is.
pub(crate) fn go_past(unit: &mut Unit, item: &Item) {
    match item {
        Item::Sent(entry) => {
            if entry.host < unit.registry().hosts() {
                let _ = unit.follow(entry.host, &entry.wire, &entry.reply);
            }
        }
        Item::Reset => unit.reset(),
    }
}

/// Whether the condition holds of the nexus now.
pub(crate) fn is_met(condition: Condition, unit: &Unit, host: u8) -> bool {
    let registry = unit.registry();
    if host >= registry.hosts() {
        return false;
    }
    match condition {
        Condition::Registered => registry.is_registered(host),
        Condition::Holder => registry.is_holder(host),
        Condition::Reserved => registry.held().is_some(),
    }
}
