//! Which run over threads a lock and its seats are of.

use std::marker::Brand;
use std::sync::ledger::Ledger;

/// The name of a run, as a type, so that a seat of one run can't be used with the lock of another. It names the ledger that counts
/// the run's entries, and says of each nexus, by its number, whether it is a guest. Contracts alone see it: a function over a round
/// is called with [`Brand`], and that call picks it.
pub trait Round: Ledger {
    ghost use Rattle.std.specs.Prelude.{Bool, List};

    ghost guests: { List Bool };
}

impl Round for Brand {
    ghost use Rattle.std.specs.Prelude.{[]};

    ghost guests = { [] };
}
