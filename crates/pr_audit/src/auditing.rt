//! Audits: whether what is said to have been sent and answered may have happened.

ghost use Rattle.std.specs.Prelude.{IfOk, IfErr};
ghost use Rattle.pr_roles.specs.Scenarios.{scenario_of};
ghost use Rattle.pr_audit.specs.Audits.{IsLegalFromFirst, Refuses};

use crate::auditor::Auditor;
use pr_roles::{Item, Scenario};
use std::alloc::{AllocError, Global};
use thiserror::Error;

/// Why an audit accepts no history.
#[derive(Clone, Copy, Debug, PartialEq, Eq, Error)]
pub enum AuditError {
    /// The item at this place, counted from 1, is the first that isn't legal.
    #[error("illegal, item {place}")]
    Illegal { place: usize },
    /// Memory ran out.
    #[error("out of memory")]
    Memory,
}

impl From<AllocError> for AuditError {
    ghost from_gives = { λ _ e. e ≡ Memory };

    ghost use Rattle.std.specs.Prelude.{◌≡◌};
    ghost use Rattle.pr_audit.specs.declared.auditing.AuditError.TheVariants.{Memory};

    fn from(_e: AllocError) -> AuditError {
        AuditError::Memory
    }
}

/// Whether this is a legal history of the scenario, from its first start.
///
/// A host's entry is legal where its script is ready to send just these bytes, and a guest's where the bytes
/// are a request that its role permits, or that doesn't end GOOD. The unit may have answered so: where it
/// may choose which attention it reports, any will do. Or the reply is BUSY or TASK SET FULL, no more often than the scenario
/// declares for the nexus. A reset is legal at any place, as often as the scenario declares. Plans and budgets are no part of it.
pub fn audit(alloc: Global, scenario: &Scenario, history: &[Item]) -> Result<(), AuditError>
    ensures legal { IfOk result (λ _. IsLegalFromFirst (scenario_of scenario.now) history.now) }
    ensures illegal { IfErr result (Refuses (scenario_of scenario.now) history.now) }
{
    let mut auditor = Auditor::begin(alloc, scenario)?;
    for (index, item) in history.iter().enumerate() {
        if !auditor.admits(scenario, &history[..index], item) {
            return Err(AuditError::Illegal { place: index + 1 });
        }
    }
    Ok(())
}
