//! The judgement on a scenario: by outlines of its scripts, and where that is asked for by a search besides.

ghost use Rattle.std.specs.Prelude.{◌≡◌, IfErr, IfOk};
ghost use Rattle.pr_roles.specs.Scenarios.{scenario_of};
ghost use Rattle.pr_verify.specs.Verdicts.{IsFirstReason};
ghost use Rattle.pr_commands.specs.declared.fault.Fault.TheVariants.{Memory};
ghost use Rattle.pr_commands.specs.inside.Judgements.{IsSettled, IsVerified, Stands, scenario_in, verified_in};

use crate::fault::Fault;
use pr_roles::fewer_premises_are_no_safer;
use pr_verify::{Refusal, Refused, Verified};
use pr_witness::{USUAL_BOUNDS, safe_without_premises};
use std::alloc::Global;

/// How a scenario may be found safe.
#[derive(Clone, Copy, Debug, PartialEq, Eq)]
pub enum Method {
    /// By sound outlines of its scripts that fit.
    Outlines,

    /// By those, or else by a search through all worlds that can come up where somebody else sends on each path, and the disk may
    /// report an attention before it looks at the reservation.
    Search,
}

/// A scenario that is safe, and in how many worlds a search saw that nothing breaks, where it is so by a search.
#[derive(Drop)]
pub(crate) struct Acceptance {
    pub(crate) verified: Verified,
    pub(crate) worlds: Option<usize>,
}

/// What a verification comes to, by this method. That memory was refused is a fault, and no refusal of a script.
pub(crate) fn judged(
    alloc: Global,
    method: Method,
    judgement: Result<Verified, Refused>,
) -> Result<Result<Acceptance, Refused>, Fault>
    requires { IsVerified judgement }
    ensures same { IfOk result (λ judged. scenario_in judged ≡ verified_in judgement) }
    ensures stands { IfOk result (Stands method) }
    ensures memory { IfErr result (λ fault. fault ≡ Memory) }
{
    match settled(judgement)? {
        Ok(verified) => Ok(Ok(Acceptance {
            verified,
            worlds: None,
        })),
        Err(refused) => match method {
            Method::Outlines => Ok(Err(refused)),
            Method::Search => searched(alloc, refused),
        },
    }
}

/// The same by outlines alone.
#[tactic(auto, using(crate::proofs::lemmas::Checks::Reasons::first_reason))]
pub(crate) fn settled(
    judgement: Result<Verified, Refused>,
) -> Result<Result<Verified, Refused>, Fault>
    requires { IsVerified judgement }
    ensures same { IfOk result (λ settled. settled ≡ judgement) }
    ensures stands { IfOk result IsSettled }
    ensures memory { IfErr result (λ fault. fault ≡ Memory) }
{
    match judgement {
        Err(
            Refused {
                refusal: Refusal::Memory,
                ..
            },
        ) => Err(Fault::Memory),
        judgement => Ok(judgement),
    }
}

// Searches what outlines refuse: it is safe all the same, or stays refused.
fn searched(alloc: Global, refused: Refused) -> Result<Result<Acceptance, Refused>, Fault>
    requires { IsFirstReason (scenario_of refused.scenario) refused.refusal }
    ensures same { IfOk result (λ judged. scenario_in judged ≡ refused.scenario) }
    ensures stands { IfOk result (Stands Method.Search) }
    ensures memory { IfErr result (λ fault. fault ≡ Memory) }
{
    match safe_without_premises(alloc, &refused.scenario, USUAL_BOUNDS)? {
        Some(worlds) => {
            fewer_premises_are_no_safer();
            Ok(Ok(Acceptance {
                verified: Verified::of(refused.scenario),
                worlds: Some(worlds),
            }))
        }
        None => Ok(Err(refused)),
    }
}
