//! Lists of branches.

ghost use Rattle.std.specs.Prelude.{◌≡◌, ℕ, [], ◌∷◌, None, Option};
ghost use Rattle.pr_registry.specs.declared.held.Held.{Held};
ghost use Rattle.pr_regions.specs.Purposes.{Purpose};
ghost use Rattle.pr_regions.specs.declared.purpose.Standing.{Standing};
ghost use Rattle.pr_regions.specs.inside.Parts.{any, Leaves, AlwaysEnds, Tell};

use crate::region::{Branch, Ending, Region};
use crate::words::every_registration;
use arrayvec::ArrayVec;

impl Region {
    // The region of all states.
    pub(crate) fn whole() -> Region
        ensures { Leaves result any any None }
    {
        Region {
            holder: every_registration(),
            others: every_registration(),
            somebody: None,
        }
    }
}

impl Default for Branch {
    fn default() -> Branch {
        Branch {
            region: Region::whole(),
            ending: Ending::Conflict,
        }
    }
}

// A single branch.
fn one(branch: Branch) -> ArrayVec<Branch, 3>
    ensures { result.items ≡ branch ∷ [] }
{
    let mut branches = ArrayVec::new();
    branches.push(branch);
    branches
}

// Two branches.
pub(crate) fn two(first: Branch, second: Branch) -> ArrayVec<Branch, 3>
    ensures { result.items ≡ first ∷ second ∷ [] }
{
    let mut branches = one(first);
    branches.push(second);
    branches
}

// Three branches.
pub(crate) fn three(first: Branch, second: Branch, third: Branch) -> ArrayVec<Branch, 3>
    ensures { result.items ≡ first ∷ second ∷ third ∷ [] }
{
    let mut branches = two(first, second);
    branches.push(third);
    branches
}

// The same ending in all states.
pub(crate) fn ending_everywhere(ending: Ending) -> ArrayVec<Branch, 3>
    ensures { (hosts : ℕ) (purpose : Purpose) (held : Option Held) (sender : ℕ)
        (standing : Standing) → AlwaysEnds hosts purpose held sender standing ending
        → Tell hosts purpose held sender standing result.items }
{
    one(Branch {
        region: Region::whole(),
        ending,
    })
}
