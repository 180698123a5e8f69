//! Which possibilities are new beside others.

ghost use Rattle.std.specs.Prelude.{◌≡◌, ◌≤◌, ℕ, true, false, IsTrue};
ghost use Rattle.pr_cdb.specs.declared.codes.TheConstants.{MOST_NEXUSES};
ghost use Rattle.pr_sets.specs.BitSets.{has};
ghost use Rattle.pr_sets.specs.Wides.{has_wide};
ghost use Rattle.pr_views.specs.Possibilities.{Scope};
ghost use Rattle.pr_regions.specs.Keeping.{IsNew, IsWithinOf};

use pr_sets::{BitSet, Wide};
use pr_views::Possibilities;

/// Whether the new possibilities have one that the old ones are without.
pub fn gains(hosts: u8, old: &Possibilities, new: &Possibilities) -> bool
    requires { hosts ≤ MOST_NEXUSES }
    ensures gained { IsTrue result → (s : Scope) → s.hosts ≡ hosts → IsNew s old.now new.now }
    ensures none { result ≡ false → IsWithinOf hosts new.now old.now }
{
    for host in 0..usize::from(hosts) {
        if exceeds(new.registrations[host], old.registrations[host]) {
            return true;
        }
    }
    exceeds_wide(new.reservations, old.reservations) || exceeds(new.pending, old.pending)
}

// Whether the one set has a number that the other has not.
fn exceeds(new: BitSet, old: BitSet) -> bool
    ensures gained { IsTrue result → (n : ℕ) × (has new n ≡ true) × (has old n ≡ false) }
    ensures none { result ≡ false → (n : ℕ) → has new n ≡ true → has old n ≡ true }
{
    !new.except(old).is_empty()
}

// The same of wide sets.
fn exceeds_wide(new: Wide, old: Wide) -> bool
    ensures gained { IsTrue result → (n : ℕ) × (has_wide new n ≡ true) × (has_wide old n ≡ false) }
    ensures none { result ≡ false → (n : ℕ) → has_wide new n ≡ true → has_wide old n ≡ true }
{
    !new.except(old).is_empty()
}
