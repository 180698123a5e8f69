//! What a change makes of the registrations of some states.

ghost use Rattle.std.specs.Prelude.{◌≤◌, ℕ, unwrap_or};
ghost use Rattle.pr_roles.specs.declared.limits.TheConstants.{MOST_KEYS};
ghost use Rattle.pr_sets.specs.BitSets.{has};
ghost use Rattle.pr_views.specs.Portions.{has_at};
ghost use Rattle.pr_regions.specs.Images.{IsImage, registration_left, becomes};

use crate::region::Transition;
use pr_cdb::codes::MOST_NEXUSES;
use pr_sets::BitSet;

/// What becomes of the registrations of each nexus by a change of the sender's.
pub fn registrations_after(
    words: &[BitSet; MOST_NEXUSES],
    sender: u8,
    change: &Transition,
) -> [BitSet; MOST_NEXUSES]
    requires { unwrap_or change.now.sender 0 ≤ MOST_KEYS }
    ensures { (g : ℕ) → IsImage (has_at words.now g) (becomes sender change.now g)
        (has_at result g) }
{
    let mut after = *words;
    let from = usize::from(sender);
    for host in 0..MOST_NEXUSES {
        after[host] = if host == from {
            with_given(words[host], change.sender)
        } else {
            without_removed(words[host], change.removed)
        };
    }
    after
}

// The sender's registrations after the change.
fn with_given(word: BitSet, to: Option<u8>) -> BitSet
    requires { unwrap_or to 0 ≤ MOST_KEYS }
    ensures { IsImage (has word) (λ r. unwrap_or to r) (has result) }
{
    match to {
        Some(registration) if !word.is_empty() => BitSet::only(registration),
        _ => word,
    }
}

// Another's: none in the place of those that are removed.
fn without_removed(word: BitSet, removed: BitSet) -> BitSet
    ensures { IsImage (has word) (registration_left removed) (has result) }
{
    if word.and(removed).is_empty() {
        word
    } else {
        word.except(removed).with(0)
    }
}
