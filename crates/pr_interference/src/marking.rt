//! What a change makes of the attentions that are pending for an owner.

ghost use Rattle.std.specs.Prelude.{◌≡◌, ◌<◌, bit_or};
ghost use Rattle.pr_sets.specs.BitSets.{has};
ghost use Rattle.pr_regions.specs.Regions.{mark as mark_of};
ghost use Rattle.pr_regions.specs.Images.{IsImage};
ghost use Rattle.pr_interference.specs.inside.Marks.{first, AreTold};

use pr_attention::{
    REGISTRATIONS_PREEMPTED_BIT, RESERVATIONS_PREEMPTED_BIT, RESERVATIONS_RELEASED_BIT,
};
use pr_regions::Transition;
use pr_sets::BitSet;
use pr_views::{ATTENTION_SETS, MOST_REGISTRATIONS};

/// What becomes of the attentions pending for an owner that has one of these registrations.
pub(crate) fn attentions_after(owners: BitSet, pending: BitSet, change: &Transition) -> BitSet
    ensures { AreTold change.now owners pending result }
{
    let marks = marks(owners, change);
    let mut told = BitSet::none();
    for mark in 0..ATTENTION_SETS {
        if marks.has(mark) {
            told = told.or(attentions_with(pending, mark));
        }
    }
    told
}

// The bits of what hosts with these registrations are told.
fn marks(owners: BitSet, change: &Transition) -> BitSet
    ensures image { IsImage (first MOST_REGISTRATIONS owners) (mark_of change.now) (has result) }
{
    let mut marks = BitSet::none();
    for registration in 0..MOST_REGISTRATIONS {
        if owners.has(registration) {
            marks = marks.with(mark(registration, change));
        }
    }
    marks
}

fn mark(registration: u8, change: &Transition) -> u8
    requires { registration < MOST_REGISTRATIONS }
    ensures mark { result ≡ mark_of change.now registration }
    ensures few { result < ATTENTION_SETS }
{
    let preempted = if change.told_03.has(registration) {
        RESERVATIONS_PREEMPTED_BIT
    } else {
        0
    };
    let released = if change.told_04.has(registration) {
        RESERVATIONS_RELEASED_BIT
    } else {
        0
    };
    let removed = if change.told_05.has(registration) {
        REGISTRATIONS_PREEMPTED_BIT
    } else {
        0
    };
    preempted + (released + removed)
}

/// The attentions with these bits besides.
pub(crate) fn attentions_with(pending: BitSet, mark: u8) -> BitSet
    requires { mark < ATTENTION_SETS }
    ensures { IsImage (first ATTENTION_SETS pending) (λ q. bit_or q mark) (has result) }
{
    let mut marked = BitSet::none();
    for attentions in 0..ATTENTION_SETS {
        if pending.has(attentions) {
            marked = marked.with(attentions | mark);
        }
    }
    marked
}
