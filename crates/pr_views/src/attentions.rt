//! The attentions that are pending for the owner of a view, as numbers with a bit for each code.

ghost use Rattle.std.specs.Prelude.{◌≡◌, ◌<◌};
ghost use Rattle.std.specs.FinSet as set;
ghost use Rattle.pr_attention.specs.Attentions.{code_of};
ghost use Rattle.pr_attention.specs.Flagged.{codes_of};

use crate::view::ATTENTION_SETS;
use pr_attention::{Attention, Pending};

/// Whether it is in the set with this number.
pub fn is_among(attention: Attention, attentions: u8) -> bool
    ensures { result ≡ set.contains (codes_of attentions) (code_of attention) }
{
    Pending::of_bits(attentions).has(attention)
}

/// The number of the set with this number, without this one.
pub fn without(attentions: u8, attention: Attention) -> u8
    ensures few { result < ATTENTION_SETS }
    ensures codes { codes_of result ≡ set.remove (codes_of attentions) (code_of attention) }
{
    let mut left = Pending::of_bits(attentions);
    left.remove(attention);
    left.bits()
}
