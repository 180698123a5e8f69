//! Sets of small numbers, by which views say what is possible.
//!
//! [`ViewSet`] is what a view asks of such a set. [`WordSet`] keeps it in one word and takes no memory; [`ListSet`]
//! keeps it as a sorted list, for comparison.
#![tactic(auto)]

mod bit_set;
mod laws;
mod list_set;
mod view_set;
mod wide;
mod word_set;

pub use bit_set::{BIT_SET_SIZE, BitSet};
pub use laws::{
    bounds_agree, empty_is_the_least, inclusion_is_an_order, insert_adds_one,
    union_is_the_least_above, union_keeps_what_has_it,
};
pub use list_set::ListSet;
pub use view_set::{MOST, ViewSet};
pub use wide::Wide;
pub use word_set::WordSet;
