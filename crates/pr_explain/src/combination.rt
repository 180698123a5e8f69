//! Which items of a list are meant.

use std::alloc::{AllocError, Global};

/// Some items of a list of at most 32: a bit for each, the first lowest.
#[derive(Clone, Copy, PartialEq, Eq)]
pub(crate) struct Combination {
    bits: u32,
}

impl Combination {
    /// No item.
    pub(crate) const NONE: Combination = Combination { bits: 0 };

    /// Adds the item at this place.
    pub(crate) fn add(&mut self, place: usize) {
        if place < 32 {
            self.bits |= 1 << place;
        }
    }

    /// Whether one of the others has all of it.
    pub(crate) fn is_within_one(self, others: &[Combination]) -> bool {
        others.iter().any(|other| self.bits & !other.bits == 0)
    }

    /// Of the combinations of so many items that are within none of the others, one that has as few of the dear items as can be,
    /// and of those one with the fewest items.
    pub(crate) fn least_beyond(
        others: &[Combination],
        count: usize,
        dear: Combination,
    ) -> Option<Combination> {
        let end = 1u32.checked_shl(u32::try_from(count).ok()?)?;
        let mut least = None;
        let mut price = u32::MAX;
        for bits in 0..end {
            let beyond = Combination { bits };
            if beyond.price(dear) < price && !beyond.is_within_one(others) {
                least = Some(beyond);
                price = beyond.price(dear);
            }
        }
        least
    }

    // A dear item costs more than all others together.
    fn price(self, dear: Combination) -> u32 {
        let dear = (self.bits & dear.bits).count_ones();
        dear.saturating_mul(32)
            .saturating_add(self.bits.count_ones())
    }

    /// The items that are meant.
    pub(crate) fn chosen<T: Copy + Drop>(
        self,
        alloc: Global,
        items: &[T],
    ) -> Result<Vec<T>, AllocError> {
        let mut chosen = Vec::new(alloc);
        let mut left = self.bits;
        for item in items {
            if left & 1 == 1 {
                chosen.push(*item)?;
            }
            left >>= 1;
        }
        Ok(chosen)
    }
}
