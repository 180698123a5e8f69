//! Sets in one word.

ghost use Rattle.std.specs.Prelude.{◌≡◌, ◌<◌, ◌≤◌, IsOk};
ghost use Rattle.std.specs.FinSet as set;
ghost use Rattle.pr_sets.specs.Numbers.{most, AllBelow};
ghost use Rattle.pr_sets.specs.Kept.{numbers_of_bits};

use crate::view_set::{MOST, ViewSet};
use crate::wide::Wide;
use std::alloc::{AllocError, Global};

/// A set that has a bit of one word for each number. It takes no memory, so that `add` and `join` always answer `Ok`.
#[derive(Debug, Drop)]
pub struct WordSet {
    bits: u128,
    size: u8,
    ghost few: { size ≤ most },
    ghost below: { AllBelow size (numbers_of_bits bits) },
}

impl ViewSet for WordSet {
    ghost members = { λ s. numbers_of_bits s.bits };

    ghost room = { λ s. s.size };

    fn none(_alloc: Global, size: u8) -> Self {
        WordSet { bits: 0, size }
    }

    fn of_wide(_alloc: Global, size: u8, word: Wide) -> Result<Self, AllocError> {
        Ok(WordSet {
            bits: word.bits,
            size,
        })
    }

    fn size(&self) -> u8 {
        self.size
    }

    fn add(&mut self, n: u8) -> Result<(), AllocError>
        requires below { n < self.old.size }
        ensures room { self.new.size ≡ self.old.size }
        ensures ok { IsOk result }
        ensures members { numbers_of_bits self.new.bits
            ≡ set.insert (numbers_of_bits self.old.bits) n }
    {
        self.bits |= 1 << n;
        Ok(())
    }

    fn has(&self, n: u8) -> bool {
        n < MOST && self.bits >> n & 1 == 1
    }

    fn join(&mut self, other: &Self) -> Result<(), AllocError>
        requires alike { other.now.size ≡ self.old.size }
        ensures room { self.new.size ≡ self.old.size }
        ensures ok { IsOk result }
        ensures members { numbers_of_bits self.new.bits
            ≡ set.union (numbers_of_bits self.old.bits) (numbers_of_bits other.now.bits) }
    {
        self.bits |= other.bits;
        Ok(())
    }

    fn within(&self, other: &Self) -> bool {
        self.bits & !other.bits == 0
    }

    fn is_empty(&self) -> bool {
        self.bits == 0
    }

    fn next(&self, from: u8) -> Option<u8> {
        if from >= MOST {
            return None;
        }
        let rest = self.bits >> from;
        if rest == 0 {
            return None;
        }
        Some(from + rest.trailing_zeros() as u8)
    }

    fn wide(&self) -> Wide {
        Wide::of_bits(self.bits)
    }

    ghost below = { λ s. s.below };

    ghost few = { λ s. s.few };
}
