//! Sets as sorted lists.
//!
//! No command of the program uses them. They are a second kind of `ViewSet`, so that vectors and benches can compare the two.

ghost use Rattle.std.specs.Prelude.{◌≡◌, ◌+◌, ◌<◌, ◌≤◌, vec_len};
ghost use Rattle.std.specs.List.Sorted.{IsStrictlyIncreasing};
ghost use Rattle.std.specs.FinSet as set;
ghost use Rattle.std.specs.Vec.{vec_capacity};
ghost use Rattle.pr_sets.specs.Numbers.{most, AllBelow};
ghost use Rattle.pr_sets.specs.Kept.{numbers_in};

use crate::view_set::ViewSet;
use crate::wide::Wide;
use std::alloc::{AllocError, Global};

/// A set that keeps its members as a sorted list, for comparison. It takes memory as it grows.
#[derive(Debug, Drop)]
pub struct ListSet {
    numbers: Vec<u8>,
    size: u8,
    ghost few: { size ≤ most },
    ghost sorted: { IsStrictlyIncreasing numbers.items },
    ghost below: { AllBelow size (numbers_in numbers.items) },
}

impl ListSet {
    // Puts a number in its place, where there is room for it.
    fn put(&mut self, n: u8)
        requires below { n < self.old.size }
        requires room { vec_len self.old.numbers < vec_capacity self.old.numbers }
        ensures size { self.new.size ≡ self.old.size }
        ensures members { numbers_in self.new.numbers.items
            ≡ set.insert (numbers_in self.old.numbers.items) n }
        ensures len { vec_len self.new.numbers ≤ vec_len self.old.numbers + 1 }
        ensures capacity { vec_capacity self.new.numbers ≡ vec_capacity self.old.numbers }
    {
        if let Err(at) = self.numbers.binary_search(&n) {
            // There is room, so this is not refused.
            self.numbers.insert(at, n).unwrap();
        }
    }
}

impl ViewSet for ListSet {
    ghost members = { λ s. numbers_in s.numbers.items };

    ghost room = { λ s. s.size };

    fn none(alloc: Global, size: u8) -> Self {
        ListSet {
            numbers: Vec::new(alloc),
            size,
        }
    }

    fn of_wide(alloc: Global, size: u8, word: Wide) -> Result<Self, AllocError> {
        let mut list = ListSet::none(alloc, size);
        for n in 0..size {
            if word.has(n) {
                list.add(n)?;
            }
        }
        Ok(list)
    }

    fn size(&self) -> u8 {
        self.size
    }

    fn add(&mut self, n: u8) -> Result<(), AllocError> {
        self.numbers.reserve(1)?;
        self.put(n);
        Ok(())
    }

    fn has(&self, n: u8) -> bool {
        self.numbers.binary_search(&n).is_ok()
    }

    fn join(&mut self, other: &Self) -> Result<(), AllocError> {
        // Room for all comes first, so that no refusal leaves some of them added.
        self.numbers.reserve(other.numbers.len())?;
        for n in &other.numbers {
            self.put(*n);
        }
        Ok(())
    }

    fn within(&self, other: &Self) -> bool {
        self.numbers.iter().all(|n| other.has(*n))
    }

    fn is_empty(&self) -> bool {
        self.numbers.is_empty()
    }

    fn next(&self, from: u8) -> Option<u8> {
        let at = self.numbers.partition_point(|n| *n < from);
        self.numbers.get(at).copied()
    }

    fn wide(&self) -> Wide {
        let mut word = Wide::none();
        for n in 0..self.size {
            if self.has(n) {
                word = word.with(n);
            }
        }
        word
    }

    ghost below = { λ s. s.below };

    ghost few = { λ s. s.few };
}
