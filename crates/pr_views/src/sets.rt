//! Sets of possibilities, and the words that have the same members.

ghost use Rattle.std.specs.Prelude.{◌≡◌, ◌<◌, ◌≤◌, ◌↔◌, ℕ, true, false, length, slice_index_or, IsTrue, IfOk};
ghost use Rattle.std.specs.List.{All};
ghost use Rattle.std.specs.FinSet as set;
ghost use Rattle.pr_sets.specs.Numbers.{most};
ghost use Rattle.pr_sets.specs.BitSets.{has, bit_set_size};
ghost use Rattle.pr_views.specs.Portions.{contains_at, has_at};

use pr_cdb::codes::MOST_NEXUSES;
use pr_sets::{BitSet, ViewSet, Wide};
use std::alloc::{AllocError, Global};
use std::array;

/// Empty sets of numbers below a size, one for each nexus that there may be.
pub(crate) fn empty_sets<S: ViewSet>(alloc: Global, size: u8) -> [S; MOST_NEXUSES]
    requires { size ≤ most }
    ensures room { All (λ s. S.room s ≡ size) result }
    ensures members { (g n : ℕ) → contains_at S.members result g n ≡ false }
{
    array::from_fn(
        |_| -> S
            requires { size ≤ most }
            ensures room { S.room result ≡ size }
            ensures members { S.members result ≡ set.empty }
        { S::none(alloc, size) },
    )
}

/// The set of a word's numbers, which are below the size.
pub(crate) fn set_of<S: ViewSet>(alloc: Global, size: u8, word: BitSet) -> Result<S, AllocError>
    requires few { size ≤ bit_set_size }
    requires below { (n : ℕ) → has word n ≡ true → n < size }
    ensures room { IfOk result (λ s. S.room s ≡ size) }
    ensures members { IfOk result (λ s. (n : ℕ) → set.contains (S.members s) n ≡ has word n) }
{
    S::of_wide(alloc, size, Wide::of(word))
}

/// Sets of numbers below a size, one for each nexus that there may be: those of the first words, and empty ones.
pub(crate) fn sets_of<S: ViewSet>(
    alloc: Global,
    size: u8,
    count: u8,
    words: &[BitSet; MOST_NEXUSES],
) -> Result<[S; MOST_NEXUSES], AllocError>
    requires few { size ≤ bit_set_size }
    requires count { count ≤ MOST_NEXUSES }
    requires below { (g n : ℕ) → g < count → has_at words.now g n ≡ true → n < size }
    ensures room { IfOk result (All (λ s. S.room s ≡ size)) }
    ensures members { IfOk result (λ sets. (g n : ℕ) → g < count
        → contains_at S.members sets g n ≡ has_at words.now g n) }
    ensures past { IfOk result (λ sets. (g n : ℕ) → count ≤ g
        → contains_at S.members sets g n ≡ false) }
{
    let mut sets = empty_sets(alloc, size);
    for host in 0..count {
        let place = usize::from(host);
        sets[place] = set_of(alloc, size, words[place])?;
    }
    Ok(sets)
}

/// The members of a set as a word.
pub(crate) fn word_of<S: ViewSet>(numbers: &S) -> BitSet
    requires { S.room numbers.now ≤ bit_set_size }
    ensures { (n : ℕ) → has result n ≡ set.contains (S.members numbers.now) n }
{
    numbers.wide().few()
}

/// The members of the first sets as words. The others are empty.
pub(crate) fn words_of<S: ViewSet>(sets: &[S; MOST_NEXUSES], count: u8) -> [BitSet; MOST_NEXUSES]
    requires count { count ≤ MOST_NEXUSES }
    requires small { All (λ s. S.room s ≤ bit_set_size) sets.now }
    ensures there { (g n : ℕ) → g < count → has_at result g n ≡ contains_at S.members sets.now g n }
    ensures past { (g n : ℕ) → count ≤ g → has_at result g n ≡ false }
{
    let mut words = [BitSet::none(); MOST_NEXUSES];
    for host in 0..count {
        let place = usize::from(host);
        words[place] = word_of(&sets[place]);
    }
    words
}

/// Whether each of the first sets is within the other of its place.
pub(crate) fn are_within<S: ViewSet>(
    sets: &[S; MOST_NEXUSES],
    others: &[S; MOST_NEXUSES],
    count: u8,
) -> bool
    requires count { count ≤ MOST_NEXUSES }
    requires alike { (k : ℕ) (d : S) → k < length sets.now → k < length others.now
        → S.room (slice_index_or others.now k d) ≡ S.room (slice_index_or sets.now k d) }
    ensures { IsTrue result ↔ ((g n : ℕ) → g < count → contains_at S.members sets.now g n ≡ true
        → contains_at S.members others.now g n ≡ true) }
{
    for host in 0..count {
        let place = usize::from(host);
        if !sets[place].within(&others[place]) {
            return false;
        }
    }
    true
}

/// Whether each of the first sets is empty.
pub(crate) fn are_empty<S: ViewSet>(sets: &[S; MOST_NEXUSES], count: u8) -> bool
    requires { count ≤ MOST_NEXUSES }
    ensures { IsTrue result ↔ ((g n : ℕ) → g < count → contains_at S.members sets.now g n ≡ false) }
{
    for host in 0..count {
        if !sets[usize::from(host)].is_empty() {
            return false;
        }
    }
    true
}
