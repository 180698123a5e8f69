//! How the threads of a run come to take their turns among one another.

use crate::gate::Gate;
use pr_world::{How, Turn};
use std::sync::atomic::{AtomicU64, Ordering};
use std::thread;

/// How often a thread looks whether all others have started, before it goes on without them.
const LOOKS_AT_START: u64 = 20_000;

/// How often at most it looks, before a later turn, whether another one has taken one.
const MOST_LOOKS: u64 = 64;

/// Lets the threads of a run take their turns among one another, and calls the gate of the run's caller.
///
/// A whole script takes less time than the start of a thread, and who waits for the lock wakes later than its holder
/// comes again. So by themselves the scripts would run one after another. Here all threads start together, and one that
/// has taken a turn may leave the next to another one: it goes on at once, or looks so often, as is drawn, for
/// another's turn. Nothing that is proved speaks of any order, and no thread waits for ever.
#[derive(Drop)]
pub(crate) struct Mixing<'a, G: Gate> {
    gate: &'a G,
    progress: Progress,
}

impl<'a, G: Gate> Mixing<'a, G> {
    /// For so many threads.
    pub(crate) fn new(gate: &'a G, threads: usize) -> Self {
        Mixing {
            gate,
            progress: Progress::new(threads),
        }
    }
}

impl<'a, G: Gate> Gate for Mixing<'a, G> {
    fn before(&self, host: u8, n: u32) {
        if n == 1 {
            self.progress.start_together();
        } else {
            self.progress.leave_to_another();
        }
        self.gate.before(host, n);
    }

    fn how(&self, host: u8, n: u32) -> How {
        self.gate.how(host, n)
    }

    fn resets(&self, host: u8, n: u32) -> bool {
        self.gate.resets(host, n)
    }

    fn after(&self, host: u8, n: u32, turn: &Turn) {
        self.gate.after(host, n, turn);
        self.progress.count(turn);
    }
}

/// How far the threads of a run have come.
#[derive(Drop)]
struct Progress {
    threads: u64,
    started: AtomicU64,
    ended: AtomicU64,
    turns: AtomicU64,
    // What the next draw is made of: how long each thread looked at its start differs from run to run.
    drawn: AtomicU64,
}

impl Progress {
    fn new(threads: usize) -> Self {
        Progress {
            threads: threads as u64,
            started: AtomicU64::new(0),
            ended: AtomicU64::new(0),
            turns: AtomicU64::new(0),
            drawn: AtomicU64::new(0),
        }
    }

    fn start_together(&self) {
        self.started.fetch_add(1, Ordering::SeqCst);
        for looks in 0..LOOKS_AT_START {
            if self.started.load(Ordering::SeqCst) >= self.threads {
                self.drawn.fetch_add(mixed(looks), Ordering::SeqCst);
                break;
            }
            thread::yield_now();
        }
    }

    // Half of all turns follow at once, and so do those of the last thread.
    fn leave_to_another(&self) {
        let word = mixed(self.drawn.fetch_add(STEP, Ordering::SeqCst));
        if word & 1 == 0 || self.ended.load(Ordering::SeqCst).wrapping_add(1) >= self.threads {
            return;
        }
        let turns = self.turns.load(Ordering::SeqCst);
        for _ in 0..(word >> 8) % MOST_LOOKS {
            if self.turns.load(Ordering::SeqCst) != turns {
                break;
            }
            thread::yield_now();
        }
    }

    fn count(&self, turn: &Turn) {
        self.turns.fetch_add(1, Ordering::SeqCst);
        if let Turn::Stopped(_) = turn {
            self.ended.fetch_add(1, Ordering::SeqCst);
        }
    }
}

// What SplitMix64 adds before each number.
const STEP: u64 = 0x9e37_79b9_7f4a_7c15;

// A number that looks drawn, as SplitMix64 makes it.
fn mixed(word: u64) -> u64 {
    let word = word.wrapping_add(STEP);
    let word = (word ^ word >> 30).wrapping_mul(0xbf58_476d_1ce4_e5b9);
    let word = (word ^ word >> 27).wrapping_mul(0x94d0_49bb_1331_11eb);
    word ^ word >> 31
}
