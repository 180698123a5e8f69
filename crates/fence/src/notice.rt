//! Says at a terminal that a command still works, since a search may take minutes.

use crate::source::Source;
use pr_witness::USUAL_BOUNDS;
use std::alloc::Global;
use std::io::IsTerminal;
use std::sync::Arc;
use std::sync::atomic::{AtomicBool, Ordering};
use std::thread;
use std::thread::Threads;
use std::time::Duration;

// As long a command may take before it says so.
const PATIENCE_SECONDS: u64 = 2;

const BYTES_PER_MEGABYTE: usize = 1_000_000;

/// What a command holds while it works. Where it still does after two seconds, a thread says so once, on standard error.
#[derive(Drop)]
pub struct Notice {
    is_over: Option<Arc<AtomicBool, Global>>,
}

impl Notice {
    /// Of the command that reads this text. Nothing is said where standard error is no terminal, or where the text is typed at one;
    /// or where there is no memory or no thread for it. The thread is not joined: it ends with the program.
    pub fn begin<T: Threads>(rt: &HostRuntime, threads: &T, text: &Source) -> Self {
        if !rt.stderr().is_terminal() || text.is_typed() {
            return Notice { is_over: None };
        }
        Notice {
            is_over: watched(rt, threads),
        }
    }

    /// Nothing is said any more.
    pub fn end(&self) {
        if let Some(is_over) = &self.is_over {
            is_over.store(true, Ordering::SeqCst);
        }
    }
}

// Starts the thread, and hands on what tells it that the command is over.
fn watched<T: Threads>(rt: &HostRuntime, threads: &T) -> Option<Arc<AtomicBool, Global>> {
    let is_over = Arc::new(rt.alloc(), AtomicBool::new(false)).ok()?;
    let seen = Arc::try_clone(&is_over).ok()?;
    let rt = *rt;
    let started = thread::spawn(threads, move || {
        thread::sleep(&rt, Duration::from_secs(PATIENCE_SECONDS));
        if !seen.load(Ordering::SeqCst) {
            tell(&rt);
        }
    });
    started.ok()?;
    Some(is_over)
}

fn tell(rt: &HostRuntime) {
    let _ = rt.eprintln(format_args!(
        "fence: still at work: a search ends at {} states, or at {} MB of memory",
        USUAL_BOUNDS.worlds,
        USUAL_BOUNDS.memory / BYTES_PER_MEGABYTE
    ));
}
