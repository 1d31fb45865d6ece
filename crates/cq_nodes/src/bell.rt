//! A bell, by which others tell a node that something may have come for it.
use std::sync::Wait;
use std::sync::atomic::AtomicU64;
use std::sync::atomic::Ordering::SeqCst;
use std::time::Duration;

/// Nobody rang since the node last heard it.
const QUIET: u64 = 0;

/// Somebody rang.
const RANG: u64 = 1;

/// Nobody rang, and the node sleeps.
const ASLEEP: u64 = 2;

/// The longest sleep, in microseconds.
const SLEEP: u64 = 250;

/// One node hears it, and all others may ring it. Who puts something for the node rings behind the put, and the node hears
/// before it looks at its links; so what was put before a ring that it hears is there. No contract says anything of it,
/// and nothing rests on it but speed: a sleep ends by itself.
#[derive(Drop)]
pub(crate) struct Bell {
    word: AtomicU64,
}

impl Bell {
    /// A bell that nobody rang.
    pub(crate) fn new() -> Bell {
        Bell {
            word: AtomicU64::new(QUIET),
        }
    }

    /// Rings, and wakes the node where it sleeps. It never waits: O(1).
    pub(crate) fn ring(&self) {
        if self.word.load(SeqCst) != RANG && self.word.swap(RANG, SeqCst) == ASLEEP {
            self.word.wake_one();
        }
    }

    /// The node has heard all rings so far. It never waits: O(1).
    pub(crate) fn hear(&self) {
        if self.word.load(SeqCst) != QUIET {
            self.word.swap(QUIET, SeqCst);
        }
    }

    /// Whether somebody rang since the node last heard it. It never waits: O(1).
    pub(crate) fn has_rung(&self) -> bool {
        self.word.load(SeqCst) == RANG
    }

    /// Sleeps until somebody rings, or up to 250 microseconds, and has heard all rings so far. It answers whether nobody
    /// rang.
    pub(crate) fn sleep<R: Wait>(&self, rt: &R) -> bool {
        if self
            .word
            .compare_exchange(QUIET, ASLEEP, SeqCst, SeqCst)
            .is_err()
        {
            return false;
        }
        self.word
            .park_timeout(rt, ASLEEP as u32, Duration::from_micros(SLEEP));
        self.word.swap(QUIET, SeqCst) == ASLEEP
    }
}
