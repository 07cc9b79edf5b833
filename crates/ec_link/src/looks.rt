// When threads that make calls are to read the link.
use std::sync::atomic::{AtomicBool, AtomicU64, Ordering};

// One of so many calls reads the link.
const CALLS: u64 = 8;

// What comes next often comes soon, so that these calls behind what came read it too.
const FIRST: u64 = 3;

const SECOND: u64 = 5;

/// The calls of all threads that share a link.
#[derive(Drop)]
pub struct Looks {
    // So many calls were made since the bell stood at these rings.
    calls: AtomicU64,
    rings: AtomicU64,
    // Whether there were any since it was asked last.
    are_new: AtomicBool,
}

impl Looks {
    pub fn new() -> Looks {
        Looks {
            calls: AtomicU64::new(0),
            rings: AtomicU64::new(0),
            are_new: AtomicBool::new(false),
        }
    }

    /// A call is made, and the bell has rung so often. True where the link is to be read beside it.
    pub fn called(&self, rings: u64) -> bool {
        if !self.are_new.load(Ordering::SeqCst) {
            self.are_new.store(true, Ordering::SeqCst);
        }
        if self.rings.load(Ordering::SeqCst) != rings {
            self.rings.store(rings, Ordering::SeqCst);
            self.calls.store(0, Ordering::SeqCst);
        }
        let calls = self.calls.fetch_add(1, Ordering::SeqCst).saturating_add(1);
        calls == FIRST || calls == SECOND || calls % CALLS == 0
    }

    /// Whether calls were made since this was asked last.
    pub fn are_new(&self) -> bool {
        self.are_new.swap(false, Ordering::SeqCst)
    }
}
