// What threads wait on for a link, outside of every lock.
use std::sync::atomic::{AtomicU64, Ordering};
use std::sync::{Arc, Wait};

/// Rings where the other end of a link sends something or goes, and where a thread rings it. Threads share it.
pub trait Bell {
    /// How often it has rung. A thread looks here before it reads the link, and waits only where nothing was there.
    fn rings(&self) -> u64;

    /// Wakes all that wait.
    fn ring(&self);

    /// Waits until it has rung since it stood at `seen`. It may return earlier.
    fn wait<R: Wait>(&self, rt: &R, seen: u64);

    /// Waits as `wait` does, but leaves the link to threads that wait or make calls, and then looks again a little later.
    fn watch<R: Wait>(&self, rt: &R, seen: u64);

    /// A thread makes a call that may need no wait. True where it is to read the link too, since one that gave way in
    /// `watch` doesn't.
    fn called(&self) -> bool;
}

/// The bell of a link in memory.
#[derive(Drop)]
pub struct MemBell {
    rings: Arc<AtomicU64>,
}

impl MemBell {
    pub fn new(rings: Arc<AtomicU64>) -> MemBell {
        MemBell { rings }
    }
}

impl Bell for MemBell {
    fn rings(&self) -> u64 {
        self.rings.load(Ordering::SeqCst)
    }

    fn ring(&self) {
        self.rings.fetch_add(1, Ordering::SeqCst);
        self.rings.wake_all();
    }

    fn wait<R: Wait>(&self, rt: &R, seen: u64) {
        self.rings.park(rt, (seen % (1 << 32)) as u32);
    }

    fn watch<R: Wait>(&self, rt: &R, seen: u64) {
        self.wait(rt, seen);
    }

    fn called(&self) -> bool {
        false
    }
}

/// The bell at the other end, which rings where this end sends and where it goes.
pub struct Knocker {
    rings: Arc<AtomicU64>,
}

impl Knocker {
    pub fn new(rings: Arc<AtomicU64>) -> Knocker {
        Knocker { rings }
    }

    pub fn knock(&self) {
        self.rings.fetch_add(1, Ordering::SeqCst);
        self.rings.wake_all();
    }
}

impl Drop for Knocker {
    fn drop(self) {
        self.knock();
        let Knocker { rings } = self;
        drop(rings);
    }
}
