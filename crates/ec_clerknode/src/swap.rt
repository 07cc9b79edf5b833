// The bell of the link that a shared clerk has now.
use ec_base::NoMemory;
use ec_link::Bell;
use std::alloc::Global;
use std::mem;
use std::sync::{Arc, Mutex, Wait};

/// Where a bell stood.
#[derive(Clone, Copy, Drop)]
pub struct Seen {
    links: u64,
    rings: u64,
}

#[derive(Drop)]
struct Now<B: Bell + Drop> {
    // How often it was exchanged.
    links: u64,
    bell: Arc<B>,
}

/// The bell of a link, which is exchanged with it. Nobody waits under its lock.
#[derive(Drop)]
pub struct Swap<B: Bell + Drop> {
    now: Mutex<Now<B>>,
}

impl<B: Bell + Drop> Swap<B> {
    /// The bell of the first link. The error is want of memory.
    pub fn new(alloc: Global, bell: B) -> Result<Swap<B>, NoMemory> {
        let bell = Arc::new(alloc, bell)?;
        Ok(Swap {
            now: Mutex::new(Now { links: 0, bell }),
        })
    }

    /// How often it has rung, and which bell it is.
    pub fn rings<R: Wait>(&self, rt: &R) -> Seen {
        let now = self.now.lock(rt);
        Seen {
            links: now.links,
            rings: now.bell.rings(),
        }
    }

    /// Wakes all that wait.
    pub fn ring<R: Wait>(&self, rt: &R) {
        let now = self.now.lock(rt);
        now.bell.ring();
    }

    /// A thread makes a call that may need no wait, as of a bell.
    pub fn called<R: Wait>(&self, rt: &R) -> bool {
        let now = self.now.lock(rt);
        now.bell.called()
    }

    // The bell, unless it was exchanged since it stood at `seen`.
    fn same<R: Wait>(&self, rt: &R, seen: Seen) -> Option<Arc<B>> {
        let now = self.now.lock(rt);
        if now.links == seen.links {
            Arc::try_clone(&now.bell).ok()
        } else {
            None
        }
    }

    /// Waits as a bell does. Where it was exchanged since it stood at `seen`, it returns at once.
    pub fn wait<R: Wait>(&self, rt: &R, seen: Seen) {
        if let Some(bell) = self.same(rt, seen) {
            bell.wait(rt, seen.rings);
        }
    }

    /// Waits as `watch` of a bell does.
    pub fn watch<R: Wait>(&self, rt: &R, seen: Seen) {
        if let Some(bell) = self.same(rt, seen) {
            bell.watch(rt, seen.rings);
        }
    }

    /// Another bell. Who waits on the one before looks again.
    pub fn exchange<R: Wait>(&self, rt: &R, bell: Arc<B>) {
        let old = self.put(rt, bell);
        old.ring();
    }

    fn put<R: Wait>(&self, rt: &R, bell: Arc<B>) -> Arc<B> {
        let mut now = self.now.lock(rt);
        now.links = now.links.wrapping_add(1);
        mem::replace(&mut now.bell, bell)
    }
}
