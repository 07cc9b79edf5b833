// Whether a read of a socket can be left out.
use std::alloc::{AllocError, Global};
use std::sync::Arc;
use std::sync::atomic::{AtomicU64, Ordering};

// There may be something to read.
const READY: u64 = 0;

// All that had come was read, and nothing has come since, as far as the bell knows.
const EMPTY: u64 = 1;

// The other end sends no more. No event tells when that is read, so that each read is made.
const OVER: u64 = 2;

/// What a link and its bell know of their socket. Of two reads, one is made in any case: a link is read to its end by who
/// never waits for it too.
#[derive(Drop)]
pub struct Lull {
    state: Arc<AtomicU64>,
}

impl Lull {
    pub fn new(alloc: Global) -> Result<Lull, AllocError> {
        let state = Arc::new(alloc, AtomicU64::new(READY))?;
        Ok(Lull { state })
    }

    pub fn share(&self) -> Result<Lull, AllocError> {
        let state = Arc::try_clone(&self.state)?;
        Ok(Lull { state })
    }

    fn turn(&self, from: u64, to: u64) -> bool {
        self.state
            .compare_exchange(from, to, Ordering::SeqCst, Ordering::SeqCst)
            .is_ok()
    }

    /// Whether the next read can be left out.
    pub fn skips(&self) -> bool {
        self.turn(EMPTY, READY)
    }

    /// The socket is about to be read to its end.
    pub fn begin(&self) {
        self.turn(READY, EMPTY);
    }

    /// There may be something to read.
    pub fn end(&self) {
        self.turn(EMPTY, READY);
    }

    /// The other end sends no more.
    pub fn close(&self) {
        self.state.store(OVER, Ordering::SeqCst);
    }
}
