// How long a link that leaves waits for the other end.
use std::time::{Clock, Duration, Instant};

// At most so many seconds.
const LONGEST: u64 = 1;

/// A link leaves since then.
#[derive(Drop)]
pub struct Leaving {
    start: Instant,
}

impl Leaving {
    pub fn begin<R: Clock>(rt: &R) -> Option<Leaving> {
        let start = Instant::now(rt).ok()?;
        Some(Leaving { start })
    }

    /// The time that is left. There is none where the time is over or isn't told.
    pub fn left<R: Clock>(&self, rt: &R) -> Option<Duration> {
        let gone = self.start.elapsed(rt).ok()?;
        let left = Duration::from_secs(LONGEST).checked_sub(gone)?;
        if left.is_zero() { None } else { Some(left) }
    }
}
