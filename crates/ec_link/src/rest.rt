// Frames that rest on a link before the socket gets them.
ghost use Rattle.std.specs.Prelude.{◌≡◌, ◌==◌, [], length, IfOk};

use std::alloc::{AllocError, Global};
use std::sync::Arc;
use std::sync::atomic::{AtomicU64, Ordering};
use std::time::{Clock, Duration, Instant};

// At most so many frames rest.
const MOST_RESTING: usize = 64;

// A frame that rests, since when, and for how many milliseconds.
#[derive(Drop)]
struct Resting {
    since: Instant,
    rest: u64,
    bytes: Vec<u8>,
}

impl Resting {
    // So many milliseconds are left, of which a begun one counts. None is where nobody tells the time.
    fn left(&self, now: Option<Instant>) -> u64 {
        let Some(now) = now else {
            return 0;
        };
        let gone = now.duration_since(self.since).as_millis();
        self.rest
            .saturating_sub(u64::try_from(gone).unwrap_or(u64::MAX))
    }
}

/// The frames that rest on a link, as it got them.
#[derive(Drop)]
pub struct Rests {
    frames: Vec<Resting>,
    alarm: Alarm,
}

impl Rests {
    pub fn new(alloc: Global) -> Result<Rests, AllocError>
        ensures { IfOk result (λ rests. rests.frames.items ≡ []) }
    {
        let alarm = Alarm::new(alloc)?;
        Ok(Rests {
            frames: Vec::new(alloc),
            alarm,
        })
    }

    pub fn is_empty(&self) -> bool
        ensures { result ≡ (length self.now.frames.items == 0) }
    {
        self.frames.is_empty()
    }

    /// Whether no further one may rest.
    pub fn is_full(&self) -> bool {
        self.frames.len() >= MOST_RESTING
    }

    /// What the bell is to know of them.
    pub fn alarm(&self) -> Result<Alarm, AllocError> {
        self.alarm.share()
    }

    /// One more, for so many milliseconds from now on.
    pub fn add(&mut self, now: Instant, bytes: Vec<u8>, rest: u64) -> Result<(), AllocError> {
        self.frames.push(Resting {
            since: now,
            rest,
            bytes,
        })?;
        self.set_alarm(Some(now));
        Ok(())
    }

    /// Puts those that have rested behind `unsent`, in their order.
    pub fn wake<R: Clock>(&mut self, rt: &R, unsent: &mut Vec<u8>) -> Result<(), AllocError> {
        if self.frames.is_empty() {
            return Ok(());
        }
        let now = Instant::now(rt).ok();
        let mut at = 0;
        'frames: while at < self.frames.len() {
            if self.frames[at].left(now) > 0 {
                at += 1;
            } else {
                unsent.extend_from_slice(&self.frames[at].bytes)?;
                self.frames.remove(at);
            }
        }
        self.set_alarm(now);
        Ok(())
    }

    // Tells the bell when the next one is to go.
    fn set_alarm(&self, now: Option<Instant>) {
        let mut soonest = 0;
        for one in &self.frames {
            let left = one.left(now).max(1);
            if soonest == 0 || left < soonest {
                soonest = left;
            }
        }
        self.alarm.set(soonest);
    }
}

/// In so many milliseconds a frame is to go; 0 where none rests.
#[derive(Drop)]
pub struct Alarm {
    millis: Arc<AtomicU64>,
}

impl Alarm {
    pub fn new(alloc: Global) -> Result<Alarm, AllocError> {
        let millis = Arc::new(alloc, AtomicU64::new(0))?;
        Ok(Alarm { millis })
    }

    fn share(&self) -> Result<Alarm, AllocError> {
        let millis = Arc::try_clone(&self.millis)?;
        Ok(Alarm { millis })
    }

    fn set(&self, millis: u64) {
        self.millis.store(millis, Ordering::SeqCst);
    }

    /// Who waits for the socket waits no longer than this, and than until then.
    pub fn no_later(&self, longest: Duration) -> Duration {
        match self.millis.load(Ordering::SeqCst) {
            0 => longest,
            millis => longest.min(Duration::from_millis(millis)),
        }
    }
}
