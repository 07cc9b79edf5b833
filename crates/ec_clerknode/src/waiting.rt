// When what is outstanding is sent again.
use std::time::{Clock, Instant};

// Where calls have waited for so many seconds, what is outstanding is sent again: of messages that were lost, the other end
// repeats none. Each pause behind it is twice as long, up to the longest.
const FIRST_PAUSE: u64 = 2;

const LAST_PAUSE: u64 = 8;

/// Since when calls wait and none was answered, or since it was sent again.
#[derive(Drop)]
pub struct Waiting {
    since: Option<Instant>,
    pause: u64,
}

impl Waiting {
    /// No call waits yet.
    pub fn new() -> Waiting {
        Waiting {
            since: None,
            pause: FIRST_PAUSE,
        }
    }

    /// A call was answered, or not.
    pub fn note(&mut self, is_answered: bool) {
        if is_answered {
            self.since = None;
            self.pause = FIRST_PAUSE;
        }
    }

    /// A call waits. True where it's time to send again.
    pub fn is_long<R: Clock>(&mut self, rt: &R) -> bool {
        let Ok(now) = Instant::now(rt) else {
            return false;
        };
        let Some(since) = self.since else {
            self.since = Some(now);
            return false;
        };
        if now.duration_since(since).as_secs() < self.pause {
            return false;
        }
        self.since = Some(now);
        self.pause = self.pause.saturating_mul(2).min(LAST_PAUSE);
        true
    }
}
