// How far the lanes are, and for how long they wait for the server.
use crate::telling::{Who, tell_waits};
use ec_clerknode::Gate;
use std::io::Eprint;
use std::sync::atomic::{AtomicBool, AtomicU64, Ordering};
use std::time::{Clock, Instant};

// A wait of so many seconds is told, and again after so many more.
const FIRST: u64 = 1;

const NEXT: u64 = 10;

/// How far the lanes are. They share it with the worker beside them.
#[derive(Drop)]
pub struct Progress<'a> {
    who: &'a Who<'a>,
    // So many calls were begun, and lanes ended.
    calls: AtomicU64,
    is_ended: AtomicBool,
}

impl<'a> Progress<'a> {
    /// No call was begun yet.
    pub fn new(who: &'a Who<'a>) -> Progress<'a> {
        Progress {
            who,
            calls: AtomicU64::new(0),
            is_ended: AtomicBool::new(false),
        }
    }

    /// All lanes have ended.
    pub fn end(&self) {
        self.is_ended.store(true, Ordering::SeqCst);
    }

    /// Whether all lanes have ended.
    pub fn is_ended(&self) -> bool {
        self.is_ended.load(Ordering::SeqCst)
    }
}

// The gate holds nobody.
impl Gate for Progress<'_> {
    fn pass(&self, _lane: u8, _place: u32) {
        self.calls.fetch_add(1, Ordering::SeqCst);
    }
}

/// Since when no call was answered, and when that is to be told.
#[derive(Drop)]
pub struct Waiting {
    calls: u64,
    since: Option<Instant>,
    next: u64,
}

impl Waiting {
    /// Nobody has looked yet.
    pub fn new() -> Waiting {
        Waiting {
            calls: 0,
            since: None,
            next: FIRST,
        }
    }

    /// Looks whether the lanes have gone on, and tells where they have waited long.
    pub fn look<R: Clock + Eprint>(&mut self, rt: &R, progress: &Progress<'_>) {
        let calls = progress.calls.load(Ordering::SeqCst);
        let Some(since) = self.since else {
            self.begin(rt, calls);
            return;
        };
        if calls != self.calls {
            self.begin(rt, calls);
            return;
        }
        let Ok(time) = since.elapsed(rt) else {
            return;
        };
        let seconds = time.as_secs();
        if seconds >= self.next {
            tell_waits(rt, progress.who, seconds);
            self.next = seconds.saturating_add(NEXT);
        }
    }

    fn begin<R: Clock>(&mut self, rt: &R, calls: u64) {
        self.calls = calls;
        self.since = Instant::now(rt).ok();
        self.next = FIRST;
    }
}
