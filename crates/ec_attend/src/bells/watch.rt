// Since when clerks have had no link.
use crate::bells::telling::tell_wait;
use ec_base::{CLERK_COUNT, ClerkId, NoMemory};
use std::alloc::Global;
use std::io::Eprint;
use std::time::{Clock, Duration, Instant};

// A clerk has so many seconds to link again. A mount that has lost its link tries for longer than that, so it comes back within them where
// it can reach the server; and whoever waits for what a clerk holds that is gone goes on within a time that people wait.
const LONGEST: u64 = 20;

// Since when a clerk with an open session has had no link, and whether that was said.
#[derive(Clone, Copy, Drop)]
struct Lone {
    since: Instant,
    is_told: bool,
}

impl Lone {
    // Whether the clerk's time is over. Where the clock fails it isn't.
    fn is_late<R: Clock>(self, rt: &R) -> bool {
        match self.since.elapsed(rt) {
            Ok(time) => time >= Duration::from_secs(LONGEST),
            Err(_) => false,
        }
    }
}

/// What is known of each clerk.
#[derive(Drop)]
pub struct Watch {
    lone: Vec<Option<Lone>>,
}

impl Watch {
    /// No clerk has a link yet. The error is want of memory.
    pub fn new<R: Clock>(rt: &R, alloc: Global) -> Result<Watch, NoMemory> {
        let lone = match Instant::now(rt) {
            Ok(since) => Some(Lone {
                since,
                is_told: false,
            }),
            Err(_) => None,
        };
        let mut watch = Watch {
            lone: Vec::with_capacity(alloc, CLERK_COUNT as usize)?,
        };
        for _ in 0..CLERK_COUNT {
            watch.lone.push(lone)?;
        }
        Ok(watch)
    }

    /// The clerk has a link, or no session.
    pub fn is_well(&mut self, clerk: ClerkId) {
        self.note(clerk, None);
    }

    fn note(&mut self, clerk: ClerkId, lone: Option<Lone>) {
        if let Some(place) = self.lone.get_mut(clerk.get() as usize) {
            *place = lone;
        }
    }

    /// The clerk has a session and no link. True where its time is over.
    pub fn is_late<R: Clock + Eprint>(&mut self, rt: &R, clerk: ClerkId) -> bool {
        let lone = match self.lone.get(clerk.get() as usize) {
            Some(Some(lone)) => *lone,
            _ => match Instant::now(rt) {
                Ok(since) => Lone {
                    since,
                    is_told: false,
                },
                Err(_) => return false,
            },
        };
        if !lone.is_told {
            tell_wait(rt, clerk, LONGEST);
        }
        self.note(
            clerk,
            Some(Lone {
                since: lone.since,
                is_told: true,
            }),
        );
        lone.is_late(rt)
    }
}
