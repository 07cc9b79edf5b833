// What the volumes tell each other while some of them make a call, and the turns that the others take.
ghost use Rattle.ec_lock.specs.PassViews.{IsPassOf};
ghost use Rattle.ec_mounts.specs.Parts.{TookTurns};

use ec_clerknode::{Node, SharedClerk};
use ec_link::Link;
use ec_lock::Pass;
use ec_log::Asked;
use ec_protocol::Flushed;
use std::sync::Wait;
use std::sync::atomic::{AtomicU64, Ordering};
use std::time::{Clock, Duration};

// At most so many calls are begun at the same time.
const MOST_CALLS: usize = 64;

/// How many calls are to be made at the same time, and how many of them were begun and have ended.
#[derive(Drop)]
pub struct Beside {
    calls: u64,
    begun: AtomicU64,
    ended: AtomicU64,
}

impl Beside {
    /// So many calls are to be made.
    pub fn new(calls: u64) -> Beside {
        Beside {
            calls,
            begun: AtomicU64::new(0),
            ended: AtomicU64::new(0),
        }
    }

    /// A call was begun.
    pub fn begin(&self) {
        self.begun.fetch_add(1, Ordering::SeqCst);
        self.begun.wake_all();
    }

    /// A call has ended.
    pub fn end(&self) {
        self.ended.fetch_add(1, Ordering::SeqCst);
    }

    /// Whether all calls have ended.
    pub fn is_over(&self) -> bool {
        self.ended.load(Ordering::SeqCst) >= self.calls
    }

    /// Waits until all calls were begun, each for a second at most: where no thread can be started, the volumes come one
    /// after another.
    pub fn are_begun<R: Wait>(&self, rt: &R) -> bool {
        for _ in 0..MOST_CALLS {
            let begun = self.begun.load(Ordering::SeqCst);
            if begun >= self.calls {
                return true;
            }
            let seen = (begun % (1 << 32)) as u32;
            self.begun.park_timeout(rt, seen, Duration::from_secs(1));
            if self.begun.load(Ordering::SeqCst) == begun {
                return false;
            }
        }
        false
    }
}

/// Takes turns until all calls have ended, up to the first fault: recalls are answered, and what is undurable is flushed.
pub fn take_turns<L: Link, R: Wait + Clock>(
    rt: &R,
    clerk: &SharedClerk<L>,
    pass: &mut Pass<Node<L>>,
    beside: &Beside,
)
    requires { IsPassOf clerk.now.lock pass.old }
    ensures { TookTurns clerk.now.lock pass.old pass.new }
{
    for _ in rt.forever() {
        let seen = clerk.bell().rings(rt);
        if beside.is_over() {
            return;
        }
        match clerk.flush_turn(rt, pass, Asked::All) {
            Ok(Flushed::Sent(_)) => {}
            Ok(_) => clerk.bell().watch(rt, seen),
            Err(_) => return,
        }
    }
    unreachable!()
}
