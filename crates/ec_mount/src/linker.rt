// Who calls again where a link failed, beside the calls.
ghost use Rattle.std.specs.Prelude.{◌≡◌, ◌≤◌, ◌+◌, ℕ, Some, IfOk, IfSome, OnOk};
ghost use Rattle.ec_lock.specs.PassViews.{first, IsPassOf};
ghost use Rattle.ec_link.specs.NetAnswers.{IsEmpty};
ghost use Rattle.ec_mount.specs.Linking.{Linked, LinkedMore};

use crate::lending::Lending;
use crate::telling::{Who, tell_again, tell_gone, tell_over};
use ec_base::NoMemory;
use ec_clerknode::{Node, SharedClerk};
use ec_link::{Around, Link};
use ec_lock::Pass;
use std::io::Eprint;
use std::sync::Wait;
use std::sync::atomic::{AtomicBool, AtomicU64, Ordering};
use std::thread;
use std::time::{Clock, Duration, Instant};

// It's called again for so many seconds since the last link ended.
const LONGEST: u64 = 30;

// The first and the longest pause between two calls, in milliseconds.
const FIRST_PAUSE: u64 = 10;

const LAST_PAUSE: u64 = 1000;

// Behind a link that was up for so many seconds the pauses begin anew.
const STEADY: u64 = 1;

/// What who links again and the calls tell each other.
#[derive(Drop)]
pub struct Beside {
    // 1 where who links again is there, so that calls may begin.
    is_there: AtomicU64,
    is_over: AtomicBool,
}

impl Beside {
    /// Nobody is there yet.
    pub fn new() -> Beside {
        Beside {
            is_there: AtomicU64::new(0),
            is_over: AtomicBool::new(false),
        }
    }

    // Who links again is there.
    fn begin(&self) {
        self.is_there.store(1, Ordering::SeqCst);
        self.is_there.wake_all();
    }

    /// Waits until who links again is there, for a second at most: where no thread could be started, a link that fails is a
    /// fault of the calls.
    pub fn wait_for_linker<R: Wait>(&self, rt: &R) {
        if self.is_there.load(Ordering::SeqCst) == 0 {
            self.is_there.park_timeout(rt, 0, Duration::from_secs(1));
        }
    }

    /// All calls have ended.
    pub fn end(&self) {
        self.is_over.store(true, Ordering::SeqCst);
    }

    fn is_over(&self) -> bool {
        self.is_over.load(Ordering::SeqCst)
    }
}

/// When the last link ended, when the present one came, and the next pause.
#[derive(Drop)]
pub struct Linking {
    gone: Option<Instant>,
    up: Option<Instant>,
    rest: u64,
}

impl Linking {
    // A link came now.
    fn came_now<R: Clock>(rt: &R) -> Linking {
        Linking {
            gone: None,
            up: Instant::now(rt).ok(),
            rest: 0,
        }
    }

    /// A link ended now.
    pub fn ended_now<R: Clock>(rt: &R) -> Linking {
        Linking {
            gone: Instant::now(rt).ok(),
            up: None,
            rest: 0,
        }
    }

    // The link has ended, if one was up. The time goes on from the link before where the server said nothing by this one, and it
    // was up for a moment alone: whoever takes links and drops them is no server.
    fn ended<R: Clock>(&mut self, rt: &R, was_mute: bool) -> bool {
        let Some(up) = self.up.take() else {
            return false;
        };
        let is_steady = match up.elapsed(rt) {
            Ok(time) => time >= Duration::from_secs(STEADY),
            Err(_) => false,
        };
        if is_steady {
            self.rest = 0;
        }
        if is_steady || !was_mute || self.gone.is_none() {
            self.gone = Instant::now(rt).ok();
        }
        true
    }

    // Whether no link came for too long, or no time is told.
    fn is_over<R: Clock>(&self, rt: &R) -> bool {
        let Some(gone) = &self.gone else {
            return true;
        };
        match gone.elapsed(rt) {
            Ok(time) => time >= Duration::from_secs(LONGEST),
            Err(_) => true,
        }
    }

    // Waits between two calls, longer each time.
    fn pause<R: Clock>(&mut self, rt: &R) {
        if self.rest > 0 {
            thread::sleep(rt, Duration::from_millis(self.rest));
        }
        self.rest = self.rest.saturating_mul(2).clamp(FIRST_PAUSE, LAST_PAUSE);
    }

    /// Waits for the next call. False where no link came for too long.
    pub fn may_call<R: Clock>(&mut self, rt: &R) -> bool {
        self.pause(rt);
        !self.is_over(rt)
    }

    // Calls until there is a link, or all has ended, or for too long.
    fn call_until<M: Lending, R: Around>(
        &mut self,
        rt: &R,
        net: &mut M,
        who: &Who<'_>,
        beside: &Beside,
    ) -> Option<M::Link>
        ensures later { M.faults net.old ≤ M.faults net.new }
        ensures name { M.name net.new ≡ M.name net.old }
        ensures same { (M.bad net.new ≡ M.bad net.old) × (M.ended net.new ≡ M.ended net.old) }
        ensures link { IfSome result (λ link. IsEmpty (M.Link.given link) × IsEmpty (M.Link.got link)) }
    {
        for _ in rt.forever() {
            let may_call = self.may_call(rt);
            if beside.is_over() || !may_call {
                return None;
            }
            if let Ok(link) = net.call(rt, who.addr) {
                return Some(link);
            }
        }
        unreachable!()
    }
}

// Hands the link to the clerk, and gives the one before back to the net. False where the link is none.
fn hand_in<M: Lending, R: Around>(
    rt: &R,
    clerk: &SharedClerk<M::Link>,
    pass: &mut Pass<Node<M::Link>>,
    net: &mut M,
    link: M::Link,
) -> Result<bool, NoMemory>
    requires pass { IsPassOf clerk.now.lock pass.old }
    requires new { IsEmpty (M.Link.given link) × IsEmpty (M.Link.got link) }
    ensures later { M.faults net.old ≤ M.faults net.new }
    ensures name { M.name net.new ≡ M.name net.old }
    ensures linked { Linked clerk.now.lock pass.old pass.new }
    ensures more { OnOk result (LinkedMore (λ l. M.Link.faults l + M.Link.closes l) M.Link.given M.Link.got (first clerk.now.lock) pass.old pass.new
        (record { faults = M.faults net.old; bad = M.bad net.old; ended = M.ended net.old })
        (record { faults = M.faults net.new; bad = M.bad net.new; ended = M.ended net.new })) }
{
    let mut link = link;
    let Ok(bell) = link.bell(rt) else {
        drop(link);
        return Ok(false);
    };
    match clerk.relink(rt, pass, link, bell) {
        Ok(old) => {
            net.back(old)?;
            Ok(true)
        }
        Err(_) => Ok(false),
    }
}

// Links again until all has ended, or for so long that no call waits any more.
fn keep_linked<M: Lending, R: Around + Eprint>(
    rt: &R,
    who: &Who<'_>,
    clerk: &SharedClerk<M::Link>,
    pass: &mut Pass<Node<M::Link>>,
    net: &mut M,
    beside: &Beside,
) -> Result<(), NoMemory>
    requires { IsPassOf clerk.now.lock pass.old }
    ensures later { M.faults net.old ≤ M.faults net.new }
    ensures name { M.name net.new ≡ M.name net.old }
    ensures linked { Linked clerk.now.lock pass.old pass.new }
    ensures more { OnOk result (LinkedMore (λ l. M.Link.faults l + M.Link.closes l) M.Link.given M.Link.got (first clerk.now.lock) pass.old pass.new
        (record { faults = M.faults net.old; bad = M.bad net.old; ended = M.ended net.old })
        (record { faults = M.faults net.new; bad = M.bad net.new; ended = M.ended net.new })) }
{
    let mut linking = Linking::came_now(rt);
    for _ in rt.forever() {
        let is_down = clerk.wait_down(rt, Duration::from_secs(1));
        if beside.is_over() {
            return Ok(());
        }
        if !is_down {
            continue;
        }
        if linking.ended(rt, clerk.was_mute()) {
            tell_gone(rt, who);
        }
        let Some(link) = linking.call_until(rt, net, who, beside) else {
            tell_over(rt, who, beside.is_over());
            return Ok(());
        };
        if hand_in(rt, clerk, pass, net, link)? {
            linking.up = Instant::now(rt).ok();
            tell_again(rt, who);
        }
    }
    unreachable!()
}

/// Calls the address again where the link is down, until all has ended, or for too long. Meanwhile a link that fails is no
/// fault of a call. Each link that another one came for goes back to the net.
pub fn link_again<M: Lending, R: Around + Eprint>(
    rt: &R,
    who: &Who<'_>,
    clerk: &SharedClerk<M::Link>,
    pass: &mut Pass<Node<M::Link>>,
    net: &mut M,
    beside: &Beside,
) -> Result<(), NoMemory>
    requires { IsPassOf clerk.now.lock pass.old }
    ensures later { M.faults net.old ≤ M.faults net.new }
    ensures name { M.name net.new ≡ M.name net.old }
    ensures linked { Linked clerk.now.lock pass.old pass.new }
    ensures more { OnOk result (LinkedMore (λ l. M.Link.faults l + M.Link.closes l) M.Link.given M.Link.got (first clerk.now.lock) pass.old pass.new
        (record { faults = M.faults net.old; bad = M.bad net.old; ended = M.ended net.old })
        (record { faults = M.faults net.new; bad = M.bad net.new; ended = M.ended net.new })) }
{
    clerk.lasts(rt, pass, true);
    beside.begin();
    let result = keep_linked(rt, who, clerk, pass, net, beside);
    clerk.lasts(rt, pass, false);
    result
}
