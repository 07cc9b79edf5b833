// Links that are exchanged.
ghost use Rattle.std.specs.Prelude.{◌≡◌, ℕ, ◌+◌, ◌<◌, true, false, Some, IfOk, IfErr};
ghost use Rattle.ec_base.specs.Limits.{last_counter};
ghost use Rattle.ec_link.specs.NetAnswers.{IsEmpty};
ghost use Rattle.ec_lock.specs.PassViews.{first, front, IsPassOf};
ghost use Rattle.ec_lock.specs.Steps.{of};
ghost use Rattle.ec_clerknode.specs.declared.fault.NodeFault.TheVariants as fault;
ghost use Rattle.ec_clerknode.specs.Closed.{Links};
ghost use Rattle.ec_clerknode.specs.NodeSteps.{Keeps};
ghost use Rattle.ec_clerknode.specs.Turns.{number_of};
ghost use Rattle.ec_clerknode.specs.PassTurns.{Turned, Relinked};

use crate::clerk;
use crate::fault::NodeFault;
use crate::shared::SharedClerk;
use crate::state::{Node, State};
use crate::step::Deed;
use ec_base::LAST_COUNTER;
use ec_link::Link;
use ec_lock::Pass;
use std::alloc::Global;
use std::mem;
use std::sync::atomic::Ordering;
use std::sync::{Arc, Wait};
use std::time::{Clock, Duration};

// Bits of the word that who links again sleeps on: the link is down, it's to look whether all has ended, and the server never
// answered the greeting by the link that is down.
const DOWN: u64 = 1;

const OVER: u64 = 2;

const MUTE: u64 = 4;

impl<L: Link> State<L> {
    // Whether this pass may exchange the link now.
    fn may_relink(&self, pass: u64) -> bool
        ensures { result ≡ true → (self.now.broken ≡ false) × (self.now.steps < last_counter) × (self.now.linker ≡ Some pass) }
    {
        match self.linker {
            Some(linker) => linker == pass && !self.broken && self.steps < LAST_COUNTER,
            None => false,
        }
    }

    fn set_lasts(&mut self, lasts: bool)
        ensures { self.new ≡ record self.old { lasts = lasts } }
    {
        self.lasts = lasts;
    }
}

impl<L: Link + Drop> State<L> {
    // Exchanges the link for a new one, by which the clerk greets. The one before comes back.
    fn relink<R: Wait + Clock>(
        &mut self,
        rt: &R,
        alloc: Global,
        pass: u64,
        link: L,
    ) -> Result<L, NodeFault>
        requires { IsEmpty (L.given link) × IsEmpty (L.got link) }
        ensures keeps { Keeps (λ l. L.faults l + L.closes l) L.given L.got self.old self.new }
        ensures ok { IfOk result (λ old. Links pass self.old self.new old) }
        ensures err { IfErr result (λ f. (f ≡ fault.NoMemory) × (self.new ≡ self.old)) }
    {
        if !self.may_relink(pass) {
            drop(link);
            return Err(NodeFault::NoMemory);
        }
        let Ok(outs) = clerk::greet(&self.clerk) else {
            drop(link);
            return Err(NodeFault::NoMemory);
        };
        let old = mem::replace(&mut self.link, link);
        self.is_down = false;
        self.owes = true;
        self.add_step(rt, alloc, pass, Deed::Linked, outs);
        Ok(old)
    }
}

impl<L: Link> SharedClerk<L> {
    /// Waits until the link is down, or `wake_linker` wakes it, but no longer than so. Whether it's down.
    pub fn wait_down<R: Wait>(&self, rt: &R, longest: Duration) -> bool {
        if self.down.load(Ordering::SeqCst) == 0 {
            self.down.park_timeout(rt, 0, longest);
        }
        self.down.load(Ordering::SeqCst) % 2 == DOWN
    }

    /// Wakes who waits until the link is down, from now on.
    pub fn wake_linker(&self) {
        self.down.fetch_or(OVER, Ordering::SeqCst);
        self.down.wake_all();
    }

    /// Whether the server never answered the greeting by the link that is down. Of the first link it isn't told.
    pub fn was_mute(&self) -> bool {
        self.down.load(Ordering::SeqCst) >= MUTE
    }

    /// The link is down, and was mute or not.
    pub(crate) fn tell_down(&self, is_mute: bool) {
        let bits = if is_mute { DOWN + MUTE } else { DOWN };
        if self.down.fetch_or(bits, Ordering::SeqCst) % 2 == 0 {
            self.down.wake_all();
        }
    }

    /// From now on another link comes where one fails, or none comes any more. Where one comes, a link that fails is no fault of
    /// a call: what waits goes on waiting.
    pub fn lasts<R: Wait>(&self, rt: &R, pass: &mut Pass<Node<L>>, lasts: bool)
        requires { IsPassOf self.now.lock pass.old }
        ensures turned { Turned self.now.lock pass.old pass.new }
        ensures same { of number_of pass.old.number (front pass.new) ≡ of number_of pass.old.number (front pass.old) }
    {
        let mut turn = self.lock.enter(rt, pass);
        let node = &mut turn.value;
        let state = &mut node.state;
        state.set_lasts(lasts);
        self.end(rt, turn, pass, true);
    }
}

impl<L: Link + Drop> SharedClerk<L> {
    // Exchanges the link with its bell.
    fn exchange<R: Wait + Clock>(
        &self,
        rt: &R,
        state: &mut State<L>,
        pass: u64,
        link: L,
        bell: L::Bell,
    ) -> Result<L, NodeFault>
        requires { IsEmpty (L.given link) × IsEmpty (L.got link) }
        ensures keeps { Keeps (λ l. L.faults l + L.closes l) L.given L.got state.old state.new }
        ensures ok { IfOk result (λ old. Links pass state.old state.new old) }
        ensures err { IfErr result (λ f. (f ≡ fault.NoMemory) × (state.new ≡ state.old)) }
    {
        let Ok(bell) = Arc::new(self.alloc, bell) else {
            drop(link);
            return Err(NodeFault::NoMemory);
        };
        let old = state.relink(rt, self.alloc, pass, link)?;
        self.down.fetch_and(OVER, Ordering::SeqCst);
        self.bell.exchange(rt, bell);
        Ok(old)
    }

    /// A new link, for one that is down. The clerk greets by it, and the one before comes back. The link must have given and
    /// got nothing yet. Where memory is wanting, and where the pass isn't the one that exchanges links, the new link is dropped.
    pub fn relink<R: Wait + Clock>(
        &self,
        rt: &R,
        pass: &mut Pass<Node<L>>,
        link: L,
        bell: L::Bell,
    ) -> Result<L, NodeFault>
        requires pass { IsPassOf self.now.lock pass.old }
        requires new { IsEmpty (L.given link) × IsEmpty (L.got link) }
        ensures turned { Turned self.now.lock pass.old pass.new }
        ensures ok { IfOk result (λ old. Relinked (λ l. L.faults l + L.closes l) L.given L.got (first self.now.lock) pass.old.number (front pass.old) (front pass.new) old) }
        ensures err { IfErr result (λ _. of number_of pass.old.number (front pass.new) ≡ of number_of pass.old.number (front pass.old)) }
    {
        let number = pass.number();
        let mut turn = self.lock.enter(rt, pass);
        let node = &mut turn.value;
        let state = &mut node.state;
        let result = self.exchange(rt, state, number, link, bell);
        self.end(rt, turn, pass, true);
        result
    }
}
