// The clerk that several threads share.
ghost use Rattle.std.specs.Prelude.{◌≡◌, ℕ, ◌+◌, ◌<◌, ◌≤◌, ◌⊎◌, max, List, [], ◌∷◌, ◌++◌, length, Some, None, Err, if◌then◌else◌, IfOk, IfErr, OnOk, IfSome, IfNone, Option};
ghost use mathlib.Core.List.{IsPrefix};
ghost use Rattle.ec_base.specs.Limits.{last_counter};
ghost use Rattle.ec_lock.specs.Passes.{answered};
ghost use Rattle.ec_lock.specs.PassViews.{first, front, numbers, next_number, raised, note_view, HasTurn, IsPassOf, IsNoteOf, Same};
ghost use Rattle.ec_lock.specs.Steps.{Member, of};
ghost use Rattle.ec_clerknode.specs.declared.fault.NodeFault.TheVariants as fault;
ghost use Rattle.ec_clerknode.specs.Closed.{Started, Waited, Works};
ghost use Rattle.ec_clerknode.specs.Floors.{highest_grows};
ghost use Rattle.ec_clerknode.specs.NodeSteps.{Since};
ghost use Rattle.ec_clerknode.specs.Run.{old_boot, told_by, heard_by, AreSaid};
ghost use Rattle.ec_clerknode.specs.RunEnds.{highest, Wanted, Came};
ghost use Rattle.ec_clerknode.specs.Turns.{number_of, SaidBye};
ghost use Rattle.ec_clerknode.specs.PassTurns.{Stays, Turned, Starts, Waits, Called, CalledPlain, Worked, Partings, AsksFlush, FlushTurned, Finished, FinishedAlone};
ghost use Rattle.ec_clerknode.specs.PresentLink.{CameOver, LinksBy};

use crate::fault::NodeFault;
use crate::state::{Closing, Node, State};
use crate::step::Step;
use crate::swap::Swap;
use crate::waiting::Waiting;
use ec_base::trace::Trace;
use ec_base::{Age, Counter, List, OpNo};
use ec_clerk::Clerk;
use ec_history::Answer;
use ec_link::{Bell, Link};
use ec_lock::{Note, Pass, Traced, TracedLock, Turn};
use ec_log::Asked;
use ec_outs::Patience;
use ec_plain::Call;
use ec_protocol::Flushed;
use std::alloc::Global;
use std::sync::Wait;
use std::sync::atomic::AtomicU64;
use std::time::Clock;

impl<L> Node<L> {
    // So many answers are kept.
    fn kept(&self) -> usize {
        self.state.kept.len()
    }
}

impl<L: Link> Traced for Node<L> {
    type Step = Step;

    ghost list = { λ n. n.trace.items };

    ghost number = { λ s. Some s.pass };

    ghost floor = { highest };

    ghost since = { Since (λ l. L.faults l + L.closes l) L.given L.got };

    fn steps(&self) -> u64 {
        self.state.steps
    }

    ghost grows = { highest_grows };
}

/// A clerk and its link behind a lock. A call that waits takes turns at the lock, and between them it waits on the link's
/// bell. In a turn nobody waits for the other end.
#[derive(Drop)]
pub struct SharedClerk<L: Link> {
    pub(crate) lock: TracedLock<Node<L>>,
    pub(crate) bell: Swap<L::Bell>,
    // What who links again sleeps on.
    pub(crate) down: AtomicU64,
    pub(crate) alloc: Global,
}

impl<L: Link> SharedClerk<L> {
    // Ends a turn. The pass raises the mark to the floor of its front, and the others look where there may be something for them.
    pub(crate) fn end<R: Wait>(
        &self,
        rt: &R,
        turn: Turn<Node<L>>,
        pass: &mut Pass<Node<L>>,
        is_news: bool,
    )
        requires turn { HasTurn self.now.lock pass.old turn.next }
        requires later { IsPrefix (front pass.old) turn.value.trace.items }
        requires own { (n : ℕ) → ¬ (n ≡ pass.old.number) → of number_of n (front pass.old) ≡ of number_of n turn.value.trace.items }
        requires since { Since (λ l. L.faults l + L.closes l) L.given L.got (first self.now.lock) turn.value }
        ensures pass { IsPassOf self.now.lock pass.new }
        ensures front { front pass.new ≡ turn.value.trace.items }
        ensures stays { Stays pass.old pass.new }
        ensures raises { highest (front pass.new) ≤ raised pass.new }
    {
        let node = &turn.value;
        let top = node.state.top;
        let is_down = node.state.is_down;
        let is_mute = node.state.owes;
        self.lock.leave(turn, pass);
        self.lock.raise(pass, top);
        if is_down {
            self.tell_down(is_mute);
        }
        if is_news {
            self.bell.ring(rt);
        }
    }

    // The turn in which a call is begun.
    fn start<R: Wait + Clock>(
        &self,
        rt: &R,
        pass: &mut Pass<Node<L>>,
        call: Call,
    ) -> Result<(u64, u64, Option<(Answer, Option<OpNo>)>), NodeFault>
        requires pass { IsPassOf self.now.lock pass.old }
        ensures turned { Turned self.now.lock pass.old pass.new }
        ensures starts { Starts pass.old.number call (front pass.old) (front pass.new) result }
        ensures said { OnOk result (AreSaid (front pass.new)) }
    {
        let number = pass.number();
        let mut turn = self.lock.enter(rt, pass);
        let kept = turn.value.kept();
        let node = &mut turn.value;
        let state = &mut node.state;
        let result = state.start_call(rt, self.alloc, number, call);
        let is_news = result.is_err() || turn.value.kept() > kept;
        self.end(rt, turn, pass, is_news);
        result
    }

    // A further turn of a call that waits.
    fn wait<R: Wait + Clock>(
        &self,
        rt: &R,
        pass: &mut Pass<Node<L>>,
        number: u64,
        place: u64,
    ) -> Result<(bool, Option<(Answer, Option<OpNo>)>), NodeFault>
        requires pass { IsPassOf self.now.lock pass.old }
        ensures turned { Turned self.now.lock pass.old pass.new }
        ensures waits { Waits pass.old.number (front pass.old) (front pass.new) number place result }
        ensures said { OnOk result (AreSaid (front pass.new)) }
    {
        let mine = pass.number();
        let mut turn = self.lock.enter(rt, pass);
        let node = &mut turn.value;
        let state = &mut node.state;
        let result = state.wait_call(rt, self.alloc, mine, number, place);
        let is_news = match &result {
            Ok((heard, _)) => *heard,
            Err(_) => true,
        };
        self.end(rt, turn, pass, is_news);
        result
    }

    // A turn that reads the link and begins nothing. It's true where the link gave something.
    fn listen<R: Wait + Clock>(&self, rt: &R, pass: &mut Pass<Node<L>>) -> Result<bool, NodeFault>
        requires pass { IsPassOf self.now.lock pass.old }
        ensures turned { Turned self.now.lock pass.old pass.new }
        ensures worked { Worked pass.old.number (front pass.old) (front pass.new) result }
        ensures said { OnOk result (AreSaid (front pass.new)) }
    {
        let number = pass.number();
        let mut turn = self.lock.enter(rt, pass);
        let node = &mut turn.value;
        let state = &mut node.state;
        let result = state.read(rt, self.alloc, number);
        let is_news = match &result {
            Ok(heard) => *heard,
            Err(_) => true,
        };
        self.end(rt, turn, pass, is_news);
        result
    }

    // Begins the call and waits for its answer.
    fn make_call<R: Wait + Clock>(
        &self,
        rt: &R,
        pass: &mut Pass<Node<L>>,
        call: Call,
    ) -> Result<(Answer, Option<OpNo>), NodeFault>
        requires pass { IsPassOf self.now.lock pass.old }
        ensures turned { Turned self.now.lock pass.old pass.new }
        ensures called { Called pass.old.number call (front pass.old) (front pass.new) result }
        ensures said { OnOk result (AreSaid (front pass.new)) }
    {
        let (number, place, reply) = self.start(rt, pass, call)?;
        if let Some(reply) = reply {
            return Ok(reply);
        }
        for _ in rt.forever() {
            let seen = self.bell.rings(rt);
            let (heard, reply) = self.wait(rt, pass, number, place)?;
            if let Some(reply) = reply {
                return Ok(reply);
            }
            if !heard {
                self.bell.wait(rt, seen);
            }
        }
        unreachable!()
    }

    // The same behind a turn that reads the link. What that meets is no fault of the call, but a spent counter.
    fn listen_and_call<R: Wait + Clock>(
        &self,
        rt: &R,
        pass: &mut Pass<Node<L>>,
        call: Call,
    ) -> Result<(Answer, Option<OpNo>), NodeFault>
        requires pass { IsPassOf self.now.lock pass.old }
        ensures turned { Turned self.now.lock pass.old pass.new }
        ensures called { Called pass.old.number call (front pass.old) (front pass.new) result }
        ensures said { OnOk result (AreSaid (front pass.new)) }
    {
        let heard = self.listen(rt, pass);
        if let Some(counter) = spent_in(&heard) {
            return Err(NodeFault::Spent(counter));
        }
        self.make_call(rt, pass, call)
    }

    /// Begins the call and waits for its answer, with its operation's number. What is answered at once waits for nobody.
    /// Where the bell asks for it, the link is read first, so that a clerk that answers from its cache all the time hears
    /// of recalls. Faults are `OldBoot` where the server knows a greater age of the clerk, `Net` where the link failed and no
    /// other one will come, `Peer` and `Long` by what the link gave, `Spent` and `NoMemory`.
    pub fn call_op<R: Wait + Clock>(
        &self,
        rt: &R,
        pass: &mut Pass<Node<L>>,
        call: Call,
    ) -> Result<(Answer, Option<OpNo>), NodeFault>
        requires pass { IsPassOf self.now.lock pass.old }
        ensures turned { Turned self.now.lock pass.old pass.new }
        ensures called { Called pass.old.number call (front pass.old) (front pass.new) result }
        ensures said { OnOk result (AreSaid (front pass.new)) }
    {
        if self.bell.called(rt) {
            return self.listen_and_call(rt, pass, call);
        }
        self.make_call(rt, pass, call)
    }

    /// The same without the operation's number, with the same faults.
    pub fn call<R: Wait + Clock>(
        &self,
        rt: &R,
        pass: &mut Pass<Node<L>>,
        call: Call,
    ) -> Result<Answer, NodeFault>
        requires pass { IsPassOf self.now.lock pass.old }
        ensures turned { Turned self.now.lock pass.old pass.new }
        ensures called { CalledPlain pass.old.number call (front pass.old) (front pass.new) result }
        ensures said { OnOk result (AreSaid (front pass.new)) }
    {
        let (answer, _) = self.call_op(rt, pass, call)?;
        Ok(answer)
    }

    // The turn in which a batch is asked for: whether the link gave something, and the answer.
    fn ask<R: Wait + Clock>(
        &self,
        rt: &R,
        pass: &mut Pass<Node<L>>,
        asked: Asked,
    ) -> Result<(bool, Flushed), NodeFault>
        requires pass { IsPassOf self.now.lock pass.old }
        ensures turned { Turned self.now.lock pass.old pass.new }
        ensures asks { AsksFlush (first self.now.lock).clerk pass.old.number asked (front pass.old) (front pass.new) result }
        ensures said { OnOk result (AreSaid (front pass.new)) }
    {
        let number = pass.number();
        let mut turn = self.lock.enter(rt, pass);
        let node = &mut turn.value;
        let state = &mut node.state;
        let result = state.read_and_flush(rt, self.alloc, number, asked);
        let is_news = match &result {
            Ok((heard, _)) => *heard,
            Err(_) => true,
        };
        self.end(rt, turn, pass, is_news);
        result
    }

    /// Asks once for a batch, in a turn that also reads the link. Faults are those of a call.
    pub fn flush_turn<R: Wait + Clock>(
        &self,
        rt: &R,
        pass: &mut Pass<Node<L>>,
        asked: Asked,
    ) -> Result<Flushed, NodeFault>
        requires pass { IsPassOf self.now.lock pass.old }
        ensures turned { Turned self.now.lock pass.old pass.new }
        ensures flushed { FlushTurned (first self.now.lock).clerk pass.old.number asked (front pass.old) (front pass.new) result }
        ensures said { OnOk result (AreSaid (front pass.new)) }
    {
        let (_, flushed) = self.ask(rt, pass, asked)?;
        Ok(flushed)
    }

    // A turn that reads the link, and says goodbye where there is a session. Whether the link gave something, and whether it
    // said goodbye.
    fn part<R: Wait + Clock>(
        &self,
        rt: &R,
        pass: &mut Pass<Node<L>>,
    ) -> Result<(bool, bool), NodeFault>
        requires pass { IsPassOf self.now.lock pass.old }
        ensures turned { Turned self.now.lock pass.old pass.new }
        ensures partings { Partings pass.old.number (front pass.old) (front pass.new) result }
        ensures said { OnOk result (AreSaid (front pass.new)) }
    {
        let number = pass.number();
        let mut turn = self.lock.enter(rt, pass);
        let node = &mut turn.value;
        let state = &mut node.state;
        let result = state.read_and_bye(rt, self.alloc, number);
        let is_news = match &result {
            Ok((heard, _)) => *heard,
            Err(_) => true,
        };
        self.end(rt, turn, pass, is_news);
        result
    }

    /// Says goodbye. It waits until there is a session to end. Faults are those of a call.
    pub fn bye<R: Wait + Clock>(&self, rt: &R, pass: &mut Pass<Node<L>>) -> Result<(), NodeFault>
        requires pass { IsPassOf self.now.lock pass.old }
        ensures turned { Turned self.now.lock pass.old pass.new }
        ensures worked { Worked pass.old.number (front pass.old) (front pass.new) result }
        ensures goodbye { OnOk result (SaidBye pass.old.number (front pass.old) (front pass.new)) }
        ensures said { OnOk result (AreSaid (front pass.new)) }
    {
        let (_, was_said) = self.part(rt, pass)?;
        if was_said {
            return Ok(());
        }
        for _ in rt.forever() {
            let seen = self.bell.rings(rt);
            let (heard, is_said) = self.part(rt, pass)?;
            if is_said {
                return Ok(());
            }
            if !heard {
                self.bell.wait(rt, seen);
            }
        }
        unreachable!()
    }

    /// The lists that were told lost, in the order of the sessions' ends. The fault is want of memory: for them, or an earlier one.
    pub fn losses<R: Wait>(
        &self,
        rt: &R,
        pass: &mut Pass<Node<L>>,
    ) -> Result<Vec<List<OpNo>>, NodeFault>
        requires pass { IsPassOf self.now.lock pass.old }
        ensures turned { Turned self.now.lock pass.old pass.new }
        ensures same { of number_of pass.old.number (front pass.new) ≡ of number_of pass.old.number (front pass.old) }
        ensures ok { IfOk result (λ lists. lists.items ≡ told_by (front pass.new)) }
        ensures err { IfErr result (λ f. f ≡ fault.NoMemory) }
    {
        let turn = self.lock.enter(rt, pass);
        let node = &turn.value;
        let lists = node.state.losses(self.alloc);
        self.end(rt, turn, pass, false);
        lists
    }

    // A turn in which nothing is done. It tells the greater age that is known, if there is one.
    pub(crate) fn look<R: Wait>(&self, rt: &R, pass: &mut Pass<Node<L>>) -> Option<Age>
        requires pass { IsPassOf self.now.lock pass.old }
        ensures turned { Turned self.now.lock pass.old pass.new }
        ensures own { (n : ℕ) → Member n (numbers pass.old) → of number_of n (front pass.old) ≡ of number_of n (front pass.new) }
        ensures old_boot { result ≡ old_boot (front pass.new) }
    {
        let turn = self.lock.enter(rt, pass);
        let node = &turn.value;
        let boot = node.state.boot;
        self.end(rt, turn, pass, false);
        boot
    }

    /// What threads wait on for this clerk, outside of the lock. It rings where the link may have something new.
    pub fn bell(&self) -> &Swap<L::Bell>
        ensures { result.now ≡ self.now.bell }
    {
        &self.bell
    }
}

impl<L: Link + Drop> SharedClerk<L> {
    /// A clerk that has taken no step since its start, its link, and the link's bell. The first pass has the number 0. The fault is
    /// want of memory.
    pub fn new(
        alloc: Global,
        clerk: Clerk,
        link: L,
        bell: L::Bell,
    ) -> Result<(SharedClerk<L>, Pass<Node<L>>), NodeFault>
        ensures pass { IfOk result (λ made. IsPassOf made.0.lock made.1 × (front made.1 ≡ []) × (made.1.number ≡ 0) × (numbers made.1 ≡ 0 ∷ [])) }
        ensures clerk { IfOk result (λ made. (first made.0.lock).clerk ≡ clerk) }
        ensures link { IfOk result (λ made. (first made.0.lock).link ≡ link) }
        ensures linker { IfOk result (λ made. (first made.0.lock).linker ≡ None) }
        ensures err { IfErr result (λ f. f ≡ fault.NoMemory) }
    {
        SharedClerk::linked_by(alloc, clerk, link, bell, None)
    }

    /// The same, with the number of the pass that may exchange the link, where one may. The fault is want of memory.
    pub fn linked_by(
        alloc: Global,
        clerk: Clerk,
        link: L,
        bell: L::Bell,
        linker: Option<u64>,
    ) -> Result<(SharedClerk<L>, Pass<Node<L>>), NodeFault>
        ensures pass { IfOk result (λ made. IsPassOf made.0.lock made.1 × (front made.1 ≡ []) × (made.1.number ≡ 0) × (numbers made.1 ≡ 0 ∷ [])) }
        ensures clerk { IfOk result (λ made. (first made.0.lock).clerk ≡ clerk) }
        ensures link { IfOk result (λ made. (first made.0.lock).link ≡ link) }
        ensures linker { IfOk result (λ made. (first made.0.lock).linker ≡ linker) }
        ensures err { IfErr result (λ f. f ≡ fault.NoMemory) }
    {
        let Ok(bell) = Swap::new(alloc, bell) else {
            drop(clerk);
            drop(link);
            return Err(NodeFault::NoMemory);
        };
        let state = State {
            clerk,
            link,
            kept: Vec::new(alloc),
            told: Vec::new(alloc),
            boot: None,
            steps: 0,
            broken: false,
            linker,
            lasts: false,
            is_down: false,
            owes: false,
            top: 0,
            patience: Patience::new(),
            waiting: Waiting::new(),
            trace: Trace::new(),
        };
        let state = Box::new(alloc, state)?;
        match TracedLock::new(alloc, Node { state }) {
            Ok((lock, pass)) => {
                let shared = SharedClerk {
                    lock,
                    bell,
                    down: AtomicU64::new(0),
                    alloc,
                };
                Ok((shared, pass))
            }
            Err(_) => Err(NodeFault::NoMemory),
        }
    }

    /// Hands the clerk and the last link back. The pass's front is the whole list then. There is no clerk where a step met want of
    /// memory, after which nothing is begun.
    pub fn finish<R: Wait>(self, rt: &R, pass: &mut Pass<Node<L>>) -> (Option<Clerk>, L)
        requires pass { IsPassOf self.lock pass.old }
        ensures same { Same pass.old pass.new }
        ensures later { IsPrefix (front pass.old) (front pass.new) }
        ensures finished { Finished (λ l. L.faults l + L.closes l) L.given L.got (first self.lock) (front pass.new) result.0 result.1 }
        ensures alone { (first self.lock).linker ≡ None → FinishedAlone (λ l. L.faults l + L.closes l) L.given L.got (first self.lock) (front pass.new) result.0 result.1 }
        ensures links { LinksBy (first self.lock).linker (front pass.new) }
        ensures said { IfSome result.0 (λ _. AreSaid (front pass.new)) }
        ensures wanted { IfNone result.0 (Wanted (front pass.new)) }
        ensures heard { CameOver (L.given (first self.lock).link) (front pass.new) (L.given result.1) }
        ensures heard_alone { (first self.lock).linker ≡ None → Came (L.given (first self.lock).link) (heard_by (front pass.new)) (L.given result.1) }
    {
        let Closing { clerk, link, .. } = self.close(rt, pass);
        (clerk, link)
    }

    /// The same, with what the whole list tells besides.
    pub fn close<R: Wait>(self, rt: &R, pass: &mut Pass<Node<L>>) -> Closing<L>
        requires pass { IsPassOf self.lock pass.old }
        ensures same { Same pass.old pass.new }
        ensures later { IsPrefix (front pass.old) (front pass.new) }
        ensures own { (n : ℕ) → Member n (numbers pass.old) → of number_of n (front pass.old) ≡ of number_of n (front pass.new) }
        ensures finished { Finished (λ l. L.faults l + L.closes l) L.given L.got (first self.lock) (front pass.new) result.clerk result.link }
        ensures alone { (first self.lock).linker ≡ None → FinishedAlone (λ l. L.faults l + L.closes l) L.given L.got (first self.lock) (front pass.new) result.clerk result.link }
        ensures links { LinksBy (first self.lock).linker (front pass.new) }
        ensures said { IfSome result.clerk (λ _. AreSaid (front pass.new)) }
        ensures wanted { IfNone result.clerk (Wanted (front pass.new)) }
        ensures heard { CameOver (L.given (first self.lock).link) (front pass.new) (L.given result.link) }
        ensures heard_alone { (first self.lock).linker ≡ None → Came (L.given (first self.lock).link) (heard_by (front pass.new)) (L.given result.link) }
        ensures told { IfSome result.clerk (λ _. result.told.items ≡ told_by (front pass.new)) }
        ensures boot { result.boot ≡ old_boot (front pass.new) }
    {
        let turn = self.lock.enter(rt, pass);
        let node = turn.into_value();
        let state = Box::into_inner(node.state);
        Closing {
            clerk: unless_broken(state.clerk, state.broken),
            link: state.link,
            told: state.told,
            boot: state.boot,
        }
    }
}

fn unless_broken(clerk: Clerk, broken: bool) -> Option<Clerk>
    ensures { result ≡ if broken then None else Some clerk }
{
    if broken { None } else { Some(clerk) }
}

// The counter that was spent, where that was the fault.
fn spent_in(heard: &Result<bool, NodeFault>) -> Option<Counter>
    ensures { IfSome result (λ counter. heard.now ≡ Err (fault.Spent counter)) }
{
    match heard {
        Err(NodeFault::Spent(counter)) => Some(*counter),
        _ => None,
    }
}
