// The server that several threads share.
ghost use Rattle.std.specs.Prelude.{◌≡◌, ℕ, ◌+◌, ◌<◌, ◌≤◌, ◌⊎◌, cond, List, [], ◌∷◌, Some, None, Ok, Err, IfOk, IfErr, IfNone, IsTrue, MatchResult, Option};
ghost use mathlib.Core.List.{IsPrefix};
ghost use Rattle.ec_base.specs.Limits.{clerk_count};
ghost use Rattle.ec_durable.specs.Durable.{slot};
ghost use Rattle.ec_sessions.specs.Slots.{is_open};
ghost use Rattle.ec_wire.specs.Codes.{said};
ghost use Rattle.ec_wire.specs.Messages.{is_sound};
ghost use Rattle.ec_lock.specs.PassViews.{first, front, numbers, Same};
ghost use Rattle.ec_lock.specs.Steps.{Member, of};
ghost use Rattle.ec_server.specs.Servers.{StandsOn};
ghost use Rattle.ec_servernode.specs.declared.fault.ServeFault.TheVariants as fault;
ghost use Rattle.ec_servernode.specs.declared.step.Halt.{Halt as Why};
ghost use Rattle.ec_servernode.specs.Floors.{no_floor};
ghost use Rattle.ec_servernode.specs.Node.{Since, queue_at, state_of};
ghost use Rattle.ec_servernode.specs.Safe.{StaysSafe};
ghost use Rattle.ec_servernode.specs.Breaking.{Broken};
ghost use Rattle.ec_servernode.specs.Run.{number_of, sender, put_all, for_clerk, halted, leads};
ghost use Rattle.ec_servernode.specs.Steps.{told_in, taken_by, told_by};
ghost use Rattle.ec_servernode.specs.TurnSteps.{IsServerPass, Adds, Looked, peer_of, Hears, TakesMessage, GivesNext, Serves, EndsSession, RunsFrom, Finished};

use crate::caller::{Caller, hello_in};
use crate::fault::ServeFault;
use crate::outbox::filled_boxes;
use crate::passes::ServerPass;
use crate::state::{Node, Taking, Told};
use crate::step::{Halt, Step};
use ec_base::trace::Trace;
use ec_base::{ClerkId, NoMemory};
use ec_link::{Got, Link};
use ec_lock::{Traced, TracedLock};
use ec_protocol::Served;
use ec_server::{Keeper, Server};
use ec_wire::{Msg, WireFault, decode};
use std::alloc::Global;
use std::snapshot::Snapshot;
use std::sync::Wait;
use std::time::Clock;

impl<K: Keeper + Drop> Traced for Node<K> {
    type Step = Step;

    ghost list = { λ n. n.trace.items };

    ghost number = { λ s. Some s.pass };

    ghost floor = { λ steps. 0 };

    ghost since = { Since K.kept K.counts K.did K.broke };

    fn steps(&self) -> u64 {
        self.steps
    }

    ghost grows = { no_floor };
}

/// A server and what keeps its state, behind a lock. Nobody waits in a turn.
pub struct SharedServer<K: Keeper + Drop> {
    pub(crate) lock: TracedLock<Node<K>>,
    alloc: Global,
}

// Who drops a server calls this, and needn't take it apart.
impl<K: Keeper + Drop> Drop for SharedServer<K> {
    fn drop(self) {
        let SharedServer { lock, alloc: _ } = self;
        drop(lock);
    }
}

/// What a turn with a link did.
#[derive(Clone, Copy, Drop)]
pub enum Turned {
    /// A message was taken. These are the clerks to which something was sent, whose outboxes have something.
    Took(Told),
    /// A refusal was sent, or the first message of the outbox.
    Gave,
    /// The link gave nothing, and there was nothing for it.
    Idle,
    /// The link gave nothing, and its clerk has greeted on another link since.
    Replaced,
    /// The link gave nothing, and it still keeps back what it got before.
    Busy,
    /// The other end is gone.
    Closed,
}

// The clerk of a message from a link of this clerk.
fn sender_of(msg: &Msg, clerk: ClerkId) -> ClerkId
    ensures { result ≡ sender msg.now clerk }
{
    match hello_in(msg) {
        Some(from) => from,
        None => clerk,
    }
}

// Why a body is no message.
fn refused(fault: WireFault) -> ServeFault
    ensures { result ≡ peer_of fault }
{
    match fault {
        WireFault::NoMemory => ServeFault::NoMemory,
        fault => ServeFault::Peer(fault),
    }
}

// The other end of a link behind a message of it.
fn taken_by(taken: &Result<Taking, ServeFault>, caller: &Caller) -> Caller
    requires { caller.now.clerk < clerk_count }
    ensures value { result ≡ taken_by taken.now caller.now }
    ensures below { result.clerk < clerk_count }
{
    match taken {
        Ok(taking) => caller.behind(taking.hello, taking.refusal),
        Err(_) => *caller,
    }
}

// The other end of a link behind what may have been sent to it.
fn told_by(gave: &Result<Turned, ServeFault>, caller: &Caller) -> Caller
    requires { caller.now.clerk < clerk_count }
    ensures value { result ≡ told_by gave.now caller.now }
    ensures below { result.clerk < clerk_count }
{
    match gave {
        Ok(Turned::Gave) => caller.answered(),
        _ => *caller,
    }
}

// The clerks that a message told.
fn told_in(taken: Result<Taking, ServeFault>) -> Result<Told, ServeFault>
    ensures { result ≡ told_in taken }
{
    match taken {
        Ok(taking) => Ok(taking.told),
        Err(fault) => Err(fault),
    }
}

fn is_greeting(taken: &Result<Taking, ServeFault>) -> bool {
    match taken {
        Ok(taking) => taking.hello.is_some(),
        Err(_) => false,
    }
}

// The server, unless it's broken.
fn unless(broken: bool, server: Server) -> Option<Server>
    ensures { result ≡ cond broken None (Some server) }
{
    if broken {
        drop(server);
        None
    } else {
        Some(server)
    }
}

// The keeper alone.
fn keeper_of<K: Keeper + Drop>(node: Node<K>) -> K
    ensures { result ≡ node.keeper }
{
    let Node {
        server,
        keeper,
        boxes,
        ..
    } = node;
    drop(server);
    drop(boxes);
    keeper
}

impl<K: Keeper + Drop> SharedServer<K> {
    /// As `over`. Where memory is wanting the keeper is dropped.
    pub fn new(
        alloc: Global,
        server: Server,
        begun: Served,
        keeper: K,
    ) -> Result<(SharedServer<K>, ServerPass<K>), NoMemory>
        requires { StandsOn (K.kept keeper) server }
        ensures pass { IfOk result (λ made. IsServerPass K.kept made.0.lock made.1) }
        ensures number { IfOk result (λ made. (front made.1.pass ≡ []) × (made.1.pass.number ≡ 0) × (numbers made.1.pass ≡ 0 ∷ [])) }
        ensures server { IfOk result (λ made. ((first made.0.lock).server ≡ server) × ((first made.0.lock).keeper ≡ keeper)) }
        ensures boxes { IfOk result (λ made. (c : ℕ) → queue_at (first made.0.lock).boxes.items c ≡ put_all [] (for_clerk c begun.sent)) }
    {
        match SharedServer::over(alloc, server, begun, keeper) {
            Ok(made) => Ok(made),
            Err(_) => Err(NoMemory),
        }
    }

    /// A server that has taken no step since its start, which gave `begun`, and its keeper, which comes back for want of memory. The first pass
    /// has the number 0.
    pub fn over(
        alloc: Global,
        server: Server,
        begun: Served,
        keeper: K,
    ) -> Result<(SharedServer<K>, ServerPass<K>), K>
        requires { StandsOn (K.kept keeper) server }
        ensures pass { IfOk result (λ made. IsServerPass K.kept made.0.lock made.1) }
        ensures number { IfOk result (λ made. (front made.1.pass ≡ []) × (made.1.pass.number ≡ 0) × (numbers made.1.pass ≡ 0 ∷ [])) }
        ensures server { IfOk result (λ made. ((first made.0.lock).server ≡ server) × ((first made.0.lock).keeper ≡ keeper)) }
        ensures boxes { IfOk result (λ made. (c : ℕ) → queue_at (first made.0.lock).boxes.items c ≡ put_all [] (for_clerk c begun.sent)) }
        ensures err { IfErr result (λ back. back ≡ keeper) }
    {
        let Served { sent, rec } = begun;
        drop(rec);
        let Ok(boxes) = filled_boxes(alloc, sent.into_vec()) else {
            drop(server);
            return Err(keeper);
        };
        let node = Node {
            server,
            keeper,
            boxes,
            halt: None,
            broken: false,
            steps: 0,
            trace: Trace::new(),
        };
        match TracedLock::new(alloc, node) {
            Ok((lock, pass)) => {
                let pass = ServerPass {
                    pass,
                    caller: Caller::nobody(),
                    greets: false,
                };
                Ok((SharedServer { lock, alloc }, pass))
            }
            Err(node) => Err(keeper_of(node)),
        }
    }

    // Ends a turn in which the server does nothing. It looks whether the server is down.
    fn unless_down<R: Wait>(
        &self,
        rt: &R,
        pass: &mut ServerPass<K>,
        otherwise: Result<Turned, ServeFault>,
    ) -> Result<Turned, ServeFault>
        requires pass { IsServerPass K.kept self.now.lock pass.old }
        ensures pass { IsServerPass K.kept self.now.lock pass.new }
        ensures same { Same pass.old.pass pass.new.pass }
        ensures later { IsPrefix (front pass.old.pass) (front pass.new.pass) }
        ensures looked { Looked pass.old.pass.number (front pass.old.pass) (front pass.new.pass) otherwise result }
    {
        let turn = self.lock.enter(rt, &mut pass.pass);
        let halt = turn.value.halt;
        self.lock.leave(turn, &mut pass.pass);
        match halt {
            Some(_) => Err(ServeFault::Down),
            None => otherwise,
        }
    }

    // Takes a message of the link.
    fn take<R: Wait>(
        &self,
        rt: &R,
        pass: &mut ServerPass<K>,
        body: Snapshot<Vec<u8>>,
        msg: &Msg,
    ) -> Result<Told, ServeFault>
        requires pass { IsServerPass K.kept self.now.lock pass.old }
        requires sound { IsTrue (is_sound msg.now) }
        requires said { said body.value.items ≡ Ok msg.now }
        ensures pass { IsServerPass K.kept self.now.lock pass.new }
        ensures same { Same pass.old.pass pass.new.pass }
        ensures later { IsPrefix (front pass.old.pass) (front pass.new.pass) }
        ensures takes { TakesMessage pass.old.pass.number body.value.items (front pass.old.pass) (front pass.new.pass) result }
    {
        let from = sender_of(msg, pass.caller.clerk);
        let number = pass.pass.number();
        let mut turn = self.lock.enter(rt, &mut pass.pass);
        let taken = turn.value.take(number, from, body, msg);
        self.lock.leave(turn, &mut pass.pass);
        pass.caller = taken_by(&taken, &pass.caller);
        pass.greets = is_greeting(&taken);
        told_in(taken)
    }

    // Takes what the link gave.
    fn hear<R: Wait>(
        &self,
        rt: &R,
        pass: &mut ServerPass<K>,
        body: &Vec<u8>,
    ) -> Result<Turned, ServeFault>
        requires pass { IsServerPass K.kept self.now.lock pass.old }
        ensures pass { IsServerPass K.kept self.now.lock pass.new }
        ensures same { Same pass.old.pass pass.new.pass }
        ensures later { IsPrefix (front pass.old.pass) (front pass.new.pass) }
        ensures hears { Hears pass.old.pass.number body.now.items (front pass.old.pass) (front pass.new.pass) result }
    {
        match decode(self.alloc, body) {
            Ok(msg) => {
                let taken = self.take(rt, pass, Snapshot::of(body), &msg);
                drop(msg);
                let told = taken?;
                Ok(Turned::Took(told))
            }
            Err(fault) => self.unless_down(rt, pass, Err(refused(fault))),
        }
    }

    // Gives the link the next message that is there for it.
    fn give<L: Link, R: Wait + Clock>(
        &self,
        rt: &R,
        pass: &mut ServerPass<K>,
        link: &mut L,
    ) -> Result<Turned, ServeFault>
        requires pass { IsServerPass K.kept self.now.lock pass.old }
        ensures pass { IsServerPass K.kept self.now.lock pass.new }
        ensures same { Same pass.old.pass pass.new.pass }
        ensures later { IsPrefix (front pass.old.pass) (front pass.new.pass) }
        ensures given { (L.given link.new ≡ L.given link.old) × (L.held link.new ≡ L.held link.old) }
        ensures counts { (L.faults link.old ≤ L.faults link.new) × (L.closes link.old ≤ L.closes link.new) }
        ensures gives { GivesNext L.faults L.got (queue_at (first self.now.lock).boxes.items) pass.old.pass.number pass.old.caller (front pass.old.pass) (front pass.new.pass) link.old link.new result }
    {
        let number = pass.pass.number();
        let mut turn = self.lock.enter(rt, &mut pass.pass);
        let gave = turn.value.give(rt, self.alloc, number, &pass.caller, link);
        self.lock.leave(turn, &mut pass.pass);
        pass.caller = told_by(&gave, &pass.caller);
        gave
    }

    /// One turn with a link, which has a pass of its own: takes the message that the link gives. Where it gives none, the link gets the first
    /// message of its clerk's outbox, unless it keeps back what it got before. Nobody waits for the other end.
    pub fn serve_one<L: Link, R: Wait + Clock>(
        &self,
        rt: &R,
        pass: &mut ServerPass<K>,
        link: &mut L,
    ) -> Result<Turned, ServeFault>
        requires pass { IsServerPass K.kept self.now.lock pass.old }
        ensures pass { IsServerPass K.kept self.now.lock pass.new }
        ensures same { Same pass.old.pass pass.new.pass }
        ensures later { IsPrefix (front pass.old.pass) (front pass.new.pass) }
        ensures counts { (L.faults link.old ≤ L.faults link.new) × (L.closes link.old ≤ L.closes link.new) }
        ensures serves { Serves L.faults L.closes L.given L.got L.held L.clear (queue_at (first self.now.lock).boxes.items) pass.old.pass.number pass.old.caller (front pass.old.pass) (front pass.new.pass) link.old link.new result }
        ensures safe { StaysSafe K.kept (first self.now.lock) (front pass.new.pass) }
    {
        match link.recv(rt) {
            Got::Body(body) => self.hear(rt, pass, &body),
            Got::Nothing => {
                if link.is_clear() {
                    self.give(rt, pass, link)
                } else {
                    self.unless_down(rt, pass, Ok(Turned::Busy))
                }
            }
            Got::Long(length) => self.unless_down(rt, pass, Err(ServeFault::Long(length))),
            Got::Closed => self.unless_down(rt, pass, Ok(Turned::Closed)),
            Got::Failed => self.unless_down(rt, pass, Err(ServeFault::Net)),
            Got::NoMemory => Err(ServeFault::NoMemory),
        }
    }

    /// The administrator's end of the clerk's open session: one step. The clerks to which it sent something. Faults are those of a
    /// message: the disk's, a spent counter, `Down` behind one of these, and want of memory.
    pub fn end<R: Wait>(
        &self,
        rt: &R,
        pass: &mut ServerPass<K>,
        clerk: ClerkId,
    ) -> Result<Told, ServeFault>
        requires pass { IsServerPass K.kept self.now.lock pass.old }
        ensures pass { IsServerPass K.kept self.now.lock pass.new }
        ensures same { Same pass.old.pass pass.new.pass }
        ensures later { IsPrefix (front pass.old.pass) (front pass.new.pass) }
        ensures ends { EndsSession pass.old.pass.number clerk (front pass.old.pass) (front pass.new.pass) result }
        ensures safe { StaysSafe K.kept (first self.now.lock) (front pass.new.pass) }
    {
        let number = pass.pass.number();
        let mut turn = self.lock.enter(rt, &mut pass.pass);
        let told = turn.value.end(number, clerk);
        self.lock.leave(turn, &mut pass.pass);
        told
    }

    /// Whether the clerk has an open session. Faults are `Down`, and want of memory in an earlier turn.
    pub fn is_open<R: Wait>(
        &self,
        rt: &R,
        pass: &mut ServerPass<K>,
        clerk: ClerkId,
    ) -> Result<bool, ServeFault>
        requires pass { IsServerPass K.kept self.now.lock pass.old }
        ensures pass { IsServerPass K.kept self.now.lock pass.new }
        ensures same { Same pass.old.pass pass.new.pass }
        ensures later { IsPrefix (front pass.old.pass) (front pass.new.pass) }
        ensures none { Adds pass.old.pass.number (front pass.old.pass) (front pass.new.pass) [] }
        ensures opened { IfOk result (λ o. o ≡ is_open (slot (leads (state_of K.kept (first self.now.lock)) (front pass.new.pass)).durable clerk)) }
        ensures err { IfErr result (λ f. ((f ≡ fault.Down) × ((why : Why) × (halted (front pass.new.pass) ≡ Some why))) ⊎ (f ≡ fault.NoMemory)) }
    {
        let turn = self.lock.enter(rt, &mut pass.pass);
        let answer = turn.value.is_open(clerk);
        self.lock.leave(turn, &mut pass.pass);
        answer
    }

    /// Hands the server and its keeper back, and tells whether the server is down and why. The pass's front is the whole list then. There is no
    /// server where memory was wanting or the disk failed in a step.
    pub fn close<R: Wait>(
        self,
        rt: &R,
        pass: &mut ServerPass<K>,
    ) -> (Option<Server>, K, Option<Halt>)
        requires pass { IsServerPass K.kept self.lock pass.old }
        ensures same { Same pass.old.pass pass.new.pass }
        ensures later { IsPrefix (front pass.old.pass) (front pass.new.pass) }
        ensures own { (n : ℕ) → Member n (numbers pass.old.pass) → of number_of n (front pass.old.pass) ≡ of number_of n (front pass.new.pass) }
        ensures run { RunsFrom K.kept (first self.lock) (front pass.new.pass) }
        ensures finished { Finished K.kept K.counts K.did K.broke (first self.lock) (front pass.new.pass) result.0 result.1 }
        ensures wanted { IfNone result.0 (Broken (front pass.new.pass)) }
        ensures halt { result.2 ≡ halted (front pass.new.pass) }
    {
        let turn = self.lock.enter(rt, &mut pass.pass);
        let node = turn.into_value();
        let Node {
            server,
            keeper,
            boxes,
            halt,
            broken,
            ..
        } = node;
        drop(boxes);
        (unless(broken, server), keeper, halt)
    }

    /// As `close`, without the reason.
    pub fn finish<R: Wait>(self, rt: &R, pass: &mut ServerPass<K>) -> (Option<Server>, K)
        requires pass { IsServerPass K.kept self.lock pass.old }
        ensures same { Same pass.old.pass pass.new.pass }
        ensures later { IsPrefix (front pass.old.pass) (front pass.new.pass) }
        ensures own { (n : ℕ) → Member n (numbers pass.old.pass) → of number_of n (front pass.old.pass) ≡ of number_of n (front pass.new.pass) }
        ensures run { RunsFrom K.kept (first self.lock) (front pass.new.pass) }
        ensures finished { Finished K.kept K.counts K.did K.broke (first self.lock) (front pass.new.pass) result.0 result.1 }
        ensures wanted { IfNone result.0 (Broken (front pass.new.pass)) }
    {
        let (server, keeper, _) = self.close(rt, pass);
        (server, keeper)
    }
}
