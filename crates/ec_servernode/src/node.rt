// What is done in one turn at the lock.
ghost use Rattle.std.specs.Prelude.{◌≡◌, ℕ, ◌+◌, ◌<◌, ◌≤◌, ◌⊎◌, true, false, [], ◌∷◌, ◌++◌, length, Ok, Some, None, IfOk, IfErr, IfSome, IfNone, IsTrue};
ghost use Rattle.ec_base.specs.Limits.{clerk_count, last_counter};
ghost use Rattle.ec_durable.specs.Durable.{slot};
ghost use Rattle.ec_sessions.specs.Slots.{is_open};
ghost use Rattle.ec_wire.specs.Codes.{said, msg_code};
ghost use Rattle.ec_wire.specs.Messages.{is_sound};
ghost use Rattle.ec_link.specs.Links.{added};
ghost use Rattle.ec_link.specs.LinkAnswers.{carried, failed};
ghost use Rattle.ec_servernode.specs.declared.step.Halt.{Halt as Stop};
ghost use Rattle.ec_servernode.specs.declared.step.Step.{Step as Made};
ghost use Rattle.ec_servernode.specs.declared.state.Node.{Node as Value};
ghost use Rattle.ec_servernode.specs.declared.fault.ServeFault.TheVariants as fault;
ghost use Rattle.ec_servernode.specs.Callers.{accepted, hello_in, posted, refusal_in};
ghost use Rattle.ec_servernode.specs.Node.{Since, Keeps, owner_at};
ghost use Rattle.ec_servernode.specs.Breaking.{spends};
ghost use Rattle.ec_servernode.specs.Run.{sender, clerk_by, caller_by, is_for};
ghost use Rattle.ec_servernode.specs.Steps.{Grew, TookAs, EndedAs, Halts, Fell, halt_in, told_in, taken_by, told_by};
ghost use Rattle.ec_servernode.specs.Told.{IsToldOf};
ghost use Rattle.ec_servernode.specs.TurnSteps.{Takes, EndsTurn, Gives, fault_of};

use crate::caller::{Caller, Refusal, accepted, hello_in, posted, refusal_in};
use crate::fault::{ServeFault, halted};
use crate::outbox::{drop_first, is_others, next_for, own, post_all, told_of};
use crate::server::{end, take};
use crate::shared::Turned;
use crate::state::{Node, Taking, Told};
use crate::step::{Deed, Halt, Step};
use ec_base::{ClerkId, LAST_COUNTER};
use ec_link::{Link, Sent};
use ec_protocol::Served;
use ec_server::{Keeper, ServerFault};
use ec_wire::{Msg, encode};
use std::alloc::Global;
use std::snapshot::Snapshot;
use std::sync::Wait;
use std::time::Clock;

// The halt that a fault of the server is. Want of memory is none.
fn halt_of(fault: ServerFault) -> Option<Halt>
    ensures { result ≡ halt_in fault }
{
    match fault {
        ServerFault::DiskFailed => Some(Halt::DiskFailed),
        ServerFault::DiskStopped => Some(Halt::DiskStopped),
        ServerFault::Spent(counter) => Some(Halt::Spent(counter)),
        ServerFault::NoMemory => None,
    }
}

// Sends one message. A server sends none that isn't sound.
fn send_one<L: Link, R: Wait + Clock>(rt: &R, alloc: Global, link: &mut L, msg: &Msg) -> Sent
    ensures got { L.got link.new ≡ added (L.got link.old) (carried result (msg_code.spell msg.now)) }
    ensures given { L.given link.new ≡ L.given link.old }
    ensures held { L.held link.new ≡ L.held link.old }
    ensures faults { L.faults link.old + failed result ≤ L.faults link.new }
    ensures closes { L.closes link.old ≤ L.closes link.new }
{
    if !msg.sound() {
        return Sent::NoMemory;
    }
    match encode(alloc, msg) {
        Ok(body) => link.send(rt, &body),
        Err(_) => Sent::NoMemory,
    }
}

// Who is refused, and why.
#[derive(Drop)]
struct Refused<'a> {
    caller: &'a Caller,
    refusal: Refusal,
}

impl<K: Keeper + Drop> Node<K> {
    // Whether a turn may do anything.
    fn check(&self) -> Result<(), ServeFault>
        ensures ok { IfOk result (λ _. (self.now.halt ≡ None) × (self.now.broken ≡ false) × (self.now.steps < last_counter)) }
        ensures err { IfErr result (λ f. ((f ≡ fault.Down) × ((h : Stop) × (self.now.halt ≡ Some h))) ⊎ (f ≡ fault.NoMemory)) }
    {
        if self.halt.is_some() {
            return Err(ServeFault::Down);
        }
        if self.broken || self.steps >= LAST_COUNTER {
            return Err(ServeFault::NoMemory);
        }
        Ok(())
    }

    // Adds a step.
    fn add(&mut self, step: Step)
        requires { self.old.steps < last_counter }
        ensures list { self.new.trace.items ≡ self.old.trace.items ++ step ∷ [] }
        ensures others { self.new ≡ record self.old { trace = self.new.trace; steps = self.old.steps + 1 } }
    {
        self.trace = self.trace.and(&step);
        drop(step);
        self.steps += 1;
    }

    // Adds a step, and what is sent by it goes to the outboxes. Where memory is wanting for that, nothing is done any more.
    fn grow(&mut self, pass: u64, deed: Deed, hello: Option<ClerkId>, sent: Vec<(ClerkId, Msg)>)
        requires up { self.old.broken ≡ false }
        requires steps { self.old.steps < last_counter }
        requires sized { length self.old.boxes.items ≡ clerk_count }
        ensures { Grew pass deed hello sent.items self.old self.new }
    {
        own(&mut self.boxes, hello, pass);
        match post_all(&mut self.boxes, sent) {
            Ok(()) => self.add(Step {
                pass,
                deed,
                lost: false,
            }),
            Err(_) => {
                self.add(Step {
                    pass,
                    deed,
                    lost: true,
                });
                self.broken = true;
            }
        }
    }

    // Ends the taking of a message.
    fn took(
        &mut self,
        pass: u64,
        from: ClerkId,
        body: Snapshot<Vec<u8>>,
        msg: &Msg,
        served: Served,
    ) -> Taking
        requires up { self.old.broken ≡ false }
        requires steps { self.old.steps < last_counter }
        requires sized { length self.old.boxes.items ≡ clerk_count }
        ensures grew { TookAs pass from body msg.now served self.old self.new }
        ensures told { IsToldOf result.told (posted served.sent) }
        ensures hello { result.hello ≡ accepted (refusal_in served.sent) (hello_in msg.now) }
        ensures refusal { result.refusal ≡ refusal_in served.sent }
    {
        let deed = Deed::Took(from, body, Snapshot::of(msg), Snapshot::of(&served));
        let Served { sent, rec } = served;
        drop(rec);
        let refusal = refusal_in(sent.as_slice());
        let hello = accepted(&refusal, hello_in(msg));
        let sent = posted(sent.into_vec());
        let taking = Taking {
            told: told_of(sent.as_slice()),
            hello,
            refusal,
        };
        self.grow(pass, deed, taking.hello, sent);
        taking
    }

    // The server does nothing any more.
    fn stop(&mut self, pass: u64, deed: Deed, halt: Halt) -> ServeFault
        requires { self.old.steps < last_counter }
        ensures result { result ≡ fault_of halt }
        ensures stops { Halts pass deed halt self.old self.new }
    {
        self.add(Step {
            pass,
            deed,
            lost: false,
        });
        self.halt = Some(halt);
        self.broken = !is_spent(halt);
        halted(halt)
    }

    // Memory is wanting for a step, and nothing is done any more. A mark says so.
    fn breaks(&mut self, pass: u64)
        requires { self.old.steps < last_counter }
        ensures { Fell pass self.old self.new }
    {
        self.add(Step {
            pass,
            deed: Deed::Broke,
            lost: true,
        });
        self.broken = true;
    }

    /// Takes the message of this body. A fault of the disk and a spent counter are told once, and `Down` is answered from then on.
    /// Behind want of memory each turn answers that.
    pub fn take(
        &mut self,
        pass: u64,
        from: ClerkId,
        body: Snapshot<Vec<u8>>,
        msg: &Msg,
    ) -> Result<Taking, ServeFault>
        requires sound { IsTrue (is_sound msg.now) }
        requires said { said body.value.items ≡ Ok msg.now }
        requires from { from ≡ sender msg.now (clerk_by pass self.old.trace.items) }
        requires since { (first : Value K) × Since K.kept K.counts K.did K.broke first self.old }
        ensures keeps { Keeps K.kept K.counts K.did K.broke self.old self.new }
        ensures takes { Takes pass body.value.items self.old self.new (told_in result) }
        ensures caller { caller_by pass self.new.trace.items ≡ taken_by result (caller_by pass self.old.trace.items) }
    {
        self.check()?;
        match take(&mut self.server, &mut self.keeper, from, msg) {
            Ok(served) => Ok(self.took(pass, from, body, msg, served)),
            Err(fault) => match halt_of(fault) {
                Some(halt) => {
                    let deed = Deed::Halted(from, body, Snapshot::of(msg), halt);
                    Err(self.stop(pass, deed, halt))
                }
                None => {
                    self.breaks(pass);
                    Err(ServeFault::NoMemory)
                }
            },
        }
    }

    /// Ends the clerk's open session. Faults are those of a message.
    pub fn end(&mut self, pass: u64, clerk: ClerkId) -> Result<Told, ServeFault>
        requires { (first : Value K) × Since K.kept K.counts K.did K.broke first self.old }
        ensures keeps { Keeps K.kept K.counts K.did K.broke self.old self.new }
        ensures ends { EndsTurn pass clerk self.old self.new result }
        ensures caller { caller_by pass self.new.trace.items ≡ caller_by pass self.old.trace.items }
    {
        self.check()?;
        match end(&mut self.server, &mut self.keeper, clerk) {
            Ok(served) => Ok(self.ended(pass, clerk, served)),
            Err(fault) => match halt_of(fault) {
                Some(halt) => Err(self.stop(pass, Deed::HaltedEnd(clerk, halt), halt)),
                None => {
                    self.breaks(pass);
                    Err(ServeFault::NoMemory)
                }
            },
        }
    }

    fn ended(&mut self, pass: u64, clerk: ClerkId, served: Served) -> Told
        requires up { self.old.broken ≡ false }
        requires steps { self.old.steps < last_counter }
        requires sized { length self.old.boxes.items ≡ clerk_count }
        ensures grew { EndedAs pass clerk served self.old self.new }
        ensures told { IsToldOf result served.sent }
    {
        let deed = Deed::Ended(clerk, Snapshot::of(&served));
        let Served { sent, rec } = served;
        drop(rec);
        let told = told_of(sent.as_slice());
        self.grow(pass, deed, None, sent.into_vec());
        told
    }

    /// Whether the clerk has an open session. Faults are `Down`, and want of memory in an earlier turn.
    pub fn is_open(&self, clerk: ClerkId) -> Result<bool, ServeFault>
        ensures ok { IfOk result (λ o. (o ≡ is_open (slot (K.kept self.now.keeper) clerk)) × (self.now.halt ≡ None) × (self.now.broken ≡ false)) }
        ensures err { IfErr result (λ f. ((f ≡ fault.Down) × ((h : Stop) × (self.now.halt ≡ Some h))) ⊎ (f ≡ fault.NoMemory)) }
    {
        self.check()?;
        match self.server.view(&self.keeper).sessions.slot(clerk) {
            Some(slot) => Ok(slot.is_open),
            None => Ok(false),
        }
    }

    /// Sends what is there for the link's other end: a refusal, or the first message of its clerk's outbox, where that belongs to the
    /// pass. Faults are `Down`, `Net` where the link fails, and want of memory.
    pub fn give<L: Link, R: Wait + Clock>(
        &mut self,
        rt: &R,
        alloc: Global,
        pass: u64,
        caller: &Caller,
        link: &mut L,
    ) -> Result<Turned, ServeFault>
        requires caller { caller.now ≡ caller_by pass self.old.trace.items }
        requires below { caller.now.clerk < clerk_count }
        requires since { (first : Value K) × Since K.kept K.counts K.did K.broke first self.old }
        ensures keeps { Keeps K.kept K.counts K.did K.broke self.old self.new }
        ensures gives { Gives L.faults L.got pass caller.now self.old self.new link.old link.new result }
        ensures caller { caller_by pass self.new.trace.items ≡ told_by result caller.now }
        ensures given { (L.given link.new ≡ L.given link.old) × (L.held link.new ≡ L.held link.old) }
        ensures counts { (L.faults link.old ≤ L.faults link.new) × (L.closes link.old ≤ L.closes link.new) }
    {
        self.check()?;
        match caller.refusal {
            Some(refusal) => self.refuse(rt, alloc, pass, Refused { caller, refusal }, link),
            None => self.give_own(rt, alloc, pass, caller, link),
        }
    }

    // Sends a refusal.
    fn refuse<L: Link, R: Wait + Clock>(
        &mut self,
        rt: &R,
        alloc: Global,
        pass: u64,
        to: Refused<'_>,
        link: &mut L,
    ) -> Result<Turned, ServeFault>
        requires caller { to.caller.now ≡ caller_by pass self.old.trace.items }
        requires refusal { to.caller.now.refusal ≡ Some to.refusal }
        requires up { (self.old.halt ≡ None) × (self.old.broken ≡ false) × (self.old.steps < last_counter) }
        ensures keeps { Keeps K.kept K.counts K.did K.broke self.old self.new }
        ensures gives { Gives L.faults L.got pass to.entry.caller.now self.old self.new link.old link.new result }
        ensures caller { caller_by pass self.new.trace.items ≡ told_by result to.entry.caller.now }
        ensures given { (L.given link.new ≡ L.given link.old) × (L.held link.new ≡ L.held link.old) }
        ensures counts { (L.faults link.old ≤ L.faults link.new) × (L.closes link.old ≤ L.closes link.new) }
    {
        let msg = Msg::OldBoot(to.refusal.asked, to.refusal.greatest);
        match send_one(rt, alloc, link, &msg) {
            Sent::Done => {
                self.add(Step {
                    pass,
                    deed: Deed::Refused(Snapshot::of(&msg)),
                    lost: false,
                });
                Ok(Turned::Gave)
            }
            Sent::Failed => Err(ServeFault::Net),
            Sent::NoMemory => Err(ServeFault::NoMemory),
        }
    }

    // Sends the first message of the clerk's outbox, unless that is another link's by now.
    fn give_own<L: Link, R: Wait + Clock>(
        &mut self,
        rt: &R,
        alloc: Global,
        pass: u64,
        caller: &Caller,
        link: &mut L,
    ) -> Result<Turned, ServeFault>
        requires caller { caller.now ≡ caller_by pass self.old.trace.items }
        requires below { caller.now.clerk < clerk_count }
        requires refusal { caller.now.refusal ≡ None }
        requires up { (self.old.halt ≡ None) × (self.old.broken ≡ false) × (self.old.steps < last_counter) }
        requires sized { length self.old.boxes.items ≡ clerk_count }
        ensures keeps { Keeps K.kept K.counts K.did K.broke self.old self.new }
        ensures gives { Gives L.faults L.got pass caller.now self.old self.new link.old link.new result }
        ensures caller { caller_by pass self.new.trace.items ≡ told_by result caller.now }
        ensures given { (L.given link.new ≡ L.given link.old) × (L.held link.new ≡ L.held link.old) }
        ensures counts { (L.faults link.old ≤ L.faults link.new) × (L.closes link.old ≤ L.closes link.new) }
    {
        if is_others(&self.boxes, caller, pass) {
            Ok(Turned::Replaced)
        } else {
            self.give_next(rt, alloc, pass, caller, link)
        }
    }

    // Sends the first message of the clerk's outbox, where that belongs to the pass.
    fn give_next<L: Link, R: Wait + Clock>(
        &mut self,
        rt: &R,
        alloc: Global,
        pass: u64,
        caller: &Caller,
        link: &mut L,
    ) -> Result<Turned, ServeFault>
        requires caller { caller.now ≡ caller_by pass self.old.trace.items }
        requires below { caller.now.clerk < clerk_count }
        requires refusal { caller.now.refusal ≡ None }
        requires mine { caller.now.has_greeted ≡ true → is_for pass (owner_at self.old.boxes.items caller.now.clerk) ≡ true }
        requires up { (self.old.halt ≡ None) × (self.old.broken ≡ false) × (self.old.steps < last_counter) }
        requires sized { length self.old.boxes.items ≡ clerk_count }
        ensures keeps { Keeps K.kept K.counts K.did K.broke self.old self.new }
        ensures gives { Gives L.faults L.got pass caller.now self.old self.new link.old link.new result }
        ensures caller { caller_by pass self.new.trace.items ≡ told_by result caller.now }
        ensures given { (L.given link.new ≡ L.given link.old) × (L.held link.new ≡ L.held link.old) }
        ensures counts { (L.faults link.old ≤ L.faults link.new) × (L.closes link.old ≤ L.closes link.new) }
    {
        match next_for(&self.boxes, caller.clerk, pass) {
            None => Ok(Turned::Idle),
            Some(msg) => {
                let shot = Snapshot::of(msg);
                match send_one(rt, alloc, link, msg) {
                    Sent::Done => {
                        drop_first(&mut self.boxes, caller.clerk);
                        self.add(Step {
                            pass,
                            deed: Deed::Gave(caller.clerk, shot),
                            lost: false,
                        });
                        Ok(Turned::Gave)
                    }
                    Sent::Failed => Err(ServeFault::Net),
                    Sent::NoMemory => Err(ServeFault::NoMemory),
                }
            }
        }
    }
}

// A spent counter leaves the server as it was.
fn is_spent(halt: Halt) -> bool
    ensures { result ≡ spends halt }
{
    matches!(halt, Halt::Spent(_))
}
