// A clerk, and its steps.
ghost use Rattle.std.specs.Prelude.{◌≡◌, ◌<◌, ◌+◌, true, false, [], List, None, Some, IfOk, OnOk, Err};
ghost use Rattle.ec_base.specs.Limits.{last_counter};
ghost use Rattle.ec_base.specs.declared.counter.Counter.{Counter as Kind};
ghost use Rattle.ec_wire.specs.Messages.{is_sound};
ghost use Rattle.ec_plain.specs.declared.call.Call.{Call as Asking};
ghost use Rattle.ec_protocol.specs.declared.clerk.ClerkFault.TheVariants as fault;
ghost use Rattle.ec_protocol.specs.Clerk as clerk;
ghost use Rattle.ec_protocol.specs.Flushes as flushes;
ghost use Rattle.ec_doing.specs.Seen.{clerk_with, doing_of, EndsWith};

use ec_base::{Age, ClerkId, Counter, LAST_COUNTER, NoMemory, OpNo, SessionNo, next};
use ec_cache::Cache;
use ec_doing::holdings::Ledger;
use ec_doing::{Doing, step};
use ec_log::{Asked, LogFault, Pick};
use ec_plain::Call;
use ec_protocol::{ClerkFault, Flushed, Out, Waiting};
use ec_wire::Msg;
use std::alloc::Global;
use std::marker::Model;

/// A clerk keeps so many tokens.
pub const MAX_TOKENS: usize = 4_096;

/// A clerk: what it holds, what it issued, and the calls that wait.
///
/// A step that wants memory, or meets a spent counter behind its first change, leaves a clerk that
/// answers want of memory from then on.
pub struct Clerk {
    doing: Doing,
    waiting: Vec<Waiting>,
    is_broken: bool,
}

// Who drops one calls this, and needn't take it apart.
impl Drop for Clerk {
    fn drop(self) {
        let Clerk {
            doing,
            waiting,
            is_broken: _,
        } = self;
        drop(doing);
        drop(waiting);
    }
}

impl Model for Clerk {
    ghost use Rattle.ec_protocol.specs.declared.clerk.Clerk.{Clerk as State};
    ghost use Rattle.ec_doing.specs.Seen.{clerk_with};

    ghost Value = { State };

    ghost view = { λ k. clerk_with k.waiting.items k.doing };
}

impl Clerk {
    /// A new start of the clerk, which greets the server. `Spent(Boot)` where the boot is above
    /// `LAST_COUNTER`.
    pub fn start(alloc: Global, id: ClerkId, boot: u64) -> Result<(Clerk, Vec<Out>), ClerkFault>
        ensures ok { IfOk result (λ made. clerk.start id boot ≡ record { clerk = made.0; outs = made.1.items; spent = None }) }
        ensures spent { (c : Kind) → result ≡ Err (fault.Spent c) → (clerk.start id boot).spent ≡ Some c }
        ensures no_such { result ≡ Err fault.NoSuchOp → ⊥ }
    {
        if boot > LAST_COUNTER {
            return Err(ClerkFault::Spent(Counter::Boot));
        }
        let outs = greeting(alloc, id, boot)?;
        let doing = new_doing(alloc, id, boot)?;
        let clerk = Clerk {
            doing,
            waiting: Vec::new(alloc),
            is_broken: false,
        };
        Ok((clerk, outs))
    }

    /// Begins a call: its number, and what comes out. `Spent(CallNo)` where no number is left.
    pub fn begin(&mut self, call: Call) -> Result<(u64, Vec<Out>), ClerkFault>
        ensures no { IfOk result (λ begun. begun.0 ≡ self.old.calls + 1) }
        ensures ok { IfOk result (λ begun. EndsWith (clerk.begin call self.old) self.new begun.1.items) }
        ensures spent { (c : Kind) → result ≡ Err (fault.Spent c) → (clerk.begin call self.old).spent ≡ Some c }
        ensures kept { (c : Kind) → result ≡ Err (fault.Spent c) → self.new ≡ self.old }
        ensures no_such { result ≡ Err fault.NoSuchOp → ⊥ }
    {
        match self.next_call() {
            Ok(no) => {
                let outs = self.begin_by(no, call)?;
                Ok((no, outs))
            }
            Err(fault) => {
                drop(call);
                Err(fault)
            }
        }
    }

    // The number of the next call. `Spent(CallNo)` where no number is left.
    fn next_call(&self) -> Result<u64, ClerkFault>
        ensures next { IfOk result (λ no. no ≡ self.now.calls + 1) }
        ensures below { OnOk result (self.now.calls < last_counter) }
        ensures spent { (call : Asking) (c : Kind) → result ≡ Err (fault.Spent c) → (clerk.begin call self.now).spent ≡ Some c }
        ensures no_such { result ≡ Err fault.NoSuchOp → ⊥ }
    {
        self.ready()?;
        match next(self.doing.calls) {
            Some(no) => Ok(no),
            None => Err(ClerkFault::Spent(Counter::CallNo)),
        }
    }

    // Begins a call by the next number.
    fn begin_by(&mut self, no: u64, call: Call) -> Result<Vec<Out>, NoMemory>
        requires next { no ≡ self.old.calls + 1 }
        requires below { self.old.calls < last_counter }
        ensures { IfOk result (λ outs. EndsWith (clerk.begin call self.old) self.new outs.items) }
    {
        self.is_broken = true;
        let outs = step::begin(&mut self.doing, &mut self.waiting, no, call)?;
        self.is_broken = false;
        Ok(outs)
    }

    /// Asks for an operation's closure until it's durable. `NoSuchOp` exactly where this start
    /// didn't issue it.
    pub fn push(&mut self, op: OpNo) -> Result<Vec<Out>, ClerkFault>
        ensures ok { IfOk result (λ outs. EndsWith (clerk.push op self.old) self.new outs.items) }
        ensures issued { OnOk result (clerk.has_issued op self.old ≡ true) }
        ensures no_such { result ≡ Err fault.NoSuchOp → clerk.has_issued op self.old ≡ false }
        ensures kept { result ≡ Err fault.NoSuchOp → self.new ≡ self.old }
        ensures spent { (c : Kind) → result ≡ Err (fault.Spent c) → ⊥ }
    {
        self.ready()?;
        if !self.doing.has_issued(op) {
            return Err(ClerkFault::NoSuchOp);
        }
        self.is_broken = true;
        let outs = step::push(&mut self.doing, &mut self.waiting, op)?;
        self.is_broken = false;
        Ok(outs)
    }

    /// Takes a message. `Spent` where it would pass a counter.
    pub fn take(&mut self, msg: Msg) -> Result<Vec<Out>, ClerkFault>
        requires { is_sound msg ≡ true }
        ensures ok { IfOk result (λ outs. EndsWith (clerk.take msg self.old) self.new outs.items) }
        ensures spent { (c : Kind) → result ≡ Err (fault.Spent c) → (clerk.take msg self.old).spent ≡ Some c }
        ensures kept { (c : Kind) → result ≡ Err (fault.Spent c) → self.new ≡ self.old }
        ensures no_such { result ≡ Err fault.NoSuchOp → ⊥ }
    {
        self.ready()?;
        if let Some(counter) = self.doing.spent_by(&msg) {
            return Err(ClerkFault::Spent(counter));
        }
        self.is_broken = true;
        let outs = step::take(&mut self.doing, &mut self.waiting, msg)?;
        self.is_broken = false;
        Ok(outs)
    }

    /// Sends again what is held and what is outstanding; without a session it greets.
    pub fn resend(&mut self) -> Result<Vec<Out>, ClerkFault>
        ensures ok { IfOk result (λ outs. EndsWith (clerk.resend self.old) self.new outs.items) }
        ensures spent { (c : Kind) → result ≡ Err (fault.Spent c) → ⊥ }
        ensures no_such { result ≡ Err fault.NoSuchOp → ⊥ }
    {
        self.ready()?;
        self.is_broken = true;
        let outs = step::resend(&mut self.doing, &self.waiting)?;
        self.is_broken = false;
        Ok(outs)
    }

    /// The greeting of its age, which a new link begins with, in a session too.
    pub fn greet(&self) -> Result<Vec<Out>, NoMemory>
        ensures { IfOk result (λ outs. outs.items ≡ (clerk.hello (clerk.doing self.now)).outs) }
    {
        let mut outs = Vec::new(self.doing.alloc);
        outs.push(Out::Send(Msg::Hello(self.doing.id, self.doing.age)))?;
        Ok(outs)
    }

    /// Says goodbye, in a session.
    pub fn bye(&mut self) -> Result<Vec<Out>, ClerkFault>
        ensures ok { IfOk result (λ outs. EndsWith (clerk.bye self.old) self.new outs.items) }
        ensures spent { (c : Kind) → result ≡ Err (fault.Spent c) → ⊥ }
        ensures no_such { result ≡ Err fault.NoSuchOp → ⊥ }
    {
        self.ready()?;
        self.is_broken = true;
        let outs = step::bye(&mut self.doing)?;
        self.is_broken = false;
        Ok(outs)
    }

    /// One pick, which isn't asked again. `Spent(Batch)` where no number of a batch is left.
    pub fn flush(&mut self, asked: Asked) -> Result<(Flushed, Vec<Out>), ClerkFault>
        ensures answer { IfOk result (λ made. made.0 ≡ flushes.flush_answer asked self.old) }
        ensures ok { IfOk result (λ made. EndsWith (clerk.flush asked self.old) self.new made.1.items) }
        ensures spent { (c : Kind) → result ≡ Err (fault.Spent c) → (clerk.flush asked self.old).spent ≡ Some c }
        ensures kept { (c : Kind) → result ≡ Err (fault.Spent c) → self.new ≡ self.old }
        ensures no_such { result ≡ Err fault.NoSuchOp → ⊥ }
    {
        self.ready()?;
        let pick = match self.doing.ledger.log.pick(asked) {
            Ok(pick) => pick,
            Err(LogFault::Spent(counter)) => return Err(ClerkFault::Spent(counter)),
            Err(_) => return Err(ClerkFault::NoMemory),
        };
        self.is_broken = true;
        let outs = step::send_pick(&mut self.doing, &pick)?;
        self.is_broken = false;
        Ok((flushed_by(&pick), outs))
    }

    // A clerk that a fault left behind a change answers want of memory.
    fn ready(&self) -> Result<(), NoMemory> {
        if self.is_broken {
            return Err(NoMemory);
        }
        Ok(())
    }

    /// The session that it's in. It takes no memory.
    pub fn session(&self) -> Option<SessionNo>
        ensures { result ≡ self.now.session }
    {
        self.doing.session
    }

    /// Whether this start issued the operation.
    pub fn has_issued(&self, op: OpNo) -> bool
        ensures { result ≡ clerk.has_issued op self.now }
    {
        self.doing.has_issued(op)
    }

    /// The least undurable operation, or the next one. It takes no memory.
    pub fn floor(&self) -> u64
        ensures { result ≡ clerk.floor self.now }
    {
        self.doing.ledger.log.floor()
    }
}

// What a new start sends.
fn greeting(alloc: Global, id: ClerkId, boot: u64) -> Result<Vec<Out>, NoMemory>
    ensures { IfOk result (λ outs. outs.items ≡ (clerk.hello (clerk.doing (clerk.new_clerk id boot))).outs) }
{
    let mut outs = Vec::new(alloc);
    outs.push(Out::Send(Msg::Hello(id, Age { boot, round: 0 })))?;
    Ok(outs)
}

// Without a session.
fn new_doing(alloc: Global, id: ClerkId, boot: u64) -> Result<Doing, NoMemory>
    ensures { IfOk result (λ made. doing_of [] made ≡ clerk.doing (clerk.new_clerk id boot)) }
{
    let ledger = Ledger::new(alloc)?;
    let cache = Cache::new(alloc, MAX_TOKENS)?;
    Ok(Doing {
        alloc,
        id,
        age: Age { boot, round: 0 },
        session: None,
        epoch: 0,
        cache,
        ledger,
        recalls: Vec::new(alloc),
        pushes: Vec::new(alloc),
        wanted: Vec::new(alloc),
        ids: Vec::new(alloc),
        got: 0,
        asking: None,
        asks: 0,
        calls: 0,
        outs: Vec::new(alloc),
    })
}

fn flushed_by(pick: &Pick) -> Flushed
    ensures { result ≡ flushes.flushed_by pick.now }
{
    match pick {
        Pick::Batch(batch, _) => Flushed::Sent(*batch),
        Pick::Settled => Flushed::Settled,
        Pick::Behind(batch) => Flushed::Behind(*batch),
        Pick::Window(batch) => Flushed::Window(*batch),
    }
}
