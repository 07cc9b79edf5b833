// A clerk's log.
ghost use Rattle.std.specs.Prelude.{◌≡◌, ℕ, true, false, List, length, Ok, Err, is_some, IfOk, IfSome, OnOk, OnErr};
ghost use Rattle.ec_base.specs.Tables.{at, keys};
ghost use Rattle.ec_base.specs.declared.counter.Counter.{Counter as Kind};
ghost use Rattle.ec_base.specs.declared.counter.Counter.TheVariants as counter;
ghost use Rattle.ec_log.specs.OfChains.Slots.{live};
ghost use Rattle.ec_log.specs.Log as log;
ghost use Rattle.ec_log.specs.LogOrder as log_order;
ghost use Rattle.ec_log.specs.declared.state.LogFault.TheVariants as fault;
ghost use Rattle.ec_log.specs.declared.state.Pick.TheVariants as picked;

use crate::asked::{first_asked, front_of};
use crate::chains::{Ask, Order, Slot};
use crate::choice::{choose, first_met, lost_of, those_in};
use crate::limits::MAX_UNDURABLE;
use crate::state::{Asked, LogFault, Pick};
use ec_base::{Counter, Duplicate, LAST_COUNTER, List, NoMemory, OpNo, SortedMap};
use ec_sessions::Window;
use ec_volume::Update;
use std::alloc::Global;
use std::marker::Model;

/// The operations that aren't known to be durable, and the batches under way.
pub struct Log {
    alloc: Global,
    next: u64,
    first: u64,
    undurable: Order,
    batches: SortedMap<u64, List<OpNo>>,
    next_batch: u64,
}

// Who drops one calls this, and needn't take it apart.
impl Drop for Log {
    fn drop(self) {
        let Log {
            alloc: _,
            next: _,
            first: _,
            undurable,
            batches,
            next_batch: _,
        } = self;
        drop(undurable);
        drop(batches);
    }
}

impl Model for Log {
    ghost use Rattle.std.specs.Prelude.{◌≡◌, ◌≤◌, true};
    ghost use Rattle.ec_log.specs.OfChains.Held.{is_behind};
    ghost use Rattle.ec_log.specs.LogOrder.{is_from};
    ghost use Rattle.ec_log.specs.Chosen.{all_rise};
    ghost use Rattle.ec_log.specs.declared.state.LogState.{LogState};

    ghost Value = { LogState };

    ghost view = { λ l. record { next = l.next; first = l.first; undurable = l.undurable; batches = l.batches; next_batch = l.next_batch } };

    ghost invariant = { λ l. (l.first ≤ l.next) × (is_from l.first l.undurable ≡ true) × (is_behind l.next l.undurable ≡ true) × (all_rise l.batches ≡ true) };
}

impl From<NoMemory> for LogFault {
    ghost from_gives = { λ _ e. e ≡ fault.NoMemory };

    fn from(_: NoMemory) -> Self {
        LogFault::NoMemory
    }
}

impl Log {
    /// Nothing was issued.
    pub fn new(alloc: Global) -> Result<Log, NoMemory>
        ensures { IfOk result (λ made. made ≡ log.empty) }
    {
        Ok(Log {
            alloc,
            next: 1,
            first: 1,
            undurable: Order::new(alloc)?,
            batches: SortedMap::new(alloc),
            next_batch: 1,
        })
    }

    /// Issues the operation of the next number. Tested in this order: `Full`, where 65,536 are
    /// undurable, then `Spent(Op)`.
    pub fn issue(&mut self, update: Update) -> Result<OpNo, LogFault>
        ensures op { IfOk result (λ op. op ≡ self.old.next) }
        ensures ok { OnOk result (self.new ≡ log.issue update self.old) }
        ensures room { OnOk result ((log.is_full self.old ≡ false) × (log.ops_are_spent self.old ≡ false)) }
        ensures err { OnErr result (self.new ≡ self.old) }
        ensures full { result ≡ Err fault.Full → log.is_full self.old ≡ true }
        ensures spent { (c : Kind) → result ≡ Err (fault.Spent c) → (c ≡ counter.Op) × (log.is_full self.old ≡ false) × (log.ops_are_spent self.old ≡ true) }
    {
        if self.undurable.count() >= MAX_UNDURABLE {
            drop(update);
            return Err(LogFault::Full);
        }
        if self.next > LAST_COUNTER {
            drop(update);
            return Err(LogFault::Spent(Counter::Op));
        }
        let op = OpNo(self.next);
        self.undurable.hold(op, update)?;
        self.next += 1;
        Ok(op)
    }

    /// What is to be sent for what is asked, of which a new batch is then under way: nothing where
    /// all of it is durable, else nothing before the first batch that has some of it, else nothing
    /// before the least batch while the window is full, else the first 64 of its closure.
    /// `Spent(Batch)` where a new batch would pass the limit.
    pub fn pick(&mut self, asked: Asked) -> Result<Pick, LogFault>
        ensures pick { IfOk result (λ made. made ≡ log.pick asked self.old) }
        ensures ok { IfOk result (λ made. self.new ≡ log.after_pick made self.old) }
        ensures room { (no : ℕ) (ops : List ℕ) → result ≡ Ok (picked.Batch no ops) → log.batches_are_spent self.old ≡ false }
        ensures err { OnErr result (self.new ≡ self.old) }
        ensures full { result ≡ Err fault.Full → ⊥ }
        ensures spent { (c : Kind) → result ≡ Err (fault.Spent c) → (c ≡ counter.Batch) × (log_order.is_new (log.pick asked self.old) ≡ true) × (log.batches_are_spent self.old ≡ true) }
    {
        let ops = front_of(&self.undurable, asked)?;
        let batches = self.batches.items();
        let behind = first_met(batches, &ops, &asked, &self.undurable);
        let made = choose(ops, self.next_batch, batches, behind);
        if let Pick::Batch(no, ops) = &made {
            if self.next_batch > LAST_COUNTER {
                return Err(LogFault::Spent(Counter::Batch));
            }
            self.batches.insert(*no, ops.duplicate()?)?;
            self.next_batch += 1;
        }
        Ok(made)
    }

    /// Copies of the operations of a batch under way, in the order of issue. Each is found in time of
    /// the logarithm of how many are undurable.
    pub fn batch(&self, no: u64) -> Result<Option<List<(OpNo, Update)>>, NoMemory>
        ensures some { IfOk result (λ found. IfSome found (λ ops. ops ≡ log.batch no self.now)) }
        ensures under_way { IfOk result (λ found. is_some found ≡ is_some (at no self.now.batches)) }
    {
        match self.batches.get(&no) {
            None => Ok(None),
            Some(members) => {
                let ops = those_in(self.alloc, members.as_slice(), &self.undurable)?;
                Ok(Some(List::of(ops)))
            }
        }
    }

    /// The operations of the batch are durable. A batch that isn't under way changes nothing. It
    /// takes no memory.
    pub fn kept(&mut self, no: u64)
        ensures { self.new ≡ log.kept no self.old }
    {
        if let Some(ops) = self.batches.remove(&no) {
            self.undurable.settle(ops.as_slice());
        }
    }

    /// The undurable operations but those in batches that the window has.
    pub fn lost(&self, window: &Window) -> Result<Vec<OpNo>, NoMemory>
        ensures { IfOk result (λ ops. ops.items ≡ keys (log.lost window.now self.now)) }
    {
        lost_of(
            self.alloc,
            window,
            self.batches.items(),
            self.undurable.slots(),
        )
    }

    /// Ends a session: nothing is undurable or under way, batches begin at 1 again, and the numbers
    /// of operations go on. It takes no memory.
    pub fn end(&mut self)
        ensures { self.new ≡ log.end self.old }
    {
        self.first = self.next;
        self.undurable.clear();
        self.batches = SortedMap::new(self.alloc);
        self.next_batch = 1;
    }

    /// The least undurable operation, or the next one where there is none. It takes no memory.
    pub fn floor(&self) -> u64
        ensures { result ≡ log.floor self.now }
    {
        match self.undurable.first(Ask::All) {
            Some(op) => op.0,
            None => self.next,
        }
    }

    /// The least undurable operation that is asked for by itself. It takes no memory.
    pub fn first(&self, asked: Asked) -> Option<OpNo>
        ensures { result ≡ log.first asked self.now }
    {
        first_asked(&self.undurable, asked)
    }

    /// The operations that aren't known to be durable, in the order of issue, at their places: some
    /// places are empty, no more than have one. They rise from the first one of this session on.
    pub fn undurable(&self) -> &[Slot]
        ensures value { live result.now ≡ self.now.undurable }
        ensures own { log_order.AreOwn self.now }
    {
        self.undurable.slots()
    }

    /// How many they are.
    pub fn count(&self) -> usize
        ensures { result ≡ length self.now.undurable }
    {
        self.undurable.count()
    }

    /// The batches under way, by rising number.
    pub fn under_way(&self) -> &[(u64, List<OpNo>)]
        ensures { result.now ≡ self.now.batches }
    {
        self.batches.items()
    }

    /// The number of the next operation.
    pub fn next(&self) -> u64
        ensures { result ≡ self.now.next }
    {
        self.next
    }

    /// The number of the first operation of this session.
    pub fn first_of_session(&self) -> u64
        ensures { result ≡ self.now.first }
    {
        self.first
    }
}
