ghost use Rattle.std.specs.Prelude.{◌≡◌, ℕ, ◌<◌, [], ◌∷◌, ◌++◌, true, false, is_some, option_copied, IsTrue, IfSome, OnOk, OnErr};
ghost use Rattle.std.specs.Ordering.{nat_cmp};
ghost use Rattle.std.specs.List.Sorted.{IsStrictlySortedBy};
ghost use Rattle.ec_base.specs.Tables.{at, keys, first};
ghost use Rattle.ec_volume.specs.Update.{member};
ghost use Rattle.ec_wire.specs.Messages.{is_sound};
ghost use Rattle.ec_protocol.specs.World as machine;
ghost use Rattle.ec_protocol.specs.declared.world.World.{World};
ghost use Rattle.ec_protocol.specs.OfPool.Pools.{with_pool, made_pending, Stands};
ghost use Rattle.ec_protocol.specs.OfPool.Goings as goings;
ghost use Rattle.ec_protocol.specs.OfPool.Insides.{link_of};
ghost use Rattle.ec_wire.specs.RowLaws.{key_of};

use crate::Sent;
use crate::pool::counts::{Count, count_of, count_one_more};
use crate::pool::forget::{forget_passed, forget_settled};
use crate::pool::kinds::{is_for_server, is_same_kind, kind_of};
use crate::pool::links::{Link, first_due, first_due_but, is_among, link_of, mend};
use ec_base::{ClerkId, LAST_COUNTER, NoMemory, SortedMap};
use ec_wire::{Msg, MsgKind};
use std::alloc::Global;
use std::collections::BTreeMap;
use std::marker::Model;

/// The messages between the clerks and the server.
pub struct Pool {
    sent: u64,
    counts: Vec<Count>,
    kept: BTreeMap<u64, Sent>,
    // with their links, so that the due one is found without a look into the messages
    pending: SortedMap<u64, Link>,
    cut: Vec<ClerkId>,
    // since the last call of `forget`; there is room for all that are pending
    settled: Vec<u64>,
    // what `sent` was at the last call of `forget`
    forgotten_at: u64,
}

// Who drops one calls this, and needn't take it apart.
impl Drop for Pool {
    fn drop(self) {
        let Pool {
            sent: _,
            counts,
            kept,
            pending,
            cut,
            settled,
            forgotten_at: _,
        } = self;
        drop(counts);
        drop(kept);
        drop(pending);
        drop(cut);
        drop(settled);
    }
}

impl Model for Pool {
    ghost use Rattle.std.specs.Prelude.{ℕ};
    ghost use Rattle.ec_base.specs.Tables.{keys};
    ghost use Rattle.std.specs.Prelude.{vec_capacity};
    ghost use Rattle.ec_protocol.specs.OfPool.Pools.{Pooled};
    ghost use Rattle.ec_protocol.specs.OfPool.Insides.{HoldsSent};

    ghost Value = { Pooled };

    ghost view = { λ a. record { sent = a.sent; counts = a.counts.items; pool = a.kept.entries; pending = keys a.pending; cut = a.cut.items } };

    ghost invariant = { λ a. HoldsSent a.sent a.counts.items a.kept.entries a.pending a.settled.items a.forgotten_at (vec_capacity a.settled) };
}

impl Pool {
    /// The pool before the first message.
    pub fn new(alloc: Global) -> Self
        ensures { result ≡ record { sent = 0; counts = []; pool = []; pending = []; cut = [] } }
    {
        Pool {
            sent: 0,
            counts: Vec::new(alloc),
            kept: BTreeMap::new(alloc),
            pending: SortedMap::new(alloc),
            cut: Vec::new(alloc),
            settled: Vec::new(alloc),
            forgotten_at: 0,
        }
    }

    /// What holds of every pool. It does nothing.
    pub fn stands(&self)
        ensures { Stands self.now }
    {
        let _ = self.pending.items();
    }

    /// Puts a message into the pool, where it is pending. Numbers end at 2^62: from there on a step ends as for want of memory.
    pub fn send(&mut self, clerk: ClerkId, msg: Msg) -> Result<(), NoMemory>
        requires { IsTrue (is_sound msg) }
        ensures ok { OnOk result ((w : World) → machine.send clerk msg (with_pool self.old w) ≡ with_pool self.new w) }
        ensures err { OnErr result (self.new ≡ self.old) }
    {
        if self.sent >= LAST_COUNTER {
            drop(msg);
            return Err(NoMemory);
        }
        let number = self.sent + 1;
        let kind = kind_of(&msg);
        let sent = Sent {
            clerk,
            nth: count_of(&self.counts, clerk, kind) + 1,
            msg,
        };
        self.counts.reserve(1)?;
        self.settled.reserve(self.pending.len() + 1)?;
        put_in(&mut self.kept, &mut self.pending, number, sent)?;
        count_one_more(&mut self.counts, clerk, kind);
        self.sent = number;
        Ok(())
    }

    /// The number of the nth message of the kind between the clerk and the server, where it is kept.
    pub fn find(&self, clerk: ClerkId, kind: MsgKind, nth: u32) -> Option<u64>
        ensures number { (w : World) → machine.find clerk kind nth (with_pool self.now w) ≡ result }
        ensures kept { IfSome result (λ n. IsTrue (is_some (at n self.now.pool))) }
    {
        first_of(&self.kept, clerk, kind, u64::from(nth))
    }

    /// The least pending message whose link isn't cut, and that isn't for a stopped server.
    pub fn due(&self, server_is_running: bool) -> Option<u64>
        ensures number { (w : World) → is_some w.server ≡ server_is_running → machine.due (with_pool self.now w) ≡ result }
        ensures kept { IfSome result (λ n. IsTrue (is_some (at n self.now.pool))) }
        ensures pending { IfSome result (λ n. IsTrue (member n self.now.pending)) }
    {
        first_due(self.pending.items(), &self.cut, server_is_running)
    }

    /// The least such message that isn't kept from these clerks: it's an Ended, or goes to none of them.
    pub fn due_but(&self, server_is_running: bool, held: &[ClerkId]) -> Option<u64>
        ensures { (w : World) → is_some w.server ≡ server_is_running → goings.due_but held.now (with_pool self.now w) ≡ result }
    {
        first_due_but(
            self.pending.items(),
            &self.kept,
            &self.cut,
            server_is_running,
            held,
        )
    }

    /// To which clerk a kept message goes, and its kind. It's none where it goes to the server.
    pub fn goes_to(&self, number: u64) -> Option<(ClerkId, MsgKind)>
        ensures { (w : World) → goings.goes_to number (with_pool self.now w) ≡ result }
    {
        match self.kept.get(&number) {
            Some(sent) if !is_for_server(sent) => Some((sent.clerk, kind_of(&sent.msg))),
            _ => None,
        }
    }

    /// How many messages are pending.
    pub fn pending(&self) -> u64
        ensures { (w : World) → machine.pending (with_pool self.now w) ≡ result }
    {
        self.pending.len() as u64
    }

    /// Whether the message is pending.
    pub fn is_pending(&self, number: u64) -> bool
        ensures value { (w : World) → machine.is_pending number (with_pool self.now w) ≡ result }
        ensures kept { IsTrue result → IsTrue (is_some (at number self.now.pool)) }
    {
        self.pending.contains(&number)
    }

    /// The message of this number, if it is kept.
    pub fn message(&self, number: u64) -> Option<&Sent>
        ensures value { option_copied result ≡ at number self.now.pool }
        ensures sound { IfSome result (λ sent. IsTrue (is_sound sent.now.msg)) }
    {
        self.kept.get(&number)
    }

    /// The message isn't pending any more. It takes no memory.
    pub fn settle(&mut self, number: u64)
        ensures { (w : World) → machine.settled number (with_pool self.old w) ≡ with_pool self.new w }
    {
        if self.pending.remove(&number).is_some() {
            self.settled.push(number).unwrap();
        }
    }

    /// A kept message gets pending, if it isn't yet.
    pub fn make_pending(&mut self, number: u64) -> Result<(), NoMemory>
        requires { IsTrue (is_some (at number self.old.pool)) }
        ensures ok { OnOk result ((w : World) → machine.repeat number (with_pool self.old w) ≡ machine.moving (with_pool self.new w)) }
        ensures pending { OnOk result ((w : World) → made_pending number (with_pool self.old w) ≡ with_pool self.new w) }
        ensures err { OnErr result (self.new ≡ self.old) }
    {
        if self.pending.contains(&number) {
            return Ok(());
        }
        let Some(sent) = self.kept.get(&number) else {
            return Ok(());
        };
        let link = link_of(sent);
        self.settled.reserve(self.pending.len() + 1)?;
        self.pending.insert(number, link)
    }

    /// Whether the clerk's link is cut.
    pub fn is_cut(&self, clerk: ClerkId) -> bool
        ensures { result ≡ member clerk self.now.cut }
    {
        is_among(&self.cut, clerk)
    }

    /// Cuts the clerk's link, which isn't cut yet.
    pub fn cut(&mut self, clerk: ClerkId) -> Result<(), NoMemory>
        requires { member clerk self.old.cut ≡ false }
        ensures ok { OnOk result ((w : World) → machine.cut clerk (with_pool self.old w) ≡ machine.moving (with_pool self.new w)) }
        ensures err { OnErr result (self.new ≡ self.old) }
    {
        self.cut.insert(0, clerk)?;
        Ok(())
    }

    /// Mends the clerk's cut link. It takes no memory.
    pub fn uncut(&mut self, clerk: ClerkId)
        requires { member clerk self.old.cut ≡ true }
        ensures { (w : World) → machine.uncut clerk (with_pool self.old w) ≡ machine.moving (with_pool self.new w) }
    {
        mend(&mut self.cut, clerk);
    }

    /// Keeps the pending messages and the last ones alone. It takes no memory, and looks only at messages that were settled or ceased to be
    /// among the last ones since the last call.
    pub fn forget(&mut self)
        ensures { (w : World) → machine.forget (with_pool self.old w) ≡ with_pool self.new w }
    {
        forget_settled(&mut self.kept, &self.pending, &self.settled, self.sent);
        forget_passed(&mut self.kept, &self.pending, self.forgotten_at, self.sent);
        self.settled.clear();
        self.forgotten_at = self.sent;
    }
}

// Puts the message in behind the others, or changes nothing.
fn put_in(
    kept: &mut BTreeMap<u64, Sent>,
    pending: &mut SortedMap<u64, Link>,
    number: u64,
    sent: Sent,
) -> Result<(), NoMemory>
    requires kept { (q : ℕ) → IsTrue (is_some (at q kept.old.entries)) → q < number }
    requires pending { (q : ℕ) → IsTrue (is_some (at q pending.old)) → q < number }
    ensures kept { OnOk result (kept.new.entries ≡ kept.old.entries ++ (number, sent) ∷ []) }
    ensures pending { OnOk result (pending.new ≡ pending.old ++ (number, link_of sent) ∷ []) }
    ensures rises { IsStrictlySortedBy nat_cmp (keys kept.new.entries) }
    ensures err { OnErr result ((kept.new.entries ≡ kept.old.entries) × (pending.new ≡ pending.old)) }
{
    let link = link_of(&sent);
    drop(kept.insert(number, sent)?);
    if pending.insert(number, link).is_err() {
        drop(kept.remove(&number));
        return Err(NoMemory);
    }
    Ok(())
}

// The number of the first message that is the nth of the kind between the clerk and the server.
fn first_of(kept: &BTreeMap<u64, Sent>, clerk: ClerkId, kind: MsgKind, nth: u64) -> Option<u64>
    ensures { result ≡ key_of (first (machine.is_this clerk kind nth) kept.now.entries) }
{
    for (number, sent) in kept {
        if is_this(sent, clerk, kind, nth) {
            return Some(*number);
        }
    }
    None
}

fn is_this(sent: &Sent, clerk: ClerkId, kind: MsgKind, nth: u64) -> bool
    ensures { (n : ℕ) → result ≡ machine.is_this clerk kind nth (n, sent.now) }
{
    sent.clerk == clerk && is_same_kind(kind_of(&sent.msg), kind) && sent.nth == nth
}
