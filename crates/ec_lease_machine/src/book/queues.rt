// Queued calls.
ghost use Rattle.std.specs.Prelude.{◌≡◌, ◌<◌, ◌≤◌, ◌+◌, ◌++◌, ◌∷◌, [], ℕ, T, List as Listed, length, drop as behind, IfOk, OnOk};
ghost use Rattle.std.specs.FinMap.Entries.{is_sorted};
ghost use Rattle.std.specs.Ordering.{nat_cmp};
ghost use Rattle.ec_base.specs.Tables.{at_or, put, without};
ghost use Rattle.ec_plain.specs.declared.call.Call.{Call as Asked};
ghost use Rattle.ec_protocol.specs.declared.world.World.{World};
ghost use Rattle.ec_lease_machine.specs.Leases as leases;
ghost use Rattle.ec_lease_machine.specs.OfBook.Book.{with_book};

use crate::book::notes::Book;
use ec_base::{ClerkId, Duplicate, List, NoMemory, SortedMap};
use ec_plain::Call;
use std::alloc::Global;

impl Book {
    /// One more call of the clerk is queued.
    pub fn queue(
        &mut self,
        alloc: Global,
        clerk: ClerkId,
        line: u32,
        call: Call,
    ) -> Result<(), NoMemory>
        ensures { OnOk result (self.new ≡ record self.old { queued = put clerk (at_or [] clerk self.old.queued ++ (line, call) ∷ []) self.old.queued }) }
    {
        add_to(alloc, &mut self.queued, clerk, (line, call))
    }

    /// Takes the clerk's queued calls out.
    pub fn take_queue(&mut self, alloc: Global, clerk: ClerkId) -> Vec<(u32, Call)>
        ensures queue { result.items ≡ at_or [] clerk self.old.queued }
        ensures left { self.new ≡ record self.old { queued = without clerk self.old.queued } }
        // what is put back then is put as if none had been taken
        ensures back { (queue : Listed (ℕ × Asked)) (w : World) → leases.with_queue clerk queue (with_book self.new w) ≡ leases.with_queue clerk queue (with_book self.old w) }
    {
        take_list(alloc, &mut self.queued, clerk)
    }

    /// How many calls of the clerk are queued.
    pub fn queued(&self, clerk: ClerkId) -> usize
        ensures { result ≡ length (at_or [] clerk self.now.queued) }
    {
        match self.queued.get(&clerk) {
            Some(queue) => queue.as_slice().len(),
            None => 0,
        }
    }

    /// A copy of the clerk's queued call behind so many.
    pub fn queued_at(&self, clerk: ClerkId, count: usize) -> Result<(u32, Call), NoMemory>
        requires { count < length (at_or [] clerk self.now.queued) }
        ensures { IfOk result (λ next. behind count (at_or [] clerk self.now.queued) ≡ next ∷ behind (count + 1) (at_or [] clerk self.now.queued)) }
    {
        let Some(queue) = self.queued.get(&clerk) else {
            unreachable!();
        };
        match queue.as_slice().get(count) {
            Some(queued) => Ok((queued.0, queued.1.duplicate()?)),
            None => unreachable!(),
        }
    }

    /// The first of the clerk's queued calls, so many, have begun, and the others stay queued.
    pub fn leave_behind(
        &mut self,
        alloc: Global,
        clerk: ClerkId,
        count: usize,
    ) -> Result<(), NoMemory>
        requires { count ≤ length (at_or [] clerk self.old.queued) }
        ensures { OnOk result ((w : World) → leases.with_queue clerk (behind count (at_or [] clerk self.old.queued)) (with_book self.old w) ≡ with_book self.new w) }
    {
        let mut queue = self.take_queue(alloc, clerk);
        queue.drain(..count);
        self.set_queue(clerk, queue)
    }

    /// The clerk's queued calls are these.
    pub fn set_queue(&mut self, clerk: ClerkId, queue: Vec<(u32, Call)>) -> Result<(), NoMemory>
        ensures { OnOk result ((w : World) → leases.with_queue clerk queue.items (with_book self.old w) ≡ with_book self.new w) }
    {
        if queue.is_empty() {
            drop(queue);
            drop(self.queued.remove(&clerk));
            return Ok(());
        }
        self.queued.insert(clerk, List::of(queue))
    }
}

// Puts one more behind the clerk's list.
pub(crate) fn add_to<V: Drop>(
    alloc: Global,
    lists: &mut SortedMap<ClerkId, List<V>>,
    clerk: ClerkId,
    item: V,
) -> Result<(), NoMemory>
    ensures { OnOk result (lists.new ≡ put clerk (at_or [] clerk lists.old ++ item ∷ []) lists.old) }
{
    let mut own = take_list(alloc, lists, clerk);
    own.push(item)?;
    lists.insert(clerk, List::of(own))
}

// Takes the clerk's list out.
fn take_list<V: Drop>(
    alloc: Global,
    lists: &mut SortedMap<ClerkId, List<V>>,
    clerk: ClerkId,
) -> Vec<V>
    ensures own { result.items ≡ at_or [] clerk lists.old }
    ensures left { lists.new ≡ without clerk lists.old }
    ensures sorted { T (is_sorted nat_cmp lists.old) }
{
    let _rising = lists.items();
    match lists.remove(&clerk) {
        Some(own) => own.into_vec(),
        None => Vec::new(alloc),
    }
}
