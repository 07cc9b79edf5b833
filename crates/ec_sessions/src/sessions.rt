// The sessions of sixteen clerks.
ghost use Rattle.std.specs.Prelude.{◌≡◌, ◌+◌, ◌<◌, ◌≤◌, ◌^◌, ℕ, List, Option, None, Some, IfOk, IsOk, OnOk, OnErr, IsTrue, replicate, MatchOption};
ghost use Rattle.ec_sessions.specs.WindowMarks.{times};
ghost use Rattle.ec_sessions.specs.Slots.{slot_at, with_slot, is_greater, greeting, is_reserved, new_slot, ended, granted, spent, batch_marked, all_unspent, reserved};
ghost use Rattle.ec_sessions.specs.SlotChecks.{open_session, CanMark, batch_answer, CanReserve, AreSlots, AreIds};

use crate::slot::{self, Greeting, Slot};
use crate::window::Marked;
use ec_base::{Age, ClerkId, Duplicate, NoMemory, ObjId, SessionNo};
use std::alloc::Global;
use std::marker::Model;

/// The last session of each of the sixteen clerks.
pub struct Sessions {
    slots: Vec<Option<Slot>>,
}

// Who drops one calls this, and needn't take it apart.
impl Drop for Sessions {
    fn drop(self) {
        let Sessions { slots } = self;
        drop(slots);
    }
}

impl Model for Sessions {
    ghost use Rattle.std.specs.Prelude.{List, Option};
    ghost use Rattle.ec_sessions.specs.declared.slot.Slot.{Slot};
    ghost use Rattle.ec_sessions.specs.SlotChecks.{IsTable};

    ghost Value = { List (Option Slot) };

    ghost view = { λ a. a.slots.items };

    ghost invariant = { λ a. IsTable a.slots.items };
}

impl Sessions {
    /// No clerk has had a session.
    pub fn new(alloc: Global) -> Result<Sessions, NoMemory>
        ensures { IfOk result (λ sessions. sessions ≡ replicate 16 None) }
    {
        let mut slots = Vec::with_capacity(alloc, 16)?;
        'clerks: for _ in 0..16_u8 {
            slots.push(None)?;
        }
        Ok(Sessions { slots })
    }

    /// What a hello of this age means.
    pub fn hello(&self, clerk: ClerkId, age: Age) -> Greeting
        ensures { result ≡ greeting (slot_at self.now clerk) age }
    {
        slot::greet(&self.slots[clerk.get() as usize], age)
    }

    /// Opens a session in the place of the clerk's last one.
    pub fn open(&mut self, clerk: ClerkId, age: Age, session: SessionNo) -> Result<(), NoMemory>
        requires { IsTrue (is_greater (slot_at self.old clerk) age) }
        ensures succeeds { IsOk result }
        ensures slots { self.new ≡ with_slot clerk (Some (new_slot age session)) self.old }
    {
        let alloc = *self.slots.allocator();
        self.slots[clerk.get() as usize] = Some(slot::new_slot(alloc, age, session));
        Ok(())
    }

    /// Ends the clerk's open session and tells it. Its unspent ids are dropped, and its window stays.
    pub fn end(&mut self, clerk: ClerkId) -> Option<SessionNo>
        ensures answer { result ≡ open_session (slot_at self.old clerk) }
        ensures slots { self.new ≡ with_slot clerk (ended (slot_at self.old clerk)) self.old }
    {
        let alloc = *self.slots.allocator();
        slot::end(alloc, &mut self.slots[clerk.get() as usize])
    }

    /// Adds the sixteen ids from `first` to the unspent ones of the clerk's open session.
    pub fn reserve(&mut self, clerk: ClerkId, first: ObjId) -> Result<(), NoMemory>
        requires room { CanReserve (slot_at self.old clerk) }
        requires last { first ≤ 4294967279 }
        requires new { (id : ℕ) → first ≤ id → id < first + 16 → times id (all_unspent self.old) ≡ 0 }
        ensures ok { OnOk result (self.new ≡ with_slot clerk (granted first (slot_at self.old clerk)) self.old) }
        ensures err { OnErr result (self.new ≡ self.old) }
    {
        let alloc = *self.slots.allocator();
        slot::grant(alloc, &mut self.slots[clerk.get() as usize], first)
    }

    /// Whether the id is one of the unspent ones of the clerk's open session.
    pub fn is_reserved(&self, clerk: ClerkId, id: ObjId) -> bool
        ensures { result ≡ is_reserved (slot_at self.now clerk) id }
    {
        slot::is_reserved(&self.slots[clerk.get() as usize], id)
    }

    /// Takes an id out of the unspent ones of the clerk's open session, and tells whether it was one of them.
    pub fn spend(&mut self, clerk: ClerkId, id: ObjId) -> bool
        ensures answer { result ≡ is_reserved (slot_at self.old clerk) id }
        ensures slots { self.new ≡ with_slot clerk (spent id (slot_at self.old clerk)) self.old }
    {
        let alloc = *self.slots.allocator();
        slot::spend(alloc, &mut self.slots[clerk.get() as usize], id)
    }

    /// How many ids of open sessions are unspent.
    pub fn reserved(&self) -> u32
        ensures { result ≡ reserved self.now }
    {
        count_reserved(&self.slots)
    }

    /// The clerk's last session.
    pub fn slot(&self, clerk: ClerkId) -> Option<&Slot>
        ensures slot { MatchOption result (slot_at self.now clerk ≡ None) (λ slot. slot_at self.now clerk ≡ Some slot.now) }
        ensures table { AreSlots self.now }
    {
        self.slots[clerk.get() as usize].as_ref()
    }

    /// Marks a batch in the window of the clerk's open session.
    pub fn mark(&mut self, clerk: ClerkId, n: u64) -> Marked
        requires { CanMark (slot_at self.old clerk) }
        ensures answer { result ≡ batch_answer (slot_at self.old clerk) n }
        ensures slots { self.new ≡ with_slot clerk (batch_marked n (slot_at self.old clerk)) self.old }
    {
        slot::mark(&mut self.slots[clerk.get() as usize], n)
    }

    /// The slots of the clerks in order.
    pub fn into_slots(self) -> Vec<Option<Slot>>
        ensures slots { result.items ≡ self }
        ensures table { AreSlots self }
    {
        let Sessions { slots } = self;
        slots
    }

    /// The sessions with these slots, of the clerks in order.
    pub fn of(slots: Vec<Option<Slot>>) -> Result<Sessions, NoMemory>
        requires { AreSlots slots.items }
        ensures succeeds { IsOk result }
        ensures ok { IfOk result (λ sessions. sessions ≡ slots.items) }
    {
        read_ids(&slots);
        Ok(Sessions { slots })
    }
}

impl Duplicate for Sessions {
    fn duplicate(&self) -> Result<Self, NoMemory> {
        Ok(Sessions {
            slots: copied(&self.slots)?,
        })
    }
}

fn copied(slots: &Vec<Option<Slot>>) -> Result<Vec<Option<Slot>>, NoMemory>
    ensures { IfOk result (λ copies. copies.items ≡ slots.now.items) }
{
    let mut copies = Vec::with_capacity(*slots.allocator(), slots.len())?;
    for slot in slots {
        copies.push(slot.duplicate()?)?;
    }
    Ok(copies)
}

// A proof knows the range of the ids that are read. No code is left of this.
fn read_ids(slots: &[Option<Slot>])
    ensures { AreIds (all_unspent slots.now) }
{
    for slot in slots {
        slot::read_ids(slot);
    }
}

fn count_reserved(slots: &[Option<Slot>]) -> u32
    requires { reserved slots.now < 2 ^ 32 }
    ensures { result ≡ reserved slots.now }
{
    let mut count = 0;
    for slot in slots {
        count += slot::open_count(slot);
    }
    count as u32
}
