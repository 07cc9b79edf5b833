// The last session of one clerk.
ghost use Rattle.std.specs.Prelude.{◌≡◌, ◌==◌, ◌+◌, ◌<◌, ◌≤◌, ◌^◌, ℕ, List, [], ◌++◌, length, None, Some, IfOk, OnOk, OnErr};
ghost use Rattle.std.specs.List.Sorted.{IsStrictlyIncreasing};
ghost use Rattle.ec_sessions.specs.Windows.{mark_answer};
ghost use Rattle.ec_sessions.specs.Slots.{is_greater, greeting, is_in, is_reserved, unspent_of, new_slot, ended, with_ids, granted, spent, batch_marked, open_count};
ghost use Rattle.ec_sessions.specs.SlotChecks.{open_session, CanMark, CanReserve, batch_answer, AreIds};

use crate::unspent::{is_there, spend_in, with_ids};
use crate::window::{Marked, Window};
use ec_base::{Age, Duplicate, List as Items, NoMemory, ObjId, SessionNo};
use std::alloc::Global;

/// The last session of a clerk: its age, whether it's open, the window of its batches, how often it was granted ids,
/// the first id of the last grant, and the ids that it hasn't spent.
#[derive(Drop)]
pub struct Slot {
    pub age: Age,
    pub session: SessionNo,
    pub is_open: bool,
    pub window: Window,
    pub grants: u32,
    pub last_first: Option<ObjId>,
    pub unspent: Items<ObjId>,
}

impl Duplicate for Slot {
    fn duplicate(&self) -> Result<Self, NoMemory> {
        Ok(Slot {
            age: self.age,
            session: self.session,
            is_open: self.is_open,
            window: self.window,
            grants: self.grants,
            last_first: self.last_first,
            unspent: self.unspent.duplicate()?,
        })
    }
}

/// What a server makes of a clerk's hello.
#[derive(Clone, Copy, Debug, Drop, PartialEq, Eq)]
pub enum Greeting {
    /// The age is above the greatest one. The open session ends, if there is one.
    Greater(Option<SessionNo>),
    /// The session of this age is open.
    Same(SessionNo),
    /// The session of this age has ended, with this window.
    Ended(SessionNo, Window),
    /// The age is below the greatest one, which is shown.
    OldBoot(Age),
}

pub(crate) fn greet(slot: &Option<Slot>, age: Age) -> Greeting
    ensures { result ≡ greeting slot.now age }
{
    let Some(slot) = slot else {
        return Greeting::Greater(None);
    };
    if slot.age.is_older(&age) {
        Greeting::Greater(if slot.is_open {
            Some(slot.session)
        } else {
            None
        })
    } else if age.is_older(&slot.age) {
        Greeting::OldBoot(slot.age)
    } else if slot.is_open {
        Greeting::Same(slot.session)
    } else {
        Greeting::Ended(slot.session, slot.window)
    }
}

pub(crate) fn new_slot(alloc: Global, age: Age, session: SessionNo) -> Slot
    ensures { result ≡ new_slot age session }
{
    Slot {
        age,
        session,
        is_open: true,
        window: Window { low: 0, mask: 0 },
        grants: 0,
        last_first: None,
        unspent: Items::of(Vec::new(alloc)),
    }
}

pub(crate) fn end(alloc: Global, slot: &mut Option<Slot>) -> Option<SessionNo>
    ensures answer { result ≡ open_session slot.old }
    ensures slot { slot.new ≡ ended slot.old }
{
    match slot {
        Some(slot) if slot.is_open => {
            slot.is_open = false;
            slot.unspent = Items::of(Vec::new(alloc));
            Some(slot.session)
        }
        _ => None,
    }
}

pub(crate) fn mark(slot: &mut Option<Slot>, n: u64) -> Marked
    requires { CanMark slot.old }
    ensures answer { result ≡ batch_answer slot.old n }
    ensures slot { slot.new ≡ batch_marked n slot.old }
{
    match slot {
        Some(slot) => slot.window.mark(n),
        None => Marked::Already,
    }
}

pub(crate) fn open_count(slot: &Option<Slot>) -> usize
    ensures { result ≡ open_count slot.now }
{
    match slot {
        Some(slot) if slot.is_open => slot.unspent.as_slice().len(),
        _ => 0,
    }
}

pub(crate) fn grant(alloc: Global, slot: &mut Option<Slot>, first: ObjId) -> Result<(), NoMemory>
    requires last { first ≤ 4294967279 }
    requires room { CanReserve slot.old }
    ensures ok { OnOk result (slot.new ≡ granted first slot.old) }
    ensures err { OnErr result (slot.new ≡ slot.old) }
    ensures from_one { 1 ≤ first }
{
    let number = first.get();
    if let Some(slot) = slot {
        let unspent = with_ids(alloc, number, slot.unspent.as_slice())?;
        slot.unspent = Items::of(unspent);
        slot.grants += 1;
        slot.last_first = Some(first);
    }
    Ok(())
}

pub(crate) fn spend(alloc: Global, slot: &mut Option<Slot>, id: ObjId) -> bool
    requires { IsStrictlyIncreasing (unspent_of slot.old) }
    ensures answer { result ≡ is_reserved slot.old id }
    ensures slot { slot.new ≡ spent id slot.old }
{
    match slot {
        Some(slot) if slot.is_open => spend_in(alloc, &mut slot.unspent, id),
        _ => false,
    }
}

pub(crate) fn is_reserved(slot: &Option<Slot>, id: ObjId) -> bool
    requires { IsStrictlyIncreasing (unspent_of slot.now) }
    ensures { result ≡ is_reserved slot.now id }
{
    match slot {
        Some(slot) => slot.is_open && is_there(slot.unspent.as_slice(), id),
        None => false,
    }
}

pub(crate) fn read_ids(slot: &Option<Slot>)
    ensures { AreIds (unspent_of slot.now) }
{
    if let Some(slot) = slot {
        read_each(slot.unspent.as_slice());
    }
}

fn read_each(ids: &[ObjId])
    ensures { AreIds ids.now }
{
    for id in ids {
        let _number = id.get();
    }
}
