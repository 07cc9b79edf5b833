// The operations of a start that aren't covered.
ghost use Rattle.std.specs.Prelude.{◌≡◌, ◌<◌, ◌≤◌, ◌++◌, ℕ, T, [], Some, true, IfOk, OnOk, OnErr};
ghost use Rattle.std.specs.Ordering.{nat_cmp};
ghost use Rattle.std.specs.FinMap.{is_sorted};
ghost use Rattle.ec_base.specs.Tables.{at_or, put};
ghost use Rattle.ec_volume.specs.Update.{member, operands};
ghost use Rattle.ec_pending.specs.Pending.{is_asked, issues_of, numbered, numbers_in, rest, picked_out};

use crate::asked::Asked;
use crate::closed::closed;
use crate::early::cover_early;
use ec_base::{NoMemory, ObjId, OpNo, SortedMap};
use ec_log::chains::Order;
use ec_order::objmap::ObjMap;
use ec_volume::{Update, operands};
use std::alloc::Global;
use std::marker::Model;

/// How many operations a start issued, and those that no answered `fsync` or `sync` covers.
#[derive(Drop)]
pub struct Pending {
    alloc: Global,
    count: u64,
    order: Order,
    // of each operation that was issued the place of its entry, and the last one
    places: SortedMap<OpNo, u32>,
    last: u32,
    // whether no held operation's entry is before that of an earlier one
    rising: bool,
    // for objects the last one when an operation on them was issued
    lasts: ObjMap<u32>,
}

impl Model for Pending {
    ghost use Rattle.std.specs.Prelude.{◌≡◌, true, List, ℕ};
    ghost use Rattle.std.specs.Coded.{coded_list, coded×, coded_ℕ};
    ghost use Rattle.ec_pending.specs.contracts.issue.Issue as issue;
    ghost use Rattle.ec_pending.specs.declared.issue.Issue.{Issue};
    ghost use Rattle.ec_pending.specs.Pending.{issues, AreEarly, AreRising, AreUpTo, AreWithin};

    ghost Value = { ℕ × List Issue };

    ghost coded = { coded× coded_ℕ (coded_list issue.the_row.coded) };

    ghost view = { λ p. (p.count, issues p.places p.order) };

    ghost invariant = { λ p. AreUpTo p.count p.order × AreWithin p.last p.places × AreEarly p.lasts p.places p.order × (p.rising ≡ true → AreRising p.places p.order) };
}

impl Pending {
    /// No operation was issued.
    pub fn new(alloc: Global) -> Result<Pending, NoMemory>
        ensures { IfOk result (λ made. made ≡ (0, [])) }
    {
        Ok(Pending {
            alloc,
            count: 0,
            order: Order::new(alloc)?,
            places: SortedMap::new(alloc),
            last: 0,
            rising: true,
            lasts: ObjMap::new(alloc),
        })
    }

    /// How many operations were issued.
    pub fn count(&self) -> u64
        ensures { result ≡ self.now.0 }
    {
        self.count
    }

    /// Whether the operation of this number is pending.
    pub fn has(&self, op: OpNo) -> bool
        ensures { result ≡ member op (numbers_in self.now.1) }
    {
        self.order.get(op).is_some()
    }

    /// An operation is issued by an entry at the place. Its number is above those before it.
    pub fn issue(&mut self, op: OpNo, place: u32, update: Option<Update>) -> Result<(), NoMemory>
        requires { self.old.0 < op }
        ensures count { self.new.0 ≡ op }
        ensures pending { OnOk result (self.new ≡ (op, self.old.1 ++ issues_of place (Some op) update)) }
    {
        self.count = op.0;
        let Some(update) = update else {
            return Ok(());
        };
        self.rising = rises(self.rising, self.last, place);
        self.last = later(self.last, place);
        let ready = prepare(
            &mut self.places,
            &mut self.lasts,
            op,
            place,
            self.last,
            &update,
        );
        if let Err(fault) = ready {
            drop(update);
            return Err(fault);
        }
        self.order.hold(op, update)
    }

    /// What is asked is covered, and what it needs.
    pub fn cover(&mut self, asked: &Asked) -> Result<(), NoMemory>
        ensures count { self.new.0 ≡ self.old.0 }
        ensures pending { OnOk result (self.new ≡ (self.old.0, rest (is_asked asked.now) self.old.1)) }
    {
        if self.rising && self.is_early(asked) {
            return cover_early(&mut self.order, &self.places, asked);
        }
        let ops = self.covered(asked)?;
        self.order.settle(&ops);
        Ok(())
    }

    // Whether operations were issued behind what is asked.
    fn is_early(&self, asked: &Asked) -> bool {
        match asked {
            Asked::Nothing => false,
            Asked::On(obj, begun) => *begun < last_on(&self.lasts, *obj),
            Asked::All(begun) => *begun < self.last,
        }
    }

    // The numbers of those that are asked, and of those that they need. Those on an object are found by
    // its chain, unless one on it was issued behind what is asked.
    fn covered(&self, asked: &Asked) -> Result<Vec<OpNo>, NoMemory>
        ensures ops { IfOk result (λ ops. ops.items ≡ numbers_in (picked_out (is_asked asked.now) self.now.1)) }
        ensures sorted { T (is_sorted nat_cmp (numbered self.now.1)) }
    {
        let held = self.order.slots();
        match asked {
            Asked::Nothing => Ok(Vec::new(self.alloc)),
            Asked::On(obj, begun) if last_on(&self.lasts, *obj) <= *begun => self
                .order
                .closure_of_object(*obj),
            _ => closed(self.alloc, held, &self.places, asked),
        }
    }
}

// Whether places rise with one more, behind which none was before.
fn rises(rising: bool, last: u32, place: u32) -> bool
    ensures { result ≡ true → (rising ≡ true) × (last ≤ place) }
{
    rising && last <= place
}

fn later(place: u32, other: u32) -> u32
    ensures place { place ≤ result }
    ensures other { other ≤ result }
{
    if place < other {
        return other;
    }
    place
}

// The last place of an operation on the object, or a later one, or 0.
fn last_on(lasts: &ObjMap<u32>, obj: ObjId) -> u32
    ensures { result ≡ at_or 0 obj lasts.now }
{
    match lasts.get(&obj) {
        Some(place) => *place,
        None => 0,
    }
}

// The tables are ready for one more operation, of an entry at the place. No entry is behind the last one.
fn prepare(
    places: &mut SortedMap<OpNo, u32>,
    lasts: &mut ObjMap<u32>,
    op: OpNo,
    place: u32,
    last: u32,
    update: &Update,
) -> Result<(), NoMemory>
    ensures ok { OnOk result (places.new ≡ put op place places.old) }
    ensures err { OnErr result (places.new ≡ places.old) }
    ensures old { (o n : ℕ) → n ≤ at_or 0 o lasts.old → n ≤ last → n ≤ at_or 0 o lasts.new }
    ensures new { OnOk result ((o : ℕ) → T (member o (operands update.now)) → last ≤ at_or 0 o lasts.new) }
{
    let objs = operands(*places.allocator(), update)?;
    note_all(lasts, &objs, last)?;
    places.insert(op, place)
}

fn note_all(lasts: &mut ObjMap<u32>, objs: &[ObjId], place: u32) -> Result<(), NoMemory>
    ensures old { (o n : ℕ) → n ≤ at_or 0 o lasts.old → n ≤ place → n ≤ at_or 0 o lasts.new }
    ensures new { OnOk result ((o : ℕ) → T (member o objs.now) → place ≤ at_or 0 o lasts.new) }
{
    match objs {
        [] => Ok(()),
        [obj, rest @ ..] => {
            lasts.insert(*obj, place)?;
            note_all(lasts, rest, place)
        }
    }
}
