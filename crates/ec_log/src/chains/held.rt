// The held operations as a list, in which those that left stay until they are half of it.
ghost use Rattle.std.specs.Prelude.{◌≡◌, ◌<◌, ℕ, T, true, false, Option, None, [], ◌∷◌, ◌++◌, length, option_copied, slice_index_or, slice_set, OnOk, OnErr};
ghost use Rattle.std.specs.Ordering.{nat_cmp};
ghost use Rattle.std.specs.FinMap.{is_sorted};
ghost use Rattle.ec_base.specs.Tables.{at};
ghost use Rattle.ec_volume.specs.declared.update.Update.{Update as Of};
ghost use Rattle.ec_order.specs.Order.{Holds};
ghost use Rattle.ec_log.specs.OfChains.Held as held;
ghost use Rattle.ec_log.specs.OfChains.Slots.{live, placed};

use crate::chains::slots::{Slot, end_below, first_held, leading, slot_of, update_of};
use ec_base::{NoMemory, OpNo};
use ec_volume::Update;
use std::alloc::Global;
use std::marker::Model;

/// Held operations by rising number. One that leaves is found by its number, and its place stays
/// until half of all have left.
#[derive(Drop)]
pub struct Held {
    slots: Vec<(OpNo, Option<Update>)>,
    // so many of the first ones have left
    gone: usize,
    // so many are held
    count: usize,
}

impl Model for Held {
    ghost use Rattle.std.specs.Prelude.{◌≡◌, ◌≤◌, T, [], length, take};
    ghost use Rattle.std.specs.Coded.{coded_list, coded×, coded_ℕ};
    ghost use Rattle.std.specs.Ordering.{nat_cmp};
    ghost use Rattle.std.specs.FinMap.{is_sorted};
    ghost use Rattle.ec_volume.specs.contracts.update.Update as update;
    ghost use Rattle.ec_order.specs.Order.{Issued};
    ghost use Rattle.ec_log.specs.OfChains.Slots.{live, placed};

    ghost Value = { Issued };

    ghost coded = { coded_list (coded× coded_ℕ update.the_row.coded) };

    ghost view = { λ h. live h.slots.items };

    ghost invariant = { λ h. (h.gone ≤ length h.slots.items) × (live (take h.gone h.slots.items) ≡ []) × T (is_sorted nat_cmp (placed h.slots.items)) × (h.count ≡ length (live h.slots.items)) };
}

impl Held {
    /// No operation is held.
    pub fn new(alloc: Global) -> Held
        ensures { result ≡ [] }
    {
        Held {
            slots: Vec::new(alloc),
            gone: 0,
            count: 0,
        }
    }

    /// The places, by rising number.
    pub fn slots(&self) -> &[Slot]
        ensures value { live result.now ≡ self.now }
        ensures rising { T (is_sorted nat_cmp (placed result.now)) }
        ensures sorted { T (is_sorted nat_cmp self.now) }
    {
        &self.slots[self.gone..]
    }

    /// How many are held.
    pub fn count(&self) -> usize
        ensures count { result ≡ length self.now }
        ensures sorted { T (is_sorted nat_cmp self.now) }
    {
        self.count
    }

    /// The number of the first one.
    pub fn first(&self) -> Option<OpNo>
        ensures { result ≡ held.first_number self.now }
    {
        first_held(self.slots())
    }

    /// The operation's update.
    pub fn get(&self, op: OpNo) -> Option<&Update>
        ensures value { option_copied result ≡ at op self.now }
        ensures sorted { T (is_sorted nat_cmp self.now) }
    {
        update_of(self.slots(), op)
    }

    /// Whether the operation is held.
    pub fn has(&self, op: OpNo) -> bool
        ensures yes { result ≡ true → (u : Of) × Holds self.now op u }
        ensures no { result ≡ false → (u : Of) → Holds self.now op u → ⊥ }
        ensures sorted { T (is_sorted nat_cmp self.now) }
    {
        self.get(op).is_some()
    }

    /// One more operation.
    pub fn push(&mut self, op: OpNo, update: Update) -> Result<(), NoMemory>
        requires { held.is_behind op self.old ≡ true }
        ensures ok { OnOk result (self.new ≡ self.old ++ (op, update) ∷ []) }
        ensures err { OnErr result (self.new ≡ self.old) }
    {
        let end = end_below(&self.slots, op);
        self.slots.truncate(end);
        self.gone = self.gone.min(end);
        self.slots.push((op, Some(update)))?;
        self.count += 1;
        Ok(())
    }

    /// The operation leaves. It takes no memory.
    pub fn take(&mut self, op: OpNo) -> Option<Update>
        ensures value { result ≡ at op self.old }
        ensures rest { self.new ≡ held.settle (op ∷ []) self.old }
    {
        let Ok(place) = slot_of(&self.slots, op) else {
            return None;
        };
        let taken = take_at(&mut self.slots, place);
        if taken.is_some() {
            self.count -= 1;
            self.trim();
        }
        taken
    }

    // The first ones that have left are passed over. Once half of all have left, the others close up.
    fn trim(&mut self)
        ensures { self.new ≡ self.old }
    {
        self.gone = leading(&self.slots, self.gone);
        if self.count <= self.slots.len() / 2 {
            self.slots.retain(|slot| slot.1.is_some());
            self.gone = 0;
        }
    }

    /// No operation is held any more. It takes no memory.
    pub fn clear(&mut self)
        ensures { self.new ≡ [] }
    {
        self.slots.clear();
        self.gone = 0;
        self.count = 0;
    }
}

// The update leaves its place.
fn take_at(slots: &mut Vec<(OpNo, Option<Update>)>, place: usize) -> Option<Update>
    requires { place < length slots.old.items }
    ensures taken { (s : ℕ × Option Of) → result ≡ (slice_index_or slots.old.items place s).1 }
    ensures rest { (s : ℕ × Option Of) → slots.new.items ≡ slice_set slots.old.items place ((slice_index_or slots.old.items place s).0, None) }
{
    slots[place].1.take()
}
