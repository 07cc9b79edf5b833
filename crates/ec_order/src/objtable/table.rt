// A table of values by objects.
ghost use Rattle.std.specs.Prelude.{◌≡◌, ◌==◌, ◌≤◌, ◌<◌, ℕ, if◌then◌else◌, None, Some, length, slice_index_or, slice_set, option_copied, OnOk, OnErr, OnSome, IfNone};
ghost use Rattle.ec_order.specs.OfObjtable.Slots.{held, slot, value_at, IsIndex};

use ec_base::{NoMemory, ObjId};
use std::alloc::Global;
use std::marker::Model;
use std::mem;

/// Values by objects. A clause sees which value an object has by `held`.
#[derive(Drop)]
pub struct ObjTable<V> {
    // of each object the place behind that of its pair, or 0
    places: Vec<usize>,
    pairs: Vec<(ObjId, V)>,
}

impl<V> Model for ObjTable<V> {
    ghost use Rattle.std.specs.Prelude.{ℕ, List};
    ghost use Rattle.std.specs.Coded.{coded_list, coded×, coded_ℕ};
    ghost use Rattle.ec_order.specs.OfObjtable.Slots.{IsIndex};

    ghost Value = { List ℕ × List (ℕ × V) };

    ghost coded = { coded× (coded_list coded_ℕ) (coded_list (coded× coded_ℕ V.code)) };

    ghost view = { λ t. (t.places.items, t.pairs.items) };

    ghost invariant = { λ t. IsIndex t.places.items t.pairs.items };
}

impl<V> ObjTable<V> {
    /// The table without an object.
    pub fn new(alloc: Global) -> Self
        ensures { (o : ℕ) → held o result ≡ None }
    {
        ObjTable {
            places: Vec::new(alloc),
            pairs: Vec::new(alloc),
        }
    }

    /// The value of the object.
    pub fn get(&self, obj: ObjId) -> Option<&V>
        ensures { option_copied result ≡ held obj self.now }
    {
        let behind = place_of(&self.places, obj);
        if behind == 0 {
            return None;
        }
        Some(&self.pairs[behind - 1].1)
    }

    /// Takes the object's value out and puts another one in. Where the object has none, nothing changes
    /// and the other value is dropped. It takes no memory.
    pub fn replace(&mut self, obj: ObjId, value: V) -> Option<V>
    where
        V: Drop,
        ensures value { result ≡ held obj self.old }
        ensures some { OnSome result ((o : ℕ) → held o self.new ≡ (if o == obj then Some value else held o self.old)) }
        ensures none { IfNone result (self.new ≡ self.old) }
    {
        let behind = place_of(&self.places, obj);
        if behind == 0 {
            return None;
        }
        Some(put_at(&mut self.pairs, behind - 1, value))
    }

    /// Gives the object this value.
    pub fn insert(&mut self, obj: ObjId, value: V) -> Result<(), NoMemory>
    where
        V: Drop,
        ensures ok { OnOk result ((o : ℕ) → held o self.new ≡ (if o == obj then Some value else held o self.old)) }
        ensures err { OnErr result ((o : ℕ) → held o self.new ≡ held o self.old) }
    {
        let behind = place_of(&self.places, obj);
        if behind == 0 {
            return add(&mut self.places, &mut self.pairs, obj, value);
        }
        drop(put_at(&mut self.pairs, behind - 1, value));
        Ok(())
    }
}

// The place behind that of the object's pair, or 0.
fn place_of(places: &[usize], obj: ObjId) -> usize
    ensures { result ≡ slot obj places.now }
{
    match places.get(obj.get() as usize) {
        Some(behind) => *behind,
        None => 0,
    }
}

// The pair at the place gets this value.
fn put_at<V>(pairs: &mut Vec<(ObjId, V)>, place: usize, value: V) -> V
    requires { place < length pairs.old.items }
    ensures value { (d : ℕ × V) → result ≡ (slice_index_or pairs.old.items place d).1 }
    ensures rest { (d : ℕ × V) → pairs.new.items ≡ slice_set pairs.old.items place ((slice_index_or pairs.old.items place d).0, value) }
{
    mem::replace(&mut pairs[place].1, value)
}

// A pair more.
fn add<V: Drop>(
    places: &mut Vec<usize>,
    pairs: &mut Vec<(ObjId, V)>,
    obj: ObjId,
    value: V,
) -> Result<(), NoMemory>
    requires index { IsIndex places.old.items pairs.old.items }
    requires absent { slot obj places.old.items ≡ 0 }
    ensures index { IsIndex places.new.items pairs.new.items }
    ensures ok { OnOk result ((o : ℕ) → value_at (slot o places.new.items) pairs.new.items ≡ (if o == obj then Some value else value_at (slot o places.old.items) pairs.old.items)) }
    ensures err { OnErr result ((o : ℕ) → value_at (slot o places.new.items) pairs.new.items ≡ value_at (slot o places.old.items) pairs.old.items) }
{
    let at = obj.get() as usize;
    lengthen(places, at + 1)?;
    pairs.push((obj, value))?;
    places[at] = pairs.len();
    Ok(())
}

// Places of no pair behind the end, where they are fewer.
fn lengthen(places: &mut Vec<usize>, len: usize) -> Result<(), NoMemory>
    ensures same { (o : ℕ) → slot o places.new.items ≡ slot o places.old.items }
    ensures long { OnOk result (len ≤ length places.new.items) }
{
    if places.len() < len {
        places.resize(len, 0)?;
    }
    Ok(())
}
