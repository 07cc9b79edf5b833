// A map from objects to values.
ghost use Rattle.std.specs.Prelude.{◌≡◌, ◌==◌, ℕ, if◌then◌else◌, [], None, option_copied, is_some, OnOk, OnErr, OnSome, IfNone};
ghost use Rattle.ec_base.specs.Tables.{at, put};

use ec_base::{NoMemory, ObjId};
use std::alloc::Global;
use std::cmp::Reverse;
use std::collections::BTreeMap;
use std::marker::Model;
use std::mem;

/// A map from objects to values, as the list of its pairs with the objects rising.
#[derive(Drop)]
pub struct ObjMap<V> {
    // a search goes through a node from its first key on, and late objects are asked for most
    map: BTreeMap<Reverse<ObjId>, V>,
}

impl<V> Model for ObjMap<V> {
    ghost use Rattle.std.specs.Prelude.{ℕ, List};
    ghost use Rattle.std.specs.Coded.{coded_list, coded×, coded_ℕ};
    ghost use Rattle.ec_order.specs.OfObjmap.Objects.{by_object};

    ghost Value = { List (ℕ × V) };

    ghost coded = { coded_list (coded× coded_ℕ V.code) };

    ghost view = { λ m. by_object m.map.entries };
}

impl<V> ObjMap<V> {
    /// The map without an object.
    pub fn new(alloc: Global) -> Self
        ensures { result ≡ [] }
    {
        ObjMap {
            map: BTreeMap::new(alloc),
        }
    }

    /// The value of the object.
    pub fn get(&self, obj: &ObjId) -> Option<&V>
        ensures { option_copied result ≡ at obj.now self.now }
    {
        self.map.get(&Reverse(*obj))
    }

    /// Whether the object is there.
    pub fn contains(&self, obj: &ObjId) -> bool
        ensures { result ≡ is_some (at obj.now self.now) }
    {
        self.get(obj).is_some()
    }

    /// Takes the value out of the object's pair and puts another one in. Where the object is absent,
    /// nothing changes and the other value is dropped. It takes no memory.
    pub fn replace(&mut self, obj: &ObjId, value: V) -> Option<V>
    where
        V: Drop,
        ensures value { result ≡ at obj.now self.old }
        ensures some { OnSome result (self.new ≡ put obj.now value self.old) }
        ensures none { IfNone result (self.new ≡ self.old) }
    {
        match self.map.get_mut(&Reverse(*obj)) {
            Some(place) => Some(mem::replace(place, value)),
            None => None,
        }
    }

    /// Removes the object. It takes no memory.
    pub fn remove(&mut self, obj: &ObjId) -> Option<V>
        ensures value { result ≡ at obj.now self.old }
        ensures others { (o : ℕ) → at o self.new ≡ (if o == obj.now then None else at o self.old) }
    {
        self.map.remove(&Reverse(*obj))
    }

    /// Gives the object this value. One that is there takes no memory.
    pub fn insert(&mut self, obj: ObjId, value: V) -> Result<(), NoMemory>
    where
        V: Drop,
        ensures ok { OnOk result (self.new ≡ put obj value self.old) }
        ensures err { OnErr result (self.new ≡ self.old) }
        ensures absent { OnErr result (at obj self.old ≡ None) }
    {
        match self.map.insert(Reverse(obj), value) {
            Ok(_) => Ok(()),
            Err(_) => Err(NoMemory),
        }
    }
}
