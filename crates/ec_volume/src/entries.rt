// The entries of a directory.
ghost use Rattle.std.specs.Prelude.{◌≡◌, ◌≤◌, T, false, [], length, Ok, OnOk, OnErr, MatchOption, slice_get, Some};
ghost use Rattle.std.specs.FinMap.{is_sorted};
ghost use Rattle.ec_volume.specs.Entries.{by_bytes, same_name, entry, with_entry, without_entry};

use ec_base::{Duplicate, Name, NoMemory, ObjId, SortedMap};
use std::alloc::Global;
use std::marker::Model;

/// The entries of a directory: names and ids, with the names rising in byte order.
#[derive(Drop)]
pub struct Entries {
    map: SortedMap<Name, ObjId>,
}

impl Model for Entries {
    ghost use Rattle.std.specs.Prelude.{ℕ, List, T};
    ghost use Rattle.std.specs.FinMap.{is_sorted};
    ghost use Rattle.ec_volume.specs.Entries.{by_bytes};

    ghost Value = { List (List ℕ × ℕ) };

    ghost view = { λ a. a.map };

    ghost invariant = { λ a. T (is_sorted by_bytes a.map) };
}

impl Entries {
    /// No entries.
    pub fn new(alloc: Global) -> Self
        ensures { result ≡ [] }
    {
        Entries {
            map: SortedMap::new(alloc),
        }
    }

    /// The entries of this list. It takes no memory.
    pub fn of(list: Vec<(Name, ObjId)>) -> Result<Self, NoMemory>
        requires { T (is_sorted by_bytes list.items) }
        ensures { result ≡ Ok list.items }
    {
        Ok(Entries {
            map: SortedMap::of(list),
        })
    }

    /// The id that the name stands for.
    pub fn get(&self, name: &Name) -> Option<ObjId>
        ensures { result ≡ entry self.now name.now }
    {
        self.map.get(name).copied()
    }

    /// How many entries there are.
    pub fn len(&self) -> usize
        ensures value { result ≡ length self.now }
        ensures sorted { T (is_sorted by_bytes self.now) }
    {
        self.map.len()
    }

    /// The entry at a place from 0, by rising names.
    pub fn at(&self, place: usize) -> Option<(&Name, ObjId)>
        ensures { MatchOption result (length self.now ≤ place) (λ pair. slice_get self.now place ≡ Some (pair.0.now, pair.1)) }
    {
        let (name, id) = self.map.at(place)?;
        Some((name, *id))
    }

    /// Adds an entry, or gives the name another id.
    pub(crate) fn add(&mut self, name: &Name, id: ObjId) -> Result<(), NoMemory>
        ensures ok { OnOk result (self.new ≡ with_entry self.old name.now id) }
        ensures err { OnErr result (self.new ≡ self.old) }
    {
        self.map.insert(name.duplicate()?, id)
    }

    /// Removes an entry. It takes no memory.
    pub(crate) fn remove(&mut self, name: &Name)
        ensures { self.new ≡ without_entry self.old name.now }
    {
        self.map.remove(name);
    }

    /// Removes one name and gives another one the id.
    pub(crate) fn rename(&mut self, from: &Name, to: &Name, id: ObjId) -> Result<(), NoMemory>
        requires { same_name from.now to.now ≡ false }
        ensures ok { OnOk result (self.new ≡ with_entry (without_entry self.old from.now) to.now id) }
        ensures err { OnErr result (self.new ≡ self.old) }
    {
        self.map.insert(to.duplicate()?, id)?;
        self.map.remove(from);
        Ok(())
    }
}

impl Duplicate for Entries {
    fn duplicate(&self) -> Result<Self, NoMemory> {
        Ok(Entries {
            map: self.map.duplicate()?,
        })
    }
}
