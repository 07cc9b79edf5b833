// A map kept as a vector of pairs in the order of the keys.
ghost use Rattle.std.specs.Prelude.{◌≡◌, ◌==◌, ◌≤◌, ◌<◌, ◌+◌, ◌&&◌, List, [], ◌∷◌, T, None, Some, if◌then◌else◌, is_some, length, slice_get, vec_len, vec_capacity, option_copied, OnOk, OnErr, OnSome, IfNone, IfOk, MatchOption, MatchResult};
ghost use Rattle.std.specs.Cmp.{on_per, and_per, on_equiv, and_equiv};
ghost use Rattle.std.specs.Cmp.Lexicographic.{pointwise, lists_per, lists_equiv};
ghost use Rattle.std.specs.FinMap.Entries.{find, put, is_sorted};
ghost use Rattle.ec_base.specs.Sorted.{without};
ghost use Rattle.ec_base.specs.SortedPlaces.{StandsAt, GoesAt};

use crate::list::{Duplicate, NoMemory, duplicate_all};
use std::alloc::Global;
use std::cmp::Ordering;
use std::marker::Model;
use std::mem;

/// A change of a value in its place.
pub trait Change<V> {
    /// Whether the change may be asked for.
    ghost ready: { Self → Type 0 };

    /// What it makes of a value.
    ghost makes: { Self → V → V };

    /// Changes the value, or leaves it as it is.
    fn change(&self, value: &mut V) -> Result<(), NoMemory>
        requires { ready self.now }
        ensures ok { OnOk result (value.new ≡ makes self.now value.old) }
        ensures err { OnErr result (value.new ≡ value.old) };
}

/// A map from keys to values, as the list of its pairs with the keys rising strictly.
#[derive(Debug, Drop)]
pub struct SortedMap<K: Ord, V> {
    items: Vec<(K, V)>,
}

impl<K: Ord, V> Model for SortedMap<K, V> {
    ghost use Rattle.std.specs.Prelude.{List, T};
    ghost use Rattle.std.specs.Coded.{coded_list, coded×};
    ghost use Rattle.std.specs.Cmp.{on_per, and_per, on_equiv, and_equiv};
    ghost use Rattle.std.specs.Cmp.Lexicographic.{pointwise, lists_per, lists_equiv};
    ghost use Rattle.std.specs.FinMap.Entries.{is_sorted};

    ghost Value = { List (K × V) };

    ghost coded = { coded_list (coded× K.code V.code) };

    ghost view = { λ m. m.items.items };

    ghost invariant = { λ m. T (is_sorted K.cmp m.items.items) };
}

impl<K: Ord, V> SortedMap<K, V> {
    /// The map without a key.
    pub fn new(alloc: Global) -> Self
        ensures { result ≡ [] }
    {
        SortedMap {
            items: Vec::new(alloc),
        }
    }

    /// The map of these pairs.
    pub fn of(items: Vec<(K, V)>) -> Self
        requires { T (is_sorted K.cmp items.items) }
        ensures { result ≡ items.items }
    {
        SortedMap { items }
    }

    /// The pairs, by rising keys.
    pub fn items(&self) -> &[(K, V)]
        ensures value { result.now ≡ self.now }
        ensures sorted { T (is_sorted K.cmp self.now) }
    {
        &self.items
    }

    /// The pairs, by rising keys.
    pub fn into_vec(self) -> Vec<(K, V)>
        ensures value { result.items ≡ self }
        ensures sorted { T (is_sorted K.cmp self) }
    {
        self.items
    }

    /// What the pairs' memory comes from.
    pub fn allocator(&self) -> &Global {
        self.items.allocator()
    }

    /// The number of keys.
    pub fn len(&self) -> usize
        ensures { result ≡ length self.now }
    {
        self.items.len()
    }

    /// Whether there is no key.
    pub fn is_empty(&self) -> bool
        ensures { result ≡ (length self.now == 0) }
    {
        self.items.is_empty()
    }

    /// The value at the key.
    pub fn get(&self, key: &K) -> Option<&V>
        ensures { option_copied result ≡ find K.cmp key.now self.now }
    {
        value_at(&self.items, key)
    }

    /// The key's place, counted from 0 by rising keys, and its value. It's looked for at the place `near` first.
    pub fn find(&self, key: &K, near: usize) -> Option<(usize, &V)>
        ensures { MatchOption result (find K.cmp key.now self.now ≡ None) (λ found. StandsAt K.cmp key.now self.now found.0 × (find K.cmp key.now self.now ≡ Some found.1.now)) }
    {
        match slot_near(&self.items, key, near) {
            Ok(at) => Some((at, &self.items[at].1)),
            Err(_) => None,
        }
    }

    /// Whether the key is there.
    pub fn contains(&self, key: &K) -> bool
        ensures { result ≡ is_some (find K.cmp key.now self.now) }
    {
        value_at(&self.items, key).is_some()
    }

    /// The pair at a place, counted from 0 by rising keys.
    pub fn at(&self, place: usize) -> Option<(&K, &V)>
        ensures { MatchOption result (length self.now ≤ place) (λ pair. slice_get self.now place ≡ Some (pair.0.now, pair.1.now)) }
    {
        let (key, value) = self.items.get(place)?;
        Some((key, value))
    }

    /// Takes the value out of the key's pair and puts another one in. Where the key is absent,
    /// nothing changes and the other value is dropped. It takes no memory.
    pub fn replace(&mut self, key: &K, value: V) -> Option<V>
    where
        V: Drop,
        ensures value { result ≡ find K.cmp key.now self.old }
        ensures some { OnSome result (self.new ≡ put K.cmp key.now value self.old) }
        ensures none { IfNone result (self.new ≡ self.old) }
    {
        replace_in(&mut self.items, key, value)
    }

    /// Changes the key's value in its place. Where the key is absent, nothing changes.
    pub fn change<C: Change<V>>(&mut self, key: &K, by: &C) -> Result<(), NoMemory>
        requires { C.ready by.now }
        ensures ok { OnOk result (MatchOption (find K.cmp key.now self.old) (self.new ≡ self.old) (λ v. self.new ≡ put K.cmp key.now (C.makes by.now v) self.old)) }
        ensures err { OnErr result (self.new ≡ self.old) }
    {
        change_in(&mut self.items, key, by)
    }

    /// Changes the value of a key that stands at this place.
    pub fn change_at<C: Change<V>>(&mut self, key: &K, place: usize, by: &C) -> Result<(), NoMemory>
        requires stands { StandsAt K.cmp key.now self.old place }
        requires ready { C.ready by.now }
        ensures ok { OnOk result (MatchOption (find K.cmp key.now self.old) (self.new ≡ self.old) (λ v. self.new ≡ put K.cmp key.now (C.makes by.now v) self.old)) }
        ensures err { OnErr result (self.new ≡ self.old) }
    {
        change_value(&mut self.items, key, place, by)
    }

    /// Removes the key. It takes no memory.
    pub fn remove(&mut self, key: &K) -> Option<V>
    where
        K: Drop,
        ensures value { result ≡ find K.cmp key.now self.old }
        ensures others { self.new ≡ without K.cmp key.now self.old }
    {
        remove_in(&mut self.items, key)
    }

    /// Gives the key this value. A key that is there keeps its place, and takes no memory.
    pub fn insert(&mut self, key: K, value: V) -> Result<(), NoMemory>
    where
        K: Drop,
        V: Drop,
        ensures ok { OnOk result (self.new ≡ put K.cmp key value self.old) }
        ensures err { OnErr result (self.new ≡ self.old) }
        ensures absent { OnErr result (find K.cmp key self.old ≡ None) }
    {
        insert_in(&mut self.items, key, value)
    }

    /// Gives two keys their values, the first one before the second.
    pub fn insert_both(&mut self, first: (K, V), second: (K, V)) -> Result<(), NoMemory>
    where
        K: Drop,
        V: Drop,
        ensures ok { OnOk result (self.new ≡ put K.cmp second.0 second.1 (put K.cmp first.0 first.1 self.old)) }
        ensures err { OnErr result (self.new ≡ self.old) }
    {
        self.items.reserve(2)?;
        put_in(&mut self.items, first.0, first.1);
        put_in(&mut self.items, second.0, second.1);
        Ok(())
    }
}

impl<K: Ord, V: PartialEq> PartialEq for SortedMap<K, V> {
    ghost eq = { pointwise (λ p q. K.PartialEq.eq p.0 q.0 && V.eq p.1 q.1) };

    ghost laws = { lists_per (and_per (on_per (λ p. p.0) K.PartialEq.laws) (on_per (λ p. p.1) V.laws)) };

    fn eq(&self, other: &SortedMap<K, V>) -> bool {
        self.items == other.items
    }
}

impl<K: Ord, V: Eq> Eq for SortedMap<K, V> {
    ghost laws = { lists_equiv (and_equiv (on_equiv (λ p. p.0) K.Eq.laws) (on_equiv (λ p. p.1) V.Eq.laws)) };
}

impl<K: Ord + Duplicate + Drop, V: Duplicate + Drop> Duplicate for SortedMap<K, V> {
    fn duplicate(&self) -> Result<Self, NoMemory> {
        Ok(SortedMap {
            items: duplicate_all(&self.items)?,
        })
    }
}

// Where the key is, or where it would go.
fn slot_of<K: Ord, V>(items: &[(K, V)], key: &K) -> Result<usize, usize>
    requires { T (is_sorted K.cmp items.now) }
    ensures { MatchResult result (StandsAt K.cmp key.now items.now) (GoesAt K.cmp key.now items.now) }
{
    items.binary_search_by(|(here, _)| here.cmp(key))
}

// The same, where one place is looked at first.
fn slot_near<K: Ord, V>(items: &[(K, V)], key: &K, near: usize) -> Result<usize, usize>
    requires { T (is_sorted K.cmp items.now) }
    ensures { MatchResult result (StandsAt K.cmp key.now items.now) (GoesAt K.cmp key.now items.now) }
{
    if let Some((here, _)) = items.get(near) {
        if let Ordering::Equal = here.cmp(key) {
            return Ok(near);
        }
    }
    slot_of(items, key)
}

fn value_at<'a, K: Ord, V>(items: &'a [(K, V)], key: &K) -> Option<&'a V>
    requires { T (is_sorted K.cmp items.now) }
    ensures { option_copied result ≡ find K.cmp key.now items.now }
{
    match slot_of(items, key) {
        Ok(at) => Some(&items[at].1),
        Err(_) => None,
    }
}

fn replace_in<K: Ord, V: Drop>(items: &mut Vec<(K, V)>, key: &K, value: V) -> Option<V>
    requires { T (is_sorted K.cmp items.old.items) }
    ensures value { result ≡ find K.cmp key.now items.old.items }
    ensures some { OnSome result (items.new.items ≡ put K.cmp key.now value items.old.items) }
    ensures none { IfNone result (items.new.items ≡ items.old.items) }
{
    match slot_of(items, key) {
        Ok(at) => Some(mem::replace(&mut items[at].1, value)),
        Err(_) => None,
    }
}

fn change_in<K: Ord, V, C: Change<V>>(
    items: &mut Vec<(K, V)>,
    key: &K,
    by: &C,
) -> Result<(), NoMemory>
    requires sorted { T (is_sorted K.cmp items.old.items) }
    requires ready { C.ready by.now }
    ensures ok { OnOk result (MatchOption (find K.cmp key.now items.old.items) (items.new.items ≡ items.old.items) (λ v. items.new.items ≡ put K.cmp key.now (C.makes by.now v) items.old.items)) }
    ensures err { OnErr result (items.new.items ≡ items.old.items) }
{
    match slot_of(items, key) {
        Ok(at) => by.change(&mut items[at].1),
        Err(_) => Ok(()),
    }
}

fn change_value<K: Ord, V, C: Change<V>>(
    items: &mut Vec<(K, V)>,
    key: &K,
    place: usize,
    by: &C,
) -> Result<(), NoMemory>
    requires stands { StandsAt K.cmp key.now items.old.items place }
    requires ready { C.ready by.now }
    ensures ok { OnOk result (MatchOption (find K.cmp key.now items.old.items) (items.new.items ≡ items.old.items) (λ v. items.new.items ≡ put K.cmp key.now (C.makes by.now v) items.old.items)) }
    ensures err { OnErr result (items.new.items ≡ items.old.items) }
{
    by.change(&mut items[place].1)
}

fn remove_in<K: Ord + Drop, V>(items: &mut Vec<(K, V)>, key: &K) -> Option<V>
    requires { T (is_sorted K.cmp items.old.items) }
    ensures value { result ≡ find K.cmp key.now items.old.items }
    ensures others { items.new.items ≡ without K.cmp key.now items.old.items }
{
    match slot_of(items, key) {
        Ok(at) => Some(items.remove(at).1),
        Err(_) => None,
    }
}

fn insert_in<K: Ord + Drop, V: Drop>(
    items: &mut Vec<(K, V)>,
    key: K,
    value: V,
) -> Result<(), NoMemory>
    requires { T (is_sorted K.cmp items.old.items) }
    ensures ok { OnOk result (items.new.items ≡ put K.cmp key value items.old.items) }
    ensures err { OnErr result (items.new.items ≡ items.old.items) }
    ensures absent { OnErr result (find K.cmp key items.old.items ≡ None) }
{
    match slot_of(items, &key) {
        Ok(at) => {
            items[at].1 = value;
            Ok(())
        }
        Err(at) => Ok(items.insert(at, (key, value))?),
    }
}

// Gives the key this value, where there is room for one more pair.
fn put_in<K: Ord + Drop, V: Drop>(items: &mut Vec<(K, V)>, key: K, value: V)
    requires sorted { T (is_sorted K.cmp items.old.items) }
    requires room { vec_len items.old < vec_capacity items.old }
    ensures items { items.new.items ≡ put K.cmp key value items.old.items }
    ensures len { vec_len items.new ≤ vec_len items.old + 1 }
    ensures capacity { vec_capacity items.old ≤ vec_capacity items.new }
{
    match slot_of(items, &key) {
        Ok(at) => items[at].1 = value,
        Err(at) => items.insert(at, (key, value)).unwrap(),
    }
}
