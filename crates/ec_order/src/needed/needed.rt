// What chosen operations need of the earlier ones.
ghost use Rattle.std.specs.Prelude.{◌≡◌, ◌==◌, ◌+◌, ℕ, ◌||◌, ◌++◌, ◌∷◌, [], true, false, if◌then◌else◌, nat_lt, Some, is_some, IfOk, OnOk};
ghost use Rattle.std.specs.List.{list_any};
ghost use Rattle.ec_base.specs.Tables.{at as found, at_or};
ghost use Rattle.ec_volume.specs.Update.{member};
ghost use Rattle.ec_volume.specs.declared.update.Update.{Update as Of};
ghost use Rattle.ec_order.specs.Order.{needs, meet};
ghost use Rattle.ec_order.specs.OfNeeded.Needed.{range_of, is_on, is_needed};

use crate::objmap::ObjMap;
use ec_base::{List, NoMemory, ObjId, OpNo};
use ec_volume::{Update, operands};
use std::alloc::Global;

/// What chosen operations need of the earlier ones: for each object whether an operation on it is
/// chosen that is no overwrite, and the ranges of the chosen overwrites.
pub struct Needed {
    alloc: Global,
    pub others: ObjMap<()>,
    pub ranges: ObjMap<List<(u32, usize)>>,
}

// Who drops one calls this, and needn't take it apart.
impl Drop for Needed {
    fn drop(self) {
        let Needed {
            alloc: _,
            others,
            ranges,
        } = self;
        drop(others);
        drop(ranges);
    }
}

/// The bytes of an overwrite: the file, the place of the first one, and their number.
#[derive(Clone, Copy, Drop)]
pub struct Range {
    pub obj: ObjId,
    pub at: u32,
    pub len: usize,
}

impl Needed {
    /// No operation is chosen.
    pub fn new(alloc: Global) -> Needed
        ensures others { result.others ≡ [] }
        ensures ranges { result.ranges ≡ [] }
    {
        Needed {
            alloc,
            others: ObjMap::new(alloc),
            ranges: ObjMap::new(alloc),
        }
    }

    /// Whether a chosen operation needs this earlier one.
    pub fn has(&self, update: &Update) -> Result<bool, NoMemory>
        ensures { IfOk result (λ has. has ≡ is_needed self.now.others self.now.ranges update.now) }
    {
        if let Some(range) = range_of(update) {
            return Ok(self.has_range(&range));
        }
        let objs = operands(self.alloc, update)?;
        Ok(is_on_one(&self.others, &self.ranges, &objs))
    }

    fn has_range(&self, range: &Range) -> bool
        ensures { result ≡ (is_some (found range.now.obj self.now.others) || list_any (λ r. meet range.now.at range.now.len r.0 r.1) (at_or [] range.now.obj self.now.ranges)) }
    {
        if self.others.contains(&range.obj) {
            return true;
        }
        match self.ranges.get(&range.obj) {
            Some(ranges) => is_met(range.at, range.len, ranges.as_slice()),
            None => false,
        }
    }

    /// The operation is chosen.
    pub fn add(&mut self, update: &Update) -> Result<(), NoMemory>
        ensures { OnOk result ((x : Of) → is_needed self.new.others self.new.ranges x ≡ (needs x update.now || is_needed self.old.others self.old.ranges x)) }
    {
        if let Some(range) = range_of(update) {
            return add_range(self.alloc, &mut self.ranges, &range);
        }
        let objs = operands(self.alloc, update)?;
        note_all(&mut self.others, &objs)
    }

    /// The operation is chosen, and added to the chosen ones, where it's asked for by itself, or a
    /// chosen one needs it.
    pub fn choose(
        &mut self,
        is_asked: bool,
        ops: &mut Vec<OpNo>,
        op: OpNo,
        update: &Update,
    ) -> Result<(), NoMemory>
        ensures chosen { OnOk result ((is_asked || is_needed self.old.others self.old.ranges update.now) ≡ true → (ops.new.items ≡ ops.old.items ++ op ∷ [])
            × ((x : Of) → is_needed self.new.others self.new.ranges x ≡ (needs x update.now || is_needed self.old.others self.old.ranges x))) }
        ensures others { OnOk result ((is_asked || is_needed self.old.others self.old.ranges update.now) ≡ false → (ops.new.items ≡ ops.old.items)
            × (self.new.others ≡ self.old.others) × (self.new.ranges ≡ self.old.ranges)) }
    {
        if is_asked || self.has(update)? {
            self.add(update)?;
            ops.push(op)?;
        }
        Ok(())
    }
}

fn range_of(update: &Update) -> Option<Range>
    ensures { result ≡ range_of update.now }
{
    match update {
        Update::Put {
            obj,
            at,
            bytes,
            inside: true,
        } => Some(Range {
            obj: *obj,
            at: *at,
            len: bytes.as_slice().len(),
        }),
        _ => None,
    }
}

// Whether an operation is chosen on one of the objects.
fn is_on_one(others: &ObjMap<()>, ranges: &ObjMap<List<(u32, usize)>>, objs: &[ObjId]) -> bool
    ensures { result ≡ list_any (λ o. is_on o others.now ranges.now) objs.now }
{
    match objs {
        [] => false,
        [obj, rest @ ..] => is_on(others, ranges, *obj) || is_on_one(others, ranges, rest),
    }
}

fn is_on(others: &ObjMap<()>, ranges: &ObjMap<List<(u32, usize)>>, obj: ObjId) -> bool
    ensures { result ≡ is_on obj others.now ranges.now }
{
    others.contains(&obj) || ranges.contains(&obj)
}

// Whether one of the ranges has a byte of this one.
fn is_met(at: u32, len: usize, ranges: &[(u32, usize)]) -> bool
    ensures { result ≡ list_any (λ r. meet at len r.0 r.1) ranges.now }
{
    ranges.iter().any(|range| meet(at, len, range.0, range.1))
}

fn meet(at: u32, len: usize, other: u32, other_len: usize) -> bool
    ensures { result ≡ meet at len other other_len }
{
    0 < len && 0 < other_len && is_below_end(at, other, other_len) && is_below_end(other, at, len)
}

fn is_below_end(place: u32, from: u32, len: usize) -> bool
    ensures { result ≡ nat_lt place (from + len) }
{
    place < from || ((place - from) as usize) < len
}

// An operation that is no overwrite is chosen on each of the objects.
fn note_all(others: &mut ObjMap<()>, objs: &[ObjId]) -> Result<(), NoMemory>
    ensures { OnOk result ((o : ℕ) → is_some (found o others.new) ≡ (member o objs.now || is_some (found o others.old))) }
{
    match objs {
        [] => Ok(()),
        [obj, rest @ ..] => {
            others.insert(*obj, ())?;
            note_all(others, rest)
        }
    }
}

// An overwrite of this range of the file is chosen.
fn add_range(
    alloc: Global,
    ranges: &mut ObjMap<List<(u32, usize)>>,
    range: &Range,
) -> Result<(), NoMemory>
    ensures { OnOk result ((o : ℕ) → found o ranges.new ≡ (if o == range.now.obj then Some (at_or [] range.now.obj ranges.old ++ (range.now.at, range.now.len) ∷ []) else found o ranges.old)) }
{
    let mut items = take_ranges(alloc, ranges, range.obj);
    items.push((range.at, range.len))?;
    ranges.insert(range.obj, List::of(items))
}

// Takes the ranges of the file out.
fn take_ranges(
    alloc: Global,
    ranges: &mut ObjMap<List<(u32, usize)>>,
    obj: ObjId,
) -> Vec<(u32, usize)>
    ensures ranges { result.items ≡ at_or [] obj ranges.old }
    ensures others { (o : ℕ) → (o == obj) ≡ false → found o ranges.new ≡ found o ranges.old }
{
    match ranges.replace(&obj, List::of(Vec::new(alloc))) {
        Some(items) => items.into_vec(),
        None => Vec::new(alloc),
    }
}
