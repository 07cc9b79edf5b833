// Which objects later operations are on that a loss doesn't name.
ghost use Rattle.std.specs.Prelude.{◌≡◌, ◌||◌, ℕ, [], is_some, IfOk, OnOk};
ghost use Rattle.std.specs.List.{list_any};
ghost use Rattle.ec_base.specs.Tables.{at};
ghost use Rattle.ec_volume.specs.Update.{member};
ghost use Rattle.ec_volume.specs.declared.update.Update.{Update as Of};
ghost use Rattle.ec_order.specs.Order.{before};
ghost use Rattle.ec_pending.specs.OfOutside.Outside.{is_after};

use ec_base::{NoMemory, ObjId, SortedMap};
use ec_order::is_overwrite;
use ec_volume::{Update, operands};
use std::alloc::Global;

/// The objects of some operations, and those of the ones that are no overwrites.
#[derive(Drop)]
pub struct Outside {
    alloc: Global,
    pub objs: SortedMap<ObjId, ()>,
    pub others: SortedMap<ObjId, ()>,
}

impl Outside {
    /// No operation.
    pub fn new(alloc: Global) -> Outside
        ensures objs { result.objs ≡ [] }
        ensures others { result.others ≡ [] }
    {
        Outside {
            alloc,
            objs: SortedMap::new(alloc),
            others: SortedMap::new(alloc),
        }
    }

    /// Whether one of the operations is ordered after this earlier one.
    pub fn is_after(&self, update: &Update) -> Result<bool, NoMemory>
        ensures { IfOk result (λ is. is ≡ is_after self.now.objs self.now.others update.now) }
    {
        let ids = operands(self.alloc, update)?;
        if is_overwrite(update) {
            return Ok(meets(&self.others, &ids));
        }
        Ok(meets(&self.objs, &ids))
    }

    /// One more operation.
    pub fn add(&mut self, update: &Update) -> Result<(), NoMemory>
        ensures { OnOk result ((u : Of) → is_after self.new.objs self.new.others u ≡ (before u update.now || is_after self.old.objs self.old.others u)) }
    {
        let ids = operands(self.alloc, update)?;
        note_all(&mut self.objs, &ids)?;
        if is_overwrite(update) {
            return Ok(());
        }
        note_all(&mut self.others, &ids)
    }
}

// Whether one of the objects is known.
fn meets(known: &SortedMap<ObjId, ()>, objs: &[ObjId]) -> bool
    ensures { result ≡ list_any (λ o. is_some (at o known.now)) objs.now }
{
    objs.iter().any(|obj| known.contains(obj))
}

// The objects are known too.
fn note_all(known: &mut SortedMap<ObjId, ()>, objs: &[ObjId]) -> Result<(), NoMemory>
    ensures { OnOk result ((o : ℕ) → is_some (at o known.new) ≡ (member o objs.now || is_some (at o known.old))) }
{
    match objs {
        [] => Ok(()),
        [obj, rest @ ..] => {
            known.insert(*obj, ())?;
            note_all(known, rest)
        }
    }
}
