// The slots for the modes down to which tokens under recall count, one for each held object.
ghost use Rattle.std.specs.Prelude.{◌≡◌, T, true, None, is_some, IfOk, OnOk, OnErr};
ghost use Rattle.std.specs.Ordering.{nat_cmp};
ghost use Rattle.std.specs.FinMap.{is_sorted};
ghost use Rattle.ec_base.specs.Tables.{at, at_or, or_else, put, without};
ghost use Rattle.ec_cache.specs.Marks.{marks, joined, emptied};

use ec_base::{Hold, NoMemory, ObjId, SortedMap};

// The mode down to which the object's token counts.
pub(crate) fn counts_to(slots: &SortedMap<ObjId, Option<Hold>>, obj: ObjId) -> Hold
    requires { T (is_sorted nat_cmp slots.now) }
    ensures { result ≡ at_or Hold.Write obj (marks slots.now) }
{
    mode_in(slots.get(&obj).copied())
}

fn mode_in(slot: Option<Option<Hold>>) -> Hold
    ensures { result ≡ or_else Hold.Write (joined slot) }
{
    match slot {
        Some(Some(limit)) => limit,
        Some(None) | None => Hold::Write,
    }
}

// The object's token counts only down to this mode. It takes no memory.
pub(crate) fn mark(slots: &mut SortedMap<ObjId, Option<Hold>>, obj: ObjId, limit: Hold)
    requires sorted { T (is_sorted nat_cmp slots.old) }
    requires there { is_some (at obj slots.old) ≡ true }
    ensures marks { marks slots.new ≡ put obj limit (marks slots.old) }
    ensures slots { slots.new ≡ put obj (Some limit) slots.old }
{
    slots.replace(&obj, Some(limit));
}

// The object's token counts whole, if there is one. It takes no memory.
pub(crate) fn clear(slots: &mut SortedMap<ObjId, Option<Hold>>, obj: ObjId)
    requires { T (is_sorted nat_cmp slots.old) }
    ensures marks { marks slots.new ≡ without obj (marks slots.old) }
    ensures there { is_some (at obj slots.old) ≡ true → slots.new ≡ put obj None slots.old }
    ensures absent { at obj slots.old ≡ None → slots.new ≡ slots.old }
{
    slots.replace(&obj, None);
}

// An empty slot for an object that has none.
pub(crate) fn add(slots: &mut SortedMap<ObjId, Option<Hold>>, obj: ObjId) -> Result<(), NoMemory>
    requires { T (is_sorted nat_cmp slots.old) }
    ensures marks { OnOk result (marks slots.new ≡ without obj (marks slots.old)) }
    ensures ok { OnOk result (slots.new ≡ put obj None slots.old) }
    ensures err { OnErr result (slots.new ≡ slots.old) }
{
    slots.insert(obj, None)
}

// Takes an object's slot away.
pub(crate) fn remove(slots: &mut SortedMap<ObjId, Option<Hold>>, obj: ObjId)
    ensures marks { marks slots.new ≡ without obj (marks slots.old) }
    ensures slots { slots.new ≡ without obj slots.old }
{
    slots.remove(&obj);
}

// The same slots with nothing in them.
pub(crate) fn emptied(
    slots: &SortedMap<ObjId, Option<Hold>>,
) -> Result<SortedMap<ObjId, Option<Hold>>, NoMemory>
    ensures { IfOk result (λ made. made ≡ emptied slots.now) }
{
    let mut items = Vec::with_capacity(*slots.allocator(), slots.len())?;
    for (obj, _) in slots.items() {
        items.push((*obj, None))?;
    }
    Ok(SortedMap::of(items))
}
