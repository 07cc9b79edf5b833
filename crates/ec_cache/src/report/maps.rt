// The owed mentions in two sorted maps.
ghost use Rattle.std.specs.Prelude.{◌≡◌, ℕ, ◌==◌, ◌++◌, ◌∷◌, [], true, false, T, map, not, filter, IfOk, OnOk, if◌then◌else◌};
ghost use Rattle.std.specs.List.{list_all};
ghost use Rattle.std.specs.Option.{option_map};
ghost use Rattle.std.specs.Ordering.{nat_cmp};
ghost use Rattle.std.specs.FinMap.{find, put, is_sorted};
ghost use Rattle.ec_volume.specs.Update.{member};
ghost use Rattle.ec_cache.specs.OfReport.Index.{HaveSameMentions, IsDue, ops_at, without_object, stripped, is_above, AreSeen, fresh};
ghost use Rattle.ec_cache.specs.OfReport.Report as report;

use ec_base::{Duplicate, List, NoMemory, ObjId, OpNo, SortedMap};
use std::alloc::Global;

/// Each operation with the objects on which it's still owed.
pub type Rows = SortedMap<OpNo, List<ObjId>>;

/// Each object with the operations that are owed on it.
pub type Places = SortedMap<ObjId, List<OpNo>>;

/// Adds an operation above all that are owed.
pub fn add(
    alloc: Global,
    rows: &mut Rows,
    places: &mut Places,
    op: OpNo,
    objs: &List<ObjId>,
) -> Result<(), NoMemory>
    requires agrees { HaveSameMentions rows.old places.old }
    requires above { is_above op rows.old ≡ true }
    ensures rows { OnOk result (rows.new ≡ put nat_cmp op objs.now rows.old) }
    ensures agrees { OnOk result (HaveSameMentions rows.new places.new) }
{
    note_all(alloc, places, op, objs.as_slice())?;
    rows.insert(op, objs.duplicate()?)
}

// Notes the operation at each of the objects.
fn note_all(alloc: Global, places: &mut Places, op: OpNo, objs: &[ObjId]) -> Result<(), NoMemory>
    ensures { OnOk result ((x : ℕ) → ops_at x places.new ≡ ops_at x places.old ++ (if member x objs.now then op ∷ [] else [])) }
{
    let mut place = 0;
    while place < objs.len() {
        let obj = objs[place];
        if !objs[..place].contains(&obj) {
            note(alloc, places, op, obj)?;
        }
        place += 1;
    }
    Ok(())
}

fn note(alloc: Global, places: &mut Places, op: OpNo, obj: ObjId) -> Result<(), NoMemory>
    ensures { OnOk result ((x : ℕ) → ops_at x places.new ≡ (if x == obj then ops_at x places.old ++ op ∷ [] else ops_at x places.old)) }
{
    let mut ops = take_ops(alloc, places, obj);
    ops.push(op)?;
    places.insert(obj, List::of(ops))
}

// Takes the operations at the object out.
fn take_ops(alloc: Global, places: &mut Places, obj: ObjId) -> Vec<OpNo>
    ensures ops { result.items ≡ ops_at obj places.old }
    ensures others { (x : ℕ) → (x == obj) ≡ false → ops_at x places.new ≡ ops_at x places.old }
{
    match places.replace(&obj, List::of(Vec::new(alloc))) {
        Some(ops) => ops.into_vec(),
        None => Vec::new(alloc),
    }
}

/// The operations at these objects, rising.
pub fn due(alloc: Global, places: &Places, touched: &[ObjId]) -> Result<Vec<OpNo>, NoMemory>
    ensures { IfOk result (λ ops. IsDue touched.now places.now ops.items) }
{
    let mut ops = Vec::new(alloc);
    for obj in touched {
        if let Some(more) = places.get(obj) {
            ops.extend_from_slice(more.as_slice())?;
        }
    }
    ops.sort_unstable();
    ops.dedup();
    Ok(ops)
}

/// Forgets the mentions of these objects.
pub fn forget_all(alloc: Global, rows: &mut Rows, places: &mut Places, touched: &[ObjId])
    requires agrees { HaveSameMentions rows.old places.old }
    ensures pairs { report.pairs_of rows.new ≡ report.clear touched.now (report.pairs_of rows.old) }
    ensures agrees { HaveSameMentions rows.new places.new }
{
    for obj in touched {
        forget(alloc, rows, places, *obj);
    }
}

// Forgets the mentions of an object.
fn forget(alloc: Global, rows: &mut Rows, places: &mut Places, obj: ObjId)
    requires agrees { HaveSameMentions rows.old places.old }
    ensures rows { rows.new ≡ stripped obj rows.old }
    ensures agrees { HaveSameMentions rows.new places.new }
{
    if let Some(ops) = places.remove(&obj) {
        for op in ops.as_slice() {
            strip(alloc, rows, *op, obj);
        }
    }
}

// The operation isn't owed on the object any more.
fn strip(alloc: Global, rows: &mut Rows, op: OpNo, obj: ObjId)
    requires { T (is_sorted nat_cmp rows.old) }
    ensures sorted { T (is_sorted nat_cmp rows.new) }
    ensures found { (n : ℕ) → find nat_cmp n rows.new ≡ option_map (λ objs. if n == op then without_object obj objs else objs) (find nat_cmp n rows.old) }
{
    if let Some(objs) = rows.replace(&op, List::of(Vec::new(alloc))) {
        let mut left = objs.into_vec();
        left.retain(|other| *other != obj);
        rows.replace(&op, List::of(left));
    }
}

/// The objects of the rows, each once, in their order.
pub fn objects(alloc: Global, rows: &Rows) -> Result<Vec<ObjId>, NoMemory>
    ensures { IfOk result (λ objs. objs.items ≡ report.objects (report.pairs_of rows.now)) }
{
    let mut seen = SortedMap::new(alloc);
    let mut list = Vec::new(alloc);
    for (_, objs) in rows.items() {
        list_new(&mut seen, &mut list, objs.as_slice())?;
    }
    Ok(list)
}

// Lists the objects that aren't listed yet.
fn list_new(
    seen: &mut SortedMap<ObjId, ()>,
    list: &mut Vec<ObjId>,
    objs: &[ObjId],
) -> Result<(), NoMemory>
    requires { AreSeen list.old.items seen.old }
    ensures seen { OnOk result (AreSeen list.new.items seen.new) }
    ensures list { OnOk result (list.new.items ≡ list.old.items ++ fresh list.old.items objs.now) }
{
    for obj in objs {
        if !seen.contains(obj) {
            seen.insert(*obj, ())?;
            list.push(*obj)?;
        }
    }
    Ok(())
}
