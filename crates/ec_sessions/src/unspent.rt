// Lists of unspent ids.
ghost use Rattle.std.specs.Prelude.{◌≡◌, ◌==◌, ◌+◌, ◌<◌, ◌≤◌, ◌^◌, ℕ, List, [], ◌++◌, length, None, Some, IfOk, OnOk, OnErr, nat_lt, take, drop, filter, not};
ghost use Rattle.std.specs.List.{prefix_len};
ghost use Rattle.std.specs.List.Sorted.{IsStrictlyIncreasing};
ghost use Rattle.ec_sessions.specs.Slots.{is_in, without, with_ids, run, sixteen};

use ec_base::{List as Items, NoMemory, ObjId};
use std::alloc::Global;
use std::mem;

/// Whether the id is one of these, which rise.
pub(crate) fn is_there(ids: &[ObjId], id: ObjId) -> bool
    requires { IsStrictlyIncreasing ids.now }
    ensures { result ≡ is_in id ids.now }
{
    match ids.binary_search(&id) {
        Ok(_) => true,
        Err(_) => false,
    }
}

/// Takes an id out, and tells whether it was there. It takes no memory.
pub(crate) fn spend_in(alloc: Global, ids: &mut Items<ObjId>, id: ObjId) -> bool
    requires { IsStrictlyIncreasing ids.old }
    ensures answer { result ≡ is_in id ids.old }
    ensures rest { ids.new ≡ without id ids.old }
{
    let mut rest = mem::replace(ids, Items::of(Vec::new(alloc))).into_vec();
    let was_there = take_out(&mut rest, id);
    *ids = Items::of(rest);
    was_there
}

fn take_out(ids: &mut Vec<ObjId>, id: ObjId) -> bool
    requires { IsStrictlyIncreasing ids.old.items }
    ensures answer { result ≡ is_in id ids.old.items }
    ensures rest { ids.new.items ≡ without id ids.old.items }
{
    match ids.binary_search(&id) {
        Ok(at) => {
            ids.remove(at);
            true
        }
        Err(_) => false,
    }
}

/// The ids with the sixteen from `first` at their place.
#[tactic(auto, unfolding(crate::specs::Slots::sixteen))]
pub(crate) fn with_ids(alloc: Global, first: u32, ids: &[ObjId]) -> Result<Vec<ObjId>, NoMemory>
    requires from_one { 1 ≤ first }
    requires last { first ≤ 4294967279 }
    ensures { IfOk result (λ all. all.items ≡ with_ids first ids.now) }
{
    let at = count_below(first, ids);
    let mut all = Vec::with_capacity(alloc, ids.len() + 16)?;
    all.extend_from_slice(&ids[..at])?;
    push_run(&mut all, first, 16)?;
    all.extend_from_slice(&ids[at..])?;
    Ok(all)
}

fn count_below(first: u32, ids: &[ObjId]) -> usize
    ensures { result ≡ prefix_len (λ id. nat_lt id first) ids.now }
{
    ids.iter().take_while(|id| id.get() < first).count()
}

// Adds so many ids from `first` on.
fn push_run(ids: &mut Vec<ObjId>, first: u32, count: u32) -> Result<(), NoMemory>
    requires from_one { 1 ≤ first }
    requires last { first + count ≤ 4294967296 }
    ensures { OnOk result (ids.new.items ≡ ids.old.items ++ run first count) }
{
    for offset in 0..count {
        if let Some(id) = ObjId::new(first + offset) {
            ids.push(id)?;
        }
    }
    Ok(())
}
