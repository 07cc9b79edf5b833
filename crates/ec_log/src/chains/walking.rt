// The places that a walk goes on to: those of the last operations on each object that it met.
ghost use Rattle.std.specs.Prelude.{◌≡◌, ◌≤◌, ◌<◌, ℕ, T, [], ◌∷◌, take, length, is_some, IfNone, IfSome, IfOk, MatchOption, OnOk};
ghost use Rattle.std.specs.Ordering.{nat_cmp};
ghost use Rattle.std.specs.FinMap.{is_sorted};
ghost use Rattle.std.specs.List.Sorted.{IsNonDecreasing};
ghost use Rattle.ec_base.specs.Tables.{at, put};
ghost use Rattle.ec_volume.specs.Update.{member, has_operand, operands};
ghost use Rattle.ec_volume.specs.declared.update.Update.{Update as Of};
ghost use Rattle.ec_order.specs.Order.{Holds};
ghost use Rattle.ec_log.specs.OfChains.Slots.{placed};
ghost use Rattle.ec_log.specs.OfChains.Walk.{passes};
ghost use Rattle.ec_log.specs.OfChains.Chains.{AreLinked, IsAt, IsOne, touches, NonePass, IsLatest, IsPlaceOn, Ahead, IsTaken, AreAwaited};

use crate::chains::chain::Chain;
use crate::chains::chains::chain_of;
use crate::chains::closure::Ask;
use crate::chains::slots::{Slot, has_operand, slot_of};
use ec_base::{NoMemory, ObjId, OpNo, SortedMap};
use ec_order::objmap::ObjMap;
use ec_volume::{Update, operands};
use std::alloc::Global;

/// Takes the last place out.
pub fn take_last(places: &mut SortedMap<usize, ()>) -> Option<usize>
    ensures none { IfNone result ((k : ℕ) → T (is_some (at k places.old)) → ⊥) }
    ensures some { IfSome result (λ place. IsTaken place places.old places.new) }
{
    let place = last_of(places.items())?;
    places.remove(&place);
    Some(place)
}

fn last_of(places: &[(usize, ())]) -> Option<usize>
    requires { T (is_sorted nat_cmp places.now) }
    ensures { MatchOption result ((k : ℕ) → T (is_some (at k places.now)) → ⊥) (λ place. T (is_some (at place places.now)) × ((k : ℕ) → T (is_some (at k places.now)) → k ≤ place)) }
{
    match places {
        [] => None,
        [.., (place, ())] => Some(*place),
    }
}

/// The places of the last operations on the operands are among those that the walk goes on to.
pub fn await_operands(
    alloc: Global,
    places: &mut SortedMap<usize, ()>,
    chains: &ObjMap<Chain>,
    held: &[Slot],
    update: &Update,
) -> Result<(), NoMemory>
    requires sorted { T (is_sorted nat_cmp (placed held.now)) }
    requires linked { AreLinked chains.now (placed held.now) }
    ensures { OnOk result (AreAwaited (placed held.now) (operands update.now) places.old places.new) }
{
    let objs = operands(alloc, update)?;
    await_all(places, chains, held, &objs)
}

fn await_all(
    places: &mut SortedMap<usize, ()>,
    chains: &ObjMap<Chain>,
    held: &[Slot],
    objs: &[ObjId],
) -> Result<(), NoMemory>
    requires sorted { T (is_sorted nat_cmp (placed held.now)) }
    requires linked { AreLinked chains.now (placed held.now) }
    ensures { OnOk result (AreAwaited (placed held.now) objs.now places.old places.new) }
{
    match objs {
        [] => Ok(()),
        [obj, rest @ ..] => {
            await_one(places, chains, held, *obj)?;
            await_all(places, chains, held, rest)
        }
    }
}

fn await_one(
    places: &mut SortedMap<usize, ()>,
    chains: &ObjMap<Chain>,
    held: &[Slot],
    obj: ObjId,
) -> Result<(), NoMemory>
    requires sorted { T (is_sorted nat_cmp (placed held.now)) }
    requires linked { AreLinked chains.now (placed held.now) }
    ensures { OnOk result (AreAwaited (placed held.now) (obj ∷ []) places.old places.new) }
{
    match last_on(chain_of(chains, obj), held, obj) {
        Some(place) => places.insert(place, ()),
        None => Ok(()),
    }
}

/// The place of the last operation that is asked for by itself, alone.
pub fn begin(
    alloc: Global,
    held: &[Slot],
    chains: &ObjMap<Chain>,
    ask: &Ask,
) -> Result<SortedMap<usize, ()>, NoMemory>
    requires sorted { T (is_sorted nat_cmp (placed held.now)) }
    requires linked { AreLinked chains.now (placed held.now) }
    requires one { IsOne ask.now }
    ensures ahead { IfOk result (λ places. Ahead (passes ask.now) (placed held.now) places) }
    ensures within { IfOk result (λ places. (k : ℕ) → T (is_some (at k places)) → k < length (placed held.now)) }
{
    match last_asked(held, chains, ask) {
        Some(place) => one_place(alloc, place),
        None => Ok(SortedMap::new(alloc)),
    }
}

fn one_place(alloc: Global, place: usize) -> Result<SortedMap<usize, ()>, NoMemory>
    ensures { IfOk result (λ places. places ≡ put place tt []) }
{
    let mut places = SortedMap::new(alloc);
    places.insert(place, ())?;
    Ok(places)
}

fn last_asked(held: &[Slot], chains: &ObjMap<Chain>, ask: &Ask) -> Option<usize>
    requires sorted { T (is_sorted nat_cmp (placed held.now)) }
    requires linked { AreLinked chains.now (placed held.now) }
    requires one { IsOne ask.now }
    ensures { MatchOption result (NonePass (passes ask.now) (placed held.now)) (IsLatest (passes ask.now) (placed held.now)) }
{
    match ask {
        Ask::Object(obj) => last_on(chain_of(chains, *obj), held, *obj),
        Ask::Op(op) => place_of(held, *op),
        Ask::All => None,
    }
}

// The place of the operation, if it's held.
fn place_of(held: &[Slot], op: OpNo) -> Option<usize>
    requires { T (is_sorted nat_cmp (placed held.now)) }
    ensures { MatchOption result ((u : Of) → Holds (placed held.now) op u → ⊥) (IsAt op (placed held.now)) }
{
    match slot_of(held, op) {
        Ok(place) => Some(place),
        Err(_) => None,
    }
}

// The place of the last operation on the object.
fn last_on(chain: &[OpNo], held: &[Slot], obj: ObjId) -> Option<usize>
    requires sorted { T (is_sorted nat_cmp (placed held.now)) }
    requires rising { IsNonDecreasing chain.now }
    requires linked { (n : ℕ) (u : Of) → Holds (placed held.now) n u → T (has_operand obj u) → T (member n chain.now) }
    ensures { MatchOption result (NonePass (touches obj) (placed held.now)) (IsLatest (touches obj) (placed held.now)) }
{
    let [.., (last, _)] = held else {
        return None;
    };
    let mut count = up_to(chain, *last);
    'down: while count > 0 {
        count -= 1;
        if let Some(place) = place_on(held, chain[count], obj) {
            return Some(place);
        }
    }
    None
}

/// The place of the operation, if it's held and on the object.
pub fn place_on(held: &[Slot], op: OpNo, obj: ObjId) -> Option<usize>
    requires { T (is_sorted nat_cmp (placed held.now)) }
    ensures { MatchOption result ((u : Of) → Holds (placed held.now) op u → T (has_operand obj u) → ⊥) (λ place. IsPlaceOn op obj (placed held.now) place) }
{
    let Ok(place) = slot_of(held, op) else {
        return None;
    };
    if !has_operand(&held[place].1, obj) {
        return None;
    }
    Some(place)
}

// So many of the first numbers aren't above this one.
fn up_to(chain: &[OpNo], op: OpNo) -> usize
    requires { IsNonDecreasing chain.now }
    ensures within { result ≤ length chain.now }
    ensures members { (n : ℕ) → n ≤ op → T (member n chain.now) → T (member n (take result chain.now)) }
{
    chain.partition_point(|other| other.0 <= op.0)
}
