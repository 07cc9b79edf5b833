// The rules of a loss.
ghost use Rattle.std.specs.Prelude.{◌≡◌, ℕ, T, ◌||◌, ◌&&◌, ◌++◌, ◌∷◌, [], false, ◌<◌, ◌≤◌, ◌+◌, not, map, take, drop, reverse, length, slice_index_or, slice_set, Some, None, IfOk, OnOk, MatchBool, MatchOption};
ghost use Rattle.std.specs.List.{filter, list_any, list_all};
ghost use Rattle.ec_volume.specs.Update.{member, operands};
ghost use Rattle.ec_history.specs.History.{of_start, is_one_of, pairs_of};
ghost use Rattle.ec_judge.specs.Carried.{ops_of, op_of, is_among, is_touched, are_kept, are_uncovered, are_untouched, are_closed, KeepsMarks, BreaksMarks, touches_in, IsOwing};
ghost use Rattle.ec_judge.specs.Index.{SamePlaces};
ghost use Rattle.ec_pending.specs.Pending.{numbers_in};
ghost use Rattle.ec_judge.specs.declared.carried.Start.{Start as StartOf};

use crate::carried::{Kept, Start, Touches};
use crate::touches::is_touched;
use ec_base::{ClerkId, NoMemory, ObjId, OpNo};
use ec_history::Rule;
use ec_order::numbers::Numbers;
use ec_order::objtable::ObjTable;
use ec_pending::Deferred;
use ec_pending::outside::Outside;
use ec_pending::owes::Owes;
use ec_volume::operands;
use std::alloc::Global;

/// What a loss names: operations of a start.
#[derive(Clone, Copy, Drop)]
pub struct Named<'a> {
    pub clerk: ClerkId,
    pub boot: u64,
    pub ops: &'a Numbers,
}

/// The first rule that a loss of these operations of the start at this index breaks, but for what is
/// left of the others. None of them is kept before the index `from`.
#[inline(never)]
pub fn broken_at(
    touches: &ObjTable<Touches>,
    starts: &mut Vec<Start>,
    at: usize,
    kept: &[Kept],
    from: usize,
    named: &Named<'_>,
) -> Result<Option<Rule>, NoMemory>
    requires at { at < length starts.old.items }
    requires within { from ≤ length kept.now }
    requires none { list_any (is_among named.now.clerk named.now.boot named.now.ops.now) (take from kept.now) ≡ false }
    ensures found { IfOk result (λ found. (s : StartOf) × (s ≡ slice_index_or starts.old.items at s) × MatchOption found (KeepsMarks named.now.clerk named.now.boot named.now.ops.now (numbers_in s.pending.1) (touches_in touches.now) kept.now)
        (λ rule. BreaksMarks named.now.clerk named.now.boot named.now.ops.now (numbers_in s.pending.1) (touches_in touches.now) kept.now rule)) }
    ensures unchanged { OnOk result (starts.new.items ≡ starts.old.items) }
    ensures same { SamePlaces starts.old.items starts.new.items }
{
    let alloc = *starts.allocator();
    broken(alloc, touches, &mut starts[at], kept, from, named)
}

// The same of this start.
fn broken(
    alloc: Global,
    touches: &ObjTable<Touches>,
    start: &mut Start,
    kept: &[Kept],
    from: usize,
    named: &Named<'_>,
) -> Result<Option<Rule>, NoMemory>
    requires within { from ≤ length kept.now }
    requires none { list_any (is_among named.now.clerk named.now.boot named.now.ops.now) (take from kept.now) ≡ false }
    ensures found { IfOk result (λ found. MatchOption found (KeepsMarks named.now.clerk named.now.boot named.now.ops.now (numbers_in start.old.pending.1) (touches_in touches.now) kept.now) (λ rule. BreaksMarks named.now.clerk named.now.boot named.now.ops.now (numbers_in start.old.pending.1) (touches_in touches.now) kept.now rule)) }
    ensures clerk { start.new.clerk ≡ start.old.clerk }
    ensures boot { start.new.boot ≡ start.old.boot }
    ensures unchanged { OnOk result (start.new ≡ start.old) }
{
    let pending = &mut start.pending;
    broken_in(alloc, touches, pending, &kept[from..], named)
}

// The same among all of these.
fn broken_in(
    alloc: Global,
    touches: &ObjTable<Touches>,
    pending: &mut Deferred,
    kept: &[Kept],
    named: &Named<'_>,
) -> Result<Option<Rule>, NoMemory>
    ensures found { IfOk result (λ found. MatchOption found (KeepsMarks named.now.clerk named.now.boot named.now.ops.now (numbers_in pending.old.1) (touches_in touches.now) kept.now) (λ rule. BreaksMarks named.now.clerk named.now.boot named.now.ops.now (numbers_in pending.old.1) (touches_in touches.now) kept.now rule)) }
    ensures unchanged { OnOk result (pending.new ≡ pending.old) }
{
    if !are_kept(alloc, kept, named)? {
        return Ok(Some(Rule::Named));
    }
    if !are_uncovered(pending, kept, named)? {
        return Ok(Some(Rule::Covered));
    }
    if !are_untouched(alloc, touches, kept, named)? {
        return Ok(Some(Rule::Touched));
    }
    if !are_closed(alloc, kept, named)? {
        return Ok(Some(Rule::Closed));
    }
    Ok(None)
}

/// Whether the kept operation is one of these of the start.
pub fn is_among(kept: &Kept, named: &Named<'_>) -> bool
    ensures { result ≡ is_among named.now.clerk named.now.boot named.now.ops.now kept.now }
{
    named.clerk == kept.clerk && named.boot == kept.boot && named.ops.has(kept.number)
}

// Whether each of the operations is kept.
fn are_kept(alloc: Global, kept: &[Kept], named: &Named<'_>) -> Result<bool, NoMemory>
    ensures { IfOk result (λ are. are ≡ are_kept named.now.clerk named.now.boot named.now.ops.now kept.now) }
{
    let own = Numbers::of(alloc, numbers_of(alloc, kept, named.clerk, named.boot)?)?;
    Ok(are_all_in(&own, named.ops))
}

// The numbers of the start's operations.
fn numbers_of(
    alloc: Global,
    kept: &[Kept],
    clerk: ClerkId,
    boot: u64,
) -> Result<Vec<OpNo>, NoMemory>
    ensures { IfOk result (λ ops. ops.items ≡ map (λ k. k.number) (filter (λ k. of_start clerk boot (op_of k)) kept.now)) }
{
    let mut ops = Vec::new(alloc);
    for kept in kept {
        if clerk == kept.clerk && boot == kept.boot {
            ops.push(kept.number)?;
        }
    }
    Ok(ops)
}

// Whether each of the operations is one of these.
fn are_all_in(known: &Numbers, ops: &Numbers) -> bool
    ensures { result ≡ list_all (λ n. member n known.now) ops.now }
{
    ops.items().iter().all(|op| known.has(*op))
}

// Whether none of the operations is covered.
fn are_uncovered(pending: &mut Deferred, kept: &[Kept], named: &Named<'_>) -> Result<bool, NoMemory>
    ensures are { IfOk result (λ are. are ≡ are_uncovered named.now.clerk named.now.boot named.now.ops.now (numbers_in pending.old.1) kept.now) }
    ensures unchanged { OnOk result (pending.new ≡ pending.old) }
{
    for kept in kept {
        if is_among(kept, named) && !pending.has(kept.number)? {
            return Ok(false);
        }
    }
    Ok(true)
}

// Whether none of the operations was touched.
fn are_untouched(
    alloc: Global,
    touches: &ObjTable<Touches>,
    kept: &[Kept],
    named: &Named<'_>,
) -> Result<bool, NoMemory>
    ensures { IfOk result (λ are. are ≡ are_untouched named.now.clerk named.now.boot named.now.ops.now (touches_in touches.now) kept.now) }
{
    for kept in kept {
        if !is_among(kept, named) {
            continue;
        }
        if is_touched(alloc, touches, kept)? {
            return Ok(false);
        }
    }
    Ok(true)
}

// Whether no other operation of the start is ordered after one of these. Each is looked at once, from
// the last one on.
fn are_closed(alloc: Global, kept: &[Kept], named: &Named<'_>) -> Result<bool, NoMemory>
    ensures { IfOk result (λ closed. closed ≡ are_closed named.now.clerk named.now.boot named.now.ops.now kept.now) }
{
    let mut outside = Outside::new(alloc);
    let mut at = kept.len();
    'back: while at > 0 {
        at -= 1;
        let next = &kept[at];
        if !is_own(next, named.clerk, named.boot) {
            continue;
        }
        if !named.ops.has(next.number) {
            outside.add(&next.update)?;
            continue;
        }
        if outside.is_after(&next.update)? {
            return Ok(false);
        }
    }
    Ok(true)
}

fn is_own(kept: &Kept, clerk: ClerkId, boot: u64) -> bool
    ensures { result ≡ of_start clerk boot (op_of kept.now) }
{
    clerk == kept.clerk && boot == kept.boot
}

/// Adds the pairs of the lost operations to what the start at this index owes.
#[inline(never)]
pub fn owe_at(
    alloc: Global,
    starts: &mut Vec<Start>,
    at: usize,
    kept: &[Kept],
    from: usize,
    named: &Named<'_>,
) -> Result<(), NoMemory>
    requires at { at < length starts.old.items }
    requires within { from ≤ length kept.now }
    requires none { list_any (is_among named.now.clerk named.now.boot named.now.ops.now) (take from kept.now) ≡ false }
    ensures owing { OnOk result ((s : StartOf) × IsOwing (pairs_of (filter (is_one_of named.now.clerk named.now.boot named.now.ops.now) (ops_of kept.now))) (slice_index_or starts.old.items at s) s
        × (starts.new.items ≡ slice_set starts.old.items at s)) }
    ensures same { SamePlaces starts.old.items starts.new.items }
{
    owe(alloc, &mut starts[at], &kept[from..], named)
}

// Adds the pairs of the lost operations to what is owed.
fn owe(alloc: Global, start: &mut Start, kept: &[Kept], named: &Named<'_>) -> Result<(), NoMemory>
    ensures clerk { start.new.clerk ≡ start.old.clerk }
    ensures boot { start.new.boot ≡ start.old.boot }
    ensures count { start.new.pending.0 ≡ start.old.pending.0 }
    ensures owed { OnOk result (start.new.owed ≡ start.old.owed ++ pairs_of (filter (is_one_of named.now.clerk named.now.boot named.now.ops.now) (ops_of kept.now))) }
    ensures pending { start.new.pending.1 ≡ start.old.pending.1 }
{
    for lost in kept {
        if is_among(lost, named) {
            push_pairs(
                &mut start.owed,
                lost.number,
                &operands(alloc, &lost.update)?,
            )?;
        }
    }
    Ok(())
}

fn push_pairs(owed: &mut Owes, op: OpNo, objs: &[ObjId]) -> Result<(), NoMemory>
    ensures { OnOk result (owed.new ≡ owed.old ++ map (λ o. (op, o)) objs.now) }
{
    for obj in objs {
        owed.push(op, *obj)?;
    }
    Ok(())
}

/// Takes the lost operations out. None of them stands before the index.
#[inline(never)]
pub fn forget(
    alloc: Global,
    kept: &mut Vec<Kept>,
    from: usize,
    named: &Named<'_>,
) -> Result<(), NoMemory>
    requires within { from ≤ length kept.old.items }
    requires none { list_any (is_among named.now.clerk named.now.boot named.now.ops.now) (take from kept.old.items) ≡ false }
    ensures { OnOk result (kept.new.items ≡ filter (λ k. not (is_among named.now.clerk named.now.boot named.now.ops.now k)) kept.old.items) }
{
    let left = take_behind(alloc, kept, from, named)?;
    put_back(kept, left)
}

// Takes the operations behind the index out. Those that aren't lost are given, from the last on.
fn take_behind(
    alloc: Global,
    kept: &mut Vec<Kept>,
    from: usize,
    named: &Named<'_>,
) -> Result<Vec<Kept>, NoMemory>
    requires { from ≤ length kept.old.items }
    ensures { IfOk result (λ left. (kept.new.items ≡ take from kept.old.items) × (reverse left.items ≡ filter (λ k. not (is_among named.now.clerk named.now.boot named.now.ops.now k)) (drop from kept.old.items))) }
{
    let mut left = Vec::new(alloc);
    'back: while kept.len() > from {
        let Some(last) = kept.pop() else {
            break;
        };
        if !is_among(&last, named) {
            left.push(last)?;
        }
    }
    Ok(left)
}

// Puts operations behind, the last one first.
fn put_back(kept: &mut Vec<Kept>, behind: Vec<Kept>) -> Result<(), NoMemory>
    ensures { OnOk result (kept.new.items ≡ kept.old.items ++ reverse behind.items) }
{
    let mut left = behind;
    'forth: while let Some(next) = left.pop() {
        kept.push(next)?;
    }
    Ok(())
}
