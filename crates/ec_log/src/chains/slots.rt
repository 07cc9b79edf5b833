// Held operations by their places, some of which have left.
ghost use Rattle.std.specs.Prelude.{◌≡◌, ◌≤◌, T, [], length, take, drop, true, option_copied, IfOk, MatchResult};
ghost use Rattle.std.specs.Ordering.{nat_cmp};
ghost use Rattle.std.specs.FinMap.{is_sorted};
ghost use Rattle.ec_base.specs.Tables.{at, keys};
ghost use Rattle.ec_volume.specs.Update.{has_operand};
ghost use Rattle.ec_volume.specs.declared.update.Update.{Update as Of};
ghost use Rattle.ec_order.specs.Order.{Holds};
ghost use Rattle.ec_log.specs.OfChains.Chains.{IsAt};
ghost use Rattle.ec_log.specs.OfChains.Held.{is_behind, first_number};
ghost use Rattle.ec_log.specs.OfChains.Slots.{live, shown_update, placed};

use crate::chains::operand;
use ec_base::{NoMemory, ObjId, OpNo};
use ec_volume::Update;
use std::alloc::Global;

/// A place among held operations: the number of one, and its update while it's held.
pub type Slot = (OpNo, Option<Update>);

/// Where the operation's number is, or where it would go.
pub fn slot_of(held: &[Slot], op: OpNo) -> Result<usize, usize>
    requires { T (is_sorted nat_cmp (placed held.now)) }
    ensures { MatchResult result (λ place. IsAt op (placed held.now) place) (λ _. (u : Of) → Holds (placed held.now) op u → ⊥) }
{
    held.binary_search_by(|(here, _)| here.0.cmp(&op.0))
}

/// The operation's update, if it's held.
pub fn update_of(held: &[Slot], op: OpNo) -> Option<&Update>
    requires { T (is_sorted nat_cmp (placed held.now)) }
    ensures { option_copied result ≡ at op (live held.now) }
{
    match slot_of(held, op) {
        Ok(place) => held[place].1.as_ref(),
        Err(_) => None,
    }
}

/// Whether the object is an operand of the update. An operation that left has none.
pub fn has_operand(update: &Option<Update>, obj: ObjId) -> bool
    ensures { result ≡ has_operand obj (shown_update update.now) }
{
    match update {
        Some(update) => operand::has_operand(update, obj),
        None => false,
    }
}

/// The number of the first operation that is held.
pub fn first_held(held: &[Slot]) -> Option<OpNo>
    ensures { result ≡ first_number (live held.now) }
{
    'each: for (op, update) in held {
        if update.is_some() {
            return Some(*op);
        }
    }
    None
}

/// The numbers of the first ones that are held: so many, or all.
pub fn first_numbers(alloc: Global, held: &[Slot], most: usize) -> Result<Vec<OpNo>, NoMemory>
    ensures { IfOk result (λ ops. ops.items ≡ take most (keys (live held.now))) }
{
    let mut ops = Vec::new(alloc);
    'each: for (op, update) in held {
        if ops.as_slice().len() >= most {
            return Ok(ops);
        }
        if update.is_some() {
            ops.push(*op)?;
        }
    }
    Ok(ops)
}

/// So many of the first ones have left, from so many on.
pub fn leading(held: &[Slot], gone: usize) -> usize
    requires within { gone ≤ length held.now }
    requires gone { live (take gone held.now) ≡ [] }
    ensures within { result ≤ length held.now }
    ensures gone { live (take result held.now) ≡ [] }
{
    let mut count = gone;
    'each: while count < held.len() {
        if held[count].1.is_some() {
            return count;
        }
        count += 1;
    }
    count
}

/// Behind the last one below the operation. All from there on have left.
pub fn end_below(held: &[Slot], op: OpNo) -> usize
    requires sorted { T (is_sorted nat_cmp (placed held.now)) }
    requires behind { is_behind op (live held.now) ≡ true }
    ensures within { result ≤ length held.now }
    ensures gone { live (drop result held.now) ≡ [] }
    ensures below { is_behind op (placed (take result held.now)) ≡ true }
{
    let mut end = held.len();
    'each: while end > 0 {
        let (last, _) = &held[end - 1];
        if last.0 < op.0 {
            return end;
        }
        end -= 1;
    }
    end
}
