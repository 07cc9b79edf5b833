// What is asked and what it needs, by a walk over all operations from the last one on.
ghost use Rattle.std.specs.Prelude.{◌≡◌, ◌||◌, ℕ, IfOk};
ghost use Rattle.ec_base.specs.Tables.{at_or};
ghost use Rattle.ec_order.specs.OfNeeded.Needed.{is_needed};
ghost use Rattle.ec_log.specs.OfChains.Slots.{live};
ghost use Rattle.ec_pending.specs.Pending.{is_asked, issues, numbers_in, picked_out};

use crate::asked::{Asked, is_asked};
use ec_base::{NoMemory, OpNo, SortedMap};
use ec_log::chains::Slot;
use ec_order::needed::Needed;
use ec_volume::Update;
use std::alloc::Global;

/// The numbers of the held operations that are asked, and of those that they need.
pub fn closed(
    alloc: Global,
    held: &[Slot],
    places: &SortedMap<OpNo, u32>,
    asked: &Asked,
) -> Result<Vec<OpNo>, NoMemory>
    ensures { IfOk result (λ ops. ops.items ≡ numbers_in (picked_out (is_asked asked.now) (issues places.now (live held.now)))) }
{
    let mut needed = Needed::new(alloc);
    let mut ops = Vec::new(alloc);
    let mut at = held.len();
    'back: while at > 0 {
        at -= 1;
        let (op, update) = &held[at];
        let Some(update) = update else {
            continue;
        };
        if is_chosen(&needed, asked, place_of(places, *op), update)? {
            needed.add(update)?;
            ops.push(*op)?;
        }
    }
    ops.reverse();
    Ok(ops)
}

// Whether the operation is asked, or a chosen one needs it.
fn is_chosen(needed: &Needed, asked: &Asked, place: u32, update: &Update) -> Result<bool, NoMemory>
    ensures { IfOk result (λ chosen. (n : ℕ) → chosen ≡ (is_asked asked.now (record { number = n; place = place; update = update.now }) || is_needed needed.now.others needed.now.ranges update.now)) }
{
    if is_asked(asked, place, update) {
        return Ok(true);
    }
    needed.has(update)
}

/// The place of the operation's entry.
pub fn place_of(places: &SortedMap<OpNo, u32>, op: OpNo) -> u32
    ensures { result ≡ at_or 0 op places.now }
{
    match places.get(&op) {
        Some(place) => *place,
        None => 0,
    }
}
