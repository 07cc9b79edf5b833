// The batches under way, and whether a new one begins.
ghost use Rattle.std.specs.Prelude.{◌≡◌, ◌&&◌, ◌||◌, true, not, filter, is_some, IfOk};
ghost use Rattle.std.specs.List.{list_any};
ghost use Rattle.ec_base.specs.Tables.{keys, first};
ghost use Rattle.ec_volume.specs.Update.{member};
ghost use Rattle.ec_log.specs.OfChains.Slots.{live};
ghost use Rattle.ec_sessions.specs.Windows.{has};
ghost use Rattle.ec_log.specs.Choice as choice;
ghost use Rattle.ec_log.specs.Chosen as chosen;
ghost use Rattle.ec_base.specs.SmallLaws.{rises};

use crate::asked::is_asked_for;
use crate::chains::{Order, Slot};
use crate::limits::{MAX_BATCH_OPS, WINDOW_SIZE};
use crate::state::{Asked, Pick};
use ec_base::{Duplicate, List, NoMemory, OpNo};
use ec_sessions::Window;
use ec_volume::Update;
use std::alloc::Global;

/// What is to be sent for a closure that begins so, and no new batch begins before the answer of the
/// one behind which it is, if any.
pub fn choose(
    mut ops: Vec<OpNo>,
    next: u64,
    batches: &[(u64, List<OpNo>)],
    behind: Option<u64>,
) -> Pick
    ensures { result ≡ chosen.chosen ops.items next batches.now behind }
{
    if ops.as_slice().is_empty() {
        return Pick::Settled;
    }
    if let Some(batch) = behind {
        return Pick::Behind(batch);
    }
    if let Some(batch) = full_from(next, batches) {
        return Pick::Window(batch);
    }
    ops.truncate(MAX_BATCH_OPS);
    Pick::Batch(next, List::of(ops))
}

/// The first of the batches that has one of these operations, or one that is asked for by itself.
pub fn first_met(
    batches: &[(u64, List<OpNo>)],
    ops: &[OpNo],
    asked: &Asked,
    undurable: &Order,
) -> Option<u64>
    ensures { result ≡ chosen.batch_number (first (chosen.is_met ops.now asked.now undurable.now) batches.now) }
{
    match batches {
        [] => None,
        [(no, members), rest @ ..] => {
            if is_met(members.as_slice(), ops, asked, undurable) {
                Some(*no)
            } else {
                first_met(rest, ops, asked, undurable)
            }
        }
    }
}

fn is_met(members: &[OpNo], ops: &[OpNo], asked: &Asked, undurable: &Order) -> bool
    ensures { result ≡ list_any (λ n. member n ops.now || member n (choice.numbers_asked asked.now undurable.now)) members.now }
{
    match members {
        [] => false,
        [op, rest @ ..] => {
            ops.contains(op)
                || is_asked_for(asked, undurable, *op)
                || is_met(rest, ops, asked, undurable)
        }
    }
}

// The least batch under way, where the next one would be a whole window above it.
fn full_from(next: u64, batches: &[(u64, List<OpNo>)]) -> Option<u64>
    ensures { result ≡ chosen.full_from next batches.now }
{
    match batches {
        [(least, _), ..] if next >= WINDOW_SIZE && next - WINDOW_SIZE == *least => Some(*least),
        _ => None,
    }
}

/// Copies of the operations of these numbers, each found in time of the logarithm of how many there
/// are.
pub fn those_in(
    alloc: Global,
    members: &[OpNo],
    undurable: &Order,
) -> Result<Vec<(OpNo, Update)>, NoMemory>
    requires { rises members.now ≡ true }
    ensures { IfOk result (λ found. found.items ≡ filter (λ op. member op.0 members.now) undurable.now) }
{
    let mut found = Vec::with_capacity(alloc, members.len().min(undurable.count()))?;
    'members: for op in members {
        if let Some(update) = undurable.get(*op) {
            found.push((*op, update.duplicate()?))?;
        }
    }
    Ok(found)
}

/// The operations but those in batches that the window has.
pub fn lost_of(
    alloc: Global,
    window: &Window,
    batches: &[(u64, List<OpNo>)],
    slots: &[Slot],
) -> Result<Vec<OpNo>, NoMemory>
    ensures { IfOk result (λ lost. lost.items ≡ keys (chosen.lost_in window.now batches.now (live slots.now))) }
{
    let mut lost = Vec::new(alloc);
    'slots: for (op, update) in slots {
        if is_lost(window, batches, *op, update) {
            lost.push(*op)?;
        }
    }
    Ok(lost)
}

// Whether the place has an operation, and it's in no batch that the window has.
fn is_lost(
    window: &Window,
    batches: &[(u64, List<OpNo>)],
    op: OpNo,
    update: &Option<Update>,
) -> bool
    ensures { result ≡ (is_some update.now && not (list_any (λ b. has window.now b.0 && member op b.1) batches.now)) }
{
    update.is_some() && !is_kept_by(window, batches, op)
}

// Whether the operation is in a batch that the window has.
fn is_kept_by(window: &Window, batches: &[(u64, List<OpNo>)], op: OpNo) -> bool
    ensures { result ≡ list_any (λ b. has window.now b.0 && member op b.1) batches.now }
{
    match batches {
        [] => false,
        [(no, members), rest @ ..] => {
            (window.has(*no) && members.as_slice().contains(&op)) || is_kept_by(window, rest, op)
        }
    }
}
