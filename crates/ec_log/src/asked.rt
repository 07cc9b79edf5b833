// What is asked for, among the undurable operations.
ghost use Rattle.std.specs.Prelude.{◌≡◌, T, filter, IfOk, OnOk};
ghost use Rattle.std.specs.Ordering.{nat_cmp};
ghost use Rattle.std.specs.FinMap.{is_sorted};
ghost use Rattle.ec_volume.specs.Update.{member};
ghost use Rattle.ec_log.specs.Log.{is_asked, first_number};
ghost use Rattle.ec_log.specs.Choice.{numbers_asked};
ghost use Rattle.ec_log.specs.Chosen.{ask_of, IsFrontOf};

use crate::chains::{Ask, Order, has_operand};
use crate::limits::MAX_BATCH_OPS;
use crate::state::Asked;
use ec_base::{NoMemory, OpNo};
use ec_volume::Update;

fn is_asked(asked: &Asked, op: OpNo, update: &Update) -> bool
    ensures { result ≡ is_asked asked.now (op, update.now) }
{
    match asked {
        Asked::Object(obj) => has_operand(update, *obj),
        Asked::Op(other) => op == *other,
        Asked::All => true,
    }
}

/// The first operation that is asked for by itself.
pub fn first_asked(undurable: &Order, asked: Asked) -> Option<OpNo>
    ensures { result ≡ first_number (filter (is_asked asked) undurable.now) }
{
    undurable.first(ask_of(asked))
}

/// The first of the closure of what is asked for, in the order of issue: at least so many as a
/// batch has, or all.
pub fn front_of(undurable: &Order, asked: Asked) -> Result<Vec<OpNo>, NoMemory>
    ensures front { IfOk result (λ ops. IsFrontOf asked undurable.now ops.items) }
    ensures sorted { OnOk result (T (is_sorted nat_cmp undurable.now)) }
{
    undurable.front(ask_of(asked), MAX_BATCH_OPS)
}

fn ask_of(asked: Asked) -> Ask
    ensures { result ≡ ask_of asked }
{
    match asked {
        Asked::Object(obj) => Ask::Object(obj),
        Asked::Op(op) => Ask::Op(op),
        Asked::All => Ask::All,
    }
}

/// Whether the operation is there and asked for by itself. It takes no memory.
pub fn is_asked_for(asked: &Asked, undurable: &Order, op: OpNo) -> bool
    ensures { result ≡ member op (numbers_asked asked.now undurable.now) }
{
    match undurable.get(op) {
        Some(update) => is_asked(asked, op, update),
        None => false,
    }
}
