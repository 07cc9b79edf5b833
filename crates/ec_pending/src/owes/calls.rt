// The rules of a call.
ghost use Rattle.std.specs.Prelude.{◌≡◌, Decides, IfOk, MatchOption};
ghost use Rattle.ec_history.specs.Legal.{IsReported, IsFull, IsReply, is_making};
ghost use Rattle.ec_pending.specs.OfOwes.Rules.{IsNumbered, due_of, KeepsRules, BreaksRule};

use crate::owes::owes::Owes;
use crate::owes::replies;
use ec_base::{NoMemory, OpNo};
use ec_history::{Answer, Rule};
use ec_plain::{Call, Outcome};
use ec_volume::Update;

// A grant of ids has so many.
const ID_GRANT: u64 = 16;

/// A call as its entry shows it: how it was answered, and the number of its operation.
#[derive(Clone, Copy, Drop)]
pub struct Answered<'a> {
    pub call: &'a Call,
    pub answer: &'a Answer,
    pub op: &'a Option<OpNo>,
}

/// The first rule that the call breaks, by its outcome. Its start issued so many operations and
/// owes these pairs.
pub fn broken_rule(
    most: u32,
    count: u64,
    owed: &Owes,
    answered: &Answered<'_>,
    outcome: &Outcome,
) -> Result<Option<Rule>, NoMemory>
    ensures { IfOk result (λ found. MatchOption found (KeepsRules count (due_of owed.now outcome.now answered.now.call.now) most outcome.now answered.now.answer.now answered.now.op.now)
        (λ rule. BreaksRule count (due_of owed.now outcome.now answered.now.call.now) most outcome.now answered.now.answer.now answered.now.op.now rule)) }
{
    if !is_next(count, answered.op) {
        return Ok(Some(Rule::Number));
    }
    let due = owed.due(answered.call, outcome)?;
    if !is_reported(&due, answered.answer) {
        return Ok(Some(Rule::Report));
    }
    if !is_full(most, outcome, answered.answer) {
        return Ok(Some(Rule::Room));
    }
    if !is_reply(outcome, answered.answer, answered.op) {
        return Ok(Some(Rule::Reply));
    }
    Ok(None)
}

// Whether the number, if any, is the next one of a start that issued so many.
fn is_next(count: u64, op: &Option<OpNo>) -> bool
    ensures { Decides result (IsNumbered count op.now) }
{
    match op {
        None => true,
        Some(op) => op.0 > 0 && op.0 - 1 == count,
    }
}

fn is_reported(due: &[OpNo], answer: &Answer) -> bool
    ensures { Decides result (IsReported due.now answer.now) }
{
    match answer {
        Answer::Lost(ops) => !due.is_empty() && same_ops(ops.as_slice(), due),
        Answer::Reply(_) | Answer::NoRoom(_, _) => due.is_empty(),
    }
}

fn same_ops(ops: &[OpNo], others: &[OpNo]) -> bool
    ensures { Decides result (ops.now ≡ others.now) }
{
    ops == others
}

fn is_full(most: u32, outcome: &Outcome, answer: &Answer) -> bool
    ensures { Decides result (IsFull most outcome.now answer.now) }
{
    match answer {
        Answer::NoRoom(live, reserved) => {
            is_making(&outcome.update) && (most as u64) < *live as u64 + *reserved as u64 + ID_GRANT
        }
        _ => true,
    }
}

fn is_making(update: &Option<Update>) -> bool
    ensures { result ≡ is_making update.now }
{
    matches!(update, Some(Update::Make { .. }))
}

fn is_reply(outcome: &Outcome, answer: &Answer, op: &Option<OpNo>) -> bool
    ensures { Decides result (IsReply outcome.now answer.now op.now) }
{
    match answer {
        Answer::Reply(reply) => {
            replies::is_same(reply, &outcome.reply) && op.is_some() == outcome.update.is_some()
        }
        _ => op.is_none(),
    }
}
