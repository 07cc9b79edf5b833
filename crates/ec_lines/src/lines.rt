// Which lines may follow those above them.
ghost use Rattle.std.specs.Prelude.{◌≡◌, ◌<◌, ◌^◌, T, length, is_some, Decides, IfOk, MatchOption};
ghost use Rattle.std.specs.List.{list_all};
ghost use Rattle.ec_volume.specs.Update.{member};
ghost use Rattle.ec_history.specs.Placing.{Agrees, Unanswered, EachLine, MayFollow, owner, same_numbers, to_lose};
ghost use Rattle.ec_lines.specs.Faults.{HasShape, BreaksLine};
ghost use Rattle.ec_lines.specs.Index.{CallIsKnown, IsKnownOf};
ghost use Rattle.ec_lines.specs.Named.{is_told, IsNamed};
ghost use Rattle.ec_lines.specs.Seen.{Sees};

use crate::calls;
use crate::index::CallLines;
use crate::seen::Seen;
use ec_base::{ClerkId, List, NoMemory, OpNo};
use ec_history::{Rule, Shown};
use ec_plain::Call;
use ec_watch::watching::{self, Watching};
use std::alloc::Global;

/// The first rule that the line breaks behind those above it, as they are seen.
pub fn broken(
    alloc: Global,
    above: &[Shown],
    seen: &Seen,
    known: Option<CallLines>,
    line: &Shown,
) -> Result<Option<Rule>, NoMemory>
    requires sees { Sees seen.now above.now }
    requires known { IsKnownOf above.now line.now known }
    requires few { length above.now < 2 ^ 31 }
    ensures { IfOk result (λ found. MatchOption found (MayFollow above.now line.now) (λ rule. BreaksLine above.now line.now rule)) }
{
    if !has_shape(above, known, line) {
        return Ok(Some(Rule::Shape));
    }
    match ec_watch::clerk_of(line) {
        Some(clerk) => {
            let named = is_named(alloc, watching::watch_of(&seen.watches, clerk), line)?;
            if named {
                Ok(None)
            } else {
                Ok(Some(Rule::Named))
            }
        }
        None => Ok(None),
    }
}

// Whether its number has one clerk, one call and one answer.
fn has_shape(above: &[Shown], known: Option<CallLines>, line: &Shown) -> bool
    requires { IsKnownOf above.now line.now known }
    ensures { Decides result (HasShape above.now line.now) }
{
    match line {
        Shown::Waits(number, clerk, call) => all_agree(above, known, *number, *clerk, call),
        Shown::Answered(number, clerk, call, _, _) => {
            all_agree(above, known, *number, *clerk, call) && is_unanswered(above, known, *number)
        }
        _ => true,
    }
}

// Whether each line of this number above has this clerk and call.
fn all_agree(
    above: &[Shown],
    known: Option<CallLines>,
    number: u32,
    clerk: ClerkId,
    call: &Call,
) -> bool
    requires { CallIsKnown above.now number known }
    ensures { Decides result (EachLine (Agrees number clerk call.now) above.now) }
{
    match known {
        Some(lines) => agrees(number, clerk, call, &above[lines.first]),
        None => true,
    }
}

fn agrees(number: u32, clerk: ClerkId, call: &Call, line: &Shown) -> bool
    ensures { Decides result (Agrees number clerk call.now line.now) }
{
    match line {
        Shown::Waits(same, of, its) => *same != number || is_call(clerk, call, *of, its),
        Shown::Answered(same, of, its, _, _) => *same != number || is_call(clerk, call, *of, its),
        _ => true,
    }
}

// Whether it is the same call of the same clerk.
fn is_call(clerk: ClerkId, call: &Call, of: ClerkId, its: &Call) -> bool
    ensures { Decides result ((of ≡ clerk) × (its.now ≡ call.now)) }
{
    of == clerk && calls::is_same(its, call)
}

// Whether no line above answers the call of this number.
fn is_unanswered(above: &[Shown], known: Option<CallLines>, number: u32) -> bool
    requires { CallIsKnown above.now number known }
    ensures { Decides result (EachLine (Unanswered number) above.now) }
{
    match known {
        Some(lines) => !lines.is_answered,
        None => true,
    }
}

// Whether it names what it may behind the watch of its clerk.
fn is_named(alloc: Global, watch: &Watching, line: &Shown) -> Result<bool, NoMemory>
    requires { watch.now.starts < 2 ^ 32 }
    ensures { IfOk result (λ named. Decides named (IsNamed watch.now line.now)) }
{
    match line {
        Shown::Answered(_, _, call, answer, _) => {
            Ok(!ec_watch::shows(call, answer) || watching::may_show(watch))
        }
        Shown::Durable(_, ops) => Ok(may_be_durable(watch, ops)),
        Shown::Ended(_, ops) => may_end(alloc, watch, ops),
        Shown::Unseen(_) => Ok(watching::may_be_unseen(watch)),
        Shown::Told(_, ops) => may_be_told(alloc, watch, ops),
        _ => Ok(true),
    }
}

// Whether these operations became durable.
fn may_be_durable(watch: &Watching, ops: &List<OpNo>) -> bool
    ensures { Decides result (T (list_all (λ n. member n watch.now.undurable) ops.now)) }
{
    watching::may_be_durable(watch, ops.as_slice())
}

// Whether a session ends with these operations lost.
fn may_end(alloc: Global, watch: &Watching, ops: &List<OpNo>) -> Result<bool, NoMemory>
    ensures { IfOk result (λ may. Decides may (T (is_some (owner watch.now)) × T (same_numbers ops.now (to_lose watch.now)))) }
{
    if watching::owner(watch).is_none() {
        return Ok(false);
    }
    let same = watching::loses(alloc, watch, ops.as_slice())?;
    Ok(same)
}

// Whether these operations are told as lost.
fn may_be_told(alloc: Global, watch: &Watching, ops: &List<OpNo>) -> Result<bool, NoMemory>
    ensures { IfOk result (λ may. Decides may (T (is_told watch.now ops.now))) }
{
    match watching::untold(watch) {
        Some(lost) => {
            let same = ec_watch::same_numbers(alloc, ops.as_slice(), lost)?;
            Ok(same)
        }
        None => Ok(false),
    }
}
