// What a call comes to, or the first thing that it lacks.
ghost use Rattle.std.specs.Prelude.{◌≡◌, not, IfOk};
ghost use Rattle.ec_base.specs.Tables.{first, or_else};
ghost use Rattle.ec_cache.specs.Cache.{holds};
ghost use Rattle.ec_plain.specs.Plain.{is_sync};
ghost use Rattle.ec_cache.specs.OfReport.Report.{due};
ghost use Rattle.ec_volume.specs.Image.{is_id};
ghost use Rattle.ec_volume.specs.Update.{is_make};
ghost use Rattle.ec_cache.specs.OfResolve.Resolve as resolve;
ghost use Rattle.ec_cache.specs.declared.resolve.verdict.Verdict.{Verdict as Of};
ghost use Rattle.ec_cache.specs.declared.resolve.verdict.Verdict.TheVariants.{Done};

use crate::Cache;
use crate::report::Report;
use crate::resolve::verdict::Verdict;
use ec_base::{Hold, List, NoMemory, ObjId, OpNo};
use ec_plain::{Call, Outcome, plain};
use ec_volume::{Update, operands};
use std::alloc::Global;

/// What the call comes to on the images held, where a new object is to have the fresh id, or the
/// first thing that it lacks.
pub fn evaluate(
    alloc: Global,
    cache: &Cache,
    owed: &Report,
    call: &Call,
    fresh: Option<ObjId>,
) -> Result<Verdict, NoMemory>
    ensures { IfOk result (λ verdict. verdict ≡ resolve.evaluate cache.now owed.now call.now fresh) }
{
    // an object that is made without an id is left out of the verdict
    let id = stand_in(&fresh);
    let outcome = plain(alloc, cache, call, id)?;
    judge(alloc, cache, owed, call, &fresh, outcome)
}

// The fresh id, or any one where there is none.
fn stand_in(fresh: &Option<ObjId>) -> ObjId
    ensures { result ≡ or_else 1 fresh.now }
{
    match fresh {
        Some(id) => *id,
        None => ObjId::root(),
    }
}

fn judge(
    alloc: Global,
    cache: &Cache,
    owed: &Report,
    call: &Call,
    fresh: &Option<ObjId>,
    outcome: Outcome,
) -> Result<Verdict, NoMemory>
    ensures { IfOk result (λ verdict. verdict ≡ resolve.judged cache.now owed.now call.now fresh.now outcome) }
{
    let idless = lacks_id(fresh, &outcome.update);
    match missing(cache, owed, call, fresh, idless, &outcome) {
        Ok(None) => lacking(alloc, cache, idless, outcome),
        Ok(Some(verdict)) => {
            drop(outcome);
            Ok(verdict)
        }
        Err(fault) => {
            drop(outcome);
            Err(fault)
        }
    }
}

// The first object that was read without a token, or what is owed on what the call meets.
fn missing(
    cache: &Cache,
    owed: &Report,
    call: &Call,
    fresh: &Option<ObjId>,
    idless: bool,
    outcome: &Outcome,
) -> Result<Option<Verdict>, NoMemory>
    ensures { IfOk result (λ found. (rest : Of) → or_else rest found ≡ resolve.in_order cache.now owed.now call.now fresh.now (resolve.seen idless outcome.now.touched) rest) }
{
    let touched = seen(idless, outcome.touched.as_slice());
    if let Some(id) = first_unread(cache, fresh, touched) {
        return Ok(Some(Verdict::Need(id, Hold::Read)));
    }
    reported(owed, call, touched)
}

// Whether the update makes an object, and there is no id for it.
fn lacks_id(fresh: &Option<ObjId>, update: &Option<Update>) -> bool
    ensures { result ≡ resolve.lacks_id fresh.now update.now }
{
    match update {
        Some(update) => makes(update) && fresh.is_none(),
        None => false,
    }
}

fn makes(update: &Update) -> bool
    ensures { result ≡ is_make update.now }
{
    matches!(update, Update::Make { .. })
}

// The objects touched, but for a new one without an id, which is the last.
fn seen(idless: bool, touched: &[ObjId]) -> &[ObjId]
    ensures { result.now ≡ resolve.seen idless touched.now }
{
    if !idless {
        return touched;
    }
    match touched {
        [front @ .., _] => front,
        [] => touched,
    }
}

// The first object that was read without a token.
fn first_unread(cache: &Cache, fresh: &Option<ObjId>, ids: &[ObjId]) -> Option<ObjId>
    ensures { result ≡ resolve.first_unread cache.now fresh.now ids.now }
{
    match ids {
        [] => None,
        [id, rest @ ..] => {
            if !is(*id, fresh) && !cache.holds(*id, Hold::Read) {
                Some(*id)
            } else {
                first_unread(cache, fresh, rest)
            }
        }
    }
}

fn is(id: ObjId, fresh: &Option<ObjId>) -> bool
    ensures { result ≡ is_id id fresh.now }
{
    match fresh {
        Some(fresh) => id == *fresh,
        None => false,
    }
}

// What is owed on what the call meets.
fn reported(owed: &Report, call: &Call, touched: &[ObjId]) -> Result<Option<Verdict>, NoMemory>
    ensures { IfOk result (λ lost. lost ≡ resolve.reported (due (resolve.met owed.now call.now touched.now) owed.now) (resolve.met owed.now call.now touched.now)) }
{
    if is_sync(call) {
        let objs = owed.objects()?;
        let ops = owed.due(&objs)?;
        return Ok(lost(ops, objs));
    }
    let ops = owed.due(touched)?;
    if ops.is_empty() {
        return Ok(None);
    }
    let objs = Vec::from_slice(*ops.allocator(), touched)?;
    Ok(lost(ops, objs))
}

fn is_sync(call: &Call) -> bool
    ensures { result ≡ is_sync call.now }
{
    matches!(call, Call::Sync)
}

fn lost(ops: Vec<OpNo>, objs: Vec<ObjId>) -> Option<Verdict>
    ensures { result ≡ resolve.reported ops.items objs.items }
{
    if ops.is_empty() {
        return None;
    }
    Some(Verdict::Lost(List::of(ops), List::of(objs)))
}

// What the update lacks, or the outcome.
fn lacking(
    alloc: Global,
    cache: &Cache,
    idless: bool,
    outcome: Outcome,
) -> Result<Verdict, NoMemory>
    ensures { IfOk result (λ verdict. verdict ≡ resolve.lacking cache.now idless outcome) }
{
    match lacked(alloc, cache, idless, &outcome) {
        Ok(None) => Ok(Verdict::Done(outcome)),
        Ok(Some(verdict)) => {
            drop(outcome);
            Ok(verdict)
        }
        Err(fault) => {
            drop(outcome);
            Err(fault)
        }
    }
}

// What the update lacks, if anything.
fn lacked(
    alloc: Global,
    cache: &Cache,
    idless: bool,
    outcome: &Outcome,
) -> Result<Option<Verdict>, NoMemory>
    ensures { IfOk result (λ found. or_else (Done outcome.now) found ≡ resolve.lacking cache.now idless outcome.now) }
{
    if let Some(id) = first_unwritten(alloc, cache, idless, &outcome.update)? {
        return Ok(Some(Verdict::Need(id, Hold::Write)));
    }
    if !idless {
        return Ok(None);
    }
    let touched = seen(true, outcome.touched.as_slice());
    let touched = Vec::from_slice(alloc, touched)?;
    Ok(Some(Verdict::NeedIds(List::of(touched))))
}

fn first_unwritten(
    alloc: Global,
    cache: &Cache,
    idless: bool,
    update: &Option<Update>,
) -> Result<Option<ObjId>, NoMemory>
    ensures { IfOk result (λ id. id ≡ resolve.first_unwritten cache.now idless update.now) }
{
    let Some(update) = update else {
        return Ok(None);
    };
    let mut ids = operands(alloc, update)?;
    if idless {
        ids.truncate(1);
    }
    Ok(first_unheld(cache, &ids))
}

// The first object that isn't held for writing.
fn first_unheld(cache: &Cache, ids: &[ObjId]) -> Option<ObjId>
    ensures { result ≡ first (λ id. not (holds id Hold.Write cache.now)) ids.now }
{
    match ids {
        [] => None,
        [id, rest @ ..] => {
            if !cache.holds(*id, Hold::Write) {
                Some(*id)
            } else {
                first_unheld(cache, rest)
            }
        }
    }
}
