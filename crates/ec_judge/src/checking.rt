// Whether entries make a legal history.
ghost use Rattle.std.specs.Prelude.{◌≡◌, ◌<◌, ◌^◌, ℕ, IfOk, OnOk, IfErr};
ghost use Rattle.ec_history.specs.OfLaws.Bases.{AreAtLines};
ghost use Rattle.ec_history.specs.History.{Each, updates, kept, owed};
ghost use Rattle.ec_history.specs.Legal.{IsLegal, from_formatted};
ghost use Rattle.ec_judge.specs.Carried.{Carries, ops_of};
ghost use Rattle.ec_judge.specs.Fault.{IsEntryFault};

use crate::carried::{Judge, Kept};
use crate::fault::HistoryFault;
use crate::judging::{Judging, judge_all};
use ec_base::trace::Trace;
use ec_base::{ClerkId, Duplicate, NoMemory, ObjId, OpNo};
use ec_history::Entry;
use ec_volume::Update;
use std::alloc::Global;

/// Whether the entries, each with the place of its transcript line, make a legal history of a
/// transcript that began on a formatted volume with at most so many objects. `At` shows the line of
/// the first entry that breaks a rule, and the first rule that it breaks.
pub fn check(alloc: Global, entries: &[(u32, Entry)], most: u32) -> Result<(), HistoryFault>
    requires lines { AreAtLines entries.now }
    requires few { Each (λ e. e.0 < 2 ^ 31) entries.now }
    ensures legal { OnOk result (IsLegal from_formatted most entries.now) }
    ensures fault { IfErr result (λ fault. IsEntryFault most entries.now fault) }
{
    let mut judging = Judging::new(alloc)?;
    judging.judge_on(most, entries)
}

/// The updates that a legal history keeps, in the order of issue.
pub fn kept(alloc: Global, entries: &[(u32, Entry)]) -> Result<Vec<Update>, NoMemory>
    requires lines { AreAtLines entries.now }
    requires few { Each (λ e. e.0 < 2 ^ 31) entries.now }
    requires legal { (most : ℕ) × IsLegal from_formatted most entries.now }
    ensures { IfOk result (λ list. list.items ≡ updates (kept from_formatted entries.now)) }
{
    let judge = carried(alloc, entries)?;
    updates_of(alloc, &judge.kept)
}

/// What a start owes after a legal history: pairs of a lost operation and one of its operands.
pub fn owed(
    alloc: Global,
    entries: &[(u32, Entry)],
    clerk: ClerkId,
    boot: u64,
) -> Result<Vec<(OpNo, ObjId)>, NoMemory>
    requires lines { AreAtLines entries.now }
    requires few { Each (λ e. e.0 < 2 ^ 31) entries.now }
    requires legal { (most : ℕ) × IsLegal from_formatted most entries.now }
    ensures { IfOk result (λ pairs. pairs.items ≡ owed from_formatted entries.now clerk boot) }
{
    let judge = carried(alloc, entries)?;
    judge.starts.owed(clerk, boot)
}

// What a legal history comes to.
fn carried(alloc: Global, entries: &[(u32, Entry)]) -> Result<Judge, NoMemory>
    requires lines { AreAtLines entries.now }
    requires few { Each (λ e. e.0 < 2 ^ 31) entries.now }
    requires legal { (most : ℕ) × IsLegal from_formatted most entries.now }
    ensures { IfOk result (λ judge. Carries from_formatted entries.now judge) }
{
    let mut judge = Judge::new(alloc)?;
    match judge_all(&mut judge, &mut 0, &mut Trace::new(), 0, entries) {
        Ok(()) => Ok(judge),
        Err(HistoryFault::NoMemory) => Err(NoMemory),
        Err(HistoryFault::At(_, _)) => unreachable!(),
    }
}

fn updates_of(alloc: Global, kept: &[Kept]) -> Result<Vec<Update>, NoMemory>
    ensures { IfOk result (λ list. list.items ≡ updates (ops_of kept.now)) }
{
    let mut list = Vec::new(alloc);
    for kept in kept {
        list.push(kept.update.duplicate()?)?;
    }
    Ok(list)
}
