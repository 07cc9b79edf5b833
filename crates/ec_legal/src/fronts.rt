// What a history comes to before the first entry that breaks a rule.
ghost use Rattle.std.specs.Prelude.{◌≡◌, ℕ, IfOk};
ghost use Rattle.ec_history.specs.History.{History as Entries, updates, kept, owed};
ghost use Rattle.ec_history.specs.Legal.{IsLegal, from_formatted};
ghost use Rattle.ec_legal.specs.Bounded.{AreEntries};
ghost use Rattle.ec_legal.specs.Fronts.{IsLegalFront, before_line};

use ec_base::{ClerkId, NoMemory, ObjId, OpNo};
use ec_history::Entry;
use ec_judge::{HistoryFault, check};
use ec_volume::Update;
use std::alloc::Global;

/// The updates that the entries keep, up to the first that breaks a rule.
pub(crate) fn kept_of(alloc: Global, entries: &[(u32, Entry)]) -> Result<Vec<Update>, NoMemory>
    requires { AreEntries entries.now }
    ensures legal { (most : ℕ) → IsLegal from_formatted most entries.now → IfOk result (λ list. list.items ≡ updates (kept from_formatted entries.now)) }
    ensures front { IfOk result (λ list. (front : Entries) × IsLegalFront entries.now front × (list.items ≡ updates (kept from_formatted front))) }
{
    let front = legal_front(alloc, entries)?;
    ec_judge::kept(alloc, front)
}

/// What a start owes after the entries, up to the first that breaks a rule.
pub(crate) fn owed_of(
    alloc: Global,
    entries: &[(u32, Entry)],
    clerk: ClerkId,
    boot: u64,
) -> Result<Vec<(OpNo, ObjId)>, NoMemory>
    requires { AreEntries entries.now }
    ensures legal { (most : ℕ) → IsLegal from_formatted most entries.now → IfOk result (λ pairs. pairs.items ≡ owed from_formatted entries.now clerk boot) }
    ensures front { IfOk result (λ pairs. (front : Entries) × IsLegalFront entries.now front × (pairs.items ≡ owed from_formatted front clerk boot)) }
{
    let front = legal_front(alloc, entries)?;
    ec_judge::owed(alloc, front, clerk, boot)
}

// The entries before the first that breaks a rule, or all of them, where there may be as few objects
// as any entry says.
fn legal_front<'a>(
    alloc: Global,
    entries: &'a [(u32, Entry)],
) -> Result<&'a [(u32, Entry)], NoMemory>
    requires { AreEntries entries.now }
    ensures front { IfOk result (λ front. IsLegalFront entries.now front.now) }
    ensures legal { IfOk result (λ front. IsLegal from_formatted 0 front.now) }
    ensures entries { IfOk result (λ front. AreEntries front.now) }
{
    match check(alloc, entries, 0) {
        Ok(()) => Ok(entries),
        Err(HistoryFault::At(line, _)) => Ok(before_line(entries, line)),
        Err(HistoryFault::NoMemory) => Err(NoMemory),
    }
}

// The entries before the first one of this line.
fn before_line(entries: &[(u32, Entry)], line: u32) -> &[(u32, Entry)]
    ensures { result.now ≡ before_line line entries.now }
{
    let mut count = 0;
    'before: while count < entries.len() && entries[count].0 != line {
        count += 1;
    }
    &entries[..count]
}
