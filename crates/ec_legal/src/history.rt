// Histories, and the transcripts that they come from.
ghost use Rattle.std.specs.Prelude.{◌≡◌, ◌≤◌, ◌<◌, ◌^◌, ◌++◌, [], ℕ, List as Listed, T, take, length, IfOk, OnOk, IfErr};
ghost use Rattle.std.specs.List.{list_all};
ghost use Rattle.ec_history.specs.History.{History as Entries, updates, kept, owed};
ghost use Rattle.ec_history.specs.declared.shown.Shown.{Shown as Line};
ghost use Rattle.ec_history.specs.Legal.{IsLegal, from_formatted};
ghost use Rattle.ec_judge.specs.Fault.{IsEntryFault};
ghost use Rattle.ec_legal.specs.Ahead.{IsSettled, placed_from};
ghost use Rattle.ec_legal.specs.Bounded.{is_bounded_line};
ghost use Rattle.ec_legal.specs.Fronts.{IsLegalFront};
ghost use Rattle.ec_history.specs.Placing.{place, ArePlaceable};
ghost use Rattle.ec_lines.specs.Index.{AreBegins};
ghost use Rattle.ec_legal.specs.Placed.{IsPlaceFault};
ghost use Rattle.ec_watch.specs.Watches.{AreWatched};

use crate::fronts::{kept_of, owed_of};
use crate::placing::{self, Lines};
use ec_base::{ClerkId, NoMemory, ObjId, OpNo};
use ec_history::{Entry, Shown};
use ec_judge::HistoryFault;
use ec_lines::{PlaceFault, begins};
use ec_volume::Update;
use ec_watch::watching::{self, Watching};
use std::alloc::Global;
use std::marker::Model;

/// Entries, each with the place of its transcript line, from 1. Each stands at a line of its own,
/// and its call is within its bounds.
#[derive(Drop)]
pub struct History {
    entries: Vec<(u32, Entry)>,
}

impl Model for History {
    ghost use Rattle.std.specs.Prelude.{List, ℕ};
    ghost use Rattle.std.specs.Coded.{coded_list, coded_ℕ, coded×};
    ghost use Rattle.ec_history.specs.contracts.entry.Entry as entry;
    ghost use Rattle.ec_history.specs.declared.entry.Entry.{Entry};

    ghost Value = { List (ℕ × Entry) };

    ghost coded = { coded_list (coded× coded_ℕ entry.the_row.coded) };

    ghost use Rattle.ec_legal.specs.Bounded.{AreEntries};

    ghost view = { λ a. a.entries.items };

    ghost invariant = { λ a. AreEntries a.entries.items };
}

impl History {
    /// Its entries, each with the place of its transcript line.
    pub fn entries(&self) -> &[(u32, Entry)]
        ensures { result.now ≡ self.now }
    {
        &self.entries
    }

    /// Whether the history is legal, where there may be at most so many objects. `At` shows the
    /// transcript line of the first entry that breaks a rule, and the first rule that it breaks.
    pub fn check(&self, max_objects: u32) -> Result<(), HistoryFault>
        ensures legal { OnOk result (IsLegal from_formatted max_objects self.now) }
        ensures fault { IfErr result (λ fault. IsEntryFault max_objects self.now fault) }
    {
        ec_judge::check(*self.entries.allocator(), &self.entries, max_objects)
    }

    /// The updates that the history keeps, in the order of issue. Where it isn't legal, they are those
    /// that its entries keep before the first one that breaks a rule.
    pub fn kept(&self) -> Result<Vec<Update>, NoMemory>
        ensures legal { (most : ℕ) → IsLegal from_formatted most self.now → IfOk result (λ list. list.items ≡ updates (kept from_formatted self.now)) }
        ensures front { IfOk result (λ list. (front : Entries) × IsLegalFront self.now front × (list.items ≡ updates (kept from_formatted front))) }
    {
        kept_of(*self.entries.allocator(), &self.entries)
    }

    /// What a start owes after the history: pairs of a lost operation and one of its operands, in the
    /// order of issue. Where the history isn't legal, it's what the start owes before the first entry
    /// that breaks a rule.
    pub fn owed(&self, clerk: ClerkId, boot: u64) -> Result<Vec<(OpNo, ObjId)>, NoMemory>
        ensures legal { (most : ℕ) → IsLegal from_formatted most self.now → IfOk result (λ pairs. pairs.items ≡ owed from_formatted self.now clerk boot) }
        ensures front { IfOk result (λ pairs. (front : Entries) × IsLegalFront self.now front × (pairs.items ≡ owed from_formatted front clerk boot)) }
    {
        owed_of(*self.entries.allocator(), &self.entries, clerk, boot)
    }
}

/// The history of these lines: each answer is a call and each `ended` line a loss, in printed
/// order, but that late answers stand before the loss of their session. `At` shows the first line
/// that may not follow those above it, and the first rule that it breaks.
pub fn place(alloc: Global, shown: &[Shown]) -> Result<History, HistoryFault>
    requires few { length shown.now < 2 ^ 31 }
    requires bounded { T (list_all is_bounded_line shown.now) }
    ensures placed { IfOk result (λ history. history ≡ place shown.now) }
    ensures placeable { IfOk result (λ history. ArePlaceable [] shown.now) }
    ensures fault { IfErr result (λ fault. IsPlaceFault shown.now fault) }
{
    let begins = match begins(alloc, shown) {
        Ok(begins) => begins,
        Err(PlaceFault::At(line, rule)) => return Err(HistoryFault::At(line, rule)),
        Err(PlaceFault::NoMemory) => return Err(HistoryFault::NoMemory),
    };
    let mut watches = watching::none_watched(alloc)?;
    let mut entries = Vec::new(alloc);
    let lines = Lines {
        shown,
        begins: &begins,
    };
    place_all(&mut watches, &lines, &mut entries)?;
    Ok(History { entries })
}

// Adds the entries of all these lines, which are followed.
fn place_all(
    watches: &mut [Watching],
    lines: &Lines<'_>,
    entries: &mut Vec<(u32, Entry)>,
) -> Result<(), NoMemory>
    requires few { length lines.now.shown.now < 2 ^ 31 }
    requires watched { AreWatched watches.old [] }
    requires begins { AreBegins [] lines.now.shown.now lines.now.begins.now }
    ensures { OnOk result (entries.new.items ≡ entries.old.items ++ place lines.now.shown.now) }
{
    let end = lines.shown.len();
    place_lines(watches, lines, end, 0, end, entries)?;
    Ok(())
}

/// Adds the entries of the lines between these places, where so many of all are followed.
pub fn place_lines(
    watches: &mut [Watching],
    lines: &Lines<'_>,
    followed: usize,
    from: usize,
    to: usize,
    entries: &mut Vec<(u32, Entry)>,
) -> Result<(), NoMemory>
    requires few { length lines.now.shown.now < 2 ^ 31 }
    requires onward { from ≤ to }
    requires known { to ≤ followed }
    requires within { followed ≤ length lines.now.shown.now }
    requires begins { AreBegins [] (take followed lines.now.shown.now) lines.now.begins.now }
    requires watched { AreWatched watches.old (take from lines.now.shown.now) }
    ensures watched { OnOk result (AreWatched watches.new (take to lines.now.shown.now)) }
    ensures entries { OnOk result ((more : Listed Line) → IsSettled (lines.now.shown.now ++ more) followed → entries.old.items ++ placed_from (lines.now.shown.now ++ more) from ≡ entries.new.items ++ placed_from (lines.now.shown.now ++ more) to) }
{
    let alloc = *entries.allocator();
    let known = Lines {
        shown: &lines.shown[..followed],
        begins: lines.begins,
    };
    for at in from..to {
        let shown = &lines.shown[at];
        placing::push(watches, &known, at, shown, entries)?;
        watching::note(alloc, watches, shown)?;
    }
    Ok(())
}
