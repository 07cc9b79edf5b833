// What the lines so far show, for the lines behind them.
ghost use Rattle.std.specs.Prelude.{◌≡◌, ◌<◌, ◌+◌, ◌^◌, ◌++◌, ◌∷◌, [], ℕ, ◌==◌, if◌then◌else◌, length, slice_get, slice_set, nat_eq, Some, OnOk, IfOk};
ghost use Rattle.std.specs.HashMap.{get};
ghost use Rattle.ec_base.specs.Limits.{clerk_count};
ghost use Rattle.ec_plain.specs.declared.call.Call.{Call};
ghost use Rattle.ec_history.specs.Placing.{EachLine, Agrees, gives_entry, last_place, before_line, unwatched, watch as watched};
ghost use Rattle.ec_watch.specs.Watches.{AreWatched};
ghost use Rattle.ec_lines.specs.Faults.{HasShape};
ghost use Rattle.ec_lines.specs.Index.{IsCallIndex, CallIsKnown, IsKnownOf, AreLast, Renews, begins, known_of, start_of, last_after};
ghost use Rattle.ec_lines.specs.Seen.{Sees};

use crate::index::{self, CallLines, Calls};
use ec_base::{CLERK_COUNT, ClerkId, NoMemory};
use ec_history::Shown;
use ec_watch::watching::{self, Watching};
use std::alloc::Global;
use std::collections::HashMap;

/// What the lines so far show.
#[derive(Drop)]
pub struct Seen {
    pub watches: Vec<Watching>,
    pub calls: Calls,
    /// Of each clerk: the place, from 1, of the last line that gives an entry of the start that
    /// runs or comes next, or 0.
    pub last: Vec<u32>,
}

/// What no line shows, with room for the calls of so many lines.
pub fn nothing(alloc: Global, lines: usize) -> Result<Seen, NoMemory>
    ensures { IfOk result (λ seen. Sees seen []) }
{
    let watches = watching::none_watched(alloc)?;
    let calls = HashMap::with_capacity(alloc, lines)?;
    let last = no_entries(alloc)?;
    Ok(Seen {
        watches,
        calls,
        last,
    })
}

fn no_entries(alloc: Global) -> Result<Vec<u32>, NoMemory>
    ensures { IfOk result (λ last. AreLast last.items []) }
{
    let mut last = Vec::new(alloc);
    for _ in 0..CLERK_COUNT {
        last.push(0)?;
    }
    Ok(last)
}

/// What is known of the line's call.
pub fn known(seen: &Seen, above: &[Shown], line: &Shown) -> Option<CallLines>
    requires { Sees seen.now above.now }
    ensures value { result ≡ known_of (get nat_eq seen.now.calls) line.now }
    ensures known { IsKnownOf above.now line.now result }
{
    match line {
        Shown::Waits(number, _, _) => index::find(&seen.calls, *number),
        Shown::Answered(number, _, _, _, _) => index::find(&seen.calls, *number),
        _ => None,
    }
}

/// The place at which the answer's call began, as an entry of its start shows it.
pub fn begins(seen: &Seen, above: &[Shown], known: Option<CallLines>, line: &Shown) -> u32
    requires few { length above.now < 2 ^ 31 }
    requires sees { Sees seen.now above.now }
    requires known { IsKnownOf above.now line.now known }
    requires shape { HasShape above.now line.now }
    ensures { result ≡ begins above.now line.now }
{
    match line {
        Shown::Answered(number, clerk, _, _, _) => begun(seen, above, known, *number, *clerk),
        _ => 0,
    }
}

// The place at which the clerk's call of this number began, if its answer comes now.
fn begun(seen: &Seen, above: &[Shown], known: Option<CallLines>, number: u32, clerk: ClerkId) -> u32
    requires few { length above.now < 2 ^ 31 }
    requires sees { Sees seen.now above.now }
    requires known { CallIsKnown above.now number known }
    requires call { (call : Call) × EachLine (Agrees number clerk call) above.now }
    ensures { result ≡ last_place clerk (start_of clerk above.now) unwatched 1 0 (before_line number above.now) }
{
    let boot = start_of(&seen.watches, above, clerk);
    match known {
        Some(lines) => begun_at(lines, boot),
        None => last_of(&seen.last, clerk),
    }
}

fn begun_at(lines: CallLines, boot: u64) -> u32
    ensures { result ≡ (if boot == lines.boot then lines.begun else 0) }
{
    if boot == lines.boot { lines.begun } else { 0 }
}

// The start of the clerk that runs, or comes next.
fn start_of(watches: &[Watching], above: &[Shown], clerk: ClerkId) -> u64
    requires few { length above.now < 2 ^ 31 }
    requires watched { AreWatched watches.now above.now }
    ensures { result ≡ start_of clerk above.now }
{
    watching::start(watching::watch_of(watches, clerk))
}

fn last_of(last: &[u32], clerk: ClerkId) -> u32
    requires { length last.now ≡ clerk_count }
    ensures { slice_get last.now clerk ≡ Some result }
{
    last[clerk.get() as usize]
}

/// One more line, of the shape that it may have behind those above it.
pub fn note(
    alloc: Global,
    seen: &mut Seen,
    above: &[Shown],
    known: Option<CallLines>,
    line: &Shown,
) -> Result<(), NoMemory>
    requires few { length above.now < 2 ^ 31 }
    requires sees { Sees seen.old above.now }
    requires known { known ≡ known_of (get nat_eq seen.old.calls) line.now }
    requires shape { HasShape above.now line.now }
    ensures { OnOk result (Sees seen.new (above.now ++ line.now ∷ [])) }
{
    let before = Before {
        shown: above,
        watches: &seen.watches,
        last: &seen.last,
    };
    note_call(&mut seen.calls, &before, known, line)?;
    note_clerk(alloc, &mut seen.watches, &mut seen.last, above, line)
}

// The lines above one, and what they show of the clerks.
#[derive(Clone, Copy, Drop)]
struct Before<'a> {
    shown: &'a [Shown],
    watches: &'a [Watching],
    last: &'a [u32],
}

fn note_call(
    calls: &mut Calls,
    before: &Before<'_>,
    known: Option<CallLines>,
    line: &Shown,
) -> Result<(), NoMemory>
    requires few { length before.now.shown.now < 2 ^ 31 }
    requires watched { AreWatched before.now.watches.now before.now.shown.now }
    requires last { AreLast before.now.last.now before.now.shown.now }
    requires known { known ≡ known_of (get nat_eq calls.old) line.now }
    requires shape { HasShape before.now.shown.now line.now }
    requires index { IsCallIndex (get nat_eq calls.old) before.now.shown.now }
    ensures { OnOk result (IsCallIndex (get nat_eq calls.new) (before.now.shown.now ++ line.now ∷ [])) }
{
    match line {
        Shown::Waits(number, clerk, _) => {
            note_number(calls, before, known, *number, *clerk, false)?;
            Ok(())
        }
        Shown::Answered(number, clerk, _, _, _) => {
            note_number(calls, before, known, *number, *clerk, true)?;
            Ok(())
        }
        _ => Ok(()),
    }
}

fn note_number(
    calls: &mut Calls,
    before: &Before<'_>,
    known: Option<CallLines>,
    number: u32,
    clerk: ClerkId,
    answers: bool,
) -> Result<(), NoMemory>
    requires few { length before.now.shown.now < 2 ^ 31 }
    requires watched { AreWatched before.now.watches.now before.now.shown.now }
    requires last { AreLast before.now.last.now before.now.shown.now }
    requires known { known ≡ get nat_eq calls.old number }
    ensures { OnOk result (Renews (get nat_eq calls.old) (get nat_eq calls.new) before.now.shown.now number clerk answers) }
{
    let boot = start_of(before.watches, before.shown, clerk);
    let last = last_of(before.last, clerk);
    let lines = index::next(known, before.shown.len(), boot, last, answers);
    index::put(calls, number, lines)
}

fn note_clerk(
    alloc: Global,
    watches: &mut [Watching],
    last: &mut [u32],
    above: &[Shown],
    line: &Shown,
) -> Result<(), NoMemory>
    requires few { length above.now < 2 ^ 31 }
    requires watched { AreWatched watches.old above.now }
    requires last { AreLast last.old above.now }
    ensures watched { OnOk result (AreWatched watches.new (above.now ++ line.now ∷ [])) }
    ensures last { OnOk result (AreLast last.new (above.now ++ line.now ∷ [])) }
{
    match ec_watch::clerk_of(line) {
        Some(clerk) => {
            let before = start_of(watches, above, clerk);
            let gives = gives(watches, above, clerk, line);
            let entry = last_of(last, clerk);
            note_watches(alloc, watches, above, line)?;
            let after = start_behind(watches, above, line, clerk);
            set_last(
                last,
                clerk,
                last_after(before, after, gives, above.len(), entry),
            );
            Ok(())
        }
        None => {
            note_watches(alloc, watches, above, line)?;
            Ok(())
        }
    }
}

fn note_watches(
    alloc: Global,
    watches: &mut [Watching],
    above: &[Shown],
    line: &Shown,
) -> Result<(), NoMemory>
    requires few { length above.now < 2 ^ 31 }
    requires watched { AreWatched watches.old above.now }
    ensures { OnOk result (AreWatched watches.new (above.now ++ line.now ∷ [])) }
{
    watching::note(alloc, watches, line)?;
    Ok(())
}

// The start of the clerk that runs, or comes next, behind one more line.
fn start_behind(watches: &[Watching], above: &[Shown], line: &Shown, clerk: ClerkId) -> u64
    requires few { length above.now < 2 ^ 31 }
    requires watched { AreWatched watches.now (above.now ++ line.now ∷ []) }
    ensures { result ≡ start_of clerk (above.now ++ line.now ∷ []) }
{
    watching::start(watching::watch_of(watches, clerk))
}

// Whether the line gives an entry of the clerk's start.
fn gives(watches: &[Watching], above: &[Shown], clerk: ClerkId, line: &Shown) -> bool
    requires few { length above.now < 2 ^ 31 }
    requires watched { AreWatched watches.now above.now }
    ensures { result ≡ gives_entry clerk (start_of clerk above.now) (watched clerk above.now) line.now }
{
    let watch = watching::watch_of(watches, clerk);
    gives_entry(clerk, start_of(watches, above, clerk), watch, line)
}

fn set_last(last: &mut [u32], clerk: ClerkId, entry: u32)
    requires { length last.old ≡ clerk_count }
    ensures { last.new ≡ slice_set last.old clerk entry }
{
    last[clerk.get() as usize] = entry;
}

// The place of the start's last entry behind a line, by its starts before and after it.
fn last_after(before: u64, after: u64, gives: bool, above: usize, last: u32) -> u32
    requires { above < 2 ^ 31 }
    ensures { result ≡ last_after before after gives above last }
{
    if before == after {
        if gives { above as u32 + 1 } else { last }
    } else {
        0
    }
}

// Whether the line gives an entry of this start.
fn gives_entry(clerk: ClerkId, boot: u64, watch: &Watching, line: &Shown) -> bool
    requires { watch.now.starts + 1 < 2 ^ 64 }
    ensures { result ≡ gives_entry clerk boot watch.now line.now }
{
    match line {
        Shown::Answered(_, of, _, _, _) => *of == clerk && watching::start(watch) == boot,
        Shown::Ended(of, _) => *of == clerk && watching::owner(watch) == Some(boot),
        _ => false,
    }
}
