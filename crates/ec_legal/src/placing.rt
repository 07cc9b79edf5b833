// The entries of a transcript's lines.
ghost use Rattle.std.specs.Prelude.{◌≡◌, ◌<◌, ◌≤◌, ◌+◌, ◌^◌, ◌++◌, ◌∷◌, [], ℕ, List as Listed, Some, None, true, length, take, drop, slice_get, is_some, IfOk, OnOk};
ghost use Rattle.ec_volume.specs.Update.{listed};
ghost use Rattle.ec_base.specs.Limits.{clerk_count};
ghost use Rattle.ec_history.specs.declared.shown.Shown.TheVariants.{Ended};
ghost use Rattle.ec_history.specs.Placing.{watch as watched, begun as start_behind, is_end_of, is_call_of, late, line_entries, ops_in, is_running, owner};
ghost use Rattle.ec_watch.specs.Watches.{AreWatched};
ghost use Rattle.ec_lines.specs.Index.{AreBegins, begins as begun_at, begun_in};
ghost use Rattle.ec_legal.specs.Watches.{IsHeld, call_of_start, own_call, late_calls, loss_of, answer_behind};

use ec_base::{ClerkId, Duplicate, List, NoMemory, OpNo};
use ec_history::{Entry, Shown};
use ec_watch::watching::{self, Watching};

/// Lines that are followed, and where the call of each began.
#[derive(Clone, Copy, Drop)]
pub struct Lines<'a> {
    pub shown: &'a [Shown],
    pub begins: &'a [u32],
}

// A line, those above it, and where the call that it answers began.
#[derive(Clone, Copy, Drop)]
struct Line<'a> {
    above: &'a [Shown],
    shown: &'a Shown,
    begun: u32,
}

// Where the call of the answer at this place began.
fn begins_at(lines: &Lines<'_>, at: usize, shown: &Shown) -> u32
    requires line { slice_get lines.now.shown.now at ≡ Some shown.now }
    requires begins { AreBegins [] lines.now.shown.now lines.now.begins.now }
    ensures { result ≡ begun_at (take at lines.now.shown.now) shown.now }
{
    lines.begins[at]
}

// Adds the entry of an answer of this start.
fn push_call(boot: u64, line: &Line<'_>, entries: &mut Vec<(u32, Entry)>) -> Result<(), NoMemory>
    requires few { length line.now.above.now < 2 ^ 31 }
    requires begun { line.now.begun ≡ begun_in boot line.now.above.now line.now.shown.now }
    ensures { OnOk result (entries.new.items ≡ entries.old.items ++ call_of_start boot line.now.above.now line.now.shown.now) }
{
    if let Shown::Answered(number, clerk, call, answer, op) = line.shown {
        let entry = Entry::Call {
            clerk: *clerk,
            boot,
            line: *number,
            begun: line.begun,
            call: call.duplicate()?,
            answer: answer.duplicate()?,
            op: *op,
        };
        entries.push((line.above.len() as u32 + 1, entry))?;
    }
    Ok(())
}

fn is_end_of(clerk: ClerkId, line: &Shown) -> bool
    ensures { result ≡ is_end_of clerk line.now }
{
    match line {
        Shown::Told(of, _) => *of == clerk,
        Shown::Crashed(of) => *of == clerk,
        _ => false,
    }
}

fn is_call_of(clerk: ClerkId, line: &Shown) -> bool
    ensures { result ≡ is_call_of clerk line.now }
{
    match line {
        Shown::Answered(_, of, _, _, _) => *of == clerk,
        _ => false,
    }
}

// Adds the line's operation, if it has one.
fn push_op(ops: &mut Vec<OpNo>, line: &Shown) -> Result<(), NoMemory>
    ensures { OnOk result ((boot : ℕ) (past : Listed Shown) → ops.new.items ≡ ops.old.items ++ ops_in (call_of_start boot past line.now)) }
{
    if let Shown::Answered(_, _, _, _, Some(op)) = line {
        ops.push(*op)?;
    }
    Ok(())
}

// Adds the entry of the clerk's own answer, and its operation.
fn push_own(
    clerk: ClerkId,
    boot: u64,
    line: &Line<'_>,
    entries: &mut Vec<(u32, Entry)>,
    ops: &mut Vec<OpNo>,
) -> Result<(), NoMemory>
    requires few { length line.now.above.now < 2 ^ 31 }
    requires held { IsHeld boot (watched clerk line.now.above.now) }
    requires begun { line.now.begun ≡ begun_at line.now.above.now line.now.shown.now }
    ensures entries { OnOk result (entries.new.items ≡ entries.old.items ++ own_call clerk boot line.now.above.now line.now.shown.now) }
    ensures ops { OnOk result (ops.new.items ≡ ops.old.items ++ ops_in (own_call clerk boot line.now.above.now line.now.shown.now)) }
{
    if is_call_of(clerk, line.shown) {
        push_call(boot, line, entries)?;
        push_op(ops, line.shown)?;
    }
    Ok(())
}

// Adds the clerk's answers from this line on, up to its told line, its crash or the end.
fn push_late(
    clerk: ClerkId,
    boot: u64,
    lines: &Lines<'_>,
    from: usize,
    entries: &mut Vec<(u32, Entry)>,
    ops: &mut Vec<OpNo>,
) -> Result<(), NoMemory>
    requires few { length lines.now.shown.now < 2 ^ 31 }
    requires begins { AreBegins [] lines.now.shown.now lines.now.begins.now }
    requires held { IsHeld boot (watched clerk (take from lines.now.shown.now)) }
    ensures entries { OnOk result (entries.new.items ≡ entries.old.items ++ late clerk (take from lines.now.shown.now) (drop from lines.now.shown.now)) }
    ensures ops { OnOk result (ops.new.items ≡ ops.old.items ++ ops_in (late clerk (take from lines.now.shown.now) (drop from lines.now.shown.now))) }
{
    for at in from..lines.shown.len() {
        let shown = &lines.shown[at];
        if is_end_of(clerk, shown) {
            return Ok(());
        }
        let begun = begins_at(lines, at, shown);
        let above = &lines.shown[..at];
        let line = Line {
            above,
            shown,
            begun,
        };
        push_own(clerk, boot, &line, entries, ops)?;
    }
    Ok(())
}

// Adds the late answers behind the line at this place, if it ends the session of the running start.
fn push_late_calls(
    clerk: ClerkId,
    watch: &Watching,
    lines: &Lines<'_>,
    at: usize,
    entries: &mut Vec<(u32, Entry)>,
    ops: &mut Vec<OpNo>,
) -> Result<(), NoMemory>
    requires few { length lines.now.shown.now < 2 ^ 31 }
    requires begins { AreBegins [] lines.now.shown.now lines.now.begins.now }
    requires within { at < length lines.now.shown.now }
    requires held { is_running watch.now (owner watch.now) ≡ true → IsHeld watch.now.starts (watched clerk (take (at + 1) lines.now.shown.now)) }
    ensures entries { OnOk result (entries.new.items ≡ entries.old.items ++ late_calls clerk watch.now lines.now.shown.now at) }
    ensures ops { OnOk result (ops.new.items ≡ ops.old.items ++ ops_in (late_calls clerk watch.now lines.now.shown.now at)) }
{
    if watching::ends_running(watch) {
        let boot = watching::starts(watch);
        push_late(clerk, boot, lines, at + 1, entries, ops)?;
    }
    Ok(())
}

// Adds the loss of an ended line, and the late answers before it.
fn push_loss(
    clerk: ClerkId,
    watch: &Watching,
    lost: &List<OpNo>,
    lines: &Lines<'_>,
    at: usize,
    entries: &mut Vec<(u32, Entry)>,
) -> Result<(), NoMemory>
    requires few { length lines.now.shown.now < 2 ^ 31 }
    requires begins { AreBegins [] lines.now.shown.now lines.now.begins.now }
    requires within { at < length lines.now.shown.now }
    requires held { is_running watch.now (owner watch.now) ≡ true → IsHeld watch.now.starts (watched clerk (take (at + 1) lines.now.shown.now)) }
    ensures { OnOk result (entries.new.items ≡ entries.old.items ++ loss_of clerk watch.now lost.now lines.now.shown.now at) }
{
    let mut ops = lost.duplicate()?.into_vec();
    push_late_calls(clerk, watch, lines, at, entries, &mut ops)?;
    let entry = Entry::Loss {
        clerk,
        boot: watching::owner(watch).unwrap_or(0),
        ops: List::of(ops),
    };
    entries.push((at as u32 + 1, entry))?;
    Ok(())
}

// Adds the entry of an answer, unless it stands with a loss above it.
fn push_answer(
    watch: &Watching,
    line: &Line<'_>,
    entries: &mut Vec<(u32, Entry)>,
) -> Result<(), NoMemory>
    requires few { length line.now.above.now < 2 ^ 31 }
    requires starts { watch.now.starts < 2 ^ 32 }
    requires begun { line.now.begun ≡ begun_in (start_behind watch.now).starts line.now.above.now line.now.shown.now }
    ensures { OnOk result (entries.new.items ≡ entries.old.items ++ answer_behind watch.now line.now.above.now line.now.shown.now) }
{
    if watching::untold(watch).is_none() {
        push_call(watching::start(watch), line, entries)?;
    }
    Ok(())
}

/// Adds the entries that the line at this place gives.
pub fn push(
    watches: &[Watching],
    lines: &Lines<'_>,
    at: usize,
    shown: &Shown,
    entries: &mut Vec<(u32, Entry)>,
) -> Result<(), NoMemory>
    requires few { length lines.now.shown.now < 2 ^ 31 }
    requires line { slice_get lines.now.shown.now at ≡ Some shown.now }
    requires begins { AreBegins [] lines.now.shown.now lines.now.begins.now }
    requires watched { AreWatched watches.now (take at lines.now.shown.now) }
    ensures below { (c : ℕ) (ns : Listed ℕ) → shown.now ≡ Ended c ns → c < clerk_count }
    ensures entries { OnOk result (entries.new.items ≡ entries.old.items ++ line_entries (take at lines.now.shown.now) shown.now (drop (at + 1) lines.now.shown.now)) }
{
    match shown {
        Shown::Answered(_, clerk, _, _, _) => {
            let watch = watching::watch_of(watches, *clerk);
            let begun = begins_at(lines, at, shown);
            let above = &lines.shown[..at];
            let line = Line {
                above,
                shown,
                begun,
            };
            push_answer(watch, &line, entries)
        }
        Shown::Ended(clerk, lost) => {
            let watch = watching::watch_of(watches, *clerk);
            push_loss(*clerk, watch, lost, lines, at, entries)
        }
        _ => Ok(()),
    }
}
