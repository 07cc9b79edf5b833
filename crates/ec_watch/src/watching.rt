//! What the lines of a transcript show of each clerk, line by line, of which operations that became durable are taken out fast.
ghost use Rattle.std.specs.Prelude.{◌≡◌, ◌<◌, ◌+◌, ◌^◌, ◌++◌, ◌∷◌, [], ℕ, true, List as Listed, length, slice_get, Some, None, Decides, MatchOption, IfOk, OnOk};
ghost use Rattle.std.specs.List.{list_all};
ghost use Rattle.ec_base.specs.Limits.{clerk_count};
ghost use Rattle.ec_volume.specs.Update.{member, listed};
ghost use Rattle.ec_watch.specs.Watches.{AreWatched, clerk_of, shown_watch as shown, crashed};
ghost use Rattle.ec_history.specs.declared.watch.Watch.{Watch};
ghost use Rattle.ec_history.specs.Placing.{unwatched, begun, answered, owner, is_running, to_lose, ended, watch_next, may_show, same_numbers};

use crate::left::Left;
use crate::watch::{same_numbers, shows};
use crate::watches::clerk_of;
use ec_base::{CLERK_COUNT, ClerkId, Duplicate, List, NoMemory, OpNo};
use ec_history::Shown;
use std::alloc::Global;
use std::marker::Model;
use std::mem;

/// What the lines so far show of one clerk: a `Watch`, of which operations that became durable are
/// taken out fast.
#[derive(Drop)]
pub struct Watching {
    starts: u64,
    running: bool,
    open_start: Option<u64>,
    undurable: Left,
    early: List<OpNo>,
    untold: Option<List<OpNo>>,
    crashed: bool,
}

impl Model for Watching {
    ghost use Rattle.ec_history.specs.contracts.watch.Watch as watch;
    ghost use Rattle.ec_history.specs.declared.watch.Watch.{Watch};

    ghost Value = { Watch };

    ghost coded = { watch.the_row.coded };

    ghost view = { λ w. record { starts = w.starts; running = w.running; open_start = w.open_start; undurable = w.undurable; early = w.early; untold = w.untold; crashed = w.crashed } };
}

/// What no line shows.
pub fn unwatched(alloc: Global) -> Watching
    ensures { result ≡ unwatched }
{
    Watching {
        starts: 0,
        running: false,
        open_start: None,
        undurable: Left::new(alloc),
        early: List::of(Vec::new(alloc)),
        untold: None,
        crashed: false,
    }
}

/// The number of the start to which a call line of the clerk belongs.
pub fn start(watch: &Watching) -> u64
    requires { watch.now.starts + 1 < 2 ^ 64 }
    ensures { result ≡ (begun watch.now).starts }
{
    if watch.running {
        watch.starts
    } else {
        watch.starts + 1
    }
}

fn begin(watch: &mut Watching)
    requires { watch.old.starts + 1 < 2 ^ 64 }
    ensures { watch.new ≡ begun watch.old }
{
    if !watch.running {
        watch.starts += 1;
        watch.running = true;
    }
}

// Adds the operation, if there is one.
fn add(alloc: Global, ops: &mut List<OpNo>, op: Option<OpNo>) -> Result<(), NoMemory>
    ensures { OnOk result (ops.new ≡ ops.old ++ listed op) }
{
    if let Some(op) = op {
        let mut longer = take(alloc, ops).into_vec();
        longer.push(op)?;
        *ops = List::of(longer);
    }
    Ok(())
}

// Adds the operation, if there is one.
fn add_left(ops: &mut Left, op: Option<OpNo>) -> Result<(), NoMemory>
    ensures { OnOk result (ops.new ≡ ops.old ++ listed op) }
{
    match op {
        Some(op) => ops.push(op),
        None => Ok(()),
    }
}

// Puts these operations before the others.
fn put_before(alloc: Global, ops: &mut Left, before: &[OpNo]) -> Result<(), NoMemory>
    ensures { OnOk result (ops.new ≡ before.now ++ ops.old) }
{
    let behind = ops.all()?;
    let mut longer = Left::new(alloc);
    longer.push_all(before)?;
    longer.push_all(&behind)?;
    *ops = longer;
    Ok(())
}

// The operations, of which none is left.
fn take(alloc: Global, ops: &mut List<OpNo>) -> List<OpNo>
    ensures value { result ≡ ops.old }
    ensures left { ops.new ≡ [] }
{
    mem::replace(ops, List::of(Vec::new(alloc)))
}

fn answer(
    alloc: Global,
    watch: &mut Watching,
    shown: bool,
    op: Option<OpNo>,
) -> Result<(), NoMemory>
    ensures { OnOk result (watch.new ≡ answered watch.old shown op) }
{
    if let Some(ops) = &mut watch.untold {
        return add(alloc, ops, op);
    }
    if shown {
        show(alloc, watch)?;
        return add_left(&mut watch.undurable, op);
    }
    if watch.open_start == Some(watch.starts) {
        add_left(&mut watch.undurable, op)
    } else {
        add(alloc, &mut watch.early, op)
    }
}

// The running start has a session, to which its early operations belong.
fn show(alloc: Global, watch: &mut Watching) -> Result<(), NoMemory>
    ensures { OnOk result (watch.new ≡ shown watch.old) }
{
    if watch.open_start.is_none() {
        watch.open_start = Some(watch.starts);
    }
    if !watch.early.as_slice().is_empty() {
        let ops = take(alloc, &mut watch.early);
        put_before(alloc, &mut watch.undurable, ops.as_slice())?;
    }
    Ok(())
}

/// The start to which an ended line belongs now.
pub fn owner(watch: &Watching) -> Option<u64>
    ensures { result ≡ owner watch.now }
{
    if watch.open_start.is_some() {
        return watch.open_start;
    }
    if watch.running && watch.untold.is_none() {
        Some(watch.starts)
    } else {
        None
    }
}

/// Whether an ended line belongs now to the running start.
pub fn ends_running(watch: &Watching) -> bool
    ensures { result ≡ is_running watch.now (owner watch.now) }
{
    watch.running && owner(watch) == Some(watch.starts)
}

/// Whether these are the operations that an ended line loses now.
pub fn loses(alloc: Global, watch: &Watching, ops: &[OpNo]) -> Result<bool, NoMemory>
    ensures { IfOk result (λ same. same ≡ same_numbers ops.now (to_lose watch.now)) }
{
    if watch.open_start.is_some() {
        let left = watch.undurable.all()?;
        return same_numbers(alloc, ops, &left);
    }
    same_numbers(alloc, ops, watch.early.as_slice())
}

/// Whether each of these operations may become durable now.
pub fn may_be_durable(watch: &Watching, ops: &[OpNo]) -> bool
    ensures { result ≡ list_all (λ n. member n watch.now.undurable) ops.now }
{
    watch.undurable.has_all(ops)
}

/// Whether nobody sees the clerk: a start of it crashed, and no session is open.
pub fn may_be_unseen(watch: &Watching) -> bool
    ensures { Decides result ((watch.now.crashed ≡ true) × (watch.now.open_start ≡ None)) }
{
    watch.crashed && watch.open_start.is_none()
}

/// What the running start lost and was not told yet.
pub fn untold(watch: &Watching) -> Option<&[OpNo]>
    ensures { MatchOption result (watch.now.untold ≡ None) (λ ops. watch.now.untold ≡ Some ops.now) }
{
    match &watch.untold {
        Some(ops) => Some(ops.as_slice()),
        None => None,
    }
}

/// How many starts began.
pub fn starts(watch: &Watching) -> u64
    ensures { result ≡ watch.now.starts }
{
    watch.starts
}

fn end(alloc: Global, watch: &mut Watching, lost: &List<OpNo>) -> Result<(), NoMemory>
    ensures { OnOk result (watch.new ≡ ended watch.old lost.now) }
{
    if ends_running(watch) {
        watch.untold = Some(lost.duplicate()?);
        watch.early = List::of(Vec::new(alloc));
    }
    watch.open_start = None;
    watch.undurable = Left::new(alloc);
    Ok(())
}

fn crash(alloc: Global, watch: &mut Watching)
    ensures { watch.new ≡ crashed watch.old }
{
    watch.running = false;
    watch.early = List::of(Vec::new(alloc));
    watch.untold = None;
    watch.crashed = true;
}

/// One more line. It changes the watch only where it's a line of the watched clerk.
pub fn follow(
    alloc: Global,
    clerk: ClerkId,
    watch: &mut Watching,
    line: &Shown,
) -> Result<(), NoMemory>
    requires { watch.old.starts + 1 < 2 ^ 64 }
    ensures { OnOk result (watch.new ≡ watch_next clerk watch.old line.now) }
{
    match line {
        Shown::Waits(_, of, _) if *of == clerk => begin(watch),
        Shown::Answered(_, of, call, given, op) if *of == clerk => {
            begin(watch);
            answer(alloc, watch, shows(call, given), *op)?;
        }
        Shown::Durable(of, ops) if *of == clerk => {
            watch.undurable.take_out(ops.as_slice());
        }
        Shown::Ended(of, lost) if *of == clerk => end(alloc, watch, lost)?,
        Shown::Told(of, _) if *of == clerk => watch.untold = None,
        Shown::Crashed(of) if *of == clerk => crash(alloc, watch),
        _ => {}
    }
    Ok(())
}

/// Whether an answer may show a session of the running start.
pub fn may_show(watch: &Watching) -> bool
    requires { watch.now.starts + 1 < 2 ^ 64 }
    ensures { result ≡ may_show (begun watch.now) }
{
    watch.untold.is_some() || watch.open_start.is_none() || watch.open_start == Some(start(watch))
}

/// The watch of the clerk.
pub fn watch_of(watches: &[Watching], clerk: ClerkId) -> &Watching
    requires { length watches.now ≡ clerk_count }
    ensures value { slice_get watches.now clerk ≡ Some result.now }
    ensures below { clerk < clerk_count }
{
    &watches[clerk.get() as usize]
}

/// The watches of the clerks before the first line.
pub fn none_watched(alloc: Global) -> Result<Vec<Watching>, NoMemory>
    ensures { IfOk result (λ watches. AreWatched watches.items []) }
{
    let mut watches = Vec::new(alloc);
    for _ in 0..CLERK_COUNT {
        watches.push(unwatched(alloc))?;
    }
    Ok(watches)
}

/// One more line.
pub fn note(alloc: Global, watches: &mut [Watching], line: &Shown) -> Result<(), NoMemory>
    requires count { length watches.old ≡ clerk_count }
    requires starts { (w : Watch) (c : ℕ) → slice_get watches.old c ≡ Some w → w.starts + 1 < 2 ^ 64 }
    ensures { OnOk result ((past : Listed Shown) → AreWatched watches.old past → AreWatched watches.new (past ++ line.now ∷ [])) }
{
    if let Some(clerk) = clerk_of(line) {
        follow(alloc, clerk, &mut watches[clerk.get() as usize], line)?;
    }
    Ok(())
}
