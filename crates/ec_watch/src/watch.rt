// What the lines of a transcript show of one clerk, line by line.
ghost use Rattle.std.specs.Prelude.{◌≡◌, ◌<◌, ◌≤◌, ◌+◌, ◌^◌, ◌++◌, [], true, false, not, filter, IfOk, OnOk, T};
ghost use Rattle.std.specs.List.{list_all};
ghost use Rattle.ec_volume.specs.Update.{member, listed};
ghost use Rattle.ec_watch.specs.Watches.{shown_watch as shown, crashed};
ghost use Rattle.ec_history.specs.Placing.{shows, unwatched, begun, answered, owner, is_running, to_lose, ended, watch_next, may_show, same_numbers};

use ec_base::{ClerkId, Duplicate, List, NoMemory, OpNo};
use ec_history::{Answer, Shown, Watch};
use ec_order::numbers::Numbers;
use ec_plain::{Call, Refusal, Reply};
use std::alloc::Global;
use std::mem;

/// Whether the answer shows that its start has a session.
pub fn shows(call: &Call, answer: &Answer) -> bool
    ensures { result ≡ shows call.now answer.now }
{
    !matches!(call, Call::Sync) && !matches!(answer, Answer::Reply(Reply::Refused(Refusal::Root)))
}

/// What no line shows.
pub fn unwatched(alloc: Global) -> Watch
    ensures { result ≡ unwatched }
{
    Watch {
        starts: 0,
        running: false,
        open_start: None,
        undurable: List::of(Vec::new(alloc)),
        early: List::of(Vec::new(alloc)),
        untold: None,
        crashed: false,
    }
}

/// The number of the start to which a call line of the clerk belongs.
pub fn start(watch: &Watch) -> u64
    requires { watch.now.starts + 1 < 2 ^ 64 }
    ensures { result ≡ (begun watch.now).starts }
{
    if watch.running {
        watch.starts
    } else {
        watch.starts + 1
    }
}

fn begin(watch: &mut Watch)
    requires { watch.old.starts + 1 < 2 ^ 64 }
    ensures { watch.new ≡ begun watch.old }
{
    if !watch.running {
        watch.starts += 1;
        watch.running = true;
    }
}

// Adds the operation, if there is one.
fn add(alloc: Global, ops: &mut List<OpNo>, op: Option<OpNo>) -> Result<(), NoMemory>
    ensures { OnOk result (ops.new ≡ ops.old ++ listed op) }
{
    if let Some(op) = op {
        let mut longer = take(alloc, ops).into_vec();
        longer.push(op)?;
        *ops = List::of(longer);
    }
    Ok(())
}

// The operations, of which none is left.
fn take(alloc: Global, ops: &mut List<OpNo>) -> List<OpNo>
    ensures value { result ≡ ops.old }
    ensures left { ops.new ≡ [] }
{
    mem::replace(ops, List::of(Vec::new(alloc)))
}

fn answer(alloc: Global, watch: &mut Watch, shown: bool, op: Option<OpNo>) -> Result<(), NoMemory>
    ensures { OnOk result (watch.new ≡ answered watch.old shown op) }
{
    if let Some(ops) = &mut watch.untold {
        return add(alloc, ops, op);
    }
    if shown {
        show(alloc, watch)?;
        return add(alloc, &mut watch.undurable, op);
    }
    if watch.open_start == Some(watch.starts) {
        add(alloc, &mut watch.undurable, op)
    } else {
        add(alloc, &mut watch.early, op)
    }
}

// The running start has a session, to which its early operations belong.
fn show(alloc: Global, watch: &mut Watch) -> Result<(), NoMemory>
    ensures { OnOk result (watch.new ≡ shown watch.old) }
{
    if watch.open_start.is_none() {
        watch.open_start = Some(watch.starts);
    }
    if !watch.early.as_slice().is_empty() {
        let mut ops = take(alloc, &mut watch.early).into_vec();
        ops.extend_from_slice(watch.undurable.as_slice())?;
        watch.undurable = List::of(ops);
    }
    Ok(())
}

/// The start to which an ended line belongs now.
pub fn owner(watch: &Watch) -> Option<u64>
    ensures { result ≡ owner watch.now }
{
    if watch.open_start.is_some() {
        return watch.open_start;
    }
    if watch.running && watch.untold.is_none() {
        Some(watch.starts)
    } else {
        None
    }
}

/// Whether an ended line belongs now to the running start.
pub fn ends_running(watch: &Watch) -> bool
    ensures { result ≡ is_running watch.now (owner watch.now) }
{
    watch.running && owner(watch) == Some(watch.starts)
}

/// The operations that an ended line loses now.
pub fn to_lose(watch: &Watch) -> &[OpNo]
    ensures { result.now ≡ to_lose watch.now }
{
    if watch.open_start.is_some() {
        watch.undurable.as_slice()
    } else {
        watch.early.as_slice()
    }
}

fn end(alloc: Global, watch: &mut Watch, lost: &List<OpNo>) -> Result<(), NoMemory>
    ensures { OnOk result (watch.new ≡ ended watch.old lost.now) }
{
    if ends_running(watch) {
        watch.untold = Some(lost.duplicate()?);
        watch.early = List::of(Vec::new(alloc));
    }
    watch.open_start = None;
    watch.undurable = List::of(Vec::new(alloc));
    Ok(())
}

// Takes the operations that became durable out.
fn make_durable(alloc: Global, ops: &mut List<OpNo>, durable: &[OpNo]) -> Result<(), NoMemory>
    ensures { OnOk result (ops.new ≡ filter (λ n. not (member n durable.now)) ops.old) }
{
    let known = Numbers::of(alloc, Vec::from_slice(alloc, durable)?)?;
    let mut left = take(alloc, ops).into_vec();
    left.retain(|op| !known.has(*op));
    *ops = List::of(left);
    Ok(())
}

fn crash(alloc: Global, watch: &mut Watch)
    ensures { watch.new ≡ crashed watch.old }
{
    watch.running = false;
    watch.early = List::of(Vec::new(alloc));
    watch.untold = None;
    watch.crashed = true;
}

/// One more line. It changes the watch only where it's a line of the watched clerk.
pub fn follow(
    alloc: Global,
    clerk: ClerkId,
    watch: &mut Watch,
    line: &Shown,
) -> Result<(), NoMemory>
    requires { watch.old.starts + 1 < 2 ^ 64 }
    ensures { OnOk result (watch.new ≡ watch_next clerk watch.old line.now) }
{
    match line {
        Shown::Waits(_, of, _) if *of == clerk => begin(watch),
        Shown::Answered(_, of, call, given, op) if *of == clerk => {
            begin(watch);
            answer(alloc, watch, shows(call, given), *op)?;
        }
        Shown::Durable(of, ops) if *of == clerk => {
            make_durable(alloc, &mut watch.undurable, ops.as_slice())?;
        }
        Shown::Ended(of, lost) if *of == clerk => end(alloc, watch, lost)?,
        Shown::Told(of, _) if *of == clerk => watch.untold = None,
        Shown::Crashed(of) if *of == clerk => crash(alloc, watch),
        _ => {}
    }
    Ok(())
}

/// Whether an answer may show a session of the running start.
pub fn may_show(watch: &Watch) -> bool
    requires { watch.now.starts + 1 < 2 ^ 64 }
    ensures { result ≡ may_show (begun watch.now) }
{
    watch.untold.is_some() || watch.open_start.is_none() || watch.open_start == Some(start(watch))
}

/// Whether each operation of each list is in the other.
pub fn same_numbers(alloc: Global, ops: &[OpNo], others: &[OpNo]) -> Result<bool, NoMemory>
    ensures { IfOk result (λ same. same ≡ same_numbers ops.now others.now) }
{
    Ok(are_among(alloc, ops, others)? && are_among(alloc, others, ops)?)
}

/// Whether each of the operations is among the others. Where they come in the order of the others, as
/// most do, one walk tells it.
pub fn are_among(alloc: Global, ops: &[OpNo], others: &[OpNo]) -> Result<bool, NoMemory>
    ensures { IfOk result (λ are. are ≡ list_all (λ n. member n others.now) ops.now) }
{
    if is_part(ops, others) {
        return Ok(true);
    }
    let known = Numbers::of(alloc, Vec::from_slice(alloc, others)?)?;
    Ok(are_known(&known, ops))
}

fn are_known(known: &Numbers, ops: &[OpNo]) -> bool
    ensures { result ≡ list_all (λ n. member n known.now) ops.now }
{
    ops.iter().all(|op| known.has(*op))
}

// Whether the operations come in this order among the others.
fn is_part(ops: &[OpNo], others: &[OpNo]) -> bool
    ensures { result ≡ true → list_all (λ n. member n others.now) ops.now ≡ true }
{
    let mut found = 0;
    let mut at = 0;
    'walk: while found < ops.len() && at < others.len() {
        if ops[found] == others[at] {
            found += 1;
        }
        at += 1;
    }
    found == ops.len()
}
