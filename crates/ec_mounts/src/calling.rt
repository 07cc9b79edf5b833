// Calls over the volumes of a table, whose clerks other threads may share.
ghost use Rattle.std.specs.Prelude.{◌≡◌, ◌<◌, ◌≤◌, Some, length, map, slice_index_or};
ghost use Rattle.ec_mount_words.specs.OfRoute.Calls.{paths_of};
ghost use Rattle.ec_mount_words.specs.OfRoute.Conditions.{AreOrdered};
ghost use Rattle.ec_mount_words.specs.OfRoute.Routes.{path_at};
ghost use Rattle.ec_mounts.specs.Mounts.{AreSeated, MadeAt, raised_reply, SyncedAll, Went, WentTo};
ghost use Rattle.ec_mounts.specs.Parts.{Gathers};

use crate::mounts::MountAnswer;
use crate::part::{Part, run_parts};
use ec_base::{Duplicate, OpNo, Path};
use ec_clerknode::{NodeFault, Reply, SharedClerk};
use ec_history::Answer;
use ec_link::Link;
use ec_mount_words::route::{Route, call_below, raised_answer, route_of};
use ec_plain::Call;
use std::alloc::Global;
use std::sync::Wait;
use std::thread::Threads;
use std::time::Clock;

/// Makes the call at the volume of its paths, and waits for its answer. Where it has none, nothing is begun. While it waits,
/// the other volumes take turns. Faults are those of a call at that volume's clerk, and want of memory.
pub fn call_over<L: Link + Send, R: Threads + Wait + Clock + Sync>(
    rt: &R,
    alloc: Global,
    table: &[Path],
    clerks: &[SharedClerk<L>],
    parts: &mut [Part<L>],
    call: Call,
) -> Result<(MountAnswer, Option<OpNo>), NodeFault>
    requires paths { AreOrdered (paths_of call) }
    requires many { length parts.old ≡ length table.now }
    requires seated { AreSeated (map (λ c. c.lock) clerks.now) (map (λ p. p.pass) parts.old) }
    ensures seated { AreSeated (map (λ c. c.lock) clerks.now) (map (λ p. p.pass) parts.new) }
    ensures went { Went table.now call (map (λ p. p.pass) parts.old) (map (λ p. p.pass) parts.new) result }
{
    match route_of(table, &call) {
        Route::To(place) => {
            let path = path_at(table, place);
            call_at(rt, alloc, path, clerks, parts, place, call)
        }
        Route::NoVolume(number) => Ok((MountAnswer::NoVolume(number), None)),
        Route::CrossVolume => Ok((MountAnswer::CrossVolume, None)),
    }
}

// Makes the call at the volume at this place, with the rest of its paths.
fn call_at<L: Link + Send, R: Threads + Wait + Clock + Sync>(
    rt: &R,
    alloc: Global,
    path: &Path,
    clerks: &[SharedClerk<L>],
    parts: &mut [Part<L>],
    place: usize,
    call: Call,
) -> Result<(MountAnswer, Option<OpNo>), NodeFault>
    requires place { place < length parts.old }
    requires seated { AreSeated (map (λ c. c.lock) clerks.now) (map (λ p. p.pass) parts.old) }
    ensures seated { AreSeated (map (λ c. c.lock) clerks.now) (map (λ p. p.pass) parts.new) }
    ensures went { WentTo path.now place call (map (λ p. p.pass) parts.old) (map (λ p. p.pass) parts.new) result }
{
    let names = names_of(path);
    let inner = call_below(alloc, call, names)?;
    let met = make_at(rt, clerks, parts, place, inner);
    shown(names, met)
}

/// The mount path of the volume at this place.
pub fn path_at(table: &[Path], place: usize) -> &Path
    requires { place < length table.now }
    ensures { result.now ≡ path_at table.now place }
{
    &table[place]
}

/// So many names a path has.
pub fn names_of(path: &Path) -> usize
    ensures len { result ≡ length path.now }
    ensures few { result ≤ 16 }
{
    path.names().len()
}

// What the caller sees of what a volume with a mount path of so many names was answered.
fn shown(
    names: usize,
    met: Result<Reply, NodeFault>,
) -> Result<(MountAnswer, Option<OpNo>), NodeFault>
    requires { names ≤ 16 }
    ensures { result ≡ raised_reply names met }
{
    let (answer, op) = met?;
    let answer = raised_answer(names as u8, answer);
    Ok((MountAnswer::Volume(answer), op))
}

/// Makes this call at the volume at this place, while the other volumes take turns. Faults are those of a call at that volume's
/// clerk.
pub fn make_at<L: Link + Send, R: Threads + Wait + Clock + Sync>(
    rt: &R,
    clerks: &[SharedClerk<L>],
    parts: &mut [Part<L>],
    place: usize,
    call: Call,
) -> Result<Reply, NodeFault>
    requires place { place < length parts.old }
    requires seated { AreSeated (map (λ c. c.lock) clerks.now) (map (λ p. p.pass) parts.old) }
    ensures seated { AreSeated (map (λ c. c.lock) clerks.now) (map (λ p. p.pass) parts.new) }
    ensures made { MadeAt place call (map (λ p. p.pass) parts.old) (map (λ p. p.pass) parts.new) result }
{
    ask(parts, place, call);
    run_parts(rt, clerks, parts, Some(place));
    let Some(met) = take_met(parts, place) else {
        unreachable!();
    };
    met
}

// The volume at this place is to make this call.
fn ask<L: Link>(parts: &mut [Part<L>], place: usize, call: Call)
    requires { place < length parts.old }
    ensures passes { map (λ p. p.pass) parts.new ≡ map (λ p. p.pass) parts.old }
    ensures asked { (d : _) → (slice_index_or parts.new place d).asked ≡ Some call }
{
    parts[place].asked = Some(call);
}

// What the volume at this place met.
fn take_met<L: Link>(parts: &mut [Part<L>], place: usize) -> Option<Result<Reply, NodeFault>>
    requires { place < length parts.old }
    ensures passes { map (λ p. p.pass) parts.new ≡ map (λ p. p.pass) parts.old }
    ensures met { (d : _) → result ≡ (slice_index_or parts.old place d).met }
{
    parts[place].met.take()
}

/// Syncs all volumes at the same time. The answers are in order, or the first fault is.
pub fn sync_over<L: Link + Send, R: Threads + Wait + Clock + Sync>(
    rt: &R,
    alloc: Global,
    clerks: &[SharedClerk<L>],
    parts: &mut [Part<L>],
) -> Result<Vec<Answer>, NodeFault>
    requires seated { AreSeated (map (λ c. c.lock) clerks.now) (map (λ p. p.pass) parts.old) }
    ensures seated { AreSeated (map (λ c. c.lock) clerks.now) (map (λ p. p.pass) parts.new) }
    ensures synced { SyncedAll (map (λ p. p.pass) parts.old) (map (λ p. p.pass) parts.new) result }
{
    run_parts(rt, clerks, parts, None);
    answers_of(alloc, parts)
}

// What the volumes were answered, or the first fault.
fn answers_of<L: Link>(alloc: Global, parts: &[Part<L>]) -> Result<Vec<Answer>, NodeFault>
    ensures { Gathers (map (λ p. p.met) parts.now) result }
{
    let mut answers = Vec::with_capacity(alloc, parts.len())?;
    'parts: for part in parts {
        match &part.met {
            Some(Ok((answer, _))) => answers.push(answer.duplicate()?)?,
            Some(Err(fault)) => return Err(*fault),
            None => return Err(NodeFault::NoMemory),
        }
    }
    Ok(answers)
}
