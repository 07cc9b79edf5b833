// A run over the lines of a script.
ghost use Rattle.std.specs.Prelude.{◌≡◌, ◌≤◌, ◌+◌, [], ◌∷◌, map, length, None, MatchResult, OnOk};
ghost use Rattle.ec_lease_machine.specs.Drill.{reads};
ghost use Rattle.ec_lease.specs.Worlds.{leased, IsInStep, KeepsServer};
ghost use Rattle.ec_lease.specs.OfDrill.Lines.{AreTimed, IsTimed, read_of};
ghost use Rattle.ec_lease.specs.OfDrill.Script.{machine_lease, most_lines};
ghost use Rattle.ec_lease.specs.OfDrill.Steps.{AreLater, CutOff, LeaseEnded, LineEndsBy, IsAsMachine, IsInTime, IsLost, LineCut, LineDone, PendingEnd, own_ending, fault_in};

use crate::drill::carrying::{Means, carry_out};
use crate::drill::limits::MOST_PENDING;
use crate::drill::script::ScriptLine;
use crate::drill::writing::{Cut, write_lines};
use crate::world::LeaseWorld;
use ec_base::{Counter, Sink};
use ec_disk::CrashDisk;
use ec_lease_machine::LeaseFault;
use ec_lease_machine::words::LeaseLine;
use ec_protocol::WorldFault;
use std::alloc::Global;

/// Why the lines of a run ended.
#[derive(Clone, Copy, Debug, Drop, PartialEq, Eq)]
pub(crate) enum Ending {
    /// All were carried out.
    Done,
    /// This line couldn't be, from this column on.
    BadLine(u32, u32),
    /// So many messages are pending.
    TooMany(u64),
    /// This counter would pass its limit.
    Spent(Counter),
}

/// Carries out the lines of a script in order, and writes the piece of each.
pub(crate) fn run<D: CrashDisk, K: Sink>(
    means: Means,
    world: &mut LeaseWorld,
    disk: &mut D,
    sink: &mut K,
    lines: Vec<ScriptLine>,
) -> Result<Ending, Cut>
    requires in_step { IsInStep D.tells (D.view disk.old) world.old }
    requires few { length lines.items ≤ most_lines }
    requires timed { AreTimed (leased world.old).most (map read_of lines.items) }
    requires early { (leased world.old).now ≡ 0 }
    ensures ran { MatchResult result
        (λ ending. LeaseEnded D.tells (D.counts disk.old).stops (D.counts disk.new).stops means.bound (map read_of lines.items) (leased world.old) (own_ending ending) (leased world.new) (K.held sink.old) (K.held sink.new))
        (λ cut. CutOff D.tells (D.counts disk.old) (D.counts disk.new) means.bound (map read_of lines.items) (leased world.old) cut (K.held sink.old) (K.held sink.new) (K.faults sink.old) (K.faults sink.new)) }
    ensures in_step { OnOk result (IsInStep D.tells (D.view disk.new) world.new) }
    ensures counts { AreLater (D.counts disk.old) (D.counts disk.new) ⊥ }
    ensures later { K.faults sink.old ≤ K.faults sink.new }
{
    let mut ahead = lines.into_iter();
    let mut number: u32 = 1;
    'lines: while let Some(line) = ahead.next() {
        match carry(means, world, disk, sink, number, line) {
            Ok(None) => number += 1,
            Ok(Some(ending)) => return Ok(ending),
            Err(cut) => return Err(cut),
        }
    }
    Ok(Ending::Done)
}

// Where a line stands in the script, and the column from which it couldn't be carried out.
#[derive(Clone, Copy, Drop)]
struct Place {
    number: u32,
    column: u32,
}

// Carries out the line of this number, if it's in the grammar, and writes its piece.
fn carry<D: CrashDisk, K: Sink>(
    means: Means,
    world: &mut LeaseWorld,
    disk: &mut D,
    sink: &mut K,
    number: u32,
    line: ScriptLine,
) -> Result<Option<Ending>, Cut>
    requires in_step { IsInStep D.tells (D.view disk.old) world.old }
    requires timed { AreTimed (leased world.old).most (read_of line ∷ []) }
    requires early { IsInTime (leased world.old).most number (leased world.old) }
    ensures carried { MatchResult result
        (λ ending. LineDone D.tells (D.counts disk.old).stops (D.counts disk.new).stops means.bound number (read_of line) (leased world.old) (leased world.new) ending (K.held sink.old) (K.held sink.new))
        (λ cut. LineCut D.tells (D.counts disk.old) (D.counts disk.new) means.bound number (read_of line) (leased world.old) cut (K.held sink.old) (K.held sink.new) (K.faults sink.old) (K.faults sink.new)) }
    ensures in_step { OnOk result (IsInStep D.tells (D.view disk.new) world.new) }
    ensures time { MatchResult result (λ ending. ending ≡ None → IsInTime (leased world.old).most (number + 1) (leased world.new)) (λ cut. Unit {0}) }
    ensures counts { AreLater (D.counts disk.old) (D.counts disk.new) ⊥ }
    ensures later { K.faults sink.old ≤ K.faults sink.new }
{
    match line {
        ScriptLine::Fits(line, column) => {
            carry_fit(means, world, disk, sink, Place { number, column }, line)
        }
        ScriptLine::Unfit(column) => Ok(Some(Ending::BadLine(number, column))),
    }
}

// Carries out a line of the grammar.
fn carry_fit<D: CrashDisk, K: Sink>(
    means: Means,
    world: &mut LeaseWorld,
    disk: &mut D,
    sink: &mut K,
    place: Place,
    line: LeaseLine,
) -> Result<Option<Ending>, Cut>
    requires in_step { IsInStep D.tells (D.view disk.old) world.old }
    requires timed { IsTimed (leased world.old).most (machine_lease line) }
    requires early { IsInTime (leased world.old).most place.number (leased world.old) }
    ensures carried { MatchResult result
        (λ ending. LineDone D.tells (D.counts disk.old).stops (D.counts disk.new).stops means.bound place.number (reads (machine_lease line) place.column) (leased world.old) (leased world.new) ending (K.held sink.old) (K.held sink.new))
        (λ cut. LineCut D.tells (D.counts disk.old) (D.counts disk.new) means.bound place.number (reads (machine_lease line) place.column) (leased world.old) cut (K.held sink.old) (K.held sink.new) (K.faults sink.old) (K.faults sink.new)) }
    ensures in_step { OnOk result (IsInStep D.tells (D.view disk.new) world.new) }
    ensures time { MatchResult result (λ ending. ending ≡ None → IsInTime (leased world.old).most (place.number + 1) (leased world.new)) (λ cut. Unit {0}) }
    ensures counts { AreLater (D.counts disk.old) (D.counts disk.new) ⊥ }
    ensures later { K.faults sink.old ≤ K.faults sink.new }
{
    let mut piece = Vec::new(means.alloc);
    let carried = carry_out(means, world, disk, place.number, line, &mut piece);
    let ending = match line_end(carried, place.number, place.column) {
        Ok(ending) => ending,
        Err(cut) => return Err(cut),
    };
    if let Err(cut) = write_lines(means.alloc, sink, &piece) {
        return Err(cut);
    }
    if ending.is_some() {
        return Ok(ending);
    }
    Ok(pending_end(world))
}

// What a line that was carried out so makes of the run.
fn line_end(
    carried: Result<(), LeaseFault>,
    number: u32,
    column: u32,
) -> Result<Option<Ending>, Cut>
    ensures { MatchResult result (λ ending. IsAsMachine carried × LineEndsBy (fault_in carried) number column ending) (IsLost carried) }
{
    match carried {
        Ok(()) => Ok(None),
        Err(LeaseFault::World(WorldFault::Spent(counter))) => Ok(Some(Ending::Spent(counter))),
        Err(LeaseFault::World(WorldFault::NoSuchOp)) => Ok(Some(Ending::BadLine(number, column))),
        Err(LeaseFault::World(WorldFault::NoSuchMsg)) => Ok(Some(Ending::BadLine(number, column))),
        Err(LeaseFault::NoSuchLease) => Ok(Some(Ending::BadLine(number, column))),
        Err(LeaseFault::World(WorldFault::DiskFailed)) => Err(Cut::Disk),
        Err(LeaseFault::World(WorldFault::BadDisk(_))) => Err(Cut::NoMemory),
        Err(LeaseFault::World(WorldFault::NoMemory)) => Err(Cut::NoMemory),
        Err(LeaseFault::NoMemory) => Err(Cut::NoMemory),
    }
}

// Too many pending messages end a run; else old ones are forgotten.
fn pending_end(world: &mut LeaseWorld) -> Option<Ending>
    ensures end { PendingEnd result (leased world.old) (leased world.new) }
    ensures same { KeepsServer world.old world.new }
{
    let pending = world.pending();
    if pending > MOST_PENDING {
        return Some(Ending::TooMany(pending));
    }
    world.forget();
    None
}
