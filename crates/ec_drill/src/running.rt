// A run over the lines of a script.
ghost use Rattle.std.specs.Prelude.{◌≡◌, ◌≤◌, ℕ, Bool, false, [], map, length, IsSome, MatchResult, OnOk};
ghost use Rattle.ec_protocol.specs.Drill.{reads};
ghost use Rattle.ec_world.specs.Worlds.{view_of, IsInStep, KeepsServer};
ghost use Rattle.ec_drill.specs.Arms.{any_arm, is_arm, is_arm_read};
ghost use Rattle.ec_drill.specs.ArmedSteps.{IsCalm, heard};
ghost use Rattle.ec_drill.specs.Limits.{most_lines};
ghost use Rattle.ec_drill.specs.Lines.{read_of};
ghost use Rattle.ec_drill.specs.Steps.{Ended, CutOff, LineDone, LineCut, IsLater, PendingEnd, ending_of, line_end};
ghost use Rattle.ec_drill.specs.Script.{machine_line};

use crate::carrying::{Means, carry_out};
use crate::limits::MOST_PENDING;
use crate::script::ScriptLine;
use crate::writing::{Cut, write_lines};
use ec_base::{Counter, Sink};
use ec_disk::CrashDisk;
use ec_protocol::WorldFault;
use ec_script::Line;
use ec_world::World;
use std::alloc::Global;

/// Why the lines of a run ended.
#[derive(Clone, Copy, Debug, Drop, PartialEq, Eq)]
pub(crate) enum Ending {
    /// All were carried out.
    Done,
    /// This line couldn't be, from this column on.
    BadLine(u32, u32),
    /// So many messages are pending.
    TooMany(u64),
    /// This counter would pass its limit.
    Spent(Counter),
}

/// Carries out the lines of a script in order, and writes the piece of each.
pub(crate) fn run<D: CrashDisk, K: Sink>(
    means: Means,
    world: &mut World,
    disk: &mut D,
    sink: &mut K,
    lines: Vec<ScriptLine>,
) -> Result<Ending, Cut>
    requires in_step { IsInStep D.tells (D.view disk.old) world.old }
    requires few { length lines.items ≤ most_lines }
    ensures ran { MatchResult result
        (λ ending. (may_stop : Bool) → IsCalm may_stop (any_arm (map read_of lines.items)) (D.counts disk.old)
        → Ended D.tells (heard may_stop (D.counts disk.old)).stops (heard may_stop (D.counts disk.new)).stops means.bound (D.counts disk.old).armed (map read_of lines.items) (view_of world.old) (ending_of ending) (view_of world.new) (K.held sink.old) (K.held sink.new))
        (λ cut. (may_stop : Bool) → IsCalm may_stop (any_arm (map read_of lines.items)) (D.counts disk.old)
        → CutOff D.tells (heard may_stop (D.counts disk.old)).stops (heard may_stop (D.counts disk.new)).stops (D.view disk.new) means.bound (map read_of lines.items) (view_of world.old) cut (K.held sink.old) (K.held sink.new) (K.faults sink.old) (K.faults sink.new) (D.counts disk.old).faults (D.counts disk.new).faults) }
    ensures in_step { OnOk result (IsInStep D.tells (D.view disk.new) world.new) }
    ensures counts { IsLater (D.counts disk.old) (D.counts disk.new) ⊥ }
    ensures later { K.faults sink.old ≤ K.faults sink.new }
{
    let mut ahead = lines.into_iter();
    let mut number: u32 = 1;
    'lines: while let Some(line) = ahead.next() {
        match carry(means, world, disk, sink, number, line) {
            Ok(None) => number += 1,
            Ok(Some(ending)) => return Ok(ending),
            Err(cut) => return Err(cut),
        }
    }
    Ok(Ending::Done)
}

// Where a line stands in the script, and the column from which it couldn't be carried out.
#[derive(Clone, Copy, Drop)]
struct Place {
    number: u32,
    column: u32,
}

// Carries out the line of this number, if it's in the grammar, and writes its piece.
fn carry<D: CrashDisk, K: Sink>(
    means: Means,
    world: &mut World,
    disk: &mut D,
    sink: &mut K,
    number: u32,
    line: ScriptLine,
) -> Result<Option<Ending>, Cut>
    requires { IsInStep D.tells (D.view disk.old) world.old }
    ensures carried { MatchResult result
        (λ ending. (may_stop : Bool) → IsCalm may_stop (is_arm_read (read_of line)) (D.counts disk.old)
        → LineDone D.tells (heard may_stop (D.counts disk.old)) (heard may_stop (D.counts disk.new)) means.bound number (read_of line) (view_of world.old) (view_of world.new) ending (K.held sink.old) (K.held sink.new))
        (λ cut. (may_stop : Bool) → IsCalm may_stop (is_arm_read (read_of line)) (D.counts disk.old)
        → LineCut D.tells (heard may_stop (D.counts disk.old)) (heard may_stop (D.counts disk.new)) (D.view disk.new) means.bound number (read_of line) (view_of world.old) cut (K.held sink.old) (K.held sink.new) (K.faults sink.old) (K.faults sink.new)) }
    ensures in_step { OnOk result (IsInStep D.tells (D.view disk.new) world.new) }
    ensures counts { IsLater (D.counts disk.old) (D.counts disk.new) ⊥ }
    ensures later { K.faults sink.old ≤ K.faults sink.new }
    ensures quiet { is_arm_read (read_of line) ≡ false → IsSome (D.counts disk.new).armed → IsSome (D.counts disk.old).armed }
{
    match line {
        ScriptLine::Fits(line, column) => {
            carry_fit(means, world, disk, sink, Place { number, column }, line)
        }
        ScriptLine::Unfit(column) => Ok(Some(Ending::BadLine(number, column))),
    }
}

// Carries out a line of the grammar.
fn carry_fit<D: CrashDisk, K: Sink>(
    means: Means,
    world: &mut World,
    disk: &mut D,
    sink: &mut K,
    place: Place,
    line: Line,
) -> Result<Option<Ending>, Cut>
    requires { IsInStep D.tells (D.view disk.old) world.old }
    ensures carried { MatchResult result
        (λ ending. (may_stop : Bool) → IsCalm may_stop (is_arm (machine_line line)) (D.counts disk.old)
        → LineDone D.tells (heard may_stop (D.counts disk.old)) (heard may_stop (D.counts disk.new)) means.bound place.number (reads (machine_line line) place.column) (view_of world.old) (view_of world.new) ending (K.held sink.old) (K.held sink.new))
        (λ cut. (may_stop : Bool) → IsCalm may_stop (is_arm (machine_line line)) (D.counts disk.old)
        → LineCut D.tells (heard may_stop (D.counts disk.old)) (heard may_stop (D.counts disk.new)) (D.view disk.new) means.bound place.number (reads (machine_line line) place.column) (view_of world.old) cut (K.held sink.old) (K.held sink.new) (K.faults sink.old) (K.faults sink.new)) }
    ensures in_step { OnOk result (IsInStep D.tells (D.view disk.new) world.new) }
    ensures counts { IsLater (D.counts disk.old) (D.counts disk.new) ⊥ }
    ensures later { K.faults sink.old ≤ K.faults sink.new }
    ensures quiet { is_arm (machine_line line) ≡ false → IsSome (D.counts disk.new).armed → IsSome (D.counts disk.old).armed }
{
    let mut piece = Vec::new(means.alloc);
    let carried = carry_out(means, world, disk, place.number, line, &mut piece);
    let ending = match line_end(carried, place.number, place.column) {
        Ok(ending) => ending,
        Err(cut) => return Err(cut),
    };
    if let Err(cut) = write_lines(means.alloc, sink, &piece) {
        return Err(cut);
    }
    if ending.is_some() {
        return Ok(ending);
    }
    Ok(pending_end(world))
}

// What a line that was carried out so makes of the run.
fn line_end(
    carried: Result<(), WorldFault>,
    number: u32,
    column: u32,
) -> Result<Option<Ending>, Cut>
    ensures { result ≡ line_end carried number column }
{
    match carried {
        Ok(()) => Ok(None),
        Err(WorldFault::Spent(counter)) => Ok(Some(Ending::Spent(counter))),
        Err(WorldFault::NoSuchOp) => Ok(Some(Ending::BadLine(number, column))),
        Err(WorldFault::NoSuchMsg) => Ok(Some(Ending::BadLine(number, column))),
        Err(WorldFault::DiskFailed) => Err(Cut::Disk),
        Err(WorldFault::BadDisk(_)) => Err(Cut::NoMemory),
        Err(WorldFault::NoMemory) => Err(Cut::NoMemory),
    }
}

// Too many pending messages end a run; else old ones are forgotten.
fn pending_end(world: &mut World) -> Option<Ending>
    ensures end { PendingEnd result (view_of world.old) (view_of world.new) }
    ensures same { KeepsServer world.old world.new }
{
    let pending = world.pending();
    if pending > MOST_PENDING {
        return Some(Ending::TooMany(pending));
    }
    world.forget();
    None
}
