// The end of a run: a stopped server is restarted, and the last line is written.
ghost use Rattle.std.specs.Prelude.{◌≡◌, ◌≤◌, [], List, None, MatchResult, OnOk};
ghost use Rattle.std.specs.Io.KnownBytes.{Appends};
ghost use Rattle.ec_history.specs.declared.shown.Shown.{Shown};
ghost use Rattle.ec_words.specs.OfText.Lines.{shown_text};
ghost use Rattle.ec_protocol.specs.Drill.{last_line};
ghost use Rattle.ec_world.specs.Worlds.{view_of, IsInStep};
ghost use Rattle.ec_drill.specs.ExitCodes.{code};
ghost use Rattle.ec_drill.specs.Steps.{IsLater, CutText, CutLines, ending_of};
ghost use Rattle.ec_drill.specs.Closing.{Closed, ClosedInPart, Restarted, RestartedInPart, LastTold, is_spent, restart_end};

use crate::running::Ending;
use crate::status::Status;
use crate::writing::{Cut, write_line, write_lines};
use ec_base::Sink;
use ec_disk::CrashDisk;
use ec_history::{LimitName, Shown};
use ec_protocol::{Event, WorldFault};
use ec_world::World;
use std::alloc::Global;

/// Disarms the disk and restarts a stopped server, so that what was in doubt is shown, but not where a counter is spent. Then the last line
/// is written, which says why the run ended early.
pub(crate) fn close<D: CrashDisk, K: Sink>(
    alloc: Global,
    world: &mut World,
    disk: &mut D,
    sink: &mut K,
    ending: Ending,
) -> Result<Status, Cut>
    requires { IsInStep D.tells (D.view disk.old) world.old }
    ensures closed { MatchResult result
        (λ status. Closed (view_of world.old) (view_of world.new) (ending_of ending) status (K.held sink.old) (K.held sink.new))
        (λ cut. ClosedInPart D.tells (D.view disk.new) (view_of world.old) (ending_of ending) cut (K.held sink.old) (K.held sink.new) (K.faults sink.old) (K.faults sink.new) (D.counts disk.old).faults (D.counts disk.new).faults) }
    ensures in_step { OnOk result (IsInStep D.tells (D.view disk.new) world.new) }
    ensures counts { IsLater (D.counts disk.old) (D.counts disk.new) ⊥ }
    ensures later { K.faults sink.old ≤ K.faults sink.new }
{
    match restart_at_end(alloc, world, disk, sink, ending) {
        Ok(ending) => tell_last(alloc, sink, ending),
        Err(cut) => Err(cut),
    }
}

// Restarts a server that is stopped at the end of a run. The ending is another one where this spends a counter.
fn restart_at_end<D: CrashDisk, K: Sink>(
    alloc: Global,
    world: &mut World,
    disk: &mut D,
    sink: &mut K,
    ending: Ending,
) -> Result<Ending, Cut>
    requires { IsInStep D.tells (D.view disk.old) world.old }
    ensures closed { MatchResult result
        (λ end. Restarted (view_of world.old) (view_of world.new) (ending_of ending) (ending_of end) (K.held sink.old) (K.held sink.new))
        (λ cut. RestartedInPart D.tells (D.view disk.new) (view_of world.old) (ending_of ending) cut (K.held sink.old) (K.held sink.new) (K.faults sink.old) (K.faults sink.new) (D.counts disk.old).faults (D.counts disk.new).faults) }
    ensures in_step { OnOk result (IsInStep D.tells (D.view disk.new) world.new) }
    ensures counts { IsLater (D.counts disk.old) (D.counts disk.new) ⊥ }
    ensures later { K.faults sink.old ≤ K.faults sink.new }
{
    if is_spent(ending) {
        return Ok(ending);
    }
    disk.disarm();
    if !world.server_is_stopped() {
        return Ok(ending);
    }
    let lines = match world.step(alloc, disk, Event::Restart) {
        Ok(lines) => lines,
        Err(fault) => return restart_end(fault),
    };
    if let Err(cut) = write_lines(alloc, sink, &lines) {
        return Err(cut);
    }
    Ok(ending)
}

// How a run ends whose last restart isn't carried out.
fn restart_end(fault: WorldFault) -> Result<Ending, Cut>
    ensures { result ≡ restart_end fault }
{
    match fault {
        WorldFault::Spent(counter) => Ok(Ending::Spent(counter)),
        WorldFault::DiskFailed => Err(Cut::Disk),
        WorldFault::BadDisk(_) => Err(Cut::NoMemory),
        WorldFault::NoSuchOp => Err(Cut::NoMemory),
        WorldFault::NoSuchMsg => Err(Cut::NoMemory),
        WorldFault::NoMemory => Err(Cut::NoMemory),
    }
}

fn is_spent(ending: Ending) -> bool
    ensures { result ≡ is_spent (ending_of ending) }
{
    match ending {
        Ending::Spent(_) => true,
        Ending::Done | Ending::BadLine(_, _) | Ending::TooMany(_) => false,
    }
}

// Writes the last line, if the run ended early.
fn tell_last<K: Sink>(alloc: Global, sink: &mut K, ending: Ending) -> Result<Status, Cut>
    ensures told { MatchResult result
        (λ status. LastTold (ending_of ending) status (K.held sink.old) (K.held sink.new))
        (λ cut. CutLines cut (last_line (ending_of ending)) (K.held sink.old) (K.held sink.new) (K.faults sink.old) (K.faults sink.new)) }
    ensures later { K.faults sink.old ≤ K.faults sink.new }
{
    match ending {
        Ending::Done => Ok(Status::Done),
        Ending::BadLine(number, column) => {
            tell(alloc, sink, Shown::Bad(number, column), Status::BadLine)
        }
        Ending::TooMany(pending) => {
            tell(
                alloc,
                sink,
                Shown::Limit(LimitName::Pending, pending),
                Status::Limit,
            )
        }
        Ending::Spent(counter) => tell(alloc, sink, Shown::Spent(counter), Status::Spent),
    }
}

// Writes this line, behind which the run ends with this status.
fn tell<K: Sink>(alloc: Global, sink: &mut K, line: Shown, status: Status) -> Result<Status, Cut>
    ensures told { MatchResult result
        (λ st. (st ≡ status) × Appends (K.held sink.old) (K.held sink.new) (shown_text line))
        (λ cut. CutText cut (shown_text line) (K.held sink.old) (K.held sink.new) (K.faults sink.old) (K.faults sink.new)) }
    ensures later { K.faults sink.old ≤ K.faults sink.new }
{
    let written = write_line(alloc, sink, &line);
    drop(line);
    match written {
        Ok(()) => Ok(status),
        Err(cut) => Err(cut),
    }
}
