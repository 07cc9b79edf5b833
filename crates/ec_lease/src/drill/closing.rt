// The end of a run: a stopped server is restarted, and the last line is written.
ghost use Rattle.std.specs.Prelude.{◌≡◌, ◌≤◌, map, MatchResult, OnOk};
ghost use Rattle.std.specs.Io.KnownBytes.{Appends};
ghost use Rattle.ec_words.specs.OfText.Lines.{shown_text};
ghost use Rattle.ec_protocol.specs.Drill.{last_line};
ghost use Rattle.ec_lease_machine.specs.declared.world.LeaseShown.TheVariants as show;
ghost use Rattle.ec_lease.specs.Worlds.{leased, IsInStep};
ghost use Rattle.ec_lease.specs.OfDrill.Steps.{AreLater, own_ending};
ghost use Rattle.ec_lease.specs.OfDrill.Writing.{CutText, CutLines};
ghost use Rattle.ec_lease.specs.OfDrill.Closing.{LeaseClosed, EndCut, LastTold, Restarted, is_spent, restart_end};

use crate::drill::running::Ending;
use crate::drill::status::Status;
use crate::drill::writing::{Cut, write_line, write_lines};
use crate::world::LeaseWorld;
use ec_base::Sink;
use ec_disk::CrashDisk;
use ec_history::{LimitName, Shown};
use ec_lease_machine::{LeaseEvent, LeaseFault, LeaseShown};
use ec_protocol::{Event, WorldFault};
use std::alloc::Global;

/// Disarms the disk and restarts a stopped server, so that what was in doubt is shown, but not where a counter is spent. Then the last line
/// is written, which says why the run ended early.
pub(crate) fn close<D: CrashDisk, K: Sink>(
    alloc: Global,
    world: &mut LeaseWorld,
    disk: &mut D,
    sink: &mut K,
    ending: Ending,
) -> Result<Status, Cut>
    requires in_step { IsInStep D.tells (D.view disk.old) world.old }
    ensures closed { MatchResult result
        (λ status. LeaseClosed (leased world.old) (leased world.new) (own_ending ending) status (K.held sink.old) (K.held sink.new))
        (λ cut. EndCut (leased world.old) (own_ending ending) cut (K.held sink.old) (K.held sink.new) (K.faults sink.old) (K.faults sink.new) (D.counts disk.old).faults (D.counts disk.new).faults) }
    ensures in_step { OnOk result (IsInStep D.tells (D.view disk.new) world.new) }
    ensures counts { AreLater (D.counts disk.old) (D.counts disk.new) ⊥ }
    ensures later { K.faults sink.old ≤ K.faults sink.new }
{
    match restart_at_end(alloc, world, disk, sink, ending) {
        Ok(ending) => tell_last(alloc, sink, ending),
        Err(cut) => Err(cut),
    }
}

// Restarts a server that is stopped at the end of a run. The ending is another one where this spends a counter.
fn restart_at_end<D: CrashDisk, K: Sink>(
    alloc: Global,
    world: &mut LeaseWorld,
    disk: &mut D,
    sink: &mut K,
    ending: Ending,
) -> Result<Ending, Cut>
    requires { IsInStep D.tells (D.view disk.old) world.old }
    ensures closed { MatchResult result
        (λ end. Restarted (leased world.old) (leased world.new) (own_ending ending) (own_ending end) (K.held sink.old) (K.held sink.new))
        (λ cut. EndCut (leased world.old) (own_ending ending) cut (K.held sink.old) (K.held sink.new) (K.faults sink.old) (K.faults sink.new) (D.counts disk.old).faults (D.counts disk.new).faults) }
    ensures in_step { OnOk result (IsInStep D.tells (D.view disk.new) world.new) }
    ensures counts { AreLater (D.counts disk.old) (D.counts disk.new) ⊥ }
    ensures later { K.faults sink.old ≤ K.faults sink.new }
{
    if is_spent(ending) {
        return Ok(ending);
    }
    disk.disarm();
    if !world.server_is_stopped() {
        return Ok(ending);
    }
    let lines = match world.step(alloc, disk, LeaseEvent::World(Event::Restart)) {
        Ok(lines) => lines,
        Err(fault) => return restart_end(fault),
    };
    if let Err(cut) = write_lines(alloc, sink, &lines) {
        return Err(cut);
    }
    Ok(ending)
}

// How a run ends whose last restart isn't carried out.
fn restart_end(fault: LeaseFault) -> Result<Ending, Cut>
    ensures { result ≡ restart_end fault }
{
    match fault {
        LeaseFault::World(WorldFault::Spent(counter)) => Ok(Ending::Spent(counter)),
        LeaseFault::World(WorldFault::DiskFailed) => Err(Cut::Disk),
        LeaseFault::World(WorldFault::BadDisk(_)) => Err(Cut::NoMemory),
        LeaseFault::World(WorldFault::NoSuchOp) => Err(Cut::NoMemory),
        LeaseFault::World(WorldFault::NoSuchMsg) => Err(Cut::NoMemory),
        LeaseFault::World(WorldFault::NoMemory) => Err(Cut::NoMemory),
        LeaseFault::NoSuchLease => Err(Cut::NoMemory),
        LeaseFault::NoMemory => Err(Cut::NoMemory),
    }
}

fn is_spent(ending: Ending) -> bool
    ensures { result ≡ is_spent (own_ending ending) }
{
    match ending {
        Ending::Spent(_) => true,
        Ending::Done | Ending::BadLine(_, _) | Ending::TooMany(_) => false,
    }
}

// Writes the last line, if the run ended early.
fn tell_last<K: Sink>(alloc: Global, sink: &mut K, ending: Ending) -> Result<Status, Cut>
    ensures told { MatchResult result
        (λ status. LastTold (own_ending ending) status (K.held sink.old) (K.held sink.new))
        (λ cut. CutLines cut (map show.Line (last_line (own_ending ending))) (K.held sink.old) (K.held sink.new) (K.faults sink.old) (K.faults sink.new)) }
    ensures later { K.faults sink.old ≤ K.faults sink.new }
{
    match ending {
        Ending::Done => Ok(Status::Done),
        Ending::BadLine(number, column) => {
            tell(alloc, sink, Shown::Bad(number, column), Status::BadLine)
        }
        Ending::TooMany(pending) => {
            tell(
                alloc,
                sink,
                Shown::Limit(LimitName::Pending, pending),
                Status::Limit,
            )
        }
        Ending::Spent(counter) => tell(alloc, sink, Shown::Spent(counter), Status::Spent),
    }
}

/// Writes this line, behind which the run ends with this status.
pub(crate) fn tell<K: Sink>(
    alloc: Global,
    sink: &mut K,
    line: Shown,
    status: Status,
) -> Result<Status, Cut>
    ensures told { MatchResult result
        (λ st. (st ≡ status) × Appends (K.held sink.old) (K.held sink.new) (shown_text line))
        (λ cut. CutText cut (shown_text line) (K.held sink.old) (K.held sink.new) (K.faults sink.old) (K.faults sink.new)) }
    ensures later { K.faults sink.old ≤ K.faults sink.new }
{
    let line = LeaseShown::Line(line);
    let written = write_line(alloc, sink, &line);
    drop(line);
    match written {
        Ok(()) => Ok(status),
        Err(cut) => Err(cut),
    }
}
