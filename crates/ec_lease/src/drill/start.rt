// A drill with leases from a source to a sink, over a disk.
ghost use Rattle.std.specs.Prelude.{◌≡◌, ◌≤◌, ◌<◌, ℕ, None, map, length as long, MatchResult};
ghost use Rattle.ec_protocol.specs.declared.world.World.{World as State};
ghost use Rattle.ec_lease_machine.specs.Drill.{bound as bound_over};
ghost use Rattle.ec_lease_machine.specs.Leases.{opened_leases};
ghost use Rattle.ec_lease.specs.Worlds.{leased, IsInStep};
ghost use Rattle.ec_lease.specs.OfDrill.Drill.{LeaseDrilled};
ghost use Rattle.ec_lease.specs.OfDrill.Lines.{AreTimed, read_of};
ghost use Rattle.ec_lease.specs.OfDrill.Script.{most_lines};
ghost use Rattle.ec_lease.specs.OfDrill.Starts.{GivesScript, Withholds, RefusedWith, TellsUnopened, EndedOn, DrillsOver, status_of};
ghost use Rattle.ec_lease.specs.OfDrill.Steps.{AreLater};

use crate::drill::carrying::Means;
use crate::drill::closing::{close, tell};
use crate::drill::limits::{MOST_BYTES, MOST_LINES};
use crate::drill::running::run;
use crate::drill::script::{ScriptLine, bound_of, read_script};
use crate::drill::status::Status;
use crate::drill::writing::Cut;
use crate::world::LeaseWorld;
use ec_base::{Sink, Source};
use ec_disk::CrashDisk;
use ec_history::{LimitName, Shown};
use ec_protocol::WorldFault;
use ec_script::count_lines;
use ec_streams::{ReadFault, read_whole};
use std::alloc::Global;

/// Runs the script with leases that the source gives over the disk, and writes its transcript to the sink. Leases run for `length`, and
/// clocks differ by at most `most`. The source is read to its end first, and then the disk is opened, which isn't armed. An empty disk is
/// formatted for 1,024 objects.
pub fn lease_drill<S: Source, K: Sink, D: CrashDisk>(
    alloc: Global,
    source: &mut S,
    sink: &mut K,
    disk: &mut D,
    length: u64,
    most: u64,
) -> Status
    requires length { length ≤ 1000000 }
    requires most { most < length }
    requires not_armed { (D.counts disk.old).armed ≡ None }
    ensures later { (S.faults source.old ≤ S.faults source.new) × (K.faults sink.old ≤ K.faults sink.new) }
    ensures counts { ((D.counts disk.old).faults ≤ (D.counts disk.new).faults) × ((D.counts disk.old).stops ≤ (D.counts disk.new).stops) }
    ensures drilled { LeaseDrilled length most result
        (record {
          left = S.left source.old;
          left_after = S.left source.new;
          reads = S.faults source.old;
          reads_after = S.faults source.new;
          held = K.held sink.old;
          held_after = K.held sink.new;
          writes = K.faults sink.old;
          writes_after = K.faults sink.new;
          tells = D.tells;
          disk = D.view disk.old;
          disk_after = D.view disk.new;
          counts = D.counts disk.old;
          counts_after = D.counts disk.new;
        }) }
{
    match script_of(alloc, source, most) {
        Ok(lines) => drill_lines(alloc, lines, sink, disk, length, most),
        Err(Withheld::Bytes) => {
            refuse(
                alloc,
                sink,
                Shown::Limit(LimitName::Bytes, MOST_BYTES as u64 + 1),
                Status::Limit,
            )
        }
        Err(Withheld::Lines(count)) => {
            refuse(
                alloc,
                sink,
                Shown::Limit(LimitName::Lines, count),
                Status::Limit,
            )
        }
        Err(Withheld::Source) => Status::SourceFault,
        Err(Withheld::NoMemory) => Status::NoMemory,
    }
}

// Why there is no script to run.
#[derive(Clone, Copy, Debug, Drop, PartialEq, Eq)]
enum Withheld {
    /// The source has too many bytes.
    Bytes,
    /// It has so many lines.
    Lines(u64),
    /// The source failed.
    Source,
    NoMemory,
}

// The lines of the script that the source gives, read to its end.
fn script_of<S: Source>(
    alloc: Global,
    source: &mut S,
    most: u64,
) -> Result<Vec<ScriptLine>, Withheld>
    requires { most ≤ 1000000 }
    ensures given { MatchResult result
        (λ lines. GivesScript most (S.left source.old) (S.left source.new) (map read_of lines.items))
        (λ why. Withholds (S.left source.old) (S.left source.new) (S.faults source.old) (S.faults source.new) why) }
    ensures later { S.faults source.old ≤ S.faults source.new }
{
    let script = match read_whole(alloc, source, MOST_BYTES) {
        Ok(script) => script,
        Err(ReadFault::TooMany) => return Err(Withheld::Bytes),
        Err(ReadFault::Failed) => return Err(Withheld::Source),
        Err(ReadFault::NoMemory) => return Err(Withheld::NoMemory),
    };
    let count = count_lines(&script);
    if count > MOST_LINES {
        return Err(Withheld::Lines(count as u64));
    }
    match read_script(alloc, most, &script) {
        Ok(lines) => Ok(lines),
        Err(_) => Err(Withheld::NoMemory),
    }
}

// Opens the disk and runs these lines.
fn drill_lines<K: Sink, D: CrashDisk>(
    alloc: Global,
    lines: Vec<ScriptLine>,
    sink: &mut K,
    disk: &mut D,
    length: u64,
    most: u64,
) -> Status
    requires length { length ≤ 1000000 }
    requires most { most < length }
    requires not_armed { (D.counts disk.old).armed ≡ None }
    requires few { long lines.items ≤ most_lines }
    requires timed { AreTimed most (map read_of lines.items) }
    ensures later { K.faults sink.old ≤ K.faults sink.new }
    ensures counts { AreLater (D.counts disk.old) (D.counts disk.new) ⊥ }
    ensures drilled { DrillsOver length most (map read_of lines.items) result
        (record {
          left = None;
          left_after = None;
          reads = 0;
          reads_after = 0;
          held = K.held sink.old;
          held_after = K.held sink.new;
          writes = K.faults sink.old;
          writes_after = K.faults sink.new;
          tells = D.tells;
          disk = D.view disk.old;
          disk_after = D.view disk.new;
          counts = D.counts disk.old;
          counts_after = D.counts disk.new;
        }) }
{
    let Ok(bound) = bound_of(alloc, &lines) else {
        return Status::NoMemory;
    };
    let mut world = match LeaseWorld::open(alloc, disk, length, most) {
        Ok(world) => world,
        Err(fault) => return tell_unopened(alloc, sink, fault),
    };
    let status = drill_on(Means { alloc, bound }, &mut world, lines, sink, disk);
    drop(world);
    status
}

// Tells why the disk wasn't opened.
fn tell_unopened<K: Sink>(alloc: Global, sink: &mut K, fault: WorldFault) -> Status
    ensures later { K.faults sink.old ≤ K.faults sink.new }
    ensures told { TellsUnopened fault result (K.held sink.old) (K.held sink.new) (K.faults sink.old) (K.faults sink.new) }
{
    match fault {
        WorldFault::BadDisk(place) => refuse(alloc, sink, Shown::DiskBad(place), Status::BadDisk),
        WorldFault::Spent(counter) => refuse(alloc, sink, Shown::Spent(counter), Status::Spent),
        WorldFault::DiskFailed => Status::DiskFault,
        WorldFault::NoSuchOp => Status::NoMemory,
        WorldFault::NoSuchMsg => Status::NoMemory,
        WorldFault::NoMemory => Status::NoMemory,
    }
}

// Runs these lines on a world that was opened.
fn drill_on<K: Sink, D: CrashDisk>(
    means: Means,
    world: &mut LeaseWorld,
    lines: Vec<ScriptLine>,
    sink: &mut K,
    disk: &mut D,
) -> Status
    requires in_step { IsInStep D.tells (D.view disk.old) world.old }
    requires few { long lines.items ≤ most_lines }
    requires timed { AreTimed (leased world.old).most (map read_of lines.items) }
    requires early { (leased world.old).now ≡ 0 }
    requires bound { means.bound ≡ bound_over (map read_of lines.items) }
    ensures later { K.faults sink.old ≤ K.faults sink.new }
    ensures counts { AreLater (D.counts disk.old) (D.counts disk.new) ⊥ }
    ensures drilled { (l e : ℕ) (w : State) → leased world.old ≡ opened_leases l e w
        → EndedOn l e result D.tells (D.counts disk.old) (D.counts disk.new) (D.view disk.new) (map read_of lines.items) w (K.held sink.old) (K.held sink.new) (K.faults sink.old) (K.faults sink.new) }
{
    let ending = match run(means, world, disk, sink, lines) {
        Ok(ending) => ending,
        Err(cut) => return status_of(cut),
    };
    match close(means.alloc, world, disk, sink, ending) {
        Ok(status) => status,
        Err(cut) => status_of(cut),
    }
}

fn status_of(cut: Cut) -> Status
    ensures { result ≡ status_of cut }
{
    match cut {
        Cut::Disk => Status::DiskFault,
        Cut::Sink => Status::SinkFault,
        Cut::NoMemory => Status::NoMemory,
    }
}

// Writes the one line of a drill that carried out nothing, and answers this status.
fn refuse<K: Sink>(alloc: Global, sink: &mut K, line: Shown, status: Status) -> Status
    ensures later { K.faults sink.old ≤ K.faults sink.new }
    ensures told { RefusedWith line status result (K.held sink.old) (K.held sink.new) (K.faults sink.old) (K.faults sink.new) }
{
    match tell(alloc, sink, line, status) {
        Ok(status) => status,
        Err(cut) => status_of(cut),
    }
}
