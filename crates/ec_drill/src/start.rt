// A drill from a source to a sink, over a disk.
ghost use Rattle.std.specs.Prelude.{◌≡◌, ◌≤◌, ◌<◌, ◌^◌, Bool, None, map, length, MatchResult, IfOk, IfErr, OnOk};
ghost use Rattle.std.specs.Io.KnownBytes.{Appends};
ghost use Rattle.ec_durable.specs.WellFormed.{least_max_objects, most_max_objects};
ghost use Rattle.ec_words.specs.OfText.Lines.{shown_text};
ghost use Rattle.ec_world.specs.Worlds.{view_of, IsInStep};
ghost use Rattle.ec_drill.specs.Arms.{any_arm};
ghost use Rattle.ec_drill.specs.ArmedSteps.{IsCalm, heard};
ghost use Rattle.ec_drill.specs.Drill.{IsGiven, Drilled};
ghost use Rattle.ec_drill.specs.Lines.{read_of};
ghost use Rattle.ec_drill.specs.Limits.{most_lines};
ghost use Rattle.ec_drill.specs.Starts.{Withholds, RefusedWith, TellsUnopened, DrilledOn, DrillsOver, status_of};
ghost use Rattle.ec_protocol.specs.Drill.{bound as bound_over};
ghost use Rattle.ec_drill.specs.Steps.{IsLater};

use crate::carrying::Means;
use crate::closing::close;
use crate::limits::{MOST_BYTES, MOST_LINES};
use crate::running::run;
use crate::script::{ScriptLine, bound_of, read_script};
use crate::status::Status;
use crate::writing::{Cut, write_line};
use ec_base::{Sink, Source};
use ec_disk::CrashDisk;
use ec_history::{LimitName, Shown};
use ec_protocol::WorldFault;
use ec_script::count_lines;
use ec_streams::{ReadFault, read_whole};
use ec_world::World;
use std::alloc::Global;

/// Runs the script that the source gives over the disk, and writes its transcript to the sink. The source is read to its end first, and then
/// the disk is opened, which isn't armed. An empty disk is formatted for 32 to 1,024 objects.
pub fn drill<S: Source, K: Sink, D: CrashDisk>(
    alloc: Global,
    source: &mut S,
    sink: &mut K,
    disk: &mut D,
    max_objects: u32,
) -> Status
    requires least { least_max_objects ≤ max_objects }
    requires limit { max_objects ≤ most_max_objects }
    requires not_armed { (D.counts disk.old).armed ≡ None }
    ensures later { (S.faults source.old ≤ S.faults source.new) × (K.faults sink.old ≤ K.faults sink.new) }
    ensures counts { ((D.counts disk.old).faults ≤ (D.counts disk.new).faults) × ((D.counts disk.old).stops ≤ (D.counts disk.new).stops) }
    ensures drilled { Drilled max_objects result
        (record {
          source = record { bytes = S.left source.old; bytes_after = S.left source.new; faults = S.faults source.old; faults_after = S.faults source.new };
          sink = record { bytes = K.held sink.old; bytes_after = K.held sink.new; faults = K.faults sink.old; faults_after = K.faults sink.new };
          store = record { tells = D.tells; disk = D.view disk.old; disk_after = D.view disk.new; counts = D.counts disk.old; counts_after = D.counts disk.new };
        }) }
{
    match script_of(alloc, source) {
        Ok(lines) => drill_lines(alloc, lines, sink, disk, max_objects),
        Err(Withheld::Bytes) => {
            refuse(
                alloc,
                sink,
                Shown::Limit(LimitName::Bytes, MOST_BYTES as u64 + 1),
                Status::Limit,
            )
        }
        Err(Withheld::Lines(count)) => {
            refuse(
                alloc,
                sink,
                Shown::Limit(LimitName::Lines, count),
                Status::Limit,
            )
        }
        Err(Withheld::Source) => Status::SourceFault,
        Err(Withheld::NoMemory) => Status::NoMemory,
    }
}

// Why there is no script to run.
#[derive(Clone, Copy, Debug, Drop, PartialEq, Eq)]
enum Withheld {
    /// The source has too many bytes.
    Bytes,
    /// It has so many lines.
    Lines(u64),
    /// The source failed.
    Source,
    NoMemory,
}

// The lines of the script that the source gives, read to its end.
fn script_of<S: Source>(alloc: Global, source: &mut S) -> Result<Vec<ScriptLine>, Withheld>
    ensures given { MatchResult result
        (λ lines. IsGiven (record { bytes = S.left source.old; bytes_after = S.left source.new; faults = S.faults source.old; faults_after = S.faults source.new }) (map read_of lines.items))
        (λ why. Withholds (S.left source.old) (S.left source.new) (S.faults source.old) (S.faults source.new) why) }
    ensures later { S.faults source.old ≤ S.faults source.new }
{
    let script = match read_whole(alloc, source, MOST_BYTES) {
        Ok(script) => script,
        Err(ReadFault::TooMany) => return Err(Withheld::Bytes),
        Err(ReadFault::Failed) => return Err(Withheld::Source),
        Err(ReadFault::NoMemory) => return Err(Withheld::NoMemory),
    };
    let count = count_lines(&script);
    if count > MOST_LINES {
        return Err(Withheld::Lines(count as u64));
    }
    match read_script(alloc, &script) {
        Ok(lines) => Ok(lines),
        Err(_) => Err(Withheld::NoMemory),
    }
}

// Opens the disk and runs these lines.
fn drill_lines<K: Sink, D: CrashDisk>(
    alloc: Global,
    lines: Vec<ScriptLine>,
    sink: &mut K,
    disk: &mut D,
    max_objects: u32,
) -> Status
    requires least { least_max_objects ≤ max_objects }
    requires limit { max_objects ≤ most_max_objects }
    requires not_armed { (D.counts disk.old).armed ≡ None }
    requires few { length lines.items ≤ most_lines }
    ensures later { K.faults sink.old ≤ K.faults sink.new }
    ensures counts { IsLater (D.counts disk.old) (D.counts disk.new) ⊥ }
    ensures drilled { DrillsOver max_objects (map read_of lines.items) result
        (record {
          source = record { bytes = None; bytes_after = None; faults = 0; faults_after = 0 };
          sink = record { bytes = K.held sink.old; bytes_after = K.held sink.new; faults = K.faults sink.old; faults_after = K.faults sink.new };
          store = record { tells = D.tells; disk = D.view disk.old; disk_after = D.view disk.new; counts = D.counts disk.old; counts_after = D.counts disk.new };
        }) }
{
    let Ok(bound) = bound_of(alloc, &lines) else {
        return Status::NoMemory;
    };
    let mut world = match World::open(alloc, disk, max_objects) {
        Ok(world) => world,
        Err(fault) => return tell_unopened(alloc, sink, fault),
    };
    let status = drill_on(alloc, &mut world, lines, bound, sink, disk);
    drop(world);
    status
}

// Tells why the disk wasn't opened.
fn tell_unopened<K: Sink>(alloc: Global, sink: &mut K, fault: WorldFault) -> Status
    ensures later { K.faults sink.old ≤ K.faults sink.new }
    ensures told { TellsUnopened fault result (K.held sink.old) (K.held sink.new) (K.faults sink.old) (K.faults sink.new) }
{
    match fault {
        WorldFault::BadDisk(place) => refuse(alloc, sink, Shown::DiskBad(place), Status::BadDisk),
        WorldFault::Spent(counter) => refuse(alloc, sink, Shown::Spent(counter), Status::Spent),
        WorldFault::DiskFailed => Status::DiskFault,
        WorldFault::NoSuchOp => Status::NoMemory,
        WorldFault::NoSuchMsg => Status::NoMemory,
        WorldFault::NoMemory => Status::NoMemory,
    }
}

// Runs these lines on a world that was opened.
fn drill_on<K: Sink, D: CrashDisk>(
    alloc: Global,
    world: &mut World,
    lines: Vec<ScriptLine>,
    bound: u64,
    sink: &mut K,
    disk: &mut D,
) -> Status
    requires in_step { IsInStep D.tells (D.view disk.old) world.old }
    requires few { length lines.items ≤ most_lines }
    requires bound { bound ≡ bound_over (map read_of lines.items) }
    ensures later { K.faults sink.old ≤ K.faults sink.new }
    ensures counts { IsLater (D.counts disk.old) (D.counts disk.new) ⊥ }
    ensures drilled { (may_stop : Bool) → IsCalm may_stop (any_arm (map read_of lines.items)) (D.counts disk.old)
        → DrilledOn result D.tells (heard may_stop (D.counts disk.old)) (heard may_stop (D.counts disk.new)) (D.view disk.new) (map read_of lines.items) (view_of world.old) (K.held sink.old) (K.held sink.new) (K.faults sink.old) (K.faults sink.new) }
{
    let ending = match run(Means { alloc, bound }, world, disk, sink, lines) {
        Ok(ending) => ending,
        Err(cut) => return status_of(cut),
    };
    match close(alloc, world, disk, sink, ending) {
        Ok(status) => status,
        Err(cut) => status_of(cut),
    }
}

fn status_of(cut: Cut) -> Status
    ensures { result ≡ status_of cut }
{
    match cut {
        Cut::Disk => Status::DiskFault,
        Cut::Sink => Status::SinkFault,
        Cut::NoMemory => Status::NoMemory,
    }
}

// Writes the one line of a drill that carried out nothing, and answers this status.
fn refuse<K: Sink>(alloc: Global, sink: &mut K, line: Shown, status: Status) -> Status
    ensures later { K.faults sink.old ≤ K.faults sink.new }
    ensures told { RefusedWith line status result (K.held sink.old) (K.held sink.new) (K.faults sink.old) (K.faults sink.new) }
{
    let written = write_line(alloc, sink, &line);
    drop(line);
    match written {
        Ok(()) => status,
        Err(cut) => status_of(cut),
    }
}
