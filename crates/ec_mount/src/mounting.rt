// A mount from a source to a sink, over a net.
ghost use Rattle.std.specs.Prelude.{◌≡◌, ◌≤◌, ◌<◌, ◌++◌, ℕ, List, length, IfOk};
ghost use Rattle.ec_link.specs.Spawns.{faults_of};
ghost use Rattle.ec_mount.specs.Mount.{Mounts, StartsAs};
ghost use Rattle.ec_mount.specs.Run.{place_in};
ghost use Rattle.ec_mount.specs.Shown.{came_text};
ghost use Rattle.ec_mount.specs.Work.{given_of};
ghost use Rattle.ec_mount.specs.Writes.{ended_by, WroteAs, RefusesRows, TellsWork};

use crate::limits::MOST_BYTES;
use crate::script::{Row, Unread, lanes_of, rows_of};
use crate::shown::{end_line, old_boot_line, peer_line, shown_line, write_came, write_line};
use crate::status::Status;
use crate::telling::{Who, tell_call, tell_end, tell_no_thread};
use crate::work::{Answers, work};
use ec_base::{ClerkId, NoMemory, Sink, Source};
use ec_clerknode::NodeFault;
use ec_history::{LimitName, Shown};
use ec_link::{Around, Net, Spawner};
use ec_streams::WriteFault;
use ec_wire::WireFault;
use std::alloc::Global;
use std::io::Eprint;

/// Runs the lane script that the source gives by this clerk, over a link to who listens at the address, and writes the answers
/// to the sink. The source is read to its end first. `boot` is the number of this start of the clerk. Where the spawner can't start a
/// thread, nobody is called. Standard error tells the address, the start, and why it ended.
pub fn mount<S: Source, K: Sink, N: Net, R: Around + Eprint>(
    rt: &R,
    source: &mut S,
    sink: &mut K,
    net: &mut N,
    spawner: &mut Spawner,
    addr: &str,
    clerk: ClerkId,
    boot: u64,
) -> Status
    ensures later { (S.faults source.old ≤ S.faults source.new) × (K.faults sink.old ≤ K.faults sink.new) × (N.faults net.old ≤ N.faults net.new) }
    ensures starts { StartsAs result (faults_of spawner.old) (faults_of spawner.new) }
    ensures mounted { Mounts clerk boot result
        (record {
          left = S.left source.old;
          left_after = S.left source.new;
          reads = S.faults source.old;
          reads_after = S.faults source.new;
          held = K.held sink.old;
          held_after = K.held sink.new;
          writes = K.faults sink.old;
          writes_after = K.faults sink.new;
          net = record { faults = N.faults net.old; bad = N.bad net.old; ended = N.ended net.old };
          net_after = record { faults = N.faults net.new; bad = N.bad net.new; ended = N.ended net.new };
        }) }
{
    let alloc = rt.alloc();
    let rows = match rows_of(alloc, source) {
        Ok(rows) => rows,
        Err(why) => return refuse(alloc, sink, why),
    };
    let Ok(lanes) = lanes_of(alloc, &rows) else {
        return Status::NoMemory;
    };
    let who = Who { clerk, addr };
    if !spawner.can_start(rt) {
        tell_no_thread(rt, &who);
        return Status::StartFault;
    }
    tell_call(rt, &who);
    let answers = work(rt, net, &who, boot, lanes);
    tell_end(rt, &who, &answers);
    tell(alloc, sink, &rows, &answers)
}

/// Ends a mount whose script gives no rows.
pub fn refuse<K: Sink>(alloc: Global, sink: &mut K, why: Unread) -> Status
    ensures later { K.faults sink.old ≤ K.faults sink.new }
    ensures refused { RefusesRows why result (K.held sink.old) (K.held sink.new) (K.faults sink.old) (K.faults sink.new) }
{
    match why {
        Unread::Bytes => {
            let line = Shown::Limit(LimitName::Bytes, MOST_BYTES as u64 + 1);
            write_last(sink, shown_line(alloc, line), Status::Limit)
        }
        Unread::Lines(count) => {
            let line = Shown::Limit(LimitName::Lines, count);
            write_last(sink, shown_line(alloc, line), Status::Limit)
        }
        Unread::Bad(line, column) => {
            let line = Shown::Bad(line, column);
            write_last(sink, shown_line(alloc, line), Status::BadLine)
        }
        Unread::Source => Status::SourceFault,
        Unread::NoMemory => Status::NoMemory,
    }
}

// Tells what a mount came to.
fn tell<K: Sink>(alloc: Global, sink: &mut K, rows: &[Row], answers: &Answers) -> Status
    ensures later { K.faults sink.old ≤ K.faults sink.new }
    ensures told { TellsWork rows.now (given_of answers.now) result (K.held sink.old) (K.held sink.new) (K.faults sink.old) (K.faults sink.new) }
{
    match &answers.last {
        Ok(last) => {
            let line = end_line(alloc, last);
            write_behind(alloc, sink, rows, answers, line, Status::Done)
        }
        Err(NodeFault::Net) => {
            let written = write_came(alloc, sink, rows, answers);
            ended_by(Status::NetFault, written)
        }
        Err(NodeFault::Peer(why)) => {
            let line = peer_line(alloc, place_in(*why));
            write_behind(alloc, sink, rows, answers, line, Status::PeerFault)
        }
        Err(NodeFault::Long(_)) => {
            let line = peer_line(alloc, 0);
            write_behind(alloc, sink, rows, answers, line, Status::PeerFault)
        }
        Err(NodeFault::OldBoot(age)) => {
            write_last(sink, old_boot_line(alloc, *age), Status::OldBoot)
        }
        Err(NodeFault::Spent(counter)) => {
            let line = shown_line(alloc, Shown::Spent(*counter));
            write_behind(alloc, sink, rows, answers, line, Status::Spent)
        }
        Err(NodeFault::NoMemory) => Status::NoMemory,
    }
}

// Writes what came, and the last line of a mount that ends with this status behind it.
fn write_behind<K: Sink>(
    alloc: Global,
    sink: &mut K,
    rows: &[Row],
    answers: &Answers,
    line: Result<Vec<u8>, NoMemory>,
    status: Status,
) -> Status
    ensures later { K.faults sink.old ≤ K.faults sink.new }
    ensures written { (text : List ℕ) → 0 < length text → IfOk line (λ made. made.items ≡ text)
        → WroteAs (came_text rows.now (given_of answers.now).0 (given_of answers.now).1 ++ text) status result (K.held sink.old) (K.held sink.new) (K.faults sink.old) (K.faults sink.new) }
{
    if let Err(fault) = write_came(alloc, sink, rows, answers) {
        return ended_by(status, Err(fault));
    }
    write_last(sink, line, status)
}

// Writes the last line of a mount that ends with this status.
fn write_last<K: Sink>(sink: &mut K, line: Result<Vec<u8>, NoMemory>, status: Status) -> Status
    ensures later { K.faults sink.old ≤ K.faults sink.new }
    ensures written { (text : List ℕ) → 0 < length text → IfOk line (λ made. made.items ≡ text) → WroteAs text status result (K.held sink.old) (K.held sink.new) (K.faults sink.old) (K.faults sink.new) }
{
    ended_by(status, write_line(sink, line))
}

/// How what was to end with this status ends, by how its text was written.
pub fn ended_by(status: Status, written: Result<(), WriteFault>) -> Status
    ensures { result ≡ ended_by status written }
{
    match written {
        Ok(()) => status,
        Err(WriteFault::Failed) => Status::SinkFault,
        Err(WriteFault::NoMemory) => Status::NoMemory,
    }
}

/// The place that the last line shows.
pub fn place_in(fault: WireFault) -> u64
    ensures { result ≡ place_in fault }
{
    match fault {
        WireFault::Short(place) => place as u64,
        WireFault::Field(place) => place as u64,
        WireFault::Trailing(place) => place as u64,
        WireFault::Kind(_) | WireFault::NoMemory => 0,
    }
}
