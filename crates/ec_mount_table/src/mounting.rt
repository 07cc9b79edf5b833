// The calls of a source over several volumes, and what is written of them.
ghost use Rattle.std.specs.Prelude.{◌≡◌, ◌≤◌, ◌++◌, ℕ, List, Err, map, IfOk};
ghost use Rattle.std.specs.String.{string_bytes};
ghost use Rattle.ec_clerknode.specs.LaneRuns.{lists_of};
ghost use Rattle.ec_link.specs.Spawns.{faults_of};
ghost use Rattle.ec_mount.specs.Mount.{StartsAs};
ghost use Rattle.ec_mount_words.specs.Mounts.{AreAll, AreMounts, mount_path};
ghost use Rattle.ec_mount_table.specs.Going.{TellsAll, WroteOr, items_of};
ghost use Rattle.ec_mount_table.specs.Table.{MountsAll};

use crate::reach::Volumes;
use crate::script::{Row, rows_of};
use crate::shown::{came_line, whole_text};
use crate::work::{Answers, work};
use ec_base::{ClerkId, NoMemory, Path, Sink, Source};
use ec_clerknode::NodeFault;
use ec_history::Shown;
use ec_link::{Around, Net, Spawner};
use ec_mount::{Status, ended_by, old_boot_line, peer_line, place_in, refuse, shown_line};
use ec_mount_words::mount_of;
use ec_streams::write_whole;
use std::alloc::Global;
use std::io::Eprint;

/// Runs the calls that the source gives by this clerk, over links to the volumes of these words, and writes the answers to
/// the sink. The source is read to its end first. `boot` is the number of this start of the clerk. Where the spawner can't start
/// a thread, nobody is called.
pub fn mount_table<S: Source, K: Sink, N: Net, R: Around + Eprint>(
    rt: &R,
    source: &mut S,
    sink: &mut K,
    net: &mut N,
    spawner: &mut Spawner,
    words: &[String],
    clerk: ClerkId,
    boot: u64,
) -> Status
    requires { AreMounts (map string_bytes words.now) }
    ensures later { (S.faults source.old ≤ S.faults source.new) × (K.faults sink.old ≤ K.faults sink.new) × (N.faults net.old ≤ N.faults net.new) }
    ensures starts { StartsAs result (faults_of spawner.old) (faults_of spawner.new) }
    ensures mounted { MountsAll clerk boot (map mount_path (map string_bytes words.now)) result
        (record {
          left = S.left source.old;
          left_after = S.left source.new;
          reads = S.faults source.old;
          reads_after = S.faults source.new;
          held = K.held sink.old;
          held_after = K.held sink.new;
          writes = K.faults sink.old;
          writes_after = K.faults sink.new;
          net = record { faults = N.faults net.old; bad = N.bad net.old; ended = N.ended net.old };
          net_after = record { faults = N.faults net.new; bad = N.bad net.new; ended = N.ended net.new };
        }) }
{
    let alloc = rt.alloc();
    let rows = match rows_of(alloc, source) {
        Ok(rows) => rows,
        Err(why) => return refuse(alloc, sink, why),
    };
    let Ok(table) = table_of(alloc, words) else {
        return Status::NoMemory;
    };
    if !spawner.can_start(rt) {
        return Status::StartFault;
    }
    let volumes = Volumes { words, clerk, boot };
    let answers = work(rt, net, &volumes, &table, &rows);
    tell(alloc, sink, &table, &rows, &answers)
}

// The mount paths of these words.
fn table_of(alloc: Global, words: &[String]) -> Result<Vec<Path>, NoMemory>
    requires { AreAll (map string_bytes words.now) }
    ensures { IfOk result (λ table. table.items ≡ map mount_path (map string_bytes words.now)) }
{
    let mut table = Vec::new(alloc);
    'words: for word in words {
        let (path, _) = mount_of(alloc, word.as_str())?;
        table.push(path)?;
    }
    Ok(table)
}

// Writes the text with which calls end that end with this status.
fn write_text<K: Sink>(sink: &mut K, text: Result<Vec<u8>, NoMemory>, status: Status) -> Status
    ensures later { K.faults sink.old ≤ K.faults sink.new }
    ensures wrote { (t : List ℕ) → IfOk text (λ made. made.items ≡ t) → WroteOr t status result (K.held sink.old) (K.held sink.new) (K.faults sink.old) (K.faults sink.new) }
{
    match text {
        Ok(text) => ended_by(status, write_whole(sink, &text)),
        Err(NoMemory) => Status::NoMemory,
    }
}

// Tells what the calls came to.
fn tell<K: Sink>(
    alloc: Global,
    sink: &mut K,
    table: &[Path],
    rows: &[Row],
    answers: &Answers,
) -> Status
    ensures later { K.faults sink.old ≤ K.faults sink.new }
    ensures told { TellsAll table.now rows.now answers.now.mets.items answers.now.replies.items (lists_of answers.now.told) (items_of answers.now.last) result
        (K.held sink.old) (K.held sink.new) (K.faults sink.old) (K.faults sink.new) }
{
    match &answers.last {
        Ok(lasts) => {
            let text = whole_text(alloc, table, rows, answers, lasts);
            write_text(sink, text, Status::Done)
        }
        Err(fault) => tell_fault(alloc, sink, table, rows, answers, *fault),
    }
}

// Tells what came before this fault, and the last line that it has.
fn tell_fault<K: Sink>(
    alloc: Global,
    sink: &mut K,
    table: &[Path],
    rows: &[Row],
    answers: &Answers,
    fault: NodeFault,
) -> Status
    ensures later { K.faults sink.old ≤ K.faults sink.new }
    ensures told { TellsAll table.now rows.now answers.now.mets.items answers.now.replies.items (lists_of answers.now.told) (Err fault) result
        (K.held sink.old) (K.held sink.new) (K.faults sink.old) (K.faults sink.new) }
{
    match fault {
        NodeFault::Net => {
            let text = came_line(alloc, table, rows, answers, Ok(Vec::new(alloc)));
            write_text(sink, text, Status::NetFault)
        }
        NodeFault::Peer(why) => {
            let line = peer_line(alloc, place_in(why));
            let text = came_line(alloc, table, rows, answers, line);
            write_text(sink, text, Status::PeerFault)
        }
        NodeFault::Long(_) => {
            let line = peer_line(alloc, 0);
            let text = came_line(alloc, table, rows, answers, line);
            write_text(sink, text, Status::PeerFault)
        }
        NodeFault::OldBoot(age) => write_text(sink, old_boot_line(alloc, age), Status::OldBoot),
        NodeFault::Spent(counter) => {
            let line = shown_line(alloc, Shown::Spent(counter));
            let text = came_line(alloc, table, rows, answers, line);
            write_text(sink, text, Status::Spent)
        }
        NodeFault::NoMemory => Status::NoMemory,
    }
}
