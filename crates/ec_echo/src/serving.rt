// Links are served.
ghost use Rattle.std.specs.Prelude.{◌≡◌, ◌≤◌};
ghost use Rattle.ec_link.specs.Spawns.{faults_of};
ghost use Rattle.ec_echo.specs.Serving.{Served, TellsEnding};

use crate::status::Status;
use crate::writing::{line_text, write_made};
use ec_base::Sink;
use ec_disk::CrashDisk;
use ec_history::Shown;
use ec_link::{Around, Net, Spawner};
use ec_serve::{Ending, Listening};
use std::alloc::Global;
use std::io::Eprint;

/// Serves so many links that come at the address, and tells why it ends early.
pub(crate) fn serve<K: Sink, D: CrashDisk + Send, N: Net, R: Around + Eprint>(
    rt: &R,
    sink: &mut K,
    disk: &mut D,
    net: &mut N,
    spawner: &mut Spawner,
    to: Listening<'_>,
) -> Status
    ensures later { K.faults sink.old ≤ K.faults sink.new }
    ensures counts { ((D.counts disk.old).faults ≤ (D.counts disk.new).faults) × ((D.counts disk.old).stops ≤ (D.counts disk.new).stops) }
    ensures net { (N.faults net.old ≤ N.faults net.new) × (faults_of spawner.old ≤ faults_of spawner.new) }
    ensures served { Served to.entry.count result (K.held sink.old) (K.held sink.new) (K.faults sink.old) (K.faults sink.new)
        (record {
          tells = D.tells;
          disk = D.view disk.old;
          disk_after = D.view disk.new;
          counts = D.counts disk.old;
          counts_after = D.counts disk.new;
          links = record { faults = N.faults net.old; bad = N.bad net.old; ended = N.ended net.old; starts = faults_of spawner.old };
          links_after = record { faults = N.faults net.new; bad = N.bad net.new; ended = N.ended net.new; starts = faults_of spawner.new };
        }) }
{
    let ending = ec_serve::serve(rt, disk, net, spawner, to);
    tell(rt.alloc(), sink, ending)
}

// Writes the last line of a server that ended so, where it has one.
fn tell<K: Sink>(alloc: Global, sink: &mut K, ending: Ending) -> Status
    ensures later { K.faults sink.old ≤ K.faults sink.new }
    ensures told { TellsEnding ending result (K.held sink.old) (K.held sink.new) (K.faults sink.old) (K.faults sink.new) }
{
    match ending {
        Ending::Done => Status::Done,
        Ending::DiskFailed => Status::DiskFault,
        Ending::BadDisk(place) => {
            write_made(
                sink,
                line_text(alloc, Shown::DiskBad(place)),
                Status::BadDisk,
            )
        }
        Ending::NetFailed => Status::NetFault,
        Ending::NoMemory => Status::NoMemory,
        Ending::NotStarted => Status::StartFault,
        Ending::Spent(counter) => {
            write_made(sink, line_text(alloc, Shown::Spent(counter)), Status::Spent)
        }
    }
}
