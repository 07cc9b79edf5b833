// Calls over several volumes, by the words of the program.
ghost use Rattle.std.specs.Prelude.{◌≤◌, map};
ghost use Rattle.std.specs.String.{string_bytes};
ghost use Rattle.ec_link.specs.Spawns.{faults_of};
ghost use Rattle.ec_mount.specs.Mount.{StartsAs};
ghost use Rattle.ec_mount_table.specs.Table.{MountsAll};
ghost use Rattle.ec_echo.specs.Mounting.{table_of};

use crate::Start;
use crate::command::mounts_of;
use ec_base::{ClerkId, Sink, Source};
use ec_link::{Around, Net, Spawner};
use ec_mount::Status;
use ec_mount_table::mount_table;
use std::io::Eprint;

/// Carries out the calls of the source over the volumes of these words, by this clerk. Words that are no mount table answer want of memory: `command_of` asks
/// for none of these.
pub(crate) fn mount_all<R: Around + Eprint, S: Source, K: Sink, N: Net>(
    start: Start<'_, R>,
    source: &mut S,
    sink: &mut K,
    net: &mut N,
    spawner: &mut Spawner,
    clerk: ClerkId,
) -> Status
    ensures later { (S.faults source.old ≤ S.faults source.new) × (K.faults sink.old ≤ K.faults sink.new) × (N.faults net.old ≤ N.faults net.new) }
    ensures starts { StartsAs result (faults_of spawner.old) (faults_of spawner.new) }
    ensures mounted { MountsAll clerk start.entry.boot (table_of (map string_bytes start.entry.words.now)) result
        (record {
          left = S.left source.old;
          left_after = S.left source.new;
          reads = S.faults source.old;
          reads_after = S.faults source.new;
          held = K.held sink.old;
          held_after = K.held sink.new;
          writes = K.faults sink.old;
          writes_after = K.faults sink.new;
          net = record { faults = N.faults net.old; bad = N.bad net.old; ended = N.ended net.old };
          net_after = record { faults = N.faults net.new; bad = N.bad net.new; ended = N.ended net.new };
        }) }
{
    let Start { rt, words, boot } = start;
    match mounts_of(words) {
        Some(table) => mount_table(rt, source, sink, net, spawner, table, clerk, boot),
        None => Status::NoMemory,
    }
}
