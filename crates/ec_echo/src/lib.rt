//! The one call of the program: what its words ask for is done over any source, sink, disk, net and spawner, and the exit status is answered.
#![tactic(auto)]

ghost use Rattle.std.specs.Prelude.{◌≡◌, ◌↔◌, ◌≤◌, None, map};
ghost use Rattle.std.specs.String.{string_bytes};
ghost use Rattle.ec_link.specs.Spawns.{faults_of};
ghost use Rattle.ec_echo.specs.Forms.{Echoes};
ghost use Rattle.ec_echo.specs.Statuses.{code};
ghost use Rattle.ec_echo.specs.Words.{Spells};
ghost use Rattle.ec_echo.specs.declared.command.Command.{Command};
ghost use Rattle.ec_echo.specs.declared.status.Status.{Status};

mod checking;
mod command;
mod making;
mod memory;
pub mod mirroring;
mod mounting;
pub mod named;
mod serving;
mod soaking;
mod status;
mod writing;

use checking::check;
use command::address_of;
pub use command::{Command, command_of};
use ec_base::{Sink, Source};
use ec_disk::CrashDisk;
use ec_drill::drill;
use ec_lease::drill::lease_drill;
use ec_link::{Around, Net, Spawner};
use ec_mount::mount;
use ec_serve::Listening;
use making::make;
use mounting::mount_all;
use serving::serve;
use soaking::soak;
pub use status::Status;
use std::io::Eprint;

/// A start of the process: its runtime, the words behind the program's name, and its number.
#[derive(Drop)]
pub struct Start<'a, R> {
    pub rt: &'a R,
    pub words: &'a [String],
    pub boot: u64,
}

/// Does all that the program does, over any source, sink and disk that isn't armed, and answers the
/// exit status.
pub fn run_words<R: Around + Eprint, S: Source, K: Sink, D: CrashDisk + Send, N: Net>(
    start: Start<'_, R>,
    source: &mut S,
    sink: &mut K,
    disk: &mut D,
    net: &mut N,
    spawner: &mut Spawner,
) -> u8
    requires { (D.counts disk.old).armed ≡ None }
    ensures usage { (result ≡ 2) ↔ ((c : Command) → Spells (map string_bytes start.entry.words.now) c → ⊥) }
    ensures later { (S.faults source.old ≤ S.faults source.new) × (K.faults sink.old ≤ K.faults sink.new) }
    ensures counts { ((D.counts disk.old).faults ≤ (D.counts disk.new).faults) × ((D.counts disk.old).stops ≤ (D.counts disk.new).stops) }
    ensures net { (N.faults net.old ≤ N.faults net.new) × (faults_of spawner.old ≤ faults_of spawner.new) }
    ensures echoes { (status : Status) × (result ≡ code status)
        × Echoes start.entry.boot (map string_bytes start.entry.words.now) status (record {
          source = record { bytes = S.left source.old; bytes_after = S.left source.new; faults = S.faults source.old; faults_after = S.faults source.new };
          sink = record { bytes = K.held sink.old; bytes_after = K.held sink.new; faults = K.faults sink.old; faults_after = K.faults sink.new };
          store = record { tells = D.tells; disk = D.view disk.old; disk_after = D.view disk.new; counts = D.counts disk.old; counts_after = D.counts disk.new };
        })
        (record {
          before = record { faults = N.faults net.old; bad = N.bad net.old; ended = N.ended net.old; starts = faults_of spawner.old };
          later = record { faults = N.faults net.new; bad = N.bad net.new; ended = N.ended net.new; starts = faults_of spawner.new };
        }) }
{
    let Start { rt, words, boot } = start;
    let Some(command) = command_of(words) else {
        return Status::Usage.code();
    };
    match command {
        Command::Drill(max_objects) => {
            Status::of_drill(drill(rt.alloc(), source, sink, disk, max_objects)).code()
        }
        Command::Check(max_objects) => check(rt, rt.alloc(), source, sink, max_objects).code(),
        Command::Make(number) => make(rt.alloc(), number, sink).code(),
        Command::Soak(number) => soak(rt.alloc(), number, sink, disk).code(),
        Command::Serve(count) => {
            let addr = address_of(words);
            serve(rt, sink, disk, net, spawner, Listening { addr, count }).code()
        }
        Command::Mount(clerk) => {
            let addr = address_of(words);
            Status::of_mount(mount(rt, source, sink, net, spawner, addr, clerk, boot)).code()
        }
        Command::Leases(length, most) => {
            Status::of_leases(lease_drill(rt.alloc(), source, sink, disk, length, most)).code()
        }
        Command::MountTable(clerk) => {
            let start = Start { rt, words, boot };
            Status::of_mount(mount_all(start, source, sink, net, spawner, clerk)).code()
        }
    }
}
