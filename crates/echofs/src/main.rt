//! echofs: a coherent file cache with directory write-behind. This program drills it: it runs a
//! script of calls and faults over clerks, a server and its disk, and prints what was answered and
//! what was lost. It also judges whether such a transcript is legal.
#![tactic(auto)]

ghost use Rattle.std.specs.Prelude.{◌≡◌, ◌↔◌, ◌≤◌, ◌⊎◌, None, Some, map, IfOk, IfErr};
ghost use Rattle.std.specs.Process.{exit_status};
ghost use Rattle.std.specs.String.{string_bytes};
ghost use Rattle.ec_link.specs.Spawns.{faults_of};
ghost use Rattle.ec_echo.specs.Forms.{Echoes};
ghost use Rattle.ec_echo.specs.Mirroring.{Mirrored, Promised, Refused, UsesDisk, UsesNone};
ghost use Rattle.ec_echo.specs.OfNamed.Forms.{Asks, links};
ghost use Rattle.ec_echo.specs.OfNamed.Seen.{stream, store};
ghost use Rattle.ec_echo.specs.Statuses.{code};
ghost use Rattle.ec_echo.specs.Words.{Spells};
ghost use Rattle.ec_echo.specs.declared.command.Command.{Command};
ghost use Rattle.ec_echo.specs.declared.status.Status.{Status};
ghost use Rattle.ec_echo.specs.declared.status.Status.TheVariants as status;
ghost use Rattle.echofs.specs.Arguments.{words_of};

mod boot;
mod disk;
mod streams;
mod words;

use boot::boot_of;
use disk::{Disks, open_disks, tell_no_disk};
use ec_base::{Sink, Source, StdSink, StdSource};
use ec_disk::{CrashDisk, Disk, MemDisk};
use ec_echo::mirroring::mirror_main;
use ec_echo::named::echo_main;
use ec_echo::{Command, Status, command_of};
use ec_link::{Around, Net, Spawner, TcpNet, ThreadSpawner};
use ec_mirror::Mirror;
use std::alloc::Global;
use std::env::Args;
use std::io::Eprint;
use std::process::ExitCode;
use std::{env, io};
use streams::open_streams;
use words::reason;

/// All that the process does with words and a disk: it answers the words, with these streams, and
/// says on standard error why it ends otherwise than well. What can't be said on standard error is no
/// fault.
fn process<R: Around + Eprint, S: Source, K: Sink, D: CrashDisk + Send, N: Net>(
    rt: &R,
    words: &[String],
    source: &mut S,
    sink: &mut K,
    disk: &mut D,
    net: &mut N,
    spawner: &mut Spawner,
    boot: u64,
) -> ExitCode
    requires { (D.counts disk.old).armed ≡ None }
    ensures usage { (exit_status result ≡ 2) ↔ ((c : Command) → Spells (map string_bytes words.now) c → ⊥) }
    ensures later { (S.faults source.old ≤ S.faults source.new) × (K.faults sink.old ≤ K.faults sink.new) }
    ensures counts { ((D.counts disk.old).faults ≤ (D.counts disk.new).faults) × ((D.counts disk.old).stops ≤ (D.counts disk.new).stops) }
    ensures net { (N.faults net.old ≤ N.faults net.new) × (faults_of spawner.old ≤ faults_of spawner.new) }
    ensures echoes { (status : Status) × (exit_status result ≡ code status)
        × Echoes boot (map string_bytes words.now) status (record {
          source = record { bytes = S.left source.old; bytes_after = S.left source.new; faults = S.faults source.old; faults_after = S.faults source.new };
          sink = record { bytes = K.held sink.old; bytes_after = K.held sink.new; faults = K.faults sink.old; faults_after = K.faults sink.new };
          store = record { tells = D.tells; disk = D.view disk.old; disk_after = D.view disk.new; counts = D.counts disk.old; counts_after = D.counts disk.new };
        })
        (record {
          before = record { faults = N.faults net.old; bad = N.bad net.old; ended = N.ended net.old; starts = faults_of spawner.old };
          later = record { faults = N.faults net.new; bad = N.bad net.new; ended = N.ended net.new; starts = faults_of spawner.new };
        }) }
{
    end(
        rt,
        echo_main(rt, words, source, sink, disk, net, spawner, boot),
    )
}

/// The same over two disks, which hold the same content.
fn process_mirrored<
    R: Around + Eprint,
    S: Source,
    K: Sink,
    A: CrashDisk + Send,
    B: CrashDisk + Send,
    N: Net,
>(
    rt: &R,
    words: &[String],
    source: &mut S,
    sink: &mut K,
    first: &mut A,
    second: &mut B,
    net: &mut N,
    spawner: &mut Spawner,
    boot: u64,
) -> ExitCode
    requires first { (A.counts first.old).armed ≡ None }
    requires second { (B.counts second.old).armed ≡ None }
    ensures usage { Asks (map string_bytes words.now) (exit_status result) }
    ensures later { (S.faults source.old ≤ S.faults source.new) × (K.faults sink.old ≤ K.faults sink.new) }
    ensures net { (N.faults net.old ≤ N.faults net.new) × (faults_of spawner.old ≤ faults_of spawner.new) }
    ensures diskless { UsesNone (map string_bytes words.now) → Promised boot (map string_bytes words.now) (exit_status result) (stream S.left S.faults source.old source.new) (stream K.held K.faults sink.old sink.new) (store A.tells A.view A.counts first.old first.new) (links N.faults N.bad N.ended faults_of net.old net.new spawner.old spawner.new) }
    ensures second_rests { UsesNone (map string_bytes words.now) → second.new ≡ second.old }
    ensures mirrored { UsesDisk (map string_bytes words.now) → Refused (record { tells = A.tells; view = A.view; counts = A.counts }) (record { tells = B.tells; view = B.view; counts = B.counts }) (exit_status result) (stream S.left S.faults source.old source.new) (stream K.held K.faults sink.old sink.new) (links N.faults N.bad N.ended faults_of net.old net.new spawner.old spawner.new) first.old first.new second.old second.new
        ⊎ Mirrored (record { tells = A.tells; view = A.view; counts = A.counts }) (record { tells = B.tells; view = B.view; counts = B.counts }) (record { tells = ⟦<Mirror<'static, A, B> as Disk>⟧.tells; view = ⟦<Mirror<'static, A, B> as Disk>⟧.view; counts = ⟦<Mirror<'static, A, B> as Disk>⟧.counts }) boot (map string_bytes words.now) (exit_status result) (stream S.left S.faults source.old source.new) (stream K.held K.faults sink.old sink.new) (links N.faults N.bad N.ended faults_of net.old net.new spawner.old spawner.new) first.old first.new second.old second.new }
{
    end(
        rt,
        mirror_main(rt, words, source, sink, first, second, net, spawner, boot),
    )
}

// Ends with this status, and says why.
fn end<R: Eprint>(rt: &R, status: u8) -> ExitCode
    ensures { exit_status result ≡ status }
{
    if let Some(reason) = reason(status) {
        let _ = eprintln!(rt; "{reason}");
    }
    ExitCode::from(status)
}

// The words behind the program's name. Arguments that can't be read are no words of the program.
fn own_words(alloc: Global, args: io::Result<Args>) -> Result<Vec<String>, Status>
    ensures ok { IfOk result (λ words. words_of string_bytes args ≡ Some (map string_bytes words.items)) }
    ensures err { IfErr result (λ fault. (fault ≡ status.NoMemory) ⊎ ((fault ≡ status.Usage) × (words_of string_bytes args ≡ None))) }
{
    let mut args = match args {
        Ok(args) => args,
        Err(error) if error.kind() == io::ErrorKind::OutOfMemory => return Err(Status::NoMemory),
        Err(_) => return Err(Status::Usage),
    };
    let _ = args.next();
    let mut words = Vec::new(alloc);
    'words: while let Some(word) = args.next() {
        if words.push(word).is_err() {
            return Err(Status::NoMemory);
        }
    }
    Ok(words)
}

// The number of objects that a drill was asked for by a word.
fn asked_objects(words: &[String]) -> Option<u32> {
    match command_of(words) {
        Some(Command::Drill(most)) if words.len() == 2 => Some(most),
        _ => None,
    }
}

// The number of this start, for which mounts wait. The others use none.
fn start_of(rt: HostRuntime, words: &[String]) -> u64 {
    match command_of(words) {
        Some(Command::Mount(_) | Command::MountTable(_)) => boot_of(&rt),
        _ => 0,
    }
}

fn main(rt: HostRuntime) -> ExitCode {
    if let Err(error) = open_streams(rt) {
        let _ = eprintln!(rt;
            "echofs: the null device can't be opened for a closed stream: {error}"
        );
        return ExitCode::from(Status::DiskFault.code());
    }
    let mut source = StdSource::new(rt.reader());
    let mut sink = StdSink::new(io::writer(&rt));
    let words = match own_words(rt.alloc(), env::args(&rt)) {
        Ok(words) => words,
        Err(fault) => return end(&rt, fault.code()),
    };
    let boot = start_of(rt, &words);
    let mut net = TcpNet::new();
    let mut spawner = Spawner::Threads(ThreadSpawner::new());
    let asks_for_disk = command_of(&words).is_some_and(|command| command.uses_disk());
    if asks_for_disk {
        match open_disks(rt, asked_objects(&words)) {
            Ok(disks) => {
                let Disks { mut first, second } = disks;
                match second {
                    Some(mut second) => process_mirrored(
                        &rt,
                        &words,
                        &mut source,
                        &mut sink,
                        &mut first,
                        &mut second,
                        &mut net,
                        &mut spawner,
                        boot,
                    ),
                    None => process(
                        &rt,
                        &words,
                        &mut source,
                        &mut sink,
                        &mut first,
                        &mut net,
                        &mut spawner,
                        boot,
                    ),
                }
            },
            Err(why) => {
                tell_no_disk(rt, &why);
                ExitCode::from(why.status().code())
            },
        }
    } else {
        match MemDisk::new(rt.alloc(), Vec::new(rt.alloc())) {
            Ok(mut disk) => {
                process(
                    &rt,
                    &words,
                    &mut source,
                    &mut sink,
                    &mut disk,
                    &mut net,
                    &mut spawner,
                    boot,
                )
            },
            Err(_) => end(&rt, Status::NoMemory.code()),
        }
    }
}
