//! The one call of the program, with what it promises said clause by clause.
ghost use Rattle.std.specs.Prelude.{◌≡◌, ◌≤◌, None, map};
ghost use Rattle.std.specs.String.{string_bytes};
ghost use Rattle.ec_link.specs.Spawns.{faults_of};
ghost use Rattle.ec_machine_laws.specs.OfNodeLaws.Claims.{ClaimsComeFirst};
ghost use Rattle.ec_echo.specs.OfNamed.Seen.{stream, store};
ghost use Rattle.ec_echo.specs.OfNamed.Told.{WroteLines};
ghost use Rattle.ec_echo.specs.OfNamed.Promises.{History, LinesInPlace, PlainReplies, ExactReports, LawfulLosses, Fsync, Room};
ghost use Rattle.ec_echo.specs.OfNamed.Runs.{Together, OwnCalls, Sessions, Spent, Complete, WriteBehind, Stores, Causes};
ghost use Rattle.ec_echo.specs.OfNamed.Leases.{DoesLeases, LeaseBytes, LeaseCalls, LeaseHistory, LeaseLines, LeaseSessions, LeaseStores, OnLeases};
ghost use Rattle.ec_echo.specs.OfNamed.PlainLeases.{LeaseComplete};
ghost use Rattle.ec_echo.specs.OfNamed.Soaks.{DoesSoak};
ghost use Rattle.ec_echo.specs.OfNamed.States.{StatesInOrder, DiskOfCut};
ghost use Rattle.ec_echo.specs.OfNamed.Forms.{OnDrill, OnCheck, OnMake, OnSoak, OnServe, OnMount, OnMounts, Asks, DoesDrill, DoesCheck, DoesMake, DoesServe, DoesMount, DoesMounts, TouchesNothing, IsAlone, outside, links};

use crate::{Start, run_words};
use ec_base::{Sink, Source};
use ec_disk::CrashDisk;
use ec_link::{Around, Net, Spawner};
use std::io::Eprint;

/// Does all that the program does, over any source, sink and disk that isn't armed, and answers the
/// exit status. The words are those behind the program's name; `boot` is the number of this start of
/// the process.
pub fn echo_main<R: Around + Eprint, S: Source, K: Sink, D: CrashDisk + Send, N: Net>(
    rt: &R,
    words: &[String],
    source: &mut S,
    sink: &mut K,
    disk: &mut D,
    net: &mut N,
    spawner: &mut Spawner,
    boot: u64,
) -> u8
    requires { (D.counts disk.old).armed ≡ None }
    // The lines that a drill wrote: they stand in one legal history of one uncached volume.
    ensures history { OnDrill (map string_bytes words.now) (History result (stream K.held K.faults sink.old sink.new) (store D.tells D.view D.counts disk.old disk.new)) }
    ensures lines { OnDrill (map string_bytes words.now) (LinesInPlace result (stream K.held K.faults sink.old sink.new) (store D.tells D.view D.counts disk.old disk.new)) }
    ensures replies { OnDrill (map string_bytes words.now) (PlainReplies result (stream K.held K.faults sink.old sink.new) (store D.tells D.view D.counts disk.old disk.new)) }
    ensures reports { OnDrill (map string_bytes words.now) (ExactReports result (stream K.held K.faults sink.old sink.new) (store D.tells D.view D.counts disk.old disk.new)) }
    ensures losses { OnDrill (map string_bytes words.now) (LawfulLosses result (stream K.held K.faults sink.old sink.new) (store D.tells D.view D.counts disk.old disk.new)) }
    ensures fsync { OnDrill (map string_bytes words.now) (Fsync result (stream K.held K.faults sink.old sink.new) (store D.tells D.view D.counts disk.old disk.new)) }
    ensures room { OnDrill (map string_bytes words.now) (Room result (stream K.held K.faults sink.old sink.new) (store D.tells D.view D.counts disk.old disk.new)) }
    ensures bytes { OnDrill (map string_bytes words.now) (WroteLines result (stream K.held K.faults sink.old sink.new)) }
    // Beside its script.
    ensures own_calls { OnDrill (map string_bytes words.now) (OwnCalls result (stream S.left S.faults source.old source.new) (stream K.held K.faults sink.old sink.new) (store D.tells D.view D.counts disk.old disk.new)) }
    ensures sessions { OnDrill (map string_bytes words.now) (Sessions result (stream S.left S.faults source.old source.new) (stream K.held K.faults sink.old sink.new) (store D.tells D.view D.counts disk.old disk.new)) }
    ensures spent { OnDrill (map string_bytes words.now) (Spent result (stream S.left S.faults source.old source.new) (stream K.held K.faults sink.old sink.new) (store D.tells D.view D.counts disk.old disk.new)) }
    ensures together { OnDrill (map string_bytes words.now) (Together result (stream S.left S.faults source.old source.new) (stream K.held K.faults sink.old sink.new) (store D.tells D.view D.counts disk.old disk.new)) }
    ensures complete { OnDrill (map string_bytes words.now) (Complete result (stream S.left S.faults source.old source.new) (stream K.held K.faults sink.old sink.new) (store D.tells D.view D.counts disk.old disk.new)) }
    ensures write_behind { OnDrill (map string_bytes words.now) (WriteBehind result (stream S.left S.faults source.old source.new) (stream K.held K.faults sink.old sink.new) (store D.tells D.view D.counts disk.old disk.new)) }
    ensures disk { OnDrill (map string_bytes words.now) (Stores result (stream S.left S.faults source.old source.new) (stream K.held K.faults sink.old sink.new) (store D.tells D.view D.counts disk.old disk.new)) }
    ensures statuses { OnDrill (map string_bytes words.now) (Causes result (stream S.left S.faults source.old source.new) (stream K.held K.faults sink.old sink.new) (store D.tells D.view D.counts disk.old disk.new)) }
    // The lines that a drill with leases wrote, but those that say that a session doesn't end yet: they stand in one legal history of one uncached volume, in printed order.
    ensures lease_history { OnLeases (map string_bytes words.now) (LeaseHistory result (stream S.left S.faults source.old source.new) (stream K.held K.faults sink.old sink.new) (store D.tells D.view D.counts disk.old disk.new)) }
    ensures lease_lines { OnLeases (map string_bytes words.now) (LeaseLines result (stream S.left S.faults source.old source.new) (stream K.held K.faults sink.old sink.new) (store D.tells D.view D.counts disk.old disk.new)) }
    ensures lease_calls { OnLeases (map string_bytes words.now) (LeaseCalls result (stream S.left S.faults source.old source.new) (stream K.held K.faults sink.old sink.new) (store D.tells D.view D.counts disk.old disk.new)) }
    ensures lease_sessions { OnLeases (map string_bytes words.now) (LeaseSessions result (stream S.left S.faults source.old source.new) (stream K.held K.faults sink.old sink.new) (store D.tells D.view D.counts disk.old disk.new)) }
    ensures lease_disk { OnLeases (map string_bytes words.now) (LeaseStores result (stream S.left S.faults source.old source.new) (stream K.held K.faults sink.old sink.new) (store D.tells D.view D.counts disk.old disk.new)) }
    ensures lease_complete { OnLeases (map string_bytes words.now) (LeaseComplete result (stream S.left S.faults source.old source.new) (stream K.held K.faults sink.old sink.new) (store D.tells D.view D.counts disk.old disk.new)) }
    ensures lease_bytes { OnLeases (map string_bytes words.now) (LeaseBytes result (stream K.held K.faults sink.old sink.new)) }
    // What each form of words does.
    ensures usage { Asks (map string_bytes words.now) result }
    ensures untouched { TouchesNothing (map string_bytes words.now) (outside (stream S.left S.faults source.old source.new) (stream K.held K.faults sink.old sink.new) (store D.tells D.view D.counts disk.old disk.new)) (links N.faults N.bad N.ended faults_of net.old net.new spawner.old spawner.new) }
    ensures alone { IsAlone (map string_bytes words.now) (links N.faults N.bad N.ended faults_of net.old net.new spawner.old spawner.new) }
    ensures drill { OnDrill (map string_bytes words.now) (DoesDrill result (outside (stream S.left S.faults source.old source.new) (stream K.held K.faults sink.old sink.new) (store D.tells D.view D.counts disk.old disk.new))) }
    ensures states { OnDrill (map string_bytes words.now) (StatesInOrder result (outside (stream S.left S.faults source.old source.new) (stream K.held K.faults sink.old sink.new) (store D.tells D.view D.counts disk.old disk.new))) }
    ensures disk_cut { OnDrill (map string_bytes words.now) (DiskOfCut result (outside (stream S.left S.faults source.old source.new) (stream K.held K.faults sink.old sink.new) (store D.tells D.view D.counts disk.old disk.new))) }
    ensures claims { ClaimsComeFirst }
    ensures check { OnCheck (map string_bytes words.now) (DoesCheck result (outside (stream S.left S.faults source.old source.new) (stream K.held K.faults sink.old sink.new) (store D.tells D.view D.counts disk.old disk.new))) }
    ensures make { OnMake (map string_bytes words.now) (DoesMake result (outside (stream S.left S.faults source.old source.new) (stream K.held K.faults sink.old sink.new) (store D.tells D.view D.counts disk.old disk.new))) }
    ensures soak { OnSoak (map string_bytes words.now) (DoesSoak result (stream S.left S.faults source.old source.new) (stream K.held K.faults sink.old sink.new) (store D.tells D.view D.counts disk.old disk.new)) }
    ensures serve { OnServe (map string_bytes words.now) (DoesServe result (outside (stream S.left S.faults source.old source.new) (stream K.held K.faults sink.old sink.new) (store D.tells D.view D.counts disk.old disk.new)) (links N.faults N.bad N.ended faults_of net.old net.new spawner.old spawner.new)) }
    ensures mount { OnMount (map string_bytes words.now) (DoesMount boot result (outside (stream S.left S.faults source.old source.new) (stream K.held K.faults sink.old sink.new) (store D.tells D.view D.counts disk.old disk.new)) (links N.faults N.bad N.ended faults_of net.old net.new spawner.old spawner.new)) }
    ensures mounts { OnMounts (map string_bytes words.now) (DoesMounts boot (map string_bytes words.now) result (outside (stream S.left S.faults source.old source.new) (stream K.held K.faults sink.old sink.new) (store D.tells D.view D.counts disk.old disk.new)) (links N.faults N.bad N.ended faults_of net.old net.new spawner.old spawner.new)) }
    ensures leases { OnLeases (map string_bytes words.now) (DoesLeases result (outside (stream S.left S.faults source.old source.new) (stream K.held K.faults sink.old sink.new) (store D.tells D.view D.counts disk.old disk.new))) }
    // Counts don't fall.
    ensures later { (S.faults source.old ≤ S.faults source.new) × (K.faults sink.old ≤ K.faults sink.new) }
    ensures counts { ((D.counts disk.old).faults ≤ (D.counts disk.new).faults) × ((D.counts disk.old).stops ≤ (D.counts disk.new).stops) }
    ensures net { (N.faults net.old ≤ N.faults net.new) × (faults_of spawner.old ≤ faults_of spawner.new) }
{
    let start = Start { rt, words, boot };
    run_words(start, source, sink, disk, net, spawner)
}
