// The one call of the program over two disks.
ghost use Rattle.std.specs.Prelude.{◌≡◌, ◌⊎◌, ◌≤◌, None, map, IfOk, MatchBool};
ghost use Rattle.std.specs.String.{string_bytes};
ghost use Rattle.ec_link.specs.Spawns.{faults_of};
ghost use Rattle.ec_mirror.specs.Disks.{IsOne, IsPinned, faults_in, mirror_view};
ghost use Rattle.ec_mirror.specs.Shown.{lent_of};
ghost use Rattle.ec_mirror.specs.Tally.{counts_of};
ghost use Rattle.ec_echo.specs.Mirroring.{Mirrored, Promised, RanMirrored, Refused, TellsFault, UsesDisk, UsesNone, mirror_text};
ghost use Rattle.ec_echo.specs.OfNamed.Forms.{Asks, links};
ghost use Rattle.ec_echo.specs.OfNamed.Seen.{stream, store};

use crate::Start;
use crate::command::command_of;
use crate::named::echo_main;
use crate::status::Status;
use crate::writing::write_made;
use ec_base::{NoMemory, Sink, Source};
use ec_disk::{CrashDisk, Disk};
use ec_link::{Around, Net, Spawner};
use ec_mirror::{Mirror, MirrorFault, NoMirror, PinnedMirror, Pins, TwoDisks};
use itoa::Buffer;
use std::alloc::Global;
use std::io::Eprint;
use std::marker::Brand;

/// Does all that the program does, over any source and sink and a mirror of two disks that aren't armed, and answers the exit status. Words that
/// use no disk touch neither.
pub fn mirror_main<
    R: Around + Eprint,
    S: Source,
    K: Sink,
    A: CrashDisk + Send,
    B: CrashDisk + Send,
    N: Net,
>(
    rt: &R,
    words: &[String],
    source: &mut S,
    sink: &mut K,
    first: &mut A,
    second: &mut B,
    net: &mut N,
    spawner: &mut Spawner,
    boot: u64,
) -> u8
    requires first { (A.counts first.old).armed ≡ None }
    requires second { (B.counts second.old).armed ≡ None }
    ensures usage { Asks (map string_bytes words.now) result }
    ensures later { (S.faults source.old ≤ S.faults source.new) × (K.faults sink.old ≤ K.faults sink.new) }
    ensures net { (N.faults net.old ≤ N.faults net.new) × (faults_of spawner.old ≤ faults_of spawner.new) }
    // Words that use no disk.
    ensures diskless { UsesNone (map string_bytes words.now) → Promised boot (map string_bytes words.now) result (stream S.left S.faults source.old source.new) (stream K.held K.faults sink.old sink.new) (store A.tells A.view A.counts first.old first.new) (links N.faults N.bad N.ended faults_of net.old net.new spawner.old spawner.new) }
    ensures second_rests { UsesNone (map string_bytes words.now) → second.new ≡ second.old }
    // All others: the two disks are no mirror, and it's told why and what becomes of them, or all that's promised over one disk is so over the mirror, and it's told how the disks stand to it.
    ensures mirrored { UsesDisk (map string_bytes words.now) → Refused (record { tells = A.tells; view = A.view; counts = A.counts }) (record { tells = B.tells; view = B.view; counts = B.counts }) result (stream S.left S.faults source.old source.new) (stream K.held K.faults sink.old sink.new) (links N.faults N.bad N.ended faults_of net.old net.new spawner.old spawner.new) first.old first.new second.old second.new
        ⊎ Mirrored (record { tells = A.tells; view = A.view; counts = A.counts }) (record { tells = B.tells; view = B.view; counts = B.counts }) (record { tells = ⟦<Mirror<'static, A, B> as Disk>⟧.tells; view = ⟦<Mirror<'static, A, B> as Disk>⟧.view; counts = ⟦<Mirror<'static, A, B> as Disk>⟧.counts }) boot (map string_bytes words.now) result (stream S.left S.faults source.old source.new) (stream K.held K.faults sink.old sink.new) (links N.faults N.bad N.ended faults_of net.old net.new spawner.old spawner.new) first.old first.new second.old second.new }
{
    if !use_disk(words) {
        return echo_main(rt, words, source, sink, first, net, spawner, boot);
    }
    let mirror = match Mirror::open_or_give_back(first, second) {
        Ok(mirror) => mirror,
        Err(back) => {
            let NoMirror {
                fault,
                first,
                second,
            } = back;
            let _ = first;
            let _ = second;
            return refuse(rt.alloc(), sink, fault).code();
        }
    };
    let start = Start { rt, words, boot };
    let Ended {
        status,
        first,
        second,
    } = echo_mirrored(start, source, sink, mirror, net, spawner);
    let _ = first;
    let _ = second;
    status
}

// Whether what these words ask for uses a disk.
fn use_disk(words: &[String]) -> bool
    ensures { MatchBool result (UsesDisk (map string_bytes words.now)) (UsesNone (map string_bytes words.now)) }
{
    match command_of(words) {
        Some(command) => command.uses_disk(),
        None => false,
    }
}

// How a run over a mirror ended, with the mirror's disks.
#[derive(Drop)]
struct Ended<'a, A: CrashDisk, B: CrashDisk> {
    status: u8,
    first: &'a mut A,
    second: &'a mut B,
}

// The same over a mirror that was opened. Its disks come back.
fn echo_mirrored<
    'a,
    R: Around + Eprint,
    S: Source,
    K: Sink,
    A: CrashDisk + Send,
    B: CrashDisk + Send,
    N: Net,
>(
    start: Start<'_, R>,
    source: &mut S,
    sink: &mut K,
    mirror: Mirror<'a, A, B>,
    net: &mut N,
    spawner: &mut Spawner,
) -> Ended<'a, A, B>
    requires first { IsOne mirror.parts.present.pair.first.from.items }
    requires second { IsOne mirror.parts.present.pair.second.from.items }
    requires unarmed { mirror.parts.tally.armed ≡ None }
    ensures first { result.first.ghost_name ≡ mirror.entry.parts.present.pair.first.disk.ghost_name }
    ensures second { result.second.ghost_name ≡ mirror.entry.parts.present.pair.second.disk.ghost_name }
    ensures later { (S.faults source.old ≤ S.faults source.new) × (K.faults sink.old ≤ K.faults sink.new) }
    ensures net { (N.faults net.old ≤ N.faults net.new) × (faults_of spawner.old ≤ faults_of spawner.new) }
    ensures ran { RanMirrored (record { tells = A.tells; view = A.view; counts = A.counts }) (record { tells = B.tells; view = B.view; counts = B.counts }) (record { tells = ⟦<Mirror<'static, A, B> as Disk>⟧.tells; view = ⟦<Mirror<'static, A, B> as Disk>⟧.view; counts = ⟦<Mirror<'static, A, B> as Disk>⟧.counts }) start.entry.boot (map string_bytes start.entry.words.now) result.status (stream S.left S.faults source.old source.new) (stream K.held K.faults sink.old sink.new) (links N.faults N.bad N.ended faults_of net.old net.new spawner.old spawner.new) mirror.entry (faults_in A.counts mirror.entry.parts.present.pair.first.from.items) (faults_in B.counts mirror.entry.parts.present.pair.second.from.items) result.first.now result.second.now }
{
    let (status, mirror) = echo_pinned::<R, S, K, A, B, N, Brand>(
        start, source, sink, mirror, net, spawner,
    );
    mirror.is_over_its_disks();
    let TwoDisks { first, second } = mirror.into_disks();
    Ended {
        status,
        first,
        second,
    }
}

// The same for the two disks that `P` names.
fn echo_pinned<
    'a,
    R: Around + Eprint,
    S: Source,
    K: Sink,
    A: CrashDisk + Send,
    B: CrashDisk + Send,
    N: Net,
    P: Pins + Send,
>(
    start: Start<'_, R>,
    source: &mut S,
    sink: &mut K,
    mirror: Mirror<'a, A, B>,
    net: &mut N,
    spawner: &mut Spawner,
) -> (u8, Mirror<'a, A, B>)
    requires pinned { IsPinned A.counts B.counts P.first P.second P.first_faults P.second_faults (lent_of mirror.parts.present.pair) }
    requires unarmed { mirror.parts.tally.armed ≡ None }
    ensures pinned { IsPinned A.counts B.counts P.first P.second P.first_faults P.second_faults (lent_of result.1.parts.present.pair) }
    ensures later { (S.faults source.old ≤ S.faults source.new) × (K.faults sink.old ≤ K.faults sink.new) }
    ensures net { (N.faults net.old ≤ N.faults net.new) × (faults_of spawner.old ≤ faults_of spawner.new) }
    ensures promised { Promised start.entry.boot (map string_bytes start.entry.words.now) result.0 (stream S.left S.faults source.old source.new) (stream K.held K.faults sink.old sink.new) (store (A.tells × B.tells) (mirror_view A.view B.view) (λ m. counts_of m.parts.tally) mirror.entry result.1) (links N.faults N.bad N.ended faults_of net.old net.new spawner.old spawner.new) }
{
    let Start { rt, words, boot } = start;
    let mut pinned = PinnedMirror::<'a, A, B, P>::new(mirror);
    let status = echo_main(rt, words, source, sink, &mut pinned, net, spawner, boot);
    (status, pinned.into_mirror())
}

// Tells why two disks are no mirror, where that is their bytes.
fn refuse<K: Sink>(alloc: Global, sink: &mut K, fault: MirrorFault) -> Status
    ensures later { K.faults sink.old ≤ K.faults sink.new }
    ensures told { TellsFault fault result (stream K.held K.faults sink.old sink.new) }
{
    match fault {
        MirrorFault::BadMirror(which, place) => {
            write_made(sink, mirror_text(alloc, which, place), Status::BadDisk)
        }
        MirrorFault::DiskFailed => Status::DiskFault,
        // A disk that isn't armed doesn't stop.
        MirrorFault::DiskStopped | MirrorFault::NoMemory => Status::NoMemory,
    }
}

// The line that tells which disk is no half of a mirror, and the place that shows it.
fn mirror_text(alloc: Global, which: u8, place: u64) -> Result<Vec<u8>, NoMemory>
    ensures { IfOk result (λ text. text.items ≡ mirror_text which place) }
{
    let mut buffer = Buffer::new();
    let mut text = Vec::new(alloc);
    text.extend_from_slice(b"mirror bad ")?;
    text.extend_from_slice(buffer.format(which).as_bytes())?;
    text.extend_from_slice(b" ")?;
    text.extend_from_slice(buffer.format(place).as_bytes())?;
    text.extend_from_slice(b"\n")?;
    Ok(text)
}
