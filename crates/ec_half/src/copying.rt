// One disk is made as the other one.
ghost use Rattle.std.specs.Prelude.{◌≡◌, ◌<◌, ◌≤◌, ◌+◌, ◌⊎◌, ℕ, Some, IfOk, IsErrOf, length, true, false};
ghost use Rattle.ec_disk.specs.declared.disk.DiskAnswer.{DiskAnswer};
ghost use Rattle.ec_disk.specs.declared.disk.DiskAnswer.TheVariants as said;
ghost use Rattle.ec_half.specs.Contents.{content_behind, HasHeader, Rested, Stays, AllSynced};
ghost use Rattle.ec_half.specs.Headers.{most_generation, AllHave};
ghost use Rattle.ec_half.specs.OfSlots.Contents.{filled};
ghost use Rattle.ec_half.specs.declared.copying.Joined.TheVariants as joined;
ghost use Rattle.ec_half.specs.declared.copying.Copied.TheVariants as copied;

use crate::half::Half;
use crate::header::MOST;
use ec_disk::{CrashDisk, DiskAnswer, DiskLen};

const PIECE_BYTES: usize = 4_096;

static ZEROS: [u8; PIECE_BYTES] = [0; PIECE_BYTES];

/// How two disks were joined.
#[derive(Clone, Copy, Drop)]
pub enum Joined {
    /// Both have the source's content and the same generation.
    Both,
    /// The other disk failed behind the source's generation.
    SourceAlone,
    /// The source failed, or either disk stopped or found no memory.
    Fault(DiskAnswer),
}

// How a copy went.
#[derive(Clone, Copy, Drop)]
enum Copied {
    Done,
    OfSource(DiskAnswer),
    OfOther(DiskAnswer),
}

/// Makes the other disk as the source, which gets zeros to its length where that one is longer. Whether the other one hasn't failed.
pub fn join_from<S: CrashDisk, O: CrashDisk>(
    source: &mut Half<'_, S>,
    other: &mut Half<'_, O>,
    number: u64,
) -> Result<bool, DiskAnswer>
    requires source { source.old.most < number }
    requires other { other.old.most < number }
    ensures source_from { source.new.from ≡ source.old.from }
    ensures other_from { other.new.from ≡ other.old.from }
    ensures source_disk { source.new.disk.ghost_name ≡ source.old.disk.ghost_name }
    ensures other_disk { other.new.disk.ghost_name ≡ other.old.disk.ghost_name }
    ensures failed { IsErrOf result said.Failed → (source.new.has_failed ≡ true) ⊎ (other.new.has_failed ≡ true) }
    ensures alone { IfOk result (λ joined. joined ≡ false → other.new.has_failed ≡ true) }
    ensures raised { IfOk result (λ joined. joined ≡ true → source.new.generation.number ≡ number) }
    ensures raised_alone { IfOk result (λ joined. joined ≡ false → source.new.generation.number ≡ number + 1) }
    ensures small { IfOk result (λ joined. joined ≡ false → number < most_generation) }
    ensures other_raised { IfOk result (λ joined. joined ≡ true → other.new.generation.number ≡ number) }
    ensures other_stays { IfOk result (λ joined. joined ≡ false → other.new.generation.number < number) }
    ensures most { IfOk result (λ joined. joined ≡ true → source.new.most ≤ number) }
    ensures most_alone { IfOk result (λ joined. source.new.most ≤ number + 1) }
    ensures other_most { IfOk result (λ joined. other.new.most ≤ number) }
    ensures content { IfOk result (λ joined. S.tells → O.tells → HasHeader (S.view source.old.disk.now) → (content_behind (S.view source.new.disk.now)).gives ≡ filled (content_behind (S.view source.old.disk.now)).gives (length (content_behind (O.view other.old.disk.now)).gives)) }
    ensures alike { IfOk result (λ joined. joined ≡ true → S.tells → O.tells → HasHeader (S.view source.old.disk.now) → HasHeader (O.view other.old.disk.now) → (content_behind (O.view other.new.disk.now)).gives ≡ (content_behind (S.view source.new.disk.now)).gives) }
    ensures source_known { IfOk result (λ joined. (n : ℕ) × (source.new.len ≡ Some n)) }
    ensures source_synced { IfOk result (λ joined. S.tells → AllSynced (content_behind (S.view source.new.disk.now))) }
    ensures source_saved { IfOk result (λ joined. S.tells → (content_behind (S.view source.new.disk.now)).synced ≡ (content_behind (S.view source.new.disk.now)).gives) }
    ensures other_known { IfOk result (λ joined. joined ≡ true → (n : ℕ) × (other.new.len ≡ Some n)) }
    ensures other_synced { IfOk result (λ joined. joined ≡ true → O.tells → AllSynced (content_behind (O.view other.new.disk.now))) }
    ensures other_saved { IfOk result (λ joined. joined ≡ true → O.tells → (content_behind (O.view other.new.disk.now)).synced ≡ (content_behind (O.view other.new.disk.now)).gives) }
{
    let len = len_of(source)?;
    let other_len = len_of(other)?;
    match lengthen(source, len, other_len) {
        DiskAnswer::Done => {}
        fault => return Err(fault),
    }
    match join(source, other, len.max(other_len), number) {
        Joined::Both => Ok(true),
        Joined::SourceAlone => Ok(false),
        Joined::Fault(fault) => Err(fault),
    }
}

fn len_of<D: CrashDisk>(half: &mut Half<'_, D>) -> Result<u64, DiskAnswer>
    ensures failed { IsErrOf result said.Failed → half.new.has_failed ≡ true }
    ensures from { half.new.from ≡ half.old.from }
    ensures same_disk { half.new.disk.ghost_name ≡ half.old.disk.ghost_name }
    ensures generation { half.new.generation ≡ half.old.generation }
    ensures most { half.new.most ≡ half.old.most }
    ensures len { IfOk result (λ len. D.tells → len ≡ length (content_behind (D.view half.old.disk.now)).gives) }
    ensures rests { D.tells → Rested (content_behind (D.view half.old.disk.now)) (content_behind (D.view half.new.disk.now)) }
    ensures header { D.tells → HasHeader (D.view half.old.disk.now) → HasHeader (D.view half.new.disk.now) }
{
    match half.len() {
        DiskLen::Len(len) => Ok(len),
        DiskLen::Failed => Err(DiskAnswer::Failed),
        DiskLen::Stopped => Err(DiskAnswer::Stopped),
    }
}

/// Gives the source the next generation, and then the other disk, which isn't longer, its content of this length and that generation. Where the other
/// one fails behind that, the source gets one generation more: the other one may hold the one before, over a content that is written no more.
pub fn join<S: CrashDisk, O: CrashDisk>(
    source: &mut Half<'_, S>,
    other: &mut Half<'_, O>,
    len: u64,
    number: u64,
) -> Joined
    requires { other.old.generation.number < number }
    ensures source_from { source.new.from ≡ source.old.from }
    ensures source_disk { source.new.disk.ghost_name ≡ source.old.disk.ghost_name }
    ensures other_from { other.new.from ≡ other.old.from }
    ensures other_disk { other.new.disk.ghost_name ≡ other.old.disk.ghost_name }
    ensures source_stop { source.new.may_stop ≡ source.old.may_stop }
    ensures other_stop { other.new.may_stop ≡ other.old.may_stop }
    ensures never_stops { source.old.may_stop ≡ false → other.old.may_stop ≡ false → result ≡ joined.Fault said.Stopped → ⊥ }
    ensures source_keeps { source.old.has_failed ≡ true → source.new.has_failed ≡ true }
    ensures other_keeps { other.old.has_failed ≡ true → other.new.has_failed ≡ true }
    ensures failed { result ≡ joined.Fault said.Failed → source.new.has_failed ≡ true }
    ensures alone { result ≡ joined.SourceAlone → other.new.has_failed ≡ true }
    ensures not_done { result ≡ joined.Fault said.Done → ⊥ }
    ensures raised { result ≡ joined.Both → source.new.generation.number ≡ number }
    ensures raised_alone { result ≡ joined.SourceAlone → source.new.generation.number ≡ number + 1 }
    ensures small { result ≡ joined.SourceAlone → number < most_generation }
    ensures other_raised { result ≡ joined.Both → other.new.generation.number ≡ number }
    ensures other_stays { result ≡ joined.SourceAlone → other.new.generation ≡ other.old.generation }
    ensures source_stays { (result ≡ joined.Both) ⊎ (result ≡ joined.SourceAlone) → S.tells → Stays (content_behind (S.view source.old.disk.now)) (content_behind (S.view source.new.disk.now)) }
    ensures source_synced { (result ≡ joined.Both) ⊎ (result ≡ joined.SourceAlone) → S.tells → AllSynced (content_behind (S.view source.new.disk.now)) }
    ensures source_saved { (result ≡ joined.Both) ⊎ (result ≡ joined.SourceAlone) → S.tells → (content_behind (S.view source.new.disk.now)).synced ≡ (content_behind (S.view source.new.disk.now)).gives }
    ensures source_known { (result ≡ joined.Both) ⊎ (result ≡ joined.SourceAlone) → (n : ℕ) × (source.new.len ≡ Some n) }
    ensures other_synced { result ≡ joined.Both → O.tells → AllSynced (content_behind (O.view other.new.disk.now)) }
    ensures other_saved { result ≡ joined.Both → O.tells → (content_behind (O.view other.new.disk.now)).synced ≡ (content_behind (O.view other.new.disk.now)).gives }
    ensures other_known { result ≡ joined.Both → (n : ℕ) × (other.new.len ≡ Some n) }
    ensures alike { result ≡ joined.Both → S.tells → O.tells → HasHeader (O.view other.old.disk.now) → len ≡ length (content_behind (S.view source.old.disk.now)).gives → length (content_behind (O.view other.old.disk.now)).gives ≤ len → (content_behind (O.view other.new.disk.now)).gives ≡ (content_behind (S.view source.old.disk.now)).gives }
    ensures source_have { (result ≡ joined.Both) ⊎ (result ≡ joined.SourceAlone) → S.tells → source.old.generation.number ≤ number → AllHave (S.view source.old.disk.now) source.old.generation → AllHave (S.view source.new.disk.now) source.new.generation }
    ensures other_have { result ≡ joined.Both → O.tells → AllHave (O.view other.old.disk.now) other.old.generation → AllHave (O.view other.new.disk.now) other.new.generation }
    ensures most { result ≡ joined.Both → (n : ℕ) → source.old.most ≤ n → number ≤ n → source.new.most ≤ n }
    ensures most_alone { (n : ℕ) → source.old.most ≤ n → number < n → source.new.most ≤ n }
    ensures other_most { (n : ℕ) → other.old.most ≤ n → number ≤ n → other.new.most ≤ n }
{
    match source.raise(number) {
        DiskAnswer::Done => {}
        fault => return Joined::Fault(fault),
    }
    match copy(source, other, len) {
        Copied::Done => {}
        Copied::OfSource(fault) => return Joined::Fault(fault),
        Copied::OfOther(fault) => return without_other(source, fault, number),
    }
    match other.sync() {
        DiskAnswer::Done => {}
        fault => return without_other(source, fault, number),
    }
    match other.raise(number) {
        DiskAnswer::Done => Joined::Both,
        fault => without_other(source, fault, number),
    }
}

// A disk that failed behind the source's generation is left alone: the source goes on under the next one.
fn without_other<S: CrashDisk>(source: &mut Half<'_, S>, fault: DiskAnswer, number: u64) -> Joined
    requires not_done { fault ≡ said.Done → ⊥ }
    ensures alone { result ≡ joined.SourceAlone → fault ≡ said.Failed }
    ensures raised { result ≡ joined.SourceAlone → source.new.generation.number ≡ number + 1 }
    ensures small { result ≡ joined.SourceAlone → number < most_generation }
    ensures both { result ≡ joined.Both → ⊥ }
    ensures not_done { result ≡ joined.Fault said.Done → ⊥ }
    ensures from { source.new.from ≡ source.old.from }
    ensures same_disk { source.new.disk.ghost_name ≡ source.old.disk.ghost_name }
    ensures stop { source.new.may_stop ≡ source.old.may_stop }
    ensures never_stops { source.old.may_stop ≡ false → (fault ≡ said.Stopped → ⊥) → result ≡ joined.Fault said.Stopped → ⊥ }
    ensures keeps { source.old.has_failed ≡ true → source.new.has_failed ≡ true }
    ensures failed { result ≡ joined.Fault said.Failed → source.new.has_failed ≡ true }
    ensures stays { result ≡ joined.SourceAlone → S.tells → Stays (content_behind (S.view source.old.disk.now)) (content_behind (S.view source.new.disk.now)) }
    ensures synced { result ≡ joined.SourceAlone → S.tells → AllSynced (content_behind (S.view source.new.disk.now)) }
    ensures saved { result ≡ joined.SourceAlone → S.tells → (content_behind (S.view source.new.disk.now)).synced ≡ (content_behind (S.view source.new.disk.now)).gives }
    ensures known { result ≡ joined.SourceAlone → (n : ℕ) × (source.new.len ≡ Some n) }
    ensures have { result ≡ joined.SourceAlone → S.tells → source.old.generation.number ≤ number → AllHave (S.view source.old.disk.now) source.old.generation → AllHave (S.view source.new.disk.now) source.new.generation }
    ensures most { (n : ℕ) → source.old.most ≤ n → number < n → source.new.most ≤ n }
{
    if fault != DiskAnswer::Failed {
        return Joined::Fault(fault);
    }
    if number >= MOST {
        return Joined::Fault(DiskAnswer::NoMemory);
    }
    match source.raise(number + 1) {
        DiskAnswer::Done => Joined::SourceAlone,
        fault => Joined::Fault(fault),
    }
}

/// Writes zeros from the content's end up to this place, and syncs, where it lies behind that end.
pub fn lengthen<D: CrashDisk>(half: &mut Half<'_, D>, from: u64, to: u64) -> DiskAnswer
    ensures from { half.new.from ≡ half.old.from }
    ensures same_disk { half.new.disk.ghost_name ≡ half.old.disk.ghost_name }
    ensures may_stop { half.new.may_stop ≡ half.old.may_stop }
    ensures failed { result ≡ said.Failed → half.new.has_failed ≡ true }
    ensures generation { half.new.generation ≡ half.old.generation }
    ensures most { half.new.most ≡ half.old.most }
    ensures have { D.tells → AllHave (D.view half.old.disk.now) half.old.generation → AllHave (D.view half.new.disk.now) half.new.generation }
    ensures filled { result ≡ said.Done → D.tells → HasHeader (D.view half.old.disk.now) → from ≡ length (content_behind (D.view half.old.disk.now)).gives → (content_behind (D.view half.new.disk.now)).gives ≡ filled (content_behind (D.view half.old.disk.now)).gives to }
{
    if to <= from {
        return DiskAnswer::Done;
    }
    let mut at = from;
    'pieces: while at < to {
        let count = (to - at).min(PIECE_BYTES as u64);
        match half.write(at, &ZEROS[..count as usize]) {
            DiskAnswer::Done => {}
            fault => return fault,
        }
        at += count;
    }
    half.sync()
}

// Copies a content of this length from the disk with the greater generation, so that a crash before it's whole leaves that one's.
fn copy<S: CrashDisk, O: CrashDisk>(
    source: &mut Half<'_, S>,
    other: &mut Half<'_, O>,
    len: u64,
) -> Copied
    requires { other.old.generation.number < source.old.generation.number }
    ensures source_generation { source.new.generation ≡ source.old.generation }
    ensures other_generation { other.new.generation ≡ other.old.generation }
    ensures source_most { source.new.most ≡ source.old.most }
    ensures other_most { other.new.most ≡ other.old.most }
    ensures source_from { source.new.from ≡ source.old.from }
    ensures source_disk { source.new.disk.ghost_name ≡ source.old.disk.ghost_name }
    ensures other_from { other.new.from ≡ other.old.from }
    ensures other_disk { other.new.disk.ghost_name ≡ other.old.disk.ghost_name }
    ensures source_stop { source.new.may_stop ≡ source.old.may_stop }
    ensures other_stop { other.new.may_stop ≡ other.old.may_stop }
    ensures source_never { source.old.may_stop ≡ false → result ≡ copied.OfSource said.Stopped → ⊥ }
    ensures other_never { other.old.may_stop ≡ false → result ≡ copied.OfOther said.Stopped → ⊥ }
    ensures source_keeps { source.old.has_failed ≡ true → source.new.has_failed ≡ true }
    ensures other_keeps { other.old.has_failed ≡ true → other.new.has_failed ≡ true }
    ensures source_not_done { result ≡ copied.OfSource said.Done → ⊥ }
    ensures other_not_done { result ≡ copied.OfOther said.Done → ⊥ }
    ensures source_failed { result ≡ copied.OfSource said.Failed → source.new.has_failed ≡ true }
    ensures other_failed { result ≡ copied.OfOther said.Failed → other.new.has_failed ≡ true }
    ensures source_rests { S.tells → Rested (content_behind (S.view source.old.disk.now)) (content_behind (S.view source.new.disk.now)) }
    ensures source_known { source.new.len ≡ source.old.len }
    ensures source_have { S.tells → AllHave (S.view source.old.disk.now) source.old.generation → AllHave (S.view source.new.disk.now) source.new.generation }
    ensures other_have { O.tells → AllHave (O.view other.old.disk.now) other.old.generation → AllHave (O.view other.new.disk.now) other.new.generation }
    ensures copied { result ≡ copied.Done → S.tells → O.tells → HasHeader (O.view other.old.disk.now) → len ≡ length (content_behind (S.view source.old.disk.now)).gives → length (content_behind (O.view other.old.disk.now)).gives ≤ len → (content_behind (O.view other.new.disk.now)).gives ≡ (content_behind (S.view source.old.disk.now)).gives }
{
    let mut bytes = [0; PIECE_BYTES];
    let mut at: u64 = 0;
    'pieces: while at < len {
        let count = (len - at).min(PIECE_BYTES as u64);
        let piece = &mut bytes[..count as usize];
        match source.read(at, piece) {
            DiskAnswer::Done => {}
            fault => return Copied::OfSource(fault),
        }
        match other.write(at, piece) {
            DiskAnswer::Done => {}
            fault => return Copied::OfOther(fault),
        }
        at += count;
    }
    Copied::Done
}
