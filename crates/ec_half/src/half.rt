// One disk of a mirror: its content stands behind a header.
ghost use Rattle.std.specs.Prelude.{◌≡◌, ◌≤◌, ◌+◌, ℕ, [], ◌∷◌, None, Some, IfOk, IfSome, IsErrOf, length, max, true, false};
ghost use Rattle.ec_base.specs.Outside.{Rose};
ghost use Rattle.ec_disk.specs.declared.disk.DiskAnswer.TheVariants as said;
ghost use Rattle.ec_disk.specs.declared.disk.DiskLen.TheVariants as len;
ghost use Rattle.ec_disk.specs.Choices.{cut};
ghost use Rattle.ec_disk.specs.Disk.{part};
ghost use Rattle.ec_disk.specs.Effects.{InRange, written};
ghost use Rattle.ec_half.specs.Contents.{IsHalf, HasHeader, HasLength, content_behind, Rested, Stays, Fewer, Loosened, AllSynced};
ghost use Rattle.ec_half.specs.Headers.{AllHave};
ghost use Rattle.ec_half.specs.OfSlots.Slots.{header_bytes};

use crate::header::{Generation, HEADER_BYTES, raise};
use ec_base::trace::Trace;
use ec_disk::{Choice, CrashDisk, DiskAnswer, DiskLen};

#[derive(Drop)]
pub struct Half<'a, D: CrashDisk> {
    pub disk: &'a mut D,
    pub generation: Generation,
    /// The greatest generation that it may hold: a raise that isn't done may have written one.
    pub most: u64,
    /// The content's length, where it's known.
    pub len: Option<u64>,
    /// The disk may be armed.
    pub may_stop: bool,
    /// A call of it has failed.
    pub has_failed: bool,
    // The disk as it was handed in, in proofs alone.
    pub from: Trace<D>,
    ghost bounded: { generation.number ≤ most },
    ghost unarmed: { may_stop ≡ false → (D.counts disk.now).armed ≡ None },
    ghost whole: { (n : ℕ) → len ≡ Some n → D.tells → IsHalf (D.view disk.now) n },
    ghost later: { (before : D) → from.items ≡ before ∷ [] → (D.counts before).faults ≤ (D.counts disk.now).faults },
    ghost failed: { has_failed ≡ true → (before : D) → from.items ≡ before ∷ [] → Rose (D.counts before).faults (D.counts disk.now).faults },
}

impl<'a, D: CrashDisk> Half<'a, D> {
    /// A disk that was looked at, with its generation.
    pub fn new(disk: &'a mut D, generation: Generation) -> Half<'a, D>
        ensures disk { result.disk.now ≡ disk.old }
        ensures from { result.from.items ≡ disk.old ∷ [] }
        ensures same_disk { result.disk.ghost_name ≡ disk.entry.ghost_name }
        ensures generation { result.generation ≡ generation }
        ensures most { result.most ≡ generation.number }
    {
        let from = Trace::new().and(&*disk);
        Half {
            disk,
            generation,
            most: generation.number,
            len: None,
            may_stop: true,
            has_failed: false,
            from,
        }
    }

    /// The place on the disk of a range of the content that lies inside. It does where a mirror tells its content, as the caller has to know;
    /// where one disk alone tells it, its own condition is owed.
    fn place_of(&self, at: u64, count: usize) -> Option<u64>
        ensures place { IfSome result (λ place. place ≡ at + header_bytes) }
        ensures inside { IfSome result (λ place. D.tells → place + count ≤ length (D.view self.now.disk.now).gives) }
    {
        let end = at.checked_add(count as u64)?;
        if end > self.len? {
            return None;
        }
        at.checked_add(HEADER_BYTES)
    }

    pub fn read(&mut self, at: u64, into: &mut [u8]) -> DiskAnswer
        ensures may_stop { self.new.may_stop ≡ self.old.may_stop }
        ensures never_stops { self.old.may_stop ≡ false → result ≡ said.Stopped → ⊥ }
        ensures failed { result ≡ said.Failed → self.new.has_failed ≡ true }
        ensures keeps { self.old.has_failed ≡ true → self.new.has_failed ≡ true }
        ensures generation { self.new.generation ≡ self.old.generation }
        ensures from { self.new.from ≡ self.old.from }
        ensures same_disk { self.new.disk.ghost_name ≡ self.old.disk.ghost_name }
        ensures bytes { D.tells → result ≡ said.Done → into.new ≡ part (content_behind (D.view self.old.disk.now)).gives at (length into.old) }
        ensures rests { D.tells → Rested (content_behind (D.view self.old.disk.now)) (content_behind (D.view self.new.disk.now)) }
        ensures known { self.new.len ≡ self.old.len }
        ensures most { self.new.most ≡ self.old.most }
        ensures have { D.tells → AllHave (D.view self.old.disk.now) self.old.generation → AllHave (D.view self.new.disk.now) self.new.generation }
    {
        let Some(place) = self.place_of(at, into.len()) else {
            return DiskAnswer::NoMemory;
        };
        let answer = self.disk.read_at(place, into);
        self.note(answer);
        answer
    }

    /// Where it isn't done, the content's length isn't known any more.
    pub fn write(&mut self, at: u64, piece: &[u8]) -> DiskAnswer
        ensures may_stop { self.new.may_stop ≡ self.old.may_stop }
        ensures never_stops { self.old.may_stop ≡ false → result ≡ said.Stopped → ⊥ }
        ensures failed { result ≡ said.Failed → self.new.has_failed ≡ true }
        ensures keeps { self.old.has_failed ≡ true → self.new.has_failed ≡ true }
        ensures generation { self.new.generation ≡ self.old.generation }
        ensures from { self.new.from ≡ self.old.from }
        ensures same_disk { self.new.disk.ghost_name ≡ self.old.disk.ghost_name }
        ensures written { D.tells → result ≡ said.Done → HasHeader (D.view self.old.disk.now) → (content_behind (D.view self.new.disk.now)).gives ≡ written at piece.now (content_behind (D.view self.old.disk.now)).gives }
        ensures header { D.tells → result ≡ said.Done → HasHeader (D.view self.old.disk.now) → HasHeader (D.view self.new.disk.now) }
        ensures loosened { D.tells → Loosened (InRange at (length piece.now)) (content_behind (D.view self.old.disk.now)) (content_behind (D.view self.new.disk.now)) }
        ensures known { result ≡ said.Done → (n : ℕ) → self.old.len ≡ Some n → self.new.len ≡ Some (max n (at + length piece.now)) }
        ensures most { self.new.most ≡ self.old.most }
        ensures have { D.tells → AllHave (D.view self.old.disk.now) self.old.generation → AllHave (D.view self.new.disk.now) self.new.generation }
    {
        let Some(end) = at.checked_add(piece.len() as u64) else {
            return DiskAnswer::NoMemory;
        };
        let Some(place) = at.checked_add(HEADER_BYTES) else {
            return DiskAnswer::NoMemory;
        };
        let len = self.len;
        self.len = None;
        let answer = self.disk.write_at(place, piece);
        if answer != DiskAnswer::Done {
            self.note(answer);
            return answer;
        }
        self.len = grown(len, end);
        DiskAnswer::Done
    }

    pub fn sync(&mut self) -> DiskAnswer
        ensures may_stop { self.new.may_stop ≡ self.old.may_stop }
        ensures never_stops { self.old.may_stop ≡ false → result ≡ said.Stopped → ⊥ }
        ensures failed { result ≡ said.Failed → self.new.has_failed ≡ true }
        ensures keeps { self.old.has_failed ≡ true → self.new.has_failed ≡ true }
        ensures generation { self.new.generation ≡ self.old.generation }
        ensures from { self.new.from ≡ self.old.from }
        ensures same_disk { self.new.disk.ghost_name ≡ self.old.disk.ghost_name }
        ensures stays { D.tells → Stays (content_behind (D.view self.old.disk.now)) (content_behind (D.view self.new.disk.now)) }
        ensures all_synced { D.tells → result ≡ said.Done → AllSynced (content_behind (D.view self.new.disk.now)) }
        ensures saved { D.tells → result ≡ said.Done → (content_behind (D.view self.new.disk.now)).synced ≡ (content_behind (D.view self.new.disk.now)).gives }
        ensures unsaved { D.tells → (result ≡ said.Done → ⊥) → (content_behind (D.view self.new.disk.now)).synced ≡ (content_behind (D.view self.old.disk.now)).synced }
        ensures known { self.new.len ≡ self.old.len }
        ensures most { self.new.most ≡ self.old.most }
        ensures have { D.tells → AllHave (D.view self.old.disk.now) self.old.generation → AllHave (D.view self.new.disk.now) self.new.generation }
    {
        let answer = self.disk.sync();
        self.note(answer);
        answer
    }

    /// The content's length, for which the disk is asked where it isn't known.
    pub fn len(&mut self) -> DiskLen
        ensures may_stop { self.new.may_stop ≡ self.old.may_stop }
        ensures never_stops { self.old.may_stop ≡ false → result ≡ len.Stopped → ⊥ }
        ensures failed { result ≡ len.Failed → self.new.has_failed ≡ true }
        ensures keeps { self.old.has_failed ≡ true → self.new.has_failed ≡ true }
        ensures generation { self.new.generation ≡ self.old.generation }
        ensures from { self.new.from ≡ self.old.from }
        ensures same_disk { self.new.disk.ghost_name ≡ self.old.disk.ghost_name }
        ensures len { D.tells → (n : ℕ) → result ≡ len.Len n → n ≡ length (content_behind (D.view self.old.disk.now)).gives }
        ensures header { D.tells → HasHeader (D.view self.old.disk.now) → HasHeader (D.view self.new.disk.now) }
        ensures rests { D.tells → Rested (content_behind (D.view self.old.disk.now)) (content_behind (D.view self.new.disk.now)) }
        ensures known { self.new.len ≡ self.old.len }
        ensures most { self.new.most ≡ self.old.most }
        ensures have { D.tells → AllHave (D.view self.old.disk.now) self.old.generation → AllHave (D.view self.new.disk.now) self.new.generation }
    {
        if let Some(len) = self.len {
            return DiskLen::Len(len);
        }
        match self.disk.len() {
            DiskLen::Len(len) => DiskLen::Len(len.saturating_sub(HEADER_BYTES)),
            DiskLen::Failed => {
                self.has_failed = true;
                DiskLen::Failed
            }
            DiskLen::Stopped => DiskLen::Stopped,
        }
    }

    /// Raises the generation to this number. What the disk has is synced then, and its length known.
    pub fn raise(&mut self, number: u64) -> DiskAnswer
        ensures may_stop { self.new.may_stop ≡ self.old.may_stop }
        ensures never_stops { self.old.may_stop ≡ false → result ≡ said.Stopped → ⊥ }
        ensures failed { result ≡ said.Failed → self.new.has_failed ≡ true }
        ensures keeps { self.old.has_failed ≡ true → self.new.has_failed ≡ true }
        ensures raised { result ≡ said.Done → self.new.generation.number ≡ number }
        ensures generation { (result ≡ said.Done → ⊥) → self.new.generation ≡ self.old.generation }
        ensures from { self.new.from ≡ self.old.from }
        ensures same_disk { self.new.disk.ghost_name ≡ self.old.disk.ghost_name }
        ensures stays { D.tells → result ≡ said.Done → Stays (content_behind (D.view self.old.disk.now)) (content_behind (D.view self.new.disk.now)) }
        ensures all_synced { D.tells → result ≡ said.Done → AllSynced (content_behind (D.view self.new.disk.now)) }
        ensures saved { D.tells → result ≡ said.Done → (content_behind (D.view self.new.disk.now)).synced ≡ (content_behind (D.view self.new.disk.now)).gives }
        ensures known { result ≡ said.Done → (n : ℕ) × (self.new.len ≡ Some n) }
        ensures have { D.tells → result ≡ said.Done → self.old.generation.number ≤ number → AllHave (D.view self.old.disk.now) self.old.generation → AllHave (D.view self.new.disk.now) self.new.generation }
        ensures most { (n : ℕ) → self.old.most ≤ n → number ≤ n → self.new.most ≤ n }
    {
        let len = match self.known_len() {
            Ok(len) => len,
            Err(fault) => return fault,
        };
        self.len = None;
        self.most = self.most.max(number);
        let answer = raise(self.disk, self.generation, number);
        if answer != DiskAnswer::Done {
            self.note(answer);
            return answer;
        }
        self.generation = self.generation.next(number);
        self.len = Some(len);
        DiskAnswer::Done
    }

    pub fn power_cut(&mut self, choice: Choice) -> DiskAnswer
        ensures may_stop { self.new.may_stop ≡ self.old.may_stop }
        ensures never_stops { result ≡ said.Stopped → ⊥ }
        ensures failed { result ≡ said.Failed → self.new.has_failed ≡ true }
        ensures keeps { self.old.has_failed ≡ true → self.new.has_failed ≡ true }
        ensures generation { self.new.generation ≡ self.old.generation }
        ensures from { self.new.from ≡ self.old.from }
        ensures same_disk { self.new.disk.ghost_name ≡ self.old.disk.ghost_name }
        ensures fewer { D.tells → Fewer (content_behind (D.view self.old.disk.now)) (content_behind (D.view self.new.disk.now)) }
        ensures leaves { D.tells → result ≡ said.Done → (content_behind (D.view self.new.disk.now)).gives ≡ cut choice (content_behind (D.view self.old.disk.now)).gives (content_behind (D.view self.old.disk.now)).synced }
        ensures all_synced { D.tells → result ≡ said.Done → AllSynced (content_behind (D.view self.new.disk.now)) }
        ensures saved { D.tells → result ≡ said.Done → (content_behind (D.view self.new.disk.now)).synced ≡ (content_behind (D.view self.new.disk.now)).gives }
        ensures most { self.new.most ≡ self.old.most }
        ensures have { D.tells → AllHave (D.view self.old.disk.now) self.old.generation → AllHave (D.view self.new.disk.now) self.new.generation }
    {
        self.len = None;
        let answer = self.disk.power_cut(choice);
        self.note(answer);
        answer
    }

    /// Ends an arm.
    pub fn disarm(&mut self)
        ensures may_stop { self.new.may_stop ≡ false }
        ensures failed { self.new.has_failed ≡ self.old.has_failed }
        ensures generation { self.new.generation ≡ self.old.generation }
        ensures from { self.new.from ≡ self.old.from }
        ensures same_disk { self.new.disk.ghost_name ≡ self.old.disk.ghost_name }
        ensures rests { D.tells → Rested (content_behind (D.view self.old.disk.now)) (content_behind (D.view self.new.disk.now)) }
        ensures known { self.new.len ≡ self.old.len }
        ensures most { self.new.most ≡ self.old.most }
        ensures have { D.tells → AllHave (D.view self.old.disk.now) self.old.generation → AllHave (D.view self.new.disk.now) self.new.generation }
    {
        self.disk.disarm();
        self.may_stop = false;
    }

    /// The same where the header is there.
    pub fn known_len(&mut self) -> Result<u64, DiskAnswer>
        ensures may_stop { self.new.may_stop ≡ self.old.may_stop }
        ensures never_stops { self.old.may_stop ≡ false → IsErrOf result said.Stopped → ⊥ }
        ensures failed { IsErrOf result said.Failed → self.new.has_failed ≡ true }
        ensures keeps { self.old.has_failed ≡ true → self.new.has_failed ≡ true }
        ensures generation { self.new.generation ≡ self.old.generation }
        ensures from { self.new.from ≡ self.old.from }
        ensures same_disk { self.new.disk.ghost_name ≡ self.old.disk.ghost_name }
        ensures not_done { IsErrOf result said.Done → ⊥ }
        ensures len { IfOk result (λ len. D.tells → HasLength (D.view self.new.disk.now) len) }
        ensures rests { D.tells → Rested (content_behind (D.view self.old.disk.now)) (content_behind (D.view self.new.disk.now)) }
        ensures known_still { self.new.len ≡ self.old.len }
        ensures have { D.tells → AllHave (D.view self.old.disk.now) self.old.generation → AllHave (D.view self.new.disk.now) self.new.generation }
        ensures most { self.new.most ≡ self.old.most }
    {
        if let Some(len) = self.len {
            return Ok(len);
        }
        match self.disk.len() {
            DiskLen::Len(len) if len >= HEADER_BYTES => Ok(len - HEADER_BYTES),
            DiskLen::Len(_) => Err(DiskAnswer::NoMemory),
            DiskLen::Failed => {
                self.has_failed = true;
                Err(DiskAnswer::Failed)
            }
            DiskLen::Stopped => Err(DiskAnswer::Stopped),
        }
    }

    // A call that failed is noted.
    fn note(&mut self, answer: DiskAnswer)
        requires failed { answer ≡ said.Failed → (before : D) → self.old.from.items ≡ before ∷ [] → Rose (D.counts before).faults (D.counts self.old.disk.now).faults }
        ensures may_stop { self.new.may_stop ≡ self.old.may_stop }
        ensures failed { answer ≡ said.Failed → self.new.has_failed ≡ true }
        ensures keeps { self.old.has_failed ≡ true → self.new.has_failed ≡ true }
        ensures generation { self.new.generation ≡ self.old.generation }
        ensures from { self.new.from ≡ self.old.from }
        ensures same_disk { self.new.disk.ghost_name ≡ self.old.disk.ghost_name }
        ensures disk { self.new.disk.now ≡ self.old.disk.now }
        ensures known { self.new.len ≡ self.old.len }
        ensures most { self.new.most ≡ self.old.most }
        ensures have { D.tells → AllHave (D.view self.old.disk.now) self.old.generation → AllHave (D.view self.new.disk.now) self.new.generation }
    {
        if answer == DiskAnswer::Failed {
            self.has_failed = true;
        }
    }
}

// The length of a content of which the bytes up to this place were written.
fn grown(len: Option<u64>, end: u64) -> Option<u64>
    ensures known { (n : ℕ) → result ≡ Some n → (m : ℕ) × (len ≡ Some m) × (n ≡ max m end) }
    ensures grows { (m : ℕ) → len ≡ Some m → result ≡ Some (max m end) }
{
    match len {
        Some(len) => Some(len.max(end)),
        None => None,
    }
}
