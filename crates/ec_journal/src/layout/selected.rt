// The selected side of a disk: records are added to its journal, and a checkpoint selects the other one.
ghost use Rattle.std.specs.Prelude.{◌≡◌};

use crate::layout::checkpoint::write_checkpoint;
use crate::layout::side::{JOURNAL_BYTES, Side};
use crate::{Journal, JournalFault, Staged};
use ec_disk::{Disk, DiskAnswer};

/// The side that a disk's select byte picks, with its journal.
#[derive(Drop)]
pub struct Selected {
    side: Side,
    journal: Journal,
}

impl Selected {
    ghost use Rattle.std.specs.Prelude.{◌≡◌, ◌⊎◌, ◌<◌, ◌≤◌, ◌+◌, ℕ, Some, length, OnOk, OnErr, IsOk, IsErrOf, MatchBool};
    ghost use Rattle.ec_disk.specs.declared.disk.DiskAnswer.TheVariants as said;
    ghost use Rattle.ec_disk.specs.Effects.{IsSynced, LeavesOnly, Counted, Called};
    ghost use Rattle.ec_journal.specs.Ends.{DidAll, EndsBy, TurnedUpTo};
    ghost use Rattle.ec_journal.specs.RecordBytes.{max_record_bytes};
    ghost use Rattle.ec_journal.specs.Journal.{need_of};
    ghost use Rattle.ec_journal.specs.declared.fault.JournalFault.TheVariants as fault;
    ghost use Rattle.ec_journal.specs.OfLayout.Places as place;
    ghost use Rattle.ec_journal.specs.OfLayout.Sides as sides;
    ghost use Rattle.ec_journal.specs.OfLayout.Layout.{Layout, Lies, Follows};
    ghost use Rattle.ec_journal.specs.OfLayout.Pieces.{pieces_of, AreApart};
    ghost use Rattle.ec_journal.specs.OfLayout.Appends.{with_body, LeavesBody, StopsWith};
    ghost use Rattle.ec_journal.specs.OfLayout.Selected.{IsOn, IsSelected, side_now, free_now};

    /// This side, where the first closed gate of its journal stands `end` bytes behind its first one.
    pub fn new(side: Side, end: u64) -> Selected
        requires { end < place.journal_bytes }
        ensures { IsSelected side end result }
    {
        let journal = Journal::new(side.journal_at(), JOURNAL_BYTES, end);
        Selected { side, journal }
    }

    pub fn side(&self) -> Side
        ensures { result ≡ side_now self.now }
    {
        self.side
    }

    /// Whether the side's journal has room for a record with this body.
    pub fn has_room(&self, body: &[u8]) -> bool
        requires { length body.now ≤ max_record_bytes }
        ensures { MatchBool result (need_of body.now ≤ free_now self.now) (free_now self.now < need_of body.now) }
    {
        self.journal.has_room(body)
    }

    /// Adds a record, by four calls of the disk. At `Ok` it is there after each crash.
    ///
    /// At `NoRoom` there was no call. After a fault of the disk, or want of its memory, the record may be there or not. `Bad` never comes, and
    /// no other memory is taken.
    pub fn append<D: Disk>(&mut self, disk: &mut D, entry: &Staged) -> Result<(), JournalFault>
        ensures ok { OnOk result (D.tells → (l : Layout) → IsOn (D.view disk.old) self.old l → IsOn (D.view disk.new) self.new (with_body entry.now l)) }
        ensures any_moment { D.tells → (l : Layout) → IsOn (D.view disk.old) self.old l → LeavesOnly (D.view disk.old) (D.view disk.new) (LeavesBody l entry.now) }
        ensures synced { OnOk result (D.tells → IsSynced (D.view disk.new)) }
        ensures calls { OnOk result (Called 4 (D.counts disk.old) (D.counts disk.new)) }
        ensures did { OnOk result (DidAll D.does 4 disk.old disk.new) }
        ensures failed { IsErrOf result fault.DiskFailed → EndsBy D.does said.Failed 4 disk.old disk.new }
        ensures stopped { IsErrOf result fault.DiskStopped → EndsBy D.does said.Stopped 4 disk.old disk.new }
        ensures no_memory { IsErrOf result fault.NoMemory → EndsBy D.does said.NoMemory 4 disk.old disk.new }
        ensures turns { TurnedUpTo 4 (D.counts disk.old).armed (D.counts disk.new).armed (IsOk result) (IsErrOf result fault.DiskStopped) }
        // What was synced before it was there has the layout from before.
        ensures old { OnErr result (D.tells → (l : Layout) → IsOn (D.view disk.old) self.old l → Lies (D.view disk.new).synced l) }
        ensures halves { IsErrOf result fault.DiskStopped → D.tells → (turn : ℕ) → (D.counts disk.old).armed ≡ Some turn → (l : Layout) → IsOn (D.view disk.old) self.old l → StopsWith turn (D.view disk.new) l entry.now }
        ensures full { free_now self.old < need_of entry.now → IsErrOf result (fault.NoRoom (need_of entry.now) (free_now self.old)) }
        ensures no_room { (need free : ℕ) → IsErrOf result (fault.NoRoom need free) → (need ≡ need_of entry.now) × (free ≡ free_now self.old) × (free < need) × (disk.new ≡ disk.old) }
        ensures no_bad { (at : ℕ) → IsErrOf result (fault.Bad at) → ⊥ }
        ensures counts { Counted (D.counts disk.old) (D.counts disk.new) (IsErrOf result fault.DiskFailed) (IsErrOf result fault.DiskStopped) }
        ensures err { OnErr result (self.new ≡ self.old) }
    {
        self.journal.append_staged(disk, entry)?;
        Ok(())
    }

    /// Writes the pieces to slots that this side doesn't name, and the other side with this table and an empty journal; then selects it. There
    /// is a call of the disk for each piece, and five.
    pub fn checkpoint<D: Disk>(
        &mut self,
        disk: &mut D,
        pieces: &[(u32, Vec<u8>)],
        table: &[u8],
    ) -> DiskAnswer
        requires apart { AreApart (pieces_of pieces.now) }
        requires small { length table.now ≤ place.table_bytes }
        ensures done { D.tells → result ≡ said.Done → (before after : Layout) → Follows (sides.other (side_now self.old)) table.now (pieces_of pieces.now) before after → IsOn (D.view disk.old) self.old before → IsOn (D.view disk.new) self.new after }
        ensures any_moment { D.tells → (before after : Layout) → Follows (sides.other (side_now self.old)) table.now (pieces_of pieces.now) before after → IsOn (D.view disk.old) self.old before → LeavesOnly (D.view disk.old) (D.view disk.new) (λ image. Lies image before ⊎ Lies image after) }
        ensures synced { D.tells → result ≡ said.Done → IsSynced (D.view disk.new) }
        ensures empty { result ≡ said.Done → IsSelected (sides.other (side_now self.old)) 0 self.new }
        ensures calls { result ≡ said.Done → Called (length pieces.now + 5) (D.counts disk.old) (D.counts disk.new) }
        ensures did { result ≡ said.Done → DidAll D.does (length pieces.now + 5) disk.old disk.new }
        ensures ends { (result ≡ said.Done → ⊥) → EndsBy D.does result (length pieces.now + 5) disk.old disk.new }
        ensures turns { TurnedUpTo (length pieces.now + 5) (D.counts disk.old).armed (D.counts disk.new).armed (result ≡ said.Done) (result ≡ said.Stopped) }
        // What was synced before it was done has the old layout.
        ensures old { D.tells → (result ≡ said.Done → ⊥) → (before after : Layout) → Follows (sides.other (side_now self.old)) table.now (pieces_of pieces.now) before after → IsOn (D.view disk.old) self.old before → Lies (D.view disk.new).synced before }
        ensures counts { Counted (D.counts disk.old) (D.counts disk.new) (result ≡ said.Failed) (result ≡ said.Stopped) }
    {
        let side = self.side.other();
        let answer = write_checkpoint(disk, side, pieces, table);
        if answer == DiskAnswer::Done {
            *self = Selected::new(side, 0);
        }
        answer
    }
}
