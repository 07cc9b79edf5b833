// Slots, each of which holds one image.
ghost use Rattle.std.specs.Prelude.{◌≡◌, ◌<◌, ℕ, length};
ghost use Rattle.ec_disk.specs.declared.disk.DiskAnswer.TheVariants as said;
ghost use Rattle.ec_disk.specs.Disk.{byte};
ghost use Rattle.ec_disk.specs.Effects.{Counted, Called};
ghost use Rattle.ec_disk.specs.Runs.{Ran};
ghost use Rattle.ec_journal.specs.Ends.{DidAll, EndsBy, TurnedUpTo};
ghost use Rattle.ec_journal.specs.OfLayout.Places as place;
ghost use Rattle.ec_journal.specs.OfLayout.Layout.{HasSlots};
ghost use Rattle.ec_journal.specs.OfLayout.Pieces.{pieces_of, AreApart, InSlots};
ghost use Rattle.ec_journal.specs.OfLayout.Traces.{NoSync};

use ec_disk::{Disk, DiskAnswer};

/// Bytes for a slot's id and image.
pub const SLOT_BYTES: u64 = 65_600;

// The place of slot 0.
const SLOTS_AT: u64 = 4_329_472;

/// The place of a slot.
pub fn slot_at(slot: u32) -> u64
    ensures { result ≡ place.slot_at slot }
{
    SLOTS_AT + slot as u64 * SLOT_BYTES
}

/// Writes these bytes to their slots, a call of the disk for each one.
pub fn write_slots<D: Disk>(disk: &mut D, pieces: &[(u32, Vec<u8>)]) -> DiskAnswer
    requires apart { AreApart (pieces_of pieces.now) }
    ensures ran { D.tells → Ran (InSlots (pieces_of pieces.now)) (D.view disk.old) (D.view disk.new) }
    ensures written { D.tells → result ≡ said.Done → HasSlots (D.view disk.new).gives (pieces_of pieces.now) }
    ensures below { D.tells → result ≡ said.Done → (i : ℕ) → i < place.slot_at 0 → byte (D.view disk.new).gives i ≡ byte (D.view disk.old).gives i }
    ensures calls { result ≡ said.Done → Called (length pieces.now) (D.counts disk.old) (D.counts disk.new) }
    ensures did { result ≡ said.Done → DidAll D.does (length pieces.now) disk.old disk.new }
    ensures ends { (result ≡ said.Done → ⊥) → EndsBy D.does result (length pieces.now) disk.old disk.new }
    ensures turns { TurnedUpTo (length pieces.now) (D.counts disk.old).armed (D.counts disk.new).armed (result ≡ said.Done) (result ≡ said.Stopped) }
    ensures kept { D.tells → (D.view disk.new).synced ≡ (D.view disk.old).synced }
    ensures unsynced { NoSync D.does disk.old disk.new }
    ensures counts { Counted (D.counts disk.old) (D.counts disk.new) (result ≡ said.Failed) (result ≡ said.Stopped) }
{
    'slots: for piece in pieces {
        let answer = disk.write_at(slot_at(piece.0), piece.1.as_slice());
        if answer != DiskAnswer::Done {
            return answer;
        }
    }
    DiskAnswer::Done
}
