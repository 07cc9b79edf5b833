// A checkpoint: the other side and free slots are written and synced, then the select byte.
ghost use Rattle.std.specs.Prelude.{◌≡◌, ◌⊎◌, ◌<◌, ◌≤◌, ◌+◌, ℕ, [], length};
ghost use Rattle.ec_disk.specs.declared.disk.DiskAnswer.TheVariants as said;
ghost use Rattle.ec_disk.specs.Disk.{byte};
ghost use Rattle.ec_disk.specs.Effects.{InRange, IsSynced, LeavesOnly, Counted, Called, written};
ghost use Rattle.ec_disk.specs.Runs.{Ran};
ghost use Rattle.ec_journal.specs.Ends.{DidAll, EndsBy, TurnedUpTo};
ghost use Rattle.ec_journal.specs.OfLayout.Places as place;
ghost use Rattle.ec_journal.specs.OfLayout.Sides as sides;
ghost use Rattle.ec_journal.specs.OfLayout.Layout.{Layout, Lies, IsLaid, HasSide, HasSlots, Follows};
ghost use Rattle.ec_journal.specs.OfLayout.Pieces.{pieces_of, AreApart, InPieces};
ghost use Rattle.ec_journal.specs.OfLayout.Traces.{NoSync, FirstSync};

use crate::layout::side::{SELECT_AT, Side};
use crate::layout::slots::write_slots;
use ec_disk::{Disk, DiskAnswer};

// The gate that an empty journal begins with, which isn't open.
const CLOSED: u8 = 0;

/// Writes the pieces to their slots, the table of this side and the closed first gate of its journal, and syncs: a call of the disk for each
/// piece, and three.
pub fn prepare<D: Disk>(
    disk: &mut D,
    side: Side,
    pieces: &[(u32, Vec<u8>)],
    table: &[u8],
) -> DiskAnswer
    requires apart { AreApart (pieces_of pieces.now) }
    requires small { length table.now ≤ place.table_bytes }
    ensures ran { D.tells → Ran (InPieces side (pieces_of pieces.now)) (D.view disk.old) (D.view disk.new) }
    ensures side { D.tells → result ≡ said.Done → HasSide (D.view disk.new).gives side table.now [] }
    ensures slots { D.tells → result ≡ said.Done → HasSlots (D.view disk.new).gives (pieces_of pieces.now) }
    ensures front { D.tells → result ≡ said.Done → (i : ℕ) → i < sides.journals_at → byte (D.view disk.new).gives i ≡ byte (D.view disk.old).gives i }
    ensures synced { D.tells → result ≡ said.Done → IsSynced (D.view disk.new) }
    ensures calls { result ≡ said.Done → Called (length pieces.now + 3) (D.counts disk.old) (D.counts disk.new) }
    ensures did { result ≡ said.Done → DidAll D.does (length pieces.now + 3) disk.old disk.new }
    ensures ends { (result ≡ said.Done → ⊥) → EndsBy D.does result (length pieces.now + 3) disk.old disk.new }
    ensures turns { TurnedUpTo (length pieces.now + 3) (D.counts disk.old).armed (D.counts disk.new).armed (result ≡ said.Done) (result ≡ said.Stopped) }
    ensures saved { D.tells → result ≡ said.Done → (D.view disk.new).synced ≡ (D.view disk.new).gives }
    ensures kept { D.tells → (result ≡ said.Done → ⊥) → (D.view disk.new).synced ≡ (D.view disk.old).synced }
    // The sync is the first one.
    ensures unsynced { (result ≡ said.Done → ⊥) → NoSync D.does disk.old disk.new }
    ensures first { result ≡ said.Done → FirstSync D.does disk.old disk.new }
    ensures counts { Counted (D.counts disk.old) (D.counts disk.new) (result ≡ said.Failed) (result ≡ said.Stopped) }
{
    let written = write_side(disk, side, pieces, table);
    if written != DiskAnswer::Done {
        return written;
    }
    disk.sync()
}

fn write_side<D: Disk>(
    disk: &mut D,
    side: Side,
    pieces: &[(u32, Vec<u8>)],
    table: &[u8],
) -> DiskAnswer
    requires apart { AreApart (pieces_of pieces.now) }
    requires small { length table.now ≤ place.table_bytes }
    ensures ran { D.tells → Ran (InPieces side (pieces_of pieces.now)) (D.view disk.old) (D.view disk.new) }
    ensures side { D.tells → result ≡ said.Done → HasSide (D.view disk.new).gives side table.now [] }
    ensures slots { D.tells → result ≡ said.Done → HasSlots (D.view disk.new).gives (pieces_of pieces.now) }
    ensures front { D.tells → result ≡ said.Done → (i : ℕ) → i < sides.journals_at → byte (D.view disk.new).gives i ≡ byte (D.view disk.old).gives i }
    ensures calls { result ≡ said.Done → Called (length pieces.now + 2) (D.counts disk.old) (D.counts disk.new) }
    ensures did { result ≡ said.Done → DidAll D.does (length pieces.now + 2) disk.old disk.new }
    ensures ends { (result ≡ said.Done → ⊥) → EndsBy D.does result (length pieces.now + 2) disk.old disk.new }
    ensures turns { TurnedUpTo (length pieces.now + 2) (D.counts disk.old).armed (D.counts disk.new).armed (result ≡ said.Done) (result ≡ said.Stopped) }
    ensures kept { D.tells → (D.view disk.new).synced ≡ (D.view disk.old).synced }
    ensures unsynced { NoSync D.does disk.old disk.new }
    ensures counts { Counted (D.counts disk.old) (D.counts disk.new) (result ≡ said.Failed) (result ≡ said.Stopped) }
{
    let answer = write_slots(disk, pieces);
    if answer != DiskAnswer::Done {
        return answer;
    }
    let answer = disk.write_at(side.table_at(), table);
    if answer != DiskAnswer::Done {
        return answer;
    }
    disk.write_at(side.journal_at(), &[CLOSED])
}

/// Turns the select byte to this side, and syncs: two calls of the disk.
pub fn select<D: Disk>(disk: &mut D, side: Side) -> DiskAnswer
    ensures ran { D.tells → Ran (InRange sides.select_at 1) (D.view disk.old) (D.view disk.new) }
    ensures turned { D.tells → result ≡ said.Done → byte (D.view disk.new).gives sides.select_at ≡ sides.select_byte side }
    ensures synced { D.tells → result ≡ said.Done → IsSynced (D.view disk.new) }
    ensures calls { result ≡ said.Done → Called 2 (D.counts disk.old) (D.counts disk.new) }
    ensures did { result ≡ said.Done → DidAll D.does 2 disk.old disk.new }
    ensures ends { (result ≡ said.Done → ⊥) → EndsBy D.does result 2 disk.old disk.new }
    ensures turns { TurnedUpTo 2 (D.counts disk.old).armed (D.counts disk.new).armed (result ≡ said.Done) (result ≡ said.Stopped) }
    ensures kept { D.tells → (result ≡ said.Done → ⊥) → (D.view disk.new).synced ≡ (D.view disk.old).synced }
    ensures counts { Counted (D.counts disk.old) (D.counts disk.new) (result ≡ said.Failed) (result ≡ said.Stopped) }
{
    let answer = disk.write_at(SELECT_AT, &[side.select_byte()]);
    if answer != DiskAnswer::Done {
        return answer;
    }
    disk.sync()
}

/// Writes the pieces to slots that the selected side doesn't name, and the other `side` with this table and an empty journal; then picks it.
///
/// There is a call of the disk for each piece, and five. Whatever a crash leaves, one of the two layouts lies there whole; at `Done` it's the
/// new one.
pub fn write_checkpoint<D: Disk>(
    disk: &mut D,
    side: Side,
    pieces: &[(u32, Vec<u8>)],
    table: &[u8],
) -> DiskAnswer
    requires apart { AreApart (pieces_of pieces.now) }
    requires small { length table.now ≤ place.table_bytes }
    ensures any_moment { D.tells → (before after : Layout) → Follows side table.now (pieces_of pieces.now) before after → IsLaid (D.view disk.old) before → LeavesOnly (D.view disk.old) (D.view disk.new) (λ image. Lies image before ⊎ Lies image after) }
    ensures done { D.tells → result ≡ said.Done → (before after : Layout) → Follows side table.now (pieces_of pieces.now) before after → IsLaid (D.view disk.old) before → IsLaid (D.view disk.new) after }
    ensures synced { D.tells → result ≡ said.Done → IsSynced (D.view disk.new) }
    ensures calls { result ≡ said.Done → Called (length pieces.now + 5) (D.counts disk.old) (D.counts disk.new) }
    ensures did { result ≡ said.Done → DidAll D.does (length pieces.now + 5) disk.old disk.new }
    ensures ends { (result ≡ said.Done → ⊥) → EndsBy D.does result (length pieces.now + 5) disk.old disk.new }
    ensures turns { TurnedUpTo (length pieces.now + 5) (D.counts disk.old).armed (D.counts disk.new).armed (result ≡ said.Done) (result ≡ said.Stopped) }
    // What was synced before it was done has the old layout.
    ensures old { D.tells → (result ≡ said.Done → ⊥) → (before after : Layout) → Follows side table.now (pieces_of pieces.now) before after → IsLaid (D.view disk.old) before → Lies (D.view disk.new).synced before }
    ensures counts { Counted (D.counts disk.old) (D.counts disk.new) (result ≡ said.Failed) (result ≡ said.Stopped) }
{
    let answer = prepare(disk, side, pieces, table);
    if answer != DiskAnswer::Done {
        return answer;
    }
    select(disk, side)
}
