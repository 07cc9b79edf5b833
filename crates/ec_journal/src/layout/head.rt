// The first 16 bytes of a disk.
ghost use Rattle.std.specs.Prelude.{◌≡◌, IfOk, OnOk, IsErrOf, ℕ};
ghost use Rattle.ec_disk.specs.Effects.{IsSynced, LeavesOnly, Counted, Called};
ghost use Rattle.ec_journal.specs.declared.fault.JournalFault.TheVariants as fault;
ghost use Rattle.ec_journal.specs.OfLayout.Layout.{Layout, IsLaid};
ghost use Rattle.ec_journal.specs.OfLayout.Heads.{IsHeaded, AwaitsHead, LiesIfWhole, second_word};

use crate::{JournalFault, write_synced};
use ec_disk::Disk;

/// The first word of each disk.
pub const FIRST_WORD: [u8; 8] = *b"ECHOFS1\n";

/// The bytes behind the select byte.
pub const FORM: [u8; 3] = [1, 0, 0];

/// Writes the second word and then the first one, each with a sync: the last four calls of a format. `Bad` and `NoRoom` never come.
///
/// Whatever a crash leaves, the layout lies there wherever the first word is right.
pub fn write_head<D: Disk>(disk: &mut D, max_objects: u32) -> Result<(), JournalFault>
    ensures any_moment { D.tells → (l : Layout) → IsHeaded max_objects l → AwaitsHead (D.view disk.old) l → LeavesOnly (D.view disk.old) (D.view disk.new) (LiesIfWhole l) }
    ensures done { OnOk result (D.tells → (l : Layout) → IsHeaded max_objects l → AwaitsHead (D.view disk.old) l → IsLaid (D.view disk.new) l) }
    ensures synced { OnOk result (D.tells → IsSynced (D.view disk.new)) }
    ensures calls { OnOk result (Called 4 (D.counts disk.old) (D.counts disk.new)) }
    ensures counts { Counted (D.counts disk.old) (D.counts disk.new) (IsErrOf result fault.DiskFailed) (IsErrOf result fault.DiskStopped) }
    ensures no_room { (need free : ℕ) → IsErrOf result (fault.NoRoom need free) → ⊥ }
    ensures no_bad { (place : ℕ) → IsErrOf result (fault.Bad place) → ⊥ }
{
    write_synced(disk, 8, &second_word(max_objects))?;
    write_synced(disk, 0, &FIRST_WORD)?;
    Ok(())
}

// The most objects, the select byte of the even side, and the layout's form.
fn second_word(max_objects: u32) -> [u8; 8]
    ensures { result ≡ second_word max_objects }
{
    let most = max_objects.to_be_bytes();
    [most[0], most[1], most[2], most[3], 0, 1, 0, 0]
}
