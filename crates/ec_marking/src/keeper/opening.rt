// Opening a disk, whatever stands there.
ghost use Rattle.std.specs.Prelude.{◌≡◌, ◌≤◌, ℕ, length, IfOk, OnOk, IsErrOf};
ghost use Rattle.ec_disk.specs.Effects.{IsSynced, LeavesOnly, Counted};
ghost use Rattle.ec_durable.specs.Durable.{formatted};
ghost use Rattle.ec_durable.specs.WellFormed.{least_max_objects, most_max_objects};
ghost use Rattle.ec_durable.specs.declared.record.RecordFault.{RecordFault};
ghost use Rattle.ec_stands.specs.Stands.{StandsFor, IsBadAt};
ghost use Rattle.ec_store.specs.Opening.{WasLeftOrStands};
ghost use Rattle.ec_store.specs.Store.{IsHeld, view_of};
ghost use Rattle.ec_store.specs.declared.fault.StoreFault.TheVariants as fault;

use ec_disk::{Disk, DiskLen};
use ec_store::{Store, StoreFault};
use std::alloc::Global;

/// Opens what a disk holds. An empty one is laid out first, for a volume of 32 to 1,024 objects, which has the root alone; to any other
/// that number means nothing.
pub fn open<D: Disk>(alloc: Global, disk: &mut D, max_objects: u32) -> Result<Store, StoreFault>
    requires least { least_max_objects ≤ max_objects }
    requires limit { max_objects ≤ most_max_objects }
    ensures empty { IfOk result (λ store. D.tells → length (D.view disk.old).gives ≡ 0 → view_of store ≡ formatted max_objects) }
    ensures stands { IfOk result (λ store. D.tells → (length (D.view disk.old).gives ≡ 0 → ⊥) → StandsFor (D.view disk.old).gives (view_of store)) }
    ensures held { IfOk result (λ store. D.tells → IsHeld (D.view disk.new) store) }
    ensures synced { OnOk result (D.tells → IsSynced (D.view disk.new)) }
    ensures bad { (place : ℕ) → IsErrOf result (fault.BadDisk place) → D.tells → IsBadAt (D.view disk.old).gives place }
    // Each image that a crash since might leave is one that it might have left before, or stands for the state that the disk stood for.
    ensures any_moment { D.tells → (length (D.view disk.old).gives ≡ 0 → ⊥) → LeavesOnly (D.view disk.old) (D.view disk.new) (WasLeftOrStands (D.view disk.old)) }
    ensures no_refusal { (f : RecordFault) → IsErrOf result (fault.Refused f) → ⊥ }
    ensures counts { Counted (D.counts disk.old) (D.counts disk.new) (IsErrOf result fault.DiskFailed) (IsErrOf result fault.DiskStopped) }
{
    let bytes = match disk.len() {
        DiskLen::Len(bytes) => bytes,
        DiskLen::Failed => return Err(StoreFault::DiskFailed),
        DiskLen::Stopped => return Err(StoreFault::DiskStopped),
    };
    if bytes == 0 {
        Store::format(alloc, disk, max_objects)
    } else {
        Store::open(alloc, disk)
    }
}
