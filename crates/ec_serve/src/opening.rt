// Opening a server's disk.
ghost use Rattle.std.specs.Prelude.{◌≡◌, ℕ, length, IfOk, IsErrOf};
ghost use Rattle.ec_disk.specs.Effects.{Counted};
ghost use Rattle.ec_stands.specs.Stands.{IsBadAt};
ghost use Rattle.ec_store.specs.Store.{IsHeld, view_of};
ghost use Rattle.ec_store.specs.declared.fault.StoreFault.TheVariants as fault;
ghost use Rattle.ec_serve.specs.Serve.{Opens};

use ec_disk::{Disk, DiskLen};
use ec_store::{Store, StoreFault};
use std::alloc::Global;

/// A disk is formatted for a volume of so many objects.
pub const MOST_OBJECTS: u32 = 1_024;

/// Opens what a disk holds. An empty one is laid out first. Faults are the store's: a disk that stands for no state, with its first
/// bad place, is left as it is; a disk may fail or stop, and memory may be wanting.
pub fn store_on<D: Disk>(alloc: Global, disk: &mut D) -> Result<Store, StoreFault>
    ensures opens { IfOk result (λ store. Opens D.tells (D.view disk.old).gives (view_of store)) }
    ensures held { IfOk result (λ store. D.tells → IsHeld (D.view disk.new) store) }
    ensures bad { (place : ℕ) → IsErrOf result (fault.BadDisk place) → D.tells → (length (D.view disk.old).gives ≡ 0 → ⊥) × IsBadAt (D.view disk.old).gives place × ((D.view disk.new).gives ≡ (D.view disk.old).gives) }
    ensures counts { Counted (D.counts disk.old) (D.counts disk.new) (IsErrOf result fault.DiskFailed) (IsErrOf result fault.DiskStopped) }
{
    let bytes = match disk.len() {
        DiskLen::Len(bytes) => bytes,
        DiskLen::Failed => return Err(StoreFault::DiskFailed),
        DiskLen::Stopped => return Err(StoreFault::DiskStopped),
    };
    if bytes == 0 {
        Store::format(alloc, disk, MOST_OBJECTS)
    } else {
        Store::open(alloc, disk)
    }
}
