// Power cuts: what one leaves of a record under way.
ghost use Rattle.std.specs.Prelude.{◌≡◌, ◌⊎◌, ℕ, List, None, Ok, IfOk, OnOk, IsErrOf};
ghost use Rattle.ec_disk.specs.Effects.{Counted};
ghost use Rattle.ec_durable.specs.Durable.{step};
ghost use Rattle.ec_durable.specs.declared.record.Record.{Record as Change};
ghost use Rattle.ec_durable.specs.declared.record.RecordFault.{RecordFault};
ghost use Rattle.ec_durable.specs.declared.state.Durable.{Durable};
ghost use Rattle.ec_stands.specs.Stands.{StandsFor};
ghost use Rattle.ec_store.specs.Store.{IsHeld, view_of};
ghost use Rattle.ec_store.specs.declared.fault.StoreFault.TheVariants as store_fault;
ghost use Rattle.ec_marking.specs.KeptRuns.{LeavesEither};
ghost use Rattle.ec_world.specs.Cutting.{LeavesBy, left_of};
ghost use Rattle.ec_marking.specs.Signs.{sign_of};
ghost use Rattle.ec_clerk.specs.declared.running.fault.StepFault.TheVariants as fault;

use ec_clerk::running::StepFault;
use ec_disk::{Choice, CrashDisk, Disk, DiskAnswer};
use ec_marking::Sign;
use ec_store::{Store, StoreFault};
use std::alloc::Global;

// Cuts the power, opens what is left, and tells whether the record of this sign is in it.
pub(crate) fn cut_power<D: CrashDisk>(
    alloc: Global,
    disk: &mut D,
    choice: Choice,
    sign: Sign,
) -> Result<(Store, bool), StepFault>
    // Of a record that the state takes, what is left is the state before it or the stepped one, and its sign tells which.
    ensures found { IfOk result (λ left. D.tells → (r : Change) (d e : Durable) → sign ≡ sign_of r → step r d ≡ Ok e → LeavesEither r d (D.view disk.old) → view_of left.0 ≡ left_of left.1 d e) }
    ensures chosen { IfOk result (λ left. D.tells → (r : Change) (d e : Durable) → sign ≡ sign_of r → step r d ≡ Ok e → LeavesBy choice d e (D.view disk.old) left.1) }
    ensures held { IfOk result (λ left. D.tells → IsHeld (D.view disk.new) left.0) }
    // At a fault too nothing else is left.
    ensures left { D.tells → (r : Change) (d : Durable) → LeavesEither r d (D.view disk.old) → LeavesEither r d (D.view disk.new) }
    ensures faults { (f : StepFault) → IsErrOf result f → (f ≡ fault.DiskFailed) ⊎ (f ≡ fault.NoMemory) }
    ensures disarmed { OnOk result ((D.counts disk.new).armed ≡ None) }
    ensures counts { Counted (D.counts disk.old) (D.counts disk.new) (IsErrOf result fault.DiskFailed) ⊥ }
{
    match disk.power_cut(choice) {
        DiskAnswer::Done => {}
        DiskAnswer::Failed => return Err(StepFault::DiskFailed),
        DiskAnswer::Stopped => unreachable!(),
        DiskAnswer::NoMemory => return Err(StepFault::NoMemory),
    }
    match open_left(alloc, disk) {
        Ok(store) => {
            let is_there = sign.is_in(store.view());
            Ok((store, is_there))
        }
        Err(StoreFault::DiskFailed) => Err(StepFault::DiskFailed),
        Err(StoreFault::DiskStopped | StoreFault::Refused(_)) => unreachable!(),
        // What is left of a record has no bad place, as far as a disk tells its content.
        Err(StoreFault::BadDisk(_) | StoreFault::NoMemory) => Err(StepFault::NoMemory),
    }
}

// Opens what a power cut left. The disk isn't armed, so it doesn't stop.
fn open_left<D: Disk>(alloc: Global, disk: &mut D) -> Result<Store, StoreFault>
    requires not_armed { (D.counts disk.old).armed ≡ None }
    ensures stands { IfOk result (λ store. D.tells → StandsFor (D.view disk.old).gives (view_of store)) }
    ensures held { IfOk result (λ store. D.tells → IsHeld (D.view disk.new) store) }
    ensures left { D.tells → (r : Change) (d : Durable) → LeavesEither r d (D.view disk.old) → LeavesEither r d (D.view disk.new) }
    ensures not_bad { (place : ℕ) → IsErrOf result (store_fault.BadDisk place) → D.tells → (r : Change) (d : Durable) → LeavesEither r d (D.view disk.old) → ⊥ }
    ensures no_refusal { (f : RecordFault) → IsErrOf result (store_fault.Refused f) → ⊥ }
    ensures no_stop { IsErrOf result store_fault.DiskStopped → ⊥ }
    ensures counts { Counted (D.counts disk.old) (D.counts disk.new) (IsErrOf result store_fault.DiskFailed) ⊥ }
{
    Store::open(alloc, disk)
}
