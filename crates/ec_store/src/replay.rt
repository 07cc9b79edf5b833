// The records of a journal are carried out again.
ghost use Rattle.std.specs.Prelude.{◌≡◌, ◌⊎◌, ◌≤◌, ◌<◌, ℕ, false, length, IfOk, OnOk, IsErrOf};
ghost use Rattle.ec_volume.specs.Update.{member};
ghost use Rattle.ec_volume.specs.Volume.{images};
ghost use Rattle.ec_codes.specs.declared.fault.CodeFault.TheVariants as code;
ghost use Rattle.ec_durable.specs.WellFormed.{WellFormed};
ghost use Rattle.ec_durable.specs.declared.record.RecordFault.{RecordFault};
ghost use Rattle.ec_durable.specs.declared.record.RecordFault.TheVariants as refusal;
ghost use Rattle.ec_journal.specs.Records.{records};
ghost use Rattle.ec_journal.specs.OfLayout.Places.{journal_bytes};
ghost use Rattle.ec_stands.specs.Stands.{StepsTo, IsRefused};
ghost use Rattle.ec_store.specs.Replay.{Steps, Spares, Avoids, IsUntouched, HasRefused};
ghost use Rattle.ec_store.specs.declared.fault.StoreFault.TheVariants as fault;

use crate::fault::StoreFault;
use crate::plan::touched;
use crate::stepping::step;
use ec_base::{List, ObjId};
use ec_codes::CodeFault;
use ec_durable::{Durable, RecordFault, decode};
use std::alloc::Global;

// A gate and a length stand in front of a body.
const HEAD_BYTES: u64 = 5;

/// Carries out the records of these bodies, which stand from the place `at` on. The ids are those of the objects that they have as operands.
///
/// `BadDisk` shows the place of the first record that isn't one, or that the state refuses.
pub(crate) fn replay(
    alloc: Global,
    state: &mut Durable,
    at: u64,
    bodies: &[List<u8>],
) -> Result<Vec<ObjId>, StoreFault>
    requires formed { WellFormed state.old }
    requires place { at ≤ 4294967296 }
    ensures steps { OnOk result (StepsTo bodies.now state.old state.new) }
    ensures formed { OnOk result (WellFormed state.new) }
    ensures spares { IfOk result (λ ids. Spares ids.items state.old state.new) }
    ensures touches { IfOk result (λ ids. (o : ℕ) → IsUntouched o bodies.now → member o ids.items ≡ false) }
    ensures bad { (p : ℕ) → IsErrOf result (fault.BadDisk p) → length (records bodies.now) < journal_bytes → HasRefused at state.old bodies.now p }
    ensures no_disk { IsErrOf result fault.DiskFailed → ⊥ }
    ensures no_stop { IsErrOf result fault.DiskStopped → ⊥ }
    ensures no_refusal { (f : RecordFault) → IsErrOf result (fault.Refused f) → ⊥ }
{
    let mut ids = Vec::new(alloc);
    let mut gate = at;
    'bodies: for body in bodies {
        replay_one(alloc, state, gate, body.as_slice(), &mut ids)?;
        gate = gate.saturating_add(HEAD_BYTES + body.as_slice().len() as u64);
    }
    Ok(ids)
}

// Carries out the record of a body, and adds its operands.
fn replay_one(
    alloc: Global,
    state: &mut Durable,
    gate: u64,
    body: &[u8],
    ids: &mut Vec<ObjId>,
) -> Result<(), StoreFault>
    requires formed { WellFormed state.old }
    ensures ok { OnOk result (Steps body.now state.old state.new) }
    ensures formed { OnOk result (WellFormed state.new) }
    ensures spares { OnOk result ((o : ℕ) → member o ids.new.items ≡ false → (member o ids.old.items ≡ false) × (images state.new.volume o ≡ images state.old.volume o)) }
    ensures touches { OnOk result ((o : ℕ) → Avoids o body.now → member o ids.old.items ≡ false → member o ids.new.items ≡ false) }
    ensures bad { (p : ℕ) → IsErrOf result (fault.BadDisk p) → (p ≡ gate) × IsRefused body.now state.old }
    ensures no_disk { IsErrOf result fault.DiskFailed → ⊥ }
    ensures no_stop { IsErrOf result fault.DiskStopped → ⊥ }
    ensures no_refusal { (f : RecordFault) → IsErrOf result (fault.Refused f) → ⊥ }
{
    let change = match decode(alloc, body) {
        Ok(change) => change,
        Err(found) => return Err(undecoded(gate, found)),
    };
    let Ok(operands) = touched(alloc, &change) else {
        drop(change);
        return Err(StoreFault::NoMemory);
    };
    let stepped = step(alloc, state, &change, operands.as_slice());
    drop(change);
    if let Err(refused) = stepped {
        return Err(unstepped(gate, refused));
    }
    ids.extend_from_slice(operands.as_slice())?;
    Ok(())
}

fn undecoded(gate: u64, found: CodeFault) -> StoreFault
    ensures bad { (p : ℕ) → result ≡ fault.BadDisk p → (p ≡ gate) × (found ≡ code.NoMemory → ⊥) }
    ensures kind { (result ≡ fault.BadDisk gate) ⊎ (result ≡ fault.NoMemory) }
{
    match found {
        CodeFault::NoMemory => StoreFault::NoMemory,
        CodeFault::Short(_) | CodeFault::Field(_) => StoreFault::BadDisk(gate),
    }
}

fn unstepped(gate: u64, refused: RecordFault) -> StoreFault
    ensures bad { (p : ℕ) → result ≡ fault.BadDisk p → (p ≡ gate) × (refused ≡ refusal.NoMemory → ⊥) }
    ensures kind { (result ≡ fault.BadDisk gate) ⊎ (result ≡ fault.NoMemory) }
{
    match refused {
        RecordFault::NoMemory => StoreFault::NoMemory,
        _ => StoreFault::BadDisk(gate),
    }
}
