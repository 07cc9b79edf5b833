// A record steps the state in place. A batch of several operations is tried first, on copies of its operands' images where need be, so that a refusal changes nothing.
ghost use Rattle.std.specs.Prelude.{◌≡◌, IfOk, OnOk, OnErr, IfErr, Err, Ok};
ghost use Rattle.std.specs.List.{flat_map};
ghost use Rattle.ec_volume.specs.Update.{member, operands, fits};
ghost use Rattle.ec_volume.specs.Volume.{images};
ghost use Rattle.ec_durable.specs.declared.record.RecordFault.{RecordFault};
ghost use Rattle.ec_durable.specs.Durable.{step};
ghost use Rattle.ec_durable.specs.Steps.{AreSound, AreSoundOps, IdsAreBelow, RefusesRecord};
ghost use Rattle.ec_store.specs.Places.{touched};
ghost use Rattle.ec_store.specs.Stepping.{picked, behind, all_fit_ahead, fits_ahead, tried, IsBatchOf, IsSpare, IsTried};

use ec_base::{Duplicate, List, NoMemory, ObjId, OpNo};
use ec_durable::{Durable, Record, RecordFault};
use ec_volume::{ApplyFault, Image, Update, Volume};
use std::alloc::Global;
use std::mem;

/// Carries out a record, whose operands these are, or tells why it's refused; then nothing has changed.
///
/// Where memory runs out, the state is the old one or a formatted one.
pub(crate) fn step(
    alloc: Global,
    state: &mut Durable,
    change: &Record,
    ids: &[ObjId],
) -> Result<(), RecordFault>
    requires sound { AreSound change.now }
    requires below { IdsAreBelow state.old }
    requires ids { ids.now ≡ touched change.now }
    ensures ok { OnOk result (step change.now state.old ≡ Ok state.new) }
    ensures refused { IfErr result (λ fault. RefusesRecord fault (step change.now state.old)) }
    ensures unchanged { OnErr result ((f : RecordFault) → step change.now state.old ≡ Err f → state.new ≡ state.old) }
    ensures err { OnErr result (IsSpare state.old state.new) }
{
    match change {
        Record::Batch(clerk, session, batch, ops) if ops.as_slice().len() > 1 => {
            let empty = Record::Batch(*clerk, *session, *batch, List::of(Vec::new(alloc)));
            step_batch(alloc, state, change, &empty, ops.as_slice(), ids)
        }
        _ => state.step(change),
    }
}

// Where each update fits the volume as it stands, and leaves the others fitting, the number of the batch alone is tried.
fn step_batch(
    alloc: Global,
    state: &mut Durable,
    change: &Record,
    empty: &Record,
    ops: &[(OpNo, Update)],
    ids: &[ObjId],
) -> Result<(), RecordFault>
    requires batch { IsBatchOf ops.now change.now empty.now }
    requires sound { AreSoundOps ops.now }
    requires below { IdsAreBelow state.old }
    requires ids { ids.now ≡ flat_map (λ op. operands op.1) ops.now }
    ensures ok { OnOk result (step change.now state.old ≡ Ok state.new) }
    ensures refused { IfErr result (λ fault. RefusesRecord fault (step change.now state.old)) }
    ensures unchanged { OnErr result ((f : RecordFault) → step change.now state.old ≡ Err f → state.new ≡ state.old) }
    ensures err { OnErr result (IsSpare state.old state.new) }
{
    if all_fit_ahead(&state.volume, ops) {
        let part = Volume::of(Vec::new(alloc))?;
        step_over(alloc, state, part, empty, ops)
    } else {
        let part = pick(alloc, &state.volume, ids)?;
        step_over(alloc, state, part, change, ops)
    }
}

// Steps the state with this part in the place of its volume, and then carries the operations out on the volume.
fn step_over(
    alloc: Global,
    state: &mut Durable,
    part: Volume,
    trial: &Record,
    ops: &[(OpNo, Update)],
) -> Result<(), RecordFault>
    requires trial { AreSound trial.now }
    requires sound { AreSoundOps ops.now }
    requires below { IdsAreBelow state.old }
    ensures ok { OnOk result (IsTried trial.now part ops.now state.old state.new) }
    ensures refused { IfErr result (λ fault. RefusesRecord fault (tried trial.now part state.old)) }
    ensures unchanged { OnErr result ((f : RecordFault) → tried trial.now part state.old ≡ Err f → state.new ≡ state.old) }
    ensures err { OnErr result (IsSpare state.old state.new) }
{
    let spare = Durable::formatted(alloc, state.max_objects)?;
    let mut volume = mem::replace(&mut state.volume, part);
    if let Err(fault) = state.step(trial) {
        put(&mut state.volume, volume);
        drop(spare);
        return Err(fault);
    }
    match apply_all(&mut volume, ops) {
        Ok(()) => {
            put(&mut state.volume, volume);
            drop(spare);
            Ok(())
        }
        Err(_) => {
            put(state, spare);
            drop(volume);
            Err(RecordFault::NoMemory)
        }
    }
}

// What stood there is dropped by one call.
fn put<T: Drop>(place: &mut T, value: T)
    ensures { place.new ≡ value }
{
    *place = value;
}

fn all_fit_ahead(volume: &Volume, ops: &[(OpNo, Update)]) -> bool
    ensures { result ≡ all_fit_ahead (images volume.now) ops.now }
{
    ops.iter().all(|op| fits_ahead(volume, &op.1))
}

// Whether the update fits, keeps its one object's kind, and shortens no file.
fn fits_ahead(volume: &Volume, update: &Update) -> bool
    ensures { result ≡ fits_ahead (images volume.now) update.now }
{
    match update {
        Update::Put { obj, .. }
        | Update::Mode { obj, .. }
        | Update::Stamp { obj, .. }
        | Update::Owner { obj, .. } => fits(volume, update, *obj),
        _ => false,
    }
}

fn fits(volume: &Volume, update: &Update, id: ObjId) -> bool
    ensures { result ≡ fits update.now id (images volume.now id) }
{
    match volume.look(id) {
        Some(image) => image.fits(update, id),
        None => Image::Gone.fits(update, id),
    }
}

// The images of these objects.
fn pick(alloc: Global, volume: &Volume, ids: &[ObjId]) -> Result<Volume, NoMemory>
    ensures { IfOk result (λ part. part ≡ picked ids.now volume.now) }
{
    let mut list = Vec::new(alloc);
    'objects: for object in volume.items() {
        if is_listed(object.0, ids) {
            list.push((object.0, object.1.duplicate()?))?;
        }
    }
    Volume::of(list)
}

fn is_listed(id: ObjId, ids: &[ObjId]) -> bool
    ensures { result ≡ member id ids.now }
{
    ids.contains(&id)
}

fn apply_all(volume: &mut Volume, ops: &[(OpNo, Update)]) -> Result<(), ApplyFault>
    requires { AreSoundOps ops.now }
    ensures { OnOk result (volume.new ≡ behind ops.now volume.old) }
{
    for (_, update) in ops {
        volume.apply(update)?;
    }
    Ok(())
}
