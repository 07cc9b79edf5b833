// The numbers in a state, as lists.
ghost use Rattle.std.specs.Prelude.{◌≡◌, ◌++◌, ◌∷◌, [], ℕ, List, Some, slice_get, OnOk, IfOk};
ghost use Rattle.ec_base.specs.Tables.{keys};
ghost use Rattle.ec_volume.specs.Image.{entries_of};
ghost use Rattle.ec_codes.specs.Images.{ids_under};
ghost use Rattle.ec_sessions.specs.Slots.{unspent_of, all_unspent};
ghost use Rattle.ec_durable.specs.WellFormed.{sessions_of};
ghost use Rattle.ec_durable.specs.OfWellFormed.WellFormed.{named_ids};

use ec_base::{NoMemory, ObjId};
use ec_sessions::Slot;
use ec_volume::{Entries, Image, SharedImage};
use std::alloc::Global;

/// The ids of these images.
pub(crate) fn ids_of(alloc: Global, images: &[(ObjId, SharedImage)]) -> Result<Vec<u64>, NoMemory>
    ensures { IfOk result (λ ids. ids.items ≡ keys images.now) }
{
    let mut ids = Vec::new(alloc);
    'images: for image in images {
        ids.push(image.0.get() as u64)?;
    }
    Ok(ids)
}

/// The ids in the entries of all directories.
pub(crate) fn named_ids(
    alloc: Global,
    images: &[(ObjId, SharedImage)],
) -> Result<Vec<u64>, NoMemory>
    ensures { IfOk result (λ ids. ids.items ≡ named_ids images.now) }
{
    let mut ids = Vec::new(alloc);
    'images: for image in images {
        push_entries(&mut ids, image.1.get())?;
    }
    Ok(ids)
}

fn push_entries(ids: &mut Vec<u64>, image: &Image) -> Result<(), NoMemory>
    ensures { OnOk result (ids.new.items ≡ ids.old.items ++ ids_under (entries_of image.now)) }
{
    match image {
        Image::Dir { entries, .. } => push_all(ids, entries),
        Image::File { .. } | Image::Gone => Ok(()),
    }
}

fn push_all(ids: &mut Vec<u64>, entries: &Entries) -> Result<(), NoMemory>
    ensures { OnOk result (ids.new.items ≡ ids.old.items ++ ids_under entries.now) }
{
    'entries: for place in 0..entries.len() {
        push_at(ids, entries, place)?;
    }
    Ok(())
}

// The id of the entry at a place.
fn push_at(ids: &mut Vec<u64>, entries: &Entries, place: usize) -> Result<(), NoMemory>
    ensures { (e : List ℕ × ℕ) → slice_get entries.now place ≡ Some e → OnOk result (ids.new.items ≡ ids.old.items ++ e.1 ∷ []) }
{
    match entries.at(place) {
        Some((_, id)) => {
            ids.push(id.get() as u64)?;
            Ok(())
        }
        None => Ok(()),
    }
}

/// Adds the unspent ids of all slots.
pub(crate) fn push_unspent(ids: &mut Vec<u64>, slots: &[Option<Slot>]) -> Result<(), NoMemory>
    ensures { OnOk result (ids.new.items ≡ ids.old.items ++ all_unspent slots.now) }
{
    'slots: for slot in slots {
        push_slot(ids, slot)?;
    }
    Ok(())
}

fn push_slot(ids: &mut Vec<u64>, slot: &Option<Slot>) -> Result<(), NoMemory>
    ensures { OnOk result (ids.new.items ≡ ids.old.items ++ unspent_of slot.now) }
{
    match slot {
        Some(slot) => push_ids(ids, slot.unspent.as_slice()),
        None => Ok(()),
    }
}

fn push_ids(ids: &mut Vec<u64>, unspent: &[ObjId]) -> Result<(), NoMemory>
    ensures { OnOk result (ids.new.items ≡ ids.old.items ++ unspent.now) }
{
    'unspent: for id in unspent {
        ids.push(id.get() as u64)?;
    }
    Ok(())
}

/// The sessions of the slots.
pub(crate) fn sessions_of(alloc: Global, slots: &[Option<Slot>]) -> Result<Vec<u64>, NoMemory>
    ensures { IfOk result (λ sessions. sessions.items ≡ sessions_of slots.now) }
{
    let mut sessions = Vec::new(alloc);
    'slots: for slot in slots {
        push_session(&mut sessions, slot)?;
    }
    Ok(sessions)
}

fn push_session(sessions: &mut Vec<u64>, slot: &Option<Slot>) -> Result<(), NoMemory>
    ensures { OnOk result (sessions.new.items ≡ sessions.old.items ++ sessions_of (slot.now ∷ [])) }
{
    match slot {
        Some(slot) => {
            sessions.push(slot.session.0)?;
            Ok(())
        }
        None => Ok(()),
    }
}
