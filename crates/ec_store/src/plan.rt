// What a checkpoint writes: the images that aren't kept, by rising ids to the least free slots, and the table of all.
ghost use Rattle.std.specs.Prelude.{◌≡◌, ◌≤◌, ◌<◌, ◌+◌, ◌*◌, ◌++◌, ◌∷◌, ℕ, true, [], None, length, drop, take, map, vec_len, IfOk, OnOk};
ghost use Rattle.std.specs.List.{All, flat_map};
ghost use Rattle.ec_base.specs.Tables.{at};
ghost use Rattle.ec_volume.specs.Update.{operands};
ghost use Rattle.ec_volume.specs.Volume.{WellFormed, images};
ghost use Rattle.ec_codes.specs.SoundImages.{is_sound_image};
ghost use Rattle.ec_durable.specs.WellFormed.{IsInOrder};
ghost use Rattle.ec_stands.specs.OfTable.Codes.{table_code, described, numbers_in};
ghost use Rattle.ec_stands.specs.declared.table.table.Version.TheVariants as version;
ghost use Rattle.ec_journal.specs.OfLayout.Places as place;
ghost use Rattle.ec_journal.specs.OfLayout.Pieces.{pieces_of};
ghost use Rattle.ec_stands.specs.Stands.{slot_code};
ghost use Rattle.ec_store.specs.Places.{ArePlaces, IsPlaced, slot_of, rest_of, piece_of, placed, pieces, touched};
ghost use Rattle.ec_store.specs.Plan.{IsPlan};
ghost use Rattle.ec_store.specs.Placing.{free_now};

use ec_base::{NoMemory, ObjId, OpNo, SortedMap};
use ec_codes::{put_id, put_image};
use ec_durable::{Durable, Record};
use ec_journal::layout::free_slots;
use ec_stands::table::put_table;
use ec_volume::{Image, Update, Volume, operands};
use std::alloc::Global;

/// What a checkpoint writes, and where the images stand behind it.
#[derive(Drop)]
pub(crate) struct Plan {
    /// The images that aren't kept, in their slots.
    pub(crate) pieces: Vec<(u32, Vec<u8>)>,
    pub(crate) table: Vec<u8>,
    /// The slots that the table names.
    pub(crate) named: Vec<u32>,
    pub(crate) kept: SortedMap<ObjId, u32>,
}

/// The checkpoint of the state, where these slots are named and those images are kept.
pub(crate) fn lay_out(
    alloc: Global,
    state: &Durable,
    named: &[u32],
    kept: &SortedMap<ObjId, u32>,
) -> Result<Plan, NoMemory>
    requires formed { ∥ WellFormed (images state.now.volume) ∥₁ }
    requires order { IsInOrder state.now }
    requires places { ArePlaces state.now.max_objects named.now kept.now }
    ensures plan { IfOk result (λ plan. IsPlan state.now.max_objects named.now kept.now state.now.volume plan) }
    ensures table { IfOk result (λ plan. plan.table.items ≡ (table_code state.now.max_objects).spell (version.Two, described state.now plan.kept)) }
    ensures fits { IfOk result (λ plan. (table_code state.now.max_objects).fits (version.Two, described state.now plan.kept) ≡ true) }
    ensures short { IfOk result (λ plan. length plan.table.items ≤ place.table_bytes) }
{
    let free = free_slots(alloc, 2 * state.max_objects, named)?;
    let placing = place_all(alloc, &state.volume, kept, free)?;
    let Ok(table) = put_table(alloc, state, placing.places.as_slice()) else {
        drop(placing);
        return Err(NoMemory);
    };
    let Ok(named) = numbers(alloc, placing.places.as_slice()) else {
        drop(placing);
        return Err(NoMemory);
    };
    Ok(Plan {
        pieces: placing.pieces,
        table,
        named,
        kept: SortedMap::of(placing.places),
    })
}

/// The checkpoint of the state, where these places are taken and no image is kept.
pub(crate) fn lay_out_all(
    alloc: Global,
    state: &Durable,
    places: &[(ObjId, u32)],
) -> Result<Plan, NoMemory>
    requires formed { ∥ WellFormed (images state.now.volume) ∥₁ }
    requires order { IsInOrder state.now }
    requires places { ArePlaces state.now.max_objects (numbers_in places.now) [] }
    ensures plan { IfOk result (λ plan. IsPlan state.now.max_objects (numbers_in places.now) [] state.now.volume plan) }
    ensures table { IfOk result (λ plan. plan.table.items ≡ (table_code state.now.max_objects).spell (version.Two, described state.now plan.kept)) }
    ensures fits { IfOk result (λ plan. (table_code state.now.max_objects).fits (version.Two, described state.now plan.kept) ≡ true) }
    ensures short { IfOk result (λ plan. length plan.table.items ≤ place.table_bytes) }
{
    let named = numbers(alloc, places)?;
    let none = SortedMap::new(alloc);
    lay_out(alloc, state, named.as_slice(), &none)
}

/// The numbers of these slots.
pub(crate) fn numbers(alloc: Global, places: &[(ObjId, u32)]) -> Result<Vec<u32>, NoMemory>
    ensures { IfOk result (λ numbers. numbers.items ≡ numbers_in places.now) }
{
    Ok(places.iter().map(|place| place.1).collect(alloc)?)
}

// Places so far, and the free slots, of which the first ones are used.
#[derive(Drop)]
struct Placing {
    free: Vec<u32>,
    used: usize,
    places: Vec<(ObjId, u32)>,
    pieces: Vec<(u32, Vec<u8>)>,
}

fn place_all(
    alloc: Global,
    volume: &Volume,
    kept: &SortedMap<ObjId, u32>,
    free: Vec<u32>,
) -> Result<Placing, NoMemory>
    requires room { length volume.now ≤ vec_len free }
    requires formed { ∥ WellFormed (images volume.now) ∥₁ }
    ensures places { IfOk result (λ placing. placing.places.items ≡ placed kept.now volume.now free.items) }
    ensures pieces { IfOk result (λ placing. pieces_of placing.pieces.items ≡ pieces kept.now volume.now free.items) }
    ensures each { IfOk result (λ placing. All (IsPlaced kept.now) volume.now) }
{
    let mut placing = Placing {
        free,
        used: 0,
        places: Vec::new(alloc),
        pieces: Vec::new(alloc),
    };
    'objects: for place in 0..volume.live() as usize {
        if let Some(object) = volume.at(place) {
            placing.place(alloc, kept.get(&object.0).copied(), object)?;
        }
    }
    Ok(placing)
}

impl Placing {
    ghost use Rattle.std.specs.Prelude.{◌≡◌, ◌≤◌, ◌<◌, ◌+◌, ◌++◌, ◌∷◌, [], true, None, length, vec_len, OnOk};
    ghost use Rattle.ec_codes.specs.Fields.{id};
    ghost use Rattle.ec_codes.specs.SoundImages.{is_sound_image};
    ghost use Rattle.ec_journal.specs.OfLayout.Places as place;
    ghost use Rattle.ec_journal.specs.OfLayout.Pieces.{pieces_of};
    ghost use Rattle.ec_stands.specs.Stands.{slot_code};
    ghost use Rattle.ec_stands.specs.declared.table.table.Version.TheVariants as version;
    ghost use Rattle.ec_store.specs.Places.{slot_of, rest_of, piece_of};
    ghost use Rattle.ec_store.specs.Placing.{free_now};

    // The object stays in its slot, or goes to the next free one.
    fn place(
        &mut self,
        alloc: Global,
        slot: Option<u32>,
        object: (ObjId, &Image),
    ) -> Result<(), NoMemory>
        requires room { self.old.used < vec_len self.old.free }
        requires sound { is_sound_image object.1.now ≡ true }
        ensures places { OnOk result (self.new.places.items ≡ self.old.places.items ++ (object.entry.0, slot_of slot (free_now self.old)) ∷ []) }
        ensures pieces { OnOk result (pieces_of self.new.pieces.items ≡ pieces_of self.old.pieces.items ++ piece_of slot (free_now self.old) (object.entry.0, object.entry.1.now)) }
        ensures left { OnOk result (free_now self.new ≡ rest_of slot (free_now self.old)) }
        ensures free { OnOk result (self.new.free ≡ self.old.free) }
        ensures used { OnOk result (self.new.used ≤ self.old.used + 1) }
        ensures fits { OnOk result (slot ≡ None → ((slot_code version.Two).fits (object.entry.0, object.entry.1.now) ≡ true) × (length ((slot_code version.Two).spell (object.entry.0, object.entry.1.now)) ≤ place.slot_bytes)) }
    {
        match slot {
            Some(slot) => {
                self.places.push((object.0, slot))?;
                Ok(())
            }
            None => {
                let slot = self.free[self.used];
                let bytes = slot_bytes(alloc, object.0, object.1)?;
                self.pieces.push((slot, bytes))?;
                self.places.push((object.0, slot))?;
                self.used += 1;
                Ok(())
            }
        }
    }
}

// What stands in an object's slot.
fn slot_bytes(alloc: Global, object: ObjId, image: &Image) -> Result<Vec<u8>, NoMemory>
    requires { is_sound_image image.now ≡ true }
    ensures spelled { IfOk result (λ bytes. bytes.items ≡ (slot_code version.Two).spell (object, image.now)) }
    ensures fits { IfOk result (λ bytes. (slot_code version.Two).fits (object, image.now) ≡ true) }
    ensures short { IfOk result (λ bytes. length bytes.items ≤ place.slot_bytes) }
{
    let mut out = Vec::new(alloc);
    put_id(&mut out, object)?;
    put_image(image, &mut out)?;
    Ok(out)
}

/// The objects that the record has as operands.
pub(crate) fn touched(alloc: Global, change: &Record) -> Result<Vec<ObjId>, NoMemory>
    ensures { IfOk result (λ ids. ids.items ≡ touched change.now) }
{
    match change {
        Record::Batch(_, _, _, ops) => touched_by(alloc, ops.as_slice()),
        _ => Ok(Vec::new(alloc)),
    }
}

fn touched_by(alloc: Global, ops: &[(OpNo, Update)]) -> Result<Vec<ObjId>, NoMemory>
    ensures { IfOk result (λ ids. ids.items ≡ flat_map (λ op. operands op.1) ops.now) }
{
    let mut ids = Vec::with_capacity(alloc, ops.len())?;
    for op in ops {
        push_operands(&mut ids, &op.1)?;
    }
    Ok(ids)
}

// Most updates have one operand.
fn push_operands(ids: &mut Vec<ObjId>, update: &Update) -> Result<(), NoMemory>
    ensures { OnOk result (ids.new.items ≡ ids.old.items ++ operands update.now) }
{
    match update {
        Update::Put { obj, .. }
        | Update::Len { obj, .. }
        | Update::Mode { obj, .. }
        | Update::Stamp { obj, .. }
        | Update::Owner { obj, .. } => ids.push(*obj)?,
        _ => {
            let operands = operands(*ids.allocator(), update)?;
            ids.extend_from_slice(operands.as_slice())?;
        }
    }
    Ok(())
}
