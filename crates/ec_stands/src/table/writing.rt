// Tables are written.
ghost use Rattle.std.specs.Prelude.{◌≡◌, ◌+◌, ◌<◌, ◌≤◌, ◌++◌, ◌∷◌, ℕ, true, if◌then◌else◌, [], length, Some, None, IfOk, OnOk};
ghost use Rattle.std.specs.List.{flat_map, list_all};
ghost use Rattle.std.specs.List.Sorted.{IsStrictlyIncreasing};
ghost use Rattle.ec_sessions.specs.Slots.{slot_at, all_unspent};
ghost use Rattle.ec_codes.specs.Formats.{rows_fit};
ghost use Rattle.ec_codes.specs.Spelling.{Writes};
ghost use Rattle.ec_codes.specs.Fields.{word, id};
ghost use Rattle.ec_durable.specs.WellFormed.{most_max_objects};
ghost use Rattle.ec_stands.specs.declared.table.table.Version.TheVariants.{Two};
ghost use Rattle.ec_stands.specs.OfTable.Codes.{last_first_field, id_above, ids_field, slot_fields, fields_of, slot_code, slots_field, place_after, place_spell, places_field, state_code, table_code, described};
ghost use Rattle.ec_stands.specs.OfTable.LengthLaws.{max_table_code};

use ec_base::{CLERK_COUNT, ClerkId, NoMemory, ObjId};
use ec_codes::{put_age, put_byte, put_id, put_long, put_word};
use ec_durable::Durable;
use ec_sessions::{Sessions, Slot};
use std::alloc::Global;

// The first byte of a table of version 2.
const NEW: u8 = 2;

/// The bytes of a table, of version 2, that describes this state, where the images of the live objects stand in these slots of the disk.
///
/// The ids of the places rise; their slots are apart, and below twice the most objects. There are at most 8,893 bytes.
pub fn put_table(
    alloc: Global,
    state: &Durable,
    places: &[(ObjId, u32)],
) -> Result<Vec<u8>, NoMemory>
    requires places { rows_fit (place_after state.now.max_objects) [] places.now ≡ true }
    requires few { length places.now + length (all_unspent state.now.sessions) ≤ most_max_objects }
    ensures spelled { IfOk result (λ bytes. bytes.items ≡ (table_code state.now.max_objects).spell (Two, described state.now places.now)) }
    ensures fits { IfOk result (λ bytes. (table_code state.now.max_objects).fits (Two, described state.now places.now) ≡ true) }
    ensures short { IfOk result (λ bytes. length bytes.items ≤ max_table_code) }
{
    let mut body = Vec::new(alloc);
    put_state(&mut body, state, places)?;
    let mut bytes = Vec::new(alloc);
    put_head(&mut bytes, body.len() as u32)?;
    bytes.extend_from_slice(&body)?;
    Ok(bytes)
}

// What stands in front of a state of so many bytes.
fn put_head(out: &mut Vec<u8>, len: u32) -> Result<(), NoMemory>
    ensures { OnOk result (out.new.items ≡ out.old.items ++ 2 ∷ word.spell len) }
{
    put_byte(out, NEW)?;
    put_word(out, len)
}

fn put_state(out: &mut Vec<u8>, state: &Durable, places: &[(ObjId, u32)]) -> Result<(), NoMemory>
    requires places { rows_fit (place_after state.now.max_objects) [] places.now ≡ true }
    requires few { length places.now + length (all_unspent state.now.sessions) ≤ most_max_objects }
    ensures written { OnOk result (Writes (state_code state.now.max_objects) (described state.now places.now) out.old.items out.new.items) }
    ensures sixteen { OnOk result (length state.now.sessions ≡ 16) }
{
    put_word(out, state.next_id)?;
    put_long(out, state.next_session)?;
    put_long(out, state.epoch)?;
    put_slots(out, &state.sessions)?;
    put_places(out, places)?;
    Ok(())
}

// The slots of the clerks in order.
#[tactic(auto, unfolding(crate::specs::OfTable::Codes::slots_field))]
fn put_slots(out: &mut Vec<u8>, sessions: &Sessions) -> Result<(), NoMemory>
    requires { length (all_unspent sessions.now) ≤ most_max_objects }
    ensures written { OnOk result (Writes slots_field sessions.now out.old.items out.new.items) }
    ensures sixteen { OnOk result (length sessions.now ≡ 16) }
{
    put_each_slot(out, sessions)?;
    Ok(())
}

fn put_each_slot(out: &mut Vec<u8>, sessions: &Sessions) -> Result<(), NoMemory>
    requires { length (all_unspent sessions.now) ≤ most_max_objects }
    ensures spelled { OnOk result (out.new.items ≡ out.old.items ++ flat_map slot_code.spell sessions.now) }
    ensures fit { OnOk result (list_all slot_code.fits sessions.now ≡ true) }
    ensures sixteen { OnOk result (length sessions.now ≡ 16) }
{
    for number in 0..CLERK_COUNT {
        if let Some(clerk) = ClerkId::new(number) {
            put_slot_of(out, sessions, clerk)?;
        }
    }
    Ok(())
}

fn put_slot_of(out: &mut Vec<u8>, sessions: &Sessions, clerk: ClerkId) -> Result<(), NoMemory>
    requires { length (all_unspent sessions.now) ≤ most_max_objects }
    ensures written { OnOk result (Writes slot_code (slot_at sessions.now clerk) out.old.items out.new.items) }
    ensures sixteen { length sessions.now ≡ 16 }
{
    match sessions.slot(clerk) {
        Some(slot) => put_slot(out, slot),
        None => put_none(out),
    }
}

#[tactic(auto, unfolding(crate::specs::OfTable::Codes::slot_code, crate::specs::OfTable::Codes::slot_form))]
fn put_none(out: &mut Vec<u8>) -> Result<(), NoMemory>
    ensures { OnOk result (Writes slot_code None out.old.items out.new.items) }
{
    put_byte(out, 0)
}

fn put_slot(out: &mut Vec<u8>, slot: &Slot) -> Result<(), NoMemory>
    requires rising { IsStrictlyIncreasing slot.now.unspent }
    requires few { length slot.now.unspent ≤ most_max_objects }
    ensures { OnOk result (Writes slot_code (Some slot.now) out.old.items out.new.items) }
{
    put_byte(out, tag(slot.is_open))?;
    put_fields(out, slot)
}

fn tag(is_open: bool) -> u8
    ensures { result ≡ (if is_open then 1 else 2) }
{
    if is_open { 1 } else { 2 }
}

fn put_fields(out: &mut Vec<u8>, slot: &Slot) -> Result<(), NoMemory>
    requires rising { IsStrictlyIncreasing slot.now.unspent }
    requires few { length slot.now.unspent ≤ most_max_objects }
    ensures { OnOk result (Writes slot_fields (fields_of slot.now) out.old.items out.new.items) }
{
    put_age(out, slot.age)?;
    put_long(out, slot.session.0)?;
    put_long(out, slot.window.low)?;
    put_byte(out, slot.window.mask)?;
    put_word(out, slot.grants)?;
    put_last_first(out, slot.last_first)?;
    put_ids(out, slot.unspent.as_slice())
}

#[tactic(auto, unfolding(crate::specs::OfTable::Codes::last_first_field))]
fn put_last_first(out: &mut Vec<u8>, first: Option<ObjId>) -> Result<(), NoMemory>
    ensures { OnOk result (Writes last_first_field first out.old.items out.new.items) }
{
    match first {
        Some(id) => put_word(out, id.get()),
        None => put_word(out, 0),
    }
}

#[tactic(auto, unfolding(crate::specs::OfTable::Codes::ids_field))]
fn put_ids(out: &mut Vec<u8>, ids: &[ObjId]) -> Result<(), NoMemory>
    requires rising { IsStrictlyIncreasing ids.now }
    requires few { length ids.now ≤ most_max_objects }
    ensures { OnOk result (Writes ids_field ids.now out.old.items out.new.items) }
{
    put_word(out, ids.len() as u32)?;
    put_rising(out, ids)
}

fn put_rising(out: &mut Vec<u8>, ids: &[ObjId]) -> Result<(), NoMemory>
    requires { IsStrictlyIncreasing ids.now }
    ensures spelled { OnOk result (out.new.items ≡ out.old.items ++ flat_map id.spell ids.now) }
    ensures fit { OnOk result (rows_fit id_above [] ids.now ≡ true) }
{
    put_each_id(out, ids)
}

fn put_each_id(out: &mut Vec<u8>, ids: &[ObjId]) -> Result<(), NoMemory>
    ensures spelled { OnOk result (out.new.items ≡ out.old.items ++ flat_map id.spell ids.now) }
    ensures fit { OnOk result (list_all id.fits ids.now ≡ true) }
{
    for object in ids {
        put_id(out, *object)?;
    }
    Ok(())
}

// Places that fit for some number of objects fit as the places of a volume of so many.
#[tactic(auto, unfolding(crate::specs::OfTable::Codes::places_field))]
fn put_places(out: &mut Vec<u8>, places: &[(ObjId, u32)]) -> Result<(), NoMemory>
    requires { length places.now ≤ most_max_objects }
    ensures { OnOk result ((most : ℕ) → rows_fit (place_after most) [] places.now ≡ true → Writes (places_field most) places.now out.old.items out.new.items) }
{
    put_word(out, places.len() as u32)?;
    put_each_place(out, places)?;
    Ok(())
}

fn put_each_place(out: &mut Vec<u8>, places: &[(ObjId, u32)]) -> Result<(), NoMemory>
    ensures { OnOk result (out.new.items ≡ out.old.items ++ flat_map place_spell places.now) }
{
    for place in places {
        put_place(out, place)?;
    }
    Ok(())
}

#[tactic(auto, unfolding(crate::specs::OfTable::Codes::place_spell))]
fn put_place(out: &mut Vec<u8>, place: &(ObjId, u32)) -> Result<(), NoMemory>
    ensures { OnOk result (out.new.items ≡ out.old.items ++ place_spell place.now) }
{
    put_id(out, place.0)?;
    put_word(out, place.1)
}
