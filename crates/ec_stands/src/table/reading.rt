// Tables are read.
ghost use Rattle.std.specs.Prelude.{◌≡◌, ◌≤◌, ◌+◌, ℕ, [], IfOk, Ok, length, take};
ghost use Rattle.ec_volume.specs.Update.{member};
ghost use Rattle.ec_codes.specs.Formats.{variant, rows_read};
ghost use Rattle.ec_codes.specs.Spelling.{Gives, Spells};
ghost use Rattle.ec_codes.specs.Readers.{Reads};
ghost use Rattle.ec_stands.specs.OfTable.Codes.{last_first_field, is_above, id_above, ids_field, slot_fields, slot_of, held, slot_form, slot_code, slots_field, ids_in, numbers_in, is_free, place_after, places_field, state_code, in_size, old_table, new_table, sized, Versioned, table_code};

use crate::table::limits::{MAX_NEW_STATE, MAX_OLD_STATE};
use crate::table::table::{Table, Version};
use ec_base::{CLERK_COUNT, List, ObjId, SessionNo};
use ec_codes::{CodeFault, Reader};
use ec_sessions::{Slot, Window};
use std::alloc::Global;

/// Reads the table, of a volume of so many objects at most, that the bytes spell at a place, and the place behind it.
pub fn get_table(
    alloc: Global,
    bytes: &[u8],
    at: usize,
    max_objects: u32,
) -> Result<((Version, Table), usize), CodeFault>
    // What is read is spelled so.
    ensures found { IfOk result (λ x. Spells (table_code max_objects) bytes.now at x.0 x.1) }
    // What is spelled so is read, unless memory runs out.
    ensures only { (t : Versioned) (next : ℕ) → Spells (table_code max_objects) bytes.now at t next → Gives (λ x. x) result (Ok (t, next)) }
    // Which fault it is.
    ensures exact { Gives (λ x. x) result ((table_code max_objects).read bytes.now at) }
{
    read_table(alloc, bytes, at, max_objects)
}

#[tactic(auto, unfolding(crate::specs::OfTable::Codes::table_code, crate::specs::OfTable::Codes::read_version))]
fn read_table(
    alloc: Global,
    bytes: &[u8],
    at: usize,
    max_objects: u32,
) -> Result<((Version, Table), usize), CodeFault>
    ensures { Gives (λ x. x) result ((table_code max_objects).read bytes.now at) }
{
    let mut reader = Reader::new(alloc, bytes, at);
    match reader.byte()? {
        0 => {
            let (table, next) = read_old(alloc, bytes, at, max_objects)?;
            Ok(((Version::One, table), next))
        }
        2 => {
            let (table, next) = read_new(alloc, bytes, reader.place(), max_objects)?;
            Ok(((Version::Two, table), next))
        }
        _ => Err(CodeFault::Field(at)),
    }
}

#[tactic(auto, unfolding(crate::specs::OfTable::Codes::old_table))]
fn read_old(
    alloc: Global,
    bytes: &[u8],
    at: usize,
    max_objects: u32,
) -> Result<(Table, usize), CodeFault>
    ensures { Gives (λ x. x) result ((old_table max_objects).read bytes.now at) }
{
    read_sized(alloc, bytes, at, MAX_OLD_STATE, max_objects)
}

#[tactic(auto, unfolding(crate::specs::OfTable::Codes::new_table))]
fn read_new(
    alloc: Global,
    bytes: &[u8],
    at: usize,
    max_objects: u32,
) -> Result<(Table, usize), CodeFault>
    ensures { Gives (λ x. x) result ((new_table max_objects).read bytes.now at) }
{
    read_sized(alloc, bytes, at, MAX_NEW_STATE, max_objects)
}

// A length of at most so many bytes, and a state in these.
fn read_sized(
    alloc: Global,
    bytes: &[u8],
    at: usize,
    limit: u32,
    max_objects: u32,
) -> Result<(Table, usize), CodeFault>
    ensures { Gives (λ x. x) result ((sized limit (state_code max_objects)).read bytes.now at) }
{
    let mut head = Reader::new(alloc, bytes, at);
    let count = head.word()?;
    if count > limit {
        return Err(CodeFault::Field(at));
    }
    read_body(alloc, bytes, head.place(), count, max_objects)
}

// A state in so many bytes.
fn read_body(
    alloc: Global,
    bytes: &[u8],
    start: usize,
    count: u32,
    max_objects: u32,
) -> Result<(Table, usize), CodeFault>
    requires { start ≤ length bytes.now }
    ensures { Gives (λ x. x) result (in_size (state_code max_objects) bytes.now (count, start)) }
{
    let mut reader = Reader::new(alloc, front(bytes, start + count as usize), start);
    let table = read_state(&mut reader, max_objects)?;
    let place = reader.place();
    if place < start + count as usize {
        return Err(CodeFault::Field(place));
    }
    Ok((table, place))
}

// So many bytes, or all where there are fewer.
fn front(bytes: &[u8], count: usize) -> &[u8]
    ensures { result.now ≡ take count bytes.now }
{
    if count < bytes.len() {
        &bytes[..count]
    } else {
        bytes
    }
}

#[tactic(auto, unfolding(crate::specs::OfTable::Codes::state_code, crate::specs::OfTable::Codes::state_fields))]
fn read_state(reader: &mut Reader, max_objects: u32) -> Result<Table, CodeFault>
    ensures { Reads (λ x. x) (state_code max_objects).read reader.old result reader.new }
{
    let next_id = reader.word()?;
    let next_session = reader.long()?;
    let epoch = reader.long()?;
    let slots = List::of(read_slots(reader)?);
    let places = List::of(read_places(reader, max_objects)?);
    Ok(Table {
        next_id,
        next_session,
        epoch,
        slots,
        places,
    })
}

#[tactic(auto, unfolding(crate::specs::OfTable::Codes::slots_field))]
fn read_slots(reader: &mut Reader) -> Result<Vec<Option<Slot>>, CodeFault>
    ensures { Reads (λ slots. slots.items) slots_field.read reader.old result reader.new }
{
    read_each_slot(reader, CLERK_COUNT)
}

fn read_each_slot(reader: &mut Reader, count: u8) -> Result<Vec<Option<Slot>>, CodeFault>
    ensures { Reads (λ slots. slots.items) (rows_read (λ before. slot_code) count []) reader.old result reader.new }
{
    let mut slots = Vec::new(reader.alloc());
    for _ in 0..count {
        let slot = read_slot(reader)?;
        slots.push(slot)?;
    }
    Ok(slots)
}

#[tactic(auto, unfolding(crate::specs::OfTable::Codes::slot_code))]
fn read_slot(reader: &mut Reader) -> Result<Option<Slot>, CodeFault>
    ensures { Reads (λ x. x) slot_code.read reader.old result reader.new }
{
    let start = reader.place();
    let tag = reader.byte()?;
    if tag > 2 {
        return Err(CodeFault::Field(start));
    }
    read_form(reader, tag)
}

// The form that the tag says.
#[tactic(auto, unfolding(crate::specs::OfTable::Codes::slot_form))]
fn read_form(reader: &mut Reader, tag: u8) -> Result<Option<Slot>, CodeFault>
    ensures { Reads (λ x. x) (slot_form tag).read reader.old result reader.new }
{
    match tag {
        0 => Ok(None),
        1 => read_fields(reader, true),
        2 => read_fields(reader, false),
        _ => Err(CodeFault::Field(reader.place())),
    }
}

#[tactic(auto, unfolding(crate::specs::OfTable::Codes::slot_fields))]
fn read_fields(reader: &mut Reader, is_open: bool) -> Result<Option<Slot>, CodeFault>
    ensures { Reads (λ x. x) (variant (held is_open) (slot_of is_open) slot_fields).read reader.old result reader.new }
{
    let age = reader.age()?;
    let session = SessionNo(reader.long()?);
    let low = reader.long()?;
    let mask = reader.byte()?;
    let grants = reader.word()?;
    let last_first = read_last_first(reader)?;
    let unspent = List::of(read_ids(reader)?);
    Ok(Some(Slot {
        age,
        session,
        is_open,
        window: Window { low, mask },
        grants,
        last_first,
        unspent,
    }))
}

#[tactic(auto, unfolding(crate::specs::OfTable::Codes::last_first_field))]
fn read_last_first(reader: &mut Reader) -> Result<Option<ObjId>, CodeFault>
    ensures { Reads (λ x. x) last_first_field.read reader.old result reader.new }
{
    let number = reader.word()?;
    Ok(ObjId::new(number))
}

#[tactic(auto, unfolding(crate::specs::OfTable::Codes::ids_field))]
fn read_ids(reader: &mut Reader) -> Result<Vec<ObjId>, CodeFault>
    ensures { Reads (λ ids. ids.items) ids_field.read reader.old result reader.new }
{
    let count = reader.word()?;
    read_each_id(reader, count)
}

fn read_each_id(reader: &mut Reader, count: u32) -> Result<Vec<ObjId>, CodeFault>
    ensures { Reads (λ ids. ids.items) (rows_read id_above count []) reader.old result reader.new }
{
    let mut ids = Vec::new(reader.alloc());
    for _ in 0..count {
        let id = read_id_above(reader, &ids)?;
        ids.push(id)?;
    }
    Ok(ids)
}

#[tactic(auto, unfolding(crate::specs::OfTable::Codes::id_above))]
fn read_id_above(reader: &mut Reader, before: &[ObjId]) -> Result<ObjId, CodeFault>
    ensures { Reads (λ x. x) (id_above before.now).read reader.old result reader.new }
{
    let start = reader.place();
    let id = reader.id()?;
    if !is_above(before, id) {
        return Err(CodeFault::Field(start));
    }
    Ok(id)
}

// Whether the id is above the last one of these.
fn is_above(before: &[ObjId], id: ObjId) -> bool
    ensures { result ≡ is_above before.now id }
{
    match before.last() {
        Some(last) => last.get() < id.get(),
        None => true,
    }
}

#[tactic(auto, unfolding(crate::specs::OfTable::Codes::places_field))]
fn read_places(reader: &mut Reader, max_objects: u32) -> Result<Vec<(ObjId, u32)>, CodeFault>
    ensures { Reads (λ places. places.items) (places_field max_objects).read reader.old result reader.new }
{
    let count = reader.word()?;
    read_each_place(reader, max_objects, count)
}

fn read_each_place(
    reader: &mut Reader,
    max_objects: u32,
    count: u32,
) -> Result<Vec<(ObjId, u32)>, CodeFault>
    ensures { Reads (λ places. places.items) (rows_read (place_after max_objects) count []) reader.old result reader.new }
{
    let mut places = Vec::new(reader.alloc());
    for _ in 0..count {
        let place = read_place(reader, max_objects, &places)?;
        places.push(place)?;
    }
    Ok(places)
}

#[tactic(auto, unfolding(crate::specs::OfTable::Codes::place_after, crate::specs::OfTable::Codes::id_above))]
fn read_place(
    reader: &mut Reader,
    max_objects: u32,
    before: &[(ObjId, u32)],
) -> Result<(ObjId, u32), CodeFault>
    ensures { Reads (λ x. x) (place_after max_objects before.now).read reader.old result reader.new }
{
    let start = reader.place();
    let id = reader.id()?;
    if !is_above_places(before, id) {
        return Err(CodeFault::Field(start));
    }
    let start = reader.place();
    let number = reader.word()?;
    if !is_free(max_objects, before, number) {
        return Err(CodeFault::Field(start));
    }
    Ok((id, number))
}

fn is_above_places(before: &[(ObjId, u32)], id: ObjId) -> bool
    ensures { result ≡ is_above (ids_in before.now) id }
{
    match before.last() {
        Some((last, _)) => last.get() < id.get(),
        None => true,
    }
}

// Whether the number is one of a slot that none of these has.
fn is_free(max_objects: u32, before: &[(ObjId, u32)], number: u32) -> bool
    ensures { result ≡ is_free max_objects (numbers_in before.now) number }
{
    u64::from(number) < 2 * u64::from(max_objects) && !has_number(before, number)
}

// There are 1,024 objects at most.
fn has_number(places: &[(ObjId, u32)], number: u32) -> bool
    ensures { result ≡ member number (numbers_in places.now) }
{
    match places {
        [] => false,
        [(_, other), rest @ ..] => number == *other || has_number(rest, number),
    }
}
