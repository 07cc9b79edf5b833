// What stands on a disk is read: its head, the table of the selected side, and the slots that the table names.
ghost use Rattle.std.specs.Prelude.{◌≡◌, ◌≤◌, ℕ, true, length, Err, IfOk, IsErrOf};
ghost use Rattle.std.specs.Int.{w32, to_be_bytes};
ghost use Rattle.std.specs.List.{list_all};
ghost use Rattle.ec_base.specs.Tables.{keys};
ghost use Rattle.ec_disk.specs.Disk.{part};
ghost use Rattle.ec_disk.specs.Effects.{Rests, Counted};
ghost use Rattle.ec_codes.specs.Spelling.{Gives, Spells, StandsAt};
ghost use Rattle.ec_codes.specs.SoundImages.{is_sound_image};
ghost use Rattle.ec_codes.specs.declared.fault.CodeFault.{CodeFault};
ghost use Rattle.ec_codes.specs.declared.fault.CodeFault.TheVariants as code;
ghost use Rattle.ec_durable.specs.WellFormed.{least_max_objects, most_max_objects};
ghost use Rattle.ec_durable.specs.declared.record.RecordFault.{RecordFault};
ghost use Rattle.ec_stands.specs.OfTable.Codes.{table_code, ids_in};
ghost use Rattle.ec_journal.specs.OfLayout.Places as place;
ghost use Rattle.ec_journal.specs.OfLayout.Reading.{IsHead};
ghost use Rattle.ec_stands.specs.Stands.{slot_code, side_in, HasGoodHead, IsBadImage, HasBadImage, IsBadAt, fault_at};
ghost use Rattle.ec_stands.specs.Checkpoints.{IsSpelled, AreSpelled};
ghost use Rattle.ec_store.specs.Reading.{place_of};
ghost use Rattle.ec_store.specs.declared.fault.StoreFault.TheVariants as fault;

use crate::fault::{StoreFault, done, of_disk};
use ec_base::ObjId;
use ec_codes::{CodeFault, Reader, get_image, get_image_v1};
use ec_disk::Disk;
use ec_journal::layout::{Head, SLOT_BYTES, TABLE_BYTES, slot_at};
use ec_journal::read_part;
use ec_stands::table::{Table, Version, get_table};
use ec_volume::SharedImage;
use std::alloc::Global;

// Bytes of a disk's head.
const HEAD_BYTES: u64 = 16;

// The bounds of a volume's own limit of objects.
const LEAST_MAX_OBJECTS: u32 = 32;

const MOST_MAX_OBJECTS: u32 = 1_024;

/// The bytes of a part of a disk of this length, as far as the disk goes.
fn read_up_to<D: Disk>(
    alloc: Global,
    disk: &mut D,
    len: u64,
    at: u64,
    size: u64,
) -> Result<Vec<u8>, StoreFault>
    requires len { D.tells → len ≡ length (D.view disk.old).gives }
    ensures bytes { IfOk result (λ bytes. D.tells → bytes.items ≡ part (D.view disk.old).gives at size) }
    ensures rests { D.tells → Rests (D.view disk.old) (D.view disk.new) }
    ensures no_bad { (p : ℕ) → IsErrOf result (fault.BadDisk p) → ⊥ }
    ensures no_refusal { (f : RecordFault) → IsErrOf result (fault.Refused f) → ⊥ }
    ensures counts { Counted (D.counts disk.old) (D.counts disk.new) (IsErrOf result fault.DiskFailed) (IsErrOf result fault.DiskStopped) }
{
    if len <= at {
        return Ok(Vec::new(alloc));
    }
    match read_part(alloc, disk, at, size.min(len - at)) {
        Ok(bytes) => Ok(bytes),
        Err(fault) => Err(of_disk(fault)),
    }
}

/// The head, where it is one of a volume.
pub(crate) fn read_head<D: Disk>(disk: &mut D, len: u64) -> Result<Head, StoreFault>
    requires len { D.tells → len ≡ length (D.view disk.old).gives }
    ensures good { IfOk result (λ head. D.tells → HasGoodHead (D.view disk.old).gives head.max_objects) }
    ensures side { IfOk result (λ head. D.tells → head.side ≡ side_in (D.view disk.old).gives) }
    ensures most { IfOk result (λ head. D.tells → part (D.view disk.old).gives 8 4 ≡ to_be_bytes w32 head.max_objects) }
    ensures least { IfOk result (λ head. least_max_objects ≤ head.max_objects) }
    ensures limit { IfOk result (λ head. head.max_objects ≤ most_max_objects) }
    ensures bad { (p : ℕ) → IsErrOf result (fault.BadDisk p) → D.tells → IsBadAt (D.view disk.old).gives p }
    ensures rests { D.tells → Rests (D.view disk.old) (D.view disk.new) }
    ensures no_refusal { (f : RecordFault) → IsErrOf result (fault.Refused f) → ⊥ }
    ensures counts { Counted (D.counts disk.old) (D.counts disk.new) (IsErrOf result fault.DiskFailed) (IsErrOf result fault.DiskStopped) }
{
    if len < HEAD_BYTES {
        return Err(StoreFault::BadDisk(0));
    }
    let mut bytes = [0; 16];
    done(disk.read_at(0, &mut bytes))?;
    let head = head_of(&bytes);
    if !head.has_first_word {
        return Err(StoreFault::BadDisk(0));
    }
    if head.max_objects < LEAST_MAX_OBJECTS {
        return Err(StoreFault::BadDisk(8));
    }
    if MOST_MAX_OBJECTS < head.max_objects {
        return Err(StoreFault::BadDisk(8));
    }
    if !head.has_form {
        return Err(StoreFault::BadDisk(13));
    }
    Ok(head)
}

fn head_of(bytes: &[u8; 16]) -> Head
    ensures is { IsHead bytes.now result }
    ensures most { part bytes.now 8 4 ≡ to_be_bytes w32 result.max_objects }
{
    Head::read(bytes)
}

/// The table of the head's side.
pub(crate) fn read_table<D: Disk>(
    alloc: Global,
    disk: &mut D,
    len: u64,
    head: Head,
) -> Result<(Version, Table), StoreFault>
    requires len { D.tells → len ≡ length (D.view disk.old).gives }
    ensures fits { IfOk result (λ t. (table_code head.max_objects).fits t ≡ true) }
    ensures stands { IfOk result (λ t. D.tells → StandsAt (part (D.view disk.old).gives (place.table_at head.side) place.table_bytes) 0 ((table_code head.max_objects).spell t)) }
    ensures bad { (p : ℕ) → IsErrOf result (fault.BadDisk p) → D.tells → (f : CodeFault) × ((table_code head.max_objects).read (part (D.view disk.old).gives (place.table_at head.side) place.table_bytes) 0 ≡ Err f) × (p ≡ fault_at (D.view disk.old).gives (place.table_at head.side) f) }
    ensures rests { D.tells → Rests (D.view disk.old) (D.view disk.new) }
    ensures no_refusal { (f : RecordFault) → IsErrOf result (fault.Refused f) → ⊥ }
    ensures counts { Counted (D.counts disk.old) (D.counts disk.new) (IsErrOf result fault.DiskFailed) (IsErrOf result fault.DiskStopped) }
{
    let at = head.side.table_at();
    let bytes = read_up_to(alloc, disk, len, at, TABLE_BYTES)?;
    match get_table(alloc, bytes.as_slice(), 0, head.max_objects) {
        Ok((table, _)) => Ok(table),
        Err(found) => Err(shown_at(len, at, found)),
    }
}

// Where what was found in a part of a disk of this length shows. It never lies beyond the numbers of places.
fn shown_at(len: u64, at: u64, found: CodeFault) -> StoreFault
    ensures bad { (p : ℕ) → result ≡ fault.BadDisk p → (p ≡ place_of len at found) × (found ≡ code.NoMemory → ⊥) }
    ensures not_failed { result ≡ fault.DiskFailed → ⊥ }
    ensures not_stopped { result ≡ fault.DiskStopped → ⊥ }
    ensures not_refused { (f : RecordFault) → result ≡ fault.Refused f → ⊥ }
{
    match found {
        CodeFault::Short(place) => match at.checked_add(place as u64) {
            Some(end) => StoreFault::BadDisk(len.min(end)),
            None => StoreFault::NoMemory,
        },
        CodeFault::Field(place) => match at.checked_add(place as u64) {
            Some(field) => StoreFault::BadDisk(field),
            None => StoreFault::NoMemory,
        },
        CodeFault::NoMemory => StoreFault::NoMemory,
    }
}

// The object and its image at the front of a slot's bytes.
fn object_in(
    alloc: Global,
    bytes: &[u8],
    version: Version,
) -> Result<((ObjId, SharedImage), usize), CodeFault>
    ensures found { IfOk result (λ x. Spells (slot_code version) bytes.now 0 x.0 x.1) }
    ensures sound { IfOk result (λ x. is_sound_image x.0.1 ≡ true) }
    ensures exact { Gives (λ x. x) result ((slot_code version).read bytes.now 0) }
{
    read_slot(alloc, bytes, version)
}

fn read_slot(
    alloc: Global,
    bytes: &[u8],
    version: Version,
) -> Result<((ObjId, SharedImage), usize), CodeFault>
    ensures sound { IfOk result (λ x. is_sound_image x.0.1 ≡ true) }
    ensures exact { Gives (λ x. x) result ((slot_code version).read bytes.now 0) }
{
    let mut reader = Reader::new(alloc, bytes, 0);
    let id = reader.id()?;
    let at = reader.place();
    match version {
        Version::One => {
            let (image, next) = get_image_v1(alloc, bytes, at)?;
            Ok(((id, SharedImage::new(alloc, image)?), next))
        }
        Version::Two => {
            let (image, next) = get_image(alloc, bytes, at)?;
            Ok(((id, SharedImage::new(alloc, image)?), next))
        }
    }
}

// The object whose image the table says to be in the slot.
fn read_object<D: Disk>(
    alloc: Global,
    disk: &mut D,
    len: u64,
    version: Version,
    named: (ObjId, u32),
) -> Result<(ObjId, SharedImage), StoreFault>
    requires len { D.tells → len ≡ length (D.view disk.old).gives }
    ensures spelled { IfOk result (λ object. D.tells → IsSpelled version (D.view disk.old).gives named object) }
    ensures id { IfOk result (λ object. object.0 ≡ named.0) }
    ensures sound { IfOk result (λ object. is_sound_image object.1 ≡ true) }
    ensures bad { (p : ℕ) → IsErrOf result (fault.BadDisk p) → D.tells → IsBadImage version (D.view disk.old).gives named p }
    ensures rests { D.tells → Rests (D.view disk.old) (D.view disk.new) }
    ensures no_refusal { (f : RecordFault) → IsErrOf result (fault.Refused f) → ⊥ }
    ensures counts { Counted (D.counts disk.old) (D.counts disk.new) (IsErrOf result fault.DiskFailed) (IsErrOf result fault.DiskStopped) }
{
    let at = slot_at(named.1);
    let bytes = read_up_to(alloc, disk, len, at, SLOT_BYTES)?;
    match object_in(alloc, bytes.as_slice(), version) {
        Ok((object, _)) => {
            if object.0 == named.0 {
                Ok(object)
            } else {
                Err(StoreFault::BadDisk(at))
            }
        }
        Err(found) => Err(shown_at(len, at, found)),
    }
}

/// The objects in the slots that a table names.
pub(crate) fn read_objects<D: Disk>(
    alloc: Global,
    disk: &mut D,
    len: u64,
    version: Version,
    places: &[(ObjId, u32)],
) -> Result<Vec<(ObjId, SharedImage)>, StoreFault>
    requires len { D.tells → len ≡ length (D.view disk.old).gives }
    ensures spelled { IfOk result (λ objects. D.tells → AreSpelled version (D.view disk.old).gives places.now objects.items) }
    ensures ids { IfOk result (λ objects. keys objects.items ≡ ids_in places.now) }
    ensures sound { IfOk result (λ objects. list_all (λ e. is_sound_image e.1) objects.items ≡ true) }
    ensures bad { (p : ℕ) → IsErrOf result (fault.BadDisk p) → D.tells → HasBadImage version (D.view disk.old).gives places.now p }
    ensures rests { D.tells → Rests (D.view disk.old) (D.view disk.new) }
    ensures no_refusal { (f : RecordFault) → IsErrOf result (fault.Refused f) → ⊥ }
    ensures counts { Counted (D.counts disk.old) (D.counts disk.new) (IsErrOf result fault.DiskFailed) (IsErrOf result fault.DiskStopped) }
{
    let mut objects = Vec::new(alloc);
    'places: for named in places {
        let object = read_object(alloc, disk, len, version, *named)?;
        objects.push(object)?;
    }
    Ok(objects)
}
