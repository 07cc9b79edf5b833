// What a disk stands for is read back.
ghost use Rattle.std.specs.Prelude.{◌≡◌, ◌≤◌, ◌<◌, ◌+◌, ℕ, T, true, List, length, IfOk, IfSome, IsErrOf, MatchOption};
ghost use Rattle.std.specs.Int.{w32, to_be_bytes};
ghost use Rattle.std.specs.List.{list_all};
ghost use Rattle.std.specs.Ordering.{nat_cmp};
ghost use Rattle.std.specs.FinMap.{is_sorted};
ghost use Rattle.ec_base.specs.Tables.{keys};
ghost use Rattle.ec_disk.specs.Disk.{part};
ghost use Rattle.ec_disk.specs.Effects.{Rests, Counted};
ghost use Rattle.ec_codes.specs.SoundImages.{is_sound_image};
ghost use Rattle.ec_durable.specs.WellFormed.{WellFormed, least_max_objects, most_max_objects};
ghost use Rattle.ec_durable.specs.declared.record.RecordFault.{RecordFault};
ghost use Rattle.ec_stands.specs.OfTable.Codes.{table_code, ids_in, numbers_in};
ghost use Rattle.ec_journal.specs.Journal.{IsFound};
ghost use Rattle.ec_journal.specs.OfLayout.Places as place;
ghost use Rattle.ec_stands.specs.Stands.{side_in, state_of, HasGoodHead, IsBadAt};
ghost use Rattle.ec_store.specs.Places.{ArePlaces};
ghost use Rattle.ec_store.specs.Opening.{IsReadIn, IsOpened};
ghost use Rattle.ec_store.specs.declared.fault.StoreFault.TheVariants as fault;

use crate::fault::{StoreFault, of_disk};
use crate::reading::{read_head, read_objects, read_table};
use crate::replay::replay;
use ec_base::{NoMemory, ObjId};
use ec_disk::{Disk, DiskLen};
use ec_durable::Durable;
use ec_durable::well_formed::is_well_formed;
use ec_journal::layout::{Head, JOURNAL_BYTES, Side};
use ec_journal::{Found, read_records};
use ec_sessions::Sessions;
use ec_stands::table::{Table, Version};
use ec_volume::{SharedImage, Volume};
use std::alloc::Global;

/// The checkpoint that a disk holds.
#[derive(Drop)]
pub(crate) struct Checkpoint {
    pub(crate) version: Version,
    pub(crate) state: Durable,
    // In which slots the images stand.
    pub(crate) places: Vec<(ObjId, u32)>,
}

/// What a disk stands for, and where its parts stand.
#[derive(Drop)]
pub(crate) struct Opened {
    pub(crate) version: Version,
    pub(crate) side: Side,
    // Where the journal's closed gate stands, from its first byte on.
    pub(crate) end: u64,
    pub(crate) state: Durable,
    // In which slots the images of the checkpoint stand.
    pub(crate) places: Vec<(ObjId, u32)>,
    // The objects that the journal's records have as operands.
    pub(crate) ids: Vec<ObjId>,
}

/// What the disk stands for, by one read of each byte that counts.
pub(crate) fn read_back<D: Disk>(alloc: Global, disk: &mut D) -> Result<Opened, StoreFault>
    ensures opened { IfOk result (λ opened. D.tells → IsOpened (D.view disk.old).gives opened) }
    ensures formed { IfOk result (λ opened. WellFormed opened.state) }
    ensures places { IfOk result (λ opened. ArePlaces opened.state.max_objects (numbers_in opened.places.items) opened.places.items) }
    ensures rising { IfOk result (λ opened. T (is_sorted nat_cmp opened.places.items)) }
    ensures end { IfOk result (λ opened. opened.end < place.journal_bytes) }
    ensures bad { (p : ℕ) → IsErrOf result (fault.BadDisk p) → D.tells → IsBadAt (D.view disk.old).gives p }
    ensures rests { D.tells → Rests (D.view disk.old) (D.view disk.new) }
    ensures no_refusal { (f : RecordFault) → IsErrOf result (fault.Refused f) → ⊥ }
    ensures counts { Counted (D.counts disk.old) (D.counts disk.new) (IsErrOf result fault.DiskFailed) (IsErrOf result fault.DiskStopped) }
{
    let (checkpoint, side) = read_checkpoint(alloc, disk)?;
    let found = read_journal(alloc, disk, side)?;
    let opened = behind_records(alloc, checkpoint, side, found)?;
    Ok(opened)
}

// The selected side, and its checkpoint.
fn read_checkpoint<D: Disk>(alloc: Global, disk: &mut D) -> Result<(Checkpoint, Side), StoreFault>
    ensures read { IfOk result (λ x. D.tells → IsReadIn (D.view disk.old).gives x.0) }
    ensures side { IfOk result (λ x. D.tells → x.1 ≡ side_in (D.view disk.old).gives) }
    ensures formed { IfOk result (λ x. WellFormed x.0.state) }
    ensures places { IfOk result (λ x. ArePlaces x.0.state.max_objects (numbers_in x.0.places.items) x.0.places.items) }
    ensures rising { IfOk result (λ x. T (is_sorted nat_cmp x.0.places.items)) }
    ensures bad { (p : ℕ) → IsErrOf result (fault.BadDisk p) → D.tells → IsBadAt (D.view disk.old).gives p }
    ensures rests { D.tells → Rests (D.view disk.old) (D.view disk.new) }
    ensures no_refusal { (f : RecordFault) → IsErrOf result (fault.Refused f) → ⊥ }
    ensures counts { Counted (D.counts disk.old) (D.counts disk.new) (IsErrOf result fault.DiskFailed) (IsErrOf result fault.DiskStopped) }
{
    let len = length_of(disk)?;
    let head = read_head(disk, len)?;
    let checkpoint = read_behind(alloc, disk, len, head)?;
    Ok((checkpoint, head.side))
}

// The checkpoint of the side that a good head selects.
fn read_behind<D: Disk>(
    alloc: Global,
    disk: &mut D,
    len: u64,
    head: Head,
) -> Result<Checkpoint, StoreFault>
    requires len { D.tells → len ≡ length (D.view disk.old).gives }
    requires good { D.tells → HasGoodHead (D.view disk.old).gives head.max_objects }
    requires side { D.tells → head.side ≡ side_in (D.view disk.old).gives }
    requires most { D.tells → part (D.view disk.old).gives 8 4 ≡ to_be_bytes w32 head.max_objects }
    requires least { least_max_objects ≤ head.max_objects }
    requires limit { head.max_objects ≤ most_max_objects }
    ensures read { IfOk result (λ c. D.tells → IsReadIn (D.view disk.old).gives c) }
    ensures formed { IfOk result (λ c. WellFormed c.state) }
    ensures places { IfOk result (λ c. ArePlaces c.state.max_objects (numbers_in c.places.items) c.places.items) }
    ensures rising { IfOk result (λ c. T (is_sorted nat_cmp c.places.items)) }
    ensures bad { (p : ℕ) → IsErrOf result (fault.BadDisk p) → D.tells → IsBadAt (D.view disk.old).gives p }
    ensures rests { D.tells → Rests (D.view disk.old) (D.view disk.new) }
    ensures no_refusal { (f : RecordFault) → IsErrOf result (fault.Refused f) → ⊥ }
    ensures counts { Counted (D.counts disk.old) (D.counts disk.new) (IsErrOf result fault.DiskFailed) (IsErrOf result fault.DiskStopped) }
{
    let (version, table) = read_table(alloc, disk, len, head)?;
    let images = read_objects(alloc, disk, len, version, table.places.as_slice())?;
    let checkpoint = checkpoint_of(alloc, version, head, table, images)?;
    Ok(checkpoint)
}

// The checkpoint of this table and of these images. Where its state isn't well formed, the table is bad.
fn checkpoint_of(
    alloc: Global,
    version: Version,
    head: Head,
    table: Table,
    images: Vec<(ObjId, SharedImage)>,
) -> Result<Checkpoint, StoreFault>
    requires least { least_max_objects ≤ head.max_objects }
    requires limit { head.max_objects ≤ most_max_objects }
    requires fits { (table_code head.max_objects).fits (version, table) ≡ true }
    requires ids { keys images.items ≡ ids_in table.places }
    requires sound { list_all (λ e. is_sound_image e.1) images.items ≡ true }
    ensures state { IfOk result (λ c. (c.version ≡ version) × (c.state ≡ state_of head.max_objects table images.items) × (c.places.items ≡ table.places)) }
    ensures formed { IfOk result (λ c. WellFormed c.state) }
    ensures places { IfOk result (λ c. ArePlaces c.state.max_objects (numbers_in c.places.items) c.places.items) }
    ensures rising { IfOk result (λ c. T (is_sorted nat_cmp c.places.items)) }
    ensures bad { (p : ℕ) → IsErrOf result (fault.BadDisk p) → (p ≡ place.table_at head.side) × (WellFormed (state_of head.max_objects table images.items) → ⊥) }
    ensures no_disk { IsErrOf result fault.DiskFailed → ⊥ }
    ensures no_stop { IsErrOf result fault.DiskStopped → ⊥ }
    ensures no_refusal { (f : RecordFault) → IsErrOf result (fault.Refused f) → ⊥ }
{
    match assemble(alloc, version, head.max_objects, table, images)? {
        Some(checkpoint) => Ok(checkpoint),
        None => Err(StoreFault::BadDisk(head.side.table_at())),
    }
}

fn length_of<D: Disk>(disk: &mut D) -> Result<u64, StoreFault>
    ensures len { IfOk result (λ len. D.tells → len ≡ length (D.view disk.old).gives) }
    ensures rests { D.tells → Rests (D.view disk.old) (D.view disk.new) }
    ensures no_bad { (p : ℕ) → IsErrOf result (fault.BadDisk p) → ⊥ }
    ensures no_refusal { (f : RecordFault) → IsErrOf result (fault.Refused f) → ⊥ }
    ensures counts { Counted (D.counts disk.old) (D.counts disk.new) (IsErrOf result fault.DiskFailed) (IsErrOf result fault.DiskStopped) }
{
    match disk.len() {
        DiskLen::Len(len) => Ok(len),
        DiskLen::Failed => Err(StoreFault::DiskFailed),
        DiskLen::Stopped => Err(StoreFault::DiskStopped),
    }
}

// The checkpoint of this table and of these images, where its state is well formed.
fn assemble(
    alloc: Global,
    version: Version,
    max_objects: u32,
    table: Table,
    images: Vec<(ObjId, SharedImage)>,
) -> Result<Option<Checkpoint>, NoMemory>
    requires least { least_max_objects ≤ max_objects }
    requires limit { max_objects ≤ most_max_objects }
    requires fits { (table_code max_objects).fits (version, table) ≡ true }
    requires ids { keys images.items ≡ ids_in table.places }
    requires sound { list_all (λ e. is_sound_image e.1) images.items ≡ true }
    ensures state { IfOk result (λ it. MatchOption it (WellFormed (state_of max_objects table images.items) → ⊥) (λ c. (c.version ≡ version) × (c.state ≡ state_of max_objects table images.items) × (c.places.items ≡ table.places))) }
    ensures formed { IfOk result (λ it. IfSome it (λ c. WellFormed c.state)) }
    ensures places { IfOk result (λ it. IfSome it (λ c. ArePlaces c.state.max_objects (numbers_in c.places.items) c.places.items)) }
    ensures rising { IfOk result (λ it. IfSome it (λ c. T (is_sorted nat_cmp c.places.items))) }
{
    let Ok(is_formed) = is_well_formed(
        alloc,
        max_objects,
        table.next_id,
        table.next_session,
        table.slots.as_slice(),
        images.as_slice(),
    ) else {
        drop(table);
        drop(images);
        return Err(NoMemory);
    };
    if !is_formed {
        drop(table);
        drop(images);
        return Ok(None);
    }
    let Table {
        next_id,
        next_session,
        epoch,
        slots,
        places,
    } = table;
    let volume = Volume::of(images)?;
    let sessions = Sessions::of(slots.into_vec())?;
    let state = Durable {
        volume,
        sessions,
        next_id,
        next_session,
        epoch,
        max_objects,
    };
    let places = places.into_vec();
    Ok(Some(Checkpoint {
        version,
        state,
        places,
    }))
}

// The records of a side's journal.
fn read_journal<D: Disk>(alloc: Global, disk: &mut D, side: Side) -> Result<Found, StoreFault>
    requires inside { D.tells → place.journal_at side + place.journal_bytes ≤ length (D.view disk.old).gives }
    ensures found { IfOk result (λ found. D.tells → IsFound (D.view disk.old).gives (place.journal_at side) place.journal_bytes found) }
    ensures end { IfOk result (λ found. found.end < place.journal_bytes) }
    ensures rests { D.tells → Rests (D.view disk.old) (D.view disk.new) }
    ensures no_bad { (p : ℕ) → IsErrOf result (fault.BadDisk p) → ⊥ }
    ensures no_refusal { (f : RecordFault) → IsErrOf result (fault.Refused f) → ⊥ }
    ensures counts { Counted (D.counts disk.old) (D.counts disk.new) (IsErrOf result fault.DiskFailed) (IsErrOf result fault.DiskStopped) }
{
    match read_records(alloc, disk, side.journal_at(), JOURNAL_BYTES) {
        Ok(found) => Ok(found),
        Err(fault) => Err(of_disk(fault)),
    }
}

// The state behind the records that were found.
fn behind_records(
    alloc: Global,
    checkpoint: Checkpoint,
    side: Side,
    found: Found,
) -> Result<Opened, StoreFault>
    requires formed { WellFormed checkpoint.state }
    requires places { ArePlaces checkpoint.state.max_objects (numbers_in checkpoint.places.items) checkpoint.places.items }
    requires rising { T (is_sorted nat_cmp checkpoint.places.items) }
    requires end { found.end < place.journal_bytes }
    ensures opened { IfOk result (λ opened. (image : List ℕ) → side ≡ side_in image → IsReadIn image checkpoint → IsFound image (place.journal_at side) place.journal_bytes found → IsOpened image opened) }
    ensures bad { (p : ℕ) → IsErrOf result (fault.BadDisk p) → (image : List ℕ) → side ≡ side_in image → IsReadIn image checkpoint → IsFound image (place.journal_at side) place.journal_bytes found → IsBadAt image p }
    ensures formed { IfOk result (λ opened. WellFormed opened.state) }
    ensures places { IfOk result (λ opened. ArePlaces opened.state.max_objects (numbers_in opened.places.items) opened.places.items) }
    ensures rising { IfOk result (λ opened. T (is_sorted nat_cmp opened.places.items)) }
    ensures end { IfOk result (λ opened. opened.end < place.journal_bytes) }
    ensures no_disk { IsErrOf result fault.DiskFailed → ⊥ }
    ensures no_stop { IsErrOf result fault.DiskStopped → ⊥ }
    ensures no_refusal { (f : RecordFault) → IsErrOf result (fault.Refused f) → ⊥ }
{
    let mut checkpoint = checkpoint;
    let at = side.journal_at();
    let (end, is_whole) = (found.end, found.is_whole);
    let replayed = replay(alloc, &mut checkpoint.state, at, found.bodies.as_slice());
    drop(found);
    let ids = match replayed {
        Ok(ids) => ids,
        Err(fault) => {
            drop(checkpoint);
            return Err(fault);
        }
    };
    if !is_whole {
        drop(ids);
        drop(checkpoint);
        return Err(StoreFault::BadDisk(at + end));
    }
    Ok(Opened {
        version: checkpoint.version,
        side,
        end,
        state: checkpoint.state,
        places: checkpoint.places,
        ids,
    })
}
