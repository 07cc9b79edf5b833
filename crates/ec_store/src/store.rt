// Records are committed: each is on the disk whole, or not at all.
ghost use Rattle.std.specs.Prelude.{◌≡◌, ◌≤◌, ℕ, None, Some, if◌then◌else◌, length, OnOk, OnErr, IsOk, IsErrOf};
ghost use Rattle.ec_base.specs.Tables.{at};
ghost use Rattle.ec_volume.specs.Update.{member};
ghost use Rattle.ec_volume.specs.Volume.{WellFormed, images};
ghost use Rattle.ec_durable.specs.WellFormed.{IsInOrder};
ghost use Rattle.ec_disk.specs.Effects.{IsSynced, LeavesOnly, Counted, Called};
ghost use Rattle.ec_disk.specs.declared.disk.DiskAnswer.TheVariants as said;
ghost use Rattle.ec_journal.specs.Ends.{EndsBy, TurnedUpTo};
ghost use Rattle.ec_journal.specs.RecordBytes.{max_record_bytes};
ghost use Rattle.ec_journal.specs.Journal.{need_of};
ghost use Rattle.ec_journal.specs.OfLayout.Layout.{Layout, Lies};
ghost use Rattle.ec_journal.specs.OfLayout.Appends.{with_body, LeavesBody, StopsWith};
ghost use Rattle.ec_journal.specs.OfLayout.Selected.{IsOn, free_now};
ghost use Rattle.ec_store.specs.Faults.{IsDiskFault};
ghost use Rattle.ec_store.specs.Places.{ArePlaces};
ghost use Rattle.ec_store.specs.declared.fault.StoreFault.TheVariants as fault;

use crate::fault::{StoreFault, done, of_disk};
use crate::opening::{Opened, read_back};
use crate::plan::{Plan, lay_out, lay_out_all, numbers, touched};
use crate::stepping::step;
use ec_base::{Duplicate, NoMemory, ObjId, SortedMap};
use ec_disk::Disk;
use ec_durable::{Durable, Record, encode};
use ec_journal::Staged;
use ec_journal::layout::{Selected, Side, prepare, write_head};
use ec_stands::table::Version;
use std::alloc::Global;

/// The durable state that a disk stands for, and where its images stand there.
pub struct Store {
    state: Durable,
    selected: Selected,
    // The slots that the selected table names.
    named: Vec<u32>,
    // The slots of the objects that no record of the selected journal has as an operand.
    kept: SortedMap<ObjId, u32>,
    ghost formed: { ∥ WellFormed (images state.volume) ∥₁ },
    ghost order: { IsInOrder state },
    ghost places: { ArePlaces state.max_objects named.items kept },
}

// Who drops one calls this, and needn't take it apart.
impl Drop for Store {
    fn drop(self) {
        let Store {
            state,
            selected,
            named,
            kept,
        } = self;
        drop(state);
        drop(selected);
        drop(named);
        drop(kept);
    }
}

impl Store {
    ghost use Rattle.std.specs.Prelude.{◌≡◌, ◌⊎◌, ◌<◌, ◌≤◌, ◌+◌, ℕ, Ok, Err, None, Some, true, false, if◌then◌else◌, List, length, IfOk, OnOk, OnErr, IsOk, IsErrOf};
    ghost use Rattle.ec_base.specs.Tables.{at};
    ghost use Rattle.ec_sessions.specs.Limits.{ids_per_grant};
    ghost use Rattle.ec_sessions.specs.declared.slot.Slot.{Slot};
    ghost use Rattle.ec_disk.specs.Effects.{IsSynced, Rests, LeavesOnly, Counted, Called};
    ghost use Rattle.ec_journal.specs.Ends.{TurnedUpTo};
    ghost use Rattle.ec_journal.specs.Journal.{need_of};
    ghost use Rattle.ec_volume.specs.Image.{is_gone};
    ghost use Rattle.ec_volume.specs.Update.{member};
    ghost use Rattle.ec_volume.specs.Volume.{images};
    ghost use Rattle.ec_durable.specs.declared.record.RecordFault.{RecordFault};
    ghost use Rattle.ec_durable.specs.declared.record.RecordFault.TheVariants as record_fault;
    ghost use Rattle.ec_durable.specs.declared.state.Durable.{Durable};
    ghost use Rattle.ec_durable.specs.Durable.{slot, step, formatted};
    ghost use Rattle.ec_durable.specs.WellFormed as states;
    ghost use Rattle.ec_durable.specs.WellFormed.{least_max_objects, most_max_objects};
    ghost use Rattle.ec_durable.specs.Codes.{record_code};
    ghost use Rattle.ec_durable.specs.SoundRecords.{is_sound_record, max_record_code};
    ghost use Rattle.ec_journal.specs.OfLayout.Selected.{free_now};
    ghost use Rattle.std.specs.Prelude.{T};
    ghost use Rattle.std.specs.Ordering.{nat_cmp};
    ghost use Rattle.std.specs.FinMap.{is_sorted};
    ghost use Rattle.ec_stands.specs.OfTable.Codes.{numbers_in};
    ghost use Rattle.ec_stands.specs.declared.table.table.Version.TheVariants as version;
    ghost use Rattle.ec_journal.specs.OfLayout.Places.{journal_bytes};
    ghost use Rattle.ec_journal.specs.OfLayout.Selected.{IsSelected};
    ghost use Rattle.ec_journal.specs.OfLayout.Traces.{LeavesSinceSync, SyncsFirst};
    ghost use Rattle.ec_stands.specs.Stands.{StandsFor, IsBadAt};
    ghost use Rattle.ec_store.specs.declared.fault.StoreFault.{StoreFault};
    ghost use Rattle.ec_store.specs.Opening.{IsOpened, IsOlder, WasLeftOrStands, IsSameOrStands, IsBadOrStands};
    ghost use Rattle.ec_store.specs.declared.fault.StoreFault.TheVariants as fault;
    ghost use Rattle.ec_store.specs.Places.{touched};
    ghost use Rattle.ec_store.specs.Plan.{PlansFor};
    ghost use Rattle.ec_store.specs.Store.{IsHeld, StandsForEither, CommitTurns, Halves, StopsHalfway, LacksMemory, view_of};

    /// The state.
    pub fn view(&self) -> &Durable
        ensures value { result.now ≡ view_of self.now }
        ensures formed { ∥ states.WellFormed (view_of self.now) ∥₁ }
        // The ids to come are ids, and so are those of each slot's last grant.
        ensures next { 1 ≤ (view_of self.now).next_id }
        ensures grants { (c : ℕ) (sl : Slot) (first : ℕ) → slot (view_of self.now) c ≡ Some sl → sl.last_first ≡ Some first → first + ids_per_grant ≤ (view_of self.now).next_id }
    {
        &self.state
    }

    /// Lays an empty disk out for a volume of 32 to 1,024 objects, which has the root alone.
    ///
    /// The disk is bad until its first word is written, which is written last.
    pub fn format<D: Disk>(
        alloc: Global,
        disk: &mut D,
        max_objects: u32,
    ) -> Result<Store, StoreFault>
        requires least { least_max_objects ≤ max_objects }
        requires limit { max_objects ≤ most_max_objects }
        requires empty { D.tells → length (D.view disk.old).gives ≡ 0 }
        ensures view { IfOk result (λ store. view_of store ≡ formatted max_objects) }
        ensures ok { IfOk result (λ store. D.tells → IsHeld (D.view disk.new) store) }
        ensures stands { OnOk result (D.tells → (image : List ℕ) → (D.view disk.new).may_leave image → StandsFor image (formatted max_objects)) }
        ensures synced { OnOk result (D.tells → IsSynced (D.view disk.new)) }
        // Since the first sync a crash leaves a bad disk, or one that stands for the formatted state. Before it, it may leave any bytes.
        ensures since_sync { D.tells → LeavesSinceSync D.does D.view (IsBadOrStands (formatted max_objects)) disk.old disk.new }
        ensures no_bad { (place : ℕ) → IsErrOf result (fault.BadDisk place) → ⊥ }
        ensures no_refusal { (f : RecordFault) → IsErrOf result (fault.Refused f) → ⊥ }
        ensures counts { Counted (D.counts disk.old) (D.counts disk.new) (IsErrOf result fault.DiskFailed) (IsErrOf result fault.DiskStopped) }
    {
        let state = Durable::formatted(alloc, max_objects)?;
        let Ok(plan) = lay_out_all(alloc, &state, &[]) else {
            drop(state);
            return Err(StoreFault::NoMemory);
        };
        let prepared = prepare(
            disk,
            Side::Even,
            plan.pieces.as_slice(),
            plan.table.as_slice(),
        );
        if let Err(fault) = done(prepared) {
            drop(plan);
            drop(state);
            return Err(fault);
        }
        if let Err(fault) = write_head(disk, max_objects) {
            drop(plan);
            drop(state);
            return Err(of_disk(fault));
        }
        Ok(Store {
            state,
            selected: Selected::new(Side::Even, 0),
            named: plan.named,
            kept: plan.kept,
        })
    }

    /// Opens a disk. It syncs before it reads, so that what was read stays, and reads each byte that counts once.
    ///
    /// `BadDisk` shows the first bad place. A disk of version 1 is brought to version 2, by a checkpoint on the other side.
    pub fn open<D: Disk>(alloc: Global, disk: &mut D) -> Result<Store, StoreFault>
        // The store shows the state that the disk stood for, and the disk stands for it, whatever a crash leaves.
        ensures stands { IfOk result (λ store. D.tells → StandsFor (D.view disk.old).gives (view_of store)) }
        ensures ok { IfOk result (λ store. D.tells → IsHeld (D.view disk.new) store) }
        ensures synced { OnOk result (D.tells → IsSynced (D.view disk.new)) }
        ensures bad { (place : ℕ) → IsErrOf result (fault.BadDisk place) → D.tells → IsBadAt (D.view disk.old).gives place }
        ensures unchanged { (place : ℕ) → IsErrOf result (fault.BadDisk place) → D.tells → (D.view disk.new).gives ≡ (D.view disk.old).gives }
        // Each image that a crash since might leave is one that it might have left before, or stands for the state that the disk stood for.
        ensures any_moment { D.tells → LeavesOnly (D.view disk.old) (D.view disk.new) (WasLeftOrStands (D.view disk.old)) }
        // On a disk that isn't of version 1 no call writes.
        ensures quiet { D.tells → (IsOlder (D.view disk.old).gives → ⊥) → Rests (D.view disk.old) (D.view disk.new) }
        // The first call is a sync. Each image that a crash since then might leave is the one that was there, or stands for the same state.
        ensures sync_first { D.tells → SyncsFirst D.does D.view (IsSameOrStands (D.view disk.old).gives) disk.old disk.new }
        ensures no_refusal { (f : RecordFault) → IsErrOf result (fault.Refused f) → ⊥ }
        ensures counts { Counted (D.counts disk.old) (D.counts disk.new) (IsErrOf result fault.DiskFailed) (IsErrOf result fault.DiskStopped) }
    {
        done(disk.sync())?;
        Store::open_synced(alloc, disk)
    }

    // Opens a disk that nothing was written to since its last sync.
    fn open_synced<D: Disk>(alloc: Global, disk: &mut D) -> Result<Store, StoreFault>
        requires synced { D.tells → IsSynced (D.view disk.old) }
        ensures stands { IfOk result (λ store. D.tells → StandsFor (D.view disk.old).gives (view_of store)) }
        ensures ok { IfOk result (λ store. D.tells → IsHeld (D.view disk.new) store) }
        ensures synced { OnOk result (D.tells → IsSynced (D.view disk.new)) }
        ensures bad { (place : ℕ) → IsErrOf result (fault.BadDisk place) → D.tells → IsBadAt (D.view disk.old).gives place }
        ensures unchanged { (place : ℕ) → IsErrOf result (fault.BadDisk place) → D.tells → (D.view disk.new).gives ≡ (D.view disk.old).gives }
        ensures any_moment { D.tells → LeavesOnly (D.view disk.old) (D.view disk.new) (IsSameOrStands (D.view disk.old).gives) }
        ensures quiet { D.tells → (IsOlder (D.view disk.old).gives → ⊥) → Rests (D.view disk.old) (D.view disk.new) }
        ensures no_refusal { (f : RecordFault) → IsErrOf result (fault.Refused f) → ⊥ }
        ensures counts { Counted (D.counts disk.old) (D.counts disk.new) (IsErrOf result fault.DiskFailed) (IsErrOf result fault.DiskStopped) }
    {
        let opened = read_back(alloc, disk)?;
        match opened.version {
            Version::One => {
                let store = Store::renewed(alloc, disk, opened)?;
                Ok(store)
            }
            Version::Two => {
                let store = Store::holding(alloc, opened)?;
                Ok(store)
            }
        }
    }

    // The store of a disk of version 1: a checkpoint writes each image in version 2 to a slot that isn't named.
    fn renewed<D: Disk>(alloc: Global, disk: &mut D, opened: Opened) -> Result<Store, StoreFault>
        requires synced { D.tells → IsSynced (D.view disk.old) }
        requires older { opened.version ≡ version.One }
        requires is { D.tells → IsOpened (D.view disk.old).gives opened }
        requires formed { states.WellFormed opened.state }
        requires places { ArePlaces opened.state.max_objects (numbers_in opened.places.items) opened.places.items }
        requires end { opened.end < journal_bytes }
        ensures view { IfOk result (λ store. view_of store ≡ opened.state) }
        ensures ok { IfOk result (λ store. D.tells → IsHeld (D.view disk.new) store) }
        ensures synced { OnOk result (D.tells → IsSynced (D.view disk.new)) }
        ensures any_moment { D.tells → LeavesOnly (D.view disk.old) (D.view disk.new) (λ image. StandsFor image opened.state) }
        ensures no_bad { (place : ℕ) → IsErrOf result (fault.BadDisk place) → ⊥ }
        ensures no_refusal { (f : RecordFault) → IsErrOf result (fault.Refused f) → ⊥ }
        ensures counts { Counted (D.counts disk.old) (D.counts disk.new) (IsErrOf result fault.DiskFailed) (IsErrOf result fault.DiskStopped) }
    {
        let Ok(plan) = lay_out_all(alloc, &opened.state, opened.places.as_slice()) else {
            drop(opened);
            return Err(StoreFault::NoMemory);
        };
        let mut selected = Selected::new(opened.side, opened.end);
        let turned = selected.checkpoint(disk, plan.pieces.as_slice(), plan.table.as_slice());
        if let Err(fault) = done(turned) {
            drop(plan);
            drop(opened);
            return Err(fault);
        }
        Ok(Store {
            state: opened.state,
            selected,
            named: plan.named,
            kept: plan.kept,
        })
    }

    // The store of a disk of version 2 that was read back.
    fn holding(alloc: Global, opened: Opened) -> Result<Store, StoreFault>
        requires formed { states.WellFormed opened.state }
        requires places { ArePlaces opened.state.max_objects (numbers_in opened.places.items) opened.places.items }
        requires rising { T (is_sorted nat_cmp opened.places.items) }
        requires end { opened.end < journal_bytes }
        ensures view { IfOk result (λ store. view_of store ≡ opened.state) }
        ensures parts { IfOk result (λ store. (store.named.items ≡ numbers_in opened.places.items) × IsSelected opened.side opened.end store.selected) }
        ensures kept { IfOk result (λ store. (o : ℕ) → at o store.kept ≡ (if member o opened.ids.items then None else at o opened.places.items)) }
        ensures no_memory { (f : StoreFault) → IsErrOf result f → f ≡ fault.NoMemory }
    {
        let Opened {
            side,
            end,
            state,
            places,
            ids,
            ..
        } = opened;
        let named = numbers(alloc, places.as_slice())?;
        let mut kept = SortedMap::of(places);
        forget(&mut kept, ids.as_slice());
        Ok(Store {
            state,
            selected: Selected::new(side, end),
            named,
            kept,
        })
    }

    /// Steps the state by a record whose updates are sound, of which a batch has 1 to 64, and brings the record to the disk: by four calls
    /// where the journal has room, else by a checkpoint before them.
    ///
    /// A record that is refused makes no call and changes nothing. All memory is taken before the first call. After a fault of the disk, or
    /// want of memory, the record is there whole or not at all, and what is shown may be neither: open the disk again.
    pub fn commit<D: Disk>(&mut self, disk: &mut D, change: &Record) -> Result<(), StoreFault>
        requires { is_sound_record change.now ≡ true }
        // The stepped state is shown, and the disk stands for it, whatever a crash leaves.
        ensures view { OnOk result (step change.now (view_of self.old) ≡ Ok (view_of self.new)) }
        ensures ok { OnOk result (D.tells → IsHeld (D.view disk.old) self.old → IsHeld (D.view disk.new) self.new) }
        ensures stands { OnOk result (D.tells → IsHeld (D.view disk.old) self.old → (image : List ℕ) → (D.view disk.new).may_leave image → StandsFor image (view_of self.new)) }
        ensures synced { OnOk result (D.tells → IsSynced (D.view disk.new)) }
        ensures any_moment { D.tells → IsHeld (D.view disk.old) self.old → LeavesOnly (D.view disk.old) (D.view disk.new) (StandsForEither change.now (view_of self.old)) }
        // Exactly what the step refuses is refused.
        ensures refused { (f : RecordFault) → IsErrOf result (fault.Refused f) → step change.now (view_of self.old) ≡ Err f }
        ensures refuses { (f : RecordFault) → step change.now (view_of self.old) ≡ Err f → (disk.new ≡ disk.old) × (self.new ≡ self.old) × (IsErrOf result (fault.Refused f) ⊎ IsErrOf result fault.NoMemory) }
        ensures no_bad { (place : ℕ) → IsErrOf result (fault.BadDisk place) → ⊥ }
        ensures counts { Counted (D.counts disk.old) (D.counts disk.new) (IsErrOf result fault.DiskFailed) (IsErrOf result fault.DiskStopped) }
        ensures calls { OnOk result (need_of (record_code.spell change.now) ≤ free_now self.old.selected → Called 4 (D.counts disk.old) (D.counts disk.new)) }
        ensures no_memory { IsErrOf result fault.NoMemory → LacksMemory D.does disk.old disk.new }
        ensures turned { CommitTurns (need_of (record_code.spell change.now)) (free_now self.old.selected) (D.counts disk.old).armed (D.counts disk.new).armed (IsOk result) (IsErrOf result fault.DiskStopped) }
        // Whichever call a fault came in, what was synced by then stands for the state before.
        ensures old { OnErr result (D.tells → IsHeld (D.view disk.old) self.old → StandsFor (D.view disk.new).synced (view_of self.old)) }
        // Where it stopped, the number that the disk was armed with tells what is there.
        ensures halves { IsErrOf result fault.DiskStopped → D.tells → IsHeld (D.view disk.old) self.old → (turn : ℕ) → (D.counts disk.old).armed ≡ Some turn → StopsHalfway (need_of (record_code.spell change.now)) (free_now self.old.selected) turn (D.view disk.new) change.now (view_of self.old) }
        // A live object that neither this record nor one of the journal's names keeps its slot.
        ensures kept { OnOk result ((o slot : ℕ) → at o self.old.kept ≡ Some slot → is_gone (images (view_of self.old).volume o) ≡ false → member o (touched change.now) ≡ false → at o self.new.kept ≡ Some slot) }
    {
        let alloc = *self.kept.allocator();
        let body = encode(alloc, change)?;
        let ids = touched(alloc, change)?;
        let entry = Staged::of(alloc, body.as_slice())?;
        if self.selected.has_room(body.as_slice()) {
            self.add(disk, change, &entry, ids.as_slice())
        } else {
            let plan = self.plan_without(ids.as_slice())?;
            self.turn_and_add(disk, change, &entry, ids.as_slice(), plan)
        }
    }

    // Where the journal has room.
    fn add<D: Disk>(
        &mut self,
        disk: &mut D,
        change: &Record,
        entry: &Staged,
        ids: &[ObjId],
    ) -> Result<(), StoreFault>
        requires sound { is_sound_record change.now ≡ true }
        requires fits { record_code.fits change.now ≡ true }
        requires spelled { entry.now ≡ record_code.spell change.now }
        requires short { length entry.now ≤ max_record_code }
        requires ids { ids.now ≡ touched change.now }
        requires room { need_of entry.now ≤ free_now self.old.selected }
        ensures view { OnOk result (step change.now (view_of self.old) ≡ Ok (view_of self.new)) }
        ensures ok { OnOk result (D.tells → IsHeld (D.view disk.old) self.old → IsHeld (D.view disk.new) self.new) }
        ensures synced { OnOk result (D.tells → IsSynced (D.view disk.new)) }
        ensures any_moment { D.tells → IsHeld (D.view disk.old) self.old → LeavesOnly (D.view disk.old) (D.view disk.new) (StandsForEither change.now (view_of self.old)) }
        ensures refused { (f : RecordFault) → IsErrOf result (fault.Refused f) → step change.now (view_of self.old) ≡ Err f }
        ensures refuses { (f : RecordFault) → step change.now (view_of self.old) ≡ Err f → (disk.new ≡ disk.old) × (self.new ≡ self.old) × (IsErrOf result (fault.Refused f) ⊎ IsErrOf result fault.NoMemory) }
        ensures no_bad { (place : ℕ) → IsErrOf result (fault.BadDisk place) → ⊥ }
        ensures counts { Counted (D.counts disk.old) (D.counts disk.new) (IsErrOf result fault.DiskFailed) (IsErrOf result fault.DiskStopped) }
        ensures calls { OnOk result (Called 4 (D.counts disk.old) (D.counts disk.new)) }
        ensures no_memory { IsErrOf result fault.NoMemory → LacksMemory D.does disk.old disk.new }
        ensures turned { TurnedUpTo 4 (D.counts disk.old).armed (D.counts disk.new).armed (IsOk result) (IsErrOf result fault.DiskStopped) }
        ensures halves { IsErrOf result fault.DiskStopped → D.tells → IsHeld (D.view disk.old) self.old → (turn : ℕ) → (D.counts disk.old).armed ≡ Some turn → (turn ≤ 4) × Halves 4 turn (D.view disk.new) change.now (view_of self.old) }
        ensures old { OnErr result (D.tells → IsHeld (D.view disk.old) self.old → StandsFor (D.view disk.new).synced (view_of self.old)) }
        ensures kept { OnOk result ((o slot : ℕ) → at o self.old.kept ≡ Some slot → is_gone (images (view_of self.old).volume o) ≡ false → member o (touched change.now) ≡ false → at o self.new.kept ≡ Some slot) }
    {
        let alloc = *self.kept.allocator();
        step(alloc, &mut self.state, change, ids)?;
        append(&mut self.selected, disk, entry)?;
        forget(&mut self.kept, ids);
        Ok(())
    }

    // A checkpoint of the state, where the images of these objects aren't kept.
    fn plan_without(&self, ids: &[ObjId]) -> Result<Plan, NoMemory>
        ensures { IfOk result (λ plan. PlansFor self.now.state self.now.named.items self.now.kept ids.now plan) }
    {
        let mut kept = self.kept.duplicate()?;
        forget(&mut kept, ids);
        lay_out(
            *self.kept.allocator(),
            &self.state,
            self.named.as_slice(),
            &kept,
        )
    }

    // Where it has none: the checkpoint, laid out before the state steps, selects the other side.
    fn turn_and_add<D: Disk>(
        &mut self,
        disk: &mut D,
        change: &Record,
        entry: &Staged,
        ids: &[ObjId],
        plan: Plan,
    ) -> Result<(), StoreFault>
        requires plan { PlansFor self.old.state self.old.named.items self.old.kept ids.now plan }
        requires sound { is_sound_record change.now ≡ true }
        requires fits { record_code.fits change.now ≡ true }
        requires spelled { entry.now ≡ record_code.spell change.now }
        requires short { length entry.now ≤ max_record_code }
        requires ids { ids.now ≡ touched change.now }
        ensures view { OnOk result (step change.now (view_of self.old) ≡ Ok (view_of self.new)) }
        ensures ok { OnOk result (D.tells → IsHeld (D.view disk.old) self.old → IsHeld (D.view disk.new) self.new) }
        ensures synced { OnOk result (D.tells → IsSynced (D.view disk.new)) }
        ensures any_moment { D.tells → IsHeld (D.view disk.old) self.old → LeavesOnly (D.view disk.old) (D.view disk.new) (StandsForEither change.now (view_of self.old)) }
        ensures refused { (f : RecordFault) → IsErrOf result (fault.Refused f) → step change.now (view_of self.old) ≡ Err f }
        ensures refuses { (f : RecordFault) → step change.now (view_of self.old) ≡ Err f → (disk.new ≡ disk.old) × (self.new ≡ self.old) × (IsErrOf result (fault.Refused f) ⊎ IsErrOf result fault.NoMemory) }
        ensures no_bad { (place : ℕ) → IsErrOf result (fault.BadDisk place) → ⊥ }
        ensures counts { Counted (D.counts disk.old) (D.counts disk.new) (IsErrOf result fault.DiskFailed) (IsErrOf result fault.DiskStopped) }
        ensures no_memory { IsErrOf result fault.NoMemory → LacksMemory D.does disk.old disk.new }
        ensures turned { TurnedUpTo (length plan.pieces.items + 9) (D.counts disk.old).armed (D.counts disk.new).armed (IsOk result) (IsErrOf result fault.DiskStopped) }
        ensures halves { IsErrOf result fault.DiskStopped → D.tells → IsHeld (D.view disk.old) self.old → (turn : ℕ) → (D.counts disk.old).armed ≡ Some turn → (turn ≤ length plan.pieces.items + 9) × Halves (length plan.pieces.items + 9) turn (D.view disk.new) change.now (view_of self.old) }
        ensures old { OnErr result (D.tells → IsHeld (D.view disk.old) self.old → StandsFor (D.view disk.new).synced (view_of self.old)) }
        ensures kept { OnOk result ((o slot : ℕ) → at o self.old.kept ≡ Some slot → is_gone (images (view_of self.old).volume o) ≡ false → member o (touched change.now) ≡ false → at o self.new.kept ≡ Some slot) }
    {
        let alloc = *self.kept.allocator();
        if let Err(fault) = step(alloc, &mut self.state, change, ids) {
            drop(plan);
            return Err(StoreFault::from(fault));
        }
        let turned = self
            .selected
            .checkpoint(disk, plan.pieces.as_slice(), plan.table.as_slice());
        if let Err(fault) = done(turned) {
            drop(plan);
            return Err(fault);
        }
        self.named = plan.named;
        self.kept = plan.kept;
        append(&mut self.selected, disk, entry)?;
        forget(&mut self.kept, ids);
        Ok(())
    }
}

// The map without these ids.
fn forget(kept: &mut SortedMap<ObjId, u32>, ids: &[ObjId])
    ensures { (o : ℕ) → at o kept.new ≡ (if member o ids.now then None else at o kept.old) }
{
    'ids: for id in ids {
        kept.remove(id);
    }
}

// Adds a record to the selected journal, which has room.
fn append<D: Disk>(selected: &mut Selected, disk: &mut D, entry: &Staged) -> Result<(), StoreFault>
    requires short { length entry.now ≤ max_record_bytes }
    requires room { need_of entry.now ≤ free_now selected.old }
    ensures ok { OnOk result (D.tells → (l : Layout) → IsOn (D.view disk.old) selected.old l → IsOn (D.view disk.new) selected.new (with_body entry.now l)) }
    ensures any_moment { D.tells → (l : Layout) → IsOn (D.view disk.old) selected.old l → LeavesOnly (D.view disk.old) (D.view disk.new) (LeavesBody l entry.now) }
    ensures synced { OnOk result (D.tells → IsSynced (D.view disk.new)) }
    ensures calls { OnOk result (Called 4 (D.counts disk.old) (D.counts disk.new)) }
    ensures no_memory { IsErrOf result fault.NoMemory → EndsBy D.does said.NoMemory 4 disk.old disk.new }
    ensures turned { TurnedUpTo 4 (D.counts disk.old).armed (D.counts disk.new).armed (IsOk result) (IsErrOf result fault.DiskStopped) }
    ensures old { OnErr result (D.tells → (l : Layout) → IsOn (D.view disk.old) selected.old l → Lies (D.view disk.new).synced l) }
    ensures halves { IsErrOf result fault.DiskStopped → D.tells → (turn : ℕ) → (D.counts disk.old).armed ≡ Some turn → (l : Layout) → IsOn (D.view disk.old) selected.old l → StopsWith turn (D.view disk.new) l entry.now }
    ensures disk { IsDiskFault result }
    ensures counts { Counted (D.counts disk.old) (D.counts disk.new) (IsErrOf result fault.DiskFailed) (IsErrOf result fault.DiskStopped) }
{
    match selected.append(disk, entry) {
        Ok(()) => Ok(()),
        Err(fault) => Err(of_disk(fault)),
    }
}
