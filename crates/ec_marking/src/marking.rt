// A keeper that marks the record that it commits.
ghost use Rattle.std.specs.Prelude.{◌≡◌, ◌⊎◌, ◌++◌, ◌∷◌, [], length, None};
ghost use Rattle.ec_marking.specs.Marking.{HasMarked, MayHaveMarked};
ghost use Rattle.ec_marking.specs.OfKeeper.Keeps.{Kept, Broke, Stops};
ghost use Rattle.ec_store.specs.Store.{view_of};

use crate::keeper::DiskKeeper;
use crate::marks::Mark;
use ec_base::NoMemory;
use ec_base::trace::Trace;
use ec_disk::Disk;
use ec_durable::{Durable, Record};
use ec_server::{KeepFault, Keeper};
use std::alloc::Global;

// What a keeper notes of its records.
#[derive(Drop)]
pub(crate) struct Marks {
    // of the record that was committed, or in which the disk stopped
    pub(crate) mark: Option<Mark>,
    // the records in which the disk stopped
    pub(crate) stopped: Trace<Record>,
}

#[derive(Drop)]
pub(crate) struct Marking<'k, 'a, D: Disk> {
    pub(crate) alloc: Global,
    pub(crate) keeper: DiskKeeper<'k, D>,
    // those before
    pub(crate) records: &'a Trace<Record>,
    pub(crate) marks: &'a mut Marks,
}

impl<D: Disk> Keeper for Marking<'_, '_, D> {
    ghost kept = { λ k. view_of k.keeper.store.now };

    // A stop counts where its record has a mark.
    ghost counts = { λ k. record (D.counts k.keeper.disk.now) { stops = length k.marks.now.stopped.items } };

    ghost did = { λ old r new. Kept D.tells D.view D.counts old.keeper r new.keeper × (new.marks.ghost_name ≡ old.marks.ghost_name) × HasMarked new.marks.now.mark r (view_of old.keeper.store.now) old.records.now.items (D.counts old.keeper.disk.now) (D.counts new.keeper.disk.now) };

    ghost broke = { λ old r new. (new.marks.ghost_name ≡ old.marks.ghost_name) × MayHaveMarked (new.keeper ≡ old.keeper) (Broke D.tells D.view D.counts old.keeper r new.keeper) (Stops D.tells D.view D.counts old.keeper r new.keeper) old.marks.now.stopped.items new.marks.now.stopped.items new.marks.now.mark r (view_of old.keeper.store.now) old.records.now.items (D.counts old.keeper.disk.now) (D.counts new.keeper.disk.now) };

    fn view(&self) -> &Durable {
        self.keeper.view()
    }

    fn commit(&mut self, change: &Record) -> Result<(), KeepFault> {
        // made before the record, so that no memory is wanted behind it
        let mark = match Mark::of(self.alloc, change, self.keeper.view(), self.records) {
            Ok(mark) => mark,
            Err(NoMemory) => return Err(KeepFault::NoMemory),
        };
        match self.keeper.commit(change) {
            Ok(()) => {
                self.marks.mark = Some(mark);
                Ok(())
            }
            Err(KeepFault::DiskStopped) => {
                self.marks.mark = Some(mark);
                self.marks.stopped = self.marks.stopped.and(change);
                Err(KeepFault::DiskStopped)
            }
            Err(KeepFault::Refused(fault)) => Err(KeepFault::Refused(fault)),
            Err(KeepFault::DiskFailed) => Err(KeepFault::DiskFailed),
            Err(KeepFault::NoMemory) => Err(KeepFault::NoMemory),
        }
    }
}
