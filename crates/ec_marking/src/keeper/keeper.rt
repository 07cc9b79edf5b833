// A store and its disk, as a server's keeper.
ghost use Rattle.std.specs.Prelude.{◌≡◌, true, Ok, Err, OnOk, IfErr};
ghost use Rattle.ec_disk.specs.Effects.{Counted};
ghost use Rattle.ec_durable.specs.Durable.{step};
ghost use Rattle.ec_durable.specs.SoundRecords.{is_sound_record};
ghost use Rattle.ec_marking.specs.OfKeeper.Keeps.{Kept, Broke, Stops};
ghost use Rattle.ec_server.specs.Kept.{KeeperRefuses};
ghost use Rattle.ec_server.specs.declared.keeper.KeepFault.TheVariants as fault;
ghost use Rattle.ec_store.specs.Store.{view_of};

use ec_disk::Disk;
use ec_durable::{Durable, Record};
use ec_server::{KeepFault, Keeper};
use ec_store::{Store, StoreFault};

/// A store and its disk, both lent. Who lent them knows what became of them.
#[derive(Drop)]
pub struct DiskKeeper<'a, D: Disk> {
    store: &'a mut Store,
    disk: &'a mut D,
}

impl<'a, D: Disk> DiskKeeper<'a, D> {
    /// Keeps the state of this store on its disk.
    pub fn new(store: &'a mut Store, disk: &'a mut D) -> DiskKeeper<'a, D>
        ensures store { result.store.now ≡ store.old }
        ensures disk { result.disk.now ≡ disk.old }
        ensures same_store { result.store.ghost_name ≡ store.entry.ghost_name }
        ensures same_disk { result.disk.ghost_name ≡ disk.entry.ghost_name }
    {
        DiskKeeper { store, disk }
    }
}

impl<D: Disk> Keeper for DiskKeeper<'_, D> {
    ghost kept = { λ keeper. view_of keeper.store.now };

    ghost counts = { λ keeper. D.counts keeper.disk.now };

    ghost did = { λ old change new. Kept D.tells D.view D.counts old change new };

    ghost broke = { λ old change new. Broke D.tells D.view D.counts old change new };

    fn view(&self) -> &Durable {
        self.store.view()
    }

    // Where the disk stopped, the number that it was armed with tells what is there.
    fn commit(&mut self, change: &Record) -> Result<(), KeepFault>
        requires sound { is_sound_record change.now ≡ true }
        ensures ok { OnOk result (step change.now (view_of self.old.store.now) ≡ Ok (view_of self.new.store.now)) }
        ensures did { OnOk result (Kept D.tells D.view D.counts self.old change.now self.new) }
        ensures err { IfErr result (λ fault. KeeperRefuses (Broke D.tells D.view D.counts) fault change.now (view_of self.old.store.now) self.old self.new) }
        ensures counts { Counted (D.counts self.old.disk.now) (D.counts self.new.disk.now) (result ≡ Err fault.DiskFailed) (result ≡ Err fault.DiskStopped) }
        ensures stops { result ≡ Err fault.DiskStopped → Stops D.tells D.view D.counts self.old change.now self.new }
    {
        match self.store.commit(self.disk, change) {
            Ok(()) => Ok(()),
            Err(StoreFault::Refused(fault)) => Err(KeepFault::Refused(fault)),
            Err(StoreFault::DiskFailed) => Err(KeepFault::DiskFailed),
            Err(StoreFault::DiskStopped) => Err(KeepFault::DiskStopped),
            Err(StoreFault::NoMemory) => Err(KeepFault::NoMemory),
            Err(StoreFault::BadDisk(_)) => unreachable!(),
        }
    }
}
