// A lent disk is a disk: each call is the same call on the disk itself.
use crate::disk::{Choice, CrashDisk, Disk, DiskAnswer, DiskLen};

impl<D: Disk> Disk for &mut D {
    ghost tells = { D.tells };

    ghost view = { λ disk. D.view disk.now };

    ghost counts = { λ disk. D.counts disk.now };

    ghost does = { λ old call new. D.does old.now call new.now };

    ghost given = { λ told disk. D.given told disk.now };

    ghost given_synced = { λ told disk. D.given_synced told disk.now };

    ghost counts_now = { λ told disk since image earlier left. D.counts_now told disk.now since image earlier left };

    ghost only_now = { λ told disk image left. D.only_now told disk.now image left };

    fn read_at(&mut self, at: u64, into: &mut [u8]) -> DiskAnswer {
        (**self).read_at(at, into)
    }

    fn write_at(&mut self, at: u64, piece: &[u8]) -> DiskAnswer {
        (**self).write_at(at, piece)
    }

    fn sync(&mut self) -> DiskAnswer {
        (**self).sync()
    }

    fn len(&mut self) -> DiskLen {
        (**self).len()
    }
}

impl<D: CrashDisk> CrashDisk for &mut D {
    ghost tries = { λ old trial new. D.tries old.now trial new.now };

    fn arm(&mut self, calls: u64) {
        (**self).arm(calls);
    }

    fn disarm(&mut self) {
        (**self).disarm();
    }

    fn power_cut(&mut self, choice: Choice) -> DiskAnswer {
        (**self).power_cut(choice)
    }
}
