// Tokens beyond the capacity go back, but those on objects with undurable operations.
ghost use Rattle.std.specs.Prelude.{OnOk};
ghost use Rattle.ec_protocol.specs.Clerk as clerk;
ghost use Rattle.ec_doing.specs.Seen.{Does, send_numbers};

use crate::doing::Doing;
use crate::holdings::on_objects;
use ec_base::{Hold, NoMemory, ObjId};

impl Doing {
    /// Gives back what is beyond the capacity.
    pub(crate) fn evict(&mut self) -> Result<(), NoMemory>
        ensures { OnOk result (Does clerk.evict self.old self.new) }
    {
        if self.cache.len() <= self.cache.capacity() {
            return Ok(());
        }
        let pinned = on_objects(self.alloc, self.ledger.log.undurable())?;
        let gone = self.cache.evict(&pinned)?;
        self.send_backs(&gone)
    }

    fn send_backs(&mut self, gone: &[(ObjId, u64)]) -> Result<(), NoMemory>
        ensures { OnOk result (Does (send_numbers gone.now) self.old self.new) }
    {
        'gone: for (obj, number) in gone {
            self.send_back(*obj, *number, Hold::Free)?;
        }
        Ok(())
    }
}
