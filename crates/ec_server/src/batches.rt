// Batches.
ghost use Rattle.std.specs.Prelude.{◌≡◌, OnOk, IfErr, true};
ghost use Rattle.ec_durable.specs.Durable.{slot, has_batch};
ghost use Rattle.ec_durable.specs.SoundRecords.{is_sound_record};
ghost use Rattle.ec_protocol.specs.Server as machine;
ghost use Rattle.ec_server.specs.Keepers.{Moves, Hurts, HasNumbers};
ghost use Rattle.ec_server.specs.Kept.{IsLater};
ghost use Rattle.ec_server.specs.Steps.{under, at_slot, StopsServer};

use crate::fault::ServerFault;
use crate::keeper::Keeper;
use crate::state::{Core, epoch};
use ec_admission::{may_write, window_has};
use ec_base::{ClerkId, Duplicate, List, OpNo, SessionNo};
use ec_durable::Record;
use ec_volume::Update;
use ec_wire::Msg;

// Whether the clerk's window has the batch.
fn is_done<K: Keeper>(keeper: &K, clerk: ClerkId, batch: u64) -> bool
    ensures { result ≡ has_batch batch (slot (K.kept keeper.now) clerk) }
{
    window_has(&keeper.view().sessions, clerk, batch)
}

impl Core {
    // A batch that the window has is answered; another one is committed, and ends the session where it can't be.
    pub(crate) fn flush<K: Keeper>(
        &mut self,
        keeper: &mut K,
        clerk: ClerkId,
        session: SessionNo,
        batch: u64,
        ops: &List<(OpNo, Update)>,
    ) -> Result<(), ServerFault>
        requires { is_sound_record (Record.Batch clerk session batch ops.now) ≡ true }
        ensures ok { OnOk result (at_slot clerk (machine.flush clerk session batch ops.now) (under (K.kept keeper.old) self.old) ≡ under (K.kept keeper.new) self.new) }
        ensures err { IfErr result (λ fault. StopsServer fault (K.counts keeper.old) (K.counts keeper.new)) }
        ensures did { OnOk result (Moves K.did self.old.rec self.new keeper.old keeper.new) }
        ensures keeper { IfErr result (λ fault. Hurts HasNumbers K.did K.broke fault (at_slot clerk (machine.flush clerk session batch ops.now) (under (K.kept keeper.old) self.old)) keeper.old keeper.new) }
        ensures later { IsLater (K.counts keeper.old) (K.counts keeper.new) }
    {
        if is_done(keeper, clerk, batch) {
            self.tell(clerk, Msg::Kept(session, epoch(keeper), batch))?;
            return Ok(());
        }
        if !may_write(self.alloc, &self.tokens, session, ops.as_slice())? {
            return self.finish(keeper, clerk);
        }
        let change = Record::Batch(clerk, session, batch, ops.duplicate()?);
        if !self.commit(keeper, change)? {
            return self.finish(keeper, clerk);
        }
        self.tell(clerk, Msg::Kept(session, epoch(keeper), batch))?;
        Ok(())
    }
}
