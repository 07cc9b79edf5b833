// Asking for closures to be durable.
ghost use Rattle.std.specs.Prelude.{◌≡◌, [], OnOk};
ghost use Rattle.ec_protocol.specs.Clerk as clerk;
ghost use Rattle.ec_doing.specs.Seen.{clerk_with, send_if_batch, Does};

use crate::doing::Doing;
use crate::holdings::batch_of;
use ec_base::NoMemory;
use ec_log::{Asked, Pick};
use ec_wire::Msg;

impl Doing {
    /// Whether nothing that is asked for by itself is undurable.
    pub(crate) fn is_settled(&self, asked: Asked) -> bool
        ensures { result ≡ clerk.is_settled asked (clerk_with [] self.now) }
    {
        self.ledger.log.first(asked).is_none()
    }

    /// Sends the batch of this number.
    pub(crate) fn send_batch(&mut self, batch: u64) -> Result<(), NoMemory>
        ensures { OnOk result (Does (clerk.send_batch batch) self.old self.new) }
    {
        let ops = batch_of(self.alloc, &self.ledger.log, batch)?;
        let msg = Msg::Flush(self.session(), self.epoch, batch, ops);
        self.send(msg)
    }

    /// Asks for a closure: a new batch is sent, where there is one to send.
    pub(crate) fn ask_for(&mut self, asked: Asked) -> Result<(), NoMemory>
        ensures { OnOk result (Does (clerk.ask_for asked) self.old self.new) }
    {
        let Ok(pick) = self.ledger.log.pick(asked) else {
            return Err(NoMemory);
        };
        self.send_picked(&pick)
    }

    pub(crate) fn send_picked(&mut self, pick: &Pick) -> Result<(), NoMemory>
        ensures { OnOk result (Does (send_if_batch pick.now) self.old self.new) }
    {
        match pick {
            Pick::Batch(batch, _) => self.send_batch(*batch),
            Pick::Settled | Pick::Behind(_) | Pick::Window(_) => Ok(()),
        }
    }
}
