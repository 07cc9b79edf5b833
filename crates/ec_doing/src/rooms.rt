// Rooms: ids are asked for once, until the answer.
ghost use Rattle.std.specs.Prelude.{◌≡◌, OnOk};
ghost use Rattle.ec_protocol.specs.Clerk as clerk;
ghost use Rattle.ec_doing.specs.Seen.{Does};

use crate::doing::Doing;
use ec_base::{NoMemory, next};
use ec_wire::Msg;

impl Doing {
    pub(crate) fn send_room(&mut self, ask: u64) -> Result<(), NoMemory>
        ensures { OnOk result (Does (clerk.send_room ask) self.old self.new) }
    {
        let msg = Msg::Room(self.session(), self.epoch, self.got, ask);
        self.send(msg)
    }

    fn ask_anew(&mut self) -> Result<(), NoMemory>
        ensures { OnOk result (Does clerk.ask_anew self.old self.new) }
    {
        let Some(ask) = next(self.asks) else {
            return Err(NoMemory);
        };
        self.asks = ask;
        self.asking = Some(ask);
        self.send_room(ask)
    }

    /// Asks for ids, in a session, unless an asking isn't answered.
    pub(crate) fn ask_room(&mut self) -> Result<(), NoMemory>
        ensures { OnOk result (Does clerk.ask_room self.old self.new) }
    {
        if self.session.is_some() && self.asking.is_none() {
            self.ask_anew()?;
        }
        Ok(())
    }
}
