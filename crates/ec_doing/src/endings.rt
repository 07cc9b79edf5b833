// The end of a session.
ghost use Rattle.std.specs.Prelude.{OnOk};
ghost use Rattle.ec_protocol.specs.Clerk as clerk;
ghost use Rattle.ec_doing.specs.Seen.{Does};

use crate::doing::Doing;
use ec_base::{List, NoMemory};
use ec_cache::Cache;
use ec_protocol::Out;
use ec_sessions::Window;

impl Doing {
    /// The session is over: what its window doesn't have is lost and owed, the round rises, and the
    /// clerk greets again. The calls that wait go on in the next session.
    pub(crate) fn take_ended(&mut self, window: &Window) -> Result<(), NoMemory>
        ensures { OnOk result (Does (clerk.take_ended window.now) self.old self.new) }
    {
        if self.age.round == u32::MAX {
            return Err(NoMemory);
        }
        let lost = self.ledger.lose(self.alloc, window)?;
        self.age.round += 1;
        self.forget_session()?;
        self.emit(Out::Told(List::of(lost)))?;
        self.hello()
    }

    // Without a session nothing is held, asked or under way.
    fn forget_session(&mut self) -> Result<(), NoMemory>
        ensures { OnOk result (Does (clerk.with_clerk clerk.no_session) self.old self.new) }
    {
        self.cache = Cache::new(self.alloc, self.cache.capacity())?;
        self.session = None;
        self.epoch = 0;
        self.recalls = Vec::new(self.alloc);
        self.pushes = Vec::new(self.alloc);
        self.wanted = Vec::new(self.alloc);
        self.ids = Vec::new(self.alloc);
        self.got = 0;
        self.asking = None;
        Ok(())
    }
}
