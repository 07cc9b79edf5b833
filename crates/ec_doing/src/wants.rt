// Wants: one goes out only where the whole mode is below it, and not for an object under recall.
ghost use Rattle.std.specs.Prelude.{◌≡◌, [], OnOk};
ghost use Rattle.std.specs.List.{list_any};
ghost use Rattle.ec_protocol.specs.Clerk as clerk;
ghost use Rattle.ec_doing.specs.Seen.{clerk_with, Does};

use crate::doing::Doing;
use ec_base::{Hold, NoMemory, ObjId};
use ec_protocol::Wanted;
use ec_wire::Msg;

impl Doing {
    /// Whether a want of this mode may go out.
    pub(crate) fn may_want(&self, obj: ObjId, hold: Hold) -> bool
        ensures { result ≡ clerk.may_want obj hold (clerk_with [] self.now) }
    {
        self.session.is_some() && !self.under_recall(obj) && self.cache.mode(obj).is_below(&hold)
    }

    fn wanted(&self, obj: ObjId, hold: Hold) -> Wanted
        ensures { result ≡ clerk.wanted obj hold (clerk_with [] self.now) }
    {
        Wanted {
            obj,
            hold,
            last: self.cache.last(obj),
        }
    }

    pub(crate) fn send_want(&mut self, obj: ObjId, hold: Hold) -> Result<(), NoMemory>
        ensures { OnOk result (Does (clerk.send_want obj hold) self.old self.new) }
    {
        let wanted = self.wanted(obj, hold);
        let last = wanted.last;
        self.wanted.push(wanted)?;
        let msg = Msg::Want(self.session(), self.epoch, obj, hold, last);
        self.send(msg)
    }

    fn was_sent(&self, wanted: Wanted) -> bool
        ensures { result ≡ list_any (clerk.is_wanted wanted) (clerk_with [] self.now).wanted }
    {
        self.wanted
            .iter()
            .rev()
            .any(|other| is_wanted(wanted, *other))
    }

    /// Wants a token, once for each object, mode, last number and epoch.
    pub(crate) fn want(&mut self, obj: ObjId, hold: Hold) -> Result<(), NoMemory>
        ensures { OnOk result (Does (clerk.want obj hold) self.old self.new) }
    {
        if self.may_want(obj, hold) && !self.was_sent(self.wanted(obj, hold)) {
            self.send_want(obj, hold)?;
        }
        Ok(())
    }
}

fn is_wanted(wanted: Wanted, other: Wanted) -> bool
    ensures { result ≡ clerk.is_wanted wanted other }
{
    wanted.obj == other.obj && wanted.hold == other.hold && wanted.last == other.last
}
