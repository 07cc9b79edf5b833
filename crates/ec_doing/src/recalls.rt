// Recalls: one is answered where no undurable operation has the object.
ghost use Rattle.std.specs.Prelude.{◌≡◌, [], ◌∷◌, OnOk};
ghost use Rattle.ec_base.specs.Tables.{at};
ghost use Rattle.ec_protocol.specs.Clerk as clerk;
ghost use Rattle.ec_doing.specs.Seen.{clerk_with, send_back, Does};

use crate::doing::Doing;
use crate::holdings::{is_ready, lower_held};
use ec_base::{Hold, NoMemory, ObjId};
use ec_log::Asked;
use ec_protocol::Recalled;
use ec_wire::Msg;
use std::mem;

impl Doing {
    /// Whether a recall of the object isn't answered.
    pub(crate) fn under_recall(&self, obj: ObjId) -> bool
        ensures { result ≡ clerk.under_recall obj (clerk_with [] self.now) }
    {
        self.recalls.iter().any(|recalled| recalled.obj == obj)
    }

    // The mode that is left: Free where the number isn't the held one.
    fn left_of(&self, recalled: &Recalled) -> Hold
        ensures { result ≡ clerk.left_of recalled.now (at recalled.now.obj self.now.cache.held) }
    {
        match self.cache.held(recalled.obj) {
            Some(held) if held.number == recalled.number => {
                if recalled.to.is_below(&held.hold) {
                    recalled.to
                } else {
                    held.hold
                }
            }
            _ => Hold::Free,
        }
    }

    /// Sends a token back, of which this mode is left.
    pub(crate) fn send_back(&mut self, obj: ObjId, number: u64, to: Hold) -> Result<(), NoMemory>
        ensures { OnOk result (Does (send_back obj number to) self.old self.new) }
    {
        let msg = Msg::Back(self.session(), self.epoch, obj, number, to);
        self.send(msg)
    }

    fn give_back(&mut self, recalled: &Recalled) -> Result<(), NoMemory>
        ensures { OnOk result (Does (clerk.give_back recalled.now) self.old self.new) }
    {
        let to = self.left_of(recalled);
        lower_held(&mut self.cache, recalled.obj, to);
        self.cache.passed(recalled.obj, recalled.number)?;
        self.send_back(recalled.obj, recalled.number, to)
    }

    fn is_ready(&self, recalled: &Recalled) -> bool
        ensures { result ≡ clerk.is_ready recalled.now (clerk_with [] self.now) }
    {
        is_ready(&self.cache, &self.ledger.log, recalled)
    }

    pub(crate) fn keep_recall(&mut self, recalled: Recalled) -> Result<(), NoMemory>
        ensures { OnOk result (Does (clerk.keep_recall recalled) self.old self.new) }
    {
        self.recalls.push(recalled)?;
        Ok(())
    }

    fn try_recall(&mut self, recalled: &Recalled) -> Result<(), NoMemory>
        ensures { OnOk result (Does (clerk.try_recalls (recalled.now ∷ [])) self.old self.new) }
    {
        if self.is_ready(recalled) {
            return self.give_back(recalled);
        }
        self.ask_for(Asked::Object(recalled.obj))?;
        self.keep_recall(*recalled)
    }

    /// Each recall is answered where it can be, and else its object's closure is asked for.
    pub(crate) fn answer_recalls(&mut self) -> Result<(), NoMemory>
        ensures { OnOk result (Does clerk.answer_recalls self.old self.new) }
    {
        let recalls = mem::replace(&mut self.recalls, Vec::new(self.alloc));
        self.try_recalls(&recalls)
    }

    fn try_recalls(&mut self, recalls: &[Recalled]) -> Result<(), NoMemory>
        ensures { OnOk result (Does (clerk.try_recalls recalls.now) self.old self.new) }
    {
        'recalls: for recalled in recalls {
            self.try_recall(recalled)?;
        }
        Ok(())
    }
}
