// Pushes: a pushed closure is asked for until it's durable.
ghost use Rattle.std.specs.Prelude.{◌≡◌, [], ◌∷◌, OnOk};
ghost use Rattle.ec_protocol.specs.Clerk as clerk;
ghost use Rattle.ec_doing.specs.Seen.{clerk_with, keep_if_own, Does};

use crate::doing::Doing;
use ec_base::{NoMemory, OpNo};
use ec_log::Asked;
use std::mem;

impl Doing {
    pub(crate) fn keep_push(&mut self, op: OpNo) -> Result<(), NoMemory>
        ensures { OnOk result (Does (clerk.keep_push op) self.old self.new) }
    {
        self.pushes.push(op)?;
        Ok(())
    }

    /// Whether this start issued the operation.
    pub fn has_issued(&self, op: OpNo) -> bool
        ensures { result ≡ clerk.has_issued op (clerk_with [] self.now) }
    {
        1 <= op.0 && op.0 < self.ledger.log.next()
    }

    /// Keeps an operation of this session. Of an earlier one nothing is left to do.
    pub(crate) fn keep_if_own(&mut self, op: OpNo) -> Result<(), NoMemory>
        ensures { OnOk result (Does (keep_if_own op) self.old self.new) }
    {
        if self.ledger.log.first_of_session() <= op.0 {
            self.keep_push(op)?;
        }
        Ok(())
    }

    fn try_push(&mut self, op: OpNo) -> Result<(), NoMemory>
        ensures { OnOk result (Does (clerk.try_pushes (op ∷ [])) self.old self.new) }
    {
        if self.is_settled(Asked::Op(op)) {
            return Ok(());
        }
        self.keep_push(op)?;
        self.ask_for(Asked::Op(op))
    }

    /// Each pushed operation stays until it's durable, and its closure is asked for.
    pub(crate) fn ask_pushes(&mut self) -> Result<(), NoMemory>
        ensures { OnOk result (Does clerk.ask_pushes self.old self.new) }
    {
        let pushes = mem::replace(&mut self.pushes, Vec::new(self.alloc));
        self.try_pushes(&pushes)
    }

    fn try_pushes(&mut self, pushes: &[OpNo]) -> Result<(), NoMemory>
        ensures { OnOk result (Does (clerk.try_pushes pushes.now) self.old self.new) }
    {
        'pushes: for op in pushes {
            self.try_push(*op)?;
        }
        Ok(())
    }
}
