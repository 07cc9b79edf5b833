// Messages: which are taken, and what each kind does.
ghost use Rattle.std.specs.Prelude.{◌≡◌, ◌==◌, ◌&&◌, ◌||◌, OnOk, IfErr, IfOk, IsTrue, None, Some, true, false, MatchOption, is_some};
ghost use Rattle.ec_durable.specs.Durable.{slot};
ghost use Rattle.ec_wire.specs.Messages.{is_sound};
ghost use Rattle.ec_admission.specs.Clerks.{is_last};
ghost use Rattle.ec_server.specs.CallLaws.{IsFromOne};
ghost use Rattle.ec_server.specs.Keepers.{Moves, Hurts, HasNumbers};
ghost use Rattle.ec_server.specs.Kept.{IsLater};
ghost use Rattle.ec_server.specs.Steps.{under, server, at_slot, Admits, FaultLeaves, IsLast, does};
ghost use Rattle.ec_protocol.specs.Server as machine;

use crate::fault::ServerFault;
use crate::keeper::Keeper;
use crate::state::{Core, epoch};
use ec_admission::session_part;
use ec_base::{ClerkId, Hold, ObjId, SessionNo};
use ec_sessions::Window;
use ec_sessions::tokens::Token;
use ec_wire::Msg;

// What becomes of a message by its session and epoch.
#[derive(Drop)]
pub(crate) enum Admission {
    Taken,
    Passed,
    Answered(Msg),
}

// The clerk's last session, where it's this one: whether it's open, and its window.
fn last_window<K: Keeper>(keeper: &K, clerk: ClerkId, session: SessionNo) -> Option<(bool, Window)>
    ensures { MatchOption result (is_last session (slot (K.kept keeper.now) clerk) ≡ false) (λ r. IsLast session r.0 r.1 (slot (K.kept keeper.now) clerk)) }
{
    let slot = keeper.view().sessions.slot(clerk)?;
    if slot.session != session {
        return None;
    }
    Some((slot.is_open, slot.window))
}

// A proof knows that the first id is from 1. No code is left of this.
fn read_first(tokens: &[(ObjId, Hold)])
    ensures { IsFromOne tokens.now }
{
    if let [(id, _), ..] = tokens {
        let _number = id.get();
    }
}

impl Core {
    // What a message of the clerk does; a kind that isn't for the server is passed over.
    pub(crate) fn taken<K: Keeper>(
        &mut self,
        keeper: &mut K,
        clerk: ClerkId,
        msg: &Msg,
    ) -> Result<(), ServerFault>
        requires { IsTrue (is_sound msg.now) }
        ensures ok { OnOk result (machine.taken clerk msg.now (under (K.kept keeper.old) self.old) ≡ under (K.kept keeper.new) self.new) }
        ensures err { IfErr result (λ fault. FaultLeaves fault (K.counts keeper.old) (K.counts keeper.new) (machine.taken clerk msg.now (under (K.kept keeper.old) self.old)) (server (K.kept keeper.old) self.old) (server (K.kept keeper.new) self.new)) }
        ensures did { OnOk result (Moves K.did self.old.rec self.new keeper.old keeper.new) }
        ensures keeper { IfErr result (λ fault. Hurts HasNumbers K.did K.broke fault (machine.taken clerk msg.now (under (K.kept keeper.old) self.old)) keeper.old keeper.new) }
        ensures later { IsLater (K.counts keeper.old) (K.counts keeper.new) }
    {
        if let Msg::Hello(from, age) = msg {
            return self.hello(keeper, clerk, *from, *age);
        }
        let Some(part) = session_part(msg) else {
            return Ok(());
        };
        match self.admission(
            keeper,
            clerk,
            part.session,
            part.at_epoch,
            part.needs_no_claim,
        ) {
            Admission::Taken => self.carry_out(keeper, clerk, msg),
            Admission::Passed => Ok(()),
            Admission::Answered(answer) => {
                self.tell(clerk, answer)?;
                Ok(())
            }
        }
    }

    // What a message does whose session is open, and of this epoch.
    fn carry_out<K: Keeper>(
        &mut self,
        keeper: &mut K,
        clerk: ClerkId,
        msg: &Msg,
    ) -> Result<(), ServerFault>
        requires sound { IsTrue (is_sound msg.now) }
        requires slot { is_some (slot (K.kept keeper.old) clerk) ≡ true }
        ensures ok { OnOk result (at_slot clerk (does clerk msg.now) (under (K.kept keeper.old) self.old) ≡ under (K.kept keeper.new) self.new) }
        ensures err { IfErr result (λ fault. FaultLeaves fault (K.counts keeper.old) (K.counts keeper.new) (at_slot clerk (does clerk msg.now) (under (K.kept keeper.old) self.old)) (server (K.kept keeper.old) self.old) (server (K.kept keeper.new) self.new)) }
        ensures did { OnOk result (Moves K.did self.old.rec self.new keeper.old keeper.new) }
        ensures keeper { IfErr result (λ fault. Hurts HasNumbers K.did K.broke fault (at_slot clerk (does clerk msg.now) (under (K.kept keeper.old) self.old)) keeper.old keeper.new) }
        ensures later { IsLater (K.counts keeper.old) (K.counts keeper.new) }
    {
        match msg {
            Msg::Want(session, _, obj, hold, last) => {
                let wanted = Token {
                    hold: *hold,
                    number: *last,
                };
                self.want(keeper, clerk, *session, *obj, wanted)?;
                Ok(())
            }
            Msg::Back(session, _, obj, number, to) => {
                self.back(*session, *obj, *number, *to);
                Ok(())
            }
            Msg::Flush(session, _, batch, ops) => self.flush(keeper, clerk, *session, *batch, ops),
            Msg::Room(session, _, got, ask) => self.room(keeper, clerk, *session, *got, *ask),
            Msg::Claim(session, _, list) => {
                let tokens = list.as_slice();
                read_first(tokens);
                self.claim(keeper, clerk, *session, tokens)
            }
            Msg::Bye(..) => self.finish(keeper, clerk),
            _ => Ok(()),
        }
    }

    // What becomes of a message of this session and epoch. One that isn't taken is passed over, or answered.
    fn admission<K: Keeper>(
        &self,
        keeper: &K,
        clerk: ClerkId,
        session: SessionNo,
        at_epoch: u64,
        needs_no_claim: bool,
    ) -> Admission
        ensures { Admits result clerk session at_epoch needs_no_claim (under (K.kept keeper.now) self.now) }
    {
        let Some((is_open, window)) = last_window(keeper, clerk, session) else {
            return Admission::Passed;
        };
        if !is_open {
            return Admission::Answered(Msg::Ended(session, window.low, window.mask));
        }
        if self.is_current(keeper, session, at_epoch, needs_no_claim) {
            return Admission::Taken;
        }
        Admission::Answered(Msg::Restarted(session, epoch(keeper)))
    }

    // Whether the message is of this epoch, and its session has claimed where that's needed.
    fn is_current<K: Keeper>(
        &self,
        keeper: &K,
        session: SessionNo,
        at_epoch: u64,
        needs_no_claim: bool,
    ) -> bool
        ensures { result ≡ ((at_epoch == (K.kept keeper.now).epoch) && (needs_no_claim || machine.has_claimed session (server (K.kept keeper.now) self.now))) }
    {
        at_epoch == epoch(keeper) && (needs_no_claim || self.has_claimed(session))
    }
}
