// Wants, tokens given back, and claims.
ghost use Rattle.std.specs.Prelude.{◌≡◌, ◌≢◌, ◌&&◌, OnOk, IfErr, IfOk, IsTrue, Some, None, true, is_some};
ghost use Rattle.ec_durable.specs.Durable.{slot};
ghost use Rattle.std.specs.List.{list_all};
ghost use Rattle.ec_base.specs.Tables.{keys};
ghost use Rattle.ec_volume.specs.Volume.{images};
ghost use Rattle.ec_sessions.specs.OfTokens.SoundTokens.{is_claim};
ghost use Rattle.ec_durable.specs.declared.state.Durable.{Durable};
ghost use Rattle.ec_protocol.specs.Server as machine;
ghost use Rattle.ec_server.specs.Keepers.{Moves, Hurts, HasNumbers};
ghost use Rattle.ec_server.specs.Kept.{IsLater};
ghost use Rattle.ec_server.specs.Steps.{under, server, at_slot, StopsServer};

use crate::fault::ServerFault;
use crate::keeper::Keeper;
use crate::state::{Core, epoch};
use ec_base::{ClerkId, Hold, NoMemory, ObjId, SessionNo};
use ec_sessions::tokens::{ClaimFault, Token};
use ec_volume::SharedImage;
use ec_wire::Msg;

// The object's image now.
fn image<K: Keeper>(keeper: &K, obj: ObjId) -> Result<SharedImage, NoMemory>
    ensures { IfOk result (λ image. image ≡ images (K.kept keeper.now).volume obj) }
{
    keeper.view().volume.share(obj)
}

impl Core {
    // A grant, with the object's image now.
    pub(crate) fn send_grant<K: Keeper>(
        &mut self,
        keeper: &K,
        clerk: ClerkId,
        session: SessionNo,
        obj: ObjId,
        token: Token,
    ) -> Result<(), NoMemory>
        ensures does { OnOk result (machine.send_grant clerk session obj token.hold token.number (under (K.kept keeper.now) self.old) ≡ under (K.kept keeper.now) self.new) }
        ensures rec { OnOk result (self.new.rec ≡ self.old.rec) }
    {
        let Token { hold, number } = token;
        let image = image(keeper, obj)?;
        let grant = Msg::Grant(session, epoch(keeper), obj, number, hold, image);
        self.tell(clerk, grant)?;
        Ok(())
    }

    fn note(&mut self, session: SessionNo, obj: ObjId, hold: Hold) -> Result<(), NoMemory>
        requires { hold ≢ Hold.Free }
        ensures does { OnOk result ((d : Durable) → under d self.new ≡ machine.note session obj hold (under d self.old)) }
        ensures rec { OnOk result (self.new.rec ≡ self.old.rec) }
    {
        self.recalls.want(session, obj, hold)
    }

    // This mode is wanted, and the clerk's last token had this number. A token above that is sent again; else the want is noted.
    pub(crate) fn want<K: Keeper>(
        &mut self,
        keeper: &K,
        clerk: ClerkId,
        session: SessionNo,
        obj: ObjId,
        wanted: Token,
    ) -> Result<(), NoMemory>
        requires { wanted.hold ≢ Hold.Free }
        ensures does { OnOk result (machine.want clerk session obj wanted.hold wanted.number (under (K.kept keeper.now) self.old) ≡ under (K.kept keeper.now) self.new) }
        ensures rec { OnOk result (self.new.rec ≡ self.old.rec) }
    {
        let Token { hold, number: last } = wanted;
        let Some((held, number)) = self.tokens.token(session, obj) else {
            self.note(session, obj, hold)?;
            return Ok(());
        };
        if last < number {
            let token = Token { hold: held, number };
            self.send_grant(keeper, clerk, session, obj, token)?;
        } else {
            self.note(session, obj, hold)?;
        }
        Ok(())
    }

    pub(crate) fn back(&mut self, session: SessionNo, obj: ObjId, number: u64, to: Hold)
        ensures does { (d : Durable) → under d self.new ≡ machine.back session obj number to (under d self.old) }
        ensures rec { self.new.rec ≡ self.old.rec }
    {
        self.tokens.give_back(session, obj, number, to);
    }

    // The first claim in this epoch is recorded, and ends the session where it clashes.
    pub(crate) fn claim<K: Keeper>(
        &mut self,
        keeper: &mut K,
        clerk: ClerkId,
        session: SessionNo,
        list: &[(ObjId, Hold)],
    ) -> Result<(), ServerFault>
        requires list { IsTrue (is_claim list.now) }
        requires slot { is_some (slot (K.kept keeper.old) clerk) ≡ true }
        ensures ok { OnOk result (at_slot clerk (machine.claim clerk session list.now) (under (K.kept keeper.old) self.old) ≡ under (K.kept keeper.new) self.new) }
        ensures err { IfErr result (λ fault. StopsServer fault (K.counts keeper.old) (K.counts keeper.new)) }
        ensures did { OnOk result (Moves K.did self.old.rec self.new keeper.old keeper.new) }
        ensures keeper { IfErr result (λ fault. Hurts HasNumbers K.did K.broke fault (at_slot clerk (machine.claim clerk session list.now) (under (K.kept keeper.old) self.old)) keeper.old keeper.new) }
        ensures later { IsLater (K.counts keeper.old) (K.counts keeper.new) }
    {
        if self.has_claimed(session) {
            return Ok(());
        }
        match self.tokens.claim(session, list) {
            Ok(()) => self.add_claimed(session)?,
            Err(ClaimFault::Clash(..)) => self.finish(keeper, clerk)?,
            Err(ClaimFault::NoMemory) => return Err(ServerFault::NoMemory),
        }
        Ok(())
    }
}
