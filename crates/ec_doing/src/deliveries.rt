// Messages, each to its own session and epoch.
ghost use Rattle.std.specs.Prelude.{◌≡◌, ◌==◌, ◌&&◌, ◌≤◌, ℕ, true, IfSome, OnOk};
ghost use Rattle.ec_sessions.specs.Limits.{last_first_id};
ghost use Rattle.ec_cache.specs.Held.{is_within};
ghost use Rattle.ec_wire.specs.Messages.{is_sound};
ghost use Rattle.ec_wire.specs.declared.msg.Msg.TheVariants as msg;
ghost use Rattle.ec_protocol.specs.Clerk as clerk;
ghost use Rattle.ec_doing.specs.Seen.{doing_of, take_grant, take_kept, Does, Spends};

use crate::doing::Doing;
use crate::messages::take_no_room;
use ec_base::{Counter, Hold, NoMemory, ObjId, SessionNo};
use ec_protocol::Waiting;
use ec_sessions::Window;
use ec_volume::SharedImage;
use ec_wire::Msg;

impl Doing {
    // Whether a message of this session and epoch is one of its own.
    fn is_current(&self, session: SessionNo, epoch: u64) -> bool
        ensures { result ≡ clerk.is_session session self.now.session && (epoch == self.now.epoch) }
    {
        self.is_in(session) && epoch == self.epoch
    }

    fn granted(
        &mut self,
        session: SessionNo,
        epoch: u64,
        obj: ObjId,
        number: u64,
        hold: Hold,
        image: SharedImage,
    ) -> Result<(), NoMemory>
        requires { is_within image ≡ true }
        ensures { OnOk result (Does (clerk.in_session session epoch (take_grant obj number hold image)) self.old self.new) }
    {
        if self.is_current(session, epoch) {
            self.take_grant(obj, number, hold, image.into_image()?)?;
        }
        Ok(())
    }

    fn recalled(
        &mut self,
        session: SessionNo,
        epoch: u64,
        obj: ObjId,
        number: u64,
        to: Hold,
    ) -> Result<(), NoMemory>
        ensures { OnOk result (Does (clerk.in_session session epoch (clerk.take_recall obj number to)) self.old self.new) }
    {
        if self.is_current(session, epoch) {
            self.take_recall(obj, number, to)?;
        }
        Ok(())
    }

    fn ids_came(
        &mut self,
        session: SessionNo,
        epoch: u64,
        got: u32,
        number: u64,
        first: ObjId,
    ) -> Result<(), NoMemory>
        requires { first ≤ last_first_id }
        ensures { OnOk result (Does (clerk.in_session session epoch (clerk.take_ids got number first)) self.old self.new) }
    {
        if self.is_current(session, epoch) {
            self.take_ids(got, number, first)?;
        }
        Ok(())
    }

    fn kept(&mut self, session: SessionNo, batch: u64)
        ensures { Does (take_kept session batch) self.old self.new }
    {
        if self.is_in(session) {
            self.ledger.log.kept(batch);
        }
    }

    fn ended(&mut self, session: SessionNo, window: &Window) -> Result<(), NoMemory>
        ensures { OnOk result (Does (clerk.or_hello session (clerk.take_ended window.now)) self.old self.new) }
    {
        if !self.has_session() {
            return self.hello();
        }
        if self.is_in(session) {
            self.take_ended(window)?;
        }
        Ok(())
    }

    fn restarted(
        &mut self,
        session: SessionNo,
        epoch: u64,
        waiting: &[Waiting],
    ) -> Result<(), NoMemory>
        ensures { OnOk result (clerk.or_hello session (clerk.take_restarted epoch) (doing_of waiting.now self.old) ≡ doing_of waiting.now self.new) }
    {
        if !self.has_session() {
            return self.hello();
        }
        if self.is_in(session) {
            self.take_restarted(epoch, waiting)?;
        }
        Ok(())
    }

    fn spent_by_ids(&self, session: SessionNo, epoch: u64, got: u32) -> Option<Counter>
        ensures { IfSome result (λ c. (n x : ℕ) → Spends (msg.Ids session epoch got n x) c self.now) }
    {
        let is_last = self.is_current(session, epoch) && got == self.got && got == u32::MAX;
        if is_last { Some(Counter::Id) } else { None }
    }

    fn spent_by_end(&self, session: SessionNo) -> Option<Counter>
        ensures { IfSome result (λ c. (low mask : ℕ) → Spends (msg.Ended session low mask) c self.now) }
    {
        let is_last = self.is_in(session) && self.age.round == u32::MAX;
        if is_last { Some(Counter::Round) } else { None }
    }

    /// The counter that the message would pass.
    pub fn spent_by(&self, msg: &Msg) -> Option<Counter>
        ensures { IfSome result (λ c. Spends msg.now c self.now) }
    {
        match msg {
            Msg::Ids(session, epoch, got, _, _) => self.spent_by_ids(*session, *epoch, *got),
            Msg::Ended(session, _, _) => self.spent_by_end(*session),
            _ => None,
        }
    }
}

/// What a message does; all else is passed over.
pub(crate) fn taken(doing: &mut Doing, waiting: &mut Vec<Waiting>, msg: Msg) -> Result<(), NoMemory>
    requires { is_sound msg ≡ true }
    ensures { OnOk result (clerk.taken msg (doing_of waiting.old.items doing.old) ≡ doing_of waiting.new.items doing.new) }
{
    match msg {
        Msg::Opened(age, session, epoch) => doing.take_opened(age, session, epoch),
        Msg::Grant(session, epoch, obj, number, hold, image) => {
            doing.granted(session, epoch, obj, number, hold, image)
        }
        Msg::Recall(session, epoch, obj, number, to) => {
            doing.recalled(session, epoch, obj, number, to)
        }
        Msg::Kept(session, _, batch) => {
            doing.kept(session, batch);
            Ok(())
        }
        Msg::Ids(session, epoch, got, number, first) => {
            doing.ids_came(session, epoch, got, number, first)
        }
        Msg::NoRoom(_, _, ask, live, reserved) => {
            take_no_room(doing, waiting, ask, live, reserved)
        }
        Msg::Ended(session, low, mask) => doing.ended(session, &Window { low, mask }),
        Msg::Restarted(session, epoch) => doing.restarted(session, epoch, waiting),
        Msg::OldBoot(asked, greatest) => doing.take_old_boot(asked, greatest),
        _ => Ok(()),
    }
}
