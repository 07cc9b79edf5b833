// Sessions: their openings and their ends.
ghost use Rattle.std.specs.Prelude.{◌≡◌, OnOk, IfErr, Some, None, MatchOption};
ghost use Rattle.ec_durable.specs.Durable.{slot};
ghost use Rattle.ec_sessions.specs.declared.slot.Slot.{Slot};
ghost use Rattle.ec_durable.specs.declared.state.Durable.{Durable};
ghost use Rattle.ec_protocol.specs.Server as machine;
ghost use Rattle.ec_server.specs.Keepers.{Moves, Hurts, HasNumbers};
ghost use Rattle.ec_server.specs.Kept.{IsLater};
ghost use Rattle.ec_server.specs.Steps.{under, server, at_slot, FaultLeaves, StopsServer};

use crate::fault::ServerFault;
use crate::keeper::Keeper;
use crate::state::{Core, epoch};
use ec_base::{Age, ClerkId, Counter, LAST_COUNTER, SessionNo};
use ec_durable::Record;
use ec_sessions::{Greeting, Window};
use ec_wire::Msg;

impl Core {
    // The clerk's open session ends.
    pub(crate) fn finish<K: Keeper>(
        &mut self,
        keeper: &mut K,
        clerk: ClerkId,
    ) -> Result<(), ServerFault>
        ensures ok { OnOk result (at_slot clerk (machine.finish clerk) (under (K.kept keeper.old) self.old) ≡ under (K.kept keeper.new) self.new) }
        ensures err { IfErr result (λ fault. StopsServer fault (K.counts keeper.old) (K.counts keeper.new)) }
        ensures did { OnOk result (Moves K.did self.old.rec self.new keeper.old keeper.new) }
        ensures keeper { IfErr result (λ fault. Hurts HasNumbers K.did K.broke fault (at_slot clerk (machine.finish clerk) (under (K.kept keeper.old) self.old)) keeper.old keeper.new) }
        ensures later { IsLater (K.counts keeper.old) (K.counts keeper.new) }
    {
        let Some((session, window)) = last_session(keeper, clerk) else {
            return Ok(());
        };
        if self.commit(keeper, Record::End(clerk, session))? {
            self.forget(session);
            self.tell(clerk, Msg::Ended(session, window.low, window.mask))?;
        }
        Ok(())
    }

    pub(crate) fn hello<K: Keeper>(
        &mut self,
        keeper: &mut K,
        clerk: ClerkId,
        from: ClerkId,
        age: Age,
    ) -> Result<(), ServerFault>
        ensures ok { OnOk result (machine.hello clerk from age (under (K.kept keeper.old) self.old) ≡ under (K.kept keeper.new) self.new) }
        ensures err { IfErr result (λ fault. FaultLeaves fault (K.counts keeper.old) (K.counts keeper.new) (machine.hello clerk from age (under (K.kept keeper.old) self.old)) (server (K.kept keeper.old) self.old) (server (K.kept keeper.new) self.new)) }
        ensures did { OnOk result (Moves K.did self.old.rec self.new keeper.old keeper.new) }
        ensures keeper { IfErr result (λ fault. Hurts HasNumbers K.did K.broke fault (machine.hello clerk from age (under (K.kept keeper.old) self.old)) keeper.old keeper.new) }
        ensures later { IsLater (K.counts keeper.old) (K.counts keeper.new) }
    {
        if clerk != from {
            return Ok(());
        }
        let greeting = keeper.view().sessions.hello(clerk, age);
        self.greet(keeper, clerk, age, greeting)
    }

    fn greet<K: Keeper>(
        &mut self,
        keeper: &mut K,
        clerk: ClerkId,
        age: Age,
        greeting: Greeting,
    ) -> Result<(), ServerFault>
        ensures ok { OnOk result (machine.greet clerk age greeting (under (K.kept keeper.old) self.old) ≡ under (K.kept keeper.new) self.new) }
        ensures err { IfErr result (λ fault. FaultLeaves fault (K.counts keeper.old) (K.counts keeper.new) (machine.greet clerk age greeting (under (K.kept keeper.old) self.old)) (server (K.kept keeper.old) self.old) (server (K.kept keeper.new) self.new)) }
        ensures did { OnOk result (Moves K.did self.old.rec self.new keeper.old keeper.new) }
        ensures keeper { IfErr result (λ fault. Hurts HasNumbers K.did K.broke fault (machine.greet clerk age greeting (under (K.kept keeper.old) self.old)) keeper.old keeper.new) }
        ensures later { IsLater (K.counts keeper.old) (K.counts keeper.new) }
    {
        let epoch = epoch(keeper);
        match greeting {
            Greeting::Greater(old) => return self.open_new(keeper, clerk, age, old),
            Greeting::Same(session) => self.tell(clerk, Msg::Opened(age, session, epoch))?,
            Greeting::Ended(session, window) => {
                self.tell(clerk, Msg::Opened(age, session, epoch))?;
                self.tell(clerk, Msg::Ended(session, window.low, window.mask))?;
            }
            Greeting::OldBoot(greatest) => self.tell(clerk, Msg::OldBoot(age, greatest))?,
        }
        Ok(())
    }

    // A new session. The old one ends, if there is one.
    fn open_new<K: Keeper>(
        &mut self,
        keeper: &mut K,
        clerk: ClerkId,
        age: Age,
        old: Option<SessionNo>,
    ) -> Result<(), ServerFault>
        ensures ok { OnOk result (machine.open_new clerk age old (under (K.kept keeper.old) self.old) ≡ under (K.kept keeper.new) self.new) }
        ensures err { IfErr result (λ fault. FaultLeaves fault (K.counts keeper.old) (K.counts keeper.new) (machine.open_new clerk age old (under (K.kept keeper.old) self.old)) (server (K.kept keeper.old) self.old) (server (K.kept keeper.new) self.new)) }
        ensures did { OnOk result (Moves K.did self.old.rec self.new keeper.old keeper.new) }
        ensures keeper { IfErr result (λ fault. Hurts HasNumbers K.did K.broke fault (machine.open_new clerk age old (under (K.kept keeper.old) self.old)) keeper.old keeper.new) }
        ensures later { IsLater (K.counts keeper.old) (K.counts keeper.new) }
    {
        let session = SessionNo(next_session(keeper));
        if session.0 >= LAST_COUNTER {
            return Err(ServerFault::Spent(Counter::Session));
        }
        if self.commit(keeper, Record::Open(clerk, age, session))? {
            self.forget_old(old);
            self.add_claimed(session)?;
            self.tell(clerk, Msg::Opened(age, session, epoch(keeper)))?;
        }
        Ok(())
    }

    fn forget_old(&mut self, old: Option<SessionNo>)
        ensures does { (d : Durable) → under d self.new ≡ machine.with_server (machine.forget_old old) (under d self.old) }
        ensures rec { self.new.rec ≡ self.old.rec }
    {
        if let Some(session) = old {
            self.forget(session);
        }
    }
}

// The clerk's last session, with its window.
fn last_session<K: Keeper>(keeper: &K, clerk: ClerkId) -> Option<(SessionNo, Window)>
    ensures { MatchOption result (slot (K.kept keeper.now) clerk ≡ None) (λ r. (sl : Slot) × (slot (K.kept keeper.now) clerk ≡ Some sl) × (sl.session ≡ r.0) × (sl.window ≡ r.1)) }
{
    let slot = keeper.view().sessions.slot(clerk)?;
    Some((slot.session, slot.window))
}

fn next_session<K: Keeper>(keeper: &K) -> u64
    ensures { result ≡ (K.kept keeper.now).next_session }
{
    keeper.view().next_session
}
