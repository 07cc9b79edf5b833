// Whole steps: a message, an administrator's end and a start.
ghost use Rattle.std.specs.Prelude.{◌≡◌, ◌+◌, OnOk, IfErr, IfOk, IsTrue, Some, None, MatchOption};
ghost use Rattle.ec_durable.specs.Durable.{slot};
ghost use Rattle.ec_durable.specs.declared.state.Durable.{Durable};
ghost use Rattle.ec_sessions.specs.Slots.{slot_at, is_open};
ghost use Rattle.ec_wire.specs.Messages.{is_sound};
ghost use Rattle.ec_protocol.specs.Server as machine;
ghost use Rattle.ec_server.specs.Clerks.{HaveClerks};
ghost use Rattle.ec_server.specs.Keepers.{Did, Moves, Hurts, HasNumbers, SpendsNothing};
ghost use Rattle.ec_server.specs.Kept.{IsLater};
ghost use Rattle.ec_server.specs.Steps.{under, server, FaultLeaves};

use crate::fault::ServerFault;
use crate::keeper::Keeper;
use crate::state::{Core, epoch};
use ec_admission::read_slots;
use ec_base::{CLERK_COUNT, ClerkId, Counter, LAST_COUNTER, NoMemory, SessionNo};
use ec_durable::Record;
use ec_wire::Msg;

impl Core {
    // Takes a message of the clerk.
    pub(crate) fn take<K: Keeper>(
        &mut self,
        keeper: &mut K,
        from: ClerkId,
        msg: &Msg,
    ) -> Result<(), ServerFault>
        requires sound { IsTrue (is_sound msg.now) }
        requires clerks { HaveClerks (server (K.kept keeper.old) self.old) }
        ensures ok { OnOk result (machine.take from msg.now (server (K.kept keeper.old) self.old) ≡ under (K.kept keeper.new) self.new) }
        ensures err { IfErr result (λ fault. FaultLeaves fault (K.counts keeper.old) (K.counts keeper.new) (machine.take from msg.now (server (K.kept keeper.old) self.old)) (server (K.kept keeper.old) self.old) (server (K.kept keeper.new) self.new)) }
        ensures did { OnOk result (Did K.did self.new.rec keeper.old keeper.new) }
        ensures keeper { IfErr result (λ fault. Hurts SpendsNothing K.did K.broke fault (machine.take from msg.now (server (K.kept keeper.old) self.old)) keeper.old keeper.new) }
        ensures later { IsLater (K.counts keeper.old) (K.counts keeper.new) }
    {
        self.begin();
        self.taken(keeper, from, msg)?;
        self.serve(keeper)?;
        Ok(())
    }

    // Ends the clerk's open session, if there is one.
    pub(crate) fn end<K: Keeper>(
        &mut self,
        keeper: &mut K,
        clerk: ClerkId,
    ) -> Result<(), ServerFault>
        requires { HaveClerks (server (K.kept keeper.old) self.old) }
        ensures ok { OnOk result (machine.end clerk (server (K.kept keeper.old) self.old) ≡ under (K.kept keeper.new) self.new) }
        ensures err { IfErr result (λ fault. FaultLeaves fault (K.counts keeper.old) (K.counts keeper.new) (machine.end clerk (server (K.kept keeper.old) self.old)) (server (K.kept keeper.old) self.old) (server (K.kept keeper.new) self.new)) }
        ensures did { OnOk result (Did K.did self.new.rec keeper.old keeper.new) }
        ensures keeper { IfErr result (λ fault. Hurts SpendsNothing K.did K.broke fault (machine.end clerk (server (K.kept keeper.old) self.old)) keeper.old keeper.new) }
        ensures later { IsLater (K.counts keeper.old) (K.counts keeper.new) }
    {
        self.begin();
        self.end_open(keeper, clerk)?;
        self.serve(keeper)?;
        Ok(())
    }

    fn end_open<K: Keeper>(&mut self, keeper: &mut K, clerk: ClerkId) -> Result<(), ServerFault>
        ensures ok { OnOk result (machine.end_open clerk (slot (K.kept keeper.old) clerk) (under (K.kept keeper.old) self.old) ≡ under (K.kept keeper.new) self.new) }
        ensures err { IfErr result (λ fault. FaultLeaves fault (K.counts keeper.old) (K.counts keeper.new) (machine.end_open clerk (slot (K.kept keeper.old) clerk) (under (K.kept keeper.old) self.old)) (server (K.kept keeper.old) self.old) (server (K.kept keeper.new) self.new)) }
        ensures did { OnOk result (Moves K.did self.old.rec self.new keeper.old keeper.new) }
        ensures keeper { IfErr result (λ fault. Hurts HasNumbers K.did K.broke fault (machine.end_open clerk (slot (K.kept keeper.old) clerk) (under (K.kept keeper.old) self.old)) keeper.old keeper.new) }
        ensures later { IsLater (K.counts keeper.old) (K.counts keeper.new) }
    {
        if is_open(keeper, clerk) {
            self.finish(keeper, clerk)
        } else {
            Ok(())
        }
    }

    // Begins an epoch, and tells each clerk.
    pub(crate) fn start<K: Keeper>(&mut self, keeper: &mut K) -> Result<(), ServerFault>
        requires { (d : Durable) → under d self.old ≡ machine.serving (machine.new_server d) }
        ensures ok { OnOk result (machine.start (K.kept keeper.old) ≡ under (K.kept keeper.new) self.new) }
        ensures err { IfErr result (λ fault. FaultLeaves fault (K.counts keeper.old) (K.counts keeper.new) (machine.start (K.kept keeper.old)) (server (K.kept keeper.old) self.old) (server (K.kept keeper.new) self.new)) }
        ensures did { OnOk result (Did K.did self.new.rec keeper.old keeper.new) }
        ensures keeper { IfErr result (λ fault. Hurts SpendsNothing K.did K.broke fault (machine.start (K.kept keeper.old)) keeper.old keeper.new) }
        ensures later { IsLater (K.counts keeper.old) (K.counts keeper.new) }
    {
        let last = epoch(keeper);
        if last >= LAST_COUNTER {
            return Err(ServerFault::Spent(Counter::Epoch));
        }
        if self.commit(keeper, Record::Epoch(last + 1))? {
            self.tell_all(keeper)?;
        }
        Ok(())
    }

    fn tell_all<K: Keeper>(&mut self, keeper: &K) -> Result<(), NoMemory>
        ensures rec { OnOk result (self.new.rec ≡ self.old.rec) }
        ensures does { OnOk result (machine.tell_all 0 (K.kept keeper.now).sessions (under (K.kept keeper.now) self.old) ≡ under (K.kept keeper.now) self.new) }
    {
        read_slots(&keeper.view().sessions);
        'clerks: for number in 0..CLERK_COUNT {
            if let Some(clerk) = ClerkId::new(number) {
                self.tell_start(keeper, clerk)?;
            }
        }
        Ok(())
    }

    // Tells the clerk of the start, or of its session's end.
    fn tell_start<K: Keeper>(&mut self, keeper: &K, clerk: ClerkId) -> Result<(), NoMemory>
        ensures rec { OnOk result (self.new.rec ≡ self.old.rec) }
        ensures does { OnOk result (machine.tell_start clerk (under (K.kept keeper.now) self.old) (slot_at (K.kept keeper.now).sessions clerk) ≡ under (K.kept keeper.now) self.new) }
    {
        let news = news(keeper, clerk);
        self.tell(clerk, news)?;
        Ok(())
    }
}

// What a clerk is told at a start.
fn news<K: Keeper>(keeper: &K, clerk: ClerkId) -> Msg
    ensures { (t : machine.Serving) → t.server.durable ≡ K.kept keeper.now → machine.tell_start clerk t (slot_at (K.kept keeper.now).sessions clerk) ≡ machine.tell clerk result t }
{
    let now = epoch(keeper);
    match keeper.view().sessions.slot(clerk) {
        Some(slot) if slot.is_open => Msg::Restarted(slot.session, now),
        Some(slot) => Msg::Ended(slot.session, slot.window.low, slot.window.mask),
        None => Msg::Restarted(SessionNo(0), now),
    }
}

fn is_open<K: Keeper>(keeper: &K, clerk: ClerkId) -> bool
    ensures { result ≡ is_open (slot (K.kept keeper.now) clerk) }
{
    match keeper.view().sessions.slot(clerk) {
        Some(slot) => slot.is_open,
        None => false,
    }
}
