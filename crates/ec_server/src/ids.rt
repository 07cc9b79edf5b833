// Ids that are granted, and granted again.
ghost use Rattle.std.specs.Prelude.{◌≡◌, ◌+◌, ◌≤◌, ◌^◌, ◌==◌, ◌||◌, nat_lt, nat_le, OnOk, IfErr, IfOk, Some, None, true, false, MatchOption, IfSome};
ghost use Rattle.ec_base.specs.Tables.{at_or};
ghost use Rattle.ec_sessions.specs.Limits.{ids_per_grant, last_first_id, last_grants};
ghost use Rattle.ec_sessions.specs.declared.slot.Slot.{Slot};
ghost use Rattle.ec_durable.specs.Durable.{slot, is_full, live, reserved};
ghost use Rattle.ec_durable.specs.declared.state.Durable.{Durable};
ghost use Rattle.ec_protocol.specs.Server as machine;
ghost use Rattle.ec_server.specs.Keepers.{Moves, Hurts, HasNumbers};
ghost use Rattle.ec_server.specs.Kept.{IsLater};
ghost use Rattle.ec_server.specs.Steps.{under, server, at_slot, FaultLeaves};

use crate::fault::ServerFault;
use crate::keeper::Keeper;
use crate::limits::{LAST_FIRST_ID, LAST_GRANTS};
use crate::state::{Core, epoch};
use ec_admission::{IDS_PER_GRANT, add_ids};
use ec_base::{ClerkId, Counter, LAST_COUNTER, NoMemory, ObjId, SessionNo};
use ec_durable::Record;
use ec_wire::Msg;

impl Core {
    // The next ids are granted; where the last ones were not taken yet, they go out again.
    pub(crate) fn room<K: Keeper>(
        &mut self,
        keeper: &mut K,
        clerk: ClerkId,
        session: SessionNo,
        got: u32,
        ask: u64,
    ) -> Result<(), ServerFault>
        ensures ok { OnOk result (at_slot clerk (machine.room clerk session got ask) (under (K.kept keeper.old) self.old) ≡ under (K.kept keeper.new) self.new) }
        ensures err { IfErr result (λ fault. FaultLeaves fault (K.counts keeper.old) (K.counts keeper.new) (at_slot clerk (machine.room clerk session got ask) (under (K.kept keeper.old) self.old)) (server (K.kept keeper.old) self.old) (server (K.kept keeper.new) self.new)) }
        ensures did { OnOk result (Moves K.did self.old.rec self.new keeper.old keeper.new) }
        ensures keeper { IfErr result (λ fault. Hurts HasNumbers K.did K.broke fault (at_slot clerk (machine.room clerk session got ask) (under (K.kept keeper.old) self.old)) keeper.old keeper.new) }
        ensures later { IsLater (K.counts keeper.old) (K.counts keeper.new) }
    {
        let Some((grants, last_first)) = last_grant(keeper, clerk) else {
            return Ok(());
        };
        if got == grants {
            return self.grant_ids(keeper, clerk, session, got, ask);
        }
        if !is_one_before(got, grants) {
            return Ok(());
        }
        match last_first {
            Some(first) => self.resend_ids(keeper, clerk, session, got, first),
            None => Ok(()),
        }
    }

    fn grant_ids<K: Keeper>(
        &mut self,
        keeper: &mut K,
        clerk: ClerkId,
        session: SessionNo,
        got: u32,
        ask: u64,
    ) -> Result<(), ServerFault>
        ensures ok { OnOk result (machine.grant_ids clerk session got ask (under (K.kept keeper.old) self.old) ≡ under (K.kept keeper.new) self.new) }
        ensures err { IfErr result (λ fault. FaultLeaves fault (K.counts keeper.old) (K.counts keeper.new) (machine.grant_ids clerk session got ask (under (K.kept keeper.old) self.old)) (server (K.kept keeper.old) self.old) (server (K.kept keeper.new) self.new)) }
        ensures did { OnOk result (Moves K.did self.old.rec self.new keeper.old keeper.new) }
        ensures keeper { IfErr result (λ fault. Hurts HasNumbers K.did K.broke fault (machine.grant_ids clerk session got ask (under (K.kept keeper.old) self.old)) keeper.old keeper.new) }
        ensures later { IsLater (K.counts keeper.old) (K.counts keeper.new) }
    {
        if is_full(keeper) {
            let answer = no_room(keeper, session, ask);
            self.tell(clerk, answer)?;
            return Ok(());
        }
        let Some(first) = next_first(keeper, got) else {
            return Err(ServerFault::Spent(Counter::Id));
        };
        if self.commit(keeper, Record::Ids(clerk, session, got, first))? {
            self.record_ids(session, first)?;
            self.send_ids(keeper, clerk, session, got, first)?;
        }
        Ok(())
    }

    // The last ids go out again. Their tokens are recorded at the first such sending in an epoch.
    fn resend_ids<K: Keeper>(
        &mut self,
        keeper: &K,
        clerk: ClerkId,
        session: SessionNo,
        got: u32,
        first: ObjId,
    ) -> Result<(), ServerFault>
        requires { first + ids_per_grant ≤ 2 ^ 32 }
        ensures ok { OnOk result (machine.resend_ids clerk session got (Some first) (under (K.kept keeper.now) self.old) ≡ under (K.kept keeper.now) self.new) }
        ensures err { IfErr result (λ fault. FaultLeaves fault (K.counts keeper.now) (K.counts keeper.now) (machine.resend_ids clerk session got (Some first) (under (K.kept keeper.now) self.old)) (server (K.kept keeper.now) self.old) (server (K.kept keeper.now) self.new)) }
        ensures rec { OnOk result (self.new.rec ≡ self.old.rec) }
        ensures keeper { IfErr result (λ fault. Hurts HasNumbers K.did K.broke fault (machine.resend_ids clerk session got (Some first) (under (K.kept keeper.now) self.old)) keeper.now keeper.now) }
    {
        if !self.recorded.contains(&session) {
            if self.number >= LAST_COUNTER {
                return Err(ServerFault::Spent(Counter::Number));
            }
            self.record_ids(session, first)?;
        }
        self.send_ids(keeper, clerk, session, got, first)?;
        Ok(())
    }

    // The tokens of sixteen ids are recorded, with one new number.
    fn record_ids(&mut self, session: SessionNo, first: ObjId) -> Result<(), NoMemory>
        requires { first + ids_per_grant ≤ 2 ^ 32 }
        ensures does { OnOk result ((d : Durable) → under d self.new ≡ machine.record_ids session first (under d self.old)) }
        ensures rec { OnOk result (self.new.rec ≡ self.old.rec) }
    {
        let number = self.next_number()?;
        add_ids(&mut self.tokens, session, first, number)?;
        self.recorded.insert(session, number)?;
        Ok(())
    }

    fn send_ids<K: Keeper>(
        &mut self,
        keeper: &K,
        clerk: ClerkId,
        session: SessionNo,
        got: u32,
        first: ObjId,
    ) -> Result<(), NoMemory>
        ensures does { OnOk result (machine.send_ids clerk session got first (under (K.kept keeper.now) self.old) ≡ under (K.kept keeper.now) self.new) }
        ensures rec { OnOk result (self.new.rec ≡ self.old.rec) }
    {
        let number = self.last_recording(session);
        let now = epoch(keeper);
        self.tell(clerk, Msg::Ids(session, now, got, number, first))?;
        Ok(())
    }

    // The number with which the session's ids were last recorded.
    fn last_recording(&self, session: SessionNo) -> u64
        ensures { result ≡ at_or 0 session self.now.recorded }
    {
        match self.recorded.get(&session) {
            Some(number) => *number,
            None => 0,
        }
    }
}

// How often the clerk's session was granted ids, and the first id of the last grant.
fn last_grant<K: Keeper>(keeper: &K, clerk: ClerkId) -> Option<(u32, Option<ObjId>)>
    ensures slot { MatchOption result (slot (K.kept keeper.now) clerk ≡ None) (λ r. (sl : Slot) × (slot (K.kept keeper.now) clerk ≡ Some sl) × (sl.grants ≡ r.0) × (sl.last_first ≡ r.1)) }
    ensures ids { IfSome result (λ r. IfSome r.1 (λ first. first + ids_per_grant ≤ 2 ^ 32)) }
{
    let state = keeper.view();
    let _next = state.next_id;
    let slot = state.sessions.slot(clerk)?;
    Some((slot.grants, slot.last_first))
}

fn is_one_before(got: u32, grants: u32) -> bool
    ensures { result ≡ (got + 1 == grants) }
{
    grants > 0 && got == grants - 1
}

// Sixteen further ids are too many.
fn is_full<K: Keeper>(keeper: &K) -> bool
    ensures { result ≡ is_full (K.kept keeper.now) }
{
    let state = keeper.view();
    let taken = state.volume.live() as u64 + state.sessions.reserved() as u64;
    (state.max_objects as u64) < taken + IDS_PER_GRANT as u64
}

fn no_room<K: Keeper>(keeper: &K, session: SessionNo, ask: u64) -> Msg
    ensures { result ≡ Msg.NoRoom session (K.kept keeper.now).epoch ask (live (K.kept keeper.now)) (reserved (K.kept keeper.now)) }
{
    let state = keeper.view();
    let live = state.volume.live();
    Msg::NoRoom(session, state.epoch, ask, live, state.sessions.reserved())
}

// The next ids, unless they, or their number of grants, would pass a limit.
fn next_first<K: Keeper>(keeper: &K, got: u32) -> Option<ObjId>
    ensures next { MatchOption result ((nat_lt last_first_id (K.kept keeper.now).next_id || nat_le last_grants got) ≡ true) (λ first. (first ≡ (K.kept keeper.now).next_id) × ((nat_lt last_first_id (K.kept keeper.now).next_id || nat_le last_grants got) ≡ false)) }
    ensures ids { IfSome result (λ first. first + ids_per_grant ≤ 2 ^ 32) }
{
    let next = keeper.view().next_id;
    if next > LAST_FIRST_ID || got >= LAST_GRANTS {
        return None;
    }
    let Some(first) = ObjId::new(next) else {
        unreachable!()
    };
    Some(first)
}
