// What a record makes of the durable state.
ghost use Rattle.std.specs.Prelude.{◌≡◌, ◌==◌, ◌&&◌, ◌^◌, Ok, None, true, T, nat_lt, OnOk, OnErr, IfErr};
ghost use Rattle.ec_sessions.specs.Slots.{is_greater};
ghost use Rattle.ec_sessions.specs.SlotChecks.{CanMark};
ghost use Rattle.ec_volume.specs.Update.{is_sound};
ghost use Rattle.ec_durable.specs.Durable as durable;
ghost use Rattle.ec_durable.specs.Steps.{RefusesRecord, RefusesOp, AreSound, AreSoundOps, IdsAreBelow, record_fault as fault_of};

use crate::record::{Record, RecordFault};
use crate::state::Durable;
use ec_base::{Age, ClerkId, Duplicate, LAST_COUNTER, ObjId, OpNo, SessionNo};
use ec_volume::{ApplyFault, Update};

impl Durable {
    /// Carries out a record whose updates are sound, or tells why it's refused. After a refusal nothing has changed.
    pub fn step(&mut self, change: &Record) -> Result<(), RecordFault>
        requires sound { AreSound change.now }
        requires below { IdsAreBelow self.old }
        ensures ok { OnOk result (durable.step change.now self.old ≡ Ok self.new) }
        ensures refused { IfErr result (λ fault. RefusesRecord fault (durable.step change.now self.old)) }
        ensures err { OnErr result (self.new ≡ self.old) }
        ensures below { IdsAreBelow self.new }
    {
        match change {
            Record::Batch(clerk, session, batch, ops) => {
                self.batch(*clerk, *session, *batch, ops.as_slice())
            }
            Record::Open(clerk, age, session) => self.open(*clerk, *age, *session),
            Record::End(clerk, session) => self.end(*clerk, *session),
            Record::Ids(clerk, session, got, first) => {
                self.grant_ids(*clerk, *session, *got, *first)
            }
            Record::Epoch(epoch) => self.begin_epoch(*epoch),
        }
    }

    fn open(&mut self, clerk: ClerkId, age: Age, session: SessionNo) -> Result<(), RecordFault>
        ensures ok { OnOk result (durable.step (Record.Open clerk age session) self.old ≡ Ok self.new) }
        ensures refused { IfErr result (λ fault. RefusesRecord fault (durable.step (Record.Open clerk age session) self.old)) }
        ensures err { OnErr result (self.new ≡ self.old) }
    {
        if !self.is_greater(clerk, age) {
            return Err(RecordFault::BadAge);
        }
        if !is_next_session(self.next_session, session) {
            return Err(RecordFault::BadNumber);
        }
        self.sessions.open(clerk, age, session)?;
        self.next_session = session.0 + 1;
        Ok(())
    }

    // Whether the age is above the clerk's greatest one.
    fn is_greater(&self, clerk: ClerkId, age: Age) -> bool
        ensures { result ≡ is_greater (durable.slot self.now clerk) age }
    {
        match self.sessions.slot(clerk) {
            Some(slot) => slot.age.is_older(&age),
            None => true,
        }
    }

    fn end(&mut self, clerk: ClerkId, session: SessionNo) -> Result<(), RecordFault>
        ensures ok { OnOk result (durable.step (Record.End clerk session) self.old ≡ Ok self.new) }
        ensures refused { IfErr result (λ fault. RefusesRecord fault (durable.step (Record.End clerk session) self.old)) }
        ensures err { OnErr result (self.new ≡ self.old) }
    {
        if !self.has_session(clerk, session) {
            return Err(RecordFault::NoSession);
        }
        self.sessions.end(clerk);
        Ok(())
    }

    fn begin_epoch(&mut self, epoch: u64) -> Result<(), RecordFault>
        ensures ok { OnOk result (durable.step (Record.Epoch epoch) self.old ≡ Ok self.new) }
        ensures refused { IfErr result (λ fault. RefusesRecord fault (durable.step (Record.Epoch epoch) self.old)) }
        ensures err { OnErr result (self.new ≡ self.old) }
    {
        if epoch == 0 || epoch - 1 != self.epoch {
            return Err(RecordFault::BadNumber);
        }
        self.epoch = epoch;
        Ok(())
    }

    fn grant_ids(
        &mut self,
        clerk: ClerkId,
        session: SessionNo,
        got: u32,
        first: ObjId,
    ) -> Result<(), RecordFault>
        requires below { IdsAreBelow self.old }
        ensures ok { OnOk result (durable.step (Record.Ids clerk session got first) self.old ≡ Ok self.new) }
        ensures refused { IfErr result (λ fault. RefusesRecord fault (durable.step (Record.Ids clerk session got first) self.old)) }
        ensures err { OnErr result (self.new ≡ self.old) }
    {
        if !self.has_session(clerk, session) {
            return Err(RecordFault::NoSession);
        }
        if !self.is_next_grant(clerk, got, first) {
            return Err(RecordFault::BadNumber);
        }
        if self.is_full() {
            return Err(RecordFault::NoRoom(self.volume.live(), self.sessions.reserved()));
        }
        self.sessions.reserve(clerk, first)?;
        self.next_id = first.get() + 16;
        Ok(())
    }

    fn is_next_grant(&self, clerk: ClerkId, got: u32, first: ObjId) -> bool
        ensures { result ≡ durable.is_next_grant clerk got first self.now }
    {
        got == self.grants(clerk)
            && got < u32::MAX
            && first.get() == self.next_id
            && first.get() <= 4_294_967_279
    }

    fn batch(
        &mut self,
        clerk: ClerkId,
        session: SessionNo,
        batch: u64,
        ops: &[(OpNo, Update)],
    ) -> Result<(), RecordFault>
        requires { AreSoundOps ops.now }
        ensures ok { OnOk result (durable.step (Record.Batch clerk session batch ops.now) self.old ≡ Ok self.new) }
        ensures refused { IfErr result (λ fault. RefusesRecord fault (durable.step (Record.Batch clerk session batch ops.now) self.old)) }
        ensures err { OnErr result (self.new ≡ self.old) }
    {
        if !self.has_session(clerk, session) {
            return Err(RecordFault::NoSession);
        }
        if self.has_batch(clerk, batch) {
            return Err(RecordFault::Done(batch));
        }
        let low = self.low(clerk);
        if low >= LAST_COUNTER || low + 8 < batch {
            return Err(RecordFault::Beyond(low));
        }
        self.operations_whole(clerk, ops)?;
        self.sessions.mark(clerk, batch);
        Ok(())
    }

    // The operations of a batch, or none of them: a single one is carried out in place, and several on a copy.
    fn operations_whole(
        &mut self,
        clerk: ClerkId,
        ops: &[(OpNo, Update)],
    ) -> Result<(), RecordFault>
        requires { AreSoundOps ops.now }
        ensures ok { OnOk result (durable.operations clerk ops.now self.old ≡ Ok self.new) }
        ensures refused { IfErr result (λ fault. RefusesRecord fault (durable.operations clerk ops.now self.old)) }
        ensures err { OnErr result (self.new ≡ self.old) }
        ensures mark { CanMark (durable.slot self.old clerk) → CanMark (durable.slot self.new clerk) }
    {
        match ops {
            [] => Ok(()),
            [(op, update)] => self.carry_out(clerk, *op, update),
            _ => {
                let mut next = self.duplicate()?;
                next.operations(clerk, ops)?;
                *self = next;
                Ok(())
            }
        }
    }

    // The operations of a batch, one by one.
    fn operations(&mut self, clerk: ClerkId, ops: &[(OpNo, Update)]) -> Result<(), RecordFault>
        requires { AreSoundOps ops.now }
        ensures ok { OnOk result (durable.operations clerk ops.now self.old ≡ Ok self.new) }
        ensures refused { IfErr result (λ fault. RefusesRecord fault (durable.operations clerk ops.now self.old)) }
        ensures mark { CanMark (durable.slot self.old clerk) → CanMark (durable.slot self.new clerk) }
    {
        for (op, update) in ops {
            self.carry_out(clerk, *op, update)?;
        }
        Ok(())
    }

    fn carry_out(&mut self, clerk: ClerkId, op: OpNo, update: &Update) -> Result<(), RecordFault>
        requires { T (is_sound update.now) }
        ensures fits { OnOk result (durable.op_fault clerk op update.now self.old ≡ None) }
        ensures ok { OnOk result (self.new ≡ durable.carried_out clerk update.now self.old) }
        ensures refused { IfErr result (λ fault. RefusesOp fault (durable.op_fault clerk op update.now self.old)) }
        ensures err { OnErr result (self.new ≡ self.old) }
        ensures mark { CanMark (durable.slot self.old clerk) → CanMark (durable.slot self.new clerk) }
    {
        let made = made(update);
        if let Some(obj) = made {
            if !self.sessions.is_reserved(clerk, obj) {
                return Err(RecordFault::NotReserved(op, obj));
            }
        }
        self.apply(op, update)?;
        if let Some(obj) = made {
            self.sessions.spend(clerk, obj);
        }
        Ok(())
    }

    fn apply(&mut self, op: OpNo, update: &Update) -> Result<(), RecordFault>
        requires { T (is_sound update.now) }
        ensures fits { OnOk result (durable.unfit op update.now self.old ≡ None) }
        ensures ok { OnOk result (self.new ≡ durable.applied update.now self.old) }
        ensures refused { IfErr result (λ fault. RefusesOp fault (durable.unfit op update.now self.old)) }
        ensures err { OnErr result (self.new ≡ self.old) }
    {
        match self.volume.apply(update) {
            Ok(()) => Ok(()),
            Err(fault) => Err(fault_of(op, fault)),
        }
    }
}

fn fault_of(op: OpNo, fault: ApplyFault) -> RecordFault
    ensures { result ≡ fault_of op fault }
{
    match fault {
        ApplyFault::Unfit(obj) => RecordFault::Unfit(op, obj),
        ApplyFault::NoMemory => RecordFault::NoMemory,
    }
}

fn is_next_session(next: u64, session: SessionNo) -> bool
    ensures { result ≡ ((session == next) && nat_lt session (2 ^ 62)) }
{
    session.0 == next && session.0 < LAST_COUNTER
}

// The id that an update takes.
fn made(update: &Update) -> Option<ObjId>
    ensures { result ≡ durable.made update.now }
{
    match update {
        Update::Make { obj, .. } => Some(*obj),
        _ => None,
    }
}
