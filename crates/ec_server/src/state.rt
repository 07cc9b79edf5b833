// What a server keeps in memory, and the small changes of it.
ghost use Rattle.std.specs.Prelude.{◌≡◌, ◌++◌, ◌∷◌, ◌+◌, ◌<◌, Some, OnOk, IfOk, IfErr, IsTrue, true};
ghost use Rattle.ec_base.specs.Tables.{without, put};
ghost use Rattle.ec_base.specs.Limits.{last_counter};
ghost use Rattle.ec_durable.specs.SoundRecords.{is_sound_record};
ghost use Rattle.ec_protocol.specs.Server as machine;
ghost use Rattle.ec_volume.specs.Update.{member};
ghost use Rattle.ec_server.specs.Keepers.{HasRoom, EndsRecord, Fails};
ghost use Rattle.ec_server.specs.Kept.{IsLater};
ghost use Rattle.ec_server.specs.Steps.{under, server, Commits, StopsServer};
ghost use Rattle.ec_durable.specs.declared.state.Durable.{Durable};

use crate::fault::ServerFault;
use crate::keeper::{KeepFault, Keeper};
use ec_admission::{Waiting, forget_claim};
use ec_base::{ClerkId, LAST_COUNTER, List, NoMemory, SessionNo, SortedMap};
use ec_durable::Record;
use ec_protocol::Served;
use ec_sessions::tokens::Tokens;
use ec_wire::Msg;
use std::alloc::Global;
use std::mem;

// What a server keeps beside its durable state: tokens, wants, and which sessions have claimed. All of it is of this epoch.
#[derive(Drop)]
pub(crate) struct Core {
    pub(crate) alloc: Global,
    pub(crate) tokens: Tokens,
    pub(crate) recalls: Waiting,
    // at most one session of each clerk
    pub(crate) claimed: Vec<SessionNo>,
    // the last number of a token
    pub(crate) number: u64,
    // the number with which each session's ids were last recorded
    pub(crate) recorded: SortedMap<SessionNo, u64>,
    // of the step under way
    pub(crate) sent: Vec<(ClerkId, Msg)>,
    pub(crate) rec: Option<Record>,
}

impl Core {
    pub(crate) fn new(alloc: Global) -> Result<Core, NoMemory>
        ensures { IfOk result (λ made. (d : Durable) → under d made ≡ machine.serving (machine.new_server d)) }
    {
        Ok(Core {
            alloc,
            tokens: Tokens::new(alloc)?,
            recalls: Waiting::new(alloc)?,
            claimed: Vec::new(alloc),
            number: 0,
            recorded: SortedMap::new(alloc),
            sent: Vec::new(alloc),
            rec: None,
        })
    }

    // Begins a step.
    pub(crate) fn begin(&mut self)
        ensures { (d : Durable) → under d self.new ≡ machine.serving (server d self.old) }
    {
        self.sent = Vec::new(self.alloc);
        self.rec = None;
    }

    // What came of the step.
    pub(crate) fn served(&mut self) -> Served
        ensures sent { result.sent ≡ self.old.sent.items }
        ensures rec { result.rec ≡ self.old.rec }
        ensures same { (d : Durable) → server d self.new ≡ server d self.old }
    {
        let sent = mem::replace(&mut self.sent, Vec::new(self.alloc));
        Served {
            sent: List::of(sent),
            rec: self.rec.take(),
        }
    }

    pub(crate) fn tell(&mut self, clerk: ClerkId, msg: Msg) -> Result<(), NoMemory>
        ensures does { OnOk result ((d : Durable) → under d self.new ≡ machine.tell clerk msg (under d self.old)) }
        ensures rec { OnOk result (self.new.rec ≡ self.old.rec) }
    {
        self.sent.push((clerk, msg))?;
        Ok(())
    }

    // There is a number for each want that waits, and one more.
    fn has_room(&self) -> bool
        ensures { IsTrue result → HasRoom self.now }
    {
        let most = self.recalls.most();
        self.number < LAST_COUNTER && most < LAST_COUNTER - self.number
    }

    // Commits a record, or tells that it was refused. The numbers of the step are sure before it: where they may run out, the step ends as for
    // want of memory.
    pub(crate) fn commit<K: Keeper>(
        &mut self,
        keeper: &mut K,
        change: Record,
    ) -> Result<bool, ServerFault>
        requires { is_sound_record change ≡ true }
        ensures ok { IfOk result (λ is_done. Commits is_done change (K.kept keeper.old) (K.kept keeper.new) self.old self.new) }
        ensures err { IfErr result (λ fault. StopsServer fault (K.counts keeper.old) (K.counts keeper.new)) }
        ensures did { IfOk result (λ is_done. EndsRecord K.did is_done change self.old.rec self.new.rec self.old keeper.old keeper.new) }
        ensures keeper { IfErr result (λ fault. Fails K.broke fault change (K.kept keeper.old) self.old keeper.old keeper.new) }
        ensures later { IsLater (K.counts keeper.old) (K.counts keeper.new) }
    {
        if !self.has_room() {
            return Err(ServerFault::NoMemory);
        }
        match keeper.commit(&change) {
            Ok(()) => {
                self.rec = Some(change);
                Ok(true)
            }
            Err(KeepFault::Refused(_)) => Ok(false),
            Err(KeepFault::DiskFailed) => Err(ServerFault::DiskFailed),
            Err(KeepFault::DiskStopped) => Err(ServerFault::DiskStopped),
            Err(KeepFault::NoMemory) => Err(ServerFault::NoMemory),
        }
    }

    pub(crate) fn has_claimed(&self, session: SessionNo) -> bool
        ensures { result ≡ member session self.now.claimed.items }
    {
        self.claimed.iter().any(|claimed| session == *claimed)
    }

    pub(crate) fn add_claimed(&mut self, session: SessionNo) -> Result<(), NoMemory>
        ensures does { OnOk result ((d : Durable) → under d self.new ≡ machine.with_server (machine.add_claimed session) (under d self.old)) }
        ensures rec { OnOk result (self.new.rec ≡ self.old.rec) }
    {
        self.claimed.insert(0, session)?;
        Ok(())
    }

    // The next number of a token. It's taken in the middle of a step: where there is none, the step ends as for want of memory.
    pub(crate) fn next_number(&mut self) -> Result<u64, NoMemory>
        ensures ok { IfOk result (λ n. n ≡ self.new.number) }
        ensures same { self.new.tokens ≡ self.old.tokens }
        ensures next { OnOk result ((d : Durable) → under d self.new ≡ machine.next_number (under d self.old)) }
        ensures rec { OnOk result (self.new.rec ≡ self.old.rec) }
    {
        if self.number >= LAST_COUNTER {
            return Err(NoMemory);
        }
        self.number += 1;
        Ok(self.number)
    }

    // An ended session loses its tokens and its wants.
    pub(crate) fn forget(&mut self, session: SessionNo)
        ensures does { (d : Durable) → under d self.new ≡ machine.with_server (machine.forget session) (under d self.old) }
        ensures rec { self.new.rec ≡ self.old.rec }
    {
        self.tokens.drop_session(session);
        self.recalls.drop_session(session);
        forget_claim(&mut self.claimed, session);
        self.recorded.remove(&session);
    }
}

// The epoch of a durable state.
pub(crate) fn epoch<K: Keeper>(keeper: &K) -> u64
    ensures { result ≡ (K.kept keeper.now).epoch }
{
    keeper.view().epoch
}
