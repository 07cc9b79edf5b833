// A clerk's step under way.
ghost use Rattle.std.specs.Prelude.{◌≡◌, [], is_some, OnOk};
ghost use Rattle.ec_protocol.specs.Clerk as clerk;
ghost use Rattle.ec_doing.specs.Seen.{doing_of, Does};

use crate::holdings::Ledger;
use ec_base::{Age, ClerkId, List, NoMemory, ObjId, OpNo, SessionNo};
use ec_cache::Cache;
use ec_protocol::{Out, Recalled, Wanted};
use ec_wire::Msg;
use std::alloc::Global;

/// A clerk but for the calls that wait, and what came out of its step so far.
#[derive(Drop)]
pub struct Doing {
    pub alloc: Global,
    pub id: ClerkId,
    pub age: Age,
    pub session: Option<SessionNo>,
    pub epoch: u64,
    pub cache: Cache,
    pub ledger: Ledger,
    /// In the order of arrival.
    pub recalls: Vec<Recalled>,
    pub pushes: Vec<OpNo>,
    /// The last one that was sent stands last.
    pub wanted: Vec<Wanted>,
    pub ids: Vec<ObjId>,
    pub got: u32,
    pub asking: Option<u64>,
    pub asks: u64,
    pub calls: u64,
    pub outs: Vec<Out>,
}

/// What a try of a waiting call comes to.
#[derive(Clone, Copy, Debug, Drop, PartialEq, Eq)]
pub enum Tried {
    Waits,
    Answered,
}

impl Doing {
    pub(crate) fn emit(&mut self, out: Out) -> Result<(), NoMemory>
        ensures { OnOk result (Does (clerk.emit out) self.old self.new) }
    {
        self.outs.push(out)?;
        Ok(())
    }

    pub(crate) fn send(&mut self, msg: Msg) -> Result<(), NoMemory>
        ensures { OnOk result (Does (clerk.send msg) self.old self.new) }
    {
        self.emit(Out::Send(msg))
    }

    pub(crate) fn has_session(&self) -> bool
        ensures { result ≡ is_some self.now.session }
    {
        self.session.is_some()
    }

    /// The number of its session, or 0.
    pub(crate) fn session(&self) -> SessionNo
        ensures { result ≡ clerk.session (doing_of [] self.now) }
    {
        match self.session {
            Some(session) => session,
            None => SessionNo(0),
        }
    }

    pub(crate) fn hello(&mut self) -> Result<(), NoMemory>
        ensures { OnOk result (Does clerk.hello self.old self.new) }
    {
        let msg = Msg::Hello(self.id, self.age);
        self.send(msg)
    }

    /// Sends the tokens that are held.
    pub(crate) fn claim(&mut self) -> Result<(), NoMemory>
        ensures { OnOk result (Does clerk.claim self.old self.new) }
    {
        let tokens = List::of(self.cache.tokens()?);
        let msg = Msg::Claim(self.session(), self.epoch, tokens);
        self.send(msg)
    }
}
