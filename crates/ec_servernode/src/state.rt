// The value behind the lock: the server, what keeps its state, an outbox for each clerk, and the list of steps.
ghost use Rattle.std.specs.Prelude.{◌≡◌, ◌==◌, ◌||◌, ℕ, false};
ghost use Rattle.ec_servernode.specs.Told.{tells};

use crate::caller::Refusal;
use crate::step::{Halt, Step};
use ec_base::ClerkId;
use ec_base::trace::Trace;
use ec_server::{Keeper, Server};
use ec_wire::Msg;
use std::collections::VecDeque;

/// The messages to one clerk that no link has got yet.
#[derive(Drop)]
pub struct Outbox {
    pub msgs: VecDeque<Msg>,
    /// The pass of the clerk's last Hello.
    pub owner: Option<u64>,
}

#[derive(Drop)]
pub struct Node<K: Keeper + Drop> {
    pub server: Server,
    pub keeper: K,
    /// One for each clerk.
    pub boxes: Vec<Outbox>,
    /// Nothing is done any more after this.
    pub halt: Option<Halt>,
    /// Memory was wanting in a step, or the disk failed in it. From then on nothing is done.
    pub broken: bool,
    pub steps: u64,
    pub trace: Trace<Step>,
}

/// What came of the taking of a message.
#[derive(Clone, Copy, Drop)]
pub struct Taking {
    pub told: Told,
    /// The clerk of a Hello that wasn't refused.
    pub hello: Option<ClerkId>,
    pub refusal: Option<Refusal>,
}

/// The clerks to which a step sent something.
#[derive(Clone, Copy, Drop)]
pub struct Told {
    clerks: u16,
}

impl Told {
    /// No clerk.
    pub fn nobody() -> Told
        ensures { (c : ℕ) → tells result c ≡ false }
    {
        Told { clerks: 0 }
    }

    /// These, and this one.
    pub fn and(self, clerk: ClerkId) -> Told
        ensures { (c : ℕ) → tells result c ≡ (tells self c || (clerk == c)) }
    {
        Told {
            clerks: self.clerks | (1u16 << clerk.get()),
        }
    }

    /// Whether something was sent to this clerk.
    pub fn has(self, clerk: ClerkId) -> bool
        ensures { result ≡ tells self clerk }
    {
        (self.clerks >> clerk.get()) & 1 == 1
    }
}
