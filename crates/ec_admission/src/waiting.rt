// The wants that wait, and a bound on how many they are.
ghost use Rattle.std.specs.Prelude.{◌≡◌, ◌≢◌, ◌==◌, ◌≤◌, [], not, filter, length, IfOk, OnOk};
ghost use Rattle.ec_sessions.specs.OfRecall.Due as due;
ghost use Rattle.ec_sessions.specs.OfRecall.Rounds.{GrantsGoIn};
ghost use Rattle.ec_sessions.specs.OfRecall.Wants as wants;
ghost use Rattle.ec_sessions.specs.OfTokens.SoundTokens.{IsSound};

use ec_base::{Hold, NoMemory, ObjId, SessionNo};
use ec_sessions::recall::{Action, Recalls};
use ec_sessions::tokens::Tokens;
use std::alloc::Global;
use std::marker::Model;

/// The wants that wait.
#[derive(Drop)]
pub struct Waiting {
    wants: Recalls,
    // how many were noted so far
    noted: u64,
}

impl Model for Waiting {
    ghost use Rattle.std.specs.Prelude.{◌≤◌, List, length};
    ghost use Rattle.ec_sessions.specs.declared.recall.want.Want.{Want};

    ghost Value = { List Want };

    ghost view = { λ w. w.wants };

    ghost invariant = { λ w. length w.wants ≤ w.noted };
}

impl Waiting {
    /// None waits.
    pub fn new(alloc: Global) -> Result<Waiting, NoMemory>
        ensures { IfOk result (λ made. made ≡ []) }
    {
        Ok(Waiting {
            wants: Recalls::new(alloc)?,
            noted: 0,
        })
    }

    /// A want is noted.
    pub fn want(&mut self, session: SessionNo, obj: ObjId, hold: Hold) -> Result<(), NoMemory>
        requires { hold ≢ Hold.Free }
        ensures { OnOk result (self.new ≡ wants.noted session obj hold self.old) }
    {
        if self.noted == u64::MAX {
            return Err(NoMemory);
        }
        self.noted += 1;
        self.wants.want(session, obj, hold)
    }

    /// What is due by these tokens.
    pub fn due(&mut self, tokens: &Tokens) -> Result<Vec<Action>, NoMemory>
        ensures actions { IfOk result (λ actions. actions.items ≡ due.actions tokens.now self.old) }
        ensures wants { OnOk result (self.new ≡ due.wants_after tokens.now self.old) }
        ensures grants { IfOk result (λ actions. IsSound tokens.now → GrantsGoIn tokens.now actions.items) }
    {
        self.wants.due(tokens)
    }

    /// The wants of an ended session go.
    pub fn drop_session(&mut self, session: SessionNo)
        ensures { self.new ≡ filter (λ w. not (w.session == session)) self.old }
    {
        self.wants.drop_session(session);
    }

    /// There are no more of them.
    pub fn most(&self) -> u64
        ensures { length self.now ≤ result }
    {
        self.noted
    }
}
