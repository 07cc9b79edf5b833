// Wants are served after each step, where every open session has claimed.
ghost use Rattle.std.specs.Prelude.{◌≡◌, ◌≢◌, ◌∷◌, [], suc, OnOk, IfOk, IsTrue, length, List};
ghost use Rattle.std.specs.List.{list_any};
ghost use Rattle.ec_sessions.specs.OfTokens.Tokens.{is_clear, granted};
ghost use Rattle.ec_sessions.specs.OfTokens.SoundTokens.{IsSound};
ghost use Rattle.ec_protocol.specs.Server as machine;
ghost use Rattle.ec_admission.specs.Clerks.{IsOpenIn};
ghost use Rattle.ec_server.specs.Clerks.{HaveClerks, Each, session_of};
ghost use Rattle.ec_server.specs.ServeLaws.{due_actions, round};
ghost use Rattle.ec_server.specs.Steps.{under, server};
ghost use Rattle.ec_sessions.specs.OfRecall.Rounds.{GrantsGoIn};
ghost use Rattle.ec_sessions.specs.declared.recall.want.Action.TheVariants as action;
ghost use Rattle.ec_sessions.specs.declared.recall.want.Action.{Action as Due};

use crate::keeper::Keeper;
use crate::state::{Core, epoch};
use ec_admission::{all_claimed, clerk_in};
use ec_base::{ClerkId, Hold, NoMemory, ObjId, SessionNo};
use ec_sessions::recall::Action;
use ec_sessions::tokens::{Token, Tokens};
use ec_wire::Msg;

// The clerk whose session this is.
fn clerk_of<K: Keeper>(keeper: &K, session: SessionNo) -> ClerkId
    requires { IsOpenIn (K.kept keeper.now).sessions session }
    ensures { result ≡ machine.clerk_from 0 session (K.kept keeper.now).sessions }
{
    clerk_in(&keeper.view().sessions, session)
}

// A proof knows that no two tokens conflict. No code is left of this.
pub(crate) fn read_tokens(tokens: &Tokens)
    ensures { IsSound tokens.now }
{
    let _token = tokens.token(SessionNo(0), ObjId::root());
}

fn has_grant(actions: &[Action]) -> bool
    ensures { result ≡ list_any machine.is_grant actions.now }
{
    actions.iter().any(|action| is_grant(action))
}

fn is_grant(action: &Action) -> bool
    ensures { result ≡ machine.is_grant action.now }
{
    match action {
        Action::Grant(..) => true,
        Action::Recall(..) => false,
    }
}

impl Core {
    // Serves the wants, where every open session has claimed.
    pub(crate) fn serve<K: Keeper>(&mut self, keeper: &K) -> Result<(), NoMemory>
        requires { HaveClerks (server (K.kept keeper.now) self.old) }
        ensures { OnOk result (machine.serve (under (K.kept keeper.now) self.old) ≡ under (K.kept keeper.now) self.new) }
    {
        if self.all_claimed(keeper) {
            self.serve_rounds(keeper)?;
        }
        Ok(())
    }

    // What is due is done, again and again until it grants nothing. Each round but the last one serves a want.
    fn serve_rounds<K: Keeper>(&mut self, keeper: &K) -> Result<(), NoMemory>
        requires { HaveClerks (server (K.kept keeper.now) self.old) }
        ensures { OnOk result (machine.serve_rounds (suc (length self.old.recalls)) (under (K.kept keeper.now) self.old) ≡ under (K.kept keeper.now) self.new) }
    {
        'rounds: loop {
            if !self.serve_round(keeper)? {
                return Ok(());
            }
        }
    }

    // Does what is due, and tells whether it granted something.
    fn serve_round<K: Keeper>(&mut self, keeper: &K) -> Result<bool, NoMemory>
        requires { HaveClerks (server (K.kept keeper.now) self.old) }
        ensures round { OnOk result (round (under (K.kept keeper.now) self.old) ≡ under (K.kept keeper.now) self.new) }
        ensures grants { IfOk result (λ grants. grants ≡ list_any machine.is_grant (due_actions (under (K.kept keeper.now) self.old))) }
    {
        read_tokens(&self.tokens);
        let actions = self.recalls.due(&self.tokens)?;
        self.act_all(keeper, &actions)?;
        Ok(has_grant(&actions))
    }

    fn act_all<K: Keeper>(&mut self, keeper: &K, actions: &[Action]) -> Result<(), NoMemory>
        requires goes_in { GrantsGoIn self.old.tokens actions.now }
        requires clerks { Each (λ action. IsOpenIn (K.kept keeper.now).sessions (session_of action)) actions.now }
        ensures { OnOk result (machine.act_all actions.now (under (K.kept keeper.now) self.old) ≡ under (K.kept keeper.now) self.new) }
    {
        'actions: for action in actions {
            self.act(keeper, action)?;
        }
        Ok(())
    }

    fn act<K: Keeper>(&mut self, keeper: &K, action: &Action) -> Result<(), NoMemory>
        requires goes_in { GrantsGoIn self.old.tokens (action.now ∷ []) }
        requires clerk { IsOpenIn (K.kept keeper.now).sessions (session_of action.now) }
        ensures acts { OnOk result (machine.act action.now (under (K.kept keeper.now) self.old) ≡ under (K.kept keeper.now) self.new) }
        ensures more { OnOk result ((more : List Due) → GrantsGoIn self.old.tokens (action.now ∷ more) → GrantsGoIn self.new.tokens more) }
    {
        match action {
            Action::Grant(session, obj, hold) => self.grant(keeper, *session, *obj, *hold),
            Action::Recall(session, obj, number, to) => {
                self.recall(keeper, *session, *obj, *number, *to)
            }
        }
    }

    // A token of the next number is recorded and sent.
    fn grant<K: Keeper>(
        &mut self,
        keeper: &K,
        session: SessionNo,
        obj: ObjId,
        hold: Hold,
    ) -> Result<(), NoMemory>
        requires held { hold ≢ Hold.Free }
        requires clear { IsTrue (is_clear self.old.tokens session obj hold) }
        requires clerk { IsOpenIn (K.kept keeper.now).sessions session }
        ensures grants { OnOk result (machine.grant session obj hold (under (K.kept keeper.now) self.old) ≡ under (K.kept keeper.now) self.new) }
        ensures tokens { OnOk result (self.new.tokens ≡ granted session obj hold self.new.number self.old.tokens) }
    {
        let number = self.next_number()?;
        self.tokens.grant(session, obj, hold, number)?;
        let clerk = clerk_of(keeper, session);
        self.send_grant(keeper, clerk, session, obj, Token { hold, number })?;
        Ok(())
    }

    // The clerk is asked to give a token back.
    fn recall<K: Keeper>(
        &mut self,
        keeper: &K,
        session: SessionNo,
        obj: ObjId,
        number: u64,
        to: Hold,
    ) -> Result<(), NoMemory>
        requires { IsOpenIn (K.kept keeper.now).sessions session }
        ensures recalls { OnOk result (machine.act (action.Recall session obj number to) (under (K.kept keeper.now) self.old) ≡ under (K.kept keeper.now) self.new) }
        ensures tokens { OnOk result (self.new.tokens ≡ self.old.tokens) }
    {
        let clerk = clerk_of(keeper, session);
        let now = epoch(keeper);
        self.tell(clerk, Msg::Recall(session, now, obj, number, to))?;
        Ok(())
    }

    // Whether every open session has claimed.
    fn all_claimed<K: Keeper>(&self, keeper: &K) -> bool
        ensures { result ≡ machine.all_claimed (server (K.kept keeper.now) self.now) }
    {
        all_claimed(&keeper.view().sessions, &self.claimed)
    }
}
