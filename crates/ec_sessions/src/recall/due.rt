// What is due to a list of wants.
ghost use Rattle.std.specs.Prelude.{◌≡◌, ◌≢◌, ◌++◌, ◌∷◌, [], map, filter, not, OnOk, IfOk, IsTrue};
ghost use Rattle.ec_sessions.specs.OfRecall.Due as due;
ghost use Rattle.ec_sessions.specs.OfRecall.HeldWants.{NoneFree};
ghost use Rattle.ec_sessions.specs.OfTokens.Tokens.{is_clear, conflicts};

use crate::recall::want::{Action, Want};
use crate::tokens::Tokens;
use ec_base::{Hold, List, NoMemory, SessionNo};
use std::alloc::Global;

/// The actions so far, the wants that stay, and the grants among the actions as tokens.
#[derive(Drop)]
pub struct Round {
    pub actions: Vec<Action>,
    pub wants: Vec<Want>,
    given: Tokens,
}

/// What is due to the wants, which stand in the order of arrival, at these tokens.
pub fn serve(alloc: Global, tokens: &Tokens, wants: &[Want]) -> Result<Round, NoMemory>
    requires { NoneFree wants.now }
    ensures actions { IfOk result (λ round. round.actions.items ≡ due.actions tokens.now wants.now) }
    ensures wants { IfOk result (λ round. round.wants.items ≡ due.wants_after tokens.now wants.now) }
{
    let mut round = Round {
        actions: Vec::new(alloc),
        wants: Vec::new(alloc),
        given: Tokens::new(alloc)?,
    };
    for want in wants {
        round.take(tokens, want)?;
    }
    Ok(round)
}

impl Round {
    fn take(&mut self, tokens: &Tokens, want: &Want) -> Result<(), NoMemory>
        requires { want.now.hold ≢ Hold.Free }
        ensures actions { OnOk result (self.new.actions.items ≡ self.old.actions.items ++ due.answer tokens.now self.old.given want.now) }
        ensures wants { OnOk result (self.new.wants.items ≡ self.old.wants.items ++ due.stay tokens.now self.old.given want.now) }
        ensures given { OnOk result (self.new.given ≡ due.given_after tokens.now self.old.given want.now) }
    {
        if is_due(tokens, &self.given, want) {
            self.grant(want)
        } else {
            self.recall(tokens, want)
        }
    }

    fn grant(&mut self, want: &Want) -> Result<(), NoMemory>
        requires held { want.now.hold ≢ Hold.Free }
        requires clear { IsTrue (is_clear self.old.given want.now.session want.now.obj want.now.hold) }
        ensures actions { OnOk result (self.new.actions.items ≡ self.old.actions.items ++ Action.Grant want.now.session want.now.obj want.now.hold ∷ []) }
        ensures wants { OnOk result (self.new.wants.items ≡ self.old.wants.items) }
        ensures given { OnOk result (self.new.given ≡ due.given_to want.now.session want.now.obj want.now.hold self.old.given) }
    {
        self.given.grant(want.session, want.obj, want.hold, 0)?;
        self.actions
            .push(Action::Grant(want.session, want.obj, want.hold))?;
        Ok(())
    }

    fn recall(&mut self, tokens: &Tokens, want: &Want) -> Result<(), NoMemory>
        ensures actions { OnOk result (self.new.actions.items ≡ self.old.actions.items ++ map (due.recall_of want.now) (due.news tokens.now want.now)) }
        ensures wants { OnOk result (self.new.wants.items ≡ self.old.wants.items ++ record (want.now) { told = map due.told_of (conflicts tokens.now want.now.session want.now.obj want.now.hold) } ∷ []) }
        ensures given { OnOk result (self.new.given ≡ self.old.given) }
    {
        let holders = tokens.conflicts(want.session, want.obj, want.hold)?;
        let told = told_of(&holders)?;
        let news = unheard(want.told.as_slice(), holders);
        let to = recall_to(want.hold);
        for holder in &news {
            self.actions
                .push(Action::Recall(holder.0, want.obj, holder.2, to))?;
        }
        self.wants.push(Want {
            session: want.session,
            obj: want.obj,
            hold: want.hold,
            told,
        })?;
        Ok(())
    }
}

fn is_due(tokens: &Tokens, given: &Tokens, want: &Want) -> bool
    ensures { result ≡ due.is_due tokens.now given.now want.now }
{
    tokens.is_clear(want.session, want.obj, want.hold)
        && given.is_clear(want.session, want.obj, want.hold)
}

// The holders that weren't told.
fn unheard(
    told: &[(SessionNo, u64)],
    mut holders: Vec<(SessionNo, Hold, u64)>,
) -> Vec<(SessionNo, Hold, u64)>
    ensures { result.items ≡ filter (λ holder. not (due.is_told told.now holder)) holders.items }
{
    holders.retain(|holder| !is_told(told, holder));
    holders
}

fn is_told(told: &[(SessionNo, u64)], holder: &(SessionNo, Hold, u64)) -> bool
    ensures { result ≡ due.is_told told.now holder.now }
{
    told.iter().any(|t| t.0 == holder.0 && t.1 == holder.2)
}

// A reader needs the others down to Read, a writer down to Free.
fn recall_to(hold: Hold) -> Hold
    ensures { result ≡ due.recall_to hold }
{
    match hold {
        Hold::Free | Hold::Read => Hold::Read,
        Hold::Write => Hold::Free,
    }
}

fn told_of(holders: &Vec<(SessionNo, Hold, u64)>) -> Result<List<(SessionNo, u64)>, NoMemory>
    ensures { IfOk result (λ list. list ≡ map due.told_of holders.now.items) }
{
    let mut told = Vec::with_capacity(*holders.allocator(), holders.len())?;
    for holder in holders {
        told.push((holder.0, holder.2))?;
    }
    Ok(List::of(told))
}
