// What is outstanding: the wants that waiting calls need, the room and the batches under way.
ghost use Rattle.std.specs.Prelude.{◌≡◌, [], ◌∷◌, reverse, IfOk, OnOk, MatchOption};
ghost use Rattle.std.specs.List.{list_any};
ghost use Rattle.ec_protocol.specs.Clerk as clerk;
ghost use Rattle.ec_doing.specs.Seen.{claim_all, clerk_with, doing_of, Does};

use crate::doing::Doing;
use crate::holdings::batch_numbers;
use ec_base::{Hold, NoMemory, ObjId};
use ec_cache::resolve::Verdict;
use ec_plain::Call;
use ec_protocol::Waiting;

impl Doing {
    fn resend_want(
        &mut self,
        obj: ObjId,
        hold: Hold,
        sent: &[(ObjId, Hold)],
    ) -> Result<(), NoMemory>
        ensures { OnOk result (Does (clerk.resend_want obj hold (reverse sent.now)) self.old self.new) }
    {
        if self.may_want(obj, hold) && !is_among(obj, hold, sent) {
            self.send_want(obj, hold)?;
        }
        Ok(())
    }

    // Each object and mode once.
    fn resend_needs(&mut self, needs: &[(ObjId, Hold)]) -> Result<(), NoMemory>
        ensures { OnOk result (Does (clerk.resend_needs [] needs.now) self.old self.new) }
    {
        let mut place = 0;
        'needs: while place < needs.len() {
            let (obj, hold) = needs[place];
            self.resend_want(obj, hold, &needs[..place])?;
            place += 1;
        }
        Ok(())
    }

    // What a call needs.
    fn need(&self, call: &Call) -> Result<Option<(ObjId, Hold)>, NoMemory>
        ensures { IfOk result (λ need. MatchOption need (clerk.need_of (clerk.verdict call.now (clerk_with [] self.now)) ≡ []) (λ p. clerk.need_of (clerk.verdict call.now (clerk_with [] self.now)) ≡ p ∷ [])) }
    {
        let verdict = self.verdict(call)?;
        let need = need_of(&verdict);
        drop(verdict);
        Ok(need)
    }

    // What the waiting calls need.
    fn needs(&self, waiting: &[Waiting]) -> Result<Vec<(ObjId, Hold)>, NoMemory>
        ensures { IfOk result (λ needs. needs.items ≡ clerk.needs waiting.now (clerk_with waiting.now self.now)) }
    {
        let mut needs = Vec::new(self.alloc);
        'calls: for call in waiting {
            if let Some(need) = self.need(&call.call)? {
                needs.push(need)?;
            }
        }
        Ok(needs)
    }

    fn resend_room(&mut self, asking: Option<u64>) -> Result<(), NoMemory>
        ensures { OnOk result (Does (clerk.resend_room asking) self.old self.new) }
    {
        match asking {
            Some(ask) => self.send_room(ask),
            None => Ok(()),
        }
    }

    fn resend_batches(&mut self, batches: &[u64]) -> Result<(), NoMemory>
        ensures { OnOk result (Does (clerk.resend_batches batches.now) self.old self.new) }
    {
        'batches: for batch in batches {
            self.send_batch(*batch)?;
        }
        Ok(())
    }

    /// Sends what is outstanding, while these calls wait.
    pub(crate) fn send_outstanding(&mut self, waiting: &[Waiting]) -> Result<(), NoMemory>
        ensures { OnOk result (clerk.send_outstanding (doing_of waiting.now self.old) ≡ doing_of waiting.now self.new) }
    {
        let needs = self.needs(waiting)?;
        self.resend_needs(&needs)?;
        self.resend_room(self.asking)?;
        let batches = batch_numbers(self.alloc, self.ledger.log.under_way())?;
        self.resend_batches(&batches)
    }

    /// Sends what is held and what is outstanding, while these calls wait; without a session it greets.
    pub(crate) fn claim_all(&mut self, waiting: &[Waiting]) -> Result<(), NoMemory>
        ensures { OnOk result (claim_all (doing_of waiting.now self.old) ≡ doing_of waiting.now self.new) }
    {
        if !self.has_session() {
            return self.hello();
        }
        self.claim()?;
        self.send_outstanding(waiting)
    }
}

// What a call needs that comes to this.
fn need_of(verdict: &Verdict) -> Option<(ObjId, Hold)>
    ensures { MatchOption result (clerk.need_of verdict.now ≡ []) (λ p. clerk.need_of verdict.now ≡ p ∷ []) }
{
    match verdict {
        Verdict::Need(obj, hold) => Some((*obj, *hold)),
        _ => None,
    }
}

fn is_among(obj: ObjId, hold: Hold, sent: &[(ObjId, Hold)]) -> bool
    ensures { result ≡ list_any (clerk.is_need obj hold) (reverse sent.now) }
{
    sent.iter()
        .rev()
        .any(|(other, mode)| *other == obj && *mode == hold)
}
