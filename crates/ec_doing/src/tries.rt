// A waiting call is tried: it's answered, or the one thing that it lacks is asked for.
ghost use Rattle.std.specs.Prelude.{◌≡◌, ℕ, true, false, [], Option, None, Some, IfOk, OnOk, MatchBool};
ghost use Rattle.ec_volume.specs.Update.{operands};
ghost use Rattle.ec_volume.specs.declared.update.Update.{Update as Change};
ghost use Rattle.ec_plain.specs.declared.call.Call.{Call as Asking};
ghost use Rattle.ec_log.specs.Log.{ops_are_spent};
ghost use Rattle.ec_cache.specs.declared.resolve.verdict.Verdict.TheVariants as lost;
ghost use Rattle.ec_protocol.specs.Clerk as clerk;
ghost use Rattle.ec_doing.specs.Seen.{clerk_with, Does, Tries, HasRoom, LacksRoom, waiting_of, outcome_of};

use crate::doing::{Doing, Tried};
use crate::holdings::{awaited, is_owing, less_id, suits, use_all};
use ec_base::{List, NoMemory, ObjId, OpNo};
use ec_cache::resolve::{Verdict, evaluate};
use ec_history::Answer;
use ec_log::{Asked, MAX_UNDURABLE};
use ec_plain::{Call, Outcome, Reply};
use ec_protocol::{Out, Waiting};
use ec_volume::Update;

impl Doing {
    /// The id that the next new object gets.
    pub(crate) fn fresh(&self) -> Option<ObjId>
        ensures { result ≡ clerk.first_id self.now.ids.items }
    {
        match self.ids.as_slice() {
            [] => None,
            [id, ..] => Some(*id),
        }
    }

    /// What a call comes to.
    pub(crate) fn verdict(&self, call: &Call) -> Result<Verdict, NoMemory>
        ensures { IfOk result (λ verdict. verdict ≡ clerk.verdict call.now (clerk_with [] self.now)) }
    {
        evaluate(
            self.alloc,
            &self.cache,
            &self.ledger.owed,
            call,
            self.fresh(),
        )
    }

    // A call's answer comes out, and the objects that it touched are used.
    fn answer_with(
        &mut self,
        no: u64,
        answer: Answer,
        op: Option<OpNo>,
        touched: &[ObjId],
    ) -> Result<Tried, NoMemory>
        ensures { IfOk result (λ tried. (call : Asking) (begun : ℕ) → Tries (clerk.answer_with (waiting_of no call begun) answer op touched.now) tried self.old self.new) }
    {
        use_all(&mut self.cache, touched);
        self.emit(Out::Answer(no, answer, op))?;
        Ok(Tried::Answered)
    }

    fn answer_outcome(
        &mut self,
        no: u64,
        reply: Reply,
        touched: List<ObjId>,
    ) -> Result<Tried, NoMemory>
        ensures { IfOk result (λ tried. (call : Asking) (begun : ℕ) (u : Option Change) → Tries (clerk.await (waiting_of no call begun) (outcome_of reply u touched) None) tried self.old self.new) }
    {
        self.answer_with(no, Answer::Reply(reply), None, touched.as_slice())
    }

    // An answer waits while an operation issued before its call began isn't durable.
    fn settle_asked(
        &mut self,
        no: u64,
        begun: u64,
        reply: Reply,
        touched: List<ObjId>,
        asked: &Asked,
    ) -> Result<Tried, NoMemory>
        ensures { IfOk result (λ tried. (call : Asking) (u : Option Change) → Tries (clerk.await (waiting_of no call begun) (outcome_of reply u touched) (Some asked.now)) tried self.old self.new) }
    {
        if is_owing(begun, self.ledger.log.first(*asked)) {
            self.ask_for(*asked)?;
            return Ok(Tried::Waits);
        }
        self.answer_outcome(no, reply, touched)
    }

    fn settle_reply(
        &mut self,
        no: u64,
        begun: u64,
        reply: Reply,
        touched: List<ObjId>,
        asked: &Option<Asked>,
    ) -> Result<Tried, NoMemory>
        ensures { IfOk result (λ tried. (call : Asking) (u : Option Change) → Tries (clerk.await (waiting_of no call begun) (outcome_of reply u touched) asked.now) tried self.old self.new) }
    {
        match asked {
            Some(asked) => self.settle_asked(no, begun, reply, touched, asked),
            None => self.answer_outcome(no, reply, touched),
        }
    }

    // The operation of an update is issued: the images held are changed, and a new object takes its id.
    fn add_update(&mut self, update: Update) -> Result<OpNo, NoMemory>
        requires { clerk.suits update self.old.cache ≡ true }
        ensures op { IfOk result (λ op. op ≡ self.old.ledger.log.next) }
        ensures ok { OnOk result (Does (clerk.with_clerk (clerk.with_update update)) self.old self.new) }
        ensures room { OnOk result (ops_are_spent self.old.ledger.log ≡ false) }
    {
        self.cache.change(&update)?;
        less_id(&update, &mut self.ids);
        match self.ledger.log.issue(update) {
            Ok(op) => Ok(op),
            Err(_) => Err(NoMemory),
        }
    }

    fn issue(
        &mut self,
        no: u64,
        reply: Reply,
        touched: List<ObjId>,
        update: Update,
    ) -> Result<Tried, NoMemory>
        requires { clerk.suits update self.old.cache ≡ true }
        ensures { IfOk result (λ tried. (call : Asking) (begun : ℕ) (u : Option Change) → Tries (clerk.issue (waiting_of no call begun) (outcome_of reply u touched) update) tried self.old self.new) }
    {
        let op = self.add_update(update)?;
        self.answer_with(no, Answer::Reply(reply), Some(op), touched.as_slice())
    }

    // Whether an update can be issued. Where too many operations are undurable, all are asked for.
    fn has_room(&mut self, update: &Update) -> Result<bool, NoMemory>
        ensures { IfOk result (λ has_room. MatchBool has_room (HasRoom update.now self.old self.new) (LacksRoom update.now self.old self.new)) }
    {
        if !suits(self.alloc, update, &self.cache)? {
            return Ok(false);
        }
        if self.ledger.log.count() >= MAX_UNDURABLE {
            self.ask_for(Asked::All)?;
            return Ok(false);
        }
        Ok(true)
    }

    // An update that can't be issued waits.
    fn issue_if_room(
        &mut self,
        no: u64,
        reply: Reply,
        touched: List<ObjId>,
        update: Update,
    ) -> Result<Tried, NoMemory>
        ensures { IfOk result (λ tried. (call : Asking) (begun : ℕ) (u : Option Change) → Tries (clerk.issue_if_room (waiting_of no call begun) (outcome_of reply u touched) update) tried self.old self.new) }
    {
        let has_room = self.has_room(&update);
        if let Ok(true) = has_room {
            return self.issue(no, reply, touched, update);
        }
        drop(update);
        drop(reply);
        drop(touched);
        match has_room {
            Ok(_) => Ok(Tried::Waits),
            Err(fault) => Err(fault),
        }
    }

    fn settle_outcome(&mut self, waiting: &Waiting, outcome: Outcome) -> Result<Tried, NoMemory>
        ensures { IfOk result (λ tried. Tries (clerk.settle_outcome waiting.now outcome outcome.update) tried self.old self.new) }
    {
        let asked = awaited(&waiting.call, &outcome);
        let Outcome {
            reply,
            update,
            touched,
        } = outcome;
        match update {
            Some(update) => self.issue_if_room(waiting.no, reply, touched, update),
            None => self.settle_reply(waiting.no, waiting.begun, reply, touched, &asked),
        }
    }

    // The answer tells the lost operations, which aren't owed on these objects any more.
    fn report(&mut self, no: u64, ops: List<OpNo>, objs: &[ObjId]) -> Result<Tried, NoMemory>
        ensures { IfOk result (λ tried. (call : Asking) (begun : ℕ) → Tries (clerk.try_verdict (waiting_of no call begun) (lost.Lost ops objs.now)) tried self.old self.new) }
    {
        self.ledger.owed.clear(objs);
        self.answer_with(no, Answer::Lost(ops), None, objs)
    }

    /// Tries a call.
    pub(crate) fn try_call(&mut self, waiting: &Waiting) -> Result<Tried, NoMemory>
        ensures { IfOk result (λ tried. Tries (clerk.try waiting.now) tried self.old self.new) }
    {
        match self.verdict(&waiting.call)? {
            Verdict::Need(obj, hold) => {
                self.want(obj, hold)?;
                Ok(Tried::Waits)
            }
            Verdict::NeedIds(_) => {
                self.ask_room()?;
                Ok(Tried::Waits)
            }
            Verdict::Lost(ops, objs) => self.report(waiting.no, ops, objs.as_slice()),
            Verdict::Done(outcome) => self.settle_outcome(waiting, outcome),
        }
    }
}
