// What a message does.
ghost use Rattle.std.specs.Prelude.{◌≡◌, ◌≤◌, true, [], ◌∷◌, None, IfOk, OnOk, MatchBool};
ghost use Rattle.ec_sessions.specs.Limits.{last_first_id};
ghost use Rattle.ec_cache.specs.Held.{is_within};
ghost use Rattle.ec_protocol.specs.Clerk as clerk;
ghost use Rattle.ec_doing.specs.Seen.{clerk_with, doing_of, enter_if_later, take_grant, Does, is_room_left};

use crate::doing::Doing;
use crate::holdings::{forget_numbers, mark_recall, run_from, take_each, use_all};
use ec_base::{Age, Hold, List, NoMemory, ObjId, SessionNo};
use ec_cache::resolve::Verdict;
use ec_history::Answer;
use ec_plain::Call;
use ec_protocol::{Out, Recalled, Waiting};
use ec_volume::Image;
use ec_wire::Msg;
use std::mem;

impl Doing {
    /// Whether the session is this one.
    pub(crate) fn is_in(&self, session: SessionNo) -> bool
        ensures { result ≡ clerk.is_session session self.now.session }
    {
        match self.session {
            Some(own) => session == own,
            None => false,
        }
    }

    /// The first `Opened` of its own age. It claims nothing.
    pub(crate) fn take_opened(
        &mut self,
        age: Age,
        session: SessionNo,
        epoch: u64,
    ) -> Result<(), NoMemory>
        ensures { OnOk result (Does (clerk.take_opened age session epoch) self.old self.new) }
    {
        if self.has_session() || !same_age(&age, &self.age) {
            return Ok(());
        }
        self.session = Some(session);
        self.epoch = epoch;
        let msg = Msg::Claim(session, epoch, List::of(Vec::new(self.alloc)));
        self.send(msg)
    }

    /// A recall of a number that isn't passed.
    pub(crate) fn take_recall(&mut self, obj: ObjId, number: u64, to: Hold) -> Result<(), NoMemory>
        ensures { OnOk result (Does (clerk.take_recall obj number to) self.old self.new) }
    {
        if number < self.cache.last(obj) {
            return Ok(());
        }
        mark_recall(&mut self.cache, obj, to);
        let recalled = Recalled { obj, number, to };
        self.keep_recall(recalled)
    }

    /// Takes a token. One whose number isn't new is passed over.
    pub(crate) fn take_grant(
        &mut self,
        obj: ObjId,
        number: u64,
        hold: Hold,
        image: Image,
    ) -> Result<(), NoMemory>
        requires { is_within image ≡ true }
        ensures { OnOk result (Does (take_grant obj number hold image) self.old self.new) }
    {
        self.cache.take(obj, hold, number, image)?;
        Ok(())
    }

    /// Sixteen ids, with Write tokens of one number.
    pub(crate) fn add_ids(&mut self, number: u64, first: ObjId) -> Result<(), NoMemory>
        requires last { first ≤ last_first_id }
        requires room { is_room_left self.old ≡ true }
        ensures { OnOk result (Does (clerk.with_clerk (clerk.add_ids number first)) self.old self.new) }
    {
        let run = run_from(self.alloc, first)?;
        self.got += 1;
        self.asking = None;
        self.ids.extend_from_slice(&run)?;
        take_each(&mut self.cache, number, &run)
    }

    /// The ids of the grant that it waits for.
    pub(crate) fn take_ids(&mut self, got: u32, number: u64, first: ObjId) -> Result<(), NoMemory>
        requires { first ≤ last_first_id }
        ensures { OnOk result (Does (clerk.take_ids got number first) self.old self.new) }
    {
        if got != self.got {
            return Ok(());
        }
        if self.got == u32::MAX {
            return Err(NoMemory);
        }
        self.add_ids(number, first)
    }

    /// The server runs in this epoch. It's told what is held and what is outstanding.
    pub(crate) fn take_restarted(&mut self, epoch: u64, waiting: &[Waiting]) -> Result<(), NoMemory>
        ensures { OnOk result (clerk.take_restarted epoch (doing_of waiting.now self.old) ≡ doing_of waiting.now self.new) }
    {
        if epoch < self.epoch {
            return Ok(());
        }
        self.enter_if_later(epoch)?;
        self.claim()?;
        self.send_outstanding(waiting)
    }

    // A new epoch: recalls and numbers are forgotten.
    fn enter_if_later(&mut self, epoch: u64) -> Result<(), NoMemory>
        ensures { OnOk result (Does (enter_if_later epoch) self.old self.new) }
    {
        if !forget_numbers(&mut self.cache, self.epoch, epoch)? {
            return Ok(());
        }
        self.epoch = epoch;
        self.recalls = Vec::new(self.alloc);
        self.wanted = Vec::new(self.alloc);
        Ok(())
    }

    /// The server knows a greater age.
    pub(crate) fn take_old_boot(&mut self, asked: Age, greatest: Age) -> Result<(), NoMemory>
        ensures { OnOk result (Does (clerk.take_old_boot asked greatest) self.old self.new) }
    {
        if same_age(&asked, &self.age) {
            self.emit(Out::OldBoot(greatest))?;
        }
        Ok(())
    }

    // A call that lacks an id is answered with the two numbers, and what it touched is used.
    fn refuse_make(
        &mut self,
        live: u32,
        reserved: u32,
        no: u64,
        touched: &[ObjId],
    ) -> Result<(), NoMemory>
        ensures { OnOk result (Does (clerk.refuse_make live reserved no touched.now) self.old self.new) }
    {
        use_all(&mut self.cache, touched);
        self.emit(Out::Answer(no, Answer::NoRoom(live, reserved), None))
    }

    // Whether a call lacks an id, and is answered for that.
    fn refuse_idless(&mut self, live: u32, reserved: u32, call: &Waiting) -> Result<bool, NoMemory>
        ensures { IfOk result (λ is_refused. MatchBool is_refused (Does (clerk.refuse_makes live reserved (call.now ∷ [])) self.old self.new) ((self.new ≡ self.old) × (clerk.idless (clerk.verdict call.now.call (clerk_with [] self.old)) ≡ None))) }
    {
        match self.idless(&call.call)? {
            Some(touched) => {
                self.refuse_make(live, reserved, call.no, touched.as_slice())?;
                Ok(true)
            }
            None => Ok(false),
        }
    }

    // What a call touched that lacks an id.
    fn idless(&self, call: &Call) -> Result<Option<List<ObjId>>, NoMemory>
        ensures { IfOk result (λ touched. touched ≡ clerk.idless (clerk.verdict call.now (clerk_with [] self.now))) }
    {
        match self.verdict(call)? {
            Verdict::NeedIds(touched) => Ok(Some(touched)),
            other => {
                drop(other);
                Ok(None)
            }
        }
    }
}

fn same_age(age: &Age, other: &Age) -> bool
    ensures { result ≡ clerk.same_age age.now other.now }
{
    age.boot == other.boot && age.round == other.round
}

// Each call that lacks an id is answered, and the others go on waiting.
fn refuse_makes(
    doing: &mut Doing,
    waiting: &mut Vec<Waiting>,
    live: u32,
    reserved: u32,
    calls: Vec<Waiting>,
) -> Result<(), NoMemory>
    ensures { OnOk result (clerk.refuse_makes live reserved calls.items (doing_of waiting.old.items doing.old) ≡ doing_of waiting.new.items doing.new) }
{
    'calls: for call in calls {
        refuse_or_keep(doing, waiting, live, reserved, call)?;
    }
    Ok(())
}

fn refuse_or_keep(
    doing: &mut Doing,
    waiting: &mut Vec<Waiting>,
    live: u32,
    reserved: u32,
    call: Waiting,
) -> Result<(), NoMemory>
    ensures { OnOk result (clerk.refuse_makes live reserved (call ∷ []) (doing_of waiting.old.items doing.old) ≡ doing_of waiting.new.items doing.new) }
{
    let is_refused = doing.refuse_idless(live, reserved, &call);
    if let Ok(false) = is_refused {
        waiting.push(call)?;
        return Ok(());
    }
    drop(call);
    match is_refused {
        Ok(_) => Ok(()),
        Err(fault) => Err(fault),
    }
}

/// No room for what was asked by this number.
pub(crate) fn take_no_room(
    doing: &mut Doing,
    waiting: &mut Vec<Waiting>,
    ask: u64,
    live: u32,
    reserved: u32,
) -> Result<(), NoMemory>
    ensures { OnOk result (clerk.take_no_room ask live reserved (doing_of waiting.old.items doing.old) ≡ doing_of waiting.new.items doing.new) }
{
    if doing.asking != Some(ask) {
        return Ok(());
    }
    doing.asking = None;
    let calls = mem::replace(waiting, Vec::new(doing.alloc));
    refuse_makes(doing, waiting, live, reserved, calls)
}
