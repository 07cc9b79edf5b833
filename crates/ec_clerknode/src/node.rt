// What is done in one turn at the lock.
ghost use Rattle.std.specs.Prelude.{◌≡◌, ℕ, ◌+◌, ◌≤◌, ◌<◌, ◌⊎◌, ◌||◌, true, false, [], ◌∷◌, ◌++◌, length, map, Option, Some, None, IfOk, IfErr, OnOk, IfSome, IfNone};
ghost use Rattle.ec_base.specs.Limits.{last_counter};
ghost use Rattle.ec_base.specs.declared.ids.Age.{Age as Years};
ghost use Rattle.ec_link.specs.declared.link.Sent.TheVariants as sent;
ghost use Rattle.ec_clerknode.specs.Closed.{Acts, Closed, EndsAs, Fell, IsMark, Begun, Works, Flushes, Parts, PartsBehind, ReadsFlushes, Resends, Started, Waited, is_wanting};
ghost use Rattle.ec_clerknode.specs.NodeSteps.{AnsweredFrom, Since, Keeps};
ghost use Rattle.ec_clerknode.specs.Run.{told_by};
ghost use Rattle.ec_clerknode.specs.declared.fault.NodeFault.TheVariants as fault;
ghost use Rattle.ec_clerknode.specs.declared.state.State.{State};
ghost use Rattle.ec_clerknode.specs.declared.step.Step.{Step};

use crate::act::{Act, Greeted};
use crate::clerk::{self, Refused};
use crate::fault::NodeFault;
use crate::hear::hear;
use crate::state::State;
use crate::step::{Deed, Step};
use ec_base::{Duplicate, LAST_COUNTER, List, NoMemory, OpNo};
use ec_history::Answer;
use ec_link::{Link, Sent};
use ec_log::Asked;
use ec_outs::{keep_all, known_old, send_resting, take_kept};
use ec_plain::Call;
use ec_protocol::{Flushed, Out};
use std::alloc::Global;
use std::snapshot::Snapshot;
use std::sync::Wait;
use std::time::Clock;

fn copies(alloc: Global, lists: &[List<OpNo>]) -> Result<Vec<List<OpNo>>, NoMemory>
    ensures { IfOk result (λ copies. copies.items ≡ lists.now) }
{
    let mut copies = Vec::with_capacity(alloc, lists.len())?;
    for list in lists {
        copies.push(list.duplicate()?)?;
    }
    Ok(copies)
}

// How a step ends. Where an answer couldn't be kept, memory was wanting.
fn end_of(kept: bool, end: Sent) -> Sent
    ensures kept { kept ≡ true → result ≡ end }
    ensures lost { kept ≡ false → result ≡ sent.NoMemory }
{
    if kept { end } else { Sent::NoMemory }
}

// Whether the clerk is followed no more behind a step that ends so.
fn is_broken_behind(was_broken: bool, end: Sent) -> bool
    ensures { result ≡ (is_wanting end || was_broken) }
{
    match end {
        Sent::NoMemory => true,
        Sent::Done | Sent::Failed => was_broken,
    }
}

// Whether the link is down behind a step that ends so.
fn is_down_behind(was_down: bool, end: Sent) -> bool {
    match end {
        Sent::Failed => true,
        Sent::Done | Sent::NoMemory => was_down,
    }
}

impl<L: Link> State<L> {
    /// Whether a turn may do anything. It's `OldBoot` where the server knows a greater age, and want of memory where the clerk is
    /// followed no more or has taken as many steps as are counted.
    pub fn check(&self) -> Result<(), NodeFault>
        ensures ok { IfOk result (λ _. (self.now.broken ≡ false) × (self.now.steps < last_counter) × (self.now.boot ≡ None)) }
        ensures err { IfErr result (λ f. (f ≡ fault.NoMemory) ⊎ ((age : Years) × (f ≡ fault.OldBoot age) × (self.now.boot ≡ Some age))) }
    {
        if let Some(age) = self.boot {
            return Err(NodeFault::OldBoot(age));
        }
        if self.broken || self.steps >= LAST_COUNTER {
            return Err(NodeFault::NoMemory);
        }
        Ok(())
    }

    // Memory is wanting for a step, and the clerk is followed no more. A mark says so.
    fn breaks(&mut self, alloc: Global, pass: u64) -> NodeFault
        requires { self.old.steps < last_counter }
        ensures fault { result ≡ fault.NoMemory }
        ensures fell { Fell pass self.old self.new }
    {
        let outs = Vec::new(alloc);
        let step = Step {
            pass,
            deed: Deed::Broke,
            outs: Snapshot::of(&outs),
            sent: 0,
            end: Sent::NoMemory,
            floor: 0,
        };
        self.trace = self.trace.and(&step);
        self.steps += 1;
        self.broken = true;
        NodeFault::NoMemory
    }

    /// Sends the messages, keeps the answers and adds the step. It says how the sending ended.
    pub fn add_step<R: Wait + Clock>(
        &mut self,
        rt: &R,
        alloc: Global,
        pass: u64,
        deed: Deed,
        outs: Vec<Out>,
    ) -> Sent
        requires { self.old.steps < last_counter }
        ensures { (step : Step) × Closed (λ l. L.faults l + L.closes l) L.given L.got pass deed outs.items step self.old self.new × (step.end ≡ result) }
    {
        let shot = Snapshot::of(&outs);
        let rest = self.patience.rest(rt, &outs);
        let is_net = deed.is_net();
        let (sent, end) = send_resting(rt, alloc, &mut self.link, &outs, rest);
        self.is_down = is_down_behind(self.is_down || is_net, end);
        let floor = clerk::floor(&self.clerk);
        self.boot = known_old(self.boot, &outs);
        let kept = keep_all(&mut self.kept, &mut self.told, outs, self.steps);
        let end = end_of(kept, end);
        let step = Step {
            pass,
            deed,
            outs: shot,
            sent,
            end,
            floor,
        };
        self.trace = self.trace.and(&step);
        self.steps += 1;
        self.top = self.top.max(floor);
        self.broken = is_broken_behind(self.broken, end);
        end
    }

    // How the turn ends.
    fn ended(&self, end: Sent, marked: Option<NodeFault>) -> Result<(), NodeFault>
        requires { IfSome marked IsMark }
        ensures ends { EndsAs self.now.boot self.now.lasts self.now.is_down end marked result }
        ensures up { OnOk result (self.now.broken ≡ false) }
    {
        if let Some(age) = self.boot {
            return Err(NodeFault::OldBoot(age));
        }
        if self.broken {
            return Err(NodeFault::NoMemory);
        }
        match end {
            Sent::Failed => self.outlives()?,
            Sent::NoMemory => return Err(NodeFault::NoMemory),
            Sent::Done => {}
        }
        match marked {
            Some(NodeFault::Net) => {
                self.outlives()?;
                Ok(())
            }
            Some(fault) => Err(fault),
            None => Ok(()),
        }
    }

    // The link failed or was closed, which is no fault where another one will come.
    fn outlives(&self) -> Result<(), NodeFault>
        ensures ok { IfOk result (λ _. (self.now.lasts ≡ true) × (self.now.is_down ≡ true)) }
        ensures err { IfErr result (λ f. f ≡ fault.Net) }
    {
        if self.lasts && self.is_down {
            Ok(())
        } else {
            Err(NodeFault::Net)
        }
    }

    // Ends what was done to the clerk: its step is added.
    fn close<R: Wait + Clock>(
        &mut self,
        rt: &R,
        alloc: Global,
        pass: u64,
        act: Act,
    ) -> Result<(), NodeFault>
        requires steps { self.old.steps < last_counter }
        requires marked { IfSome act.fault IsMark }
        ensures grown { (step : Step) × Closed (λ l. L.faults l + L.closes l) L.given L.got pass act.deed act.outs.items step self.old self.new × EndsAs self.new.boot self.new.lasts self.new.is_down step.end act.fault result }
        ensures up { OnOk result (self.new.broken ≡ false) }
    {
        let Act {
            deed,
            outs,
            fault,
            ..
        } = act;
        let end = self.add_step(rt, alloc, pass, deed, outs);
        self.ended(end, fault)
    }

    fn take_answer(&mut self, number: u64, place: u64) -> Option<(Answer, Option<OpNo>)>
        ensures keeps { Keeps (λ l. L.faults l + L.closes l) L.given L.got self.old self.new }
        ensures same { (self.new.trace.items ≡ self.old.trace.items) × (self.new.boot ≡ self.old.boot) }
        ensures up { self.new.broken ≡ self.old.broken }
        ensures answer { (first : State L) → Since (λ l. L.faults l + L.closes l) L.given L.got first self.old → IfSome result (λ reply. AnsweredFrom self.old.trace.items place number reply) }
    {
        let answer = take_kept(&mut self.kept, number, place);
        self.waiting.note(answer.is_some());
        answer
    }

    fn begin<R: Wait + Clock>(
        &mut self,
        rt: &R,
        alloc: Global,
        pass: u64,
        call: Call,
    ) -> Result<u64, NodeFault>
        ensures keeps { Keeps (λ l. L.faults l + L.closes l) L.given L.got self.old self.new }
        ensures begun { Begun pass call self.old self.new result }
        ensures up { OnOk result (self.new.broken ≡ false) }
    {
        self.check()?;
        let shot = Snapshot::of(&call);
        match clerk::begin(&mut self.clerk, call) {
            Ok((number, outs)) => {
                let act = Act::step(Deed::Began(shot, number), outs);
                self.close(rt, alloc, pass, act)?;
                Ok(number)
            }
            Err(Refused::Spent(counter)) => {
                let fault = NodeFault::Spent(counter);
                let act = Act::mark(alloc, Deed::NotBegun(shot, counter), fault);
                self.close(rt, alloc, pass, act)?;
                Err(fault)
            }
            Err(Refused::NoMemory) => Err(self.breaks(alloc, pass)),
        }
    }

    // Reads the link once, and takes the message if there was one. It tells what the message was, where the link gave something.
    fn hear_link<R: Wait + Clock>(
        &mut self,
        rt: &R,
        alloc: Global,
        pass: u64,
    ) -> Result<Option<Greeted>, NodeFault>
        ensures keeps { Keeps (λ l. L.faults l + L.closes l) L.given L.got self.old self.new }
        ensures works { Works pass self.old self.new result }
        ensures up { OnOk result (self.new.broken ≡ false) }
    {
        self.check()?;
        let got = self.link.recv(rt);
        match hear(&mut self.clerk, alloc, got) {
            Ok(None) => Ok(None),
            Ok(Some(act)) => {
                let greeted = act.greeted;
                self.close(rt, alloc, pass, act)?;
                Ok(Some(greeted))
            }
            Err(_) => Err(self.breaks(alloc, pass)),
        }
    }

    /// Reads the link once, and takes the message if there was one. It's true where the link gave something. A link that is
    /// down is read no more where another one will come. Faults are those of `check`, `Net` where no other one will come, `Peer` and
    /// `Long` by what the link gave, `Spent` and want of memory.
    pub fn read<R: Wait + Clock>(
        &mut self,
        rt: &R,
        alloc: Global,
        pass: u64,
    ) -> Result<bool, NodeFault>
        ensures keeps { Keeps (λ l. L.faults l + L.closes l) L.given L.got self.old self.new }
        ensures works { Works pass self.old self.new result }
        ensures up { OnOk result (self.new.broken ≡ false) }
    {
        self.check()?;
        if self.outlives().is_ok() {
            return Ok(false);
        }
        match self.hear_link(rt, alloc, pass)? {
            Some(greeted) => {
                self.pay(rt, alloc, pass, greeted)?;
                Ok(true)
            }
            None => Ok(false),
        }
    }

    // Behind the answer to the greeting of a new link what is outstanding is sent again: by the clerk itself where the server
    // restarted, and else by this step.
    fn pay<R: Wait + Clock>(
        &mut self,
        rt: &R,
        alloc: Global,
        pass: u64,
        greeted: Greeted,
    ) -> Result<(), NodeFault>
        ensures keeps { Keeps (λ l. L.faults l + L.closes l) L.given L.got self.old self.new }
        ensures works { Works pass self.old self.new result }
        ensures up { OnOk result (self.new.broken ≡ false) }
    {
        self.check()?;
        if !self.is_due(greeted) {
            return Ok(());
        }
        self.resend(rt, alloc, pass)
    }

    // Whether what is outstanding is to be sent again now.
    fn is_due(&mut self, greeted: Greeted) -> bool
        ensures { self.new ≡ record self.old { owes = self.new.owes } }
    {
        let is_owed = self.owes && !self.is_down;
        match greeted {
            Greeted::No => false,
            Greeted::Restarted => {
                self.owes = false;
                false
            }
            Greeted::Opened => {
                self.owes = self.owes && self.is_down;
                is_owed
            }
        }
    }

    /// Asks for a batch. Faults are those of `check`, `Net` where the link fails and no other one will come, `Spent` and want of
    /// memory.
    pub fn flush<R: Wait + Clock>(
        &mut self,
        rt: &R,
        alloc: Global,
        pass: u64,
        asked: Asked,
    ) -> Result<Flushed, NodeFault>
        ensures keeps { Keeps (λ l. L.faults l + L.closes l) L.given L.got self.old self.new }
        ensures flushes { Flushes pass asked self.old self.new result }
        ensures up { OnOk result (self.new.broken ≡ false) }
    {
        self.check()?;
        let shot = Snapshot::of(&asked);
        match clerk::flush(&mut self.clerk, asked) {
            Ok((answer, outs)) => {
                let act = Act::step(Deed::Picked(shot), outs);
                self.close(rt, alloc, pass, act)?;
                Ok(answer)
            }
            Err(Refused::Spent(counter)) => {
                let fault = NodeFault::Spent(counter);
                let act = Act::mark(alloc, Deed::NotPicked(shot, counter), fault);
                self.close(rt, alloc, pass, act)?;
                Err(fault)
            }
            Err(Refused::NoMemory) => Err(self.breaks(alloc, pass)),
        }
    }

    // Says goodbye, where there is a session and the link is up. Whether the link took it.
    fn bye<R: Wait + Clock>(&mut self, rt: &R, alloc: Global, pass: u64) -> Result<bool, NodeFault>
        ensures keeps { Keeps (λ l. L.faults l + L.closes l) L.given L.got self.old self.new }
        ensures parts { Parts pass self.old self.new result }
        ensures up { OnOk result (self.new.broken ≡ false) }
    {
        self.check()?;
        if self.is_down {
            return Ok(false);
        }
        match clerk::bye(&mut self.clerk) {
            Ok(Some(outs)) => {
                self.close(rt, alloc, pass, Act::step(Deed::Parted, outs))?;
                Ok(!self.is_down)
            }
            Ok(None) => Ok(false),
            Err(_) => Err(self.breaks(alloc, pass)),
        }
    }

    /// Reads the link once, and says goodbye where there is a session then. Whether the link gave something, and whether it
    /// said goodbye. Faults are those of `read`.
    pub fn read_and_bye<R: Wait + Clock>(
        &mut self,
        rt: &R,
        alloc: Global,
        pass: u64,
    ) -> Result<(bool, bool), NodeFault>
        ensures keeps { Keeps (λ l. L.faults l + L.closes l) L.given L.got self.old self.new }
        ensures parts { PartsBehind pass self.old self.new result }
        ensures up { OnOk result (self.new.broken ≡ false) }
    {
        let heard = self.read_or_resend(rt, alloc, pass)?;
        let is_said = self.bye(rt, alloc, pass)?;
        Ok((heard, is_said))
    }

    // Sends again what is held and what is outstanding, or greets again where there is no session.
    fn resend<R: Wait + Clock>(&mut self, rt: &R, alloc: Global, pass: u64) -> Result<(), NodeFault>
        ensures keeps { Keeps (λ l. L.faults l + L.closes l) L.given L.got self.old self.new }
        ensures resends { Resends pass self.old self.new result }
        ensures up { OnOk result (self.new.broken ≡ false) }
    {
        self.check()?;
        match clerk::resend(&mut self.clerk) {
            Ok(outs) => self.close(rt, alloc, pass, Act::step(Deed::Resent, outs)),
            Err(_) => Err(self.breaks(alloc, pass)),
        }
    }

    // Sends again where calls have waited for long: a message that was lost is repeated by nobody else.
    fn resend_if_long<R: Wait + Clock>(
        &mut self,
        rt: &R,
        alloc: Global,
        pass: u64,
    ) -> Result<(), NodeFault>
        ensures keeps { Keeps (λ l. L.faults l + L.closes l) L.given L.got self.old self.new }
        ensures works { Works pass self.old self.new result }
        ensures up { OnOk result (self.new.broken ≡ false) }
    {
        self.check()?;
        if !self.is_long(rt) {
            return Ok(());
        }
        self.resend(rt, alloc, pass)
    }

    // Whether calls have waited for long, with a link.
    fn is_long<R: Clock>(&mut self, rt: &R) -> bool
        ensures { self.new ≡ record self.old { waiting = self.new.waiting } }
    {
        if self.is_down {
            return false;
        }
        self.waiting.is_long(rt)
    }

    // Reads the link once for one that waits, and may send again where nothing came.
    fn read_or_resend<R: Wait + Clock>(
        &mut self,
        rt: &R,
        alloc: Global,
        pass: u64,
    ) -> Result<bool, NodeFault>
        ensures keeps { Keeps (λ l. L.faults l + L.closes l) L.given L.got self.old self.new }
        ensures works { Works pass self.old self.new result }
        ensures up { OnOk result (self.new.broken ≡ false) }
    {
        let heard = self.read(rt, alloc, pass)?;
        if heard {
            return Ok(true);
        }
        self.resend_if_long(rt, alloc, pass)?;
        Ok(false)
    }

    /// Begins a call. Its number, the place of its step, and the answer where it is there at once. Faults are those of `flush`.
    pub fn start_call<R: Wait + Clock>(
        &mut self,
        rt: &R,
        alloc: Global,
        pass: u64,
        call: Call,
    ) -> Result<(u64, u64, Option<(Answer, Option<OpNo>)>), NodeFault>
        ensures keeps { Keeps (λ l. L.faults l + L.closes l) L.given L.got self.old self.new }
        ensures started { Started (λ l. L.faults l + L.closes l) L.given L.got pass call self.old self.new result }
        ensures up { OnOk result (self.new.broken ≡ false) }
    {
        let place = self.steps;
        let number = self.begin(rt, alloc, pass, call)?;
        let answer = self.take_answer(number, place);
        Ok((number, place, answer))
    }

    /// One more turn of a call that waits: whether the link gave something, and the answer where it is there. The link is
    /// read once, unless another lane found the answer.
    pub fn wait_call<R: Wait + Clock>(
        &mut self,
        rt: &R,
        alloc: Global,
        pass: u64,
        number: u64,
        place: u64,
    ) -> Result<(bool, Option<(Answer, Option<OpNo>)>), NodeFault>
        ensures keeps { Keeps (λ l. L.faults l + L.closes l) L.given L.got self.old self.new }
        ensures works { Works pass self.old self.new result }
        ensures up { OnOk result (self.new.broken ≡ false) }
        ensures answered { Waited (λ l. L.faults l + L.closes l) L.given L.got number place self.old self.new result }
    {
        self.check()?;
        if let Some(reply) = self.take_answer(number, place) {
            return Ok((false, Some(reply)));
        }
        self.read_and_take(rt, alloc, pass, number, place)
    }

    // Reads the link once, or sends again, and takes the answer if it's there then.
    fn read_and_take<R: Wait + Clock>(
        &mut self,
        rt: &R,
        alloc: Global,
        pass: u64,
        number: u64,
        place: u64,
    ) -> Result<(bool, Option<(Answer, Option<OpNo>)>), NodeFault>
        ensures keeps { Keeps (λ l. L.faults l + L.closes l) L.given L.got self.old self.new }
        ensures works { Works pass self.old self.new result }
        ensures up { OnOk result (self.new.broken ≡ false) }
        ensures answered { Waited (λ l. L.faults l + L.closes l) L.given L.got number place self.old self.new result }
    {
        let heard = self.read_or_resend(rt, alloc, pass)?;
        let answer = self.take_answer(number, place);
        Ok((heard, answer))
    }

    /// Reads the link once and asks for a batch. Whether the link gave something, and the answer. Faults are those of `read`.
    pub fn read_and_flush<R: Wait + Clock>(
        &mut self,
        rt: &R,
        alloc: Global,
        pass: u64,
        asked: Asked,
    ) -> Result<(bool, Flushed), NodeFault>
        ensures keeps { Keeps (λ l. L.faults l + L.closes l) L.given L.got self.old self.new }
        ensures flushes { ReadsFlushes (λ l. L.faults l + L.closes l) L.given L.got pass asked self.old self.new result }
        ensures up { OnOk result (self.new.broken ≡ false) }
    {
        let heard = self.read(rt, alloc, pass)?;
        let flushed = self.flush(rt, alloc, pass, asked)?;
        Ok((heard, flushed))
    }

    /// The lists that were told lost. The fault is want of memory: for them, or an earlier one.
    pub fn losses(&self, alloc: Global) -> Result<Vec<List<OpNo>>, NodeFault>
        ensures ok { IfOk result (λ lists. (first : State L) → Since (λ l. L.faults l + L.closes l) L.given L.got first self.now → lists.items ≡ told_by self.now.trace.items) }
        ensures err { IfErr result (λ f. f ≡ fault.NoMemory) }
    {
        if self.broken {
            return Err(NodeFault::NoMemory);
        }
        Ok(copies(alloc, &self.told)?)
    }
}
