// The steps of a clerk, by the calls that wait and the rest of it.
ghost use Rattle.std.specs.Prelude.{◌≡◌, ◌+◌, ◌<◌, true, List, IfOk, OnOk};
ghost use Rattle.ec_base.specs.Limits.{last_counter};
ghost use Rattle.ec_wire.specs.Messages.{is_sound};
ghost use Rattle.ec_protocol.specs.declared.clerk.Waiting.{Waiting as Waits};
ghost use Rattle.ec_protocol.specs.Clerk as clerk;
ghost use Rattle.ec_doing.specs.Seen.{clerk_with, doing_of, send_if_batch, serve, part, BeginsStep, Does, EndsWith, Yields};

use crate::deliveries::taken;
use crate::doing::Doing;
use crate::rounds::try_all;
use ec_base::{NoMemory, OpNo};
use ec_log::Pick;
use ec_plain::Call;
use ec_protocol::{Out, Waiting};
use ec_wire::Msg;
use std::mem;

impl Doing {
    // In a session recalls are answered, and pushes asked for.
    fn serve(&mut self) -> Result<(), NoMemory>
        ensures { OnOk result (Does serve self.old self.new) }
    {
        if self.has_session() {
            self.answer_recalls()?;
            self.ask_pushes()?;
        }
        Ok(())
    }

    fn part(&mut self) -> Result<(), NoMemory>
        ensures { OnOk result (Does part self.old self.new) }
    {
        if self.has_session() {
            let msg = Msg::Bye(self.session(), self.epoch);
            self.send(msg)?;
        }
        Ok(())
    }

    // Nothing came out yet.
    fn clear(&mut self)
        ensures { BeginsStep self.old self.new }
    {
        self.outs = Vec::new(self.alloc);
    }

    // What came out.
    fn outs(&mut self) -> Vec<Out>
        ensures { Yields result.items self.old self.new }
    {
        let alloc = self.alloc;
        mem::replace(&mut self.outs, Vec::new(alloc))
    }
}

// The end of each step: recalls, pushes, the waiting calls, the capacity.
fn settle(doing: &mut Doing, waiting: &mut Vec<Waiting>) -> Result<(), NoMemory>
    ensures { OnOk result (clerk.settle (doing_of waiting.old.items doing.old) ≡ doing_of waiting.new.items doing.new) }
{
    doing.serve()?;
    try_all(doing, waiting)?;
    doing.evict()
}

fn add_call(
    doing: &mut Doing,
    waiting: &mut Vec<Waiting>,
    no: u64,
    call: Call,
) -> Result<(), NoMemory>
    requires { no ≡ doing.old.calls + 1 }
    ensures { OnOk result (clerk.with_clerk (clerk.add_call call) (doing_of waiting.old.items doing.old) ≡ doing_of waiting.new.items doing.new) }
{
    let begun = doing.ledger.log.next().saturating_sub(1);
    waiting.push(Waiting { no, call, begun })?;
    doing.calls = no;
    Ok(())
}

/// Begins a call by the next number.
pub fn begin(
    doing: &mut Doing,
    waiting: &mut Vec<Waiting>,
    no: u64,
    call: Call,
) -> Result<Vec<Out>, NoMemory>
    requires next { no ≡ doing.old.calls + 1 }
    requires below { doing.old.calls < last_counter }
    ensures { IfOk result (λ outs. EndsWith (clerk.begin call (clerk_with waiting.old.items doing.old)) (clerk_with waiting.new.items doing.new) outs.items) }
{
    doing.clear();
    add_call(doing, waiting, no, call)?;
    settle(doing, waiting)?;
    Ok(doing.outs())
}

/// Asks for the closure of an operation of this session.
pub fn push(doing: &mut Doing, waiting: &mut Vec<Waiting>, op: OpNo) -> Result<Vec<Out>, NoMemory>
    ensures { IfOk result (λ outs. EndsWith (clerk.push op (clerk_with waiting.old.items doing.old)) (clerk_with waiting.new.items doing.new) outs.items) }
{
    doing.clear();
    doing.keep_if_own(op)?;
    settle(doing, waiting)?;
    Ok(doing.outs())
}

/// Takes a message.
pub fn take(doing: &mut Doing, waiting: &mut Vec<Waiting>, msg: Msg) -> Result<Vec<Out>, NoMemory>
    requires { is_sound msg ≡ true }
    ensures { IfOk result (λ outs. EndsWith (clerk.take msg (clerk_with waiting.old.items doing.old)) (clerk_with waiting.new.items doing.new) outs.items) }
{
    doing.clear();
    taken(doing, waiting, msg)?;
    settle(doing, waiting)?;
    Ok(doing.outs())
}

/// Sends again what is held and what is outstanding; without a session it greets.
pub fn resend(doing: &mut Doing, waiting: &[Waiting]) -> Result<Vec<Out>, NoMemory>
    ensures { IfOk result (λ outs. EndsWith (clerk.resend (clerk_with waiting.now doing.old)) (clerk_with waiting.now doing.new) outs.items) }
{
    doing.clear();
    doing.claim_all(waiting)?;
    Ok(doing.outs())
}

/// Says goodbye, in a session.
pub fn bye(doing: &mut Doing) -> Result<Vec<Out>, NoMemory>
    ensures { IfOk result (λ outs. (ws : List Waits) → EndsWith (clerk.bye (clerk_with ws doing.old)) (clerk_with ws doing.new) outs.items) }
{
    doing.clear();
    doing.part()?;
    Ok(doing.outs())
}

/// Sends what was picked.
pub fn send_pick(doing: &mut Doing, pick: &Pick) -> Result<Vec<Out>, NoMemory>
    ensures { IfOk result (λ outs. (ws : List Waits) → EndsWith (send_if_batch pick.now (clerk.doing (clerk_with ws doing.old))) (clerk_with ws doing.new) outs.items) }
{
    doing.clear();
    doing.send_picked(pick)?;
    Ok(doing.outs())
}
