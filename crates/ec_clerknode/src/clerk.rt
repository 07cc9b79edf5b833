// The clerk's calls, in words that stay folded above.
ghost use Rattle.std.specs.Prelude.{◌≡◌, ◌+◌, [], true, IfOk, IfErr, IfSome, IfNone, OnErr};
ghost use Rattle.ec_protocol.specs.declared.clerk.ClerkFault.TheVariants as fault;
ghost use Rattle.ec_wire.specs.Messages.{is_sound};
ghost use Rattle.ec_clerknode.specs.Folded.{begun, taken, picked, parted, resent, linked, floor_of};
ghost use Rattle.ec_clerknode.specs.FoldedAnswers.{answer_to, refused_by, ComesOut, RefusesStep};
ghost use Rattle.ec_clerknode.specs.Run.{says_bye};
ghost use Rattle.ec_outs.specs.Outs.{sends};

use ec_base::{Counter, NoMemory};
use ec_clerk::Clerk;
use ec_log::Asked;
use ec_plain::Call;
use ec_protocol::{ClerkFault, Flushed, Out};
use ec_wire::Msg;

/// Why the clerk took no step.
#[derive(Clone, Copy, Drop)]
pub enum Refused {
    Spent(Counter),
    NoMemory,
}

fn refusal(fault: ClerkFault) -> Refused
    ensures { result ≡ refused_by fault }
{
    match fault {
        ClerkFault::Spent(counter) => Refused::Spent(counter),
        ClerkFault::NoSuchOp | ClerkFault::NoMemory => Refused::NoMemory,
    }
}

/// Begins a call. It's refused where a counter would pass its limit, with the clerk as before, and for want of memory.
#[tactic(auto, unfolding(crate::specs::Folded::begun))]
pub fn begin(clerk: &mut Clerk, call: Call) -> Result<(u64, Vec<Out>), Refused>
    ensures number { IfOk result (λ r. r.0 ≡ clerk.old.calls + 1) }
    ensures ok { IfOk result (λ r. ComesOut (begun call clerk.old) clerk.new r.1.items) }
    ensures err { IfErr result (λ f. RefusesStep f (begun call clerk.old) clerk.old clerk.new) }
{
    match clerk.begin(call) {
        Ok(made) => Ok(made),
        Err(fault) => Err(refusal(fault)),
    }
}

/// Takes a message. It's refused as a call is.
#[tactic(auto, unfolding(crate::specs::Folded::taken))]
pub fn take(clerk: &mut Clerk, msg: Msg) -> Result<Vec<Out>, Refused>
    requires { is_sound msg ≡ true }
    ensures ok { IfOk result (λ outs. ComesOut (taken msg clerk.old) clerk.new outs.items) }
    ensures err { IfErr result (λ f. RefusesStep f (taken msg clerk.old) clerk.old clerk.new) }
{
    match clerk.take(msg) {
        Ok(outs) => Ok(outs),
        Err(fault) => Err(refusal(fault)),
    }
}

/// Asks for a batch. It's refused as a call is; an operation that there isn't counts as want of memory.
#[tactic(auto, unfolding(crate::specs::Folded::picked, crate::specs::FoldedAnswers::answer_to))]
pub fn flush(clerk: &mut Clerk, asked: Asked) -> Result<(Flushed, Vec<Out>), Refused>
    ensures answer { IfOk result (λ r. r.0 ≡ answer_to asked clerk.old) }
    ensures ok { IfOk result (λ r. ComesOut (picked asked clerk.old) clerk.new r.1.items) }
    ensures err { IfErr result (λ f. RefusesStep f (picked asked clerk.old) clerk.old clerk.new) }
{
    match clerk.flush(asked) {
        Ok(made) => Ok(made),
        Err(fault) => Err(refusal(fault)),
    }
}

/// Says goodbye. Without a session there is nobody to say it to. Each fault counts as want of memory.
#[tactic(auto, unfolding(crate::specs::Folded::parted))]
pub fn bye(clerk: &mut Clerk) -> Result<Option<Vec<Out>>, NoMemory>
    ensures ok { IfOk result (λ made. IfSome made (λ outs. ComesOut (parted clerk.old) clerk.new outs.items)) }
    ensures said { IfOk result (λ made. IfSome made (λ outs. says_bye (sends outs.items) ≡ true)) }
    ensures none { IfOk result (λ made. IfNone made ((clerk.new ≡ clerk.old) × ((parted clerk.old).outs ≡ []))) }
{
    let Ok(outs) = clerk.bye() else {
        return Err(NoMemory);
    };
    if outs.is_empty() {
        drop(outs);
        return Ok(None);
    }
    Ok(Some(outs))
}

/// Greets by a new link. The error is want of memory.
#[tactic(auto, unfolding(crate::specs::Folded::linked))]
pub fn greet(clerk: &Clerk) -> Result<Vec<Out>, NoMemory>
    ensures { IfOk result (λ outs. ComesOut (linked clerk.now) clerk.now outs.items) }
{
    clerk.greet()
}

/// Sends again what is held and what is outstanding. Each fault counts as want of memory.
#[tactic(auto, unfolding(crate::specs::Folded::resent))]
pub fn resend(clerk: &mut Clerk) -> Result<Vec<Out>, NoMemory>
    ensures { IfOk result (λ outs. ComesOut (resent clerk.old) clerk.new outs.items) }
{
    clerk.resend().ok().ok_or(NoMemory)
}

/// The clerk's floor.
#[tactic(auto, unfolding(crate::specs::Folded::floor_of))]
pub fn floor(clerk: &Clerk) -> u64
    ensures { result ≡ floor_of clerk.now }
{
    clerk.floor()
}
