// The running clerks: each takes its steps where it stands.
ghost use Rattle.std.specs.Prelude.{◌≡◌, true, IfOk, IfErr, MatchOption};
ghost use Rattle.ec_base.specs.Tables.{at};
ghost use Rattle.ec_wire.specs.Messages.{is_sound};
ghost use Rattle.ec_protocol.specs.Clerk as machine;
ghost use Rattle.ec_clerk.specs.OfRunning.Running.{BeginsCall, Joins, JoinsNot, StartsRunning, StartsNot, StaysAbsent, Steps, StaysAt, TakesOut, has_issued_in, session_in};

use crate::Clerk;
use crate::running::fault::StepFault;
use ec_base::{ClerkId, OpNo, SessionNo, SortedMap};
use ec_plain::Call;
use ec_protocol::Out;
use ec_wire::Msg;
use std::alloc::Global;

/// Whether the clerk runs, and its start issued the operation.
pub fn has_issued(clerks: &SortedMap<ClerkId, Clerk>, id: ClerkId, op: OpNo) -> bool
    ensures { result ≡ has_issued_in op (at id clerks.now) }
{
    match clerks.get(&id) {
        Some(clerk) => clerk.has_issued(op),
        None => false,
    }
}

/// The session of the clerk, where it runs and has one.
pub fn session(clerks: &SortedMap<ClerkId, Clerk>, id: ClerkId) -> Option<SessionNo>
    ensures { result ≡ session_in (at id clerks.now) }
{
    match clerks.get(&id) {
        Some(clerk) => clerk.session(),
        None => None,
    }
}

// Takes the clerk out, where it runs.
fn take_out(clerks: &mut SortedMap<ClerkId, Clerk>, id: ClerkId) -> Option<Clerk>
    ensures { MatchOption result (StaysAbsent id clerks.old clerks.new) (λ clerk. TakesOut id clerks.old clerks.new clerk) }
{
    if !clerks.contains(&id) {
        return None;
    }
    let _rising = clerks.items();
    clerks.remove(&id)
}

/// What a call's begin came to.
#[derive(Drop)]
pub enum Begun {
    /// The call's number, and what comes out.
    Took(u64, Vec<Out>),
    /// The clerk isn't running: the call is given back.
    IsAbsent(Call),
}

/// Begins a call, where the clerk runs.
pub fn begin(
    clerks: &mut SortedMap<ClerkId, Clerk>,
    id: ClerkId,
    call: Call,
) -> Result<Begun, StepFault>
    ensures ok { IfOk result (λ begun. BeginsCall call id clerks.old clerks.new begun) }
    ensures err { IfErr result (λ fault. StaysAt fault (machine.begin call) id clerks.old clerks.new) }
{
    let Some(mut clerk) = take_out(clerks, id) else {
        return Ok(Begun::IsAbsent(call));
    };
    let begun = clerk.begin(call);
    clerks.insert(id, clerk)?;
    let (no, outs) = begun?;
    Ok(Begun::Took(no, outs))
}

/// Starts a clerk, which begins a call: the call's number, what came out of the start, and what came out of the call.
pub fn start(
    alloc: Global,
    clerks: &mut SortedMap<ClerkId, Clerk>,
    id: ClerkId,
    boot: u64,
    call: Call,
) -> Result<(u64, Vec<Out>, Vec<Out>), StepFault>
    ensures ok { IfOk result (λ made. StartsRunning call id boot clerks.old clerks.new made.0 made.1.items made.2.items) }
    ensures err { IfErr result (λ fault. StartsNot fault call id boot clerks.old clerks.new) }
{
    match Clerk::start(alloc, id, boot) {
        Ok((clerk, before)) => {
            let (no, outs) = join(clerks, id, clerk, call)?;
            Ok((no, before, outs))
        }
        Err(fault) => {
            drop(call);
            Err(StepFault::from(fault))
        }
    }
}

// A clerk that begins a call goes among the running ones.
fn join(
    clerks: &mut SortedMap<ClerkId, Clerk>,
    id: ClerkId,
    mut clerk: Clerk,
    call: Call,
) -> Result<(u64, Vec<Out>), StepFault>
    ensures ok { IfOk result (λ begun. Joins call id clerk clerks.old clerks.new begun.0 begun.1.items) }
    ensures err { IfErr result (λ fault. JoinsNot fault call clerk clerks.old clerks.new) }
{
    let begun = clerk.begin(call)?;
    clerks.insert(id, clerk)?;
    Ok(begun)
}

/// What comes out, where the clerk runs and issued the operation.
pub fn push(
    clerks: &mut SortedMap<ClerkId, Clerk>,
    id: ClerkId,
    op: OpNo,
) -> Result<Option<Vec<Out>>, StepFault>
    requires { has_issued_in op (at id clerks.old) ≡ true }
    ensures ok { IfOk result (λ made. MatchOption made (StaysAbsent id clerks.old clerks.new) (λ outs. Steps (machine.push op) id clerks.old clerks.new outs.items)) }
    ensures err { IfErr result (λ fault. StaysAt fault (machine.push op) id clerks.old clerks.new) }
{
    let Some(mut clerk) = take_out(clerks, id) else {
        return Ok(None);
    };
    let done = clerk.push(op);
    clerks.insert(id, clerk)?;
    Ok(Some(done?))
}

/// What comes out, where the clerk runs.
pub fn take(
    clerks: &mut SortedMap<ClerkId, Clerk>,
    id: ClerkId,
    msg: Msg,
) -> Result<Option<Vec<Out>>, StepFault>
    requires { is_sound msg ≡ true }
    ensures ok { IfOk result (λ made. MatchOption made (StaysAbsent id clerks.old clerks.new) (λ outs. Steps (machine.take msg) id clerks.old clerks.new outs.items)) }
    ensures err { IfErr result (λ fault. StaysAt fault (machine.take msg) id clerks.old clerks.new) }
{
    let Some(mut clerk) = take_out(clerks, id) else {
        return Ok(None);
    };
    let done = clerk.take(msg);
    clerks.insert(id, clerk)?;
    Ok(Some(done?))
}

/// What comes out, where the clerk runs.
pub fn resend(
    clerks: &mut SortedMap<ClerkId, Clerk>,
    id: ClerkId,
) -> Result<Option<Vec<Out>>, StepFault>
    ensures ok { IfOk result (λ made. MatchOption made (StaysAbsent id clerks.old clerks.new) (λ outs. Steps machine.resend id clerks.old clerks.new outs.items)) }
    ensures err { IfErr result (λ fault. StaysAt fault machine.resend id clerks.old clerks.new) }
{
    let Some(mut clerk) = take_out(clerks, id) else {
        return Ok(None);
    };
    let done = clerk.resend();
    clerks.insert(id, clerk)?;
    Ok(Some(done?))
}
