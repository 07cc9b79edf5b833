// How long a clerk leaves to others what a call of its own lost.
ghost use Rattle.std.specs.Prelude.{◌≡◌, ◌-◌, ◌<◌, ◌≤◌, ◌^◌, true, false, length, IfSome, IfNone};
ghost use Rattle.ec_outs.specs.Patience as patience;
ghost use Rattle.ec_outs.specs.Outs.{answers, sends};

use ec_base::{ObjId, SessionNo};
use ec_protocol::Out;
use ec_wire::Msg;
use rand_core::utils::NextWord;
use rand_pcg::Pcg32;
use std::time::{Clock, SystemTime, UNIX_EPOCH};

// A rest is shorter than two to the power of this many milliseconds.
const MOST_LOSSES: u32 = 12;

/// How often a token went back and was wanted again in one step, less the answers since. Two clerks whose calls each need what the other holds
/// would take it from each other for ever, if each wanted it again at once. So a want behind such a loss rests, and the more losses, the
/// longer the span that its rest is drawn from.
#[derive(Drop)]
pub struct Patience {
    losses: u32,
    // What draws, from the first loss on.
    numbers: Option<Pcg32>,
}

impl Patience {
    pub fn new() -> Patience
        ensures { result.losses ≡ 0 }
    {
        Patience {
            losses: 0,
            numbers: None,
        }
    }

    /// So many milliseconds those wants of this step rest that want again what it gave back.
    pub fn rest<R: Clock>(&mut self, rt: &R, outs: &[Out]) -> u64
        ensures losses { self.new.losses ≡ patience.losses_after self.old.losses outs.now }
        ensures none { patience.is_loss outs.now ≡ false → result ≡ 0 }
        ensures within { patience.is_loss outs.now ≡ true → result < 2 ^ self.new.losses }
    {
        self.losses = less_answers(self.losses, outs);
        let Some(session) = loss_in(outs) else {
            return 0;
        };
        self.losses = self.losses.saturating_add(1).min(MOST_LOSSES);
        u64::from(self.draw(rt, session) % span(self.losses))
    }

    // The sessions' numbers tell clerks apart that begin at the same nanosecond.
    fn draw<R: Clock>(&mut self, rt: &R, session: SessionNo) -> u32
        ensures { self.new.losses ≡ self.old.losses }
    {
        let mut numbers = match self.numbers.take() {
            Some(numbers) => numbers,
            None => Pcg32::new(nanos(rt), session.0),
        };
        let word = numbers.next_word();
        self.numbers = Some(numbers);
        word
    }
}

// Two to the power of the losses.
fn span(losses: u32) -> u32
    requires { losses ≤ patience.most_losses }
    ensures { result ≡ 2 ^ losses }
{
    1 << losses
}

// The clock's nanoseconds, and 0 where it tells nothing.
fn nanos<R: Clock>(rt: &R) -> u64 {
    match SystemTime::now(rt) {
        Ok(time) => match time.duration_since(UNIX_EPOCH) {
            Ok(since) => u64::try_from(since.as_nanos()).unwrap_or(u64::MAX),
            Err(_) => 0,
        },
        Err(_) => 0,
    }
}

// One less for each answer.
fn less_answers(losses: u32, outs: &[Out]) -> u32
    ensures { result ≡ losses - length (answers outs.now) }
{
    let mut left = losses;
    for out in outs {
        if let Out::Answer(..) = out {
            left = left.saturating_sub(1);
        }
    }
    left
}

// The session of a want of what the same step gave back.
fn loss_in(outs: &[Out]) -> Option<SessionNo>
    ensures some { IfSome result (λ _. patience.is_loss outs.now ≡ true) }
    ensures none { IfNone result (patience.is_loss outs.now ≡ false) }
{
    for out in outs {
        if let Out::Send(Msg::Want(session, _, obj, _, _)) = out {
            if gives_back(outs, *obj) {
                return Some(*session);
            }
        }
    }
    None
}

/// Whether this is a want of an object that the same step gave back.
pub fn is_again(msg: &Msg, outs: &[Out]) -> bool
    ensures { result ≡ patience.is_again (sends outs.now) msg.now }
{
    match msg {
        Msg::Want(_, _, obj, _, _) => gives_back(outs, *obj),
        _ => false,
    }
}

fn gives_back(outs: &[Out], obj: ObjId) -> bool
    ensures { result ≡ patience.gives_back obj (sends outs.now) }
{
    for out in outs {
        if let Out::Send(Msg::Back(_, _, other, _, _)) = out {
            if *other == obj {
                return true;
            }
        }
    }
    false
}
