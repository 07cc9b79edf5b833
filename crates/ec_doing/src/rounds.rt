// The waiting calls are tried in order; after an answer again from the first, but for those at the front of which a try comes to nothing still.
ghost use Rattle.std.specs.Prelude.{◌≡◌, [], true, length, take, option_map, slice_get, IfOk, IfSome, OnOk};
ghost use Rattle.ec_protocol.specs.Clerk as clerk;
ghost use Rattle.ec_doing.specs.Seen.{doing_of, tried, IsFirstAnswered};
ghost use Rattle.ec_doing.specs.Resting.{AllRest, is_plain, is_plain_at, tried_of};

use crate::doing::{Doing, Tried};
use ec_base::NoMemory;
use ec_history::Answer;
use ec_protocol::{Out, Waiting};

// The first call that is answered.
#[derive(Clone, Copy, Drop)]
struct Found {
    place: usize,
    /// A further try of those before it comes to nothing.
    rest: bool,
}

// Whether an answer without an operation came out.
fn is_plain(out: &Out) -> bool
    ensures { result ≡ is_plain out.now }
{
    matches!(out, Out::Answer(_, Answer::Reply(_), None))
}

// The same of what came out at this place.
fn is_plain_at(outs: &[Out], place: usize) -> bool
    ensures { result ≡ is_plain_at (slice_get outs.now place) }
{
    match outs.get(place) {
        Some(out) => is_plain(out),
        None => false,
    }
}

// So much came out.
fn count(doing: &Doing) -> usize
    ensures { result ≡ length doing.now.outs.items }
{
    let outs: &[Out] = &doing.outs;
    outs.len()
}

// The first call that is answered; those before it were tried, but for so many at the front, which rest.
fn first_answered(
    doing: &mut Doing,
    waiting: &[Waiting],
    front: usize,
) -> Result<Option<Found>, NoMemory>
    requires { AllRest (take front waiting.now) doing.old }
    ensures first { IfOk result (λ found. IsFirstAnswered waiting.now (option_map (λ f. f.place) found) doing.old doing.new) }
    ensures rest { IfOk result (λ found. IfSome found (λ f. f.rest ≡ true → AllRest (take f.place waiting.now) doing.new)) }
{
    let mut place = front;
    let mut rest = true;
    'calls: while place < waiting.len() {
        let sent = count(doing);
        match doing.try_call(&waiting[place])? {
            Tried::Answered => {
                let rest = rest && is_plain_at(&doing.outs, sent);
                return Ok(Some(Found { place, rest }));
            }
            Tried::Waits => {
                rest = rest && count(doing) == sent;
                place += 1;
            }
        }
    }
    Ok(None)
}

// The first call that is answered leaves; it tells how many at the front rest then. None where no call is answered.
fn try_each(
    doing: &mut Doing,
    waiting: &mut Vec<Waiting>,
    front: usize,
) -> Result<Option<usize>, NoMemory>
    requires { AllRest (take front waiting.old.items) doing.old }
    ensures each { IfOk result (λ made. clerk.try_each [] waiting.old.items (doing_of waiting.old.items doing.old) ≡ tried (tried_of made) (doing_of waiting.new.items doing.new)) }
    ensures rest { IfOk result (λ made. IfSome made (λ n. AllRest (take n waiting.new.items) doing.new)) }
{
    match first_answered(doing, waiting, front)? {
        Some(Found { place, rest }) => {
            drop(waiting.remove(place));
            Ok(Some(if rest { place } else { 0 }))
        }
        None => Ok(None),
    }
}

/// Tries the waiting calls until none of them is answered.
pub(crate) fn try_all(doing: &mut Doing, waiting: &mut Vec<Waiting>) -> Result<(), NoMemory>
    ensures { OnOk result (clerk.try_all (doing_of waiting.old.items doing.old) ≡ doing_of waiting.new.items doing.new) }
{
    // each round but the last one answers a call
    let mut rounds = waiting.len() + 1;
    let mut front = 0;
    'rounds: while rounds > 0 {
        match try_each(doing, waiting, front)? {
            None => return Ok(()),
            Some(rest) => {
                front = rest;
                rounds -= 1;
            }
        }
    }
    Ok(())
}
