// Calls that some of the volumes make, while the others take turns.
ghost use Rattle.std.specs.Prelude.{◌≡◌, ◌<◌, ℕ, Some, length, slice_get, slice_index_or};
ghost use Rattle.std.specs.Thread.{IsSync};
ghost use Rattle.ec_lock.specs.PassViews.{IsPassOf};
ghost use Rattle.ec_mounts.specs.Parts.{Answered, asked_at, IsSeatedAt, MadeOne, PartRan, TookTurns};

use crate::beside::{Beside, take_turns};
use ec_clerknode::{Node, NodeFault, Reply, SharedClerk};
use ec_link::Link;
use ec_lock::Pass;
use ec_plain::Call;
use std::sync::Wait;
use std::thread;
use std::thread::Threads;
use std::time::Clock;

/// A volume's pass, what it's to call, and what the call met.
#[derive(Drop)]
pub struct Part<L: Link> {
    pub pass: Pass<Node<L>>,
    pub asked: Option<Call>,
    pub met: Option<Result<Reply, NodeFault>>,
}

/// The clerk of the volume at this place.
pub fn clerk_at<L: Link>(clerks: &[SharedClerk<L>], at: usize) -> &SharedClerk<L>
    requires { at < length clerks.now }
    ensures { slice_get clerks.now at ≡ Some result.now }
{
    &clerks[at]
}

// Who waits at any volume looks again.
fn ring_all<L: Link, R: Wait>(rt: &R, clerks: &[SharedClerk<L>]) {
    for clerk in clerks {
        clerk.bell().ring(rt);
    }
}

// What the volumes share while some of them make a call: their clerks, which of them is to make it, where it's one, and what they
// tell each other.
#[derive(Drop)]
struct Round<'a, L: Link> {
    clerks: &'a [SharedClerk<L>],
    only: Option<usize>,
    beside: Beside,
}

// Makes the call, and tells the others when it has ended.
fn make_call<L: Link, R: Wait + Clock>(
    rt: &R,
    round: &Round<'_, L>,
    clerk: &SharedClerk<L>,
    pass: &mut Pass<Node<L>>,
    call: Call,
) -> Result<Reply, NodeFault>
    requires { IsPassOf clerk.now.lock pass.old }
    ensures { MadeOne clerk.now.lock call pass.old pass.new result }
{
    round.beside.begin();
    let met = clerk.call_op(rt, pass, call);
    round.beside.end();
    ring_all(rt, round.clerks);
    met
}

// Takes turns until all calls have ended, where all were begun.
fn stay<L: Link, R: Wait + Clock>(
    rt: &R,
    clerk: &SharedClerk<L>,
    pass: &mut Pass<Node<L>>,
    beside: &Beside,
)
    requires { IsPassOf clerk.now.lock pass.old }
    ensures { TookTurns clerk.now.lock pass.old pass.new }
{
    if beside.are_begun(rt) {
        take_turns(rt, clerk, pass, beside);
    }
}

// Makes the call that is asked of a volume, if one is, and takes turns until all calls have ended.
fn run_volume<L: Link, R: Wait + Clock>(
    rt: &R,
    round: &Round<'_, L>,
    clerk: &SharedClerk<L>,
    pass: &mut Pass<Node<L>>,
    asked: Option<Call>,
) -> Option<Result<Reply, NodeFault>>
    requires { IsPassOf clerk.now.lock pass.old }
    ensures pass { IsPassOf clerk.now.lock pass.new }
    ensures answered { Answered asked pass.old pass.new result }
{
    let Some(call) = asked else {
        stay(rt, clerk, pass, &round.beside);
        return None;
    };
    let met = make_call(rt, round, clerk, pass, call);
    stay(rt, clerk, pass, &round.beside);
    Some(met)
}

// What a volume is to call: where one volume is named, what is asked there, and else each is to sync.
fn asked_at(only: Option<usize>, at: usize, asked: &mut Option<Call>) -> Option<Call>
    ensures { result ≡ asked_at only at asked.old }
{
    match only {
        Some(place) if place == at => asked.take(),
        Some(_) => None,
        None => Some(Call::Sync),
    }
}

fn run_part<L: Link, R: Wait + Clock>(rt: &R, round: &Round<'_, L>, at: usize, part: &mut Part<L>)
    requires { IsSeatedAt (λ c. c.lock) round.now.clerks.now at part.old.pass }
    ensures { PartRan (λ c. c.lock) round.now.clerks.now at part.old.pass (asked_at round.now.only at part.old.asked) part.new.pass part.new.met }
{
    let clerk = clerk_at(round.clerks, at);
    let asked = asked_at(round.only, at, &mut part.asked);
    part.met = run_volume(rt, round, clerk, &mut part.pass, asked);
}

// Each part runs in a thread of its own, or one after another where none can be started.
fn run_round<L: Link + Send, R: Threads + Wait + Clock + Sync>(
    rt: &R,
    round: &Round<'_, L>,
    parts: &mut [Part<L>],
)
    requires { (i : ℕ) (d : _) → i < length parts.old → IsSeatedAt (λ c. c.lock) round.now.clerks.now i (slice_index_or parts.old i d).pass }
    ensures { (i : ℕ) (d : _) → i < length parts.old → PartRan (λ c. c.lock) round.now.clerks.now i (slice_index_or parts.old i d).pass (asked_at round.now.only i (slice_index_or parts.old i d).asked)
        (slice_index_or parts.new i d).pass (slice_index_or parts.new i d).met }
{
    let one = |at: usize, part: &mut Part<L>|
        requires { IsSync R.row × IsSeatedAt (λ c. c.lock) round.now.clerks.now at part.now.pass }
        ensures { PartRan (λ c. c.lock) round.entry.now.clerks.now at part.entry.now.pass (asked_at round.entry.now.only at part.entry.now.asked) part.exit.now.pass part.exit.now.met }
    { run_part(rt, round, at, part) };
    let threads = parts.len().max(1);
    thread::for_each_mut(rt, parts, threads, &one);
}

// So many calls are made at the same time.
fn calls_of(only: Option<usize>, volumes: usize) -> u64 {
    match only {
        Some(_) => 1,
        None => volumes as u64,
    }
}

/// Makes the call that is asked of one volume, while the others take turns, or syncs all at the same time.
pub fn run_parts<L: Link + Send, R: Threads + Wait + Clock + Sync>(
    rt: &R,
    clerks: &[SharedClerk<L>],
    parts: &mut [Part<L>],
    only: Option<usize>,
)
    requires { (i : ℕ) (d : _) → i < length parts.old → IsSeatedAt (λ c. c.lock) clerks.now i (slice_index_or parts.old i d).pass }
    ensures { (i : ℕ) (d : _) → i < length parts.old → PartRan (λ c. c.lock) clerks.now i (slice_index_or parts.old i d).pass (asked_at only i (slice_index_or parts.old i d).asked)
        (slice_index_or parts.new i d).pass (slice_index_or parts.new i d).met }
{
    let round = Round {
        clerks,
        only,
        beside: Beside::new(calls_of(only, parts.len())),
    };
    run_round(rt, &round, parts);
}
