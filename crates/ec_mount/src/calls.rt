// The calls of a mount: lanes, beside which a worker flushes, and then a sync.
ghost use Rattle.std.specs.Prelude.{◌≡◌, ◌<◌, ℕ, [], ◌∷◌, vec_len, slice_index_or, Err, IfOk, IfErr, IfSome};
ghost use Rattle.std.specs.List.{All};
ghost use Rattle.std.specs.Thread.{IsSync};
ghost use Rattle.ec_clerknode.specs.declared.fault.NodeFault.TheVariants as fault;
ghost use Rattle.ec_mount.specs.declared.calls.Met.TheVariants as met;
ghost use Rattle.ec_lock.specs.PassViews.{front, IsPassOf};
ghost use Rattle.ec_clerknode.specs.LaneRuns.{LanesCame, lists_of};
ghost use Rattle.ec_clerknode.specs.Turns.{calls_by};
ghost use Rattle.ec_mount.specs.Calls.{Judges, Flushed as HasFlushed, SideRan, Drew, RanBeside, Ended, Called};

use crate::telling::Who;
use crate::waiting::{Progress, Waiting};
use ec_base::{Counter, List};
use ec_clerknode::{AllReplied, Node, NodeFault, Reply, SharedClerk, run_lane_calls};
use ec_link::Link;
use ec_lock::Pass;
use ec_log::Asked;
use ec_plain::Call;
use ec_protocol::Flushed;
use std::alloc::{AllocError, Global};
use std::io::Eprint;
use std::sync::Wait;
use std::thread;
use std::thread::Threads;
use std::time::Clock;

/// What the lanes were answered, and the last sync, or else the fault that the mount met.
#[derive(Drop)]
pub struct Replies {
    pub lanes: Vec<Vec<Reply>>,
    pub last: Result<Reply, NodeFault>,
}

// Runs the lanes, and tells the worker that they have ended.
fn run_lanes<L: Link + Send, R: Threads + Wait + Clock + Sync>(
    rt: &R,
    clerk: &SharedClerk<L>,
    pass: Pass<Node<L>>,
    lanes: Vec<List<Call>>,
    progress: &Progress<'_>,
) -> (Pass<Node<L>>, AllReplied)
    requires { IsPassOf clerk.now.lock pass }
    ensures { LanesCame clerk.now.lock (front pass) pass lanes.items result.0 (lists_of result.1.lanes) result.1.end }
{
    let mut own = pass;
    let all = run_lane_calls(rt, clerk, &mut own, progress, lanes);
    progress.end();
    clerk.bell().ring(rt);
    (own, all)
}

// Asks for batches of all that is undurable, until the lanes have ended or up to its first fault. It waits where there is
// nothing to send, and says so where the lanes wait long.
fn flush_all<L: Link, R: Wait + Clock + Eprint>(
    rt: &R,
    clerk: &SharedClerk<L>,
    pass: Pass<Node<L>>,
    progress: &Progress<'_>,
) -> (Pass<Node<L>>, Option<NodeFault>)
    requires { IsPassOf clerk.now.lock pass }
    ensures { HasFlushed clerk.now.lock pass result.0 result.1 }
{
    let mut own = pass;
    let mut waiting = Waiting::new();
    for _ in rt.forever() {
        let seen = clerk.bell().rings(rt);
        if progress.is_ended() {
            return (own, None);
        }
        match clerk.flush_turn(rt, &mut own, Asked::All) {
            Ok(Flushed::Sent(_)) => {}
            Ok(_) => {
                waiting.look(rt, progress);
                clerk.bell().watch(rt, seen);
            }
            Err(fault) => return (own, Some(fault)),
        }
    }
    unreachable!()
}

// How the lanes ended. A counter that the worker found spent is a fault of the mount, and where the worker read what is no
// message, that's why the link has ended; what else the worker met is met by the calls that it concerns. The passes of a
// mount can't use up all numbers.
fn judged(end: Result<(), NodeFault>, flushed: Option<NodeFault>) -> Result<(), NodeFault>
    ensures { Judges end flushed result }
{
    match end {
        Ok(()) => match flushed {
            Some(NodeFault::Spent(counter)) => Err(NodeFault::Spent(counter)),
            _ => Ok(()),
        },
        Err(NodeFault::Spent(Counter::Pass)) => Err(NodeFault::NoMemory),
        Err(NodeFault::Net) => match flushed {
            Some(NodeFault::Peer(why)) => Err(NodeFault::Peer(why)),
            Some(NodeFault::Long(length)) => Err(NodeFault::Long(length)),
            _ => Err(NodeFault::Net),
        },
        Err(fault) => Err(fault),
    }
}

// One of the two that run at the same time: the lanes, or the worker beside them, which has none.
#[derive(Drop)]
struct Side<L: Link> {
    pass: Pass<Node<L>>,
    lanes: Option<Vec<List<Call>>>,
}

// What a side met.
#[derive(Drop)]
enum Met {
    Lanes(AllReplied),
    Worker(Option<NodeFault>),
}

fn run_side<L: Link + Send, R: Threads + Wait + Clock + Eprint + Sync>(
    rt: &R,
    clerk: &SharedClerk<L>,
    side: Side<L>,
    progress: &Progress<'_>,
) -> (Pass<Node<L>>, Met)
    requires { IsPassOf clerk.now.lock side.pass }
    ensures { SideRan clerk.now.lock side.pass side.lanes result.0 result.1 }
{
    let Side { pass, lanes } = side;
    match lanes {
        Some(lanes) => {
            let (back, all) = run_lanes(rt, clerk, pass, lanes, progress);
            (back, Met::Lanes(all))
        }
        None => {
            let (back, met) = flush_all(rt, clerk, pass, progress);
            (back, Met::Worker(met))
        }
    }
}

fn run_sides<L: Link + Send, R: Threads + Wait + Clock + Eprint + Sync>(
    rt: &R,
    clerk: &SharedClerk<L>,
    sides: Vec<Side<L>>,
    progress: &Progress<'_>,
) -> Result<Vec<(Pass<Node<L>>, Met)>, AllocError>
    requires { All (λ side. IsPassOf clerk.now.lock side.pass) sides.items }
    ensures len { IfOk result (λ ran. vec_len ran ≡ vec_len sides) }
    ensures each { IfOk result (λ ran. (i : ℕ) (d : _) (e : _) → i < vec_len sides
        → SideRan clerk.now.lock (slice_index_or sides.items i e).pass (slice_index_or sides.items i e).lanes (slice_index_or ran.items i d).0 (slice_index_or ran.items i d).1) }
{
    let one = |side: Side<L>| -> (Pass<Node<L>>, Met)
        requires { IsSync R.row × IsPassOf clerk.now.lock side.pass }
        ensures { SideRan clerk.entry.now.lock side.pass side.lanes result.0 result.1 }
    { run_side(rt, clerk, side, progress) };
    thread::map_vec(rt, sides, &one)
}

// The passes of the lanes' side and of the worker, and what they met.
#[derive(Drop)]
struct Both<L: Link> {
    lanes: Pass<Node<L>>,
    all: AllReplied,
    worker: Pass<Node<L>>,
    met: Option<NodeFault>,
}

// Both sides as they came back, the worker last.
fn sides_of<L: Link>(ran: Vec<(Pass<Node<L>>, Met)>) -> Option<Both<L>>
    ensures { IfSome result (λ b. ran.items ≡ (b.lanes, met.Lanes b.all) ∷ (b.worker, met.Worker b.met) ∷ []) }
{
    let mut ran = ran;
    let (worker, second) = ran.pop()?;
    let (lanes, first) = ran.pop()?;
    if !ran.is_empty() {
        return None;
    }
    let Met::Worker(met) = second else {
        return None;
    };
    let Met::Lanes(all) = first else {
        return None;
    };
    Some(Both {
        lanes,
        all,
        worker,
        met,
    })
}

// Runs the lanes at the same time, and beside them a worker that flushes.
fn run_both<L: Link + Send, R: Threads + Wait + Clock + Eprint + Sync>(
    rt: &R,
    alloc: Global,
    who: &Who<'_>,
    clerk: &SharedClerk<L>,
    passes: (Pass<Node<L>>, Pass<Node<L>>),
    lanes: Vec<List<Call>>,
) -> Result<Both<L>, NodeFault>
    requires one { IsPassOf clerk.now.lock passes.0 }
    requires two { IsPassOf clerk.now.lock passes.1 }
    ensures lanes { IfOk result (λ b. LanesCame clerk.now.lock (front passes.0) passes.0 lanes.items b.lanes (lists_of b.all.lanes) b.all.end) }
    ensures worker { IfOk result (λ b. HasFlushed clerk.now.lock passes.1 b.worker b.met) }
    ensures err { IfErr result (λ f. f ≡ fault.NoMemory) }
{
    let (one, two) = passes;
    let progress = Progress::new(who);
    let mut sides = Vec::with_capacity(alloc, 2)?;
    sides.push(Side {
        pass: one,
        lanes: Some(lanes),
    })?;
    sides.push(Side {
        pass: two,
        lanes: None,
    })?;
    let ran = run_sides(rt, clerk, sides, &progress)?;
    let Some(both) = sides_of(ran) else {
        return Err(NodeFault::NoMemory);
    };
    Ok(both)
}

// Draws a pass for the lanes and one for the worker. All numbers can't be drawn.
fn draw_two<L: Link, R: Wait>(
    rt: &R,
    clerk: &SharedClerk<L>,
    pass: &mut Pass<Node<L>>,
) -> Result<(Pass<Node<L>>, Pass<Node<L>>), NodeFault>
    requires { IsPassOf clerk.now.lock pass.old }
    ensures drew { Drew clerk.now.lock pass.old pass.new }
    ensures ok { IfOk result (λ drawn. IsPassOf clerk.now.lock drawn.0 × IsPassOf clerk.now.lock drawn.1) }
    ensures err { IfErr result (λ f. f ≡ fault.NoMemory) }
{
    let Some(one) = clerk.split(rt, pass) else {
        return Err(NodeFault::NoMemory);
    };
    let Some(two) = clerk.split(rt, pass) else {
        return Err(NodeFault::NoMemory);
    };
    Ok((one, two))
}

// Nothing was answered, since memory is wanting.
fn none(alloc: Global) -> AllReplied
    ensures { result.end ≡ Err fault.NoMemory }
{
    AllReplied {
        lanes: Vec::new(alloc),
        end: Err(NodeFault::NoMemory),
    }
}

// Runs the lanes beside the worker, by passes that come back to this one.
fn run_beside<L: Link + Send, R: Threads + Wait + Clock + Eprint + Sync>(
    rt: &R,
    alloc: Global,
    who: &Who<'_>,
    clerk: &SharedClerk<L>,
    pass: &mut Pass<Node<L>>,
    lanes: Vec<List<Call>>,
) -> AllReplied
    requires { IsPassOf clerk.now.lock pass.old }
    ensures { RanBeside clerk.now.lock pass.old lanes.items pass.new (lists_of result.lanes) result.end }
{
    let Ok(passes) = draw_two(rt, clerk, pass) else {
        return none(alloc);
    };
    let Ok(both) = run_both(rt, alloc, who, clerk, passes, lanes) else {
        return none(alloc);
    };
    clerk.join(pass, both.lanes);
    clerk.join(pass, both.worker);
    AllReplied {
        lanes: both.all.lanes,
        end: judged(both.all.end, both.met),
    }
}

// The last sync, and goodbye.
fn end<L: Link, R: Wait + Clock>(
    rt: &R,
    clerk: &SharedClerk<L>,
    pass: &mut Pass<Node<L>>,
) -> Result<Reply, NodeFault>
    requires { IsPassOf clerk.now.lock pass.old }
    ensures { Ended clerk.now.lock pass.old pass.new result }
{
    let last = clerk.call_op(rt, pass, Call::Sync)?;
    match clerk.bye(rt, pass) {
        Ok(()) => Ok(last),
        Err(fault) => {
            drop(last);
            Err(fault)
        }
    }
}

/// Makes all calls up to the first fault, by a pass that has begun none.
pub fn make_calls<L: Link + Send, R: Threads + Wait + Clock + Eprint + Sync>(
    rt: &R,
    alloc: Global,
    who: &Who<'_>,
    clerk: &SharedClerk<L>,
    pass: &mut Pass<Node<L>>,
    lanes: Vec<List<Call>>,
) -> Replies
    requires pass { IsPassOf clerk.now.lock pass.old }
    requires none { calls_by pass.old.number (front pass.old) ≡ [] }
    ensures { Called clerk.now.lock pass.old lanes.items pass.new (lists_of result.lanes) result.last }
{
    let AllReplied { lanes, end: met } = run_beside(rt, alloc, who, clerk, pass, lanes);
    let last = match met {
        Ok(()) => end(rt, clerk, pass),
        Err(fault) => Err(fault),
    };
    Replies { lanes, last }
}
