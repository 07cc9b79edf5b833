// Lanes in threads of their own, each with a pass that is drawn for it.
ghost use Rattle.std.specs.Prelude.{◌≡◌, ℕ, ◌<◌, ◌⊎◌, List as Listed, [], length, map, slice_index_or, vec_len, Err, IfOk, IfErr};
ghost use Rattle.std.specs.List.{All};
ghost use Rattle.std.specs.Thread.{IsSync};
ghost use Rattle.ec_base.specs.declared.counter.Counter.TheVariants as counter;
ghost use Rattle.ec_plain.specs.declared.call.Call.{Call as Asking};
ghost use Rattle.ec_lock.specs.PassViews.{front, IsPassOf};
ghost use Rattle.ec_clerknode.specs.declared.fault.NodeFault.TheVariants as fault;
ghost use Rattle.ec_clerknode.specs.declared.step.Step.{Step as Deeds};
ghost use Rattle.ec_clerknode.specs.LaneRuns.{LaneRan, LanesCame, lists_of};
ghost use Rattle.ec_clerknode.specs.Jobs.{Drew, IsNewPass, AreBack, Puts};

use crate::fault::NodeFault;
use crate::lane::{Gate, Replied, Reply, run_lane};
use crate::shared::SharedClerk;
use crate::state::Node;
use ec_base::{Counter, List};
use ec_link::Link;
use ec_lock::Pass;
use ec_plain::Call;
use std::alloc::{AllocError, Global};
use std::sync::Wait;
use std::thread;
use std::thread::Threads;
use std::time::Clock;

/// What lanes were answered, lane by lane, and the fault of the first lane that met one.
#[derive(Drop)]
pub struct AllReplied {
    pub lanes: Vec<Vec<Reply>>,
    pub end: Result<(), NodeFault>,
}

// A lane, with the pass that makes its calls.
#[derive(Drop)]
struct Job<L: Link> {
    pass: Pass<Node<L>>,
    lane: u8,
    calls: Vec<Call>,
}

// Draws a pass for each lane. The first lane is 1.
fn draw_all<L: Link, R: Wait>(
    rt: &R,
    clerk: &SharedClerk<L>,
    pass: &mut Pass<Node<L>>,
    lanes: Vec<List<Call>>,
) -> Result<Vec<Job<L>>, NodeFault>
    requires { IsPassOf clerk.now.lock pass.old }
    ensures drew { Drew clerk.now.lock pass.old pass.new }
    ensures calls { IfOk result (λ jobs. map (λ job. job.calls.items) jobs.items ≡ lanes.items) }
    ensures passes { IfOk result (λ jobs. All (λ job. IsNewPass clerk.now.lock (front pass.old) job.pass) jobs.items) }
    ensures err { IfErr result (λ f. (f ≡ fault.NoMemory) ⊎ (f ≡ fault.Spent counter.Pass)) }
{
    let mut jobs = Vec::with_capacity(clerk.alloc, lanes.len())?;
    let mut lane = 1u8;
    'lanes: for calls in lanes {
        let Some(other) = clerk.split(rt, pass) else {
            return Err(NodeFault::Spent(Counter::Pass));
        };
        let calls = calls.into_vec();
        jobs.push(Job {
            pass: other,
            lane,
            calls,
        })?;
        lane = lane.saturating_add(1);
    }
    Ok(jobs)
}

fn run_job<L: Link, G: Gate, R: Wait + Clock>(
    rt: &R,
    clerk: &SharedClerk<L>,
    gate: &G,
    job: Job<L>,
) -> (Pass<Node<L>>, Replied)
    requires { IsPassOf clerk.now.lock job.pass }
    ensures { LaneRan clerk.now.lock job.pass job.calls.items result.0 result.1.replies.items result.1.end }
{
    let Job {
        mut pass,
        lane,
        calls,
    } = job;
    let replied = run_lane(rt, clerk, &mut pass, gate, lane, calls);
    (pass, replied)
}

// Runs the lanes at the same time. Their passes come back in the order of the lanes.
fn run_all<L: Link + Send, G: Gate + Sync, R: Threads + Wait + Clock + Sync>(
    rt: &R,
    clerk: &SharedClerk<L>,
    gate: &G,
    jobs: Vec<Job<L>>,
) -> Result<Vec<(Pass<Node<L>>, Replied)>, AllocError>
    requires { All (λ job. IsPassOf clerk.now.lock job.pass) jobs.items }
    ensures len { IfOk result (λ ran. vec_len ran ≡ vec_len jobs) }
    ensures each { IfOk result (λ ran. (i : ℕ) (d : _) (e : _) → i < vec_len jobs
        → LaneRan clerk.now.lock (slice_index_or jobs.items i e).pass (slice_index_or jobs.items i e).calls.items (slice_index_or ran.items i d).0 (slice_index_or ran.items i d).1.replies.items (slice_index_or ran.items i d).1.end) }
{
    let one = |job: Job<L>| -> (Pass<Node<L>>, Replied)
        requires { IsSync R.row × IsPassOf clerk.now.lock job.pass }
        ensures { LaneRan clerk.entry.now.lock job.pass job.calls.items result.0 result.1.replies.items result.1.end }
    { run_job(rt, clerk, gate, job) };
    thread::map_vec(rt, jobs, &one)
}

// What one lane gave goes behind what those before it gave, and the first fault stays.
fn put(all: AllReplied, one: Replied) -> AllReplied
    ensures { Puts all one result }
{
    let AllReplied { mut lanes, end } = all;
    if lanes.push(one.replies).is_err() {
        return AllReplied {
            lanes,
            end: Err(NodeFault::NoMemory),
        };
    }
    match end {
        Ok(()) => AllReplied {
            lanes,
            end: one.end,
        },
        Err(fault) => AllReplied {
            lanes,
            end: Err(fault),
        },
    }
}

// The passes of lanes come back, and what the lanes gave goes together.
fn gather<L: Link>(
    clerk: &SharedClerk<L>,
    pass: &mut Pass<Node<L>>,
    ran: Vec<(Pass<Node<L>>, Replied)>,
) -> AllReplied
    requires pass { IsPassOf clerk.now.lock pass.old }
    requires others { All (λ one. IsPassOf clerk.now.lock one.0) ran.items }
    ensures { (before : Listed Deeds) (lanes : Listed (Listed Asking)) → AreBack clerk.now.lock before lanes ran.items
        → LanesCame clerk.now.lock before pass.old lanes pass.new (lists_of result.lanes) result.end }
{
    let mut all = AllReplied {
        lanes: Vec::new(clerk.alloc),
        end: Ok(()),
    };
    'ran: for one in ran {
        let (other, replied) = one;
        clerk.join(pass, other);
        all = put(all, replied);
    }
    all
}

// No lane was run.
fn none(alloc: Global, fault: NodeFault) -> AllReplied
    ensures { (result.lanes.items ≡ []) × (result.end ≡ Err fault) }
{
    AllReplied {
        lanes: Vec::new(alloc),
        end: Err(fault),
    }
}

/// Runs the lanes by passes of their own, without a last look at the list.
pub fn run_apart<L: Link + Send, G: Gate + Sync, R: Threads + Wait + Clock + Sync>(
    rt: &R,
    clerk: &SharedClerk<L>,
    pass: &mut Pass<Node<L>>,
    gate: &G,
    lanes: Vec<List<Call>>,
) -> AllReplied
    requires { IsPassOf clerk.now.lock pass.old }
    ensures { LanesCame clerk.now.lock (front pass.old) pass.old lanes.items pass.new (lists_of result.lanes) result.end }
{
    let jobs = match draw_all(rt, clerk, pass, lanes) {
        Ok(jobs) => jobs,
        Err(fault) => return none(clerk.alloc, fault),
    };
    match run_all(rt, clerk, gate, jobs) {
        Ok(ran) => gather(clerk, pass, ran),
        Err(_) => none(clerk.alloc, NodeFault::NoMemory),
    }
}
