// Lanes of calls, which run at the same time.
ghost use Rattle.std.specs.Prelude.{◌≡◌, map, IfOk};
ghost use Rattle.ec_lock.specs.PassViews.{front, IsPassOf};
ghost use Rattle.ec_clerknode.specs.LaneRuns.{LanesCame, LanesRan, LanesRanPlain, Looked, TellsOldBoot, all_items, lists_of};
ghost use Rattle.ec_clerknode.specs.Run.{old_boot};

use crate::fault::NodeFault;
use crate::jobs::{AllReplied, run_apart};
use crate::lane::{Gate, Reply};
use crate::shared::SharedClerk;
use crate::state::Node;
use ec_base::{List, NoMemory};
use ec_history::Answer;
use ec_link::Link;
use ec_lock::Pass;
use ec_plain::Call;
use std::alloc::Global;
use std::sync::Wait;
use std::thread::Threads;
use std::time::Clock;

/// Runs lanes of calls at the same time, each by a pass that is drawn for it and up to its first fault, and gives their
/// answers with the numbers of their operations. The first lane is 1.
pub fn run_lane_calls<L: Link + Send, G: Gate + Sync, R: Threads + Wait + Clock + Sync>(
    rt: &R,
    clerk: &SharedClerk<L>,
    pass: &mut Pass<Node<L>>,
    gate: &G,
    lanes: Vec<List<Call>>,
) -> AllReplied
    requires pass { IsPassOf clerk.now.lock pass.old }
    ensures looked { Looked clerk.now.lock pass.old pass.new }
    ensures lanes { LanesCame clerk.now.lock (front pass.old) pass.old lanes.items pass.new (lists_of result.lanes) result.end }
    ensures old_boot { TellsOldBoot (old_boot (front pass.new)) result.end }
{
    let all = run_apart(rt, clerk, pass, gate, lanes);
    match clerk.look(rt, pass) {
        Some(age) => AllReplied {
            lanes: all.lanes,
            end: Err(NodeFault::OldBoot(age)),
        },
        None => all,
    }
}

/// The same, with the answers only where no lane met a fault.
pub fn run_lane_ops<L: Link + Send, G: Gate + Sync, R: Threads + Wait + Clock + Sync>(
    rt: &R,
    clerk: &SharedClerk<L>,
    pass: &mut Pass<Node<L>>,
    gate: &G,
    lanes: Vec<List<Call>>,
) -> Result<Vec<Vec<Reply>>, NodeFault>
    requires pass { IsPassOf clerk.now.lock pass.old }
    ensures looked { Looked clerk.now.lock pass.old pass.new }
    ensures lanes { LanesRan clerk.now.lock (front pass.old) pass.old lanes.items pass.new (all_items result) }
    ensures old_boot { TellsOldBoot (old_boot (front pass.new)) result }
{
    let AllReplied { lanes, end } = run_lane_calls(rt, clerk, pass, gate, lanes);
    match end {
        Ok(()) => Ok(lanes),
        Err(fault) => {
            drop(lanes);
            Err(fault)
        }
    }
}

fn answers_of_lane(alloc: Global, replies: Vec<Reply>) -> Result<Vec<Answer>, NoMemory>
    ensures { IfOk result (λ answers. answers.items ≡ map (λ reply. reply.0) replies.items) }
{
    let mut answers = Vec::with_capacity(alloc, replies.len())?;
    'replies: for (answer, _) in replies {
        answers.push(answer)?;
    }
    Ok(answers)
}

fn answers_of(alloc: Global, lanes: Vec<Vec<Reply>>) -> Result<Vec<Vec<Answer>>, NoMemory>
    ensures { IfOk result (λ all. map (λ answers. answers.items) all.items ≡ map (λ replies. map (λ reply. reply.0) replies.items) lanes.items) }
{
    let mut all = Vec::with_capacity(alloc, lanes.len())?;
    'lanes: for replies in lanes {
        all.push(answers_of_lane(alloc, replies)?)?;
    }
    Ok(all)
}

/// The same without the operations' numbers. Want of memory for these lists is a fault too.
pub fn run_lanes<L: Link + Send, G: Gate + Sync, R: Threads + Wait + Clock + Sync>(
    rt: &R,
    clerk: &SharedClerk<L>,
    pass: &mut Pass<Node<L>>,
    gate: &G,
    lanes: Vec<List<Call>>,
) -> Result<Vec<Vec<Answer>>, NodeFault>
    requires pass { IsPassOf clerk.now.lock pass.old }
    ensures looked { Looked clerk.now.lock pass.old pass.new }
    ensures lanes { LanesRanPlain clerk.now.lock (front pass.old) pass.old lanes.items pass.new (all_items result) }
    ensures old_boot { TellsOldBoot (old_boot (front pass.new)) result }
{
    let replies = run_lane_ops(rt, clerk, pass, gate, lanes)?;
    Ok(answers_of(clerk.alloc, replies)?)
}
