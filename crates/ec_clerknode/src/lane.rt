// One lane of calls.
ghost use Rattle.std.specs.Prelude.{◌≡◌, []};
ghost use Rattle.ec_lock.specs.PassViews.{IsPassOf};
ghost use Rattle.ec_clerknode.specs.LaneRuns.{LaneRan};

use crate::fault::NodeFault;
use crate::shared::SharedClerk;
use crate::state::Node;
use ec_base::OpNo;
use ec_history::Answer;
use ec_link::Link;
use ec_lock::Pass;
use ec_plain::Call;
use std::sync::Wait;
use std::time::Clock;

/// An answer, with its operation's number.
pub type Reply = (Answer, Option<OpNo>);

/// It's passed before each call of a lane, with the call's place from 1, and once after the last answer.
pub trait Gate {
    fn pass(&self, lane: u8, place: u32);
}

/// What a lane was answered: all of it, or what came before its first fault.
#[derive(Drop)]
pub struct Replied {
    pub replies: Vec<Reply>,
    pub end: Result<(), NodeFault>,
}

// A lane's way through the gate.
#[derive(Drop)]
struct Way<'a, G: Gate> {
    gate: &'a G,
    lane: u8,
}

impl<G: Gate> Way<'_, G> {
    fn pass(&self, place: u32) {
        self.gate.pass(self.lane, place);
    }
}

// Makes the calls up to the first fault. Each answer goes behind those before it.
fn make_calls<L: Link, G: Gate, R: Wait + Clock>(
    rt: &R,
    clerk: &SharedClerk<L>,
    pass: &mut Pass<Node<L>>,
    way: &Way<'_, G>,
    calls: Vec<Call>,
    replies: &mut Vec<Reply>,
) -> Result<(), NodeFault>
    requires pass { IsPassOf clerk.now.lock pass.old }
    requires none { replies.old.items ≡ [] }
    ensures { LaneRan clerk.now.lock pass.old calls.items pass.new replies.new.items result }
{
    replies.reserve(calls.len())?;
    let mut place = 1u32;
    'calls: for call in calls {
        way.pass(place);
        let reply = clerk.call_op(rt, pass, call)?;
        replies.push(reply)?;
        place = place.saturating_add(1);
    }
    way.pass(place);
    Ok(())
}

/// Makes the calls of one lane, one after another, up to its first fault.
pub fn run_lane<L: Link, G: Gate, R: Wait + Clock>(
    rt: &R,
    clerk: &SharedClerk<L>,
    pass: &mut Pass<Node<L>>,
    gate: &G,
    lane: u8,
    calls: Vec<Call>,
) -> Replied
    requires { IsPassOf clerk.now.lock pass.old }
    ensures { LaneRan clerk.now.lock pass.old calls.items pass.new result.replies.items result.end }
{
    let mut replies = Vec::new(clerk.alloc);
    let way = Way { gate, lane };
    let end = make_calls(rt, clerk, pass, &way, calls, &mut replies);
    Replied { replies, end }
}
