// A mounted clerk: it's started, run over a link of the net, and ended.
ghost use Rattle.std.specs.Prelude.{◌≡◌, ◌≤◌, ◌+◌, [], Err, IfOk, IfSome};
ghost use Rattle.ec_clerknode.specs.LaneRuns.{lists_of};
ghost use Rattle.ec_link.specs.LinkAnswers.{IsShut};
ghost use Rattle.ec_link.specs.NetAnswers.{IsEmpty};
ghost use Rattle.ec_mount.specs.Work.{RunsOver, WorksOver, Works, Concludes, last_answer as last_of, given_of};

use crate::calls::Replies;
use crate::greeting::{Greeted, greet};
use crate::linked::{LINKER, make_linked};
use crate::telling::{Who, tell_start, tell_unreached};
use ec_base::{Age, List, OpNo};
use ec_clerk::Clerk;
use ec_clerknode::{Closing, NodeFault, Reply, SharedClerk};
use ec_link::{Around, Link, Net, NetFault};
use ec_plain::Call;
use ec_protocol::{ClerkFault, Out};
use std::alloc::Global;
use std::io::Eprint;

/// What a mount's calls were answered.
#[derive(Drop)]
pub struct Answers {
    pub lanes: Vec<Vec<Reply>>,
    /// The operations that were told lost, as each session ended.
    pub told: Vec<List<OpNo>>,
    /// The answer to the last sync, or else the fault that the mount met.
    pub last: Result<Reply, NodeFault>,
    /// Each operation below it is durable or was told lost.
    pub floor: u64,
}

// Nothing was answered.
fn none(alloc: Global, fault: NodeFault) -> Answers
    ensures { given_of result ≡ ([], [], Err fault) }
{
    Answers {
        lanes: Vec::new(alloc),
        told: Vec::new(alloc),
        last: Err(fault),
        floor: 0,
    }
}

// What the whole list tells decides over what the calls met.
fn conclude<L: Link + Drop>(closing: Closing<L>, made: Replies) -> (L, Answers)
    ensures link { result.0 ≡ closing.link }
    ensures result { Concludes closing.clerk closing.told.items closing.boot (lists_of made.lanes) made.last (given_of result.1) }
{
    let Closing {
        clerk,
        link,
        told,
        boot,
    } = closing;
    let Replies { lanes, last } = made;
    let (floor, last) = match clerk {
        Some(clerk) => {
            let floor = clerk.floor();
            drop(clerk);
            (floor, last_of(boot, last))
        }
        None => {
            drop(last);
            (0, Err(NodeFault::NoMemory))
        }
    };
    let answers = Answers {
        lanes,
        told,
        last,
        floor,
    };
    (link, answers)
}

// A greater age is the fault, where one is known.
fn last_of(boot: Option<Age>, last: Result<Reply, NodeFault>) -> Result<Reply, NodeFault>
    ensures { result ≡ last_of boot last }
{
    let Some(age) = boot else {
        return last;
    };
    drop(last);
    Err(NodeFault::OldBoot(age))
}

// A mount that has ended well waits for the end of its link.
fn left<L: Link, R: Around>(rt: &R, link: L, answers: &Answers) -> L
    ensures counts { (L.faults result ≡ L.faults link) × (L.closes result ≡ L.closes link) }
    ensures bodies { (L.given result ≡ L.given link) × (L.got result ≡ L.got link) }
    ensures shut { IfOk answers.now.last (λ _. IsShut (L.shut result)) }
{
    let mut link = link;
    if answers.last.is_ok() {
        link.leave(rt);
    }
    link
}

// Runs a clerk that has greeted. The last link comes back, but for want of memory.
fn run_over<N: Net, R: Around + Eprint>(
    rt: &R,
    who: &Who<'_>,
    net: &mut N,
    greeted: Greeted<N::Link>,
    clerk: Clerk,
    lanes: Vec<List<Call>>,
) -> Option<(N::Link, Answers)>
    ensures later { N.faults net.old ≤ N.faults net.new }
    ensures runs { IfSome result (λ r. RunsOver clerk lanes.items
        (record { counts = N.Link.faults greeted.link + N.Link.closes greeted.link; given = N.Link.given greeted.link; got = N.Link.got greeted.link })
        (record { counts = N.Link.faults r.0 + N.Link.closes r.0; given = N.Link.given r.0; got = N.Link.got r.0 })
        (record { faults = N.faults net.old; bad = N.bad net.old; ended = N.ended net.old })
        (record { faults = N.faults net.new; bad = N.bad net.new; ended = N.ended net.new })
        (given_of r.1)) }
{
    let Greeted { link, bell } = greeted;
    let Ok((shared, pass)) = SharedClerk::linked_by(rt.alloc(), clerk, link, bell, Some(LINKER))
    else {
        return None;
    };
    let Some((mut pass, made)) = make_linked(rt, who, &shared, pass, net, lanes) else {
        return None;
    };
    let (link, answers) = conclude(shared.close(rt, &mut pass), made);
    Some((left(rt, link, &answers), answers))
}

// Greets the server, runs the clerk, and gives its last link back to the net.
fn work_over<N: Net, R: Around + Eprint>(
    rt: &R,
    who: &Who<'_>,
    net: &mut N,
    link: N::Link,
    started: (Clerk, Vec<Out>),
    lanes: Vec<List<Call>>,
) -> Answers
    requires { IsEmpty (N.Link.given link) × IsEmpty (N.Link.got link) }
    ensures later { N.faults net.old ≤ N.faults net.new }
    ensures works { WorksOver started.0 started.1.items lanes.items
        (record { faults = N.faults net.old; bad = N.bad net.old; ended = N.ended net.old })
        (record { faults = N.faults net.new; bad = N.bad net.new; ended = N.ended net.new })
        (given_of result) }
{
    let alloc = rt.alloc();
    let (clerk, outs) = started;
    let greeted = match greet(rt, who, net, link, &outs) {
        Ok(greeted) => greeted,
        Err(fault) => {
            drop(clerk);
            return none(alloc, fault);
        }
    };
    let Some((link, answers)) = run_over(rt, who, net, greeted, clerk, lanes) else {
        return none(alloc, NodeFault::NoMemory);
    };
    match net.back(link) {
        Ok(()) => answers,
        Err(_) => {
            drop(answers);
            none(alloc, NodeFault::NoMemory)
        }
    }
}

/// Starts the clerk, makes its calls over links to who listens at the address, and gives the links back to the net.
pub fn work<N: Net, R: Around + Eprint>(
    rt: &R,
    net: &mut N,
    who: &Who<'_>,
    boot: u64,
    lanes: Vec<List<Call>>,
) -> Answers
    ensures later { N.faults net.old ≤ N.faults net.new }
    ensures works { Works who.now.clerk boot lanes.items
        (record { faults = N.faults net.old; bad = N.bad net.old; ended = N.ended net.old })
        (record { faults = N.faults net.new; bad = N.bad net.new; ended = N.ended net.new })
        (given_of result) }
{
    let alloc = rt.alloc();
    let started = match Clerk::start(alloc, who.clerk, boot) {
        Ok(made) => made,
        Err(ClerkFault::Spent(counter)) => return none(alloc, NodeFault::Spent(counter)),
        Err(_) => return none(alloc, NodeFault::NoMemory),
    };
    let link = match net.call(rt, who.addr) {
        Ok(link) => link,
        Err(NetFault::Failed) => {
            tell_unreached(rt, who, net.reason());
            drop(started);
            return none(alloc, NodeFault::Net);
        }
        Err(NetFault::NoMemory) => {
            drop(started);
            return none(alloc, NodeFault::NoMemory);
        }
    };
    tell_start(rt, who, boot);
    work_over(rt, who, net, link, started, lanes)
}
