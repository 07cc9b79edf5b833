// All calls of a mount, beside who links again.
ghost use Rattle.std.specs.Prelude.{◌≡◌, ◌+◌, ◌<◌, ◌≤◌, ℕ, [], Some, None, Ok, length, slice_index_or, IfSome, IsTrue};
ghost use Rattle.std.specs.List.{All};
ghost use Rattle.std.specs.Thread.{IsSync};
ghost use Rattle.ec_lock.specs.PassViews.{first, front, IsPassOf};
ghost use Rattle.ec_clerknode.specs.LaneRuns.{lists_of};
ghost use Rattle.ec_clerknode.specs.Turns.{calls_by};
ghost use Rattle.ec_mount.specs.Calls.{Called};
ghost use Rattle.ec_mount.specs.Linking.{HasLinked};
ghost use Rattle.ec_mount.specs.declared.linked.Did.TheVariants as did;
ghost use Rattle.ec_mount.specs.Parts.{CallerDid, IsReady, PartRan};

use crate::calls::{Replies, make_calls};
use crate::lending::{Lending, Lent, take_back};
use crate::linker::{Beside, link_again};
use crate::telling::Who;
use ec_base::{List, NoMemory};
use ec_clerknode::{Node, SharedClerk};
use ec_link::{Around, Link, Net};
use ec_lock::Pass;
use ec_plain::Call;
use std::io::Eprint;
use std::{mem, thread};

/// The pass with this number exchanges links: the first that is drawn.
pub const LINKER: u64 = 1;

// What one of the two came to that run at the same time.
#[derive(Drop)]
enum Did {
    Linked(Result<(), NoMemory>),
    Called(Replies),
}

// One of the two: who links again, to whom the net is lent, or else who makes the calls.
#[derive(Drop)]
struct Part<M: Lending> {
    pass: Pass<Node<M::Link>>,
    lent: Option<M>,
    lanes: Vec<List<Call>>,
    // What it came to, once it has run.
    did: Option<Did>,
}

// Makes the calls, and tells who links again that they have ended.
fn call_all<L: Link + Send, R: Around + Eprint>(
    rt: &R,
    who: &Who<'_>,
    clerk: &SharedClerk<L>,
    pass: &mut Pass<Node<L>>,
    lanes: Vec<List<Call>>,
    beside: &Beside,
) -> Replies
    requires pass { IsPassOf clerk.now.lock pass.old }
    requires none { calls_by pass.old.number (front pass.old) ≡ [] }
    ensures { Called clerk.now.lock pass.old lanes.items pass.new (lists_of result.lanes) result.last }
{
    beside.wait_for_linker(rt);
    let made = make_calls(rt, rt.alloc(), who, clerk, pass, lanes);
    beside.end();
    clerk.wake_linker();
    made
}

fn run_part<M: Lending, R: Around + Eprint>(
    rt: &R,
    who: &Who<'_>,
    clerk: &SharedClerk<M::Link>,
    part: &mut Part<M>,
    beside: &Beside,
)
    requires { IsReady clerk.now.lock part.old.pass part.old.lent }
    ensures { PartRan clerk.now.lock M.name (λ m. record { faults = M.faults m; bad = M.bad m; ended = M.ended m }) (λ l. M.Link.faults l + M.Link.closes l) M.Link.given M.Link.got
        part.old.lent part.old.pass part.old.lanes.items part.new.lent part.new.pass part.new.did }
{
    match &mut part.lent {
        Some(net) => {
            let linked = link_again(rt, who, clerk, &mut part.pass, net, beside);
            part.did = Some(Did::Linked(linked));
        }
        None => {
            let lanes = mem::replace(&mut part.lanes, Vec::new(rt.alloc()));
            let made = call_all(rt, who, clerk, &mut part.pass, lanes, beside);
            part.did = Some(Did::Called(made));
        }
    }
}

// Runs all parts at the same time, the first one in a thread of its own, or last where none can be started.
fn run_parts<M: Lending, R: Around + Eprint>(
    rt: &R,
    who: &Who<'_>,
    clerk: &SharedClerk<M::Link>,
    parts: &mut [Part<M>],
    beside: &Beside,
)
    requires { All (λ part. IsReady clerk.now.lock part.pass part.lent) parts.old }
    ensures { (i : ℕ) (d : _) → i < length parts.old → PartRan clerk.now.lock M.name (λ m. record { faults = M.faults m; bad = M.bad m; ended = M.ended m }) (λ l. M.Link.faults l + M.Link.closes l) M.Link.given M.Link.got
        (slice_index_or parts.old i d).lent (slice_index_or parts.old i d).pass (slice_index_or parts.old i d).lanes.items (slice_index_or parts.new i d).lent (slice_index_or parts.new i d).pass (slice_index_or parts.new i d).did }
{
    let one = |_: usize, part: &mut Part<M>|
        requires { IsSync R.row × IsReady clerk.now.lock part.now.pass part.now.lent }
        ensures { PartRan clerk.entry.now.lock M.name (λ m. record { faults = M.faults m; bad = M.bad m; ended = M.ended m }) (λ l. M.Link.faults l + M.Link.closes l) M.Link.given M.Link.got
            part.entry.now.lent part.entry.now.pass part.entry.now.lanes.items part.exit.now.lent part.exit.now.pass part.exit.now.did }
    { run_part(rt, who, clerk, part, beside) };
    thread::for_each_mut(rt, parts, 2, &one);
}

// Runs both at the same time. For want of memory neither has run.
fn run_two<M: Lending + Drop, R: Around + Eprint>(
    rt: &R,
    who: &Who<'_>,
    clerk: &SharedClerk<M::Link>,
    one: Part<M>,
    two: Part<M>,
) -> (Part<M>, Part<M>)
    requires one { IsReady clerk.now.lock one.pass one.lent × (one.did ≡ None) }
    requires two { IsReady clerk.now.lock two.pass two.lent × (two.did ≡ None) }
    ensures one { PartRan clerk.now.lock M.name (λ m. record { faults = M.faults m; bad = M.bad m; ended = M.ended m }) (λ l. M.Link.faults l + M.Link.closes l) M.Link.given M.Link.got
        one.lent one.pass one.lanes.items result.0.lent result.0.pass result.0.did }
    ensures two { PartRan clerk.now.lock M.name (λ m. record { faults = M.faults m; bad = M.bad m; ended = M.ended m }) (λ l. M.Link.faults l + M.Link.closes l) M.Link.given M.Link.got
        two.lent two.pass two.lanes.items result.1.lent result.1.pass result.1.did }
{
    let Ok(mut parts) = Vec::with_capacity(rt.alloc(), 2) else {
        return (one, two);
    };
    let Ok(()) = parts.push(one) else {
        unreachable!();
    };
    let Ok(()) = parts.push(two) else {
        unreachable!();
    };
    run_parts(rt, who, clerk, &mut parts, &Beside::new());
    let Some(two) = parts.pop() else {
        unreachable!();
    };
    let Some(one) = parts.pop() else {
        unreachable!();
    };
    (one, two)
}

// The passes of who linked again and of the calls, and what both came to.
#[derive(Drop)]
struct Both<L: Link> {
    other: Pass<Node<L>>,
    pass: Pass<Node<L>>,
    linked: Option<Did>,
    called: Option<Did>,
}

// Links again by the net that is lent and the first of these passes, and makes the calls by the second one at the same time. The
// net comes back.
fn run_both<M: Lending + Drop, R: Around + Eprint>(
    rt: &R,
    who: &Who<'_>,
    clerk: &SharedClerk<M::Link>,
    lent: &mut Option<M>,
    passes: (Pass<Node<M::Link>>, Pass<Node<M::Link>>),
    lanes: Vec<List<Call>>,
) -> Both<M::Link>
    requires lent { lent.old ≡ None → ⊥ }
    requires other { IsPassOf clerk.now.lock passes.0 }
    requires pass { IsPassOf clerk.now.lock passes.1 × (calls_by passes.1.number (front passes.1) ≡ []) }
    ensures linked { PartRan clerk.now.lock M.name (λ m. record { faults = M.faults m; bad = M.bad m; ended = M.ended m }) (λ l. M.Link.faults l + M.Link.closes l) M.Link.given M.Link.got
        lent.old passes.0 [] lent.new result.other result.linked }
    ensures called { CallerDid clerk.now.lock passes.1 lanes.items result.pass result.called }
{
    let (other, pass) = passes;
    let linker = Part {
        pass: other,
        lent: lent.take(),
        lanes: Vec::new(rt.alloc()),
        did: None,
    };
    let caller = Part {
        pass,
        lent: None,
        lanes,
        did: None,
    };
    let (linker, caller) = run_two(rt, who, clerk, linker, caller);
    *lent = linker.lent;
    Both {
        other: linker.pass,
        pass: caller.pass,
        linked: linker.did,
        called: caller.did,
    }
}

// Whether who links again has ended without want of memory.
fn has_linked(linked: Option<Did>) -> bool
    ensures { IsTrue result → linked ≡ Some (did.Linked (Ok tt)) }
{
    match linked {
        Some(Did::Linked(met)) => met.is_ok(),
        _ => false,
    }
}

fn replies_of(called: Option<Did>) -> Option<Replies>
    ensures { IfSome result (λ made. called ≡ Some (did.Called made)) }
{
    match called {
        Some(Did::Called(made)) => Some(made),
        _ => None,
    }
}

/// Makes all calls up to the first fault, by a pass that has begun none, and links again meanwhile where the link fails. The pass
/// comes back. `None` for want of memory.
pub fn make_linked<N: Net, R: Around + Eprint>(
    rt: &R,
    who: &Who<'_>,
    clerk: &SharedClerk<N::Link>,
    pass: Pass<Node<N::Link>>,
    net: &mut N,
    lanes: Vec<List<Call>>,
) -> Option<(Pass<Node<N::Link>>, Replies)>
    requires pass { IsPassOf clerk.now.lock pass }
    requires none { front pass ≡ [] }
    ensures later { N.faults net.old ≤ N.faults net.new }
    ensures called { IfSome result (λ r. Called clerk.now.lock pass lanes.items r.0 (lists_of r.1.lanes) r.1.last) }
    ensures linked { IfSome result (λ r. HasLinked (λ l. N.Link.faults l + N.Link.closes l) N.Link.given N.Link.got (first clerk.now.lock) r.0
        (record { faults = N.faults net.old; bad = N.bad net.old; ended = N.ended net.old })
        (record { faults = N.faults net.new; bad = N.bad net.new; ended = N.ended net.new })) }
{
    let mut own = pass;
    let other = clerk.split(rt, &mut own)?;
    if other.number() != LINKER {
        return None;
    }
    let mut lent = Some(Lent { net });
    let both = run_both(rt, who, clerk, &mut lent, (other, own), lanes);
    let Some(Lent { net: back }) = lent else {
        unreachable!();
    };
    take_back(back);
    let Both {
        other,
        pass,
        linked,
        called,
    } = both;
    if !has_linked(linked) {
        return None;
    }
    let made = replies_of(called)?;
    let mut pass = pass;
    clerk.join(&mut pass, other);
    Some((pass, made))
}
