// The volumes end, the last one first, and their links go back to the net.
ghost use Rattle.std.specs.Prelude.{◌≡◌, ◌∷◌, None, Some, map, IfSome};
ghost use Rattle.ec_lock.specs.PassViews.{first, IsPassOf};
ghost use Rattle.ec_clerknode.specs.LaneRuns.{lists_of};
ghost use Rattle.ec_mounts.specs.Mounts.{AreSeated};
ghost use Rattle.ec_mount_table.specs.Runs.{Each, or_boot};
ghost use Rattle.ec_mount_table.specs.Going.{EndedAll, EndedOne, SaidGoodbye, or_fault};
ghost use Rattle.ec_mount_table.specs.declared.ending.Ends.{Ends};
ghost use Rattle.ec_mount_table.specs.declared.ending.One.{One};

use ec_base::{Age, List, OpNo};
use ec_clerknode::{Closing, Node, NodeFault, SharedClerk};
use ec_link::{Around, Link, Net};
use ec_lock::Pass;
use ec_mounts::Part;

// What one volume told as it ended.
#[derive(Drop)]
struct One {
    told: Vec<List<OpNo>>,
    boot: Option<Age>,
    fault: Option<NodeFault>,
}

/// What the volumes told as they ended: what each told lost, the greater age that the first one was told that was told one, and
/// a fault of a goodbye.
#[derive(Drop)]
pub struct Ends {
    pub told: Vec<Vec<List<OpNo>>>,
    pub boot: Option<Age>,
    pub fault: Option<NodeFault>,
}

// A volume that is done says goodbye.
fn part_with<L: Link, R: Around>(
    rt: &R,
    clerk: &SharedClerk<L>,
    pass: &mut Pass<Node<L>>,
    is_done: bool,
) -> Option<NodeFault>
    requires { IsPassOf clerk.now.lock pass.old }
    ensures { SaidGoodbye clerk.now.lock pass.old pass.new is_done result }
{
    if !is_done {
        return None;
    }
    match clerk.bye(rt, pass) {
        Ok(()) => None,
        Err(fault) => Some(fault),
    }
}

// A volume that is done waits for the end of its link.
fn left<L: Link, R: Around>(rt: &R, link: L, is_done: bool) -> L
    ensures counts { (L.faults result ≡ L.faults link) × (L.closes result ≡ L.closes link) }
    ensures bodies { (L.given result ≡ L.given link) × (L.got result ≡ L.got link) }
{
    let mut link = link;
    if is_done {
        link.leave(rt);
    }
    link
}

// Ends a volume, and gives its link back. `None` for want of memory.
fn end_one<N: Net, R: Around>(
    rt: &R,
    net: &mut N,
    clerk: SharedClerk<N::Link>,
    pass: Pass<Node<N::Link>>,
    is_done: bool,
) -> Option<One>
    requires pass { IsPassOf clerk.lock pass }
    requires alone { (first clerk.lock).linker ≡ None }
    ensures later { N.faults net.new ≡ N.faults net.old }
    ensures ended { IfSome result (λ one. EndedOne N.Link.given N.Link.got is_done
        (record { faults = N.faults net.old; bad = N.bad net.old; ended = N.ended net.old })
        (record { faults = N.faults net.new; bad = N.bad net.new; ended = N.ended net.new }) clerk.lock pass one.told.items one.boot one.fault) }
{
    let mut pass = pass;
    let fault = part_with(rt, &clerk, &mut pass, is_done);
    let Closing {
        clerk: whole,
        link,
        told,
        boot,
    } = clerk.close(rt, &mut pass);
    let link = left(rt, link, is_done);
    let back = net.back(link);
    let Some(clerk) = whole else {
        return None;
    };
    drop(clerk);
    let Ok(()) = back else {
        return None;
    };
    Some(One { told, boot, fault })
}

// The pass that made a volume's calls.
fn pass_of<L: Link>(part: Part<L>) -> Pass<Node<L>>
    ensures { result ≡ part.pass }
{
    let Part { pass, .. } = part;
    pass
}

/// Ends the volumes, and gives their links back. `None` where memory was wanting.
pub fn end_all<N: Net, R: Around>(
    rt: &R,
    net: &mut N,
    clerks: Vec<SharedClerk<N::Link>>,
    parts: Vec<Part<N::Link>>,
    is_done: bool,
) -> Option<Ends>
    requires seated { AreSeated (map (λ c. c.lock) clerks.items) (map (λ p. p.pass) parts.items) }
    requires alone { Each clerks.items (λ _ clerk. (first clerk.lock).linker ≡ None) }
    ensures later { N.faults net.new ≡ N.faults net.old }
    ensures ended { IfSome result (λ all. EndedAll N.Link.given N.Link.got is_done
        (record { faults = N.faults net.old; bad = N.bad net.old; ended = N.ended net.old })
        (record { faults = N.faults net.new; bad = N.bad net.new; ended = N.ended net.new })
        (map (λ c. c.lock) clerks.items) (map (λ p. p.pass) parts.items) (lists_of all.told) all.boot all.fault) }
{
    let mut clerks = clerks;
    let mut parts = parts;
    let mut all = Some(Ends {
        told: Vec::new(rt.alloc()),
        boot: None,
        fault: None,
    });
    'volumes: while let Some(clerk) = clerks.pop() {
        let Some(part) = parts.pop() else {
            unreachable!();
        };
        let one = end_one(rt, net, clerk, pass_of(part), is_done);
        all = joined(one, all);
    }
    all
}

fn or_boot(boot: Option<Age>, other: Option<Age>) -> Option<Age>
    ensures { result ≡ or_boot boot other }
{
    match boot {
        Some(age) => Some(age),
        None => other,
    }
}

fn or_fault(fault: Option<NodeFault>, other: Option<NodeFault>) -> Option<NodeFault>
    ensures { result ≡ or_fault fault other }
{
    match fault {
        Some(fault) => Some(fault),
        None => other,
    }
}

// One volume stands before the others.
fn joined(one: Option<One>, all: Option<Ends>) -> Option<Ends>
    ensures { IfSome result (λ r. (o : One) × (a : Ends) × (one ≡ Some o) × (all ≡ Some a) × (lists_of r.told ≡ o.told.items ∷ lists_of a.told) × (r.boot ≡ or_boot o.boot a.boot) × (r.fault ≡ or_fault o.fault a.fault)) }
{
    let Some(one) = one else {
        return None;
    };
    let Some(others) = all else {
        return None;
    };
    joined_with(one, others)
}

fn joined_with(one: One, others: Ends) -> Option<Ends>
    ensures { IfSome result (λ r. (lists_of r.told ≡ one.told.items ∷ lists_of others.told) × (r.boot ≡ or_boot one.boot others.boot) × (r.fault ≡ or_fault one.fault others.fault)) }
{
    let One { told, boot, fault } = one;
    let Ends {
        told: mut all,
        boot: other,
        fault: met,
    } = others;
    let Ok(()) = all.insert(0, told) else {
        return None;
    };
    Some(Ends {
        told: all,
        boot: or_boot(boot, other),
        fault: or_fault(fault, met),
    })
}
