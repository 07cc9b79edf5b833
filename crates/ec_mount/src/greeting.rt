// The first links of a mount, up to one that takes the clerk's greeting.
ghost use Rattle.std.specs.Prelude.{◌≡◌, ◌≤◌, ◌+◌, ℕ, map, take, IfOk, IfErr, IfSome, IfNone, OnOk};
ghost use Rattle.ec_link.specs.Links.{added};
ghost use Rattle.ec_link.specs.NetAnswers.{faulted, IsEmpty};
ghost use Rattle.ec_outs.specs.Outs.{encoded, sends};
ghost use Rattle.ec_mount.specs.Run.{CameUnsent, LostUnsent};
ghost use Rattle.ec_mount.specs.Work.{Took, NotGreeted};

use crate::linker::Linking;
use crate::telling::{Who, tell_again, tell_gone, tell_over};
use ec_base::NoMemory;
use ec_clerknode::{NodeFault, send_all};
use ec_link::{Around, Link, Net, NetFault, Sent};
use ec_protocol::Out;
use std::io::Eprint;

/// A link that took the greeting, and its bell.
#[derive(Drop)]
pub struct Greeted<L: Link> {
    pub link: L,
    pub bell: L::Bell,
}

// Greets by the link. It's `Failed` where the link is.
fn greet_by<L: Link, R: Around>(rt: &R, link: &mut L, outs: &[Out]) -> Result<L::Bell, NetFault>
    ensures given { L.given link.new ≡ L.given link.old }
    ensures got { (n : ℕ) × (L.got link.new ≡ added (L.got link.old) (map encoded (take n (sends outs.now)))) }
    ensures ok { IfOk result (λ _. L.got link.new ≡ added (L.got link.old) (map encoded (sends outs.now))) }
    ensures counts { faulted result + (L.faults link.old + L.closes link.old) ≤ L.faults link.new + L.closes link.new }
{
    let bell = link.bell(rt)?;
    let (_, end) = send_all(rt, rt.alloc(), link, outs);
    match end {
        Sent::Done => Ok(bell),
        Sent::Failed => {
            drop(bell);
            Err(NetFault::Failed)
        }
        Sent::NoMemory => {
            drop(bell);
            Err(NetFault::NoMemory)
        }
    }
}

// Greets by a new link. Where that has failed, it goes back to the net.
fn greet_once<N: Net, R: Around>(
    rt: &R,
    net: &mut N,
    link: N::Link,
    outs: &[Out],
) -> Result<Option<Greeted<N::Link>>, NoMemory>
    requires { IsEmpty (N.Link.given link) × IsEmpty (N.Link.got link) }
    ensures later { N.faults net.old ≤ N.faults net.new }
    ensures took { IfOk result (λ met. IfSome met (λ g. Took outs.now (N.Link.given g.link) (N.Link.got g.link))) }
    ensures came { OnOk result (CameUnsent outs.now
        (record { faults = N.faults net.old; bad = N.bad net.old; ended = N.ended net.old })
        (record { faults = N.faults net.new; bad = N.bad net.new; ended = N.ended net.new })) }
    ensures lost { IfOk result (λ met. IfNone met (LostUnsent outs.now
        (record { faults = N.faults net.old; bad = N.bad net.old; ended = N.ended net.old })
        (record { faults = N.faults net.new; bad = N.bad net.new; ended = N.ended net.new }))) }
{
    let mut link = link;
    match greet_by(rt, &mut link, outs) {
        Ok(bell) => Ok(Some(Greeted { link, bell })),
        Err(NetFault::Failed) => {
            net.back(link)?;
            Ok(None)
        }
        Err(NetFault::NoMemory) => {
            net.back(link)?;
            Err(NoMemory)
        }
    }
}

/// Greets by the first link, or by another one that it calls where that failed before it took the greeting, for as long as
/// where a link fails later. Links that failed so go back to the net.
pub fn greet<N: Net, R: Around + Eprint>(
    rt: &R,
    who: &Who<'_>,
    net: &mut N,
    link: N::Link,
    outs: &[Out],
) -> Result<Greeted<N::Link>, NodeFault>
    requires { IsEmpty (N.Link.given link) × IsEmpty (N.Link.got link) }
    ensures later { N.faults net.old ≤ N.faults net.new }
    ensures took { IfOk result (λ g. Took outs.now (N.Link.given g.link) (N.Link.got g.link)) }
    ensures came { IfOk result (λ _. CameUnsent outs.now
        (record { faults = N.faults net.old; bad = N.bad net.old; ended = N.ended net.old })
        (record { faults = N.faults net.new; bad = N.bad net.new; ended = N.ended net.new })) }
    ensures err { IfErr result (λ f. NotGreeted outs.now
        (record { faults = N.faults net.old; bad = N.bad net.old; ended = N.ended net.old })
        (record { faults = N.faults net.new; bad = N.bad net.new; ended = N.ended net.new }) f) }
{
    if let Some(greeted) = greet_once(rt, net, link, outs)? {
        return Ok(greeted);
    }
    tell_gone(rt, who);
    let mut linking = Linking::ended_now(rt);
    for _ in rt.forever() {
        if !linking.may_call(rt) {
            tell_over(rt, who, false);
            return Err(NodeFault::Net);
        }
        let Ok(link) = net.call(rt, who.addr) else {
            continue;
        };
        if let Some(greeted) = greet_once(rt, net, link, outs)? {
            tell_again(rt, who);
            return Ok(greeted);
        }
    }
    unreachable!()
}
