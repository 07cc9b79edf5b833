// The volumes are reached, one after another.
ghost use Rattle.std.specs.Prelude.{◌≡◌, ◌≤◌, [], None, length, map, IfOk, IfErr, IfSome};
ghost use Rattle.std.specs.String.{string_bytes};
ghost use Rattle.ec_lock.specs.PassViews.{first, front, IsPassOf};
ghost use Rattle.ec_mount_words.specs.Mounts.{AreAll};
ghost use Rattle.ec_mounts.specs.Mounts.{AreSeated};
ghost use Rattle.ec_mount_table.specs.Runs.{Each};
ghost use Rattle.ec_mount_table.specs.Going.{Greeted as HasGreeted, NotReached, ReachedUpTo};

use ec_base::{ClerkId, Path};
use ec_clerk::Clerk;
use ec_clerknode::{Node, NodeFault, SharedClerk};
use ec_link::{Around, Link, Net, NetFault};
use ec_lock::Pass;
use ec_mount::{Greeted, Who, greet, tell_start, tell_unreached};
use ec_mount_words::mount_of;
use ec_mounts::{Mounts, Part};
use ec_protocol::ClerkFault;
use std::io::Eprint;

/// Whose volumes they are: the words of their paths and addresses, and the clerk that calls them, with the number of this start.
#[derive(Clone, Copy, Drop)]
pub struct Volumes<'a> {
    pub words: &'a [String],
    pub clerk: ClerkId,
    pub boot: u64,
}

/// The clerks of the volumes that were reached, the passes that are to make their calls, and why no more were reached.
#[derive(Drop)]
pub struct Seated<L: Link> {
    pub clerks: Vec<SharedClerk<L>>,
    pub parts: Vec<Part<L>>,
    pub end: Result<(), NodeFault>,
}

// Starts a clerk, which greets by a link to who listens at the address.
fn reach<N: Net, R: Around + Eprint>(
    rt: &R,
    net: &mut N,
    who: &Who<'_>,
    boot: u64,
) -> Result<(SharedClerk<N::Link>, Pass<Node<N::Link>>), NodeFault>
    ensures later { N.faults net.old ≤ N.faults net.new }
    ensures pass { IfOk result (λ made. IsPassOf made.0.lock made.1 × (front made.1 ≡ []) × (made.1.number ≡ 0)) }
    ensures greeted { IfOk result (λ made. HasGreeted N.Link.given N.Link.got who.now.clerk boot (first made.0.lock)
        (record { faults = N.faults net.old; bad = N.bad net.old; ended = N.ended net.old })
        (record { faults = N.faults net.new; bad = N.bad net.new; ended = N.ended net.new })) }
    ensures err { IfErr result (NotReached who.now.clerk boot
        (record { faults = N.faults net.old; bad = N.bad net.old; ended = N.ended net.old })
        (record { faults = N.faults net.new; bad = N.bad net.new; ended = N.ended net.new })) }
{
    let alloc = rt.alloc();
    let (clerk, outs) = match Clerk::start(alloc, who.clerk, boot) {
        Ok(made) => made,
        Err(ClerkFault::Spent(counter)) => return Err(NodeFault::Spent(counter)),
        Err(_) => return Err(NodeFault::NoMemory),
    };
    let link = match net.call(rt, who.addr) {
        Ok(link) => link,
        Err(NetFault::Failed) => {
            tell_unreached(rt, who, net.reason());
            drop(clerk);
            drop(outs);
            return Err(NodeFault::Net);
        }
        Err(NetFault::NoMemory) => {
            drop(clerk);
            drop(outs);
            return Err(NodeFault::NoMemory);
        }
    };
    tell_start(rt, who, boot);
    let Greeted { link, bell } = match greet(rt, who, net, link, &outs) {
        Ok(greeted) => greeted,
        Err(fault) => {
            drop(clerk);
            return Err(fault);
        }
    };
    SharedClerk::new(alloc, clerk, link, bell)
}

// Reaches the volumes of these words, up to the first that can't be reached.
fn reach_all<N: Net, R: Around + Eprint>(
    rt: &R,
    net: &mut N,
    volumes: &Volumes<'_>,
    list: &mut Vec<(Path, SharedClerk<N::Link>, Pass<Node<N::Link>>)>,
) -> Result<(), NodeFault>
    requires words { AreAll (map string_bytes volumes.now.words.now) }
    requires none { list.old.items ≡ [] }
    ensures later { N.faults net.old ≤ N.faults net.new }
    ensures seated { Each list.new.items (λ _ one. IsPassOf one.1.lock one.2) }
    ensures fresh { Each (map (λ one. one.2) list.new.items) (λ _ pass. (pass.number ≡ 0) × (front pass ≡ [])) }
    ensures alone { Each (map (λ one. one.1) list.new.items) (λ _ clerk. (first clerk.lock).linker ≡ None) }
    ensures reached { ReachedUpTo N.Link.given N.Link.got volumes.now.clerk volumes.now.boot (length volumes.now.words.now)
        (record { faults = N.faults net.old; bad = N.bad net.old; ended = N.ended net.old })
        (record { faults = N.faults net.new; bad = N.bad net.new; ended = N.ended net.new })
        (map (λ c. c.lock) (map (λ one. one.1) list.new.items)) result }
{
    let alloc = rt.alloc();
    'words: for word in volumes.words {
        let (path, addr) = mount_of(alloc, word.as_str())?;
        let who = Who {
            clerk: volumes.clerk,
            addr,
        };
        let (shared, pass) = reach(rt, net, &who, volumes.boot)?;
        list.push((path, shared, pass))?;
    }
    Ok(())
}

/// Reaches the volumes of these words, up to the first that can't be reached. `None` for want of memory.
pub fn seat_all<N: Net, R: Around + Eprint>(
    rt: &R,
    net: &mut N,
    volumes: &Volumes<'_>,
) -> Option<Seated<N::Link>>
    requires { AreAll (map string_bytes volumes.now.words.now) }
    ensures later { N.faults net.old ≤ N.faults net.new }
    ensures seated { IfSome result (λ made. AreSeated (map (λ c. c.lock) made.clerks.items) (map (λ p. p.pass) made.parts.items)) }
    ensures fresh { IfSome result (λ made. Each (map (λ p. p.pass) made.parts.items) (λ _ pass. (pass.number ≡ 0) × (front pass ≡ []))) }
    ensures alone { IfSome result (λ made. Each made.clerks.items (λ _ clerk. (first clerk.lock).linker ≡ None)) }
    ensures reached { IfSome result (λ made. ReachedUpTo N.Link.given N.Link.got volumes.now.clerk volumes.now.boot (length volumes.now.words.now)
        (record { faults = N.faults net.old; bad = N.bad net.old; ended = N.ended net.old })
        (record { faults = N.faults net.new; bad = N.bad net.new; ended = N.ended net.new })
        (map (λ c. c.lock) made.clerks.items) made.end) }
{
    let alloc = rt.alloc();
    let mut list = Vec::new(alloc);
    let end = reach_all(rt, net, volumes, &mut list);
    let Ok(mounts) = Mounts::new(alloc, list) else {
        return None;
    };
    let (clerks, parts) = mounts.into_parts();
    Some(Seated { clerks, parts, end })
}
