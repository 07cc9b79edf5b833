// The clerks of the volumes are started, run over links of the net, and ended.
ghost use Rattle.std.specs.Prelude.{◌≡◌, ◌<◌, ◌≤◌, ℕ, [], Err, None, map, length, List as Listed};
ghost use Rattle.std.specs.String.{string_bytes};
ghost use Rattle.ec_clerknode.specs.LaneRuns.{lists_of};
ghost use Rattle.ec_clerknode.specs.declared.fault.NodeFault.TheVariants as fault;
ghost use Rattle.ec_lock.specs.PassViews.{first, front};
ghost use Rattle.ec_mount.specs.Run.{NetSeen};
ghost use Rattle.ec_plain.specs.Walk.{Path};
ghost use Rattle.ec_mount_table.specs.declared.script.Row.{Row};
ghost use Rattle.ec_mounts.specs.Mounts.{AreSeated};
ghost use Rattle.ec_mount_words.specs.Mounts.{AreAll, mount_path};
ghost use Rattle.ec_mount_table.specs.Runs.{Each};
ghost use Rattle.ec_mount_table.specs.Going.{Concludes, IsOrdered, ReachedThese, ReachFails, Works, items_of, last_fault, last_of};

use crate::ending::{Ends, end_all};
use crate::reach::{Seated, Volumes, seat_all};
use crate::rows::{Made, make_all};
use crate::script::Row;
use crate::seen::Seen;
use ec_base::{Age, List, OpNo, Path};
use ec_clerknode::{NodeFault, Reply, SharedClerk};
use ec_link::{Around, Net};
use ec_mounts::Part;
use std::alloc::Global;
use std::io::Eprint;

/// What calls over several volumes were answered.
#[derive(Drop)]
pub struct Answers {
    pub mets: Vec<Seen>,
    /// What came to the sync of a row that met a fault.
    pub replies: Vec<Reply>,
    /// What each volume told lost.
    pub told: Vec<Vec<List<OpNo>>>,
    pub last: Result<Vec<Reply>, NodeFault>,
}

// Nothing was answered.
fn none(alloc: Global, fault: NodeFault) -> Made
    ensures mets { result.mets.items ≡ [] }
    ensures replies { result.replies.items ≡ [] }
    ensures last { result.last ≡ Err fault }
{
    Made {
        mets: Vec::new(alloc),
        replies: Vec::new(alloc),
        last: Err(fault),
    }
}

// Want of memory goes before a greater age, and that before any other fault.
fn last_fault(boot: Option<Age>, fault: NodeFault) -> NodeFault
    ensures { result ≡ last_fault fault boot }
{
    match (boot, fault) {
        (_, NodeFault::NoMemory) => NodeFault::NoMemory,
        (None, fault) => fault,
        (Some(age), _) => NodeFault::OldBoot(age),
    }
}

// A fault of a goodbye goes before the last answers.
fn last_of(
    boot: Option<Age>,
    fault: Option<NodeFault>,
    last: Result<Vec<Reply>, NodeFault>,
) -> Result<Vec<Reply>, NodeFault>
    ensures { result ≡ last_of last boot fault }
{
    let lasts = match last {
        Ok(lasts) => lasts,
        Err(fault) => return Err(last_fault(boot, fault)),
    };
    match (boot, fault) {
        (None, None) => Ok(lasts),
        (None, Some(fault)) => {
            drop(lasts);
            Err(fault)
        }
        (Some(age), _) => {
            drop(lasts);
            Err(NodeFault::OldBoot(age))
        }
    }
}

// What the calls met, by how the volumes ended.
fn conclude(alloc: Global, made: Made, ends: Option<Ends>) -> Answers
    ensures { Concludes ends made.mets.items made.replies.items made.last result }
{
    let Some(ends) = ends else {
        drop(made);
        return Answers {
            mets: Vec::new(alloc),
            replies: Vec::new(alloc),
            told: Vec::new(alloc),
            last: Err(NodeFault::NoMemory),
        };
    };
    let Ends { told, boot, fault } = ends;
    let Made {
        mets,
        replies,
        last,
    } = made;
    Answers {
        mets,
        replies,
        told,
        last: last_of(boot, fault, last),
    }
}

// Makes the calls of the rows and a last sync over the volumes that were reached, and ends them.
fn work_over<N: Net, R: Around + Eprint>(
    rt: &R,
    net: &mut N,
    clerks: Vec<SharedClerk<N::Link>>,
    parts: Vec<Part<N::Link>>,
    table: &[Path],
    rows: &[Row],
) -> Answers
    requires paths { Each rows.now (λ _ row. IsOrdered row.call) }
    requires many { length parts.items ≡ length table.now }
    requires seated { AreSeated (map (λ c. c.lock) clerks.items) (map (λ p. p.pass) parts.items) }
    requires fresh { Each (map (λ p. p.pass) parts.items) (λ _ pass. (pass.number ≡ 0) × (front pass ≡ [])) }
    requires alone { Each clerks.items (λ _ clerk. (first clerk.lock).linker ≡ None) }
    ensures later { N.faults net.new ≡ N.faults net.old }
    ensures works { (id : ℕ) (was : ℕ) (before : NetSeen) → ReachedThese N.Link.given N.Link.got id was (length table.now) before
        (record { faults = N.faults net.old; bad = N.bad net.old; ended = N.ended net.old }) (map (λ c. c.lock) clerks.items)
        → Works id was table.now rows.now before (record { faults = N.faults net.new; bad = N.bad net.new; ended = N.ended net.new })
        result.mets.items result.replies.items (lists_of result.told) (items_of result.last) }
{
    let alloc = rt.alloc();
    let mut parts = parts;
    let made = make_all(rt, table, &clerks, &mut parts, rows);
    let is_done = made.last.is_ok();
    let ends = end_all(rt, net, clerks, parts, is_done);
    conclude(alloc, made, ends)
}

// Ends the volumes that were reached, where one wasn't for this reason.
fn end_few<N: Net, R: Around>(
    rt: &R,
    net: &mut N,
    clerks: Vec<SharedClerk<N::Link>>,
    parts: Vec<Part<N::Link>>,
    fault: NodeFault,
) -> Answers
    requires seated { AreSeated (map (λ c. c.lock) clerks.items) (map (λ p. p.pass) parts.items) }
    requires fresh { Each (map (λ p. p.pass) parts.items) (λ _ pass. (pass.number ≡ 0) × (front pass ≡ [])) }
    requires alone { Each clerks.items (λ _ clerk. (first clerk.lock).linker ≡ None) }
    ensures later { N.faults net.new ≡ N.faults net.old }
    ensures works { (id : ℕ) (was : ℕ) (before : NetSeen) (table : Listed Path) (rows : Listed Row) → length clerks.items < length table → ReachFails N.Link.given N.Link.got id was before
        (record { faults = N.faults net.old; bad = N.bad net.old; ended = N.ended net.old }) (map (λ c. c.lock) clerks.items) fault
        → Works id was table rows before (record { faults = N.faults net.new; bad = N.bad net.new; ended = N.ended net.new })
        result.mets.items result.replies.items (lists_of result.told) (items_of result.last) }
{
    let ends = end_all(rt, net, clerks, parts, false);
    conclude(rt.alloc(), none(rt.alloc(), fault), ends)
}

/// Reaches the volumes of these words, makes the calls of the rows and a last sync, and gives the links back to the net.
pub fn work<N: Net, R: Around + Eprint>(
    rt: &R,
    net: &mut N,
    volumes: &Volumes<'_>,
    table: &[Path],
    rows: &[Row],
) -> Answers
    requires words { AreAll (map string_bytes volumes.now.words.now) }
    requires table { table.now ≡ map mount_path (map string_bytes volumes.now.words.now) }
    requires paths { Each rows.now (λ _ row. IsOrdered row.call) }
    ensures later { N.faults net.old ≤ N.faults net.new }
    ensures works { Works volumes.now.clerk volumes.now.boot table.now rows.now
        (record { faults = N.faults net.old; bad = N.bad net.old; ended = N.ended net.old })
        (record { faults = N.faults net.new; bad = N.bad net.new; ended = N.ended net.new })
        result.mets.items result.replies.items (lists_of result.told) (items_of result.last) }
{
    let alloc = rt.alloc();
    let Some(seated) = seat_all(rt, net, volumes) else {
        return conclude(alloc, none(alloc, NodeFault::NoMemory), None);
    };
    let Seated { clerks, parts, end } = seated;
    match end {
        Ok(()) => work_over(rt, net, clerks, parts, table, rows),
        Err(fault) => end_few(rt, net, clerks, parts, fault),
    }
}
