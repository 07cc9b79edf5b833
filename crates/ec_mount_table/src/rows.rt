// The rows of a script over the volumes, up to the first fault.
ghost use Rattle.std.specs.Prelude.{◌≡◌, ◌<◌, [], length, map, MatchBool};
ghost use Rattle.ec_plain.specs.declared.call.Call.TheVariants.{Sync};
ghost use Rattle.ec_mount_words.specs.OfRoute.Calls.{paths_of};
ghost use Rattle.ec_mount_words.specs.OfRoute.Conditions.{AreOrdered};
ghost use Rattle.ec_clerknode.specs.declared.fault.NodeFault.TheVariants as fault;
ghost use Rattle.ec_mounts.specs.Mounts.{AreSeated};
ghost use Rattle.ec_mount_table.specs.Runs.{Each};
ghost use Rattle.ec_mount_table.specs.Going.{CallCame, CameAt, Gathered, Holding, IsOrdered, LastCame, MadeAll, RowsCame, SyncCame, items_of};

use crate::script::Row;
use crate::seen::{Cut, Seen};
use ec_base::{Duplicate, Path};
use ec_clerknode::{NodeFault, Reply, SharedClerk};
use ec_link::{Around, Link};
use ec_mount_words::route::{Route, call_below, route_of};
use ec_mounts::{Part, make_at, names_of, path_at, run_parts};
use ec_plain::Call;
use std::alloc::Global;

/// What the rows met, what came to a call that met a fault, and the replies to the last sync, or the fault.
#[derive(Drop)]
pub struct Made {
    pub mets: Vec<Seen>,
    pub replies: Vec<Reply>,
    pub last: Result<Vec<Reply>, NodeFault>,
}

// Memory is wanting.
fn wanting(alloc: Global) -> Cut
    ensures { result.fault ≡ fault.NoMemory }
{
    Cut {
        replies: Vec::new(alloc),
        fault: NodeFault::NoMemory,
    }
}

// A call met this fault, before which nothing came.
fn cut_by(alloc: Global, fault: NodeFault) -> Cut
    ensures fault { result.fault ≡ fault }
    ensures none { result.replies.items ≡ [] }
{
    Cut {
        replies: Vec::new(alloc),
        fault,
    }
}

// What the volumes replied, or what those before the first fault did.
fn gather<L: Link>(alloc: Global, parts: &[Part<L>]) -> Result<Vec<Reply>, Cut>
    ensures { Gathered (map (λ p. p.met) parts.now) result }
{
    let mut replies = Vec::new(alloc);
    'parts: for part in parts {
        match &part.met {
            Some(Ok((answer, op))) => {
                let Ok(copy) = answer.duplicate() else {
                    return Err(wanting(alloc));
                };
                if replies.push((copy, *op)).is_err() {
                    return Err(wanting(alloc));
                }
            }
            Some(Err(fault)) => {
                return Err(Cut {
                    replies,
                    fault: *fault,
                });
            }
            None => return Err(wanting(alloc)),
        }
    }
    Ok(replies)
}

// Syncs all volumes at the same time.
fn sync_all<L: Link + Send, R: Around>(
    rt: &R,
    clerks: &[SharedClerk<L>],
    parts: &mut [Part<L>],
) -> Result<Vec<Reply>, Cut>
    requires seated { AreSeated (map (λ c. c.lock) clerks.now) (map (λ p. p.pass) parts.old) }
    ensures seated { AreSeated (map (λ c. c.lock) clerks.now) (map (λ p. p.pass) parts.new) }
    ensures came { SyncCame (map (λ p. p.pass) parts.old) (map (λ p. p.pass) parts.new) result }
{
    run_parts(rt, clerks, parts, None);
    gather(rt.alloc(), parts)
}

// Makes the call at the volume at this place.
fn call_at<L: Link + Send, R: Around>(
    rt: &R,
    path: &Path,
    clerks: &[SharedClerk<L>],
    parts: &mut [Part<L>],
    place: usize,
    call: Call,
) -> Result<Seen, Cut>
    requires place { place < length parts.old }
    requires seated { AreSeated (map (λ c. c.lock) clerks.now) (map (λ p. p.pass) parts.old) }
    ensures seated { AreSeated (map (λ c. c.lock) clerks.now) (map (λ p. p.pass) parts.new) }
    ensures came { CameAt path.now place call (map (λ p. p.pass) parts.old) (map (λ p. p.pass) parts.new) result }
{
    let alloc = rt.alloc();
    let Ok(inner) = call_below(alloc, call, names_of(path)) else {
        return Err(wanting(alloc));
    };
    match make_at(rt, clerks, parts, place, inner) {
        Ok(reply) => Ok(Seen::To(place, reply)),
        Err(fault) => Err(cut_by(alloc, fault)),
    }
}

// Makes a call that has paths.
fn call_one<L: Link + Send, R: Around>(
    rt: &R,
    table: &[Path],
    clerks: &[SharedClerk<L>],
    parts: &mut [Part<L>],
    call: Call,
) -> Result<Seen, Cut>
    requires paths { AreOrdered (paths_of call) × (call ≡ Sync → ⊥) }
    requires many { length parts.old ≡ length table.now }
    requires seated { AreSeated (map (λ c. c.lock) clerks.now) (map (λ p. p.pass) parts.old) }
    ensures seated { AreSeated (map (λ c. c.lock) clerks.now) (map (λ p. p.pass) parts.new) }
    ensures came { CallCame table.now call (map (λ p. p.pass) parts.old) (map (λ p. p.pass) parts.new) result }
{
    match route_of(table, &call) {
        Route::To(place) => {
            let path = path_at(table, place);
            call_at(rt, path, clerks, parts, place, call)
        }
        Route::NoVolume(number) => Ok(Seen::NoVolume(number)),
        Route::CrossVolume => Ok(Seen::CrossVolume),
    }
}

fn is_sync(call: &Call) -> bool
    ensures { MatchBool result (call.now ≡ Sync) (call.now ≡ Sync → ⊥) }
{
    match call {
        Call::Sync => true,
        _ => false,
    }
}

// Makes the call of a row.
fn make_row<L: Link + Send, R: Around>(
    rt: &R,
    table: &[Path],
    clerks: &[SharedClerk<L>],
    parts: &mut [Part<L>],
    call: Call,
) -> Result<Seen, Cut>
    requires paths { IsOrdered call }
    requires many { length parts.old ≡ length table.now }
    requires seated { AreSeated (map (λ c. c.lock) clerks.now) (map (λ p. p.pass) parts.old) }
    ensures seated { AreSeated (map (λ c. c.lock) clerks.now) (map (λ p. p.pass) parts.new) }
    ensures came { CallCame table.now call (map (λ p. p.pass) parts.old) (map (λ p. p.pass) parts.new) result }
{
    if !is_sync(&call) {
        return call_one(rt, table, clerks, parts, call);
    }
    drop(call);
    match sync_all(rt, clerks, parts) {
        Ok(replies) => Ok(Seen::All(replies)),
        Err(cut) => Err(cut),
    }
}

// Makes the calls of the rows, by passes that have made none.
fn make_rows<L: Link + Send, R: Around>(
    rt: &R,
    table: &[Path],
    clerks: &[SharedClerk<L>],
    parts: &mut [Part<L>],
    rows: &[Row],
    mets: &mut Vec<Seen>,
) -> Result<(), Cut>
    requires paths { Each rows.now (λ _ row. IsOrdered row.call) }
    requires many { length parts.old ≡ length table.now }
    requires seated { AreSeated (map (λ c. c.lock) clerks.now) (map (λ p. p.pass) parts.old) }
    requires fresh { Holding (λ _. []) (λ _. []) (map (λ p. p.pass) parts.old) }
    requires none { mets.old.items ≡ [] }
    ensures seated { AreSeated (map (λ c. c.lock) clerks.now) (map (λ p. p.pass) parts.new) }
    ensures came { RowsCame table.now rows.now mets.new.items (map (λ p. p.pass) parts.new) result }
{
    let alloc = rt.alloc();
    'rows: for row in rows {
        let Ok(call) = row.call.duplicate() else {
            return Err(wanting(alloc));
        };
        let met = match make_row(rt, table, clerks, parts, call) {
            Ok(met) => met,
            Err(cut) => return Err(cut),
        };
        let Ok(()) = mets.push(met) else {
            return Err(wanting(alloc));
        };
    }
    Ok(())
}

// Syncs all volumes behind the rows that met these.
fn make_last<L: Link + Send, R: Around>(
    rt: &R,
    clerks: &[SharedClerk<L>],
    parts: &mut [Part<L>],
    mets: Vec<Seen>,
) -> Made
    requires seated { AreSeated (map (λ c. c.lock) clerks.now) (map (λ p. p.pass) parts.old) }
    ensures seated { AreSeated (map (λ c. c.lock) clerks.now) (map (λ p. p.pass) parts.new) }
    ensures mets { result.mets ≡ mets }
    ensures replies { result.replies.items ≡ [] }
    ensures last { LastCame (map (λ p. p.pass) parts.old) (map (λ p. p.pass) parts.new) result.last }
{
    let alloc = rt.alloc();
    match sync_all(rt, clerks, parts) {
        Ok(lasts) => Made {
            mets,
            replies: Vec::new(alloc),
            last: Ok(lasts),
        },
        Err(cut) => {
            let fault = cut.fault;
            drop(cut);
            Made {
                mets,
                replies: Vec::new(alloc),
                last: Err(fault),
            }
        }
    }
}

/// Makes the calls of the rows, and then a sync of all volumes, by passes that have made none.
pub fn make_all<L: Link + Send, R: Around>(
    rt: &R,
    table: &[Path],
    clerks: &[SharedClerk<L>],
    parts: &mut [Part<L>],
    rows: &[Row],
) -> Made
    requires paths { Each rows.now (λ _ row. IsOrdered row.call) }
    requires many { length parts.old ≡ length table.now }
    requires seated { AreSeated (map (λ c. c.lock) clerks.now) (map (λ p. p.pass) parts.old) }
    requires fresh { Holding (λ _. []) (λ _. []) (map (λ p. p.pass) parts.old) }
    ensures seated { AreSeated (map (λ c. c.lock) clerks.now) (map (λ p. p.pass) parts.new) }
    ensures made { MadeAll table.now rows.now result.mets.items result.replies.items (map (λ p. p.pass) parts.new) (items_of result.last) }
{
    let mut mets = Vec::new(rt.alloc());
    match make_rows(rt, table, clerks, parts, rows, &mut mets) {
        Ok(()) => make_last(rt, clerks, parts, mets),
        Err(cut) => {
            let Cut { replies, fault } = cut;
            Made {
                mets,
                replies,
                last: Err(fault),
            }
        }
    }
}
