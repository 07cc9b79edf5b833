// The volumes of a mount table.
ghost use Rattle.std.specs.Prelude.{◌≡◌, ◌+◌, ◌≤◌, [], map, length, IfOk, IfErr, IfSome, IfNone};
ghost use Rattle.std.specs.List.{All};
ghost use Rattle.ec_lock.specs.PassViews.{IsPassOf};
ghost use Rattle.ec_clerknode.specs.declared.fault.NodeFault.TheVariants as fault;
ghost use Rattle.ec_mount_words.specs.OfRoute.Calls.{paths_of};
ghost use Rattle.ec_mount_words.specs.OfRoute.Conditions.{AreOrdered};
ghost use Rattle.ec_mounts.specs.Mounts.{AllRest, AreSeated, Ends, SyncedAll, Went, told_from};

use crate::calling::{call_over, sync_over};
use crate::losses::losses_of;
use crate::part::Part;
use ec_base::{List, NoMemory, OpNo, Path};
use ec_clerk::Clerk;
use ec_clerknode::{Node, NodeFault, SharedClerk};
use ec_history::Answer;
use ec_link::Link;
use ec_lock::Pass;
use ec_plain::Call;
use std::alloc::Global;
use std::sync::Wait;
use std::thread::Threads;
use std::time::Clock;

/// What a call is answered.
#[derive(Drop)]
pub enum MountAnswer {
    /// By its volume.
    Volume(Answer),
    /// The path of this number, from 1, is the first without a volume.
    NoVolume(u8),
    /// Each path has a volume, and two have different ones.
    CrossVolume,
}

// A table has at most so many volumes, so that each place is a byte.
const MOST_VOLUMES: usize = 256;

/// The volumes at their mount paths. Its calls go one after another.
#[derive(Drop)]
pub struct Mounts<L: Link> {
    table: Vec<Path>,
    clerks: Vec<SharedClerk<L>>,
    parts: Vec<Part<L>>,
    alloc: Global,
    ghost many: { length parts.items ≡ length table.items },
    ghost few: { length parts.items ≤ 256 },
}

impl<L: Link + Send + Drop> Mounts<L> {
    /// These clerks at their paths, each with the pass that is to make its calls. For more than 256 there is no memory.
    pub fn new(
        alloc: Global,
        list: Vec<(Path, SharedClerk<L>, Pass<Node<L>>)>,
    ) -> Result<Mounts<L>, NoMemory>
        requires { All (λ one. IsPassOf one.1.lock one.2) list.items }
        ensures table { IfOk result (λ made. made.table.items ≡ map (λ one. one.0) list.items) }
        ensures clerks { IfOk result (λ made. made.clerks.items ≡ map (λ one. one.1) list.items) }
        ensures passes { IfOk result (λ made. map (λ p. p.pass) made.parts.items ≡ map (λ one. one.2) list.items) }
        ensures seated { IfOk result (λ made. AreSeated (map (λ c. c.lock) made.clerks.items) (map (λ p. p.pass) made.parts.items)) }
    {
        if list.len() > MOST_VOLUMES {
            drop(list);
            return Err(NoMemory);
        }
        let mut table = Vec::with_capacity(alloc, list.len())?;
        let mut clerks = Vec::with_capacity(alloc, list.len())?;
        let mut parts = Vec::with_capacity(alloc, list.len())?;
        'list: for one in list {
            let (path, clerk, pass) = one;
            table.push(path)?;
            clerks.push(clerk)?;
            parts.push(Part {
                pass,
                asked: None,
                met: None,
            })?;
        }
        Ok(Mounts {
            table,
            clerks,
            parts,
            alloc,
        })
    }

    /// The clerks, and their passes in the same order.
    pub fn into_parts(self) -> (Vec<SharedClerk<L>>, Vec<Part<L>>)
        ensures clerks { result.0.items ≡ self.clerks.items }
        ensures parts { result.1.items ≡ self.parts.items }
    {
        let Mounts { clerks, parts, .. } = self;
        (clerks, parts)
    }

    /// Makes the call at the volume of its paths, and waits for its answer. Where it has none, nothing is begun. The call
    /// must have from 1 to 8 paths, so that it's no `Sync`. While it waits, the other volumes take turns. Faults are those of a
    /// call at that volume's clerk, and want of memory.
    pub fn call<R: Threads + Wait + Clock + Sync>(
        &mut self,
        rt: &R,
        call: Call,
    ) -> Result<(MountAnswer, Option<OpNo>), NodeFault>
        requires paths { AreOrdered (paths_of call) }
        requires seated { AreSeated (map (λ c. c.lock) self.old.clerks.items) (map (λ p. p.pass) self.old.parts.items) }
        ensures seated { AreSeated (map (λ c. c.lock) self.new.clerks.items) (map (λ p. p.pass) self.new.parts.items) }
        ensures same { (self.new.table.items ≡ self.old.table.items) × (self.new.clerks.items ≡ self.old.clerks.items) }
        ensures went { Went self.old.table.items call (map (λ p. p.pass) self.old.parts.items) (map (λ p. p.pass) self.new.parts.items) result }
    {
        call_over(
            rt,
            self.alloc,
            &self.table,
            &self.clerks,
            &mut self.parts,
            call,
        )
    }

    /// Syncs all volumes at the same time. The answers are in order, or the first fault is.
    pub fn sync<R: Threads + Wait + Clock + Sync>(
        &mut self,
        rt: &R,
    ) -> Result<Vec<Answer>, NodeFault>
        requires seated { AreSeated (map (λ c. c.lock) self.old.clerks.items) (map (λ p. p.pass) self.old.parts.items) }
        ensures seated { AreSeated (map (λ c. c.lock) self.new.clerks.items) (map (λ p. p.pass) self.new.parts.items) }
        ensures same { (self.new.table.items ≡ self.old.table.items) × (self.new.clerks.items ≡ self.old.clerks.items) }
        ensures synced { SyncedAll (map (λ p. p.pass) self.old.parts.items) (map (λ p. p.pass) self.new.parts.items) result }
    {
        sync_over(rt, self.alloc, &self.clerks, &mut self.parts)
    }

    /// The lists that were told lost, volume by volume, each with the volume's place from 0. The fault is want of memory: for
    /// them, or an earlier one of a clerk.
    pub fn losses<R: Wait>(&mut self, rt: &R) -> Result<Vec<(u8, List<OpNo>)>, NodeFault>
        requires seated { AreSeated (map (λ c. c.lock) self.old.clerks.items) (map (λ p. p.pass) self.old.parts.items) }
        ensures seated { AreSeated (map (λ c. c.lock) self.new.clerks.items) (map (λ p. p.pass) self.new.parts.items) }
        ensures same { (self.new.table.items ≡ self.old.table.items) × (self.new.clerks.items ≡ self.old.clerks.items) }
        ensures rest { AllRest (map (λ p. p.pass) self.old.parts.items) (map (λ p. p.pass) self.new.parts.items) }
        ensures ok { IfOk result (λ told. told.items ≡ told_from 0 (map (λ p. p.pass) self.new.parts.items)) }
        ensures err { IfErr result (λ f. f ≡ fault.NoMemory) }
    {
        losses_of(rt, self.alloc, &self.clerks, &mut self.parts)
    }

    /// Takes the last volume out of the table, and hands its clerk and its link back, as `SharedClerk::finish` does. There
    /// is none where the table is empty. It takes no memory.
    pub fn finish<R: Wait>(&mut self, rt: &R) -> Option<(Option<Clerk>, L)>
        requires seated { AreSeated (map (λ c. c.lock) self.old.clerks.items) (map (λ p. p.pass) self.old.parts.items) }
        ensures seated { AreSeated (map (λ c. c.lock) self.new.clerks.items) (map (λ p. p.pass) self.new.parts.items) }
        ensures none { IfNone result ((self.old.parts.items ≡ []) × (self.new.parts.items ≡ [])) }
        ensures ends { IfSome result (λ ended. Ends (λ l. L.faults l + L.closes l) L.given L.got (map (λ c. c.lock) self.old.clerks.items) (map (λ p. p.pass) self.old.parts.items)
            (map (λ c. c.lock) self.new.clerks.items) (map (λ p. p.pass) self.new.parts.items) ended.0 ended.1) }
    {
        let clerk = self.clerks.pop()?;
        let Some(part) = self.parts.pop() else {
            unreachable!();
        };
        drop(self.table.pop());
        let Part { mut pass, .. } = part;
        Some(clerk.finish(rt, &mut pass))
    }
}
