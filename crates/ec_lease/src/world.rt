// The world with leases, as others call it.
ghost use Rattle.std.specs.Prelude.{◌≡◌, ◌≤◌, ◌<◌, ◌++◌, ◌∷◌, [], filter, is_none, Ok, None, IfOk, IfErr, IsErrOf, OnOk};
ghost use Rattle.ec_base.specs.Limits.{clerk_count};
ghost use Rattle.ec_disk.specs.Effects.{Counted};
ghost use Rattle.ec_durable.specs.declared.state.Durable.{Durable};
ghost use Rattle.ec_protocol.specs.World as machine;
ghost use Rattle.ec_protocol.specs.declared.world.World.{World as State};
ghost use Rattle.ec_lease.specs.Steps.{LeaseCounts, LeaseFated, MayStep, RefusesLease, behind_lease_arm};
ghost use Rattle.ec_lease.specs.Worlds.{ended_with, ticks, under_way, leased, ClocksGoOn, IsInStep, KeepsServer};
ghost use Rattle.ec_lease_machine.specs.Drill as drill;
ghost use Rattle.ec_lease_machine.specs.Leases as leases;
ghost use Rattle.ec_lease_machine.specs.declared.world.LeaseFault.TheVariants as lease_fault;
ghost use Rattle.ec_lease_machine.specs.declared.world.LeaseShown.TheVariants as shown;
ghost use Rattle.ec_history.specs.declared.shown.Shown.TheVariants.{Unsettled as unsettled};
ghost use Rattle.ec_world.specs.Reaching.{IsReached};
ghost use Rattle.ec_world.specs.StepEnds.{Unopened};
ghost use Rattle.ec_world.specs.Steps.{Opens};
ghost use Rattle.ec_protocol.specs.declared.world.WorldFault.TheVariants as fault;

use ec_base::{CLERK_COUNT, ClerkId, NoMemory};
use ec_disk::CrashDisk;
use ec_lease_machine::book::Book;
use ec_lease_machine::{LeaseEvent, LeaseFault, LeaseShown};
use ec_protocol::WorldFault;
use ec_wire::MsgKind;
use ec_world::World;
use std::alloc::Global;
use std::mem;

// A world with leases is over a volume of at most so many objects.
const MOST_OBJECTS: u32 = 1_024;

/// All clerks, the server and the messages, with their clocks and leases. Its disk is lent to each call that needs one.
pub struct LeaseWorld {
    pub(crate) world: World,
    pub(crate) book: Book,
    // what the step under way has shown
    pub(crate) piece: Vec<LeaseShown>,
    // a step was left in the middle
    is_broken: bool,
}

// Who drops one calls this, and needn't take it apart.
impl Drop for LeaseWorld {
    fn drop(self) {
        let LeaseWorld {
            world,
            book,
            piece,
            is_broken: _,
        } = self;
        drop(world);
        drop(book);
        drop(piece);
    }
}

impl LeaseWorld {
    /// Opens a disk that isn't armed, as a world does. Leases run for `length`, and a clerk's clock differs from the server's by at most
    /// `most`.
    ///
    /// # Errors
    ///
    /// Those of `World::open`.
    pub fn open<D: CrashDisk>(
        alloc: Global,
        disk: &mut D,
        length: u64,
        most: u64,
    ) -> Result<LeaseWorld, WorldFault>
        requires length { length ≤ 1000000 }
        requires most { most < length }
        requires not_armed { (D.counts disk.old).armed ≡ None }
        ensures ok { IfOk result (λ x. (d : Durable) × (w : State) × Opens D.tells (D.view disk.old).gives 1024 d × (machine.open_world d ≡ Ok w) × (leased x ≡ leases.opened_leases length most w)) }
        ensures reached { IfOk result (λ x. (d : Durable) × Opens D.tells (D.view disk.old).gives 1024 d × IsReached d (leased x).world) }
        ensures in_step { IfOk result (λ x. IsInStep D.tells (D.view disk.new) x) }
        ensures err { IfErr result (λ fault. Unopened fault D.tells (D.view disk.old).gives (D.view disk.new).gives (D.view disk.new).may_leave 1024) }
        ensures counts { Counted (D.counts disk.old) (D.counts disk.new) (IsErrOf result fault.DiskFailed) ⊥ }
    {
        let world = match World::open(alloc, disk, MOST_OBJECTS) {
            Ok(world) => world,
            Err(fault) => return Err(fault),
        };
        Ok(LeaseWorld {
            world,
            book: Book::new(alloc, length, most),
            piece: Vec::new(alloc),
            is_broken: false,
        })
    }

    /// Takes one step, and answers the lines that it shows: what happens, and behind it queued calls of clerks that aren't held begin, in
    /// the order of the clerks.
    ///
    /// # Errors
    ///
    /// `NoSuchLease` where fewer were issued to the clerk, and the faults of a world's step: then nothing has changed, but where a queued
    /// call would spend a counter; what happened before it stands, and `shown_before` gives its lines. After a failed disk and for want of
    /// memory the world answers want of memory alone.
    pub fn step<D: CrashDisk>(
        &mut self,
        alloc: Global,
        disk: &mut D,
        event: LeaseEvent,
    ) -> Result<Vec<LeaseShown>, LeaseFault>
        requires in_step { IsInStep D.tells (D.view disk.old) self.old }
        requires may { MayStep (leased self.old) event }
        ensures ok { IfOk result (λ lines. LeaseFated D.tells (leased self.old).world (behind_lease_arm event (D.counts disk.old)) (D.counts disk.new) (λ fate. leases.step fate event (leased self.old)) (leases.shows lines.items (leased self.new))) }
        ensures clock { OnOk result (ClocksGoOn (ticks event) (leased self.old) (leased self.new)) }
        ensures in_step { OnOk result (IsInStep D.tells (D.view disk.new) self.new) }
        ensures err { IfErr result (λ fault. RefusesLease fault D.tells (leased self.old).world (behind_lease_arm event (D.counts disk.old)) (D.counts disk.new) (λ fate. leases.step fate event (leased self.old)) (ended_with fault self.new) (IsInStep D.tells (D.view disk.new) self.new)) }
        ensures counts { LeaseCounts event (D.counts disk.old) (D.counts disk.new) (IsErrOf result (lease_fault.World fault.DiskFailed)) (IsErrOf result lease_fault.NoMemory) }
    {
        if self.is_broken {
            drop(event);
            return Err(LeaseFault::NoMemory);
        }
        self.piece = Vec::new(alloc);
        match self.proceed(alloc, disk, event) {
            Ok(()) => Ok(mem::replace(&mut self.piece, Vec::new(alloc))),
            Err(fault) => {
                self.is_broken = is_lasting(fault);
                Err(fault)
            }
        }
    }

    // What happens, and queued calls that begin behind it.
    fn proceed<D: CrashDisk>(
        &mut self,
        alloc: Global,
        disk: &mut D,
        event: LeaseEvent,
    ) -> Result<(), LeaseFault>
        requires in_step { IsInStep D.tells (D.view disk.old) self.old }
        requires may { MayStep (leased self.old) event }
        requires piece { self.old.piece.items ≡ [] }
        ensures ok { OnOk result (LeaseFated D.tells (leased self.old).world (behind_lease_arm event (D.counts disk.old)) (D.counts disk.new) (λ fate. leases.step fate event (leased self.old)) (under_way self.new)) }
        ensures clock { OnOk result (ClocksGoOn (ticks event) (leased self.old) (leased self.new)) }
        ensures in_step { OnOk result (IsInStep D.tells (D.view disk.new) self.new) }
        ensures err { IfErr result (λ fault. RefusesLease fault D.tells (leased self.old).world (behind_lease_arm event (D.counts disk.old)) (D.counts disk.new) (λ fate. leases.step fate event (leased self.old)) (ended_with fault self.new) (IsInStep D.tells (D.view disk.new) self.new)) }
        ensures counts { LeaseCounts event (D.counts disk.old) (D.counts disk.new) (IsErrOf result (lease_fault.World fault.DiskFailed)) (IsErrOf result lease_fault.NoMemory) }
    {
        self.happen(alloc, disk, event)?;
        self.begin_queued(alloc)
    }

    /// What a step that ended early showed before.
    pub fn shown_before(&mut self, alloc: Global) -> Vec<LeaseShown>
        ensures lines { result.items ≡ (under_way self.old).shown }
        ensures view { leased self.new ≡ leased self.old }
        ensures same { KeepsServer self.old self.new }
    {
        mem::replace(&mut self.piece, Vec::new(alloc))
    }

    /// The least pending message that can be delivered and isn't kept from a held clerk.
    pub fn due(&self, alloc: Global) -> Result<Option<u64>, NoMemory>
        ensures { IfOk result (λ due. due ≡ drill.due_now (leased self.now)) }
    {
        let held = self.held(alloc)?;
        let due = self.world.due_but(&held);
        drop(held);
        Ok(due)
    }

    /// The number of the nth message of the kind between the clerk and the server, where it's kept.
    pub fn find(&self, clerk: ClerkId, kind: MsgKind, nth: u32) -> Option<u64>
        ensures { result ≡ machine.find clerk kind nth (leased self.now).world }
    {
        self.world.find(clerk, kind, nth)
    }

    /// How many messages are pending.
    pub fn pending(&self) -> u64
        ensures { result ≡ machine.pending (leased self.now).world }
    {
        self.world.pending()
    }

    /// Keeps the messages that are pending or among the last 4,096 ones. It takes no memory.
    pub fn forget(&mut self)
        ensures value { leased self.new ≡ drill.forgotten (leased self.old) }
        ensures same { KeepsServer self.old self.new }
    {
        self.world.forget();
    }

    /// Shows that a line of a script didn't settle.
    pub fn show_unsettled(&mut self, alloc: Global) -> Result<LeaseShown, NoMemory>
        ensures line { IfOk result (λ line. line ≡ shown.Line unsettled) }
        ensures value { OnOk result (leased self.new ≡ leases.in_world (machine.show_line unsettled (machine.moving (leased self.old).world)).world (leased self.old)) }
        ensures same { KeepsServer self.old self.new }
    {
        Ok(LeaseShown::Line(self.world.show_unsettled(alloc)?))
    }

    /// Whether no server runs.
    pub fn server_is_stopped(&self) -> bool
        ensures { result ≡ is_none (leased self.now).world.server }
    {
        self.world.server_is_stopped()
    }

    /// Whether the clerk runs and has a session, and its Lease doesn't run.
    pub fn is_held(&self, clerk: ClerkId) -> bool
        ensures { result ≡ leases.is_held clerk (leased self.now) }
    {
        match self.world.session(clerk) {
            Some(session) => self.book.has_run_out(clerk, session),
            None => false,
        }
    }

    // All held clerks, in order.
    fn held(&self, alloc: Global) -> Result<Vec<ClerkId>, NoMemory>
        ensures { IfOk result (λ held. held.items ≡ leases.held (leased self.now)) }
    {
        let mut held = Vec::new(alloc);
        'clerks: for number in 0..CLERK_COUNT {
            self.add_held(&mut held, number)?;
        }
        Ok(held)
    }

    // Adds the clerk of this number, if it's held.
    fn add_held(&self, held: &mut Vec<ClerkId>, number: u8) -> Result<(), NoMemory>
        requires { number < clerk_count }
        ensures { OnOk result (held.new.items ≡ held.old.items ++ filter (λ c. leases.is_held c (leased self.now)) (number ∷ [])) }
    {
        match ClerkId::new(number) {
            Some(clerk) if self.is_held(clerk) => Ok(held.push(clerk)?),
            _ => Ok(()),
        }
    }
}

// Whether a world is left in the middle of a step by this fault.
fn is_lasting(fault: LeaseFault) -> bool {
    matches!(
        fault,
        LeaseFault::NoMemory | LeaseFault::World(WorldFault::DiskFailed)
    )
}
