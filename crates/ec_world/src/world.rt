// The world, as others call it.
ghost use Rattle.std.specs.Prelude.{◌≡◌, ◌≤◌, ℕ, List, None, Ok, is_none, IfOk, IfErr, OnOk, IsErrOf};
ghost use Rattle.ec_disk.specs.Effects.{Counted};
ghost use Rattle.ec_durable.specs.WellFormed.{least_max_objects, most_max_objects};
ghost use Rattle.ec_durable.specs.declared.state.Durable.{Durable};
ghost use Rattle.ec_history.specs.declared.shown.Shown.TheVariants as shown;
ghost use Rattle.ec_protocol.specs.World as machine;
ghost use Rattle.ec_protocol.specs.declared.world.WorldFault.TheVariants as fault;
ghost use Rattle.ec_world.specs.Worlds.{view_of, IsInStep, KeepsServer};
ghost use Rattle.ec_world.specs.Reaching.{IsReached, LeadsKnown, StaysReached};
ghost use Rattle.ec_world.specs.Steps.{Opens, IsShown};
ghost use Rattle.ec_world.specs.StepEnds.{Unopened, FateOf, IsTold, RefusesEvent, behind_arm, CountsOf, IsLeft};

use crate::lines::Lines;
use crate::opening::{store_on, world_on};
use ec_base::trace::Trace;
use ec_base::{ClerkId, NoMemory, SortedMap};
use ec_clerk::Clerk;
use ec_disk::{Choice, CrashDisk};
use ec_durable::Record;
use ec_history::Shown;
use ec_plain::Call;
use ec_protocol::pool::Pool;
use ec_protocol::{Event, Noted, WorldFault};
use ec_server::Server;
use ec_store::Store;
use ec_wire::MsgKind;
use std::alloc::Global;

/// All clerks, the server and the pool of messages. Its disk is lent to each call that needs one.
pub struct World {
    // what the disk keeps
    pub(crate) store: Store,
    pub(crate) server: Option<Server>,
    // what a record that a stop left on the disk is to show
    pub(crate) unshown: Option<Noted>,
    pub(crate) choice: Choice,
    pub(crate) clerks: SortedMap<ClerkId, Clerk>,
    pub(crate) boots: SortedMap<ClerkId, u64>,
    pub(crate) calls: SortedMap<ClerkId, SortedMap<u64, (u32, Call)>>,
    pub(crate) pool: Pool,
    pub(crate) lines: Lines,
    pub(crate) records: Trace<Record>,
    // what the step under way has shown
    pub(crate) piece: Vec<Shown>,
    // a step was left in the middle
    pub(crate) is_broken: bool,
}

// Who drops one calls this, and needn't take it apart.
impl Drop for World {
    fn drop(self) {
        let World {
            store,
            server,
            unshown,
            choice: _,
            clerks,
            boots,
            calls,
            pool,
            lines,
            records: _,
            piece,
            is_broken: _,
        } = self;
        drop(store);
        drop(server);
        drop(unshown);
        drop(clerks);
        drop(boots);
        drop(calls);
        drop(pool);
        drop(lines);
        drop(piece);
    }
}

impl World {
    /// Opens a disk that isn't armed. One of length 0 is laid out first, for 32 to 1,024 objects. The server starts, and each session that is
    /// open ends, in the order of the clerks; of that nothing is shown, and its messages are dropped.
    ///
    /// # Errors
    ///
    /// `BadDisk`, at the first bad place of a disk that stands for no state, `DiskFailed`, `Spent` where the epochs are spent, and `NoMemory`.
    pub fn open<D: CrashDisk>(
        alloc: Global,
        disk: &mut D,
        max_objects: u32,
    ) -> Result<World, WorldFault>
        requires least { least_max_objects ≤ max_objects }
        requires limit { max_objects ≤ most_max_objects }
        requires not_armed { (D.counts disk.old).armed ≡ None }
        ensures ok { IfOk result (λ w. (d : Durable) × Opens D.tells (D.view disk.old).gives max_objects d × (machine.open_world d ≡ Ok (view_of w))) }
        ensures reached { IfOk result (λ w. (d : Durable) × Opens D.tells (D.view disk.old).gives max_objects d × IsReached d (view_of w)) }
        ensures in_step { IfOk result (λ w. IsInStep D.tells (D.view disk.new) w) }
        ensures err { IfErr result (λ fault. Unopened fault D.tells (D.view disk.old).gives (D.view disk.new).gives (D.view disk.new).may_leave max_objects) }
        ensures counts { Counted (D.counts disk.old) (D.counts disk.new) (IsErrOf result fault.DiskFailed) ⊥ }
    {
        let store = match store_on(alloc, disk, max_objects) {
            Ok(store) => store,
            Err(fault) => return Err(fault),
        };
        world_on(alloc, disk, store)
    }

    /// Takes one step, and answers the lines that it shows. The number of a call is that of its line. The disk is the one that this world was
    /// opened on. Where it stops in the step, the power is cut, and the step is one of the machine's two that a stop leaves.
    ///
    /// # Errors
    ///
    /// `Spent` where the step would spend this counter, `NoSuchOp` for a push of an operation that the clerk's start didn't issue, and
    /// `NoSuchMsg` for a message that the pool doesn't keep: then nothing has changed. After `DiskFailed` and `NoMemory` the world answers
    /// `NoMemory`; the disk stands for the state before the step or behind it, whatever a crash leaves.
    pub fn step<D: CrashDisk>(
        &mut self,
        alloc: Global,
        disk: &mut D,
        event: Event,
    ) -> Result<Vec<Shown>, WorldFault>
        requires { IsInStep D.tells (D.view disk.old) self.old }
        ensures ok { IfOk result (λ shown. (fate : machine.Fate) × FateOf fate (view_of self.old).durable (view_of self.new).durable (behind_arm event (D.counts disk.old)) (D.counts disk.new) × (IsTold fate D.tells → machine.happen fate event (view_of self.old) ≡ record { world = view_of self.new; shown = shown.items; fault = None }) × (D.tells → IsShown fate self.old.choice (behind_arm event (D.counts disk.old)).armed (view_of self.old).shown (view_of self.new).shown)) }
        ensures reached { OnOk result (LeadsKnown D.tells (behind_arm event (D.counts disk.old)) (D.counts disk.new) (view_of self.old) event (view_of self.new)) }
        ensures in_step { OnOk result (IsInStep D.tells (D.view disk.new) self.new) }
        ensures err { IfErr result (λ fault. RefusesEvent fault (machine.happen machine.runs event (view_of self.old)) (view_of self.old) (view_of self.new) (IsInStep D.tells (D.view disk.new) self.new)) }
        ensures counts { CountsOf event (D.counts disk.old) (D.counts disk.new) (IsErrOf result fault.DiskFailed) (IsErrOf result fault.NoMemory) }
        ensures left { IfErr result (λ fault. D.tells → (image : List ℕ) → (D.view disk.new).may_leave image → IsLeft (view_of self.old).durable (machine.happen machine.runs event (view_of self.old)) image) }
    {
        if self.is_broken {
            drop(event);
            return Err(WorldFault::NoMemory);
        }
        self.begin_step(alloc);
        let done = self.happen(alloc, disk, event);
        self.answer(alloc, done)
    }

    /// The number of the nth message of the kind between the clerk and the server, where it's kept.
    pub fn find(&self, clerk: ClerkId, kind: MsgKind, nth: u32) -> Option<u64>
        ensures { result ≡ machine.find clerk kind nth (view_of self.now) }
    {
        self.pool.find(clerk, kind, nth)
    }

    /// The least pending message that can be delivered.
    pub fn due(&self) -> Option<u64>
        ensures { result ≡ machine.due (view_of self.now) }
    {
        self.pool.due(self.server.is_some())
    }

    /// How many messages are pending.
    pub fn pending(&self) -> u64
        ensures { result ≡ machine.pending (view_of self.now) }
    {
        self.pool.pending()
    }

    /// Keeps the messages that are pending or among the last 4,096 ones. It takes no memory.
    pub fn forget(&mut self)
        ensures value { view_of self.new ≡ machine.forget (view_of self.old) }
        ensures reached { StaysReached (view_of self.old) (view_of self.new) }
        ensures same { KeepsServer self.old self.new }
    {
        self.pool.forget();
    }

    /// Shows that a line of a script didn't settle.
    pub fn show_unsettled(&mut self, alloc: Global) -> Result<Shown, NoMemory>
        ensures line { IfOk result (λ line. line ≡ shown.Unsettled) }
        ensures value { OnOk result (view_of self.new ≡ (machine.show_line shown.Unsettled (machine.moving (view_of self.old))).world) }
        ensures reached { OnOk result (StaysReached (view_of self.old) (view_of self.new)) }
        ensures same { KeepsServer self.old self.new }
    {
        self.lines.note(alloc, &Shown::Unsettled)?;
        Ok(Shown::Unsettled)
    }

    /// Whether no server runs.
    pub fn server_is_stopped(&self) -> bool
        ensures { result ≡ is_none (view_of self.now).server }
    {
        self.server.is_none()
    }
}
