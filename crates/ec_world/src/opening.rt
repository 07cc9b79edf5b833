// The opening of a disk.
ghost use Rattle.std.specs.Prelude.{◌≡◌, ◌<◌, ◌≤◌, ◌∷◌, ◌++◌, [], ℕ, Some, None, Ok, Err, IfOk, IfErr, OnOk, IsErrOf, IsSome, length};
ghost use Rattle.ec_base.specs.Limits.{clerk_count};
ghost use Rattle.ec_disk.specs.Effects.{Counted};
ghost use Rattle.ec_durable.specs.Durable.{slot, formatted as formatted_state};
ghost use Rattle.ec_sessions.specs.Slots as slots;
ghost use Rattle.ec_stands.specs.Stands.{StandsFor};
ghost use Rattle.ec_volume.specs.Volume.{images};
ghost use Rattle.ec_volume.specs.declared.image.Image.TheVariants.{Gone};
ghost use Rattle.ec_durable.specs.WellFormed.{least_max_objects, most_max_objects};
ghost use Rattle.ec_protocol.specs.Server as machine_server;
ghost use Rattle.ec_protocol.specs.World as machine;
ghost use Rattle.ec_protocol.specs.declared.world.WorldFault.TheVariants as fault;
ghost use Rattle.ec_server.specs.Servers.{standing, StandsOn};
ghost use Rattle.ec_store.specs.Store.{IsHeld, view_of as state_of};
ghost use Rattle.ec_marking.specs.Keeping.{IsMarked};
ghost use Rattle.ec_world.specs.Opening.{Unread, Unstarted, Starts, StartsServer, EndsOne, EndsWith, IsOfDisk, opening_fault as fault_of};
ghost use Rattle.ec_world.specs.Steps.{IsWhole, Opens};
ghost use Rattle.ec_world.specs.Worlds.{view_of, IsInStep};

use crate::lines::Lines;
use crate::world::World;
use ec_base::trace::Trace;
use ec_base::{CLERK_COUNT, ClerkId, NoMemory, ObjId, SortedMap};
use ec_disk::{Choice, CrashDisk, DiskLen};
use ec_durable::{Durable, Record};
use ec_marking::{Came, keeping};
use ec_protocol::pool::Pool;
use ec_protocol::{Served, WorldFault};
use ec_server::Server;
use ec_store::{Store, StoreFault};
use ec_volume::Volume;
use std::alloc::Global;

// A disk of length 0 is laid out first.
pub(crate) fn store_on<D: CrashDisk>(
    alloc: Global,
    disk: &mut D,
    max_objects: u32,
) -> Result<Store, WorldFault>
    requires least { least_max_objects ≤ max_objects }
    requires limit { max_objects ≤ most_max_objects }
    ensures opens { IfOk result (λ store. Opens D.tells (D.view disk.old).gives max_objects (state_of store)) }
    ensures held { IfOk result (λ store. D.tells → IsHeld (D.view disk.new) store) }
    ensures err { IfErr result (λ fault. Unread fault D.tells (D.view disk.old).gives (D.view disk.new).gives) }
    ensures counts { Counted (D.counts disk.old) (D.counts disk.new) (IsErrOf result fault.DiskFailed) ⊥ }
{
    let bytes = match disk.len() {
        DiskLen::Len(bytes) => bytes,
        DiskLen::Failed => return Err(WorldFault::DiskFailed),
        DiskLen::Stopped => return Err(WorldFault::NoMemory),
    };
    if bytes == 0 {
        return laid_out(alloc, disk, max_objects);
    }
    read_back(alloc, disk)
}

fn laid_out<D: CrashDisk>(
    alloc: Global,
    disk: &mut D,
    max_objects: u32,
) -> Result<Store, WorldFault>
    requires least { least_max_objects ≤ max_objects }
    requires limit { max_objects ≤ most_max_objects }
    requires empty { D.tells → length (D.view disk.old).gives ≡ 0 }
    ensures state { IfOk result (λ store. state_of store ≡ formatted_state max_objects) }
    ensures whole { IfOk result (λ store. IsWhole (state_of store)) }
    ensures held { IfOk result (λ store. D.tells → IsHeld (D.view disk.new) store) }
    ensures err { IfErr result (λ fault. Unread fault D.tells (D.view disk.old).gives (D.view disk.new).gives) }
    ensures counts { Counted (D.counts disk.old) (D.counts disk.new) (IsErrOf result fault.DiskFailed) ⊥ }
{
    match Store::format(alloc, disk, max_objects) {
        Ok(store) => Ok(shown(store)),
        Err(fault) => Err(fault_of(fault)),
    }
}

fn read_back<D: CrashDisk>(alloc: Global, disk: &mut D) -> Result<Store, WorldFault>
    requires full { D.tells → length (D.view disk.old).gives ≡ 0 → ⊥ }
    ensures state { IfOk result (λ store. D.tells → StandsFor (D.view disk.old).gives (state_of store)) }
    ensures whole { IfOk result (λ store. IsWhole (state_of store)) }
    ensures held { IfOk result (λ store. D.tells → IsHeld (D.view disk.new) store) }
    ensures err { IfErr result (λ fault. Unread fault D.tells (D.view disk.old).gives (D.view disk.new).gives) }
    ensures counts { Counted (D.counts disk.old) (D.counts disk.new) (IsErrOf result fault.DiskFailed) ⊥ }
{
    match Store::open(alloc, disk) {
        Ok(store) => Ok(shown(store)),
        Err(fault) => Err(fault_of(fault)),
    }
}

// What a store shows is well formed, with a slot for each clerk.
fn shown(store: Store) -> Store
    ensures same { result ≡ store }
    ensures whole { IsWhole (state_of result) }
{
    let Some(clerk) = ClerkId::new(0) else {
        unreachable!();
    };
    let state = store.view();
    let _slot = state.sessions.slot(clerk);
    counts_from_one(&state.volume);
    store
}

// A volume's objects have ids from 1.
fn counts_from_one(volume: &Volume)
    ensures { images volume.now 0 ≡ Gone }
{
    let _count = volume.live();
    if let Some((id, _)) = volume.at(0) {
        is_from_one(id);
    }
}

fn is_from_one(id: ObjId)
    ensures { 1 ≤ id }
{
    let _number = id.get();
}

// Why a disk isn't opened. One that isn't armed doesn't stop, and a disk that is read refuses no record.
fn fault_of(fault: StoreFault) -> WorldFault
    ensures { result ≡ fault_of fault }
{
    match fault {
        StoreFault::BadDisk(place) => WorldFault::BadDisk(place),
        StoreFault::DiskFailed => WorldFault::DiskFailed,
        StoreFault::DiskStopped => WorldFault::NoMemory,
        StoreFault::Refused(_) => WorldFault::NoMemory,
        StoreFault::NoMemory => WorldFault::NoMemory,
    }
}

// The server starts, and each session that is open ends.
pub(crate) fn world_on<D: CrashDisk>(
    alloc: Global,
    disk: &mut D,
    mut store: Store,
) -> Result<World, WorldFault>
    requires held { D.tells → IsHeld (D.view disk.old) store }
    ensures ok { IfOk result (λ w. machine.open_world (state_of store) ≡ Ok (view_of w)) }
    ensures in_step { IfOk result (λ w. IsInStep D.tells (D.view disk.new) w) }
    ensures err { IfErr result (λ fault. Unstarted fault D.tells (D.view disk.new).may_leave (state_of store)) }
    ensures counts { Counted (D.counts disk.old) (D.counts disk.new) (IsErrOf result fault.DiskFailed) ⊥ }
{
    let made = match started(alloc, disk, &mut store) {
        Ok(made) => made,
        Err(fault) => return Err(fault),
    };
    let (mut server, mut records) = made;
    'clerks: for number in 0..CLERK_COUNT {
        if let Err(fault) = end_numbered(
            alloc,
            disk,
            &mut store,
            &mut server,
            &mut records,
            number,
        ) {
            return Err(fault);
        }
    }
    let Ok(world) = new_world(alloc, store, server, records) else {
        return Err(WorldFault::NoMemory);
    };
    Ok(world)
}

// Ends the session of the clerk of this number, if it's open.
fn end_numbered<D: CrashDisk>(
    alloc: Global,
    disk: &mut D,
    store: &mut Store,
    server: &mut Server,
    records: &mut Trace<Record>,
    number: u8,
) -> Result<(), WorldFault>
    requires clerk { number < clerk_count }
    requires stands { StandsOn (state_of store.old) server.old }
    requires held { D.tells → IsHeld (D.view disk.old) store.old }
    ensures ok { OnOk result (EndsOne number (standing (state_of store.old) server.old) (standing (state_of store.new) server.new) records.old.items records.new.items) }
    ensures held { OnOk result (D.tells → IsHeld (D.view disk.new) store.new) }
    ensures stands { StandsOn (state_of store.new) server.new }
    ensures err { IfErr result (λ fault. IsOfDisk fault) }
    ensures counts { Counted (D.counts disk.old) (D.counts disk.new) (IsErrOf result fault.DiskFailed) ⊥ }
{
    let Some(clerk) = ClerkId::new(number) else {
        unreachable!();
    };
    end_open(alloc, disk, store, server, records, clerk)
}

// Starts a server: with its record.
fn started<D: CrashDisk>(
    alloc: Global,
    disk: &mut D,
    store: &mut Store,
) -> Result<(Server, Trace<Record>), WorldFault>
    requires held { D.tells → IsHeld (D.view disk.old) store.old }
    ensures ok { IfOk result (λ made. Starts (machine_server.start (state_of store.old)) (standing (state_of store.new) made.0) made.1.items) }
    ensures stands { IfOk result (λ made. StandsOn (state_of store.new) made.0) }
    ensures held { OnOk result (D.tells → IsHeld (D.view disk.new) store.new) }
    ensures err { IfErr result (λ fault. Unstarted fault D.tells (D.view disk.new).may_leave (state_of store.old)) }
    ensures counts { Counted (D.counts disk.old) (D.counts disk.new) (IsErrOf result fault.DiskFailed) ⊥ }
{
    let came = match keeping::start(alloc, store, disk, &Trace::new()) {
        Ok(came) => came,
        Err(counter) => return Err(WorldFault::Spent(counter)),
    };
    begun(came)
}

// The server of a start that is done, with its record. A disk that isn't armed doesn't stop.
fn begun(came: Came<(Server, Served)>) -> Result<(Server, Trace<Record>), WorldFault>
    requires { IsMarked came }
    ensures { StartsServer came result }
{
    match came {
        Came::Done(made, mark) => match mark {
            Some(mark) => Ok((made.0, mark.records)),
            None => unreachable!(),
        },
        Came::Stopped(_) => Err(WorldFault::NoMemory),
        Came::DiskFailed => Err(WorldFault::DiskFailed),
        Came::NoMemory => Err(WorldFault::NoMemory),
    }
}

// Ends the clerk's session, if it's open.
fn end_open<D: CrashDisk>(
    alloc: Global,
    disk: &mut D,
    store: &mut Store,
    server: &mut Server,
    records: &mut Trace<Record>,
    clerk: ClerkId,
) -> Result<(), WorldFault>
    requires stands { StandsOn (state_of store.old) server.old }
    requires held { D.tells → IsHeld (D.view disk.old) store.old }
    ensures ok { OnOk result (EndsOne clerk (standing (state_of store.old) server.old) (standing (state_of store.new) server.new) records.old.items records.new.items) }
    ensures held { OnOk result (D.tells → IsHeld (D.view disk.new) store.new) }
    ensures stands { StandsOn (state_of store.new) server.new }
    ensures err { IfErr result (λ fault. IsOfDisk fault) }
    ensures counts { Counted (D.counts disk.old) (D.counts disk.new) (IsErrOf result fault.DiskFailed) ⊥ }
{
    if !is_open(store.view(), clerk) {
        return Ok(());
    }
    let came = match keeping::end(alloc, store, disk, records, server, clerk) {
        Ok(came) => came,
        // without wants nothing is granted, and no number is spent
        Err(_) => return Err(WorldFault::NoMemory),
    };
    keep_records(came, records)
}

// The records behind an end that is done. A disk that isn't armed doesn't stop.
fn keep_records(came: Came<Served>, records: &mut Trace<Record>) -> Result<(), WorldFault>
    ensures { EndsWith came result records.old.items records.new.items }
{
    match came {
        Came::Done(_, mark) => {
            if let Some(mark) = mark {
                *records = mark.records;
            }
            Ok(())
        }
        Came::Stopped(_) => Err(WorldFault::NoMemory),
        Came::DiskFailed => Err(WorldFault::DiskFailed),
        Came::NoMemory => Err(WorldFault::NoMemory),
    }
}

fn is_open(state: &Durable, clerk: ClerkId) -> bool
    ensures { result ≡ slots.is_open (slot state.now clerk) }
{
    match state.sessions.slot(clerk) {
        Some(slot) => slot.is_open,
        None => false,
    }
}

fn new_world(
    alloc: Global,
    store: Store,
    server: Server,
    records: Trace<Record>,
) -> Result<World, NoMemory>
    ensures view { IfOk result (λ w. view_of w ≡ machine.new_world (standing (state_of store) server) records.items) }
    ensures store { IfOk result (λ w. w.store ≡ store) }
    ensures server { IfOk result (λ w. w.server ≡ Some server) }
{
    let (boots, lines) = boots_and_lines(alloc, store.view())?;
    Ok(World {
        store,
        server: Some(server),
        unshown: None,
        choice: Choice::Old,
        clerks: SortedMap::new(alloc),
        boots,
        calls: SortedMap::new(alloc),
        pool: Pool::new(alloc),
        lines,
        records,
        piece: Vec::new(alloc),
        is_broken: false,
    })
}

// What is known of the clerks' starts and of the lines shown, where none was.
fn boots_and_lines(
    alloc: Global,
    state: &Durable,
) -> Result<(SortedMap<ClerkId, u64>, Lines), NoMemory>
    ensures boots { IfOk result (λ made. made.0 ≡ machine.boots_from 0 state.now.sessions) }
    ensures lines { IfOk result (λ made. made.1 ≡ []) }
{
    let boots = boots_of(alloc, state)?;
    Ok((boots, Lines::new(alloc)?))
}

// The last boot of each clerk that had a session.
fn boots_of(alloc: Global, state: &Durable) -> Result<SortedMap<ClerkId, u64>, NoMemory>
    ensures { IfOk result (λ boots. boots ≡ machine.boots_from 0 state.now.sessions) }
{
    let mut boots = SortedMap::new(alloc);
    'clerks: for number in 0..CLERK_COUNT {
        if let Some(clerk) = ClerkId::new(number) {
            if let Some(slot) = state.sessions.slot(clerk) {
                boots.insert(clerk, slot.age.boot)?;
            }
        }
    }
    Ok(boots)
}
