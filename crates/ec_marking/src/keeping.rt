// A server's steps over the store and its disk, with the mark of the record.
ghost use Rattle.std.specs.Prelude.{◌≡◌, [], None, Ok, IfOk, IfErr, IsTrue};
ghost use Rattle.ec_disk.specs.Effects.{Counted};
ghost use Rattle.ec_wire.specs.Messages.{is_sound};
ghost use Rattle.ec_protocol.specs.Server as machine;
ghost use Rattle.ec_server.specs.Servers.{standing, StandsOn};
ghost use Rattle.ec_store.specs.Store.{IsHeld, view_of};
ghost use Rattle.ec_marking.specs.Keeping.{IsDone, CameOf, Unchanged, Turns, HasMark, IsStop, RunsIn, StopsSo, IfDone, IsMarked};
ghost use Rattle.ec_marking.specs.declared.keeping.Came.TheVariants as came;

use crate::keeper::DiskKeeper;
use crate::marking::{Marking, Marks};
use crate::marks::Mark;
use ec_base::trace::Trace;
use ec_base::{ClerkId, Counter};
use ec_disk::Disk;
use ec_durable::Record;
use ec_protocol::Served;
use ec_server::{Server, ServerFault};
use ec_store::Store;
use ec_wire::Msg;
use std::alloc::Global;

/// What came of a step that spends no counter.
#[derive(Drop)]
pub enum Came<T: Drop> {
    /// With the mark of its record, if it has one.
    Done(T, Option<Mark>),
    /// The disk stopped in this record.
    Stopped(Mark),
    DiskFailed,
    NoMemory,
}

/// A message, and the clerk that sent it.
#[derive(Drop)]
pub struct Letter<'a> {
    pub from: ClerkId,
    pub msg: &'a Msg,
}

/// Takes a sound message of a clerk. A counter that the step would spend changes nothing.
pub fn take<D: Disk>(
    alloc: Global,
    store: &mut Store,
    disk: &mut D,
    records: &Trace<Record>,
    server: &mut Server,
    letter: Letter<'_>,
) -> Result<Came<Served>, Counter>
    requires sound { IsTrue (is_sound letter.msg.now) }
    requires stands { StandsOn (view_of store.old) server.old }
    requires held { D.tells → IsHeld (D.view disk.old) store.old }
    ensures came { let d = view_of store.old in let done = machine.take letter.entry.from letter.entry.msg.now (standing d server.old) in IfOk result (CameOf (IsDone D.tells done d records.now.items server.new store.new (D.view disk.new)) D.tells done d records.now.items (D.view disk.new)) }
    ensures spent { let done = machine.take letter.entry.from letter.entry.msg.now (standing (view_of store.old) server.old) in IfErr result (λ n. Unchanged D.tells done n store.old store.new (D.view disk.new)) }
    ensures same { IfErr result (λ n. standing (view_of store.new) server.new ≡ standing (view_of store.old) server.old) }
    ensures stands { StandsOn (view_of store.new) server.new }
    ensures counts { Counted (D.counts disk.old) (D.counts disk.new) (result ≡ Ok came.DiskFailed) (IsStop result) }
    ensures ran { IfOk result (λ came. RunsIn came (view_of store.old) (view_of store.new) (D.counts disk.old) (D.counts disk.new)) }
    ensures stops { let done = machine.take letter.entry.from letter.entry.msg.now (standing (view_of store.old) server.old) in IfOk result (λ came. StopsSo came D.tells (D.counts disk.old).armed (view_of store.old) done.server.durable (D.view disk.new)) }
{
    let mut marks = Marks {
        mark: None,
        stopped: Trace::new(),
    };
    let mut keeper = Marking {
        alloc,
        keeper: DiskKeeper::new(store, disk),
        records,
        marks: &mut marks,
    };
    take_by(&mut keeper, server, letter.from, letter.msg)
}

// The same, by a keeper over the store and the disk that are lent.
fn take_by<D: Disk>(
    keeper: &mut Marking<'_, '_, D>,
    server: &mut Server,
    from: ClerkId,
    msg: &Msg,
) -> Result<Came<Served>, Counter>
    requires unmarked { keeper.old.marks.now.mark ≡ None }
    requires running { keeper.old.marks.now.stopped.items ≡ [] }
    requires sound { IsTrue (is_sound msg.now) }
    requires stands { StandsOn (view_of keeper.old.keeper.store.now) server.old }
    requires held { D.tells → IsHeld (D.view keeper.old.keeper.disk.now) keeper.old.keeper.store.now }
    ensures store { keeper.new.keeper.store.ghost_name ≡ keeper.old.keeper.store.ghost_name }
    ensures disk { keeper.new.keeper.disk.ghost_name ≡ keeper.old.keeper.disk.ghost_name }
    ensures came { let d = view_of keeper.old.keeper.store.now in let done = machine.take from msg.now (standing d server.old) in let now = D.view keeper.new.keeper.disk.now in let before = keeper.old.records.now.items in IfOk result (CameOf (IsDone D.tells done d before server.new keeper.new.keeper.store.now now) D.tells done d before now) }
    ensures spent { let done = machine.take from msg.now (standing (view_of keeper.old.keeper.store.now) server.old) in IfErr result (λ n. Unchanged D.tells done n keeper.old.keeper.store.now keeper.new.keeper.store.now (D.view keeper.new.keeper.disk.now)) }
    ensures stands { StandsOn (view_of keeper.new.keeper.store.now) server.new }
    ensures same { IfErr result (λ n. standing (view_of keeper.new.keeper.store.now) server.new ≡ standing (view_of keeper.old.keeper.store.now) server.old) }
    ensures counts { Counted (D.counts keeper.old.keeper.disk.now) (D.counts keeper.new.keeper.disk.now) (result ≡ Ok came.DiskFailed) (IsStop result) }
    ensures ran { IfOk result (λ came. RunsIn came (view_of keeper.old.keeper.store.now) (view_of keeper.new.keeper.store.now) (D.counts keeper.old.keeper.disk.now) (D.counts keeper.new.keeper.disk.now)) }
    ensures stops { let done = machine.take from msg.now (standing (view_of keeper.old.keeper.store.now) server.old) in IfOk result (λ came. StopsSo came D.tells (D.counts keeper.old.keeper.disk.now).armed (view_of keeper.old.keeper.store.now) done.server.durable (D.view keeper.new.keeper.disk.now)) }
{
    let answer = server.take(keeper, from, msg);
    turned(answer, keeper.marks.mark.take())
}

/// Ends the clerk's open session.
pub fn end<D: Disk>(
    alloc: Global,
    store: &mut Store,
    disk: &mut D,
    records: &Trace<Record>,
    server: &mut Server,
    clerk: ClerkId,
) -> Result<Came<Served>, Counter>
    requires stands { StandsOn (view_of store.old) server.old }
    requires held { D.tells → IsHeld (D.view disk.old) store.old }
    ensures came { let d = view_of store.old in let done = machine.end clerk (standing d server.old) in IfOk result (CameOf (IsDone D.tells done d records.now.items server.new store.new (D.view disk.new)) D.tells done d records.now.items (D.view disk.new)) }
    ensures spent { let done = machine.end clerk (standing (view_of store.old) server.old) in IfErr result (λ n. Unchanged D.tells done n store.old store.new (D.view disk.new)) }
    ensures same { IfErr result (λ n. standing (view_of store.new) server.new ≡ standing (view_of store.old) server.old) }
    ensures stands { StandsOn (view_of store.new) server.new }
    ensures counts { Counted (D.counts disk.old) (D.counts disk.new) (result ≡ Ok came.DiskFailed) (IsStop result) }
    ensures ran { IfOk result (λ came. RunsIn came (view_of store.old) (view_of store.new) (D.counts disk.old) (D.counts disk.new)) }
    ensures stops { let done = machine.end clerk (standing (view_of store.old) server.old) in IfOk result (λ came. StopsSo came D.tells (D.counts disk.old).armed (view_of store.old) done.server.durable (D.view disk.new)) }
{
    let mut marks = Marks {
        mark: None,
        stopped: Trace::new(),
    };
    let mut keeper = Marking {
        alloc,
        keeper: DiskKeeper::new(store, disk),
        records,
        marks: &mut marks,
    };
    end_by(&mut keeper, server, clerk)
}

// The same, by a keeper over the store and the disk that are lent.
fn end_by<D: Disk>(
    keeper: &mut Marking<'_, '_, D>,
    server: &mut Server,
    clerk: ClerkId,
) -> Result<Came<Served>, Counter>
    requires unmarked { keeper.old.marks.now.mark ≡ None }
    requires running { keeper.old.marks.now.stopped.items ≡ [] }
    requires stands { StandsOn (view_of keeper.old.keeper.store.now) server.old }
    requires held { D.tells → IsHeld (D.view keeper.old.keeper.disk.now) keeper.old.keeper.store.now }
    ensures store { keeper.new.keeper.store.ghost_name ≡ keeper.old.keeper.store.ghost_name }
    ensures disk { keeper.new.keeper.disk.ghost_name ≡ keeper.old.keeper.disk.ghost_name }
    ensures came { let d = view_of keeper.old.keeper.store.now in let done = machine.end clerk (standing d server.old) in let now = D.view keeper.new.keeper.disk.now in let before = keeper.old.records.now.items in IfOk result (CameOf (IsDone D.tells done d before server.new keeper.new.keeper.store.now now) D.tells done d before now) }
    ensures spent { let done = machine.end clerk (standing (view_of keeper.old.keeper.store.now) server.old) in IfErr result (λ n. Unchanged D.tells done n keeper.old.keeper.store.now keeper.new.keeper.store.now (D.view keeper.new.keeper.disk.now)) }
    ensures stands { StandsOn (view_of keeper.new.keeper.store.now) server.new }
    ensures same { IfErr result (λ n. standing (view_of keeper.new.keeper.store.now) server.new ≡ standing (view_of keeper.old.keeper.store.now) server.old) }
    ensures counts { Counted (D.counts keeper.old.keeper.disk.now) (D.counts keeper.new.keeper.disk.now) (result ≡ Ok came.DiskFailed) (IsStop result) }
    ensures ran { IfOk result (λ came. RunsIn came (view_of keeper.old.keeper.store.now) (view_of keeper.new.keeper.store.now) (D.counts keeper.old.keeper.disk.now) (D.counts keeper.new.keeper.disk.now)) }
    ensures stops { let done = machine.end clerk (standing (view_of keeper.old.keeper.store.now) server.old) in IfOk result (λ came. StopsSo came D.tells (D.counts keeper.old.keeper.disk.now).armed (view_of keeper.old.keeper.store.now) done.server.durable (D.view keeper.new.keeper.disk.now)) }
{
    let answer = server.end(keeper, clerk);
    turned(answer, keeper.marks.mark.take())
}

/// Starts a server.
pub fn start<D: Disk>(
    alloc: Global,
    store: &mut Store,
    disk: &mut D,
    records: &Trace<Record>,
) -> Result<Came<(Server, Served)>, Counter>
    requires held { D.tells → IsHeld (D.view disk.old) store.old }
    ensures came { let d = view_of store.old in let done = machine.start d in IfOk result (CameOf (λ made. IsDone D.tells done d records.now.items made.0 store.new (D.view disk.new) made.1) D.tells done d records.now.items (D.view disk.new)) }
    ensures spent { IfErr result (λ n. Unchanged D.tells (machine.start (view_of store.old)) n store.old store.new (D.view disk.new)) }
    ensures marked { IfOk result IsMarked }
    ensures stands { IfOk result (λ came. IfDone came (λ made. StandsOn (view_of store.new) made.0)) }
    ensures counts { Counted (D.counts disk.old) (D.counts disk.new) (result ≡ Ok came.DiskFailed) (IsStop result) }
    ensures ran { IfOk result (λ came. RunsIn came (view_of store.old) (view_of store.new) (D.counts disk.old) (D.counts disk.new)) }
    ensures stops { let done = machine.start (view_of store.old) in IfOk result (λ came. StopsSo came D.tells (D.counts disk.old).armed (view_of store.old) done.server.durable (D.view disk.new)) }
{
    let mut marks = Marks {
        mark: None,
        stopped: Trace::new(),
    };
    let mut keeper = Marking {
        alloc,
        keeper: DiskKeeper::new(store, disk),
        records,
        marks: &mut marks,
    };
    start_by(alloc, &mut keeper)
}

// The same, by a keeper over the store and the disk that are lent.
fn start_by<D: Disk>(
    alloc: Global,
    keeper: &mut Marking<'_, '_, D>,
) -> Result<Came<(Server, Served)>, Counter>
    requires unmarked { keeper.old.marks.now.mark ≡ None }
    requires running { keeper.old.marks.now.stopped.items ≡ [] }
    requires held { D.tells → IsHeld (D.view keeper.old.keeper.disk.now) keeper.old.keeper.store.now }
    ensures store { keeper.new.keeper.store.ghost_name ≡ keeper.old.keeper.store.ghost_name }
    ensures disk { keeper.new.keeper.disk.ghost_name ≡ keeper.old.keeper.disk.ghost_name }
    ensures came { let d = view_of keeper.old.keeper.store.now in let done = machine.start d in let now = D.view keeper.new.keeper.disk.now in let before = keeper.old.records.now.items in IfOk result (CameOf (λ made. IsDone D.tells done d before made.0 keeper.new.keeper.store.now now made.1) D.tells done d before now) }
    ensures spent { let done = machine.start (view_of keeper.old.keeper.store.now) in IfErr result (λ n. Unchanged D.tells done n keeper.old.keeper.store.now keeper.new.keeper.store.now (D.view keeper.new.keeper.disk.now)) }
    ensures marked { IfOk result IsMarked }
    ensures stands { IfOk result (λ came. IfDone came (λ made. StandsOn (view_of keeper.new.keeper.store.now) made.0)) }
    ensures counts { Counted (D.counts keeper.old.keeper.disk.now) (D.counts keeper.new.keeper.disk.now) (result ≡ Ok came.DiskFailed) (IsStop result) }
    ensures ran { IfOk result (λ came. RunsIn came (view_of keeper.old.keeper.store.now) (view_of keeper.new.keeper.store.now) (D.counts keeper.old.keeper.disk.now) (D.counts keeper.new.keeper.disk.now)) }
    ensures stops { let done = machine.start (view_of keeper.old.keeper.store.now) in IfOk result (λ came. StopsSo came D.tells (D.counts keeper.old.keeper.disk.now).armed (view_of keeper.old.keeper.store.now) done.server.durable (D.view keeper.new.keeper.disk.now)) }
{
    let answer = Server::start(alloc, keeper);
    turned(answer, keeper.marks.mark.take())
}

// A server's answer, with the mark. A record in which the disk stopped has one.
fn turned<T: Drop>(answer: Result<T, ServerFault>, mark: Option<Mark>) -> Result<Came<T>, Counter>
    requires { HasMark answer mark }
    ensures { Turns answer mark result }
{
    match answer {
        Ok(done) => Ok(Came::Done(done, mark)),
        Err(ServerFault::Spent(counter)) => Err(counter),
        Err(ServerFault::DiskFailed) => Ok(Came::DiskFailed),
        Err(ServerFault::DiskStopped) => match mark {
            Some(mark) => Ok(Came::Stopped(mark)),
            None => unreachable!(),
        },
        Err(ServerFault::NoMemory) => Ok(Came::NoMemory),
    }
}
