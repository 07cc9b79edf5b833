// A line is carried out: its event happens, and then the world settles.
ghost use Rattle.std.specs.Prelude.{◌≡◌, ◌≤◌, ◌⊎◌, ◌*◌, ◌++◌, [], ◌∷◌, List, None, IfOk, IfErr, OnOk, Err};
ghost use Rattle.ec_protocol.specs.World.{Fate};
ghost use Rattle.ec_protocol.specs.Drill.{Fates};
ghost use Rattle.ec_protocol.specs.declared.world.WorldFault.TheVariants as world_fault;
ghost use Rattle.ec_lease_machine.specs.Drill.{carry_out, delivered, due_now, line_happens, renewed, settle};
ghost use Rattle.ec_lease_machine.specs.Leases.{step as stepped};
ghost use Rattle.ec_lease_machine.specs.declared.world.LeaseFault.TheVariants as lease_fault;
ghost use Rattle.ec_lease_machine.specs.declared.world.LeaseShown.{LeaseShown as Shows};
ghost use Rattle.ec_lease.specs.Steps.{MayStep, most_tick};
ghost use Rattle.ec_lease.specs.Worlds.{ClocksGoOn, IsInStep, KeepsServer, ticks, under_way, leased};
ghost use Rattle.ec_lease.specs.OfDrill.Drill.{IsClear};
ghost use Rattle.ec_lease.specs.OfDrill.Lines.{IsTimed};
ghost use Rattle.ec_lease.specs.OfDrill.Script.{machine_lease};
ghost use Rattle.ec_lease.specs.OfDrill.Steps.{Advances, AreLater, AreRun, IsAsMachine, RanUnless, come, fault_in};

use crate::drill::event::event_of;
use crate::world::LeaseWorld;
use ec_base::NoMemory;
use ec_disk::CrashDisk;
use ec_lease_machine::words::LeaseLine;
use ec_lease_machine::{LeaseEvent, LeaseFault, LeaseShown};
use ec_protocol::Event;
use std::alloc::Global;

/// With what a run carries out its lines: memory, and at most so many messages that are delivered behind each.
#[derive(Clone, Copy, Drop)]
pub(crate) struct Means {
    pub alloc: Global,
    pub bound: u64,
}

/// Carries out the line of this number, and adds the lines that it shows to the piece.
pub(crate) fn carry_out<D: CrashDisk>(
    means: Means,
    world: &mut LeaseWorld,
    disk: &mut D,
    number: u32,
    line: LeaseLine,
    piece: &mut Vec<LeaseShown>,
) -> Result<(), LeaseFault>
    requires in_step { IsInStep D.tells (D.view disk.old) world.old }
    requires empty { piece.old.items ≡ [] }
    requires timed { IsTimed (leased world.old).most (machine_lease line) }
    requires early { (leased world.old).now ≤ number * most_tick }
    ensures carried { (fates : Fates) × AreRun fates (D.counts disk.old).stops (D.counts disk.new).stops
        × (IsAsMachine result → IsClear D.tells (D.counts disk.old).stops (D.counts disk.new).stops
        → carry_out means.bound fates number (machine_lease line) (leased world.old) ≡ come (fault_in result) (leased world.new) piece.new.items) }
    ensures in_step { IsAsMachine result → IsInStep D.tells (D.view disk.new) world.new }
    ensures time { OnOk result (Advances (leased world.old) (leased world.new)) }
    ensures counts { AreLater (D.counts disk.old) (D.counts disk.new) (result ≡ Err (lease_fault.World world_fault.DiskFailed)) }
{
    if let Err(fault) = begin(means.alloc, world, disk, number, line, piece) {
        return Err(fault);
    }
    if let Err(fault) = renew(means.alloc, world, disk, piece) {
        return Err(fault);
    }
    settle(means, world, disk, piece)
}

// The event of a line.
fn begin<D: CrashDisk>(
    alloc: Global,
    world: &mut LeaseWorld,
    disk: &mut D,
    number: u32,
    line: LeaseLine,
    piece: &mut Vec<LeaseShown>,
) -> Result<(), LeaseFault>
    requires in_step { IsInStep D.tells (D.view disk.old) world.old }
    requires empty { piece.old.items ≡ [] }
    requires timed { IsTimed (leased world.old).most (machine_lease line) }
    requires early { (leased world.old).now ≤ number * most_tick }
    ensures begun { (fate : Fate) × RanUnless fate (D.counts disk.old).stops (D.counts disk.new).stops
        × (IsAsMachine result → IsClear D.tells (D.counts disk.old).stops (D.counts disk.new).stops
        → line_happens fate number (machine_lease line) (leased world.old) ≡ come (fault_in result) (leased world.new) piece.new.items) }
    ensures in_step { IsAsMachine result → IsInStep D.tells (D.view disk.new) world.new }
    ensures time { OnOk result (Advances (leased world.old) (leased world.new)) }
    ensures counts { AreLater (D.counts disk.old) (D.counts disk.new) (result ≡ Err (lease_fault.World world_fault.DiskFailed)) }
{
    match event_of(world, number, line) {
        Ok(Some(event)) => step(alloc, world, disk, event, piece),
        Ok(None) => Ok(()),
        Err(fault) => Err(fault),
    }
}

// Delivers the least message that can be delivered and isn't kept from a held clerk, again and again, at most so many times. Leases are renewed
// after each.
fn settle<D: CrashDisk>(
    means: Means,
    world: &mut LeaseWorld,
    disk: &mut D,
    piece: &mut Vec<LeaseShown>,
) -> Result<(), LeaseFault>
    requires { IsInStep D.tells (D.view disk.old) world.old }
    ensures settled { (fates : Fates) × AreRun fates (D.counts disk.old).stops (D.counts disk.new).stops
        × (IsAsMachine result → IsClear D.tells (D.counts disk.old).stops (D.counts disk.new).stops
        → settle means.bound fates (come None (leased world.old) piece.old.items) ≡ come (fault_in result) (leased world.new) piece.new.items) }
    ensures in_step { IsAsMachine result → IsInStep D.tells (D.view disk.new) world.new }
    ensures time { OnOk result (ClocksGoOn 0 (leased world.old) (leased world.new)) }
    ensures counts { AreLater (D.counts disk.old) (D.counts disk.new) (result ≡ Err (lease_fault.World world_fault.DiskFailed)) }
{
    let mut left = means.bound;
    'settling: while left > 0 {
        let found = match due(means.alloc, world) {
            Ok(found) => found,
            Err(fault) => return Err(fault),
        };
        let Some(number) = found else {
            return Ok(());
        };
        if let Err(fault) = deliver(means.alloc, world, disk, number, piece) {
            return Err(fault);
        }
        left -= 1;
    }
    end_settling(means.alloc, world, piece)
}

fn deliver<D: CrashDisk>(
    alloc: Global,
    world: &mut LeaseWorld,
    disk: &mut D,
    number: u64,
    piece: &mut Vec<LeaseShown>,
) -> Result<(), LeaseFault>
    requires { IsInStep D.tells (D.view disk.old) world.old }
    ensures delivered { (fate : Fate) × RanUnless fate (D.counts disk.old).stops (D.counts disk.new).stops
        × (IsAsMachine result → IsClear D.tells (D.counts disk.old).stops (D.counts disk.new).stops
        → delivered fate number (come None (leased world.old) piece.old.items) ≡ come (fault_in result) (leased world.new) piece.new.items) }
    ensures in_step { IsAsMachine result → IsInStep D.tells (D.view disk.new) world.new }
    ensures time { OnOk result (ClocksGoOn 0 (leased world.old) (leased world.new)) }
    ensures counts { AreLater (D.counts disk.old) (D.counts disk.new) (result ≡ Err (lease_fault.World world_fault.DiskFailed)) }
{
    let event = LeaseEvent::World(Event::Deliver(number));
    if let Err(fault) = step(alloc, world, disk, event, piece) {
        return Err(fault);
    }
    renew(alloc, world, disk, piece)
}

// Each clerk that can get a later Lease is issued one and receives it.
fn renew<D: CrashDisk>(
    alloc: Global,
    world: &mut LeaseWorld,
    disk: &mut D,
    piece: &mut Vec<LeaseShown>,
) -> Result<(), LeaseFault>
    requires { IsInStep D.tells (D.view disk.old) world.old }
    ensures renewed { IsAsMachine result → IsClear D.tells (D.counts disk.old).stops (D.counts disk.new).stops
        → renewed (come None (leased world.old) piece.old.items) ≡ come (fault_in result) (leased world.new) piece.new.items }
    ensures in_step { IsAsMachine result → IsInStep D.tells (D.view disk.new) world.new }
    ensures time { OnOk result (ClocksGoOn 0 (leased world.old) (leased world.new)) }
    ensures counts { AreLater (D.counts disk.old) (D.counts disk.new) (result ≡ Err (lease_fault.World world_fault.DiskFailed)) }
{
    step(alloc, world, disk, LeaseEvent::Renew, piece)
}

fn due(alloc: Global, world: &LeaseWorld) -> Result<Option<u64>, LeaseFault>
    ensures ok { IfOk result (λ number. number ≡ due_now (leased world.now)) }
    ensures err { IfErr result (λ f. f ≡ lease_fault.NoMemory) }
{
    match world.due(alloc) {
        Ok(due) => Ok(due),
        Err(NoMemory) => Err(LeaseFault::NoMemory),
    }
}

// Nothing more is due, or the line is shown to be unsettled.
fn end_settling(
    alloc: Global,
    world: &mut LeaseWorld,
    piece: &mut Vec<LeaseShown>,
) -> Result<(), LeaseFault>
    ensures rested { IsAsMachine result → settle 0 [] (come None (leased world.old) piece.old.items) ≡ come (fault_in result) (leased world.new) piece.new.items }
    ensures same { KeepsServer world.old world.new }
    ensures time { OnOk result (ClocksGoOn 0 (leased world.old) (leased world.new)) }
    ensures no_fault { result ≡ Err (lease_fault.World world_fault.DiskFailed) → ⊥ }
{
    let found = match due(alloc, world) {
        Ok(found) => found,
        Err(fault) => return Err(fault),
    };
    let Some(_) = found else {
        return Ok(());
    };
    let Ok(line) = world.show_unsettled(alloc) else {
        return Err(LeaseFault::NoMemory);
    };
    add(piece, line)
}

// One step of the world, whose lines are added to the piece: also those that it showed before a queued call would have spent a counter.
fn step<D: CrashDisk>(
    alloc: Global,
    world: &mut LeaseWorld,
    disk: &mut D,
    event: LeaseEvent,
    piece: &mut Vec<LeaseShown>,
) -> Result<(), LeaseFault>
    requires in_step { IsInStep D.tells (D.view disk.old) world.old }
    requires may { MayStep (leased world.old) event }
    ensures stepped { (fate : Fate) × RanUnless fate (D.counts disk.old).stops (D.counts disk.new).stops
        × (IsAsMachine result → (lines : List Shows) × (piece.new.items ≡ piece.old.items ++ lines)
        × (IsClear D.tells (D.counts disk.old).stops (D.counts disk.new).stops → stepped fate event (leased world.old) ≡ come (fault_in result) (leased world.new) lines)) }
    ensures in_step { IsAsMachine result → IsInStep D.tells (D.view disk.new) world.new }
    ensures time { OnOk result (ClocksGoOn (ticks event) (leased world.old) (leased world.new)) }
    ensures counts { AreLater (D.counts disk.old) (D.counts disk.new) (result ≡ Err (lease_fault.World world_fault.DiskFailed)) }
{
    match world.step(alloc, disk, event) {
        Ok(lines) => add_all(piece, lines),
        Err(fault) => Err(end_early(alloc, world, piece, fault)),
    }
}

// Adds what a step showed that ended early with this fault.
fn end_early(
    alloc: Global,
    world: &mut LeaseWorld,
    piece: &mut Vec<LeaseShown>,
    fault: LeaseFault,
) -> LeaseFault
    ensures added { ((result ≡ fault) × (piece.new.items ≡ piece.old.items ++ (under_way world.old).shown)) ⊎ (result ≡ lease_fault.NoMemory) }
    ensures view { leased world.new ≡ leased world.old }
    ensures same { KeepsServer world.old world.new }
{
    match add_all(piece, world.shown_before(alloc)) {
        Ok(()) => fault,
        Err(wanting) => wanting,
    }
}

fn add_all(piece: &mut Vec<LeaseShown>, lines: Vec<LeaseShown>) -> Result<(), LeaseFault>
    ensures ok { OnOk result (piece.new.items ≡ piece.old.items ++ lines.items) }
    ensures err { IfErr result (λ f. f ≡ lease_fault.NoMemory) }
{
    'adding: for line in lines {
        if let Err(fault) = add(piece, line) {
            return Err(fault);
        }
    }
    Ok(())
}

fn add(piece: &mut Vec<LeaseShown>, line: LeaseShown) -> Result<(), LeaseFault>
    ensures ok { OnOk result (piece.new.items ≡ piece.old.items ++ line ∷ []) }
    ensures err { IfErr result (λ f. f ≡ lease_fault.NoMemory) }
{
    match piece.push(line) {
        Ok(()) => Ok(()),
        Err(_) => Err(LeaseFault::NoMemory),
    }
}
