// A line is carried out: its event happens, and then the world settles.
ghost use Rattle.std.specs.Prelude.{◌≡◌, ◌⊎◌, ◌++◌, [], ◌∷◌, ℕ, Bool, false, Err, IsSome, OnErr, OnOk};
ghost use Rattle.ec_protocol.specs.World.{Fate, happen};
ghost use Rattle.ec_protocol.specs.Drill.{Fates, onward, line_happens, settle, carry_out};
ghost use Rattle.ec_protocol.specs.declared.world.WorldFault.TheVariants as fault;
ghost use Rattle.ec_world.specs.Worlds.{view_of, IsInStep, KeepsServer};
ghost use Rattle.ec_world.specs.StepEnds.{IsTold, IsLeft, armed_by};
ghost use Rattle.ec_drill.specs.Script.{machine_line};
ghost use Rattle.ec_drill.specs.Arms.{ArmBy, SettleArms, LineArms, armed_at, is_arm};
ghost use Rattle.ec_drill.specs.ArmedSteps.{IsCalm, heard, is_arming};
ghost use Rattle.ec_drill.specs.Fates.{IsKnown};
ghost use Rattle.ec_drill.specs.Left.{EachLeft};
ghost use Rattle.ec_drill.specs.Steps.{going, ComesTo, StaysBut, IsLater, Fares, AreOfLine, IsSettling, IsCarrying};

use crate::event::event_of;
use ec_base::NoMemory;
use ec_disk::CrashDisk;
use ec_history::Shown;
use ec_protocol::{Event, WorldFault};
use ec_script::Line;
use ec_world::World;
use std::alloc::Global;

/// With what a run carries out its lines: memory, and at most so many messages that are delivered behind each.
#[derive(Clone, Copy, Drop)]
pub(crate) struct Means {
    pub alloc: Global,
    pub bound: u64,
}

/// Carries out the line of this number, and adds the lines that it shows to the piece.
pub(crate) fn carry_out<D: CrashDisk>(
    means: Means,
    world: &mut World,
    disk: &mut D,
    number: u32,
    line: Line,
    piece: &mut Vec<Shown>,
) -> Result<(), WorldFault>
    requires in_step { IsInStep D.tells (D.view disk.old) world.old }
    requires empty { piece.old.items ≡ [] }
    ensures carried { (may_stop : Bool) → IsCalm may_stop (is_arm (machine_line line)) (D.counts disk.old)
        → (fates : Fates) × AreOfLine fates (heard may_stop (D.counts disk.old)) (heard may_stop (D.counts disk.new))
        × (IsKnown D.tells (heard may_stop (D.counts disk.old)).stops (heard may_stop (D.counts disk.new)).stops
        → ComesTo result (carry_out means.bound fates number (machine_line line) (view_of world.old)) (view_of world.new) piece.new.items)
        × OnErr result (D.tells → EachLeft (D.view disk.new) (IsCarrying means.bound fates number (machine_line line) (view_of world.old)))
        × OnOk result (IsKnown D.tells (heard may_stop (D.counts disk.old)).stops (heard may_stop (D.counts disk.new)).stops
        → LineArms means.bound fates number (machine_line line) (view_of world.old) (D.counts disk.old).armed (D.counts disk.new).armed) }
    ensures in_step { StaysBut result (IsInStep D.tells (D.view disk.new) world.new) }
    ensures counts { IsLater (D.counts disk.old) (D.counts disk.new) (result ≡ Err fault.DiskFailed) }
    ensures quiet { is_arm (machine_line line) ≡ false → IsSome (D.counts disk.new).armed → IsSome (D.counts disk.old).armed }
{
    if let Err(fault) = begin(means.alloc, world, disk, number, line, piece) {
        return Err(fault);
    }
    settle(means.alloc, world, disk, means.bound, piece)
}

// The event of a line.
fn begin<D: CrashDisk>(
    alloc: Global,
    world: &mut World,
    disk: &mut D,
    number: u32,
    line: Line,
    piece: &mut Vec<Shown>,
) -> Result<(), WorldFault>
    requires in_step { IsInStep D.tells (D.view disk.old) world.old }
    requires empty { piece.old.items ≡ [] }
    ensures begun { (fate : Fate) × Fares fate (D.counts disk.old) (D.counts disk.new)
        × (IsTold fate D.tells
        → ComesTo result (onward (going (view_of world.old) []) (line_happens fate number (machine_line line) (view_of world.old))) (view_of world.new) piece.new.items)
        × OnErr result (D.tells → EachLeft (D.view disk.new) (IsLeft (view_of world.old).durable (line_happens fate number (machine_line line) (view_of world.old))))
        × OnOk result (IsTold fate D.tells → ArmBy fate (view_of world.old) (view_of world.new) (armed_at (machine_line line) (D.counts disk.old).armed) (D.counts disk.new).armed) }
    ensures in_step { StaysBut result (IsInStep D.tells (D.view disk.new) world.new) }
    ensures counts { IsLater (D.counts disk.old) (D.counts disk.new) (result ≡ Err fault.DiskFailed) }
    ensures quiet { is_arm (machine_line line) ≡ false → IsSome (D.counts disk.new).armed → IsSome (D.counts disk.old).armed }
{
    match event_of(world, number, line) {
        Ok(Some(event)) => step(alloc, world, disk, event, piece),
        Ok(None) => Ok(()),
        Err(fault) => Err(fault),
    }
}

// Delivers the least message that can be delivered, again and again, at most so many times.
fn settle<D: CrashDisk>(
    alloc: Global,
    world: &mut World,
    disk: &mut D,
    bound: u64,
    piece: &mut Vec<Shown>,
) -> Result<(), WorldFault>
    requires { IsInStep D.tells (D.view disk.old) world.old }
    ensures settled { (may_stop : Bool) → IsCalm may_stop false (D.counts disk.old)
        → (fates : Fates) × AreOfLine fates (heard may_stop (D.counts disk.old)) (heard may_stop (D.counts disk.new))
        × (IsKnown D.tells (heard may_stop (D.counts disk.old)).stops (heard may_stop (D.counts disk.new)).stops
        → ComesTo result (settle bound fates (going (view_of world.old) piece.old.items)) (view_of world.new) piece.new.items)
        × OnErr result (D.tells → EachLeft (D.view disk.new) (IsSettling bound fates (going (view_of world.old) piece.old.items)))
        × OnOk result (IsKnown D.tells (heard may_stop (D.counts disk.old)).stops (heard may_stop (D.counts disk.new)).stops
        → SettleArms bound fates (going (view_of world.old) piece.old.items) (D.counts disk.old).armed (D.counts disk.new).armed) }
    ensures in_step { StaysBut result (IsInStep D.tells (D.view disk.new) world.new) }
    ensures counts { IsLater (D.counts disk.old) (D.counts disk.new) (result ≡ Err fault.DiskFailed) }
    ensures quiet { IsSome (D.counts disk.new).armed → IsSome (D.counts disk.old).armed }
{
    let mut left = bound;
    'settling: while left > 0 {
        let Some(number) = world.due() else {
            return Ok(());
        };
        if let Err(fault) = step(alloc, world, disk, Event::Deliver(number), piece) {
            return Err(fault);
        }
        left -= 1;
    }
    end_settling(alloc, world, piece)
}

// Nothing more is due, or the line is shown to be unsettled.
fn end_settling(alloc: Global, world: &mut World, piece: &mut Vec<Shown>) -> Result<(), WorldFault>
    ensures rested { ComesTo result (settle 0 [] (going (view_of world.old) piece.old.items)) (view_of world.new) piece.new.items }
    ensures same { KeepsServer world.old world.new }
    ensures no_fault { result ≡ Err fault.DiskFailed → ⊥ }
{
    let Some(_) = world.due() else {
        return Ok(());
    };
    let Ok(line) = world.show_unsettled(alloc) else {
        return Err(WorldFault::NoMemory);
    };
    match add(piece, line) {
        Ok(()) => Ok(()),
        Err(NoMemory) => Err(WorldFault::NoMemory),
    }
}

// One step of the world, whose lines are added to the piece.
fn step<D: CrashDisk>(
    alloc: Global,
    world: &mut World,
    disk: &mut D,
    event: Event,
    piece: &mut Vec<Shown>,
) -> Result<(), WorldFault>
    requires { IsInStep D.tells (D.view disk.old) world.old }
    ensures stepped { (fate : Fate) × Fares fate (D.counts disk.old) (D.counts disk.new)
        × (IsTold fate D.tells
        → ComesTo result (onward (going (view_of world.old) piece.old.items) (happen fate event (view_of world.old))) (view_of world.new) piece.new.items)
        × OnErr result (D.tells → EachLeft (D.view disk.new) (IsLeft (view_of world.old).durable (happen fate event (view_of world.old))))
        × OnOk result (IsTold fate D.tells → ArmBy fate (view_of world.old) (view_of world.new) (armed_by event (D.counts disk.old).armed) (D.counts disk.new).armed) }
    ensures in_step { StaysBut result (IsInStep D.tells (D.view disk.new) world.new) }
    ensures counts { IsLater (D.counts disk.old) (D.counts disk.new) (result ≡ Err fault.DiskFailed) }
    ensures quiet { is_arming event ≡ false → IsSome (D.counts disk.new).armed → IsSome (D.counts disk.old).armed }
{
    let lines = match world.step(alloc, disk, event) {
        Ok(lines) => lines,
        Err(fault) => return Err(fault),
    };
    'adding: for line in lines {
        if let Err(NoMemory) = add(piece, line) {
            return Err(WorldFault::NoMemory);
        }
    }
    Ok(())
}

fn add(piece: &mut Vec<Shown>, line: Shown) -> Result<(), NoMemory>
    ensures { OnOk result (piece.new.items ≡ piece.old.items ++ line ∷ []) }
{
    piece.push(line)?;
    Ok(())
}
