// The event of a line.
ghost use Rattle.std.specs.Prelude.{◌≡◌, IfErr, MatchResult};
ghost use Rattle.ec_protocol.specs.World.{Fate};
ghost use Rattle.ec_protocol.specs.declared.world.WorldFault.TheVariants as world_fault;
ghost use Rattle.ec_lease_machine.specs.Drill.{drill_line, line_happens};
ghost use Rattle.ec_lease_machine.specs.Leases.{fails};
ghost use Rattle.ec_lease_machine.specs.declared.world.LeaseFault.TheVariants as fault;
ghost use Rattle.ec_lease.specs.Worlds.{leased};
ghost use Rattle.ec_lease.specs.OfDrill.Script.{machine_line, machine_lease};
ghost use Rattle.ec_lease.specs.OfDrill.Steps.{MayFollow, happens, world_event};

use crate::world::LeaseWorld;
use ec_lease_machine::words::LeaseLine;
use ec_lease_machine::{LeaseEvent, LeaseFault};
use ec_protocol::{Event, WorldFault};
use ec_script::Line;

/// What a line asks of the world: an event, or nothing. The number of a call is that of its line.
pub(crate) fn event_of(
    world: &LeaseWorld,
    number: u32,
    line: LeaseLine,
) -> Result<Option<LeaseEvent>, LeaseFault>
    ensures happens { MatchResult result
        (λ event. (fate : Fate) → line_happens fate number (machine_lease line) (leased world.now) ≡ happens fate event (leased world.now))
        (λ f. (fate : Fate) → line_happens fate number (machine_lease line) (leased world.now) ≡ fails f (leased world.now)) }
    ensures none { IfErr result (λ f. f ≡ fault.World world_fault.NoSuchMsg) }
    ensures may { MatchResult result (MayFollow (leased world.now) (machine_lease line)) (λ f. Unit {0}) }
{
    match line {
        LeaseLine::Drill(line) => match event_of_drill(world, number, line) {
            Ok(Some(event)) => Ok(Some(LeaseEvent::World(event))),
            Ok(None) => Ok(None),
            Err(fault) => Err(LeaseFault::World(fault)),
        },
        LeaseLine::Tick(ticks) => Ok(Some(LeaseEvent::Tick(ticks))),
        LeaseLine::Skew(clerk, skew) => Ok(Some(LeaseEvent::Skew(clerk, skew))),
        LeaseLine::Grant(clerk) => Ok(Some(LeaseEvent::Grant(clerk))),
        LeaseLine::Hand(clerk, nth) => Ok(Some(LeaseEvent::Hand(clerk, nth))),
    }
}

fn event_of_drill(world: &LeaseWorld, number: u32, line: Line) -> Result<Option<Event>, WorldFault>
    ensures none { IfErr result (λ f. f ≡ world_fault.NoSuchMsg) }
    ensures happens { MatchResult result
        (λ event. (fate : Fate) → drill_line fate number (machine_line line) (leased world.now) ≡ happens fate (world_event event) (leased world.now))
        (λ f. (fate : Fate) → drill_line fate number (machine_line line) (leased world.now) ≡ fails (fault.World f) (leased world.now)) }
{
    match line {
        Line::Comment => Ok(None),
        Line::Call(clerk, call) => Ok(Some(Event::Call(clerk, number, call))),
        Line::Push(clerk, op) => Ok(Some(Event::Push(clerk, op))),
        Line::Cut(clerk) => Ok(Some(Event::Cut(clerk))),
        Line::Uncut(clerk) => Ok(Some(Event::Uncut(clerk))),
        Line::Drop(clerk, kind, nth) => match world.find(clerk, kind, nth) {
            Some(message) => Ok(Some(Event::Drop(message))),
            None => Err(WorldFault::NoSuchMsg),
        },
        Line::Repeat(clerk, kind, nth) => match world.find(clerk, kind, nth) {
            Some(message) => Ok(Some(Event::Repeat(message))),
            None => Err(WorldFault::NoSuchMsg),
        },
        Line::Deliver(clerk, kind, nth) => match world.find(clerk, kind, nth) {
            Some(message) => Ok(Some(Event::Deliver(message))),
            None => Err(WorldFault::NoSuchMsg),
        },
        Line::Resend(clerk) => Ok(Some(Event::Resend(clerk))),
        Line::Crash(clerk) => Ok(Some(Event::Crash(clerk))),
        Line::End(clerk) => Ok(Some(Event::End(clerk))),
        Line::Stop => Ok(Some(Event::Stop)),
        Line::Arm(calls, choice) => Ok(Some(Event::Arm(calls, choice))),
        Line::Restart => Ok(Some(Event::Restart)),
    }
}
