// The event of a line.
ghost use Rattle.std.specs.Prelude.{◌≡◌, ℕ, MatchResult, Option};
ghost use Rattle.ec_protocol.specs.World.{Fate, fails};
ghost use Rattle.ec_protocol.specs.Drill.{line_happens};
ghost use Rattle.ec_protocol.specs.declared.world.WorldFault.TheVariants as fault;
ghost use Rattle.ec_world.specs.Worlds.{view_of};
ghost use Rattle.ec_drill.specs.Script.{machine_line};
ghost use Rattle.ec_drill.specs.Lines.{happens, IsNothing};
ghost use Rattle.ec_drill.specs.Arms.{armed_at, is_arm};
ghost use Rattle.ec_drill.specs.ArmedSteps.{armed_for, arms};

use ec_protocol::{Event, WorldFault};
use ec_script::Line;
use ec_world::World;

/// What a line asks of the world: an event, or nothing. The number of a call is that of its line.
pub(crate) fn event_of(world: &World, number: u32, line: Line) -> Result<Option<Event>, WorldFault>
    ensures arms { MatchResult result (λ event. arms event ≡ is_arm (machine_line line)) (λ f. Unit {0}) }
    ensures starts { MatchResult result (λ event. (armed : Option ℕ) → armed_for event armed ≡ armed_at (machine_line line) armed) (λ f. Unit {0}) }
    ensures happens { MatchResult result
        (λ event. (fate : Fate) → line_happens fate number (machine_line line) (view_of world.now) ≡ happens fate event (view_of world.now))
        (λ f. IsNothing f × ((fate : Fate) → line_happens fate number (machine_line line) (view_of world.now) ≡ fails fault.NoSuchMsg (view_of world.now))) }
{
    match line {
        Line::Comment => Ok(None),
        Line::Call(clerk, call) => Ok(Some(Event::Call(clerk, number, call))),
        Line::Push(clerk, op) => Ok(Some(Event::Push(clerk, op))),
        Line::Cut(clerk) => Ok(Some(Event::Cut(clerk))),
        Line::Uncut(clerk) => Ok(Some(Event::Uncut(clerk))),
        Line::Drop(clerk, kind, nth) => match world.find(clerk, kind, nth) {
            Some(message) => Ok(Some(Event::Drop(message))),
            None => Err(WorldFault::NoSuchMsg),
        },
        Line::Repeat(clerk, kind, nth) => match world.find(clerk, kind, nth) {
            Some(message) => Ok(Some(Event::Repeat(message))),
            None => Err(WorldFault::NoSuchMsg),
        },
        Line::Deliver(clerk, kind, nth) => match world.find(clerk, kind, nth) {
            Some(message) => Ok(Some(Event::Deliver(message))),
            None => Err(WorldFault::NoSuchMsg),
        },
        Line::Resend(clerk) => Ok(Some(Event::Resend(clerk))),
        Line::Crash(clerk) => Ok(Some(Event::Crash(clerk))),
        Line::End(clerk) => Ok(Some(Event::End(clerk))),
        Line::Stop => Ok(Some(Event::Stop)),
        Line::Arm(calls, choice) => Ok(Some(Event::Arm(calls, choice))),
        Line::Restart => Ok(Some(Event::Restart)),
    }
}
