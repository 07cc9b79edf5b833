// What comes out of a clerk's step.
ghost use Rattle.std.specs.Prelude.{◌≡◌, ◌∷◌, [], OnOk};
ghost use Rattle.ec_protocol.specs.World as machine;
ghost use Rattle.ec_world.specs.Worlds.{KeepsServer};
ghost use Rattle.ec_world.specs.StepEnds.{under};

use crate::world::World;
use ec_base::{ClerkId, NoMemory, OpNo};
use ec_clerk::running::take_call;
use ec_history::{Answer, Shown};
use ec_protocol::Out;
use std::alloc::Global;

impl World {
    pub(crate) fn come_out(
        &mut self,
        alloc: Global,
        clerk: ClerkId,
        mut outs: Vec<Out>,
    ) -> Result<(), NoMemory>
        ensures ok { OnOk result (under self.new ≡ machine.come_out clerk outs.items (under self.old)) }
        ensures same { KeepsServer self.old self.new }
    {
        // the next one is taken from the end
        outs.reverse();
        'outs: while let Some(out) = outs.pop() {
            self.come_one(alloc, clerk, out)?;
        }
        Ok(())
    }

    fn come_one(&mut self, alloc: Global, clerk: ClerkId, out: Out) -> Result<(), NoMemory>
        ensures ok { OnOk result (under self.new ≡ machine.come_out clerk (out ∷ []) (under self.old)) }
        ensures same { KeepsServer self.old self.new }
    {
        match out {
            Out::Send(msg) => self.send(clerk, msg),
            Out::Told(ops) => self.show_line(alloc, Shown::Told(clerk, ops)),
            Out::Answer(no, answer, op) => self.show_answer(alloc, clerk, no, answer, op),
            Out::OldBoot(_) => Ok(()),
        }
    }

    fn show_answer(
        &mut self,
        alloc: Global,
        clerk: ClerkId,
        no: u64,
        answer: Answer,
        op: Option<OpNo>,
    ) -> Result<(), NoMemory>
        ensures ok { OnOk result (under self.new ≡ machine.show_answer clerk no answer op (under self.old)) }
        ensures same { KeepsServer self.old self.new }
    {
        match take_call(&mut self.calls, clerk, no)? {
            Some((line, call)) => {
                self.show_line(alloc, Shown::Answered(line, clerk, call, answer, op))
            }
            None => Ok(()),
        }
    }
}
