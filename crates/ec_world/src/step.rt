// One step, by its event.
ghost use Rattle.std.specs.Prelude.{◌≡◌, ℕ, List, [], Some, Err, IsOk, IfOk, IfErr, IsErrAnd, OnOk};
ghost use Rattle.ec_disk.specs.Effects.{Counted, Rests};
ghost use Rattle.ec_protocol.specs.World as machine;
ghost use Rattle.ec_clerk.specs.OfRunning.Faults.{of_step};
ghost use Rattle.ec_world.specs.Worlds.{view_of, IsInStep, KeepsServer};
ghost use Rattle.ec_world.specs.StepEnds.{under, Fated, RefusesEvent, IsLeft, behind_arm, CountsOf};
ghost use Rattle.ec_clerk.specs.declared.running.fault.StepFault.TheVariants as fault;

use crate::world::World;
use ec_clerk::running::StepFault;
use ec_disk::{Choice, CrashDisk};
use ec_history::Shown;
use ec_protocol::pool::is_for_server;
use ec_protocol::{Event, WorldFault};
use std::alloc::Global;
use std::mem;

impl World {
    pub(crate) fn happen<D: CrashDisk>(
        &mut self,
        alloc: Global,
        disk: &mut D,
        event: Event,
    ) -> Result<(), StepFault>
        requires in_step { IsInStep D.tells (D.view disk.old) self.old }
        requires piece { self.old.piece.items ≡ [] }
        ensures ok { OnOk result (Fated D.tells (view_of self.old).durable (view_of self.old).shown (behind_arm event (D.counts disk.old)) (D.counts disk.new) self.old.choice (λ fate. machine.happen fate event (view_of self.old)) (under self.new)) }
        ensures in_step { OnOk result (IsInStep D.tells (D.view disk.new) self.new) }
        ensures err { IfErr result (λ fault. RefusesEvent (of_step fault) (machine.happen machine.runs event (view_of self.old)) (view_of self.old) (view_of self.new) (IsInStep D.tells (D.view disk.new) self.new)) }
        ensures counts { CountsOf event (D.counts disk.old) (D.counts disk.new) (result ≡ Err fault.DiskFailed) ⊥ }
        ensures left { IfErr result (λ fault. D.tells → (image : List ℕ) → (D.view disk.new).may_leave image → IsLeft (view_of self.old).durable (machine.happen machine.runs event (view_of self.old)) image) }
    {
        match event {
            Event::Call(clerk, line, call) => self.call(alloc, clerk, line, call),
            Event::Push(clerk, op) => self.push(alloc, clerk, op),
            Event::Resend(clerk) => self.resend(alloc, clerk),
            Event::Cut(clerk) => Ok(self.cut(alloc, clerk)?),
            Event::Uncut(clerk) => Ok(self.uncut(alloc, clerk)?),
            Event::Drop(number) => self.drop_message(alloc, number),
            Event::Repeat(number) => self.repeat(number),
            Event::Deliver(number) => self.deliver(alloc, disk, number),
            Event::Crash(clerk) => Ok(self.crash(alloc, clerk)?),
            Event::End(clerk) => self.end(alloc, disk, clerk),
            Event::Stop => Ok(self.stop(alloc)?),
            Event::Arm(calls, choice) => {
                self.arm(disk, calls, choice);
                Ok(())
            }
            Event::Restart => self.restart(alloc, disk),
        }
    }

    // The call of this number is to stop, and a power cut is to leave what the choice says.
    fn arm<D: CrashDisk>(&mut self, disk: &mut D, calls: u64, choice: Choice)
        ensures chosen { self.new ≡ record self.old { choice = choice } }
        ensures armed { D.counts disk.new ≡ record (D.counts disk.old) { armed = Some calls } }
        ensures rests { D.tells → Rests (D.view disk.old) (D.view disk.new) }
    {
        disk.arm(calls);
        self.choice = choice;
    }

    fn deliver<D: CrashDisk>(
        &mut self,
        alloc: Global,
        disk: &mut D,
        number: u64,
    ) -> Result<(), StepFault>
        requires in_step { IsInStep D.tells (D.view disk.old) self.old }
        requires piece { self.old.piece.items ≡ [] }
        ensures ok { OnOk result (Fated D.tells (view_of self.old).durable (view_of self.old).shown (D.counts disk.old) (D.counts disk.new) self.old.choice (λ fate. machine.deliver fate number (view_of self.old)) (under self.new)) }
        ensures in_step { OnOk result (IsInStep D.tells (D.view disk.new) self.new) }
        ensures err { IfErr result (λ fault. RefusesEvent (of_step fault) (machine.deliver machine.runs number (view_of self.old)) (view_of self.old) (view_of self.new) (IsInStep D.tells (D.view disk.new) self.new)) }
        ensures counts { Counted (D.counts disk.old) (D.counts disk.new) (result ≡ Err fault.DiskFailed) ⊥ }
        ensures left { IfErr result (λ fault. D.tells → (image : List ℕ) → (D.view disk.new).may_leave image → IsLeft (view_of self.old).durable (machine.deliver machine.runs number (view_of self.old)) image) }
    {
        let Some(sent) = self.pool.message(number) else {
            return Err(StepFault::NoSuchMsg);
        };
        if is_for_server(sent) {
            self.deliver_to_server(alloc, disk, number)
        } else {
            self.deliver_to_clerk(alloc, number)
        }
    }

    // What came of the step.
    pub(crate) fn answer(
        &mut self,
        alloc: Global,
        done: Result<(), StepFault>,
    ) -> Result<Vec<Shown>, WorldFault>
        ensures ok { IfOk result (λ shown. IsOk done × (shown.items ≡ self.old.piece.items)) }
        ensures err { IfErr result (λ fault. IsErrAnd done (λ why. fault ≡ of_step why)) }
        ensures view { view_of self.new ≡ view_of self.old }
        ensures same { KeepsServer self.old self.new }
    {
        match done {
            Ok(()) => Ok(mem::replace(&mut self.piece, Vec::new(alloc))),
            Err(fault) => {
                if matches!(fault, StepFault::DiskFailed | StepFault::NoMemory) {
                    self.is_broken = true;
                }
                Err(fault.shown())
            }
        }
    }
}
