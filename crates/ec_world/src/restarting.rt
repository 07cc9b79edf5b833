// Restarts of the server.
ghost use Rattle.std.specs.Prelude.{◌≡◌, ℕ, List, [], None, Err, IfErr, OnOk, Option};
ghost use Rattle.ec_disk.specs.Effects.{Counted};
ghost use Rattle.ec_durable.specs.declared.state.Durable.{Durable};
ghost use Rattle.ec_history.specs.declared.shown.Shown.TheVariants as show;
ghost use Rattle.ec_protocol.specs.World as machine;
ghost use Rattle.ec_server.specs.Servers.{StandsOn};
ghost use Rattle.ec_store.specs.Store as stores;
ghost use Rattle.ec_clerk.specs.OfRunning.Faults.{of_step};
ghost use Rattle.ec_marking.specs.Keeping.{HasStoppedIn, IfDone, IsMarked};
ghost use Rattle.ec_world.specs.Serving.{CameUp, StopsUp, Finishes, ArmsBehind, Breaks, FailsSince, serves};
ghost use Rattle.ec_world.specs.Worlds.{view_of, IsInStep, KeepsServer};
ghost use Rattle.ec_world.specs.StepEnds.{under, Fated, RefusesEvent, IsLeft};
ghost use Rattle.ec_clerk.specs.declared.running.fault.StepFault.TheVariants as fault;

use crate::world::World;
use ec_base::NoMemory;
use ec_clerk::running::StepFault;
use ec_disk::CrashDisk;
use ec_history::Shown;
use ec_marking::{Came, keeping};
use ec_protocol::Served;
use ec_server::Server;
use std::alloc::Global;

impl World {
    pub(crate) fn restart<D: CrashDisk>(
        &mut self,
        alloc: Global,
        disk: &mut D,
    ) -> Result<(), StepFault>
        requires in_step { IsInStep D.tells (D.view disk.old) self.old }
        requires piece { self.old.piece.items ≡ [] }
        ensures ok { OnOk result (Fated D.tells (view_of self.old).durable (view_of self.old).shown (D.counts disk.old) (D.counts disk.new) self.old.choice (λ fate. machine.restart_server fate (view_of self.old).server (view_of self.old)) (under self.new)) }
        ensures in_step { OnOk result (IsInStep D.tells (D.view disk.new) self.new) }
        ensures err { IfErr result (λ fault. RefusesEvent (of_step fault) (machine.restart_server machine.runs (view_of self.old).server (view_of self.old)) (view_of self.old) (view_of self.new) (IsInStep D.tells (D.view disk.new) self.new)) }
        ensures counts { Counted (D.counts disk.old) (D.counts disk.new) (result ≡ Err fault.DiskFailed) ⊥ }
        ensures left { IfErr result (λ fault. D.tells → (image : List ℕ) → (D.view disk.new).may_leave image → IsLeft (view_of self.old).durable (machine.restart_server machine.runs (view_of self.old).server (view_of self.old)) image) }
    {
        if self.server.is_some() {
            return Ok(self.show_nothing(alloc)?);
        }
        let started = keeping::start(alloc, &mut self.store, disk, &self.records);
        match started {
            Ok(came) => self.start_up(alloc, disk, came),
            Err(counter) => Err(StepFault::Spent(counter)),
        }
    }

    // The world goes on behind what came of a server's start.
    fn start_up<D: CrashDisk>(
        &mut self,
        alloc: Global,
        disk: &mut D,
        came: Came<(Server, Served)>,
    ) -> Result<(), StepFault>
        requires piece { self.old.piece.items ≡ [] }
        requires none { self.old.server ≡ None }
        requires marked { IsMarked came }
        ensures ok { OnOk result ((d : Durable) (armed : Option ℕ) → CameUp D.tells d self.old (D.view disk.old) came → StopsUp D.tells d armed (D.view disk.old) came → Finishes D.tells (HasStoppedIn came) self.old.choice armed (view_of self.old).shown (λ fate. machine.restart fate (serves None d (view_of self.old))) (under self.new)) }
        ensures in_step { OnOk result ((d : Durable) → CameUp D.tells d self.old (D.view disk.old) came → IfDone came (λ made. StandsOn (stores.view_of self.old.store) made.0) → IsInStep D.tells (D.view disk.new) self.new) }
        ensures left { IfErr result (λ fault. D.tells → (d : Durable) → CameUp D.tells d self.old (D.view disk.old) came → (image : List ℕ) → (D.view disk.new).may_leave image → IsLeft d (machine.restart machine.runs (serves None d (view_of self.old))) image) }
        ensures err { IfErr result Breaks }
        ensures counts { Counted (D.counts disk.old) (D.counts disk.new) (FailsSince came result) ⊥ }
        ensures arms { OnOk result (ArmsBehind came (stores.view_of self.old.store) (stores.view_of self.new.store) (D.counts disk.old).armed (D.counts disk.new).armed) }
    {
        match came {
            Came::Done(made, mark) => {
                let (server, served) = made;
                let Some(mark) = mark else {
                    unreachable!();
                };
                self.server = Some(server);
                self.records = mark.records;
                Ok(self.come_up(alloc, served)?)
            }
            Came::Stopped(mark) => {
                self.cut_off(alloc, disk, mark.sign, mark.records)?;
                Ok(self.show_line(alloc, Shown::Stopped)?)
            }
            Came::DiskFailed => Err(StepFault::DiskFailed),
            Came::NoMemory => Err(StepFault::NoMemory),
        }
    }

    // What was found is shown.
    fn come_up(&mut self, alloc: Global, served: Served) -> Result<(), NoMemory>
        ensures ok { OnOk result (under self.new ≡ machine.with_world (machine.send_all served.sent) (machine.show_line show.Started (machine.show_noted self.old.unshown (machine.with_world (λ w. record w { unshown = None }) (under self.old))))) }
        ensures same { KeepsServer self.old self.new }
    {
        let unshown = self.unshown.take();
        self.show_noted(alloc, unshown)?;
        self.show_line(alloc, Shown::Started)?;
        self.send_all(served.sent.into_vec())
    }
}
