// Steps of the server: messages that are delivered to it, ends of sessions, and stops.
ghost use Rattle.std.specs.Prelude.{◌≡◌, ℕ, List, [], true, None, Err, IfErr, OnOk, Option};
ghost use Rattle.ec_disk.specs.Effects.{Counted};
ghost use Rattle.ec_durable.specs.Durable.{slot};
ghost use Rattle.ec_durable.specs.declared.state.Durable.{Durable};
ghost use Rattle.ec_sessions.specs.Slots.{is_open};
ghost use Rattle.ec_protocol.specs.Server.{Serving};
ghost use Rattle.ec_protocol.specs.World as machine;
ghost use Rattle.ec_protocol.specs.declared.server.Server.{Server as State};
ghost use Rattle.ec_store.specs.Store as stores;
ghost use Rattle.ec_clerk.specs.OfRunning.Faults.{of_step};
ghost use Rattle.ec_marking.specs.Marks.{gone};
ghost use Rattle.ec_world.specs.Worlds.{view_of, IsInStep, KeepsServer, ServerStands};
ghost use Rattle.ec_marking.specs.Keeping.{HasStoppedIn, StopsSo};
ghost use Rattle.ec_world.specs.Serving.{CameTo, Finishes, ArmsBehind, Breaks, FailsSince, serves};
ghost use Rattle.ec_world.specs.StepEnds.{under, Fated, RefusesEvent, IsLeft};
ghost use Rattle.ec_world.specs.Sending.{IsFor};
ghost use Rattle.ec_clerk.specs.declared.running.fault.StepFault.TheVariants as fault;

use crate::world::World;
use ec_base::{ClerkId, NoMemory};
use ec_clerk::running::StepFault;
use ec_disk::CrashDisk;
use ec_history::Shown;
use ec_marking::keeping::Letter;
use ec_marking::{Came, Mark, keeping};
use ec_protocol::Served;
use std::alloc::Global;

impl World {
    // A stopped server leaves the message as it was.
    pub(crate) fn deliver_to_server<D: CrashDisk>(
        &mut self,
        alloc: Global,
        disk: &mut D,
        number: u64,
    ) -> Result<(), StepFault>
        requires in_step { IsInStep D.tells (D.view disk.old) self.old }
        requires piece { self.old.piece.items ≡ [] }
        requires message { IsFor true number self.old.pool.pool }
        ensures ok { OnOk result (Fated D.tells (view_of self.old).durable (view_of self.old).shown (D.counts disk.old) (D.counts disk.new) self.old.choice (λ fate. machine.deliver fate number (view_of self.old)) (under self.new)) }
        ensures in_step { OnOk result (IsInStep D.tells (D.view disk.new) self.new) }
        ensures err { IfErr result (λ fault. RefusesEvent (of_step fault) (machine.deliver machine.runs number (view_of self.old)) (view_of self.old) (view_of self.new) (IsInStep D.tells (D.view disk.new) self.new)) }
        ensures counts { Counted (D.counts disk.old) (D.counts disk.new) (result ≡ Err fault.DiskFailed) ⊥ }
        ensures left { IfErr result (λ fault. D.tells → (image : List ℕ) → (D.view disk.new).may_leave image → IsLeft (view_of self.old).durable (machine.deliver machine.runs number (view_of self.old)) image) }
    {
        let Some(sent) = self.pool.message(number) else {
            return Err(StepFault::NoSuchMsg);
        };
        let Some(server) = &mut self.server else {
            return Ok(self.show_nothing(alloc)?);
        };
        let letter = Letter {
            from: sent.clerk,
            msg: &sent.msg,
        };
        let taken = keeping::take(alloc, &mut self.store, disk, &self.records, server, letter);
        match taken {
            Ok(came) => {
                self.pool.settle(number);
                self.finish(alloc, disk, came)
            }
            Err(counter) => Err(StepFault::Spent(counter)),
        }
    }

    // The administrator ends the clerk's open session.
    pub(crate) fn end<D: CrashDisk>(
        &mut self,
        alloc: Global,
        disk: &mut D,
        clerk: ClerkId,
    ) -> Result<(), StepFault>
        requires in_step { IsInStep D.tells (D.view disk.old) self.old }
        requires piece { self.old.piece.items ≡ [] }
        ensures ok { OnOk result (Fated D.tells (view_of self.old).durable (view_of self.old).shown (D.counts disk.old) (D.counts disk.new) self.old.choice (λ fate. machine.end fate clerk (view_of self.old).server (view_of self.old)) (under self.new)) }
        ensures in_step { OnOk result (IsInStep D.tells (D.view disk.new) self.new) }
        ensures err { IfErr result (λ fault. RefusesEvent (of_step fault) (machine.end machine.runs clerk (view_of self.old).server (view_of self.old)) (view_of self.old) (view_of self.new) (IsInStep D.tells (D.view disk.new) self.new)) }
        ensures counts { Counted (D.counts disk.old) (D.counts disk.new) (result ≡ Err fault.DiskFailed) ⊥ }
        ensures left { IfErr result (λ fault. D.tells → (image : List ℕ) → (D.view disk.new).may_leave image → IsLeft (view_of self.old).durable (machine.end machine.runs clerk (view_of self.old).server (view_of self.old)) image) }
    {
        let is_open = self.has_session(clerk);
        let Some(server) = &mut self.server else {
            return Ok(self.show_nothing(alloc)?);
        };
        if !is_open {
            return Ok(self.show_nothing(alloc)?);
        }
        let ended = keeping::end(alloc, &mut self.store, disk, &self.records, server, clerk);
        match ended {
            Ok(came) => self.finish(alloc, disk, came),
            Err(counter) => Err(StepFault::Spent(counter)),
        }
    }

    // Whether the disk has an open session of the clerk.
    fn has_session(&self, clerk: ClerkId) -> bool
        ensures { result ≡ is_open (slot (view_of self.now).durable clerk) }
    {
        match self.store.view().sessions.slot(clerk) {
            Some(slot) => slot.is_open,
            None => false,
        }
    }

    // The world goes on behind what came of its server's step.
    fn finish<D: CrashDisk>(
        &mut self,
        alloc: Global,
        disk: &mut D,
        came: Came<Served>,
    ) -> Result<(), StepFault>
        requires piece { self.old.piece.items ≡ [] }
        requires stands { ServerStands (stores.view_of self.old.store) self.old.server }
        ensures ok { OnOk result ((done : Serving) (d : Durable) (s : Option State) (armed : Option ℕ) → CameTo D.tells done d self.old (D.view disk.old) came → StopsSo came D.tells armed d done.server.durable (D.view disk.old) → Finishes D.tells (HasStoppedIn came) self.old.choice armed (view_of self.old).shown (λ fate. machine.served fate done (serves s d (view_of self.old))) (under self.new)) }
        ensures in_step { OnOk result ((done : Serving) (d : Durable) → CameTo D.tells done d self.old (D.view disk.old) came → IsInStep D.tells (D.view disk.new) self.new) }
        ensures left { IfErr result (λ fault. D.tells → (done : Serving) (d : Durable) (s : Option State) → CameTo D.tells done d self.old (D.view disk.old) came → (image : List ℕ) → (D.view disk.new).may_leave image → IsLeft d (machine.served machine.runs done (serves s d (view_of self.old))) image) }
        ensures err { IfErr result Breaks }
        ensures counts { Counted (D.counts disk.old) (D.counts disk.new) (FailsSince came result) ⊥ }
        ensures arms { OnOk result (ArmsBehind came (stores.view_of self.old.store) (stores.view_of self.new.store) (D.counts disk.old).armed (D.counts disk.new).armed) }
    {
        match came {
            Came::Done(served, mark) => Ok(self.go_on(alloc, served, mark)?),
            Came::Stopped(mark) => self.stop_in(alloc, disk, mark),
            Came::DiskFailed => Err(StepFault::DiskFailed),
            Came::NoMemory => Err(StepFault::NoMemory),
        }
    }

    // The record is shown, if there is one, and the server's messages are sent.
    fn go_on(&mut self, alloc: Global, served: Served, mark: Option<Mark>) -> Result<(), NoMemory>
        ensures ok { OnOk result (under self.new ≡ machine.with_world (machine.send_all served.sent) (gone mark (under self.old))) }
        ensures same { KeepsServer self.old self.new }
    {
        if let Some(mark) = mark {
            self.records = mark.records;
            self.show_noted(alloc, mark.noted)?;
        }
        self.send_all(served.sent.into_vec())
    }

    pub(crate) fn stop(&mut self, alloc: Global) -> Result<(), NoMemory>
        requires { self.old.piece.items ≡ [] }
        ensures ok { OnOk result (machine.stop_server (view_of self.old).server (view_of self.old) ≡ under self.new) }
        ensures store { self.new.store ≡ self.old.store }
        ensures stopped { OnOk result (self.new.server ≡ None) }
    {
        if self.server.is_none() {
            return self.show_nothing(alloc);
        }
        self.server = None;
        self.show_line(alloc, Shown::Stopped)
    }
}
