// Steps of the network: links, and messages that are lost, repeated and delivered.
ghost use Rattle.std.specs.Prelude.{◌≡◌, [], false, IfErr, OnOk};
ghost use Rattle.ec_protocol.specs.World as machine;
ghost use Rattle.ec_world.specs.Worlds.{view_of, KeepsServer};
ghost use Rattle.ec_world.specs.Sending.{IsFor};
ghost use Rattle.ec_world.specs.StepEnds.{under, Declines};

use crate::world::World;
use ec_base::{ClerkId, Duplicate, NoMemory};
use ec_clerk::running::{StepFault, running};
use std::alloc::Global;

impl World {
    pub(crate) fn cut(&mut self, alloc: Global, clerk: ClerkId) -> Result<(), NoMemory>
        requires { self.old.piece.items ≡ [] }
        ensures ok { OnOk result (machine.cut clerk (view_of self.old) ≡ under self.new) }
        ensures same { KeepsServer self.old self.new }
    {
        if self.pool.is_cut(clerk) {
            return self.show_nothing(alloc);
        }
        self.pool.cut(clerk)?;
        Ok(())
    }

    pub(crate) fn uncut(&mut self, alloc: Global, clerk: ClerkId) -> Result<(), NoMemory>
        requires { self.old.piece.items ≡ [] }
        ensures ok { OnOk result (machine.uncut clerk (view_of self.old) ≡ under self.new) }
        ensures same { KeepsServer self.old self.new }
    {
        if !self.pool.is_cut(clerk) {
            return self.show_nothing(alloc);
        }
        self.pool.uncut(clerk);
        Ok(())
    }

    // A message is lost.
    pub(crate) fn drop_message(&mut self, alloc: Global, number: u64) -> Result<(), StepFault>
        requires { self.old.piece.items ≡ [] }
        ensures ok { OnOk result (machine.drop number (view_of self.old) ≡ under self.new) }
        ensures err { IfErr result (λ fault. Declines fault (machine.drop number (view_of self.old)) (view_of self.old) (view_of self.new)) }
        ensures same { KeepsServer self.old self.new }
    {
        let Some(_sent) = self.pool.message(number) else {
            return Err(StepFault::NoSuchMsg);
        };
        if !self.pool.is_pending(number) {
            self.show_nothing(alloc)?;
            return Ok(());
        }
        self.pool.settle(number);
        Ok(())
    }

    // A message travels again.
    pub(crate) fn repeat(&mut self, number: u64) -> Result<(), StepFault>
        requires { self.old.piece.items ≡ [] }
        ensures ok { OnOk result (machine.repeat number (view_of self.old) ≡ under self.new) }
        ensures err { IfErr result (λ fault. Declines fault (machine.repeat number (view_of self.old)) (view_of self.old) (view_of self.new)) }
        ensures same { KeepsServer self.old self.new }
    {
        if self.pool.message(number).is_none() {
            return Err(StepFault::NoSuchMsg);
        }
        self.pool.make_pending(number)?;
        Ok(())
    }

    // A message for a clerk is delivered. One for a clerk that isn't running vanishes.
    pub(crate) fn deliver_to_clerk(&mut self, alloc: Global, number: u64) -> Result<(), StepFault>
        requires piece { self.old.piece.items ≡ [] }
        requires message { IsFor false number self.old.pool.pool }
        ensures ok { OnOk result (machine.deliver machine.runs number (view_of self.old) ≡ under self.new) }
        ensures err { IfErr result (λ fault. Declines fault (machine.deliver machine.runs number (view_of self.old)) (view_of self.old) (view_of self.new)) }
        ensures same { KeepsServer self.old self.new }
    {
        let Some(sent) = self.pool.message(number) else {
            return Err(StepFault::NoSuchMsg);
        };
        let clerk = sent.clerk;
        let msg = sent.msg.duplicate()?;
        let outs = running::take(&mut self.clerks, clerk, msg)?;
        self.pool.settle(number);
        match outs {
            Some(outs) => Ok(self.come_out(alloc, clerk, outs)?),
            None => Ok(()),
        }
    }
}
