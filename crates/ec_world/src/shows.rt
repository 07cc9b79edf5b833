// What a step under way shows and sends.
ghost use Rattle.std.specs.Prelude.{◌≡◌, [], IfOk, OnOk};
ghost use Rattle.ec_protocol.specs.World as machine;
ghost use Rattle.ec_history.specs.declared.shown.Shown.TheVariants as show;
ghost use Rattle.ec_world.specs.Worlds.{view_of, KeepsServer};
ghost use Rattle.ec_world.specs.StepEnds.{under};

use crate::world::World;
use ec_base::{ClerkId, Duplicate, NoMemory};
use ec_history::Shown;
use ec_protocol::Noted;
use ec_wire::Msg;
use std::alloc::Global;

impl World {
    // A step begins.
    pub(crate) fn begin_step(&mut self, alloc: Global)
        ensures value { view_of self.new ≡ view_of self.old }
        ensures piece { self.new.piece.items ≡ [] }
        ensures same { KeepsServer self.old self.new }
    {
        self.piece = Vec::new(alloc);
    }

    pub(crate) fn show_line(&mut self, alloc: Global, line: Shown) -> Result<(), NoMemory>
        ensures ok { OnOk result (under self.new ≡ machine.show_line line (under self.old)) }
        ensures same { KeepsServer self.old self.new }
    {
        if let Err(fault) = self.lines.note(alloc, &line) {
            drop(line);
            return Err(fault);
        }
        self.piece.push(line)?;
        Ok(())
    }

    // A step that has no effect.
    pub(crate) fn show_nothing(&mut self, alloc: Global) -> Result<(), NoMemory>
        requires { self.old.piece.items ≡ [] }
        ensures ok { OnOk result (under self.new ≡ machine.nothing (view_of self.old)) }
        ensures same { KeepsServer self.old self.new }
    {
        self.show_line(alloc, Shown::Nothing)
    }

    pub(crate) fn show_noted(&mut self, alloc: Global, noted: Option<Noted>) -> Result<(), NoMemory>
        ensures ok { OnOk result (under self.new ≡ machine.show_noted noted (under self.old)) }
        ensures same { KeepsServer self.old self.new }
    {
        let Some(noted) = noted else {
            return Ok(());
        };
        match noted {
            Noted::Durable(clerk, ops) => self.show_line(alloc, Shown::Durable(clerk, ops)),
            Noted::Ended(clerk, boot) => self.show_ended(alloc, clerk, boot),
        }
    }

    // The session of the clerk's start of this boot ended.
    fn show_ended(&mut self, alloc: Global, clerk: ClerkId, boot: u64) -> Result<(), NoMemory>
        ensures ok { OnOk result (under self.new ≡ machine.show_line (machine.show_ended clerk boot (view_of self.old)) (under self.old)) }
        ensures same { KeepsServer self.old self.new }
    {
        let line = self.ended_line(clerk, boot)?;
        self.show_line(alloc, line)
    }

    fn ended_line(&self, clerk: ClerkId, boot: u64) -> Result<Shown, NoMemory>
        ensures { IfOk result (λ line. line ≡ machine.show_ended clerk boot (view_of self.now)) }
    {
        let seen = self.lines.watch(clerk)?;
        if seen.open_start.is_some() || self.is_running(clerk, boot) {
            Ok(Shown::Ended(clerk, seen.undurable.duplicate()?))
        } else {
            Ok(Shown::Unseen(clerk))
        }
    }

    // Whether the running start of the clerk is that of this boot.
    fn is_running(&self, clerk: ClerkId, boot: u64) -> bool
        ensures { result ≡ machine.is_running clerk boot (view_of self.now) }
    {
        self.clerks.contains(&clerk) && boot == self.boot(clerk)
    }

    // The last boot of the clerk, 0 where it had none.
    pub(crate) fn boot(&self, clerk: ClerkId) -> u64
        ensures { result ≡ machine.boot clerk (view_of self.now) }
    {
        match self.boots.get(&clerk) {
            Some(boot) => *boot,
            None => 0,
        }
    }

    // Puts a message into the pool. What clerks and servers send is sound, which isn't proved: a message that isn't ends the step as for want of
    // memory.
    pub(crate) fn send(&mut self, clerk: ClerkId, msg: Msg) -> Result<(), NoMemory>
        ensures ok { OnOk result (under self.new ≡ machine.with_world (machine.send clerk msg) (under self.old)) }
        ensures same { KeepsServer self.old self.new }
    {
        if !msg.sound() {
            return Err(NoMemory);
        }
        self.pool.send(clerk, msg)?;
        Ok(())
    }

    pub(crate) fn send_all(&mut self, mut sent: Vec<(ClerkId, Msg)>) -> Result<(), NoMemory>
        ensures ok { OnOk result (under self.new ≡ machine.with_world (machine.send_all sent.items) (under self.old)) }
        ensures same { KeepsServer self.old self.new }
    {
        // the next one is taken from the end
        sent.reverse();
        'sent: while let Some((clerk, msg)) = sent.pop() {
            self.send(clerk, msg)?;
        }
        Ok(())
    }
}
