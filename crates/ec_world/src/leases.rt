// What leases need of a world: its sessions, which messages go to clerks, and calls that begin behind their line.
ghost use Rattle.std.specs.Prelude.{◌≡◌, [], None, IfOk, IfErr, OnOk, length};
ghost use Rattle.ec_base.specs.Limits.{clerk_count};
ghost use Rattle.ec_durable.specs.Durable.{slot};
ghost use Rattle.ec_volume.specs.Update.{member};
ghost use Rattle.ec_protocol.specs.World as machine;
ghost use Rattle.ec_protocol.specs.OfPool.Goings as goings;
ghost use Rattle.ec_protocol.specs.Resumes as leases;
ghost use Rattle.ec_history.specs.declared.shown.Shown.TheVariants as shown;
ghost use Rattle.ec_world.specs.Leases.{BeginsNot, HasSlots, QueuesNot};
ghost use Rattle.ec_world.specs.StepEnds.{under};
ghost use Rattle.ec_world.specs.Worlds.{view_of, KeepsServer};

use crate::world::World;
use ec_base::{ClerkId, Duplicate, NoMemory, SessionNo};
use ec_clerk::running::running::{self, Begun};
use ec_clerk::running::{StepFault, add_copy};
use ec_history::Shown;
use ec_plain::Call;
use ec_protocol::WorldFault;
use ec_wire::MsgKind;
use std::alloc::Global;

impl World {
    /// The session of the clerk, where it runs and has one.
    pub fn session(&self, clerk: ClerkId) -> Option<SessionNo>
        ensures { result ≡ leases.session clerk (view_of self.now) }
    {
        running::session(&self.clerks, clerk)
    }

    /// The session of the clerk that the running server has open.
    pub fn open_session(&self, clerk: ClerkId) -> Option<SessionNo>
        ensures value { result ≡ leases.open_session clerk (view_of self.now) }
        ensures slots { HasSlots (view_of self.now).server }
    {
        if self.server.is_none() {
            return None;
        }
        self.session_on_disk(clerk)
    }

    // The session of the clerk that is open on the disk.
    fn session_on_disk(&self, clerk: ClerkId) -> Option<SessionNo>
        ensures value { result ≡ leases.open_in (slot (view_of self.now).durable clerk) }
        ensures slots { length (view_of self.now).durable.sessions ≡ clerk_count }
    {
        match self.store.view().sessions.slot(clerk) {
            Some(slot) if slot.is_open => Some(slot.session),
            _ => None,
        }
    }

    /// To which clerk a kept message goes, and its kind.
    pub fn goes_to(&self, number: u64) -> Option<(ClerkId, MsgKind)>
        ensures { result ≡ goings.goes_to number (view_of self.now) }
    {
        self.pool.goes_to(number)
    }

    /// The least pending message that can be delivered and isn't kept from these clerks: it's an Ended, or goes to none of them.
    pub fn due_but(&self, held: &[ClerkId]) -> Option<u64>
        ensures { result ≡ goings.due_but held.now (view_of self.now) }
    {
        self.pool.due_but(self.server.is_some(), held)
    }

    /// Whether the clerk's link is cut.
    pub fn is_cut(&self, clerk: ClerkId) -> bool
        ensures { result ≡ member clerk (view_of self.now).cut }
    {
        self.pool.is_cut(clerk)
    }

    /// Shows that a line of a script had no effect.
    pub fn show_none(&mut self, alloc: Global) -> Result<Shown, NoMemory>
        ensures line { IfOk result (λ line. line ≡ shown.Nothing) }
        ensures value { OnOk result (view_of self.new ≡ (machine.nothing (view_of self.old)).world) }
        ensures same { KeepsServer self.old self.new }
    {
        self.lines.note(alloc, &Shown::Nothing)?;
        Ok(Shown::Nothing)
    }

    /// Shows that a call waits before it begins.
    pub fn wait(
        &mut self,
        alloc: Global,
        clerk: ClerkId,
        line: u32,
        call: &Call,
    ) -> Result<Shown, NoMemory>
        ensures line { IfOk result (λ line_shown. line_shown ≡ shown.Waits line clerk call.now) }
        ensures value { OnOk result (view_of self.new ≡ (leases.wait clerk line call.now (view_of self.old)).world) }
        ensures same { KeepsServer self.old self.new }
    {
        let waits = Shown::Waits(line, clerk, call.duplicate()?);
        if let Err(fault) = self.lines.note(alloc, &waits) {
            drop(waits);
            return Err(fault);
        }
        Ok(waits)
    }

    /// Begins a call of a running clerk behind its line, and answers the lines that it shows. Of a clerk that doesn't run it changes
    /// nothing.
    ///
    /// # Errors
    ///
    /// `Spent` where the step would spend this counter: then nothing has changed. After `NoMemory` the world answers `NoMemory`.
    pub fn resume(
        &mut self,
        alloc: Global,
        clerk: ClerkId,
        line: u32,
        call: Call,
    ) -> Result<Vec<Shown>, WorldFault>
        ensures ok { IfOk result (λ lines. leases.resume clerk line call (view_of self.old) ≡ record { world = view_of self.new; shown = lines.items; fault = None }) }
        ensures err { IfErr result (λ fault. QueuesNot fault (leases.resume clerk line call (view_of self.old)) (view_of self.old) (view_of self.new)) }
        ensures same { KeepsServer self.old self.new }
    {
        if self.is_broken {
            drop(call);
            return Err(WorldFault::NoMemory);
        }
        self.begin_step(alloc);
        let done = self.begin_behind(alloc, clerk, line, call);
        self.answer(alloc, done)
    }

    // A copy of the call is under way.
    fn begin_behind(
        &mut self,
        alloc: Global,
        clerk: ClerkId,
        line: u32,
        call: Call,
    ) -> Result<(), StepFault>
        requires { self.old.piece.items ≡ [] }
        ensures ok { OnOk result (leases.resume clerk line call (view_of self.old) ≡ under self.new) }
        ensures err { IfErr result (λ fault. BeginsNot fault (leases.resume clerk line call (view_of self.old)) (view_of self.old) (view_of self.new)) }
        ensures same { KeepsServer self.old self.new }
    {
        let text = call.duplicate()?;
        let done = self.begin_if_running(alloc, clerk, line, &text, call);
        drop(text);
        done
    }

    // What comes out of a call that begins is shown. Its line was shown before.
    fn begin_if_running(
        &mut self,
        alloc: Global,
        clerk: ClerkId,
        line: u32,
        text: &Call,
        call: Call,
    ) -> Result<(), StepFault>
        requires piece { self.old.piece.items ≡ [] }
        requires same { text.now ≡ call }
        ensures ok { OnOk result (leases.resume clerk line call (view_of self.old) ≡ under self.new) }
        ensures err { IfErr result (λ fault. BeginsNot fault (leases.resume clerk line call (view_of self.old)) (view_of self.old) (view_of self.new)) }
        ensures same { KeepsServer self.old self.new }
    {
        match running::begin(&mut self.clerks, clerk, call)? {
            Begun::Took(no, outs) => {
                add_copy(alloc, &mut self.calls, clerk, no, line, text)?;
                Ok(self.come_out(alloc, clerk, outs)?)
            }
            Begun::IsAbsent(call) => {
                drop(call);
                Ok(())
            }
        }
    }
}
