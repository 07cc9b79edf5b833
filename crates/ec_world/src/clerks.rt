// Steps of clerks: calls, pushes, resends and crashes.
ghost use Rattle.std.specs.Prelude.{◌≡◌, [], false, IfOk, IfErr, OnOk};
ghost use Rattle.ec_base.specs.Tables.{at};
ghost use Rattle.ec_volume.specs.Update.{member};
ghost use Rattle.ec_protocol.specs.Clerk as clerk_machine;
ghost use Rattle.ec_protocol.specs.World as machine;
ghost use Rattle.ec_world.specs.Worlds.{view_of, KeepsServer};
ghost use Rattle.ec_world.specs.Calls.{call_begun};
ghost use Rattle.ec_world.specs.StepEnds.{under, Declines};

use crate::world::World;
use ec_base::{ClerkId, Counter, Duplicate, NoMemory, OpNo, next};
use ec_clerk::running::running::{self, Begun};
use ec_clerk::running::{StepFault, add_copy, is_answered};
use ec_history::Shown;
use ec_plain::Call;
use ec_protocol::Out;
use std::alloc::Global;

// A call that a clerk began: by this number, as this line asks.
#[derive(Drop)]
struct Asked<'a> {
    clerk: ClerkId,
    no: u64,
    line: u32,
    call: &'a Call,
}

impl World {
    pub(crate) fn call(
        &mut self,
        alloc: Global,
        clerk: ClerkId,
        line: u32,
        call: Call,
    ) -> Result<(), StepFault>
        requires { self.old.piece.items ≡ [] }
        ensures ok { OnOk result (machine.call clerk line call (view_of self.old) ≡ under self.new) }
        ensures err { IfErr result (λ fault. Declines fault (machine.call clerk line call (view_of self.old)) (view_of self.old) (view_of self.new)) }
        ensures same { KeepsServer self.old self.new }
    {
        let text = call.duplicate()?;
        let done = self.begin_or_start(alloc, clerk, line, &text, call);
        drop(text);
        done
    }

    // The call, and a copy of it that is shown.
    fn begin_or_start(
        &mut self,
        alloc: Global,
        clerk: ClerkId,
        line: u32,
        text: &Call,
        call: Call,
    ) -> Result<(), StepFault>
        requires piece { self.old.piece.items ≡ [] }
        requires same { text.now ≡ call }
        ensures ok { OnOk result (machine.call clerk line call (view_of self.old) ≡ under self.new) }
        ensures err { IfErr result (λ fault. Declines fault (machine.call clerk line call (view_of self.old)) (view_of self.old) (view_of self.new)) }
        ensures same { KeepsServer self.old self.new }
    {
        match running::begin(&mut self.clerks, clerk, call)? {
            Begun::Took(no, outs) => {
                let before = Vec::new(alloc);
                let begun = Asked {
                    clerk,
                    no,
                    line,
                    call: text,
                };
                Ok(self.show_begun(alloc, &begun, before, outs)?)
            }
            Begun::IsAbsent(call) => self.start_and_call(alloc, clerk, line, text, call),
        }
    }

    // A clerk that isn't running starts with the next boot.
    fn start_and_call(
        &mut self,
        alloc: Global,
        clerk: ClerkId,
        line: u32,
        text: &Call,
        call: Call,
    ) -> Result<(), StepFault>
        requires piece { self.old.piece.items ≡ [] }
        requires same { text.now ≡ call }
        ensures ok { OnOk result (machine.start_and_call clerk line call (view_of self.old) ≡ under self.new) }
        ensures err { IfErr result (λ fault. Declines fault (machine.start_and_call clerk line call (view_of self.old)) (view_of self.old) (view_of self.new)) }
        ensures same { KeepsServer self.old self.new }
    {
        let Some(boot) = next(self.boot(clerk)) else {
            drop(call);
            return Err(StepFault::Spent(Counter::Boot));
        };
        let (no, before, outs) = running::start(alloc, &mut self.clerks, clerk, boot, call)?;
        self.boots.insert(clerk, boot)?;
        let begun = Asked {
            clerk,
            no,
            line,
            call: text,
        };
        Ok(self.show_begun(alloc, &begun, before, outs)?)
    }

    // What a clerk's call shows once it has begun. What came out of the clerk's start stands before.
    fn show_begun(
        &mut self,
        alloc: Global,
        asked: &Asked<'_>,
        before: Vec<Out>,
        outs: Vec<Out>,
    ) -> Result<(), NoMemory>
        ensures ok { OnOk result (under self.new ≡ call_begun asked.now.clerk asked.now.no asked.now.line asked.now.call.now before.items outs.items (under self.old)) }
        ensures same { KeepsServer self.old self.new }
    {
        let clerk = asked.clerk;
        add_copy(
            alloc,
            &mut self.calls,
            clerk,
            asked.no,
            asked.line,
            asked.call,
        )?;
        self.show_waits(alloc, asked, &outs)?;
        self.come_out(alloc, clerk, before)?;
        self.come_out(alloc, clerk, outs)
    }

    // A call that isn't answered in its own step waits.
    fn show_waits(&mut self, alloc: Global, asked: &Asked<'_>, outs: &[Out]) -> Result<(), NoMemory>
        ensures ok { OnOk result (under self.new ≡ machine.show_waits asked.now.clerk asked.now.no asked.now.line asked.now.call.now outs.now (under self.old)) }
        ensures same { KeepsServer self.old self.new }
    {
        if is_answered(asked.no, outs) {
            return Ok(());
        }
        let waits = Shown::Waits(asked.line, asked.clerk, asked.call.duplicate()?);
        self.show_line(alloc, waits)
    }

    pub(crate) fn push(&mut self, alloc: Global, clerk: ClerkId, op: OpNo) -> Result<(), StepFault>
        requires { self.old.piece.items ≡ [] }
        ensures ok { OnOk result (machine.push clerk op (at clerk self.old.clerks) (view_of self.old) ≡ under self.new) }
        ensures err { IfErr result (λ fault. Declines fault (machine.push clerk op (at clerk self.old.clerks) (view_of self.old)) (view_of self.old) (view_of self.new)) }
        ensures same { KeepsServer self.old self.new }
    {
        if !running::has_issued(&self.clerks, clerk, op) {
            return Err(StepFault::NoSuchOp);
        }
        if !self.is_undurable(clerk, op)? {
            self.show_nothing(alloc)?;
            return Ok(());
        }
        match running::push(&mut self.clerks, clerk, op)? {
            Some(outs) => Ok(self.come_out(alloc, clerk, outs)?),
            None => Ok(()),
        }
    }

    // Whether the operation is of the clerk's open session, and no durable line named it.
    fn is_undurable(&self, clerk: ClerkId, op: OpNo) -> Result<bool, NoMemory>
        ensures { IfOk result (λ is. is ≡ machine.is_undurable clerk op (view_of self.now)) }
    {
        let seen = self.lines.watch(clerk)?;
        Ok(
            seen.untold.is_none()
                && is_session(seen.starts, seen.open_start)
                && is_among(seen.undurable.as_slice(), op),
        )
    }

    pub(crate) fn resend(&mut self, alloc: Global, clerk: ClerkId) -> Result<(), StepFault>
        requires { self.old.piece.items ≡ [] }
        ensures ok { OnOk result (machine.resend clerk (at clerk self.old.clerks) (view_of self.old) ≡ under self.new) }
        ensures err { IfErr result (λ fault. Declines fault (machine.resend clerk (at clerk self.old.clerks) (view_of self.old)) (view_of self.old) (view_of self.new)) }
        ensures same { KeepsServer self.old self.new }
    {
        match running::resend(&mut self.clerks, clerk)? {
            Some(outs) => Ok(self.come_out(alloc, clerk, outs)?),
            None => Ok(self.show_nothing(alloc)?),
        }
    }

    pub(crate) fn crash(&mut self, alloc: Global, clerk: ClerkId) -> Result<(), NoMemory>
        requires { self.old.piece.items ≡ [] }
        ensures ok { OnOk result (machine.crash clerk (at clerk self.old.clerks) (view_of self.old) ≡ under self.new) }
        ensures same { KeepsServer self.old self.new }
    {
        if !self.clerks.contains(&clerk) {
            return self.show_nothing(alloc);
        }
        drop(self.clerks.remove(&clerk));
        self.calls.remove(&clerk);
        self.show_line(alloc, Shown::Crashed(clerk))
    }
}

fn is_session(start: u64, last: Option<u64>) -> bool
    ensures { result ≡ clerk_machine.is_session start last }
{
    match last {
        Some(open) => start == open,
        None => false,
    }
}

fn is_among(ops: &[OpNo], op: OpNo) -> bool
    ensures { result ≡ member op ops.now }
{
    ops.iter().any(|other| op == *other)
}
