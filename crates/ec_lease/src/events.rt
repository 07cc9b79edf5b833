// What happens in a step, before queued calls begin.
ghost use Rattle.std.specs.Prelude.{◌≡◌, ◌<◌, ◌⊎◌, [], ⊤, Some, IfErr, IsErrOf, OnOk};
ghost use Rattle.std.specs.List.{list_any};
ghost use Rattle.ec_base.specs.Limits.{clerk_count};
ghost use Rattle.ec_base.specs.Tables.{at_or};
ghost use Rattle.ec_disk.specs.Effects.{Counted};
ghost use Rattle.ec_lease.specs.Steps.{Comes, HappensNot, LeaseCounts, MayStep, behind_lease_arm};
ghost use Rattle.ec_lease.specs.Worlds.{ended_with, ticks, under_way, leased, IsInStep, KeepsServer};
ghost use Rattle.ec_wire.specs.Messages.{same_kind};
ghost use Rattle.ec_wire.specs.declared.msg.MsgKind.TheVariants as of_kind;
ghost use Rattle.ec_world.specs.StepEnds.{CountsOf, behind_arm};
ghost use Rattle.ec_lease_machine.specs.Leases as leases;
ghost use Rattle.ec_protocol.specs.OfPool.Goings.{is_kept_from};
ghost use Rattle.ec_protocol.specs.Resumes as resumes;
ghost use Rattle.ec_protocol.specs.declared.world.Event.TheVariants as world_event;
ghost use Rattle.ec_protocol.specs.declared.world.WorldFault.TheVariants as fault;
ghost use Rattle.ec_lease_machine.specs.declared.world.LeaseFault.TheVariants as lease_fault;

use crate::shows::{of_world, told};
use crate::world::LeaseWorld;
use ec_base::ClerkId;
use ec_disk::CrashDisk;
use ec_history::Shown;
use ec_lease_machine::{LeaseEvent, LeaseFault, LeaseShown};
use ec_protocol::Event;
use ec_wire::MsgKind;
use std::alloc::Global;

impl LeaseWorld {
    pub(crate) fn happen<D: CrashDisk>(
        &mut self,
        alloc: Global,
        disk: &mut D,
        event: LeaseEvent,
    ) -> Result<(), LeaseFault>
        requires may { MayStep (leased self.old) event }
        requires in_step { IsInStep D.tells (D.view disk.old) self.old }
        requires piece { self.old.piece.items ≡ [] }
        ensures comes { Comes result D.tells (D.view disk.new) (behind_lease_arm event (D.counts disk.old)) (D.counts disk.new) (ticks event) (λ fate. leases.happens fate event (leased self.old)) self.old self.new }
        ensures counts { LeaseCounts event (D.counts disk.old) (D.counts disk.new) (IsErrOf result (lease_fault.World fault.DiskFailed)) (IsErrOf result lease_fault.NoMemory) }
    {
        match event {
            LeaseEvent::World(event) => self.event_happens(alloc, disk, event),
            LeaseEvent::Tick(ticks) => {
                self.book.tick(ticks);
                Ok(())
            }
            LeaseEvent::Skew(clerk, skew) => told(self.book.set_skew(clerk, skew)),
            LeaseEvent::Grant(clerk) => self.grant(alloc, clerk),
            LeaseEvent::Hand(clerk, nth) => self.hand(alloc, clerk, nth),
            LeaseEvent::Renew => told(self.renew(alloc)),
        }
    }

    fn event_happens<D: CrashDisk>(
        &mut self,
        alloc: Global,
        disk: &mut D,
        event: Event,
    ) -> Result<(), LeaseFault>
        requires in_step { IsInStep D.tells (D.view disk.old) self.old }
        requires piece { self.old.piece.items ≡ [] }
        ensures comes { Comes result D.tells (D.view disk.new) (behind_arm event (D.counts disk.old)) (D.counts disk.new) 0 (λ fate. leases.event_happens fate event (leased self.old)) self.old self.new }
        ensures counts { CountsOf event (D.counts disk.old) (D.counts disk.new) (IsErrOf result (lease_fault.World fault.DiskFailed)) (IsErrOf result lease_fault.NoMemory) }
    {
        match event {
            Event::Call(clerk, line, call) => {
                if self.is_held(clerk) {
                    self.queue(alloc, clerk, line, call)
                } else {
                    self.world_happens(alloc, disk, Event::Call(clerk, line, call))
                }
            }
            Event::Deliver(number) => {
                if self.is_kept(number) {
                    self.nothing(alloc)
                } else {
                    self.world_happens(alloc, disk, Event::Deliver(number))
                }
            }
            Event::Crash(clerk) => {
                drop(self.book.take_queue(alloc, clerk));
                self.world_happens(alloc, disk, Event::Crash(clerk))
            }
            Event::End(clerk) => self.end(alloc, disk, clerk),
            Event::Restart => self.restart(alloc, disk),
            event => self.world_happens(alloc, disk, event),
        }
    }

    // A step of the world.
    fn world_happens<D: CrashDisk>(
        &mut self,
        alloc: Global,
        disk: &mut D,
        event: Event,
    ) -> Result<(), LeaseFault>
        requires in_step { IsInStep D.tells (D.view disk.old) self.old }
        requires piece { self.old.piece.items ≡ [] }
        ensures comes { Comes result D.tells (D.view disk.new) (behind_arm event (D.counts disk.old)) (D.counts disk.new) 0 (λ fate. leases.world_happens fate event (leased self.old)) self.old self.new }
        ensures counts { CountsOf event (D.counts disk.old) (D.counts disk.new) (IsErrOf result (lease_fault.World fault.DiskFailed)) (IsErrOf result lease_fault.NoMemory) }
    {
        match self.world.step(alloc, disk, event) {
            Ok(lines) => self.show_all(lines),
            Err(fault) => Err(of_world(fault)),
        }
    }

    fn nothing(&mut self, alloc: Global) -> Result<(), LeaseFault>
        requires { self.old.piece.items ≡ [] }
        ensures ok { OnOk result (leases.nothing (leased self.old) ≡ under_way self.new) }
        ensures err { IfErr result (λ fault. fault ≡ lease_fault.NoMemory) }
        ensures same { KeepsServer self.old self.new }
    {
        match self.world.show_none(alloc) {
            Ok(line) => self.show(LeaseShown::Line(line)),
            Err(_) => Err(LeaseFault::NoMemory),
        }
    }

    // A message other than Ended isn't delivered to a held clerk.
    fn is_kept(&self, number: u64) -> bool
        ensures { result ≡ leases.is_kept number (leased self.now) }
    {
        match self.world.goes_to(number) {
            Some((clerk, kind)) => self.is_kept_from(clerk, kind),
            None => false,
        }
    }

    fn is_kept_from(&self, clerk: ClerkId, kind: MsgKind) -> bool
        ensures { result ≡ is_kept_from (leases.held (leased self.now)) (Some (clerk, kind)) }
    {
        is_clerk(clerk);
        !is_ended(kind) && self.is_held(clerk)
    }

    // The moment before which the clerk's session may not end.
    fn ends_at(&self, clerk: ClerkId) -> Option<u64>
        ensures { result ≡ leases.ends_at clerk (resumes.open_session clerk (leased self.now).world) (leased self.now) }
    {
        match self.world.open_session(clerk) {
            Some(session) => self.book.ends_at(clerk, session),
            None => None,
        }
    }

    fn end<D: CrashDisk>(
        &mut self,
        alloc: Global,
        disk: &mut D,
        clerk: ClerkId,
    ) -> Result<(), LeaseFault>
        requires in_step { IsInStep D.tells (D.view disk.old) self.old }
        requires piece { self.old.piece.items ≡ [] }
        ensures comes { Comes result D.tells (D.view disk.new) (D.counts disk.old) (D.counts disk.new) 0 (λ fate. leases.end fate clerk (leases.ends_at clerk (resumes.open_session clerk (leased self.old).world) (leased self.old)) (leased self.old)) self.old self.new }
        ensures counts { Counted (D.counts disk.old) (D.counts disk.new) (IsErrOf result (lease_fault.World fault.DiskFailed)) ⊥ }
    {
        match self.ends_at(clerk) {
            Some(moment) if self.book.now() < moment => self.show(LeaseShown::Held(clerk, moment)),
            _ => self.world_happens(alloc, disk, Event::End(clerk)),
        }
    }

    // One that comes up notes open sessions anew.
    fn restart<D: CrashDisk>(&mut self, alloc: Global, disk: &mut D) -> Result<(), LeaseFault>
        requires in_step { IsInStep D.tells (D.view disk.old) self.old }
        requires piece { self.old.piece.items ≡ [] }
        ensures comes { Comes result D.tells (D.view disk.new) (D.counts disk.old) (D.counts disk.new) 0 (λ fate. leases.noted_if_started (leases.world_happens fate world_event.Restart (leased self.old))) self.old self.new }
        ensures counts { Counted (D.counts disk.old) (D.counts disk.new) (IsErrOf result (lease_fault.World fault.DiskFailed)) ⊥ }
    {
        self.world_happens(alloc, disk, Event::Restart)?;
        if !shows_start(&self.piece) {
            return Ok(());
        }
        told(self.note_open())
    }

    // A Lease is issued that the clerk doesn't receive.
    fn grant(&mut self, alloc: Global, clerk: ClerkId) -> Result<(), LeaseFault>
        requires { self.old.piece.items ≡ [] }
        ensures ok { OnOk result (leases.grant clerk (resumes.open_session clerk (leased self.old).world) (leased self.old) ≡ under_way self.new) }
        ensures err { IfErr result (λ fault. fault ≡ lease_fault.NoMemory) }
        ensures same { KeepsServer self.old self.new }
    {
        match self.world.open_session(clerk) {
            Some(session) => told(self.book.issue(alloc, clerk, session)),
            None => self.nothing(alloc),
        }
    }

    // The clerk receives the nth Lease issued to it.
    fn hand(&mut self, alloc: Global, clerk: ClerkId, nth: u32) -> Result<(), LeaseFault>
        requires { self.old.piece.items ≡ [] }
        ensures ok { OnOk result (leases.hand clerk (leases.nth nth (at_or [] clerk self.old.book.issued)) (leased self.old) ≡ under_way self.new) }
        ensures err { IfErr result (λ fault. HappensNot fault (leased self.old).world (λ fate. leases.hand clerk (leases.nth nth (at_or [] clerk self.old.book.issued)) (leased self.old)) (ended_with fault self.new) ⊤) }
        ensures faults { IfErr result (λ fault. (fault ≡ lease_fault.NoSuchLease) ⊎ (fault ≡ lease_fault.NoMemory)) }
        ensures same { KeepsServer self.old self.new }
    {
        let Some(lease) = self.book.nth(clerk, nth) else {
            return Err(LeaseFault::NoSuchLease);
        };
        if !self.may_receive(clerk, &lease) {
            return self.nothing(alloc);
        }
        told(self.book.receive(clerk, lease))
    }
}

// Whether one of the lines shows that a server started.
fn shows_start(lines: &[LeaseShown]) -> bool
    ensures { result ≡ list_any leases.is_started lines.now }
{
    lines
        .iter()
        .any(|line| matches!(line, LeaseShown::Line(Shown::Started)))
}

fn is_ended(kind: MsgKind) -> bool
    ensures { result ≡ same_kind kind of_kind.Ended }
{
    matches!(kind, MsgKind::Ended)
}

// A clerk's number is below their count.
fn is_clerk(clerk: ClerkId)
    ensures { clerk < clerk_count }
{
    let _number = clerk.get();
}
