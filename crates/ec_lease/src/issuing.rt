// Leases are issued and received, and the server notes them.
ghost use Rattle.std.specs.Prelude.{◌≡◌, ◌<◌, ◌&&◌, not, Some, OnOk};
ghost use Rattle.ec_base.specs.Limits.{clerk_count};
ghost use Rattle.ec_lease.specs.Worlds.{leased};
ghost use Rattle.ec_lease_machine.specs.Leases as leases;
ghost use Rattle.ec_protocol.specs.Resumes as resumes;
ghost use Rattle.ec_lease.specs.Issuing.{note_in};
ghost use Rattle.ec_world.specs.Leases.{HasSlots};
ghost use Rattle.ec_protocol.specs.Clerk as clerk_machine;
ghost use Rattle.ec_protocol.specs.World as machine;
ghost use Rattle.ec_volume.specs.Update.{member};

use crate::world::LeaseWorld;
use ec_base::{CLERK_COUNT, ClerkId, NoMemory, SessionNo};
use ec_lease_machine::book::Lease;
use std::alloc::Global;

impl LeaseWorld {
    // Whether the Lease is of the clerk's session, and its moment is above that of its own.
    pub(crate) fn may_receive(&self, clerk: ClerkId, lease: &Lease) -> bool
        ensures { result ≡ leases.may_receive clerk lease.now (leased self.now) }
    {
        is_session(lease.session(), self.world.session(clerk)) && self.book.is_above(clerk, lease)
    }

    // Whether such a Lease comes to the clerk, in this session.
    fn may_renew(&self, clerk: ClerkId, session: SessionNo, lease: &Lease) -> bool
        ensures { result ≡ ((not (member clerk (leased self.now).world.cut) && clerk_machine.is_session session (resumes.open_session clerk (leased self.now).world)) && leases.may_receive clerk lease.now (leased self.now)) }
    {
        !self.world.is_cut(clerk)
            && is_session(session, self.world.open_session(clerk))
            && self.may_receive(clerk, lease)
    }

    // Each clerk that can get a later Lease is issued one and receives it, in the order of the clerks.
    pub(crate) fn renew(&mut self, alloc: Global) -> Result<(), NoMemory>
        ensures ok { OnOk result (leases.renew_each machine.clerks (leased self.old) ≡ leased self.new) }
        ensures world { self.new.world ≡ self.old.world }
        ensures piece { self.new.piece ≡ self.old.piece }
    {
        'clerks: for number in 0..CLERK_COUNT {
            self.renew_of(alloc, number)?;
        }
        Ok(())
    }

    // The clerk of this number.
    fn renew_of(&mut self, alloc: Global, number: u8) -> Result<(), NoMemory>
        requires { number < clerk_count }
        ensures ok { OnOk result (leases.renew_in number (resumes.session number (leased self.old).world) (leased self.old) ≡ leased self.new) }
        ensures world { self.new.world ≡ self.old.world }
        ensures piece { self.new.piece ≡ self.old.piece }
    {
        let Some(clerk) = ClerkId::new(number) else {
            unreachable!();
        };
        match self.world.session(clerk) {
            Some(session) => self.renew_in(alloc, clerk, session),
            None => Ok(()),
        }
    }

    fn renew_in(
        &mut self,
        alloc: Global,
        clerk: ClerkId,
        session: SessionNo,
    ) -> Result<(), NoMemory>
        ensures ok { OnOk result (leases.renew_in clerk (Some session) (leased self.old) ≡ leased self.new) }
        ensures world { self.new.world ≡ self.old.world }
        ensures piece { self.new.piece ≡ self.old.piece }
    {
        let lease = self.book.lease(session);
        if !self.may_renew(clerk, session, &lease) {
            return Ok(());
        }
        self.book.issue(alloc, clerk, session)?;
        self.book.receive(clerk, lease)
    }

    // A restart that came up notes for each open session the moment of a Lease that were issued now.
    pub(crate) fn note_open(&mut self) -> Result<(), NoMemory>
        ensures ok { OnOk result (leases.note_open (leased self.old).world.server (leased self.old) ≡ leased self.new) }
        ensures world { self.new.world ≡ self.old.world }
        ensures piece { self.new.piece ≡ self.old.piece }
    {
        'clerks: for number in 0..CLERK_COUNT {
            self.note_of(number)?;
        }
        Ok(())
    }

    fn note_of(&mut self, number: u8) -> Result<(), NoMemory>
        requires { number < clerk_count }
        ensures ok { OnOk result (note_in number (resumes.open_session number (leased self.old).world) (leased self.old) ≡ leased self.new) }
        ensures slots { HasSlots (leased self.old).world.server }
        ensures world { self.new.world ≡ self.old.world }
        ensures piece { self.new.piece ≡ self.old.piece }
    {
        let Some(clerk) = ClerkId::new(number) else {
            unreachable!();
        };
        match self.world.open_session(clerk) {
            Some(session) => self.book.note(clerk, session),
            None => Ok(()),
        }
    }
}

fn is_session(session: SessionNo, of: Option<SessionNo>) -> bool
    ensures { result ≡ clerk_machine.is_session session of }
{
    match of {
        Some(other) => session == other,
        None => false,
    }
}
