// Clocks and moments.
ghost use Rattle.std.specs.Prelude.{◌≡◌, ◌≤◌, ◌<◌, ◌+◌, ◌*◌, [], Some, option_copied, OnOk, IfSome};
ghost use Rattle.ec_base.specs.Tables.{at, at_or, or_else, put};
ghost use Rattle.ec_protocol.specs.declared.world.World.{World};
ghost use Rattle.ec_lease_machine.specs.Leases as leases;
ghost use Rattle.ec_lease_machine.specs.OfBook.Book.{with_book};
ghost use Rattle.ec_lease_machine.specs.OfBook.Bounds.{last_moment, last_tick, most_length};

use crate::book::lease::{Lease, Skew};
use crate::book::queues::add_to;
use ec_base::{ClerkId, List, NoMemory, SessionNo, SortedMap};
use ec_plain::Call;
use std::alloc::Global;
use std::marker::Model;

/// Clocks, Leases and queued calls.
pub struct Book {
    length: u64,
    most: u64,
    clock: u64,
    skews: SortedMap<ClerkId, Skew>,
    issued: SortedMap<ClerkId, List<Lease>>,
    noted: SortedMap<ClerkId, Lease>,
    leases: SortedMap<ClerkId, Lease>,
    pub(crate) queued: SortedMap<ClerkId, List<(u32, Call)>>,
}

// Who drops one calls this, and needn't take it apart.
impl Drop for Book {
    fn drop(self) {
        let Book {
            length: _,
            most: _,
            clock: _,
            skews,
            issued,
            noted,
            leases,
            queued,
        } = self;
        drop(skews);
        drop(issued);
        drop(noted);
        drop(leases);
        drop(queued);
    }
}

impl Model for Book {
    ghost use Rattle.ec_lease_machine.specs.OfBook.Book.{Booked, IsWithin};

    ghost Value = { Booked };

    ghost view = { λ a. record { length = a.length; most = a.most; clock = a.clock; skews = a.skews; issued = a.issued; noted = a.noted; leases = a.leases; queued = a.queued } };

    ghost invariant = { λ a. IsWithin a.length a.most a.clock };
}

impl Book {
    /// At the opening of a world with Leases of this length, and clocks that differ by at most so much.
    pub fn new(alloc: Global, length: u64, most: u64) -> Book
        requires length { length ≤ most_length }
        requires most { most < length }
        ensures { (w : World) → leases.opened_leases length most w ≡ with_book result w }
    {
        Book {
            length,
            most,
            clock: 0,
            skews: SortedMap::new(alloc),
            issued: SortedMap::new(alloc),
            noted: SortedMap::new(alloc),
            leases: SortedMap::new(alloc),
            queued: SortedMap::new(alloc),
        }
    }

    /// The server's clock.
    pub fn now(&self) -> u64
        ensures { result ≡ self.now.clock }
    {
        self.clock
    }

    /// The server's clock goes on.
    pub fn tick(&mut self, ticks: u64)
        requires { self.old.clock + ticks ≤ last_tick }
        ensures { self.new ≡ record self.old { clock = self.old.clock + ticks } }
    {
        self.clock += ticks;
    }

    /// Sets by how much the clerk's clock is above its least.
    pub fn set_skew(&mut self, clerk: ClerkId, skew: u64) -> Result<(), NoMemory>
        requires { skew ≤ 2 * self.old.most }
        ensures { OnOk result (self.new ≡ record self.old { skews = put clerk skew self.old.skews }) }
    {
        self.skews.insert(clerk, Skew::of(skew))
    }

    fn skew(&self, clerk: ClerkId) -> Skew
        ensures { (w : World) → result ≡ leases.skew clerk (with_book self.now w) }
    {
        match self.skews.get(&clerk) {
            Some(skew) => *skew,
            None => Skew::of(self.most),
        }
    }

    // Whether the clerk's clock has come to the moment. All clocks are compared by sums.
    fn is_past(&self, clerk: ClerkId, moment: u64) -> bool
        requires { moment ≤ last_moment }
        ensures { (w : World) → result ≡ leases.is_past clerk moment (with_book self.now w) }
    {
        moment + self.most <= self.clock + self.skew(clerk).get()
    }

    /// Whether the clerk in this session has no Lease of it whose moment is above its clock.
    pub fn has_run_out(&self, clerk: ClerkId, session: SessionNo) -> bool
        ensures { (w : World) → result ≡ leases.has_run_out clerk (leases.moment_in session (at clerk self.now.leases)) (with_book self.now w) }
    {
        match moment_in(session, self.leases.get(&clerk)) {
            Some(moment) => self.is_past(clerk, moment),
            None => true,
        }
    }

    /// A Lease that is issued now.
    pub fn lease(&self, session: SessionNo) -> Lease
        ensures { (w : World) → result ≡ leases.lease session (with_book self.now w) }
    {
        Lease::of(session, self.clock + self.length)
    }

    /// The server notes the moment of a Lease that were issued now, if none of the session is greater.
    pub fn note(&mut self, clerk: ClerkId, session: SessionNo) -> Result<(), NoMemory>
        ensures { OnOk result ((w : World) → leases.note clerk (leases.lease session (with_book self.old w)) (with_book self.old w) ≡ with_book self.new w) }
    {
        let noted = moment_in(session, self.noted.get(&clerk));
        let moment = greater(noted, self.clock + self.length);
        self.noted.insert(clerk, Lease::of(session, moment))
    }

    /// Issues a Lease of this session to the clerk.
    pub fn issue(
        &mut self,
        alloc: Global,
        clerk: ClerkId,
        session: SessionNo,
    ) -> Result<(), NoMemory>
        ensures { OnOk result ((w : World) → leases.issue clerk session (with_book self.old w) ≡ with_book self.new w) }
    {
        let lease = self.lease(session);
        add_to(alloc, &mut self.issued, clerk, lease)?;
        self.note(clerk, session)
    }

    /// Whether the moment of this Lease is above that of the clerk's own one of the same session.
    pub fn is_above(&self, clerk: ClerkId, lease: &Lease) -> bool
        ensures { result ≡ leases.is_above (leases.moment_in lease.now.session (at clerk self.now.leases)) lease.now.moment }
    {
        match moment_in(lease.session(), self.leases.get(&clerk)) {
            Some(own) => own < lease.moment(),
            None => true,
        }
    }

    /// The clerk keeps this Lease.
    pub fn receive(&mut self, clerk: ClerkId, lease: Lease) -> Result<(), NoMemory>
        ensures { OnOk result ((w : World) → leases.receive clerk lease (with_book self.old w) ≡ with_book self.new w) }
    {
        self.leases.insert(clerk, lease)
    }

    /// The nth Lease issued to the clerk, from 1.
    pub fn nth(&self, clerk: ClerkId, nth: u32) -> Option<Lease>
        ensures { result ≡ leases.nth nth (at_or [] clerk self.now.issued) }
    {
        match self.issued.get(&clerk) {
            Some(issued) => nth_of(issued.as_slice(), nth),
            None => None,
        }
    }

    /// The moment before which the clerk's session may not end: the one noted for it, plus what clocks differ by.
    pub fn ends_at(&self, clerk: ClerkId, session: SessionNo) -> Option<u64>
        ensures { (w : World) → result ≡ leases.ends_at clerk (Some session) (with_book self.now w) }
    {
        match moment_in(session, self.noted.get(&clerk)) {
            Some(moment) => Some(moment + self.most),
            None => None,
        }
    }
}

// The moment of a Lease, where it's of this session.
fn moment_in(session: SessionNo, lease: Option<&Lease>) -> Option<u64>
    ensures value { result ≡ leases.moment_in session (option_copied lease.entry) }
    ensures bounded { IfSome result (λ m. m ≤ last_moment) }
{
    match lease {
        Some(lease) if lease.session() == session => Some(lease.moment()),
        _ => None,
    }
}

// The greater one of the moment noted so far, if there is one, and this one.
fn greater(noted: Option<u64>, moment: u64) -> u64
    requires noted { IfSome noted (λ m. m ≤ last_moment) }
    requires moment { moment ≤ last_moment }
    ensures value { result ≡ leases.greater (or_else 0 noted) moment }
    ensures bounded { result ≤ last_moment }
{
    let noted = match noted {
        Some(noted) => noted,
        None => 0,
    };
    if noted < moment { moment } else { noted }
}

// The nth Lease, from 1.
fn nth_of(issued: &[Lease], nth: u32) -> Option<Lease>
    ensures { result ≡ leases.nth nth issued.now }
{
    if nth == 0 {
        return None;
    }
    match issued.get(nth as usize - 1) {
        Some(lease) => Some(*lease),
        None => None,
    }
}
