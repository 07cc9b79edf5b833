// Leases and skews within their bounds, so that sums of them stay within 64 bits.
ghost use Rattle.std.specs.Prelude.{◌≡◌, ◌≤◌};
ghost use Rattle.ec_lease_machine.specs.OfBook.Bounds.{last_moment, most_skew};

use ec_base::SessionNo;
use std::marker::Model;

/// The greatest length of Leases.
pub const MOST_LENGTH: u64 = 1_000_000;

/// The server's clock ends here.
pub const LAST_TICK: u64 = 4_611_686_018_427_387_904;

/// A Lease: the session that it names, and its moment.
#[derive(Clone, Copy, Drop)]
pub struct Lease {
    session: SessionNo,
    moment: u64,
}

impl Model for Lease {
    ghost use Rattle.std.specs.Prelude.{◌≤◌};
    ghost use Rattle.ec_lease_machine.specs.OfBook.Bounds.{last_moment};
    ghost use Rattle.ec_lease_machine.specs.declared.world.Lease.{Lease as Named};

    ghost Value = { Named };

    ghost view = { λ a. record { session = a.session; moment = a.moment } };

    ghost invariant = { λ a. a.moment ≤ last_moment };

    ghost inverse = { λ n. record { session = n.session; moment = n.moment } };
}

impl Lease {
    /// The Lease of this session and moment.
    pub fn of(session: SessionNo, moment: u64) -> Lease
        requires { moment ≤ last_moment }
        ensures { result ≡ record { session = session; moment = moment } }
    {
        Lease { session, moment }
    }

    /// The session that it names.
    pub fn session(&self) -> SessionNo
        ensures { result ≡ self.now.session }
    {
        self.session
    }

    /// Its moment.
    pub fn moment(&self) -> u64
        ensures value { result ≡ self.now.moment }
        ensures bounded { result ≤ last_moment }
    {
        self.moment
    }
}

// By how much a clerk's clock is above its least.
#[derive(Clone, Copy, Drop)]
pub(crate) struct Skew {
    over: u64,
}

impl Model for Skew {
    ghost use Rattle.std.specs.Prelude.{◌≤◌, ℕ};
    ghost use Rattle.ec_lease_machine.specs.OfBook.Bounds.{most_skew};

    ghost Value = { ℕ };

    ghost view = { λ a. a.over };

    ghost invariant = { λ a. a.over ≤ most_skew };

    ghost inverse = { λ n. record { over = n } };
}

impl Skew {
    pub(crate) fn of(over: u64) -> Skew
        requires { over ≤ most_skew }
        ensures { result ≡ over }
    {
        Skew { over }
    }

    pub(crate) fn get(&self) -> u64
        ensures value { result ≡ self.now }
        ensures bounded { result ≤ most_skew }
    {
        self.over
    }
}
