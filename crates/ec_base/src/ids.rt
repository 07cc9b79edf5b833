// Numbers of objects, clerks, operations and sessions, ages, and the modes of a token.
ghost use Rattle.std.specs.Prelude.{◌≡◌, ◌↔◌, ◌<◌, ◌≤◌, ◌+◌, ◌^◌, ℕ, IfSome, IsNone, MatchOption};
ghost use Rattle.ec_base.specs.Ages.{is_older};
ghost use Rattle.ec_base.specs.Holds.{is_below};
ghost use Rattle.ec_base.specs.Limits.{clerk_count, last_counter};

use crate::limits::{CLERK_COUNT, LAST_COUNTER};
use crate::list::{Duplicate, NoMemory};
use std::marker::Model;

/// The id of an object, from 1. It is never used again.
#[derive(Clone, Copy, Debug, Drop, PartialEq, Eq, PartialOrd, Ord)]
pub struct ObjId {
    number: u32,
}

impl Model for ObjId {
    ghost Value = { ℕ };

    ghost view = { λ a. a.number };

    ghost invariant = { λ a. 1 ≤ a.number };

    ghost inverse = { λ n. record { number = n } };
}

impl ObjId {
    /// The id of this number, or `None` for 0.
    pub fn new(number: u32) -> Option<ObjId>
        ensures some { IfSome result (λ id. id ≡ number) }
        ensures none { IsNone result ↔ (number ≡ 0) }
    {
        if number == 0 {
            return None;
        }
        Some(ObjId { number })
    }

    /// The root of every volume.
    pub fn root() -> ObjId
        ensures { result ≡ 1 }
    {
        ObjId { number: 1 }
    }

    /// The number, from 1.
    pub fn get(&self) -> u32
        ensures value { result ≡ self.now }
        ensures from_one { 1 ≤ result }
    {
        self.number
    }
}

impl Duplicate for ObjId {
    fn duplicate(&self) -> Result<Self, NoMemory> {
        Ok(*self)
    }
}

/// One of 16 clerks, `A` to `P`, by its number from 0.
#[derive(Clone, Copy, Debug, Drop, PartialEq, Eq, PartialOrd, Ord)]
pub struct ClerkId {
    number: u8,
}

impl Model for ClerkId {
    ghost use Rattle.std.specs.Prelude.{◌<◌, ℕ};
    ghost use Rattle.ec_base.specs.Limits.{clerk_count};

    ghost Value = { ℕ };

    ghost view = { λ a. a.number };

    ghost invariant = { λ a. a.number < clerk_count };

    ghost inverse = { λ n. record { number = n } };
}

impl ClerkId {
    /// The clerk of this number, or `None` from 16 on.
    pub fn new(number: u8) -> Option<ClerkId>
        ensures some { IfSome result (λ id. id ≡ number) }
        ensures none { IsNone result ↔ (clerk_count ≤ number) }
    {
        if number >= CLERK_COUNT {
            return None;
        }
        Some(ClerkId { number })
    }

    /// The number, 0 to 15.
    pub fn get(&self) -> u8
        ensures value { result ≡ self.now }
        ensures below { result < clerk_count }
    {
        self.number
    }
}

impl Duplicate for ClerkId {
    fn duplicate(&self) -> Result<Self, NoMemory> {
        Ok(*self)
    }
}

/// The number of an operation, from 1 at each start of its clerk.
#[derive(Clone, Copy, Debug, Drop, PartialEq, Eq, PartialOrd, Ord)]
pub struct OpNo(pub u64);

impl Model for OpNo {
    ghost Value = { ℕ };

    ghost view = { λ a. a.0 };

    ghost inverse = { λ n. record { 0 = n } };
}

impl Duplicate for OpNo {
    fn duplicate(&self) -> Result<Self, NoMemory> {
        Ok(*self)
    }
}

/// The number of a session, from 1 over all clerks.
#[derive(Clone, Copy, Debug, Drop, PartialEq, Eq, PartialOrd, Ord)]
pub struct SessionNo(pub u64);

impl Model for SessionNo {
    ghost Value = { ℕ };

    ghost view = { λ a. a.0 };

    ghost inverse = { λ n. record { 0 = n } };
}

impl Duplicate for SessionNo {
    fn duplicate(&self) -> Result<Self, NoMemory> {
        Ok(*self)
    }
}

/// How old a clerk's session is: by its boot, then by its round in this boot.
#[derive(Clone, Copy, Debug, Drop, PartialEq, Eq, PartialOrd, Ord)]
pub struct Age {
    pub boot: u64,
    pub round: u32,
}

impl Age {
    /// Whether this age is below the other one: by boot, then by round, as by `<`.
    pub fn is_older(&self, other: &Age) -> bool
        ensures { result ≡ is_older self.now other.now }
    {
        self < other
    }
}

impl Duplicate for Age {
    fn duplicate(&self) -> Result<Self, NoMemory> {
        Ok(*self)
    }
}

/// What a token allows, in rising order.
#[derive(Clone, Copy, Debug, Drop, PartialEq, Eq, PartialOrd, Ord)]
pub enum Hold {
    Free,
    Read,
    Write,
}

impl Hold {
    /// Whether this mode allows less than the other one, as by `<`.
    pub fn is_below(&self, other: &Hold) -> bool
        ensures { result ≡ is_below self.now other.now }
    {
        self < other
    }
}

impl Duplicate for Hold {
    fn duplicate(&self) -> Result<Self, NoMemory> {
        Ok(*self)
    }
}

/// The next value of a counter. Counters stop at 2^62.
pub fn next(n: u64) -> Option<u64>
    ensures { MatchOption result (last_counter ≤ n) (λ m. (m ≡ n + 1) × (n < last_counter)) }
{
    if n >= LAST_COUNTER { None } else { Some(n + 1) }
}
