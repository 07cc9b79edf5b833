// What the judge carries from entry to entry.
use crate::starts::Starts;
use ec_base::{ClerkId, OpNo};
use ec_order::objtable::ObjTable;
use ec_pending::Deferred;
use ec_pending::overlay::Overlay;
use ec_pending::owes::Owes;
use ec_volume::Update;
use std::alloc::Global;

/// An operation that is kept so far.
#[derive(Drop)]
pub struct Kept {
    pub clerk: ClerkId,
    pub boot: u64,
    pub number: OpNo,
    /// The place of its entry.
    pub place: u32,
    /// The place of its entry among the entries, from 0.
    pub turn: usize,
    pub update: Update,
}

/// Which calls touched an object. Turns are places among the entries, from 0.
#[derive(Clone, Copy, Drop)]
pub struct Touches {
    /// The clerk of the last one.
    pub clerk: ClerkId,
    /// The turn of the last one.
    pub last: usize,
    /// The turn of the last one of another clerk, or 0.
    pub other: usize,
}

/// Whose entry stands where.
#[derive(Clone, Copy, Drop)]
pub struct Issuer {
    pub clerk: ClerkId,
    pub boot: u64,
    /// The place of the entry.
    pub place: u32,
    /// The place of the entry among the entries, from 0.
    pub turn: usize,
}

/// A start of a clerk.
pub struct Start {
    pub clerk: ClerkId,
    pub boot: u64,
    /// Its lost operations that are to be reported, each with one of its operands.
    pub owed: Owes,
    /// How many operations its entries had, and those that aren't covered, the lost ones too.
    pub pending: Deferred,
}

impl Drop for Start {
    fn drop(self) {
        let Start {
            clerk: _,
            boot: _,
            owed,
            pending,
        } = self;
        drop(owed);
        drop(pending);
    }
}

/// The volume behind the kept operations. Below it lies the one behind the first so many of them; a
/// loss hardly names one of these. Each operand of the others has an image of its own over it.
#[derive(Drop)]
pub struct Firm {
    pub volume: Overlay,
    pub count: usize,
    /// So many of the last kept operations stay out of the volume below.
    pub recent: usize,
    /// How many more of them losses have carried out again than they needed.
    pub idle: usize,
}

/// What the entries so far come to.
pub struct Judge {
    pub alloc: Global,
    pub kept: Vec<Kept>,
    pub firm: Firm,
    pub starts: Starts,
    /// Of each object which calls touched it.
    pub touches: ObjTable<Touches>,
}

// Who drops one calls this, and needn't take it apart.
impl Drop for Judge {
    fn drop(self) {
        let Judge {
            alloc: _,
            kept,
            firm,
            starts,
            touches,
        } = self;
        drop(kept);
        drop(firm);
        drop(starts);
        drop(touches);
    }
}
