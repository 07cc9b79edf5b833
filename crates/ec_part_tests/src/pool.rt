//! What a pool of messages answers, call by call.

use ec_base::{ClerkId, NoMemory, SessionNo};
use ec_protocol::pool::Pool;
use ec_wire::{Msg, MsgKind};
use std::alloc::Global;

// A call on a pool, and what it answers. Clerks are numbers.
#[derive(Clone, Copy)]
enum Step {
    SendsBye(u8),
    SendsKept(u8),
    // So many messages, all settled at once but the seventh and the eighth.
    SendsMany(u64),
    Settles(u64),
    Forgets,
    Cuts(u8),
    Uncuts(u8),
    MakesPending(u64),
    AreDue(Option<u64>, Option<u64>),
    ArePending(u64),
    IsFound(u8, u32, Option<u64>),
    IsKept(u64, bool),
}

use Step::*;

fn clerk(number: u8) -> Result<ClerkId, NoMemory> {
    ClerkId::new(number).ok_or(NoMemory)
}

fn sends_bye(pool: &mut Pool, a: ClerkId) -> Result<bool, NoMemory> {
    pool.send(a, Msg::Bye(SessionNo(1), 1))?;
    Ok(true)
}

fn sends_kept(pool: &mut Pool, a: ClerkId) -> Result<bool, NoMemory> {
    pool.send(a, Msg::Kept(SessionNo(2), 1, 1))?;
    Ok(true)
}

fn sends_many(pool: &mut Pool, a: ClerkId, count: u64) -> Result<bool, NoMemory> {
    for number in 1..=count {
        pool.send(a, Msg::Kept(SessionNo(1), 1, 1))?;
        if number != 7 && number != 8 {
            pool.settle(number);
        }
        pool.forget();
    }
    Ok(true)
}

fn cuts(pool: &mut Pool, a: ClerkId) -> Result<bool, NoMemory> {
    if pool.is_cut(a) {
        return Ok(false);
    }
    pool.cut(a)?;
    Ok(true)
}

fn uncuts(pool: &mut Pool, a: ClerkId) -> bool {
    let was_cut = pool.is_cut(a);
    if was_cut {
        pool.uncut(a);
    }
    was_cut
}

fn makes_pending(pool: &mut Pool, number: u64) -> Result<bool, NoMemory> {
    if pool.message(number).is_none() {
        return Ok(false);
    }
    pool.make_pending(number)?;
    Ok(pool.is_pending(number))
}

fn settles(pool: &mut Pool, number: u64) -> bool {
    pool.settle(number);
    true
}

fn forgets(pool: &mut Pool) -> bool {
    pool.forget();
    true
}

// Whether the call answers so.
fn answers(pool: &mut Pool, step: Step) -> Result<bool, NoMemory> {
    match step {
        SendsBye(of) => sends_bye(pool, clerk(of)?),
        SendsKept(of) => sends_kept(pool, clerk(of)?),
        SendsMany(count) => sends_many(pool, clerk(0)?, count),
        Settles(number) => Ok(settles(pool, number)),
        Forgets => Ok(forgets(pool)),
        Cuts(of) => cuts(pool, clerk(of)?),
        Uncuts(of) => Ok(uncuts(pool, clerk(of)?)),
        MakesPending(number) => makes_pending(pool, number),
        AreDue(up, down) => Ok(pool.due(true) == up && pool.due(false) == down),
        ArePending(count) => Ok(pool.pending() == count),
        IsFound(of, nth, number) => Ok(pool.find(clerk(of)?, MsgKind::Bye, nth) == number),
        IsKept(number, is_kept) => Ok(pool.message(number).is_some() == is_kept),
    }
}

// The place of the first call that answers otherwise, over a new pool.
fn first_wrong(alloc: Global, steps: &[Step]) -> Result<Option<usize>, NoMemory> {
    let mut pool = Pool::new(alloc);
    let wrong = find_wrong(&mut pool, steps);
    drop(pool);
    wrong
}

fn find_wrong(pool: &mut Pool, steps: &[Step]) -> Result<Option<usize>, NoMemory> {
    for (place, step) in steps.iter().enumerate() {
        if !answers(pool, *step)? {
            return Ok(Some(place));
        }
    }
    Ok(None)
}

#[test]
fn calls_on_pools(rt: HostRuntime) {
    let rows: [&[Step]; 2] = [
        // Messages are due in order, but those of links that are cut, and those to a server that doesn't run.
        &[
            SendsBye(0),
            SendsBye(1),
            SendsBye(0),
            SendsKept(1),
            ArePending(4),
            AreDue(Some(1), Some(4)),
            IsFound(0, 2, Some(3)),
            Settles(1),
            Settles(2),
            AreDue(Some(3), Some(4)),
            Cuts(0),
            AreDue(Some(4), Some(4)),
            Uncuts(0),
            MakesPending(2),
            AreDue(Some(2), Some(4)),
        ],
        // The last 4,096 and the pending ones are kept.
        &[
            SendsMany(5_000),
            IsKept(7, true),
            IsKept(904, false),
            IsKept(905, true),
            Settles(7),
            Forgets,
            IsKept(7, false),
            AreDue(Some(8), Some(8)),
        ],
    ];
    for steps in rows {
        assert!(rt; first_wrong(rt.alloc(), steps) == Ok(None));
    }
}
