//! A window, and the sessions of one clerk.

use ec_base::{Age, ClerkId, NoMemory, ObjId, SessionNo};
use ec_sessions::{Greeting, Marked, Sessions, Slot, Window};
use std::alloc::Global;

#[test]
#[tactic(auto, unfolding(ec_sessions::specs::Windows::marked))]
fn five_marks(rt: HostRuntime) {
    let mut window = Window { low: 0, mask: 0 };
    let first = (window.mark(2), window.mark(1));
    assert!(rt; first == (Marked::Marked, Marked::Marked) && window == Window { low: 2, mask: 0 });
    let next = (window.mark(11), window.mark(10), window.mark(2));
    assert!(rt; next == (Marked::Beyond(2), Marked::Marked, Marked::Already));
    assert!(rt; window.has(10) && !window.has(3));
}

fn age(boot: u64) -> Age {
    Age { boot, round: 0 }
}

// What an older, the same and a greater age are told.
fn greetings(sessions: &Sessions, clerk: ClerkId) -> [Greeting; 3] {
    [
        sessions.hello(clerk, age(1)),
        sessions.hello(clerk, age(2)),
        sessions.hello(clerk, age(3)),
    ]
}

fn has_fifteen_ids_left(slot: &Slot, first: ObjId) -> bool {
    slot.is_open
        && slot.age == age(2)
        && slot.session == SessionNo(1)
        && slot.window == (Window { low: 0, mask: 0 })
        && (slot.grants, slot.last_first) == (1, Some(first))
        && slot.unspent.as_slice().iter().map(|id| id.get()).eq(3..18)
}

fn again(sessions: Sessions) -> Result<Sessions, NoMemory> {
    Sessions::of(sessions.into_slots())
}

fn is_in_its_slot(sessions: &Sessions, clerk: ClerkId, first: ObjId) -> bool {
    match sessions.slot(clerk) {
        Some(slot) => has_fifteen_ids_left(slot, first),
        None => false,
    }
}

fn spends(sessions: &mut Sessions, clerk: ClerkId, first: ObjId) -> bool {
    sessions.spend(clerk, first) && !sessions.spend(clerk, first) && sessions.reserved() == 15
}

// Clerk A's first session, which has the ids from 2 on.
fn opened(alloc: Global) -> Result<Sessions, NoMemory> {
    let Some(clerk) = ClerkId::new(0) else {
        return Err(NoMemory);
    };
    let Some(first) = ObjId::new(2) else {
        return Err(NoMemory);
    };
    let mut sessions = Sessions::new(alloc)?;
    sessions.open(clerk, age(2), SessionNo(1))?;
    sessions.reserve(clerk, first)?;
    Ok(sessions)
}

#[test]
fn one_clerk(rt: HostRuntime) {
    let clerk = ClerkId::new(0).expect(&rt, "a clerk");
    let first = ObjId::new(2).expect(&rt, "an id");
    let mut sessions = opened(rt.alloc()).expect(&rt, "memory");
    let want = [
        Greeting::OldBoot(age(2)),
        Greeting::Same(SessionNo(1)),
        Greeting::Greater(Some(SessionNo(1))),
    ];
    let is_greeted = greetings(&sessions, clerk) == want;
    let is_spent = spends(&mut sessions, clerk, first);
    let sessions = again(sessions).expect(&rt, "memory");
    assert!(rt; is_greeted && is_spent && is_in_its_slot(&sessions, clerk, first));
}

#[test]
fn one_end(rt: HostRuntime) {
    let clerk = ClerkId::new(15).expect(&rt, "a clerk");
    let mut sessions = Sessions::new(rt.alloc()).expect(&rt, "memory");
    sessions
        .open(clerk, age(1), SessionNo(7))
        .expect(&rt, "memory");
    let marked = sessions.mark(clerk, 1);
    let ended = (sessions.end(clerk), sessions.end(clerk));
    let greeting = sessions.hello(clerk, age(1));
    drop(sessions);
    assert!(rt; marked == Marked::Marked && ended == (Some(SessionNo(7)), None));
    assert!(rt; greeting == Greeting::Ended(SessionNo(7), Window { low: 1, mask: 0 }));
}
