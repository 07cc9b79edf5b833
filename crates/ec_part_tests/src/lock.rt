//! Two passes, one of which makes a step. The other knows it by a note, and then goes into it.
ghost use Rattle.std.specs.Prelude.{◌≡◌, ◌<◌, [], ◌∷◌, ◌++◌, length, IfSome, IsTrue, MatchBool};
ghost use Rattle.ec_lock.specs.Laws.{steps_of};
ghost use Rattle.ec_lock.specs.PassViews.{front, IsPassOf};

use ec_lock::{Pass, Traced, TracedLock};
use std::alloc::Global;
use std::sync::Wait;
use std::thread;

// The numbers of the passes that made the steps. Its floor is how many they are.
#[derive(Drop)]
struct Row {
    steps: Vec<u64>,
}

impl Traced for Row {
    ghost use Rattle.std.specs.Prelude.{Some, length, ⊤};
    ghost use Rattle.ec_lock.specs.Laws.{length_grows};

    type Step = u64;

    ghost list = { λ row. row.steps.items };

    ghost number = { λ step. Some step };

    ghost floor = { λ steps. length steps };

    ghost since = { λ _ _. ⊤ };

    ghost grows = { λ xs ys p. length_grows xs ys p };

    fn steps(&self) -> u64 {
        self.steps.len() as u64
    }
}

// Adds a step of this pass, where there is memory.
fn add(row: &mut Row, number: u64) -> bool
    ensures { MatchBool result (row.new.steps.items ≡ row.old.steps.items ++ number ∷ []) (row.new.steps.items ≡ row.old.steps.items) }
{
    row.steps.push(number).is_ok()
}

// A turn in which the pass makes a step, where there is memory.
fn make_step<R: Wait>(rt: &R, lock: &TracedLock<Row>, pass: &mut Pass<Row>) -> bool
    requires { IsPassOf lock.now pass.old }
    ensures pass { IsPassOf lock.now pass.new × (pass.new.number ≡ pass.old.number) }
    ensures step { IsTrue result → steps_of pass.old.number (front pass.new) ≡ steps_of pass.old.number (front pass.old) ++ pass.old.number ∷ [] }
    ensures long { IsTrue result → 0 < length (front pass.new) }
{
    let number = pass.number();
    let mut turn = lock.enter(rt, pass);
    let made = add(&mut turn.value, number);
    lock.leave(turn, pass);
    made
}

// One pass makes a step and hands the other a note. Both then know one step of it, whatever else is in the list.
fn make_and_meet<R: Wait>(
    rt: &R,
    lock: &TracedLock<Row>,
    one: &mut Pass<Row>,
    other: &mut Pass<Row>,
) -> bool
    requires one { IsPassOf lock.now one.old × (front one.old ≡ []) }
    requires other { IsPassOf lock.now other.old × (front other.old ≡ []) }
    ensures passes { IsPassOf lock.now one.new × IsPassOf lock.now other.new × (one.new.number ≡ one.old.number) }
    ensures one { IsTrue result → steps_of one.old.number (front one.new) ≡ one.old.number ∷ [] }
    ensures other { IsTrue result → steps_of one.old.number (front other.new) ≡ one.old.number ∷ [] }
{
    let made = make_step(rt, lock, one);
    let note = lock.note(one);
    lock.meet(other, note);
    made
}

// As many turns with a step as asked.
fn make_steps<R: Wait>(
    rt: &R,
    lock: &TracedLock<Row>,
    mut pass: Pass<Row>,
    count: u32,
) -> (Pass<Row>, u32)
    requires { IsPassOf lock.now pass }
    ensures { IsPassOf lock.now result.0 }
{
    let mut made = 0u32;
    for _ in 0..count {
        if make_step(rt, lock, &mut pass) {
            made = made.wrapping_add(1);
        }
    }
    (pass, made)
}

fn new_lock(alloc: Global) -> Option<(TracedLock<Row>, Pass<Row>)>
    ensures { IfSome result (λ made. IsPassOf made.0 made.1) }
{
    let row = Row {
        steps: Vec::new(alloc),
    };
    TracedLock::new(alloc, row).ok()
}

// Whether there are so many steps, and so many of them of this pass.
fn has_steps<R: Wait>(
    rt: &R,
    lock: &TracedLock<Row>,
    pass: &mut Pass<Row>,
    count: usize,
    number: u64,
    own: usize,
) -> bool
    requires { IsPassOf lock.now pass.old }
{
    let row = lock.enter(rt, pass).into_value();
    let steps = row.steps.as_slice();
    let found = steps.iter().filter(|step| **step == number).count();
    steps.len() == count && found == own
}

// Whether the second of two passes knows by a note the step that the first one makes. Then it goes into the first one.
fn is_known<R: Wait>(
    rt: &R,
    lock: &TracedLock<Row>,
    one: &mut Pass<Row>,
    mut other: Pass<Row>,
) -> bool
    requires one { IsPassOf lock.now one.old }
    requires other { IsPassOf lock.now other }
    ensures { IsPassOf lock.now one.new }
{
    let are_numbered = one.number() == 0 && other.number() == 1;
    let is_made = make_step(rt, lock, one);
    let note = lock.note(one);
    lock.meet(&mut other, note);
    lock.join(one, other);
    are_numbered && is_made
}

#[test]
fn both_know_one_step(rt: HostRuntime) {
    let (lock, mut one) = new_lock(rt.alloc()).expect(&rt, "memory");
    let other = lock.split(&rt, &mut one).expect(&rt, "a number");
    let is_known = is_known(&rt, &lock, &mut one, other);
    let has_one = has_steps(&rt, &lock, &mut one, 1, 0, 1);
    drop(one);
    drop(lock);
    assert!(rt; is_known && has_one);
}

#[test]
fn turns_of_two_threads(rt: HostRuntime) {
    let (made, mut one) = new_lock(rt.alloc()).expect(&rt, "memory");
    let lock = &made;
    let other = lock.split(&rt, &mut one).expect(&rt, "a number");
    let number = other.number();
    let ((mut one, first), (other, second)) = thread::join(
        &rt,
        || make_steps(&rt, lock, one, 200),
        || make_steps(&rt, lock, other, 200),
    );
    lock.join(&mut one, other);
    let has_all = has_steps(&rt, lock, &mut one, 400, number, 200);
    drop(one);
    drop(made);
    assert!(rt; first == 200 && second == 200 && has_all);
}

// The marks that the second pass sees, before and behind a mark of the first one.
fn marks<R: Wait>(
    rt: &R,
    lock: &TracedLock<Row>,
    one: &mut Pass<Row>,
    other: &mut Pass<Row>,
) -> (u64, u64)
    requires one { IsPassOf lock.now one.old }
    requires other { IsPassOf lock.now other.old }
{
    let before = lock.mark(other);
    if make_step(rt, lock, one) {
        lock.raise(one, 1);
    }
    (before, lock.mark(other))
}

#[test]
fn mark_is_what_was_raised(rt: HostRuntime) {
    let (lock, mut one) = new_lock(rt.alloc()).expect(&rt, "memory");
    let mut other = lock.split(&rt, &mut one).expect(&rt, "a number");
    let marks = marks(&rt, &lock, &mut one, &mut other);
    drop(other);
    drop(one);
    drop(lock);
    assert!(rt; marks == (0, 1));
}
