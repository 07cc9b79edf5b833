// The lock, and a turn at it.
ghost use Rattle.std.specs.Prelude.{◌≡◌, ℕ, ◌<◌, ◌≤◌, [], ◌∷◌, Option, Some, None, IfOk, IfErr};
ghost use mathlib.Core.List.{IsPrefix};
ghost use Rattle.ec_lock.specs.declared.view.Stage.TheVariants.{Waiting};
ghost use Rattle.ec_lock.specs.Steps.{Member, of};
ghost use Rattle.ec_lock.specs.Told.{opened_view, at_stage, Got};
ghost use Rattle.ec_lock.specs.PassViews.{first, view, front, numbers, next_number, IsPassOf, HasTurn, Same, Marked};

use crate::plays::{Draw, Look, Next, Noting};
use crate::traced::{Held, Traced};
use crate::types::{Pass, TracedLock, Turn};
use atomic_table::{Refused, Table};
use ec_base::LAST_COUNTER;
use std::alloc::Global;
use std::snapshot::Snapshot;
use std::sync::Wait;

// The words of the table. The next ticket to draw:
const TICKET: usize = 0;

// The ticket that is served.
const SERVING: usize = 1;

// How long the list is.
pub(crate) const LENGTH: usize = 2;

// The greatest number that was raised.
pub(crate) const MARK: usize = 3;

impl<V> Turn<V> {
    /// Takes the value out for good. Nobody enters any more.
    pub fn into_value(self) -> V
        ensures { result ≡ self.value }
    {
        self.value
    }
}

impl<V: Traced> TracedLock<V> {
    /// A lock round the value, and the first pass, whose number is 0. For want of memory the value comes back.
    pub fn new(alloc: Global, value: V) -> Result<(TracedLock<V>, Pass<V>), V>
        requires empty { V.list value ≡ [] }
        requires begins { V.since value value }
        ensures lock { IfOk result (λ made. first made.0 ≡ value) }
        ensures pass { IfOk result (λ made. IsPassOf made.0 made.1) }
        ensures view { IfOk result (λ made. (view made.1 ≡ opened_view value) × (made.1.number ≡ 0)) }
        ensures err { IfErr result (λ back. back ≡ value) }
    {
        let Ok(mut slots) = Vec::with_capacity(alloc, 1) else {
            return Err(value);
        };
        let key = Snapshot::of(&value);
        slots.push_reserved(Some(Held { value, next: 1 }));
        match Table::new(alloc, &[0, 0, 0, 0], slots, &key) {
            Ok((table, seat)) => Ok((TracedLock { table }, Pass { seat, number: 0 })),
            Err(Refused { mut slots }) => {
                let Held { value, next: _ } = slots.pop().unwrap().unwrap();
                slots.destroy_empty();
                Err(value)
            }
        }
    }

    // Draws a ticket. Where the last one is drawn, it waits for good.
    fn draw<R: Wait>(&self, rt: &R, pass: &mut Pass<V>) -> u64
        requires { IsPassOf self.now pass.old }
        ensures drawn { pass.new.seat.me ≡ (at_stage pass.old.seat.me.0 (Waiting result), []) }
        ensures same { (pass.new.seat.table_id ≡ pass.old.seat.table_id) × (pass.new.number ≡ pass.old.number) }
    {
        let shared = &self.table.shared;
        for _ in rt.forever() {
            let ticket = shared.peek(TICKET);
            if ticket < LAST_COUNTER {
                let found = shared.compare_exchange::<Draw>(
                    &mut pass.seat,
                    TICKET,
                    ticket,
                    ticket + 1,
                );
                if ticket == found {
                    return ticket;
                }
            } else {
                shared.park(rt, TICKET, low_half(ticket));
            }
        }
        unreachable!()
    }

    // Sleeps until the ticket is served. It looks again only where the word has changed.
    fn look_until_served<R: Wait>(&self, rt: &R, pass: &mut Pass<V>, ticket: u64)
        requires id { pass.old.seat.table_id ≡ self.now.table.shared.table_id }
        requires waits { (pass.old.seat.me.0.stage ≡ Waiting ticket) × (pass.old.seat.me.1 ≡ []) × (pass.old.seat.me.0.first ≡ Some (first self.now)) }
        ensures same { (pass.new.seat.table_id ≡ pass.old.seat.table_id) × (pass.new.number ≡ pass.old.number) }
        ensures got { Got V.list V.number V.floor V.since ticket pass.old.seat.me pass.new.seat.me }
    {
        let shared = &self.table.shared;
        for _ in rt.forever() {
            let found = shared.load::<Look<V>>(&mut pass.seat, SERVING);
            if found == ticket {
                return;
            }
            shared.park(rt, SERVING, low_half(found));
        }
        unreachable!()
    }

    /// Waits for a turn, in which the pass has the value. The value's list begins with the pass's front, and of the pass's numbers it
    /// has just the steps of that front.
    pub fn enter<R: Wait>(&self, rt: &R, pass: &mut Pass<V>) -> Turn<V>
        requires pass { IsPassOf self.now pass.old }
        ensures turn { HasTurn self.now pass.new result.next }
        ensures front { front pass.new ≡ V.list result.value }
        ensures later { IsPrefix (front pass.old) (V.list result.value) }
        ensures own { (n : ℕ) → Member n (numbers pass.old) → of V.number n (front pass.old) ≡ of V.number n (V.list result.value) }
        ensures fresh { (n : ℕ) → result.next ≤ n → of V.number n (V.list result.value) ≡ [] }
        ensures drawn { (n : ℕ) → Member n (numbers pass.old) → n < result.next }
        ensures next { next_number pass.old ≤ result.next }
        ensures since { V.since (first self.now) result.value }
        ensures same { Same pass.old pass.new }
        ensures mark { Marked pass.old (V.floor (V.list result.value)) }
    {
        let ticket = self.draw(rt, pass);
        self.look_until_served(rt, pass, ticket);
        let Held { value, next } = self.table.shared.exchange(&mut pass.seat, 0, None).unwrap();
        Turn { value, next }
    }

    /// Ends a turn. The list may have grown by steps of this pass and by steps without a number. The pass's front is then the whole list.
    pub fn leave(&self, turn: Turn<V>, pass: &mut Pass<V>)
        requires turn { HasTurn self.now pass.old turn.next }
        requires later { IsPrefix (front pass.old) (V.list turn.value) }
        requires own { (n : ℕ) → ¬ (n ≡ pass.old.number) → of V.number n (front pass.old) ≡ of V.number n (V.list turn.value) }
        requires since { V.since (first self.now) turn.value }
        ensures pass { IsPassOf self.now pass.new }
        ensures front { front pass.new ≡ V.list turn.value }
        ensures same { Same pass.old pass.new }
        ensures next { pass.new.seat.me.0.next ≡ turn.next }
    {
        let Turn { value, next } = turn;
        let shared = &self.table.shared;
        let length = value.steps();
        let before = shared.exchange(&mut pass.seat, 0, Some(Held { value, next }));
        let None = before else { unreachable!() };
        shared.store::<Noting<V>>(&mut pass.seat, LENGTH, length);
        let served = shared.fetch_add::<Next>(&mut pass.seat, SERVING, 1);
        self.wake_waiting(served);
    }

    // Wakes those who wait, if there are any. Who draws a ticket later than this looks at the next one served.
    fn wake_waiting(&self, served: u64) {
        let shared = &self.table.shared;
        if shared.peek(TICKET) != served.wrapping_add(1) {
            shared.wake_all(SERVING);
        }
    }
}

// What a thread sleeps on is the lower half of a word.
fn low_half(word: u64) -> u32 {
    (word % (1 << 32)) as u32
}
