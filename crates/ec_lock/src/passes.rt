// More passes and fewer: split, join, note and meet, and the mark.
ghost use Rattle.std.specs.Prelude.{◌≡◌, ℕ, ◌+◌, ◌<◌, ◌≤◌, ◌⊎◌, max, [], ◌∷◌, ◌++◌, IfSome, IfNone};
ghost use mathlib.Core.List.{IsPrefix};
ghost use Rattle.ec_base.specs.Limits.{last_counter};
ghost use Rattle.ec_lock.specs.Steps.{Member, of};
ghost use Rattle.ec_lock.specs.Passes.{answered};
ghost use Rattle.ec_lock.specs.PassViews.{first, front, numbers, next_number, raised, note_view, IsSeatOf, IsPassOf, IsNoteOf, Same, Marked, Reached};

use crate::lock::{LENGTH, MARK};
use crate::plays::{Copied, Cut, Joined, Met, Raise, ReadMark};
use crate::traced::{Held, Traced};
use crate::types::{Note, Pass, TracedLock, Turn};
use crate::view::View;
use atomic_table::Seat;
use ec_base::LAST_COUNTER;
use std::sync::Wait;

impl<V: Traced> Pass<V> {
    /// The pass's number, which no other pass of the lock has.
    pub fn number(&self) -> u64
        ensures { result ≡ self.now.number }
    {
        self.number
    }
}

impl<V: Traced> TracedLock<V> {
    /// Waits for a turn, in which a new pass draws the next pass number, so that no step and no other pass has it. Both passes then
    /// have the whole list as their front. `None` exactly where all numbers are drawn.
    pub fn split<R: Wait>(&self, rt: &R, pass: &mut Pass<V>) -> Option<Pass<V>>
        requires pass { IsPassOf self.now pass.old }
        ensures pass { IsPassOf self.now pass.new }
        ensures reached { Reached V.list V.since (first self.now) (front pass.new) }
        ensures later { IsPrefix (front pass.old) (front pass.new) }
        ensures own { (n : ℕ) → Member n (numbers pass.old) → of V.number n (front pass.old) ≡ of V.number n (front pass.new) }
        ensures same { Same pass.old pass.new }
        ensures mark { Marked pass.old (V.floor (front pass.new)) }
        ensures new { IfSome result (λ new. IsPassOf self.now new) }
        ensures new_front { IfSome result (λ new. (front new ≡ front pass.new) × (numbers new ≡ new.number ∷ [])) }
        ensures new_number { IfSome result (λ new. (of V.number new.number (front pass.new) ≡ []) × (next_number pass.new ≡ new.number + 1) × (new.number < last_counter)) }
        ensures new_mark { IfSome result (λ new. (raised new ≡ raised pass.old) × (answered new ≡ answered pass.old) × (next_number new ≡ new.number + 1)) }
        ensures apart { IfSome result (λ new. ((n : ℕ) → Member n (numbers pass.old) → n < new.number) × (next_number pass.old ≤ new.number)) }
        ensures none { IfNone result (last_counter ≤ next_number pass.new) }
    {
        let Turn { value, next } = self.enter(rt, pass);
        if next >= LAST_COUNTER {
            self.leave(Turn { value, next }, pass);
            return None;
        }
        let seat = self.table.shared.split_seat::<Cut>(&mut pass.seat);
        self.leave(
            Turn {
                value,
                next: next + 1,
            },
            pass,
        );
        Some(Pass { seat, number: next })
    }

    // The front of another seat comes to the pass, with its numbers.
    fn take_in(&self, pass: &mut Pass<V>, other: Seat<Option<Held<V>>, View<V, V::Step>>)
        requires pass { IsPassOf self.now pass.old }
        requires other { IsSeatOf self.now other }
        ensures pass { IsPassOf self.now pass.new }
        ensures number { pass.new.number ≡ pass.old.number }
        ensures front { (front pass.new ≡ front pass.old) ⊎ (front pass.new ≡ other.me.0.front) }
        ensures later { IsPrefix (front pass.old) (front pass.new) }
        ensures other { IsPrefix other.me.0.front (front pass.new) }
        ensures own { (n : ℕ) → Member n (numbers pass.old) → of V.number n (front pass.old) ≡ of V.number n (front pass.new) }
        ensures others { (n : ℕ) → Member n other.me.0.numbers → of V.number n other.me.0.front ≡ of V.number n (front pass.new) }
        ensures apart { (n : ℕ) → Member n (numbers pass.old) → Member n other.me.0.numbers → ⊥ }
        ensures same { (numbers pass.new ≡ numbers pass.old ++ other.me.0.numbers) × (raised pass.new ≡ max (raised pass.old) other.me.0.raised) × (answered pass.new ≡ max (answered pass.old) other.me.0.answered) }
        ensures next { next_number pass.new ≡ next_number pass.old }
    {
        let shared = &self.table.shared;
        shared.join_seat::<Joined>(&mut pass.seat, other);
        shared.load::<Met<V>>(&mut pass.seat, LENGTH);
    }

    /// The other pass goes into this one, with its numbers. The longer front stays, and so do the greater numbers raised and answered.
    pub fn join(&self, pass: &mut Pass<V>, other: Pass<V>)
        requires pass { IsPassOf self.now pass.old }
        requires other { IsPassOf self.now other }
        ensures pass { IsPassOf self.now pass.new }
        ensures number { pass.new.number ≡ pass.old.number }
        ensures front { (front pass.new ≡ front pass.old) ⊎ (front pass.new ≡ front other) }
        ensures later { IsPrefix (front pass.old) (front pass.new) }
        ensures other { IsPrefix (front other) (front pass.new) }
        ensures own { (n : ℕ) → Member n (numbers pass.old) → of V.number n (front pass.old) ≡ of V.number n (front pass.new) }
        ensures others { (n : ℕ) → Member n (numbers other) → of V.number n (front other) ≡ of V.number n (front pass.new) }
        ensures apart { (n : ℕ) → Member n (numbers pass.old) → Member n (numbers other) → ⊥ }
        ensures same { (numbers pass.new ≡ numbers pass.old ++ numbers other) × (raised pass.new ≡ max (raised pass.old) (raised other)) × (answered pass.new ≡ max (answered pass.old) (answered other)) }
        ensures next { next_number pass.new ≡ next_number pass.old }
    {
        let Pass { seat, number: _ } = other;
        self.take_in(pass, seat);
    }

    /// A note of the pass's front. It takes no memory and waits for nobody.
    pub fn note(&self, pass: &mut Pass<V>) -> Note<V>
        requires pass { IsPassOf self.now pass.old }
        ensures pass { IsPassOf self.now pass.new }
        ensures same { Same pass.old pass.new }
        ensures front { front pass.new ≡ front pass.old }
        ensures next { next_number pass.new ≡ next_number pass.old }
        ensures note { IsNoteOf self.now result × ((note_view result).front ≡ front pass.old) }
        ensures note_mark { ((note_view result).raised ≡ raised pass.old) × ((note_view result).answered ≡ answered pass.old) }
    {
        let seat = self.table.shared.split_seat::<Copied>(&mut pass.seat);
        Note { seat }
    }

    /// The pass meets the note: both fronts begin the pass's new one. It takes no memory and waits for nobody.
    pub fn meet(&self, pass: &mut Pass<V>, note: Note<V>)
        requires pass { IsPassOf self.now pass.old }
        requires note { IsNoteOf self.now note }
        ensures pass { IsPassOf self.now pass.new }
        ensures number { pass.new.number ≡ pass.old.number }
        ensures front { (front pass.new ≡ front pass.old) ⊎ (front pass.new ≡ (note_view note).front) }
        ensures later { IsPrefix (front pass.old) (front pass.new) }
        ensures other { IsPrefix (note_view note).front (front pass.new) }
        ensures own { (n : ℕ) → Member n (numbers pass.old) → of V.number n (front pass.old) ≡ of V.number n (front pass.new) }
        ensures same { (numbers pass.new ≡ numbers pass.old) × (raised pass.new ≡ max (raised pass.old) (note_view note).raised) × (answered pass.new ≡ max (answered pass.old) (note_view note).answered) }
        ensures next { next_number pass.new ≡ next_number pass.old }
    {
        let Note { seat } = note;
        self.take_in(pass, seat);
    }

    /// Raises the mark to this number, where it is below. It waits for nobody.
    pub fn raise(&self, pass: &mut Pass<V>, to: u64)
        requires pass { IsPassOf self.now pass.old }
        requires low { to ≤ V.floor (front pass.old) }
        ensures pass { IsPassOf self.now pass.new }
        ensures number { pass.new.number ≡ pass.old.number }
        ensures front { front pass.new ≡ front pass.old }
        ensures same { (numbers pass.new ≡ numbers pass.old) × (raised pass.new ≡ max (raised pass.old) to) × (answered pass.new ≡ answered pass.old) }
        ensures next { next_number pass.new ≡ next_number pass.old }
    {
        self.table
            .shared
            .fetch_max::<Raise>(&mut pass.seat, MARK, to);
    }

    /// The mark: at least what the pass raised or was answered, and at most the floor of each list that it finds later. It waits for
    /// nobody.
    pub fn mark(&self, pass: &mut Pass<V>) -> u64
        requires pass { IsPassOf self.now pass.old }
        ensures pass { IsPassOf self.now pass.new }
        ensures number { pass.new.number ≡ pass.old.number }
        ensures front { front pass.new ≡ front pass.old }
        ensures mark { (raised pass.old ≤ result) × (answered pass.old ≤ result) }
        ensures same { (numbers pass.new ≡ numbers pass.old) × (raised pass.new ≡ raised pass.old) × (answered pass.new ≡ result) }
        ensures next { next_number pass.new ≡ next_number pass.old }
    {
        self.table.shared.load::<ReadMark>(&mut pass.seat, MARK)
    }
}
