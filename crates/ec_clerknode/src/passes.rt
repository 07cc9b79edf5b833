// The passes of a shared clerk.
ghost use Rattle.std.specs.Prelude.{◌≡◌, ℕ, ◌+◌, ◌<◌, ◌≤◌, ◌⊎◌, max, [], ◌∷◌, ◌++◌, IfSome, IfNone};
ghost use mathlib.Core.List.{IsPrefix};
ghost use Rattle.ec_base.specs.Limits.{last_counter};
ghost use Rattle.ec_lock.specs.Passes.{answered};
ghost use Rattle.ec_lock.specs.PassViews.{first, front, numbers, next_number, raised, note_view, IsPassOf, IsNoteOf, Same, Marked};
ghost use Rattle.ec_lock.specs.Steps.{Member, of};
ghost use Rattle.ec_clerknode.specs.RunEnds.{highest};
ghost use Rattle.ec_clerknode.specs.Turns.{number_of};
ghost use Rattle.ec_clerknode.specs.PassTurns.{GoesFrom};

use crate::shared::SharedClerk;
use crate::state::Node;
use ec_link::Link;
use ec_lock::{Note, Pass};
use std::sync::Wait;

impl<L: Link> SharedClerk<L> {
    /// A number below which each operation is durable or told lost, in each front that the pass has after a later turn. It's at
    /// least the floor of the front that the pass had after its last call, and at least each earlier answer. It waits for nobody.
    pub fn mark(&self, pass: &mut Pass<Node<L>>) -> u64
        requires pass { IsPassOf self.now.lock pass.old }
        ensures pass { IsPassOf self.now.lock pass.new }
        ensures front { front pass.new ≡ front pass.old }
        ensures mark { (raised pass.old ≤ result) × (answered pass.old ≤ result) }
        ensures same { (pass.new.number ≡ pass.old.number) × (numbers pass.new ≡ numbers pass.old) × (raised pass.new ≡ raised pass.old) × (answered pass.new ≡ result) }
    {
        self.lock.mark(pass)
    }

    /// A new pass, which has begun no call. `None` where all numbers are drawn.
    pub fn split<R: Wait>(&self, rt: &R, pass: &mut Pass<Node<L>>) -> Option<Pass<Node<L>>>
        requires pass { IsPassOf self.now.lock pass.old }
        ensures pass { IsPassOf self.now.lock pass.new }
        ensures same { Same pass.old pass.new }
        ensures goes { GoesFrom (first self.now.lock).clerk (front pass.old) (front pass.new) }
        ensures own { (n : ℕ) → Member n (numbers pass.old) → of number_of n (front pass.old) ≡ of number_of n (front pass.new) }
        ensures mark { Marked pass.old (highest (front pass.new)) }
        ensures new { IfSome result (λ new. IsPassOf self.now.lock new) }
        ensures new_front { IfSome result (λ new. (front new ≡ front pass.new) × (numbers new ≡ new.number ∷ [])) }
        ensures new_number { IfSome result (λ new. (of number_of new.number (front pass.new) ≡ []) × (next_number pass.new ≡ new.number + 1) × (new.number < last_counter)) }
        ensures new_mark { IfSome result (λ new. (raised new ≡ raised pass.old) × (answered new ≡ answered pass.old) × (next_number new ≡ new.number + 1)) }
        ensures apart { IfSome result (λ new. ((n : ℕ) → Member n (numbers pass.old) → n < new.number) × (next_number pass.old ≤ new.number)) }
        ensures none { IfNone result (last_counter ≤ next_number pass.new) }
    {
        self.lock.split(rt, pass)
    }

    /// The other pass goes into this one, with its numbers. The longer front stays.
    pub fn join(&self, pass: &mut Pass<Node<L>>, other: Pass<Node<L>>)
        requires pass { IsPassOf self.now.lock pass.old }
        requires other { IsPassOf self.now.lock other }
        ensures pass { IsPassOf self.now.lock pass.new }
        ensures number { pass.new.number ≡ pass.old.number }
        ensures front { (front pass.new ≡ front pass.old) ⊎ (front pass.new ≡ front other) }
        ensures later { IsPrefix (front pass.old) (front pass.new) }
        ensures other { IsPrefix (front other) (front pass.new) }
        ensures own { (n : ℕ) → Member n (numbers pass.old) → of number_of n (front pass.old) ≡ of number_of n (front pass.new) }
        ensures others { (n : ℕ) → Member n (numbers other) → of number_of n (front other) ≡ of number_of n (front pass.new) }
        ensures apart { (n : ℕ) → Member n (numbers pass.old) → Member n (numbers other) → ⊥ }
        ensures same { (numbers pass.new ≡ numbers pass.old ++ numbers other) × (raised pass.new ≡ max (raised pass.old) (raised other)) × (answered pass.new ≡ max (answered pass.old) (answered other)) }
        ensures next { next_number pass.new ≡ next_number pass.old }
    {
        self.lock.join(pass, other);
    }

    /// A note of the pass's front. It waits for nobody.
    pub fn note(&self, pass: &mut Pass<Node<L>>) -> Note<Node<L>>
        requires pass { IsPassOf self.now.lock pass.old }
        ensures pass { IsPassOf self.now.lock pass.new }
        ensures same { Same pass.old pass.new }
        ensures front { front pass.new ≡ front pass.old }
        ensures next { next_number pass.new ≡ next_number pass.old }
        ensures note { IsNoteOf self.now.lock result × ((note_view result).front ≡ front pass.old) }
        ensures note_mark { ((note_view result).raised ≡ raised pass.old) × ((note_view result).answered ≡ answered pass.old) }
    {
        self.lock.note(pass)
    }

    /// The pass meets the note: both fronts begin the pass's new one. It waits for nobody.
    pub fn meet(&self, pass: &mut Pass<Node<L>>, note: Note<Node<L>>)
        requires pass { IsPassOf self.now.lock pass.old }
        requires note { IsNoteOf self.now.lock note }
        ensures pass { IsPassOf self.now.lock pass.new }
        ensures number { pass.new.number ≡ pass.old.number }
        ensures front { (front pass.new ≡ front pass.old) ⊎ (front pass.new ≡ (note_view note).front) }
        ensures later { IsPrefix (front pass.old) (front pass.new) }
        ensures other { IsPrefix (note_view note).front (front pass.new) }
        ensures own { (n : ℕ) → Member n (numbers pass.old) → of number_of n (front pass.old) ≡ of number_of n (front pass.new) }
        ensures same { (numbers pass.new ≡ numbers pass.old) × (raised pass.new ≡ max (raised pass.old) (note_view note).raised) × (answered pass.new ≡ max (answered pass.old) (note_view note).answered) }
        ensures next { next_number pass.new ≡ next_number pass.old }
    {
        self.lock.meet(pass, note);
    }
}
