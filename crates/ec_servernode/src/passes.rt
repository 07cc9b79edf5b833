// The passes of a shared server.
ghost use Rattle.std.specs.Prelude.{◌≡◌, ℕ, ◌+◌, ◌<◌, ◌≤◌, ◌⊎◌, max, [], ◌∷◌, ◌++◌, IfSome, IfNone};
ghost use mathlib.Core.List.{IsPrefix};
ghost use Rattle.ec_base.specs.Limits.{last_counter};
ghost use Rattle.ec_lock.specs.Passes.{answered};
ghost use Rattle.ec_lock.specs.PassViews.{first, front, numbers, next_number, raised, note_view, Same, Marked};
ghost use Rattle.ec_lock.specs.Steps.{Member, of};
ghost use Rattle.ec_servernode.specs.Run.{number_of};
ghost use Rattle.ec_servernode.specs.TurnSteps.{IsServerPass, IsServerNote};

use crate::caller::Caller;
use crate::shared::SharedServer;
use crate::state::Node;
use ec_base::ClerkId;
use ec_lock::{Note, Pass};
use ec_server::Keeper;
use std::sync::Wait;

/// A pass of the lock, for one link.
pub struct ServerPass<K: Keeper + Drop> {
    pub(crate) pass: Pass<Node<K>>,
    /// Who is at the other end of the link.
    pub(crate) caller: Caller,
    /// The last message that it took was a Hello that wasn't refused.
    pub(crate) greets: bool,
}

// Who drops a pass calls this, and needn't take it apart.
impl<K: Keeper + Drop> Drop for ServerPass<K> {
    fn drop(self) {
        let ServerPass {
            pass,
            caller: _,
            greets: _,
        } = self;
        drop(pass);
    }
}

/// A note of the lock.
#[derive(Drop)]
pub struct ServerNote<K: Keeper + Drop> {
    pub(crate) note: Note<Node<K>>,
}

impl<K: Keeper + Drop> ServerPass<K> {
    /// The clerk of its link.
    pub fn clerk(&self) -> ClerkId
        ensures { result ≡ self.now.caller.clerk }
    {
        self.caller.clerk
    }

    /// Whether the last message that it took was a Hello that wasn't refused, so that what is sent to its clerk is for its link from now
    /// on.
    pub fn greets(&self) -> bool {
        self.greets
    }

    fn into_pass(self) -> Pass<Node<K>>
        ensures { result ≡ self.pass }
    {
        let ServerPass {
            pass,
            caller: _,
            greets: _,
        } = self;
        pass
    }
}

/// The clerk of a link that said no Hello yet.
pub fn first_clerk() -> ClerkId
    ensures { result ≡ 0 }
{
    match ClerkId::new(0) {
        Some(clerk) => clerk,
        None => unreachable!(),
    }
}

impl<K: Keeper + Drop> SharedServer<K> {
    /// A new pass, for another link. `None` where all numbers are drawn.
    pub fn split<R: Wait>(&self, rt: &R, pass: &mut ServerPass<K>) -> Option<ServerPass<K>>
        requires pass { IsServerPass K.kept self.now.lock pass.old }
        ensures pass { IsServerPass K.kept self.now.lock pass.new }
        ensures same { Same pass.old.pass pass.new.pass × (pass.new.caller ≡ pass.old.caller) }
        ensures later { IsPrefix (front pass.old.pass) (front pass.new.pass) }
        ensures own { (n : ℕ) → Member n (numbers pass.old.pass) → of number_of n (front pass.old.pass) ≡ of number_of n (front pass.new.pass) }
        ensures mark { Marked pass.old.pass 0 }
        ensures new { IfSome result (λ new. IsServerPass K.kept self.now.lock new) }
        ensures new_front { IfSome result (λ new. (front new.pass ≡ front pass.new.pass) × (numbers new.pass ≡ new.pass.number ∷ [])) }
        ensures new_number { IfSome result (λ new. (of number_of new.pass.number (front pass.new.pass) ≡ []) × (next_number pass.new.pass ≡ new.pass.number + 1) × (new.pass.number < last_counter)) }
        ensures new_mark { IfSome result (λ new. (raised new.pass ≡ raised pass.old.pass) × (answered new.pass ≡ answered pass.old.pass) × (next_number new.pass ≡ new.pass.number + 1)) }
        ensures apart { IfSome result (λ new. ((n : ℕ) → Member n (numbers pass.old.pass) → n < new.pass.number) × (next_number pass.old.pass ≤ new.pass.number)) }
        ensures none { IfNone result (last_counter ≤ next_number pass.new.pass) }
    {
        let new = self.lock.split(rt, &mut pass.pass)?;
        Some(ServerPass {
            pass: new,
            caller: Caller::nobody(),
            greets: false,
        })
    }

    /// The other pass goes into this one, with its numbers. The longer front stays.
    pub fn join(&self, pass: &mut ServerPass<K>, other: ServerPass<K>)
        requires pass { IsServerPass K.kept self.now.lock pass.old }
        requires other { IsServerPass K.kept self.now.lock other }
        ensures pass { IsServerPass K.kept self.now.lock pass.new }
        ensures number { (pass.new.pass.number ≡ pass.old.pass.number) × (pass.new.caller ≡ pass.old.caller) }
        ensures front { (front pass.new.pass ≡ front pass.old.pass) ⊎ (front pass.new.pass ≡ front other.pass) }
        ensures later { IsPrefix (front pass.old.pass) (front pass.new.pass) }
        ensures other { IsPrefix (front other.pass) (front pass.new.pass) }
        ensures own { (n : ℕ) → Member n (numbers pass.old.pass) → of number_of n (front pass.old.pass) ≡ of number_of n (front pass.new.pass) }
        ensures others { (n : ℕ) → Member n (numbers other.pass) → of number_of n (front other.pass) ≡ of number_of n (front pass.new.pass) }
        ensures apart { (n : ℕ) → Member n (numbers pass.old.pass) → Member n (numbers other.pass) → ⊥ }
        ensures same { (numbers pass.new.pass ≡ numbers pass.old.pass ++ numbers other.pass) × (raised pass.new.pass ≡ max (raised pass.old.pass) (raised other.pass)) × (answered pass.new.pass ≡ max (answered pass.old.pass) (answered other.pass)) }
        ensures next { next_number pass.new.pass ≡ next_number pass.old.pass }
    {
        self.lock.join(&mut pass.pass, other.into_pass());
    }

    /// A note of the pass's front. It waits for nobody.
    pub fn note(&self, pass: &mut ServerPass<K>) -> ServerNote<K>
        requires pass { IsServerPass K.kept self.now.lock pass.old }
        ensures pass { IsServerPass K.kept self.now.lock pass.new }
        ensures same { Same pass.old.pass pass.new.pass × (pass.new.caller ≡ pass.old.caller) }
        ensures front { front pass.new.pass ≡ front pass.old.pass }
        ensures next { next_number pass.new.pass ≡ next_number pass.old.pass }
        ensures note { IsServerNote K.kept self.now.lock result.note × ((note_view result.note).front ≡ front pass.old.pass) }
        ensures note_mark { ((note_view result.note).raised ≡ raised pass.old.pass) × ((note_view result.note).answered ≡ answered pass.old.pass) }
    {
        let note = self.lock.note(&mut pass.pass);
        ServerNote { note }
    }

    /// The pass meets the note: both fronts begin the pass's new one. It waits for nobody.
    pub fn meet(&self, pass: &mut ServerPass<K>, note: ServerNote<K>)
        requires pass { IsServerPass K.kept self.now.lock pass.old }
        requires note { IsServerNote K.kept self.now.lock note.note }
        ensures pass { IsServerPass K.kept self.now.lock pass.new }
        ensures number { (pass.new.pass.number ≡ pass.old.pass.number) × (pass.new.caller ≡ pass.old.caller) }
        ensures same { (numbers pass.new.pass ≡ numbers pass.old.pass) × (raised pass.new.pass ≡ max (raised pass.old.pass) (note_view note.note).raised) × (answered pass.new.pass ≡ max (answered pass.old.pass) (note_view note.note).answered) }
        ensures next { next_number pass.new.pass ≡ next_number pass.old.pass }
        ensures front { (front pass.new.pass ≡ front pass.old.pass) ⊎ (front pass.new.pass ≡ (note_view note.note).front) }
        ensures later { IsPrefix (front pass.old.pass) (front pass.new.pass) }
        ensures other { IsPrefix (note_view note.note).front (front pass.new.pass) }
        ensures own { (n : ℕ) → Member n (numbers pass.old.pass) → of number_of n (front pass.old.pass) ≡ of number_of n (front pass.new.pass) }
    {
        self.lock.meet(&mut pass.pass, note.note);
    }
}
