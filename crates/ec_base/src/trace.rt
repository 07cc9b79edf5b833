//! A list of steps that stands in proofs alone. It has no bytes, and its methods do nothing at run time.
ghost use Rattle.std.specs.Prelude.{◌≡◌, List, [], ◌∷◌, ◌++◌};
ghost use Rattle.std.specs.Borrow.{ftrue};

use std::marker::{Model, PhantomData};

/// A clause reads the steps as `items`. Nothing ties them to memory: what they say of a value beside them is what that
/// value's own clauses say.
#[derive(Drop)]
pub struct Trace<E> {
    of: PhantomData<E>,
    pub ghost items: { List E },
}

impl<E> Model for Trace<E> {
    ghost also_owns = { λ _. ftrue };
}

// It owns nothing.
unsafe impl<E> Send for Trace<E> {}

impl<E> Trace<E> {
    /// The empty list.
    pub fn new() -> Trace<E>
        ensures { result.items ≡ [] }
    {
        Trace { of: PhantomData }
    }

    /// The list with one step more.
    pub fn and(&self, step: &E) -> Trace<E>
        ensures { result.items ≡ self.now.items ++ step.now ∷ [] }
    {
        Trace { of: PhantomData }
    }
}
