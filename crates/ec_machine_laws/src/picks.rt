// Picks, and what is asked for.
ghost use Rattle.std.specs.Prelude.{◌≡◌, ◌<◌, ◌≤◌, ℕ, T, Bool, false, List, [], Some, None};
ghost use Rattle.std.specs.Ordering.{nat_cmp};
ghost use Rattle.std.specs.FinMap.{is_sorted};
ghost use Rattle.ec_base.specs.Tables.{keys};
ghost use Rattle.ec_volume.specs.Update.{member};
ghost use Rattle.ec_volume.specs.declared.update.Update.{Update};
ghost use Rattle.ec_order.specs.Order.{Issued, Holds, InClosure};
ghost use Rattle.ec_log.specs.Log.{is_asked, asked_for, closure_of, first, pick};
ghost use Rattle.ec_log.specs.declared.state.Asked.{Asked};
ghost use Rattle.ec_log.specs.declared.state.LogState.{LogState};
ghost use Rattle.ec_log.specs.declared.state.Pick.TheVariants.{Batch, Settled};
ghost use Rattle.ec_machine_laws.specs.Picks.{IsAskedIn, Says, IsRest, HoldNeeds};

/// A pick is settled where nothing asked is undurable, else behind the first batch with an operation
/// of the closure, else at the window, else it's the first 64 of the closure, which hold what they
/// need. The closure is that of all operations of the start, without those that are done with.
pub fn picks_go_by_the_closure()
    ensures says { (a : Asked) (l : LogState) → T (is_sorted nat_cmp l.undurable) → Says a l (pick a l) }
    ensures whole { (issued : Issued) (done : ℕ → Bool) (l : LogState) → IsRest issued done l → (a : Asked) (asked : ℕ → Bool) → ((n : ℕ) (u : Update) → Holds issued n u → asked n ≡ is_asked a (n, u))
        → (n : ℕ) → InClosure issued asked n → done n ≡ false → T (member n (keys (closure_of a l))) }
{}

/// Where nothing asked is undurable, a pick is settled.
pub fn nothing_is_asked_where_it_settles()
    ensures { (a : Asked) (l : LogState) → asked_for a l ≡ [] → pick a l ≡ Settled }
{}

/// The first operation asked for is one that is undurable, and the least.
pub fn the_first_asked_is_the_least()
    ensures asked { (a : Asked) (l : LogState) (m : ℕ) → first a l ≡ Some m → IsAskedIn a l m }
    ensures none { (a : Asked) (l : LogState) → T (is_sorted nat_cmp l.undurable) → first a l ≡ None → (n : ℕ) → IsAskedIn a l n → ⊥ }
    ensures least { (a : Asked) (l : LogState) → T (is_sorted nat_cmp l.undurable) → (n : ℕ) → IsAskedIn a l n → (m : ℕ) × (first a l ≡ Some m) × (m ≤ n) }
{}

/// Operations that hold what they need among the undurable ones do so among all of their start, but
/// for those that are done with.
pub fn picks_hold_their_needs()
    ensures { (issued : Issued) (done : ℕ → Bool) (l : LogState) → IsRest issued done l → (a : Asked) (b : ℕ) (ns : List ℕ) → pick a l ≡ Batch b ns → HoldNeeds issued done ns }
{}

/// Where the first undurable operation that is asked for, if any, was issued later, the closure of
/// all that was asked till then is done with.
pub fn what_was_asked_is_done()
    ensures { (issued : Issued) (done : ℕ → Bool) (l : LogState) → IsRest issued done l → (a : Asked) (begun : ℕ) (asked : ℕ → Bool) → ((m : ℕ) → first a l ≡ Some m → begun < m)
        → ((n : ℕ) (u : Update) → Holds issued n u → T (asked n) → (n ≤ begun) × T (is_asked a (n, u))) → (n : ℕ) → InClosure issued asked n → T (done n) }
{}
