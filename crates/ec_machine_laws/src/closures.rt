// Closures of what is asked for, and batches of them.
ghost use Rattle.std.specs.Prelude.{◌≡◌, ◌≢◌, ◌⊎◌, ℕ, T, Bool, List, [], ◌++◌, length, take, Some};
ghost use Rattle.std.specs.Ordering.{nat_cmp};
ghost use Rattle.std.specs.FinMap.{is_sorted};
ghost use Rattle.ec_base.specs.Tables.{keys};
ghost use Rattle.ec_volume.specs.Update.{member};
ghost use Rattle.ec_volume.specs.declared.update.Update.{Update};
ghost use Rattle.ec_order.specs.Order.{Issued, Holds, InClosure, closure};
ghost use Rattle.ec_log.specs.Log.{is_asked, closure_of, first, pick};
ghost use Rattle.ec_log.specs.declared.state.Asked.{Asked};
ghost use Rattle.ec_log.specs.declared.state.LogState.{LogState};
ghost use Rattle.ec_log.specs.declared.state.Pick.TheVariants.{Batch, Settled};
ghost use Rattle.ec_machine_laws.specs.Needs.{IsPart, AreAskedToo};
ghost use Rattle.ec_machine_laws.specs.Picks.{IsRest};

/// A closure grows with the operations and with what is asked: the least set, and, of operations
/// with rising numbers, the list.
pub fn closures_grow_with_the_list()
    ensures set { (xs ys : Issued) (asked wider : ℕ → Bool) → IsPart xs ys → AreAskedToo xs asked wider → (n : ℕ) → InClosure xs asked n → InClosure ys wider n }
    ensures list { (xs ys : Issued) (asked wider : ℕ → Bool) → IsPart xs ys → AreAskedToo xs asked wider → T (is_sorted nat_cmp xs) → T (is_sorted nat_cmp ys)
        → (n : ℕ) (u : Update) → Holds (closure asked xs) n u → Holds (closure wider ys) n u }
    ensures front { (xs ys : Issued) (asked : ℕ → Bool) (n : ℕ) → InClosure xs asked n → InClosure (xs ++ ys) asked n }
{}

/// What is asked for and undurable is in the closure. So where there is a first one, the closure
/// isn't empty, and a pick isn't settled.
pub fn what_is_asked_for_is_in_its_closure()
    ensures asked { (a : Asked) (l : LogState) (n : ℕ) (u : Update) → Holds l.undurable n u → T (is_asked a (n, u)) → Holds (closure_of a l) n u }
    ensures some { (a : Asked) (l : LogState) (m : ℕ) → first a l ≡ Some m → closure_of a l ≢ [] }
    ensures unsettled { (a : Asked) (l : LogState) (m : ℕ) → first a l ≡ Some m → pick a l ≢ Settled }
{}

/// Where no batch is under way and something asked for is undurable, a pick begins a batch.
pub fn picks_begin_where_no_batch_is_under_way()
    ensures { (a : Asked) (l : LogState) (m : ℕ) → l.batches ≡ [] → first a l ≡ Some m → pick a l ≡ Batch l.next_batch (keys (take 64 (closure_of a l))) }
{}

/// A batch that a pick begins has 64 operations, or it has the whole closure.
pub fn full_batches_or_whole_closures()
    ensures { (a : Asked) (l : LogState) (b : ℕ) (ns : List ℕ) → pick a l ≡ Batch b ns → (length ns ≡ 64) ⊎ (ns ≡ keys (closure_of a l)) }
{}

/// The closure among a start's undurable operations lies in the closure among all of them; and so
/// does each batch.
pub fn closures_among_the_undurable_are_within()
    ensures closure { (issued : Issued) (done : ℕ → Bool) (l : LogState) → IsRest issued done l → (a : Asked) (asked : ℕ → Bool) → ((n : ℕ) (u : Update) → Holds issued n u → T (is_asked a (n, u)) → T (asked n))
        → (n : ℕ) → T (member n (keys (closure_of a l))) → InClosure issued asked n }
    ensures batch { (issued : Issued) (done : ℕ → Bool) (l : LogState) → IsRest issued done l → (a : Asked) (asked : ℕ → Bool) → ((n : ℕ) (u : Update) → Holds issued n u → T (is_asked a (n, u)) → T (asked n))
        → (b : ℕ) (ns : List ℕ) → pick a l ≡ Batch b ns → (n : ℕ) → T (member n ns) → InClosure issued asked n }
{}
