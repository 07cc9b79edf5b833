// What operations need, and sets of them that hold what their members need.
ghost use Rattle.std.specs.Prelude.{◌≡◌, ◌<◌, ℕ, T, Bool, false, not, ◌&&◌, ◌||◌, map, take, List};
ghost use Rattle.std.specs.List.{filter};
ghost use Rattle.std.specs.Ordering.{nat_cmp};
ghost use Rattle.std.specs.FinMap.{is_sorted};
ghost use Rattle.ec_volume.specs.Update.{member};
ghost use Rattle.ec_volume.specs.declared.update.Update.{Update};
ghost use Rattle.ec_order.specs.Order.{needs, Issued, Holds, InClosure, closure};
ghost use Rattle.ec_history.specs.History.{Op};
ghost use Rattle.ec_history.specs.OfLaws.Needs.{holds_needed};

/// Of operations with rising numbers, the closure as a list has those of the closure as the least
/// set, each once and in order.
pub fn closure_lists_the_least_set()
    ensures all { (issued : Issued) (asked : ℕ → Bool) (n : ℕ) → T (is_sorted nat_cmp issued) → InClosure issued asked n
        → (u : Update) × Holds (closure asked issued) n u }
    ensures least { (issued : Issued) (asked : ℕ → Bool) (n : ℕ) → T (is_sorted nat_cmp issued) → (u : Update) → Holds (closure asked issued) n u
        → InClosure issued asked n }
    ensures part { (issued : Issued) (asked : ℕ → Bool) (n : ℕ) (u : Update) → Holds (closure asked issued) n u → Holds issued n u }
    ensures sorted { (issued : Issued) (asked : ℕ → Bool) → T (is_sorted nat_cmp issued) → T (is_sorted nat_cmp (closure asked issued)) }
{}

/// Of operations with rising numbers, the closure holds what its members need, and each set that
/// does so and holds what was asked holds the closure.
pub fn closure_holds_its_needs()
    ensures needs { (issued : Issued) (asked : ℕ → Bool) → T (is_sorted nat_cmp issued)
        → T (holds_needed (λ x. x.1) (λ x. member x.0 (map (λ y. y.0) (closure asked issued))) issued) }
    ensures within { (issued : Issued) (asked inside : ℕ → Bool) → T (is_sorted nat_cmp issued) → T (holds_needed (λ x. x.1) (λ x. inside x.0) issued)
        → ((n : ℕ) (u : Update) → Holds issued n u → T (asked n) → T (inside n)) → (n : ℕ) → InClosure issued asked n → T (inside n) }
{}

/// A closure among a part of the operations is within the closure among all. Beside a set that
/// holds what its members need, such as the durable operations, the closure among the rest has all
/// that the closure has outside that set.
pub fn closure_goes_by_the_rest()
    ensures within { (part : ℕ × Update → Bool) (issued : Issued) (asked : ℕ → Bool) (n : ℕ) → InClosure (filter part issued) asked n
        → InClosure issued asked n }
    ensures rest { (issued : Issued) (asked done : ℕ → Bool) (n : ℕ) → T (is_sorted nat_cmp issued) → T (holds_needed (λ x. x.1) (λ x. done x.0) issued)
        → InClosure issued asked n → done n ≡ false → InClosure (filter (λ x. not (done x.0)) issued) asked n }
{}

/// Of operations with rising numbers, a set of numbers holds what its members need exactly if each
/// operation that one inside needs, and that has a smaller number, is inside.
pub fn needs_go_by_numbers()
    ensures by { (issued : Issued) (inside : ℕ → Bool) → T (is_sorted nat_cmp issued) → T (holds_needed (λ x. x.1) (λ x. inside x.0) issued)
        → (m n : ℕ) (a b : Update) → Holds issued m a → Holds issued n b → m < n → T (needs a b) → T (inside n) → T (inside m) }
    ensures from { (issued : Issued) (inside : ℕ → Bool) → T (is_sorted nat_cmp issued)
        → ((m n : ℕ) (a b : Update) → Holds issued m a → Holds issued n b → m < n → T (needs a b) → T (inside n) → T (inside m))
        → T (holds_needed (λ x. x.1) (λ x. inside x.0) issued) }
{}

/// The first of a set that holds what its members need, as a list with rising numbers, do so too.
pub fn first_members_hold_their_needs()
    ensures { (issued ys : Issued) (k : ℕ) → T (is_sorted nat_cmp issued) → T (is_sorted nat_cmp ys)
        → T (holds_needed (λ x. x.1) (λ x. member x.0 (map (λ y. y.0) ys)) issued)
        → T (holds_needed (λ x. x.1) (λ x. member x.0 (map (λ y. y.0) (take k ys))) issued) }
{}

/// A set that holds what its members need does so among any part of the operations; so does what
/// another set leaves of it, among what that leaves; and together with a set that does so among the
/// others it does so again. All this of operations of several starts, and of numbered ones.
pub fn parts_hold_their_needs()
    ensures part { (inside part : Op → Bool) (ks : List Op) → T (holds_needed (λ k. k.update) inside ks)
        → T (holds_needed (λ k. k.update) inside (filter part ks)) }
    ensures minus { (inside taken : Op → Bool) (ks : List Op) → T (holds_needed (λ k. k.update) inside ks)
        → T (holds_needed (λ k. k.update) (λ k. inside k && not (taken k)) (filter (λ k. not (taken k)) ks)) }
    ensures join { (inside next : Op → Bool) (ks : List Op) → T (holds_needed (λ k. k.update) inside ks)
        → T (holds_needed (λ k. k.update) next (filter (λ k. not (inside k)) ks)) → T (holds_needed (λ k. k.update) (λ k. inside k || next k) ks) }
    ensures numbered_part { (inside part : ℕ × Update → Bool) (xs : Issued) → T (holds_needed (λ x. x.1) inside xs)
        → T (holds_needed (λ x. x.1) inside (filter part xs)) }
    ensures numbered_minus { (inside taken : ℕ × Update → Bool) (xs : Issued) → T (holds_needed (λ x. x.1) inside xs)
        → T (holds_needed (λ x. x.1) (λ x. inside x && not (taken x)) (filter (λ x. not (taken x)) xs)) }
    ensures numbered_join { (inside next : ℕ × Update → Bool) (xs : Issued) → T (holds_needed (λ x. x.1) inside xs)
        → T (holds_needed (λ x. x.1) next (filter (λ x. not (inside x)) xs)) → T (holds_needed (λ x. x.1) (λ x. inside x || next x) xs) }
{}
