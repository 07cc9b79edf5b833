// Operations that come before others which they don't need.
ghost use Rattle.std.specs.Prelude.{◌≡◌, ℕ, T, Bool, true, false, not, ◌&&◌, ◌||◌, map, List, ◌++◌};
ghost use Rattle.std.specs.List.{filter};
ghost use Rattle.ec_volume.specs.Update.{has_operand};
ghost use Rattle.ec_volume.specs.Volume.{Images, image_after, after, fits_in_turn, Fits};
ghost use Rattle.ec_volume.specs.declared.image.Image.{Image};
ghost use Rattle.ec_volume.specs.declared.update.Update.{Update};
ghost use Rattle.ec_order.specs.Order.{is_overwrite, share, under, needs, Issued};
ghost use Rattle.ec_history.specs.History.{Op, updates};
ghost use Rattle.ec_history.specs.OfLaws.Needs.{holds_needed};

/// Of two updates on one object the later one needs the earlier one, but where both are overwrites
/// whose ranges of bytes don't meet. Updates without a common operand don't need each other.
pub fn needs_within_an_object()
    ensures common { (o : ℕ) (a b : Update) → has_operand o a ≡ true → has_operand o b ≡ true
        → needs a b ≡ (not (is_overwrite a && is_overwrite b) || under a b) }
    ensures strangers { (a b : Update) → share a b ≡ false → needs a b ≡ false }
{}

/// At one object, a set that holds what its members need of the operations on the object may come
/// before the rest: that leaves the same image and fits alike, and the set fits without the rest.
pub fn what_holds_its_needs_comes_first()
    ensures leave { (o : ℕ) (i : Image) (inside : Op → Bool) (ks : List Op) → T (holds_needed (λ k. k.update) inside (filter (λ k. has_operand o k.update) ks))
        → image_after o i (updates (filter inside ks) ++ updates (filter (λ k. not (inside k)) ks)) ≡ image_after o i (updates ks) }
    ensures fit { (o : ℕ) (i : Image) (inside : Op → Bool) (ks : List Op) → T (holds_needed (λ k. k.update) inside (filter (λ k. has_operand o k.update) ks))
        → fits_in_turn o i (updates (filter inside ks) ++ updates (filter (λ k. not (inside k)) ks)) ≡ fits_in_turn o i (updates ks) }
    ensures alone { (o : ℕ) (i : Image) (inside : Op → Bool) (ks : List Op) → T (holds_needed (λ k. k.update) inside (filter (λ k. has_operand o k.update) ks))
        → T (fits_in_turn o i (updates ks)) → T (fits_in_turn o i (updates (filter inside ks))) }
{}

/// The same of a whole volume.
pub fn what_holds_its_needs_fits_first()
    ensures leave { (base : Images) (inside : Op → Bool) (ks : List Op) → T (holds_needed (λ k. k.update) inside ks)
        → after base (updates (filter inside ks) ++ updates (filter (λ k. not (inside k)) ks)) ≡ after base (updates ks) }
    ensures fit { (base : Images) (inside : Op → Bool) (ks : List Op) → T (holds_needed (λ k. k.update) inside ks)
        → Fits base (updates ks) → Fits base (updates (filter inside ks) ++ updates (filter (λ k. not (inside k)) ks)) }
    ensures alone { (base : Images) (inside : Op → Bool) (ks : List Op) → T (holds_needed (λ k. k.update) inside ks)
        → Fits base (updates ks) → Fits base (updates (filter inside ks)) }
{}

/// A set that holds its needs, and others that hold theirs together with it: they may come behind
/// it, before all else, and fit there.
pub fn what_holds_its_needs_comes_next()
    ensures leave { (base : Images) (inside next : Op → Bool) (ks : List Op) → T (holds_needed (λ k. k.update) inside ks)
        → after base (updates (filter inside ks) ++ updates (filter (λ k. not (inside k) && next k) ks))
        ≡ after base (updates (filter (λ k. inside k || next k) ks)) }
    ensures fit { (base : Images) (inside next : Op → Bool) (ks : List Op) → T (holds_needed (λ k. k.update) inside ks)
        → T (holds_needed (λ k. k.update) (λ k. inside k || next k) ks)
        → Fits base (updates ks) → Fits base (updates (filter inside ks) ++ updates (filter (λ k. not (inside k) && next k) ks)) }
{}

/// Sets of a start's numbered operations come first in the same way.
pub fn numbered_operations_come_first()
    ensures leave { (base : Images) (inside : ℕ × Update → Bool) (xs : Issued) → T (holds_needed (λ x. x.1) inside xs)
        → after base (map (λ x. x.1) (filter inside xs) ++ map (λ x. x.1) (filter (λ x. not (inside x)) xs)) ≡ after base (map (λ x. x.1) xs) }
    ensures fit { (base : Images) (inside : ℕ × Update → Bool) (xs : Issued) → T (holds_needed (λ x. x.1) inside xs)
        → Fits base (map (λ x. x.1) xs) → Fits base (map (λ x. x.1) (filter inside xs) ++ map (λ x. x.1) (filter (λ x. not (inside x)) xs)) }
    ensures alone { (base : Images) (inside : ℕ × Update → Bool) (xs : Issued) → T (holds_needed (λ x. x.1) inside xs)
        → Fits base (map (λ x. x.1) xs) → Fits base (map (λ x. x.1) (filter inside xs)) }
{}
