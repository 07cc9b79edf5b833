// What holds of all checkpoints.
ghost use Rattle.std.specs.Prelude.{◌≡◌, ◌≤◌, ℕ, List, length, take};
ghost use Rattle.std.specs.List.{All};
ghost use Rattle.ec_journal.specs.OfLayout.Places as place;
ghost use Rattle.ec_journal.specs.OfLayout.Sides as sides;
ghost use Rattle.ec_journal.specs.OfLayout.Layout.{AreFree};
ghost use Rattle.ec_journal.specs.OfLayout.Free.{free_below};
ghost use Rattle.ec_journal.specs.OfLayout.Pieces.{slots_of, AreApart};

/// Pieces for free slots, as many as one likes and in their order, are apart, and none of them is for a slot that is named.
pub fn free_pieces_are_apart()
    ensures { (count : ℕ) (slots pieces : List (ℕ × List ℕ)) (n : ℕ) → count ≤ sides.slot_count → slots_of pieces ≡ take n (free_below count (slots_of slots)) → All (λ p. length p.1 ≤ place.slot_bytes) pieces → AreApart pieces × AreFree pieces slots }
{}
