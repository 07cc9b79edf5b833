// Lists of updates, object by object.
ghost use Rattle.std.specs.Prelude.{◌≡◌, ℕ, T, Bool, true, false, ◌&&◌, ◌||◌, not, List, [], ◌∷◌, ◌++◌, None};
ghost use Rattle.std.specs.List.{filter, list_all, list_any};
ghost use Rattle.ec_volume.specs.Update.{operands, has_operand, fits, first_unfit};
ghost use Rattle.ec_volume.specs.Volume.{Images, image_after, after, fits_in_turn, Fits};
ghost use Rattle.ec_volume.specs.declared.image.Image.{Image};
ghost use Rattle.ec_volume.specs.declared.update.Update.{Update};
ghost use Rattle.ec_order.specs.Order.{share};

/// What more updates leave at an object, and whether they fit there: they go on where the first
/// ones end.
pub fn longer_lists_go_on()
    ensures leave { (o : ℕ) (i : Image) (us ws : List Update) → image_after o i (us ++ ws) ≡ image_after o (image_after o i us) ws }
    ensures fit { (o : ℕ) (i : Image) (us ws : List Update) → fits_in_turn o i (us ++ ws) ≡ (fits_in_turn o i us && fits_in_turn o (image_after o i us) ws) }
    ensures fit_next { (base : Images) (us : List Update) (u : Update) → Fits base us
        → ((o : ℕ) → T (not (has_operand o u) || fits u o (after base us o))) → Fits base (us ++ u ∷ []) }
{}

/// What a list leaves at an object, and whether it fits there, depends on those of its updates
/// alone that have the object as an operand.
pub fn an_object_sees_its_own_updates()
    ensures leave { (o : ℕ) (i : Image) (us : List Update) → image_after o i (filter (has_operand o) us) ≡ image_after o i us }
    ensures fit { (o : ℕ) (i : Image) (us : List Update) → fits_in_turn o i (filter (has_operand o) us) ≡ fits_in_turn o i us }
    ensures stay { (o : ℕ) (i : Image) (us : List Update) → list_any (has_operand o) us ≡ false → image_after o i us ≡ i }
    ensures none { (o : ℕ) (i : Image) (us : List Update) → list_any (has_operand o) us ≡ false → T (fits_in_turn o i us) }
{}

/// A list fits a volume if it fits at the operands of its updates; and an update at each object, if
/// none of its operands is unfit.
pub fn operands_are_enough()
    ensures one { (v : Images) (u : Update) → first_unfit u v (operands u) ≡ None → (o : ℕ) → T (not (has_operand o u) || fits u o (v o)) }
    ensures list { (base : Images) (us : List Update) → T (list_all (λ u. list_all (λ o. fits_in_turn o (base o) us) (operands u)) us) → Fits base us }
{}

/// Lists that have the same updates in the same order at each object leave the same volume, and fit
/// alike.
pub fn equal_projections_are_enough()
    ensures leave { (base : Images) (us ws : List Update) → ((o : ℕ) → filter (has_operand o) us ≡ filter (has_operand o) ws) → after base us ≡ after base ws }
    ensures fit { (base : Images) (us ws : List Update) → ((o : ℕ) → filter (has_operand o) us ≡ filter (has_operand o) ws) → Fits base us → Fits base ws }
{}

/// Neighbours without a common operand may change places.
pub fn strangers_change_places()
    ensures leave { (base : Images) (us ws : List Update) (a b : Update) → share a b ≡ false → after base (us ++ a ∷ b ∷ ws) ≡ after base (us ++ b ∷ a ∷ ws) }
    ensures fit { (base : Images) (us ws : List Update) (a b : Update) → share a b ≡ false → Fits base (us ++ a ∷ b ∷ ws) → Fits base (us ++ b ∷ a ∷ ws) }
{}
