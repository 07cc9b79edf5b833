// Overwrites: updates that put bytes inside a file.
ghost use Rattle.std.specs.Prelude.{◌≡◌, ◌<◌, ◌≤◌, ◌+◌, ℕ, T, Bool, true, false, List, [], ◌∷◌, length};
ghost use Rattle.ec_volume.specs.Image.{is_file, bytes_of, overwritten};
ghost use Rattle.ec_volume.specs.Update.{has_operand, fits, effect};
ghost use Rattle.ec_volume.specs.Volume.{image_after, fits_in_turn};
ghost use Rattle.ec_volume.specs.declared.image.Image.{Image};
ghost use Rattle.ec_volume.specs.declared.update.Update.{Update};
ghost use Rattle.ec_plain.specs.Plain.{stat_of};
ghost use Rattle.ec_order.specs.Order.{is_overwrite, meet, under};

/// An overwrite fits files alone, and where it fits it keeps all that a stat shows: kind, mode,
/// stamp, owner and length.
pub fn overwrites_keep_the_stat()
    ensures file { (o : ℕ) (i : Image) (u : Update) → is_overwrite u ≡ true → T (fits u o i) → T (is_file i) }
    ensures kind { (o : ℕ) (i : Image) (u : Update) → is_overwrite u ≡ true → is_file (effect u o i) ≡ is_file i }
    ensures stat { (o : ℕ) (i : Image) (u : Update) → is_overwrite u ≡ true → T (fits u o i) → stat_of (effect u o i) ≡ stat_of i }
    ensures length { (o : ℕ) (i : Image) (u : Update) → is_overwrite u ≡ true → T (fits u o i) → length (bytes_of (effect u o i)) ≡ length (bytes_of i) }
{}

/// Whether an overwrite fits depends on the kind and the length alone.
pub fn overwrites_fit_by_length()
    ensures { (o : ℕ) (i j : Image) (u : Update) → is_overwrite u ≡ true → is_file i ≡ is_file j → length (bytes_of i) ≡ length (bytes_of j)
        → fits u o i ≡ fits u o j }
{}

/// Overwrites of one file fit in either order or in neither; and where their ranges of bytes don't
/// meet they come to the same in either order.
pub fn overwrites_change_places()
    ensures bytes { (p q : ℕ) (xs ys bs : List ℕ) → p + length xs ≤ q → overwritten p xs (overwritten q ys bs) ≡ overwritten q ys (overwritten p xs bs) }
    ensures effects { (o : ℕ) (i : Image) (a b : Update) → is_overwrite a ≡ true → is_overwrite b ≡ true → has_operand o a ≡ true
        → has_operand o b ≡ true → under a b ≡ false → effect a o (effect b o i) ≡ effect b o (effect a o i) }
    ensures fit { (o : ℕ) (i : Image) (a b : Update) → is_overwrite a ≡ true → is_overwrite b ≡ true
        → fits_in_turn o i (a ∷ b ∷ []) ≡ fits_in_turn o i (b ∷ a ∷ []) }
{}

/// Two ranges of bytes meet exactly where some place is in both.
pub fn ranges_meet_at_a_place()
    ensures place { (m k n l : ℕ) → meet m k n l ≡ true → (p : ℕ) × (m ≤ p) × (p < m + k) × (n ≤ p) × (p < n + l) }
    ensures from { (m k n l p : ℕ) → m ≤ p → p < m + k → n ≤ p → p < n + l → meet m k n l ≡ true }
{}
