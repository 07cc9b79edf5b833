// Updates of renamed ids.
ghost use Rattle.std.specs.Prelude.{◌≡◌, ℕ, map};
ghost use Rattle.ec_volume.specs.Update.{operands, has_operand, fits, effect, is_sound};
ghost use Rattle.ec_volume.specs.declared.image.Image.{Image};
ghost use Rattle.ec_volume.specs.declared.update.Update.{Update};
ghost use Rattle.ec_order.specs.Order.{is_overwrite, before, under, needs};
ghost use Rattle.ec_history.specs.OfLaws.Renaming.{IsRenaming, image_by};
ghost use Rattle.ec_history.specs.OfLaws.Renamed.{update_by};

/// An update of renamed ids has the renamed operands, fits where the update does and does the same;
/// it is sound where the update is, and needs what the update needs.
pub fn renamed_updates_do_alike()
    ensures operands { (r : ℕ → ℕ) (u : Update) → IsRenaming r → operands (update_by r u) ≡ map r (operands u) }
    ensures operand { (r : ℕ → ℕ) (o : ℕ) (u : Update) → IsRenaming r → has_operand (r o) (update_by r u) ≡ has_operand o u }
    ensures fits { (r : ℕ → ℕ) (u : Update) (o : ℕ) (i : Image) → IsRenaming r → fits (update_by r u) (r o) (image_by r i) ≡ fits u o i }
    ensures effect { (r : ℕ → ℕ) (u : Update) (o : ℕ) (i : Image) → IsRenaming r → effect (update_by r u) (r o) (image_by r i) ≡ image_by r (effect u o i) }
    ensures sound { (r : ℕ → ℕ) (u : Update) → IsRenaming r → is_sound (update_by r u) ≡ is_sound u }
    ensures overwrite { (r : ℕ → ℕ) (u : Update) → is_overwrite (update_by r u) ≡ is_overwrite u }
    ensures before { (r : ℕ → ℕ) (a b : Update) → IsRenaming r → before (update_by r a) (update_by r b) ≡ before a b }
    ensures under { (r : ℕ → ℕ) (a b : Update) → IsRenaming r → under (update_by r a) (update_by r b) ≡ under a b }
    ensures needs { (r : ℕ → ℕ) (a b : Update) → IsRenaming r → needs (update_by r a) (update_by r b) ≡ needs a b }
{}
