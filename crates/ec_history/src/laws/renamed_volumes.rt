// Volumes with renamed ids, and calls on them.
ghost use Rattle.std.specs.Prelude.{◌≡◌, ℕ, T, not, List, map};
ghost use Rattle.ec_volume.specs.Image.{is_gone};
ghost use Rattle.ec_volume.specs.Volume.{Images, after, Fits, WellFormed, HaveOneShape};
ghost use Rattle.ec_volume.specs.declared.update.Update.{Update};
ghost use Rattle.ec_plain.specs.Plain.{plain};
ghost use Rattle.ec_plain.specs.declared.call.Call.{Call};
ghost use Rattle.ec_history.specs.OfLaws.Renaming.{IsRenaming};
ghost use Rattle.ec_history.specs.OfLaws.Renamed.{IsRenamed, update_by, outcome_by};

/// A volume with renamed ids has the same shape, the same lists of updates fit it, and they leave a
/// volume with renamed ids. A well-formed volume whose own ids are kept is itself renamed.
pub fn renamed_volumes_have_one_shape()
    ensures shape { (r : ℕ → ℕ) (v w : Images) → IsRenaming r → IsRenamed r v w → HaveOneShape v w }
    ensures after { (r : ℕ → ℕ) (v w : Images) (us : List Update) → IsRenaming r → IsRenamed r v w → IsRenamed r (after v us) (after w (map (update_by r) us)) }
    ensures fits { (r : ℕ → ℕ) (v w : Images) (us : List Update) → IsRenaming r → IsRenamed r v w → Fits v us → Fits w (map (update_by r) us) }
    ensures fits_back { (r : ℕ → ℕ) (v w : Images) (us : List Update) → IsRenaming r → IsRenamed r v w → Fits w (map (update_by r) us) → Fits v us }
    ensures kept_ids { (r : ℕ → ℕ) (v : Images) → IsRenaming r → WellFormed v → ((o : ℕ) → T (not (is_gone (v o))) → r o ≡ o) → IsRenamed r v v }
{}

/// A call comes to the same there: the same reply, and the update and the touched objects with
/// renamed ids.
pub fn renamed_calls_come_to_the_same()
    ensures { (r : ℕ → ℕ) (v w : Images) (cl : Call) (fresh : ℕ) → IsRenaming r → IsRenamed r v w → plain w cl (r fresh) ≡ outcome_by r (plain v cl fresh) }
{}
