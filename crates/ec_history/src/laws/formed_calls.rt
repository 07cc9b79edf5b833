// The updates of calls.
ghost use Rattle.std.specs.Prelude.{◌≡◌, ◌≢◌, ℕ, T, [], ◌∷◌, Some};
ghost use Rattle.ec_volume.specs.Image.{is_gone};
ghost use Rattle.ec_volume.specs.Update.{is_sound};
ghost use Rattle.ec_volume.specs.Volume.{Images, after, Fits, WellFormed};
ghost use Rattle.ec_volume.specs.declared.update.Update.{Update};
ghost use Rattle.ec_plain.specs.Plain.{plain};
ghost use Rattle.ec_plain.specs.BoundedCalls.{is_bounded};
ghost use Rattle.ec_plain.specs.declared.call.Call.{Call};

/// On a well-formed volume in which the fresh id is Gone, the update of a call fits; that of a call
/// within its bounds is sound.
pub fn calls_make_fitting_updates()
    ensures sound { (v : Images) (cl : Call) (fresh : ℕ) (u : Update) → WellFormed v → T (is_gone (v fresh)) → T (is_bounded cl)
        → (plain v cl fresh).update ≡ Some u → T (is_sound u) }
    ensures fits { (v : Images) (cl : Call) (fresh : ℕ) (u : Update) → WellFormed v → T (is_gone (v fresh)) → (plain v cl fresh).update ≡ Some u
        → Fits v (u ∷ []) }
{}

/// A call makes no object but the one of the fresh id: another id that is Gone stays so.
pub fn calls_make_the_fresh_object_alone()
    ensures { (v : Images) (cl : Call) (fresh : ℕ) (u : Update) → (plain v cl fresh).update ≡ Some u → (o : ℕ) → o ≢ fresh → T (is_gone (v o))
        → T (is_gone (after v (u ∷ []) o)) }
{}
