// Volumes that stay well formed behind updates.
ghost use Rattle.std.specs.Prelude.{T, List};
ghost use Rattle.std.specs.List.{list_all};
ghost use Rattle.ec_volume.specs.Update.{is_sound};
ghost use Rattle.ec_volume.specs.Volume.{Images, formatted, after, Fits, WellFormed, AllReached};
ghost use Rattle.ec_volume.specs.declared.update.Update.{Update};
ghost use Rattle.ec_history.specs.OfLaws.Bases.{AllHeld};

/// Sound updates that fit leave a well-formed volume well formed, and each live object reached from
/// the root; a directory that moved may lie deeper than a path of a call reaches. They keep images
/// within the limits of modes, bytes and entries too.
pub fn fitting_updates_keep_volumes_well_formed()
    ensures formed { (v : Images) (us : List Update) → WellFormed v → T (list_all is_sound us) → Fits v us → WellFormed (after v us) }
    ensures reached { (v : Images) (us : List Update) → WellFormed v → AllReached v → T (list_all is_sound us) → Fits v us → AllReached (after v us) }
    ensures held { (v : Images) (us : List Update) → AllHeld v → T (list_all is_sound us) → Fits v us → AllHeld (after v us) }
{}

/// The formatted volume is so.
pub fn formatted_is_well_formed()
    ensures formed { WellFormed formatted }
    ensures reached { AllReached formatted }
    ensures held { AllHeld formatted }
{}
