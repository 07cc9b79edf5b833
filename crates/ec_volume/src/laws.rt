// Which lists of updates fit, and which list is the volume of some images.
ghost use Rattle.std.specs.Prelude.{◌≡◌, ◌↔◌, ℕ, T, false, List, [], ◌∷◌, ◌++◌, None, Some};
ghost use Rattle.ec_base.specs.Tables.{Table};
ghost use Rattle.ec_volume.specs.Update.{operands, member, fits, is_sound, first_unfit};
ghost use Rattle.ec_volume.specs.Volume.{Images, images, after, Fits};
ghost use Rattle.ec_volume.specs.Held.{IsVolume, changed};
ghost use Rattle.ec_volume.specs.declared.image.Image.{Image};
ghost use Rattle.ec_volume.specs.declared.update.Update.{Update};

/// An update fits a volume exactly if there is no first operand at which it doesn't fit; and such
/// an operand is one of its own, which it doesn't fit.
pub fn unfit_operand_decides()
    ensures none { (volume : Images) (update : Update) → (first_unfit update volume (operands update) ≡ None) ↔ Fits volume (update ∷ []) }
    ensures some { (volume : Images) (update : Update) (id : ℕ) → first_unfit update volume (operands update) ≡ Some id → T (member id (operands update)) × (fits update id (volume id) ≡ false) }
{}

/// A list of updates fits exactly if each one fits what those before it leave, whichever end the
/// list is cut at; and what two lists leave is what the second leaves of what the first leaves.
pub fn lists_fit_one_by_one()
    ensures empty { (volume : Images) → Fits volume [] }
    ensures first { (volume : Images) (update : Update) (updates : List Update) → Fits volume (update ∷ updates)
        ↔ ((first_unfit update volume (operands update) ≡ None) × Fits (after volume (update ∷ [])) updates) }
    ensures last { (volume : Images) (update : Update) (updates : List Update) → Fits volume (updates ++ update ∷ [])
        ↔ (Fits volume updates × (first_unfit update (after volume updates) (operands update) ≡ None)) }
    ensures joined { (volume : Images) (updates more : List Update) → Fits volume (updates ++ more) ↔ (Fits volume updates × Fits (after volume updates) more) }
    ensures after { (volume : Images) (updates more : List Update) (id : ℕ) → after volume (updates ++ more) id ≡ after (after volume updates) more id }
{}

/// A volume's list goes by its images: there is one list of them.
pub fn images_tell_the_volume()
    ensures { (es fs : Table Image) → IsVolume es → IsVolume fs → ((id : ℕ) → images es id ≡ images fs id) → es ≡ fs }
{}

/// The list behind a sound update has the images behind the update.
pub fn changed_volume_shows_the_update()
    ensures { (update : Update) (es : Table Image) → T (is_sound update) → (id : ℕ) → images (changed update es) id ≡ after (images es) (update ∷ []) id }
{}
