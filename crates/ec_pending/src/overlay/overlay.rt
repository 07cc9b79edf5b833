// A volume with changed images laid over it.
ghost use Rattle.std.specs.Prelude.{◌≡◌, ◌==◌, ◌∷◌, [], true, false, if◌then◌else◌, ℕ, T, None, Some, IfOk, OnOk, IfSome, MatchBool};
ghost use Rattle.ec_volume.specs.Update.{is_sound, member, operands, distinct, first_unfit, fits, effect};
ghost use Rattle.ec_volume.specs.Volume.{images, formatted, after};
ghost use Rattle.ec_pending.specs.OfOverlay.Fine.{is_fine};
ghost use Rattle.ec_pending.specs.OfOverlay.Shown.{shown, has_own};

use crate::overlay::changed::Changed;
use ec_base::{Duplicate, NoMemory, ObjId};
use ec_volume::{Image, Look, Update, Volume, operands};
use std::alloc::Global;

/// A volume, and the images of the objects that updates changed since. The volume below keeps.
#[derive(Drop)]
pub struct Overlay {
    pub under: Volume,
    pub over: Changed,
}

impl Look for Overlay {
    ghost images = { shown };

    fn look(&self, id: ObjId) -> Option<&Image> {
        match self.over.get(id) {
            None => self.under.look(id),
            Some(Image::Gone) => None,
            Some(image) => Some(image),
        }
    }
}

impl Overlay {
    /// The formatted volume.
    pub fn formatted(alloc: Global) -> Result<Overlay, NoMemory>
        ensures shown { IfOk result (λ overlay. (o : ℕ) → shown overlay o ≡ formatted o) }
        ensures under { IfOk result (λ overlay. (o : ℕ) → images overlay.under o ≡ formatted o) }
        ensures own { IfOk result (λ overlay. (o : ℕ) → has_own overlay o ≡ false) }
    {
        Ok(Overlay {
            under: Volume::formatted(alloc)?,
            over: Changed::new(alloc),
        })
    }

    /// The object has an image of its own again, the one that it has in the volume below.
    pub fn restore(&mut self, obj: ObjId) -> Result<(), NoMemory>
        ensures images { OnOk result ((o : ℕ) → shown self.new o ≡ (if o == obj then images self.old.under obj else shown self.old o)) }
        ensures own { OnOk result ((o : ℕ) → T (has_own self.old o) → T (has_own self.new o)) }
        ensures laid { OnOk result (T (has_own self.new obj)) }
        ensures under { self.new.under ≡ self.old.under }
    {
        let image = self.below(obj)?;
        self.over.put(obj, image)
    }

    /// Carries the update out, if it fits each of its operands. Where it doesn't, its operands'
    /// images are lost.
    pub fn carry_out(&mut self, alloc: Global, update: &Update) -> Result<bool, NoMemory>
        requires { T (is_sound update.now) }
        ensures images { IfOk result (λ fits. MatchBool fits ((first_unfit update.now (shown self.old) (operands update.now) ≡ None)
            × ((o : ℕ) → shown self.new o ≡ after (shown self.old) (update.now ∷ []) o)) ((o : ℕ) × (first_unfit update.now (shown self.old) (operands update.now) ≡ Some o))) }
        ensures own { IfOk result (λ fits. (o : ℕ) → T (has_own self.old o) → T (has_own self.new o)) }
        ensures laid { IfOk result (λ fits. fits ≡ true → (o : ℕ) → T (member o (operands update.now)) → T (has_own self.new o)) }
        ensures under { self.new.under ≡ self.old.under }
    {
        if let Some(obj) = only_operand(update) {
            return self.carry_out_at(alloc, update, &[obj]);
        }
        let objs = operands(alloc, update)?;
        self.carry_out_at(alloc, update, &objs)
    }

    /// Carries the update out at these of its operands alone, if it fits each of them. Where it
    /// doesn't, their images are lost.
    pub fn carry_out_at(
        &mut self,
        alloc: Global,
        update: &Update,
        objs: &[ObjId],
    ) -> Result<bool, NoMemory>
        requires sound { T (is_sound update.now) }
        requires distinct { distinct objs.now ≡ true }
        ensures images { IfOk result (λ fits. MatchBool fits ((first_unfit update.now (shown self.old) objs.now ≡ None)
            × ((o : ℕ) → shown self.new o ≡ (if member o objs.now then effect update.now o (shown self.old o) else shown self.old o))) ((o : ℕ) × (first_unfit update.now (shown self.old) objs.now ≡ Some o))) }
        ensures own { IfOk result (λ fits. (o : ℕ) → T (has_own self.old o) → T (has_own self.new o)) }
        ensures laid { IfOk result (λ fits. fits ≡ true → (o : ℕ) → T (member o objs.now) → T (has_own self.new o)) }
        ensures under { self.new.under ≡ self.old.under }
    {
        match objs {
            [] => Ok(true),
            [obj, rest @ ..] => {
                if !self.change(alloc, update, *obj)? {
                    return Ok(false);
                }
                self.carry_out_at(alloc, update, rest)
            }
        }
    }

    fn change(&mut self, alloc: Global, update: &Update, obj: ObjId) -> Result<bool, NoMemory>
        requires { T (is_sound update.now) }
        ensures images { IfOk result (λ done. MatchBool done ((fits update.now obj (shown self.old obj) ≡ true)
            × ((o : ℕ) → shown self.new o ≡ (if o == obj then effect update.now obj (shown self.old obj) else shown self.old o))) (fits update.now obj (shown self.old obj) ≡ false)) }
        ensures own { IfOk result (λ done. (o : ℕ) → T (has_own self.old o) → T (has_own self.new o)) }
        ensures laid { IfOk result (λ done. done ≡ true → T (has_own self.new obj)) }
        ensures under { self.new.under ≡ self.old.under }
    {
        let mut image = self.take(obj)?;
        if !image.fits(update, obj) {
            return Ok(false);
        }
        image.effect(alloc, update, obj)?;
        self.over.put(obj, image)?;
        Ok(true)
    }

    // The image of the object, which isn't shown any more.
    fn take(&mut self, obj: ObjId) -> Result<Image, NoMemory>
        ensures image { IfOk result (λ image. image ≡ shown self.old obj) }
        ensures fine { IfOk result (λ image. is_fine image ≡ true) }
        ensures others { (o : ℕ) → (o == obj) ≡ false → shown self.new o ≡ shown self.old o }
        ensures own { (o : ℕ) → T (has_own self.old o) → T (has_own self.new o) }
        ensures under { self.new.under ≡ self.old.under }
    {
        if let Some(image) = self.over.take(obj) {
            return Ok(image);
        }
        self.below(obj)
    }

    // A copy of the object's image in the volume below.
    fn below(&self, obj: ObjId) -> Result<Image, NoMemory>
        ensures image { IfOk result (λ image. image ≡ images self.now.under obj) }
        ensures fine { IfOk result (λ image. is_fine image ≡ true) }
    {
        match self.under.look(obj) {
            Some(image) => image.duplicate(),
            None => Ok(Image::Gone),
        }
    }
}

// The operand of an update of an object's own parts.
fn only_operand(update: &Update) -> Option<ObjId>
    ensures { IfSome result (λ obj. operands update.now ≡ obj ∷ []) }
{
    match update {
        Update::Put { obj, .. }
        | Update::Len { obj, .. }
        | Update::Mode { obj, .. }
        | Update::Stamp { obj, .. }
        | Update::Owner { obj, .. } => Some(*obj),
        _ => None,
    }
}
