// All objects by their ids.
ghost use Rattle.std.specs.Prelude.{◌≡◌, ◌≤◌, ℕ, T, true, false, None, Some, Ok, [], ◌∷◌, length, not, MatchOption, IfOk, OnOk, OnErr, IfErr, slice_get, IfSome};
ghost use Rattle.std.specs.Ordering.{nat_cmp};
ghost use Rattle.std.specs.FinMap.{is_sorted};
ghost use Rattle.ec_volume.specs.Image.{is_gone, new_object};
ghost use Rattle.ec_volume.specs.Update.{root, is_sound, operands, first_unfit, fits};
ghost use Rattle.ec_volume.specs.Volume.{images, formatted, after};
ghost use Rattle.ec_volume.specs.declared.image.Kind.TheVariants as kind;
ghost use Rattle.ec_volume.specs.Carry.{renames};
ghost use Rattle.ec_volume.specs.Held.{IsVolume, is_held, changed};
ghost use Rattle.ec_volume.specs.Misfits.{Unfits};

use crate::carry::{carry_out, change_at};
use crate::image::{Image, Kind};
use crate::look::Look;
use crate::shared::SharedImage;
use crate::update::{Update, operands};
use ec_base::{Duplicate, NoMemory, ObjId, SortedMap};
use std::alloc::Global;
use std::marker::Model;
use thiserror::Error;

/// Why an update wasn't applied.
#[derive(Clone, Copy, Debug, Drop, PartialEq, Eq, Error)]
pub enum ApplyFault {
    /// The first operand at which the update doesn't fit.
    #[error("unfit")]
    Unfit(ObjId),
    #[error("out of memory")]
    NoMemory,
}

impl From<NoMemory> for ApplyFault {
    ghost use Rattle.ec_volume.specs.declared.volume.ApplyFault.TheVariants as fault;

    ghost from_gives = { λ _ e. e ≡ fault.NoMemory };

    fn from(_: NoMemory) -> Self {
        ApplyFault::NoMemory
    }
}

/// A volume: its live objects' images by rising ids.
pub struct Volume {
    map: SortedMap<ObjId, SharedImage>,
    // The place of the object that was changed last.
    near: usize,
}

// Who drops one calls this, and needn't take it apart.
impl Drop for Volume {
    fn drop(self) {
        let Volume { map, near: _ } = self;
        drop(map);
    }
}

impl Model for Volume {
    ghost use Rattle.std.specs.Prelude.{ℕ, List};
    ghost use Rattle.ec_volume.specs.declared.image.Image.{Image};

    ghost Value = { List (ℕ × Image) };

    ghost use Rattle.ec_volume.specs.Held.{IsVolume};

    ghost view = { λ a. a.map };

    ghost invariant = { λ a. IsVolume a.map };
}

impl Volume {
    /// The root alone, an empty directory.
    pub fn formatted(alloc: Global) -> Result<Volume, NoMemory>
        ensures images { IfOk result (λ volume. (o : ℕ) → images volume o ≡ formatted o) }
        ensures list { IfOk result (λ volume. volume ≡ (root, new_object kind.Dir) ∷ []) }
    {
        let mut map = SortedMap::new(alloc);
        let root = Image::new_object(alloc, Kind::Dir);
        map.insert(ObjId::root(), SharedImage::new(alloc, root)?)?;
        Ok(Volume { map, near: 0 })
    }

    /// The volume of these images, by rising ids. It takes no memory.
    pub fn of(list: Vec<(ObjId, SharedImage)>) -> Result<Volume, NoMemory>
        requires { IsVolume list.items }
        ensures { result ≡ Ok list.items }
    {
        Ok(Volume {
            map: SortedMap::of(list),
            near: 0,
        })
    }

    /// The image of a live object.
    pub fn look(&self, id: ObjId) -> Option<&Image>
        ensures image { MatchOption result (images self.now id ≡ Image.Gone) (λ image. (images self.now id ≡ image.now) × (is_gone image.now ≡ false)) }
        ensures limits { IfSome result (λ image. is_held image.now ≡ true) }
    {
        match self.map.find(&id, self.near) {
            Some((_, image)) => Some(image.get()),
            None => None,
        }
    }

    /// The image of each id, which stays the volume's too. Those that aren't live are Gone.
    pub fn share(&self, id: ObjId) -> Result<SharedImage, NoMemory>
        ensures { IfOk result (λ image. image ≡ images self.now id) }
    {
        match self.map.find(&id, self.near) {
            Some((_, image)) => image.duplicate(),
            None => Ok(SharedImage::new(*self.map.allocator(), Image::Gone)?),
        }
    }

    /// How many live objects there are.
    pub fn live(&self) -> u32
        ensures count { result ≡ length self.now }
        ensures volume { IsVolume self.now }
    {
        count(self.map.items())
    }

    /// The live objects' images, by rising ids.
    pub fn items(&self) -> &[(ObjId, SharedImage)]
        ensures value { result.now ≡ self.now }
        ensures volume { IsVolume self.now }
    {
        self.map.items()
    }

    /// The live object at a place from 0, by rising ids.
    pub fn at(&self, place: usize) -> Option<(ObjId, &Image)>
        ensures { MatchOption result (length self.now ≤ place) (λ pair. slice_get self.now place ≡ Some (pair.0, pair.1.now)) }
    {
        let (id, image) = self.map.at(place)?;
        Some((*id, image.get()))
    }

    /// Carries out an update where it fits each of its operands.
    pub fn apply(&mut self, update: &Update) -> Result<(), ApplyFault>
        requires { T (is_sound update.now) }
        ensures ok { OnOk result ((o : ℕ) → images self.new o ≡ after (images self.old) (update.now ∷ []) o) }
        ensures changed { OnOk result (self.new ≡ changed update.now self.old) }
        ensures fits { OnOk result (first_unfit update.now (images self.old) (operands update.now) ≡ None) }
        ensures unfit { IfErr result (λ fault. Unfits fault update.now (images self.old)) }
        ensures err { OnErr result (self.new ≡ self.old) }
    {
        match update {
            Update::Put { obj, .. }
            | Update::Len { obj, .. }
            | Update::Mode { obj, .. }
            | Update::Stamp { obj, .. }
            | Update::Owner { obj, .. } => self.apply_itself(update, *obj),
            _ => self.apply_all(update),
        }
    }

    // An update of an object's own parts. The object is looked up once.
    fn apply_itself(&mut self, update: &Update, id: ObjId) -> Result<(), ApplyFault>
        requires sound { T (is_sound update.now) }
        requires itself { renames update.now ≡ false }
        requires operand { operands update.now ≡ id ∷ [] }
        ensures ok { OnOk result ((o : ℕ) → images self.new o ≡ after (images self.old) (update.now ∷ []) o) }
        ensures changed { OnOk result (self.new ≡ changed update.now self.old) }
        ensures fits { OnOk result (first_unfit update.now (images self.old) (operands update.now) ≡ None) }
        ensures unfit { IfErr result (λ fault. Unfits fault update.now (images self.old)) }
        ensures err { OnErr result (self.new ≡ self.old) }
    {
        let Some((place, image)) = self.map.find(&id, self.near) else {
            return Err(ApplyFault::Unfit(id));
        };
        if !image.get().fits(update, id) {
            return Err(ApplyFault::Unfit(id));
        }
        self.near = place;
        Ok(change_at(&mut self.map, update, id, place)?)
    }

    // An update of several objects.
    fn apply_all(&mut self, update: &Update) -> Result<(), ApplyFault>
        requires { T (is_sound update.now) }
        ensures ok { OnOk result ((o : ℕ) → images self.new o ≡ after (images self.old) (update.now ∷ []) o) }
        ensures changed { OnOk result (self.new ≡ changed update.now self.old) }
        ensures fits { OnOk result (first_unfit update.now (images self.old) (operands update.now) ≡ None) }
        ensures unfit { IfErr result (λ fault. Unfits fault update.now (images self.old)) }
        ensures err { OnErr result (self.new ≡ self.old) }
    {
        let ids = operands(*self.map.allocator(), update)?;
        if let Some(id) = self.first_unfit(update, &ids) {
            return Err(ApplyFault::Unfit(id));
        }
        Ok(carry_out(&mut self.map, update)?)
    }

    // The first of the operands at which the update doesn't fit.
    fn first_unfit(&self, update: &Update, ids: &[ObjId]) -> Option<ObjId>
        ensures { result ≡ first_unfit update.now (images self.now) ids.now }
    {
        for id in ids {
            if !self.fits(update, *id) {
                return Some(*id);
            }
        }
        None
    }

    fn fits(&self, update: &Update, id: ObjId) -> bool
        ensures { result ≡ fits update.now id (images self.now id) }
    {
        match self.look(id) {
            Some(image) => image.fits(update, id),
            None => Image::Gone.fits(update, id),
        }
    }
}

impl Look for Volume {
    ghost images = { images };

    fn look(&self, id: ObjId) -> Option<&Image> {
        Volume::look(self, id)
    }
}

impl Duplicate for Volume {
    fn duplicate(&self) -> Result<Self, NoMemory> {
        Ok(Volume {
            map: self.map.duplicate()?,
            near: self.near,
        })
    }
}

// Ids are from 1, so there are no more of them than the last one says.
fn count(items: &[(ObjId, SharedImage)]) -> u32
    requires { T (is_sorted nat_cmp items.now) }
    ensures { result ≡ length items.now }
{
    let (Some((first, _)), Some((last, _))) = (items.first(), items.last()) else {
        return 0;
    };
    let (_low, _high) = (first.get(), last.get());
    items.len() as u32
}
