// An update that fits, carried out on the images of its operands.
ghost use Rattle.std.specs.Prelude.{◌≡◌, ◌==◌, ℕ, T, true, false, None, [], ◌∷◌, OnOk, OnErr, IfOk};
ghost use Rattle.std.specs.Ordering.{nat_cmp};
ghost use Rattle.std.specs.FinMap.{put};
ghost use Rattle.ec_base.specs.SortedPlaces.{StandsAt};
ghost use Rattle.ec_volume.specs.Image.{is_gone, new_object};
ghost use Rattle.ec_volume.specs.Update.{is_sound, operands, first_unfit, fits, effect};
ghost use Rattle.ec_volume.specs.Volume.{images, after};
ghost use Rattle.ec_volume.specs.Held.{IsVolume, is_held};
ghost use Rattle.ec_volume.specs.Carry.{instead, cleared};

use crate::image::{Image, Kind};
use crate::shared::SharedImage;
use crate::update::Update;
use ec_base::{Change, Duplicate, NoMemory, ObjId, SortedMap};
use std::alloc::Global;

// What an update makes of the image of one of its operands.
#[derive(Drop)]
struct Step<'a> {
    alloc: Global,
    update: &'a Update,
    id: ObjId,
}

impl Change<SharedImage> for Step<'_> {
    ghost use Rattle.std.specs.Prelude.{T};
    ghost use Rattle.ec_volume.specs.Update.{is_sound, effect};

    ghost ready = { λ step. T (is_sound step.update.now) };

    ghost makes = { λ step image. effect step.update.now step.id image };

    fn change(&self, image: &mut SharedImage) -> Result<(), NoMemory> {
        image.effect(self.alloc, self.update, self.id)
    }
}

/// Carries out an update that fits. What may want memory comes first.
pub(crate) fn carry_out(
    map: &mut SortedMap<ObjId, SharedImage>,
    update: &Update,
) -> Result<(), NoMemory>
    requires volume { IsVolume map.old }
    requires sound { T (is_sound update.now) }
    requires fits { first_unfit update.now (images map.old) (operands update.now) ≡ None }
    ensures ok { OnOk result ((o : ℕ) → images map.new o ≡ after (images map.old) (update.now ∷ []) o) }
    ensures volume { IsVolume map.new }
    ensures err { OnErr result (map.new ≡ map.old) }
{
    match update {
        Update::Make { dir, obj, kind, .. } => make(map, update, *dir, *obj, *kind),
        Update::Drop { dir, obj, .. } => {
            change(map, update, *dir)?;
            clear(map, Some(*obj));
            Ok(())
        }
        Update::Move { dir, victim, .. } => {
            change(map, update, *dir)?;
            clear(map, *victim);
            Ok(())
        }
        Update::Put { obj, .. }
        | Update::Len { obj, .. }
        | Update::Mode { obj, .. }
        | Update::Stamp { obj, .. }
        | Update::Owner { obj, .. } => change(map, update, *obj),
        Update::Order { .. } => Ok(()),
        Update::Shift {
            dir,
            into,
            victim,
            ..
        } => {
            let left = changed_image(map, update, *dir)?;
            change(map, update, *into)?;
            give(map, *dir, left);
            clear(map, *victim);
            Ok(())
        }
    }
}

// A new object, and what the update makes of its directory.
fn make(
    map: &mut SortedMap<ObjId, SharedImage>,
    update: &Update,
    dir: ObjId,
    obj: ObjId,
    kind: Kind,
) -> Result<(), NoMemory>
    requires volume { IsVolume map.old }
    requires sound { T (is_sound update.now) }
    requires apart { (dir == obj) ≡ false }
    requires fits { fits update.now dir (images map.old dir) ≡ true }
    requires live { is_gone (images map.old dir) ≡ false }
    requires stays { is_gone (effect update.now dir (images map.old dir)) ≡ false }
    requires gone { is_gone (images map.old obj) ≡ true }
    ensures ok { OnOk result ((o : ℕ) → images map.new o ≡ instead dir (effect update.now dir (images map.old dir)) (instead obj (new_object kind) (images map.old)) o) }
    ensures volume { IsVolume map.new }
    ensures err { OnErr result (map.new ≡ map.old) }
{
    let alloc = *map.allocator();
    add(map, obj, Image::new_object(alloc, kind))?;
    let done = change(map, update, dir);
    if done.is_err() {
        map.remove(&obj);
    }
    done
}

// Adds an object.
fn add(map: &mut SortedMap<ObjId, SharedImage>, obj: ObjId, image: Image) -> Result<(), NoMemory>
    requires volume { IsVolume map.old }
    requires held { is_held image ≡ true }
    ensures ok { OnOk result (map.new ≡ put nat_cmp obj image map.old) }
    ensures volume { IsVolume map.new }
    ensures err { OnErr result (map.new ≡ map.old) }
{
    let shared = SharedImage::new(*map.allocator(), image)?;
    map.insert(obj, shared)
}

// What the update makes of an object that neither comes nor goes.
fn change(
    map: &mut SortedMap<ObjId, SharedImage>,
    update: &Update,
    id: ObjId,
) -> Result<(), NoMemory>
    requires volume { IsVolume map.old }
    requires sound { T (is_sound update.now) }
    requires fits { fits update.now id (images map.old id) ≡ true }
    requires live { is_gone (images map.old id) ≡ false }
    requires stays { is_gone (effect update.now id (images map.old id)) ≡ false }
    ensures ok { OnOk result ((o : ℕ) → images map.new o ≡ instead id (effect update.now id (images map.old id)) (images map.old) o) }
    ensures volume { IsVolume map.new }
    ensures err { OnErr result (map.new ≡ map.old) }
{
    let alloc = *map.allocator();
    map.change(&id, &Step { alloc, update, id })
}

/// The same, where the object stands at this place of the map.
pub(crate) fn change_at(
    map: &mut SortedMap<ObjId, SharedImage>,
    update: &Update,
    id: ObjId,
    place: usize,
) -> Result<(), NoMemory>
    requires volume { IsVolume map.old }
    requires stands { StandsAt nat_cmp id map.old place }
    requires sound { T (is_sound update.now) }
    requires fits { fits update.now id (images map.old id) ≡ true }
    requires live { is_gone (images map.old id) ≡ false }
    requires stays { is_gone (effect update.now id (images map.old id)) ≡ false }
    ensures ok { OnOk result ((o : ℕ) → images map.new o ≡ instead id (effect update.now id (images map.old id)) (images map.old) o) }
    ensures volume { IsVolume map.new }
    ensures err { OnErr result (map.new ≡ map.old) }
{
    let alloc = *map.allocator();
    map.change_at(&id, place, &Step { alloc, update, id })
}

// What the update makes of the image of such an object, which stays as it is.
fn changed_image(
    map: &SortedMap<ObjId, SharedImage>,
    update: &Update,
    id: ObjId,
) -> Result<SharedImage, NoMemory>
    requires volume { IsVolume map.now }
    requires sound { T (is_sound update.now) }
    requires fits { fits update.now id (images map.now id) ≡ true }
    requires live { is_gone (images map.now id) ≡ false }
    requires stays { is_gone (effect update.now id (images map.now id)) ≡ false }
    ensures image { IfOk result (λ image. image ≡ effect update.now id (images map.now id)) }
    ensures held { IfOk result (λ image. is_held image ≡ true) }
{
    let Some(image) = map.get(&id) else {
        unreachable!()
    };
    let mut image = image.duplicate()?;
    image.effect(*map.allocator(), update, id)?;
    Ok(image)
}

// Puts an image in the place of a live object's.
fn give(map: &mut SortedMap<ObjId, SharedImage>, id: ObjId, image: SharedImage)
    requires volume { IsVolume map.old }
    requires live { is_gone (images map.old id) ≡ false }
    requires held { is_held image ≡ true }
    ensures images { (o : ℕ) → images map.new o ≡ instead id image (images map.old) o }
    ensures volume { IsVolume map.new }
{
    map.replace(&id, image);
}

// Removes an object, if any.
fn clear(map: &mut SortedMap<ObjId, SharedImage>, victim: Option<ObjId>)
    requires { IsVolume map.old }
    ensures images { (o : ℕ) → images map.new o ≡ cleared victim (images map.old) o }
    ensures volume { IsVolume map.new }
{
    if let Some(id) = victim {
        map.remove(&id);
    }
}
