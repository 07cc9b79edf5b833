// Whether an update fits what is held.
ghost use Rattle.std.specs.Prelude.{◌≡◌, IfOk};
ghost use Rattle.std.specs.List.{list_all};
ghost use Rattle.ec_volume.specs.Update.{fits};
ghost use Rattle.ec_cache.specs.Cache.{images_held};
ghost use Rattle.ec_protocol.specs.Clerk as clerk;

use ec_base::{NoMemory, ObjId};
use ec_cache::Cache;
use ec_volume::{Image, Look, Update, operands};
use std::alloc::Global;

/// Whether the update is sound and fits the images held.
pub fn suits(alloc: Global, update: &Update, cache: &Cache) -> Result<bool, NoMemory>
    ensures { IfOk result (λ suits. suits ≡ clerk.suits update.now cache.now) }
{
    if !update.sound() {
        return Ok(false);
    }
    let objs = operands(alloc, update)?;
    Ok(all_fit(update, cache, &objs))
}

fn all_fit(update: &Update, cache: &Cache, objs: &[ObjId]) -> bool
    ensures { result ≡ list_all (λ x. fits update.now x (images_held cache.now x)) objs.now }
{
    'objects: for obj in objs {
        if !fits_at(update, cache, *obj) {
            return false;
        }
    }
    true
}

fn fits_at(update: &Update, cache: &Cache, obj: ObjId) -> bool
    ensures { result ≡ fits update.now obj (images_held cache.now obj) }
{
    match cache.look(obj) {
        Some(image) => image.fits(update, obj),
        None => Image::Gone.fits(update, obj),
    }
}
