// What shows the images of objects.
ghost use Rattle.std.specs.Prelude.{◌≡◌, true, false, MatchOption, IfSome};
ghost use Rattle.ec_volume.specs.Image.{is_gone};
ghost use Rattle.ec_volume.specs.Volume.{Images};
ghost use Rattle.ec_volume.specs.Held.{is_held};

use crate::image::Image;
use ec_base::ObjId;

/// Shows the images of objects: a volume, or what is held of one.
pub trait Look {
    /// The image of each id; those that aren't live are Gone.
    ghost images: { Self → Images };

    /// The image of a live object.
    fn look(&self, id: ObjId) -> Option<&Image>
        ensures image { MatchOption result (images self.now id ≡ Image.Gone) (λ image. (images self.now id ≡ image.now) × (is_gone image.now ≡ false)) }
        ensures limits { IfSome result (λ image. is_held image.now ≡ true) };
}
