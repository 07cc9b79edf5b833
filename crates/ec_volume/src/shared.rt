// An image that stands once.
ghost use Rattle.std.specs.Prelude.{◌≡◌, T, true, IfOk, OnOk, OnErr};
ghost use Rattle.ec_volume.specs.Update.{is_sound, effect};

use crate::image::Image;
use crate::update::Update;
use ec_base::{Duplicate, NoMemory, ObjId};
use std::alloc::{AllocError, Global};
use std::marker::Model;
use std::sync::Arc;

/// An image that stands once, however many have it: a volume, and messages that wait or are under
/// way. A duplicate of it is a count.
#[derive(Drop)]
pub struct SharedImage {
    image: Arc<Image>,
}

impl Model for SharedImage {
    ghost use Rattle.std.specs.Arc.{arc_value};
    ghost use Rattle.ec_volume.specs.declared.image.Image.{Image};

    ghost Value = { Image };

    ghost view = { λ a. arc_value a.image };
}

impl SharedImage {
    /// The image, which nobody else has yet.
    pub fn new(alloc: Global, image: Image) -> Result<Self, AllocError>
        ensures { IfOk result (λ shared. shared ≡ image) }
    {
        Ok(SharedImage {
            image: Arc::new(alloc, image)?,
        })
    }

    /// The image.
    pub fn get(&self) -> &Image
        ensures { result.now ≡ self.now }
    {
        &self.image
    }

    /// The image itself where nobody else has it, else a copy.
    pub fn into_image(self) -> Result<Image, NoMemory>
        ensures { IfOk result (λ image. image ≡ self) }
    {
        match Arc::try_unwrap(self.image) {
            Ok(image) => Ok(image),
            Err(shared) => shared.duplicate(),
        }
    }

    /// Makes of the image of the operand `at` what the update makes of it: in its place where nobody
    /// else has the image, else on a copy.
    pub(crate) fn effect(
        &mut self,
        alloc: Global,
        update: &Update,
        at: ObjId,
    ) -> Result<(), NoMemory>
        requires { T (is_sound update.now) }
        ensures ok { OnOk result (self.new ≡ effect update.now at self.old) }
        ensures err { OnErr result (self.new ≡ self.old) }
    {
        if let Some(image) = Arc::get_mut(&mut self.image) {
            return image.effect(alloc, update, at);
        }
        let mut image = self.image.duplicate()?;
        image.effect(alloc, update, at)?;
        self.image = Arc::new(alloc, image)?;
        Ok(())
    }
}

impl Duplicate for SharedImage {
    fn duplicate(&self) -> Result<Self, NoMemory> {
        Ok(SharedImage {
            image: Arc::try_clone(&self.image)?,
        })
    }
}
