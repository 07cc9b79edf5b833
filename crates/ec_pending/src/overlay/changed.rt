// The images of objects that updates changed.
ghost use Rattle.std.specs.Prelude.{◌≡◌, ◌==◌, true, if◌then◌else◌, ℕ, None, Some, option_copied, IfSome, OnOk, OnSome, IfNone};
ghost use Rattle.ec_order.specs.OfObjtable.Slots.{held};
ghost use Rattle.ec_pending.specs.OfOverlay.Fine.{is_fine};

use ec_base::{NoMemory, ObjId};
use ec_order::objtable::ObjTable;
use ec_volume::Image;
use std::alloc::Global;
use std::marker::Model;

/// Images by object. Objects that are gone have one too.
#[derive(Drop)]
pub struct Changed {
    table: ObjTable<Image>,
}

impl Model for Changed {
    ghost use Rattle.std.specs.Prelude.{ℕ, List};
    ghost use Rattle.ec_volume.specs.declared.image.Image.{Image};
    ghost use Rattle.ec_order.specs.OfObjtable.Slots.{held};
    ghost use Rattle.ec_pending.specs.OfOverlay.Fine.{IsFine};

    ghost Value = { List ℕ × List (ℕ × Image) };

    ghost view = { λ a. a.table };

    ghost invariant = { λ a. (o : ℕ) → IsFine (held o a.table) };
}

impl Changed {
    /// No object is changed.
    pub fn new(alloc: Global) -> Changed
        ensures { (o : ℕ) → held o result ≡ None }
    {
        Changed {
            table: ObjTable::new(alloc),
        }
    }

    /// The image of a changed object.
    pub fn get(&self, obj: ObjId) -> Option<&Image>
        ensures image { option_copied result ≡ held obj self.now }
        ensures fine { IfSome result (λ image. is_fine image.now ≡ true) }
    {
        self.table.get(obj)
    }

    /// Takes out the image of a changed object, which is gone then.
    pub fn take(&mut self, obj: ObjId) -> Option<Image>
        ensures image { result ≡ held obj self.old }
        ensures fine { IfSome result (λ image. is_fine image ≡ true) }
        ensures some { OnSome result ((o : ℕ) → held o self.new ≡ (if o == obj then Some Image.Gone else held o self.old)) }
        ensures none { IfNone result (self.new ≡ self.old) }
    {
        self.table.replace(obj, Image::Gone)
    }

    /// The object has this image.
    pub fn put(&mut self, obj: ObjId, image: Image) -> Result<(), NoMemory>
        requires { is_fine image ≡ true }
        ensures { OnOk result ((o : ℕ) → held o self.new ≡ (if o == obj then Some image else held o self.old)) }
    {
        self.table.insert(obj, image)
    }
}
