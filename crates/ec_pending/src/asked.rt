// Which operations a call asks to be durable.
ghost use Rattle.std.specs.Prelude.{◌≡◌, ℕ};
ghost use Rattle.ec_pending.specs.Pending.{is_asked};

use ec_base::ObjId;
use ec_log::chains::has_operand;
use ec_volume::Update;

/// Which operations of its start a call asks to be durable.
#[derive(Clone, Copy, Drop)]
pub enum Asked {
    Nothing,
    /// Those on the object up to this place.
    On(ObjId, u32),
    /// All up to this place.
    All(u32),
}

/// Whether the operation with an entry at the place is asked.
pub fn is_asked(asked: &Asked, place: u32, update: &Update) -> bool
    ensures { (n : ℕ) → result ≡ is_asked asked.now (record { number = n; place = place; update = update.now }) }
{
    match asked {
        Asked::Nothing => false,
        Asked::On(obj, begun) => place <= *begun && has_operand(update, *obj),
        Asked::All(begun) => place <= *begun,
    }
}
