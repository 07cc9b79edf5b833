// Which modes conflict, and which of two is the stronger one.
ghost use Rattle.std.specs.Prelude.{◌≡◌};
ghost use Rattle.ec_base.specs.Holds as holds;

use ec_base::Hold;

/// Whether tokens of these modes, of two sessions on one object, conflict.
pub fn clash(a: Hold, b: Hold) -> bool
    ensures { result ≡ holds.clash a b }
{
    match (a, b) {
        (Hold::Write, Hold::Read | Hold::Write) => true,
        (Hold::Read, Hold::Write) => true,
        _ => false,
    }
}

/// The one of two modes that allows more.
pub fn stronger(a: Hold, b: Hold) -> Hold
    ensures { result ≡ holds.stronger a b }
{
    if a.is_below(&b) { b } else { a }
}
