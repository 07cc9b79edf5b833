// Scripts are made.
ghost use Rattle.std.specs.Prelude.{◌≤◌};
ghost use Rattle.ec_echo.specs.Echo.{Made};

use crate::status::Status;
use crate::writing::write_made;
use ec_base::Sink;
use ec_script::generator::script;
use std::alloc::Global;

/// `make` and `soak` make scripts of so many lines.
pub const MADE_LINES: u32 = 2_000;

/// Writes the script of this number.
pub(crate) fn make<K: Sink>(alloc: Global, number: u32, sink: &mut K) -> Status
    ensures later { K.faults sink.old ≤ K.faults sink.new }
    ensures made { Made number result (K.held sink.old) (K.held sink.new) (K.faults sink.old) (K.faults sink.new) }
{
    write_made(sink, script(alloc, number, MADE_LINES), Status::Done)
}
