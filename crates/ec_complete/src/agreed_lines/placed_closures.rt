// Write-behind with the places of calls as the ids of new objects, as the promise of a drill reads its lines.
ghost use Rattle.ec_complete.specs.OfAgreedLines.Placed.{LinesWriteBehind, WriteBehindIsPlaced};

/// Where each new object has an id of its own, each operation that a durable line names lies in a
/// closure that the line of the script asks for also where the ids are exchanged for the places of
/// the calls.
pub fn write_behind_is_placed()
    ensures { WriteBehindIsPlaced }
{}

/// While a line of a script without faults settles, each operation that is shown durable lies in a
/// closure that the line asks for: of the object of its fsync, of the pushed operation, of all
/// operations for a sync, or, where the operations are another clerk's, of an object that the line's
/// call touches.
pub fn lines_write_behind()
    ensures { LinesWriteBehind }
{}
