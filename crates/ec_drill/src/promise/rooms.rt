//! Refusals for want of room. The function has an empty body, and its contract is a law.
ghost use Rattle.ec_drill.specs.OfPromise.OfRooms.DrillRooms.{DrillsTellRoom};

/// A refusal for want of room tells how many objects live and how many ids are reserved, which together are
/// within the number of objects.
pub fn drills_tell_room()
    ensures { DrillsTellRoom }
{}
