//! What a drill promises of the lines that it wrote. The function has an empty body, and its contract is a
//! law.
pub mod rooms;
pub mod spent;

ghost use Rattle.ec_drill.specs.OfPromise.Behind.{DrillsAreBehind};
ghost use Rattle.ec_drill.specs.OfPromise.LawfulEnds.{DrillsAreLawful, MomentsAreStored};

/// Whatever a drill did, the lines that it wrote stand in one legal history of one uncached volume.
pub fn drills_are_lawful()
    ensures { DrillsAreLawful }
{}

/// At each moment of its run the volume in store has the shape that the operations leave which `durable`
/// lines have named by then, with that of a record in doubt behind them.
pub fn moments_are_stored()
    ensures { MomentsAreStored }
{}

/// What a drill without faults made durable is what its lines asked for, whatever its disk stood for.
pub fn drills_are_behind()
    ensures { DrillsAreBehind }
{}
