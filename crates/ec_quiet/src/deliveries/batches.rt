// Batches that are to be durable.
ghost use Rattle.ec_quiet.specs.OfDeliveries.Coming.{HoldersFlush, ClerksSave, BatchesAreOfPhases, LinesAreOfPhases};

/// A batch that may be written, and whose record is taken, is committed and answered: a holder's,
/// which gives back behind it, and one of the line's clerk.
pub fn batches_are_delivered()
    ensures holder { HoldersFlush }
    ensures own { ClerksSave }
{}

/// In a phase no other batch is committed by a delivery than the one that the phase is about, and
/// the lines that it shows name no other operations as durable.
pub fn batches_are_of_phases()
    ensures batches { BatchesAreOfPhases }
    ensures lines { LinesAreOfPhases }
{}
