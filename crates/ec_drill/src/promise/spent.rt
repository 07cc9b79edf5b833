//! Counters that a drill can spend. The function has an empty body, and its contract is a law.
ghost use Rattle.ec_drill.specs.OfPromise.OfSpent.SpentDrills.{DrillsSpendFew};

/// A drill of at most 65,536 lines can spend no counter but those of boots, sessions, epochs and ids: all
/// others begin at a start of their node, and so few steps can't reach their ends.
pub fn drills_spend_few()
    ensures { DrillsSpendFew }
{}
