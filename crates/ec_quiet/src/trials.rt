// Scripts without faults: in each state the work of the line is in a phase, each delivery lowers the measure, and behind each line all is quiet.
ghost use Rattle.std.specs.Prelude.{◌≡◌, true};
ghost use Rattle.ec_protocol.specs.Alone.{own_write, refusals};
ghost use Rattle.ec_quiet.specs.Scripts.{batches, crowded, shared};
ghost use Rattle.ec_quiet.specs.Trials.{settles_well};

/// A clerk alone.
pub fn settle_alone()
    ensures write { settles_well 1024 own_write.lines ≡ true }
    ensures refusals { settles_well 1024 refusals.lines ≡ true }
{}

/// Clerks that take tokens from one another.
pub fn settle_shared()
    ensures { settles_well 1024 shared ≡ true }
{}

/// A volume without room.
pub fn settle_crowded()
    ensures { settles_well 18 crowded ≡ true }
{}

/// More operations than a batch has.
pub fn settle_batches()
    ensures { settles_well 1024 batches ≡ true }
{}
