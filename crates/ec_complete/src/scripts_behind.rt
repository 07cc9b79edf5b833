// Write-behind over scripts without faults: each piece of lines makes durable only what its line of the script asks for.
ghost use Rattle.ec_complete.specs.RunsBehind.{DrillsWriteBehind, RunsWriteBehind};

/// In a world that is ready for them, the lines of a script without faults write behind, also where a
/// push names an operation that wasn't issued, or a step would spend a counter, which ends the run.
pub fn runs_write_behind()
    ensures { RunsWriteBehind }
{}

/// So does each drill over such a script, on a disk that stands for any well-formed state.
pub fn drills_write_behind()
    ensures { DrillsWriteBehind }
{}
