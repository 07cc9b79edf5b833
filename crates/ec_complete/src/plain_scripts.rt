// Scripts without faults are answered plainly, on a new disk.
ghost use Rattle.ec_complete.specs.PlainRuns.{PlainScriptsAreComplete};

/// A script without faults whose pushes name operations that their clerks issued, and for whose
/// objects there is room, gives status 0, and each of its calls is answered as one plain volume
/// answers it.
pub fn plain_scripts_are_complete()
    ensures { PlainScriptsAreComplete }
{}
