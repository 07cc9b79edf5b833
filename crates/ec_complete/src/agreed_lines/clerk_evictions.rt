// Which tokens go back at the end of a step of a line's clerk, while a script without faults settles.
ghost use Rattle.ec_complete.specs.OfAgreedLines.Room.{CrowdedEvicts};

/// Whatever the try of its call leaves, only tokens from before the line go back, where few have to stay.
pub fn crowded_steps_evict_old_tokens()
    ensures { CrowdedEvicts }
{}
