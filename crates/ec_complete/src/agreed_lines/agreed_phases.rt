// Laws on scripts without faults in worlds where the invariant holds: what the server needs of each message is there, so each delivery to it leads
// from a phase to a phase.
ghost use Rattle.ec_complete.specs.OfAgreedLines.Worlds.{DeliveriesGoOnInWorlds, IdsAreCounted, NumbersAreGiven, ScenesAreSeen};

/// The scene of a world shows the server and the clerks of the system in which the world stands.
pub fn scenes_are_seen()
    ensures { ScenesAreSeen }
{}

/// Where the invariant holds and no counter is at its end, each delivery to the server leads from a
/// phase to a phase, with less left: a batch may be written and its record is taken, and nobody has a
/// token on the next ids.
pub fn deliveries_go_on_in_worlds()
    ensures { DeliveriesGoOnInWorlds }
{}

/// What the server grants has numbers that it gave out, and a clerk that takes ids can count them.
pub fn grants_are_numbered()
    ensures tokens { NumbersAreGiven }
    ensures ids { IdsAreCounted }
{}
