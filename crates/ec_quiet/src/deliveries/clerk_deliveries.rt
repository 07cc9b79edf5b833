// What messages to the clerk of a line lead to, while a script without faults settles.
ghost use Rattle.ec_quiet.specs.OfDeliveries.Deliveries.{ClerksGoOn, GivesGoOn, KeepsGoOn, PushedGoesOn, RecallsGoOn, RefusesGoOn, SavedGoesOn};

/// Ids that come lead on.
pub fn ids_are_taken()
    ensures { GivesGoOn }
{}

/// Where there is no room, the call is answered, or goes on with what else it lacks.
pub fn refusals_are_taken()
    ensures { RefusesGoOn }
{}

/// A batch of the clerk's own call that is durable leads to a further one, or the call is answered; so does one of an operation that's pushed, or it's done.
pub fn durable_batches_are_taken()
    ensures calls { SavedGoesOn }
    ensures pushes { PushedGoesOn }
{}

/// A holder whose token is recalled gives it back, or makes a batch durable first; and so behind that batch.
pub fn recalls_are_taken()
    ensures recalls { RecallsGoOn }
    ensures keeps { KeepsGoOn }
{}

/// Each message for a clerk that is the first one leads to a phase, and the measure falls.
pub fn clerks_go_on()
    ensures { ClerksGoOn }
{}
