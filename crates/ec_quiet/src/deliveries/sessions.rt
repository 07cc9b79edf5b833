// Sessions that are opened, and ids that they ask for.
ghost use Rattle.ec_quiet.specs.OfDeliveries.Coming.{GreetingsOpen, IdsAreAnswered};

/// The start of a clerk without an open session gets the next one.
pub fn greetings_are_delivered()
    ensures { GreetingsOpen }
{}

/// Who asks for ids is given the next ones, or told that there is no room.
pub fn requests_for_ids_are_delivered()
    ensures { IdsAreAnswered }
{}
