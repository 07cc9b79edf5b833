// Steps of the world: in which system a world stands behind each event, and so what holds behind a whole run.
ghost use Rattle.ec_lawful.specs.Ties.{CalledIsSuch, CrashedIsSuch, DoneIsSuch, ForgottenIsSuch, NothingIsSuch, ServedIsSuch, SettledIsSuch, StoppedIsSuch};

/// A world stands in the system behind the step of the node that took an event: a running server's, a
/// running clerk's, one that begins a call, a crash or a stop; and where nothing happens but to the pool.
pub fn worlds_stand_behind_events()
    ensures served { ServedIsSuch }
    ensures done { DoneIsSuch }
    ensures called { CalledIsSuch }
    ensures crashed { CrashedIsSuch }
    ensures stopped { StoppedIsSuch }
    ensures nothing { NothingIsSuch }
    ensures settled { SettledIsSuch }
    ensures forgotten { ForgottenIsSuch }
{}
