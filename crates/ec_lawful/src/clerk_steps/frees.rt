// Ids in store are of no object and of no operation, behind the steps of a server and of clerks.
ghost use Rattle.ec_lawful.specs.OfClerkSteps.FreeLaws.{AreStill, ClerksKeepFrees, EndedKeepsFrees, FreesAreRead, FreesBegin, IdsKeepFrees, MovesFollow, OpenedKeepsFrees, RestartsAreStill, ServersKeepFrees, StatesKeepFrees, StillsKeepFrees};

/// Ids in store stay apart from all objects and operations behind each step of a server.
pub fn servers_keep_ids_apart()
    ensures states { StatesKeepFrees }
    ensures follow { MovesFollow }
    ensures steps { ServersKeepFrees }
    ensures read { FreesAreRead }
    ensures begin { FreesBegin }
{}

/// So they do behind the functions of a clerk that answer no call, where it takes ids, and where it takes or leaves
/// a session.
pub fn clerks_keep_ids_apart()
    ensures change { ClerksKeepFrees }
    ensures steps { StillsKeepFrees }
    ensures still { AreStill }
    ensures restarts { RestartsAreStill }
    ensures ids { IdsKeepFrees }
    ensures opened { OpenedKeepsFrees }
    ensures ended { EndedKeepsFrees }
{}
