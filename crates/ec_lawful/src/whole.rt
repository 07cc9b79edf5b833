// All facts of a system together: they hold behind each step of its nodes.
ghost use Rattle.ec_lawful.specs.WholeLaws.{CrashesKeep, DoubtsKeep, LinesKeep, RestartsKeep, ServersKeep, StopsKeep};

/// All facts hold behind each step of a running server: a message that was sent, or the end of a session
/// for the administrator.
pub fn servers_keep_all_facts()
    ensures { ServersKeep }
{}

/// They hold behind a stop of the server, between two steps or in one, without its record or with it,
/// and behind a restart, in which the disk may stop again.
pub fn stops_and_restarts_keep_all_facts()
    ensures stops { StopsKeep }
    ensures doubts { DoubtsKeep }
    ensures restarts { RestartsKeep }
{}

/// They hold behind a crash of a clerk, and behind lines that say nothing of nodes.
pub fn crashes_keep_all_facts()
    ensures crashes { CrashesKeep }
    ensures lines { LinesKeep }
{}
