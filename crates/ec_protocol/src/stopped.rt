// Scripts in which the server stops.
ghost use Rattle.ec_protocol.specs.Runs.{Shows};
ghost use Rattle.ec_protocol.specs.Stopped.{claimed_tokens, closed_gate, ended_behind_restart, found_at_restart, behind_open_gate, two_stops};

/// The server stops before the record of an fsync is whole, and the batch travels again.
pub fn shows_closed_gate()
    ensures { Shows closed_gate }
{}

/// The server stops behind the record of an fsync, and the restart finds it.
pub fn shows_open_gate()
    ensures { Shows behind_open_gate }
{}

/// A restart stops too, and the next one comes up.
pub fn shows_two_stops()
    ensures { Shows two_stops }
{}

/// A repeated Restarted lets no old grant in.
pub fn shows_claimed_tokens()
    ensures { Shows claimed_tokens }
{}

/// Behind a restart no want is served before each open session has claimed or was ended.
pub fn shows_ended_behind_restart()
    ensures { Shows ended_behind_restart }
{}

/// A session's end is in doubt when the server stops, and the restart finds it.
pub fn shows_found_at_restart()
    ensures { Shows found_at_restart }
{}
