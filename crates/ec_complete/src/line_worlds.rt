// A world in which a line settles without faults, and of which all facts hold: what its next message needs is there.
ghost use Rattle.ec_complete.specs.Lines.{CanTakeNext};

/// The server or the clerk that takes the next message has what it needs: a call that waits lacks
/// only what the line is about, since its clerk sees what is kept.
pub fn next_messages_are_taken()
    ensures { CanTakeNext }
{}
