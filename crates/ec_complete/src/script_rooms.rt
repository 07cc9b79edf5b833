// Laws on the room that a script without faults needs: no call of it is refused for want of room.
ghost use Rattle.ec_complete.specs.ScriptRooms.{AskingsFindRoom, CallsKeepRoom, LinesKeepRoom, PushesKeepRoom};

/// Where a clerk asks for ids, and there is room for its script, the volume isn't full.
pub fn askings_find_room()
    ensures { AskingsFindRoom }
{}

/// So a line refuses no call: in its first step, and in each world that deliveries reach.
pub fn lines_keep_room()
    ensures calls { CallsKeepRoom }
    ensures pushes { PushesKeepRoom }
    ensures deliveries { LinesKeepRoom }
{}
