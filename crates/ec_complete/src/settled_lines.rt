// Lines of a script without faults, in worlds of which all facts hold.
ghost use Rattle.ec_complete.specs.Worlds.{LinesCanGoOn, LinesCanSettle, LinesStayKnown};

/// In a world of which all facts hold a line that is in a phase goes on as far as counters reach, and
/// can settle where they were far below their limits; and all facts hold again.
pub fn lines_can_settle()
    ensures known { LinesStayKnown }
    ensures settle { LinesCanSettle }
    ensures on { LinesCanGoOn }
{}
