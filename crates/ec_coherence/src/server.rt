// The server's functions: a step under way stands behind each of them.
ghost use Rattle.ec_coherence.specs.Laws.{ServeStands, StartStands, BackStands, WantStands, SaidStands, NoteStands, ClaimStands, RecordedIdsStand, ToldEndStands};

/// What the server's small functions keep that change its tables alone, or only say something.
pub fn server_steps_stand()
    ensures serve { ServeStands }
    ensures start { StartStands }
    ensures back { BackStands }
    ensures want { WantStands }
    ensures said { SaidStands }
    ensures note { NoteStands }
    ensures claim { ClaimStands }
    ensures recorded { RecordedIdsStand }
    ensures ended { ToldEndStands }
{}
