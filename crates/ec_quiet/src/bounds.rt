// How much is left at most where a line begins.
ghost use Rattle.std.specs.Prelude.{◌≡◌, ◌≤◌, ◌<◌, ◌+◌, ◌*◌, ℕ, T, true, List, [], length, Some, is_some};
ghost use Rattle.ec_base.specs.Tables.{Table, at};
ghost use Rattle.ec_sessions.specs.declared.slot.Slot.{Slot};
ghost use Rattle.ec_durable.specs.Durable.{slot};
ghost use Rattle.ec_protocol.specs.declared.clerk.Clerk.{Clerk};
ghost use Rattle.ec_protocol.specs.declared.server.Server.{Server};
ghost use Rattle.ec_quiet.specs.Facts.{IsOrderly};
ghost use Rattle.ec_quiet.specs.Measure.{measure, sum, unsent_by};
ghost use Rattle.ec_quiet.specs.Phases.{Phase, backs};
ghost use Rattle.ec_quiet.specs.Scenes.{Scene};
ghost use Rattle.ec_quiet.specs.Works.{Work};
ghost use Rattle.ec_quiet.specs.Bounds.{IsFirstPhase, other_rows};

/// Where a line begins that touches at most 137 objects, while fewer than so many other sessions
/// have tokens and fewer than 65,536 operations are undurable, the measure is that of at most 4,096
/// deliveries for each and 4,096 more.
pub fn measures_are_bounded_where_lines_begin()
    ensures { (j : Work) (sc : Scene) (p : Phase) (k : ℕ) → IsFirstPhase p → backs j sc.mail ≡ [] → length j.touched ≤ 137 → other_rows j.session sc.server.tokens < k
        → sum (unsent_by j) sc.clerks ≤ 65535 → measure j sc p ≤ 32 * (4096 * (k + 1)) }
{}

/// Beside a clerk that runs, and whose session this is if it has one, fewer sessions have tokens
/// than clerks run.
pub fn rows_are_of_other_clerks()
    ensures { (v : Server) (clerks : Table Clerk) (c s : ℕ) → IsOrderly v clerks → T (is_some (at c clerks)) → ((sl : Slot) → slot v.durable c ≡ Some sl → sl.is_open ≡ true → sl.session ≡ s)
        → other_rows s v.tokens < length clerks }
{}
