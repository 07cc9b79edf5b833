// Which lines fit together.
ghost use Rattle.std.specs.Prelude.{[], ◌∷◌, codes};
ghost use Rattle.ec_plain.specs.declared.call.Call.TheVariants as call;
ghost use Rattle.ec_plain.specs.declared.call.Refusal.TheVariants as no;
ghost use Rattle.ec_plain.specs.declared.call.Reply.TheVariants as reply;
ghost use Rattle.ec_history.specs.declared.entry.Answer.TheVariants as answer;
ghost use Rattle.ec_history.specs.declared.shown.Shown.TheVariants.{Crashed, Ended, Told};
ghost use Rattle.ec_history.specs.Legal.{IsLegal, from_formatted};
ghost use Rattle.ec_history.specs.Placing.{ArePlaceable, place};
ghost use Rattle.ec_runs.specs.OfRows.Clerks.{A, B};
ghost use Rattle.ec_runs.specs.OfRows.WrongLines.{two_lost_creates, late_write, answered_line, next_start, second_start_begins, second_waits, told_behind, two_durable_lines, durable_of, two_numbers, early_operation, unshown_operation, operation_of_sync, operation_of_next_start, unseen_session};

/// `told` names what the loss named.
pub fn refuses_other_told()
    ensures both { ArePlaceable [] (two_lost_creates (1 ∷ 2 ∷ [])) }
    ensures one { ¬ (ArePlaceable [] (two_lost_creates (1 ∷ []))) }
    ensures none { ¬ (ArePlaceable [] (two_lost_creates [])) }
{}

/// `told` names the operations behind the end too.
pub fn refuses_forgotten_late_write()
    ensures both { ArePlaceable [] (late_write (1 ∷ 2 ∷ [])) }
    ensures legal { IsLegal from_formatted 1024 (place (late_write (1 ∷ 2 ∷ []))) }
    ensures one { ¬ (ArePlaceable [] (late_write (1 ∷ []))) }
{}

/// One line has one answer, of its call.
pub fn refuses_two_answers()
    ensures one { ArePlaceable [] (answered_line 2 (codes "g")) }
    ensures legal { IsLegal from_formatted 1024 (place (answered_line 2 (codes "g"))) }
    ensures two { ¬ (ArePlaceable [] (answered_line 1 (codes "f"))) }
    ensures other_call { ¬ (ArePlaceable [] (answered_line 2 (codes "h"))) }
{}

/// A start shows no session while that of an earlier one is open.
pub fn refuses_overlapping_starts()
    ensures ended { ArePlaceable [] (next_start (Ended A [] ∷ [])) }
    ensures legal { IsLegal from_formatted 1024 (place (next_start (Ended A [] ∷ []))) }
    ensures still_open { ¬ (ArePlaceable [] (next_start [])) }
{}

/// While the session of an earlier start is open, only calls that need none are answered.
pub fn refuses_showing_start()
    ensures sync { ArePlaceable [] (second_start_begins call.Sync (answer.Reply reply.Ok)) }
    ensures root { ArePlaceable [] (second_start_begins (call.Remove []) (answer.Reply (reply.Refused no.Root))) }
    ensures refused { ¬ (ArePlaceable [] (second_start_begins (call.Remove (codes "g" ∷ [])) (answer.Reply (reply.Refused (no.NotFound 1))))) }
    ensures fsync { ¬ (ArePlaceable [] (second_start_begins (call.Fsync (codes "f" ∷ [])) (answer.Reply reply.Ok))) }
{}

/// A line waits with one call.
pub fn refuses_second_waits()
    ensures same { ArePlaceable [] (second_waits (codes "f")) }
    ensures other { ¬ (ArePlaceable [] (second_waits (codes "g"))) }
{}

/// A clerk is told once that its session ended, and not behind a crash.
pub fn refuses_untimely_told()
    ensures ended { ArePlaceable [] (told_behind (Ended A (1 ∷ []) ∷ [])) }
    ensures not_ended { ¬ (ArePlaceable [] (told_behind [])) }
    ensures twice { ¬ (ArePlaceable [] (told_behind (Ended A (1 ∷ []) ∷ Told A (1 ∷ []) ∷ []))) }
    ensures crashed { ¬ (ArePlaceable [] (told_behind (Ended A (1 ∷ []) ∷ Crashed A ∷ []))) }
{}

/// An operation that was issued becomes durable once.
pub fn refuses_repeated_durable()
    ensures other { ArePlaceable [] (two_durable_lines (2 ∷ [])) }
    ensures repeated { ¬ (ArePlaceable [] (two_durable_lines (1 ∷ []))) }
    ensures not_issued { ¬ (ArePlaceable [] (two_durable_lines (3 ∷ []))) }
{}

/// A durable line names operations of an open session; one that names nothing breaks no rule, with
/// a session or without.
pub fn refuses_durable_without_session()
    ensures still_open { ArePlaceable [] (durable_of A (1 ∷ [])) }
    ensures none { ¬ (ArePlaceable [] (durable_of B (1 ∷ []))) }
    ensures nothing { ArePlaceable [] (durable_of A []) }
    ensures nothing_of_none { ArePlaceable [] (durable_of B []) }
{}

/// `ended` and `told` name operations as sets, in whatever order these were issued. Here the wrong
/// numbers of the answers are the fault.
pub fn compares_lists_as_sets()
    ensures rising { ArePlaceable [] (two_numbers (1 ∷ 2 ∷ []) (1 ∷ 2 ∷ [])) }
    ensures illegal { ¬ (IsLegal from_formatted 1024 (place (two_numbers (1 ∷ 2 ∷ []) (1 ∷ 2 ∷ [])))) }
    ensures ended_one { ¬ (ArePlaceable [] (two_numbers (1 ∷ []) (1 ∷ []))) }
    ensures ended_more { ¬ (ArePlaceable [] (two_numbers (1 ∷ 2 ∷ 3 ∷ []) (1 ∷ 2 ∷ 3 ∷ []))) }
    ensures told_one { ¬ (ArePlaceable [] (two_numbers (1 ∷ 2 ∷ []) (2 ∷ []))) }
{}

/// An operation belongs to its start also where its answer shows no session: before the session is
/// shown, and behind it.
pub fn counts_operations_of_all_answers()
    ensures before { ArePlaceable [] (early_operation (1 ∷ 2 ∷ [])) }
    ensures illegal { ¬ (IsLegal from_formatted 1024 (place (early_operation (1 ∷ 2 ∷ [])))) }
    ensures not_before { ¬ (ArePlaceable [] (early_operation (2 ∷ []))) }
    ensures alone { ArePlaceable [] (unshown_operation (1 ∷ [])) }
    ensures not_alone { ¬ (ArePlaceable [] (unshown_operation [])) }
    ensures behind { ArePlaceable [] (operation_of_sync (1 ∷ 2 ∷ [])) }
    ensures not_behind { ¬ (ArePlaceable [] (operation_of_sync (1 ∷ []))) }
    ensures next_start { ArePlaceable [] (operation_of_next_start (1 ∷ []) (1 ∷ 2 ∷ [])) }
    ensures not_of_this_start { ¬ (ArePlaceable [] (operation_of_next_start (1 ∷ []) (2 ∷ []))) }
{}

/// Only the session of a start that crashed ends unseen, and only where nothing showed it.
pub fn refuses_seen_session()
    ensures crashed { ArePlaceable [] (unseen_session call.Sync (Crashed A ∷ [])) }
    ensures running { ¬ (ArePlaceable [] (unseen_session call.Sync [])) }
    ensures seen { ¬ (ArePlaceable [] (unseen_session (call.Fsync []) (Crashed A ∷ []))) }
{}
