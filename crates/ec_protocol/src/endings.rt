// The last lines of runs, by why they end.
ghost use Rattle.std.specs.Prelude.{◌≡◌, ◌++◌, [], ◌∷◌, Some, codes};
ghost use Rattle.ec_base.specs.declared.counter.Counter.TheVariants as counter;
ghost use Rattle.ec_plain.specs.declared.call.Call.TheVariants as call;
ghost use Rattle.ec_plain.specs.declared.call.Reply.TheVariants as reply;
ghost use Rattle.ec_history.specs.declared.entry.Answer.TheVariants as answer;
ghost use Rattle.ec_history.specs.declared.shown.Shown.TheVariants as show;
ghost use Rattle.ec_sessions.specs.Slots.{run};
ghost use Rattle.ec_durable.specs.Durable.{formatted};
ghost use Rattle.ec_protocol.specs.declared.script.Line.TheVariants as line;
ghost use Rattle.ec_protocol.specs.World.{new_world, stops_with, stops_without};
ghost use Rattle.ec_protocol.specs.Drill.{reads, unfit, drill, run_from, TooMany};
ghost use Rattle.ec_protocol.specs.Runs.{A};
ghost use Rattle.ec_protocol.specs.Parts.{started, last_id, last_session, last_epoch, epoch_before_last, last_boot};

/// A counter at its end: of ids, sessions, epochs (in the opening and in the last restart) and boots.
pub fn spends()
    ensures ids { drill (reads (line.Call A (call.Create (codes "f" ∷ []))) 1 ∷ []) [] last_id ≡ (show.Waits 1 A (call.Create (codes "f" ∷ [])) ∷ show.Spent counter.Id ∷ [], 15) }
    ensures sessions { drill (reads (line.Call A (call.Create (codes "f" ∷ []))) 1 ∷ []) [] last_session ≡ (show.Waits 1 A (call.Create (codes "f" ∷ [])) ∷ show.Spent counter.Session ∷ [], 15) }
    ensures epochs { drill (reads (line.Call A (call.Create (codes "f" ∷ []))) 1 ∷ []) [] last_epoch ≡ (show.Spent counter.Epoch ∷ [], 15) }
    ensures restart { drill (reads line.Stop 1 ∷ []) [] epoch_before_last ≡ (show.Stopped ∷ show.Spent counter.Epoch ∷ [], 15) }
    ensures boots { drill (reads (line.Call A (call.Create (codes "f" ∷ []))) 1 ∷ []) [] last_boot ≡ (show.Spent counter.Boot ∷ [], 15) }
{}

/// More messages are pending than may be, and lines that don't fit.
pub fn breaks_off()
    ensures too_many { (run_from 10 1 (reads line.Comment 1 ∷ []) [] (record (new_world started []) { pending = run 1 4097 })).ending ≡ TooMany 4097 }
    ensures bad_line { drill (reads line.Stop 1 ∷ unfit 3 ∷ []) [] (formatted 1024) ≡ (show.Stopped ∷ show.Started ∷ show.Bad 2 3 ∷ [], 3) }
    ensures bad_push { drill (reads (line.Push A 2) 8 ∷ []) [] (formatted 1024) ≡ (show.Bad 1 8 ∷ [], 3) }
{}

/// Stops inside restarts, with the raised epoch there or not: what was found is shown once.
pub fn shows_what_was_found_once()
    ensures { drill (reads (line.Call A (call.Create (codes "f" ∷ []))) 1 ∷ reads (line.End A) 1 ∷ reads line.Restart 1 ∷ reads line.Restart 1 ∷ reads line.Restart 1 ∷ []) ([] ∷ (stops_with ∷ []) ∷ (stops_with ∷ []) ∷ (stops_without ∷ []) ∷ []) (formatted 1024)
        ≡ (show.Waits 1 A (call.Create (codes "f" ∷ [])) ∷ show.Answered 1 A (call.Create (codes "f" ∷ [])) (answer.Reply reply.Ok) (Some 1) ∷ show.Stopped ∷ show.Stopped ∷ show.Stopped ∷ show.Ended A (1 ∷ []) ∷ show.Started ∷ show.Told A (1 ∷ []) ∷ [], 0) }
{}
