// Which answers a call may have.
ghost use Rattle.std.specs.Prelude.{[], ◌∷◌, None, Some, codes};
ghost use Rattle.ec_volume.specs.declared.image.Kind.TheVariants as kind;
ghost use Rattle.ec_plain.specs.declared.call.Call.TheVariants as call;
ghost use Rattle.ec_plain.specs.declared.call.Refusal.TheVariants as no;
ghost use Rattle.ec_plain.specs.declared.call.Reply.TheVariants as reply;
ghost use Rattle.ec_history.specs.declared.entry.Answer.TheVariants as answer;
ghost use Rattle.ec_history.specs.Legal.{IsLegal, from_formatted};
ghost use Rattle.ec_history.specs.Lines.{AreCovered};
ghost use Rattle.ec_history.specs.Placing.{place};
ghost use Rattle.ec_runs.specs.OfRows.WrongReplies.{stat_of_lost, read_behind_write, told_of_loss, second_sync, reported_loss, two_lost, numbered_write, next_start_create, list_of_next_start, numbered_stat, noroom_behind_create};

/// A start may not see what the start before it lost.
pub fn refuses_stat_of_lost()
    ensures gone { IsLegal from_formatted 1024 (place (stat_of_lost (reply.Refused (no.NotFound 1)))) }
    ensures seen { ¬ (IsLegal from_formatted 1024 (place (stat_of_lost (reply.Stat kind.File 420 0 0 0)))) }
{}

/// A clerk reads what another one has written over its own bytes.
pub fn refuses_stale_read()
    ensures new { IsLegal from_formatted 1024 (place (read_behind_write (codes "two"))) }
    ensures stale { ¬ (IsLegal from_formatted 1024 (place (read_behind_write (codes "one")))) }
{}

/// A call that touches an object with a lost operation reports it.
pub fn refuses_silent_call()
    ensures reported { IsLegal from_formatted 1024 (place (told_of_loss (call.List []) (answer.Lost (1 ∷ [])))) }
    ensures silent { ¬ (IsLegal from_formatted 1024 (place (told_of_loss (call.List []) (answer.Reply (reply.Names []))))) }
    ensures unnamed { ¬ (IsLegal from_formatted 1024 (place (told_of_loss (call.List []) (answer.Lost [])))) }
{}

/// A `sync` reports each loss.
pub fn refuses_silent_sync()
    ensures reported { IsLegal from_formatted 1024 (place (told_of_loss call.Sync (answer.Lost (1 ∷ [])))) }
    ensures silent { ¬ (IsLegal from_formatted 1024 (place (told_of_loss call.Sync (answer.Reply reply.Ok)))) }
{}

/// A `sync` reports a loss once.
pub fn refuses_second_sync_report()
    ensures once { IsLegal from_formatted 1024 (place (second_sync (answer.Reply reply.Ok))) }
    ensures covered { AreCovered from_formatted (second_sync (answer.Reply reply.Ok)) }
    ensures twice { ¬ (IsLegal from_formatted 1024 (place (second_sync (answer.Lost (1 ∷ []))))) }
{}

/// A loss is reported once on each of its objects.
pub fn refuses_second_report()
    ensures once { IsLegal from_formatted 1024 (place (reported_loss (answer.Reply (reply.Names [])))) }
    ensures twice { ¬ (IsLegal from_formatted 1024 (place (reported_loss (answer.Lost (1 ∷ []))))) }
    ensures empty { ¬ (IsLegal from_formatted 1024 (place (reported_loss (answer.Lost [])))) }
{}

/// A report names the lost operations on the objects that its call touched, and no others.
pub fn refuses_foreign_report()
    ensures own { IsLegal from_formatted 1024 (place (two_lost (3 ∷ []))) }
    ensures both { ¬ (IsLegal from_formatted 1024 (place (two_lost (3 ∷ 4 ∷ [])))) }
    ensures other { ¬ (IsLegal from_formatted 1024 (place (two_lost (4 ∷ [])))) }
{}

/// Operation numbers rise by one, and each write has one.
pub fn refuses_skipped_number()
    ensures next { IsLegal from_formatted 1024 (place (numbered_write (Some 2))) }
    ensures skipped { ¬ (IsLegal from_formatted 1024 (place (numbered_write (Some 3)))) }
    ensures repeated { ¬ (IsLegal from_formatted 1024 (place (numbered_write (Some 1)))) }
    ensures missing { ¬ (IsLegal from_formatted 1024 (place (numbered_write None))) }
{}

/// The operations of a second start are numbered from 1.
pub fn refuses_continued_number()
    ensures first { IsLegal from_formatted 1024 (place (next_start_create 1)) }
    ensures continued { ¬ (IsLegal from_formatted 1024 (place (next_start_create 2))) }
{}

/// A start has nothing to report of the start before it, which crashed.
pub fn refuses_report_of_crashed_start()
    ensures silent { IsLegal from_formatted 1024 (place (list_of_next_start (answer.Reply (reply.Names [])))) }
    ensures reported { ¬ (IsLegal from_formatted 1024 (place (list_of_next_start (answer.Lost (1 ∷ []))))) }
    ensures kept { ¬ (IsLegal from_formatted 1024 (place (list_of_next_start (answer.Reply (reply.Names (codes "f" ∷ [])))))) }
{}

/// A call without update has no operation.
pub fn refuses_numbered_stat()
    ensures none { IsLegal from_formatted 1024 (place (numbered_stat None)) }
    ensures one { ¬ (IsLegal from_formatted 1024 (place (numbered_stat (Some 2)))) }
{}

/// `noroom` is for a call that makes an object, where 16 ids more are too many.
pub fn refuses_false_noroom()
    ensures full { IsLegal from_formatted 32 (place (noroom_behind_create (call.Create (codes "b" ∷ [])) 15)) }
    ensures not_full { ¬ (IsLegal from_formatted 32 (place (noroom_behind_create (call.Create (codes "b" ∷ [])) 14))) }
    ensures no_object { ¬ (IsLegal from_formatted 32 (place (noroom_behind_create (call.Touch (codes "a" ∷ []) 7) 15))) }
    ensures taken_name { ¬ (IsLegal from_formatted 32 (place (noroom_behind_create (call.Create (codes "a" ∷ [])) 15))) }
{}
