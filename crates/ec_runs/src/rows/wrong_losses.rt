// Which operations may be lost.
ghost use Rattle.std.specs.Prelude.{[], ◌∷◌, Some, codes};
ghost use Rattle.ec_volume.specs.declared.image.Kind.TheVariants as kind;
ghost use Rattle.ec_plain.specs.declared.call.Call.TheVariants as call;
ghost use Rattle.ec_plain.specs.declared.call.Refusal.TheVariants as no;
ghost use Rattle.ec_plain.specs.declared.call.Reply.TheVariants as reply;
ghost use Rattle.ec_history.specs.declared.entry.Answer.TheVariants as answer;
ghost use Rattle.ec_history.specs.declared.shown.Shown.TheVariants.{Answered, Durable, Told};
ghost use Rattle.ec_history.specs.Legal.{IsLegal, from_formatted};
ghost use Rattle.ec_history.specs.Lines.{AreCovered};
ghost use Rattle.ec_history.specs.Placing.{ArePlaceable, place};
ghost use Rattle.ec_runs.specs.OfRows.Clerks.{A};
ghost use Rattle.ec_runs.specs.OfRows.WrongLosses.{fsynced_write, answered_fsync, answered_sync, written_file, tied_writes, overwritten_byte, moved_below, seen_create, seen_write, fsync_begun, fsync_of_second_start, fsync_over_lost, two_creates, two_ends};

/// A loss may not name a write that an answered `fsync` covers.
pub fn refuses_lost_fsynced_write()
    ensures right { ArePlaceable [] (fsynced_write (2 ∷ [])) }
    ensures legal { IsLegal from_formatted 1024 (place (fsynced_write (2 ∷ []))) }
    ensures wrong { ¬ (ArePlaceable [] (fsynced_write (2 ∷ 3 ∷ []))) }
    ensures illegal { ¬ (IsLegal from_formatted 1024 (place (fsynced_write (2 ∷ 3 ∷ [])))) }
{}

/// An `fsync` may not be answered before its operations are durable.
pub fn refuses_early_fsync()
    ensures placeable { ArePlaceable [] (answered_fsync (Durable A (1 ∷ []) ∷ []) []) }
    ensures legal { IsLegal from_formatted 1024 (place (answered_fsync (Durable A (1 ∷ []) ∷ []) [])) }
    ensures covered { AreCovered from_formatted (answered_fsync (Durable A (1 ∷ []) ∷ []) []) }
    ensures early_placeable { ArePlaceable [] (answered_fsync [] (1 ∷ [])) }
    ensures early_illegal { ¬ (IsLegal from_formatted 1024 (place (answered_fsync [] (1 ∷ [])))) }
    ensures early_uncovered { ¬ (AreCovered from_formatted (answered_fsync [] (1 ∷ []))) }
{}

/// A `sync` may not be answered before each operation is durable.
pub fn refuses_early_sync()
    ensures placeable { ArePlaceable [] (answered_sync (Durable A (1 ∷ 2 ∷ []) ∷ []) []) }
    ensures legal { IsLegal from_formatted 1024 (place (answered_sync (Durable A (1 ∷ 2 ∷ []) ∷ []) [])) }
    ensures covered { AreCovered from_formatted (answered_sync (Durable A (1 ∷ 2 ∷ []) ∷ []) []) }
    ensures early_placeable { ArePlaceable [] (answered_sync (Durable A (1 ∷ []) ∷ []) (2 ∷ [])) }
    ensures early_illegal { ¬ (IsLegal from_formatted 1024 (place (answered_sync (Durable A (1 ∷ []) ∷ []) (2 ∷ [])))) }
    ensures early_uncovered { ¬ (AreCovered from_formatted (answered_sync (Durable A (1 ∷ []) ∷ []) (2 ∷ []))) }
{}

/// A write may not be kept without the create of its file.
pub fn refuses_write_without_create()
    ensures placeable { ArePlaceable [] (written_file (1 ∷ []) (2 ∷ [])) }
    ensures legal { IsLegal from_formatted 1024 (place (written_file (1 ∷ []) (2 ∷ []))) }
    ensures swapped_placeable { ArePlaceable [] (written_file (2 ∷ []) (1 ∷ [])) }
    ensures swapped_illegal { ¬ (IsLegal from_formatted 1024 (place (written_file (2 ∷ []) (1 ∷ [])))) }
{}

/// Of two files tied by `forder` the later write may not be kept without the earlier one.
pub fn refuses_untied_write()
    ensures placeable { ArePlaceable [] (tied_writes (3 ∷ []) (4 ∷ 5 ∷ [])) }
    ensures legal { IsLegal from_formatted 1024 (place (tied_writes (3 ∷ []) (4 ∷ 5 ∷ []))) }
    ensures untied_placeable { ArePlaceable [] (tied_writes (4 ∷ 5 ∷ []) (3 ∷ [])) }
    ensures untied_illegal { ¬ (IsLegal from_formatted 1024 (place (tied_writes (4 ∷ 5 ∷ []) (3 ∷ [])))) }
{}

/// Of two overwrites of one byte either may be lost: a history does not order overwrites, but the
/// closure that an operation needs does.
pub fn allows_lost_overwrite()
    ensures later_lost { IsLegal from_formatted 1024 (place (overwritten_byte (3 ∷ []) (4 ∷ []))) }
    ensures earlier_lost { IsLegal from_formatted 1024 (place (overwritten_byte (4 ∷ []) (3 ∷ []))) }
{}

/// A directory's move may not be kept without the earlier move of a directory above its new parent.
pub fn refuses_move_without_earlier()
    ensures placeable { ArePlaceable [] (moved_below (4 ∷ []) (5 ∷ [])) }
    ensures legal { IsLegal from_formatted 1024 (place (moved_below (4 ∷ []) (5 ∷ []))) }
    ensures swapped_placeable { ArePlaceable [] (moved_below (5 ∷ []) (4 ∷ [])) }
    ensures swapped_illegal { ¬ (IsLegal from_formatted 1024 (place (moved_below (5 ∷ []) (4 ∷ [])))) }
{}

/// What another clerk saw may not be lost.
pub fn refuses_lost_seen_create()
    ensures placeable { ArePlaceable [] (seen_create (Durable A (1 ∷ []) ∷ []) []) }
    ensures legal { IsLegal from_formatted 1024 (place (seen_create (Durable A (1 ∷ []) ∷ []) [])) }
    ensures lost_placeable { ArePlaceable [] (seen_create [] (1 ∷ [])) }
    ensures lost_illegal { ¬ (IsLegal from_formatted 1024 (place (seen_create [] (1 ∷ [])))) }
{}

/// A file that another clerk found by its name alone was not touched: its write may be lost.
pub fn refuses_lost_seen_write()
    ensures name { IsLegal from_formatted 1024 (place (seen_write (call.Create (codes "f" ∷ [])) (answer.Reply (reply.Refused no.Exists)))) }
    ensures size { ¬ (IsLegal from_formatted 1024 (place (seen_write (call.Stat (codes "f" ∷ [])) (answer.Reply (reply.Stat kind.File 420 0 0 1))))) }
{}

/// An `fsync` covers what was issued before it began, and not what was issued while it waited.
pub fn refuses_lost_earlier_write()
    ensures placeable { ArePlaceable [] (fsync_begun [] (Answered 3 A (call.Write (codes "f" ∷ []) 0 (codes "x")) (answer.Reply reply.Ok) (Some 2) ∷ [])) }
    ensures legal { IsLegal from_formatted 1024 (place (fsync_begun [] (Answered 3 A (call.Write (codes "f" ∷ []) 0 (codes "x")) (answer.Reply reply.Ok) (Some 2) ∷ []))) }
    ensures covered { AreCovered from_formatted (fsync_begun [] (Answered 3 A (call.Write (codes "f" ∷ []) 0 (codes "x")) (answer.Reply reply.Ok) (Some 2) ∷ [])) }
    ensures earlier_placeable { ArePlaceable [] (fsync_begun (Answered 3 A (call.Write (codes "f" ∷ []) 0 (codes "x")) (answer.Reply reply.Ok) (Some 2) ∷ []) []) }
    ensures earlier_illegal { ¬ (IsLegal from_formatted 1024 (place (fsync_begun (Answered 3 A (call.Write (codes "f" ∷ []) 0 (codes "x")) (answer.Reply reply.Ok) (Some 2) ∷ []) []))) }
    ensures earlier_uncovered { ¬ (AreCovered from_formatted (fsync_begun (Answered 3 A (call.Write (codes "f" ∷ []) 0 (codes "x")) (answer.Reply reply.Ok) (Some 2) ∷ []) [])) }
{}

/// A durable line of one start is none of the next one's operation of this number.
pub fn refuses_durable_of_other_start()
    ensures placeable { ArePlaceable [] (fsync_of_second_start (Durable A (1 ∷ []) ∷ [])) }
    ensures legal { IsLegal from_formatted 1024 (place (fsync_of_second_start (Durable A (1 ∷ []) ∷ []))) }
    ensures covered { AreCovered from_formatted (fsync_of_second_start (Durable A (1 ∷ []) ∷ [])) }
    ensures uncovered { ¬ (AreCovered from_formatted (fsync_of_second_start [])) }
{}

/// An `fsync` of a file waits for the file's last write, and not for the lost operations before it.
pub fn refuses_fsync_without_write()
    ensures placeable { ArePlaceable [] (fsync_over_lost (Durable A (4 ∷ []) ∷ [])) }
    ensures legal { IsLegal from_formatted 1024 (place (fsync_over_lost (Durable A (4 ∷ []) ∷ []))) }
    ensures covered { AreCovered from_formatted (fsync_over_lost (Durable A (4 ∷ []) ∷ [])) }
    ensures uncovered { ¬ (AreCovered from_formatted (fsync_over_lost [])) }
{}

/// A loss names all operations of its session that no durable line names, and no others.
pub fn refuses_partial_loss()
    ensures placeable { ArePlaceable [] (two_creates (1 ∷ 2 ∷ [])) }
    ensures legal { IsLegal from_formatted 1024 (place (two_creates (1 ∷ 2 ∷ []))) }
    ensures one_too_few { ¬ (ArePlaceable [] (two_creates (2 ∷ []))) }
    ensures one_too_many { ¬ (ArePlaceable [] (two_creates (1 ∷ 2 ∷ 3 ∷ []))) }
{}

/// A session ends once.
pub fn refuses_two_ends()
    ensures placeable { ArePlaceable [] (two_ends (Told A (1 ∷ []) ∷ [])) }
    ensures legal { IsLegal from_formatted 1024 (place (two_ends (Told A (1 ∷ []) ∷ []))) }
    ensures at_once { ¬ (ArePlaceable [] (two_ends [])) }
{}
