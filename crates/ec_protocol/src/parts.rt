// The cache, the log, the report, the evaluation and the records on small cases.
ghost use Rattle.std.specs.Prelude.{◌≡◌, true, false, [], ◌∷◌, ◌++◌, None, Some, Err};
ghost use Rattle.ec_base.specs.declared.ids.Hold.TheVariants.{Free, Read};
ghost use Rattle.ec_volume.specs.declared.image.Image.TheVariants as image;
ghost use Rattle.ec_volume.specs.declared.image.Kind.TheVariants as kind;
ghost use Rattle.ec_volume.specs.declared.update.Update.TheVariants as update;
ghost use Rattle.ec_plain.specs.declared.call.Call.TheVariants as call;
ghost use Rattle.ec_plain.specs.declared.call.Reply.TheVariants as reply;
ghost use Rattle.ec_sessions.specs.Slots.{run};
ghost use Rattle.ec_cache.specs.Cache as cache;
ghost use Rattle.ec_log.specs.Log as log;
ghost use Rattle.ec_log.specs.declared.state.Asked.TheVariants.{Object, All};
ghost use Rattle.ec_log.specs.declared.state.Pick.TheVariants as pick;
ghost use Rattle.ec_cache.specs.OfReport.Report as report;
ghost use Rattle.ec_cache.specs.OfResolve.Resolve.{evaluate};
ghost use Rattle.ec_cache.specs.declared.resolve.verdict.Verdict.TheVariants as verdict;
ghost use Rattle.ec_durable.specs.Durable.{formatted, steps};
ghost use Rattle.ec_durable.specs.declared.record.Record.TheVariants as record_of;
ghost use Rattle.ec_durable.specs.declared.record.RecordFault.TheVariants as fault;
ghost use Rattle.ec_protocol.specs.Parts.{three, gone, passed_7, sixty_five, next, apart, owed, first_records, make};

/// Of three tokens in a cache for two the least recently used one goes, unless it's pinned.
pub fn evicts()
    ensures least_used { gone [] three ≡ (6, 2) ∷ [] }
    ensures once { gone [] (cache.evict [] three) ≡ [] }
    ensures no_pinned { gone (6 ∷ []) three ≡ (5, 1) ∷ [] }
{}

/// A number is taken once, and none below one that was taken or passed.
pub fn numbers_rise()
    ensures first { cache.is_new 9 3 (cache.empty 4096) ≡ true }
    ensures again { cache.is_new 9 3 passed_7 ≡ false }
    ensures last { cache.last 9 passed_7 ≡ 7 }
    ensures below { cache.is_new 9 5 passed_7 ≡ false }
    ensures tokens { cache.tokens passed_7 ≡ (9, Read) ∷ [] }
{}

/// A token under recall counts down to the recalled mode, until a new epoch.
pub fn limits_count()
    ensures counted { cache.holds 9 Read (cache.limit 9 Free passed_7) ≡ false }
    ensures whole { cache.tokens (cache.limit 9 Free passed_7) ≡ (9, Read) ∷ [] }
    ensures new_epoch { cache.holds 9 Read (cache.new_epoch (cache.limit 9 Free passed_7)) ≡ true }
{}

/// Sixty-five creates travel in two batches, the second one behind the first.
pub fn picks_batches()
    ensures first { log.pick All sixty_five ≡ pick.Batch 1 (run 1 64) }
    ensures behind { log.pick All (next sixty_five) ≡ pick.Behind 1 }
    ensures rest { log.pick All (log.kept 1 (next sixty_five)) ≡ pick.Batch 2 (65 ∷ []) }
    ensures settled { log.pick All (log.kept 2 (next (log.kept 1 (next sixty_five)))) ≡ pick.Settled }
{}

/// Eight batches may be under way, and no ninth.
pub fn fills_the_window()
    ensures eighth { log.pick (Object 11) (log.issue (update.Stamp 11 0) (apart 7 log.empty)) ≡ pick.Batch 8 (8 ∷ []) }
    ensures ninth { log.pick (Object 12) (log.issue (update.Stamp 12 0) (apart 8 log.empty)) ≡ pick.Window 1 }
{}

/// The least undurable operation, of all and of one object.
pub fn floors()
    ensures none { log.floor log.empty ≡ 1 }
    ensures issued { log.floor sixty_five ≡ 1 }
    ensures kept { log.floor (log.kept 1 (next sixty_five)) ≡ 65 }
    ensures ended { log.floor (log.end sixty_five) ≡ 66 }
    ensures first { log.first (Object 1) sixty_five ≡ Some 1 }
    ensures no_first { log.first (Object 99) sixty_five ≡ None }
{}

/// A mention is due until its object was reported.
pub fn reports_once()
    ensures due { report.due (1 ∷ 2 ∷ []) owed ≡ 5 ∷ [] }
    ensures cleared { report.due (1 ∷ []) (report.clear (1 ∷ []) owed) ≡ [] }
    ensures left { report.objects (report.clear (1 ∷ []) owed) ≡ 2 ∷ 3 ∷ [] }
{}

/// A call needs tokens first, and reports then.
pub fn evaluates()
    ensures needs_root { evaluate (cache.empty 4096) [] (call.Stat []) None ≡ verdict.Need 1 Read }
    ensures has_root { evaluate (cache.take 1 Read 1 (image.Dir 493 0 0 []) (cache.empty 4096)) [] (call.Stat []) None ≡ verdict.Done (record { reply = reply.Stat kind.Dir 493 0 0 0; update = None; touched = 1 ∷ [] }) }
    ensures reads_first { evaluate (cache.empty 4096) ((1, 1) ∷ []) (call.Stat []) None ≡ verdict.Need 1 Read }
    ensures sync_reports_all { evaluate (cache.empty 4096) ((1, 4) ∷ (1, 5) ∷ (2, 4) ∷ []) call.Sync None ≡ verdict.Lost (1 ∷ 2 ∷ []) (4 ∷ 5 ∷ []) }
{}

/// Batches that are refused: of an id that isn't reserved, twice the same, beyond the window, and of an update that doesn't fit.
pub fn refuses_records()
    ensures not_reserved { steps (first_records ++ record_of.Batch 0 1 1 (make 99) ∷ []) (formatted 1024) ≡ Err (fault.NotReserved 1 99) }
    ensures done { steps (first_records ++ record_of.Batch 0 1 1 (make 2) ∷ record_of.Batch 0 1 1 (make 2) ∷ []) (formatted 1024) ≡ Err (fault.Done 1) }
    ensures beyond { steps (first_records ++ record_of.Batch 0 1 9 [] ∷ []) (formatted 1024) ≡ Err (fault.Beyond 0) }
    ensures unfit { steps (first_records ++ record_of.Batch 0 1 1 (make 2 ++ (2, update.Make 1 (102 ∷ []) 3 kind.File) ∷ []) ∷ []) (formatted 1024) ≡ Err (fault.Unfit 2 1) }
{}
