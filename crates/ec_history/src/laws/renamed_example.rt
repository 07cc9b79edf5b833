// The premises of the laws can be met.
ghost use Rattle.std.specs.Prelude.{◌≡◌, ◌≢◌, ℕ, T, not, List, [], ◌∷◌, ◌++◌};
ghost use Rattle.ec_volume.specs.Image.{is_gone};
ghost use Rattle.ec_volume.specs.Volume.{after, Fits, WellFormed, formatted};
ghost use Rattle.ec_history.specs.History.{updates, kept, owed, due, Covers};
ghost use Rattle.ec_history.specs.Legal.{IsLegal, IsLawful};
ghost use Rattle.ec_history.specs.Lines.{AreCovered, IsStored};
ghost use Rattle.ec_history.specs.Placing.{place};
ghost use Rattle.ec_history.specs.OfLaws.Example.{two_files, write_f};
ghost use Rattle.ec_history.specs.OfLaws.ListExample.{op};
ghost use Rattle.ec_history.specs.OfLaws.Renaming.{IsRenaming};
ghost use Rattle.ec_history.specs.OfLaws.Renamed.{AreRenamed};
ghost use Rattle.ec_history.specs.OfLaws.RenamedExample.{exchange, exchanged_files, lines, issues, fsync, loss, put_f, new_h};

/// Two ids are exchanged, and a base of two files has the one or the other. A transcript over it
/// has a write, a new file that became durable and an fsync that covers it, and the loss of the
/// write: it is legal, and what it keeps and owes has the ids of its base.
pub fn renamed_premises_can_be_met()
    ensures renaming { IsRenaming exchange × (exchange 2 ≢ 2) }
    ensures renamed { AreRenamed exchange two_files exchanged_files }
    ensures placed { place lines ≡ issues ++ fsync ∷ loss ∷ [] }
    ensures issued { (kept two_files issues ≡ op 1 (put_f 2) ∷ op 2 (new_h 5) ∷ []) × (kept exchanged_files issues ≡ op 1 (put_f 5) ∷ op 2 (new_h 2) ∷ []) }
    ensures kept { (kept two_files (place lines) ≡ op 2 (new_h 5) ∷ []) × (kept exchanged_files (place lines) ≡ op 2 (new_h 2) ∷ []) }
    ensures owed { (owed two_files (place lines) 0 1 ≡ (1, 2) ∷ []) × (owed exchanged_files (place lines) 0 1 ≡ (1, 5) ∷ []) }
    ensures due { due two_files (place lines) 0 1 6 write_f ≡ 1 ∷ [] }
    ensures fits { Fits two_files.volume (updates (kept two_files issues)) }
    ensures covers { Covers two_files issues fsync 0 1 2 }
    ensures lawful { IsLawful two_files (issues ++ fsync ∷ []) 0 1 (1 ∷ []) }
    ensures legal { IsLegal two_files 1024 (issues ++ fsync ∷ loss ∷ []) }
    ensures covered { AreCovered two_files lines }
    ensures stored { IsStored two_files lines (after two_files.volume (new_h 5 ∷ [])) }
    ensures kept_ids { WellFormed formatted × ((o : ℕ) → T (not (is_gone (formatted o))) → exchange o ≡ o) }
{}
