// The premises of the laws can be met.
ghost use Rattle.std.specs.Prelude.{◌≡◌, ◌||◌, ℕ, T, [], ◌∷◌, Some};
ghost use Rattle.std.specs.List.{list_all};
ghost use Rattle.ec_volume.specs.Image.{is_gone};
ghost use Rattle.ec_volume.specs.Update.{is_sound};
ghost use Rattle.ec_volume.specs.Volume.{formatted, after, Fits, WellFormed, AllReached};
ghost use Rattle.ec_volume.specs.declared.image.Kind.TheVariants as kind;
ghost use Rattle.ec_volume.specs.declared.update.Update.TheVariants.{Make};
ghost use Rattle.ec_plain.specs.Plain.{plain};
ghost use Rattle.ec_plain.specs.BoundedCalls.{is_bounded};
ghost use Rattle.ec_plain.specs.declared.call.Call.TheVariants as call;
ghost use Rattle.ec_history.specs.History.{is_one_of, kept};
ghost use Rattle.ec_history.specs.Legal.{IsLegal, is_closed, from_formatted};
ghost use Rattle.ec_history.specs.Placing.{place};
ghost use Rattle.ec_history.specs.OfLaws.Example.{two_files, writes, lines};
ghost use Rattle.ec_history.specs.OfLaws.Needs.{holds_needed};
ghost use Rattle.ec_history.specs.OfLaws.Bases.{IsBase, AllHeld, AreAtLines, LeaveWellFormed, is_bounded_entry};
ghost use Rattle.ec_history.specs.OfLaws.FormedExample.{a, b, g, building, built, nesting, changes, ring};

/// Updates build two directories and a file; new files and directories, renames, moves of a file
/// and of a directory below another one, and removals are sound and fit there. Calls whose update is
/// such a one are within their bounds. There are bases, also one with objects that no path reaches,
/// and legal histories at lines.
pub fn formed_premises_can_be_met()
    ensures building { T (list_all is_sound building) × Fits formatted building }
    ensures built { WellFormed built × AllReached built }
    ensures held { AllHeld built }
    ensures changes { T (list_all is_sound changes) × Fits built changes }
    ensures fresh { T (is_gone (built 5)) }
    ensures bounded { T (is_bounded (call.Create (a ∷ g ∷ []))) × T (is_bounded (call.Rename (b ∷ []) (a ∷ b ∷ []))) }
    ensures create { (plain built (call.Create (a ∷ g ∷ [])) 5).update ≡ Some (Make 2 g 5 kind.File) }
    ensures rename { (plain built (call.Rename (b ∷ []) (a ∷ b ∷ [])) 5).update ≡ Some nesting }
    ensures bases { IsBase from_formatted × IsBase two_files }
    ensures ring { IsBase ring × ¬ AllReached ring.volume }
    ensures lines { AreAtLines writes × T (list_all (λ e. is_bounded_entry e.1) (place lines)) }
    ensures legal { IsLegal two_files 1024 writes × IsLegal two_files 1024 (place lines) }
    ensures sets { T (holds_needed (λ k. k.update) (is_one_of 0 1 (1 ∷ [])) (kept two_files writes))
        × T (is_closed (is_one_of 0 1 (1 ∷ [])) (kept two_files writes)) }
    ensures kept { LeaveWellFormed two_files (kept two_files writes) }
{}
