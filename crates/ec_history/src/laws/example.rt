// The premises of the laws can be met.
ghost use Rattle.std.specs.Prelude.{◌≡◌, ℕ, T, Bool, true, false, List, [], ◌∷◌, ◌++◌, Some, None};
ghost use Rattle.std.specs.List.{filter, list_any};
ghost use Rattle.ec_plain.specs.declared.call.Reply.TheVariants as reply;
ghost use Rattle.ec_history.specs.History.{Each, is_one_of, is_entry_of, kept, Covers};
ghost use Rattle.ec_history.specs.Legal.{IsLegal, IsLegalNext, IsCall, leaves};
ghost use Rattle.ec_history.specs.Placing.{ArePlaceable, MayFollow, watch, place};
ghost use Rattle.ec_history.specs.Lines.{AreCovered};
ghost use Rattle.ec_history.specs.declared.entry.Answer.TheVariants as answer;
ghost use Rattle.ec_history.specs.declared.entry.Entry.TheVariants as entry;
ghost use Rattle.ec_history.specs.OfLaws.Example.{two_files, write_f, lines, late_line, writes, other_loss};

/// A transcript and its history that meet the premises of the laws: the first clerk's loss is
/// untold, its write after it is placed before the loss, and the loss of the other clerk behind it
/// names an operation that the write leaves alone.
pub fn premises_can_be_met()
    ensures placeable { ArePlaceable [] lines × MayFollow lines late_line }
    ensures untold { ((watch 0 lines).untold ≡ Some (1 ∷ [])) × ((watch 0 []).untold ≡ None) }
    ensures placed { place lines ≡ writes ++ (3, entry.Loss 0 1 (1 ∷ [])) ∷ other_loss }
    ensures legal { IsLegal two_files 1024 (writes ++ (3, entry.Loss 0 1 (1 ∷ [])) ∷ other_loss) }
    ensures lawful { IsLegalNext two_files 1024 writes (5, entry.Call 0 1 5 3 write_f (answer.Reply reply.Ok) (Some 2)) }
    ensures alone { list_any (λ e. is_entry_of 0 1 e.1) other_loss ≡ false }
    ensures uncovered { Each (λ n. ¬ (Covers two_files writes (5, entry.Call 0 1 5 3 write_f (answer.Reply reply.Ok) (Some 2)) 0 1 n)) (1 ∷ []) }
    ensures left { Each (λ e. (r d f : ℕ) (ms : List ℕ) → e ≡ (r, entry.Loss d f ms)
        → T (leaves two_files (kept two_files writes) d (filter (is_one_of d f ms) (kept two_files writes))
        (5, entry.Call 0 1 5 3 write_f (answer.Reply reply.Ok) (Some 2)))) other_loss }
    ensures covered { AreCovered two_files lines }
{}
