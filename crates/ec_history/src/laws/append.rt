// Legal histories with more entries behind them, and placeable transcripts with more lines.
ghost use Rattle.std.specs.Prelude.{◌≡◌, ◌≤◌, ℕ, Bool, true, length, List, [], ◌∷◌, ◌++◌};
ghost use Rattle.std.specs.List.{filter};
ghost use Rattle.ec_history.specs.History.{Base, History, Throughout, Each, of_start, issued, kept};
ghost use Rattle.ec_history.specs.Legal.{IsLegal, IsLegalNext, is_op_of};
ghost use Rattle.ec_history.specs.Placing.{ArePlaceable, MayFollow};
ghost use Rattle.ec_history.specs.declared.entry.Entry.{Entry};
ghost use Rattle.ec_history.specs.declared.shown.Shown.{Shown};

/// A legal history with lawful entries behind it is legal; and each legal history is of this form,
/// wherever it is cut.
pub fn longer_history_is_legal()
    ensures one_more { (base : Base) (most : ℕ) (h : History) (e : ℕ × Entry) → IsLegal base most h → IsLegalNext base most h e
        → IsLegal base most (h ++ e ∷ []) }
    ensures more { (base : Base) (most : ℕ) (h g : History) → IsLegal base most h → Throughout (IsLegalNext base most) h g → IsLegal base most (h ++ g) }
    ensures cut { (base : Base) (most : ℕ) (h g : History) → IsLegal base most (h ++ g) → IsLegal base most h × Throughout (IsLegalNext base most) h g }
{}

/// The same for the lines of a placeable transcript.
pub fn longer_transcript_is_placeable()
    ensures one_more { (ss : List Shown) (s : Shown) → ArePlaceable [] ss → MayFollow ss s → ArePlaceable [] (ss ++ s ∷ []) }
    ensures more { (ss ts : List Shown) → ArePlaceable [] ss → ArePlaceable ss ts → ArePlaceable [] (ss ++ ts) }
    ensures cut { (ss ts : List Shown) → ArePlaceable [] (ss ++ ts) → ArePlaceable [] ss × ArePlaceable ss ts }
{}

/// In a legal history no operation of a start has a number above the count of the start's
/// operations: the next number is new.
pub fn next_number_is_new()
    ensures among_issued { (base : Base) (most c b : ℕ) (h : History) → IsLegal base most h
        → Each (λ k. of_start c b k ≡ true → k.number ≤ length (filter (is_op_of c b) h)) (issued base h) }
    ensures among_kept { (base : Base) (most c b : ℕ) (h : History) → IsLegal base most h
        → Each (λ k. of_start c b k ≡ true → k.number ≤ length (filter (is_op_of c b) h)) (kept base h) }
{}
