// What histories and transcripts come to with more behind them.
ghost use Rattle.std.specs.Prelude.{◌≡◌, ◌+◌, ℕ, ◌||◌, Bool, true, false, if◌then◌else◌, List, [], ◌∷◌, ◌++◌, length};
ghost use Rattle.std.specs.List.{filter, list_any};
ghost use Rattle.ec_plain.specs.declared.call.Call.{Call};
ghost use Rattle.ec_history.specs.Legal.{is_op_of};
ghost use Rattle.ec_history.specs.History.{Base, History, kept, kept_from, kept_next, issued, issued_by, issued_from, owed, owed_from, owed_next, is_lost, is_entry_of, due, distinct_numbers, meets, outcome};
ghost use Rattle.ec_history.specs.Placing.{watch, watch_from, watch_next, unwatched, last_place, gives_entry, before_line, is_numbered};
ghost use Rattle.ec_history.specs.Lines.{durable, durable_from, made_durable};
ghost use Rattle.ec_history.specs.declared.entry.Entry.{Entry};
ghost use Rattle.ec_history.specs.declared.shown.Shown.{Shown};

/// What a history with more entries behind it keeps, issued, owes, has to report, counts and lost;
/// and with one more.
pub fn longer_history()
    ensures keeps { (base : Base) (h g : History) → kept base (h ++ g) ≡ kept_from base (kept base h) g }
    ensures keeps_next { (base : Base) (h : History) (e : ℕ × Entry) → kept base (h ++ e ∷ []) ≡ kept_next base (kept base h) e }
    ensures issues { (base : Base) (h g : History) → issued base (h ++ g) ≡ issued base h ++ issued_from base (kept base h) g }
    ensures issues_next { (base : Base) (h : History) (e : ℕ × Entry) → issued base (h ++ e ∷ []) ≡ issued base h ++ issued_by base (kept base h) e }
    ensures owes { (base : Base) (h g : History) (c b : ℕ) → owed base (h ++ g) c b ≡ owed_from base c b (kept base h) (owed base h c b) g }
    ensures owes_next { (base : Base) (h : History) (e : ℕ × Entry) (c b : ℕ)
        → owed base (h ++ e ∷ []) c b ≡ owed_next base c b (kept base h) (owed base h c b) e }
    ensures others_owe { (base : Base) (h g : History) (c b : ℕ) → list_any (λ e. is_entry_of c b e.1) g ≡ false → owed base (h ++ g) c b ≡ owed base h c b }
    ensures reports_next { (base : Base) (h : History) (e : ℕ × Entry) (c b p : ℕ) (cl : Call)
        → due base (h ++ e ∷ []) c b p cl ≡ distinct_numbers (filter (meets (outcome base (kept_next base (kept base h) e) p cl) cl)
        (owed_next base c b (kept base h) (owed base h c b) e)) }
    ensures counts_next { (c b : ℕ) (h : History) (e : ℕ × Entry)
        → length (filter (is_op_of c b) (h ++ e ∷ [])) ≡ (if is_op_of c b e then length (filter (is_op_of c b) h) + 1 else length (filter (is_op_of c b) h)) }
    ensures loses { (c b n : ℕ) (h g : History) → is_lost c b n (h ++ g) ≡ (is_lost c b n h || is_lost c b n g) }
{}

/// What a transcript with more lines behind it shows of a clerk, makes durable, and has as the last
/// place of a start; and with one more.
pub fn longer_transcript()
    ensures shows { (c : ℕ) (ss ts : List Shown) → watch c (ss ++ ts) ≡ watch_from c (watch c ss) ts }
    ensures shows_next { (c : ℕ) (ss : List Shown) (s : Shown) → watch c (ss ++ s ∷ []) ≡ watch_next c (watch c ss) s }
    ensures stores { (c b : ℕ) (ss ts : List Shown) → durable c b (ss ++ ts) ≡ durable c b ss ++ durable_from c b (watch c ss) ts }
    ensures stores_next { (c b : ℕ) (ss : List Shown) (s : Shown) → durable c b (ss ++ s ∷ []) ≡ durable c b ss ++ made_durable c b (watch c ss) s }
    ensures places_next { (c b : ℕ) (ss : List Shown) (s : Shown)
        → last_place c b unwatched 1 0 (ss ++ s ∷ []) ≡ (if gives_entry c b (watch c ss) s then length ss + 1 else last_place c b unwatched 1 0 ss) }
    ensures begins { (l : ℕ) (ss ts : List Shown)
        → before_line l (ss ++ ts) ≡ (if list_any (is_numbered l) ss then before_line l ss else ss ++ before_line l ts) }
{}
