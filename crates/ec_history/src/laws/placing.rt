// Placing the lines of a transcript, one more line at a time.
ghost use Rattle.std.specs.Prelude.{◌≡◌, ◌≤◌, ◌+◌, ℕ, Bool, T, true, false, map, List, [], ◌∷◌, ◌++◌, length, Option, Some, None};
ghost use Rattle.std.specs.List.{list_any};
ghost use Rattle.ec_volume.specs.Update.{listed, distinct};
ghost use Rattle.ec_plain.specs.declared.call.Call.{Call};
ghost use Rattle.ec_history.specs.History.{Base, History, Each, Throughout, is_entry_of};
ghost use Rattle.ec_history.specs.Lines.{IsCovered, AreCovered};
ghost use Rattle.ec_history.specs.Placing.{watch, begun, owner, gives_entry, call_entry, place, same_numbers};
ghost use Rattle.ec_base.specs.Options.{or_zero};
ghost use Rattle.ec_base.specs.SmallLaws.{rises};
ghost use Rattle.ec_history.specs.declared.watch.Watch.{Watch};
ghost use Rattle.ec_history.specs.declared.entry.Answer.{Answer};
ghost use Rattle.ec_history.specs.declared.entry.Entry.TheVariants as entry;
ghost use Rattle.ec_history.specs.declared.shown.Shown.{Shown};
ghost use Rattle.ec_history.specs.declared.shown.Shown.TheVariants.{Answered, Ended};

/// What one more line does to the entries, told by what the lines before it show of its clerk.
/// While nothing is untold an answer gives the last entry. While the running start lost operations
/// and wasn't told, there is one last loss of that start, of just these operations; an answer stands
/// before it, and its operation is lost too. An ended line gives the last entry: the loss of what
/// it names. All other lines give nothing.
pub fn each_line_is_placed()
    ensures answer { (ss : List Shown) (l c : ℕ) (cl : Call) (a : Answer) (op : Option ℕ) → (watch c ss).untold ≡ None
        → place (ss ++ Answered l c cl a op ∷ []) ≡ place ss ++ call_entry ss (Answered l c cl a op) }
    ensures late_answer { (ss : List Shown) (c : ℕ) (ns : List ℕ) → (watch c ss).untold ≡ Some ns
        → (h : History) × (q : ℕ) × (h' : History) × (place ss ≡ h ++ (q, entry.Loss c (watch c ss).starts ns) ∷ h')
        × (list_any (λ e. is_entry_of c (watch c ss).starts e.1) h' ≡ false)
        × ((l : ℕ) (cl : Call) (a : Answer) (op : Option ℕ) → place (ss ++ Answered l c cl a op ∷ []) ≡ h ++ call_entry ss (Answered l c cl a op)
        ++ (q, entry.Loss c (watch c ss).starts (ns ++ listed op)) ∷ h') }
    ensures ended { (ss : List Shown) (c : ℕ) (ns : List ℕ)
        → place (ss ++ Ended c ns ∷ []) ≡ place ss ++ (length ss + 1, entry.Loss c (or_zero (owner (watch c ss))) ns) ∷ [] }
    ensures other { (ss : List Shown) (s : Shown) → ((c b : ℕ) (w : Watch) → gives_entry c b w s ≡ false) → place (ss ++ s ∷ []) ≡ place ss }
{}

/// The places of a transcript's entries are those of lines, and no two entries have one place.
pub fn places_are_distinct()
    ensures within { (ss : List Shown) → Each (λ p. (1 ≤ p) × (p ≤ length ss)) (map (λ e. e.0) (place ss)) }
    ensures apart { (ss : List Shown) → T (distinct (map (λ e. e.0) (place ss))) }
{}

/// What the lines show of a clerk: while something is untold no session is open and the start runs,
/// and its answers are of this start; starts count from 1, and an open session is of one that began.
/// Where none is open nothing is undurable, so that a durable line has nothing to name.
pub fn watched_starts_are_counted()
    ensures untold { (c : ℕ) (ss : List Shown) (ns : List ℕ) → (watch c ss).untold ≡ Some ns
        → ((watch c ss).open_start ≡ None) × ((watch c ss).running ≡ true) × (begun (watch c ss) ≡ watch c ss) }
    ensures running { (c : ℕ) (ss : List Shown) → (watch c ss).running ≡ true → 1 ≤ (watch c ss).starts }
    ensures opened { (c b : ℕ) (ss : List Shown) → (watch c ss).open_start ≡ Some b → (1 ≤ b) × (b ≤ (watch c ss).starts) }
    ensures closed { (c : ℕ) (ss : List Shown) → (watch c ss).open_start ≡ None → (watch c ss).undurable ≡ [] }
{}

/// Lists are compared as sets: a list has the numbers of itself, and rising lists that have the same
/// numbers are one list.
pub fn rising_lists_are_sets()
    ensures own { (ns : List ℕ) → T (same_numbers ns ns) }
    ensures rising { (ns ms : List ℕ) → T (rises ns) → T (rises ms) → T (same_numbers ns ms) → ns ≡ ms }
{}

/// Durable lines name all that a transcript's calls cover, if those above its last line do.
pub fn lines_above_cover()
    ensures { (base : Base) (ss : List Shown) (s : Shown) → Throughout (IsCovered base ss) [] (place (ss ++ s ∷ [])) → AreCovered base (ss ++ s ∷ []) }
{}
