// What legal histories keep.
ghost use Rattle.std.specs.Prelude.{◌≡◌, ℕ, T, Bool, false, not, List, [], ◌∷◌, ◌++◌};
ghost use Rattle.std.specs.List.{filter, list_all};
ghost use Rattle.ec_volume.specs.Image.{is_gone};
ghost use Rattle.ec_volume.specs.Volume.{after};
ghost use Rattle.ec_history.specs.History.{Base, History, Op, Throughout, updates, of_start, is_one_of, is_entry_of, kept, without};
ghost use Rattle.ec_history.specs.Legal.{touches_none, IsLegal, is_closed, from_formatted};
ghost use Rattle.ec_history.specs.Placing.{place};
ghost use Rattle.ec_history.specs.declared.entry.Entry.{Entry};
ghost use Rattle.ec_history.specs.declared.shown.Shown.{Shown};
ghost use Rattle.ec_history.specs.OfLaws.Needs.{holds_needed};
ghost use Rattle.ec_history.specs.OfLaws.Bases.{IsBase, AreAtLines, LeaveWellFormed, is_bounded_entry};

/// The formatted volume is a base.
pub fn formatted_is_a_base()
    ensures { IsBase from_formatted }
{}

/// What a legal history keeps, behind each entry and as a whole, is sound, fits and leaves a
/// well-formed volume; so the entries of a transcript's lines do. Each object is reached, or within
/// its limits, where each one of the base is.
pub fn what_is_kept_is_well_formed()
    ensures throughout { (base : Base) (most : ℕ) (h : History) → IsBase base → AreAtLines h → IsLegal base most h
        → Throughout (λ past e. LeaveWellFormed base (kept base (past ++ e ∷ []))) [] h }
    ensures whole { (base : Base) (most : ℕ) (h : History) → IsBase base → AreAtLines h → IsLegal base most h → LeaveWellFormed base (kept base h) }
    ensures placed { (base : Base) (most : ℕ) (ss : List Shown) → IsBase base → T (list_all (λ e. is_bounded_entry e.1) (place ss))
        → IsLegal base most (place ss) → LeaveWellFormed base (kept base (place ss)) }
{}

/// Behind a legal history the fresh id of a further line's place is Gone.
pub fn fresh_ids_are_gone()
    ensures { (base : Base) (most : ℕ) (h : History) (e : ℕ × Entry) → IsBase base → AreAtLines (h ++ e ∷ []) → IsLegal base most h
        → T (is_gone (after base.volume (updates (kept base h)) (base.fresh e.0))) }
{}

/// A set of the operations that a legal history keeps leaves a well-formed volume, if it holds what
/// its members need, such as the durable ones; so does what a closed set leaves of them.
pub fn closed_sets_leave_well_formed_volumes()
    ensures part { (base : Base) (inside : Op → Bool) (ks : List Op) → IsBase base → LeaveWellFormed base ks
        → T (holds_needed (λ k. k.update) inside ks) → LeaveWellFormed base (filter inside ks) }
    ensures rest { (base : Base) (lost : Op → Bool) (ks : List Op) → IsBase base → LeaveWellFormed base ks → T (is_closed lost ks)
        → LeaveWellFormed base (filter (λ k. not (lost k)) ks) }
{}

/// A loss of operations of one start leaves such a volume, where none of its start's operations
/// that it leaves is ordered after a lost one, and no call of another start touched an operand of a
/// lost operation that was kept so far.
pub fn untouched_losses_leave_well_formed_volumes()
    ensures { (base : Base) (most c b : ℕ) (ns : List ℕ) (past : History) → IsBase base → AreAtLines past → IsLegal base most past
        → T (is_closed (is_one_of c b ns) (filter (of_start c b) (kept base past)))
        → Throughout (λ h e. is_entry_of c b e.1 ≡ false → T (touches_none base (kept base h) (filter (is_one_of c b ns) (kept base h)) e)) [] past
        → LeaveWellFormed base (without c b ns (kept base past)) }
{}
