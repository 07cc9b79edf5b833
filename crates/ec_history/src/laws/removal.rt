// What is left where operations are lost.
ghost use Rattle.std.specs.Prelude.{◌≡◌, ℕ, T, Bool, false, not, ◌||◌, List, [], ◌∷◌, ◌++◌, Option, Some};
ghost use Rattle.std.specs.List.{filter};
ghost use Rattle.ec_volume.specs.Update.{has_operand, member, fits};
ghost use Rattle.ec_volume.specs.Volume.{Images, after, fits_in_turn, Fits};
ghost use Rattle.ec_volume.specs.declared.image.Image.{Image};
ghost use Rattle.ec_volume.specs.declared.update.Update.{Update};
ghost use Rattle.ec_plain.specs.Plain.{plain};
ghost use Rattle.ec_plain.specs.declared.call.Call.{Call};
ghost use Rattle.ec_history.specs.History.{Base, History, Op, Each, Throughout, updates, of_start, is_one_of, is_entry_of, kept, issued_by, without};
ghost use Rattle.ec_history.specs.Legal.{IsLegal, is_call_of_other, is_closed, touches_none, leaves};
ghost use Rattle.ec_history.specs.declared.entry.Answer.{Answer};
ghost use Rattle.ec_history.specs.declared.entry.Entry.TheVariants as entry;
ghost use Rattle.ec_history.specs.OfLaws.Needs.{holds_needed};

/// A call touches the operands of its update.
pub fn calls_touch_operands()
    ensures { (v : Images) (cl : Call) (fresh : ℕ) (u : Update) → (plain v cl fresh).update ≡ Some u → (o : ℕ) → T (has_operand o u)
        → T (member o (plain v cl fresh).touched) }
{}

/// Where no operation that is left is ordered after a lost one, what is left fits: at one object,
/// where that holds of the operations on it, and in a volume.
pub fn what_a_closed_loss_leaves_fits()
    ensures object { (o : ℕ) (i : Image) (lost : Op → Bool) (ks : List Op) → T (is_closed lost (filter (λ k. has_operand o k.update) ks))
        → T (fits_in_turn o i (updates ks)) → T (fits_in_turn o i (updates (filter (λ k. not (lost k)) ks))) }
    ensures volume { (base : Images) (lost : Op → Bool) (ks : List Op) → T (is_closed lost ks) → Fits base (updates ks)
        → Fits base (updates (filter (λ k. not (lost k)) ks)) }
    ensures rest { (inside : Op → Bool) (ks : List Op) → T (holds_needed (λ k. k.update) inside ks) → T (is_closed (λ k. not (inside k)) ks) }
{}

/// A loss leaves what fits, where what was kept fits, none of its start's operations that it leaves
/// is ordered after a lost one, and no call of another start touched an operand of a lost operation
/// that was kept so far. So the last rule of a lawful loss follows from the others, where no call of
/// another start of the clerk did so.
pub fn what_an_untouched_loss_leaves_fits()
    ensures without { (base : Base) (c b : ℕ) (ns : List ℕ) (past : History) → Fits base.volume (updates (kept base past))
        → T (is_closed (is_one_of c b ns) (filter (of_start c b) (kept base past)))
        → Throughout (λ h e. is_entry_of c b e.1 ≡ false → T (touches_none base (kept base h) (filter (is_one_of c b ns) (kept base h)) e)) [] past
        → Fits base.volume (updates (without c b ns (kept base past))) }
    ensures lawful { (base : Base) (c b : ℕ) (ns : List ℕ) (past : History) → Fits base.volume (updates (kept base past))
        → T (is_closed (is_one_of c b ns) (filter (of_start c b) (kept base past)))
        → Throughout (λ h e. T (leaves base (kept base h) c (filter (is_one_of c b ns) (kept base h)) e)) [] past
        → Throughout (λ h e. is_call_of_other c e.1 ≡ false → is_entry_of c b e.1 ≡ false
        → T (touches_none base (kept base h) (filter (is_one_of c b ns) (kept base h)) e)) [] past
        → Fits base.volume (updates (without c b ns (kept base past))) }
    ensures kept { (base : Base) (c b p : ℕ) (ns : List ℕ) (past : History) → Fits base.volume (updates (kept base past))
        → T (is_closed (is_one_of c b ns) (filter (of_start c b) (kept base past)))
        → Throughout (λ h e. is_entry_of c b e.1 ≡ false → T (touches_none base (kept base h) (filter (is_one_of c b ns) (kept base h)) e)) [] past
        → Fits base.volume (updates (kept base (past ++ (p, entry.Loss c b ns) ∷ []))) }
{}

/// What is kept fits behind one more call whose operation fits there; and so behind each entry of a
/// legal history of such calls.
pub fn what_is_kept_fits()
    ensures call { (base : Base) (past : History) (p c b l g : ℕ) (cl : Call) (a : Answer) (op : Option ℕ) → Fits base.volume (updates (kept base past))
        → Each (λ k. (o : ℕ) → T (not (has_operand o k.update) || fits k.update o (after base.volume (updates (kept base past)) o)))
        (issued_by base (kept base past) (p, entry.Call c b l g cl a op))
        → Fits base.volume (updates (kept base (past ++ (p, entry.Call c b l g cl a op) ∷ []))) }
    ensures legal { (base : Base) (most : ℕ) (h : History) → IsLegal base most h
        → Throughout (λ past e. Each (λ k. (o : ℕ) → T (not (has_operand o k.update) || fits k.update o (after base.volume (updates (kept base past)) o)))
        (issued_by base (kept base past) e)) [] h
        → Throughout (λ past e. Fits base.volume (updates (kept base (past ++ e ∷ [])))) [] h }
{}
