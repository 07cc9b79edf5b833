// A late call of a start, before the loss of that start.
ghost use Rattle.std.specs.Prelude.{◌≡◌, ℕ, T, Bool, true, false, not, List, [], ◌∷◌, ◌++◌, Option};
ghost use Rattle.std.specs.List.{filter, list_any};
ghost use Rattle.ec_volume.specs.Update.{listed};
ghost use Rattle.ec_plain.specs.declared.call.Call.{Call};
ghost use Rattle.ec_history.specs.History.{Base, History, Throughout, Each, is_one_of, is_entry_of, same_start, outcome, kept, issued, issued_by, issued_from, owed, meets, pairs_of, Covers};
ghost use Rattle.ec_history.specs.Legal.{IsLegal, IsCall, leaves};
ghost use Rattle.ec_history.specs.Lines.{IsCovered};
ghost use Rattle.ec_history.specs.declared.entry.Answer.{Answer};
ghost use Rattle.ec_history.specs.declared.entry.Entry.TheVariants as entry;
ghost use Rattle.ec_history.specs.declared.shown.Shown.{Shown};

/// A legal history stays legal with one more call before the last loss of the call's start, which
/// then loses the call's operation too: if the call keeps its rules there, the start has no entry
/// behind the loss, the call covers nothing that is lost, and it touches no operand of what a loss
/// of another clerk behind it names of the operations kept before it.
pub fn late_call_is_legal()
    ensures { (base : Base) (most c b p l g q : ℕ) (cl : Call) (a : Answer) (op : Option ℕ) (ns : List ℕ) (h h' : History)
        → IsLegal base most (h ++ (q, entry.Loss c b ns) ∷ h')
        → IsCall base most h c b p cl a op
        → list_any (λ e. is_entry_of c b e.1) h' ≡ false
        → Each (λ n. ¬ (Covers base h (p, entry.Call c b l g cl a op) c b n)) ns
        → Each (λ e. (r d f : ℕ) (ms : List ℕ) → e ≡ (r, entry.Loss d f ms)
        → T (leaves base (kept base h) d (filter (is_one_of d f ms) (kept base h)) (p, entry.Call c b l g cl a op))) h'
        → IsLegal base most (h ++ (p, entry.Call c b l g cl a op) ∷ [] ++ (q, entry.Loss c b (ns ++ listed op)) ∷ h') }
{}

/// What the history comes to with that call: it keeps the same operations, the call's operation is
/// issued there, the start owes its pairs last and other starts owe the same.
pub fn late_call_is_lost()
    ensures keeps { (base : Base) (most c b p l g q : ℕ) (cl : Call) (a : Answer) (op : Option ℕ) (ns : List ℕ) (h h' : History) → IsLegal base most h
        → IsCall base most h c b p cl a op
        → kept base (h ++ (p, entry.Call c b l g cl a op) ∷ [] ++ (q, entry.Loss c b (ns ++ listed op)) ∷ h') ≡ kept base (h ++ (q, entry.Loss c b ns) ∷ h') }
    ensures issues { (base : Base) (most c b p l g q : ℕ) (cl : Call) (a : Answer) (op : Option ℕ) (ns : List ℕ) (h h' : History) → IsLegal base most h
        → IsCall base most h c b p cl a op
        → issued base (h ++ (p, entry.Call c b l g cl a op) ∷ [] ++ (q, entry.Loss c b (ns ++ listed op)) ∷ h')
        ≡ issued base h ++ issued_by base (kept base h) (p, entry.Call c b l g cl a op) ++ issued_from base (kept base (h ++ (q, entry.Loss c b ns) ∷ [])) h' }
    ensures owes { (base : Base) (most c b p l g q : ℕ) (cl : Call) (a : Answer) (op : Option ℕ) (ns : List ℕ) (h h' : History) → IsLegal base most h
        → IsCall base most h c b p cl a op
        → list_any (λ e. is_entry_of c b e.1) h' ≡ false
        → owed base (h ++ (p, entry.Call c b l g cl a op) ∷ [] ++ (q, entry.Loss c b (ns ++ listed op)) ∷ h') c b
        ≡ filter (λ k. not (meets (outcome base (kept base h) p cl) cl k)) (owed base h c b)
        ++ pairs_of (filter (is_one_of c b ns) (kept base h) ++ issued_by base (kept base h) (p, entry.Call c b l g cl a op)) }
    ensures others_owe { (base : Base) (most c b p l g q : ℕ) (cl : Call) (a : Answer) (op : Option ℕ) (ns : List ℕ) (h h' : History) → IsLegal base most h
        → IsCall base most h c b p cl a op
        → (d f : ℕ) → same_start c b d f ≡ false
        → owed base (h ++ (p, entry.Call c b l g cl a op) ∷ [] ++ (q, entry.Loss c b (ns ++ listed op)) ∷ h') d f
        ≡ owed base (h ++ (q, entry.Loss c b ns) ∷ h') d f }
{}

/// Where durable lines name all that the entries cover, and all that the call covers, they do so
/// with the call.
pub fn late_call_is_covered()
    ensures { (base : Base) (most c b p l g q : ℕ) (cl : Call) (a : Answer) (op : Option ℕ) (ns : List ℕ) (h h' : History) → IsLegal base most h
        → IsCall base most h c b p cl a op
        → (ss : List Shown) → list_any (λ e. is_entry_of c b e.1) h' ≡ false
        → Throughout (IsCovered base ss) [] (h ++ (q, entry.Loss c b ns) ∷ h')
        → IsCovered base ss h (p, entry.Call c b l g cl a op)
        → Throughout (IsCovered base ss) [] (h ++ (p, entry.Call c b l g cl a op) ∷ [] ++ (q, entry.Loss c b (ns ++ listed op)) ∷ h') }
{}
