// What is left of a start's operations, and what is durable of them, step by step.
ghost use Rattle.std.specs.Prelude.{◌≡◌, ◌<◌, ℕ, T, Bool, true, false, ◌||◌, List, [], ◌∷◌, ◌++◌};
ghost use Rattle.std.specs.Ordering.{nat_cmp};
ghost use Rattle.std.specs.FinMap.{is_sorted};
ghost use Rattle.ec_volume.specs.Update.{member};
ghost use Rattle.ec_volume.specs.declared.update.Update.{Update};
ghost use Rattle.ec_order.specs.Order.{Issued, Holds};
ghost use Rattle.ec_sessions.specs.Windows.{mark_answer, is_marked, after_mark};
ghost use Rattle.ec_sessions.specs.declared.window.Window.{Window};
ghost use Rattle.ec_history.specs.OfLaws.Needs.{holds_needed};
ghost use Rattle.ec_log.specs.Log.{issue, pick, after_pick, ops_in, kept, end};
ghost use Rattle.ec_log.specs.declared.state.Asked.{Asked};
ghost use Rattle.ec_log.specs.declared.state.LogState.{LogState};
ghost use Rattle.ec_machine_laws.specs.Logs.{IsUnderWay, IsLog, WindowAgrees, TellsDurable};
ghost use Rattle.ec_machine_laws.specs.Picks.{IsRest};

/// The log goes on having what is left of a start's operations: one more, without those of a batch
/// that is known durable, and none at the end of a session.
pub fn logs_have_what_is_left()
    ensures issue { (issued : Issued) (done : ℕ → Bool) (l : LogState) → IsRest issued done l → (u : Update) → ((n : ℕ) (x : Update) → Holds issued n x → n < l.next) → done l.next ≡ false → IsRest (issued ++ (l.next, u) ∷ []) done (issue u l) }
    ensures kept { (issued : Issued) (done : ℕ → Bool) (l : LogState) → IsRest issued done l → IsLog l → (b : ℕ) → IsRest issued (λ n. done n || member n (ops_in b l)) (kept b l) }
    ensures end { (issued : Issued) (done : ℕ → Bool) (l : LogState) → T (is_sorted nat_cmp issued) → ((n : ℕ) (u : Update) → Holds issued n u → T (done n)) → IsRest issued done (end l) }
{}

/// The window goes on having exactly the durable ones of the batches under way; and where a batch
/// under way becomes durable, the durable operations go on holding what they need.
pub fn windows_tell_what_is_durable()
    ensures issue { (w : Window) (l : LogState) (durable : ℕ → Bool) → TellsDurable w l durable → (u : Update) → durable l.next ≡ false → TellsDurable w (issue u l) durable }
    ensures pick { (w : Window) (l : LogState) (durable : ℕ → Bool) → TellsDurable w l durable → IsLog l → WindowAgrees w l → (a : Asked) → TellsDurable w (after_pick (pick a l) l) durable }
    ensures kept { (w : Window) (l : LogState) (durable : ℕ → Bool) → TellsDurable w l durable → IsLog l → (b : ℕ) → TellsDurable w (kept b l) durable }
    ensures commit { (w : Window) (l : LogState) (durable : ℕ → Bool) → TellsDurable w l durable → IsLog l → (b : ℕ) (ns : List ℕ) → IsUnderWay l b ns → is_marked (mark_answer w b) ≡ true
        → TellsDurable (after_mark w b) l (λ n. durable n || member n ns) }
    ensures needs { (w : Window) (l : LogState) (durable : ℕ → Bool) → TellsDurable w l durable → IsLog l → (b : ℕ) (ns : List ℕ) → IsUnderWay l b ns → (issued : Issued) (known : ℕ → Bool) → IsRest issued known l
        → ((n : ℕ) → T (known n) → T (durable n)) → T (holds_needed (λ x. x.1) (λ x. durable x.0) issued) → T (holds_needed (λ x. x.1) (λ x. durable x.0 || member x.0 ns) issued) }
{}
