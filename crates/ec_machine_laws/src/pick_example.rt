// Picks come as they should, and the premises of the laws can be met.
ghost use Rattle.std.specs.Prelude.{◌≡◌, ℕ, Bool, false, List, [], ◌∷◌, Some};
ghost use Rattle.ec_order.specs.Order.{Issued};
ghost use Rattle.ec_sessions.specs.Windows.{new_window};
ghost use Rattle.ec_sessions.specs.declared.window.Window.{Window};
ghost use Rattle.ec_log.specs.Log.{empty, first, pick, kept};
ghost use Rattle.ec_log.specs.declared.state.Asked.TheVariants.{Object, Op, All};
ghost use Rattle.ec_log.specs.declared.state.LogState.{LogState};
ghost use Rattle.ec_log.specs.declared.state.Pick.TheVariants.{Batch, Settled, Behind};
ghost use Rattle.ec_machine_laws.specs.PickExample.{log, sent};
ghost use Rattle.ec_machine_laws.specs.Logs.{WindowAgrees, TellsDurable};
ghost use Rattle.ec_machine_laws.specs.Picks.{IsRest};

/// An overwrite takes along the one under it; what changes the file waits for both.
pub fn picks_can_come()
    ensures under { pick (Op 2) log ≡ Batch 1 (1 ∷ 2 ∷ []) }
    ensures alone { pick (Object 3) log ≡ Batch 1 (3 ∷ []) }
    ensures behind { pick (Object 2) sent ≡ Behind 1 }
    ensures beside { pick (Op 3) sent ≡ Batch 2 (3 ∷ []) }
    ensures later { pick (Object 2) (kept 1 sent) ≡ Batch 2 (4 ∷ []) }
    ensures settled { pick (Op 1) (kept 1 sent) ≡ Settled }
    ensures first { first All (kept 1 sent) ≡ Some 3 }
{}

/// A new log has what is left of no operations, and agrees with a new window; so does each log
/// without batches.
pub fn premises_can_be_met()
    ensures rest { (done : ℕ → Bool) → IsRest [] done empty }
    ensures agrees { (l : LogState) → l.batches ≡ [] → l.next_batch ≡ 1 → WindowAgrees new_window l }
    ensures tells { (w : Window) (l : LogState) (durable : ℕ → Bool) → l.undurable ≡ [] → l.batches ≡ [] → TellsDurable w l durable }
{}
