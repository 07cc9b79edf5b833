// Logs, their batches, and the window of the server.
ghost use Rattle.std.specs.Prelude.{◌≡◌, ◌+◌, ◌<◌, ◌≤◌, ◌⊎◌, ℕ, T, Bool, false, not, take, List};
ghost use Rattle.std.specs.List.{filter};
ghost use Rattle.ec_volume.specs.Update.{member};
ghost use Rattle.ec_volume.specs.declared.update.Update.{Update};
ghost use Rattle.ec_order.specs.Order.{Issued, Holds};
ghost use Rattle.ec_sessions.specs.Windows.{has, after_mark};
ghost use Rattle.ec_sessions.specs.declared.window.Window.{Window};
ghost use Rattle.std.specs.Ordering.{nat_cmp};
ghost use Rattle.std.specs.FinMap.{is_sorted};
ghost use Rattle.ec_log.specs.declared.state.Pick.TheVariants.{Batch};
ghost use Rattle.ec_log.specs.Log.{closure_of, empty, issue, pick, after_pick, batch, kept, lost, end};
ghost use Rattle.ec_log.specs.declared.state.Asked.{Asked};
ghost use Rattle.ec_log.specs.declared.state.LogState.{LogState};
ghost use Rattle.ec_machine_laws.specs.Logs.{IsUnderWay, IsLog, WindowAgrees, TellsDurable};
ghost use Rattle.ec_machine_laws.specs.Picks.{IsRest};

/// Whatever is done with a log, its batches keep undurable operations of their own, and with them
/// what these need, and their numbers keep within eight.
pub fn logs_stay_in_order()
    ensures empty { IsLog empty }
    ensures issue { (l : LogState) → IsLog l → (u : Update) → IsLog (issue u l) }
    ensures pick { (l : LogState) → IsLog l → (a : Asked) → IsLog (after_pick (pick a l) l) }
    ensures kept { (l : LogState) → IsLog l → (b : ℕ) → IsLog (kept b l) }
    ensures end { (l : LogState) → IsLog (end l) }
{}

/// A new batch has the operations that were picked, each with its update, in the order of issue; and
/// a batch under way keeps them.
pub fn batches_stay_the_same()
    ensures new { (a : Asked) (l : LogState) (b : ℕ) (ns : List ℕ) → T (is_sorted nat_cmp l.undurable) → pick a l ≡ Batch b ns → batch b (after_pick (pick a l) l) ≡ take 64 (closure_of a l) }
    ensures issue { (l : LogState) → IsLog l → (u : Update) (c : ℕ) (ms : List ℕ) → IsUnderWay l c ms → batch c (issue u l) ≡ batch c l }
    ensures pick { (l : LogState) → IsLog l → (a : Asked) (c : ℕ) (ms : List ℕ) → IsUnderWay l c ms → batch c (after_pick (pick a l) l) ≡ batch c l }
    ensures kept { (l : LogState) → IsLog l → (b c : ℕ) (ms : List ℕ) → (b ≡ c → ⊥) → IsUnderWay l c ms → batch c (kept b l) ≡ batch c l }
{}

/// The window has each batch that was sent and isn't under way, and none that wasn't sent; so it
/// reaches each one under way.
pub fn windows_agree_with_logs()
    ensures pick { (l : LogState) → IsLog l → (a : Asked) (w : Window) → WindowAgrees w l → WindowAgrees w (after_pick (pick a l) l) }
    ensures kept { (l : LogState) → IsLog l → (b : ℕ) (w : Window) → WindowAgrees w l → T (has w b) → WindowAgrees w (kept b l) }
    ensures mark { (w : Window) (l : LogState) (b : ℕ) → WindowAgrees w l → b < l.next_batch → WindowAgrees (after_mark w b) l }
    ensures near { (l : LogState) → IsLog l → (w : Window) → WindowAgrees w l → has w (w.low + 1) ≡ false → (b : ℕ) (ns : List ℕ) → IsUnderWay l b ns → b ≤ w.low + 8 }
{}

/// A lost operation stands in no batch that the window has, and each other undurable one does. Where
/// the window has the durable batches, what is lost are the operations that aren't durable.
pub fn losses_are_what_the_window_lacks()
    ensures none { (w : Window) (l : LogState) (n : ℕ) (u : Update) → Holds (lost w l) n u → Holds l.undurable n u × ((b : ℕ) (ns : List ℕ) → IsUnderWay l b ns → T (member n ns) → has w b ≡ false) }
    ensures others { (w : Window) (l : LogState) → IsLog l → (n : ℕ) (u : Update) → Holds l.undurable n u → Holds (lost w l) n u ⊎ ((b : ℕ) × (ns : List ℕ) × IsUnderWay l b ns × T (has w b) × T (member n ns)) }
    ensures undurable { (w : Window) (l : LogState) (issued : Issued) (known durable : ℕ → Bool) → IsLog l → TellsDurable w l durable → IsRest issued known l → ((n : ℕ) → T (known n) → T (durable n))
        → lost w l ≡ filter (λ x. not (durable x.0)) issued }
{}
