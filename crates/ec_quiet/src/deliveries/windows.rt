// What the next batch makes of a window.
ghost use Rattle.std.specs.Prelude.{◌≡◌, ◌+◌, false};
ghost use Rattle.ec_sessions.specs.Windows.{has, after_mark};
ghost use Rattle.ec_sessions.specs.declared.window.Window.{Window};

/// A window without later numbers doesn't have the next one, which moves it by one.
pub fn next_batches_move_windows()
    ensures new { (w : Window) → w.mask ≡ 0 → has w (w.low + 1) ≡ false }
    ensures moved { (w : Window) → w.mask ≡ 0 → after_mark w (w.low + 1) ≡ record { low = w.low + 1; mask = 0 } }
{}
