// Laws on what lines show: each function has an empty body, and its contract is a law.
ghost use Rattle.std.specs.Prelude.{◌≡◌, ◌≤◌, ℕ, List, Some, length, slice_get};
ghost use Rattle.ec_history.specs.declared.shown.Shown.{Shown};
ghost use Rattle.ec_history.specs.declared.watch.Watch.{Watch};
ghost use Rattle.ec_watch.specs.Watches.{AreWatched};

/// A clerk has at most as many starts as there are lines.
pub fn starts_are_few()
    ensures { (ws : List Watch) (past : List Shown) (c : ℕ) (w : Watch) → AreWatched ws past → slice_get ws c ≡ Some w → w.starts ≤ length past }
{}
