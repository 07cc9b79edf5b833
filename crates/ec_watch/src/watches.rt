// What the lines of a transcript show of each clerk, line by line.
ghost use Rattle.std.specs.Prelude.{◌≡◌, ◌<◌, ◌+◌, ◌^◌, ◌++◌, ◌∷◌, [], ℕ, List as Listed, length, slice_get, Some, OnOk, IfOk};
ghost use Rattle.ec_base.specs.Limits.{clerk_count};
ghost use Rattle.ec_watch.specs.Watches.{AreWatched, clerk_of};

use crate::watch;
use ec_base::{CLERK_COUNT, ClerkId, NoMemory};
use ec_history::{Shown, Watch};
use std::alloc::Global;

/// The clerk of whom the line tells.
pub fn clerk_of(line: &Shown) -> Option<ClerkId>
    ensures { result ≡ clerk_of line.now }
{
    match line {
        Shown::Waits(_, clerk, _) => Some(*clerk),
        Shown::Answered(_, clerk, _, _, _) => Some(*clerk),
        Shown::Durable(clerk, _) => Some(*clerk),
        Shown::Ended(clerk, _) => Some(*clerk),
        Shown::Unseen(clerk) => Some(*clerk),
        Shown::Told(clerk, _) => Some(*clerk),
        Shown::Crashed(clerk) => Some(*clerk),
        _ => None,
    }
}

/// The watch of the clerk.
pub fn watch_of(watches: &[Watch], clerk: ClerkId) -> &Watch
    requires { length watches.now ≡ clerk_count }
    ensures value { slice_get watches.now clerk ≡ Some result.now }
    ensures below { clerk < clerk_count }
{
    &watches[clerk.get() as usize]
}

/// The watches of the clerks before the first line.
pub fn none_watched(alloc: Global) -> Result<Vec<Watch>, NoMemory>
    ensures { IfOk result (λ watches. AreWatched watches.items []) }
{
    let mut watches = Vec::new(alloc);
    for _ in 0..CLERK_COUNT {
        watches.push(watch::unwatched(alloc))?;
    }
    Ok(watches)
}

/// One more line.
pub fn note(alloc: Global, watches: &mut [Watch], line: &Shown) -> Result<(), NoMemory>
    requires count { length watches.old ≡ clerk_count }
    requires starts { (w : Watch) (c : ℕ) → slice_get watches.old c ≡ Some w → w.starts + 1 < 2 ^ 64 }
    ensures { OnOk result ((past : Listed Shown) → AreWatched watches.old past → AreWatched watches.new (past ++ line.now ∷ [])) }
{
    if let Some(clerk) = clerk_of(line) {
        watch::follow(alloc, clerk, &mut watches[clerk.get() as usize], line)?;
    }
    Ok(())
}
