// Whether each line may follow those above it, and where the calls began.
ghost use Rattle.std.specs.Prelude.{◌≡◌, ◌≤◌, ◌<◌, ◌^◌, [], ℕ, List as Listed, T, true, take, length, is_none, IfOk, OnOk, IfErr};
ghost use Rattle.std.specs.List.{list_all};
ghost use Rattle.ec_base.specs.Limits.{clerk_count};
ghost use Rattle.ec_history.specs.Placing.{ArePlaceable, watch as watched};
ghost use Rattle.ec_lines.specs.Fault.{IsPlaceFault};
ghost use Rattle.ec_lines.specs.Following.{Follows};
ghost use Rattle.ec_lines.specs.Index.{AreBegins};
ghost use Rattle.ec_lines.specs.Seen.{Sees};

use crate::fault::PlaceFault;
use crate::lines;
use crate::seen::{self, Seen};
use ec_base::NoMemory;
use ec_history::Shown;
use ec_watch::watching::{self, Watching};
use std::alloc::Global;

/// Lines from the first one on, each of which may follow those above it.
#[derive(Drop)]
pub struct Following {
    /// What they show.
    pub seen: Seen,
    /// Where their calls began, as `begins` tells it.
    pub begins: Vec<u32>,
}

/// No line is followed yet. There is room for the calls of so many lines.
pub fn none_followed(alloc: Global, lines: usize) -> Result<Following, NoMemory>
    ensures { IfOk result (λ following. Follows following []) }
{
    let seen = seen::nothing(alloc, lines)?;
    let begins = Vec::with_capacity(alloc, lines)?;
    Ok(Following { seen, begins })
}

/// Follows the lines between these places. `At` shows the first line that may not follow those above
/// it, and the first rule that it breaks.
pub fn follow(
    alloc: Global,
    following: &mut Following,
    shown: &[Shown],
    from: usize,
    to: usize,
) -> Result<(), PlaceFault>
    requires few { length shown.now < 2 ^ 31 }
    requires onward { from ≤ to }
    requires within { to ≤ length shown.now }
    requires follows { Follows following.old (take from shown.now) }
    ensures follows { OnOk result (Follows following.new (take to shown.now)) }
    ensures fault { IfErr result (λ fault. IsPlaceFault shown.now fault) }
{
    for at in from..to {
        let above = &shown[..at];
        let line = &shown[at];
        let known = seen::known(&following.seen, above, line);
        if let Some(rule) = lines::broken(alloc, above, &following.seen, known, line)? {
            return Err(PlaceFault::At(at as u32 + 1, rule));
        }
        let begun = seen::begins(&following.seen, above, known, line);
        if following.begins.push(begun).is_err() {
            return Err(PlaceFault::NoMemory);
        }
        seen::note(alloc, &mut following.seen, above, known, line)?;
    }
    Ok(())
}

/// Whether each loss of these lines is told.
pub fn are_told(following: &Following) -> bool
    ensures { (past : Listed Shown) → Follows following.now past → result ≡ true → (c : ℕ) → c < clerk_count → T (is_none (watched c past).untold) }
{
    all_told(&following.seen.watches)
}

fn all_told(watches: &[Watching]) -> bool
    ensures { result ≡ list_all (λ w. is_none w.untold) watches.now }
{
    watches.iter().all(|watch| is_told(watch))
}

fn is_told(watch: &Watching) -> bool
    ensures { result ≡ is_none watch.now.untold }
{
    watching::untold(watch).is_none()
}

/// Whether each line may follow those above it, and of each answer the place, from 1, of the last
/// line above its call's first one that gives an entry of the answer's start, or 0. `At` shows the
/// first line that may not follow those above it, and the first rule that it breaks.
pub fn begins(alloc: Global, shown: &[Shown]) -> Result<Vec<u32>, PlaceFault>
    requires { length shown.now < 2 ^ 31 }
    ensures placeable { OnOk result (ArePlaceable [] shown.now) }
    ensures begins { IfOk result (λ begins. AreBegins [] shown.now begins.items) }
    ensures fault { IfErr result (λ fault. IsPlaceFault shown.now fault) }
{
    let mut following = none_followed(alloc, shown.len())?;
    follow(alloc, &mut following, shown, 0, shown.len())?;
    let Following { begins, .. } = following;
    Ok(begins)
}
