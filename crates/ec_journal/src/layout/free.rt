// The slots that a checkpoint may write.
ghost use Rattle.std.specs.Prelude.{◌≡◌, ◌<◌, ◌≤◌, ◌+◌, ℕ, IfOk, length};
ghost use Rattle.std.specs.List.{All};
ghost use Rattle.std.specs.List.Sorted.{IsStrictlyIncreasing};
ghost use Rattle.ec_journal.specs.OfLayout.Free.{free_below, IsFreeBelow};

use ec_base::NoMemory;
use std::alloc::Global;

/// The slots below `count` that aren't named, rising.
pub fn free_slots(alloc: Global, count: u32, named: &[u32]) -> Result<Vec<u32>, NoMemory>
    requires { All (λ slot. slot < count) named.now }
    ensures all { IfOk result (λ free. free.items ≡ free_below count named.now) }
    ensures rising { IfOk result (λ free. IsStrictlyIncreasing free.items) }
    ensures each { IfOk result (λ free. All (IsFreeBelow count named.now) free.items) }
    ensures enough { IfOk result (λ free. count ≤ length free.items + length named.now) }
{
    let mut is_named = Vec::new(alloc);
    is_named.resize(count as usize, false)?;
    'named: for slot in named {
        is_named[*slot as usize] = true;
    }
    let mut free = Vec::new(alloc);
    'slots: for slot in 0..count {
        if !is_named[slot as usize] {
            free.push(slot)?;
        }
    }
    Ok(free)
}
