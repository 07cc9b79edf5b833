// Epochs.
ghost use Rattle.std.specs.Prelude.{◌≡◌, ◌<◌, ◌≤◌, IfOk, MatchBool};
ghost use Rattle.ec_cache.specs.Cache as cached;

use ec_base::NoMemory;
use ec_cache::Cache;

/// In an epoch above the clerk's own one the numbers of its tokens are forgotten: true. In its own
/// one, or an earlier one, nothing changes: false.
pub fn forget_numbers(cache: &mut Cache, own: u64, epoch: u64) -> Result<bool, NoMemory>
    ensures { IfOk result (λ is_later. MatchBool is_later ((own < epoch) × (cache.new ≡ cached.new_epoch cache.old)) ((epoch ≤ own) × (cache.new ≡ cache.old))) }
{
    if own < epoch {
        cache.new_epoch()?;
        return Ok(true);
    }
    Ok(false)
}
