// Batches that are under way.
ghost use Rattle.std.specs.Prelude.{◌≡◌, IfOk};
ghost use Rattle.ec_base.specs.Tables.{keys};
ghost use Rattle.ec_log.specs.Log as logs;

use ec_base::{List, NoMemory, OpNo};
use ec_log::Log;
use ec_volume::Update;
use std::alloc::Global;

/// The operations of a batch: none where it isn't under way.
pub fn batch_of(alloc: Global, log: &Log, batch: u64) -> Result<List<(OpNo, Update)>, NoMemory>
    ensures { IfOk result (λ ops. ops ≡ logs.batch batch log.now) }
{
    match log.batch(batch)? {
        Some(ops) => Ok(ops),
        None => Ok(List::of(Vec::new(alloc))),
    }
}

/// The numbers of batches.
pub fn batch_numbers(alloc: Global, batches: &[(u64, List<OpNo>)]) -> Result<Vec<u64>, NoMemory>
    ensures { IfOk result (λ numbers. numbers.items ≡ keys batches.now) }
{
    let mut numbers = Vec::with_capacity(alloc, batches.len())?;
    'batches: for (batch, _) in batches {
        numbers.push(*batch)?;
    }
    Ok(numbers)
}
