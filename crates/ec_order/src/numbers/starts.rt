// An index of the starts of clerks.
ghost use Rattle.std.specs.Prelude.{◌≡◌, ◌==◌, ◌&&◌, ℕ, Some, if◌then◌else◌, OnOk, OnErr};
ghost use Rattle.ec_order.specs.OfNumbers.Starts.{indexed};

use ec_base::{ClerkId, NoMemory};
use std::collections::BTreeMap;

/// Where each start of a clerk is.
pub type StartIndex = BTreeMap<(ClerkId, u64), usize>;

/// Where the start is.
pub fn find_start(index: &StartIndex, clerk: ClerkId, boot: u64) -> Option<usize>
    ensures { result ≡ indexed index.now clerk boot }
{
    index.get(&(clerk, boot)).copied()
}

/// One start more.
pub fn note_start(
    index: &mut StartIndex,
    clerk: ClerkId,
    boot: u64,
    at: usize,
) -> Result<(), NoMemory>
    ensures ok { OnOk result ((c b : ℕ) → indexed index.new c b ≡ (if (clerk == c) && (boot == b) then Some at else indexed index.old c b)) }
    ensures err { OnErr result ((c b : ℕ) → indexed index.new c b ≡ indexed index.old c b) }
{
    match index.insert((clerk, boot), at) {
        Ok(_) => Ok(()),
        Err(_) => Err(NoMemory),
    }
}
