// Which messages are forgotten: those that neither are pending nor among the last ones.
ghost use Rattle.std.specs.Prelude.{◌≡◌, ℕ, ◌+◌, ◌<◌, ◌≤◌, is_some, IsTrue};
ghost use Rattle.ec_base.specs.Tables.{at};
ghost use Rattle.ec_volume.specs.Update.{member};
ghost use Rattle.ec_protocol.specs.World.{kept_messages};
ghost use Rattle.ec_protocol.specs.OfPool.Insides.{stays, Forgets};

use crate::Sent;
use crate::pool::links::Link;
use ec_base::SortedMap;
use std::collections::BTreeMap;

// So many of the last messages are kept to be sent again.
const KEPT_MESSAGES: u64 = 4096;

// Forgets the message, if it isn't pending.
fn let_go(kept: &mut BTreeMap<u64, Sent>, pending: &SortedMap<u64, Link>, number: u64)
    ensures forgets { (sent : ℕ) → number + kept_messages ≤ sent → Forgets sent pending.now kept.old.entries kept.new.entries }
    ensures gone { IsTrue (is_some (at number kept.new.entries)) → IsTrue (is_some (at number pending.now)) }
{
    if !pending.contains(&number) {
        drop(kept.remove(&number));
    }
}

// Forgets the settled ones that aren't among the last ones.
pub(crate) fn forget_settled(
    kept: &mut BTreeMap<u64, Sent>,
    pending: &SortedMap<u64, Link>,
    settled: &[u64],
    sent: u64,
)
    ensures forgets { Forgets sent pending.now kept.old.entries kept.new.entries }
    ensures all { (n : ℕ) → IsTrue (member n settled.now) → IsTrue (is_some (at n kept.new.entries)) → IsTrue (stays sent pending.now n) }
{
    for number in settled {
        if sent.saturating_sub(*number) >= KEPT_MESSAGES {
            let_go(kept, pending, *number);
        }
    }
}

// Forgets those that were among the last of so many messages as the first number says, and aren't among the last of the second.
pub(crate) fn forget_passed(
    kept: &mut BTreeMap<u64, Sent>,
    pending: &SortedMap<u64, Link>,
    from: u64,
    to: u64,
)
    ensures forgets { Forgets to pending.now kept.old.entries kept.new.entries }
    ensures all { (n : ℕ) → from < n + kept_messages → n + kept_messages ≤ to → IsTrue (is_some (at n kept.new.entries)) → IsTrue (is_some (at n pending.now)) }
{
    for total in from..to {
        if total + 1 >= KEPT_MESSAGES {
            let_go(kept, pending, total + 1 - KEPT_MESSAGES);
        }
    }
}
