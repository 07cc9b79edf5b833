// The last kept operations, among which are all that a loss can name.
ghost use Rattle.std.specs.Prelude.{◌≡◌, ◌≤◌, ◌&&◌, T, false, length, take, nat_le};
ghost use Rattle.std.specs.Ordering.{nat_cmp};
ghost use Rattle.std.specs.FinMap.{is_sorted};
ghost use Rattle.std.specs.List.{list_any};
ghost use Rattle.ec_history.specs.History.{of_start, of_issue};
ghost use Rattle.ec_judge.specs.Carried.{op_of, ops_of, is_among};

use crate::carried::Kept;
use crate::losses::Named;
use ec_base::ClerkId;

/// An index before which none of the start's kept operations has one of these numbers. A walk from
/// the last one on finds it.
pub fn first_of(kept: &[Kept], named: &Named<'_>) -> usize
    requires { T (is_sorted nat_cmp (of_issue named.now.clerk named.now.boot (ops_of kept.now))) }
    ensures within { result ≤ length kept.now }
    ensures none { list_any (is_among named.now.clerk named.now.boot named.now.ops.now) (take result kept.now) ≡ false }
{
    let least = named.ops.least();
    let mut at = kept.len();
    'back: while at > 0 {
        at -= 1;
        if is_up_to(&kept[at], named.clerk, named.boot, least) {
            return at;
        }
    }
    0
}

// Whether the operation is one of the start, and its number at most this.
fn is_up_to(kept: &Kept, clerk: ClerkId, boot: u64, least: u64) -> bool
    ensures { result ≡ (of_start clerk boot (op_of kept.now) && nat_le kept.now.number least) }
{
    clerk == kept.clerk && boot == kept.boot && kept.number.0 <= least
}
