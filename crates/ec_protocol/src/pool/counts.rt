// How many messages of each kind were sent between a clerk and the server, in the order of first sending.
ghost use Rattle.std.specs.Prelude.{◌≡◌, ◌<◌, MatchOption, position, vec_len, vec_capacity};
ghost use Rattle.ec_base.specs.Limits.{last_counter};
ghost use Rattle.ec_protocol.specs.World as machine;
ghost use Rattle.ec_protocol.specs.OfPool.Insides.{CountsAt, CountsNew};

use crate::pool::kinds::is_same_kind;
use ec_base::ClerkId;
use ec_wire::MsgKind;

pub(crate) type Count = ((ClerkId, MsgKind), u64);

// How many of the kind were sent between the clerk and the server.
pub(crate) fn count_of(counts: &[Count], clerk: ClerkId, kind: MsgKind) -> u64
    ensures { result ≡ machine.count_of clerk kind counts.now }
{
    match place_of(counts, clerk, kind) {
        Some(at) => counts[at].1,
        None => 0,
    }
}

// Counts one more, where there is room for one more entry.
pub(crate) fn count_one_more(counts: &mut Vec<Count>, clerk: ClerkId, kind: MsgKind)
    requires below { machine.count_of clerk kind counts.old.items < last_counter }
    requires room { vec_len counts.old < vec_capacity counts.old }
    ensures { counts.new.items ≡ machine.one_more clerk kind counts.old.items }
{
    match place_of(counts, clerk, kind) {
        Some(at) => counts[at] = ((clerk, kind), counts[at].1 + 1),
        None => counts.push(((clerk, kind), 1)).unwrap(),
    }
}

fn place_of(counts: &[Count], clerk: ClerkId, kind: MsgKind) -> Option<usize>
    ensures { MatchOption result (CountsNew clerk kind counts.now) (CountsAt clerk kind counts.now) }
{
    position_of(counts, clerk, kind)
}

fn position_of(counts: &[Count], clerk: ClerkId, kind: MsgKind) -> Option<usize>
    ensures { result ≡ position (machine.is_count_of clerk kind) counts.now }
{
    counts.iter().position(|count| count.0.0 == clerk && is_same_kind(count.0.1, kind))
}
