// Whether two replies are the same.
ghost use Rattle.std.specs.Prelude.{◌≡◌, Decides};

use ec_base::{List, Name};
use ec_plain::Reply;
use ec_volume::Kind;

pub fn is_same(reply: &Reply, other: &Reply) -> bool
    ensures { Decides result (reply.now ≡ other.now) }
{
    match (reply, other) {
        (Reply::Ok, Reply::Ok) => true,
        (Reply::Data(bytes), Reply::Data(same)) => same_bytes(bytes, same),
        (
            Reply::Stat {
                kind,
                mode,
                stamp,
                owner,
                size,
            },
            Reply::Stat {
                kind: same,
                mode: bits,
                stamp: time,
                owner: user,
                size: len,
            },
        ) => {
            same_kind(*kind, *same) && mode == bits && stamp == time && owner == user && size == len
        }
        (Reply::Names(names), Reply::Names(same)) => same_names(names, same),
        (Reply::Refused(refusal), Reply::Refused(same)) => refusal == same,
        _ => false,
    }
}

fn same_kind(kind: Kind, other: Kind) -> bool
    ensures { Decides result (kind ≡ other) }
{
    kind == other
}

fn same_bytes(bytes: &List<u8>, others: &List<u8>) -> bool
    ensures { Decides result (bytes.now ≡ others.now) }
{
    bytes == others
}

fn same_names(names: &List<Name>, others: &List<Name>) -> bool
    ensures { Decides result (names.now ≡ others.now) }
{
    names == others
}
