// What a call waits for.
ghost use Rattle.std.specs.Prelude.{◌≡◌};
ghost use Rattle.ec_protocol.specs.Clerk as clerk;

use ec_base::{ObjId, OpNo};
use ec_log::Asked;
use ec_plain::{Call, Outcome, Reply};

/// What an fsync waits for, on the object that its path reached, and a sync.
pub fn awaited(call: &Call, outcome: &Outcome) -> Option<Asked>
    ensures { result ≡ clerk.awaited call.now outcome.now }
{
    match call {
        Call::Fsync(_) => match outcome.reply {
            Reply::Ok => on_last(outcome.touched.as_slice()),
            _ => None,
        },
        Call::Sync => Some(Asked::All),
        _ => None,
    }
}

fn on_last(touched: &[ObjId]) -> Option<Asked>
    ensures { result ≡ clerk.on_object (clerk.last_number touched.now) }
{
    match touched {
        [] => None,
        [.., last] => Some(Asked::Object(*last)),
    }
}

/// An operation issued before the call began isn't durable.
pub fn is_owing(begun: u64, first: Option<OpNo>) -> bool
    ensures { result ≡ clerk.is_owing begun first }
{
    match first {
        Some(op) => op.0 <= begun,
        None => false,
    }
}
