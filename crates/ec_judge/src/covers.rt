// What an answered `fsync` or `sync` covers.
ghost use Rattle.std.specs.Prelude.{◌≡◌, []};
ghost use Rattle.ec_plain.specs.declared.call.Call.TheVariants as call;
ghost use Rattle.ec_plain.specs.declared.call.Reply.TheVariants as reply;
ghost use Rattle.ec_history.specs.declared.entry.Answer.TheVariants as answer;
ghost use Rattle.ec_judge.specs.Asks.{asked_by_call};

use ec_base::ObjId;
use ec_history::Answer;
use ec_pending::Asked;
use ec_plain::{Call, Reply};

/// What an answered call asks, that began at a place and touched these objects.
#[inline(never)]
pub fn wanted(begun: u32, call: &Call, touched: &[ObjId], answer: &Answer) -> Asked
    ensures { result ≡ asked_by_call touched.now begun call.now answer.now }
{
    match (call, answer) {
        (Call::Fsync(_), Answer::Reply(Reply::Ok)) => wanted_last(begun, touched),
        (Call::Sync, Answer::Reply(Reply::Ok)) => Asked::All(begun),
        _ => Asked::Nothing,
    }
}

// What is asked of the last one of the objects.
fn wanted_last(begun: u32, touched: &[ObjId]) -> Asked
    ensures { result ≡ asked_by_call touched.now begun (call.Fsync []) (answer.Reply reply.Ok) }
{
    if touched.is_empty() {
        return Asked::Nothing;
    }
    Asked::On(touched[touched.len() - 1], begun)
}
