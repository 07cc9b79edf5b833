// What calls come to.
ghost use Rattle.std.specs.Prelude.{◌≡◌};
ghost use Rattle.ec_plain.specs.Plain.{answers, refuses, issues};

use crate::call::{Outcome, Refusal, Reply};
use ec_base::{List, ObjId};
use ec_volume::Update;

pub(crate) fn answers(reply: Reply, read: Vec<ObjId>) -> Outcome
    ensures { result ≡ answers reply read.items }
{
    Outcome {
        reply,
        update: None,
        touched: List::of(read),
    }
}

pub(crate) fn refuses(refusal: Refusal, read: Vec<ObjId>) -> Outcome
    ensures { result ≡ refuses refusal read.items }
{
    answers(Reply::Refused(refusal), read)
}

pub(crate) fn issues(update: Update, read: Vec<ObjId>) -> Outcome
    ensures { result ≡ issues update read.items }
{
    Outcome {
        reply: Reply::Ok,
        update: Some(update),
        touched: List::of(read),
    }
}
