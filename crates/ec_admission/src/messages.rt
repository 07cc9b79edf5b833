// What a message says of its session.
ghost use Rattle.std.specs.Prelude.{◌≡◌};
ghost use Rattle.ec_admission.specs.Parts.{part_of};

use ec_base::SessionNo;
use ec_wire::Msg;

/// What a message for a session says of it.
#[derive(Clone, Copy, Drop)]
pub struct Part {
    pub session: SessionNo,
    pub at_epoch: u64,
    pub needs_no_claim: bool,
}

/// The session and the epoch of a message that is for a session, and whether it needs no claim.
pub fn session_part(msg: &Msg) -> Option<Part>
    ensures { result ≡ part_of msg.now }
{
    let (session, at_epoch, needs_no_claim) = match msg {
        Msg::Want(session, epoch, ..)
        | Msg::Back(session, epoch, ..)
        | Msg::Flush(session, epoch, ..)
        | Msg::Room(session, epoch, ..) => (*session, *epoch, false),
        Msg::Claim(session, epoch, ..) | Msg::Bye(session, epoch) => (*session, *epoch, true),
        _ => return None,
    };
    Some(Part {
        session,
        at_epoch,
        needs_no_claim,
    })
}
