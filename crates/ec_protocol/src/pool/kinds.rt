// The kind of a message, and whom it is for.
ghost use Rattle.std.specs.Prelude.{◌≡◌};
ghost use Rattle.ec_wire.specs.Messages as messages;
ghost use Rattle.ec_protocol.specs.World as machine;

use crate::Sent;
use ec_wire::{Msg, MsgKind};

// Kinds of messages for the server have bytes below this one, those for clerks above.
const MIDDLE_BYTE: u8 = 64;

/// The kind of a message.
pub fn kind_of(msg: &Msg) -> MsgKind
    ensures { result ≡ messages.kind msg.now }
{
    match msg {
        Msg::Hello(..) => MsgKind::Hello,
        Msg::Want(..) => MsgKind::Want,
        Msg::Back(..) => MsgKind::Back,
        Msg::Flush(..) => MsgKind::Flush,
        Msg::Room(..) => MsgKind::Room,
        Msg::Claim(..) => MsgKind::Claim,
        Msg::Bye(..) => MsgKind::Bye,
        Msg::Opened(..) => MsgKind::Opened,
        Msg::Grant(..) => MsgKind::Grant,
        Msg::Recall(..) => MsgKind::Recall,
        Msg::Kept(..) => MsgKind::Kept,
        Msg::Ids(..) => MsgKind::Ids,
        Msg::NoRoom(..) => MsgKind::NoRoom,
        Msg::Ended(..) => MsgKind::Ended,
        Msg::Restarted(..) => MsgKind::Restarted,
        Msg::OldBoot(..) => MsgKind::OldBoot,
    }
}

/// Whether the message is for the server.
pub fn is_for_server(sent: &Sent) -> bool
    ensures { result ≡ machine.is_for_server sent.now }
{
    kind_byte(kind_of(&sent.msg)) < MIDDLE_BYTE
}

pub(crate) fn is_same_kind(kind: MsgKind, other: MsgKind) -> bool
    ensures { result ≡ messages.same_kind kind other }
{
    kind_byte(kind) == kind_byte(other)
}

fn kind_byte(kind: MsgKind) -> u8
    ensures { result ≡ messages.kind_byte kind }
{
    match kind {
        MsgKind::Want => 2,
        MsgKind::Back => 3,
        MsgKind::Flush => 4,
        MsgKind::Room => 5,
        MsgKind::Claim => 6,
        MsgKind::Bye => 7,
        MsgKind::Hello => 8,
        MsgKind::Opened => 65,
        MsgKind::Grant => 66,
        MsgKind::Recall => 67,
        MsgKind::Kept => 68,
        MsgKind::Ids => 69,
        MsgKind::NoRoom => 70,
        MsgKind::Ended => 71,
        MsgKind::Restarted => 72,
        MsgKind::OldBoot => 73,
    }
}
