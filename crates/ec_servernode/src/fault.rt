// Why a turn with a link gives nothing.
ghost use Rattle.std.specs.Prelude.{◌≡◌};
ghost use Rattle.ec_servernode.specs.TurnSteps.{fault_of};

use crate::step::Halt;
use ec_base::Counter;
use ec_wire::WireFault;
use thiserror::Error;

/// Why a turn with a link gives nothing.
#[derive(Clone, Copy, Debug, Drop, Error)]
pub enum ServeFault {
    /// The link failed.
    #[error("the link failed")]
    Net,
    /// The link gave a body that is no message.
    #[error("no message: {0:?}")]
    Peer(WireFault),
    /// The link gave a length above the limit.
    #[error("a body of {0} bytes")]
    Long(u32),
    #[error("the disk failed")]
    DiskFailed,
    #[error("the disk stopped")]
    DiskStopped,
    #[error("{0:?} is spent")]
    Spent(Counter),
    /// An earlier turn met a fault of the disk or a spent counter.
    #[error("the server is down")]
    Down,
    #[error("out of memory")]
    NoMemory,
}

/// The fault of the turn in which the server halts.
pub fn halted(halt: Halt) -> ServeFault
    ensures { result ≡ fault_of halt }
{
    match halt {
        Halt::DiskFailed => ServeFault::DiskFailed,
        Halt::DiskStopped => ServeFault::DiskStopped,
        Halt::Spent(counter) => ServeFault::Spent(counter),
    }
}
