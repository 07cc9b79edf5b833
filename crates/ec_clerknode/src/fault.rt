// Why a call on the shared clerk gives no answer.
ghost use Rattle.std.specs.Prelude.{◌≡◌};
ghost use Rattle.ec_clerknode.specs.declared.fault.NodeFault.TheVariants as fault;

use ec_base::{Age, Counter, NoMemory};
use ec_wire::WireFault;
use std::alloc::{AllocError, AllocFailed};
use thiserror::Error;

/// Why a call on the shared clerk gives no answer.
#[derive(Clone, Copy, Debug, Drop, PartialEq, Eq, Error)]
pub enum NodeFault {
    /// The link failed, or its other end is gone.
    #[error("the link failed")]
    Net,
    /// The link gave a body that is no message.
    #[error("no message: {0:?}")]
    Peer(WireFault),
    /// The link gave a length above the limit.
    #[error("a body of {0} bytes")]
    Long(u32),
    /// The server knows a greater age of this clerk.
    #[error("the server knows {0:?}")]
    OldBoot(Age),
    #[error("{0:?} is spent")]
    Spent(Counter),
    #[error("out of memory")]
    NoMemory,
}

impl From<NoMemory> for NodeFault {
    ghost from_gives = { λ _ e. e ≡ fault.NoMemory };

    fn from(_: NoMemory) -> Self {
        NodeFault::NoMemory
    }
}

impl From<AllocError> for NodeFault {
    ghost from_gives = { λ _ e. e ≡ fault.NoMemory };

    fn from(_: AllocError) -> Self {
        NodeFault::NoMemory
    }
}

impl<T: Drop> From<AllocFailed<T>> for NodeFault {
    ghost from_gives = { λ _ e. e ≡ fault.NoMemory };

    fn from(_: AllocFailed<T>) -> Self {
        NodeFault::NoMemory
    }
}
