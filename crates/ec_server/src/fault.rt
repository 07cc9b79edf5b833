use ec_base::{Counter, NoMemory};
use thiserror::Error;

/// Why a step wasn't done.
///
/// After a counter was spent the server is as before. After any other fault it answers `NoMemory` until it's started again.
#[derive(Clone, Copy, Debug, Drop, PartialEq, Eq, Error)]
pub enum ServerFault {
    #[error("the disk failed")]
    DiskFailed,
    #[error("the disk stopped")]
    DiskStopped,
    /// The counter would pass its limit.
    #[error("{0:?} is spent")]
    Spent(Counter),
    #[error("out of memory")]
    NoMemory,
}

impl From<NoMemory> for ServerFault {
    ghost use Rattle.std.specs.Prelude.{◌≡◌};
    ghost use Rattle.ec_server.specs.declared.fault.ServerFault.TheVariants as fault;

    ghost from_gives = { λ _ e. e ≡ fault.NoMemory };

    fn from(_: NoMemory) -> Self {
        ServerFault::NoMemory
    }
}
