// How a server ends.
ghost use Rattle.std.specs.Prelude.{◌≡◌};
ghost use Rattle.ec_serve.specs.Endings.{ending_of, of_tended, unstarted, unopened};

use ec_base::Counter;
use ec_server::ServerFault;
use ec_servernode::Halt;
use ec_store::StoreFault;

/// How a server ends.
#[derive(Clone, Copy, Debug, Drop, PartialEq, Eq)]
pub enum Ending {
    /// All links have come and gone.
    Done,
    DiskFailed,
    /// The disk stands for no state; this is its first bad place.
    BadDisk(u64),
    NetFailed,
    NoMemory,
    /// A thread couldn't be started.
    NotStarted,
    /// This counter would pass its limit.
    Spent(Counter),
}

/// How the links of a server ended.
#[derive(Clone, Copy, Drop)]
pub enum Tended {
    /// All have come and gone.
    Done,
    NetFailed,
    NotStarted,
    /// Memory was wanting, or the server was down.
    Cut,
}

/// Why a disk isn't opened. One that isn't armed doesn't stop.
pub fn unopened(fault: StoreFault) -> Ending
    ensures { result ≡ unopened fault }
{
    match fault {
        StoreFault::BadDisk(place) => Ending::BadDisk(place),
        StoreFault::DiskFailed => Ending::DiskFailed,
        StoreFault::DiskStopped => Ending::NoMemory,
        StoreFault::Refused(_) => Ending::NoMemory,
        StoreFault::NoMemory => Ending::NoMemory,
    }
}

/// Why a server isn't started.
pub fn unstarted(fault: ServerFault) -> Ending
    ensures { result ≡ unstarted fault }
{
    match fault {
        ServerFault::DiskFailed => Ending::DiskFailed,
        ServerFault::DiskStopped => Ending::NoMemory,
        ServerFault::Spent(counter) => Ending::Spent(counter),
        ServerFault::NoMemory => Ending::NoMemory,
    }
}

fn of_tended(tended: Tended) -> Ending
    ensures { result ≡ of_tended tended }
{
    match tended {
        Tended::Done => Ending::Done,
        Tended::NetFailed => Ending::NetFailed,
        Tended::NotStarted => Ending::NotStarted,
        Tended::Cut => Ending::NoMemory,
    }
}

/// How a server ends, by why it's down and how its links ended. Where it can't be handed back, memory was wanting.
pub fn ending_of(halt: Option<Halt>, is_back: bool, tended: Tended) -> Ending
    ensures { result ≡ ending_of halt is_back tended }
{
    match halt {
        Some(Halt::DiskFailed) => Ending::DiskFailed,
        Some(Halt::DiskStopped) => Ending::NoMemory,
        Some(Halt::Spent(counter)) => Ending::Spent(counter),
        None => {
            if is_back {
                of_tended(tended)
            } else {
                Ending::NoMemory
            }
        }
    }
}
