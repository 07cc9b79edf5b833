// How a mount ends.
ghost use Rattle.std.specs.Prelude.{◌≡◌};
ghost use Rattle.ec_mount.specs.ExitCodes.{code};

/// How a mount ends.
#[derive(Clone, Copy, Debug, Drop, PartialEq, Eq)]
pub enum Status {
    /// The source was read to its end, and the output is whole.
    Done,
    /// A line is no line of a lane.
    BadLine,
    /// The source failed.
    SourceFault,
    /// The sink failed.
    SinkFault,
    /// The net or the link failed, or the server closed the link.
    NetFault,
    NoMemory,
    /// No thread could be started.
    StartFault,
    /// The source has too many bytes or lines.
    Limit,
    /// The server knows a greater age of this clerk.
    OldBoot,
    /// The server sent what is no message.
    PeerFault,
    /// A counter would pass its limit.
    Spent,
}

impl Status {
    /// The number that the process answers.
    pub fn code(self) -> u8
        ensures { result ≡ code self }
    {
        match self {
            Status::Done => 0,
            Status::BadLine => 3,
            Status::SourceFault => 4,
            Status::SinkFault => 5,
            Status::NetFault => 8,
            Status::NoMemory => 9,
            Status::StartFault => 10,
            Status::Limit => 11,
            Status::OldBoot => 13,
            Status::PeerFault => 14,
            Status::Spent => 15,
        }
    }
}
