// How the program ends.
ghost use Rattle.std.specs.Prelude.{◌≡◌};
ghost use Rattle.ec_echo.specs.Statuses.{code, of_drill, of_leases, of_mount};

/// How the program ends.
#[derive(Clone, Copy, Debug, Drop, PartialEq, Eq)]
pub enum Status {
    /// The source was read to its end, and the output is whole.
    Done,
    /// The words are none of the program's.
    Usage,
    /// A line is outside the grammar, or names an operation or a message that there isn't.
    BadLine,
    /// The source failed.
    SourceFault,
    /// The sink failed.
    SinkFault,
    /// The disk failed.
    DiskFault,
    /// The disk stands for no state.
    BadDisk,
    /// The net failed.
    NetFault,
    NoMemory,
    /// A thread couldn't be started.
    StartFault,
    /// The source has too many bytes or lines, or a script left too many messages pending.
    Limit,
    /// The transcript isn't legal.
    Illegal,
    /// The server knows a greater age of the clerk.
    OldBoot,
    /// The server sent what is no message.
    PeerFault,
    /// A counter would pass its limit.
    Spent,
}

impl Status {
    /// The number that the process answers.
    pub fn code(self) -> u8
        ensures { result ≡ code self }
    {
        match self {
            Status::Done => 0,
            Status::Usage => 2,
            Status::BadLine => 3,
            Status::SourceFault => 4,
            Status::SinkFault => 5,
            Status::DiskFault => 6,
            Status::BadDisk => 7,
            Status::NetFault => 8,
            Status::NoMemory => 9,
            Status::StartFault => 10,
            Status::Limit => 11,
            Status::Illegal => 12,
            Status::OldBoot => 13,
            Status::PeerFault => 14,
            Status::Spent => 15,
        }
    }

    /// The program ends as its drill does.
    pub(crate) fn of_drill(status: ec_drill::Status) -> Status
        ensures { result ≡ of_drill status }
    {
        match status {
            ec_drill::Status::Done => Status::Done,
            ec_drill::Status::Usage => Status::Usage,
            ec_drill::Status::BadLine => Status::BadLine,
            ec_drill::Status::SourceFault => Status::SourceFault,
            ec_drill::Status::SinkFault => Status::SinkFault,
            ec_drill::Status::DiskFault => Status::DiskFault,
            ec_drill::Status::BadDisk => Status::BadDisk,
            ec_drill::Status::NoMemory => Status::NoMemory,
            ec_drill::Status::Limit => Status::Limit,
            ec_drill::Status::Spent => Status::Spent,
        }
    }

    /// The program ends as its drill with leases does.
    pub(crate) fn of_leases(status: ec_lease::drill::Status) -> Status
        ensures { result ≡ of_leases status }
    {
        match status {
            ec_lease::drill::Status::Done => Status::Done,
            ec_lease::drill::Status::BadLine => Status::BadLine,
            ec_lease::drill::Status::SourceFault => Status::SourceFault,
            ec_lease::drill::Status::SinkFault => Status::SinkFault,
            ec_lease::drill::Status::DiskFault => Status::DiskFault,
            ec_lease::drill::Status::BadDisk => Status::BadDisk,
            ec_lease::drill::Status::NoMemory => Status::NoMemory,
            ec_lease::drill::Status::Limit => Status::Limit,
            ec_lease::drill::Status::Spent => Status::Spent,
        }
    }

    /// The program ends as its mount does.
    pub(crate) fn of_mount(status: ec_mount::Status) -> Status
        ensures { result ≡ of_mount status }
    {
        match status {
            ec_mount::Status::Done => Status::Done,
            ec_mount::Status::BadLine => Status::BadLine,
            ec_mount::Status::SourceFault => Status::SourceFault,
            ec_mount::Status::SinkFault => Status::SinkFault,
            ec_mount::Status::NetFault => Status::NetFault,
            ec_mount::Status::NoMemory => Status::NoMemory,
            ec_mount::Status::StartFault => Status::StartFault,
            ec_mount::Status::Limit => Status::Limit,
            ec_mount::Status::OldBoot => Status::OldBoot,
            ec_mount::Status::PeerFault => Status::PeerFault,
            ec_mount::Status::Spent => Status::Spent,
        }
    }
}
