// How a program ends.
ghost use Rattle.std.specs.Prelude.{◌≡◌};
ghost use Rattle.ec_drill.specs.ExitCodes.{code};

/// How the program ends.
#[derive(Clone, Copy, Debug, Drop, PartialEq, Eq)]
pub enum Status {
    /// The source was read to its end, and the output is whole.
    Done,
    /// The words are none of the program's.
    Usage,
    /// A line of the script is outside the grammar, or names an operation or a message that there
    /// isn't; the lines before it were carried out.
    BadLine,
    /// The source failed.
    SourceFault,
    /// The sink failed.
    SinkFault,
    /// The disk failed.
    DiskFault,
    /// The disk stands for no state.
    BadDisk,
    NoMemory,
    /// The script has too many bytes or lines, or left too many messages pending.
    Limit,
    /// A counter would pass its limit.
    Spent,
}

impl Status {
    /// The number that the process answers.
    pub fn code(self) -> u8
        ensures { result ≡ code self }
    {
        match self {
            Status::Done => 0,
            Status::Usage => 2,
            Status::BadLine => 3,
            Status::SourceFault => 4,
            Status::SinkFault => 5,
            Status::DiskFault => 6,
            Status::BadDisk => 7,
            Status::NoMemory => 9,
            Status::Limit => 11,
            Status::Spent => 15,
        }
    }
}
