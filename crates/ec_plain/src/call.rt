// Calls and their outcomes.
use ec_base::{Duplicate, List, Name, NoMemory, ObjId, Path, duplicate_bytes};
use ec_volume::{Kind, Update};

/// A read asks for at most this many bytes.
pub const MAX_READ_BYTES: u32 = 4_096;

/// A call. A write has from 1 to `MAX_WRITE_BYTES` bytes, a read asks for at most `MAX_READ_BYTES`,
/// a mode is at most `MAX_MODE` and a `Forder` has from 1 to `MAX_ORDERED` paths.
#[derive(Drop)]
pub enum Call {
    Mkdir(Path),
    Create(Path),
    /// The bytes to write, and their place.
    Write(Path, u32, List<u8>),
    SetLen(Path, u32),
    /// The place, and how many bytes at most.
    Read(Path, u32, u32),
    Chmod(Path, u16),
    Touch(Path, u64),
    Stat(Path),
    List(Path),
    Remove(Path),
    Rmdir(Path),
    Rename(Path, Path),
    Fsync(Path),
    /// Orders what was issued on these objects before what is issued on them later.
    Forder(List<Path>),
    Sync,
    Chown(Path, u32),
}

/// Why a call was refused. A number is the place of a name in the path, from 1.
#[derive(Clone, Copy, Debug, Drop, PartialEq, Eq)]
pub enum Refusal {
    NotFound(u8),
    NotDir(u8),
    IsDir,
    Exists,
    NotEmpty,
    TooLong,
    DirFull,
    Root,
    /// A directory was to move into itself or below itself.
    Loop,
}

/// What a call replies.
#[derive(Drop)]
pub enum Reply {
    Ok,
    Data(List<u8>),
    /// The size is in bytes or entries.
    Stat {
        kind: Kind,
        mode: u16,
        stamp: u64,
        owner: u32,
        size: u32,
    },
    Names(List<Name>),
    Refused(Refusal),
}

/// What a call comes to: its reply, its update, if any, and the objects that it touched.
#[derive(Drop)]
pub struct Outcome {
    pub reply: Reply,
    pub update: Option<Update>,
    pub touched: List<ObjId>,
}

impl Duplicate for Call {
    fn duplicate(&self) -> Result<Self, NoMemory> {
        Ok(match self {
            Call::Mkdir(path) => Call::Mkdir(path.duplicate()?),
            Call::Create(path) => Call::Create(path.duplicate()?),
            Call::Write(path, at, bytes) => {
                Call::Write(path.duplicate()?, *at, duplicate_bytes(bytes)?)
            }
            Call::SetLen(path, len) => Call::SetLen(path.duplicate()?, *len),
            Call::Read(path, at, count) => Call::Read(path.duplicate()?, *at, *count),
            Call::Chmod(path, mode) => Call::Chmod(path.duplicate()?, *mode),
            Call::Touch(path, stamp) => Call::Touch(path.duplicate()?, *stamp),
            Call::Stat(path) => Call::Stat(path.duplicate()?),
            Call::List(path) => Call::List(path.duplicate()?),
            Call::Remove(path) => Call::Remove(path.duplicate()?),
            Call::Rmdir(path) => Call::Rmdir(path.duplicate()?),
            Call::Rename(path, to) => Call::Rename(path.duplicate()?, to.duplicate()?),
            Call::Fsync(path) => Call::Fsync(path.duplicate()?),
            Call::Forder(paths) => Call::Forder(paths.duplicate()?),
            Call::Sync => Call::Sync,
            Call::Chown(path, owner) => Call::Chown(path.duplicate()?, *owner),
        })
    }
}

impl Duplicate for Reply {
    fn duplicate(&self) -> Result<Self, NoMemory> {
        Ok(match self {
            Reply::Ok => Reply::Ok,
            Reply::Data(bytes) => Reply::Data(duplicate_bytes(bytes)?),
            Reply::Stat {
                kind,
                mode,
                stamp,
                owner,
                size,
            } => Reply::Stat {
                kind: *kind,
                mode: *mode,
                stamp: *stamp,
                owner: *owner,
                size: *size,
            },
            Reply::Names(names) => Reply::Names(names.duplicate()?),
            Reply::Refused(refusal) => Reply::Refused(*refusal),
        })
    }
}
