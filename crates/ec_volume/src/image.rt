// What stands under an id.
ghost use Rattle.std.specs.Prelude.{◌≡◌, ◌==◌, ◌&&◌, ℕ, Bool, List, [], length, Option};
ghost use Rattle.ec_volume.specs.Entries.{entry};
ghost use Rattle.ec_volume.specs.Image.{is_gone, is_file, is_dir, is_kind, entries_of, bytes_of, is_id, lacks, gives, is_bare, yields, new_object};

use crate::entries::Entries;
use crate::limits::{DIR_MODE, FILE_MODE};
use ec_base::{Duplicate, List, Name, NoMemory, ObjId, duplicate_bytes};
use std::alloc::Global;

/// The kind of an object.
#[derive(Clone, Copy, Debug, Drop, PartialEq, Eq)]
pub enum Kind {
    File,
    Dir,
}

/// What stands under an id. A mode is at most `MAX_MODE`, a file has at most `MAX_FILE_BYTES` bytes
/// and a directory at most `MAX_ENTRIES` entries.
#[derive(Drop)]
pub enum Image {
    Gone,
    File {
        mode: u16,
        stamp: u64,
        owner: u32,
        bytes: List<u8>,
    },
    Dir {
        mode: u16,
        stamp: u64,
        owner: u32,
        entries: Entries,
    },
}

impl Image {
    // An empty object with the mode that new objects have.
    pub(crate) fn new_object(alloc: Global, kind: Kind) -> Image
        ensures { result ≡ new_object kind }
    {
        match kind {
            Kind::File => Image::File {
                mode: FILE_MODE,
                stamp: 0,
                owner: 0,
                bytes: List::of(Vec::new(alloc)),
            },
            Kind::Dir => Image::Dir {
                mode: DIR_MODE,
                stamp: 0,
                owner: 0,
                entries: Entries::new(alloc),
            },
        }
    }

    pub(crate) fn is_gone(&self) -> bool
        ensures { result ≡ is_gone self.now }
    {
        matches!(self, Image::Gone)
    }

    pub(crate) fn is_file(&self) -> bool
        ensures { result ≡ is_file self.now }
    {
        matches!(self, Image::File { .. })
    }

    pub(crate) fn is_dir(&self) -> bool
        ensures { result ≡ is_dir self.now }
    {
        matches!(self, Image::Dir { .. })
    }

    pub(crate) fn is_kind(&self, kind: Kind) -> bool
        ensures { result ≡ is_kind kind self.now }
    {
        match kind {
            Kind::File => self.is_file(),
            Kind::Dir => self.is_dir(),
        }
    }

    // The id that the name stands for in a directory.
    pub(crate) fn entry(&self, name: &Name) -> Option<ObjId>
        ensures { result ≡ entry (entries_of self.now) name.now }
    {
        match self {
            Image::Dir { entries, .. } => entries.get(name),
            Image::File { .. } | Image::Gone => None,
        }
    }

    // How many entries a directory has.
    pub(crate) fn entry_count(&self) -> usize
        ensures { result ≡ length (entries_of self.now) }
    {
        match self {
            Image::Dir { entries, .. } => entries.len(),
            Image::File { .. } | Image::Gone => 0,
        }
    }

    // How many bytes a file has.
    pub(crate) fn byte_count(&self) -> usize
        ensures { result ≡ length (bytes_of self.now) }
    {
        match self {
            Image::File { bytes, .. } => bytes.as_slice().len(),
            Image::Dir { .. } | Image::Gone => 0,
        }
    }

    // A directory without this name.
    pub(crate) fn lacks(&self, name: &Name) -> bool
        ensures { result ≡ lacks name.now self.now }
    {
        self.is_dir() && self.entry(name).is_none()
    }

    // A directory whose entry of this name is the id.
    pub(crate) fn gives(&self, name: &Name, id: ObjId) -> bool
        ensures { result ≡ gives name.now id self.now }
    {
        self.is_dir() && is_id(id, self.entry(name))
    }

    // Of the kind, and empty where a directory.
    pub(crate) fn is_bare(&self, kind: Kind) -> bool
        ensures { result ≡ is_bare kind self.now }
    {
        self.is_kind(kind) && self.entry_count() == 0
    }

    // A directory in which the name is the victim's, or no entry where there is none.
    pub(crate) fn yields(&self, name: &Name, victim: Option<ObjId>) -> bool
        ensures { result ≡ yields name.now victim self.now }
    {
        match victim {
            Some(id) => self.gives(name, id),
            None => self.lacks(name),
        }
    }
}

pub(crate) fn is_id(id: ObjId, other: Option<ObjId>) -> bool
    ensures { result ≡ is_id id other }
{
    match other {
        Some(other) => id == other,
        None => false,
    }
}

impl Duplicate for Kind {
    fn duplicate(&self) -> Result<Self, NoMemory> {
        Ok(*self)
    }
}

impl Duplicate for Image {
    fn duplicate(&self) -> Result<Self, NoMemory> {
        match self {
            Image::Gone => Ok(Image::Gone),
            Image::File {
                mode,
                stamp,
                owner,
                bytes,
            } => Ok(Image::File {
                mode: *mode,
                stamp: *stamp,
                owner: *owner,
                bytes: duplicate_bytes(bytes)?,
            }),
            Image::Dir {
                mode,
                stamp,
                owner,
                entries,
            } => Ok(Image::Dir {
                mode: *mode,
                stamp: *stamp,
                owner: *owner,
                entries: entries.duplicate()?,
            }),
        }
    }
}
