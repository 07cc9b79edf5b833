// The program's disk, or the two of a mirror.
ghost use Rattle.std.specs.Prelude.{◌≡◌, None, IfOk, IfSome};
ghost use Rattle.ec_disk.specs.Turns.{counts_of};

use ec_disk::FileDisk;
use ec_echo::Status;
use ec_journal::layout::Head;
use std::fs::{File, Metadata, OpenFile, TryLockError};
use std::io;
use std::os::unix::fs::FileExt;

/// The file that has the disk, in the current folder.
const DISK_FILE: &str = "echofs.disk";

/// Where this file is there too, both have the disk.
const SECOND_FILE: &str = "echofs.disk2";

/// The bytes before the content of a disk of a mirror.
const MIRROR_HEADER: u64 = 4_096;

/// Why there is no disk: the file's name, and what the system says.
#[derive(Debug, Drop)]
pub enum NoDisk {
    Unopened(&'static str, io::Error),
    Unlocked(&'static str, TryLockError),
    NoMemory,
}

impl NoDisk {
    /// How the program ends.
    pub fn status(&self) -> Status {
        match self {
            NoDisk::Unopened(..) | NoDisk::Unlocked(..) => Status::DiskFault,
            NoDisk::NoMemory => Status::NoMemory,
        }
    }
}

/// The disks over the program's files.
#[derive(Drop)]
pub struct Disks {
    pub first: FileDisk<DiskFile>,
    pub second: Option<FileDisk<DiskFile>>,
}

/// Opens the disks: the first one's file is made with length 0 where it isn't there, and there is no second one without its file. No other
/// program has them until this one ends. Where this number of objects was asked for, and the disk has another one, that is told. There are
/// none where a file can't be opened, where another program has it or no lock is to be had, and for want of memory.
pub fn open_disks(rt: HostRuntime, asked: Option<u32>) -> Result<Disks, NoDisk>
    ensures first { IfOk result (λ disks. (counts_of disks.first.turns).armed ≡ None) }
    ensures second { IfOk result (λ disks. IfSome disks.second (λ disk. (counts_of disk.turns).armed ≡ None)) }
{
    let first = match open(rt, DISK_FILE, true)? {
        Some(file) => file,
        None => return Err(NoDisk::NoMemory),
    };
    let second = open(rt, SECOND_FILE, false)?;
    let content = if second.is_some() { MIRROR_HEADER } else { 0 };
    tell_head(rt, &first, content, asked);
    let first = disk_over(rt, first, DISK_FILE)?;
    let second = match second {
        Some(file) => Some(disk_over(rt, file, SECOND_FILE)?),
        None => None,
    };
    Ok(Disks { first, second })
}

// Opens and locks a file; none where it isn't there and isn't to be made.
fn open(rt: HostRuntime, name: &'static str, is_made: bool) -> Result<Option<File>, NoDisk> {
    let mut options = File::options();
    options.read(true).write(true).create(is_made);
    let file = match options.open(&rt, name) {
        Ok(file) => file,
        Err(error) if !is_made && error.kind() == io::ErrorKind::NotFound => return Ok(None),
        Err(error) => return Err(NoDisk::Unopened(name, error)),
    };
    match file.try_lock() {
        Ok(()) => Ok(Some(file)),
        Err(error) => Err(NoDisk::Unlocked(name, error)),
    }
}

fn disk_over(rt: HostRuntime, file: File, name: &'static str) -> Result<FileDisk<DiskFile>, NoDisk>
    ensures { IfOk result (λ disk. (counts_of disk.turns).armed ≡ None) }
{
    match FileDisk::new(rt.alloc(), DiskFile { rt, file, name }) {
        Ok(disk) => Ok(disk),
        Err(_) => Err(NoDisk::NoMemory),
    }
}

// Tells what the first bytes of a disk's content say against what was asked for, or that its first layout broke off, which writes them last.
fn tell_head(rt: HostRuntime, file: &File, content: u64, asked: Option<u32>) {
    let mut bytes = [0; 16];
    if file.read_exact_at(&mut bytes, content).is_err() {
        return;
    }
    let head = Head::read(&bytes);
    if bytes[..8] == [0; 8] {
        let _ = eprintln!(rt;
            "echofs: {DISK_FILE} isn't laid out to its end, as where the file system was full: if it was a new disk, nothing is on it, and it can be removed"
        );
    }
    match asked {
        Some(asked) if head.has_first_word && asked != head.max_objects => {
            let most = head.max_objects;
            let _ = eprintln!(rt;
                "echofs: {DISK_FILE} stays a disk for {most} objects: the number {asked} is for a new one"
            );
        }
        _ => {}
    }
}

/// Says why there is no disk.
pub fn tell_no_disk(rt: HostRuntime, why: &NoDisk) {
    let _ = match why {
        NoDisk::Unopened(name, error) => {
            eprintln!(rt; "echofs: {name} can't be opened: {error}")
        }
        NoDisk::Unlocked(name, TryLockError::WouldBlock) => {
            eprintln!(rt; "echofs: {name} is in use by another program")
        }
        NoDisk::Unlocked(name, TryLockError::Error(error)) => {
            eprintln!(rt; "echofs: {name} can't be locked: {error}")
        }
        NoDisk::NoMemory => eprintln!(rt; "echofs: out of memory"),
    };
}

/// A disk's file. What the system refuses is told on standard error, and answered as it came.
#[derive(Drop)]
pub struct DiskFile {
    rt: HostRuntime,
    file: File,
    name: &'static str,
}

impl DiskFile {
    ghost use Rattle.std.specs.Prelude.{◌≡◌};

    fn told<T>(&self, what: &str, answer: io::Result<T>) -> io::Result<T>
        ensures { result ≡ answer }
    {
        if let Err(error) = &answer {
            if error.kind() != io::ErrorKind::Interrupted {
                let name = self.name;
                let _ = eprintln!(self.rt; "echofs: {name} can't be {what}: {error}");
            }
        }
        answer
    }
}

impl FileExt for DiskFile {
    fn read_at(&self, buf: &mut [u8], offset: u64) -> io::Result<usize> {
        let answer = self.file.read_at(buf, offset);
        self.told("read", answer)
    }

    fn write_at(&self, buf: &[u8], offset: u64) -> io::Result<usize> {
        self.told("written", self.file.write_at(buf, offset))
    }
}

impl OpenFile for DiskFile {
    fn metadata(&self) -> io::Result<Metadata> {
        self.told("measured", self.file.metadata())
    }

    fn set_len(&self, size: u64) -> io::Result<()> {
        self.told("lengthened", self.file.set_len(size))
    }

    fn sync_all(&self) -> io::Result<()> {
        self.told("synced", self.file.sync_all())
    }

    fn sync_data(&self) -> io::Result<()> {
        self.told("synced", self.file.sync_data())
    }
}
