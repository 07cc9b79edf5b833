// A disk over a real file, which keeps the old bytes of what was written since the last sync.
ghost use Rattle.std.specs.Prelude.{◌≡◌, ◌≤◌, length, IfOk};

use crate::disk::{Choice, CrashDisk, Disk, DiskAnswer, DiskLen};
use crate::turns::{Turn, Turns};
use crate::undo::{Undo, torn};
use ec_base::{List, NoMemory};
use std::alloc::{AllocError, AllocFailed, Global};
use std::fs::{File, OpenFile};
use std::io;
use std::os::unix::fs::FileExt;

/// A disk over a file that is open for reading and writing, and that nobody else writes. It tells no content.
///
/// A place at 2^63 or above, or a read of a range that isn't inside the file, is answered `Failed`.
#[derive(Drop)]
pub struct FileDisk<F = File> {
    file: F,
    turns: Turns,
    // The file's length, asked once. It isn't known behind a write that failed.
    len: Option<u64>,
    // The length at the last sync, where there was a write since.
    synced_len: Option<u64>,
    undos: Vec<Undo>,
}

// Why a call on the file wasn't carried out.
#[derive(Clone, Copy, Debug, Drop, PartialEq, Eq)]
enum FileFault {
    Device,
    NoMemory,
}

impl From<io::Error> for FileFault {
    ghost use Rattle.std.specs.Prelude.{◌≡◌};
    ghost use Rattle.ec_disk.specs.declared.file.FileFault.TheVariants as fault;

    ghost from_gives = { λ _ e. e ≡ fault.Device };

    fn from(_: io::Error) -> Self {
        FileFault::Device
    }
}

impl From<AllocError> for FileFault {
    ghost use Rattle.std.specs.Prelude.{◌≡◌};
    ghost use Rattle.ec_disk.specs.declared.file.FileFault.TheVariants as fault;

    ghost from_gives = { λ _ e. e ≡ fault.NoMemory };

    fn from(_: AllocError) -> Self {
        FileFault::NoMemory
    }
}

impl<T: Drop> From<AllocFailed<T>> for FileFault {
    ghost use Rattle.std.specs.Prelude.{◌≡◌};
    ghost use Rattle.ec_disk.specs.declared.file.FileFault.TheVariants as fault;

    ghost from_gives = { λ _ e. e ≡ fault.NoMemory };

    fn from(_: AllocFailed<T>) -> Self {
        FileFault::NoMemory
    }
}

impl<F: FileExt + OpenFile + Drop> FileDisk<F> {
    ghost use Rattle.std.specs.Prelude.{◌≡◌, ◌≤◌, length, None, Some, IfOk, OnErr};
    ghost use Rattle.ec_disk.specs.Disk.{Counts};
    ghost use Rattle.ec_disk.specs.Effects.{Counted};
    ghost use Rattle.ec_disk.specs.Turns.{counts_of};
    ghost use Rattle.ec_disk.specs.declared.disk.DiskAnswer.TheVariants as answer;

    /// Takes the file as it stands: its bytes count as synced.
    pub fn new(alloc: Global, file: F) -> Result<FileDisk<F>, NoMemory>
        ensures { IfOk result (λ disk. counts_of disk.turns ≡ record { calls = 0; faults = 0; stops = 0; armed = None }) }
    {
        let undos = Vec::with_capacity(alloc, 1)?;
        let len = file.metadata().ok().map(|metadata| metadata.len());
        Ok(FileDisk {
            file,
            turns: Turns::new(Vec::new(alloc)),
            len,
            synced_len: None,
            undos,
        })
    }

    // The answer for a call that was carried out or not.
    fn answer(&mut self, done: Result<(), FileFault>) -> DiskAnswer
        ensures counts { Counted (counts_of self.old.turns) (counts_of self.new.turns) (result ≡ answer.Failed) ⊥ }
        ensures armed { self.new.turns.armed ≡ self.old.turns.armed }
        ensures calls { self.new.turns.calls ≡ self.old.turns.calls }
        ensures never_stops { result ≡ answer.Stopped → ⊥ }
    {
        match done {
            Ok(()) => DiskAnswer::Done,
            Err(FileFault::Device) => {
                self.turns.fault();
                DiskAnswer::Failed
            }
            Err(FileFault::NoMemory) => DiskAnswer::NoMemory,
        }
    }

    // The file is asked only where its length isn't known.
    fn file_len(&mut self) -> Result<u64, FileFault>
        ensures turns { self.new.turns ≡ self.old.turns }
    {
        if let Some(len) = self.len {
            return Ok(len);
        }
        let len = self.file.metadata()?.len();
        self.len = Some(len);
        Ok(len)
    }

    fn write(&mut self, at: u64, piece: &[u8]) -> Result<(), FileFault>
        ensures turns { self.new.turns ≡ self.old.turns }
    {
        let Some(end) = at.checked_add(piece.len() as u64) else {
            return Err(FileFault::Device);
        };
        let alloc = *self.undos.allocator();
        let len = self.file_len()?;
        let old = List::of(read_range(alloc, &self.file, len, at, piece.len())?);
        self.undos.push(Undo { at, old })?;
        if self.synced_len.is_none() {
            self.synced_len = Some(len);
        }
        self.len = None;
        if at > len {
            self.file.set_len(at)?;
        }
        self.file.write_all_at(piece, at)?;
        self.len = Some(len.max(end));
        Ok(())
    }

    fn sync_file(&mut self) -> Result<(), FileFault>
        ensures turns { self.new.turns ≡ self.old.turns }
    {
        self.file.sync_data()?;
        self.undos.clear();
        self.synced_len = None;
        Ok(())
    }

    fn cut(&mut self, choice: Choice) -> Result<(), FileFault>
        ensures turns { self.new.turns ≡ self.old.turns }
    {
        let len = self.file_len()?;
        match choice {
            Choice::Old => {
                self.put_back(len, false)?;
                if let Some(synced_len) = self.synced_len {
                    self.file.set_len(synced_len)?;
                    self.len = Some(synced_len);
                }
            }
            Choice::New => {}
            Choice::Torn => self.put_back(len, true)?,
        }
        self.sync_file()
    }

    // Writes the old bytes back, the last first; where torn, those at odd places alone.
    fn put_back(&self, len: u64, is_torn: bool) -> Result<(), FileFault> {
        let alloc = *self.undos.allocator();
        for undo in self.undos.iter().rev() {
            let old = undo.old.as_slice();
            if is_torn {
                let new = read_range(alloc, &self.file, len, undo.at, old.len())?;
                let bytes = torn(alloc, undo.at, &new, old)?;
                write_inside(&self.file, len, undo.at, &bytes)?;
            } else {
                write_inside(&self.file, len, undo.at, old)?;
            }
        }
        Ok(())
    }
}

// How many of `count` bytes from `at` on are inside a file of this length.
fn inside(len: u64, at: u64, count: usize) -> usize
    ensures { result ≤ count }
{
    count.min(len.saturating_sub(at) as usize)
}

// The bytes of a file of this length from `at` on, zeros past the end.
fn read_range<F: FileExt>(
    alloc: Global,
    file: &F,
    len: u64,
    at: u64,
    count: usize,
) -> Result<Vec<u8>, FileFault>
    ensures { IfOk result (λ bytes. length bytes.items ≡ count) }
{
    let mut bytes = Vec::new(alloc);
    bytes.resize(count, 0)?;
    let kept = inside(len, at, count);
    file.read_exact_at(&mut bytes[..kept], at)?;
    Ok(bytes)
}

// Writes what of these bytes is inside a file of this length.
fn write_inside<F: FileExt>(file: &F, len: u64, at: u64, bytes: &[u8]) -> Result<(), FileFault> {
    let kept = inside(len, at, bytes.len());
    file.write_all_at(&bytes[..kept], at)?;
    Ok(())
}

impl<F: FileExt + OpenFile + Drop> Disk for FileDisk<F> {
    ghost use Rattle.std.specs.Prelude.{[]};
    ghost use Rattle.ec_disk.specs.Turns.{counts_of};
    ghost use Rattle.ec_disk.specs.Past.{view_of};

    ghost tells = { ⊥ };

    ghost view = { λ disk. view_of [] };

    ghost counts = { λ disk. counts_of disk.turns };

    ghost does = { λ old call new. Unit {0} };

    ghost given = { λ told disk. absurd told };

    ghost given_synced = { λ told disk. absurd told };

    ghost counts_now = { λ told disk since image earlier left. absurd told };

    ghost only_now = { λ told disk image left. absurd told };

    fn read_at(&mut self, at: u64, into: &mut [u8]) -> DiskAnswer {
        match self.turns.next() {
            Turn::Goes => {
                let done = self.file.read_exact_at(into, at).map_err(FileFault::from);
                self.answer(done)
            }
            Turn::Fails => DiskAnswer::Failed,
            Turn::Stops => DiskAnswer::Stopped,
        }
    }

    fn write_at(&mut self, at: u64, piece: &[u8]) -> DiskAnswer {
        let turn = self.turns.next();
        if turn == Turn::Fails {
            return DiskAnswer::Failed;
        }
        let done = self.write(at, piece);
        match self.answer(done) {
            DiskAnswer::Done if turn == Turn::Stops => DiskAnswer::Stopped,
            answer => answer,
        }
    }

    fn sync(&mut self) -> DiskAnswer {
        match self.turns.next() {
            Turn::Goes => {
                let done = self.sync_file();
                self.answer(done)
            }
            Turn::Fails => DiskAnswer::Failed,
            Turn::Stops => DiskAnswer::Stopped,
        }
    }

    fn len(&mut self) -> DiskLen {
        match self.turns.next_len() {
            Turn::Goes => match self.file_len() {
                Ok(len) => DiskLen::Len(len),
                Err(_) => {
                    self.turns.fault();
                    DiskLen::Failed
                }
            },
            Turn::Fails => DiskLen::Failed,
            Turn::Stops => DiskLen::Stopped,
        }
    }
}

impl<F: FileExt + OpenFile + Drop> CrashDisk for FileDisk<F> {
    ghost tries = { λ old trial new. Unit {0} };

    fn arm(&mut self, calls: u64) {
        self.turns.arm(calls);
    }

    fn disarm(&mut self) {
        self.turns.disarm();
    }

    fn power_cut(&mut self, choice: Choice) -> DiskAnswer {
        let done = self.cut(choice);
        let answer = self.answer(done);
        if answer == DiskAnswer::Done {
            self.turns.disarm();
        }
        answer
    }
}
