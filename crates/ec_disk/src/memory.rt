// A disk in memory, which keeps the list of its writes, syncs and power cuts.
ghost use Rattle.std.specs.Prelude.{◌≡◌, ℕ, List, length, vec_len, IfOk};
ghost use Rattle.ec_disk.specs.Choices.{cut};
ghost use Rattle.ec_disk.specs.Past.{shot_of};
ghost use Rattle.ec_disk.specs.Undo.{undone, Restores};

use crate::disk::{Choice, CrashDisk, Disk, DiskAnswer, DiskLen};
use crate::turns::{Turn, Turns};
use crate::undo::{Undo, bytes_at, overwrite, put_back, torn};
use ec_base::{List, NoMemory};
use std::alloc::{AllocError, Global};

/// One change of a disk in memory.
#[derive(Drop)]
pub enum Step {
    /// These bytes from this place on.
    Write(u64, List<u8>),
    Sync,
    Cut(Choice),
}

/// A disk in memory, of length 0 at first.
///
/// It's stricter than a disk has to be: a write that was told to fail, or for which there was no memory, changes nothing, and no crash
/// finds its range written.
#[derive(Drop)]
pub struct MemDisk {
    turns: Turns,
    image: Vec<u8>,
    synced_len: usize,
    undos: Vec<Undo>,
    log: Vec<Step>,
    ghost image_is: { image.items ≡ (shot_of log.items).now },
    ghost restores: { Restores undos.items synced_len image.items (shot_of log.items).synced },
}

impl MemDisk {
    ghost use Rattle.std.specs.Prelude.{◌≡◌, [], ◌∷◌, ◌++◌, None, IfOk, OnOk, OnErr};
    ghost use Rattle.std.specs.List.Sorted.{IsPermutation};
    ghost use Rattle.ec_disk.specs.Memory.{steps_of, calls_of, fails_of, counts_of_disk};
    ghost use Rattle.ec_disk.specs.declared.memory.Step.TheVariants as step;

    /// The calls of `Disk` whose numbers, from 1, are listed will fail and change nothing.
    pub fn new(alloc: Global, fails: Vec<u64>) -> Result<MemDisk, NoMemory>
        ensures steps { IfOk result (λ disk. steps_of disk ≡ []) }
        ensures calls { IfOk result (λ disk. calls_of disk ≡ 0) }
        ensures fails { IfOk result (λ disk. IsPermutation fails.items (fails_of disk)) }
        ensures counts { IfOk result (λ disk. counts_of_disk disk ≡ record { calls = 0; faults = 0; stops = 0; armed = None }) }
    {
        let mut fails = fails;
        fails.sort()?;
        Ok(MemDisk {
            turns: Turns::new(fails),
            image: Vec::new(alloc),
            synced_len: 0,
            undos: Vec::new(alloc),
            log: Vec::new(alloc),
        })
    }

    /// The writes that were carried out, the syncs and the power cuts, in their order.
    pub fn steps(&self) -> &[Step]
        ensures { result.now ≡ steps_of self.now }
    {
        &self.log
    }

    fn write(&mut self, at: u64, piece: &[u8]) -> Result<(), AllocError>
        ensures ok { OnOk result (steps_of self.new ≡ steps_of self.old ++ step.Write at piece.now ∷ []) }
        ensures err { OnErr result (steps_of self.new ≡ steps_of self.old) }
        ensures turns { self.new.turns ≡ self.old.turns }
    {
        let alloc = *self.log.allocator();
        let place = at as usize;
        let old = List::of(bytes_at(alloc, &self.image, place, piece.len())?);
        let bytes = List::of(piece.to_vec(alloc)?);
        self.undos.reserve(1)?;
        self.log.reserve(1)?;
        overwrite(&mut self.image, place, piece)?;
        self.undos.push(Undo { at, old }).unwrap();
        self.log.push(Step::Write(at, bytes)).unwrap();
        Ok(())
    }

    fn note_sync(&mut self) -> Result<(), AllocError>
        ensures ok { OnOk result (steps_of self.new ≡ steps_of self.old ++ step.Sync ∷ []) }
        ensures err { OnErr result (steps_of self.new ≡ steps_of self.old) }
        ensures turns { self.new.turns ≡ self.old.turns }
    {
        self.log.push(Step::Sync)?;
        self.undos.clear();
        self.synced_len = self.image.len();
        Ok(())
    }

    fn cut(&mut self, choice: Choice) -> Result<(), AllocError>
        ensures ok { OnOk result (steps_of self.new ≡ steps_of self.old ++ step.Cut choice ∷ []) }
        ensures err { OnErr result (steps_of self.new ≡ steps_of self.old) }
        ensures turns { self.new.turns ≡ self.old.turns }
    {
        let alloc = *self.log.allocator();
        let next = after_cut(alloc, choice, &self.image, &self.undos, self.synced_len)?;
        self.log.push(Step::Cut(choice))?;
        self.undos.clear();
        self.synced_len = next.len();
        self.image = next;
        Ok(())
    }
}

// What a power cut leaves.
fn after_cut(
    alloc: Global,
    choice: Choice,
    now: &[u8],
    undos: &[Undo],
    synced_len: usize,
) -> Result<Vec<u8>, AllocError>
    requires { length (undone undos.now now.now) ≡ length now.now }
    ensures { IfOk result (λ next. (synced : List ℕ) → Restores undos.now synced_len now.now synced → next.items ≡ cut choice now.now synced) }
{
    let mut old = now.to_vec(alloc)?;
    put_back(&mut old, undos);
    match choice {
        Choice::Old => {
            old.truncate(synced_len);
            Ok(old)
        }
        Choice::New => now.to_vec(alloc),
        Choice::Torn => torn(alloc, 0, now, &old),
    }
}

impl Disk for MemDisk {
    ghost use Rattle.ec_disk.specs.Memory.{steps_of, counts_of_disk, DoesCall};
    ghost use Rattle.ec_disk.specs.Past.{view_of};
    ghost use Rattle.ec_disk.specs.PastLaws.{given as past_given, given_synced as past_given_synced, counts_now as past_counts_now, only_now as past_only_now};

    ghost tells = { Unit {0} };

    ghost view = { λ disk. view_of (steps_of disk) };

    ghost counts = { λ disk. counts_of_disk disk };

    ghost does = { λ old call new. DoesCall old call new };

    ghost given = { λ told disk. past_given (steps_of disk) };

    ghost given_synced = { λ told disk. past_given_synced (steps_of disk) };

    ghost counts_now = { λ told disk since image earlier left. past_counts_now (steps_of disk) since image earlier left };

    ghost only_now = { λ told disk image left. past_only_now (steps_of disk) image left };

    fn read_at(&mut self, at: u64, into: &mut [u8]) -> DiskAnswer {
        match self.turns.next() {
            Turn::Goes => {}
            Turn::Fails => return DiskAnswer::Failed,
            Turn::Stops => return DiskAnswer::Stopped,
        }
        let from = at as usize;
        let end = from + into.len();
        into.copy_from_slice(&self.image[from..end]);
        DiskAnswer::Done
    }

    /// A write that stops is carried out.
    fn write_at(&mut self, at: u64, piece: &[u8]) -> DiskAnswer {
        let turn = self.turns.next();
        if turn == Turn::Fails {
            return DiskAnswer::Failed;
        }
        match self.write(at, piece) {
            Ok(()) if turn == Turn::Stops => DiskAnswer::Stopped,
            Ok(()) => DiskAnswer::Done,
            Err(_) => DiskAnswer::NoMemory,
        }
    }

    fn sync(&mut self) -> DiskAnswer {
        match self.turns.next() {
            Turn::Goes => {}
            Turn::Fails => return DiskAnswer::Failed,
            Turn::Stops => return DiskAnswer::Stopped,
        }
        match self.note_sync() {
            Ok(()) => DiskAnswer::Done,
            Err(_) => DiskAnswer::NoMemory,
        }
    }

    fn len(&mut self) -> DiskLen {
        match self.turns.next_len() {
            Turn::Goes => DiskLen::Len(self.image.len() as u64),
            Turn::Fails => DiskLen::Failed,
            Turn::Stops => DiskLen::Stopped,
        }
    }
}

impl CrashDisk for MemDisk {
    ghost use Rattle.ec_disk.specs.Memory.{Tries};

    ghost tries = { λ old trial new. Tries old trial new };

    fn arm(&mut self, calls: u64) {
        self.turns.arm(calls);
    }

    fn disarm(&mut self) {
        self.turns.disarm();
    }

    fn power_cut(&mut self, choice: Choice) -> DiskAnswer {
        match self.cut(choice) {
            Ok(()) => {
                self.turns.disarm();
                DiskAnswer::Done
            }
            Err(_) => DiskAnswer::NoMemory,
        }
    }
}
