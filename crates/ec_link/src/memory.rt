// Links in memory: two ends in one process.
ghost use Rattle.std.specs.Prelude.{◌≡◌, ℕ, true, [], ◌++◌, List, drop, IfOk, IfSome, IfNone};
ghost use Rattle.ec_base.specs.Outside.{one_more};
ghost use Rattle.ec_streams.specs.OfFrame.Frames.{BeginsNone};
ghost use Rattle.ec_link.specs.declared.link.Sent.TheVariants as sent;
ghost use Rattle.ec_link.specs.LinkAnswers.{failed, fault_of, close_of, heard, carried, Reads};
ghost use Rattle.ec_link.specs.HappeningBodies.{More};
ghost use Rattle.ec_link.specs.Memory.{is_due, is_shut, IsNewLink};

use crate::around::Around;
use crate::bell::{Knocker, MemBell};
use crate::happenings::Happenings;
use crate::leaving::Leaving;
use crate::link::{Got, Link, Sent};
use crate::net::NetFault;
use crossbeam_channel::{Receiver, Sender, TryRecvError, unbounded};
use ec_base::NoMemory;
use ec_streams::frame::{FrameFault, Frames, frame};
use std::alloc::Global;
use std::snapshot::Snapshot;
use std::sync::atomic::AtomicU64;
use std::sync::{Arc, Wait};
use std::time::Clock;

/// One end of a pair of links in memory.
pub struct MemLink {
    alloc: Global,
    line: Line,
    // What came and is not given yet.
    frames: Frames,
    // A piece that came when there was no memory for it.
    late: Option<Vec<u8>>,
    // The sends and receives that are to fail, by their number from 1 on.
    fails: Vec<u64>,
    calls: u64,
    happened: Happenings,
}

impl Drop for MemLink {
    fn drop(self) {
        let MemLink {
            alloc: _,
            line,
            frames,
            late,
            fails,
            calls: _,
            happened,
        } = self;
        drop(line);
        drop(frames);
        drop(late);
        drop(fails);
        drop(happened);
    }
}

// What joins one end of a pair to the other.
pub struct Line {
    // None behind a `hang_up`.
    to: Option<Sender<Vec<u8>>>,
    from: Receiver<Vec<u8>>,
    here: Arc<AtomicU64>,
    // It knocks behind the drop of `to`.
    there: Knocker,
}

impl Drop for Line {
    fn drop(self) {
        let Line {
            to,
            from,
            here,
            there,
        } = self;
        drop(to);
        drop(from);
        drop(here);
        drop(there);
    }
}

// Where one end of a pair is rung, and where it rings.
struct Rings {
    here: Arc<AtomicU64>,
    there: Knocker,
}

impl Drop for Rings {
    fn drop(self) {
        let Rings { here, there } = self;
        drop(here);
        drop(there);
    }
}

impl Rings {
    // The end that sends and gets by these.
    fn line(self, to: Sender<Vec<u8>>, from: Receiver<Vec<u8>>) -> Line {
        let Rings { here, there } = self;
        Line {
            to: Some(to),
            from,
            here,
            there,
        }
    }
}

fn no_rings(alloc: Global) -> Result<Arc<AtomicU64>, NoMemory> {
    Arc::new(alloc, AtomicU64::new(0)).ok().ok_or(NoMemory)
}

// Those that are rung here, and there.
fn make_rings(here: &Arc<AtomicU64>, there: &Arc<AtomicU64>) -> Result<Rings, NoMemory> {
    let here = Arc::try_clone(here)?;
    let there = Knocker::new(Arc::try_clone(there)?);
    Ok(Rings { here, there })
}

// The rings of both ends of a new pair.
fn both_rings(alloc: Global) -> Result<(Rings, Rings), NoMemory> {
    let at_left = no_rings(alloc)?;
    let at_right = no_rings(alloc)?;
    let left = make_rings(&at_left, &at_right)?;
    let right = make_rings(&at_right, &at_left)?;
    Ok((left, right))
}

// Both lines of a new pair.
pub fn lines(alloc: Global) -> Result<(Line, Line), NoMemory> {
    let (left, right) = both_rings(alloc)?;
    let (to_right, from_left) = unbounded(alloc)?;
    let (to_left, from_right) = unbounded(alloc)?;
    Ok((
        left.line(to_right, from_right),
        right.line(to_left, from_left),
    ))
}

/// Two ends of a new link.
pub fn mem_pair(alloc: Global) -> Result<(MemLink, MemLink), NoMemory>
    ensures { IfOk result (λ pair. IsNewLink pair.0 × IsNewLink pair.1) }
{
    let (left, right) = lines(alloc)?;
    Ok((MemLink::on(alloc, left)?, MemLink::on(alloc, right)?))
}

impl MemLink {
    // The end of this line.
    pub fn on(alloc: Global, line: Line) -> Result<MemLink, NoMemory>
        ensures { IfOk result (λ link. IsNewLink link) }
    {
        let frames = Frames::new(alloc)?;
        Ok(MemLink {
            alloc,
            line,
            frames,
            late: None,
            fails: Vec::new(alloc),
            calls: 0,
            happened: Happenings::new(),
        })
    }

    /// From now on the sends and receives of this end whose number, from 1, is in the list answer `Failed`.
    pub fn fail_at(&mut self, fails: Vec<u64>)
        ensures { self.new ≡ record self.old { fails = fails; calls = 0 } }
    {
        self.fails = fails;
        self.calls = 0;
    }

    /// Hands these bytes to the other end's frames as they are. Where the other end is gone, they are dropped.
    pub fn put_raw<R: Wait + Clock>(&mut self, rt: &R, bytes: &[u8]) -> Result<(), NoMemory>
        ensures { self.new ≡ self.old }
    {
        let piece = Vec::from_slice(self.alloc, bytes)?;
        let Some(to) = &self.line.to else {
            return Ok(());
        };
        match to.send(rt, piece) {
            Err(refused) if refused.is_out_of_memory() => Err(NoMemory),
            _ => {
                self.line.there.knock();
                Ok(())
            }
        }
    }

    // Counts a send or receive, and a fault where it is to fail.
    fn fails_now(&mut self) -> bool
        ensures due { result ≡ is_due self.old }
        ensures others { self.new ≡ record self.old { calls = one_more self.old.calls } }
    {
        self.calls = self.calls.saturating_add(1);
        self.fails.contains(&self.calls)
    }
}

impl MemLink {
    // Hands a frame over.
    fn carry<R: Wait + Clock>(&mut self, rt: &R, bytes: Vec<u8>) -> Sent
        ensures happened { More self.old.happened self.new.happened (failed result) 0 [] (carried result (drop 4 bytes.items)) }
        ensures held { self.new.frames.left ≡ self.old.frames.left }
        ensures shut { is_shut self.old ≡ true → result ≡ sent.Done → ⊥ }
    {
        let copy = Snapshot::of(&bytes);
        let Some(to) = &self.line.to else {
            return self.fail();
        };
        match to.send(rt, bytes) {
            Ok(()) => {
                self.line.there.knock();
                self.happened.got(copy);
                Sent::Done
            }
            Err(refused) if refused.is_out_of_memory() => Sent::NoMemory,
            Err(_) => self.fail(),
        }
    }

    fn fail(&mut self) -> Sent
        ensures happened { More self.old.happened self.new.happened 1 0 [] [] }
        ensures others { self.new ≡ record self.old { happened = self.new.happened } }
        ensures result { result ≡ sent.Failed }
    {
        self.happened.fault();
        Sent::Failed
    }

    // Reads a piece of what the other end sent, where no whole frame is there yet.
    fn read<R: Wait + Clock>(&mut self, rt: &R) -> Option<Got>
        requires { BeginsNone self.old.frames.left }
        ensures some { IfSome result (λ got. More self.old.happened self.new.happened (fault_of got) (close_of got) (heard got) [] × Reads self.old.frames.left self.new.frames.left got) }
        ensures none { IfNone result ((self.new.happened ≡ self.old.happened) × ((more : List ℕ) × (self.new.frames.left ≡ self.old.frames.left ++ more))) }
    {
        let piece = match self.late.take() {
            Some(piece) => piece,
            None => match self.line.from.try_recv(rt) {
                Ok(piece) => piece,
                Err(TryRecvError::Empty) => return Some(Got::Nothing),
                Err(TryRecvError::Disconnected) => {
                    self.happened.close();
                    return Some(Got::Closed);
                }
            },
        };
        if self.frames.feed(&piece).is_ok() {
            return None;
        }
        self.late = Some(piece);
        Some(Got::NoMemory)
    }

    // Takes the next body off what came, or a piece of what the other end sent.
    fn turn<R: Wait + Clock>(&mut self, rt: &R) -> Option<Got>
        ensures some { IfSome result (λ got. More self.old.happened self.new.happened (fault_of got) (close_of got) (heard got) [] × Reads self.old.frames.left self.new.frames.left got) }
        ensures none { IfNone result ((self.new.happened ≡ self.old.happened) × ((more : List ℕ) × (self.new.frames.left ≡ self.old.frames.left ++ more))) }
    {
        match self.frames.next() {
            Ok(Some(body)) => {
                self.happened.gave(&body);
                Some(Got::Body(body))
            }
            Ok(None) => self.read(rt),
            Err(FrameFault::LongFrame(length)) => {
                self.happened.long(length);
                Some(Got::Long(length))
            }
            Err(FrameFault::NoMemory) => Some(Got::NoMemory),
        }
    }
}

impl Link for MemLink {
    type Bell = MemBell;

    ghost use Rattle.std.specs.Prelude.{Some, true};
    ghost use Rattle.ec_link.specs.Happenings.{faults_in};
    ghost use Rattle.ec_link.specs.HappeningBodies.{closes_in, given_in, got_in};
    ghost use Rattle.ec_link.specs.Memory.{is_shut};

    ghost faults = { λ link. faults_in link.happened };

    ghost closes = { λ link. closes_in link.happened };

    ghost given = { λ link. Some (given_in link.happened) };

    ghost got = { λ link. Some (got_in link.happened) };

    ghost held = { λ link. link.frames.left };

    ghost clear = { λ link. true };

    ghost shut = { λ link. Some (is_shut link) };

    fn send<R: Wait + Clock>(&mut self, rt: &R, body: &[u8]) -> Sent {
        if self.fails_now() {
            return self.fail();
        }
        match frame(self.alloc, body) {
            Ok(bytes) => self.carry(rt, bytes),
            Err(FrameFault::LongFrame(_)) => self.fail(),
            Err(FrameFault::NoMemory) => Sent::NoMemory,
        }
    }

    // What is in memory is there at once.
    fn send_late<R: Wait + Clock>(&mut self, rt: &R, body: &[u8], _rest: u64) -> Sent {
        self.send(rt, body)
    }

    fn recv<R: Wait + Clock>(&mut self, rt: &R) -> Got {
        if self.fails_now() {
            self.happened.fault();
            return Got::Failed;
        }
        for _ in rt.forever() {
            if let Some(got) = self.turn(rt) {
                return got;
            }
        }
        unreachable!()
    }

    // The other end's line has room for all.
    fn is_clear(&self) -> bool {
        true
    }

    fn hang_up(&mut self) {
        self.line.to = None;
        self.line.there.knock();
    }

    fn leave<R: Wait + Clock>(&mut self, rt: &R) {
        self.hang_up();
        let Some(leaving) = Leaving::begin(rt) else {
            return;
        };
        for _ in rt.forever() {
            let Some(left) = leaving.left(rt) else {
                return;
            };
            if self.line.from.recv_timeout(rt, left).is_err() {
                return;
            }
        }
    }

    fn bell<R: Around>(&mut self, _rt: &R) -> Result<MemBell, NetFault> {
        Ok(MemBell::new(Arc::try_clone(&self.line.here)?))
    }
}
