// Links over TCP.
ghost use Rattle.std.specs.Prelude.{◌≡◌, ℕ, [], ◌++◌, List, drop, IfOk, IfSome, IfNone};
ghost use Rattle.ec_streams.specs.OfFrame.Frames.{BeginsNone};
ghost use Rattle.ec_link.specs.declared.link.Sent.TheVariants as sent;
ghost use Rattle.ec_link.specs.LinkAnswers.{failed, fault_of, close_of, heard, carried, Reads};
ghost use Rattle.ec_link.specs.HappeningBodies.{More};
ghost use Rattle.ec_link.specs.Tcp.{IsNewOver};

use crate::around::Around;
use crate::happenings::Happenings;
use crate::leaving::Leaving;
use crate::link::{Got, Link, Sent};
use crate::lull::Lull;
use crate::net::NetFault;
use crate::rest::Rests;
use crate::tcp_bell::{Parts, TcpBell};
use ec_base::NoMemory;
use ec_streams::frame::{FrameFault, Frames, frame};
use std::alloc::Global;
use std::io::{self, ErrorKind, Read, Write};
use std::net::{Net, Shutdown, TcpStream};
use std::snapshot::Snapshot;
use std::sync::Wait;
use std::time::{Clock, Duration, Instant};

// A link keeps at most this many bytes that the socket hasn't taken: three frames. Those that have rested come on top.
const MAX_UNSENT: usize = 3 * (4 + 1_048_576);

// A peer that has taken nothing for so many seconds has failed.
const MAX_SILENCE: u64 = 10;

// So many bytes are read at once.
const PIECE: usize = 4096;

/// One end of a link over TCP. No call waits for the peer.
pub struct TcpLink {
    alloc: Global,
    stream: TcpStream,
    // What came and is not given yet.
    frames: Frames,
    // What was read when there was no memory for it.
    late: Vec<u8>,
    lull: Lull,
    // What the socket hasn't taken yet, and since when it takes nothing.
    unsent: Vec<u8>,
    // What goes behind that once it has rested.
    rests: Rests,
    stuck: Option<Instant>,
    // What its bell needs, where that was made before the link.
    parts: Option<Parts>,
    happened: Happenings,
}

impl Drop for TcpLink {
    fn drop(self) {
        let TcpLink {
            alloc: _,
            stream,
            frames,
            late,
            lull,
            unsent,
            rests,
            stuck: _,
            parts,
            happened,
        } = self;
        drop(stream);
        drop(frames);
        drop(late);
        drop(lull);
        drop(unsent);
        drop(rests);
        drop(parts);
        drop(happened);
    }
}

// What a link keeps of what came and of what is to go.
struct Kept {
    frames: Frames,
    lull: Lull,
    rests: Rests,
}

impl Drop for Kept {
    fn drop(self) {
        let Kept {
            frames,
            lull,
            rests,
        } = self;
        drop(frames);
        drop(lull);
        drop(rests);
    }
}

impl Kept {
    fn new(alloc: Global) -> Result<Kept, NoMemory>
        ensures { IfOk result (λ kept. kept.frames.left ≡ []) }
    {
        let frames = Frames::new(alloc)?;
        let lull = Lull::new(alloc)?;
        let rests = Rests::new(alloc)?;
        Ok(Kept {
            frames,
            lull,
            rests,
        })
    }

    // The link of this socket that keeps it.
    fn link(self, alloc: Global, stream: TcpStream, parts: Option<Parts>) -> TcpLink
        requires none { self.frames.left ≡ [] }
        ensures { IsNewOver result }
    {
        let Kept {
            frames,
            lull,
            rests,
        } = self;
        TcpLink {
            alloc,
            stream,
            frames,
            late: Vec::new(alloc),
            lull,
            unsent: Vec::new(alloc),
            rests,
            stuck: None,
            parts,
            happened: Happenings::new(),
        }
    }
}

impl TcpLink {
    // Takes a connected socket, and what its bell needs where that is there.
    pub(crate) fn over(
        alloc: Global,
        stream: TcpStream,
        parts: Option<Parts>,
    ) -> Result<TcpLink, NetFault>
        ensures { IfOk result (λ link. IsNewOver link) }
    {
        if stream.set_nonblocking(true).is_err() || stream.set_nodelay(true).is_err() {
            return Err(NetFault::Failed);
        }
        let kept = Kept::new(alloc)?;
        Ok(kept.link(alloc, stream, parts))
    }

    // Puts a frame behind what is unsent, and hands the socket what it takes.
    fn carry<R: Wait + Clock>(&mut self, rt: &R, bytes: Vec<u8>) -> Sent
        ensures happened { More self.old.happened self.new.happened (failed result) 0 [] (carried result (drop 4 bytes.items)) }
        ensures held { self.new.frames.left ≡ self.old.frames.left }
    {
        if self.is_silent(rt) || self.unsent.len().saturating_add(bytes.len()) > MAX_UNSENT {
            return self.fail();
        }
        if self.unsent.extend_from_slice(&bytes).is_err() {
            return Sent::NoMemory;
        }
        if !self.flush(rt) {
            return self.fail();
        }
        self.happened.got(Snapshot::of(&bytes));
        Sent::Done
    }

    // Lets a frame rest for so many milliseconds, where one more may.
    fn let_rest<R: Wait + Clock>(&mut self, rt: &R, bytes: Vec<u8>, rest: u64) -> Sent
        ensures happened { More self.old.happened self.new.happened (failed result) 0 [] (carried result (drop 4 bytes.items)) }
        ensures held { self.new.frames.left ≡ self.old.frames.left }
    {
        let now = match Instant::now(rt) {
            Ok(now) if !self.rests.is_full() => now,
            _ => return self.carry(rt, bytes),
        };
        let copy = Snapshot::of(&bytes);
        if self.rests.add(now, bytes, rest).is_err() {
            return Sent::NoMemory;
        }
        self.happened.got(copy);
        Sent::Done
    }

    fn fail(&mut self) -> Sent
        ensures happened { More self.old.happened self.new.happened 1 0 [] [] }
        ensures others { self.new ≡ record self.old { happened = self.new.happened } }
        ensures result { result ≡ sent.Failed }
    {
        self.happened.fault();
        Sent::Failed
    }

    // Whether the peer has taken nothing for too long.
    fn is_silent<R: Clock>(&self, rt: &R) -> bool {
        let Some(start) = &self.stuck else {
            return false;
        };
        match start.elapsed(rt) {
            Ok(silence) => silence >= Duration::from_secs(MAX_SILENCE),
            Err(_) => false,
        }
    }

    // Hands the socket what is unsent, as far as it takes it. False where the socket failed.
    fn flush<R: Wait + Clock>(&mut self, rt: &R) -> bool
        ensures same { (self.new.happened ≡ self.old.happened) × (self.new.frames.left ≡ self.old.frames.left) }
    {
        for _ in rt.forever() {
            if self.unsent.is_empty() {
                self.stuck = None;
                return true;
            }
            match hand_over(&mut self.stream, &mut self.unsent) {
                Handed::Some => self.stuck = None,
                Handed::Nothing => {
                    if self.stuck.is_none() {
                        self.stuck = Instant::now(rt).ok();
                    }
                    return true;
                }
                Handed::Failed => return false,
            }
        }
        unreachable!()
    }

    // Reads a piece, where no whole frame is there yet.
    fn read<R: Wait + Clock>(&mut self, rt: &R) -> Option<Got>
        requires { BeginsNone self.old.frames.left }
        ensures some { IfSome result (λ got. More self.old.happened self.new.happened (fault_of got) (close_of got) (heard got) [] × Reads self.old.frames.left self.new.frames.left got) }
        ensures none { IfNone result ((self.new.happened ≡ self.old.happened) × ((more : List ℕ) × (self.new.frames.left ≡ self.old.frames.left ++ more))) }
    {
        if self.late.is_empty() {
            if self.lull.skips() {
                return Some(Got::Nothing);
            }
            match take_piece(&mut self.stream, &mut self.late, &self.lull) {
                Piece::Some => {}
                Piece::Nothing => return Some(Got::Nothing),
                Piece::End => {
                    self.happened.close();
                    return Some(Got::Closed);
                }
                Piece::Failed => {
                    self.happened.fault();
                    return Some(Got::Failed);
                }
                Piece::NoMemory => return Some(Got::NoMemory),
            }
        }
        if self.frames.feed(&self.late).is_err() {
            return Some(Got::NoMemory);
        }
        self.late.clear();
        None
    }

    // Takes the next body off what came, or reads a piece.
    fn turn<R: Wait + Clock>(&mut self, rt: &R) -> Option<Got>
        ensures some { IfSome result (λ got. More self.old.happened self.new.happened (fault_of got) (close_of got) (heard got) [] × Reads self.old.frames.left self.new.frames.left got) }
        ensures none { IfNone result ((self.new.happened ≡ self.old.happened) × ((more : List ℕ) × (self.new.frames.left ≡ self.old.frames.left ++ more))) }
    {
        match self.frames.next() {
            Ok(Some(body)) => {
                self.happened.gave(&body);
                Some(Got::Body(body))
            }
            Ok(None) => self.read(rt),
            Err(FrameFault::LongFrame(length)) => {
                self.happened.long(length);
                Some(Got::Long(length))
            }
            Err(FrameFault::NoMemory) => Some(Got::NoMemory),
        }
    }
}

// How a write ended.
enum Handed {
    Some,
    Nothing,
    Failed,
}

// Hands the socket bytes off the front.
fn hand_over(stream: &mut TcpStream, unsent: &mut Vec<u8>) -> Handed {
    match stream.write(unsent) {
        Ok(0) => Handed::Failed,
        Ok(count) => {
            unsent.drain(..count);
            Handed::Some
        }
        Err(fault) if fault.kind() == ErrorKind::WouldBlock => Handed::Nothing,
        Err(_) => Handed::Failed,
    }
}

// How a read ended.
enum Piece {
    Some,
    Nothing,
    End,
    Failed,
    NoMemory,
}

// Reads what is there, up to a piece. There is room for it before it's read. Less than a piece is all that is there.
fn take_piece(stream: &mut TcpStream, into: &mut Vec<u8>, lull: &Lull) -> Piece {
    if into.reserve(PIECE).is_err() {
        return Piece::NoMemory;
    }
    let mut buffer = [0u8; PIECE];
    lull.begin();
    match stream.read(&mut buffer) {
        Ok(count) if 0 < count && count < PIECE => keep_piece(into, &buffer[..count]),
        Err(fault) if fault.kind() == ErrorKind::WouldBlock => Piece::Nothing,
        Ok(0) => {
            lull.end();
            Piece::End
        }
        Ok(_) => {
            lull.end();
            keep_piece(into, &buffer)
        }
        Err(_) => {
            lull.end();
            Piece::Failed
        }
    }
}

fn keep_piece(into: &mut Vec<u8>, piece: &[u8]) -> Piece {
    match into.extend_from_slice(piece) {
        Ok(()) => Piece::Some,
        Err(_) => Piece::NoMemory,
    }
}

// Drops what comes, until the other end sends no more or the time is over.
fn drain<R: Wait + Clock>(rt: &R, stream: &mut TcpStream, leaving: &Leaving) {
    let mut buffer = [0u8; PIECE];
    for _ in rt.forever() {
        let left = leaving.left(rt);
        if left.is_none() || stream.set_read_timeout(left).is_err() {
            return;
        }
        match stream.read(&mut buffer) {
            Ok(0) | Err(_) => return,
            Ok(_) => {}
        }
    }
}

fn bell_of<R: Net>(
    rt: &R,
    alloc: Global,
    parts: Option<Parts>,
    stream: &TcpStream,
    lull: &Lull,
    rests: &Rests,
) -> io::Result<TcpBell> {
    let parts = match parts {
        Some(parts) => parts,
        None => Parts::new(rt, alloc)?,
    };
    TcpBell::new(parts, stream, lull.share()?, rests.alarm()?)
}

impl Link for TcpLink {
    type Bell = TcpBell;

    ghost use Rattle.std.specs.Prelude.{Some, None};
    ghost use Rattle.ec_link.specs.Happenings.{faults_in};
    ghost use Rattle.ec_link.specs.HappeningBodies.{closes_in, given_in, got_in};
    ghost use Rattle.ec_link.specs.Tcp.{has_sent_all};

    ghost faults = { λ link. faults_in link.happened };

    ghost closes = { λ link. closes_in link.happened };

    ghost given = { λ link. Some (given_in link.happened) };

    ghost got = { λ link. Some (got_in link.happened) };

    ghost held = { λ link. link.frames.left };

    ghost clear = { has_sent_all };

    // Nothing tells it of a socket.
    ghost shut = { λ _. None };

    fn send<R: Wait + Clock>(&mut self, rt: &R, body: &[u8]) -> Sent {
        match frame(self.alloc, body) {
            Ok(bytes) => self.carry(rt, bytes),
            Err(FrameFault::LongFrame(_)) => self.fail(),
            Err(FrameFault::NoMemory) => Sent::NoMemory,
        }
    }

    fn send_late<R: Wait + Clock>(&mut self, rt: &R, body: &[u8], rest: u64) -> Sent {
        match frame(self.alloc, body) {
            Ok(bytes) => self.let_rest(rt, bytes, rest),
            Err(FrameFault::LongFrame(_)) => self.fail(),
            Err(FrameFault::NoMemory) => Sent::NoMemory,
        }
    }

    fn recv<R: Wait + Clock>(&mut self, rt: &R) -> Got {
        if self.rests.wake(rt, &mut self.unsent).is_err() {
            return Got::NoMemory;
        }
        if !self.flush(rt) || self.is_silent(rt) {
            self.happened.fault();
            return Got::Failed;
        }
        for _ in rt.forever() {
            if let Some(got) = self.turn(rt) {
                return got;
            }
        }
        unreachable!()
    }

    fn is_clear(&self) -> bool {
        self.unsent.is_empty() && self.rests.is_empty()
    }

    fn hang_up(&mut self) {
        let _ = self.stream.shutdown(Shutdown::Both);
    }

    fn leave<R: Wait + Clock>(&mut self, rt: &R) {
        let Some(leaving) = Leaving::begin(rt) else {
            return;
        };
        let longest = leaving.left(rt);
        if self.stream.set_nonblocking(false).is_ok()
            && self.stream.set_write_timeout(longest).is_ok()
            && self.flush(rt)
            && self.stream.shutdown(Shutdown::Write).is_ok()
        {
            drain(rt, &mut self.stream, &leaving);
        }
    }

    fn bell<R: Around>(&mut self, rt: &R) -> Result<TcpBell, NetFault> {
        match bell_of(
            rt,
            rt.alloc(),
            self.parts.take(),
            &self.stream,
            &self.lull,
            &self.rests,
        ) {
            Ok(bell) => Ok(bell),
            Err(_) => {
                self.happened.fault();
                Err(NetFault::Failed)
            }
        }
    }
}
