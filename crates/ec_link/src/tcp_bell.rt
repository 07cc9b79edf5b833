// The bell of a socket.
use crate::bell::Bell;
use crate::looks::Looks;
use crate::lull::Lull;
use crate::rest::Alarm;
use mio::unix::SourceFd;
use mio::{Events, Interest, Poll, Token, Waker};
use std::alloc::Global;
use std::io;
use std::net::Net;
use std::os::fd::AsRawFd;
use std::sync::atomic::{AtomicBool, AtomicU64, Ordering};
use std::sync::{Condvar, Mutex, Wait};
use std::time::Duration;

const SOCKET: Token = Token(0);

const RING: Token = Token(1);

// So many events are taken at once.
const EVENTS: usize = 4;

// Nobody waits for the socket for longer than so many seconds.
const LONGEST_WAIT: u64 = 1;

// Who leaves the link to others looks again after so many milliseconds.
const REST: u64 = 1;

#[derive(Drop)]
struct Waiting {
    poll: Poll,
    events: Events,
}

/// What a bell needs of the system. It's made before there is a socket, so that one that comes has its bell.
pub struct Parts {
    waiting: Waiting,
    waker: Waker,
}

impl Drop for Parts {
    fn drop(self) {
        let Parts { waiting, waker } = self;
        drop(waiting);
        drop(waker);
    }
}

impl Parts {
    pub fn new<R: Net>(rt: &R, alloc: Global) -> io::Result<Parts> {
        let poll = Poll::new(rt)?;
        let events = Events::with_capacity(alloc, EVENTS)?;
        let waker = Waker::new(poll.registry(), RING)?;
        let waiting = Waiting { poll, events };
        Ok(Parts { waiting, waker })
    }

    fn apart(self) -> (Waiting, Waker) {
        let Parts { waiting, waker } = self;
        (waiting, waker)
    }
}

/// One thread at a time takes `waiting` out and waits for the socket, outside of the lock. The others wait until it's
/// back. A thread that found the socket ready counts a ring. One that has time gives way to those that wait or make
/// calls.
#[derive(Drop)]
pub struct TcpBell {
    rings: AtomicU64,
    // So many threads wait.
    waits: AtomicU64,
    // Whether a ring has to end a wait for the socket.
    is_out: AtomicBool,
    // Whether the one that waits for the socket has time.
    is_idle: AtomicBool,
    waiting: Mutex<Option<Waiting>>,
    returned: Condvar,
    looks: Looks,
    // What one that has time sleeps on for a little. Nobody wakes it.
    rest: AtomicU64,
    lull: Lull,
    alarm: Alarm,
    waker: Waker,
}

impl TcpBell {
    // The bell of this socket.
    pub fn new<S: AsRawFd>(
        parts: Parts,
        socket: &S,
        lull: Lull,
        alarm: Alarm,
    ) -> io::Result<TcpBell> {
        let (waiting, waker) = parts.apart();
        let fd = socket.as_raw_fd();
        waiting.poll.registry().register(
            &mut SourceFd(&fd),
            SOCKET,
            Interest::READABLE | Interest::WRITABLE,
        )?;
        Ok(TcpBell {
            rings: AtomicU64::new(0),
            waits: AtomicU64::new(0),
            is_out: AtomicBool::new(false),
            is_idle: AtomicBool::new(false),
            waiting: Mutex::new(Some(waiting)),
            returned: Condvar::new(),
            looks: Looks::new(),
            rest: AtomicU64::new(0),
            lull,
            alarm,
            waker,
        })
    }

    // Waits for the socket unless it has rung since it stood at `seen`, and puts `waiting` back.
    fn wait_out<R: Wait>(&self, rt: &R, mut waiting: Waiting, seen: u64) {
        self.is_out.store(true, Ordering::SeqCst);
        if self.rings() == seen && self.is_ready(&mut waiting) {
            self.rings.fetch_add(1, Ordering::SeqCst);
        }
        self.is_out.store(false, Ordering::SeqCst);
        let mut free = self.waiting.lock(rt);
        self.is_idle.store(false, Ordering::SeqCst);
        *free = Some(waiting);
        self.returned.notify_all();
    }

    // Waits for the socket or a ring, and says whether it was the socket.
    fn is_ready(&self, waiting: &mut Waiting) -> bool {
        let longest = Some(self.alarm.no_later(Duration::from_secs(LONGEST_WAIT)));
        let _ = waiting.poll.poll(&mut waiting.events, longest);
        let mut is_ready = false;
        for event in waiting.events.iter() {
            if event.token() == SOCKET {
                is_ready = true;
                self.note(event.is_read_closed());
            }
        }
        is_ready
    }

    // The socket may have something to read.
    fn note(&self, is_closed: bool) {
        if is_closed {
            self.lull.close();
        } else {
            self.lull.end();
        }
    }

    // Takes `waiting` out once it's back, where it hasn't rung since.
    fn take<R: Wait>(&self, rt: &R, seen: u64) -> Option<Waiting> {
        let free = self.waiting.lock(rt);
        if self.is_idle.load(Ordering::SeqCst) {
            let _ = self.waker.wake();
        }
        let mut free = self.returned.wait_while(
            rt,
            free,
            |waiting| waiting.is_none() && self.rings() == seen,
        );
        if self.rings() != seen {
            return None;
        }
        free.take()
    }

    // Takes `waiting` out where nobody waits, and nobody made a call since one that has time looked last.
    fn take_idle<R: Wait>(&self, rt: &R) -> Option<Waiting> {
        let are_new = self.looks.are_new();
        let mut free = self.waiting.lock(rt);
        if are_new || self.waits.load(Ordering::SeqCst) > 0 {
            return None;
        }
        let waiting = free.take()?;
        self.is_idle.store(true, Ordering::SeqCst);
        Some(waiting)
    }

    // Sleeps a little, and where it hasn't rung then, until those that wait look at the link.
    fn give_way<R: Wait>(&self, rt: &R, seen: u64) {
        self.rest.park_timeout(rt, 0, Duration::from_millis(REST));
        let free = self.waiting.lock(rt);
        let _free = self.returned.wait_while(
            rt,
            free,
            |waiting| waiting.is_none() && self.rings() == seen,
        );
    }
}

impl Bell for TcpBell {
    fn rings(&self) -> u64 {
        self.rings.load(Ordering::SeqCst)
    }

    fn ring(&self) {
        self.rings.fetch_add(1, Ordering::SeqCst);
        // the first ring ends the wait
        if self.is_out.swap(false, Ordering::SeqCst) {
            let _ = self.waker.wake();
        }
    }

    fn wait<R: Wait>(&self, rt: &R, seen: u64) {
        self.waits.fetch_add(1, Ordering::SeqCst);
        if let Some(waiting) = self.take(rt, seen) {
            self.wait_out(rt, waiting, seen);
        }
        self.waits.fetch_sub(1, Ordering::SeqCst);
    }

    fn watch<R: Wait>(&self, rt: &R, seen: u64) {
        match self.take_idle(rt) {
            Some(waiting) => self.wait_out(rt, waiting, seen),
            None => self.give_way(rt, seen),
        }
    }

    fn called(&self) -> bool {
        let is_due = self.looks.called(self.rings());
        if is_due {
            self.lull.end();
        }
        is_due
    }
}
