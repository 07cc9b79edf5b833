// A net in memory, which hands out memory pairs by address.
ghost use Rattle.std.specs.Prelude.{◌≡◌, ◌+◌, [], ◌∷◌, ◌++◌, map, IfOk, IfSome, nat_eq};
ghost use Rattle.std.specs.List.{list_any};
ghost use Rattle.ec_base.specs.Outside.{one_more};
ghost use Rattle.ec_link.specs.Happenings.{faults_in};
ghost use Rattle.ec_link.specs.Memory.{IsNewLink};
ghost use Rattle.ec_link.specs.NetAnswers.{faulted};

use crate::around::Around;
use crate::asked::named;
use crate::bell::{Bell, MemBell};
use crate::happenings::Happenings;
use crate::memory::{Line, MemLink, lines};
use crate::net::{Net, NetFault};
use crossbeam_channel::{Receiver, Sender, TryRecvError, unbounded};
use ec_base::NoMemory;
use ec_base::trace::Trace;
use std::alloc::Global;
use std::io;
use std::net::SocketAddr;
use std::snapshot::Snapshot;
use std::sync::atomic::{AtomicBool, AtomicU64, Ordering};
use std::sync::{Arc, Mutex, Wait};

/// Where links that were called are waiting. It's open until it is dropped.
pub struct MemDoor {
    links: Receiver<Line>,
    rings: Arc<AtomicU64>,
    is_open: Arc<AtomicBool>,
}

impl Drop for MemDoor {
    fn drop(self) {
        let MemDoor {
            links,
            rings,
            is_open,
        } = self;
        is_open.store(false, Ordering::SeqCst);
        drop(is_open);
        drop(rings);
        drop(links);
    }
}

// A door, as the net knows it.
struct Listener {
    addr: String,
    links: Sender<Line>,
    bell: MemBell,
    is_open: Arc<AtomicBool>,
}

impl Drop for Listener {
    fn drop(self) {
        let Listener {
            addr,
            links,
            bell,
            is_open,
        } = self;
        drop(addr);
        drop(links);
        drop(bell);
        drop(is_open);
    }
}

// What a door and its listener share beside its links.
struct Shared {
    rings: Arc<AtomicU64>,
    is_open: Arc<AtomicBool>,
}

impl Drop for Shared {
    fn drop(self) {
        let Shared { rings, is_open } = self;
        drop(rings);
        drop(is_open);
    }
}

impl Shared {
    // That of a new door, which is open.
    fn new(alloc: Global) -> Result<Shared, NoMemory> {
        let rings = Arc::new(alloc, AtomicU64::new(0)).ok().ok_or(NoMemory)?;
        let is_open = Arc::new(alloc, AtomicBool::new(true)).ok().ok_or(NoMemory)?;
        Ok(Shared { rings, is_open })
    }

    fn share(&self) -> Result<Shared, NoMemory> {
        let rings = Arc::try_clone(&self.rings)?;
        let is_open = Arc::try_clone(&self.is_open)?;
        Ok(Shared { rings, is_open })
    }

    fn listener(self, addr: String, links: Sender<Line>) -> Listener {
        let Shared { rings, is_open } = self;
        Listener {
            addr,
            links,
            bell: MemBell::new(rings),
            is_open,
        }
    }

    fn door(self, links: Receiver<Line>) -> MemDoor {
        let Shared { rings, is_open } = self;
        MemDoor {
            links,
            rings,
            is_open,
        }
    }
}

// A door of this address, and what the net knows of it.
fn new_door(alloc: Global, addr: &str) -> Result<(Listener, MemDoor), NoMemory> {
    let addr = String::from_str(alloc, addr)?;
    let shared = Shared::new(alloc)?;
    let other = shared.share()?;
    let (to_door, links) = unbounded(alloc)?;
    Ok((shared.listener(addr, to_door), other.door(links)))
}

fn add(listeners: &mut Vec<Listener>, listener: Listener) -> Result<(), NoMemory> {
    listeners.push(listener)?;
    Ok(())
}

/// A net in memory. Its addresses are any text.
#[derive(Drop)]
pub struct MemNet {
    alloc: Global,
    listeners: Arc<Mutex<Vec<Listener>>>,
    // The calls of `listen` and `call` that are to fail, by their number from 1 on.
    fails: Vec<u64>,
    calls: u64,
    happened: Happenings,
    came_back: Trace<Snapshot<MemLink>>,
    // The addresses of `listen` and `call`.
    asked: Trace<Trace<u8>>,
}

impl MemNet {
    /// A net on which nobody listens. The calls of `listen` and `call` whose number, from 1, is in the list fail.
    pub fn new(alloc: Global, fails: Vec<u64>) -> Result<MemNet, NoMemory>
        ensures { IfOk result (λ net. (faults_in net.happened ≡ 0) × (net.came_back.items ≡ []) × (net.fails ≡ fails) × (net.calls ≡ 0) × (net.asked.items ≡ [])) }
    {
        let Ok(listeners) = Arc::new(alloc, Mutex::new(Vec::new(alloc))) else {
            return Err(NoMemory);
        };
        Ok(MemNet {
            alloc,
            listeners,
            fails,
            calls: 0,
            happened: Happenings::new(),
            came_back: Trace::new(),
            asked: Trace::new(),
        })
    }

    /// A second net of the same addresses, for another thread. None of its calls is to fail.
    pub fn share(&self) -> Result<MemNet, NoMemory>
        ensures { IfOk result (λ net. (faults_in net.happened ≡ 0) × (net.came_back.items ≡ []) × (net.fails.items ≡ []) × (net.asked.items ≡ [])) }
    {
        let listeners = Arc::try_clone(&self.listeners)?;
        Ok(MemNet {
            alloc: self.alloc,
            listeners,
            fails: Vec::new(self.alloc),
            calls: 0,
            happened: Happenings::new(),
            came_back: Trace::new(),
            asked: Trace::new(),
        })
    }

    /// Whether somebody listens at the address.
    pub fn listens<R: Wait>(&self, rt: &R, addr: &str) -> bool {
        let listeners = self.listeners.lock(rt);
        find(&listeners, addr).is_some()
    }
}

// Who listens at the address.
fn find<'a>(listeners: &'a [Listener], addr: &str) -> Option<&'a Listener> {
    for listener in listeners {
        if listener.addr.as_str() == addr && listener.is_open.load(Ordering::SeqCst) {
            return Some(listener);
        }
    }
    None
}

impl MemNet {
    // Notes an address that it's asked for.
    fn note(&mut self, addr: &str)
        ensures others { self.new ≡ record self.old { asked = self.new.asked } }
        ensures asked { map (λ name. name.items) self.new.asked.items ≡ map (λ name. name.items) self.old.asked.items ++ addr.now ∷ [] }
    {
        self.asked = self.asked.and(&named(addr));
    }

    // Counts a call, and tells whether it is to fail.
    fn fails_now(&mut self) -> bool
        ensures others { self.new ≡ record self.old { calls = one_more self.old.calls } }
        ensures due { result ≡ list_any (λ n. nat_eq n (one_more self.old.calls)) self.old.fails.items }
    {
        self.calls = self.calls.saturating_add(1);
        self.fails.contains(&self.calls)
    }

    // Counts a fault, where it is one.
    fn counted<T>(&mut self, answer: Result<T, NetFault>) -> Result<T, NetFault>
        ensures answer { result ≡ answer }
        ensures faults { faults_in self.new.happened ≡ faults_in self.old.happened + faulted answer }
        ensures others { self.new ≡ record self.old { happened = self.new.happened } }
    {
        if let Err(NetFault::Failed) = &answer {
            self.happened.fault();
        }
        answer
    }

    // Opens a door, where nobody listens at the address.
    fn open<R: Wait>(&self, rt: &R, addr: &str) -> Result<MemDoor, NetFault> {
        let mut listeners = self.listeners.lock(rt);
        if find(&listeners, addr).is_some() {
            return Err(NetFault::Failed);
        }
        let (listener, door) = new_door(self.alloc, addr)?;
        add(&mut listeners, listener)?;
        Ok(door)
    }

    // Hands one end of a pair to who listens at the address.
    fn reach<R: Wait>(&self, rt: &R, addr: &str) -> Result<MemLink, NetFault>
        ensures { IfOk result (λ link. IsNewLink link) }
    {
        let (mine, theirs) = lines(self.alloc)?;
        let link = MemLink::on(self.alloc, mine)?;
        let listeners = self.listeners.lock(rt);
        let Some(listener) = find(&listeners, addr) else {
            return Err(NetFault::Failed);
        };
        match listener.links.send(rt, theirs) {
            Ok(()) => {
                listener.bell.ring();
                Ok(link)
            }
            Err(refused) if refused.is_out_of_memory() => Err(NetFault::NoMemory),
            Err(_) => Err(NetFault::Failed),
        }
    }

    // The next line at the door, where one is there.
    fn take<R: Wait>(&self, rt: &R, door: &MemDoor) -> Result<Option<MemLink>, NetFault>
        ensures { IfOk result (λ found. IfSome found (λ link. IsNewLink link)) }
    {
        match door.links.try_recv(rt) {
            Ok(line) => Ok(Some(MemLink::on(self.alloc, line)?)),
            Err(TryRecvError::Empty) => Ok(None),
            Err(TryRecvError::Disconnected) => Err(NetFault::Failed),
        }
    }
}

impl Net for MemNet {
    ghost use Rattle.std.specs.Prelude.{Some, map};
    ghost use Rattle.ec_link.specs.Happenings.{faults_in, total};
    ghost use Rattle.ec_link.specs.HappeningBodies.{closes_in, given_in, got_in};
    ghost use Rattle.ec_link.specs.NetAnswers.{is_bad};

    type Link = MemLink;

    type Door = MemDoor;

    type DoorBell = MemBell;

    ghost faults = { λ net. faults_in net.happened };

    ghost bad = { λ net. total (λ link. is_bad (faults_in link.value.happened) (closes_in link.value.happened)) net.came_back.items };

    ghost ended = { λ net. map (λ link. (Some (given_in link.value.happened), Some (got_in link.value.happened))) net.came_back.items };

    ghost asked = { λ net. map (λ name. name.items) net.asked.items };

    fn listen<R: Around>(&mut self, rt: &R, addr: &str) -> Result<MemDoor, NetFault> {
        self.note(addr);
        if self.fails_now() {
            return self.counted(Err(NetFault::Failed));
        }
        let opened = self.open(rt, addr);
        self.counted(opened)
    }

    fn place(&self, _door: &MemDoor) -> Option<SocketAddr> {
        None
    }

    fn door_bell<R: Around>(&mut self, _rt: &R, door: &mut MemDoor) -> Result<MemBell, NetFault> {
        Ok(MemBell::new(Arc::try_clone(&door.rings)?))
    }

    fn next<R: Around>(&mut self, rt: &R, door: &mut MemDoor) -> Result<Option<MemLink>, NetFault> {
        let taken = self.take(rt, door);
        self.counted(taken)
    }

    fn call<R: Around>(&mut self, rt: &R, addr: &str) -> Result<MemLink, NetFault> {
        self.note(addr);
        if self.fails_now() {
            return self.counted(Err(NetFault::Failed));
        }
        let reached = self.reach(rt, addr);
        self.counted(reached)
    }

    fn reason(&self) -> Option<io::Error> {
        None
    }

    fn back(&mut self, link: MemLink) -> Result<(), NoMemory> {
        self.came_back = self.came_back.and(&Snapshot::of(&link));
        Ok(())
    }
}
