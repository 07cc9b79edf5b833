// The net over TCP.
ghost use Rattle.std.specs.Prelude.{◌≡◌, ◌+◌, [], ◌∷◌, ◌++◌, map, IfOk, IfSome};
ghost use Rattle.ec_link.specs.Happenings.{faults_in};
ghost use Rattle.ec_link.specs.NetAnswers.{faulted};
ghost use Rattle.ec_link.specs.Tcp.{IsNewOver};

use crate::around::Around;
use crate::asked::named;
use crate::happenings::Happenings;
use crate::net::{Net, NetFault};
use crate::tcp::TcpLink;
use crate::tcp_bell::TcpBell;
use crate::tcp_door::{TcpDoor, take_socket};
use ec_base::NoMemory;
use ec_base::trace::Trace;
use std::alloc::Global;
use std::io;
use std::net::{SocketAddr, TcpListener, TcpStream};
use std::snapshot::Snapshot;

/// The net over TCP. An address is an IP address or a host's name, and a port, as `127.0.0.1:4711`.
#[derive(Drop)]
pub struct TcpNet {
    happened: Happenings,
    came_back: Trace<Snapshot<TcpLink>>,
    // The addresses of `listen` and `call`.
    asked: Trace<Trace<u8>>,
    // Why the last call that failed did.
    why: Option<io::Error>,
}

impl TcpNet {
    /// A net that has handed out nothing.
    pub fn new() -> TcpNet
        ensures { (faults_in result.happened ≡ 0) × (result.came_back.items ≡ []) × (result.asked.items ≡ []) }
    {
        TcpNet {
            happened: Happenings::new(),
            came_back: Trace::new(),
            asked: Trace::new(),
            why: None,
        }
    }

    // Notes an address that it's asked for.
    fn note(&mut self, addr: &str)
        ensures others { self.new ≡ record self.old { asked = self.new.asked } }
        ensures asked { map (λ name. name.items) self.new.asked.items ≡ map (λ name. name.items) self.old.asked.items ++ addr.now ∷ [] }
    {
        self.asked = self.asked.and(&named(addr));
    }

    // Counts a fault, where it is one.
    fn counted<T>(&mut self, answer: Result<T, NetFault>) -> Result<T, NetFault>
        ensures answer { result ≡ answer }
        ensures faults { faults_in self.new.happened ≡ faults_in self.old.happened + faulted answer }
        ensures others { self.new ≡ record self.old { happened = self.new.happened } }
    {
        if let Err(NetFault::Failed) = &answer {
            self.happened.fault();
        }
        answer
    }

    // What the system answered, and where it's a fault, why.
    fn heard<T>(&mut self, answer: io::Result<T>) -> Result<T, NetFault>
        ensures others { self.new ≡ record self.old { why = self.new.why } }
    {
        match answer {
            Ok(given) => Ok(given),
            Err(why) => {
                self.why = Some(why);
                Err(NetFault::Failed)
            }
        }
    }

    // A link over the socket, where there is one.
    fn linked(&mut self, alloc: Global, stream: io::Result<TcpStream>) -> Result<TcpLink, NetFault>
        ensures link { IfOk result (λ link. IsNewOver link) }
        ensures faults { faults_in self.new.happened ≡ faults_in self.old.happened + faulted result }
        ensures same { (self.new.came_back ≡ self.old.came_back) × (self.new.asked ≡ self.old.asked) }
    {
        let link = match self.heard(stream) {
            Ok(stream) => TcpLink::over(alloc, stream, None),
            Err(fault) => Err(fault),
        };
        self.counted(link)
    }

    // The next link at the door, where one is there. Each link that comes has what its bell needs.
    fn taken<R: std::net::Net>(
        &mut self,
        rt: &R,
        alloc: Global,
        door: &mut TcpDoor,
    ) -> Result<Option<TcpLink>, NetFault>
        ensures link { IfOk result (λ found. IfSome found (λ link. IsNewOver link)) }
        ensures others { self.new ≡ record self.old { why = self.new.why } }
    {
        let Some(parts) = door.take_spare(rt, alloc) else {
            return Ok(None);
        };
        match self.heard(take_socket(&door.listener))? {
            Some(stream) => over_or_gone(TcpLink::over(alloc, stream, Some(parts))),
            None => {
                door.keep_spare(parts);
                Ok(None)
            }
        }
    }
}

fn opened(listener: io::Result<TcpListener>) -> io::Result<TcpDoor> {
    TcpDoor::over(listener?)
}

// Where nobody listens at a port of the range that the system gives callers, a socket may be connected to itself.
fn connected(stream: io::Result<TcpStream>) -> io::Result<TcpStream> {
    let stream = stream?;
    if stream.local_addr()? == stream.peer_addr()? {
        drop(stream);
        return Err(io::Error::from(io::ErrorKind::ConnectionRefused));
    }
    Ok(stream)
}

// A socket that can't be used is one whose other end has gone.
fn over_or_gone(link: Result<TcpLink, NetFault>) -> Result<Option<TcpLink>, NetFault>
    requires { IfOk link (λ link. IsNewOver link) }
    ensures { IfOk result (λ found. IfSome found (λ link. IsNewOver link)) }
{
    match link {
        Ok(link) => Ok(Some(link)),
        Err(NetFault::Failed) => Ok(None),
        Err(NetFault::NoMemory) => Err(NetFault::NoMemory),
    }
}

impl Net for TcpNet {
    ghost use Rattle.std.specs.Prelude.{Some, map};
    ghost use Rattle.ec_link.specs.Happenings.{faults_in, total};
    ghost use Rattle.ec_link.specs.HappeningBodies.{closes_in, given_in, got_in};
    ghost use Rattle.ec_link.specs.NetAnswers.{is_bad};

    type Link = TcpLink;

    type Door = TcpDoor;

    type DoorBell = TcpBell;

    ghost faults = { λ net. faults_in net.happened };

    ghost bad = { λ net. total (λ link. is_bad (faults_in link.value.happened) (closes_in link.value.happened)) net.came_back.items };

    ghost ended = { λ net. map (λ link. (Some (given_in link.value.happened), Some (got_in link.value.happened))) net.came_back.items };

    ghost asked = { λ net. map (λ name. name.items) net.asked.items };

    fn listen<R: Around>(&mut self, rt: &R, addr: &str) -> Result<TcpDoor, NetFault> {
        self.note(addr);
        let door = self.heard(opened(TcpListener::bind(rt, addr)));
        self.counted(door)
    }

    fn place(&self, door: &TcpDoor) -> Option<SocketAddr> {
        door.listener.local_addr().ok()
    }

    fn door_bell<R: Around>(&mut self, rt: &R, door: &mut TcpDoor) -> Result<TcpBell, NetFault> {
        let bell = self.heard(door.bell(rt, rt.alloc()));
        self.counted(bell)
    }

    fn next<R: Around>(&mut self, rt: &R, door: &mut TcpDoor) -> Result<Option<TcpLink>, NetFault> {
        let taken = self.taken(rt, rt.alloc(), door);
        self.counted(taken)
    }

    fn call<R: Around>(&mut self, rt: &R, addr: &str) -> Result<TcpLink, NetFault> {
        self.note(addr);
        self.linked(rt.alloc(), connected(TcpStream::connect(rt, addr)))
    }

    fn reason(&self) -> Option<io::Error> {
        self.why
    }

    fn back(&mut self, link: TcpLink) -> Result<(), NoMemory> {
        self.came_back = self.came_back.and(&Snapshot::of(&link));
        Ok(())
    }
}
