// Nets, which hand out links by address and take them back.
ghost use Rattle.std.specs.Prelude.{◌≡◌, ℕ, ◌+◌, ◌≤◌, ◌++◌, [], ◌∷◌, List, IfOk, IfSome, OnOk};
ghost use Rattle.ec_link.specs.Nets.{Ended};
ghost use Rattle.ec_link.specs.NetAnswers.{is_bad, IsEmpty, faulted};

use crate::around::Around;
use crate::bell::Bell;
use crate::link::Link;
use ec_base::NoMemory;
use std::alloc::AllocError;
use std::io;
use std::net::SocketAddr;

#[derive(Clone, Copy, Debug, Drop, PartialEq, Eq)]
pub enum NetFault {
    Failed,
    NoMemory,
}

impl From<AllocError> for NetFault {
    ghost use Rattle.std.specs.Prelude.{◌≡◌};
    ghost use Rattle.ec_link.specs.declared.net.NetFault.TheVariants as fault;

    ghost from_gives = { λ _ e. e ≡ fault.NoMemory };

    fn from(_: AllocError) -> Self {
        NetFault::NoMemory
    }
}

impl From<NoMemory> for NetFault {
    ghost use Rattle.std.specs.Prelude.{◌≡◌};
    ghost use Rattle.ec_link.specs.declared.net.NetFault.TheVariants as fault;

    ghost from_gives = { λ _ e. e ≡ fault.NoMemory };

    fn from(_: NoMemory) -> Self {
        NetFault::NoMemory
    }
}

/// Where links come from.
pub trait Net: Send {
    type Link: Link + Send + Drop;

    /// An address at which links are accepted.
    type Door: Send + Drop;

    /// What who accepts at a door waits on.
    type DoorBell: Bell + Send + Sync + Drop;

    // How often it failed.
    ghost faults: { Self → ℕ };

    // How many of the links that came back had failed or closed.
    ghost bad: { Self → ℕ };

    // What the links that came back gave and got, in order.
    ghost ended: { Self → List Ended };

    // The addresses that it was asked for, by `listen` and by `call`, in order.
    ghost asked: { Self → List (List ℕ) };

    /// Opens a door at the address.
    fn listen<R: Around>(&mut self, rt: &R, addr: &str) -> Result<Self::Door, NetFault>
        ensures faults { faults self.old + faulted result ≤ faults self.new }
        ensures same { (bad self.new ≡ bad self.old) × (ended self.new ≡ ended self.old) }
        ensures asked { asked self.new ≡ asked self.old ++ addr.now ∷ [] };

    /// Where the door is, if it has an address of the system's.
    fn place(&self, door: &Self::Door) -> Option<SocketAddr>;

    /// The bell of a door. It rings whenever a link comes there.
    fn door_bell<R: Around>(
        &mut self,
        rt: &R,
        door: &mut Self::Door,
    ) -> Result<Self::DoorBell, NetFault>
        ensures faults { faults self.old + faulted result ≤ faults self.new }
        ensures same { (bad self.new ≡ bad self.old) × (ended self.new ≡ ended self.old) }
        ensures asked { asked self.new ≡ asked self.old };

    /// The next link at the door, where one is there, with no faults and no closes, which gave and got nothing. It waits for nobody. Where
    /// there is no room for a link, it's as if none were there, though the bell doesn't ring once there is: who waits looks again in time.
    fn next<R: Around>(
        &mut self,
        rt: &R,
        door: &mut Self::Door,
    ) -> Result<Option<Self::Link>, NetFault>
        ensures faults { faults self.old + faulted result ≤ faults self.new }
        ensures same { (bad self.new ≡ bad self.old) × (ended self.new ≡ ended self.old) }
        ensures asked { asked self.new ≡ asked self.old }
        ensures link { IfOk result (λ found. IfSome found (λ link. (Self.Link.faults link ≡ 0) × (Self.Link.closes link ≡ 0) × IsEmpty (Self.Link.given link) × IsEmpty (Self.Link.got link))) };

    /// Waits for the next link at the door. It has no faults and no closes, and gave and got nothing.
    fn accept<R: Around>(&mut self, rt: &R, door: &mut Self::Door) -> Result<Self::Link, NetFault>
        ensures faults { faults self.old + faulted result ≤ faults self.new }
        ensures same { (bad self.new ≡ bad self.old) × (ended self.new ≡ ended self.old) }
        ensures asked { asked self.new ≡ asked self.old }
        ensures link { IfOk result (λ link. (Self.Link.faults link ≡ 0) × (Self.Link.closes link ≡ 0) × IsEmpty (Self.Link.given link) × IsEmpty (Self.Link.got link)) }
    {
        let bell = self.door_bell(rt, door)?;
        for _ in rt.forever() {
            let seen = bell.rings();
            if let Some(link) = self.next(rt, door)? {
                return Ok(link);
            }
            bell.wait(rt, seen);
        }
        unreachable!()
    }

    /// A link to whoever listens at the address. It has no faults and no closes, and gave and got nothing.
    fn call<R: Around>(&mut self, rt: &R, addr: &str) -> Result<Self::Link, NetFault>
        ensures faults { faults self.old + faulted result ≤ faults self.new }
        ensures same { (bad self.new ≡ bad self.old) × (ended self.new ≡ ended self.old) }
        ensures asked { asked self.new ≡ asked self.old ++ addr.now ∷ [] }
        ensures link { IfOk result (λ link. (Self.Link.faults link ≡ 0) × (Self.Link.closes link ≡ 0) × IsEmpty (Self.Link.given link) × IsEmpty (Self.Link.got link)) };

    /// Why the last call that failed did, where the system told it. Its text is for people.
    fn reason(&self) -> Option<io::Error>;

    /// Takes back a link of this net whose use has ended.
    fn back(&mut self, link: Self::Link) -> Result<(), NoMemory>
        ensures faults { faults self.new ≡ faults self.old }
        ensures bad { OnOk result (bad self.new ≡ bad self.old + is_bad (Self.Link.faults link) (Self.Link.closes link)) }
        ensures ended { OnOk result (ended self.new ≡ ended self.old ++ (Self.Link.given link, Self.Link.got link) ∷ []) }
        ensures asked { asked self.new ≡ asked self.old };
}
