// A net that is lent to who links again, which may be another thread.
ghost use Rattle.std.specs.Prelude.{◌≡◌, ℕ, ◌+◌, ◌≤◌, ◌++◌, [], ◌∷◌, List, IfOk, OnOk};
ghost use Rattle.ec_link.specs.Nets.{Ended};
ghost use Rattle.ec_link.specs.NetAnswers.{is_bad, IsEmpty, faulted};

use ec_base::NoMemory;
use ec_link::{Around, Link, Net, NetFault};

/// The calls that who links again makes of a net.
pub trait Lending: Send {
    type Link: Link + Send + Drop;

    // As of the net.
    ghost faults: { Self → ℕ };

    ghost bad: { Self → ℕ };

    ghost ended: { Self → List Ended };

    // What tells that it's the same that was lent.
    ghost name: { Self → ℕ };

    /// A link to whoever listens at the address. It has no faults and no closes, and gave and got nothing.
    fn call<R: Around>(&mut self, rt: &R, addr: &str) -> Result<Self::Link, NetFault>
        ensures faults { faults self.old + faulted result ≤ faults self.new }
        ensures same { (bad self.new ≡ bad self.old) × (ended self.new ≡ ended self.old) }
        ensures link { IfOk result (λ link. (Self.Link.faults link ≡ 0) × (Self.Link.closes link ≡ 0) × IsEmpty (Self.Link.given link) × IsEmpty (Self.Link.got link)) }
        ensures name { name self.new ≡ name self.old };

    /// Takes back a link of this net whose use has ended.
    fn back(&mut self, link: Self::Link) -> Result<(), NoMemory>
        ensures faults { faults self.new ≡ faults self.old }
        ensures bad { OnOk result (bad self.new ≡ bad self.old + is_bad (Self.Link.faults link) (Self.Link.closes link)) }
        ensures ended { OnOk result (ended self.new ≡ ended self.old ++ (Self.Link.given link, Self.Link.got link) ∷ []) }
        ensures name { name self.new ≡ name self.old };
}

/// A net that is lent.
#[derive(Drop)]
pub struct Lent<'a, N: Net> {
    pub net: &'a mut N,
}

impl<'a, N: Net> Lending for Lent<'a, N> {
    type Link = N::Link;

    ghost faults = { λ l. N.faults l.net.now };

    ghost bad = { λ l. N.bad l.net.now };

    ghost ended = { λ l. N.ended l.net.now };

    ghost name = { λ l. l.net.ghost_name };

    fn call<R: Around>(&mut self, rt: &R, addr: &str) -> Result<N::Link, NetFault> {
        self.net.call(rt, addr)
    }

    fn back(&mut self, link: N::Link) -> Result<(), NoMemory> {
        self.net.back(link)
    }
}

/// Does nothing, but this use of a reference that came back ties it to what was lent.
pub fn take_back<T>(lent: &mut T)
    ensures { lent.new ≡ lent.old }
{}
