// One end of a link, with its counts and, where it tells them, the bodies that it gave and got.
ghost use Rattle.std.specs.Prelude.{◌≡◌, ℕ, ◌+◌, ◌≤◌, Bool, true, List, Option, Some};
ghost use Rattle.ec_streams.specs.OfFrame.Frames.{IsBody};
ghost use Rattle.ec_link.specs.declared.link.Sent.TheVariants as sent;
ghost use Rattle.ec_link.specs.Links.{Heard, added};
ghost use Rattle.ec_link.specs.LinkAnswers.{failed, fault_of, close_of, heard, carried, Reads, IsShut};
ghost use Rattle.ec_link.specs.NetAnswers.{faulted};

use crate::around::Around;
use crate::bell::Bell;
use crate::net::NetFault;
use std::sync::Wait;
use std::time::Clock;

/// What a link answers to a body.
#[derive(Clone, Copy, Debug, Drop, PartialEq, Eq)]
pub enum Sent {
    Done,
    /// The link failed, or the body doesn't fit a frame.
    Failed,
    NoMemory,
}

/// What a link gives.
#[derive(Drop)]
pub enum Got {
    Body(Vec<u8>),
    /// No whole frame was there.
    Nothing,
    /// The next length, which is above the limit.
    Long(u32),
    /// The other end is gone, and no whole frame is left.
    Closed,
    Failed,
    NoMemory,
}

/// One end of a link. No call but `leave` waits for the other end.
pub trait Link {
    type Bell: Bell + Send + Sync + Drop;

    // How often it failed.
    ghost faults: { Self → ℕ };

    // How often it was found closed.
    ghost closes: { Self → ℕ };

    // What `recv` gave, where it is told.
    ghost given: { Self → Option (List Heard) };

    // The bodies that it got by a `send` that was `Done`, where they are told.
    ghost got: { Self → Option (List (List ℕ)) };

    // The bytes that were read from the other end and are not given yet.
    ghost held: { Self → List ℕ };

    // Whether it keeps back nothing of what it got.
    ghost clear: { Self → Bool };

    // Whether it was ended for the other end, where it is told.
    ghost shut: { Self → Option Bool };

    /// Hands a body of at most 1,048,576 bytes to the other end.
    fn send<R: Wait + Clock>(&mut self, rt: &R, body: &[u8]) -> Sent
        ensures faults { faults self.old + failed result ≤ faults self.new }
        ensures closes { closes self.old ≤ closes self.new }
        ensures given { given self.new ≡ given self.old }
        ensures got { got self.new ≡ added (got self.old) (carried result body.now) }
        ensures held { held self.new ≡ held self.old }
        ensures long { (IsBody body.now → ⊥) → result ≡ sent.Failed }
        ensures shut { shut self.old ≡ Some true → result ≡ sent.Done → ⊥ };

    /// The same for a body that may rest for so many milliseconds, while later ones pass it. It goes with a `recv` behind that time, and who
    /// waits on the bell meanwhile returns by then.
    fn send_late<R: Wait + Clock>(&mut self, rt: &R, body: &[u8], rest: u64) -> Sent
        ensures faults { faults self.old + failed result ≤ faults self.new }
        ensures closes { closes self.old ≤ closes self.new }
        ensures given { given self.new ≡ given self.old }
        ensures got { got self.new ≡ added (got self.old) (carried result body.now) }
        ensures held { held self.new ≡ held self.old }
        ensures long { (IsBody body.now → ⊥) → result ≡ sent.Failed }
        ensures shut { shut self.old ≡ Some true → result ≡ sent.Done → ⊥ };

    /// Gives the next body, where a whole frame is there.
    fn recv<R: Wait + Clock>(&mut self, rt: &R) -> Got
        ensures faults { faults self.old + fault_of result ≤ faults self.new }
        ensures closes { closes self.old + close_of result ≤ closes self.new }
        ensures given { given self.new ≡ added (given self.old) (heard result) }
        ensures got { got self.new ≡ got self.old }
        ensures read { Reads (held self.old) (held self.new) result };

    /// Whether it keeps back nothing of what it got, so that a further body has room. Where the other end takes nothing, a link may keep back
    /// what it gets, and a `recv` hands on what is taken then. What rests is kept back too.
    fn is_clear(&self) -> bool
        ensures { result ≡ clear self.now };

    /// Ends the link for the other end, which finds it closed behind what it gets still. Nothing more goes to it.
    fn hang_up(&mut self)
        ensures counts { (faults self.new ≡ faults self.old) × (closes self.new ≡ closes self.old) }
        ensures bodies { (given self.new ≡ given self.old) × (got self.new ≡ got self.old) × (held self.new ≡ held self.old) }
        ensures shut { IsShut (shut self.new) };

    /// Ends the sending side behind what the link got, and drops what comes still, until the other end is gone too. It waits for a second at most.
    fn leave<R: Wait + Clock>(&mut self, rt: &R)
        ensures counts { (faults self.new ≡ faults self.old) × (closes self.new ≡ closes self.old) }
        ensures bodies { (given self.new ≡ given self.old) × (got self.new ≡ got self.old) × (held self.new ≡ held self.old) }
        ensures shut { IsShut (shut self.new) };

    /// What threads wait on for this link. It rings whenever `recv` may have something new. `Failed` is a fault of the link.
    fn bell<R: Around>(&mut self, rt: &R) -> Result<Self::Bell, NetFault>
        ensures faults { faults self.old + faulted result ≤ faults self.new }
        ensures closes { closes self.new ≡ closes self.old }
        ensures bodies { (given self.new ≡ given self.old) × (got self.new ≡ got self.old) × (held self.new ≡ held self.old) };
}
