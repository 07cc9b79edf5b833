// What happened at a link, which stands in proofs alone and has no bytes.
ghost use Rattle.std.specs.Prelude.{◌≡◌, [], ◌∷◌, ◌++◌, drop};
ghost use Rattle.ec_link.specs.Links.{body, long};
ghost use Rattle.ec_link.specs.Happenings.{fault_at, faults_in};
ghost use Rattle.ec_link.specs.HappeningBodies.{close_at, given_at, got_at, closes_in, given_in, got_in, More};

use ec_base::trace::Trace;
use std::snapshot::Snapshot;

/// One thing that happened at a link.
#[derive(Drop)]
pub enum Happening {
    Fault,
    Close,
    /// This body was given.
    Gave(Snapshot<Vec<u8>>),
    /// This length was given, which is above the limit.
    Long(u32),
    /// A frame with this body was got.
    Got(Snapshot<Vec<u8>>),
}

/// All that happened at a link, in order.
#[derive(Drop)]
pub struct Happenings {
    trace: Trace<Happening>,
}

impl Happenings {
    pub fn new() -> Happenings
        ensures none { (faults_in result ≡ 0) × (closes_in result ≡ 0) × (given_in result ≡ []) × (got_in result ≡ []) }
    {
        Happenings {
            trace: Trace::new(),
        }
    }

    fn add(&mut self, happening: &Happening)
        ensures { More self.old self.new (fault_at happening.now) (close_at happening.now) (given_at happening.now) (got_at happening.now) }
    {
        self.trace = self.trace.and(happening);
    }

    pub fn fault(&mut self)
        ensures { More self.old self.new 1 0 [] [] }
    {
        self.add(&Happening::Fault);
    }

    pub fn close(&mut self)
        ensures { More self.old self.new 0 1 [] [] }
    {
        self.add(&Happening::Close);
    }

    pub fn gave(&mut self, bytes: &Vec<u8>)
        ensures { More self.old self.new 0 0 (body bytes.now.items ∷ []) [] }
    {
        self.add(&Happening::Gave(Snapshot::of(bytes)));
    }

    pub fn long(&mut self, length: u32)
        ensures { More self.old self.new 0 0 (long length ∷ []) [] }
    {
        self.add(&Happening::Long(length));
    }

    pub fn got(&mut self, frame: Snapshot<Vec<u8>>)
        ensures { More self.old self.new 0 0 [] (drop 4 frame.value.items ∷ []) }
    {
        self.add(&Happening::Got(frame));
    }
}
