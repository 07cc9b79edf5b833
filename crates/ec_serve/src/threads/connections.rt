// The links that come to a server.
ghost use Rattle.std.specs.Prelude.{◌≡◌, ◌+◌, ◌<◌, [], ◌∷◌, ◌++◌, length, true, false, IfSome, IfNone};
ghost use Rattle.std.specs.declared.snapshot.Snapshot.{Snapshot as Shot};
ghost use Rattle.ec_link.specs.NetAnswers.{IsEmpty, is_bad};
ghost use Rattle.ec_link.specs.JobCounts.{job_taken};
ghost use Rattle.ec_servernode.specs.TurnSteps.{IsServerPass};
ghost use Rattle.ec_attend.specs.OverLinks.{EndsSo, BeginsSo, GoneSo};
ghost use Rattle.ec_serve.specs.OfThreads.Tallies.{KnowsMore, Begins, Looks, NoneComes, OneComes, GivesBack};
ghost use Rattle.ec_serve.specs.OfThreads.ServingMoments.{back_of, moment, GoesOn};

use ec_attend::bells::{Bells, Watch, give_back, tell_begin};
use ec_attend::{Connection, Ended};
use ec_base::trace::Trace;
use ec_link::{Around, Link, Net, NetFault};
use ec_server::Keeper;
use ec_servernode::{ServerPass, SharedServer};
use std::io::Eprint;
use std::snapshot::Snapshot;

/// What became of a server's links so far.
#[derive(Drop)]
pub struct Tally<L> {
    /// So many are still to come.
    pub left: u32,
    /// The net failed.
    pub failed: bool,
    /// Memory was wanting, or the server is down.
    pub wants: bool,
    pub begun: Trace<u64>,
    pub back: Trace<Snapshot<L>>,
}

impl<L> Tally<L> {
    /// No link came yet.
    pub fn new(count: u32) -> Tally<L>
        ensures links { (result.left ≡ count) × (result.begun.items ≡ []) × (result.back.items ≡ []) }
        ensures fine { (result.failed ≡ false) × (result.wants ≡ false) }
    {
        Tally {
            left: count,
            failed: false,
            wants: false,
            begun: Trace::new(),
            back: Trace::new(),
        }
    }

    // The link of this number came.
    fn begin(&mut self, number: u64)
        requires { 0 < self.old.left }
        ensures left { self.new.left + length self.new.begun.items ≡ self.old.left + length self.old.begun.items }
        ensures begun { length self.new.begun.items ≡ length self.old.begun.items + 1 }
        ensures others { (self.new.back ≡ self.old.back) × (self.new.failed ≡ self.old.failed) × (self.new.wants ≡ self.old.wants) }
    {
        self.left -= 1;
        self.begun = self.begun.and(&number);
    }
}

/// The links that are to come at one door, and those that came.
#[derive(Drop)]
pub struct Connections<'s, 'b, K: Keeper + Drop, N: Net> {
    pub server: &'s SharedServer<K>,
    pub bells: &'b Bells<<N::Link as Link>::Bell, N::DoorBell>,
    pub door: N::Door,
    /// The number of the last link that came.
    pub number: u64,
    pub tally: Tally<N::Link>,
    /// What the warden begins with, until it was started.
    pub watch: Option<Watch>,
}

impl<'s, 'b, K: Keeper + Drop, N: Net> Connections<'s, 'b, K, N> {
    // A link came. Where the server is down, it isn't served.
    fn begin<R: Around + Eprint>(
        &mut self,
        rt: &R,
        pass: &mut ServerPass<K>,
        link: N::Link,
    ) -> Option<Connection<'s, 'b, K, N::Link, N::DoorBell>>
        requires pass { IsServerPass K.kept self.old.server.now.lock pass.old }
        requires left { 0 < self.old.tally.left }
        requires link { IsEmpty (N.Link.given link) × IsEmpty (N.Link.got link) }
        ensures server { self.new.server ≡ self.old.server }
        ensures pass { IsServerPass K.kept self.old.server.now.lock pass.new }
        ensures knows { KnowsMore pass.old.pass pass.new.pass }
        ensures tally { Begins (job_taken result) self.old.tally self.new.tally }
        ensures none { IfNone result (self.new.tally.wants ≡ true) }
        ensures some { IfSome result (λ c. (c.server ≡ self.old.server) × IsServerPass K.kept self.old.server.now.lock c.pass × BeginsSo N.Link.given N.Link.got c.pass.pass c.link) }
    {
        if self.bells.is_over() {
            self.tally.wants = true;
            return None;
        }
        let Some(new) = self.server.split(rt, pass) else {
            self.tally.wants = true;
            return None;
        };
        self.number = self.number.saturating_add(1);
        self.tally.begin(self.number);
        tell_begin(rt, self.number);
        Some(Connection {
            server: self.server,
            bells: self.bells,
            number: self.number,
            pass: new,
            link,
        })
    }

    // Gives a link back.
    fn give_back(&mut self, net: &mut N, link: N::Link, is_over: bool)
        ensures server { self.new.server ≡ self.old.server }
        ensures others { (self.new.tally.left ≡ self.old.tally.left) × (self.new.tally.begun ≡ self.old.tally.begun) × (self.new.tally.failed ≡ self.old.tally.failed) }
        ensures faults { N.faults net.new ≡ N.faults net.old }
        ensures asked { N.asked net.new ≡ N.asked net.old }
        ensures back { (shot : Shot N.Link) × (shot.value ≡ link) × (self.new.tally.back.items ≡ self.old.tally.back.items ++ shot ∷ []) }
        ensures wants { self.old.tally.wants ≡ true → self.new.tally.wants ≡ true }
        ensures came { self.new.tally.wants ≡ false → (self.old.tally.wants ≡ false) × (is_over ≡ true) × (N.ended net.new ≡ N.ended net.old ++ (N.Link.given link, N.Link.got link) ∷ []) × (N.bad net.new ≡ N.bad net.old + is_bad (N.Link.faults link) (N.Link.closes link)) }
    {
        self.tally.back = self.tally.back.and(&Snapshot::of(&link));
        if give_back(net, link) {
            self.tally.wants = self.tally.wants || !is_over;
        } else {
            self.tally.wants = true;
        }
    }

    /// Whether no further link is to come.
    pub fn is_over(&mut self) -> bool
        ensures server { self.new.server ≡ self.old.server }
        ensures tally { Looks self.old.tally self.new.tally }
        ensures over { result ≡ true → NoneComes self.new.tally }
        ensures more { result ≡ false → OneComes self.new.tally }
    {
        self.tally.wants = self.tally.wants || self.bells.is_over();
        self.tally.left == 0 || self.tally.failed || self.tally.wants
    }

    /// Waits for the door, unless no further link is to come or it has rung since it stood at `seen`.
    pub fn rest<R: Around>(&self, rt: &R, seen: u64) {
        if self.tally.left > 0 && !self.tally.failed && !self.tally.wants {
            self.bells.wait(rt, seen);
        }
    }

    /// The next link, where one is there. Its pass is drawn by the server's own.
    pub fn next<R: Around + Eprint>(
        &mut self,
        rt: &R,
        net: &mut N,
        pass: &mut ServerPass<K>,
    ) -> Option<Connection<'s, 'b, K, N::Link, N::DoorBell>>
        requires pass { IsServerPass K.kept self.old.server.now.lock pass.old }
        ensures pass { IsServerPass K.kept self.new.server.now.lock pass.new }
        ensures server { self.new.server ≡ self.old.server }
        ensures goes { GoesOn N.faults N.bad N.ended (back_of N.Link.faults N.Link.closes N.Link.given N.Link.got)
            (moment net.old self.old.tally pass.old.pass) (moment net.new self.new.tally pass.new.pass) }
        ensures asked { N.asked net.new ≡ N.asked net.old }
        ensures begun { length self.new.tally.begun.items ≡ length self.old.tally.begun.items + job_taken result }
        ensures back { self.new.tally.back ≡ self.old.tally.back }
        ensures some { IfSome result (λ c. (c.server ≡ self.old.server) × IsServerPass K.kept self.old.server.now.lock c.pass × BeginsSo N.Link.given N.Link.got c.pass.pass c.link) }
    {
        if self.tally.left == 0 {
            return None;
        }
        match net.next(rt, &mut self.door) {
            Ok(Some(link)) => self.begin(rt, pass, link),
            Ok(None) => None,
            Err(NetFault::Failed) => {
                self.tally.failed = true;
                None
            }
            Err(NetFault::NoMemory) => {
                self.tally.wants = true;
                None
            }
        }
    }

    /// A link isn't served any more: its pass goes into the server's own, and the net gets it back.
    pub fn done(&mut self, net: &mut N, pass: &mut ServerPass<K>, out: Ended<K, N::Link>)
        requires pass { IsServerPass K.kept self.old.server.now.lock pass.old }
        requires out { IsServerPass K.kept self.old.server.now.lock out.pass × EndsSo N.Link.faults N.Link.closes N.Link.given out.is_over out.pass.pass out.link × GoneSo N.Link.given N.Link.got out.is_over out.pass.pass out.link }
        ensures pass { IsServerPass K.kept self.new.server.now.lock pass.new }
        ensures server { self.new.server ≡ self.old.server }
        ensures goes { GoesOn N.faults N.bad N.ended (back_of N.Link.faults N.Link.closes N.Link.given N.Link.got)
            (moment net.old self.old.tally pass.old.pass) (moment net.new self.new.tally pass.new.pass) }
        ensures asked { N.asked net.new ≡ N.asked net.old }
        ensures gone { GivesBack 1 self.old.tally self.new.tally }
    {
        let Ended {
            pass: other,
            link,
            is_over,
        } = out;
        self.server.join(pass, other);
        self.give_back(net, link, is_over);
    }
}
