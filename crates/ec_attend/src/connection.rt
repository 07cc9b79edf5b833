// One link of a server, which is served in a thread of its own.
ghost use Rattle.std.specs.Prelude.{◌≡◌, ◌≤◌, IfSome, IfNone};
ghost use Rattle.ec_link.specs.LinkAnswers.{IsShut};
ghost use Rattle.ec_lock.specs.PassViews.{Same, front};
ghost use Rattle.ec_servernode.specs.TurnSteps.{IsServerPass};
ghost use Rattle.ec_attend.specs.Links.{WasReplaced};
ghost use Rattle.ec_attend.specs.OverLinks.{IsOverBy, is_over, EndsSo, IsServed, WasServed, BeginsSo, GoneSo};

use crate::bells::{Bells, Gone, tell_end, tell_greeting};
use ec_base::NoMemory;
use ec_link::{Around, Bell, Link, NetFault};
use ec_server::Keeper;
use ec_servernode::{ServeFault, ServerPass, SharedServer, Told, Turned};
use std::io::Eprint;
use std::sync::Arc;

// So many messages are taken behind a fault of their link.
const MOST_REST: u32 = 256;

/// A link that is to be served.
#[derive(Drop)]
pub struct Connection<'s, 'b, K: Keeper + Drop, L: Link + Drop, D: Bell + Drop> {
    pub server: &'s SharedServer<K>,
    pub bells: &'b Bells<L::Bell, D>,
    pub number: u64,
    pub pass: ServerPass<K>,
    pub link: L,
}

/// A link that isn't served any more.
#[derive(Drop)]
pub struct Ended<K: Keeper + Drop, L: Link + Drop> {
    pub pass: ServerPass<K>,
    pub link: L,
    /// It was closed or replaced, or failed, or gave what is no message. Else the server is down, or memory was wanting.
    pub is_over: bool,
}

// Where a link stands among the bells of those that are served.
#[derive(Drop)]
struct Place<'b, B: Bell + Drop, D: Bell + Drop> {
    bells: &'b Bells<B, D>,
    number: u64,
}

/// Serves the link to its end, or until the server is down. Its key then stands among those that have ended.
pub fn serve_connection<K: Keeper + Drop, L: Link + Drop, D: Bell + Drop, R: Around + Eprint>(
    rt: &R,
    connection: Connection<'_, '_, K, L, D>,
    key: usize,
) -> Ended<K, L>
    requires { IsServerPass K.kept connection.server.now.lock connection.pass × BeginsSo L.given L.got connection.pass.pass connection.link }
    ensures { IsServerPass K.kept connection.entry.server.now.lock result.pass × EndsSo L.faults L.closes L.given result.is_over result.pass.pass result.link × GoneSo L.given L.got result.is_over result.pass.pass result.link × IsShut (L.shut result.link) }
{
    let Connection {
        server,
        bells,
        number,
        mut pass,
        mut link,
    } = connection;
    let place = Place { bells, number };
    let end = serve_link(rt, server, &place, &mut pass, &mut link);
    let is_over = is_over(&end);
    tell_end(rt, number, bells.remove(rt, number), &end);
    link.hang_up();
    if !is_over {
        bells.close(rt);
    }
    bells.end(rt, key);
    Ended {
        pass,
        link,
        is_over,
    }
}

// Whether the link is at its end, and nothing else.
fn is_over(end: &Result<Gone, ServeFault>) -> bool
    ensures { result ≡ is_over end.now }
{
    match end {
        Ok(_) => true,
        Err(ServeFault::Net | ServeFault::Peer(_) | ServeFault::Long(_)) => true,
        Err(_) => false,
    }
}

// Serves the link to its end, or until the server is down.
fn serve_link<K: Keeper + Drop, L: Link, D: Bell + Drop, R: Around + Eprint>(
    rt: &R,
    server: &SharedServer<K>,
    place: &Place<'_, L::Bell, D>,
    pass: &mut ServerPass<K>,
    link: &mut L,
) -> Result<Gone, ServeFault>
    requires pass { IsServerPass K.kept server.now.lock pass.old }
    requires served { IsServed L.given L.got pass.old.pass link.old }
    ensures pass { IsServerPass K.kept server.now.lock pass.new }
    ensures same { Same pass.old.pass pass.new.pass }
    ensures over { IsOverBy (L.faults link.new) (L.closes link.new) (L.given link.new) (WasReplaced pass.new.pass.number (front pass.new.pass)) result }
    ensures served { WasServed L.given L.got (is_over result) pass.new.pass link.new }
{
    let bell = match link.bell(rt) {
        Ok(bell) => bell,
        Err(NetFault::Failed) => return Err(ServeFault::Net),
        Err(NetFault::NoMemory) => return Err(ServeFault::NoMemory),
    };
    let Ok(bell) = Arc::new(rt.alloc(), bell) else {
        return Err(ServeFault::NoMemory);
    };
    if add_bell(rt, place, &bell).is_err() {
        return Err(ServeFault::NoMemory);
    }
    take_turns(rt, server, place, &*bell, pass, link)
}

fn add_bell<B: Bell + Drop, D: Bell + Drop, R: Around>(
    rt: &R,
    place: &Place<'_, B, D>,
    bell: &Arc<B>,
) -> Result<(), NoMemory> {
    place.bells.add(rt, place.number, Arc::try_clone(bell)?)
}

// Takes turns with the link until it's at its end.
fn take_turns<K: Keeper + Drop, L: Link, D: Bell + Drop, R: Around + Eprint>(
    rt: &R,
    server: &SharedServer<K>,
    place: &Place<'_, L::Bell, D>,
    bell: &L::Bell,
    pass: &mut ServerPass<K>,
    link: &mut L,
) -> Result<Gone, ServeFault>
    requires pass { IsServerPass K.kept server.now.lock pass.old }
    requires served { IsServed L.given L.got pass.old.pass link.old }
    ensures pass { IsServerPass K.kept server.now.lock pass.new }
    ensures same { Same pass.old.pass pass.new.pass }
    ensures over { IsOverBy (L.faults link.new) (L.closes link.new) (L.given link.new) (WasReplaced pass.new.pass.number (front pass.new.pass)) result }
    ensures served { WasServed L.given L.got (is_over result) pass.new.pass link.new }
{
    for _ in rt.forever() {
        if let Some(end) = turn(rt, server, place, bell, pass, link) {
            return end;
        }
    }
    unreachable!()
}

// One turn with the link. Where there is nothing to do it waits for the bell, outside of every lock.
fn turn<K: Keeper + Drop, L: Link, D: Bell + Drop, R: Around + Eprint>(
    rt: &R,
    server: &SharedServer<K>,
    place: &Place<'_, L::Bell, D>,
    bell: &L::Bell,
    pass: &mut ServerPass<K>,
    link: &mut L,
) -> Option<Result<Gone, ServeFault>>
    requires pass { IsServerPass K.kept server.now.lock pass.old }
    requires served { IsServed L.given L.got pass.old.pass link.old }
    ensures pass { IsServerPass K.kept server.now.lock pass.new }
    ensures same { Same pass.old.pass pass.new.pass }
    ensures over { IfSome result (λ end. IsOverBy (L.faults link.new) (L.closes link.new) (L.given link.new) (WasReplaced pass.new.pass.number (front pass.new.pass)) end) }
    ensures goes { IfNone result (IsServed L.given L.got pass.new.pass link.new) }
    ensures served { IfSome result (λ end. WasServed L.given L.got (is_over end) pass.new.pass link.new) }
{
    let seen = bell.rings();
    match server.serve_one(rt, pass, link) {
        Ok(Turned::Took(told)) => {
            ring(rt, place, pass, told);
            None
        }
        Ok(Turned::Gave) => None,
        Ok(Turned::Idle) => {
            bell.wait(rt, seen);
            None
        }
        Ok(Turned::Busy) => {
            bell.wait(rt, seen);
            None
        }
        Ok(Turned::Replaced) => Some(Ok(Gone::Replaced)),
        Ok(Turned::Closed) => Some(Ok(Gone::Closed)),
        Err(ServeFault::Net) => Some(take_rest(rt, server, place, pass, link)),
        Err(fault) => Some(Err(fault)),
    }
}

// The link failed. What it gave before that is taken, a goodbye among it.
fn take_rest<K: Keeper + Drop, L: Link, D: Bell + Drop, R: Around + Eprint>(
    rt: &R,
    server: &SharedServer<K>,
    place: &Place<'_, L::Bell, D>,
    pass: &mut ServerPass<K>,
    link: &mut L,
) -> Result<Gone, ServeFault>
    requires pass { IsServerPass K.kept server.now.lock pass.old }
    requires served { IsServed L.given L.got pass.old.pass link.old }
    requires failed { 1 ≤ L.faults link.old }
    ensures pass { IsServerPass K.kept server.now.lock pass.new }
    ensures same { Same pass.old.pass pass.new.pass }
    ensures over { IsOverBy (L.faults link.new) (L.closes link.new) (L.given link.new) (WasReplaced pass.new.pass.number (front pass.new.pass)) result }
    ensures served { WasServed L.given L.got (is_over result) pass.new.pass link.new }
{
    for _ in 0..MOST_REST {
        match server.serve_one(rt, pass, link) {
            Ok(Turned::Took(told)) => ring(rt, place, pass, told),
            Ok(_) => return Err(ServeFault::Net),
            Err(fault) => return Err(fault),
        }
    }
    Err(ServeFault::Net)
}

// A message was taken. A Hello says whose link it is.
fn ring<K: Keeper + Drop, B: Bell + Drop, D: Bell + Drop, R: Around + Eprint>(
    rt: &R,
    place: &Place<'_, B, D>,
    pass: &ServerPass<K>,
    told: Told,
) {
    if pass.greets() && place.bells.greet(rt, place.number, pass.clerk()) {
        tell_greeting(rt, place.number, pass.clerk());
    }
    place.bells.ring(rt, place.number, told);
}
