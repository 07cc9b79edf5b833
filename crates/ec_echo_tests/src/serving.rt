// The server's side.
ghost use Rattle.std.specs.Prelude.{IfSome};
ghost use Rattle.ec_servernode.specs.TurnSteps.{IsServerPass};

use ec_durable::{Durable, formatted_states_are_in_order};
use ec_link::{Around, Bell, Link, MemBell, MemLink};
use ec_server::{InMemory, Keeper, Server};
use ec_servernode::{ServerPass, SharedServer, Turned};
use std::alloc::Global;
use std::sync::Mutex;

pub fn keeper(alloc: Global) -> Option<InMemory> {
    formatted_states_are_in_order();
    let state = Durable::formatted(alloc, 32).ok()?;
    Some(InMemory::new(state))
}

pub fn shared_server<K: Keeper + Drop>(
    alloc: Global,
    keeper: K,
) -> Option<(SharedServer<K>, ServerPass<K>)>
    ensures { IfSome result (λ made. IsServerPass K.kept made.0.lock made.1) }
{
    let mut keeper = keeper;
    let (server, begun) = Server::start(alloc, &mut keeper).ok()?;
    SharedServer::new(alloc, server, begun, keeper).ok()
}

// One turn with the link, unless somebody holds it up. Whether it ended well, where it ended.
fn take_turn<K: Keeper + Drop, R: Around>(
    rt: &R,
    server: &SharedServer<K>,
    pass: &mut ServerPass<K>,
    link: &mut MemLink,
    bell: &MemBell,
    turn: &Mutex<bool>,
) -> Option<bool>
    requires { IsServerPass K.kept server.now.lock pass.old }
    ensures { IsServerPass K.kept server.now.lock pass.new }
{
    let seen = bell.rings();
    let turned = {
        let _held = turn.lock(rt);
        server.serve_one(rt, pass, link)
    };
    match turned {
        Ok(Turned::Closed | Turned::Replaced) => Some(true),
        Ok(Turned::Idle) => {
            bell.wait(rt, seen);
            None
        }
        Ok(_) => None,
        Err(_) => Some(false),
    }
}

// Turns with the link until its other end is gone. True if nothing failed.
fn take_turns<K: Keeper + Drop, R: Around>(
    rt: &R,
    server: &SharedServer<K>,
    pass: &mut ServerPass<K>,
    link: &mut MemLink,
    bell: &MemBell,
    turn: &Mutex<bool>,
) -> bool
    requires { IsServerPass K.kept server.now.lock pass.old }
{
    for _ in rt.forever() {
        if let Some(is_well) = take_turn(rt, server, pass, link, bell, turn) {
            return is_well;
        }
    }
    unreachable!()
}

/// Serves the link until its other end is gone. True if nothing failed.
pub fn serve<K: Keeper + Drop, R: Around>(
    rt: &R,
    server: &SharedServer<K>,
    pass: ServerPass<K>,
    link: MemLink,
    turn: &Mutex<bool>,
) -> bool
    requires { IsServerPass K.kept server.now.lock pass }
{
    let mut own = pass;
    let mut link = link;
    let bell = link.bell(rt);
    let is_well = match &bell {
        Ok(bell) => take_turns(rt, server, &mut own, &mut link, bell, turn),
        Err(_) => false,
    };
    drop(bell);
    drop(link);
    drop(own);
    is_well
}
