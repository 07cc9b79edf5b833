// A shared server over a link that fails, and over bytes that are no message.
ghost use Rattle.ec_servernode.specs.TurnSteps.{IsServerPass};

use crate::runs::NetTypes;
use crate::serving::{keeper, shared_server};
use ec_base::NoMemory;
use ec_link::{Around, Link, MemLink, Sent, mem_pair};
use ec_server::Keeper;
use ec_servernode::{ServeFault, ServerPass, SharedServer, Turned};
use ec_wire::WireFault;
use std::alloc::Global;

const HELLO: [u8; 14] = [8, 0, 0, 0, 0, 0, 0, 0, 0, 1, 0, 0, 0, 0];

const KEPT: [u8; 25] = [
    68, 0, 0, 0, 0, 0, 0, 0, 1, 0, 0, 0, 0, 0, 0, 0, 1, 0, 0, 0, 0, 0, 0, 0, 1,
];

// What a turn came to.
#[derive(Clone, Copy, Drop, PartialEq)]
enum Came {
    Took,
    Gave,
    NetFailed,
    TooLong(u32),
    EndedAt(usize),
    UnknownKind(u8),
    Otherwise,
}

fn what_came(turned: Result<Turned, ServeFault>) -> Came {
    match turned {
        Ok(Turned::Took(_)) => Came::Took,
        Ok(Turned::Gave) => Came::Gave,
        Ok(_) => Came::Otherwise,
        Err(ServeFault::Net) => Came::NetFailed,
        Err(ServeFault::Long(length)) => Came::TooLong(length),
        Err(ServeFault::Peer(WireFault::Short(place))) => Came::EndedAt(place),
        Err(ServeFault::Peer(WireFault::Kind(kind))) => Came::UnknownKind(kind),
        Err(_) => Came::Otherwise,
    }
}

// What one turn with the link comes to where its other end gives these bytes.
fn met_by<K: Keeper + Drop, R: Around>(
    rt: &R,
    server: &SharedServer<K>,
    pass: &mut ServerPass<K>,
    near: &mut MemLink,
    far: &mut MemLink,
    bytes: &[u8],
) -> Came
    requires { IsServerPass K.kept server.now.lock pass.old }
    ensures { IsServerPass K.kept server.now.lock pass.new }
{
    let is_put = near.put_raw(rt, bytes).is_ok();
    let turned = what_came(server.serve_one(rt, pass, far));
    if is_put { turned } else { Came::Otherwise }
}

// The front of a message of so many bytes, in a frame of its own, is refused where it ends.
fn front_is_refused<K: Keeper + Drop, R: Around>(
    rt: &R,
    server: &SharedServer<K>,
    pass: &mut ServerPass<K>,
    near: &mut MemLink,
    far: &mut MemLink,
    count: usize,
) -> bool
    requires { IsServerPass K.kept server.now.lock pass.old }
    ensures { IsServerPass K.kept server.now.lock pass.new }
{
    if count >= KEPT.len() {
        return false;
    }
    let mut frame = [0; 29];
    frame[3] = count as u8;
    frame[4..4 + count].copy_from_slice(&KEPT[..count]);
    met_by(rt, server, pass, near, far, &frame[..4 + count]) == Came::EndedAt(count)
}

fn fronts_are_refused<K: Keeper + Drop, R: Around>(
    rt: &R,
    server: &SharedServer<K>,
    pass: &mut ServerPass<K>,
    near: &mut MemLink,
    far: &mut MemLink,
) -> bool
    requires { IsServerPass K.kept server.now.lock pass.old }
    ensures { IsServerPass K.kept server.now.lock pass.new }
{
    for count in 0..KEPT.len() {
        if !front_is_refused(rt, server, pass, near, far, count) {
            return false;
        }
    }
    true
}

// A kind that there isn't, and a length above the limit, which is told again.
fn others_are_refused<K: Keeper + Drop, R: Around>(
    rt: &R,
    server: &SharedServer<K>,
    pass: &mut ServerPass<K>,
    near: &mut MemLink,
    far: &mut MemLink,
) -> bool
    requires { IsServerPass K.kept server.now.lock pass.old }
    ensures { IsServerPass K.kept server.now.lock pass.new }
{
    let kind = Came::UnknownKind(0);
    let long = Came::TooLong(1_048_577);
    met_by(rt, server, pass, near, far, &[0, 0, 0, 1, 0]) == kind
        && met_by(rt, server, pass, near, far, &[0, 16, 0, 1]) == long
        && met_by(rt, server, pass, near, far, &[]) == long
}

// The first receive fails, and so does the first send, which is the third call behind the greeting and a receive that gives nothing.
fn calls_fail<K: Keeper + Drop, R: Around>(
    rt: &R,
    server: &SharedServer<K>,
    pass: &mut ServerPass<K>,
    near: &mut MemLink,
    far: &mut MemLink,
) -> bool
    requires { IsServerPass K.kept server.now.lock pass.old }
    ensures { IsServerPass K.kept server.now.lock pass.new }
{
    met_by(rt, server, pass, near, far, &[]) == Came::NetFailed
        && near.send(rt, &HELLO) == Sent::Done
        && met_by(rt, server, pass, near, far, &[]) == Came::Took
        && met_by(rt, server, pass, near, far, &[]) == Came::NetFailed
}

fn are_refused<K: Keeper + Drop, R: Around>(
    rt: &R,
    server: &SharedServer<K>,
    pass: &mut ServerPass<K>,
    near: &mut MemLink,
    far: &mut MemLink,
    fails: Vec<u64>,
) -> bool
    requires { IsServerPass K.kept server.now.lock pass.old }
{
    far.fail_at(fails);
    calls_fail(rt, server, pass, near, far)
        && fronts_are_refused(rt, server, pass, near, far)
        && others_are_refused(rt, server, pass, near, far)
}

fn failing(alloc: Global) -> Result<(MemLink, MemLink, Vec<u64>), NoMemory> {
    let fails = Vec::from_slice(alloc, &[1u64, 4])?;
    let (near, far) = mem_pair(alloc)?;
    Ok((near, far, fails))
}

fn is_robust<K: Keeper + Drop, R: Around>(rt: &R, keeper: K) -> Option<bool> {
    let (server, mut pass) = shared_server(rt.alloc(), keeper)?;
    let Ok((mut near, mut far, fails)) = failing(rt.alloc()) else {
        drop(pass);
        drop(server);
        return None;
    };
    let is_so = are_refused(rt, &server, &mut pass, &mut near, &mut far, fails);
    drop(near);
    drop(far);
    drop(pass);
    drop(server);
    Some(is_so)
}

fn all_is_refused<R: Around>(rt: &R) -> bool {
    match keeper(rt.alloc()) {
        Some(keeper) => is_robust(rt, keeper) == Some(true),
        None => false,
    }
}

#[test]
fn links_that_fail_end_nothing_else(rt: HostRuntime) {
    drop::<NetTypes>((None, None));
    assert!(rt; all_is_refused(&rt));
}
