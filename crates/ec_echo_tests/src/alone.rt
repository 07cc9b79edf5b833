// A server and a clerk, each by itself.
ghost use Rattle.std.specs.Prelude.{IfSome};
ghost use Rattle.ec_server.specs.Servers.{StandsOn};

use crate::serving::keeper;
use ec_base::{Age, ClerkId, Hold, List, NoMemory, ObjId, OpNo, Path, SessionNo};
use ec_clerk::Clerk;
use ec_durable::Record;
use ec_log::Asked;
use ec_plain::Call;
use ec_protocol::{ClerkFault, Flushed, Out, Served};
use ec_server::{InMemory, Server, ServerFault};
use ec_volume::Update;
use ec_wire::Msg;
use std::alloc::Global;

// What a step of a server writes down.
#[derive(Clone, Copy, Drop, PartialEq)]
enum Noted {
    Epoch(u64),
    Opened(u64),
    Ended(u64),
    Nothing,
    Other,
}

fn recorded(served: Result<Served, ServerFault>) -> Noted {
    match &served {
        Ok(served) => match &served.rec {
            Some(Record::Epoch(epoch)) => Noted::Epoch(*epoch),
            Some(Record::Open(_, _, session)) => Noted::Opened(session.0),
            Some(Record::End(_, session)) => Noted::Ended(session.0),
            Some(_) => Noted::Other,
            None => Noted::Nothing,
        },
        Err(_) => Noted::Other,
    }
}

fn start(alloc: Global) -> Option<(Server, InMemory, Noted)>
    ensures { IfSome result (λ made. StandsOn made.1 made.0) }
{
    let mut keeper = keeper(alloc)?;
    let (server, served) = Server::start(alloc, &mut keeper).ok()?;
    Some((server, keeper, recorded(Ok(served))))
}

// What a start, a greeting and two ends of a session write down.
fn session(alloc: Global) -> Option<[Noted; 4]> {
    let clerk = ClerkId::new(0)?;
    let hello = Msg::Hello(clerk, Age { boot: 1, round: 0 });
    let (mut server, mut keeper, begun) = start(alloc)?;
    let opened = recorded(server.take(&mut keeper, clerk, &hello));
    let ended = recorded(server.end(&mut keeper, clerk));
    let again = recorded(server.end(&mut keeper, clerk));
    Some([begun, opened, ended, again])
}

#[test]
fn session_ends_once(rt: HostRuntime) {
    let wanted = [
        Noted::Epoch(1),
        Noted::Opened(1),
        Noted::Ended(1),
        Noted::Nothing,
    ];
    assert!(rt; session(rt.alloc()) == Some(wanted));
}

// How many messages a step sends: none, or an end of this session with nothing of its window, or others.
#[derive(Clone, Copy, Drop, PartialEq)]
enum Told {
    Nobody,
    Ended(u8, u64),
    Others,
}

fn what_was_told(served: &Result<Served, ServerFault>) -> Told {
    match served {
        Ok(served) => match served.sent.as_slice() {
            [] => Told::Nobody,
            [(clerk, Msg::Ended(session, 0, 0))] => Told::Ended(clerk.get(), session.0),
            _ => Told::Others,
        },
        Err(_) => Told::Others,
    }
}

// What a step of a server sends and writes down.
fn step(server: &mut Server, keeper: &mut InMemory, clerk: ClerkId, msg: &Msg) -> (Told, Noted)
    requires { StandsOn keeper.old server.old }
    ensures { StandsOn keeper.new server.new }
{
    if !msg.sound() {
        return (Told::Others, Noted::Other);
    }
    let served = server.take(keeper, clerk, msg);
    (what_was_told(&served), recorded(served))
}

fn greets_as(server: &mut Server, keeper: &mut InMemory, clerk: ClerkId) -> Noted
    requires { StandsOn keeper.old server.old }
    ensures { StandsOn keeper.new server.new }
{
    step(
        server,
        keeper,
        clerk,
        &Msg::Hello(clerk, Age { boot: 1, round: 0 }),
    )
    .1
}

// A batch of a stamp on the root, in the first session.
fn stamps_the_root(alloc: Global) -> Result<Msg, NoMemory> {
    let stamp = Update::Stamp {
        obj: ObjId::root(),
        stamp: 7,
    };
    let mut ops = Vec::with_capacity(alloc, 1)?;
    ops.push((OpNo(1), stamp))?;
    Ok(Msg::Flush(SessionNo(1), 1, 1, List::of(ops)))
}

// A clerk that flushes where it holds no token.
fn flushes_unheld(alloc: Global) -> Option<(Noted, (Told, Noted))> {
    let clerk = ClerkId::new(0)?;
    let flush = stamps_the_root(alloc).ok()?;
    let (mut server, mut keeper, _) = start(alloc)?;
    let opened = greets_as(&mut server, &mut keeper, clerk);
    let flushed = step(&mut server, &mut keeper, clerk, &flush);
    Some((opened, flushed))
}

#[test]
fn flush_without_a_token_ends_the_session(rt: HostRuntime) {
    let wanted = (Noted::Opened(1), (Told::Ended(0, 1), Noted::Ended(1)));
    assert!(rt; flushes_unheld(rt.alloc()) == Some(wanted));
}

// A claim on the root for writing, by this session in the second epoch.
fn claims_the_root(alloc: Global, session: u64) -> Result<Msg, NoMemory> {
    let mut tokens = Vec::with_capacity(alloc, 1)?;
    tokens.push((ObjId::root(), Hold::Write))?;
    Ok(Msg::Claim(SessionNo(session), 2, List::of(tokens)))
}

fn claims(
    alloc: Global,
    server: &mut Server,
    keeper: &mut InMemory,
    clerk: ClerkId,
    session: u64,
) -> Option<(Told, Noted)>
    requires { StandsOn keeper.old server.old }
    ensures { StandsOn keeper.new server.new }
{
    let Ok(claim) = claims_the_root(alloc, session) else {
        return None;
    };
    Some(step(server, keeper, clerk, &claim))
}

// The keeper of a server with sessions of both clerks.
fn with_sessions(alloc: Global, first: ClerkId, second: ClerkId) -> Option<InMemory> {
    let (mut server, mut keeper, _) = start(alloc)?;
    let is_first = greets_as(&mut server, &mut keeper, first) == Noted::Opened(1);
    let is_second = greets_as(&mut server, &mut keeper, second) == Noted::Opened(2);
    drop(server);
    (is_first && is_second).then_some(keeper)
}

// Two clerks that claim the same object behind a restart: what the later claim comes to.
fn both_claim(alloc: Global) -> Option<[(Told, Noted); 2]> {
    let first = ClerkId::new(0)?;
    let second = ClerkId::new(1)?;
    let mut keeper = with_sessions(alloc, first, second)?;
    let (mut server, _) = Server::start(alloc, &mut keeper).ok()?;
    let one = claims(alloc, &mut server, &mut keeper, first, 1)?;
    let other = claims(alloc, &mut server, &mut keeper, second, 2)?;
    Some([one, other])
}

#[test]
fn claim_against_a_claim_ends_the_session(rt: HostRuntime) {
    let wanted = [
        (Told::Nobody, Noted::Nothing),
        (Told::Ended(1, 2), Noted::Ended(2)),
    ];
    assert!(rt; both_claim(rt.alloc()) == Some(wanted));
}

// Whether a greeting is all that goes out.
fn greets(outs: Result<Vec<Out>, ClerkFault>) -> bool {
    match &outs {
        Ok(outs) => match outs.as_slice() {
            [Out::Send(Msg::Hello(_, age))] => age.boot == 7 && age.round == 0,
            _ => false,
        },
        Err(_) => false,
    }
}

// Whether the first call waits: nothing goes out.
fn waits(begun: Result<(u64, Vec<Out>), ClerkFault>) -> bool {
    match &begun {
        Ok(begun) => begun.0 == 1 && begun.1.is_empty(),
        Err(_) => false,
    }
}

fn flushed(flushed: Result<(Flushed, Vec<Out>), ClerkFault>) -> Option<Flushed> {
    match &flushed {
        Ok(flushed) => Some(flushed.0),
        Err(_) => None,
    }
}

// A clerk that nobody answers greets, lets its first call wait, greets again, has issued nothing, and has nothing to flush.
fn clerk_waits(alloc: Global) -> Option<bool> {
    let id = ClerkId::new(1)?;
    let stat = Call::Stat(Path::read(alloc, b"/").ok()?);
    let (mut clerk, outs) = Clerk::start(alloc, id, 7).ok()?;
    let greets_first = greets(Ok(outs));
    let does_wait = waits(clerk.begin(stat));
    let greets_again = greets(clerk.resend());
    let has_none = clerk.push(OpNo(1)).err() == Some(ClerkFault::NoSuchOp);
    let is_settled = flushed(clerk.flush(Asked::All)) == Some(Flushed::Settled);
    Some(greets_first && does_wait && greets_again && has_none && is_settled)
}

#[test]
fn clerk_without_a_server_waits(rt: HostRuntime) {
    assert!(rt; clerk_waits(rt.alloc()) == Some(true));
}
