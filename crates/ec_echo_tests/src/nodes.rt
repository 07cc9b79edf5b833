// A shared clerk and a shared server, each in a thread of its own.
ghost use Rattle.std.specs.Prelude.{IfSome};
ghost use Rattle.std.specs.Thread.{IsSync};
ghost use Rattle.ec_lock.specs.PassViews.{IsPassOf};
ghost use Rattle.ec_servernode.specs.TurnSteps.{IsServerPass};

use crate::lanes::run_both;
use crate::runs::NetTypes;
use crate::serving::{keeper, serve, shared_server};
use crate::settling::settle;
use ec_base::ClerkId;
use ec_clerk::Clerk;
use ec_clerknode::{Node, SharedClerk, send_all};
use ec_link::{Around, Link, MemLink, Sent, mem_pair};
use ec_lock::Pass;
use ec_server::Keeper;
use std::sync::Mutex;
use std::thread::join;

// What the clerk does.
#[derive(Clone, Copy, Drop)]
enum Work {
    Settles,
    RunsLanes,
}

// A clerk that has greeted over this end of a link.
fn greeted<R: Around>(rt: &R, link: &mut MemLink) -> Option<Clerk> {
    let id = ClerkId::new(0)?;
    let (clerk, outs) = Clerk::start(rt.alloc(), id, 1).ok()?;
    let (_, end) = send_all(rt, rt.alloc(), link, &outs);
    drop(outs);
    if end != Sent::Done {
        drop(clerk);
        return None;
    }
    Some(clerk)
}

fn shared_clerk<R: Around>(
    rt: &R,
    mut link: MemLink,
) -> Option<(SharedClerk<MemLink>, Pass<Node<MemLink>>)>
    ensures { IfSome result (λ made. IsPassOf made.0.lock made.1) }
{
    let Ok(bell) = link.bell(rt) else {
        drop(link);
        return None;
    };
    let Some(clerk) = greeted(rt, &mut link) else {
        drop(bell);
        drop(link);
        return None;
    };
    SharedClerk::new(rt.alloc(), clerk, link, bell).ok()
}

// The link ends with the clerk.
fn does<R: Around>(
    rt: &R,
    clerk: SharedClerk<MemLink>,
    pass: Pass<Node<MemLink>>,
    work: Work,
    turn: &Mutex<bool>,
) -> bool
    requires { IsPassOf clerk.lock pass }
{
    match work {
        Work::Settles => settle(rt, clerk, pass, turn),
        Work::RunsLanes => run_both(rt, clerk, pass),
    }
}

// The clerk beside a server that starts on what the keeper keeps.
fn does_beside<K: Keeper + Send + Drop, R: Around>(rt: &R, keeper: K, work: Work) -> Option<bool> {
    let (server, other) = shared_server(rt.alloc(), keeper)?;
    let Ok((near, far)) = mem_pair(rt.alloc()) else {
        drop(other);
        drop(server);
        return None;
    };
    let Some((clerk, pass)) = shared_clerk(rt, near) else {
        drop(far);
        drop(other);
        drop(server);
        return None;
    };
    let turn = Mutex::new(false);
    let (is_done, is_served) = join(
        rt,
        || -> bool
            requires { IsSync R.row × IsPassOf clerk.lock pass }
        { does(rt, clerk, pass, work, &turn) },
        || -> bool
            requires { IsSync R.row × IsServerPass K.kept server.lock other }
        { serve(rt, &server, other, far, &turn) },
    );
    drop(server);
    Some(is_done && is_served)
}

fn is_done<R: Around>(rt: &R, work: Work) -> bool {
    match keeper(rt.alloc()) {
        Some(keeper) => does_beside(rt, keeper, work) == Some(true),
        None => false,
    }
}

#[test]
fn settles_what_it_made(rt: HostRuntime) {
    drop::<NetTypes>((None, None));
    assert!(rt; is_done(&rt, Work::Settles));
}

#[test]
fn runs_lanes_at_the_same_time(rt: HostRuntime) {
    drop::<NetTypes>((None, None));
    assert!(rt; is_done(&rt, Work::RunsLanes));
}
