// A create is flushed until it's settled.
ghost use Rattle.ec_lock.specs.PassViews.{IsPassOf};

use ec_base::Path;
use ec_clerknode::{Node, NodeFault, SharedClerk};
use ec_link::{Around, MemLink};
use ec_lock::Pass;
use ec_log::Asked;
use ec_plain::Call;
use ec_protocol::Flushed;
use ec_words::text::print_answer;
use std::sync::Mutex;

fn is_created<R: Around>(
    rt: &R,
    clerk: &SharedClerk<MemLink>,
    pass: &mut Pass<Node<MemLink>>,
) -> Option<bool>
    requires { IsPassOf clerk.now.lock pass.old }
    ensures { IsPassOf clerk.now.lock pass.new }
{
    let path = Path::read(rt.alloc(), b"/f").ok()?;
    let (answer, op) = clerk.call_op(rt, pass, Call::Create(path)).ok()?;
    let text = print_answer(rt.alloc(), &answer, op);
    drop(answer);
    Some(text.ok()?.as_slice() == b"ok op 1".as_slice())
}

fn flushed<R: Around>(
    rt: &R,
    clerk: &SharedClerk<MemLink>,
    pass: &mut Pass<Node<MemLink>>,
) -> Result<Flushed, NodeFault>
    requires { IsPassOf clerk.now.lock pass.old }
    ensures { IsPassOf clerk.now.lock pass.new }
{
    clerk.flush_turn(rt, pass, Asked::All)
}

// Whether the batch goes out once, and is behind in each turn while the server is held up.
fn stays_behind<R: Around>(
    rt: &R,
    clerk: &SharedClerk<MemLink>,
    pass: &mut Pass<Node<MemLink>>,
    turn: &Mutex<bool>,
) -> bool
    requires { IsPassOf clerk.now.lock pass.old }
    ensures { IsPassOf clerk.now.lock pass.new }
{
    let _held = turn.lock(rt);
    let first = flushed(rt, clerk, pass);
    let second = flushed(rt, clerk, pass);
    let third = flushed(rt, clerk, pass);
    first == Ok(Flushed::Sent(1))
        && second == Ok(Flushed::Behind(1))
        && third == Ok(Flushed::Behind(1))
}

// Whether the batch is behind in each turn, and then settled.
fn is_settled<R: Around>(
    rt: &R,
    clerk: &SharedClerk<MemLink>,
    pass: &mut Pass<Node<MemLink>>,
) -> bool
    requires { IsPassOf clerk.now.lock pass.old }
    ensures { IsPassOf clerk.now.lock pass.new }
{
    for _ in rt.forever() {
        let next = flushed(rt, clerk, pass);
        if next != Ok(Flushed::Behind(1)) {
            return next == Ok(Flushed::Settled);
        }
    }
    unreachable!()
}

/// A create, flush turns of it, and goodbye.
pub fn settle<R: Around>(
    rt: &R,
    clerk: SharedClerk<MemLink>,
    pass: Pass<Node<MemLink>>,
    turn: &Mutex<bool>,
) -> bool
    requires { IsPassOf clerk.lock pass }
{
    let mut own = pass;
    let created = is_created(rt, &clerk, &mut own);
    let behind = stays_behind(rt, &clerk, &mut own, turn);
    let settled = is_settled(rt, &clerk, &mut own);
    let bye = clerk.bye(rt, &mut own).is_ok();
    drop(own);
    drop(clerk);
    created == Some(true) && behind && settled && bye
}
