//! Links in memory and over loopback, as their ends see them.

use ec_link::{Around, Bell, Got, Link, MemLink, Net, Sent, TcpNet, mem_pair};
use std::net::{TcpListener, TcpStream};
use std::sync::Wait;
use std::thread;
use std::time::{Clock, Duration};

// The types of the runtime's net. A test names them, so that its table of types has them.
type NetTypes = (Option<TcpListener>, Option<TcpStream>);

// What a link gives; of a body, whether it's `hi`.
#[derive(Clone, Copy, PartialEq)]
enum Given {
    Hi,
    Other,
    Nothing,
    Long(u32),
    Closed,
    Failed,
}

fn without_bytes(got: &Got) -> Given {
    match got {
        Got::Body(body) => {
            if body.as_slice() == b"hi".as_slice() {
                Given::Hi
            } else {
                Given::Other
            }
        }
        Got::Nothing => Given::Nothing,
        Got::Long(length) => Given::Long(*length),
        Got::Closed => Given::Closed,
        Got::Failed | Got::NoMemory => Given::Failed,
    }
}

// Whether the link gives this next.
fn gives<L: Link, R: Wait + Clock>(rt: &R, link: &mut L, want: Given) -> bool {
    let got = link.recv(rt);
    let given = without_bytes(&got);
    drop(got);
    given == want
}

fn sends<L: Link, R: Wait + Clock>(rt: &R, link: &mut L, body: &[u8]) -> bool {
    link.send(rt, body) == Sent::Done
}

fn body_comes<R: Wait + Clock>(rt: &R, left: &mut MemLink, right: &mut MemLink) -> bool {
    gives(rt, right, Given::Nothing) && sends(rt, left, b"hi") && gives(rt, right, Given::Hi)
}

// The second call of the left end fails.
fn listed_call_fails<R: Wait + Clock>(
    rt: &R,
    fails: Vec<u64>,
    left: &mut MemLink,
    right: &mut MemLink,
) -> bool {
    left.fail_at(fails);
    sends(rt, left, b"one")
        && gives(rt, left, Given::Failed)
        && gives(rt, left, Given::Nothing)
        && gives(rt, right, Given::Other)
}

fn is_over<R: Wait + Clock>(rt: &R, right: &mut MemLink) -> bool {
    gives(rt, right, Given::Closed) && right.send(rt, b"hi") == Sent::Failed
}

// A body, a call that fails, and the end of the left end.
fn ends_see<R: Wait + Clock>(
    rt: &R,
    fails: Vec<u64>,
    mut left: MemLink,
    right: &mut MemLink,
) -> bool {
    let is_right = body_comes(rt, &mut left, right)
        && listed_call_fails(rt, fails, &mut left, right);
    drop(left);
    is_right && is_over(rt, right)
}

#[test]
fn bodies_a_fault_and_the_end(rt: HostRuntime) {
    let fails = Vec::from_slice(rt.alloc(), &[2u64]).expect(&rt, "memory");
    let (left, mut right) = mem_pair(rt.alloc()).expect(&rt, "memory");
    let is_right = ends_see(&rt, fails, left, &mut right);
    drop(right);
    assert!(rt; is_right);
}

// A length that is too long is told again and again.
fn are_told<R: Wait + Clock>(rt: &R, left: &mut MemLink, right: &mut MemLink) -> bool {
    left.put_raw(rt, &[0, 0, 0]).is_ok()
        && gives(rt, right, Given::Nothing)
        && left.put_raw(rt, &[1, 7, 0, 16, 0, 1]).is_ok()
        && gives(rt, right, Given::Other)
        && gives(rt, right, Given::Long(1_048_577))
        && gives(rt, right, Given::Long(1_048_577))
}

#[test]
fn raw_bytes_come_as_they_are(rt: HostRuntime) {
    let (mut left, mut right) = mem_pair(rt.alloc()).expect(&rt, "memory");
    let is_right = are_told(&rt, &mut left, &mut right);
    drop(left);
    drop(right);
    assert!(rt; is_right);
}

fn rings_and_comes<L: Link, R: Around>(rt: &R, near: &mut L, far: &mut L) -> bool {
    let Ok(bell) = far.bell(rt) else {
        return false;
    };
    let seen = bell.rings();
    let is_sent = gives(rt, far, Given::Nothing) && sends(rt, near, b"hi");
    if is_sent {
        bell.wait(rt, seen);
    }
    drop(bell);
    is_sent && gives(rt, far, Given::Hi)
}

// Both ends of a link at this address.
fn ends<N: Net, R: Around>(rt: &R, net: &mut N, addr: &str) -> Option<(N::Link, N::Link)> {
    let mut door = net.listen(rt, addr).ok()?;
    let near = net.call(rt, addr).ok()?;
    let far = net.accept(rt, &mut door).ok()?;
    Some((near, far))
}

// Whether a body comes over the net, which takes the link back.
fn body_comes_over<N: Net, R: Around>(rt: &R, net: &mut N, addr: &str) -> bool {
    match ends(rt, net, addr) {
        Some((mut near, mut far)) => {
            let comes = rings_and_comes(rt, &mut near, &mut far);
            drop(near);
            net.back(far).is_ok() && comes
        }
        None => false,
    }
}

#[test]
fn body_over_loopback(rt: HostRuntime) {
    drop::<NetTypes>((None, None));
    let mut net = TcpNet::new();
    assert!(rt; body_comes_over(&rt, &mut net, "127.0.0.1:4712"));
}

// Whether the link gives this within a second.
fn comes<L: Link, R: Around>(rt: &R, link: &mut L, want: Given) -> bool {
    for _ in 0..100 {
        if gives(rt, link, want) {
            return true;
        }
        thread::sleep(rt, Duration::from_millis(10));
    }
    false
}

// How an end of a link ends it.
#[derive(Clone, Copy)]
enum Goes {
    HangsUp,
    Leaves,
}

// Whether the other end finds the link closed while this end still has it.
fn is_found_closed<N: Net, R: Around>(rt: &R, net: &mut N, addr: &str, goes: Goes) -> bool {
    let Some((mut near, mut far)) = ends(rt, net, addr) else {
        return false;
    };
    match goes {
        Goes::HangsUp => near.hang_up(),
        Goes::Leaves => near.leave(rt),
    }
    let is_closed = comes(rt, &mut far, Given::Closed);
    drop(near);
    drop(far);
    is_closed
}

#[test]
fn ended_link_is_found_closed(rt: HostRuntime) {
    drop::<NetTypes>((None, None));
    let mut net = TcpNet::new();
    assert!(rt; is_found_closed(&rt, &mut net, "127.0.0.1:4713", Goes::HangsUp));
    assert!(rt; is_found_closed(&rt, &mut net, "127.0.0.1:4714", Goes::Leaves));
}
