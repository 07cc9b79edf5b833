// Servers and mounts over one net in memory, each in a thread of its own.
use crate::runs::{Echo, NONE, NetTypes, await_door, echoed_over, is_so, new_disk, new_net};
use ec_base::NoMemory;
use ec_link::{Around, FailSpawner, Link, MemNet, Net, Spawner, ThreadSpawner};
use std::alloc::Global;
use std::io::Eprint;
use std::thread;
use std::time::Duration;

// A net, for two threads.
fn shared_net(alloc: Global) -> Result<(MemNet, MemNet), NoMemory> {
    let net = new_net(alloc, 0)?;
    let other = net.share()?;
    Ok((net, other))
}

// Whether a server with these words ends with this status, and writes nothing.
fn is_served<R: Around + Eprint>(
    rt: &R,
    words: &str,
    net: &mut MemNet,
    spawner: &mut Spawner,
    status: u8,
) -> bool {
    let Ok(mut disk) = new_disk(rt.alloc(), 0) else {
        return false;
    };
    let echo = echoed_over(rt, words, b"", NONE, &mut disk, net, spawner, 1);
    drop(disk);
    is_so(echo, status, b"")
}

// A link that comes and goes.
fn come_and_go<R: Around>(rt: &R, mut net: MemNet) {
    await_door(rt, &net, "here");
    if let Ok(mut link) = net.call(rt, "here") {
        link.hang_up();
        drop(link);
    }
    drop(net);
}

// Whether a server with one link ends with this status.
fn is_served_once<R: Around + Eprint>(rt: &R, mut spawner: Spawner, status: u8) -> bool {
    let Ok((mut net, other)) = shared_net(rt.alloc()) else {
        return false;
    };
    let (is_served, ()) = thread::join(
        rt,
        || is_served(rt, "serve here 1", &mut net, &mut spawner, status),
        || come_and_go(rt, other),
    );
    drop(net);
    is_served
}

#[test]
fn serves_a_link(rt: HostRuntime) {
    drop::<NetTypes>((None, None));
    let threads = Spawner::Threads(ThreadSpawner::new());
    assert!(rt; is_served_once(&rt, threads, 0));
    let fails = Spawner::Fails(FailSpawner::new());
    assert!(rt; is_served_once(&rt, fails, 10));
}

// What a mount of clerk A with these lanes and this boot comes to, once somebody is there.
fn mounted<R: Around + Eprint>(
    rt: &R,
    net: &mut MemNet,
    lanes: &[u8],
    boot: u64,
) -> Result<Echo, NoMemory> {
    await_door(rt, net, "here");
    let mut disk = new_disk(rt.alloc(), 0)?;
    let mut spawner = Spawner::Threads(ThreadSpawner::new());
    let echo = echoed_over(
        rt,
        "mount here A",
        lanes,
        NONE,
        &mut disk,
        net,
        &mut spawner,
        boot,
    );
    drop(spawner);
    drop(disk);
    echo
}

// A mount with boot 2, and one with boot 1 behind it.
fn are_mounted<R: Around + Eprint>(rt: &R, mut net: MemNet) -> bool {
    let lanes = b"1 stat /\n";
    let text = b"1 1 stat / -> stat dir 0755 0 0\nend sync -> ok\n";
    let first = is_so(mounted(rt, &mut net, lanes, 2), 0, text);
    let second = is_so(mounted(rt, &mut net, lanes, 1), 13, b"oldboot 2\n");
    drop(net);
    first && second
}

const LANES: &[u8] = b"1 create /f\n1 write /f 0 hi\n2 stat /\n";

// The second lane's call may come before the first lane's.
const ANSWERS: [&[u8]; 2] = [
    b"1 1 create /f -> ok op 1\n2 1 write /f 0 hi -> ok op 2\n3 2 stat / -> stat dir 0755 0 0\nend sync -> ok\n",
    b"1 1 create /f -> ok op 1\n2 1 write /f 0 hi -> ok op 2\n3 2 stat / -> stat dir 0755 0 1\nend sync -> ok\n",
];

// A mount with two lanes.
fn is_answered<R: Around + Eprint>(rt: &R, mut net: MemNet) -> bool {
    let echo = mounted(rt, &mut net, LANES, 1);
    drop(net);
    match echo {
        Ok(echo) => echo.status == 0 && ANSWERS.iter().any(|text| echo.text.as_slice() == *text),
        Err(_) => false,
    }
}

// How many mounts there are beside a server.
#[derive(Clone, Copy, Drop)]
enum Mounts {
    One,
    Two,
}

// A server of so many links, and the mounts beside it.
fn are_well<R: Around + Eprint>(rt: &R, words: &str, mounts: Mounts) -> bool {
    let Ok((mut net, other)) = shared_net(rt.alloc()) else {
        return false;
    };
    let mut spawner = Spawner::Threads(ThreadSpawner::new());
    let (is_served, is_mounted) = thread::join(
        rt,
        || is_served(rt, words, &mut net, &mut spawner, 0),
        || match mounts {
            Mounts::One => is_answered(rt, other),
            Mounts::Two => are_mounted(rt, other),
        },
    );
    drop(net);
    drop(spawner);
    is_served && is_mounted
}

#[test]
fn answers_both_lanes(rt: HostRuntime) {
    drop::<NetTypes>((None, None));
    assert!(rt; are_well(&rt, "serve here 1", Mounts::One));
}

#[test]
fn tells_a_greater_boot(rt: HostRuntime) {
    drop::<NetTypes>((None, None));
    assert!(rt; are_well(&rt, "serve here 2", Mounts::Two));
}

// When a server lets a link go.
#[derive(Clone, Copy, Drop)]
enum Goes {
    AtOnce,
    Greeted,
}

// Takes a link at the address, and lets it go. A greeting may come meanwhile, or can't be sent.
fn lets_go<R: Around>(rt: &R, net: &mut MemNet, goes: Goes) -> bool {
    let Ok(mut door) = net.listen(rt, "here") else {
        return false;
    };
    let Ok(mut link) = net.accept(rt, &mut door) else {
        drop(door);
        return false;
    };
    match goes {
        Goes::AtOnce => {}
        Goes::Greeted => thread::sleep(rt, Duration::from_millis(500)),
    }
    link.hang_up();
    drop(link);
    drop(door);
    true
}

// A mount whose first links go, and a server that comes then.
fn are_linked_again<R: Around + Eprint>(rt: &R, goes: Goes) -> bool {
    let Ok((mut net, other)) = shared_net(rt.alloc()) else {
        return false;
    };
    let mut spawner = Spawner::Threads(ThreadSpawner::new());
    let (is_served, is_mounted) = thread::join(
        rt,
        || {
            lets_go(rt, &mut net, goes)
                && lets_go(rt, &mut net, goes)
                && is_served(rt, "serve here 1", &mut net, &mut spawner, 0)
        },
        || is_answered(rt, other),
    );
    drop(net);
    drop(spawner);
    is_served && is_mounted
}

#[test]
fn links_again(rt: HostRuntime) {
    drop::<NetTypes>((None, None));
    assert!(rt; are_linked_again(&rt, Goes::Greeted));
}

#[test]
fn links_again_before_it_greeted(rt: HostRuntime) {
    drop::<NetTypes>((None, None));
    assert!(rt; are_linked_again(&rt, Goes::AtOnce));
}
